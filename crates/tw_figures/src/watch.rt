//! An observation in the course of a run.

ghost use Rattle.std.specs.Prelude.{◌≡◌, ◌++◌, ◌∷◌, [], ℕ, ℤ, List};
ghost use Rattle.tw_figures.specs.Figures.{IsNext};
ghost use Rattle.tw_figures.specs.Observed.{IsWatch};
ghost use Rattle.tw_msgs.specs.declared.record.Record.{Record as TheRecord};
ghost use Rattle.tw_vtime.specs.Stamps.{tick_of};

use crate::power_sums::PowerSums;
use tw_msgs::Words;

/// What an observation had added up when the component came to a tick, and what it has added up by now.
#[derive(Clone, Copy, Debug, PartialEq, Eq)]
pub struct Watch {
    /// The place of the first of its numbers among the words of a state.
    pub place: usize,
    /// Its numbers in the state in which the component came to the tick.
    pub first: PowerSums,
    /// Its numbers now.
    pub last: PowerSums,
}

impl Watch {
    /// An observation before any transition, of a component that starts in a state of these words.
    pub fn new(place: usize, words: &Words) -> Watch
        ensures watch { (from : ℕ) → IsWatch from words.now [] result }
        ensures place { result.place ≡ place }
    {
        let sums = PowerSums::new(place, words);
        Watch {
            place,
            first: sums,
            last: sums,
        }
    }

    /// A transition at a tick, not before any other, to a state of these words. Where it is before the tick `from`, the
    /// component comes to that with what it has then added up.
    pub fn take(&mut self, from: u64, tick: u64, words: &Words)
        ensures watch { (start : List ℤ) (moves : List TheRecord) (r : TheRecord)
            → tick_of r.stamp ≡ tick → r.words ≡ words.now → IsNext moves r
            → IsWatch from start moves self.old → IsWatch from start (moves ++ r ∷ []) self.new }
        ensures place { self.new.place ≡ self.old.place }
    {
        self.last = PowerSums::new(self.place, words);
        if tick < from {
            self.first = self.last;
        }
    }
}
