//! What is told of a figure.

ghost use Rattle.std.specs.Prelude.{◌≤◌, ◌-◌, ℤ, List, IfSome};
ghost use Rattle.tw_figures.specs.Figures.{IsCourse};
ghost use Rattle.tw_figures.specs.Told.{IsTold};
ghost use Rattle.tw_msgs.specs.declared.record.Record.{Record as TheRecord};

use crate::course::{Course, Sums};
use crate::shares::{mean, share};

/// What is told of a figure over the ticks of a time.
#[derive(Clone, Copy, Debug, PartialEq, Eq)]
pub struct Told {
    /// The least of the values that it had: the one with which it came to the first of the ticks, and those after each
    /// transition from there on.
    pub least: i128,
    /// The greatest of these.
    pub greatest: i128,
    /// The last of these.
    pub last: i128,
    /// The mean of the values over the ticks, in thousandths.
    pub mean: i128,
    /// The share of the ticks in which the value was not 0, in thousandths.
    pub busy: i128,
    /// The sum of the values over the ticks, and in how many of them the value was not 0, exactly.
    pub sums: Sums,
}

impl Course {
    /// What is told of the figure over the ticks from `from` on, its first one, and before `end`, after which no transition
    /// has come. Where `end` is `from`, that is no tick.
    ///
    /// `None` where a sum would pass the range of its type.
    pub fn told(&self, from: u64, end: u64) -> Option<Told>
        requires { self.now.since ≤ end }
        ensures { (start : List ℤ) (moves : List TheRecord) → IsCourse from start moves self.now
            → IfSome result (IsTold from self.now.measure start moves (end - from)) }
    {
        let sums = self.sums(end)?;
        let ticks = end.saturating_sub(from);
        Some(Told {
            least: self.least,
            greatest: self.greatest,
            last: self.last,
            mean: mean(sums.sum, self.last, ticks)?,
            busy: share(sums.busy, self.last, ticks)?,
            sums,
        })
    }
}
