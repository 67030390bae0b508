//! How a figure went in the course of a run.

ghost use Rattle.std.specs.Prelude.{◌≡◌, ◌≤◌, ◌-◌, ◌+ℤ◌, ◌*ℤ◌, ◌++◌, ◌∷◌, [], ℕ, ℤ, List, IfOk, IfSome, OnOk, pos};
ghost use Rattle.tw_figures.specs.Figures.{IsCourse, IsNext, busy_at, one_if_some, sum_from, value_at, value_of};
ghost use Rattle.tw_msgs.specs.declared.record.Record.{Record as TheRecord};
ghost use Rattle.tw_vtime.specs.Stamps.{tick_of};

use crate::figure::Measure;
use std::alloc::AllocError;
use tw_msgs::Words;

/// How a figure went from a tick on, up to a later one.
#[derive(Clone, Copy, Debug, PartialEq, Eq)]
pub struct Course {
    /// What the figure tells.
    pub measure: Measure,
    /// The least of the values that it had: the one with which it came to the first tick, and those after each transition
    /// from there on.
    pub least: i128,
    /// The greatest of these.
    pub greatest: i128,
    /// The last of these.
    pub last: i128,
    /// The tick from which on it has had the last one; the first tick where it had it before.
    pub since: u64,
    /// The sum over the ticks from the first one on and before that one, of the value in each.
    pub sum: i128,
    /// How many of these ticks have a value that is not 0.
    pub busy: u64,
}

/// The sums of a figure over the ticks from a first one on and before a later one.
#[derive(Clone, Copy, Debug, PartialEq, Eq)]
pub struct Sums {
    /// The sum of the values.
    pub sum: i128,
    /// How many ticks have a value that is not 0.
    pub busy: u64,
}

impl Course {
    /// The course of a figure from the tick `from` on, before any transition, of a component that starts in a state of
    /// these words.
    pub fn new(from: u64, measure: Measure, words: &Words) -> Course
        ensures course { IsCourse from words.now [] result }
        ensures measure { result.measure ≡ measure }
    {
        let value = measure.value(words);
        Course {
            measure,
            least: value,
            greatest: value,
            last: value,
            since: from,
            sum: 0,
            busy: 0,
        }
    }

    /// The sums over the ticks from the first one on and before `tick`, which is not before `since`: from `since` on each
    /// tick counts the last value.
    ///
    /// `None` where a sum would pass the range of its type. Sums of numbers of 64 bits, with a sign or without, do
    /// not ([`sums_fit_law`](crate::sums_fit_law)).
    pub fn sums(&self, tick: u64) -> Option<Sums>
        requires { self.now.since ≤ tick }
        ensures sum { (from : ℕ) (start : List ℤ) (moves : List TheRecord)
            → IsCourse from start moves self.now
            → IfSome result
            (λ s. s.sum ≡ sum_from from (tick - from) (value_at self.now.measure start moves)) }
        ensures busy { (from : ℕ) (start : List ℤ) (moves : List TheRecord)
            → IsCourse from start moves self.now
            → IfSome result
            (λ s. pos s.busy ≡ sum_from from (tick - from) (busy_at self.now.measure start moves)) }
    {
        let stood = tick - self.since;
        let sum = stood_for(self.sum, stood, self.last)?;
        let busy = busy_for(self.busy, stood, self.last)?;
        Some(Sums { sum, busy })
    }

    /// A transition at a tick, not before any other, to a state of these words. Where it is before the first tick, the
    /// figure comes to that with its value.
    ///
    /// Refused for want of room (4) where a sum would pass the range of its type; then the course is as it was.
    pub fn take(&mut self, tick: u64, words: &Words) -> Result<(), AllocError>
        ensures course { (from : ℕ) (start : List ℤ) (moves : List TheRecord) (r : TheRecord)
            → tick_of r.stamp ≡ tick → r.words ≡ words.now → IsNext moves r
            → IsCourse from start moves self.old
            → OnOk result (IsCourse from start (moves ++ r ∷ []) self.new) }
        ensures measure { self.new.measure ≡ self.old.measure }
    {
        let value = self.measure.value(words);
        if tick < self.since {
            // No transition is before another, so `since` is still the first tick.
            self.least = value;
            self.greatest = value;
            self.last = value;
            return Ok(());
        }
        let Some(Sums { sum, busy }) = self.sums(tick) else {
            return Err(AllocError);
        };
        self.least = self.least.min(value);
        self.greatest = self.greatest.max(value);
        self.last = value;
        self.since = tick;
        self.sum = sum;
        self.busy = busy;
        Ok(())
    }
}

/// A sum over ticks and so many ticks more, each with this value.
fn stood_for(sum: i128, ticks: u64, value: i128) -> Option<i128>
    ensures { IfSome result (λ all. all ≡ sum +ℤ pos ticks *ℤ value) }
{
    let more = i128::from(ticks).checked_mul(value)?;
    sum.checked_add(more)
}

/// A number of ticks whose value is not 0, and so many ticks more, each with this value.
fn busy_for(busy: u64, ticks: u64, value: i128) -> Option<u64>
    ensures { IfSome result (λ all. pos all ≡ pos busy +ℤ pos ticks *ℤ one_if_some value) }
{
    if value == 0 {
        Some(busy)
    } else {
        busy.checked_add(ticks)
    }
}
