//! What is gathered of a run.

ghost use Rattle.std.specs.Prelude.{◌≡◌, ◌≢◌, ◌++◌, ◌∷◌, [], ℕ, ℤ, List, IfOk, OnOk};
ghost use Rattle.tw_figures.specs.Figures.{IsNext, IsSteady, from_on};
ghost use Rattle.tw_figures.specs.Gathered.{AreCounted, IsGathered, followed_in, followed_of_all};
ghost use Rattle.tw_msgs.specs.declared.record.Record.{Record as TheRecord};
ghost use Rattle.tw_vtime.specs.Stamps.{never};

use crate::counts::more;
use crate::labels::Labels;
use crate::member::Member;
use std::alloc::{AllocError, Global};
use tw_msgs::{Record, Words};
use tw_vtime::Stamp;

/// What is gathered of a run from a tick on: of each component, and how many records there are and microsteps.
#[derive(Debug, Drop)]
pub struct Gatherer {
    /// The tick from which on records count.
    pub from: u64,
    /// The components, in order.
    pub members: Vec<Member>,
    /// How many records there are at that tick or later.
    pub records: u64,
    /// The greatest microstep of one of these plus one; 0 where there is none.
    pub microsteps: u64,
}

impl Gatherer {
    /// No component yet, of a run of which is told from the tick `from` on. It takes no memory.
    pub fn new(alloc: Global, from: u64) -> Gatherer
        ensures gathered { IsGathered from [] [] result }
        ensures followed { followed_of_all result.members.items ≡ [] }
    {
        Gatherer {
            from,
            members: Vec::new(alloc),
            records: 0,
            microsteps: 0,
        }
    }

    /// One component more, before any record: with these figures and observations, and starting in a state of these words.
    ///
    /// Refused for want of memory (4).
    pub fn add(&mut self, alloc: Global, labels: &Labels, words: &Words) -> Result<(), AllocError>
        ensures gathered { (from : ℕ) (starts : List (List ℤ)) → IsGathered from starts [] self.old
            → OnOk result (IsGathered from (starts ++ words.now ∷ []) [] self.new) }
        ensures followed { OnOk result (followed_of_all self.new.members.items
            ≡ followed_of_all self.old.members.items ++ followed_in labels.now ∷ []) }
    {
        let member = Member::new(alloc, self.from, labels, words)?;
        self.members.push(member)?;
        Ok(())
    }

    /// Takes the next records of the run, in their order.
    ///
    /// Refused for want of room (4) where a count or a sum would pass the range of its type; then it is of no more use.
    pub fn take_all(&mut self, steps: &[Record]) -> Result<(), AllocError>
        requires { (records : List TheRecord) × IsSteady (records ++ steps.now) }
        ensures gathered { (from : ℕ) (starts : List (List ℤ)) (records : List TheRecord)
            → IsSteady (records ++ steps.now) → IsGathered from starts records self.old
            → OnOk result (IsGathered from starts (records ++ steps.now) self.new) }
        ensures followed { followed_of_all self.new.members.items ≡ followed_of_all self.old.members.items }
    {
        for step in steps {
            self.take(step)?;
        }
        Ok(())
    }

    /// Takes the next record of the run. One of a component that it does not know counts among all records alone.
    ///
    /// Refused for want of room (4) where a count or a sum would pass the range of its type; then it is of no more use.
    pub fn take(&mut self, step: &Record) -> Result<(), AllocError>
        requires { step.now.stamp ≢ never }
        ensures gathered { (from : ℕ) (starts : List (List ℤ)) (records : List TheRecord)
            → IsNext records step.now → IsGathered from starts records self.old
            → OnOk result (IsGathered from starts (records ++ step.now ∷ []) self.new) }
        ensures followed { followed_of_all self.new.members.items ≡ followed_of_all self.old.members.items }
    {
        self.count(step.stamp)?;
        if step.component < self.members.len() {
            self.members[step.component].take(self.from, step)?;
        }
        Ok(())
    }

    /// Counts a record at this time among all, where it is at the tick from which on records count, or later.
    ///
    /// Refused for want of room (4) where there would be 2^64 records; then nothing is changed.
    fn count(&mut self, at: Stamp) -> Result<(), AllocError>
        requires { at ≢ never }
        ensures counted { (records : List TheRecord) (r : TheRecord) → r.stamp ≡ at
            → AreCounted (from_on self.old.from records) self.old
            → OnOk result (AreCounted (from_on self.old.from (records ++ r ∷ [])) self.new) }
        ensures from { self.new.from ≡ self.old.from }
        ensures members { self.new.members ≡ self.old.members }
    {
        if at.tick() < self.from {
            return Ok(());
        }
        self.records = more(self.records, 1)?;
        self.microsteps = self.microsteps.max(u64::from(at.micro()) + 1);
        Ok(())
    }
}
