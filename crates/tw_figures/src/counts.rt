//! How much a component did.

ghost use Rattle.std.specs.Prelude.{◌≡◌, ◌≢◌, ◌+◌, ◌++◌, ◌∷◌, [], List, IfOk, OnOk};
ghost use Rattle.tw_figures.specs.Counts.{counts_of};
ghost use Rattle.tw_figures.specs.Figures.{from_on};
ghost use Rattle.tw_msgs.specs.declared.record.Record.{Record as TheRecord};
ghost use Rattle.tw_vtime.specs.Stamps.{never};

use std::alloc::AllocError;
use tw_msgs::{Record, RecordKind};

/// How much a component did: in how many records, and with how many items.
#[derive(Clone, Copy, Debug, PartialEq, Eq)]
pub struct Counts {
    /// Outputs.
    pub outputs: u64,
    /// Items of its outputs.
    pub sent: u64,
    /// Items that came with its external and confluent transitions.
    pub received: u64,
    /// Internal transitions.
    pub int: u64,
    /// External transitions.
    pub ext: u64,
    /// Confluent transitions.
    pub con: u64,
}

impl Counts {
    /// The counts of no records.
    pub fn none() -> Counts
        ensures { result ≡ counts_of [] }
    {
        Counts {
            outputs: 0,
            sent: 0,
            received: 0,
            int: 0,
            ext: 0,
            con: 0,
        }
    }

    /// Counts one record more where it is at the tick `from` or later.
    ///
    /// Refused for want of room (4) where a count would pass 2^64 - 1; then the counts are of no more use.
    pub fn take_from(&mut self, from: u64, step: &Record) -> Result<(), AllocError>
        requires { step.now.stamp ≢ never }
        ensures { (records : List TheRecord) → self.old ≡ counts_of (from_on from records)
            → OnOk result (self.new ≡ counts_of (from_on from (records ++ step.now ∷ []))) }
    {
        if step.stamp.tick() < from {
            return Ok(());
        }
        self.take(step)
    }

    /// Counts one record more.
    ///
    /// Refused for want of room (4) where a count would pass 2^64 - 1; then the counts are of no more use.
    pub fn take(&mut self, step: &Record) -> Result<(), AllocError>
        ensures { (records : List TheRecord) → self.old ≡ counts_of records
            → OnOk result (self.new ≡ counts_of (records ++ step.now ∷ [])) }
    {
        let items = step.bag.len() as u64;
        match step.kind {
            RecordKind::Out => {
                self.outputs = more(self.outputs, 1)?;
                self.sent = more(self.sent, items)?;
            }
            RecordKind::Int => {
                self.int = more(self.int, 1)?;
            }
            RecordKind::Ext => {
                self.ext = more(self.ext, 1)?;
                self.received = more(self.received, items)?;
            }
            RecordKind::Con => {
                self.con = more(self.con, 1)?;
                self.received = more(self.received, items)?;
            }
        }
        Ok(())
    }
}

/// A count and so many more.
pub(crate) fn more(count: u64, by: u64) -> Result<u64, AllocError>
    ensures { IfOk result (λ n. n ≡ count + by) }
{
    count.checked_add(by).ok_or(AllocError)
}
