//! How far a run is.

use std::alloc::AllocError;
use tw_msgs::{Bag, Record, RecordKind};
use tw_rounds::Receiver;
use tw_vtime::Stamp;

/// How far a run is.
#[derive(Clone, Copy, Debug, PartialEq, Eq)]
pub struct Reached {
    /// The stamp of the latest record; the first of all stamps before there is one.
    pub at: Stamp,
    /// How many records there are. It stays at the greatest number of its type.
    pub records: u64,
}

impl Reached {
    /// No record is there.
    pub fn nothing() -> Reached {
        Reached {
            at: Stamp::START,
            records: 0,
        }
    }

    /// How far a run is whose latest round has these records, and which has `records` in all.
    pub fn after(round: &[Record], records: u64) -> Reached {
        let at = match round.last() {
            Some(record) => record.stamp,
            None => Stamp::START,
        };
        Reached { at, records }
    }

    /// One record more is there, of this stamp.
    pub fn add(&mut self, at: Stamp) {
        self.at = at;
        self.records = self.records.saturating_add(1);
    }

    /// How far a run is whose outputs are so far, and whose transitions are that far: the later stamp, and the records of both.
    pub fn with(self, transitions: Reached) -> Reached {
        Reached {
            at: self.at.max(transitions.at),
            records: self.records.saturating_add(transitions.records),
        }
    }

    /// So far, of a pass of which nothing is written: with no record.
    pub fn unwritten(self) -> Reached {
        Reached { records: 0, ..self }
    }
}

/// Counts the parts of a run, and keeps none.
impl Receiver for Reached {
    ghost takes = { λ _ _ _. Unit {0} };

    fn take(
        &mut self,
        _component: usize,
        stamp: Stamp,
        _kind: RecordKind,
        _bag: &Bag,
        _words: &[i128],
    ) -> Result<(), AllocError> {
        self.add(stamp);
        Ok(())
    }
}
