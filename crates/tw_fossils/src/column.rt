//! The committed records of a component.

ghost use Rattle.std.specs.Prelude.{◌≡◌, ◌↔◌, ◌++◌, ◌∷◌, [], IsTrue, IfErr, OnOk, OnErr, length};

use std::alloc::{AllocFailed, Global};
use std::marker::Model;
use tw_msgs::Record;

/// The records of the steps that a component has committed, in the order of their stamps.
///
/// Contracts see a column as the list of its records.
#[derive(Drop)]
pub struct Column {
    pub(crate) records: Vec<Record>,
}

impl Model for Column {
    ghost use Rattle.std.specs.Prelude.{List};
    ghost use Rattle.tw_msgs.specs.declared.record.Record.{Record};

    ghost Value = { List Record };

    ghost view = { λ c. c.records.items };
}

impl Column {
    /// A column of no records. It takes no memory.
    pub fn new(alloc: Global) -> Column
        ensures { result ≡ [] }
    {
        Column {
            records: Vec::new(alloc),
        }
    }

    /// Adds a record at the end. Where memory is wanting (4) the record is handed back, and the column is as it was.
    pub fn push(&mut self, done: Record) -> Result<(), AllocFailed<Record>>
        ensures ok { OnOk result (self.new ≡ self.old ++ done ∷ []) }
        ensures err { OnErr result (self.new ≡ self.old) }
        ensures handed_back { IfErr result (λ failed. failed.value ≡ done) }
    {
        self.records.push(done)
    }

    /// The records, in order.
    pub fn records(&self) -> &[Record]
        ensures { result.now ≡ self.now }
    {
        self.records.as_slice()
    }

    /// The records as a vector. It takes no memory.
    pub(crate) fn into_records(self) -> Vec<Record>
        ensures { result.items ≡ self }
    {
        let Column { records } = self;
        records
    }

    /// How many records there are.
    pub fn len(&self) -> usize
        ensures { result ≡ length self.now }
    {
        self.records.len()
    }

    /// Whether there is no record.
    pub fn is_empty(&self) -> bool
        ensures { IsTrue result ↔ (self.now ≡ []) }
    {
        self.records.is_empty()
    }
}
