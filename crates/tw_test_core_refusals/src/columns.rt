//! Columns of committed records, and what they are as one trace.

ghost use Rattle.std.specs.Prelude.{◌≡◌, ◌<◌, ◌+◌, IsTrue};
ghost use Rattle.std.specs.List.{AllByRecursion as Each};
ghost use Rattle.tw_fossils.specs.Columns.{AreColumns, IsColumn, IsRising};

use crate::messages::tell_records;
use crate::processes::process_of;
use std::alloc::Global;
use tw_fossils::{Column, into_trace, merge};
use tw_models::Model;
use tw_msgs::Record;
use tw_process::Process;
use tw_test_refusal_tools::{Sum, Told, add_records};
use tw_vtime::{Refusal, Stamp};

// How many steps of each component of the row are committed.
const STEPS: [usize; 3] = [12, 3, 0];

/// Whether these records are a component's, and each is after a stamp.
fn are_after(component: usize, stamp: Stamp, records: &[Record]) -> bool
    ensures own { IsTrue result → Each (λ r. r.component ≡ component) records.now }
    ensures after { IsTrue result → Each (λ r. stamp < r.stamp) records.now }
{
    match records.split_first() {
        None => true,
        Some((first, later)) => {
            first.component == component
                && stamp < first.stamp
                && are_after(component, stamp, later)
        }
    }
}

/// Whether these records are a component's, in the order of their stamps.
fn is_column(component: usize, records: &[Record]) -> bool
    ensures { IsTrue result → IsColumn component records.now }
{
    match records.split_first() {
        None => true,
        Some((first, later)) => {
            first.component == component
                && are_after(component, first.stamp, later)
                && is_column(component, later)
        }
    }
}

/// Whether these are the columns of the components from one on.
fn are_columns(component: usize, columns: &[Column]) -> bool
    ensures { IsTrue result → AreColumns component columns.now }
{
    match columns.split_first() {
        None => true,
        Some((first, later)) => {
            component < usize::MAX
                && is_column(component, first.records())
                && are_columns(component + 1, later)
        }
    }
}

/// Makes so many steps, if there is memory for them.
fn make_steps(process: &mut Process<Model>, steps: usize) -> Result<(), Refusal> {
    for _ in 0..steps {
        if process.step().is_err() {
            return Err(Refusal::OutOfMemory);
        }
    }
    Ok(())
}

/// The sum over the records of a column.
fn look(column: &Column) -> Sum {
    let mut sum = Sum::new();
    add_records(&mut sum, column.records());
    sum
}

/// Adds a record to a column, at the second try where memory is refused at the first and the record is handed back.
fn push(told: &mut Told, column: &mut Column, record: Record) {
    let before = look(column);
    let Err(failed) = column.push(record) else {
        return;
    };
    let after = look(column);
    told.compare("push", before, after);
    if column.push(failed.value).is_err() {
        told.give_up("push");
    }
}

/// Commits all steps of a process, and adds their records to a column.
fn push_all(told: &mut Told, column: &mut Column, process: &mut Process<Model>) {
    for _ in 0..process.history_len() {
        if let Some(record) = process.commit_oldest() {
            push(told, column, record);
        }
    }
}

/// The column of a component of the row, if there is memory for its process and its steps.
fn column_of(told: &mut Told, alloc: Global, component: usize) -> Result<Column, Refusal>
    requires { component < 3 }
{
    let mut process = process_of(alloc, component, None)?;
    let mut column = Column::new(alloc);
    let made = make_steps(&mut process, STEPS[component]);
    if made.is_ok() {
        push_all(told, &mut column, &mut process);
    }
    drop(process);
    made?;
    Ok(column)
}

/// The columns of the row, if there is memory for them.
fn columns_once(told: &mut Told, alloc: Global) -> Result<Vec<Column>, Refusal> {
    let mut columns = Vec::new(alloc);
    for component in 0..3 {
        columns.push(column_of(told, alloc, component)?)?;
    }
    Ok(columns)
}

/// The columns of the row, at the second try where the first finds no memory.
fn columns_of(told: &mut Told, alloc: Global) -> Option<Vec<Column>> {
    match columns_once(told, alloc) {
        Err(Refusal::OutOfMemory) => columns_once(told, alloc).ok(),
        made => made.ok(),
    }
}

/// Merges copies of the records before tick 4 and its output, at the second try where the first finds no memory, and tells them.
fn tell_merged(told: &mut Told, alloc: Global, columns: &[Column]) {
    let line = Stamp::new(4, 0, 1).unwrap_or(Stamp::END);
    if !are_columns(0, columns) {
        told.give_up("columns");
        return;
    }
    let merged = match merge(alloc, columns, line) {
        Err(_) => merge(alloc, columns, line),
        made => made,
    };
    match merged {
        Ok(trace) => tell_records(told, trace.as_slice()),
        Err(_) => told.give_up("merge"),
    }
}

/// The sum over the records of all columns.
fn look_at_all(columns: &[Column]) -> Sum {
    let mut sum = Sum::new();
    for column in columns {
        add_records(&mut sum, column.records());
    }
    sum
}

/// All records, at the second try where memory is refused at the first and the columns are handed back.
fn trace_of(told: &mut Told, alloc: Global, columns: Vec<Column>) -> Option<Vec<Record>> {
    if !are_columns(0, columns.as_slice()) {
        return None;
    }
    let before = look_at_all(columns.as_slice());
    match into_trace(alloc, columns, Stamp::END) {
        Ok(trace) => Some(trace),
        Err(failed) => {
            let after = look_at_all(failed.value.as_slice());
            told.compare("into_trace", before, after);
            into_trace(alloc, failed.value, Stamp::END).ok()
        }
    }
}

/// Tells the trace of columns.
fn tell_trace(told: &mut Told, alloc: Global, columns: Vec<Column>) {
    match trace_of(told, alloc, columns) {
        Some(trace) => tell_records(told, trace.as_slice()),
        None => told.give_up("into_trace"),
    }
}

/// Makes columns and traces of them, and tells them.
pub(crate) fn play(told: &mut Told, alloc: Global) {
    told.begin("merged");
    match columns_of(told, alloc) {
        Some(columns) => tell_merged(told, alloc, columns.as_slice()),
        None => told.give_up("columns"),
    }
    told.begin("one trace");
    match columns_of(told, alloc) {
        Some(columns) => tell_trace(told, alloc, columns),
        None => told.give_up("columns"),
    }
}
