//! Columns and traces, compared with the records of the sequential simulator.

ghost use Rattle.std.specs.Prelude.{◌<◌, length};

use tw_atomic::Atomic;
use tw_exec::Executive;
use tw_msgs::Record;
use tw_seq::Seq;
use tw_vtime::Stamp;

/// Whether a record is one of a component before a stamp.
fn is_of(record: &Record, component: usize, line: Stamp) -> bool {
    record.component == component && record.stamp < line
}

/// Whether a column is just the records of a component before a stamp, in their order.
fn is_column(column: &[Record], records: &[Record], component: usize, line: Stamp) -> bool {
    let mut at: usize = 0;
    for record in records {
        if is_of(record, component, line) {
            if column.get(at) != Some(record) {
                return false;
            }
            at = at.saturating_add(1);
        }
    }
    at == column.len()
}

/// Whether a commit line has not passed the stamp of the simulator's fault, if it has one.
fn is_before_fault(line: Stamp, seq: &Seq) -> bool {
    match seq.fault {
        Some(fault) => line <= fault.stamp,
        None => true,
    }
}

/// Whether a component of an executive has the simulator's column, and no commit line past its fault.
fn is_right<M: Atomic>(executive: &Executive<M>, seq: &Seq, component: usize) -> bool
    requires { component < length executive.now.network.models }
{
    let line = executive.line(component);
    let column = executive.committed(component);
    is_column(column, seq.records.as_slice(), component, line) && is_before_fault(line, seq)
}

/// How many components of an executive have a column that is not the simulator's, or a commit line past its fault.
pub(crate) fn count_wrong<M: Atomic>(executive: &Executive<M>, seq: &Seq) -> u64 {
    let mut wrong: u64 = 0;
    for component in 0..executive.network().len() {
        if !is_right(executive, seq, component) {
            wrong = wrong.saturating_add(1);
        }
    }
    wrong
}

/// Whether a trace has just these records.
pub(crate) fn is_trace(trace: &[Record], records: &[Record]) -> bool {
    let mut rest = trace.iter();
    for record in records {
        if rest.next() != Some(record) {
            return false;
        }
    }
    rest.next().is_none()
}
