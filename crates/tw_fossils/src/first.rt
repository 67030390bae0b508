//! The first records of columns, and how many records there are before a stamp.

ghost use Rattle.std.specs.Prelude.{◌≡◌, List, IfOk, map};
ghost use Rattle.std.specs.Slice.{IsItemAt};
ghost use Rattle.tw_fossils.specs.Columns.{AreColumns};
ghost use Rattle.tw_fossils.specs.Merging.{head_before, to_take};
ghost use Rattle.tw_msgs.specs.declared.record.Record.{Record};

use crate::column::Column;
use std::alloc::{AllocError, Global};
use tw_msgs::Record;
use tw_tournament::Tournament;
use tw_vtime::Stamp;

// How many times a tournament can hold.
const MOST: usize = 4294967296;

/// The stamp of the first of some records, where it is before the line; else the end.
pub(crate) fn stamp_before(first: Option<&Record>, line: Stamp) -> Stamp
    ensures { (records : List Record) → IsItemAt records 0 first.entry
        → result ≡ head_before line records }
{
    match first {
        Some(record) if record.stamp < line => record.stamp,
        _ => Stamp::END,
    }
}

/// For each column the stamp of its first record, where it is before the line; else the end.
///
/// Refused for want of memory alone (4), which is the answer for more columns than a tournament can hold, too.
pub(crate) fn first_stamps(
    alloc: Global,
    columns: &[Column],
    line: Stamp,
) -> Result<Tournament, AllocError>
    ensures { IfOk result (λ heads. heads.times ≡ map (head_before line) columns.now) }
{
    if columns.len() > MOST {
        return Err(AllocError);
    }
    let mut heads = Tournament::new(alloc, columns.len())?;
    for (number, column) in columns.iter().enumerate() {
        heads.set(number, stamp_before(column.records().first(), line));
    }
    Ok(heads)
}

/// How many records of all columns are before the line.
///
/// More than memory has places for are refused for want of memory (4).
pub(crate) fn count_before(columns: &[Column], line: Stamp) -> Result<usize, AllocError>
    requires { AreColumns 0 columns.now }
    ensures { IfOk result (λ count. count ≡ to_take line columns.now) }
{
    let mut count: usize = 0;
    for column in columns {
        let more = column
            .records()
            .partition_point(|record| record.stamp < line);
        count = count.checked_add(more).ok_or(AllocError)?;
    }
    Ok(count)
}
