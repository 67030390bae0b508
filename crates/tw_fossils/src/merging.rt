//! Columns as one trace: of the columns' first records that are left the earliest comes next, and a tournament knows which it is
//! (Knuth 1973).

ghost use Rattle.std.specs.Prelude.{◌≡◌, ◌≤◌, ◌+◌, ℕ, List, [], IfOk, IfErr, OnOk, length, map, vec_len, vec_capacity};
ghost use Rattle.tw_fossils.specs.Columns.{AreColumns};
ghost use Rattle.tw_fossils.specs.Merging.{IsMerging, IsReady, to_take};
ghost use Rattle.tw_msgs.specs.declared.record.Record.{Record};
ghost use Rattle.tw_theory.specs.Traces.{IsTrace, before, of_component};
ghost use Rattle.tw_theory.specs.Executive.{column_of};
ghost use Rattle.tw_tournament.specs.Times.{IsFirst};

use crate::column::Column;
use crate::first::{count_before, first_stamps, stamp_before};
use std::alloc::{AllocError, AllocFailed, Global};
use std::collections::VecDeque;
use tw_msgs::Record;
use tw_tournament::Tournament;
use tw_vtime::Stamp;

// For how many records there is room at least where some of it is given back.
const LEAST_ROOM: usize = 64;

/// The trace of all columns up to a stamp: copies of the records before it, by stamp and then component. The column
/// at place c must be component c's.
///
/// It costs the number of records times the logarithm of the number of columns. Refused for want of memory alone (4).
pub fn merge(alloc: Global, columns: &[Column], line: Stamp) -> Result<Vec<Record>, AllocError>
    requires { AreColumns 0 columns.now }
    ensures trace { IfOk result (λ trace. IsTrace trace.items) }
    ensures records { IfOk result (λ trace. (c : ℕ)
        → of_component c trace.items ≡ before line (column_of columns.now c)) }
{
    line.facts();
    let mut heads = first_stamps(alloc, columns, line)?;
    let mut trace = Vec::with_capacity(alloc, count_before(columns, line)?)?;
    let mut left = as_slices(alloc, columns)?;
    while let Some((_, next)) = heads.first() {
        copy_first(&mut left, next, line, &mut heads, &mut trace)?;
    }
    Ok(trace)
}

/// The records before a stamp, of all columns, by stamp and then component: the records themselves, not copies.
///
/// It costs as [`merge`] does, and is refused for want of memory alone (4); then the columns are handed back.
pub fn into_trace(
    alloc: Global,
    columns: Vec<Column>,
    line: Stamp,
) -> Result<Vec<Record>, AllocFailed<Vec<Column>>>
    requires { AreColumns 0 columns.items }
    ensures trace { IfOk result (λ trace. IsTrace trace.items) }
    ensures records { IfOk result (λ trace. (c : ℕ)
        → of_component c trace.items ≡ before line (column_of columns.items c)) }
    ensures handed_back { IfErr result (λ failed. failed.value ≡ columns) }
{
    match room_for(alloc, columns.as_slice(), line) {
        Ok(room) => Ok(move_all(columns, line, room)),
        Err(_) => Err(AllocFailed { value: columns }),
    }
}

// All memory that moving columns takes: it is there before the first record moves.
#[derive(Drop)]
struct Room {
    heads: Tournament,
    left: Vec<VecDeque<Record>>,
    trace: Vec<Record>,
}

/// The room for columns.
fn room_for(alloc: Global, columns: &[Column], line: Stamp) -> Result<Room, AllocError>
    requires { AreColumns 0 columns.now }
    ensures heads { IfOk result
        (λ room. IsReady line columns.now room.heads.times 0 (vec_capacity room.trace)) }
    ensures none_taken { IfOk result (λ room. room.trace.items ≡ []) }
    ensures none_left { IfOk result (λ room. room.left.items ≡ []) }
    ensures places { IfOk result (λ room. length columns.now ≤ vec_capacity room.left) }
{
    Ok(Room {
        heads: first_stamps(alloc, columns, line)?,
        left: Vec::with_capacity(alloc, columns.len())?,
        trace: Vec::with_capacity(alloc, count_before(columns, line)?)?,
    })
}

/// The records before a stamp, moved into the room that was made for them.
fn move_all(columns: Vec<Column>, line: Stamp, room: Room) -> Vec<Record>
    requires columns { AreColumns 0 columns.items }
    requires heads { IsReady line columns.items room.heads.times 0 (vec_capacity room.trace) }
    requires none_taken { room.trace.items ≡ [] }
    requires none_left { room.left.items ≡ [] }
    requires places { length columns.items ≤ vec_capacity room.left }
    ensures trace { IsTrace result.items }
    ensures records { (c : ℕ)
        → of_component c result.items ≡ before line (column_of columns.items c) }
{
    line.facts();
    let Room {
        mut heads,
        left,
        mut trace,
    } = room;
    let mut left = as_queues(columns, left);
    while let Some((_, next)) = heads.first() {
        move_first(&mut left, next, line, &mut heads, &mut trace);
    }
    trace
}

/// The records of each column.
fn as_slices(alloc: Global, columns: &[Column]) -> Result<Vec<&[Record]>, AllocError>
    ensures { IfOk result (λ slices. map (λ rs. rs.now) slices.items ≡ columns.now) }
{
    let mut slices = Vec::with_capacity(alloc, columns.len())?;
    for column in columns {
        slices.push_reserved(column.records());
    }
    Ok(slices)
}

/// Each column as a queue with no more room than it needs, in places that are there. It takes no memory.
fn as_queues(columns: Vec<Column>, mut queues: Vec<VecDeque<Record>>) -> Vec<VecDeque<Record>>
    requires none { queues.items ≡ [] }
    requires places { length columns.items ≤ vec_capacity queues }
    ensures { map (λ rs. rs.items) result.items ≡ columns.items }
{
    for column in columns {
        let mut records = column.into_records();
        records.shrink_to_fit();
        queues.push_reserved(VecDeque::from_vec(records));
    }
    queues
}

/// Of the column that comes next the first record is copied to the end of the trace.
fn copy_first(
    left: &mut Vec<&[Record]>,
    next: usize,
    line: Stamp,
    heads: &mut Tournament,
    trace: &mut Vec<Record>,
) -> Result<(), AllocError>
    requires first { (t : ℕ) × IsFirst heads.old.times t next }
    requires ready { let old = map (λ rs. rs.now) left.old.items in
        IsReady line old heads.old.times (vec_len trace.old) (vec_capacity trace.old) }
    ensures ready { let new = map (λ rs. rs.now) left.new.items in
        let room = vec_capacity trace.new in
        OnOk result (IsReady line new heads.new.times (vec_len trace.new) room) }
    ensures fewer { let old = map (λ rs. rs.now) left.old.items in
        let new = map (λ rs. rs.now) left.new.items in
        OnOk result (to_take line new + 1 ≡ to_take line old) }
    ensures merging { let old = map (λ rs. rs.now) left.old.items in
        let new = map (λ rs. rs.now) left.new.items in
        OnOk result ((columns : List (List Record)) → IsMerging line columns old trace.old.items
        → IsMerging line columns new trace.new.items) }
{
    if let Some((record, later)) = left[next].split_first() {
        trace.push_reserved(record.clone()?);
        heads.set(next, stamp_before(later.first(), line));
        left[next] = later;
    }
    Ok(())
}

/// Of the column that comes next the first record moves to the end of the trace.
fn move_first(
    left: &mut Vec<VecDeque<Record>>,
    next: usize,
    line: Stamp,
    heads: &mut Tournament,
    trace: &mut Vec<Record>,
)
    requires first { (t : ℕ) × IsFirst heads.old.times t next }
    requires ready { let old = map (λ rs. rs.items) left.old.items in
        IsReady line old heads.old.times (vec_len trace.old) (vec_capacity trace.old) }
    ensures ready { let new = map (λ rs. rs.items) left.new.items in
        IsReady line new heads.new.times (vec_len trace.new) (vec_capacity trace.new) }
    ensures fewer { let old = map (λ rs. rs.items) left.old.items in
        let new = map (λ rs. rs.items) left.new.items in
        to_take line new + 1 ≡ to_take line old }
    ensures merging { let old = map (λ rs. rs.items) left.old.items in
        let new = map (λ rs. rs.items) left.new.items in
        (columns : List (List Record)) → IsMerging line columns old trace.old.items
        → IsMerging line columns new trace.new.items }
{
    let column = &mut left[next];
    if let Some(record) = column.pop_front() {
        heads.set(next, stamp_before(column.front(), line));
        trace.push_reserved(record);
        give_back(column);
    }
}

/// Once half of a column's room is free it is given back, so that the trace and what is left of the columns need at most one and a
/// half times what the trace needs.
fn give_back(column: &mut VecDeque<Record>)
    ensures { column.new.items ≡ column.old.items }
{
    let room = column.capacity();
    if room >= LEAST_ROOM && column.len() <= room / 2 {
        column.shrink_to_fit();
    }
}
