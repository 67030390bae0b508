//! Fossil collection, by the calls of a process alone.

ghost use Rattle.std.specs.Prelude.{◌≡◌, ◌≤◌, ◌+◌, ◌++◌, IfOk, IsOk, OnOk, OnErr, length, take, vec_len, vec_capacity};
ghost use Rattle.tw_process.specs.Process.{with_harvested, without_first, SameButSpare};
ghost use Rattle.tw_theory.specs.Contents.{steps_before, records_of};

use crate::column::Column;
use std::alloc::AllocError;
use tw_atomic::Atomic;
use tw_msgs::Record;
use tw_process::Process;
use tw_vtime::Stamp;

// From so many records on a column takes room for so many at once. What is as large as that is a mapping of its own to the usual
// allocators: it is not copied as it grows, what is not used of it takes no memory, and it goes back to the system as the trace takes
// its records; smaller pieces stay with the allocator.
const LONG: usize = 64;

const ROOM_OF_LONG: usize = 2_048;

/// Commits all steps strictly before `line`: their records move from the process to the end of its column, their
/// nodes are freed, and `line` becomes the commit line. Answers how many records they are.
///
/// Refused for want of memory alone (4); process and column are then as they were.
pub fn harvest<M: Atomic>(
    process: &mut Process<M>,
    column: &mut Column,
    line: Stamp,
) -> Result<u64, AllocError>
    ensures harvested { OnOk result (SameButSpare (with_harvested line process.old) process.new) }
    ensures column { let steps = process.old.process.history in
        OnOk result (column.new ≡ column.old ++ records_of (take (steps_before line steps) steps)) }
    ensures count { IfOk result (λ n. n ≡ steps_before line process.old.process.history) }
    ensures stays { OnErr result (process.new ≡ process.old) }
    ensures column_stays { OnErr result (column.new ≡ column.old) }
    ensures succeeds { steps_before line process.old.process.history ≡ 0 → IsOk result }
{
    let count = process.steps_before(line);
    move_oldest(process, &mut column.records, count)?;
    process.set_line(line);
    Ok(count as u64)
}

/// Makes room for so many more records: for a long column much at once, if there is as much.
fn make_room(records: &mut Vec<Record>, count: usize) -> Result<(), AllocError>
    ensures items { records.new.items ≡ records.old.items }
    ensures len { vec_len records.new ≡ vec_len records.old }
    ensures room { OnOk result (vec_len records.old + count ≤ vec_capacity records.new) }
    ensures succeeds { count ≡ 0 → IsOk result }
{
    if records.len() >= LONG && records.capacity() < ROOM_OF_LONG {
        let more = ROOM_OF_LONG.saturating_sub(records.len());
        // Where there is not as much, what is wanted now may still be there.
        let _ = records.reserve_exact(more);
    }
    records.reserve(count)
}

/// The records of the oldest steps, so many, move to the end of a vector; all room is made first.
fn move_oldest<M: Atomic>(
    process: &mut Process<M>,
    records: &mut Vec<Record>,
    count: usize,
) -> Result<(), AllocError>
    requires { count ≤ length process.old.process.history }
    ensures process { OnOk result (SameButSpare (without_first count process.old) process.new) }
    ensures records { let moved = records_of (take count process.old.process.history) in
        OnOk result (records.new.items ≡ records.old.items ++ moved) }
    ensures stays { OnErr result (process.new ≡ process.old) }
    ensures records_stay { OnErr result (records.new.items ≡ records.old.items) }
    ensures succeeds { count ≡ 0 → IsOk result }
{
    make_room(records, count)?;
    for _ in 0..count {
        if let Some(done) = process.commit_oldest() {
            records.push_reserved(done);
        }
    }
    Ok(())
}
