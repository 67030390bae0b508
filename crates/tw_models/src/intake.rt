//! What relay and queue have in common: a bounded list of values that came, a count of those that
//! found no room, and the remaining time while the list is not empty.
ghost use Rattle.std.specs.Prelude.{◌≡◌, ◌-◌, ◌≤◌, [], ◌++◌, ◌∷◌, ◌↔◌, ℤ, pos, IsTrue, OnOk, OnErr, length, min};
ghost use Rattle.tw_models.specs.Intake.{accepted_values, dropped_before, left_after, left_before};
ghost use Rattle.tw_models.specs.Left.{IsWithin};

use crate::remaining::{minus, plus};
use arrayvec::ArrayVec;
use std::alloc::AllocError;

/// Appends the values that find room, and answers how many did.
pub(crate) fn accept<const ROOM: usize>(kept: &mut ArrayVec<i64, ROOM>, bag: &[(u8, i64)]) -> usize
    ensures kept { kept.new.items ≡ kept.old.items ++ accepted_values ROOM kept.old.items bag.now }
    ensures count { result ≡ min (ROOM - length kept.old.items) (length bag.now) }
{
    let count = kept.remaining_capacity().min(bag.len());
    for item in &bag[..count] {
        kept.push(item.1);
    }
    count
}

/// The time left after something came, in ticks.
pub(crate) fn left_after(kept: &[i64], left: Option<u64>, elapsed: u64, delay: u64) -> Option<u64>
    requires { IsWithin elapsed left }
    ensures { result ≡ left_after kept.now left elapsed delay }
{
    if kept.is_empty() {
        Some(delay)
    } else {
        minus(left, elapsed)
    }
}

/// The time left before something came, in ticks.
pub(crate) fn left_before(kept: &[i64], left: Option<u64>, elapsed: u64) -> Option<u64>
    ensures { result ≡ left_before kept.now left elapsed }
{
    if kept.is_empty() {
        None
    } else {
        plus(left, elapsed)
    }
}

/// How many values had found no room before a bag, of whose items this many found room.
pub(crate) fn dropped_before(dropped: u64, items: usize, accepted: usize) -> u64
    ensures { result ≡ dropped_before dropped items accepted }
{
    dropped.wrapping_sub(items.saturating_sub(accepted) as u64)
}

/// Appends a count and values. The only error is want of memory, and it leaves the list with the
/// numbers that it had.
pub(crate) fn write_words(
    dropped: u64,
    values: &[i64],
    words: &mut Vec<i128>,
) -> Result<(), AllocError>
    requires { length values.now ≤ 64 }
    ensures ok { OnOk result (words.new.items ≡ words.old.items ++ pos dropped ∷ values.now) }
    ensures err { OnErr result (words.new.items ≡ words.old.items) }
{
    words.reserve(1 + values.len())?;
    words.push_reserved(dropped as i128);
    for value in values {
        words.push_reserved(*value as i128);
    }
    Ok(())
}

/// Whether two lists of values are equal.
pub(crate) fn same_values(one: &[i64], other: &[i64]) -> bool
    ensures { IsTrue result ↔ (one.now ≡ other.now) }
{
    one == other
}

/// A list of the same values.
pub(crate) fn copy_of<const ROOM: usize>(kept: &ArrayVec<i64, ROOM>) -> ArrayVec<i64, ROOM>
    ensures { result.items ≡ kept.now.items }
{
    let mut copy = ArrayVec::new();
    refill(&mut copy, kept);
    copy
}

/// Puts the same values into an empty list.
pub(crate) fn refill<const ROOM: usize>(copy: &mut ArrayVec<i64, ROOM>, kept: &ArrayVec<i64, ROOM>)
    requires { copy.old.items ≡ [] }
    ensures { copy.new.items ≡ kept.now.items }
{
    for value in kept.as_slice() {
        copy.push(*value);
    }
}
