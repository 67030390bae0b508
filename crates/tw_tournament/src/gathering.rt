//! Which times are the first, and the first of these.

ghost use Rattle.std.specs.Prelude.{◌≡◌, ◌≤◌, ◌<◌, ◌+◌, ◌++◌, ℕ, OnOk, drop, length, take};
ghost use Rattle.tw_tournament.specs.Times.{numbers_at};
ghost use Rattle.tw_tournament.specs.Winners.{at, IsPower, IsWon, PlayFor};

use std::alloc::AllocError;
use tw_vtime::Stamp;

/// Lists the numbers of this time below a place: they are so many from a first one on.
pub(crate) fn gather(
    winners: &[Stamp],
    row: usize,
    place: usize,
    first: usize,
    width: usize,
    time: Stamp,
    numbers: &mut Vec<usize>,
) -> Result<(), AllocError>
    requires won { IsWon winners.now row }
    requires size { length winners.now ≡ row + row }
    requires bound { row ≤ 8589934592 }
    requires place { 1 ≤ place }
    requires below { PlayFor place width (row + first) }
    requires within { first + width ≤ row }
    requires least { (p : ℕ) → 1 ≤ p → p < row + row → time ≤ at winners.now p }
    ensures { OnOk result (numbers.new.items ≡ numbers.old.items
        ++ numbers_at time first (take width (drop (row + first) winners.now))) }
{
    if winners[place] != time {
        return Ok(());
    }
    let (mut place, mut first, mut width) = (place, first, width);
    while width > 1 {
        width /= 2;
        place += place;
        if winners[place + 1] == time {
            gather(winners, row, place, first, width, time, numbers)?;
            place += 1;
            first += width;
        }
    }
    numbers.push(first)?;
    Ok(())
}

/// The least number of those at the time of the winner of all.
pub(crate) fn first_at(winners: &[Stamp], row: usize, time: Stamp) -> usize
    requires won { IsWon winners.now row }
    requires size { length winners.now ≡ row + row }
    requires bound { row ≤ 8589934592 }
    requires power { IsPower row }
    requires time { at winners.now 1 ≡ time }
    ensures within { result < row }
    ensures there { at winners.now (row + result) ≡ time }
    ensures earlier { (i : ℕ) → i < result → time < at winners.now (row + i) }
{
    let (mut place, mut first, mut width) = (1, 0, row);
    while width > 1 {
        width /= 2;
        place += place;
        if winners[place] != time {
            place += 1;
            first += width;
        }
    }
    first
}
