//! The tournament of times.

ghost use Rattle.std.specs.Prelude.{◌≡◌, ◌<◌, ◌≤◌, ◌⊎◌, ◌++◌, ℕ, None, Some, IfOk, IfSome, OnOk, length, replicate, slice_get, slice_set};
ghost use Rattle.tw_tournament.specs.Times.{numbers_at, IsFirst, NoneFirst};
ghost use Rattle.tw_tournament.specs.Winners.{IsPower};
ghost use Rattle.tw_vtime.specs.Stamps.{never};

use crate::gathering::{first_at, gather};
use crate::playing::play;
use std::alloc::{AllocError, Global};
use std::marker::Model;
use tw_vtime::Stamp;

/// A tournament tree (Knuth 1973) of as many times, by numbers from 0: the earlier of each two goes up, so the least
/// is at the top. Another time costs the logarithm of how many there are.
#[derive(Drop)]
pub struct Tournament {
    // How many times there are.
    count: usize,
    // A power of two. At place 1 is the winner of all; at 2p and 2p + 1 are those that met for place p. The times are the row of
    // places that begins at `row`; behind them in the row are ends.
    row: usize,
    winners: Vec<Stamp>,
}

impl Model for Tournament {
    ghost use Rattle.std.specs.Prelude.{drop, take};
    ghost use Rattle.tw_tournament.specs.Times.{Times};
    ghost use Rattle.tw_tournament.specs.Winners.{IsPlayed};

    ghost Value = { Times };

    ghost view = { λ t. record { times = take t.count (drop t.row t.winners.items) } };

    ghost invariant = { λ t. IsPlayed t.winners.items t.row t.count };
}

impl Tournament {
    /// A tournament of `count` times, each of them the end.
    ///
    /// Refused for want of memory alone (4).
    pub fn new(alloc: Global, count: usize) -> Result<Tournament, AllocError>
        requires { count ≤ 4294967296 }
        ensures { IfOk result (λ t. t.times ≡ replicate count never) }
    {
        let row = row_of(count);
        let mut winners = Vec::new(alloc);
        winners.resize(row + row, Stamp::END)?;
        Ok(Tournament {
            count,
            row,
            winners,
        })
    }

    /// The least of all times; the end where there is none before it.
    pub fn least(&self) -> Stamp
        ensures first { (c s : ℕ) → slice_get self.now.times c ≡ Some s → result ≤ s }
        ensures there { (result ≡ never) ⊎ ((c : ℕ) × (slice_get self.now.times c ≡ Some result)) }
    {
        let winners = self.winners.as_slice();
        winners[1]
    }

    /// The least time, and the least number that has it; `None` where that time is the end. It costs the logarithm of
    /// how many times there are.
    pub fn first(&self) -> Option<(Stamp, usize)>
        ensures first { IfSome result (λ first. IsFirst self.now.times first.0 first.1) }
        ensures none { result ≡ None → NoneFirst self.now.times }
    {
        let winners = self.winners.as_slice();
        let time = winners[1];
        if time >= Stamp::END {
            return None;
        }
        Some((time, first_at(winners, self.row, time)))
    }

    /// Gives a number another time.
    pub fn set(&mut self, number: usize, time: Stamp)
        requires { number < length self.old.times }
        ensures { self.new.times ≡ slice_set self.old.times number time }
    {
        let place = self.row + number;
        play(self.winners.as_mut_slice(), self.row, place, time);
    }

    /// Appends to `numbers`, in rising order, all numbers that have this time: the least of all, and not the end.
    ///
    /// Refused for want of memory (4); a part of them may then be appended.
    pub fn collect(&self, time: Stamp, numbers: &mut Vec<usize>) -> Result<(), AllocError>
        requires first { (c s : ℕ) → slice_get self.now.times c ≡ Some s → time ≤ s }
        requires before_end { time < never }
        ensures { OnOk result
            (numbers.new.items ≡ numbers.old.items ++ numbers_at time 0 self.now.times) }
    {
        gather(
            self.winners.as_slice(),
            self.row,
            1,
            0,
            self.row,
            time,
            numbers,
        )
    }
}

/// The length of a row for so many: the least power of two that is not less.
fn row_of(count: usize) -> usize
    requires { count ≤ 4294967296 }
    ensures power { IsPower result }
    ensures enough { count ≤ result }
    ensures bound { result ≤ 8589934592 }
{
    let mut row = 1;
    while row < count {
        row += row;
    }
    row
}
