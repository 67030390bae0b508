//! A time that changes plays again.

ghost use Rattle.std.specs.Prelude.{◌≡◌, ◌<◌, ◌≤◌, ◌+◌, length, slice_set, drop};
ghost use Rattle.tw_tournament.specs.Winners.{IsWon};

use tw_vtime::Stamp;

/// Puts a time at a place of the row, and lets it play its way up.
pub(crate) fn play(winners: &mut [Stamp], row: usize, place: usize, time: Stamp)
    requires won { IsWon winners.old row }
    requires size { length winners.old ≡ row + row }
    requires row { row ≤ place }
    requires within { place < row + row }
    ensures won { IsWon winners.new row }
    ensures row { drop row winners.new ≡ drop row (slice_set winners.old place time) }
{
    winners[place] = time;
    let mut upper = place / 2;
    while upper > 0 {
        let winner = winners[upper + upper].min(winners[upper + upper + 1]);
        if winners[upper] == winner {
            break;
        }
        winners[upper] = winner;
        upper /= 2;
    }
}
