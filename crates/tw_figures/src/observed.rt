//! What is told of an observation.

ghost use Rattle.std.specs.Prelude.{◌≡◌, ℕ, ℤ, List};
ghost use Rattle.tw_figures.specs.Observed.{IsObserved, IsWatch, grown};
ghost use Rattle.tw_msgs.specs.declared.record.Record.{Record as TheRecord};

use crate::deviation::{deviation, mean_of_values};
use crate::watch::Watch;

/// What is told of an observation: of the values that were observed from a tick on. Their number and their sums are
/// modulo 2^64 with sign.
#[derive(Clone, Copy, Debug, PartialEq, Eq)]
pub struct Observed {
    /// How many values there were.
    pub count: i64,
    /// Their sum.
    pub sum: i64,
    /// The sum of their squares.
    pub squares: i64,
    /// Their mean, in thousandths. There is none where `count` is not above 0.
    pub mean: Option<i128>,
    /// Their standard deviation, in thousandths. There is none where `count` is not above 0, and where the sums have wrapped so
    /// that no values have them, or are so great that it is not computed.
    pub deviation: Option<u64>,
}

impl Watch {
    /// What is told of the observation from the first tick on.
    pub fn observed(&self) -> Observed
        ensures { (from : ℕ) (start : List ℤ) (moves : List TheRecord)
            → IsWatch from start moves self.now → IsObserved from self.now.place start moves result }
    {
        let count = grown(self.first.count, self.last.count);
        let sum = grown(self.first.sum, self.last.sum);
        let squares = grown(self.first.squares, self.last.squares);
        Observed {
            count,
            sum,
            squares,
            mean: mean_of_values(count, sum),
            deviation: deviation(count, sum, squares),
        }
    }
}

/// By how much a number grew, modulo 2^64 with sign.
fn grown(first: u64, last: u64) -> i64
    ensures { result ≡ grown first last }
{
    last.wrapping_sub(first).cast_signed()
}
