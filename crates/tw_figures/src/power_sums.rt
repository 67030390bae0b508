//! The three numbers of an observation in a state.

ghost use Rattle.std.specs.Prelude.{◌≡◌, ◌+◌, pos, slice_index_or};
ghost use Rattle.tw_figures.specs.Observed.{modulo_64, power_sums};

use crate::figure::Measure;
use tw_msgs::Words;

/// 2^64.
const MODULUS: i128 = 18_446_744_073_709_551_616;

/// How many values there were, their sum, and the sum of their squares, each modulo 2^64.
#[derive(Clone, Copy, Debug, PartialEq, Eq)]
pub struct PowerSums {
    /// How many values.
    pub count: u64,
    /// Their sum.
    pub sum: u64,
    /// The sum of their squares.
    pub squares: u64,
}

impl PowerSums {
    /// Those of an observation, in a state of these words, of which the one at this place is the first of its numbers.
    pub fn new(place: usize, words: &Words) -> PowerSums
        ensures { result ≡ power_sums place words.now }
    {
        PowerSums {
            count: modulo_64(word(words, place, 0)),
            sum: modulo_64(word(words, place, 1)),
            squares: modulo_64(word(words, place, 2)),
        }
    }
}

/// The word so many places behind a place; 0 where there is none.
fn word(words: &Words, place: usize, behind: usize) -> i128
    ensures { result ≡ slice_index_or words.now (place + behind) (pos 0) }
{
    let _few = words.len();
    match place.checked_add(behind) {
        Some(at) => Measure::Word(at).value(words),
        None => 0,
    }
}

/// What is left of a number modulo 2^64.
fn modulo_64(number: i128) -> u64
    ensures { result ≡ modulo_64 number }
{
    number.rem_euclid(MODULUS) as u64
}
