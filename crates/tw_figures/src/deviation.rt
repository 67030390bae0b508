//! The mean and the standard deviation of values, with three decimals, from their power sums.

ghost use Rattle.std.specs.Prelude.{◌≡◌, ◌≤◌, ◌<◌, ◌*◌, ◌⊎◌, ◌*ℤ◌, ◌≤ℤ◌, ◌<ℤ◌, MatchOption, pos};
ghost use Rattle.tw_figures.specs.Deviations.{IsDeviation, IsMeanOfValues, IsRoot, spread, spread_limit};

use crate::shares::thousandths;

/// The least spread of which no deviation is told: 2^105.
const LIMIT: u128 = 40_564_819_207_303_340_847_894_502_572_032;

/// The mean of so many values with this sum, in thousandths: a half is rounded up. None where there is no value.
pub(crate) fn mean_of_values(count: i64, sum: i64) -> Option<i128>
    ensures { IsMeanOfValues count sum result }
{
    if count <= 0 {
        return None;
    }
    thousandths(i128::from(sum), count.unsigned_abs())
}

/// The standard deviation of so many values with this sum and this sum of their squares, in thousandths: a half is rounded up. None
/// where there is no value, and where the sums have no spread that is told.
pub(crate) fn deviation(count: i64, sum: i64, squares: i64) -> Option<u64>
    ensures { IsDeviation count sum squares result }
{
    if count <= 0 {
        return None;
    }
    let count = count.unsigned_abs();
    let spread = spread(count, sum, squares)?;
    Some(root(spread, count))
}

/// So many times the sum of the squares, less the square of the sum. None where it is negative, or 2^105 or more.
fn spread(count: u64, sum: i64, squares: i64) -> Option<u128>
    requires { 0 < count }
    ensures { let all = spread (pos count) sum squares in
        MatchOption result ((all <ℤ pos 0) ⊎ (pos spread_limit ≤ℤ all))
        (λ d. (pos d ≡ all) × (d < spread_limit)) }
{
    if squares < 0 {
        return None;
    }
    let least = square(sum);
    let all = product(count, squares.unsigned_abs());
    if all < least || all - least >= LIMIT {
        return None;
    }
    Some(all - least)
}

/// A product of numbers of 64 bits.
fn product(a: u64, b: u64) -> u128
    ensures { result ≡ a * b }
{
    u128::from(a) * u128::from(b)
}

/// The square of a number of 64 bits.
fn square(number: i64) -> u128
    ensures { pos result ≡ number *ℤ number }
{
    let size = number.unsigned_abs();
    product(size, size)
}

/// The root of a spread, divided by so many values, in thousandths: a half is rounded up.
fn root(spread: u128, count: u64) -> u64
    requires some { 0 < count }
    requires small { spread < spread_limit }
    ensures { IsRoot spread count result }
{
    let root = (4_000_000 * spread).isqrt();
    let halves = root / u128::from(count);
    ((halves + 1) / 2) as u64
}
