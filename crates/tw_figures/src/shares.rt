//! Means and shares, with three decimals.

ghost use Rattle.std.specs.Prelude.{◌≡◌, ◌<◌, ◌*◌, ◌↔◌, ◌+ℤ◌, ◌*ℤ◌, IfSome, pos};
ghost use Rattle.std.specs.Option.{IsSome};
ghost use Rattle.tw_figures.specs.Shares.{FitsMean, FitsThousandths, IsMean, IsShare, IsThousandths};

/// A sum over so many ticks, divided by them, in thousandths: a half is rounded up, towards greater.
pub(crate) fn thousandths(sum: i128, ticks: u64) -> Option<i128>
    requires { 0 < ticks }
    ensures is { IfSome result (IsThousandths sum ticks) }
    ensures fits { IsSome result ↔ FitsThousandths sum ticks }
{
    Some(half_more(sum, ticks)?.div_euclid(twice(ticks)))
}

/// 2,000 times the sum, and half of the divisor.
fn half_more(sum: i128, ticks: u64) -> Option<i128>
    ensures is { IfSome result (λ all. all ≡ pos 2000 *ℤ sum +ℤ pos ticks) }
    ensures fits { IsSome result ↔ FitsThousandths sum ticks }
{
    let scaled = 2000_i128.checked_mul(sum)?;
    scaled.checked_add(i128::from(ticks))
}

/// Two times the ticks.
fn twice(ticks: u64) -> i128
    ensures { result ≡ pos (2 * ticks) }
{
    i128::from(ticks) + i128::from(ticks)
}

/// The mean of a figure over `ticks` ticks, in thousandths: `sum` by `ticks`, a half rounded up. Over no ticks it is
/// `last`, the last value.
///
/// `None` exactly where 2,000 times the sum, or 1,000 times the last value, passes 128 bits. Means of numbers of 64 bits, with a
/// sign or without, fit ([`means_fit_law`](crate::means_fit_law)).
pub fn mean(sum: i128, last: i128, ticks: u64) -> Option<i128>
    ensures is { IfSome result (IsMean sum last ticks) }
    ensures fits { IsSome result ↔ FitsMean sum last ticks }
{
    if ticks == 0 {
        return 1000_i128.checked_mul(last);
    }
    thousandths(sum, ticks)
}

/// The share of so many ticks in which a figure with this last value was not 0, in thousandths: a half is rounded up. Over no
/// ticks it is 1,000 where the last value is not 0, and else 0. It is never `None`.
pub fn share(busy: u64, last: i128, ticks: u64) -> Option<i128>
    ensures is { IfSome result (IsShare busy last ticks) }
    ensures always { IsSome result }
{
    if ticks == 0 {
        return Some(if last == 0 { 0 } else { 1000 });
    }
    thousandths(i128::from(busy), ticks)
}
