//! Numbers with three decimals.

ghost use Rattle.std.specs.Prelude.{◌≡◌, ◌++◌, OnOk, string_bytes};
ghost use Rattle.tw_stats.specs.Decimals.{thousandths_text};

use std::alloc::AllocError;

/// So many thousandths, as `-0.500` or `12.000`.
///
/// Where memory is wanting (refusal 4) a part of it may stand at the end.
pub(crate) fn add_thousandths(text: &mut String, number: i128) -> Result<(), AllocError>
    ensures { OnOk result
        (string_bytes text.new ≡ string_bytes text.old ++ thousandths_text number) }
{
    if number < 0 {
        text.push_str("-")?;
    }
    let size = number.unsigned_abs();
    let whole = size / 1000;
    let tenths = size % 1000 / 100;
    let hundredths = size % 100 / 10;
    let last = size % 10;
    write!(text, "{whole}.{tenths}{hundredths}{last}")
}
