//! Whole numbers as JSON writes them.

ghost use Rattle.std.specs.Prelude.{◌≡◌, ◌≢◌, ◌<◌, ◌^◌, IfSome, IfNone, decimal};
ghost use Rattle.std.specs.Fmt.{signed_decimal};
ghost use Rattle.std.specs.Int.{w64};
ghost use Rattle.std.specs.Int.RustNames.{FitsSigned};
ghost use Rattle.serde_json.specs.View.{number_view};
ghost use Rattle.tw_file_settings.specs.Texts.{IsWhole};

use itoa::Buffer;
use serde_json::Number;

/// The number that a text writes in decimal, of 64 bits without sign: no plus, and no zero before another digit.
fn unsigned_in(text: &str) -> Option<u64>
    ensures some { IfSome result (λ n. text.now ≡ decimal n) }
    ensures none { IfNone result ((n : _) → n < 2 ^ 64 → text.now ≢ decimal n) }
{
    let number = text.parse::<u64>().ok()?;
    let mut buffer = Buffer::new();
    if buffer.format(number) != text {
        return None;
    }
    Some(number)
}

/// The same of 64 bits with sign: a minus stands before a negative one alone.
fn signed_in(text: &str) -> Option<i64>
    ensures some { IfSome result (λ z. text.now ≡ signed_decimal z) }
    ensures none { IfNone result ((z : _) → FitsSigned w64 z → text.now ≢ signed_decimal z) }
{
    let number = text.parse::<i64>().ok()?;
    let mut buffer = Buffer::new();
    if buffer.format(number) != text {
        return None;
    }
    Some(number)
}

/// The whole number that a text writes as JSON does, -2^63 to 2^64 - 1.
pub(crate) fn whole_in(text: &str) -> Option<Number>
    ensures some { IfSome result (λ n. IsWhole text.now (number_view n)) }
    ensures none { IfNone result ((n : _) → ¬ (IsWhole text.now n)) }
{
    match unsigned_in(text) {
        Some(number) => Some(Number::from(number)),
        None => Some(Number::from(signed_in(text)?)),
    }
}
