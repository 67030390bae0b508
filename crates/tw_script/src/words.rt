//! The numbers and stamps in a line of a script.

ghost use Rattle.std.specs.Prelude.{◌≡◌, ◌≢◌, ◌≤◌, ℕ, IfSome, IfNone, decimal};
ghost use Rattle.tw_vtime.specs.Stamps.{stamp, stamp_text, IsInRange, IsStamp};

use itoa::Buffer;
use tw_vtime::Stamp;

/// The number that a word writes in decimal, without a sign and without leading zeros: the word is what is written for it.
pub(crate) fn number(word: &str) -> Option<u64>
    ensures written { IfSome result (λ n. word.now ≡ decimal n) }
    ensures none { IfNone result ((n : ℕ) → n ≤ 18446744073709551615 → word.now ≢ decimal n) }
{
    let number: u64 = word.parse().ok()?;
    let mut buffer = Buffer::new();
    if buffer.format(number) == word {
        Some(number)
    } else {
        None
    }
}

/// The stamp that a word writes: tick, microstep and phase with dots between, or `end`.
pub(crate) fn stamp(word: &str) -> Option<Stamp>
    ensures written { IfSome result (λ s. word.now ≡ stamp_text s) }
    ensures none { IfNone result ((s : ℕ) → IsStamp s → word.now ≢ stamp_text s) }
{
    if word == "end" {
        return Some(Stamp::END);
    }
    let (tick, rest) = word.split_once('.')?;
    let (micro, phase) = rest.split_once('.')?;
    stamp_of(number(tick)?, number(micro)?, number(phase)?)
}

/// The stamp of this tick, microstep and phase.
fn stamp_of(tick: u64, micro: u64, phase: u64) -> Option<Stamp>
    ensures stamp { IfSome result (λ s. s ≡ stamp tick micro phase) }
    ensures in_range { IfSome result
        (λ _. IsInRange (record { tick = tick; micro = micro; phase = phase })) }
    ensures none { IfNone result
        (¬ (IsInRange (record { tick = tick; micro = micro; phase = phase }))) }
{
    let micro = u32::try_from(micro).ok()?;
    let phase = u8::try_from(phase).ok()?;
    Stamp::new(tick, micro, phase).ok()
}
