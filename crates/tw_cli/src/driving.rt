//! What drives an executive by hand, and how it cancels.

ghost use Rattle.std.specs.Prelude.{IfSome, IfNone, IsTrue, IsFalse};
ghost use Rattle.clap.specs.Words.{rows_of, found_of};
ghost use Rattle.tw_cli.specs.Options.{IsCancelIn, IsDriverIn, IsUndriven};

use crate::values::{has, number_in, text_in};
use clap::ArgMatches;
use tw_actions::Cancel;

/// The most actions that a seed may be asked for.
pub const MAX_STEPS: u64 = 1_000_000;

/// What drives an executive by hand.
#[derive(Clone, Copy, Debug, PartialEq, Eq)]
pub enum Driver<'a> {
    /// The script in the file of this path.
    Script(&'a str),
    /// So many actions that a seed gives.
    Seed {
        /// The seed, any u64.
        seed: u64,
        /// The number of actions, 0 to 1,000,000.
        steps: u64,
    },
}

/// The way of cancelling among the options.
pub fn cancel_in(options: &ArgMatches<'_>) -> Option<Cancel>
    ensures some { IfSome result (IsCancelIn (rows_of (found_of options.now))) }
    ensures none { IfNone result ((c : _) → ¬ (IsCancelIn (rows_of (found_of options.now)) c)) }
{
    let Some(way) = text_in(options, "cancel") else {
        return Some(Cancel::Aggressive);
    };
    if way == "aggressive" {
        return Some(Cancel::Aggressive);
    }
    if way == "lazy" {
        return Some(Cancel::Lazy);
    }
    None
}

/// What drives an executive, among the options.
pub fn driver_in<'a>(options: &ArgMatches<'a>) -> Option<Driver<'a>>
    ensures some { IfSome result (IsDriverIn (rows_of (found_of options.now))) }
    ensures none { IfNone result ((d : _) → ¬ (IsDriverIn (rows_of (found_of options.now)) d)) }
{
    if let Some(script) = text_in(options, "script") {
        if has(options, "seed") || has(options, "steps") {
            return None;
        }
        return Some(Driver::Script(script));
    }
    let seed = number_in(options, "seed", 0, u64::MAX)?;
    let steps = number_in(options, "steps", 0, MAX_STEPS)?;
    Some(Driver::Seed { seed, steps })
}

/// Whether an option stands that says what drives an executive, or how it cancels.
pub(crate) fn is_driven(options: &ArgMatches<'_>) -> bool
    ensures yes { IsTrue result → ¬ (IsUndriven (rows_of (found_of options.now))) }
    ensures no { IsFalse result → IsUndriven (rows_of (found_of options.now)) }
{
    has(options, "script")
        || has(options, "seed")
        || has(options, "steps")
        || has(options, "cancel")
}
