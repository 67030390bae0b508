//! The text, the number or the flag of one option.

ghost use Rattle.std.specs.Prelude.{◌≡◌, IfSome, IfNone, is_some, map, option_map};
ghost use Rattle.clap.specs.Words.{all_of, rows_of, found_of, first_of};
ghost use Rattle.tw_cli.specs.Options.{HasFlag, HasNumber};

use clap::ArgMatches;

/// A number among the options, in a range.
pub fn number_in(options: &ArgMatches<'_>, id: &str, least: u64, most: u64) -> Option<u64>
    ensures some { IfSome result (HasNumber id.now least most (rows_of (found_of options.now))) }
    ensures none { let rows = rows_of (found_of options.now) in
        IfNone result ((n : _) → ¬ (HasNumber id.now least most rows n)) }
{
    let number = options.get_one::<u64>(id)?;
    if number < least || number > most {
        return None;
    }
    Some(number)
}

/// The text of an option, or none where it is left out.
pub fn text_in<'a>(options: &ArgMatches<'a>, id: &str) -> Option<&'a str>
    ensures { option_map (λ s. s.now) result ≡ first_of id.now (rows_of (found_of options.now)) }
{
    options.get_str(id)
}

/// The texts of an option that may stand there many times, in their order, or none where it is left out.
pub(crate) fn texts_in<'s, 'a>(options: &'s ArgMatches<'a>, id: &str) -> Option<&'s [&'a str]>
    ensures { option_map (λ s. map (λ t. t.now) s.now) result
        ≡ all_of id.now (rows_of (found_of options.now)) }
{
    options.get_strs(id)
}

/// Whether an option stands on the line.
pub(crate) fn has(options: &ArgMatches<'_>, id: &str) -> bool
    ensures { result ≡ is_some (first_of id.now (rows_of (found_of options.now))) }
{
    text_in(options, id).is_some()
}

/// Whether a flag is on among the options. Clap puts in `false` where it is left out.
pub fn flag_in(options: &ArgMatches<'_>, id: &str) -> bool
    ensures { HasFlag id.now (rows_of (found_of options.now)) result }
{
    text_in(options, id) == Some("true")
}
