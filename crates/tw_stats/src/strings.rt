//! Strings of JSON.

ghost use Rattle.std.specs.Prelude.{◌≡◌, ◌<◌, ◌/◌, ◌%◌, ◌++◌, ◌∷◌, [], OnOk, codes, string_bytes};
ghost use Rattle.tw_stats.specs.Strings.{escaped, escaped_letter, hex_digit, quoted};

use std::alloc::AllocError;

/// A string, between quotation marks.
pub(crate) fn add_string(text: &mut String, string: &str) -> Result<(), AllocError>
    ensures { OnOk result (string_bytes text.new ≡ string_bytes text.old ++ quoted string.now) }
{
    text.push_str("\"")?;
    add_escaped(text, string)?;
    text.push_str("\"")
}

/// A string with escapes.
fn add_escaped(text: &mut String, string: &str) -> Result<(), AllocError>
    ensures { OnOk result (string_bytes text.new ≡ string_bytes text.old ++ escaped string.now) }
{
    for letter in string.chars() {
        add_letter(text, letter)?;
    }
    Ok(())
}

/// A letter of a string.
fn add_letter(text: &mut String, letter: char) -> Result<(), AllocError>
    ensures { OnOk result
        (string_bytes text.new ≡ string_bytes text.old ++ escaped_letter letter) }
{
    match letter {
        '"' => text.push_str("\\\""),
        '\\' => text.push_str("\\\\"),
        '\u{0}'..='\u{1f}' => add_control(text, letter as u32),
        _ => text.push(letter),
    }
}

/// A control character, by its number.
fn add_control(text: &mut String, number: u32) -> Result<(), AllocError>
    requires { number < 32 }
    ensures { OnOk result (string_bytes text.new ≡ string_bytes text.old
        ++ 92 ∷ codes "u00" ++ hex_digit (number / 16) ∷ hex_digit (number % 16) ∷ []) }
{
    text.push_str("\\u00")?;
    text.push(hex_digit(number / 16))?;
    text.push(hex_digit(number % 16))
}

/// A digit of a hexadecimal number.
fn hex_digit(digit: u32) -> char
    requires { digit < 16 }
    ensures { result ≡ hex_digit digit }
{
    char::from_digit(digit, 16).unwrap_or('0')
}
