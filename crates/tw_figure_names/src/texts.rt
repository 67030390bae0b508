//! What the entries of a machine's `words` are called.

ghost use Rattle.std.specs.Prelude.{◌≡◌, ◌++◌, IfOk, OnOk, codes, encode_utf8, map, string_bytes};
ghost use Rattle.serde_json.specs.View.{view};
ghost use Rattle.tw_figure_names.specs.Texts.{digits_of, is_blank, joined, parted, squeezed, text_of};

use serde_json::Value;
use std::alloc::{AllocError, Global};

/// Whether it is a space, a tab, a line end or a carriage return.
fn is_blank(letter: char) -> bool
    ensures { result ≡ is_blank letter }
{
    letter == ' ' || letter == '\t' || letter == '\n' || letter == '\r'
}

/// A letter more, behind a blank if it is parted from others.
fn add_letter(text: &mut String, is_parted: bool, letter: char) -> Result<(), AllocError>
    ensures { OnOk result
        (string_bytes text.new ≡ parted is_parted (string_bytes text.old) ++ encode_utf8 letter) }
{
    if !is_parted || text.as_str().is_empty() {
        return text.push(letter);
    }
    text.push(' ')?;
    text.push(letter)
}

/// A text with each run of blanks as one, and none at its ends.
fn squeezed(alloc: Global, text: &str) -> Result<String, AllocError>
    ensures { IfOk result (λ said. string_bytes said ≡ squeezed text.now) }
{
    let mut squeezed = String::new(alloc);
    let mut is_parted = false;
    for letter in text.chars() {
        if is_blank(letter) {
            is_parted = true;
            continue;
        }
        add_letter(&mut squeezed, is_parted, letter)?;
        is_parted = false;
    }
    Ok(squeezed)
}

/// The digits of a whole number.
fn digits(alloc: Global, value: &Value) -> Result<String, AllocError>
    ensures { IfOk result (λ said. string_bytes said ≡ digits_of (view value.now)) }
{
    match value.as_i64() {
        Some(number) => format!(in alloc; "{number}"),
        None => Ok(String::new(alloc)),
    }
}

/// What an entry is called: a text with each run of blanks as one, the digits of a number.
pub(crate) fn text_of(alloc: Global, value: &Value) -> Result<String, AllocError>
    ensures { IfOk result (λ said. string_bytes said ≡ text_of (view value.now)) }
{
    match value.as_str() {
        Some(text) => squeezed(alloc, text),
        None => digits(alloc, value),
    }
}

/// Texts with ` + ` between each two.
pub(crate) fn joined(alloc: Global, texts: &[String]) -> Result<String, AllocError>
    ensures { IfOk result
        (λ said. string_bytes said ≡ joined (codes " + ") (map string_bytes texts.now)) }
{
    let Some((first, rest)) = texts.split_first() else {
        return Ok(String::new(alloc));
    };
    let mut joined = String::from_str(alloc, first.as_str())?;
    for text in rest {
        joined.push_str(" + ")?;
        joined.push_str(text.as_str())?;
    }
    Ok(joined)
}
