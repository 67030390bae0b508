//! Values and texts of a file, as they stand in a line of words.

use serde_json::Value;
use std::alloc::{AllocError, Global};

/// The most characters of a text of the file that a line shows.
const SHOWN: usize = 64;

/// A text in quotes, with what would break the line written as an escape, and its end left out where it is long.
///
/// Refused where a growth of memory is.
pub fn quoted(alloc: Global, text: &str) -> Result<String, AllocError> {
    let mut shown = String::new(alloc);
    for (count, letter) in text.chars().enumerate() {
        if count == SHOWN {
            return format!(in alloc; "{:?}..", shown.as_str());
        }
        shown.push(letter)?;
    }
    format!(in alloc; "{:?}", shown.as_str())
}

/// What a value is: a number, a text, `true`, `false` or `null` as written, and of the others the kind.
///
/// Refused where a growth of memory is.
pub fn described(alloc: Global, value: &Value) -> Result<String, AllocError> {
    match value {
        Value::Null | Value::Bool(_) | Value::Number(_) => value.to_string(alloc),
        Value::String(text) => quoted(alloc, text.as_str()),
        Value::Array(_) => String::from_str(alloc, "a list"),
        Value::Object(_) => String::from_str(alloc, "an object"),
    }
}

/// Words with a comma between them.
///
/// Refused where a growth of memory is.
pub fn listed(alloc: Global, words: &[&str]) -> Result<String, AllocError> {
    let mut list = String::new(alloc);
    for word in words {
        if !list.is_empty() {
            list.push_str(", ")?;
        }
        list.push_str(word)?;
    }
    Ok(list)
}
