//! The line of a script that says nothing.

use std::alloc::{AllocError, Global};
use std::str;

/// The words for the line of a script that says nothing (22), by its number from 1: they show its text. None where the script has no
/// such line.
///
/// Refused for want of memory (4).
pub fn script_words(alloc: Global, script: &[u8], line: u64) -> Result<Option<String>, AllocError> {
    let Some(before) = line.checked_sub(1) else {
        return Ok(None);
    };
    let mut lines = script.split(|byte| *byte == b'\n');
    let Some(bytes) = lines.nth(before as usize) else {
        return Ok(None);
    };
    let words = match str::from_utf8(bytes) {
        Ok(text) => format!(in alloc; "line {line} is no command: {text:?}")?,
        Err(_) => format!(in alloc; "line {line} is no command: it is not UTF-8")?,
    };
    Ok(Some(words))
}
