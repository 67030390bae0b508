//! What a text that is no JSON wants where it goes wrong.

use serde_json::Error;
use std::alloc::{AllocError, Global};

/// The deepest nesting that is read.
const MAX_DEPTH: usize = 127;

/// What stands last before a place in a text.
#[derive(Clone, Copy, Debug, PartialEq, Eq)]
enum Last {
    Nothing,
    Open,
    Comma,
    Name,
    Colon,
    Value,
}

/// How far a text has been read.
#[derive(Drop)]
struct Scan {
    last: Last,
    /// Of each list or object that is open, whether it is an object.
    open: Vec<bool>,
    in_text: bool,
    is_escaped: bool,
}

/// The line for bytes that are no JSON: where, and what is wanted there.
pub(crate) fn not_json(alloc: Global, bytes: &[u8], error: &Error) -> Result<String, AllocError> {
    let (line, column) = (error.line(), error.column());
    let reason = reason(alloc, bytes, error)?;
    format!(in alloc; "line {line}, column {column}: not JSON: {reason}")
}

/// Why bytes are no JSON.
fn reason(alloc: Global, bytes: &[u8], error: &Error) -> Result<&'static str, AllocError> {
    if bytes.starts_with(&[0xef, 0xbb, 0xbf]) {
        return Ok("a byte order mark before the text");
    }
    if error.is_eof() {
        return Ok("the text ends too early");
    }
    let said = format!(in alloc; "{error}")?;
    if said.as_str().starts_with("number out of range") {
        return Ok("a number out of range");
    }
    let offset = offset_of(bytes, error.line(), error.column());
    let next = bytes.get(offset).copied().unwrap_or(0);
    if !next.is_ascii() && std::str::from_utf8(bytes).is_err() {
        return Ok("not UTF-8");
    }
    let scan = scanned(alloc, bytes, offset)?;
    Ok(wanted(&scan, next))
}

/// How many bytes stand before a line and a column.
fn offset_of(bytes: &[u8], line: usize, column: usize) -> usize {
    let mut offset = 0usize;
    let mut before = 1usize;
    for byte in bytes {
        if before == line {
            break;
        }
        offset = offset.saturating_add(1);
        if *byte == b'\n' {
            before = before.saturating_add(1);
        }
    }
    offset.saturating_add(column.saturating_sub(1))
}

/// Reads so many bytes of a text.
fn scanned(alloc: Global, bytes: &[u8], count: usize) -> Result<Scan, AllocError> {
    let mut scan = Scan {
        last: Last::Nothing,
        open: Vec::new(alloc),
        in_text: false,
        is_escaped: false,
    };
    for byte in bytes.iter().take(count) {
        if scan.in_text {
            read_in_text(&mut scan, *byte);
        } else {
            read_between(&mut scan, *byte)?;
        }
    }
    Ok(scan)
}

/// Reads a byte of a text in quotes.
fn read_in_text(scan: &mut Scan, byte: u8) {
    if scan.is_escaped {
        scan.is_escaped = false;
    } else if byte == b'\\' {
        scan.is_escaped = true;
    } else if byte == b'"' {
        scan.in_text = false;
        let is_name = scan.open.last() == Some(&true)
            && (scan.last == Last::Open || scan.last == Last::Comma);
        scan.last = if is_name { Last::Name } else { Last::Value };
    }
}

/// Reads a byte outside of quotes.
fn read_between(scan: &mut Scan, byte: u8) -> Result<(), AllocError> {
    match byte {
        b'"' => scan.in_text = true,
        b'{' | b'[' => {
            scan.open.push(byte == b'{')?;
            scan.last = Last::Open;
        }
        b'}' | b']' => {
            let _ = scan.open.pop();
            scan.last = Last::Value;
        }
        b',' => scan.last = Last::Comma,
        b':' => scan.last = Last::Colon,
        b' ' | b'\t' | b'\n' | b'\r' => {}
        _ => scan.last = Last::Value,
    }
    Ok(())
}

/// What is wanted after what has been read, where the next byte is this one: the first of what goes wrong.
fn wanted(scan: &Scan, next: u8) -> &'static str {
    if scan.open.len() > MAX_DEPTH {
        return "nested deeper than 127 levels";
    }
    match (scan.last, scan.open.last()) {
        (Last::Name, _) => "expected a colon",
        (Last::Value, Some(_)) => "expected a comma",
        (Last::Value, None) => "expected the end of the file",
        _ if next == b'"' => "a text with a character or an escape that no text may have",
        (Last::Open, Some(true)) => "expected a member's name or }",
        (Last::Comma, Some(true)) => "expected a member's name",
        _ if next == b'-' || next.is_ascii_digit() => "a number in a form that none has",
        (Last::Open, _) => "expected a value or ]",
        _ => "expected a value",
    }
}
