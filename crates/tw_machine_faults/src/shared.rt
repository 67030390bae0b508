//! What is wrong with what a file says once for all its machines: its fields and its constants.

use crate::entries::WHOLE;
use crate::names::no_name;
use crate::stop::Stop;
use serde_json::Value;
use std::alloc::{AllocError, Global};
use tw_file_members::items_in;
use tw_machine_file::{MAX_BITS, MachineFault, Part, SharedNames, shared_in};
use tw_machine_text::FUNCTIONS;
use tw_machine_text_faults::{described, quoted};

/// What a field is written as.
const FIELD: &str = "a name and a number of bits";

/// The most bits of one field.
const MOST_BITS: i64 = 62;

/// What a file says once for all its machines; stops at the first fault of `fields`, and then of `constants`.
pub(crate) fn shared_of(alloc: Global, file: &Value) -> Result<SharedNames, Stop> {
    let line = match shared_in(alloc, file) {
        Ok(said) => return Ok(said),
        Err(MachineFault::OutOfMemory) => return Err(Stop::OutOfMemory),
        Err(MachineFault::Wrong(Part::Fields, _)) => fields_fault(alloc, file)?,
        Err(_) => constants_fault(alloc, file)?,
    };
    match line {
        Some(line) => Err(Stop::Fault(line)),
        None => Err(Stop::Fault(String::from_str(
            alloc,
            "the file: fields or constants have not their form",
        )?)),
    }
}

/// The first fault of the fields.
fn fields_fault(alloc: Global, file: &Value) -> Result<Option<String>, AllocError> {
    if let Some(value) = file.get("fields") {
        if !value.is_array() {
            let found = described(alloc, value)?;
            return Ok(Some(format!(in alloc; "fields: {found}, not a list")?));
        }
    }
    let fields = items_in(file, "fields");
    for (i, field) in fields.iter().enumerate() {
        if let Some(reason) = field_fault(alloc, fields, i, field)? {
            let place = field_place(alloc, i, field)?;
            return Ok(Some(format!(in alloc; "{place}: {reason}")?));
        }
    }
    Ok(None)
}

/// The place of a field, with its name where it has one.
fn field_place(alloc: Global, i: usize, field: &Value) -> Result<String, AllocError> {
    match name_in(field) {
        Some(name) => {
            let name = quoted(alloc, name)?;
            format!(in alloc; "fields[{i}] {name}")
        }
        None => format!(in alloc; "fields[{i}]"),
    }
}

/// The name of a field.
fn name_in(field: &Value) -> Option<&str> {
    field.get(0).and_then(Value::as_str)
}

/// What is wrong with a field, as words behind its place.
fn field_fault(
    alloc: Global,
    fields: &[Value],
    i: usize,
    field: &Value,
) -> Result<Option<String>, AllocError> {
    let (Some(name), Some(bits)) = (field.get(0), field.get(1)) else {
        return Ok(Some(no_pair(alloc, field)?));
    };
    if field.as_array().map(|parts| parts.len()) != Some(2) {
        return Ok(Some(no_pair(alloc, field)?));
    }
    let Some(text) = name.as_str() else {
        let found = described(alloc, name)?;
        return Ok(Some(format!(in alloc; "{found} at [0], not a name")?));
    };
    if let Some(reason) = field_name_fault(alloc, text)? {
        return Ok(Some(reason));
    }
    for (before, other) in fields.iter().take(i).enumerate() {
        if name_in(other) == Some(text) {
            return Ok(Some(format!(in alloc; "fields[{before}] has this name")?));
        }
    }
    bits_fault(alloc, fields, i, bits)
}

/// The words for a field that is no list of two.
fn no_pair(alloc: Global, field: &Value) -> Result<String, AllocError> {
    match field.as_array() {
        Some(parts) => {
            let count = parts.len();
            format!(in alloc; "a list of {count}, not of two: {FIELD}")
        }
        None => {
            let found = described(alloc, field)?;
            format!(in alloc; "{found}, not a list of {FIELD}")
        }
    }
}

/// Why a text may be no name of a field.
fn field_name_fault(alloc: Global, name: &str) -> Result<Option<String>, AllocError> {
    if let Some(reason) = no_name(alloc, true, name)? {
        return Ok(Some(reason));
    }
    let shown = quoted(alloc, name)?;
    if matches!(name, "observe" | "clear" | "do" | "in") {
        return Ok(Some(format!(in alloc; "{shown} is a word of the language, and no field")?));
    }
    if FUNCTIONS.contains(&name) {
        return Ok(Some(format!(in alloc; "{shown} is a function, and no field")?));
    }
    Ok(None)
}

/// What is wrong with the number of bits of a field.
fn bits_fault(
    alloc: Global,
    fields: &[Value],
    i: usize,
    bits: &Value,
) -> Result<Option<String>, AllocError> {
    if !bits.is_u64() && !bits.is_i64() {
        let found = described(alloc, bits)?;
        return Ok(Some(format!(in alloc; "{found} at [1], not a number of bits")?));
    }
    let count = bits.as_i64().unwrap_or(MOST_BITS.saturating_add(1));
    if count < 1 || count > MOST_BITS {
        let found = described(alloc, bits)?;
        return Ok(Some(format!(in alloc; "has {found} bits, 1 to {MOST_BITS}")?));
    }
    let mut total = 0u64;
    for field in fields.iter().take(i.saturating_add(1)) {
        let bits = field.get(1).and_then(Value::as_u64).unwrap_or(0);
        total = total.saturating_add(bits);
    }
    if total > MAX_BITS {
        let line = format!(in alloc;
            "the fields up to here have {total} bits together, at most {MAX_BITS}"
        )?;
        return Ok(Some(line));
    }
    Ok(None)
}

/// The first fault of the constants.
fn constants_fault(alloc: Global, file: &Value) -> Result<Option<String>, AllocError> {
    let Some(value) = file.get("constants") else {
        return Ok(None);
    };
    let Some(members) = value.as_object() else {
        let found = described(alloc, value)?;
        return Ok(Some(format!(in alloc; "constants: {found}, not an object")?));
    };
    for (name, value) in members.iter() {
        if let Some(reason) = constant_fault(alloc, name.as_str(), value)? {
            let name = quoted(alloc, name.as_str())?;
            return Ok(Some(format!(in alloc; "constants {name}: {reason}")?));
        }
    }
    Ok(None)
}

/// What is wrong with a constant, as words behind its place.
fn constant_fault(alloc: Global, name: &str, value: &Value) -> Result<Option<String>, AllocError> {
    if let Some(reason) = no_name(alloc, true, name)? {
        return Ok(Some(reason));
    }
    if value.is_i64() {
        return Ok(None);
    }
    let found = described(alloc, value)?;
    Ok(Some(format!(in alloc; "{found}, not {WHOLE}")?))
}
