//! What is wrong with the parameters, registers, queues, tables and observations of a machine.

use crate::machines::other_type;
use crate::names::{
    Written, bad_name, bad_parameter, is_list, is_parameter, observations_of, parameters_of,
};
use serde_json::Value;
use std::alloc::{AllocError, Global};
use tw_file_members::items_in;
use tw_machine::limits::{MAX_CELLS, MAX_NUMBERS, MAX_OBSERVATIONS, MAX_QUEUES, MAX_ROOM};
use tw_machine_text_faults::{Nearest, described, quoted};

/// What a whole number with a sign is.
pub const WHOLE: &str = "a whole number from -9223372036854775808 to 9223372036854775807";

/// The kinds of what is declared by name: their members, and what one is called.
const SECTIONS: [(&str, &str); 3] = [
    ("registers", "a register"),
    ("queues", "a queue"),
    ("tables", "a table"),
];

/// The first fault of the parameters.
pub(crate) fn parameters_fault(
    alloc: Global,
    machine: &Value,
) -> Result<Option<String>, AllocError> {
    let names = parameters_of(machine);
    for (i, name) in names.iter().enumerate() {
        let found = described(alloc, name)?;
        let Some(text) = name.as_str() else {
            return Ok(Some(format!(in alloc; "parameters[{i}] is {found}, not a text")?));
        };
        if let Some(reason) = bad_parameter(alloc, machine, text)? {
            return Ok(Some(format!(in alloc; "parameters[{i}]: {reason}")?));
        }
        if first_text(names, text) < i {
            return Ok(Some(format!(in alloc; "parameters[{i}]: {found} stood before")?));
        }
    }
    Ok(None)
}

/// The first fault of the observations.
pub(crate) fn observations_fault(
    alloc: Global,
    machine: &Value,
) -> Result<Option<String>, AllocError> {
    let names = observations_of(machine);
    let count = names.len();
    if count > MAX_OBSERVATIONS {
        let line = format!(in alloc;
            "observations has {count} entries, at most {MAX_OBSERVATIONS}"
        )?;
        return Ok(Some(line));
    }
    for (i, name) in names.iter().enumerate() {
        let found = described(alloc, name)?;
        let Some(text) = name.as_str() else {
            return Ok(Some(format!(in alloc; "observations[{i}] is {found}, not a text")?));
        };
        if let Some(reason) = name_fault(alloc, machine, "observations", text)? {
            return Ok(Some(format!(in alloc; "observations[{i}]: {reason}")?));
        }
        if first_text(names, text) < i {
            return Ok(Some(format!(in alloc; "observations[{i}]: {found} stood before")?));
        }
    }
    Ok(None)
}

/// The place of the first text like this one; their number where there is none.
fn first_text(texts: &[Value], text: &str) -> usize {
    for (i, other) in texts.iter().enumerate() {
        if other.as_str() == Some(text) {
            return i;
        }
    }
    texts.len()
}

/// The first fault of registers, queues or tables.
pub(crate) fn section_fault(
    alloc: Global,
    machine: Written<'_>,
    member: &str,
) -> Result<Option<String>, AllocError> {
    let Some(value) = machine.value.get(member) else {
        return Ok(None);
    };
    let Some(members) = value.as_object() else {
        let found = described(alloc, value)?;
        return Ok(Some(format!(in alloc; "{member} is {found}, not an object")?));
    };
    for (name, value) in members.iter() {
        let name = name.as_str();
        if let Some(reason) = name_fault(alloc, machine.value, member, name)? {
            return Ok(Some(format!(in alloc; "{member}: {reason}")?));
        }
        if let Some(reason) = entry_fault(alloc, machine, member, value)? {
            let name = quoted(alloc, name)?;
            return Ok(Some(format!(in alloc; "{member}: {name} {reason}")?));
        }
    }
    Ok(None)
}

/// Why a name may not be declared here.
pub(crate) fn name_fault(
    alloc: Global,
    machine: &Value,
    member: &str,
    name: &str,
) -> Result<Option<String>, AllocError> {
    if let Some(reason) = bad_name(alloc, machine, name)? {
        return Ok(Some(reason));
    }
    let shown = quoted(alloc, name)?;
    if is_parameter(machine, name) {
        return Ok(Some(format!(in alloc; "{shown} is the name of a parameter too")?));
    }
    for (section, what) in &SECTIONS {
        if *section == member {
            break;
        }
        let declared = machine.get(*section).and_then(|members| members.get(name));
        if declared.is_some() {
            return Ok(Some(format!(in alloc; "{shown} is the name of {what} too")?));
        }
    }
    let Some(what) = named_before(machine, member, name) else {
        return Ok(None);
    };
    Ok(Some(format!(in alloc; "{shown} is the name of {what} too")?))
}

/// What has a name before a member behind the tables: an observation, or a procedure.
fn named_before(machine: &Value, member: &str, name: &str) -> Option<&'static str> {
    let is_behind = matches!(member, "procedures" | "timers");
    let observations = observations_of(machine);
    if is_behind && first_text(observations, name) < observations.len() {
        return Some("an observation");
    }
    if member != "timers" {
        return None;
    }
    for pair in items_in(machine, "procedures") {
        if pair.get(0).and_then(Value::as_str) == Some(name) {
            return Some("a procedure");
        }
    }
    None
}

/// What is wrong with the names of procedures.
pub(crate) fn procedures_fault(
    alloc: Global,
    machine: &Value,
) -> Result<Option<String>, AllocError> {
    let Some(pairs) = machine.get("procedures").and_then(Value::as_array) else {
        return other_type(alloc, machine, "procedures", "a list");
    };
    for (i, pair) in pairs.iter().enumerate() {
        let is_pair = pair.as_array().map(|parts| parts.len()) == Some(2);
        let Some(text) = pair.get(0).and_then(Value::as_str) else {
            let line = format!(in alloc; "procedures[{i}] is no list of a name and a program")?;
            return Ok(Some(line));
        };
        if !is_pair {
            let line = format!(in alloc; "procedures[{i}] is no list of a name and a program")?;
            return Ok(Some(line));
        }
        if let Some(reason) = name_fault(alloc, machine, "procedures", text)? {
            return Ok(Some(format!(in alloc; "procedures[{i}]: {reason}")?));
        }
        let found = quoted(alloc, text)?;
        for other in pairs.iter().take(i) {
            if other.get(0).and_then(Value::as_str) == Some(text) {
                return Ok(Some(format!(in alloc; "procedures[{i}]: {found} stood before")?));
            }
        }
    }
    Ok(None)
}

/// What is wrong with what a name declares, as words behind the name.
fn entry_fault(
    alloc: Global,
    machine: Written<'_>,
    member: &str,
    value: &Value,
) -> Result<Option<String>, AllocError> {
    match (member, value.as_array()) {
        ("registers", None) => not_constant(alloc, machine, value, "is"),
        ("registers", Some(cells)) => cells_fault(alloc, machine, cells.as_slice()),
        ("queues", None) => out_of_range(alloc, machine, value, "has room for", MAX_ROOM as i64),
        ("queues", Some(parts)) => queues_fault(alloc, machine, parts.as_slice()),
        (_, None) => not_list(alloc, machine.value, value),
        (_, Some(numbers)) => numbers_fault(alloc, numbers.as_slice()),
    }
}

/// What is wrong with the cells of an array register.
fn cells_fault(
    alloc: Global,
    machine: Written<'_>,
    cells: &[Value],
) -> Result<Option<String>, AllocError> {
    let count = cells.len();
    if count < 1 || count > MAX_CELLS {
        return Ok(Some(format!(in alloc; "has {count} cells, 1 to {MAX_CELLS}")?));
    }
    for (i, cell) in cells.iter().enumerate() {
        let has = format!(in alloc; "has at [{i}]")?;
        if let Some(reason) = not_constant(alloc, machine, cell, has.as_str())? {
            return Ok(Some(reason));
        }
    }
    Ok(None)
}

/// What is wrong with an array of queues.
fn queues_fault(
    alloc: Global,
    machine: Written<'_>,
    parts: &[Value],
) -> Result<Option<String>, AllocError> {
    let (Some(count), Some(room), 2) = (parts.first(), parts.last(), parts.len()) else {
        let count = parts.len();
        let line = format!(in alloc; "is a list of {count}, not of two: a count and a room")?;
        return Ok(Some(line));
    };
    if let Some(reason) = out_of_range(
        alloc,
        machine,
        count,
        "has a count of",
        MAX_QUEUES as i64,
    )? {
        return Ok(Some(reason));
    }
    out_of_range(alloc, machine, room, "has room for", MAX_ROOM as i64)
}

/// What is wrong with the numbers of a table.
fn numbers_fault(alloc: Global, numbers: &[Value]) -> Result<Option<String>, AllocError> {
    let count = numbers.len();
    if count < 1 || count > MAX_NUMBERS {
        return Ok(Some(format!(in alloc; "has {count} numbers, 1 to {MAX_NUMBERS}")?));
    }
    for (i, number) in numbers.iter().enumerate() {
        if !number.is_i64() {
            let found = described(alloc, number)?;
            return Ok(Some(format!(in alloc; "has {found} at [{i}], not {WHOLE}")?));
        }
    }
    Ok(None)
}

/// Why a table is no list, if it is no name of a parameter.
fn not_list(alloc: Global, machine: &Value, value: &Value) -> Result<Option<String>, AllocError> {
    let name = value.as_str().unwrap_or("");
    if is_parameter(machine, name) {
        return Ok(None);
    }
    let found = described(alloc, value)?;
    let question = nearest_list(alloc, machine, name)?;
    let line = format!(in alloc;
        "is {found}, neither a list nor the name of a parameter{question}"
    )?;
    Ok(Some(line))
}

/// Why a value is no constant, if it is none.
pub(crate) fn not_constant(
    alloc: Global,
    machine: Written<'_>,
    value: &Value,
    is: &str,
) -> Result<Option<String>, AllocError> {
    let (written, name) = (machine.value, value.as_str().unwrap_or(""));
    let is_number = is_parameter(written, name) && !is_list(written, name);
    if value.is_i64() || is_number || machine.constant(name).is_some() {
        return Ok(None);
    }
    let found = described(alloc, value)?;
    let constants = machine.constants(alloc)?;
    let others = if constants.is_empty() {
        ""
    } else {
        " or of a constant"
    };
    let question = nearest_number(alloc, written, &constants, name)?;
    let line = format!(in alloc;
        "{is} {found}, neither {WHOLE} nor the name of a parameter that is a number{others}{question}"
    )?;
    Ok(Some(line))
}

/// Why a value is no constant from 1 to this, if it is none.
pub(crate) fn out_of_range(
    alloc: Global,
    machine: Written<'_>,
    value: &Value,
    is: &str,
    most: i64,
) -> Result<Option<String>, AllocError> {
    if let Some(reason) = not_constant(alloc, machine, value, is)? {
        return Ok(Some(reason));
    }
    let found = described(alloc, value)?;
    let (number, shown) = match machine.constant(value.as_str().unwrap_or("")) {
        Some(number) => (
            Some(number),
            format!(in alloc; "{found}, which is {number}")?,
        ),
        None => (value.as_i64(), found),
    };
    match number {
        Some(number) if number < 1 => Ok(Some(format!(in alloc; "{is} {shown}, at least 1")?)),
        Some(number) if number > most => {
            Ok(Some(format!(in alloc; "{is} {shown}, at most {most}")?))
        }
        _ => Ok(None),
    }
}

/// The question for the parameter that was meant.
fn nearest_list(alloc: Global, machine: &Value, name: &str) -> Result<String, AllocError> {
    let mut nearest = Nearest::new(name);
    for one in parameters_of(machine) {
        nearest.look(alloc, one.as_str().unwrap_or(""))?;
    }
    nearest.question(alloc)
}

/// The question for the parameter that is a number, or for the constant of these, that was meant.
fn nearest_number(
    alloc: Global,
    machine: &Value,
    constants: &[(&str, i64)],
    name: &str,
) -> Result<String, AllocError> {
    let mut nearest = Nearest::new(name);
    for one in parameters_of(machine) {
        let one = one.as_str().unwrap_or("");
        if !is_list(machine, one) {
            nearest.look(alloc, one)?;
        }
    }
    for (one, _) in constants {
        nearest.look(alloc, one)?;
    }
    nearest.question(alloc)
}
