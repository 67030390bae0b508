//! What is wrong with the timers of a machine.

use crate::entries::{name_fault, not_constant, out_of_range};
use crate::machines::{other_type, program_fault};
use crate::members::{timer_at, timer_place};
use crate::names::Written;
use serde_json::Value;
use std::alloc::{AllocError, Global};
use tw_file_members::items_in;
use tw_machine_declaration::MAX_TIMER_NAMES;
use tw_machine_text::MAX_COUNT;
use tw_machine_text_faults::{described, quoted};

/// The members of a timer.
const MEMBERS: [&str; 5] = ["name", "count", "first", "do", "output"];

/// The first fault of the timers' names, counts and first waits.
pub(crate) fn timers_fault(
    alloc: Global,
    machine: Written<'_>,
) -> Result<Option<String>, AllocError> {
    if let Some(line) = other_type(alloc, machine.value, "timers", "a list")? {
        return Ok(Some(line));
    }
    let timers = items_in(machine.value, "timers");
    let count = timers.len();
    if count > MAX_TIMER_NAMES {
        let line = format!(in alloc; "timers has {count} entries, at most {MAX_TIMER_NAMES}")?;
        return Ok(Some(line));
    }
    for (i, timer) in timers.iter().enumerate() {
        if let Some(reason) = timer_fault(alloc, machine, timers, i, timer)? {
            return Ok(Some(format!(in alloc; "timers[{i}]{reason}")?));
        }
    }
    Ok(None)
}

/// What is wrong with a timer, as words behind its place.
fn timer_fault(
    alloc: Global,
    machine: Written<'_>,
    timers: &[Value],
    i: usize,
    timer: &Value,
) -> Result<Option<String>, AllocError> {
    let Some(members) = timer.as_object() else {
        let found = described(alloc, timer)?;
        return Ok(Some(format!(in alloc; " is {found}, not an object")?));
    };
    for name in members.keys() {
        if !MEMBERS.contains(&name.as_str()) {
            let name = quoted(alloc, name.as_str())?;
            let line = format!(in alloc;
                ": no member {name} in a timer, which takes name, count, first, do, output"
            )?;
            return Ok(Some(line));
        }
    }
    if let Some(reason) = timer_name_fault(alloc, machine.value, timers, i, timer)? {
        return Ok(Some(format!(in alloc; "{reason}")?));
    }
    timer_constants_fault(alloc, machine, timer)
}

/// What is wrong with the name of a timer.
fn timer_name_fault(
    alloc: Global,
    machine: &Value,
    timers: &[Value],
    i: usize,
    timer: &Value,
) -> Result<Option<String>, AllocError> {
    let Some(name) = timer.get("name") else {
        return Ok(Some(String::from_str(alloc, ": \"name\" is missing in a timer")?));
    };
    let found = described(alloc, name)?;
    let Some(text) = name.as_str() else {
        return Ok(Some(format!(in alloc; ".name is {found}, not a text")?));
    };
    if let Some(reason) = name_fault(alloc, machine, "timers", text)? {
        return Ok(Some(format!(in alloc; ".name: {reason}")?));
    }
    for other in timers.iter().take(i) {
        if other.get("name").and_then(Value::as_str) == Some(text) {
            return Ok(Some(format!(in alloc; ".name: {found} stood before")?));
        }
    }
    Ok(None)
}

/// What is wrong with the count of a timer, or with when it is first due.
fn timer_constants_fault(
    alloc: Global,
    machine: Written<'_>,
    timer: &Value,
) -> Result<Option<String>, AllocError> {
    if let Some(count) = timer.get("count") {
        if let Some(line) = out_of_range(alloc, machine, count, ".count is", MAX_COUNT as i64)? {
            return Ok(Some(line));
        }
    }
    match timer.get("first") {
        Some(first) => not_constant(alloc, machine, first, ".first is"),
        None => Ok(None),
    }
}

/// What is wrong with the program of a timer that is no text and no list of texts.
pub(crate) fn timer_lines_fault(
    alloc: Global,
    machine: &Value,
    i: usize,
) -> Result<Option<String>, AllocError> {
    let Some(program) = timer_at(machine, i).and_then(|timer| timer.get("do")) else {
        return Ok(None);
    };
    let place = timer_place(alloc, machine, i)?;
    let place = format!(in alloc; "{place}.do")?;
    program_fault(alloc, place.as_str(), program)
}
