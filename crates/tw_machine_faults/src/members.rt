//! The outputs and words of a machine: their texts, and what is wrong with them.

use crate::entries::WHOLE;
use serde_json::Value;
use std::alloc::{AllocError, Global};
use tw_file_members::items_in;
use tw_machine::limits::MAX_OUTPUTS;
use tw_machine_file::{Part, Sender};
use tw_machine_text::Member;
use tw_machine_text_faults::{described, quoted};

/// The members of an output.
const MEMBERS: [&str; 4] = ["port", "value", "when", "each"];

/// A text of a machine.
#[derive(Drop)]
pub(crate) struct Said {
    /// Where it stands: `internal`, or as `output[2].value`.
    pub(crate) place: String,
    pub(crate) text: String,
    /// What it is; none is a program.
    pub(crate) member: Option<Member>,
}

/// The text of a part.
pub(crate) fn member_text(alloc: Global, machine: &Value, part: Part) -> Result<Said, AllocError> {
    match part {
        Part::Internal => program_text(alloc, machine, "internal"),
        Part::External => program_text(alloc, machine, "external"),
        Part::Procedure(i) => procedure_text(alloc, machine, i),
        Part::TimerProgram(i) => timer_text(alloc, machine, i),
        Part::Port(by, i) => output_text(alloc, machine, by, i, "port", Member::Value),
        Part::Value(by, i) => output_text(alloc, machine, by, i, "value", Member::Value),
        Part::When(by, i) => output_text(alloc, machine, by, i, "when", Member::Value),
        Part::Each(by, i) => output_text(alloc, machine, by, i, "each", Member::Each),
        Part::Word(i) => Ok(Said {
            place: format!(in alloc; "words[{i}]")?,
            text: text_of(alloc, items_in(machine, "words").get(i))?,
            member: Some(Member::Shown),
        }),
        _ => program_text(alloc, machine, ""),
    }
}

/// The text of a member that is a program, its lines joined.
fn program_text(alloc: Global, machine: &Value, member: &str) -> Result<Said, AllocError> {
    Ok(Said {
        place: String::from_str(alloc, member)?,
        text: joined(alloc, machine.get(member))?,
        member: None,
    })
}

/// The text of a procedure, its lines joined.
fn procedure_text(alloc: Global, machine: &Value, i: usize) -> Result<Said, AllocError> {
    let pair = items_in(machine, "procedures").get(i);
    let name = pair.and_then(|pair| pair.get(0)).and_then(Value::as_str);
    let name = name.unwrap_or("");
    Ok(Said {
        place: format!(in alloc; "procedures.{name}")?,
        text: joined(alloc, pair.and_then(|pair| pair.get(1)))?,
        member: None,
    })
}

/// The timer at a place.
pub(crate) fn timer_at(machine: &Value, i: usize) -> Option<&Value> {
    items_in(machine, "timers").get(i)
}

/// The place of a timer, by its name.
pub(crate) fn timer_place(alloc: Global, machine: &Value, i: usize) -> Result<String, AllocError> {
    let name = timer_at(machine, i).and_then(|timer| timer.get("name"));
    match name.and_then(Value::as_str) {
        Some(name) => format!(in alloc; "timers.{name}"),
        None => format!(in alloc; "timers[{i}]"),
    }
}

/// The program of a timer, its lines joined.
fn timer_text(alloc: Global, machine: &Value, i: usize) -> Result<Said, AllocError> {
    let place = timer_place(alloc, machine, i)?;
    let program = timer_at(machine, i).and_then(|timer| timer.get("do"));
    Ok(Said {
        place: format!(in alloc; "{place}.do")?,
        text: joined(alloc, program)?,
        member: None,
    })
}

/// The outputs of a machine, or of one of its timers.
fn outputs_of(machine: &Value, by: Sender) -> &[Value] {
    match by {
        Sender::Machine => items_in(machine, "output"),
        Sender::Timer(i) => match timer_at(machine, i) {
            Some(timer) => items_in(timer, "output"),
            None => &[],
        },
    }
}

/// The place of the outputs of a machine, or of one of its timers.
fn outputs_place(alloc: Global, machine: &Value, by: Sender) -> Result<String, AllocError> {
    match by {
        Sender::Machine => String::from_str(alloc, "output"),
        Sender::Timer(i) => {
            let place = timer_place(alloc, machine, i)?;
            format!(in alloc; "{place}.output")
        }
    }
}

/// What is wrong with a list of outputs: it is none, or too long.
pub(crate) fn outputs_fault(
    alloc: Global,
    machine: &Value,
    by: Sender,
) -> Result<Option<String>, AllocError> {
    let place = outputs_place(alloc, machine, by)?;
    let owner = match by {
        Sender::Machine => Some(machine),
        Sender::Timer(i) => timer_at(machine, i),
    };
    let Some(value) = owner.and_then(|owner| owner.get("output")) else {
        return Ok(None);
    };
    if !value.is_array() {
        let found = described(alloc, value)?;
        return Ok(Some(format!(in alloc; "{place} is {found}, not a list")?));
    }
    let count = outputs_of(machine, by).len();
    let line = format!(in alloc; "{place} has {count} entries, 0 to {MAX_OUTPUTS}")?;
    Ok(Some(line))
}

/// A text, or the lines of a list.
fn joined(alloc: Global, value: Option<&Value>) -> Result<String, AllocError> {
    let mut text = text_of(alloc, value)?;
    let Some(lines) = value.and_then(Value::as_array) else {
        return Ok(text);
    };
    for (i, line) in lines.iter().enumerate() {
        if i > 0 {
            text.push_str("\n")?;
        }
        text.push_str(line.as_str().unwrap_or(""))?;
    }
    Ok(text)
}

/// The text of a member of an output.
fn output_text(
    alloc: Global,
    machine: &Value,
    by: Sender,
    i: usize,
    name: &str,
    member: Member,
) -> Result<Said, AllocError> {
    let value = outputs_of(machine, by)
        .get(i)
        .and_then(|entry| entry.get(name));
    let place = outputs_place(alloc, machine, by)?;
    Ok(Said {
        place: format!(in alloc; "{place}[{i}].{name}")?,
        text: text_of(alloc, value)?,
        member: Some(member),
    })
}

/// The text that a value is.
fn text_of(alloc: Global, value: Option<&Value>) -> Result<String, AllocError> {
    String::from_str(alloc, value.and_then(Value::as_str).unwrap_or(""))
}

/// What is wrong with an entry of the outputs or words.
pub(crate) fn entry_fault(
    alloc: Global,
    machine: &Value,
    part: Part,
) -> Result<Option<String>, AllocError> {
    match part {
        Part::Entry(by, i) => output_fault(alloc, machine, by, i),
        Part::Port(by, i) => sent_fault(alloc, machine, by, i, "port"),
        Part::Value(by, i) => sent_fault(alloc, machine, by, i, "value"),
        Part::When(by, i) => sent_fault(alloc, machine, by, i, "when"),
        Part::Each(by, i) => sent_fault(alloc, machine, by, i, "each"),
        Part::Word(i) => match items_in(machine, "words").get(i) {
            Some(word) => {
                let found = described(alloc, word)?;
                let line = format!(in alloc; "words[{i}] is {found}, neither a text nor {WHOLE}")?;
                Ok(Some(line))
            }
            None => Ok(None),
        },
        _ => Ok(None),
    }
}

/// What is wrong with an output: it is no object, or has a member that none has.
fn output_fault(
    alloc: Global,
    machine: &Value,
    by: Sender,
    i: usize,
) -> Result<Option<String>, AllocError> {
    let place = outputs_place(alloc, machine, by)?;
    let Some(entry) = outputs_of(machine, by).get(i) else {
        return Ok(None);
    };
    let Some(members) = entry.as_object() else {
        let found = described(alloc, entry)?;
        return Ok(Some(format!(in alloc; "{place}[{i}] is {found}, not an object")?));
    };
    for name in members.keys() {
        if !MEMBERS.contains(&name.as_str()) {
            let name = quoted(alloc, name.as_str())?;
            let line = format!(in alloc;
                "{place}[{i}]: no member {name} in an output, which takes port, value, when, each"
            )?;
            return Ok(Some(line));
        }
    }
    Ok(None)
}

/// What is wrong with a member of an output: it is missing, or of another type.
fn sent_fault(
    alloc: Global,
    machine: &Value,
    by: Sender,
    i: usize,
    name: &str,
) -> Result<Option<String>, AllocError> {
    let place = outputs_place(alloc, machine, by)?;
    let value = outputs_of(machine, by)
        .get(i)
        .and_then(|entry| entry.get(name));
    let Some(value) = value else {
        let line = format!(in alloc; "{place}[{i}]: \"{name}\" is missing in an output")?;
        return Ok(Some(line));
    };
    let found = described(alloc, value)?;
    let line = if name == "each" {
        format!(in alloc; "{place}[{i}].{name} is {found}, not a text")?
    } else {
        format!(in alloc; "{place}[{i}].{name} is {found}, neither a text nor {WHOLE}")?
    };
    Ok(Some(line))
}

/// The line for a queue or an array register that has come before in the words.
pub(crate) fn word_again(alloc: Global, machine: &Value, i: usize) -> Result<String, AllocError> {
    let word = items_in(machine, "words")
        .get(i)
        .and_then(Value::as_str)
        .unwrap_or("");
    let word = quoted(alloc, word)?;
    format!(in alloc; "words[{i}]: {word} stands in words before")
}
