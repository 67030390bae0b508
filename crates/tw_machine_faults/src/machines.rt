//! The machines of a file: the first fault of `models`.

use crate::entries::{
    not_constant, observations_fault, out_of_range, parameters_fault, procedures_fault,
    section_fault,
};
use crate::limits::{limit_fault, own_numbers};
use crate::members::{entry_fault, member_text, outputs_fault, word_again};
use crate::names::{Written, declared_in, is_list, is_timed, parameter_names};
use crate::shared::shared_of;
use crate::stop::Stop;
use crate::timers::{timer_lines_fault, timers_fault};
use crate::values::name_of;
use serde_json::Value;
use std::alloc::{AllocError, Global};
use tw_file_members::{items_in, machine_index};
use tw_machine::limits::{MAX_MACHINES, MAX_WORDS};
use tw_machine_compiler::{BadMachine, Given, compile};
use tw_machine_file::{FileMachine, MachineFault, Part, SharedNames, Why, is_used, machine_of};
use tw_machine_text::Place;
use tw_machine_text_faults::{Nearest, described, listed, quoted, reason};
use tw_models::is_kind_name;
use tw_vtime::MAX_TICK;

/// The members of a machine.
const MEMBERS: [&str; 16] = [
    "name",
    "parameters",
    "registers",
    "queues",
    "tables",
    "observations",
    "random",
    "procedures",
    "first",
    "longest",
    "timers",
    "least",
    "internal",
    "external",
    "output",
    "words",
];

/// The machines of a file, in order.
#[derive(Drop)]
pub struct Machines<'a> {
    values: &'a [Value],
    read: Vec<FileMachine>,
}

impl<'a> Machines<'a> {
    /// No machines.
    pub fn none(alloc: Global) -> Machines<'a> {
        Machines {
            values: &[],
            read: Vec::new(alloc),
        }
    }

    /// What they declare.
    pub fn read(&self) -> &[FileMachine] {
        self.read.as_slice()
    }

    /// The first machine of a name.
    pub fn named(&self, name: &str) -> Option<Machine<'_>> {
        let index = machine_index(self.read(), name)?;
        let value = self.values.get(index)?;
        let read = self.read().get(index)?;
        Some(Machine { value, read })
    }

    /// How many numbers the tables have that stand in the machines themselves.
    pub fn own_numbers(&self, alloc: Global) -> usize {
        let mut total = 0usize;
        for machine in self.read() {
            total = total.saturating_add(own_numbers(alloc, machine));
        }
        total
    }
}

/// A machine of a file, and the value that declares it.
#[derive(Clone, Copy)]
pub struct Machine<'a> {
    pub(crate) value: &'a Value,
    /// What it declares.
    pub read: &'a FileMachine,
}

impl<'a> Machine<'a> {
    /// The names of its parameters, in order.
    ///
    /// Refused where a growth of memory is.
    pub fn parameters(&self, alloc: Global) -> Result<Vec<&'a str>, AllocError> {
        parameter_names(alloc, self.value)
    }

    /// Whether a component gives a list for the parameter of this name: a table is named after it.
    pub fn takes_list(&self, name: &str) -> bool {
        is_list(self.value, name)
    }

    /// Stops at the first limit that it passes with these numbers; `place` is where the line says that this is.
    pub fn check_limits(&self, alloc: Global, place: &str, given: &Given) -> Result<(), Stop> {
        match compile(alloc, given, &self.read.declaration) {
            Ok(_) => Ok(()),
            Err(BadMachine::OutOfMemory) => Err(Stop::OutOfMemory),
            Err(bad) => {
                let reason = limit_fault(alloc, given, self, bad)?;
                Err(Stop::Fault(format!(in alloc; "{place}: {reason}")?))
            }
        }
    }
}

/// The machines of a file in order; stops at the first fault of `fields`, of `constants` and then of `models`.
pub fn machines_of<'a>(alloc: Global, file: &'a Value) -> Result<Machines<'a>, Stop> {
    let said = shared_of(alloc, file)?;
    if let Some(line) = other_type(alloc, file, "models", "a list")? {
        return Err(Stop::Fault(format!(in alloc; "the file: {line}")?));
    }
    let models = items_in(file, "models");
    let count = models.len();
    if count > MAX_MACHINES {
        let line = format!(in alloc;
            "the file: {count} machines in models, at most {MAX_MACHINES}"
        )?;
        return Err(Stop::Fault(line));
    }
    let mut read = Vec::new(alloc);
    let mut names = Vec::new(alloc);
    for (i, value) in models.iter().enumerate() {
        let said = &said;
        let model = Written { value, said };
        let machine = read_machine(alloc, names.as_slice(), models, i, model)?;
        if !is_used(file, machine.name.as_str()) {
            check_alone(alloc, i, value, &machine)?;
        }
        names.push(machine.name.clone()?)?;
        read.push(machine)?;
    }
    Ok(Machines {
        values: models,
        read,
    })
}

/// Looks at the limits of the machine at a place of `models`, which no component uses.
fn check_alone(alloc: Global, i: usize, value: &Value, read: &FileMachine) -> Result<(), Stop> {
    let nothing = Given {
        numbers: Vec::new(alloc),
        lists: Vec::new(alloc),
    };
    let place = machine_place(alloc, i, value)?;
    let machine = Machine { value, read };
    machine.check_limits(alloc, place.as_str(), &nothing)
}

/// The machine at a place of `models`.
fn read_machine(
    alloc: Global,
    before: &[String],
    models: &[Value],
    i: usize,
    model: Written<'_>,
) -> Result<FileMachine, Stop> {
    let place = machine_place(alloc, i, model.value)?;
    match machine_of(alloc, model.said, before, model.value) {
        Ok(read) => Ok(read),
        Err(MachineFault::OutOfMemory) => Err(Stop::OutOfMemory),
        Err(MachineFault::Wrong(part, why)) => {
            let reason = wrong(alloc, models, model, part, why)?;
            Err(Stop::Fault(format!(in alloc; "{place}: {reason}")?))
        }
        Err(MachineFault::Text(part, at)) => {
            let reason = wrong_text(alloc, model, part, at)?;
            Err(Stop::Fault(format!(in alloc; "{place}: {reason}")?))
        }
        Err(MachineFault::Limit(bad)) => { Err(Stop::Fault(format!(in alloc; "{place}: {bad}")?)) }
    }
}

/// The place of a machine, with its name where it has one.
fn machine_place(alloc: Global, i: usize, model: &Value) -> Result<String, AllocError> {
    match name_of(model) {
        Some(name) => {
            let name = quoted(alloc, name)?;
            format!(in alloc; "models[{i}] {name}")
        }
        None => format!(in alloc; "models[{i}]"),
    }
}

/// Why the text of a part goes wrong at a place.
fn wrong_text(
    alloc: Global,
    model: Written<'_>,
    part: Part,
    at: Place,
) -> Result<String, AllocError> {
    let said = member_text(alloc, model.value, part)?;
    let names = declared_in(alloc, model)?;
    let timed = is_timed(model.value);
    let text = said.text.as_str();
    let reason = reason(alloc, names.as_slice(), timed, said.member, text, at)?;
    let (line, column) = (at.line, at.column);
    let place = said.place.as_str();
    format!(in alloc; "{place}, line {line}, column {column}: {reason}")
}

/// Why a part of a machine has not its form.
fn wrong(
    alloc: Global,
    models: &[Value],
    model: Written<'_>,
    part: Part,
    why: Why,
) -> Result<String, AllocError> {
    let value = model.value;
    let found = match part {
        Part::Whole => whole_fault(alloc, value)?,
        Part::Name => name_fault(alloc, models, value, why)?,
        Part::Parameters => match other_type(alloc, value, "parameters", "a list")? {
            Some(line) => Some(line),
            None => parameters_fault(alloc, value)?,
        },
        Part::Registers => section_fault(alloc, model, "registers")?,
        Part::Queues => section_fault(alloc, model, "queues")?,
        Part::Tables => section_fault(alloc, model, "tables")?,
        Part::Observations => match other_type(alloc, value, "observations", "a list")? {
            Some(line) => Some(line),
            None => observations_fault(alloc, value)?,
        },
        Part::Random => constant_fault(alloc, model, "random", None)?,
        Part::Procedures => procedures_fault(alloc, value)?,
        Part::Procedure(i) => {
            let line = format!(in alloc;
                "procedures[{i}][1] is neither a text nor a list of texts"
            )?;
            Some(line)
        }
        _ => behind_names(alloc, model, part, why)?,
    };
    match found {
        Some(line) => Ok(line),
        None => String::from_str(alloc, "a part of the machine has not its form"),
    }
}

/// Why a part behind the names of procedures has not its form.
fn behind_names(
    alloc: Global,
    model: Written<'_>,
    part: Part,
    why: Why,
) -> Result<Option<String>, AllocError> {
    if why == Why::Unknown {
        if let Some(line) = stray_fault(alloc, part)? {
            return Ok(Some(line));
        }
    }
    match part {
        Part::First => constant_fault(alloc, model, "first", None),
        Part::Longest => constant_fault(alloc, model, "longest", Some(MAX_TICK as i64)),
        Part::Timers
        | Part::Timer(_)
        | Part::TimerName(_)
        | Part::TimerCount(_)
        | Part::TimerFirst(_) => timers_fault(alloc, model),
        Part::Least => constant_fault(alloc, model, "least", Some(MAX_TICK as i64)),
        _ => said_fault(alloc, model.value, part, why),
    }
}

/// Why a program, the outputs or the words have not their form.
fn said_fault(
    alloc: Global,
    model: &Value,
    part: Part,
    why: Why,
) -> Result<Option<String>, AllocError> {
    match part {
        Part::TimerProgram(i) => timer_lines_fault(alloc, model, i),
        Part::Internal => lines_fault(alloc, model, "internal"),
        Part::External => lines_fault(alloc, model, "external"),
        Part::Output(sender) => outputs_fault(alloc, model, sender),
        Part::Words => count_fault(alloc, model, "words", 1),
        Part::Word(i) if why == Why::Twice => Ok(Some(word_again(alloc, model, i)?)),
        _ => entry_fault(alloc, model, part),
    }
}

/// What is said of a member that stands beside timers, where none may, or without them.
fn stray_fault(alloc: Global, part: Part) -> Result<Option<String>, AllocError> {
    let member = match part {
        Part::First => "first",
        Part::Longest => "longest",
        Part::Internal => "internal",
        Part::Output(_) => "output",
        Part::Least => {
            return Ok(Some(String::from_str(alloc, "least stands beside timers alone")?));
        }
        _ => return Ok(None),
    };
    Ok(Some(format!(in alloc; "a machine with timers has no {member}")?))
}

/// What is wrong with the machine itself: it is no object, or has a member that none has.
fn whole_fault(alloc: Global, model: &Value) -> Result<Option<String>, AllocError> {
    let Some(members) = model.as_object() else {
        let found = described(alloc, model)?;
        return Ok(Some(format!(in alloc; "{found}, not an object")?));
    };
    for name in members.keys() {
        if !MEMBERS.contains(&name.as_str()) {
            let takes = listed(alloc, &MEMBERS)?;
            let mut nearest = Nearest::new(name.as_str());
            nearest.look_all(alloc, &MEMBERS)?;
            let question = nearest.question(alloc)?;
            let name = quoted(alloc, name.as_str())?;
            let line = format!(in alloc;
                "no member {name} in a machine, which takes {takes}{question}"
            )?;
            return Ok(Some(line));
        }
    }
    Ok(None)
}

/// What is wrong with the name of a machine.
fn name_fault(
    alloc: Global,
    models: &[Value],
    model: &Value,
    why: Why,
) -> Result<Option<String>, AllocError> {
    let Some(value) = model.get("name") else {
        return Ok(Some(String::from_str(alloc, "\"name\" is missing in a machine")?));
    };
    let found = described(alloc, value)?;
    let Some(name) = value.as_str() else {
        return Ok(Some(format!(in alloc; "name is {found}, not a text")?));
    };
    if why == Why::Twice {
        let first = first_named(models, name);
        return Ok(Some(format!(in alloc; "models[{first}] has this name")?));
    }
    if is_kind_name(name.as_bytes()) {
        return Ok(Some(format!(in alloc; "the name {found} is that of a built-in model")?));
    }
    let line = format!(in alloc;
        "the name {found} is not 1 to 32 of ASCII letters, digits, _ and -"
    )?;
    Ok(Some(line))
}

/// The place of the first machine of this name.
fn first_named(models: &[Value], name: &str) -> usize {
    for (i, model) in models.iter().enumerate() {
        if name_of(model) == Some(name) {
            return i;
        }
    }
    models.len()
}

/// What is said of a member that is there and no list.
pub(crate) fn other_type(
    alloc: Global,
    model: &Value,
    member: &str,
    wanted: &str,
) -> Result<Option<String>, AllocError> {
    match model.get(member) {
        Some(value) if !value.is_array() => {
            let found = described(alloc, value)?;
            Ok(Some(format!(in alloc; "{member} is {found}, not {wanted}")?))
        }
        _ => Ok(None),
    }
}

/// What is wrong with a member that is a constant, from 1 to what is said.
fn constant_fault(
    alloc: Global,
    model: Written<'_>,
    member: &str,
    most: Option<i64>,
) -> Result<Option<String>, AllocError> {
    let Some(value) = model.value.get(member) else {
        return Ok(None);
    };
    let is = format!(in alloc; "{member} is")?;
    match most {
        Some(most) => out_of_range(alloc, model, value, is.as_str(), most),
        None => not_constant(alloc, model, value, is.as_str()),
    }
}

/// What is wrong with a member that is a program.
fn lines_fault(alloc: Global, model: &Value, member: &str) -> Result<Option<String>, AllocError> {
    match model.get(member) {
        Some(value) => program_fault(alloc, member, value),
        None => Ok(None),
    }
}

/// What is wrong with a program at a place that is no text and no list of texts.
pub(crate) fn program_fault(
    alloc: Global,
    member: &str,
    value: &Value,
) -> Result<Option<String>, AllocError> {
    let Some(lines) = value.as_array() else {
        let found = described(alloc, value)?;
        let line = format!(in alloc; "{member} is {found}, neither a text nor a list of texts")?;
        return Ok(Some(line));
    };
    for (i, line) in lines.iter().enumerate() {
        if !line.is_string() {
            let found = described(alloc, line)?;
            return Ok(Some(format!(in alloc; "{member}[{i}] is {found}, not a text")?));
        }
    }
    Ok(None)
}

/// What is wrong with the list of outputs or words.
fn count_fault(
    alloc: Global,
    model: &Value,
    member: &str,
    least: usize,
) -> Result<Option<String>, AllocError> {
    if model.get(member).is_none() {
        return Ok(Some(format!(in alloc; "\"{member}\" is missing in a machine")?));
    }
    if let Some(line) = other_type(alloc, model, member, "a list")? {
        return Ok(Some(line));
    }
    let count = items_in(model, member).len();
    let line = format!(in alloc; "{member} has {count} entries, {least} to {MAX_WORDS}")?;
    Ok(Some(line))
}
