//! The names that a machine of a file declares.

use serde_json::Value;
use std::alloc::{AllocError, Global};
use tw_file_members::items_in;
use tw_machine_file::{FileField, SharedNames};
use tw_machine_text::{Declared, Field, Kind, MAX_NAME, Meaning, is_reserved};
use tw_machine_text_faults::quoted;

/// The members of a component that no parameter has the name of.
const MEMBERS: [&str; 4] = ["name", "model", "components", "couplings"];

/// A machine as it is written, and what its file says once.
#[derive(Clone, Copy)]
pub(crate) struct Written<'a> {
    pub(crate) value: &'a Value,
    pub(crate) said: &'a SharedNames,
}

impl<'a> Written<'a> {
    /// The names of the constants that no name of the machine hides, each with its number.
    pub(crate) fn constants(&self, alloc: Global) -> Result<Vec<(&'a str, i64)>, AllocError> {
        let mut constants = Vec::new(alloc);
        for one in &self.said.constants {
            if !says_name(self.value, one.name.as_str()) {
                constants.push((one.name.as_str(), one.number))?;
            }
        }
        Ok(constants)
    }

    /// The number of the constant of this name that no name of the machine hides.
    pub(crate) fn constant(&self, name: &str) -> Option<i64> {
        for one in &self.said.constants {
            if one.name.as_str() == name && !says_name(self.value, name) {
                return Some(one.number);
            }
        }
        None
    }
}

/// The names that are declared so far, in a file of these fields.
#[derive(Drop)]
struct Names<'a> {
    fields: &'a [FileField],
    declared: Vec<Declared>,
}

impl<'a> Names<'a> {
    /// Adds a name, and what is declared by it.
    fn add(&mut self, alloc: Global, name: &str, kind: Kind) -> Result<(), AllocError> {
        let field = field_named(self.fields, name);
        let name = String::from_str(alloc, name)?;
        let meaning = Meaning { kind, field };
        self.declared.push(Declared { name, meaning })?;
        Ok(())
    }

    /// Adds the names of a member: those of lists are of a kind of their own.
    fn add_all(
        &mut self,
        alloc: Global,
        machine: &Value,
        member: &str,
        one: Kind,
        many: Kind,
    ) -> Result<(), AllocError> {
        if let Some(members) = machine.get(member).and_then(Value::as_object) {
            for (name, value) in members.iter() {
                let kind = if value.is_array() { many } else { one };
                self.add(alloc, name.as_str(), kind)?;
            }
        }
        Ok(())
    }

    /// Adds the names of the parameters.
    fn add_parameters(&mut self, alloc: Global, machine: &Value) -> Result<(), AllocError> {
        for name in parameters_of(machine) {
            if let Some(name) = name.as_str() {
                let kind = if is_list(machine, name) {
                    Kind::ListParameter
                } else {
                    Kind::Parameter
                };
                self.add(alloc, name, kind)?;
            }
        }
        Ok(())
    }

    /// Adds the names of the observations, the procedures and the timers.
    fn add_parts(&mut self, alloc: Global, machine: &Value) -> Result<(), AllocError> {
        for name in observations_of(machine) {
            if let Some(name) = name.as_str() {
                self.add(alloc, name, Kind::Observation)?;
            }
        }
        for (place, pair) in items_in(machine, "procedures").iter().enumerate() {
            if let Some(name) = pair.get(0).and_then(Value::as_str) {
                self.add(alloc, name, Kind::Procedure(place))?;
            }
        }
        for timer in items_in(machine, "timers") {
            if let Some(name) = timer.get("name").and_then(Value::as_str) {
                let kind = match timer.get("count") {
                    Some(_) => Kind::TimerArray(0, 0),
                    None => Kind::Timer(0),
                };
                self.add(alloc, name, kind)?;
            }
        }
        Ok(())
    }

    /// Adds the names of constants and of fields that the machine has not.
    fn add_shared(&mut self, alloc: Global, machine: Written<'_>) -> Result<(), AllocError> {
        for (name, number) in &machine.constants(alloc)? {
            self.add(alloc, name, Kind::Constant(*number))?;
        }
        for field in self.fields {
            let name = field.name.as_str();
            if !says_name(machine.value, name) && machine.constant(name).is_none() {
                self.add(alloc, name, Kind::Nothing)?;
            }
        }
        Ok(())
    }
}

/// What the names in a machine's texts stand for, as far as they are declared.
pub(crate) fn declared_in(
    alloc: Global,
    machine: Written<'_>,
) -> Result<Vec<Declared>, AllocError> {
    let value = machine.value;
    let mut names = Names {
        fields: machine.said.fields.as_slice(),
        declared: Vec::new(alloc),
    };
    names.add_parameters(alloc, value)?;
    names.add_all(
        alloc,
        value,
        "registers",
        Kind::Register,
        Kind::RegisterArray,
    )?;
    names.add_all(alloc, value, "queues", Kind::Queue, Kind::QueueArray)?;
    names.add_all(alloc, value, "tables", Kind::Table, Kind::Table)?;
    names.add_parts(alloc, value)?;
    names.add_shared(alloc, machine)?;
    Ok(names.declared)
}

/// The field of this name.
fn field_named(fields: &[FileField], name: &str) -> Option<Field> {
    for field in fields {
        if field.name.as_str() == name {
            return Some(Field {
                unit: 1 << field.low,
                size: 1 << field.bits,
            });
        }
    }
    None
}

/// Whether a machine has a name of its own like this.
fn says_name(machine: &Value, name: &str) -> bool {
    if is_parameter(machine, name) || is_text_in(observations_of(machine), name) {
        return true;
    }
    for member in &["registers", "queues", "tables"] {
        if machine
            .get(*member)
            .and_then(|members| members.get(name))
            .is_some()
        {
            return true;
        }
    }
    for pair in items_in(machine, "procedures") {
        if pair.get(0).and_then(Value::as_str) == Some(name) {
            return true;
        }
    }
    for timer in items_in(machine, "timers") {
        if timer.get("name").and_then(Value::as_str) == Some(name) {
            return true;
        }
    }
    false
}

/// Whether a text is among these values.
fn is_text_in(texts: &[Value], text: &str) -> bool {
    for one in texts {
        if one.as_str() == Some(text) {
            return true;
        }
    }
    false
}

/// The parameters of a machine, as they are written.
pub(crate) fn parameters_of<'a>(machine: &'a Value) -> &'a [Value] {
    items_in(machine, "parameters")
}

/// The observations of a machine, as they are written.
pub(crate) fn observations_of<'a>(machine: &'a Value) -> &'a [Value] {
    items_in(machine, "observations")
}

/// The names of a machine's parameters, in order.
pub(crate) fn parameter_names<'a>(
    alloc: Global,
    machine: &'a Value,
) -> Result<Vec<&'a str>, AllocError> {
    let mut names = Vec::new(alloc);
    for name in parameters_of(machine) {
        if let Some(name) = name.as_str() {
            names.push(name)?;
        }
    }
    Ok(names)
}

/// Whether a table is named after this parameter.
pub(crate) fn is_list(machine: &Value, name: &str) -> bool {
    if let Some(tables) = machine.get("tables").and_then(Value::as_object) {
        for (_, value) in tables.iter() {
            if value.as_str() == Some(name) {
                return true;
            }
        }
    }
    false
}

/// Whether this is a parameter.
pub(crate) fn is_parameter(machine: &Value, name: &str) -> bool {
    is_text_in(parameters_of(machine), name)
}

/// Whether a machine has the member `timers`.
pub(crate) fn is_timed(machine: &Value) -> bool {
    machine.get("timers").is_some()
}

/// Why a name may not be one in this machine, if it may not.
pub(crate) fn bad_name(
    alloc: Global,
    machine: &Value,
    name: &str,
) -> Result<Option<String>, AllocError> {
    no_name(alloc, is_timed(machine), name)
}

/// Why a name may not be one in a machine with timers or without, if it may not.
pub(crate) fn no_name(
    alloc: Global,
    timed: bool,
    name: &str,
) -> Result<Option<String>, AllocError> {
    let shown = quoted(alloc, name)?;
    let is_taken = timed && matches!(name, "which" | "start" | "stop" | "send");
    if is_taken || is_reserved(name.as_bytes()) {
        return Ok(Some(format!(in alloc; "{shown} is a word of the language, and no name")?));
    }
    if !is_made(name) {
        let line = format!(in alloc;
            "the name {shown} is not a letter or _, then letters, digits and _, {MAX_NAME} at most"
        )?;
        return Ok(Some(line));
    }
    Ok(None)
}

/// Why a name may be none of a parameter, if it may not.
pub(crate) fn bad_parameter(
    alloc: Global,
    machine: &Value,
    name: &str,
) -> Result<Option<String>, AllocError> {
    if MEMBERS.contains(&name) {
        let shown = quoted(alloc, name)?;
        let line = format!(in alloc; "{shown} is a member of components, and no parameter")?;
        return Ok(Some(line));
    }
    bad_name(alloc, machine, name)
}

/// Whether a name is made as those of registers are.
fn is_made(name: &str) -> bool {
    for letter in name.chars() {
        if !letter.is_ascii_alphanumeric() && letter != '_' {
            return false;
        }
    }
    let begins = match name.chars().next() {
        Some(letter) => !letter.is_ascii_digit(),
        None => false,
    };
    begins && name.len() <= MAX_NAME
}
