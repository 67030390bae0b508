//! What a machine has of what its file says once: the constants that it does not hide by names of its own, and the names of
//! fields.
ghost use Rattle.std.specs.Prelude.{◌≡◌, ◌++◌, IfOk, OnOk, false, map, option_and_then, option_map, string_bytes};
ghost use Rattle.std.specs.Option.{option_map_or};
ghost use Rattle.serde_json.specs.Find.{as_array};
ghost use Rattle.serde_json.specs.View.{view, items_view};
ghost use Rattle.tw_machine_declaration.specs.Seen.{field, name};
ghost use Rattle.tw_machine_file.specs.Answers.{data_of};
ghost use Rattle.tw_machine_file.specs.Constants.{file_constant, number_named};
ghost use Rattle.tw_machine_file.specs.Shared.{
  constant_name,
  constants_left,
  field_left,
  field_named,
  field_part,
  fields_left,
  file_field,
  has_item,
  has_key,
  has_some_item,
  has_some_key,
  is_alone,
  is_procedure,
  is_text,
  is_timer,
  names_deed,
  names_held,
  says_name,
  unhidden,
};

use crate::constants::number_named;
use crate::shared::{FileConstant, FileField};
use crate::values::items_of;
use serde_json::Value;
use std::alloc::{AllocError, Global};
use tw_machine_compiler::{Named, Thing};
use tw_machine_text::{Field, same_text};

impl FileField {
    /// The part of a value that it is.
    pub(crate) fn part(&self) -> Field
        ensures { result ≡ field_part (file_field self.now) }
    {
        Field {
            unit: 1 << self.low,
            size: 1 << self.bits,
        }
    }
}

fn is_text(text: &str, value: &Value) -> bool
    ensures { result ≡ is_text text.now (view value.now) }
{
    match value.as_str() {
        Some(other) => same_text(other.as_bytes(), text.as_bytes()),
        None => false,
    }
}

/// Whether it is so of a value that is there.
fn is_text_in(text: &str, value: Option<&Value>) -> bool
    ensures { result ≡ option_map_or (is_text text.now) (data_of value.entry) false }
{
    match value {
        Some(value) => is_text(text, value),
        None => false,
    }
}

/// Whether a procedure has this name.
fn is_procedure(text: &str, pair: &Value) -> bool
    ensures { result ≡ is_procedure text.now (view pair.now) }
{
    is_text_in(text, pair.get(0))
}

/// Whether a timer has this name.
fn is_timer(text: &str, timer: &Value) -> bool
    ensures { result ≡ is_timer text.now (view timer.now) }
{
    is_text_in(text, timer.get("name"))
}

/// The items of an array that is there.
fn items_in<'a>(member: Option<&'a Value>) -> Option<&'a [Value]>
    ensures { option_map (λ vs. items_view vs.now) result
        ≡ option_and_then as_array (data_of member.entry) }
{
    items_of(member?)
}

/// Whether an array has this text.
fn has_text(text: &str, member: Option<&Value>) -> bool
    ensures { result ≡ has_item (is_text text.now) (data_of member.entry) }
{
    let Some(values) = items_in(member) else {
        return false;
    };
    for value in values {
        if is_text(text, value) {
            return true;
        }
    }
    false
}

/// Whether an array has a procedure of this name.
fn has_procedure(text: &str, member: Option<&Value>) -> bool
    ensures { result ≡ has_item (is_procedure text.now) (data_of member.entry) }
{
    let Some(values) = items_in(member) else {
        return false;
    };
    for value in values {
        if is_procedure(text, value) {
            return true;
        }
    }
    false
}

/// Whether an array has a timer of this name.
fn has_timer(text: &str, member: Option<&Value>) -> bool
    ensures { result ≡ has_item (is_timer text.now) (data_of member.entry) }
{
    let Some(values) = items_in(member) else {
        return false;
    };
    for value in values {
        if is_timer(text, value) {
            return true;
        }
    }
    false
}

/// Whether an object has a member of this name.
fn has_key(text: &str, member: Option<&Value>) -> bool
    ensures { result ≡ has_key text.now (data_of member.entry) }
{
    match member {
        Some(value) => value.get(text).is_some(),
        None => false,
    }
}

/// Whether one of these objects has.
fn has_some_key(
    text: &str,
    registers: Option<&Value>,
    queues: Option<&Value>,
    tables: Option<&Value>,
) -> bool
    ensures { result ≡ has_some_key text.now (data_of registers.entry) (data_of queues.entry)
        (data_of tables.entry) }
{
    has_key(text, registers) || has_key(text, queues) || has_key(text, tables)
}

/// Whether one of these arrays has an entry of this name.
fn has_some_item(
    text: &str,
    observations: Option<&Value>,
    procedures: Option<&Value>,
    timers: Option<&Value>,
) -> bool
    ensures { result ≡ has_some_item text.now (data_of observations.entry)
        (data_of procedures.entry) (data_of timers.entry) }
{
    has_text(text, observations) || has_procedure(text, procedures) || has_timer(text, timers)
}

/// Whether this is the name of a parameter, a register, a queue or a table of a machine.
fn names_held(machine: &Value, text: &str) -> bool
    ensures { result ≡ names_held (view machine.now) text.now }
{
    has_text(text, machine.get("parameters"))
        || has_some_key(
            text,
            machine.get("registers"),
            machine.get("queues"),
            machine.get("tables"),
        )
}

/// Whether it is that of an observation, a procedure or a timer.
fn names_deed(machine: &Value, text: &str) -> bool
    ensures { result ≡ names_deed (view machine.now) text.now }
{
    has_some_item(
        text,
        machine.get("observations"),
        machine.get("procedures"),
        machine.get("timers"),
    )
}

/// Whether a machine says this name.
#[tactic(auto, unfolding(crate::specs::Shared::says_name))]
fn says_name(machine: &Value, text: &str) -> bool
    ensures { result ≡ says_name (view machine.now) text.now }
{
    names_held(machine, text) || names_deed(machine, text)
}

/// A constant once more.
fn again(alloc: Global, one: &FileConstant) -> Result<FileConstant, AllocError>
    ensures { IfOk result (λ c. file_constant c ≡ file_constant one.now) }
{
    Ok(FileConstant {
        name: String::from_str(alloc, one.name.as_str())?,
        number: one.number,
    })
}

/// Keeps a constant behind others, if a machine does not hide it.
fn keep(
    alloc: Global,
    machine: &Value,
    one: &FileConstant,
    left: &mut Vec<FileConstant>,
) -> Result<(), AllocError>
    ensures { OnOk result (map file_constant left.new.items
        ≡ map file_constant left.old.items ++ unhidden (view machine.now) (file_constant one.now)) }
{
    if !says_name(machine, one.name.as_str()) {
        left.push(again(alloc, one)?)?;
    }
    Ok(())
}

/// The constants that a machine does not hide.
pub(crate) fn constants_left(
    alloc: Global,
    machine: &Value,
    constants: &[FileConstant],
) -> Result<Vec<FileConstant>, AllocError>
    ensures { IfOk result (λ left. map file_constant left.items
        ≡ constants_left (view machine.now) (map file_constant constants.now)) }
{
    let mut left = Vec::new(alloc);
    for one in constants {
        keep(alloc, machine, one, &mut left)?;
    }
    Ok(left)
}

/// The names of constants, behind others.
fn name_constants(
    alloc: Global,
    names: &mut Vec<Named>,
    constants: &[FileConstant],
) -> Result<(), AllocError>
    ensures { OnOk result (map name names.new.items
        ≡ map name names.old.items ++ map constant_name (map file_constant constants.now)) }
{
    for one in constants {
        names.push(Named {
            name: String::from_str(alloc, one.name.as_str())?,
            thing: Thing::Constant(one.number),
        })?;
    }
    Ok(())
}

/// Whether neither a machine nor a constant has the name of a field.
fn is_alone(machine: &Value, constants: &[FileConstant], text: &str) -> bool
    ensures { result ≡ is_alone (view machine.now) (map file_constant constants.now) text.now }
{
    !says_name(machine, text) && number_named(constants, text.as_bytes()).is_none()
}

/// The name of a field that neither a machine nor a constant has.
fn field_name(alloc: Global, said: &FileField) -> Result<Named, AllocError>
    ensures { IfOk result (λ n. name n ≡ (string_bytes said.now.name, field)) }
{
    Ok(Named {
        name: String::from_str(alloc, said.name.as_str())?,
        thing: Thing::Field,
    })
}

/// The same behind others, if it is so.
fn name_field(
    alloc: Global,
    names: &mut Vec<Named>,
    machine: &Value,
    constants: &[FileConstant],
    said: &FileField,
) -> Result<(), AllocError>
    ensures { OnOk result (map name names.new.items ≡ map name names.old.items
        ++ field_left (view machine.now) (map file_constant constants.now) (file_field said.now)) }
{
    if is_alone(machine, constants, said.name.as_str()) {
        names.push(field_name(alloc, said)?)?;
    }
    Ok(())
}

/// The names of fields that neither a machine nor a constant has, behind others.
fn name_fields(
    alloc: Global,
    names: &mut Vec<Named>,
    machine: &Value,
    constants: &[FileConstant],
    fields: &[FileField],
) -> Result<(), AllocError>
    ensures { OnOk result (map name names.new.items ≡ map name names.old.items
        ++ fields_left (view machine.now) (map file_constant constants.now) (map file_field fields.now)) }
{
    for field in fields {
        name_field(alloc, names, machine, constants, field)?;
    }
    Ok(())
}

/// The names that a machine has of what its file says, of which these constants are left to it.
pub(crate) fn shared_names(
    alloc: Global,
    machine: &Value,
    constants: &[FileConstant],
    fields: &[FileField],
) -> Result<Vec<Named>, AllocError>
    ensures { IfOk result (λ names. map name names.items
        ≡ map constant_name (map file_constant constants.now)
        ++ fields_left (view machine.now) (map file_constant constants.now) (map file_field fields.now)) }
{
    let mut names = Vec::new(alloc);
    name_constants(alloc, &mut names, constants)?;
    name_fields(alloc, &mut names, machine, constants, fields)?;
    Ok(names)
}

/// The field of this name.
pub(crate) fn field_named(fields: &[FileField], text: &[u8]) -> Option<Field>
    ensures { result ≡ field_named (map file_field fields.now) text.now }
{
    for field in fields {
        if same_text(field.name.as_bytes(), text) {
            return Some(field.part());
        }
    }
    None
}
