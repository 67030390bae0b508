//! The warnings of the machines of a file.
ghost use Rattle.std.specs.Prelude.{◌≡◌, ◌++◌, IfOk, OnOk, map, string_bytes};
ghost use Rattle.serde_json.specs.View.{view};
ghost use Rattle.tw_machine_declaration.specs.Seen as plain;
ghost use Rattle.tw_machine_file.specs.Seen.{machine};
ghost use Rattle.tw_machine_warnings.specs.Machines.{
  acting_member,
  acts,
  all_where,
  external_warnings,
  internal_warnings,
  machine_place,
  machine_warnings,
  machines_warnings,
  member_place,
  named_warnings,
  sending_member,
  sent_warnings,
  shown_warnings,
  texts_warnings,
  step_warnings,
  used_warnings,
};
ghost use Rattle.tw_machine_warnings.specs.Warning.{warning};

use crate::deeds::{Doing, does};
use crate::names::add_names;
use crate::programs::{add_outputs, add_program, add_words};
use crate::starts::has_first;
use crate::texts::{does_machine, has_timers, has_zero};
use crate::warning::{Kind, Warning, add_where};
use serde_json::Value;
use std::alloc::{AllocError, Global};
use tw_machine_declaration::Declaration;
use tw_machine_file::{FileMachine, is_used};
use tw_machine_text::Block;

/// Whether a machine has something to do when it steps.
fn acts(declaration: &Declaration) -> bool
    ensures { result ≡ acts (plain.declaration declaration.now) }
{
    !(matches!(declaration.internal, Block::Empty) && declaration.outputs.is_empty())
}

/// The member that has what a machine does by itself.
fn acting_member(timed: bool) -> &'static str
    ensures { result.now ≡ acting_member timed }
{
    if timed { "timers" } else { "internal" }
}

/// The member that has what it sends.
fn sending_member(timed: bool) -> &'static str
    ensures { result.now ≡ sending_member timed }
{
    if timed { "timers" } else { "output" }
}

/// Adds that a machine never steps by itself, or only once; one with timers steps by these.
fn add_step(
    alloc: Global,
    warnings: &mut Vec<Warning>,
    place: &str,
    declaration: &Declaration,
) -> Result<(), AllocError>
    ensures { OnOk result (map warning warnings.new.items
        ≡ map warning warnings.old.items
        ++ step_warnings place.now (plain.declaration declaration.now)) }
{
    if has_timers(declaration) {
        return Ok(());
    }
    if has_first(declaration.first) {
        let is_so = acts(declaration) && !does_machine(Doing::Waits, declaration);
        add_where(alloc, warnings, is_so, place, Kind::StepsOnce)
    } else {
        let is_so = acts(declaration) && !does(Doing::Waits, &declaration.external);
        add_where(alloc, warnings, is_so, place, Kind::NeverSteps)
    }
}

/// The place of a member of a machine.
fn member_place(alloc: Global, place: &str, member: &str) -> Result<String, AllocError>
    ensures { IfOk result (λ t. string_bytes t ≡ member_place place.now member.now) }
{
    format!(in alloc; "{place}: {member}")
}

/// Adds what is odd about what a machine does by itself.
fn add_internal(
    alloc: Global,
    warnings: &mut Vec<Warning>,
    place: &str,
    declaration: &Declaration,
) -> Result<(), AllocError>
    ensures { OnOk result (map warning warnings.new.items ≡ map warning warnings.old.items
        ++ internal_warnings place.now (plain.declaration declaration.now)) }
{
    let place = member_place(alloc, place, acting_member(has_timers(declaration)))?;
    let names = declaration.names.as_slice();
    let program = &declaration.internal;
    let zero = has_zero(program);
    add_program(alloc, warnings, place.as_str(), zero, program, names)
}

/// Adds what is odd about what a machine does when items come.
fn add_external(
    alloc: Global,
    warnings: &mut Vec<Warning>,
    place: &str,
    declaration: &Declaration,
) -> Result<(), AllocError>
    ensures { OnOk result (map warning warnings.new.items ≡ map warning warnings.old.items
        ++ external_warnings place.now (plain.declaration declaration.now)) }
{
    let place = member_place(alloc, place, "external")?;
    let names = declaration.names.as_slice();
    let program = &declaration.external;
    add_program(alloc, warnings, place.as_str(), false, program, names)
}

/// Adds what is odd about what a machine sends.
fn add_sent(
    alloc: Global,
    warnings: &mut Vec<Warning>,
    place: &str,
    declaration: &Declaration,
) -> Result<(), AllocError>
    ensures { OnOk result (map warning warnings.new.items ≡ map warning warnings.old.items
        ++ sent_warnings place.now (plain.declaration declaration.now)) }
{
    let place = member_place(alloc, place, sending_member(has_timers(declaration)))?;
    add_outputs(alloc, warnings, place.as_str(), declaration)
}

/// Adds what is odd about what a machine shows.
fn add_shown(
    alloc: Global,
    warnings: &mut Vec<Warning>,
    place: &str,
    declaration: &Declaration,
) -> Result<(), AllocError>
    ensures { OnOk result (map warning warnings.new.items ≡ map warning warnings.old.items
        ++ shown_warnings place.now (plain.declaration declaration.now)) }
{
    let place = member_place(alloc, place, "words")?;
    let draws = does_machine(Doing::Draws, declaration);
    let names = declaration.names.as_slice();
    let words = declaration.words.as_slice();
    add_words(alloc, warnings, place.as_str(), draws, words, names)
}

/// Adds what is odd about the texts of a machine.
fn add_texts(
    alloc: Global,
    warnings: &mut Vec<Warning>,
    place: &str,
    declaration: &Declaration,
) -> Result<(), AllocError>
    ensures { OnOk result (map warning warnings.new.items ≡ map warning warnings.old.items
        ++ texts_warnings place.now (plain.declaration declaration.now)) }
{
    add_internal(alloc, warnings, place, declaration)?;
    add_external(alloc, warnings, place, declaration)?;
    add_sent(alloc, warnings, place, declaration)?;
    add_shown(alloc, warnings, place, declaration)
}

/// Adds what is odd about a machine at a place of a file.
fn add_machine(
    alloc: Global,
    warnings: &mut Vec<Warning>,
    place: &str,
    declaration: &Declaration,
) -> Result<(), AllocError>
    ensures { OnOk result (map warning warnings.new.items ≡ map warning warnings.old.items
        ++ machine_warnings place.now (plain.declaration declaration.now)) }
{
    add_names(alloc, warnings, declaration, place)?;
    add_texts(alloc, warnings, place, declaration)?;
    add_step(alloc, warnings, place, declaration)
}

/// The place of a machine in its file, as faults name it.
fn machine_place(alloc: Global, index: usize, name: &str) -> Result<String, AllocError>
    ensures { IfOk result (λ t. string_bytes t ≡ machine_place index name.now) }
{
    format!(in alloc; "models[{index}] \"{name}\"")
}

/// Adds what is odd about a machine where it is so.
fn add_machine_where(
    alloc: Global,
    warnings: &mut Vec<Warning>,
    is_so: bool,
    place: &str,
    declaration: &Declaration,
) -> Result<(), AllocError>
    ensures { OnOk result (map warning warnings.new.items ≡ map warning warnings.old.items
        ++ all_where is_so (machine_warnings place.now (plain.declaration declaration.now))) }
{
    if is_so {
        add_machine(alloc, warnings, place, declaration)?;
    }
    Ok(())
}

/// Adds what is odd about the machine of this name, if a component of the file uses it.
fn add_named(
    alloc: Global,
    warnings: &mut Vec<Warning>,
    file: &Value,
    index: usize,
    name: &str,
    declaration: &Declaration,
) -> Result<(), AllocError>
    ensures { OnOk result (map warning warnings.new.items ≡ map warning warnings.old.items
        ++ named_warnings (view file.now) index name.now (plain.declaration declaration.now)) }
{
    let is_so = is_used(file, name);
    let place = machine_place(alloc, index, name)?;
    add_machine_where(alloc, warnings, is_so, place.as_str(), declaration)
}

/// Adds what is odd about a machine, if a component of the file uses it.
fn add_used(
    alloc: Global,
    warnings: &mut Vec<Warning>,
    file: &Value,
    index: usize,
    one: &FileMachine,
) -> Result<(), AllocError>
    ensures { OnOk result (map warning warnings.new.items ≡ map warning warnings.old.items
        ++ used_warnings (view file.now) index (machine one.now)) }
{
    let name = one.name.as_str();
    add_named(alloc, warnings, file, index, name, &one.declaration)
}

/// Adds the warnings of the machines of a file, in order: of each that a component of the file uses, what is odd about
/// its names in order, its programs, what it sends, what it shows, and the whole.
///
/// Refused for want of memory (4); some may have been added then.
pub fn add_machines(
    alloc: Global,
    warnings: &mut Vec<Warning>,
    file: &Value,
    machines: &[FileMachine],
) -> Result<(), AllocError>
    ensures { OnOk result (map warning warnings.new.items
        ≡ map warning warnings.old.items
        ++ machines_warnings (view file.now) 0 (map machine machines.now)) }
{
    for (index, one) in machines.iter().enumerate() {
        add_used(alloc, warnings, file, index, one)?;
    }
    Ok(())
}
