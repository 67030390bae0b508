//! All machines of a file, and the program that a component makes of one.
ghost use Rattle.std.specs.Prelude.{◌≡◌, [], Ok, OnOk, map, string_bytes};
ghost use Rattle.serde_json.specs.View.{view, items_view};
ghost use Rattle.tw_machine_declaration.specs.Seen as plain;
ghost use Rattle.tw_machine.specs.Seen.{seen_program};
ghost use Rattle.tw_machine_file.specs.Answers.{Gives, FailsBy};
ghost use Rattle.tw_machine_file.specs.Machines.{
  few,
  held,
  machine_behind,
  machines_behind,
  machines_in,
  program_given,
  program_in,
  within_limits,
};
ghost use Rattle.tw_machine_file.specs.Seen as seen;
ghost use Rattle.tw_machine_file.specs.Seen.{machine};
ghost use Rattle.tw_machine_file.specs.Shared.{shared};

use crate::fault::{MachineFault, Part, Why};
use crate::given::given_of;
use crate::machine::{FileMachine, machine_of};
use crate::reading::shared_in;
use crate::shared::SharedNames;
use crate::used::is_used;
use crate::values::{are_few, items_of};
use serde_json::Value;
use std::alloc::Global;
use tw_machine::limits::MAX_MACHINES;
use tw_machine::program::Program;
use tw_machine_compiler::{Declaration, Given, compile};

/// The program that a declaration means with what is given, or the first limit that it passes.
fn program_given(
    alloc: Global,
    declaration: &Declaration,
    given: &Given,
) -> Result<Program, MachineFault>
    ensures ok { Gives result seen_program
        (program_given (plain.declaration declaration.now) (plain.given given.now)) }
    ensures err { FailsBy result (program_given (plain.declaration declaration.now)
        (plain.given given.now)) }
{
    match compile(alloc, given, declaration) {
        Ok(program) => Ok(program),
        Err(bad) => Err(MachineFault::from(bad)),
    }
}

/// The program of a component: what its machine means with the numbers and lists that the component gives.
///
/// The first fault is answered ([`MachineFault`], refusal 21): of each parameter that is a number, in order, and then
/// of each that is a list, that it is missing or of another type; then a member that is none of these, the name or the
/// model; then the first limit of the machine that is passed with these numbers. Want of memory (4) may come instead.
pub fn program_in(
    alloc: Global,
    machine: &FileMachine,
    component: &Value,
) -> Result<Program, MachineFault>
    ensures ok { Gives result seen_program
        (program_in (seen.machine machine.now) (view component.now)) }
    ensures err { FailsBy result (program_in (seen.machine machine.now) (view component.now)) }
{
    let given = given_of(alloc, machine, component)?;
    program_given(alloc, &machine.declaration, &given)
}

/// Looks at the limits of a declaration with nothing given.
fn within_limits(alloc: Global, declaration: &Declaration) -> Result<(), MachineFault>
    ensures ok { OnOk result (within_limits (plain.declaration declaration.now) ≡ Ok tt) }
    ensures err { FailsBy result (within_limits (plain.declaration declaration.now)) }
{
    let nothing = Given {
        numbers: Vec::new(alloc),
        lists: Vec::new(alloc),
    };
    match program_given(alloc, declaration, &nothing) {
        Ok(program) => {
            drop(program);
            Ok(())
        }
        Err(fault) => Err(fault),
    }
}

/// Looks at the limits of a machine that no component of the file uses.
fn held(alloc: Global, file: &Value, machine: &FileMachine) -> Result<(), MachineFault>
    ensures ok { OnOk result (held (view file.now) (seen.machine machine.now) ≡ Ok tt) }
    ensures err { FailsBy result (held (view file.now) (seen.machine machine.now)) }
{
    if is_used(file, machine.name.as_str()) {
        return Ok(());
    }
    within_limits(alloc, &machine.declaration)
}

/// The machine of a file that a value declares behind machines of these names.
fn machine_behind(
    alloc: Global,
    file: &Value,
    said: &SharedNames,
    before: &[String],
    value: &Value,
) -> Result<FileMachine, MachineFault>
    ensures ok { Gives result machine (machine_behind (view file.now) (shared said.now)
        (map string_bytes before.now) (view value.now)) }
    ensures err { FailsBy result (machine_behind (view file.now) (shared said.now)
        (map string_bytes before.now) (view value.now)) }
{
    let machine = machine_of(alloc, said, before, value)?;
    held(alloc, file, &machine)?;
    Ok(machine)
}

/// The machines that these values declare, each behind those before it.
#[tactic(auto, using(crate::proofs::Loops::behind_none, crate::proofs::Loops::behind_more))]
fn machines_behind(
    alloc: Global,
    file: &Value,
    said: &SharedNames,
    values: &[Value],
) -> Result<Vec<FileMachine>, MachineFault>
    ensures ok { Gives result (λ ms. map machine ms.items)
        (machines_behind (view file.now) (shared said.now) [] (items_view values.now)) }
    ensures err { FailsBy result
        (machines_behind (view file.now) (shared said.now) [] (items_view values.now)) }
{
    let mut names = Vec::new(alloc);
    let mut machines = Vec::new(alloc);
    for value in values {
        let machine = machine_behind(alloc, file, said, names.as_slice(), value)?;
        names.push(String::from_str(alloc, machine.name.as_str())?)?;
        machines.push(machine)?;
    }
    Ok(machines)
}

/// An array of at most 256.
fn few(models: &Value) -> Result<&[Value], MachineFault>
    ensures ok { Gives result (λ vs. items_view vs.now) (few (view models.now)) }
    ensures err { FailsBy result (few (view models.now)) }
{
    let Some(values) = items_of(models) else {
        return Err(MachineFault::Wrong(Part::Whole, Why::Shape));
    };
    if !are_few(MAX_MACHINES, values) {
        return Err(MachineFault::Wrong(Part::Whole, Why::Count));
    }
    Ok(values)
}

/// The machines that the member `models` of a file declares: an array of at most 256 of them, in order.
///
/// The first fault is answered ([`MachineFault`], refusal 21): what [`shared_in`] refuses; it is no such array; then machines in order, of each
/// what [`machine_of`] refuses behind those before it, and then, where no component of the file uses it
/// ([`is_used`]), the first limit that it passes with nothing given for its parameters. A machine that a component
/// uses is held to its limits by [`program_in`] alone. Want of memory (4) may come at any point instead. After any of
/// them nothing is left.
pub fn machines_in(
    alloc: Global,
    file: &Value,
    models: &Value,
) -> Result<Vec<FileMachine>, MachineFault>
    ensures ok { Gives result (λ ms. map machine ms.items)
        (machines_in (view file.now) (view models.now)) }
    ensures err { FailsBy result (machines_in (view file.now) (view models.now)) }
{
    let said = shared_in(alloc, file)?;
    let values = few(models)?;
    machines_behind(alloc, file, &said, values)
}
