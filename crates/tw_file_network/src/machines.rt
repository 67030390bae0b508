//! Components of a file that are one of the five models, or a machine that the file declares.

ghost use Rattle.std.specs.Prelude.{◌≡◌, Some, IfOk, map};
ghost use Rattle.serde_json.specs.View.{view};
ghost use Rattle.tw_file_network.specs.Answers.{HasNoShape};
ghost use Rattle.tw_machine_file.specs.Seen as file;
ghost use Rattle.tw_machine_file.specs.Seen.{machine};
ghost use Rattle.tw_file_network.specs.Shape.{machine_of, model_in};
ghost use Rattle.tw_file_network.specs.TreeShape.{machines_at};

use crate::draft::AnyDraft;
use crate::programs::ProgramDraft;
use crate::refused::FileRefused;
use crate::shape::model_named;
use serde_json::Value;
use std::alloc::Global;
use tw_file_members::machine_named;
use tw_machine_file::{FileMachine, MachineFault, machines_in};

/// The model that a component names, where these machines may be named.
pub(crate) fn model_in<'m>(
    alloc: Global,
    machines: &'m [FileMachine],
    value: &Value,
    name: &str,
) -> Result<AnyDraft<'m>, FileRefused>
    ensures ok { IfOk result
        (λ d. model_in (map machine machines.now) (view value.now) name.now ≡ Some d) }
    ensures err { HasNoShape result (model_in (map machine machines.now)
        (view value.now) name.now) }
{
    if let Some(draft) = model_named(name, value) {
        return Ok(AnyDraft::BuiltIn(draft));
    }
    match machine_named(machines, name) {
        Some(machine) => machine_of(alloc, machine, value),
        None => Err(FileRefused::BadShape),
    }
}

/// The program of a component's machine.
fn machine_of<'m>(
    alloc: Global,
    machine: &'m FileMachine,
    value: &Value,
) -> Result<AnyDraft<'m>, FileRefused>
    ensures ok { IfOk result
        (λ d. machine_of (file.machine machine.now) (view value.now) ≡ Some d) }
    ensures err { HasNoShape result (machine_of (file.machine machine.now) (view value.now)) }
{
    match ProgramDraft::new(alloc, machine, value) {
        Ok(program) => Ok(AnyDraft::Machine(program)),
        Err(MachineFault::OutOfMemory) => Err(FileRefused::OutOfMemory),
        Err(_) => Err(FileRefused::BadShape),
    }
}

/// The machines that a file declares.
pub(crate) fn machines_at(alloc: Global, value: &Value) -> Result<Vec<FileMachine>, FileRefused>
    ensures ok { IfOk result (λ ms. machines_at (view value.now) ≡ Some (map machine ms.items)) }
    ensures err { HasNoShape result (machines_at (view value.now)) }
{
    let Some(models) = value.get("models") else {
        return Err(FileRefused::BadShape);
    };
    match machines_in(alloc, value, models) {
        Ok(machines) => Ok(machines),
        Err(MachineFault::OutOfMemory) => Err(FileRefused::OutOfMemory),
        Err(_) => Err(FileRefused::BadShape),
    }
}
