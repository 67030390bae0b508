//! All warnings of a file.
ghost use Rattle.std.specs.Prelude.{◌≡◌, IfOk, map};
ghost use Rattle.serde_json.specs.View.{view};
ghost use Rattle.tw_machine_file.specs.Seen.{machine};
ghost use Rattle.tw_machine_warnings.specs.Warning.{warning};
ghost use Rattle.tw_file_warnings.specs.Warnings.{machines_said, warnings_by, warnings_of};

use crate::places::PlacedModel;
use crate::ports::add_level;
use crate::starts::{ROOM, add_same, starts_in};
use serde_json::Value;
use std::alloc::{AllocError, Global};
use tw_machine_file::{FileMachine, MachineFault, machines_in};
use tw_machine_warnings::{Warning, add_machines};

/// The machines that a file declares; none where one of them is refused.
fn machines_said(alloc: Global, file: &Value) -> Result<Vec<FileMachine>, AllocError>
    ensures { IfOk result
        (λ machines. map machine machines.items ≡ machines_said (view file.now)) }
{
    let Some(models) = file.get("models") else {
        return Ok(Vec::new(alloc));
    };
    match machines_in(alloc, file, models) {
        Ok(machines) => Ok(machines),
        Err(MachineFault::OutOfMemory) => Err(AllocError),
        Err(_) => Ok(Vec::new(alloc)),
    }
}

/// The warnings of a file that declares these machines.
fn warnings_by(
    alloc: Global,
    file: &Value,
    machines: &[FileMachine],
) -> Result<Vec<Warning>, AllocError>
    ensures { IfOk result (λ warnings. map warning warnings.items
        ≡ warnings_by (view file.now) (map machine machines.now)) }
{
    let mut warnings = Vec::new(alloc);
    let starts = starts_in(alloc, machines, file)?;
    add_machines(alloc, &mut warnings, file, machines)?;
    add_same(alloc, &mut warnings, &starts)?;
    let whole = PlacedModel {
        path: "",
        prefix: "",
        model: file,
        room: ROOM,
    };
    add_level(alloc, &mut warnings, machines, whole)?;
    Ok(warnings)
}

/// What is odd about a file, by its JSON value, in the order of the file: its machines, then the random numbers of its
/// components, then its components and couplings, depth first.
///
/// A warning is said only where it is certain. Refused for want of memory (4).
pub fn warnings_of(alloc: Global, file: &Value) -> Result<Vec<Warning>, AllocError>
    ensures { IfOk result (λ warnings. map warning warnings.items ≡ warnings_of (view file.now)) }
{
    let machines = machines_said(alloc, file)?;
    warnings_by(alloc, file, &machines)
}
