//! Parameters of models that are out of range.

use crate::outline::{Atom, Outline};
use serde_json::Value;
use std::alloc::Global;
use tw_machine_faults::Stop;
use tw_models::{KINDS, Kind, Numbers};

/// Looks for a parameter out of range, by atom in order; of an atom in the order of its kind.
pub(crate) fn bad_parameters(alloc: Global, outline: &Outline<'_>) -> Result<(), Stop> {
    for atom in &outline.atoms {
        let model = atom.value.get("model").and_then(Value::as_str);
        for kind in &KINDS {
            if model == Some(kind.name) {
                check_parameters(alloc, atom, kind)?;
            }
        }
    }
    Ok(())
}

/// Stops at the first parameter of an atom of this kind that is out of range.
fn check_parameters(alloc: Global, atom: &Atom<'_>, kind: &Kind) -> Result<(), Stop> {
    for parameter in kind.parameters {
        if let Numbers::Counts { least, most } = parameter.numbers {
            let place = atom.place.as_str();
            check_range(alloc, place, atom.value, parameter.name, least, most)?;
        }
    }
    Ok(())
}

/// Stops at a member that is a whole number out of this range.
pub(crate) fn check_range(
    alloc: Global,
    place: &str,
    value: &Value,
    name: &str,
    least: u64,
    most: u64,
) -> Result<(), Stop> {
    let Some(number) = value.get(name).and_then(Value::as_u64) else {
        return Ok(());
    };
    if number < least {
        let line = format!(in alloc; "{place}: {name} is {number}, at least {least}")?;
        return Err(Stop::Fault(line));
    }
    if number > most {
        let line = format!(in alloc; "{place}: {name} is {number}, at most {most}")?;
        return Err(Stop::Fault(line));
    }
    Ok(())
}
