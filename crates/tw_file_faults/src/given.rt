//! Components of machines: their members, and the limits with their numbers.

use crate::outline::Outline;
use crate::shape::{check_members, check_value};
use serde_json::Value;
use std::alloc::Global;
use tw_machine::limits::{MAX_FILE_NUMBERS, MAX_NUMBERS};
use tw_machine_declaration::{constant, due_ticks, earliest};
use tw_machine_faults::{Machine, Machines, Stop, WHOLE};
use tw_machine_file::{MachineFault, given_of};
use tw_machine_text_faults::{described, quoted};
use tw_vtime::MAX_TICK;

/// Looks at a component of a machine.
pub(crate) fn check_given(
    alloc: Global,
    place: &str,
    component: &Value,
    machine: &Machine<'_>,
) -> Result<(), Stop> {
    let names = machine.parameters(alloc)?;
    let what = quoted(alloc, machine.read.name.as_str())?;
    let common = &["name", "model"];
    check_members(
        alloc,
        place,
        component,
        what.as_str(),
        common,
        names.as_slice(),
    )?;
    for name in &names {
        if machine.takes_list(name) {
            check_numbers(alloc, place, component, name)?;
        } else {
            check_value(alloc, place, component, name)?;
        }
    }
    match given_of(alloc, machine.read, component) {
        Ok(given) => machine.check_limits(alloc, place, &given),
        Err(MachineFault::OutOfMemory) => Err(Stop::OutOfMemory),
        Err(fault) => Err(Stop::Fault(format!(in alloc; "{place}: {fault}")?)),
    }
}

/// Stops at a member that is no list of 1 to 65,536 whole numbers.
fn check_numbers(alloc: Global, place: &str, component: &Value, name: &str) -> Result<(), Stop> {
    let Some(value) = component.get(name) else {
        return Ok(());
    };
    let Some(numbers) = value.as_array() else {
        let found = described(alloc, value)?;
        let line = format!(in alloc; "{place}: {name} is {found}, not a list of whole numbers")?;
        return Err(Stop::Fault(line));
    };
    let count = numbers.len();
    if count < 1 || count > MAX_NUMBERS {
        let line = format!(in alloc; "{place}: {name} has {count} numbers, 1 to {MAX_NUMBERS}")?;
        return Err(Stop::Fault(line));
    }
    for (i, number) in numbers.iter().enumerate() {
        if !number.is_i64() {
            let found = described(alloc, number)?;
            let line = format!(in alloc; "{place}: {name} has {found} at [{i}], not {WHOLE}")?;
            return Err(Stop::Fault(line));
        }
    }
    Ok(())
}

/// Stops where the tables of all machines and components have too many numbers together.
pub(crate) fn check_tables(
    alloc: Global,
    outline: &Outline<'_>,
    machines: &Machines<'_>,
) -> Result<(), Stop> {
    let mut total = machines.own_numbers(alloc);
    for atom in &outline.atoms {
        let model = atom
            .value
            .get("model")
            .and_then(Value::as_str)
            .unwrap_or("");
        if let Some(machine) = machines.named(model) {
            for list in &machine.read.lists {
                let numbers = atom.value.get(list.as_str()).and_then(Value::as_array);
                total = total.saturating_add(match numbers {
                    Some(numbers) => numbers.len(),
                    None => 0,
                });
            }
        }
    }
    if total > MAX_FILE_NUMBERS {
        let line = format!(in alloc;
            "the file: {total} numbers in tables and lists, at most {MAX_FILE_NUMBERS}"
        )?;
        return Err(Stop::Fault(line));
    }
    Ok(())
}

/// Looks for a component of a machine whose first wait is too long.
pub(crate) fn late_starts(
    alloc: Global,
    outline: &Outline<'_>,
    machines: &Machines<'_>,
) -> Result<(), Stop> {
    for atom in &outline.atoms {
        let model = atom
            .value
            .get("model")
            .and_then(Value::as_str)
            .unwrap_or("");
        if let Some(machine) = machines.named(model) {
            let wait = first_wait(alloc, &machine, atom.value)?;
            if wait > MAX_TICK {
                let place = atom.place.as_str();
                let line = format!(in alloc; "{place}: first is {wait}, at most {MAX_TICK}")?;
                return Err(Stop::Fault(line));
            }
        }
    }
    Ok(())
}

/// The first wait of a component; 0 where it has none.
fn first_wait(alloc: Global, machine: &Machine<'_>, component: &Value) -> Result<u64, Stop> {
    let given = match given_of(alloc, machine.read, component) {
        Ok(given) => given,
        Err(MachineFault::OutOfMemory) => return Err(Stop::OutOfMemory),
        Err(_) => return Ok(0),
    };
    let declaration = &machine.read.declaration;
    if let Some(timers) = &declaration.timers {
        let due = due_ticks(alloc, &given, timers)?;
        return Ok(earliest(&due).unwrap_or(0));
    }
    let first = match declaration.first {
        Some(first) => constant(&given, first).unwrap_or(0).max(0),
        None => 0,
    };
    let longest = match declaration.longest {
        Some(longest) => constant(&given, longest).unwrap_or(first).max(1),
        None => first,
    };
    Ok(first.min(longest) as u64)
}
