//! Names, couplings and inputs that are at fault.

use crate::given::late_starts;
use crate::outline::{Level, Outline, place_of};
use crate::parameters::check_range;
use serde_json::Value;
use std::alloc::Global;
use tw_file_members::items_in;
use tw_machine_faults::{Stop, machines_of, name_of};
use tw_machine_text_faults::quoted;
use tw_network::{MAX_NAME, MAX_PORT};
use tw_vtime::MAX_TICK;

/// A coupling as it is written.
#[derive(Clone, Copy, PartialEq)]
struct Coupling<'a> {
    source: &'a str,
    source_port: u64,
    destination: &'a str,
    destination_port: u64,
}

/// The coupling that a value says.
fn coupling_of<'a>(value: &'a Value) -> Option<Coupling<'a>> {
    let source = value.get(0)?.as_str()?;
    let source_port = value.get(1)?.as_u64()?;
    let destination = value.get(2)?.as_str()?;
    let destination_port = value.get(3)?.as_u64()?;
    Some(Coupling {
        source,
        source_port,
        destination,
        destination_port,
    })
}

/// Looks for a name that is not made as names are.
pub(crate) fn bad_names(alloc: Global, outline: &Outline<'_>) -> Result<(), Stop> {
    for level in &outline.levels {
        for (i, component) in items_in(level.value, "components").iter().enumerate() {
            let name = name_of(component).unwrap_or("");
            if !is_name(name) {
                let name = quoted(alloc, name)?;
                let line = format!(in alloc;
                    "{}components[{i}]: the name {name} is not 1 to 32 of ASCII letters, digits, _ and -",
                    level.path
                )?;
                return Err(Stop::Fault(line));
            }
        }
    }
    Ok(())
}

/// Whether a text is made as names are.
fn is_name(name: &str) -> bool {
    for letter in name.as_bytes() {
        if !letter.is_ascii_alphanumeric() && *letter != b'_' && *letter != b'-' {
            return false;
        }
    }
    !name.is_empty() && name.len() <= MAX_NAME
}

/// Looks for a name that stood before in the same model.
pub(crate) fn repeated_names(alloc: Global, outline: &Outline<'_>) -> Result<(), Stop> {
    for level in &outline.levels {
        let components = items_in(level.value, "components");
        for (i, component) in components.iter().enumerate() {
            let name = name_of(component).unwrap_or("");
            if let Some(first) = first_named(components, name) {
                if first < i {
                    let path = level.path.as_str();
                    let place = place_of(alloc, path, level.prefix.as_str(), i, component)?;
                    let line = format!(in alloc;
                        "{place}: {path}components[{first}] has this name"
                    )?;
                    return Err(Stop::Fault(line));
                }
            }
        }
    }
    Ok(())
}

/// The place of the first component of this name.
fn first_named(components: &[Value], name: &str) -> Option<usize> {
    for (i, component) in components.iter().enumerate() {
        if name_of(component) == Some(name) {
            return Some(i);
        }
    }
    None
}

/// Looks for a name of a coupling or an input that nothing has.
pub(crate) fn unknown_names(
    alloc: Global,
    value: &Value,
    outline: &Outline<'_>,
) -> Result<(), Stop> {
    for level in &outline.levels {
        for (i, item) in items_in(level.value, "couplings").iter().enumerate() {
            if let Some(coupling) = coupling_of(item) {
                check_end(alloc, level, i, coupling.source)?;
                check_end(alloc, level, i, coupling.destination)?;
            }
        }
    }
    for (i, input) in items_in(value, "inputs").iter().enumerate() {
        let name = input.get("to").and_then(Value::as_str).unwrap_or("");
        if !has_atom(outline, name) {
            let name = quoted(alloc, name)?;
            let line = format!(in alloc; "inputs[{i}]: no component is named {name}")?;
            return Err(Stop::Fault(line));
        }
    }
    Ok(())
}

/// Stops at an end of a coupling that is no component of the model. In a coupled model the empty name is itself.
fn check_end(alloc: Global, level: &Level<'_>, i: usize, name: &str) -> Result<(), Stop> {
    if name.is_empty() && level.depth > 0 {
        return Ok(());
    }
    if first_named(items_in(level.value, "components"), name).is_some() {
        return Ok(());
    }
    let name = quoted(alloc, name)?;
    let path = level.path.as_str();
    let line = if level.depth == 0 {
        format!(in alloc; "{path}couplings[{i}]: no component is named {name}")?
    } else {
        format!(in alloc;
            "{path}couplings[{i}]: no component of {} is named {name}",
            level.place
        )?
    };
    Err(Stop::Fault(line))
}

/// Whether an atom has this flat name.
fn has_atom(outline: &Outline<'_>, name: &str) -> bool {
    for atom in &outline.atoms {
        if atom.name.as_str() == name {
            return true;
        }
    }
    false
}

/// Looks for a port that is too great.
pub(crate) fn bad_ports(alloc: Global, value: &Value, outline: &Outline<'_>) -> Result<(), Stop> {
    let most = u64::from(MAX_PORT);
    for level in &outline.levels {
        for (i, item) in items_in(level.value, "couplings").iter().enumerate() {
            if let Some(coupling) = coupling_of(item) {
                let port = if coupling.source_port > most {
                    coupling.source_port
                } else {
                    coupling.destination_port
                };
                if port > most {
                    let line = format!(in alloc;
                        "{}couplings[{i}]: port is {port}, at most {most}",
                        level.path
                    )?;
                    return Err(Stop::Fault(line));
                }
            }
        }
    }
    for (i, input) in items_in(value, "inputs").iter().enumerate() {
        let place = format!(in alloc; "inputs[{i}]")?;
        check_range(alloc, place.as_str(), input, "port", 0, most)?;
    }
    Ok(())
}

/// Looks for a coupling whose ends are the same.
pub(crate) fn self_couplings(alloc: Global, outline: &Outline<'_>) -> Result<(), Stop> {
    for level in &outline.levels {
        for (i, item) in items_in(level.value, "couplings").iter().enumerate() {
            if let Some(coupling) = coupling_of(item) {
                if coupling.source == coupling.destination {
                    let path = level.path.as_str();
                    let name = if coupling.source.is_empty() {
                        String::from_str(alloc, "the model")?
                    } else {
                        quoted(alloc, coupling.source)?
                    };
                    let line = format!(in alloc;
                        "{path}couplings[{i}]: {name} is coupled to itself"
                    )?;
                    return Err(Stop::Fault(line));
                }
            }
        }
    }
    Ok(())
}

/// Looks for a coupling that stood before in the same model.
pub(crate) fn repeated_routes(alloc: Global, outline: &Outline<'_>) -> Result<(), Stop> {
    for level in &outline.levels {
        let couplings = items_in(level.value, "couplings");
        for (i, item) in couplings.iter().enumerate() {
            if let Some(first) = first_like(couplings, item) {
                if first < i {
                    let path = level.path.as_str();
                    let line = format!(in alloc;
                        "{path}couplings[{i}]: {path}couplings[{first}] is the same"
                    )?;
                    return Err(Stop::Fault(line));
                }
            }
        }
    }
    Ok(())
}

/// The place of the first coupling like this one.
fn first_like(couplings: &[Value], item: &Value) -> Option<usize> {
    let wanted = coupling_of(item)?;
    for (i, other) in couplings.iter().enumerate() {
        if coupling_of(other) == Some(wanted) {
            return Some(i);
        }
    }
    None
}

/// Looks for a first wait of a machine that is too long, and then for an input whose tick is too late.
pub(crate) fn bad_ticks(alloc: Global, value: &Value, outline: &Outline<'_>) -> Result<(), Stop> {
    if outline.has_machines {
        let machines = machines_of(alloc, value)?;
        late_starts(alloc, outline, &machines)?;
    }
    for (i, input) in items_in(value, "inputs").iter().enumerate() {
        let place = format!(in alloc; "inputs[{i}]")?;
        check_range(alloc, place.as_str(), input, "tick", 0, MAX_TICK)?;
    }
    Ok(())
}
