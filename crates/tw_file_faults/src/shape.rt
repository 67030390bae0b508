//! Members that are missing, unknown or of another type.

use crate::given::{check_given, check_tables};
use crate::outline::{Outline, place_of};
use serde_json::Value;
use std::alloc::Global;
use tw_file_members::items_in;
use tw_machine_faults::{Machines, Stop, machines_of};
use tw_machine_text_faults::{Nearest, described, listed, quoted};
use tw_models::{KINDS, Kind, Numbers};

/// The members of a network file.
const MEMBERS: [&str; 5] = ["format", "micro_limit", "components", "couplings", "inputs"];

/// The members of a network file of format tw-3.
const MEMBERS_OF_MACHINES: [&str; 8] = [
    "format",
    "micro_limit",
    "fields",
    "constants",
    "models",
    "components",
    "couplings",
    "inputs",
];

/// Those of them that have to be there.
const NEEDED: [&str; 6] = [
    "format",
    "micro_limit",
    "models",
    "components",
    "couplings",
    "inputs",
];

/// Looks for another shape: first in the members of the file, then in its fields, its constants and its machines in
/// order, then in its models in order, then in its inputs.
pub(crate) fn bad_shape(alloc: Global, value: &Value, outline: &Outline<'_>) -> Result<(), Stop> {
    check_file(alloc, value, outline)?;
    let machines = if outline.has_machines {
        machines_of(alloc, value)?
    } else {
        Machines::none(alloc)
    };
    check_list(alloc, "the file", value, "inputs")?;
    check_levels(alloc, outline, &machines)?;
    check_tables(alloc, outline, &machines)?;
    for (i, input) in items_in(value, "inputs").iter().enumerate() {
        let place = format!(in alloc; "inputs[{i}]")?;
        check_input(alloc, place.as_str(), input)?;
    }
    Ok(())
}

/// Looks at the components and couplings of the file and of the models in it.
fn check_levels(alloc: Global, outline: &Outline<'_>, machines: &Machines<'_>) -> Result<(), Stop> {
    for level in &outline.levels {
        let place = level.place.as_str();
        check_list(alloc, place, level.value, "components")?;
        for (i, component) in items_in(level.value, "components").iter().enumerate() {
            let place = place_of(
                alloc,
                level.path.as_str(),
                level.prefix.as_str(),
                i,
                component,
            )?;
            check_component(
                alloc,
                place.as_str(),
                component,
                outline.has_trees,
                machines,
            )?;
        }
        check_list(alloc, place, level.value, "couplings")?;
        for (i, coupling) in items_in(level.value, "couplings").iter().enumerate() {
            let place = format!(in alloc; "{}couplings[{i}]", level.path)?;
            check_coupling(alloc, place.as_str(), coupling)?;
        }
    }
    Ok(())
}

/// Looks at the members of the file itself.
fn check_file(alloc: Global, value: &Value, outline: &Outline<'_>) -> Result<(), Stop> {
    let place = "the file";
    let what = "a network file";
    if outline.has_machines {
        let takes = listed(alloc, &MEMBERS_OF_MACHINES)?;
        let what = format!(in alloc; "{what}, which takes {takes}")?;
        check_known(
            alloc,
            place,
            value,
            what.as_str(),
            &[],
            &MEMBERS_OF_MACHINES,
        )?;
        check_all_present(alloc, place, value, what.as_str(), &NEEDED)?;
    } else {
        check_members(alloc, place, value, what, &[], &MEMBERS)?;
    }
    check_text(alloc, place, value, "format")?;
    if let Some(format) = value.get("format").and_then(Value::as_str) {
        if format != "tw-1" && format != "tw-2" && format != "tw-3" {
            let format = quoted(alloc, format)?;
            let line = format!(in alloc;
                "{place}: format is {format}, not \"tw-1\", \"tw-2\" or \"tw-3\""
            )?;
            return Err(Stop::Fault(line));
        }
    }
    check_count(alloc, place, value, "micro_limit")
}

/// Looks at a component: an atom, or where there are trees a coupled model.
fn check_component(
    alloc: Global,
    place: &str,
    component: &Value,
    has_trees: bool,
    machines: &Machines<'_>,
) -> Result<(), Stop> {
    if has_trees && component.is_object() && component.get("model").is_none() {
        if component.get("components").is_none() && component.get("couplings").is_none() {
            let line = format!(in alloc; "{place}: neither a model nor components and couplings")?;
            return Err(Stop::Fault(line));
        }
        check_members(
            alloc,
            place,
            component,
            "a coupled model",
            &["name"],
            &["components", "couplings"],
        )?;
        return check_text(alloc, place, component, "name");
    }
    check_atom(alloc, place, component, machines)
}

/// Looks at a component that has a model, or should have one.
fn check_atom(
    alloc: Global,
    place: &str,
    atom: &Value,
    machines: &Machines<'_>,
) -> Result<(), Stop> {
    check_present(alloc, place, atom, "a component", "name")?;
    check_text(alloc, place, atom, "name")?;
    check_present(alloc, place, atom, "a component", "model")?;
    check_text(alloc, place, atom, "model")?;
    let model = atom.get("model").and_then(Value::as_str).unwrap_or("");
    for kind in &KINDS {
        if kind.name == model {
            return check_built_in(alloc, place, atom, kind);
        }
    }
    match machines.named(model) {
        Some(machine) => check_given(alloc, place, atom, &machine),
        None => unknown_model(alloc, place, model, machines),
    }
}

/// Looks at a component of a built-in model: its members, and then its parameters in order.
fn check_built_in(alloc: Global, place: &str, atom: &Value, kind: &Kind) -> Result<(), Stop> {
    let what = format!(in alloc; "a {}", kind.name)?;
    let mut own = Vec::new(alloc);
    for parameter in kind.parameters {
        own.push(parameter.name)?;
    }
    check_members(alloc, place, atom, what.as_str(), &["name", "model"], &own)?;
    for parameter in kind.parameters {
        match parameter.numbers {
            Numbers::Counts { .. } => check_count(alloc, place, atom, parameter.name)?,
            Numbers::Values => check_value(alloc, place, atom, parameter.name)?,
        }
    }
    Ok(())
}

/// Stops at a model that there is not.
fn unknown_model(
    alloc: Global,
    place: &str,
    model: &str,
    machines: &Machines<'_>,
) -> Result<(), Stop> {
    let shown = quoted(alloc, model)?;
    let mut kinds = String::new(alloc);
    for (i, kind) in KINDS.iter().enumerate() {
        kinds.push_str(if i > 0 { ", " } else { "" })?;
        kinds.push_str(kind.name)?;
    }
    if machines.read().is_empty() {
        let line = format!(in alloc; "{place}: no model {shown}; there are {kinds}")?;
        return Err(Stop::Fault(line));
    }
    let mut nearest = Nearest::new(model);
    for machine in machines.read() {
        nearest.look(alloc, machine.name.as_str())?;
    }
    for kind in &KINDS {
        nearest.look(alloc, kind.name)?;
    }
    let question = nearest.question(alloc)?;
    let line = format!(in alloc;
        "{place}: no model {shown}; there are {kinds} and those of models{question}"
    )?;
    Err(Stop::Fault(line))
}

/// Looks at a coupling.
fn check_coupling(alloc: Global, place: &str, coupling: &Value) -> Result<(), Stop> {
    let takes = "a source name, a port, a destination name, a port";
    let Some(items) = coupling.as_array() else {
        let found = described(alloc, coupling)?;
        let line = format!(in alloc; "{place}: {found}, not a list of {takes}")?;
        return Err(Stop::Fault(line));
    };
    if items.len() != 4 {
        let count = items.len();
        let line = format!(in alloc; "{place}: a list of {count}, not of four: {takes}")?;
        return Err(Stop::Fault(line));
    }
    for (i, item) in items.iter().enumerate() {
        let found = described(alloc, item)?;
        if i % 2 == 0 && !item.is_string() {
            let line = format!(in alloc; "{place}: {found} at [{i}], not a name")?;
            return Err(Stop::Fault(line));
        }
        if i % 2 == 1 && !item.is_u64() {
            let line = format!(in alloc; "{place}: {found} at [{i}], not a port")?;
            return Err(Stop::Fault(line));
        }
    }
    Ok(())
}

/// Looks at an input from outside.
fn check_input(alloc: Global, place: &str, input: &Value) -> Result<(), Stop> {
    check_members(
        alloc,
        place,
        input,
        "an input",
        &[],
        &["tick", "to", "port", "value"],
    )?;
    check_count(alloc, place, input, "tick")?;
    check_text(alloc, place, input, "to")?;
    check_count(alloc, place, input, "port")?;
    check_value(alloc, place, input, "value")
}

/// Stops at what is no object, at an unknown member, and then at a missing one. The words name those of `own`.
pub(crate) fn check_members(
    alloc: Global,
    place: &str,
    value: &Value,
    said: &str,
    common: &[&str],
    own: &[&str],
) -> Result<(), Stop> {
    let takes = if own.is_empty() {
        String::from_str(alloc, "nothing more")?
    } else {
        listed(alloc, own)?
    };
    let what = format!(in alloc; "{said}, which takes {takes}")?;
    check_known(alloc, place, value, what.as_str(), common, own)?;
    for name in common {
        check_present(alloc, place, value, said, name)?;
    }
    check_all_present(alloc, place, value, what.as_str(), own)
}

/// Stops at what is no object, and at a member that is neither of the common ones nor of its own.
fn check_known(
    alloc: Global,
    place: &str,
    value: &Value,
    what: &str,
    common: &[&str],
    own: &[&str],
) -> Result<(), Stop> {
    let Some(members) = value.as_object() else {
        let found = described(alloc, value)?;
        let line = format!(in alloc; "{place}: {found}, not an object")?;
        return Err(Stop::Fault(line));
    };
    for name in members.keys() {
        if !has_word(common, name.as_str()) && !has_word(own, name.as_str()) {
            let name = quoted(alloc, name.as_str())?;
            let line = format!(in alloc; "{place}: no member {name} in {what}")?;
            return Err(Stop::Fault(line));
        }
    }
    Ok(())
}

/// Stops where one of these members is missing.
fn check_all_present(
    alloc: Global,
    place: &str,
    value: &Value,
    what: &str,
    names: &[&str],
) -> Result<(), Stop> {
    for name in names {
        check_present(alloc, place, value, what, name)?;
    }
    Ok(())
}

/// Stops where a member is missing.
fn check_present(
    alloc: Global,
    place: &str,
    value: &Value,
    what: &str,
    name: &str,
) -> Result<(), Stop> {
    if !value.is_object() {
        let found = described(alloc, value)?;
        return Err(Stop::Fault(format!(in alloc; "{place}: {found}, not an object")?));
    }
    if value.get(name).is_none() {
        let line = format!(in alloc; "{place}: \"{name}\" is missing in {what}")?;
        return Err(Stop::Fault(line));
    }
    Ok(())
}

/// Stops at a member that is there and no text.
fn check_text(alloc: Global, place: &str, value: &Value, name: &str) -> Result<(), Stop> {
    match value.get(name) {
        Some(found) if !found.is_string() => other_type(alloc, place, name, found, "a text"),
        _ => Ok(()),
    }
}

/// Stops at a member that is there and no list.
fn check_list(alloc: Global, place: &str, value: &Value, name: &str) -> Result<(), Stop> {
    match value.get(name) {
        Some(found) if !found.is_array() => other_type(alloc, place, name, found, "a list"),
        _ => Ok(()),
    }
}

/// Stops at a member that is there and no whole number of 64 bits without sign.
fn check_count(alloc: Global, place: &str, value: &Value, name: &str) -> Result<(), Stop> {
    match value.get(name) {
        Some(found) if !found.is_u64() => other_type(
            alloc,
            place,
            name,
            found,
            "a whole number from 0 to 18446744073709551615",
        ),
        _ => Ok(()),
    }
}

/// Stops at a member that is there and no whole number of 64 bits with sign.
pub(crate) fn check_value(
    alloc: Global,
    place: &str,
    value: &Value,
    name: &str,
) -> Result<(), Stop> {
    match value.get(name) {
        Some(found) if !found.is_i64() => other_type(
            alloc,
            place,
            name,
            found,
            "a whole number from -9223372036854775808 to 9223372036854775807",
        ),
        _ => Ok(()),
    }
}

/// Stops at a member of another type.
fn other_type(
    alloc: Global,
    place: &str,
    name: &str,
    found: &Value,
    wanted: &str,
) -> Result<(), Stop> {
    let found = described(alloc, found)?;
    let line = format!(in alloc; "{place}: {name} is {found}, not {wanted}")?;
    Err(Stop::Fault(line))
}

/// Whether a word is among others.
fn has_word(words: &[&str], word: &str) -> bool {
    for other in words {
        if *other == word {
            return true;
        }
    }
    false
}
