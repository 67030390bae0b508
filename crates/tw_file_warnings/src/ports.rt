//! Ports on which nothing is sent, that are coupled to nothing, and receivers that do nothing.
ghost use Rattle.std.specs.Prelude.{◌≡◌, ◌++◌, ◌&&◌, ◌||◌, not, IfOk, OnOk, Some, false, codes, map, option_map, string_bytes};
ghost use Rattle.std.specs.List.{list_all, list_any};
ghost use Rattle.std.specs.Option.{option_map_or};
ghost use Rattle.serde_json.specs.View.{view, items_view};
ghost use Rattle.tw_machine_declaration.specs.Seen as plain;
ghost use Rattle.tw_machine_file.specs.Seen.{machine};
ghost use Rattle.tw_machine_file.specs.Used.{some_item};
ghost use Rattle.tw_machine_warnings.specs.Machines.{entry_place};
ghost use Rattle.tw_machine_warnings.specs.Warning.{warning};
ghost use Rattle.tw_file_members.specs.Members.{items_in};
ghost use Rattle.tw_file_warnings.specs.Places.{component_named, component_place, count_item, of_each, path_in, prefix_in, text_item};
ghost use Rattle.tw_file_warnings.specs.Ports.{
  are_known,
  coupling_warnings,
  couplings_warnings,
  entries_warnings,
  is_deaf,
  is_known,
  is_loose,
  is_plain,
  is_on,
  is_silent,
  is_tally,
  is_this,
  leaves,
  level_warnings,
  loose_by,
  loose_entry,
  loose_warnings,
  port_of,
  sends_nothing,
  takes_nothing,
};

use crate::places::{
    PlacedModel, component_named, component_place, count_item, coupling_place, path_in, prefix_in,
    text_item,
};
use crate::starts::machine_at;
use serde_json::Value;
use std::alloc::{AllocError, Global};
use tw_file_members::{items_in, text_in};
use tw_machine_declaration::{OutputText, Value as Said};
use tw_machine_file::FileMachine;
use tw_machine_text::Block;
use tw_machine_warnings::{Kind, Warning, add_where, number_in};
use tw_models::TALLY;

/// How many ports there are.
const PORTS: u64 = 16;

/// A port that is a number.
fn port_of(port: &Said) -> Option<u64>
    ensures { result ≡ port_of (plain.value port.now) }
{
    match port {
        Said::Number(number) => u64::try_from(*number).ok(),
        Said::Text(tree) => number_in(tree),
    }
}

fn is_known(entry: &OutputText) -> bool
    ensures { result ≡ is_known (plain.output entry.now) }
{
    port_of(&entry.port).is_some()
}

/// Whether each port is a number.
fn are_known(entries: &[OutputText]) -> bool
    ensures { result ≡ are_known (map plain.output entries.now) }
{
    for entry in entries {
        if !is_known(entry) {
            return false;
        }
    }
    true
}

/// Whether an entry is sent on this port.
fn is_on(port: u64, entry: &OutputText) -> bool
    ensures { result ≡ is_on port (plain.output entry.now) }
{
    match port_of(&entry.port) {
        Some(number) => number == port,
        None => false,
    }
}

fn is_sent_on(port: u64, entries: &[OutputText]) -> bool
    ensures { result ≡ list_any (is_on port) (map plain.output entries.now) }
{
    for entry in entries {
        if is_on(port, entry) {
            return true;
        }
    }
    false
}

fn is_this(port: u64, number: Option<u64>) -> bool
    ensures { result ≡ is_this port number }
{
    match number {
        Some(number) => number == port,
        None => false,
    }
}

/// Whether a coupling leads from this port of the component of this name.
fn leaves(name: &str, port: u64, coupling: &Value) -> bool
    ensures { result ≡ leaves name.now port (view coupling.now) }
{
    text_item(coupling, 0) == name && is_this(port, count_item(coupling, 1))
}

fn some_leaves(name: &str, port: u64, couplings: &[Value]) -> bool
    ensures { result ≡ some_item (leaves name.now port) (items_view couplings.now) }
{
    for coupling in couplings {
        if leaves(name, port, coupling) {
            return true;
        }
    }
    false
}

/// Whether no coupling of a model leads from a port of the component of this name.
fn is_loose(model: &Value, name: &str, port: u64) -> bool
    ensures { result ≡ is_loose (view model.now) name.now port }
{
    port < PORTS && !some_leaves(name, port, items_in(model, "couplings"))
}

/// Whether an entry is sent whenever the outputs are: there is neither a condition nor a queue whose items it is sent for.
fn is_plain(entry: &OutputText) -> bool
    ensures { result ≡ is_plain (plain.output entry.now) }
{
    entry.when.is_none() && entry.each.is_none()
}

/// Whether an entry is sent in any case, on a port of the component of this name from which no coupling of the model leads.
fn loose_entry(model: &Value, name: &str, entry: &OutputText) -> bool
    ensures { result ≡ loose_entry (view model.now) name.now (plain.output entry.now) }
{
    if !is_plain(entry) {
        return false;
    }
    match port_of(&entry.port) {
        Some(port) => is_loose(model, name, port),
        None => false,
    }
}

fn entry_place(alloc: Global, place: &str, index: usize) -> Result<String, AllocError>
    ensures { IfOk result (λ t. string_bytes t ≡ entry_place place.now index) }
{
    format!(in alloc; "{place}[{index}]")
}

/// Adds a warning for each entry that the component of this name sends in any case on a port that is coupled to nothing.
fn add_entries(
    alloc: Global,
    warnings: &mut Vec<Warning>,
    model: &Value,
    name: &str,
    place: &str,
    entries: &[OutputText],
) -> Result<(), AllocError>
    ensures { OnOk result (map warning warnings.new.items ≡ map warning warnings.old.items
        ++ entries_warnings (view model.now) name.now place.now 0 (map plain.output entries.now)) }
{
    for (index, entry) in entries.iter().enumerate() {
        let is_so = loose_entry(model, name, entry);
        let here = entry_place(alloc, place, index)?;
        add_where(alloc, warnings, is_so, here.as_str(), Kind::NotCoupled)?;
    }
    Ok(())
}

/// Adds what of a component of a model is coupled to nothing.
fn add_loose(
    alloc: Global,
    warnings: &mut Vec<Warning>,
    machines: &[FileMachine],
    model: &Value,
    place: &str,
    component: &Value,
) -> Result<(), AllocError>
    ensures { OnOk result (map warning warnings.new.items ≡ map warning warnings.old.items
        ++ loose_warnings (map machine machines.now) (view model.now) place.now
        (view component.now)) }
{
    let Some(one) = machine_at(machines, component) else {
        return Ok(());
    };
    add_loose_by(alloc, warnings, model, place, component, one)
}

/// The same, of a component of this machine.
fn add_loose_by(
    alloc: Global,
    warnings: &mut Vec<Warning>,
    model: &Value,
    place: &str,
    component: &Value,
    one: &FileMachine,
) -> Result<(), AllocError>
    ensures { OnOk result (map warning warnings.new.items ≡ map warning warnings.old.items
        ++ loose_by (view model.now) place.now (view component.now) (Some (machine one.now))) }
{
    let outputs = one.declaration.outputs.as_slice();
    if !are_known(outputs) {
        return Ok(());
    }
    let name = text_in(component, "name");
    let place = format!(in alloc; "{place}, output")?;
    add_entries(alloc, warnings, model, name, place.as_str(), outputs)
}

/// Whether a machine never sends on a port.
fn is_silent(port: Option<u64>, one: &FileMachine) -> bool
    ensures { result ≡ is_silent port (machine one.now) }
{
    let outputs = one.declaration.outputs.as_slice();
    match port {
        Some(port) => are_known(outputs) && !is_sent_on(port, outputs),
        None => false,
    }
}

fn is_tally(component: &Value) -> bool
    ensures { result ≡ is_tally (view component.now) }
{
    text_in(component, "model") == TALLY
}

fn sends_nothing(machines: &[FileMachine], port: Option<u64>, component: &Value) -> bool
    ensures { result ≡ sends_nothing (map machine machines.now) port (view component.now) }
{
    is_tally(component)
        || match machine_at(machines, component) {
            Some(one) => is_silent(port, one),
            None => false,
        }
}

fn is_deaf(one: &FileMachine) -> bool
    ensures { result ≡ is_deaf (machine one.now) }
{
    matches!(one.declaration.external, Block::Empty)
}

fn takes_nothing(machines: &[FileMachine], component: &Value) -> bool
    ensures { result ≡ takes_nothing (map machine machines.now) (view component.now) }
{
    match machine_at(machines, component) {
        Some(one) => is_deaf(one),
        None => false,
    }
}

fn is_from_silent(machines: &[FileMachine], components: &[Value], coupling: &Value) -> bool
    ensures { result ≡ option_map_or (sends_nothing (map machine machines.now)
        (count_item 1 (view coupling.now)))
        (component_named (items_view components.now) (text_item 0 (view coupling.now))) false }
{
    match component_named(components, text_item(coupling, 0)) {
        Some(component) => sends_nothing(machines, count_item(coupling, 1), component),
        None => false,
    }
}

fn is_to_deaf(machines: &[FileMachine], components: &[Value], coupling: &Value) -> bool
    ensures { result ≡ option_map_or (takes_nothing (map machine machines.now))
        (component_named (items_view components.now) (text_item 2 (view coupling.now))) false }
{
    match component_named(components, text_item(coupling, 2)) {
        Some(component) => takes_nothing(machines, component),
        None => false,
    }
}

/// Adds what is odd about a coupling of a model of these components.
fn add_coupling(
    alloc: Global,
    warnings: &mut Vec<Warning>,
    machines: &[FileMachine],
    components: &[Value],
    place: &str,
    coupling: &Value,
) -> Result<(), AllocError>
    ensures { OnOk result (map warning warnings.new.items ≡ map warning warnings.old.items
        ++ coupling_warnings (map machine machines.now) (items_view components.now) place.now
        (view coupling.now)) }
{
    let is_silent = is_from_silent(machines, components, coupling);
    add_where(alloc, warnings, is_silent, place, Kind::SilentPort)?;
    let is_deaf = is_to_deaf(machines, components, coupling);
    add_where(alloc, warnings, is_deaf, place, Kind::NoExternal)
}

/// Adds what is odd about the couplings of a model.
fn add_couplings(
    alloc: Global,
    warnings: &mut Vec<Warning>,
    machines: &[FileMachine],
    path: &str,
    model: &Value,
) -> Result<(), AllocError>
    ensures { OnOk result (map warning warnings.new.items ≡ map warning warnings.old.items
        ++ couplings_warnings (map machine machines.now) path.now (view model.now)) }
{
    let components = items_in(model, "components");
    let couplings = items_in(model, "couplings");
    for (index, coupling) in couplings.iter().enumerate() {
        let place = coupling_place(alloc, path, index)?;
        add_coupling(
            alloc,
            warnings,
            machines,
            components,
            place.as_str(),
            coupling,
        )?;
    }
    Ok(())
}

/// Adds what is odd about the components and couplings of a model, and of those in it, of no more levels than there is
/// room for.
#[cycle(levels)]
pub(crate) fn add_level(
    alloc: Global,
    warnings: &mut Vec<Warning>,
    machines: &[FileMachine],
    level: PlacedModel<'_>,
) -> Result<(), AllocError>
    ensures { OnOk result (map warning warnings.new.items ≡ map warning warnings.old.items
        ++ level_warnings (map machine machines.now) level.entry.room level.entry.path.now
        level.entry.prefix.now (view level.entry.model.now)) }
{
    if level.room == 0 {
        return Ok(());
    }
    let room = level.room - 1;
    add_components(alloc, warnings, machines, PlacedModel { room, ..level })?;
    add_couplings(alloc, warnings, machines, level.path, level.model)
}

/// Adds what is odd about the components of a model.
#[cycle(levels)]
fn add_components(
    alloc: Global,
    warnings: &mut Vec<Warning>,
    machines: &[FileMachine],
    level: PlacedModel<'_>,
) -> Result<(), AllocError>
    ensures { OnOk result (map warning warnings.new.items ≡ map warning warnings.old.items
        ++ of_each (λ i c. loose_warnings (map machine machines.now) (view level.entry.model.now)
        (component_place level.entry.path.now level.entry.prefix.now i c) c
        ++ level_warnings (map machine machines.now) level.entry.room
        (path_in level.entry.path.now i) (prefix_in level.entry.prefix.now c) c) 0
        (items_in (codes "components") (view level.entry.model.now))) }
{
    let components = items_in(level.model, "components");
    for (index, component) in components.iter().enumerate() {
        add_component(alloc, warnings, machines, level, index, component)?;
    }
    Ok(())
}

/// Adds what is odd about a component of a model, and what is in it.
#[cycle(levels)]
fn add_component(
    alloc: Global,
    warnings: &mut Vec<Warning>,
    machines: &[FileMachine],
    level: PlacedModel<'_>,
    index: usize,
    component: &Value,
) -> Result<(), AllocError>
    ensures { OnOk result (map warning warnings.new.items ≡ map warning warnings.old.items
        ++ (loose_warnings (map machine machines.now) (view level.entry.model.now)
        (component_place level.entry.path.now level.entry.prefix.now index (view component.now))
        (view component.now)
        ++ level_warnings (map machine machines.now) level.entry.room
        (path_in level.entry.path.now index)
        (prefix_in level.entry.prefix.now (view component.now)) (view component.now))) }
{
    let place = component_place(alloc, level.path, level.prefix, index, component)?;
    add_loose(
        alloc,
        warnings,
        machines,
        level.model,
        place.as_str(),
        component,
    )?;
    let path = path_in(alloc, level.path, index)?;
    let prefix = prefix_in(alloc, level.prefix, component)?;
    let inner = PlacedModel {
        path: path.as_str(),
        prefix: prefix.as_str(),
        model: component,
        room: level.room,
    };
    add_level(alloc, warnings, machines, inner)
}
