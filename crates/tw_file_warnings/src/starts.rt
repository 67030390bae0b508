//! Components whose random numbers start alike.
ghost use Rattle.std.specs.Prelude.{◌≡◌, ◌++◌, [], IfOk, OnOk, codes, map, option_map, string_bytes};
ghost use Rattle.std.specs.List.{list_any};
ghost use Rattle.serde_json.specs.View.{view};
ghost use Rattle.tw_machine_file.specs.Seen.{machine};
ghost use Rattle.tw_file_members.specs.Members.{items_in};
ghost use Rattle.tw_file_members.specs.Tables.{machine_at};
ghost use Rattle.tw_machine_warnings.specs.Warning.{warning};
ghost use Rattle.tw_file_warnings.specs.Places.{of_each, component_place, path_in, prefix_in};
ghost use Rattle.tw_file_warnings.specs.Starts.{
  constant_of,
  is_start,
  own_start,
  same_starts,
  start_of,
  starts_within,
};
ghost use Rattle.tw_file_warnings.specs.StartViews.{start};

use crate::places::{PlacedModel, component_place, path_in, prefix_in};
use serde_json::Value;
use std::alloc::{AllocError, Global};
use tw_file_members::{items_in, machine_named, text_at, value_at};
use tw_machine_declaration::Constant;
use tw_machine_file::FileMachine;
use tw_machine_warnings::{Kind, Sought, Warning, add_where, in_machine};

/// More levels than a JSON text can have: a level of components takes two of its 127.
pub(crate) const ROOM: usize = 64;

/// Where the random numbers of a component start.
#[derive(Drop)]
pub(crate) struct Start {
    pub place: String,
    /// The constant that they are mixed from.
    pub random: i64,
}

/// The constant that the random numbers of a component of a machine are mixed from.
fn constant_of(one: &FileMachine, constant: Constant, component: &Value) -> Option<i64>
    ensures { result ≡ constant_of (machine one.now) constant (view component.now) }
{
    match constant {
        Constant::Number(number) => Some(number),
        Constant::Parameter(place) => match one.numbers.get(place) {
            Some(name) => value_at(component, name.as_str()),
            None => value_at(component, ""),
        },
    }
}

/// The same, where the machine reads random numbers.
fn start_of(component: &Value, one: &FileMachine) -> Option<i64>
    ensures { result ≡ start_of (view component.now) (machine one.now) }
{
    if in_machine(Sought::Random, &one.declaration) {
        constant_of(one, one.declaration.random, component)
    } else {
        None
    }
}

/// The machine of a component.
pub(crate) fn machine_at<'a>(
    machines: &'a [FileMachine],
    component: &Value,
) -> Option<&'a FileMachine>
    ensures { option_map (λ m. machine m.now) result
        ≡ machine_at (map machine machines.now) (view component.now) }
{
    machine_named(machines, text_at(component, "model")?)
}

/// Adds where the random numbers of a component start, if it reads some.
fn add_own(
    starts: &mut Vec<Start>,
    machines: &[FileMachine],
    place: String,
    component: &Value,
) -> Result<(), AllocError>
    ensures { OnOk result (map start starts.new.items ≡ map start starts.old.items
        ++ own_start (map machine machines.now) (string_bytes place) (view component.now)) }
{
    let Some(one) = machine_at(machines, component) else {
        return Ok(());
    };
    let Some(random) = start_of(component, one) else {
        return Ok(());
    };
    starts.push(Start { place, random })?;
    Ok(())
}

/// Adds those of the components of a model, depth first.
#[cycle(starts)]
fn add_within(
    alloc: Global,
    starts: &mut Vec<Start>,
    machines: &[FileMachine],
    level: PlacedModel<'_>,
) -> Result<(), AllocError>
    ensures { OnOk result (map start starts.new.items ≡ map start starts.old.items
        ++ starts_within (map machine machines.now) level.entry.room level.entry.path.now
        level.entry.prefix.now (view level.entry.model.now)) }
{
    if level.room == 0 {
        return Ok(());
    }
    let room = level.room - 1;
    add_all(alloc, starts, machines, PlacedModel { room, ..level })
}

/// Adds those of the components of a model, and of those in them, of no more levels than there is room for.
#[cycle(starts)]
fn add_all(
    alloc: Global,
    starts: &mut Vec<Start>,
    machines: &[FileMachine],
    level: PlacedModel<'_>,
) -> Result<(), AllocError>
    ensures { OnOk result (map start starts.new.items ≡ map start starts.old.items
        ++ of_each (λ i c. own_start (map machine machines.now)
        (component_place level.entry.path.now level.entry.prefix.now i c) c
        ++ starts_within (map machine machines.now) level.entry.room
        (path_in level.entry.path.now i) (prefix_in level.entry.prefix.now c) c) 0
        (items_in (codes "components") (view level.entry.model.now))) }
{
    let components = items_in(level.model, "components");
    for (index, component) in components.iter().enumerate() {
        add_component(alloc, starts, machines, level, index, component)?;
    }
    Ok(())
}

/// Adds that of a component, and those in it.
#[cycle(starts)]
fn add_component(
    alloc: Global,
    starts: &mut Vec<Start>,
    machines: &[FileMachine],
    level: PlacedModel<'_>,
    index: usize,
    component: &Value,
) -> Result<(), AllocError>
    ensures { OnOk result (map start starts.new.items ≡ map start starts.old.items
        ++ (own_start (map machine machines.now)
        (component_place level.entry.path.now level.entry.prefix.now index (view component.now))
        (view component.now)
        ++ starts_within (map machine machines.now) level.entry.room
        (path_in level.entry.path.now index)
        (prefix_in level.entry.prefix.now (view component.now)) (view component.now))) }
{
    let place = component_place(alloc, level.path, level.prefix, index, component)?;
    add_own(starts, machines, place, component)?;
    let path = path_in(alloc, level.path, index)?;
    let prefix = prefix_in(alloc, level.prefix, component)?;
    let inner = PlacedModel {
        path: path.as_str(),
        prefix: prefix.as_str(),
        model: component,
        room: level.room,
    };
    add_within(alloc, starts, machines, inner)
}

/// Whether one of these is at this constant.
fn is_among(random: i64, starts: &[Start]) -> bool
    ensures { result ≡ list_any (is_start random) (map start starts.now) }
{
    for one in starts {
        if one.random == random {
            return true;
        }
    }
    false
}

/// Adds a warning for each that starts as one before it.
pub(crate) fn add_same(
    alloc: Global,
    warnings: &mut Vec<Warning>,
    starts: &[Start],
) -> Result<(), AllocError>
    ensures { OnOk result (map warning warnings.new.items ≡ map warning warnings.old.items
        ++ same_starts [] (map start starts.now)) }
{
    for (index, one) in starts.iter().enumerate() {
        let is_so = is_among(one.random, &starts[..index]);
        add_where(alloc, warnings, is_so, one.place.as_str(), Kind::SameStart)?;
    }
    Ok(())
}

/// Where the random numbers of the components of a file start, depth first.
pub(crate) fn starts_in(
    alloc: Global,
    machines: &[FileMachine],
    file: &Value,
) -> Result<Vec<Start>, AllocError>
    ensures { IfOk result (λ starts. map start starts.items
        ≡ starts_within (map machine machines.now) 64 [] [] (view file.now)) }
{
    let mut starts = Vec::new(alloc);
    let whole = PlacedModel {
        path: "",
        prefix: "",
        model: file,
        room: ROOM,
    };
    add_within(alloc, &mut starts, machines, whole)?;
    Ok(starts)
}
