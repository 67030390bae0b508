//! What is odd about the names that a machine declares.
ghost use Rattle.std.specs.Prelude.{◌≡◌, ◌++◌, ◌||◌, IfOk, OnOk, map, string_bytes};
ghost use Rattle.std.specs.List.{list_any};
ghost use Rattle.tw_machine_text.specs.Letters.{functions, own_names};
ghost use Rattle.tw_machine_text.specs.Text.{position};
ghost use Rattle.tw_machine_declaration.specs.Seen as plain;
ghost use Rattle.tw_machine_warnings.specs.Names.{
  called,
  chance_warnings,
  constant_uses,
  held_warnings,
  index_warnings,
  is_parameter,
  is_read,
  is_set,
  is_some_parameter,
  name_place,
  name_warnings,
  natural_of,
  numbers_of,
  outside_warnings,
  place_warnings,
  places_of,
  thing_uses,
  thing_warnings,
  timer_uses,
};
ghost use Rattle.tw_machine_warnings.specs.Texts.{text};
ghost use Rattle.tw_machine_warnings.specs.Warning.{warning};

use crate::deeds::Doing;
use crate::sought::{Called, Sought};
use crate::starts::never_runs;
use crate::texts::{Text, does_machine, in_machine, in_text};
use crate::warning::{Kind, Warning, add_where};
use std::alloc::{AllocError, Global};
use tw_machine_declaration::{Constant, Declaration, Named, Thing, Timer};
use tw_machine_text::{FUNCTIONS, OWN_NAMES, same_text};

/// The number of a function in a list.
fn function_in(functions: &[&str], name: &[u8]) -> Option<usize>
    ensures { result ≡ position 0 (map (λ f. f.now) functions.now) name.now }
{
    for (index, function) in functions.iter().enumerate() {
        if same_text(function.as_bytes(), name) {
            return Some(index);
        }
    }
    None
}

/// The function of this name.
fn function_named(name: &str) -> Option<usize>
    ensures { result ≡ position 0 functions name.now }
{
    function_in(&FUNCTIONS, name.as_bytes())
}

/// A name of this number.
fn called(number: usize, name: &str) -> Called
    ensures { result ≡ called number name.now }
{
    let function = function_named(name).unwrap_or(number);
    Called { number, function }
}

fn is_parameter(place: usize, constant: Constant) -> bool
    ensures { result ≡ is_parameter place constant }
{
    match constant {
        Constant::Number(_) => false,
        Constant::Parameter(other) => other == place,
    }
}

fn is_some_parameter(place: usize, constant: Option<Constant>) -> bool
    ensures { result ≡ is_some_parameter place constant }
{
    match constant {
        Some(constant) => is_parameter(place, constant),
        None => false,
    }
}

fn is_among(place: usize, constants: &[Constant]) -> bool
    ensures { result ≡ list_any (is_parameter place) constants.now }
{
    for constant in constants {
        if is_parameter(place, *constant) {
            return true;
        }
    }
    false
}

/// Whether a parameter is a timer's count, or says when it is first due.
fn timer_uses(place: usize, timer: Timer) -> bool
    ensures { result ≡ timer_uses place timer }
{
    is_some_parameter(place, timer.count) || is_some_parameter(place, timer.first)
}

fn timers_use(place: usize, timers: &[Timer]) -> bool
    ensures { result ≡ list_any (timer_uses place) timers.now }
{
    for timer in timers {
        if timer_uses(place, *timer) {
            return true;
        }
    }
    false
}

/// Whether a parameter is a start, a room or a count, or says when a timer is due.
fn thing_uses(place: usize, thing: &Thing) -> bool
    ensures { result ≡ thing_uses place (plain.thing thing.now) }
{
    match thing {
        Thing::Register(start) => is_parameter(place, *start),
        Thing::RegisterArray(starts) => is_among(place, starts),
        Thing::Queue(room) => is_parameter(place, *room),
        Thing::QueueArray(count, room) => {
            is_parameter(place, *count) || is_parameter(place, *room)
        }
        Thing::Due(timers) => {
            timers_use(place, &timers.each) || is_some_parameter(place, timers.least)
        }
        _ => false,
    }
}

fn names_use(place: usize, names: &[Named]) -> bool
    ensures { result ≡ list_any (λ n. thing_uses place n.1) (map plain.name names.now) }
{
    for named in names {
        if thing_uses(place, &named.thing) {
            return true;
        }
    }
    false
}

/// Whether a constant of a machine is this parameter.
fn constant_uses(place: usize, declaration: &Declaration) -> bool
    ensures { result ≡ constant_uses place (plain.declaration declaration.now) }
{
    names_use(place, &declaration.names)
        || (is_parameter(place, declaration.random)
            || (is_some_parameter(place, declaration.first)
                || is_some_parameter(place, declaration.longest)))
}

fn is_read(declaration: &Declaration, called: Called) -> bool
    ensures { result ≡ is_read (plain.declaration declaration.now) called }
{
    in_machine(Sought::Named(called), declaration)
}

fn is_set(declaration: &Declaration, called: Called) -> bool
    ensures { result ≡ is_set (plain.declaration declaration.now) called }
{
    does_machine(Doing::Sets(called), declaration)
}

/// Adds that a register or a queue is nowhere read, or else that it is nowhere set.
fn add_held(
    alloc: Global,
    warnings: &mut Vec<Warning>,
    declaration: &Declaration,
    called: Called,
    place: &str,
) -> Result<(), AllocError>
    ensures { OnOk result (map warning warnings.new.items
        ≡ map warning warnings.old.items
        ++ held_warnings (plain.declaration declaration.now) called place.now) }
{
    if is_read(declaration, called) {
        let is_so = !is_set(declaration, called);
        add_where(alloc, warnings, is_so, place, Kind::NotSet)
    } else {
        add_where(alloc, warnings, true, place, Kind::NotRead)
    }
}

/// Adds what is odd about what a name declares.
fn add_thing(
    alloc: Global,
    warnings: &mut Vec<Warning>,
    declaration: &Declaration,
    called: Called,
    place: &str,
    thing: &Thing,
) -> Result<(), AllocError>
    ensures { OnOk result (map warning warnings.new.items
        ≡ map warning warnings.old.items
        ++ thing_warnings (plain.declaration declaration.now) called place.now (plain.thing thing.now)) }
{
    match thing {
        Thing::Parameter(number) => {
            let is_so = !(is_read(declaration, called) || constant_uses(*number, declaration));
            add_where(alloc, warnings, is_so, place, Kind::NotRead)
        }
        Thing::Register(_) | Thing::RegisterArray(_) | Thing::Queue(_) | Thing::QueueArray(..) => {
            add_held(alloc, warnings, declaration, called, place)
        }
        Thing::Table(_) | Thing::ListTable(_) => {
            let is_so = !is_read(declaration, called);
            add_where(alloc, warnings, is_so, place, Kind::NotRead)
        }
        Thing::Timer(before) | Thing::TimerArray(before, _) => {
            let is_so = never_runs(declaration, *before);
            add_where(alloc, warnings, is_so, place, Kind::NeverRuns)
        }
        Thing::ListParameter(_)
        | Thing::Observation
        | Thing::Procedure(_)
        | Thing::Constant(_)
        | Thing::Field
        | Thing::Number(_)
        | Thing::Together(_)
        | Thing::Greatest(_)
        | Thing::Due(_)
        | Thing::Next(_) => Ok(()),
    }
}

/// A name behind the place that it stands in.
fn name_place(alloc: Global, place: &str, name: &str) -> Result<String, AllocError>
    ensures { IfOk result (λ t. string_bytes t ≡ name_place place.now name.now) }
{
    format!(in alloc; "{place}, \"{name}\"")
}

/// Adds what is odd about one name of this number.
fn add_name(
    alloc: Global,
    warnings: &mut Vec<Warning>,
    declaration: &Declaration,
    number: usize,
    place: &str,
    named: &Named,
) -> Result<(), AllocError>
    ensures { OnOk result (map warning warnings.new.items ≡ map warning warnings.old.items
        ++ thing_warnings (plain.declaration declaration.now)
        (called number (plain.name named.now).0)
        (name_place place.now (plain.name named.now).0) (plain.name named.now).1) }
{
    let name = named.name.as_str();
    let place = name_place(alloc, place, name)?;
    let called = called(number, name);
    add_thing(
        alloc,
        warnings,
        declaration,
        called,
        place.as_str(),
        &named.thing,
    )
}

/// Adds what is odd about the names of a machine.
pub(crate) fn add_names(
    alloc: Global,
    warnings: &mut Vec<Warning>,
    declaration: &Declaration,
    place: &str,
) -> Result<(), AllocError>
    ensures { OnOk result (map warning warnings.new.items
        ≡ map warning warnings.old.items
        ++ name_warnings place.now (plain.declaration declaration.now) own_names
        (map plain.name declaration.now.names.items)) }
{
    let mut number = OWN_NAMES;
    for named in &declaration.names {
        add_name(alloc, warnings, declaration, number, place, named)?;
        number = number.wrapping_add(1);
    }
    Ok(())
}

fn natural_of(number: i64) -> usize
    ensures { result ≡ natural_of number }
{
    number.max(0) as usize
}

/// How many places there are, where the machine says it itself.
fn places_of(thing: &Thing) -> Option<usize>
    ensures { result ≡ places_of (plain.thing thing.now) }
{
    match thing {
        Thing::RegisterArray(starts) => Some(starts.len()),
        Thing::QueueArray(Constant::Number(count), _) => Some(natural_of(*count)),
        Thing::Table(numbers) => Some(numbers.len()),
        _ => None,
    }
}

/// How many numbers a table has, where they stand in the machine.
fn numbers_of(thing: &Thing) -> Option<usize>
    ensures { result ≡ numbers_of (plain.thing thing.now) }
{
    match thing {
        Thing::Table(numbers) => Some(numbers.len()),
        _ => None,
    }
}

fn add_outside(
    alloc: Global,
    warnings: &mut Vec<Warning>,
    said: Text<'_>,
    called: Called,
    place: &str,
    places: Option<usize>,
) -> Result<(), AllocError>
    ensures { OnOk result (map warning warnings.new.items
        ≡ map warning warnings.old.items ++ outside_warnings (text said.entry) called place.now places) }
{
    match places {
        Some(many) => {
            let is_so = in_text(Sought::Outside(called, many), said);
            add_where(alloc, warnings, is_so, place, Kind::IndexPast)
        }
        None => Ok(()),
    }
}

fn add_chance(
    alloc: Global,
    warnings: &mut Vec<Warning>,
    said: Text<'_>,
    called: Called,
    place: &str,
    numbers: Option<usize>,
) -> Result<(), AllocError>
    ensures { OnOk result (map warning warnings.new.items
        ≡ map warning warnings.old.items ++ chance_warnings (text said.entry) called place.now numbers) }
{
    match numbers {
        Some(many) => {
            let is_so = in_text(Sought::Chance(called, many), said);
            add_where(alloc, warnings, is_so, place, Kind::RandomIndex)
        }
        None => Ok(()),
    }
}

/// Adds what is odd about the places of a thing that is called so, in a text.
fn add_places(
    alloc: Global,
    warnings: &mut Vec<Warning>,
    said: Text<'_>,
    called: Called,
    place: &str,
    thing: &Thing,
) -> Result<(), AllocError>
    ensures { OnOk result (map warning warnings.new.items ≡ map warning warnings.old.items
        ++ place_warnings (text said.entry) called place.now (plain.thing thing.now)) }
{
    let places = places_of(thing);
    let numbers = numbers_of(thing);
    add_outside(alloc, warnings, said, called, place, places)?;
    add_chance(alloc, warnings, said, called, place, numbers)
}

/// Adds what is odd about the places of one name of this number in a text.
fn add_index(
    alloc: Global,
    warnings: &mut Vec<Warning>,
    said: Text<'_>,
    number: usize,
    place: &str,
    named: &Named,
) -> Result<(), AllocError>
    ensures { OnOk result (map warning warnings.new.items ≡ map warning warnings.old.items
        ++ place_warnings (text said.entry) (called number (plain.name named.now).0)
        (name_place place.now (plain.name named.now).0) (plain.name named.now).1) }
{
    let name = named.name.as_str();
    let place = name_place(alloc, place, name)?;
    let called = called(number, name);
    add_places(alloc, warnings, said, called, place.as_str(), &named.thing)
}

/// Adds what is odd about the places of these names in a text.
pub(crate) fn add_indexes(
    alloc: Global,
    warnings: &mut Vec<Warning>,
    said: Text<'_>,
    place: &str,
    names: &[Named],
) -> Result<(), AllocError>
    ensures { OnOk result (map warning warnings.new.items
        ≡ map warning warnings.old.items
        ++ index_warnings place.now (text said.entry) own_names (map plain.name names.now)) }
{
    let mut number = OWN_NAMES;
    for named in names {
        add_index(alloc, warnings, said, number, place, named)?;
        number = number.wrapping_add(1);
    }
    Ok(())
}
