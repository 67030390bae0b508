//! How many numbers the tables of a whole file have. Counts end at 1,048,577, one past what is allowed.

ghost use Rattle.std.specs.Prelude.{◌≡◌, ◌+◌, ◌≤◌, map, min, string_bytes, sum_by};
ghost use Rattle.serde_json.specs.Events.{items_len};
ghost use Rattle.serde_json.specs.View.{view, items_view};
ghost use Rattle.tw_machine.specs.Limits.{file_numbers_end};
ghost use Rattle.tw_machine_declaration.specs.Seen as plain;
ghost use Rattle.tw_machine_file.specs.Seen.{machine};
ghost use Rattle.tw_file_members.specs.Tables.{
  component_numbers,
  given_within,
  has_few_numbers,
  items_sum,
  length_at,
  own,
  own_numbers,
};

use crate::members::{items_at, text_at};
use crate::named::machine_named;
use serde_json::Value;
use tw_machine::limits::{FILE_NUMBERS_END, MAX_FILE_NUMBERS};
use tw_machine_declaration::{Named, Thing};
use tw_machine_file::FileMachine;

/// More levels than a JSON text of 127 levels can have.
const ROOM: usize = 64;

/// Whether the tables of a file that declares these machines have no more numbers than they may have.
pub fn has_few_numbers(machines: &[FileMachine], value: &Value) -> bool
    ensures { result ≡ has_few_numbers (map machine machines.now) (view value.now) }
{
    let own = all_own_numbers(machines);
    let given = given_within(machines, value, ROOM);
    own + given <= MAX_FILE_NUMBERS
}

/// The numbers that stand in the tables of machines.
fn all_own_numbers(machines: &[FileMachine]) -> usize
    ensures value { result ≡ min (sum_by own_numbers (map machine machines.now)) file_numbers_end }
    ensures small { result ≤ file_numbers_end }
{
    let mut total = 0;
    for machine in machines {
        total = (total + own_numbers(machine.declaration.names.as_slice())).min(FILE_NUMBERS_END);
    }
    total
}

/// The numbers that stand in the tables among these names.
fn own_numbers(names: &[Named]) -> usize
    ensures value { result
        ≡ min (sum_by (λ n. own n.1) (map plain.name names.now)) file_numbers_end }
    ensures small { result ≤ file_numbers_end }
{
    let mut total = 0;
    for named in names {
        total = (total + own(&named.thing)).min(FILE_NUMBERS_END);
    }
    total
}

/// The numbers that stand in a table.
fn own(thing: &Thing) -> usize
    ensures value { result ≡ min (own (plain.thing thing.now)) file_numbers_end }
    ensures small { result ≤ file_numbers_end }
{
    match thing {
        Thing::Table(numbers) => numbers.len().min(FILE_NUMBERS_END),
        _ => 0,
    }
}

/// What the components of a model give for lists, of no more levels than there is room for.
#[cycle(within)]
fn given_within(machines: &[FileMachine], value: &Value, room: usize) -> usize
    ensures value { result
        ≡ min (given_within (map machine machines.now) room (view value.now)) file_numbers_end }
    ensures small { result ≤ file_numbers_end }
{
    if room == 0 {
        return 0;
    }
    match items_at(value, "components") {
        Some(components) => given_by_all(machines, components, room - 1),
        None => 0,
    }
}

#[cycle(within)]
fn given_by_all(machines: &[FileMachine], components: &[Value], room: usize) -> usize
    ensures value { result
        ≡ min (items_sum
        (λ c. component_numbers (map machine machines.now) c + given_within
        (map machine machines.now) room c) (items_view components.now)) file_numbers_end }
    ensures small { result ≤ file_numbers_end }
{
    let mut total = 0;
    for component in components {
        total = (total + given_by(machines, component, room)).min(FILE_NUMBERS_END);
    }
    total
}

/// What a component gives for lists, or those in it.
#[cycle(within)]
fn given_by(machines: &[FileMachine], component: &Value, room: usize) -> usize
    ensures value { result
        ≡ min (component_numbers (map machine machines.now) (view component.now) + given_within
        (map machine machines.now) room (view component.now)) file_numbers_end }
    ensures small { result ≤ file_numbers_end }
{
    let own = component_numbers(machines, component);
    let within = given_within(machines, component, room);
    (own + within).min(FILE_NUMBERS_END)
}

/// What a component gives for the lists of its machine.
fn component_numbers(machines: &[FileMachine], component: &Value) -> usize
    ensures value { result
        ≡ min (component_numbers (map machine machines.now) (view component.now)) file_numbers_end }
    ensures small { result ≤ file_numbers_end }
{
    let Some(model) = text_at(component, "model") else {
        return 0;
    };
    match machine_named(machines, model) {
        Some(machine) => lengths_at(component, machine.lists.as_slice()),
        None => 0,
    }
}

/// How many items the members of these names have together.
fn lengths_at(component: &Value, names: &[String]) -> usize
    ensures value { result
        ≡ min (sum_by (λ name. length_at name (view component.now))
        (map string_bytes names.now)) file_numbers_end }
    ensures small { result ≤ file_numbers_end }
{
    let mut total = 0;
    for name in names {
        total = (total + length_at(component, name.as_str())).min(FILE_NUMBERS_END);
    }
    total
}

/// How many items a member has, where it is an array.
fn length_at(component: &Value, name: &str) -> usize
    ensures value { result ≡ min (length_at name.now (view component.now)) file_numbers_end }
    ensures small { result ≤ file_numbers_end }
{
    match items_at(component, name) {
        Some(items) => count(items).min(FILE_NUMBERS_END),
        None => 0,
    }
}

fn count(items: &[Value]) -> usize
    ensures { result ≡ items_len (items_view items.now) }
{
    items.len()
}
