//! What a component gives for the parameters of its machine.
ghost use Rattle.std.specs.Prelude.{◌≡◌, ◌+◌, Ok, IfOk, is_some, map};
ghost use Rattle.serde_json.specs.Find.{get};
ghost use Rattle.serde_json.specs.View.{view, items_view};
ghost use Rattle.tw_machine_declaration.specs.Seen.{given};
ghost use Rattle.tw_machine_file.specs.Answers.{Gives, FailsBy, data_of, names_in};
ghost use Rattle.tw_machine_file.specs.Given.{
  given_of,
  has_count,
  has_exactly,
  list_given,
  lists_given,
  long_list,
  number_given,
  numbers_given,
};

use crate::constants::wholes;
use crate::fault::{MachineFault, Part, Why};
use crate::machine::FileMachine;
use crate::values::{is_long, items_of};
use serde_json::Value;
use std::alloc::Global;
use tw_machine::limits::MAX_NUMBERS;
use tw_machine_compiler::Given;

fn number_given(index: usize, member: Option<&Value>) -> Result<i64, MachineFault>
    ensures ok { Gives result (λ n. n) (number_given index (data_of member.entry)) }
    ensures err { FailsBy result (number_given index (data_of member.entry)) }
{
    let Some(value) = member else {
        return Err(MachineFault::Wrong(Part::Number(index), Why::Missing));
    };
    match value.as_i64() {
        Some(number) => Ok(number),
        None => Err(MachineFault::Wrong(Part::Number(index), Why::Shape)),
    }
}

#[tactic(auto, using(crate::proofs::Loops::behind_none, crate::proofs::Loops::behind_more))]
fn numbers_given(alloc: Global, value: &Value, names: &[String]) -> Result<Vec<i64>, MachineFault>
    ensures ok { Gives result
        (λ v. v.items) (numbers_given (view value.now) 0 (names_in names.now)) }
    ensures err { FailsBy result (numbers_given (view value.now) 0 (names_in names.now)) }
{
    let mut numbers = Vec::with_capacity(alloc, names.len())?;
    for (index, name) in names.iter().enumerate() {
        numbers.push(number_given(index, value.get(name.as_str()))?)?;
    }
    Ok(numbers)
}

fn long_list(alloc: Global, index: usize, values: &[Value]) -> Result<Vec<i64>, MachineFault>
    ensures ok { Gives result (λ v. v.items) (long_list index (items_view values.now)) }
    ensures err { FailsBy result (long_list index (items_view values.now)) }
{
    if !is_long(MAX_NUMBERS, values) {
        return Err(MachineFault::Wrong(Part::List(index), Why::Count));
    }
    wholes(alloc, Part::List(index), values)
}

fn list_given(alloc: Global, index: usize, member: Option<&Value>) -> Result<Vec<i64>, MachineFault>
    ensures ok { IfOk result (λ v. list_given index (data_of member.entry) ≡ Ok v.items) }
    ensures err { FailsBy result (list_given index (data_of member.entry)) }
{
    let Some(value) = member else {
        return Err(MachineFault::Wrong(Part::List(index), Why::Missing));
    };
    match items_of(value) {
        Some(values) => long_list(alloc, index, values),
        None => Err(MachineFault::Wrong(Part::List(index), Why::Shape)),
    }
}

#[tactic(auto, using(crate::proofs::Loops::behind_none, crate::proofs::Loops::behind_more))]
fn lists_given(
    alloc: Global,
    value: &Value,
    names: &[String],
) -> Result<Vec<Vec<i64>>, MachineFault>
    ensures ok { Gives result (λ v. map
        (λ list. list.items) v.items) (lists_given (view value.now) 0 (names_in names.now)) }
    ensures err { FailsBy result (lists_given (view value.now) 0 (names_in names.now)) }
{
    let mut lists = Vec::with_capacity(alloc, names.len())?;
    for (index, name) in names.iter().enumerate() {
        lists.push(list_given(alloc, index, value.get(name.as_str()))?)?;
    }
    Ok(lists)
}

/// Whether there are two members and one for each parameter.
fn has_count(numbers: usize, lists: usize, value: &Value) -> bool
    ensures { result ≡ has_count (numbers + lists + 2) (view value.now) }
{
    match value.as_object() {
        Some(members) => members.len() as u128 == numbers as u128 + lists as u128 + 2,
        None => false,
    }
}

fn has(value: &Value, name: &str) -> bool
    ensures { result ≡ is_some (get name.now (view value.now)) }
{
    value.get(name).is_some()
}

/// Whether a component has a name, a model, and a member for each parameter, and no other.
fn has_exactly(numbers: usize, lists: usize, value: &Value) -> bool
    ensures { result ≡ has_exactly (numbers + lists + 2) (view value.now) }
{
    has_count(numbers, lists, value) && has(value, "name") && has(value, "model")
}

/// What a component gives for the parameters of its machine.
///
/// It has exactly the members `name` and `model` and one for each parameter: a whole number of 64 bits with a sign for
/// one that is a number, and an array of 1 to 65,536 of them for one that is a list. The first fault in this order is
/// answered ([`MachineFault`], refusal 21): numbers in order, lists in order, another member. Want of memory (4) may
/// come at any point instead. After any of them nothing is left.
pub fn given_of(alloc: Global, machine: &FileMachine, value: &Value) -> Result<Given, MachineFault>
    ensures ok { Gives result given (given_of (names_in machine.now.numbers.items)
        (names_in machine.now.lists.items) (view value.now)) }
    ensures err { FailsBy result (given_of (names_in machine.now.numbers.items)
        (names_in machine.now.lists.items) (view value.now)) }
{
    let names = machine.numbers.as_slice();
    let lists_named = machine.lists.as_slice();
    let numbers = numbers_given(alloc, value, names)?;
    let lists = lists_given(alloc, value, lists_named)?;
    if !has_exactly(names.len(), lists_named.len(), value) {
        return Err(MachineFault::Wrong(Part::Component, Why::Unknown));
    }
    Ok(Given { numbers, lists })
}
