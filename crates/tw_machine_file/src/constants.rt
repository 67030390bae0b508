//! Constants: whole numbers, and names of parameters that are numbers, or of constants of the file.
ghost use Rattle.std.specs.Prelude.{◌≡◌, map};
ghost use Rattle.serde_json.specs.View.{view, items_view};
ghost use Rattle.tw_machine_compiler.specs.Limits.{is_up_to};
ghost use Rattle.tw_machine_file.specs.Answers.{Gives, FailsBy};
ghost use Rattle.tw_machine_file.specs.Constants.{
  constant,
  constant_named,
  constant_of,
  constants,
  count,
  file_constant,
  is_within,
  number_named,
  numbers_in,
  wholes,
};

use crate::fault::{MachineFault, Part, Why};
use crate::names::place_in;
use crate::shared::FileConstant;
use serde_json::Value;
use std::alloc::Global;
use tw_machine_compiler::Constant;
use tw_machine_text::same_text;

/// The names that may stand for a number.
#[derive(Drop)]
pub(crate) struct Numbers {
    /// Of the parameters that are numbers, in order.
    pub parameters: Vec<String>,
    /// The constants of the file.
    pub constants: Vec<FileConstant>,
}

/// The number of the constant of this name.
pub(crate) fn number_named(constants: &[FileConstant], name: &[u8]) -> Option<i64>
    ensures { result ≡ number_named (map file_constant constants.now) name.now }
{
    for one in constants {
        if same_text(one.name.as_bytes(), name) {
            return Some(one.number);
        }
    }
    None
}

/// What a name stands for.
fn constant_named(numbers: &Numbers, name: &[u8]) -> Option<Constant>
    ensures { result ≡ constant_named (numbers_in numbers.now) name.now }
{
    if let Some(place) = place_in(&numbers.parameters, name) {
        return Some(Constant::Parameter(place));
    }
    let number = number_named(&numbers.constants, name)?;
    Some(Constant::Number(number))
}

fn constant_of(numbers: &Numbers, value: &Value) -> Option<Constant>
    ensures { result ≡ constant_of (numbers_in numbers.now) (view value.now) }
{
    if let Some(number) = value.as_i64() {
        return Some(Constant::Number(number));
    }
    constant_named(numbers, value.as_str()?.as_bytes())
}

/// A whole number, or a name that stands for one.
pub(crate) fn constant(
    part: Part,
    numbers: &Numbers,
    value: &Value,
) -> Result<Constant, MachineFault>
    ensures ok { Gives result (λ c. c) (constant part (numbers_in numbers.now) (view value.now)) }
    ensures err { FailsBy result (constant part (numbers_in numbers.now) (view value.now)) }
{
    match constant_of(numbers, value) {
        Some(constant) => Ok(constant),
        None => Err(MachineFault::Wrong(part, Why::Constant)),
    }
}

fn is_up_to(most: u64, number: i64) -> bool
    ensures { result ≡ is_up_to most number }
{
    number >= 1 && number as u64 <= most
}

fn is_within(most: u64, constant: Constant) -> bool
    ensures { result ≡ is_within most constant }
{
    match constant {
        Constant::Number(number) => is_up_to(most, number),
        Constant::Parameter(_) => true,
    }
}

/// A constant from 1 to this, as far as its number stands in the file.
pub(crate) fn count(
    part: Part,
    most: u64,
    numbers: &Numbers,
    value: &Value,
) -> Result<Constant, MachineFault>
    ensures ok { Gives result (λ c. c) (count part most (numbers_in numbers.now) (view value.now)) }
    ensures err { FailsBy result (count part most (numbers_in numbers.now) (view value.now)) }
{
    let constant = constant(part, numbers, value)?;
    if is_within(most, constant) {
        Ok(constant)
    } else {
        Err(MachineFault::Wrong(part, Why::Count))
    }
}

/// Each of these values as a constant.
#[tactic(auto, using(crate::proofs::Loops::behind_none, crate::proofs::Loops::behind_more))]
pub(crate) fn constants(
    alloc: Global,
    part: Part,
    numbers: &Numbers,
    values: &[Value],
) -> Result<Vec<Constant>, MachineFault>
    ensures ok { Gives result
        (λ v. v.items) (constants part (numbers_in numbers.now) (items_view values.now)) }
    ensures err { FailsBy result (constants part (numbers_in numbers.now) (items_view values.now)) }
{
    let mut read = Vec::new(alloc);
    for value in values {
        read.push(constant(part, numbers, value)?)?;
    }
    Ok(read)
}

/// Each of these values as a whole number.
#[tactic(auto, using(crate::proofs::Loops::behind_none, crate::proofs::Loops::behind_more))]
pub(crate) fn wholes(alloc: Global, part: Part, values: &[Value]) -> Result<Vec<i64>, MachineFault>
    ensures ok { Gives result (λ v. v.items) (wholes part (items_view values.now)) }
    ensures err { FailsBy result (wholes part (items_view values.now)) }
{
    let mut read = Vec::new(alloc);
    for value in values {
        let Some(number) = value.as_i64() else {
            return Err(MachineFault::Wrong(part, Why::Shape));
        };
        read.push(number)?;
    }
    Ok(read)
}
