//! The functions of the texts.
ghost use Rattle.std.specs.Prelude.{◌≡◌};
ghost use Rattle.tw_machine_declaration.specs.Functions.{function_of};

use tw_machine::language::Measure;

/// A function of the texts.
#[derive(Clone, Copy, Debug, PartialEq, Eq)]
pub enum Function {
    /// Of a queue alone.
    Measured(Measure),
    /// Of several arguments.
    Applied(Joining),
}

/// A function of several arguments.
#[derive(Clone, Copy, Debug, PartialEq, Eq)]
pub enum Joining {
    Least,
    Greatest,
    Choose,
    At,
    Place,
}

/// min, max, choose, length, room, front, last, sum, at, place.
const FUNCTIONS: [Function; 10] = [
    Function::Applied(Joining::Least),
    Function::Applied(Joining::Greatest),
    Function::Applied(Joining::Choose),
    Function::Measured(Measure::Length),
    Function::Measured(Measure::Room),
    Function::Measured(Measure::Front),
    Function::Measured(Measure::Last),
    Function::Measured(Measure::Sum),
    Function::Applied(Joining::At),
    Function::Applied(Joining::Place),
];

/// The function of this number.
pub fn function_of(number: usize) -> Function
    ensures { result ≡ function_of number }
{
    FUNCTIONS
        .get(number)
        .copied()
        .unwrap_or(Function::Applied(Joining::Least))
}
