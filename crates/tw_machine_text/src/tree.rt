//! A program as a tree, as it is written: parentheses and semicolons are parts of it.
ghost use Rattle.std.specs.Prelude.{◌≡◌, ◌==◌, nat_eq};
ghost use Rattle.tw_machine_text.specs.Tree.{level, count, first_level, arity, takes_numbers, first_demand, fits_call, is_count};
ghost use Rattle.tw_machine_text.specs.Views.{tree};

use crate::dictionary::{ITEM, OWN_NAMES};
use crate::words::{Builtin, Deed, Operator, SourceChange, Verb};

/// An expression. A place and a queue are one too: a name, with or without an index.
#[derive(Drop)]
pub enum SourceExpr {
    Number(u64),
    Name(usize),
    Known(Builtin),
    Indexed(usize, Box<SourceExpr>),
    /// A function of this number, and its arguments: one expression, or several joined by commas.
    Call(usize, Box<SourceExpr>),
    /// `random(n)`
    RandomBelow(Box<SourceExpr>),
    Group(Box<SourceExpr>),
    Negate(Box<SourceExpr>),
    Not(Box<SourceExpr>),
    Binary(Operator, Box<SourceExpr>, Box<SourceExpr>),
}

/// A statement.
#[derive(Drop)]
#[cycle(program)]
pub enum SourceStatement {
    /// A place, how it is changed, and by what.
    Assign(SourceExpr, SourceChange, SourceExpr),
    /// What is done to a queue, or counted of an observation; `put` has a place, a comma and a value.
    Act(Verb, SourceExpr, SourceExpr),
    /// What is done to a queue, a procedure or a timer alone.
    Treat(Deed, SourceExpr),
    Draw,
    Wait(SourceExpr),
    Passivate,
    /// A timer, and in how many ticks it is due. It stands in what is written alone.
    Start(SourceExpr, SourceExpr),
    /// A port, a comma and a value. It stands in what is written alone.
    Send(SourceExpr),
    If(Box<Arms>),
    IfElse(Box<Arms>, Box<Block>),
    Repeat(SourceExpr, Box<Block>),
}

/// Statements in order.
#[derive(Drop)]
#[cycle(program)]
pub enum Block {
    Empty,
    /// A statement behind others, and whether a semicolon follows it.
    Then(Box<Block>, Box<SourceStatement>, bool),
}

/// The arms of an `if`.
#[derive(Drop)]
#[cycle(program)]
pub enum Arms {
    One(SourceExpr, Box<Block>),
    More(Box<Arms>, SourceExpr, Box<Block>),
}

impl SourceExpr {
    /// How tightly it is bound.
    pub fn level(&self) -> usize
        ensures { result ≡ level (tree self.now) }
    {
        match self {
            SourceExpr::Name(_) | SourceExpr::Indexed(..) => 9,
            SourceExpr::Number(_)
            | SourceExpr::Known(_)
            | SourceExpr::Call(..)
            | SourceExpr::RandomBelow(_)
            | SourceExpr::Group(_) => 8,
            SourceExpr::Negate(_) => 7,
            SourceExpr::Not(_) => 3,
            SourceExpr::Binary(operator, _, _) => operator.rank(),
        }
    }

    /// Whether it is so many, parted by commas.
    pub fn is_many(&self, many: usize) -> bool
        ensures { result ≡ nat_eq (count (tree self.now)) many }
    {
        match self {
            SourceExpr::Binary(Operator::Comma, before, _) => many > 0 && before.is_many(many - 1),
            _ => many == 1,
        }
    }

    /// How tightly the first of them is bound.
    fn first_level(&self) -> usize
        ensures { result ≡ first_level (tree self.now) }
    {
        match self {
            SourceExpr::Binary(Operator::Comma, before, _) => before.first_level(),
            _ => self.level(),
        }
    }

    /// Whether they are arguments of the function of this number.
    pub fn fits_call(&self, name: usize) -> bool
        ensures { result ≡ fits_call name (tree self.now) }
    {
        self.is_many(arity(name)) && first_demand(name) <= self.first_level()
    }

    /// Whether it may say how many turns are made.
    pub fn is_count(&self) -> bool
        ensures { result ≡ is_count (tree self.now) }
    {
        matches!(self, SourceExpr::Number(_) | SourceExpr::Name(_))
    }
}

/// How many arguments the functions take: min, max, choose, length, room, front, last, sum, at, place, sample, roll,
/// running, rest, idle; `in` is none; item, whose fields with their numbers are one.
const ARITIES: [usize; OWN_NAMES] = [2, 2, 3, 1, 1, 1, 1, 1, 2, 2, 1, 1, 1, 1, 1, 0, 1];

/// Whether all arguments of a function are numbers: of the first three, of `roll`, and of a field. Of the others the first
/// is a queue, a table, a timer or a field.
pub(crate) fn takes_numbers(name: usize) -> bool
    ensures { result ≡ takes_numbers name }
{
    name < 3 || name == 11 || name >= OWN_NAMES
}

/// How tightly the first argument of a function has to be bound.
fn first_demand(name: usize) -> usize
    ensures { result ≡ first_demand name }
{
    if takes_numbers(name) {
        1
    } else if name == ITEM {
        0
    } else {
        9
    }
}

/// How many arguments a function takes, or a field.
pub(crate) fn arity(name: usize) -> usize
    ensures { result ≡ arity name }
{
    if name < OWN_NAMES { ARITIES[name] } else { 1 }
}
