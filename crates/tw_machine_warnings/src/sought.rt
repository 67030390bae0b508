//! What is looked for in the texts of a machine.
ghost use Rattle.std.specs.Prelude.{◌≡◌, ◌==◌, ◌&&◌, ◌||◌};
ghost use Rattle.tw_machine_text.specs.Views.{tree, told, body, chain};
ghost use Rattle.tw_machine_warnings.specs.Sought.{
  in_arms,
  in_block,
  in_changed,
  in_statement,
  in_tree,
  is_below_zero,
  is_called,
  is_other_chance,
  is_outside,
  is_place_by_chance,
  is_place_outside,
  is_sought,
  is_sought_changed,
  is_name,
  is_random,
  is_value,
  is_left,
  is_some_from,
  is_some_less,
  is_some_other,
  is_some_positive,
  number_in,
};

use tw_machine_text::{Arms, Block, Builtin, Operator, SourceExpr, SourceStatement};

/// A name that a machine declares, by its numbers in the machine's texts.
#[derive(Clone, Copy, Debug, PartialEq, Eq)]
pub struct Called {
    pub number: usize,
    /// The number of the function of the same name; the name's own where there is none.
    pub function: usize,
}

/// What is looked for.
#[derive(Clone, Copy, Debug, PartialEq, Eq)]
pub enum Sought {
    /// A random number.
    Random,
    /// The word `value`.
    Value,
    /// The word `left`.
    Left,
    /// A name that is read.
    Named(Called),
    /// A name with an index that is none of so many places.
    Outside(Called, usize),
    /// A name with an index by chance that is not one of so many places.
    Chance(Called, usize),
}

/// A number, maybe in parentheses.
pub fn number_in(written: &SourceExpr) -> Option<u64>
    ensures { result ≡ number_in (tree written.now) }
{
    match written {
        SourceExpr::Number(number) => Some(*number),
        SourceExpr::Group(inner) => number_in(inner),
        _ => None,
    }
}

fn is_some_positive(number: Option<u64>) -> bool
    ensures { result ≡ is_some_positive number }
{
    match number {
        Some(number) => 1 <= number,
        None => false,
    }
}

fn is_some_less(a: Option<u64>, b: Option<u64>) -> bool
    ensures { result ≡ is_some_less a b }
{
    match a {
        Some(a) => match b {
            Some(b) => a < b,
            None => false,
        },
        None => false,
    }
}

/// Whether it is a number below zero: one with a sign, or a difference of two numbers.
pub(crate) fn is_below_zero(written: &SourceExpr) -> bool
    ensures { result ≡ is_below_zero (tree written.now) }
{
    match written {
        SourceExpr::Group(inner) => is_below_zero(inner),
        SourceExpr::Negate(inner) => is_some_positive(number_in(inner)),
        SourceExpr::Binary(Operator::Minus, a, b) => is_some_less(number_in(a), number_in(b)),
        _ => false,
    }
}

fn is_some_from(many: usize, number: Option<u64>) -> bool
    ensures { result ≡ is_some_from many number }
{
    match number {
        Some(number) => many as u64 <= number,
        None => false,
    }
}

/// Whether it is a number, and no place among so many.
pub(crate) fn is_outside(many: usize, index: &SourceExpr) -> bool
    ensures { result ≡ is_outside many (tree index.now) }
{
    is_below_zero(index) || is_some_from(many, number_in(index))
}

fn is_some_other(many: usize, number: Option<u64>) -> bool
    ensures { result ≡ is_some_other many number }
{
    match number {
        Some(number) => number != many as u64,
        None => false,
    }
}

/// Whether it is a random number below another number than this.
fn is_other_chance(many: usize, index: &SourceExpr) -> bool
    ensures { result ≡ is_other_chance many (tree index.now) }
{
    match index {
        SourceExpr::RandomBelow(below) => is_some_other(many, number_in(below)),
        _ => false,
    }
}

/// Whether a name has this number.
pub(crate) fn is_called(called: Called, name: usize) -> bool
    ensures { result ≡ is_called called name }
{
    name == called.number || name == called.function
}

fn is_random(written: &SourceExpr) -> bool
    ensures { result ≡ is_random (tree written.now) }
{
    matches!(
        written,
        SourceExpr::Known(Builtin::Random) | SourceExpr::RandomBelow(_)
    )
}

fn is_value(written: &SourceExpr) -> bool
    ensures { result ≡ is_value (tree written.now) }
{
    matches!(written, SourceExpr::Known(Builtin::Value))
}

fn is_left(written: &SourceExpr) -> bool
    ensures { result ≡ is_left (tree written.now) }
{
    matches!(written, SourceExpr::Known(Builtin::Left))
}

fn is_name(called: Called, written: &SourceExpr) -> bool
    ensures { result ≡ is_name called (tree written.now) }
{
    match written {
        SourceExpr::Name(name) | SourceExpr::Indexed(name, _) => is_called(called, *name),
        _ => false,
    }
}

fn is_place_outside(called: Called, many: usize, written: &SourceExpr) -> bool
    ensures { result ≡ is_place_outside called many (tree written.now) }
{
    match written {
        SourceExpr::Indexed(name, index) => is_called(called, *name) && is_outside(many, index),
        _ => false,
    }
}

fn is_place_by_chance(called: Called, many: usize, written: &SourceExpr) -> bool
    ensures { result ≡ is_place_by_chance called many (tree written.now) }
{
    match written {
        SourceExpr::Indexed(name, index) => {
            is_called(called, *name) && is_other_chance(many, index)
        }
        _ => false,
    }
}

/// Whether an expression is it, apart from those that it is made of.
fn is_sought(sought: Sought, written: &SourceExpr) -> bool
    ensures { result ≡ is_sought sought (tree written.now) }
{
    match sought {
        Sought::Random => is_random(written),
        Sought::Value => is_value(written),
        Sought::Left => is_left(written),
        Sought::Named(called) => is_name(called, written),
        Sought::Outside(called, many) => is_place_outside(called, many, written),
        Sought::Chance(called, many) => is_place_by_chance(called, many, written),
    }
}

/// Whether it stands in an expression.
pub(crate) fn in_tree(sought: Sought, written: &SourceExpr) -> bool
    ensures { result ≡ in_tree sought (tree written.now) }
{
    match written {
        SourceExpr::Number(_) => false,
        SourceExpr::Name(_) | SourceExpr::Known(_) => is_sought(sought, written),
        SourceExpr::Indexed(_, below) | SourceExpr::RandomBelow(below) => {
            is_sought(sought, written) || in_tree(sought, below)
        }
        SourceExpr::Call(_, below)
        | SourceExpr::Group(below)
        | SourceExpr::Negate(below)
        | SourceExpr::Not(below) => in_tree(sought, below),
        SourceExpr::Binary(_, a, b) => in_tree(sought, a) || in_tree(sought, b),
    }
}

fn is_sought_changed(sought: Sought, place: &SourceExpr) -> bool
    ensures { result ≡ is_sought_changed sought (tree place.now) }
{
    match sought {
        Sought::Named(_) => false,
        _ => is_sought(sought, place),
    }
}

/// Whether it stands in what is changed, a register or a queue, which is not read by that.
fn in_changed(sought: Sought, place: &SourceExpr) -> bool
    ensures { result ≡ in_changed sought (tree place.now) }
{
    match place {
        SourceExpr::Indexed(_, index) => is_sought_changed(sought, place) || in_tree(sought, index),
        _ => false,
    }
}

/// Whether it stands in a statement.
#[cycle(seeks)]
fn in_statement(sought: Sought, said: &SourceStatement) -> bool
    ensures { result ≡ in_statement sought (told said.now) }
{
    match said {
        SourceStatement::Draw | SourceStatement::Passivate => false,
        SourceStatement::Assign(place, _, by) => in_changed(sought, place) || in_tree(sought, by),
        SourceStatement::Act(_, queue, operands) => {
            in_changed(sought, queue) || in_tree(sought, operands)
        }
        SourceStatement::Treat(_, queue) => in_changed(sought, queue),
        SourceStatement::Wait(ticks) => in_tree(sought, ticks),
        SourceStatement::Start(timer, ticks) => {
            in_changed(sought, timer) || in_tree(sought, ticks)
        }
        SourceStatement::Send(operands) => in_tree(sought, operands),
        SourceStatement::If(arms) => in_arms(sought, arms),
        SourceStatement::IfElse(arms, last) => in_arms(sought, arms) || in_block(sought, last),
        SourceStatement::Repeat(count, each) => in_tree(sought, count) || in_block(sought, each),
    }
}

/// Whether it stands in a program.
#[cycle(seeks)]
pub(crate) fn in_block(sought: Sought, program: &Block) -> bool
    ensures { result ≡ in_block sought (body program.now) }
{
    match program {
        Block::Empty => false,
        Block::Then(before, last, _) => in_block(sought, before) || in_statement(sought, last),
    }
}

/// Whether it stands in the arms of an `if`.
#[cycle(seeks)]
fn in_arms(sought: Sought, arms: &Arms) -> bool
    ensures { result ≡ in_arms sought (chain arms.now) }
{
    match arms {
        Arms::One(test, then) => in_tree(sought, test) || in_block(sought, then),
        Arms::More(before, test, then) => {
            in_arms(sought, before) || (in_tree(sought, test) || in_block(sought, then))
        }
    }
}
