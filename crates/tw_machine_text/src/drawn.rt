//! Numbers that are drawn by themselves, `sample(t)` and `roll(n)`: how many stand where, and what they are in the core
//! of the language; and `length(t)` of a table and fields of values there.
ghost use Rattle.std.specs.Prelude.{◌≡◌, ◌≤◌, IfOk, min};
ghost use Rattle.tw_machine_text.specs.Drawn.{
  sampled,
  called,
  put_at,
  packed,
  core_call,
  core_tree,
  is_drawing,
  drawn,
  draws_none,
  draws_few,
  few_drawn_statement,
  few_drawn,
  few_drawn_arms,
  draws,
  draws_in,
  draws_last,
};
ghost use Rattle.tw_machine_text.specs.Tree.{Group};
ghost use Rattle.tw_machine_text.specs.Views.{tree, told, body, chain};

use crate::binding::is_table_name;
use crate::desugaring::copied;
use crate::dictionary::ITEM;
use crate::kinds::{Field, Meaning, field_of};
use crate::timers::binary;
use crate::tree::{Arms, Block, SourceExpr, SourceStatement};
use crate::words::Operator;
use std::alloc::{AllocError, Global};

/// A number of a table that is drawn.
fn sampled(alloc: Global, table: SourceExpr) -> Result<SourceExpr, AllocError>
    ensures { IfOk result (λ e. tree e ≡ sampled (tree table)) }
{
    match table {
        SourceExpr::Name(name) => {
            let length = Box::new(alloc, SourceExpr::Name(name))?;
            let index = Box::new(alloc, SourceExpr::RandomBelow(length))?;
            Ok(SourceExpr::Indexed(name, index))
        }
        other => Ok(other),
    }
}

/// An expression in parentheses.
fn group(alloc: Global, e: SourceExpr) -> Result<SourceExpr, AllocError>
    ensures { IfOk result (λ g. tree g ≡ Group (tree e)) }
{
    Ok(SourceExpr::Group(Box::new(alloc, e)?))
}

/// The field of a value, or else a function of arguments.
fn called(
    alloc: Global,
    field: Option<Field>,
    name: usize,
    arguments: SourceExpr,
) -> Result<SourceExpr, AllocError>
    ensures { IfOk result (λ e. tree e ≡ called field name (tree arguments)) }
{
    let Some(field) = field else {
        return Ok(SourceExpr::Call(name, Box::new(alloc, arguments)?));
    };
    let value = group(alloc, arguments)?;
    let higher = binary(
        alloc,
        Operator::Divide,
        value,
        SourceExpr::Number(field.unit),
    )?;
    let part = binary(
        alloc,
        Operator::Modulo,
        higher,
        SourceExpr::Number(field.size),
    )?;
    group(alloc, part)
}

/// A number in its field's place.
fn put_at(alloc: Global, field: Option<Field>, number: SourceExpr) -> Result<SourceExpr, AllocError>
    ensures { IfOk result (λ e. tree e ≡ put_at field (tree number)) }
{
    let Some(field) = field else {
        return Ok(number);
    };
    let number = group(alloc, number)?;
    let cut = binary(
        alloc,
        Operator::Modulo,
        number,
        SourceExpr::Number(field.size),
    )?;
    binary(alloc, Operator::Times, cut, SourceExpr::Number(field.unit))
}

/// The sum of fields with their numbers.
fn packed(alloc: Global, kinds: &[Meaning], e: &SourceExpr) -> Result<SourceExpr, AllocError>
    ensures { IfOk result (λ sum. tree sum ≡ packed kinds.now (tree e.now)) }
{
    match e {
        SourceExpr::Binary(Operator::Colon, named, number) => match &**named {
            SourceExpr::Name(name) => {
                put_at(alloc, field_of(kinds, *name), copied(alloc, number)?)
            }
            SourceExpr::Binary(Operator::Comma, before, last) => match &**last {
                SourceExpr::Name(name) => {
                    let before = packed(alloc, kinds, before)?;
                    let number = put_at(alloc, field_of(kinds, *name), copied(alloc, number)?)?;
                    binary(alloc, Operator::Plus, before, number)
                }
                _ => copied(alloc, e),
            },
            _ => copied(alloc, e),
        },
        _ => copied(alloc, e),
    }
}

/// A function of arguments in the core.
fn core_call(
    alloc: Global,
    kinds: &[Meaning],
    name: usize,
    arguments: SourceExpr,
) -> Result<SourceExpr, AllocError>
    ensures { IfOk result (λ e. tree e ≡ core_call kinds.now name (tree arguments)) }
{
    if name == 10 {
        sampled(alloc, arguments)
    } else if name == 11 {
        Ok(SourceExpr::RandomBelow(Box::new(alloc, arguments)?))
    } else if name == 3 && is_table_name(kinds, &arguments) {
        Ok(arguments)
    } else if name == ITEM {
        group(alloc, packed(alloc, kinds, &arguments)?)
    } else {
        called(alloc, field_of(kinds, name), name, arguments)
    }
}

/// An expression in the core of the language.
pub(crate) fn core_tree(
    alloc: Global,
    kinds: &[Meaning],
    e: &SourceExpr,
) -> Result<SourceExpr, AllocError>
    ensures { IfOk result (λ core. tree core ≡ core_tree kinds.now (tree e.now)) }
{
    match e {
        SourceExpr::Number(number) => Ok(SourceExpr::Number(*number)),
        SourceExpr::Name(name) => Ok(SourceExpr::Name(*name)),
        SourceExpr::Known(builtin) => Ok(SourceExpr::Known(*builtin)),
        SourceExpr::Indexed(name, index) => Ok(SourceExpr::Indexed(
            *name,
            Box::new(alloc, core_tree(alloc, kinds, index)?)?,
        )),
        SourceExpr::Call(name, arguments) => {
            let arguments = core_tree(alloc, kinds, arguments)?;
            core_call(alloc, kinds, *name, arguments)
        }
        SourceExpr::RandomBelow(below) => Ok(SourceExpr::RandomBelow(Box::new(
            alloc,
            core_tree(alloc, kinds, below)?,
        )?)),
        SourceExpr::Group(inner) => Ok(SourceExpr::Group(Box::new(
            alloc,
            core_tree(alloc, kinds, inner)?,
        )?)),
        SourceExpr::Negate(inner) => Ok(SourceExpr::Negate(Box::new(
            alloc,
            core_tree(alloc, kinds, inner)?,
        )?)),
        SourceExpr::Not(inner) => Ok(SourceExpr::Not(Box::new(
            alloc,
            core_tree(alloc, kinds, inner)?,
        )?)),
        SourceExpr::Binary(operator, a, b) => {
            let a = Box::new(alloc, core_tree(alloc, kinds, a)?)?;
            let b = Box::new(alloc, core_tree(alloc, kinds, b)?)?;
            Ok(SourceExpr::Binary(*operator, a, b))
        }
    }
}

/// Whether a function draws.
fn is_drawing(name: usize) -> bool
    ensures { result ≡ is_drawing name }
{
    name >= 10 && name <= 11
}

/// How many numbers an expression draws, at most 2.
fn drawn(e: &SourceExpr) -> usize
    ensures value { result ≡ min (drawn (tree e.now)) 2 }
    ensures small { result ≤ 2 }
{
    match e {
        SourceExpr::Number(_) | SourceExpr::Name(_) | SourceExpr::Known(_) => 0,
        SourceExpr::Call(name, arguments) => {
            let here = if is_drawing(*name) { 1 } else { 0 };
            (here + drawn(arguments)).min(2)
        }
        SourceExpr::Indexed(_, inner)
        | SourceExpr::RandomBelow(inner)
        | SourceExpr::Group(inner)
        | SourceExpr::Negate(inner)
        | SourceExpr::Not(inner) => drawn(inner),
        SourceExpr::Binary(_, a, b) => (drawn(a) + drawn(b)).min(2),
    }
}

pub(crate) fn draws_none(e: &SourceExpr) -> bool
    ensures { result ≡ draws_none (tree e.now) }
{
    drawn(e) == 0
}

fn draws_few(e: &SourceExpr) -> bool
    ensures { result ≡ draws_few (tree e.now) }
{
    drawn(e) <= 1
}

/// Whether a number is drawn in an expression.
pub(crate) fn draws(e: &SourceExpr) -> bool
    ensures { result ≡ draws (tree e.now) }
{
    drawn(e) >= 1
}

/// Whether one is drawn in a statement, but for its blocks and tests.
pub(crate) fn draws_in(said: &SourceStatement) -> bool
    ensures { result ≡ draws_in (told said.now) }
{
    match said {
        SourceStatement::Assign(_, _, e)
        | SourceStatement::Act(_, _, e)
        | SourceStatement::Wait(e)
        | SourceStatement::Start(_, e)
        | SourceStatement::Send(e) => draws(e),
        _ => false,
    }
}

/// Whether one is drawn in the last of the tests of an `if`.
pub(crate) fn draws_last(arms: &Arms) -> bool
    ensures { result ≡ draws_last (chain arms.now) }
{
    match arms {
        Arms::One(test, _) | Arms::More(_, test, _) => draws(test),
    }
}

#[cycle(counts_drawn)]
fn few_drawn_statement(said: &SourceStatement) -> bool
    ensures { result ≡ few_drawn_statement (told said.now) }
{
    match said {
        SourceStatement::Draw | SourceStatement::Passivate => true,
        SourceStatement::Assign(place, _, e) => draws_none(place) && draws_few(e),
        SourceStatement::Act(_, object, e) => draws_none(object) && draws_few(e),
        SourceStatement::Treat(_, queue) => draws_none(queue),
        SourceStatement::Wait(e) | SourceStatement::Send(e) => draws_few(e),
        SourceStatement::Start(timer, e) => draws_none(timer) && draws_few(e),
        SourceStatement::If(arms) => few_drawn_arms(arms),
        SourceStatement::IfElse(arms, last) => few_drawn_arms(arms) && few_drawn(last),
        SourceStatement::Repeat(_, each) => few_drawn(each),
    }
}

/// Whether no more numbers are drawn than may be, in all statements of a block.
#[cycle(counts_drawn)]
pub(crate) fn few_drawn(program: &Block) -> bool
    ensures { result ≡ few_drawn (body program.now) }
{
    match program {
        Block::Empty => true,
        Block::Then(before, last, _) => few_drawn(before) && few_drawn_statement(last),
    }
}

#[cycle(counts_drawn)]
fn few_drawn_arms(arms: &Arms) -> bool
    ensures { result ≡ few_drawn_arms (chain arms.now) }
{
    match arms {
        Arms::One(test, then) => draws_few(test) && few_drawn(then),
        Arms::More(before, test, then) => {
            few_drawn_arms(before) && draws_few(test) && few_drawn(then)
        }
    }
}
