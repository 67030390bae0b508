//! Expressions of texts in the machine's language.
ghost use Rattle.std.specs.Prelude.{◌≡◌, IfOk};
ghost use Rattle.tw_machine_text.specs.Views.{tree};
ghost use Rattle.tw_machine.specs.Seen.{seen, seen_target, one, two, choose};
ghost use Rattle.tw_machine_compiler.specs.Expressions.{
  known,
  number,
  named,
  indexed,
  queue_named,
  queue_indexed,
  operation,
  measured,
  at,
  place,
  expression,
  applied,
  choice,
  queue,
};

use crate::making::{choose, one, two, zero};
use std::alloc::{AllocError, Global};
use tw_machine::language::{Binary, Expr, Leaf, Measure, Target, Unary};
use tw_machine_declaration::{Function, Joining, Standing, function_of, standing_at};
use tw_machine_text::{Builtin, Operator, SourceExpr};

/// What a word of the language reads. No `which` stands in what is read.
fn known(builtin: Builtin) -> Leaf
    ensures { result ≡ known builtin }
{
    match builtin {
        Builtin::Random => Leaf::Random,
        Builtin::Port => Leaf::Port,
        Builtin::Value => Leaf::Value,
        Builtin::Elapsed => Leaf::Elapsed,
        Builtin::Left => Leaf::Left,
        Builtin::Now => Leaf::Now,
        Builtin::Turn => Leaf::Turn,
        Builtin::Which => Leaf::Number(0),
    }
}

/// A number of a text.
pub(crate) fn number(digits: u64) -> i64
    ensures { result ≡ number digits }
{
    digits.min(9223372036854775807) as i64
}

/// A name in an expression; that of a table is how many numbers it has.
fn named(standing: Standing) -> Expr
    ensures { seen result ≡ named standing }
{
    match standing {
        Standing::Number(number) => Expr::Plain(Leaf::Number(number)),
        Standing::Cell(place) => Expr::Plain(Leaf::Register(place)),
        Standing::Table(span) => Expr::Plain(Leaf::Number(span.count as i64)),
        _ => zero(),
    }
}

/// A name with its index.
fn indexed(alloc: Global, standing: Standing, index: Expr) -> Result<Expr, AllocError>
    ensures { IfOk result (λ e. seen e ≡ indexed standing (seen index)) }
{
    match standing {
        Standing::Cells(span) | Standing::Due(span) => one(alloc, Unary::Cell(span), index),
        Standing::Table(span) => one(alloc, Unary::Table(span), index),
        _ => Ok(zero()),
    }
}

/// An operator between two operands.
fn operation(alloc: Global, operator: Operator, a: Expr, b: Expr) -> Result<Expr, AllocError>
    ensures { IfOk result (λ e. seen e ≡ operation operator (seen a) (seen b)) }
{
    let binary = match operator {
        Operator::Comma | Operator::Colon => {
            return Ok(zero());
        }
        Operator::Or => Binary::Either,
        Operator::And => Binary::Both,
        Operator::Equal => Binary::Equal,
        Operator::NotEqual => Binary::Unequal,
        Operator::Less => Binary::Less,
        Operator::LessEqual => Binary::AtMost,
        Operator::Greater => Binary::Greater,
        Operator::GreaterEqual => Binary::AtLeast,
        Operator::Plus => Binary::Plus,
        Operator::Minus => Binary::Minus,
        Operator::Times => Binary::Times,
        Operator::Divide => Binary::Over,
        Operator::Modulo => Binary::Rest,
    };
    two(alloc, binary, a, b)
}

/// A queue by its name.
fn queue_named(standing: Standing) -> Target
    ensures { seen_target result ≡ queue_named standing }
{
    match standing {
        Standing::Queue(place, _) => Target::Single(place),
        _ => Target::Single(u32::MAX),
    }
}

/// A queue of an array.
fn queue_indexed(standing: Standing, index: Expr) -> Target
    ensures { seen_target result ≡ queue_indexed standing (seen index) }
{
    match standing {
        Standing::Queues(span, _) => Target::Indexed(span, index),
        _ => Target::Single(u32::MAX),
    }
}

/// What is read of a queue.
fn measured(alloc: Global, measure: Measure, queue: Target) -> Result<Expr, AllocError>
    ensures { IfOk result (λ e. seen e ≡ measured measure (seen_target queue)) }
{
    match queue {
        Target::Single(place) => Ok(Expr::Plain(Leaf::Queue(measure, place))),
        Target::Indexed(span, index) => one(alloc, Unary::QueueAmong(measure, span), index),
    }
}

/// The value at a place of a queue.
fn at(alloc: Global, queue: Target, place: Expr) -> Result<Expr, AllocError>
    ensures { IfOk result (λ e. seen e ≡ at (seen_target queue) (seen place)) }
{
    match queue {
        Target::Single(queue) => one(alloc, Unary::At(queue), place),
        Target::Indexed(span, index) => two(alloc, Binary::AtAmong(span), index, place),
    }
}

/// How many values at the front of a queue are not greater.
fn place(alloc: Global, queue: Target, value: Expr) -> Result<Expr, AllocError>
    ensures { IfOk result (λ e. seen e ≡ place (seen_target queue) (seen value)) }
{
    match queue {
        Target::Single(queue) => one(alloc, Unary::Place(queue), value),
        Target::Indexed(span, index) => two(alloc, Binary::PlaceAmong(span), index, value),
    }
}

/// An expression in the machine's language. The only error is want of memory.
#[cycle(expressions)]
pub(crate) fn expression(
    alloc: Global,
    standings: &[Standing],
    written: &SourceExpr,
) -> Result<Expr, AllocError>
    ensures { IfOk result (λ e. seen e ≡ expression standings.now (tree written.now)) }
{
    match written {
        SourceExpr::Number(digits) => Ok(Expr::Plain(Leaf::Number(number(*digits)))),
        SourceExpr::Name(name) => Ok(named(standing_at(standings, *name))),
        SourceExpr::Known(builtin) => Ok(Expr::Plain(known(*builtin))),
        SourceExpr::Indexed(name, index) => {
            let index = expression(alloc, standings, index)?;
            indexed(alloc, standing_at(standings, *name), index)
        }
        SourceExpr::Call(name, arguments) => match function_of(*name) {
            Function::Measured(measure) => {
                let queue = queue(alloc, standings, arguments)?;
                measured(alloc, measure, queue)
            }
            Function::Applied(joining) => applied(alloc, standings, joining, arguments),
        },
        SourceExpr::RandomBelow(below) => {
            let below = expression(alloc, standings, below)?;
            one(alloc, Unary::RandomBelow, below)
        }
        SourceExpr::Group(inner) => expression(alloc, standings, inner),
        SourceExpr::Negate(inner) => {
            let inner = expression(alloc, standings, inner)?;
            one(alloc, Unary::Negative, inner)
        }
        SourceExpr::Not(inner) => {
            let inner = expression(alloc, standings, inner)?;
            one(alloc, Unary::Not, inner)
        }
        SourceExpr::Binary(operator, a, b) => {
            let a = expression(alloc, standings, a)?;
            let b = expression(alloc, standings, b)?;
            operation(alloc, *operator, a, b)
        }
    }
}

/// A function of arguments that commas part.
#[cycle(expressions)]
fn applied(
    alloc: Global,
    standings: &[Standing],
    joining: Joining,
    arguments: &SourceExpr,
) -> Result<Expr, AllocError>
    ensures { IfOk result (λ e. seen e ≡ applied standings.now joining (tree arguments.now)) }
{
    let SourceExpr::Binary(Operator::Comma, first, last) = arguments else {
        return Ok(zero());
    };
    match joining {
        Joining::Least => {
            let a = expression(alloc, standings, first)?;
            let b = expression(alloc, standings, last)?;
            two(alloc, Binary::Least, a, b)
        }
        Joining::Greatest => {
            let a = expression(alloc, standings, first)?;
            let b = expression(alloc, standings, last)?;
            two(alloc, Binary::Greatest, a, b)
        }
        Joining::Choose => {
            let b = expression(alloc, standings, last)?;
            choice(alloc, standings, first, b)
        }
        Joining::At => {
            let queue = queue(alloc, standings, first)?;
            let index = expression(alloc, standings, last)?;
            at(alloc, queue, index)
        }
        Joining::Place => {
            let queue = queue(alloc, standings, first)?;
            let value = expression(alloc, standings, last)?;
            place(alloc, queue, value)
        }
    }
}

/// `choose` of a test and a first value, where the second is this.
#[cycle(expressions)]
fn choice(
    alloc: Global,
    standings: &[Standing],
    arguments: &SourceExpr,
    b: Expr,
) -> Result<Expr, AllocError>
    ensures { IfOk result (λ e. seen e ≡ choice standings.now (tree arguments.now) (seen b)) }
{
    match arguments {
        SourceExpr::Binary(Operator::Comma, test, a) => {
            let test = expression(alloc, standings, test)?;
            let a = expression(alloc, standings, a)?;
            choose(alloc, test, a, b)
        }
        _ => Ok(zero()),
    }
}

/// A queue in the machine's language.
#[cycle(expressions)]
pub(crate) fn queue(
    alloc: Global,
    standings: &[Standing],
    written: &SourceExpr,
) -> Result<Target, AllocError>
    ensures { IfOk result (λ target. seen_target target ≡ queue standings.now (tree written.now)) }
{
    match written {
        SourceExpr::Name(name) => Ok(queue_named(standing_at(standings, *name))),
        SourceExpr::Indexed(name, index) => {
            let index = expression(alloc, standings, index)?;
            Ok(queue_indexed(standing_at(standings, *name), index))
        }
        _ => Ok(Target::Single(u32::MAX)),
    }
}
