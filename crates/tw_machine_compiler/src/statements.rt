//! Statements of texts in the machine's language.
ghost use Rattle.std.specs.Prelude.{◌≡◌, ◌≤◌, IfOk};
ghost use Rattle.tw_machine_text.specs.Limits.{max_turns};
ghost use Rattle.tw_machine_text.specs.Views.{tree, told, body, chain};
ghost use Rattle.tw_machine.specs.Seen.{seen, seen_target, seen_statement};
ghost use Rattle.tw_machine_compiler.specs.Statements.{
  cell_named,
  cell_indexed,
  cell,
  assigned,
  put,
  acted,
  treated,
  turns,
  statement,
  block,
  chosen,
};

use crate::expressions::{expression, queue};
use crate::making::{branch, repeated};
use std::alloc::{AllocError, Global};
use tw_machine::language::{Change, Expr, Position, Statement, Target, Which};
use tw_machine_declaration::{Standing, observation_span, queue_room, standing_at, written_turns};
use tw_machine_text::{
    Arms, Block, Deed, MAX_TURNS, Operator, SourceChange, SourceExpr, SourceStatement, Verb,
};

/// A register by its name.
fn cell_named(standing: Standing) -> Target
    ensures { seen_target result ≡ cell_named standing }
{
    match standing {
        Standing::Cell(place) => Target::Single(place),
        _ => Target::Single(u32::MAX),
    }
}

/// A cell of an array register, of an observation, or of the ticks at which timers are due.
fn cell_indexed(standing: Standing, index: Expr) -> Target
    ensures { seen_target result ≡ cell_indexed standing (seen index) }
{
    match standing {
        Standing::Cells(span) | Standing::Due(span) => Target::Indexed(span, index),
        Standing::Observation(first) => Target::Indexed(observation_span(first), index),
        _ => Target::Single(u32::MAX),
    }
}

/// The register that a statement changes.
fn cell(alloc: Global, standings: &[Standing], place: &SourceExpr) -> Result<Target, AllocError>
    ensures { IfOk result (λ target. seen_target target ≡ cell standings.now (tree place.now)) }
{
    match place {
        SourceExpr::Name(name) => Ok(cell_named(standing_at(standings, *name))),
        SourceExpr::Indexed(name, index) => {
            let index = expression(alloc, standings, index)?;
            Ok(cell_indexed(standing_at(standings, *name), index))
        }
        _ => Ok(Target::Single(u32::MAX)),
    }
}

/// A register is changed.
fn assigned(change: SourceChange, target: Target, by: Expr) -> Statement
    ensures { seen_statement result ≡ assigned change (seen_target target) (seen by) }
{
    match change {
        SourceChange::Set => Statement::Set(target, by),
        SourceChange::Add => Statement::Alter(Change::Add, target, by),
        SourceChange::Subtract => Statement::Alter(Change::Subtract, target, by),
        SourceChange::Xor => Statement::Alter(Change::Flip, target, by),
    }
}

/// A value comes to a place of a queue.
fn put(
    alloc: Global,
    standings: &[Standing],
    queue: Target,
    operands: &SourceExpr,
) -> Result<Statement, AllocError>
    ensures { IfOk result
        (λ s. seen_statement s ≡ put standings.now (seen_target queue) (tree operands.now)) }
{
    match operands {
        SourceExpr::Binary(Operator::Comma, place, value) => {
            let place = expression(alloc, standings, place)?;
            let value = expression(alloc, standings, value)?;
            Ok(Statement::Put(queue, Position::Given(place), value))
        }
        _ => Ok(Statement::Skip),
    }
}

/// Something is done to a queue. No `observe` stands in what is read.
fn acted(
    alloc: Global,
    standings: &[Standing],
    verb: Verb,
    queue: Target,
    operands: &SourceExpr,
) -> Result<Statement, AllocError>
    ensures { IfOk result
        (λ s. seen_statement s ≡ acted standings.now verb (seen_target queue) (tree operands.now)) }
{
    match verb {
        Verb::Push => {
            let value = expression(alloc, standings, operands)?;
            Ok(Statement::Put(queue, Position::End, value))
        }
        Verb::Insert => {
            let value = expression(alloc, standings, operands)?;
            Ok(Statement::Put(queue, Position::Sorted, value))
        }
        Verb::Remove => {
            let place = expression(alloc, standings, operands)?;
            Ok(Statement::Take(queue, Which::Chosen(place)))
        }
        Verb::Put => put(alloc, standings, queue, operands),
        Verb::Observe => Ok(Statement::Skip),
    }
}

/// Something is done to a queue alone, of which this is the room: a queue has no more values than its room.
fn treated(deed: Deed, queue: Target, room: u16) -> Statement
    ensures { seen_statement result ≡ treated deed (seen_target queue) room }
{
    match deed {
        Deed::Pop => Statement::Take(queue, Which::Foremost),
        Deed::Clear => Statement::Clear(queue, room),
        Deed::Do | Deed::Stop => Statement::Skip,
    }
}

/// How often a block is repeated.
pub(crate) fn turns(written: Option<i128>) -> u8
    ensures value { result ≡ turns written }
    ensures small { result ≤ max_turns }
{
    match written {
        Some(number) => number.max(0).min(MAX_TURNS as i128) as u8,
        None => 0,
    }
}

/// A statement in the machine's language.
#[cycle(statements)]
fn statement(
    alloc: Global,
    standings: &[Standing],
    said: &SourceStatement,
) -> Result<Statement, AllocError>
    ensures { IfOk result (λ s. seen_statement s ≡ statement standings.now (told said.now)) }
{
    match said {
        SourceStatement::Assign(place, change, by) => {
            let target = cell(alloc, standings, place)?;
            let by = expression(alloc, standings, by)?;
            Ok(assigned(*change, target, by))
        }
        SourceStatement::Act(verb, queued, operands) => {
            let queue = queue(alloc, standings, queued)?;
            acted(alloc, standings, *verb, queue, operands)
        }
        SourceStatement::Treat(deed, queued) => {
            let room = queue_room(standings, queued);
            let queue = queue(alloc, standings, queued)?;
            Ok(treated(*deed, queue, room as u16))
        }
        SourceStatement::Draw => Ok(Statement::Draw),
        SourceStatement::Wait(ticks) => Ok(Statement::Wait(expression(alloc, standings, ticks)?)),
        SourceStatement::Passivate => Ok(Statement::Passivate),
        SourceStatement::Start(..) | SourceStatement::Send(_) => Ok(Statement::Skip),
        SourceStatement::If(arms) => chosen(
            alloc,
            standings,
            arms,
            Box::new(alloc, Statement::Skip)?,
        ),
        SourceStatement::IfElse(arms, last) => {
            let last = block(alloc, standings, last)?;
            chosen(alloc, standings, arms, Box::new(alloc, last)?)
        }
        SourceStatement::Repeat(count, each) => {
            let each = block(alloc, standings, each)?;
            repeated(alloc, turns(written_turns(standings, count)), each)
        }
    }
}

/// A program in the machine's language. The only error is want of memory.
#[cycle(statements)]
pub(crate) fn block(
    alloc: Global,
    standings: &[Standing],
    program: &Block,
) -> Result<Statement, AllocError>
    ensures { IfOk result (λ s. seen_statement s ≡ block standings.now (body program.now)) }
{
    match program {
        Block::Empty => Ok(Statement::Skip),
        Block::Then(before, last, _) => {
            let before = Box::new(alloc, block(alloc, standings, before)?)?;
            let last = Box::new(alloc, statement(alloc, standings, last)?)?;
            Ok(Statement::Then(before, last))
        }
    }
}

/// The first arm whose test is not 0, or what is done where none is.
#[cycle(statements)]
fn chosen(
    alloc: Global,
    standings: &[Standing],
    arms: &Arms,
    last: Box<Statement>,
) -> Result<Statement, AllocError>
    ensures { IfOk result (λ s. seen_statement s
        ≡ chosen standings.now (chain arms.now) (seen_statement last.value)) }
{
    match arms {
        Arms::One(test, then) => {
            let test = expression(alloc, standings, test)?;
            let then = block(alloc, standings, then)?;
            branch(alloc, test, then, last)
        }
        Arms::More(before, test, then) => {
            let test = expression(alloc, standings, test)?;
            let then = block(alloc, standings, then)?;
            let rest = branch(alloc, test, then, last)?;
            chosen(alloc, standings, before, Box::new(alloc, rest)?)
        }
    }
}
