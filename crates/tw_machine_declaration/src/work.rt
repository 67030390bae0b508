//! How many computations a run makes at the most. Counts end at 262,145, one past what is allowed.
ghost use Rattle.std.specs.Prelude.{◌≡◌, ◌≤◌, ◌*◌, min};
ghost use Rattle.tw_machine.specs.Limits.{computations_end};
ghost use Rattle.tw_machine_text.specs.Limits.{max_turns};
ghost use Rattle.tw_machine_text.specs.Views.{tree, told, body, chain};
ghost use Rattle.tw_machine_declaration.specs.Work.{
  room_at,
  queue_room,
  gone_over,
  work,
  moved,
  left,
  counted_turns,
  statement_work,
  block_work,
  tests_work,
  greatest_work,
};

use crate::functions::{Function, Joining, function_of};
use crate::names::{Standing, standing_at};
use crate::turns::written_turns;
use tw_machine::language::Measure;
use tw_machine::limits::COMPUTATIONS_END;
use tw_machine_text::{Arms, Block, Deed, MAX_TURNS, Operator, SourceExpr, SourceStatement, Verb};

/// The room of a queue, or of each of an array.
pub(crate) fn room_at(standing: Standing) -> usize
    ensures value { result ≡ room_at standing }
    ensures small { result ≤ 65535 }
{
    match standing {
        Standing::Queue(_, room) => room as usize,
        Standing::Queues(_, room) => room as usize,
        _ => 0,
    }
}

/// The room of the queue that stands first.
pub fn queue_room(standings: &[Standing], written: &SourceExpr) -> usize
    ensures value { result ≡ queue_room standings.now (tree written.now) }
    ensures small { result ≤ 65535 }
{
    match written {
        SourceExpr::Name(name) => room_at(standing_at(standings, *name)),
        SourceExpr::Indexed(name, _) => room_at(standing_at(standings, *name)),
        SourceExpr::Binary(Operator::Comma, queue, _) => queue_room(standings, queue),
        _ => 0,
    }
}

/// How many values of its queue a function goes over.
fn gone_over(function: Function, room: usize) -> usize
    ensures value { result ≡ gone_over function room }
    ensures small { result ≤ room }
{
    match function {
        Function::Measured(Measure::Sum) => room,
        Function::Applied(Joining::Place) => room,
        _ => 0,
    }
}

/// The computations of an expression, at most 262,145.
pub fn work(standings: &[Standing], written: &SourceExpr) -> usize
    ensures value { result ≡ min (work standings.now (tree written.now)) computations_end }
    ensures small { result ≤ computations_end }
{
    match written {
        SourceExpr::Number(_) | SourceExpr::Name(_) | SourceExpr::Known(_) => 1,
        SourceExpr::Indexed(_, below)
        | SourceExpr::RandomBelow(below)
        | SourceExpr::Negate(below)
        | SourceExpr::Not(below) => (1 + work(standings, below)).min(COMPUTATIONS_END),
        SourceExpr::Call(name, arguments) => {
            let over = gone_over(function_of(*name), queue_room(standings, arguments));
            (1 + (work(standings, arguments) + over)).min(COMPUTATIONS_END)
        }
        SourceExpr::Group(inner) => work(standings, inner),
        SourceExpr::Binary(Operator::Comma, a, b) => {
            (work(standings, a) + work(standings, b)).min(COMPUTATIONS_END)
        }
        SourceExpr::Binary(_, a, b) => {
            (1 + (work(standings, a) + work(standings, b))).min(COMPUTATIONS_END)
        }
    }
}

/// How many values of its queue a statement may move.
fn moved(verb: Verb, room: usize) -> usize
    ensures value { result ≡ moved verb room }
    ensures small { result ≤ room }
{
    match verb {
        Verb::Push | Verb::Observe => 0,
        Verb::Insert | Verb::Remove | Verb::Put => room,
    }
}

/// How many values of its queue a statement on a queue alone goes over.
fn left(deed: Deed, room: usize) -> usize
    ensures value { result ≡ left deed room }
    ensures small { result ≤ room }
{
    match deed {
        Deed::Pop | Deed::Do | Deed::Stop => 0,
        Deed::Clear => room,
    }
}

/// How many turns are counted.
fn counted_turns(written: Option<i128>) -> usize
    ensures value { result ≡ counted_turns written }
    ensures small { result ≤ max_turns }
{
    match written {
        Some(turns) => turns.max(0).min(MAX_TURNS as i128) as usize,
        None => 1,
    }
}

/// The computations of so many turns of a block, at most 262,145; `each` are those of the block.
fn times(turns: usize, standings: &[Standing], block: &Block, each: usize) -> usize
    requires few { turns ≤ max_turns }
    requires each { each ≡ min (block_work standings.now (body block.now)) computations_end }
    ensures value { result
        ≡ min (turns * block_work standings.now (body block.now)) computations_end }
    ensures small { result ≤ computations_end }
{
    let _ = standings;
    let _ = block;
    (turns * each).min(COMPUTATIONS_END)
}

/// The computations of a statement, at most 262,145.
#[cycle(counts)]
fn statement_work(standings: &[Standing], said: &SourceStatement) -> usize
    ensures value { result ≡ min (statement_work standings.now (told said.now)) computations_end }
    ensures small { result ≤ computations_end }
{
    match said {
        SourceStatement::Draw | SourceStatement::Passivate => 1,
        SourceStatement::Assign(place, _, by) => {
            (1 + (work(standings, place) + work(standings, by))).min(COMPUTATIONS_END)
        }
        SourceStatement::Act(verb, queue, operands) => {
            let over = moved(*verb, queue_room(standings, queue));
            (1 + (work(standings, queue) + work(standings, operands) + over)).min(COMPUTATIONS_END)
        }
        SourceStatement::Treat(deed, queue) => {
            let over = left(*deed, queue_room(standings, queue));
            (1 + (work(standings, queue) + over)).min(COMPUTATIONS_END)
        }
        SourceStatement::Wait(e) | SourceStatement::Send(e) => {
            (1 + work(standings, e)).min(COMPUTATIONS_END)
        }
        SourceStatement::Start(timer, ticks) => {
            (1 + (work(standings, timer) + work(standings, ticks))).min(COMPUTATIONS_END)
        }
        SourceStatement::If(arms) => {
            (1 + (tests_work(standings, arms) + greatest_work(standings, arms))).min(
                COMPUTATIONS_END,
            )
        }
        SourceStatement::IfElse(arms, last) => {
            let greatest = greatest_work(standings, arms).max(block_work(standings, last));
            (1 + (tests_work(standings, arms) + greatest)).min(COMPUTATIONS_END)
        }
        SourceStatement::Repeat(count, each) => {
            let turns = counted_turns(written_turns(standings, count));
            let block = block_work(standings, each);
            (2 + times(turns, standings, each, block)).min(COMPUTATIONS_END)
        }
    }
}

/// The computations of a program, at most 262,145.
#[cycle(counts)]
pub fn block_work(standings: &[Standing], program: &Block) -> usize
    ensures value { result ≡ min (block_work standings.now (body program.now)) computations_end }
    ensures small { result ≤ computations_end }
{
    match program {
        Block::Empty => 0,
        Block::Then(before, last, _) => {
            (block_work(standings, before) + statement_work(standings, last)).min(COMPUTATIONS_END)
        }
    }
}

/// The computations of the tests of an `if`, at most 262,145.
fn tests_work(standings: &[Standing], arms: &Arms) -> usize
    ensures value { result ≡ min (tests_work standings.now (chain arms.now)) computations_end }
    ensures small { result ≤ computations_end }
{
    match arms {
        Arms::One(test, _) => work(standings, test),
        Arms::More(before, test, _) => {
            (tests_work(standings, before) + work(standings, test)).min(COMPUTATIONS_END)
        }
    }
}

/// The computations of its greatest block, at most 262,145.
#[cycle(counts)]
fn greatest_work(standings: &[Standing], arms: &Arms) -> usize
    ensures value { result ≡ min (greatest_work standings.now (chain arms.now)) computations_end }
    ensures small { result ≤ computations_end }
{
    match arms {
        Arms::One(_, then) => block_work(standings, then),
        Arms::More(before, _, then) => greatest_work(standings, before).max(block_work(
            standings, then,
        )),
    }
}
