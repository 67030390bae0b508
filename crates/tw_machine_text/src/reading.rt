//! The machine that reads: what each word does.
ghost use Rattle.std.specs.Prelude.{
  ◌≡◌,
  ◌∷◌,
  ◌≤◌,
  true,
  false,
  Some,
  None,
  IfOk,
  nat_le,
  if◌then◌else◌,
};
ghost use Rattle.std.specs.Option.{option_and_then};
ghost use Rattle.tw_machine_text.specs.Limits.{written_levels};
ghost use Rattle.tw_machine_text.specs.Stacks.{frames_of, LeadsTo, Finishes};
ghost use Rattle.tw_machine_text.specs.Machine.{
  joined,
  reduce,
  nest,
  demand,
  operand,
  need,
  item,
  shift,
  called,
  indexed,
  close,
  close_index,
  becomes,
  enter,
  open_block,
  finished,
  close_block,
  start,
  named,
  marked,
  settle,
  have,
  ended,
  Need,
  after_arm,
  after_else,
  after,
  step,
  nests,
  starts_timer,
};
ghost use Rattle.tw_machine_text.specs.Tree.{Then};
ghost use Rattle.tw_machine_text.specs.Views.{tree, told, body, chain, framed, seen};

use crate::dictionary::IN;
use crate::fault::Fault;
use crate::frames::{Frame, State};
use crate::stack::Stack;
use crate::tree::{Arms, Block, SourceExpr, SourceStatement};
use crate::words::{Builtin, Operator, SourceChange, Verb, Word};
use std::alloc::{AllocError, Global};

/// What has begun, completed by its last operand.
fn joined(alloc: Global, frame: Frame, operand: SourceExpr) -> Result<SourceExpr, AllocError>
    ensures { IfOk result (λ e. tree e ≡ joined (framed frame) (tree operand)) }
{
    match frame {
        Frame::Operand(left, operator) => Ok(SourceExpr::Binary(
            operator,
            Box::new(alloc, left)?,
            Box::new(alloc, operand)?,
        )),
        Frame::InNot => Ok(SourceExpr::Not(Box::new(alloc, operand)?)),
        Frame::InNegative => Ok(SourceExpr::Negate(Box::new(alloc, operand)?)),
        other => {
            drop(other);
            Ok(operand)
        }
    }
}

/// Completes what binds at least so tightly.
fn reduce(
    alloc: Global,
    stack: &mut Stack,
    rank: usize,
    operand: SourceExpr,
) -> Result<SourceExpr, AllocError>
    ensures { IfOk result
        (λ e. (frames_of stack.new, tree e) ≡ reduce rank (frames_of stack.old) (tree operand)) }
{
    let mut operand = operand;
    'more: while stack.closes(rank) {
        if let Some(frame) = stack.pop() {
            operand = joined(alloc, frame, operand)?;
        }
    }
    Ok(operand)
}

/// A level of an expression begins.
fn nested(stack: &mut Stack, frame: Frame) -> Result<State, Fault>
    requires { nests (framed frame) ≡ true }
    ensures { LeadsTo stack.new result (nest written_levels (framed frame) (frames_of stack.old)) }
{
    match stack.nest(frame) {
        Ok(()) => Ok(State::Need),
        Err(fault) => Err(fault),
    }
}

/// An operand of one word, where one that binds so tightly may stand.
fn operand(stack: &Stack, rank: usize, expr: SourceExpr) -> Result<State, Fault>
    ensures { LeadsTo stack.now result (operand rank (frames_of stack.now) (tree expr)) }
{
    if stack.demand() <= rank {
        Ok(State::Have(expr))
    } else {
        drop(expr);
        Err(Fault::Wrong)
    }
}

/// A level of an expression begins, where one that binds so tightly may stand.
fn prefix(stack: &mut Stack, rank: usize, frame: Frame) -> Result<State, Fault>
    requires { nests (framed frame) ≡ true }
    ensures { LeadsTo stack.new result (if nat_le (demand (frames_of stack.old)) rank
        then nest written_levels (framed frame) (frames_of stack.old) else None) }
{
    if stack.demand() <= rank {
        nested(stack, frame)
    } else {
        drop(frame);
        Err(Fault::Wrong)
    }
}

/// A word where an operand is to come.
fn need(stack: &mut Stack, word: Word) -> Result<State, Fault>
    ensures { LeadsTo stack.new result (need written_levels word (frames_of stack.old)) }
{
    match word {
        Word::Number(number) => operand(stack, 8, SourceExpr::Number(number)),
        Word::Name(name) => Ok(State::Have(SourceExpr::Name(name))),
        Word::Known(given) => operand(stack, 8, SourceExpr::Known(given)),
        Word::Open => prefix(stack, 8, Frame::InGroup),
        Word::Sign(Operator::Minus) => prefix(stack, 7, Frame::InNegative),
        Word::Not => prefix(stack, 3, Frame::InNot),
        _ => Err(Fault::Wrong),
    }
}

/// A word that begins what is done to a queue that has come.
fn item(stack: &mut Stack, word: Word, operand: SourceExpr) -> Result<State, Fault>
    ensures { LeadsTo stack.new result (item written_levels word (frames_of stack.old, tree operand)) }
{
    match stack.pop() {
        Some(Frame::InQueue(block, verb)) => {
            stack.push(Frame::InItem(block, verb, operand))?;
            need(stack, word)
        }
        other => {
            drop(other);
            Err(Fault::Wrong)
        }
    }
}

/// An operator, where what binds more tightly is complete.
fn shift(stack: &mut Stack, operator: Operator, operand: SourceExpr) -> Result<State, Fault>
    ensures { LeadsTo stack.new result (shift written_levels operator
        (frames_of stack.old, tree operand)) }
{
    if stack.demand() <= operator.rank() {
        stack.push(Frame::Operand(operand, operator))?;
        Ok(State::Need)
    } else {
        item(stack, Word::Sign(operator), operand)
    }
}

/// The arguments of a function begin.
fn called(stack: &mut Stack, operand: SourceExpr) -> Result<State, Fault>
    ensures { LeadsTo stack.new result (called written_levels (frames_of stack.old) (tree operand)) }
{
    match operand {
        SourceExpr::Name(name) => nested(stack, Frame::InCall(name)),
        SourceExpr::Known(Builtin::Random) => nested(stack, Frame::InRandom),
        other => {
            drop(other);
            Err(Fault::Wrong)
        }
    }
}

/// An index begins.
fn indexed(stack: &mut Stack, operand: SourceExpr) -> Result<State, Fault>
    ensures { LeadsTo stack.new result (indexed written_levels (frames_of stack.old) (tree operand)) }
{
    match operand {
        SourceExpr::Name(name) => nested(stack, Frame::InIndex(name)),
        other => {
            drop(other);
            Err(Fault::Wrong)
        }
    }
}

/// A parenthesis is closed.
fn close(alloc: Global, stack: &mut Stack, operand: SourceExpr) -> Result<State, Fault>
    ensures { LeadsTo stack.new result (close (frames_of stack.old, tree operand)) }
{
    match stack.pop() {
        Some(Frame::InGroup) => Ok(State::Have(SourceExpr::Group(Box::new(alloc, operand)?))),
        Some(Frame::InCall(name)) => {
            if operand.fits_call(name) {
                Ok(State::Have(SourceExpr::Call(name, Box::new(alloc, operand)?)))
            } else {
                Err(Fault::Wrong)
            }
        }
        Some(Frame::InRandom) => Ok(State::Have(SourceExpr::RandomBelow(Box::new(
            alloc, operand,
        )?))),
        other => {
            drop(other);
            Err(Fault::Wrong)
        }
    }
}

/// A bracket is closed.
fn close_index(alloc: Global, stack: &mut Stack, operand: SourceExpr) -> Result<State, Fault>
    ensures { LeadsTo stack.new result (close_index (frames_of stack.old, tree operand)) }
{
    let frame = stack.pop();
    if let Some(Frame::InIndex(name)) = frame {
        drop(frame);
        return Ok(State::Have(SourceExpr::Indexed(name, Box::new(alloc, operand)?)));
    }
    drop(frame);
    Err(Fault::Wrong)
}

/// The place is read, and what changes it comes.
fn becomes(stack: &mut Stack, change: SourceChange, operand: SourceExpr) -> Result<State, Fault>
    ensures { LeadsTo stack.new result (becomes change (frames_of stack.old, tree operand)) }
{
    match stack.pop() {
        Some(Frame::InPlace(block)) => {
            stack.push(Frame::InChange(block, operand, change))?;
            Ok(State::Need)
        }
        other => {
            drop(other);
            Err(Fault::Wrong)
        }
    }
}

/// A block begins.
fn enter(stack: &mut Stack, frame: Frame) -> Result<State, Fault>
    requires { nests (framed frame) ≡ true }
    ensures { LeadsTo stack.new result (enter written_levels (framed frame) (frames_of stack.old)) }
{
    match stack.nest(frame) {
        Ok(()) => Ok(State::Begin(Block::Empty)),
        Err(fault) => Err(fault),
    }
}

/// A block begins behind an operand.
fn open_block(stack: &mut Stack, operand: SourceExpr) -> Result<State, Fault>
    ensures { LeadsTo stack.new result (open_block written_levels (frames_of stack.old, tree operand)) }
{
    match stack.pop() {
        Some(Frame::InIf(block)) => enter(stack, Frame::InThen(block, operand)),
        Some(Frame::InElseIf(block, arms)) => {
            enter(stack, Frame::InElseThen(block, arms, operand))
        }
        Some(Frame::InCount(block)) => {
            if operand.is_count() {
                enter(stack, Frame::InTurns(block, operand))
            } else {
                Err(Fault::Wrong)
            }
        }
        other => {
            drop(other);
            Err(Fault::Wrong)
        }
    }
}

/// A block and one statement more.
fn then(
    alloc: Global,
    before: Block,
    last: SourceStatement,
    marked: bool,
) -> Result<Block, AllocError>
    ensures { IfOk result (λ block. body block ≡ Then (body before) (told last) marked) }
{
    Ok(Block::Then(Box::new(alloc, before)?, Box::new(alloc, last)?, marked))
}

/// The block so far, where the operand is the last of its statement.
fn finished(
    alloc: Global,
    stack: &mut Stack,
    operand: SourceExpr,
    marked: bool,
) -> Result<Block, Fault>
    ensures { Finishes stack.new result (finished marked (frames_of stack.old, tree operand)) }
{
    let (block, last) = match stack.pop() {
        Some(Frame::InChange(block, place, change)) => (
            block,
            SourceStatement::Assign(place, change, operand),
        ),
        Some(Frame::InItem(block, verb, queue)) if operand.is_many(verb.wanted()) => {
            (block, SourceStatement::Act(verb, queue, operand))
        }
        Some(Frame::InDeed(block, deed)) => (block, SourceStatement::Treat(deed, operand)),
        Some(Frame::InWait(block)) => (block, SourceStatement::Wait(operand)),
        Some(Frame::InTicks(block, timer)) => (block, SourceStatement::Start(timer, operand)),
        Some(Frame::InSend(block)) if operand.is_many(2) => (block, SourceStatement::Send(operand)),
        other => {
            drop(other);
            drop(operand);
            return Err(Fault::Wrong);
        }
    };
    Ok(then(alloc, block, last, marked)?)
}

/// A block ends.
fn close_block(alloc: Global, stack: &mut Stack, block: Block) -> Result<State, Fault>
    ensures { LeadsTo stack.new result (close_block (frames_of stack.old) (body block)) }
{
    let block = Box::new(alloc, block)?;
    match stack.pop() {
        Some(Frame::InThen(before, test)) => Ok(State::AfterThen(before, Arms::One(test, block))),
        Some(Frame::InElseThen(before, arms, test)) => Ok(State::AfterThen(
            before,
            Arms::More(Box::new(alloc, arms)?, test, block),
        )),
        Some(Frame::InElse(before, arms)) => Ok(State::After(
            before,
            SourceStatement::IfElse(Box::new(alloc, arms)?, block),
        )),
        Some(Frame::InTurns(before, count)) => {
            Ok(State::After(before, SourceStatement::Repeat(count, block)))
        }
        other => {
            drop(other);
            drop(block);
            Err(Fault::Wrong)
        }
    }
}

/// Something begins that asks for an operand.
fn asks(stack: &mut Stack, frame: Frame) -> Result<State, Fault>
    requires { nests (framed frame) ≡ false }
    ensures { LeadsTo stack.new result (Some (Need (framed frame ∷ frames_of stack.old))) }
{
    stack.push(frame)?;
    Ok(State::Need)
}

/// A word behind what is done in a block.
fn start(alloc: Global, stack: &mut Stack, word: Word, block: Block) -> Result<State, Fault>
    ensures { LeadsTo stack.new result (start word (frames_of stack.old, body block)) }
{
    match word {
        Word::Name(name) => {
            stack.push(Frame::InPlace(block))?;
            Ok(State::Have(SourceExpr::Name(name)))
        }
        Word::Begins(verb) => asks(stack, Frame::InQueue(block, verb)),
        Word::Does(deed) => asks(stack, Frame::InDeed(block, deed)),
        Word::Draw => Ok(State::After(block, SourceStatement::Draw)),
        Word::Wait => asks(stack, Frame::InWait(block)),
        Word::Passivate => Ok(State::After(block, SourceStatement::Passivate)),
        Word::Start => asks(stack, Frame::InStart(block)),
        Word::Send => asks(stack, Frame::InSend(block)),
        Word::If => asks(stack, Frame::InIf(block)),
        Word::Repeat => asks(stack, Frame::InCount(block)),
        Word::CloseBrace => close_block(alloc, stack, block),
        _ => Err(Fault::Wrong),
    }
}

/// A word behind an operand that is the last of its statement.
fn restart(
    alloc: Global,
    stack: &mut Stack,
    word: Word,
    operand: SourceExpr,
) -> Result<State, Fault>
    ensures { LeadsTo stack.new result (option_and_then (start word)
        (finished false (frames_of stack.old, tree operand))) }
{
    match finished(alloc, stack, operand, false) {
        Ok(block) => start(alloc, stack, word, block),
        Err(fault) => Err(fault),
    }
}

/// A semicolon behind such an operand.
fn mark(alloc: Global, stack: &mut Stack, operand: SourceExpr) -> Result<State, Fault>
    ensures { LeadsTo stack.new result (option_and_then marked
        (finished true (frames_of stack.old, tree operand))) }
{
    match finished(alloc, stack, operand, true) {
        Ok(block) => Ok(State::Begin(block)),
        Err(fault) => Err(fault),
    }
}

/// `in`, or another name, behind a timer that is started.
fn behind_timer(stack: &mut Stack, name: usize, timer: SourceExpr) -> Result<State, Fault>
    requires { starts_timer (frames_of stack.old) ≡ true }
    ensures { LeadsTo stack.new result (named name (frames_of stack.old, tree timer)) }
{
    match stack.pop() {
        Some(Frame::InStart(block)) if name == IN => asks(stack, Frame::InTicks(block, timer)),
        other => {
            drop(other);
            drop(timer);
            Err(Fault::Wrong)
        }
    }
}

/// A name behind an operand.
fn named(alloc: Global, stack: &mut Stack, name: usize, operand: SourceExpr) -> Result<State, Fault>
    ensures { LeadsTo stack.new result (named name (frames_of stack.old, tree operand)) }
{
    if stack.wants() {
        item(stack, Word::Name(name), operand)
    } else if stack.starts_timer() {
        behind_timer(stack, name, operand)
    } else {
        restart(alloc, stack, Word::Name(name), operand)
    }
}

/// A word behind an operand, where all is complete that an operand completes.
fn settle(alloc: Global, stack: &mut Stack, word: Word, operand: SourceExpr) -> Result<State, Fault>
    ensures { LeadsTo stack.new result (settle written_levels word
        (frames_of stack.old, tree operand)) }
{
    match word {
        Word::Name(name) => named(alloc, stack, name, operand),
        Word::Close => close(alloc, stack, operand),
        Word::CloseBracket => close_index(alloc, stack, operand),
        Word::Becomes(change) => becomes(stack, change, operand),
        Word::OpenBrace => open_block(stack, operand),
        Word::Semicolon => mark(alloc, stack, operand),
        _ => restart(alloc, stack, word, operand),
    }
}

/// A word behind an operand.
fn have(alloc: Global, stack: &mut Stack, word: Word, operand: SourceExpr) -> Result<State, Fault>
    ensures { LeadsTo stack.new result (have written_levels word (frames_of stack.old) (tree operand)) }
{
    match word {
        Word::Sign(operator) => {
            let complete = reduce(alloc, stack, operator.left_rank(), operand)?;
            shift(stack, operator, complete)
        }
        Word::OpenBracket => indexed(stack, operand),
        Word::Open => {
            if stack.demand() <= 8 {
                called(stack, operand)
            } else {
                item(stack, word, operand)
            }
        }
        Word::Number(_) | Word::Known(_) | Word::Not => item(stack, word, operand),
        _ => {
            let complete = reduce(alloc, stack, 0, operand)?;
            settle(alloc, stack, word, complete)
        }
    }
}

/// A word behind a statement.
fn after(
    alloc: Global,
    stack: &mut Stack,
    word: Word,
    block: Block,
    last: SourceStatement,
) -> Result<State, Fault>
    ensures { LeadsTo stack.new result (after word (frames_of stack.old) (body block) (told last)) }
{
    match word {
        Word::Semicolon => Ok(State::Begin(then(alloc, block, last, true)?)),
        _ => {
            let block = then(alloc, block, last, false)?;
            start(alloc, stack, word, block)
        }
    }
}

/// A word behind an arm.
fn after_arm(
    alloc: Global,
    stack: &mut Stack,
    word: Word,
    block: Block,
    arms: Arms,
) -> Result<State, Fault>
    ensures { LeadsTo stack.new result (after_arm word (frames_of stack.old) (body block)
        (chain arms)) }
{
    match word {
        Word::Else => Ok(State::AfterElse(block, arms)),
        _ => {
            let choice = SourceStatement::If(Box::new(alloc, arms)?);
            after(alloc, stack, word, block, choice)
        }
    }
}

/// A word behind `else`.
fn after_else(stack: &mut Stack, word: Word, block: Block, arms: Arms) -> Result<State, Fault>
    ensures { LeadsTo stack.new result (after_else written_levels word (frames_of stack.old)
        (body block) (chain arms)) }
{
    match word {
        Word::If => asks(stack, Frame::InElseIf(block, arms)),
        Word::OpenBrace => enter(stack, Frame::InElse(block, arms)),
        _ => Err(Fault::Wrong),
    }
}

/// A word.
pub(crate) fn step(
    alloc: Global,
    stack: &mut Stack,
    word: Word,
    state: State,
) -> Result<State, Fault>
    ensures { LeadsTo stack.new result (step written_levels word (seen (frames_of stack.old) state)) }
{
    match state {
        State::Need => need(stack, word),
        State::Have(operand) => have(alloc, stack, word, operand),
        State::Begin(block) => start(alloc, stack, word, block),
        State::After(block, last) => after(alloc, stack, word, block, last),
        State::AfterThen(block, arms) => after_arm(alloc, stack, word, block, arms),
        State::AfterElse(block, arms) => after_else(stack, word, block, arms),
    }
}

/// The block so far, once its last statement is done.
pub(crate) fn ended(alloc: Global, stack: &mut Stack, state: State) -> Result<Block, Fault>
    ensures { Finishes stack.new result (ended false (seen (frames_of stack.old) state)) }
{
    match state {
        State::Need => Err(Fault::Wrong),
        State::Have(operand) => {
            let complete = reduce(alloc, stack, 0, operand)?;
            finished(alloc, stack, complete, false)
        }
        State::Begin(block) => Ok(block),
        State::After(block, last) => Ok(then(alloc, block, last, false)?),
        State::AfterThen(block, arms) => {
            let choice = SourceStatement::If(Box::new(alloc, arms)?);
            Ok(then(alloc, block, choice, false)?)
        }
        State::AfterElse(block, arms) => {
            drop(block);
            drop(arms);
            Err(Fault::Wrong)
        }
    }
}
