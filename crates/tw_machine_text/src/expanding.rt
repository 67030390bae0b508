//! Procedures: `do NAME` is their program in its place. Nodes are counted before that, for forty procedures that each use
//! the one before twice would make a million million of them.
ghost use Rattle.std.specs.Prelude.{◌≡◌, ◌≤◌, IfOk, map, min, option_map, unwrap_or};
ghost use Rattle.tw_machine_text.specs.Limits.{nodes_end};
ghost use Rattle.tw_machine_text.specs.Desugared.{
  joined,
  procedure_of,
  placed,
  expanded_statement,
  expanded,
  expanded_arms,
  nodes_of_statement,
  nodes_of,
  nodes_of_arms,
};
ghost use Rattle.tw_machine_text.specs.Tree.{Empty, nodes_block};
ghost use Rattle.tw_machine_text.specs.Views.{told, body, chain};

use crate::counting::{nodes, nodes_block, nodes_statement};
use crate::desugaring::{copied, then};
use crate::kinds::{Kind, Meaning, stands_for};
use crate::limits::NODES_END;
use crate::tree::{Arms, Block, SourceExpr, SourceStatement};
use crate::words::Deed;
use std::alloc::{AllocError, Global};

/// The program of a procedure.
fn procedure_of(procedures: &[Block], kind: Kind) -> Option<&Block>
    ensures { unwrap_or (option_map (λ block. body block.now) result) Empty
        ≡ procedure_of (map body procedures.now) kind }
{
    match kind {
        Kind::Procedure(place) => procedures.get(place),
        _ => None,
    }
}

/// A statement again.
#[cycle(copies)]
fn statement_again(alloc: Global, said: &SourceStatement) -> Result<SourceStatement, AllocError>
    ensures { IfOk result (λ again. told again ≡ told said.now) }
{
    match said {
        SourceStatement::Assign(place, change, by) => {
            let place = copied(alloc, place)?;
            Ok(SourceStatement::Assign(place, *change, copied(alloc, by)?))
        }
        SourceStatement::Act(verb, object, operands) => {
            let object = copied(alloc, object)?;
            Ok(SourceStatement::Act(*verb, object, copied(alloc, operands)?))
        }
        SourceStatement::Treat(deed, named) => {
            Ok(SourceStatement::Treat(*deed, copied(alloc, named)?))
        }
        SourceStatement::Draw => Ok(SourceStatement::Draw),
        SourceStatement::Wait(ticks) => Ok(SourceStatement::Wait(copied(alloc, ticks)?)),
        SourceStatement::Start(timer, ticks) => {
            let timer = copied(alloc, timer)?;
            Ok(SourceStatement::Start(timer, copied(alloc, ticks)?))
        }
        SourceStatement::Send(sent) => Ok(SourceStatement::Send(copied(alloc, sent)?)),
        SourceStatement::Passivate => Ok(SourceStatement::Passivate),
        SourceStatement::If(arms) => {
            let arms = arms_again(alloc, arms)?;
            Ok(SourceStatement::If(Box::new(alloc, arms)?))
        }
        SourceStatement::IfElse(arms, last) => {
            let arms = Box::new(alloc, arms_again(alloc, arms)?)?;
            let last = Box::new(alloc, block_again(alloc, last)?)?;
            Ok(SourceStatement::IfElse(arms, last))
        }
        SourceStatement::Repeat(count, each) => {
            let each = Box::new(alloc, block_again(alloc, each)?)?;
            Ok(SourceStatement::Repeat(copied(alloc, count)?, each))
        }
    }
}

/// A program again.
#[cycle(copies)]
fn block_again(alloc: Global, program: &Block) -> Result<Block, AllocError>
    ensures { IfOk result (λ again. body again ≡ body program.now) }
{
    match program {
        Block::Empty => Ok(Block::Empty),
        Block::Then(before, last, marked) => {
            let before = block_again(alloc, before)?;
            let last = statement_again(alloc, last)?;
            then(alloc, before, last, *marked)
        }
    }
}

#[cycle(copies)]
fn arms_again(alloc: Global, arms: &Arms) -> Result<Arms, AllocError>
    ensures { IfOk result (λ again. chain again ≡ chain arms.now) }
{
    match arms {
        Arms::One(test, then) => {
            let then = Box::new(alloc, block_again(alloc, then)?)?;
            Ok(Arms::One(copied(alloc, test)?, then))
        }
        Arms::More(before, test, then) => {
            let before = Box::new(alloc, arms_again(alloc, before)?)?;
            let then = Box::new(alloc, block_again(alloc, then)?)?;
            Ok(Arms::More(before, copied(alloc, test)?, then))
        }
    }
}

/// The statements of a program behind others. The only error is want of memory.
pub fn joined(alloc: Global, before: Block, program: &Block) -> Result<Block, AllocError>
    ensures { IfOk result (λ block. body block ≡ joined (body before) (body program.now)) }
{
    match program {
        Block::Empty => Ok(before),
        Block::Then(more, last, marked) => {
            let more = joined(alloc, before, more)?;
            let last = statement_again(alloc, last)?;
            then(alloc, more, last, *marked)
        }
    }
}

/// A statement behind others: of `do` the program of its procedure.
fn placed(
    alloc: Global,
    kinds: &[Meaning],
    procedures: &[Block],
    before: Block,
    last: SourceStatement,
    marked: bool,
) -> Result<Block, AllocError>
    ensures { IfOk result (λ block. body block
        ≡ placed kinds.now (map body procedures.now) (body before) (told last) marked) }
{
    match last {
        SourceStatement::Treat(Deed::Do, SourceExpr::Name(name)) => {
            match procedure_of(procedures, stands_for(kinds, name)) {
                Some(program) => joined(alloc, before, program),
                None => Ok(before),
            }
        }
        other => then(alloc, before, other, marked),
    }
}

/// A statement, of whose blocks each `do` is the program of its procedure.
#[cycle(expands)]
fn expanded_statement(
    alloc: Global,
    kinds: &[Meaning],
    procedures: &[Block],
    said: &SourceStatement,
) -> Result<SourceStatement, AllocError>
    ensures { IfOk result (λ s. told s
        ≡ expanded_statement kinds.now (map body procedures.now) (told said.now)) }
{
    match said {
        SourceStatement::If(arms) => {
            let arms = expanded_arms(alloc, kinds, procedures, arms)?;
            Ok(SourceStatement::If(Box::new(alloc, arms)?))
        }
        SourceStatement::IfElse(arms, last) => {
            let arms = expanded_arms(alloc, kinds, procedures, arms)?;
            let last = expanded(alloc, kinds, procedures, last)?;
            let arms = Box::new(alloc, arms)?;
            Ok(SourceStatement::IfElse(arms, Box::new(alloc, last)?))
        }
        SourceStatement::Repeat(count, each) => {
            let each = expanded(alloc, kinds, procedures, each)?;
            let count = copied(alloc, count)?;
            Ok(SourceStatement::Repeat(count, Box::new(alloc, each)?))
        }
        plain => statement_again(alloc, plain),
    }
}

/// A program in which each `do` is the program of its procedure.
#[cycle(expands)]
pub(crate) fn expanded(
    alloc: Global,
    kinds: &[Meaning],
    procedures: &[Block],
    program: &Block,
) -> Result<Block, AllocError>
    ensures { IfOk result (λ block. body block
        ≡ expanded kinds.now (map body procedures.now) (body program.now)) }
{
    match program {
        Block::Empty => Ok(Block::Empty),
        Block::Then(before, last, marked) => {
            let before = expanded(alloc, kinds, procedures, before)?;
            let last = expanded_statement(alloc, kinds, procedures, last)?;
            placed(alloc, kinds, procedures, before, last, *marked)
        }
    }
}

#[cycle(expands)]
fn expanded_arms(
    alloc: Global,
    kinds: &[Meaning],
    procedures: &[Block],
    arms: &Arms,
) -> Result<Arms, AllocError>
    ensures { IfOk result (λ a. chain a
        ≡ expanded_arms kinds.now (map body procedures.now) (chain arms.now)) }
{
    match arms {
        Arms::One(test, then) => {
            let then = expanded(alloc, kinds, procedures, then)?;
            Ok(Arms::One(copied(alloc, test)?, Box::new(alloc, then)?))
        }
        Arms::More(before, test, then) => {
            let before = expanded_arms(alloc, kinds, procedures, before)?;
            let then = expanded(alloc, kinds, procedures, then)?;
            let test = copied(alloc, test)?;
            Ok(Arms::More(Box::new(alloc, before)?, test, Box::new(alloc, then)?))
        }
    }
}

/// The nodes of a procedure, at most 4,097.
fn nodes_done(procedures: &[Block], kind: Kind) -> usize
    ensures value { result
        ≡ min (nodes_block (procedure_of (map body procedures.now) kind)) nodes_end }
    ensures small { result ≤ nodes_end }
{
    match procedure_of(procedures, kind) {
        Some(program) => nodes_block(program),
        None => 0,
    }
}

/// The nodes of a statement, at most 4,097.
#[cycle(counts_nodes)]
fn nodes_of_statement(kinds: &[Meaning], procedures: &[Block], said: &SourceStatement) -> usize
    ensures value { result ≡ min
        (nodes_of_statement kinds.now (map body procedures.now) (told said.now)) nodes_end }
    ensures small { result ≤ nodes_end }
{
    match said {
        SourceStatement::Treat(Deed::Do, SourceExpr::Name(name)) => {
            nodes_done(procedures, stands_for(kinds, *name))
        }
        SourceStatement::If(arms) => nodes_of_arms(kinds, procedures, arms),
        SourceStatement::IfElse(arms, last) => {
            let chosen = nodes_of_arms(kinds, procedures, arms);
            (chosen + nodes_of(kinds, procedures, last)).min(NODES_END)
        }
        SourceStatement::Repeat(count, each) => {
            let block = nodes_of(kinds, procedures, each);
            (1 + (nodes(count) + block)).min(NODES_END)
        }
        plain => nodes_statement(plain),
    }
}

/// The nodes that a program will have, at most 4,097.
#[cycle(counts_nodes)]
pub(crate) fn nodes_of(kinds: &[Meaning], procedures: &[Block], program: &Block) -> usize
    ensures value { result ≡ min
        (nodes_of kinds.now (map body procedures.now) (body program.now)) nodes_end }
    ensures small { result ≤ nodes_end }
{
    match program {
        Block::Empty => 0,
        Block::Then(before, last, _) => {
            let so_far = nodes_of(kinds, procedures, before);
            (so_far + nodes_of_statement(kinds, procedures, last)).min(NODES_END)
        }
    }
}

#[cycle(counts_nodes)]
fn nodes_of_arms(kinds: &[Meaning], procedures: &[Block], arms: &Arms) -> usize
    ensures value { result ≡ min
        (nodes_of_arms kinds.now (map body procedures.now) (chain arms.now)) nodes_end }
    ensures small { result ≤ nodes_end }
{
    match arms {
        Arms::One(test, then) => {
            (1 + (nodes(test) + nodes_of(kinds, procedures, then))).min(NODES_END)
        }
        Arms::More(before, test, then) => {
            let so_far = nodes_of_arms(kinds, procedures, before);
            let arm = nodes(test) + nodes_of(kinds, procedures, then);
            (so_far + arm).min(NODES_END)
        }
    }
}
