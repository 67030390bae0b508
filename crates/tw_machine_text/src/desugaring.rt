//! What a written program comes to in the core of the language: each `observe` is three statements there, and behind a
//! statement or in the blocks of a test that draws a number stands `draw`. What it has of timers comes then.
ghost use Rattle.std.specs.Prelude.{◌≡◌, ◌≤◌, true, false, IfOk, map, option_map};
ghost use Rattle.tw_machine_text.specs.Limits.{max_levels, max_nodes};
ghost use Rattle.tw_machine_text.specs.Drawn.{begun, draws_last};
ghost use Rattle.tw_machine_text.specs.Desugared.{
  grows,
  squared,
  observed,
  behind,
  followed,
  further,
  choice,
  around,
  chosen,
  no_else,
  desugared_statement,
  desugared_behind,
  desugared_block,
  desugared_text,
  desugared_arms,
  is_within,
  is_within_tree,
  limited,
  limited_tree,
};
ghost use Rattle.tw_machine_text.specs.Tree.{Then, IfElse};
ghost use Rattle.tw_machine_text.specs.Views.{tree, told, body, chain, parted, Tells};

use crate::counting::{nodes, nodes_block};
use crate::drawn::{core_tree, draws, draws_in, draws_last};
use crate::expanding::{expanded, nodes_of};
use crate::kinds::{Meaning, Names, Timing};
use crate::levels::{deep, deep_block};
use crate::limits::MAX_LEVELS;
use crate::refused::Refused;
use crate::timers::{timed, timed_text};
use crate::tree::{Arms, Block, SourceExpr, SourceStatement};
use crate::words::{Operator, SourceChange, Verb};
use std::alloc::{AllocError, Global};

/// The arms of a chain of `else if`, parted behind each test in which a number is drawn.
#[derive(Drop)]
pub(crate) struct Chain {
    pub before: Vec<Arms>,
    pub last: Arms,
}

/// An expression again.
pub(crate) fn copied(alloc: Global, e: &SourceExpr) -> Result<SourceExpr, AllocError>
    ensures { IfOk result (λ again. tree again ≡ tree e.now) }
{
    match e {
        SourceExpr::Number(number) => Ok(SourceExpr::Number(*number)),
        SourceExpr::Name(name) => Ok(SourceExpr::Name(*name)),
        SourceExpr::Known(builtin) => Ok(SourceExpr::Known(*builtin)),
        SourceExpr::Indexed(name, index) => Ok(SourceExpr::Indexed(
            *name,
            Box::new(alloc, copied(alloc, index)?)?,
        )),
        SourceExpr::Call(name, arguments) => Ok(SourceExpr::Call(
            *name,
            Box::new(alloc, copied(alloc, arguments)?)?,
        )),
        SourceExpr::RandomBelow(below) => Ok(SourceExpr::RandomBelow(Box::new(
            alloc,
            copied(alloc, below)?,
        )?)),
        SourceExpr::Group(inner) => Ok(SourceExpr::Group(Box::new(alloc, copied(alloc, inner)?)?)),
        SourceExpr::Negate(inner) => Ok(SourceExpr::Negate(Box::new(
            alloc,
            copied(alloc, inner)?,
        )?)),
        SourceExpr::Not(inner) => Ok(SourceExpr::Not(Box::new(alloc, copied(alloc, inner)?)?)),
        SourceExpr::Binary(operator, a, b) => {
            let a = Box::new(alloc, copied(alloc, a)?)?;
            let b = Box::new(alloc, copied(alloc, b)?)?;
            Ok(SourceExpr::Binary(*operator, a, b))
        }
    }
}

/// A cell of an observation grows.
fn grows(
    alloc: Global,
    name: usize,
    cell: u64,
    by: SourceExpr,
) -> Result<SourceStatement, AllocError>
    ensures { IfOk result (λ s. told s ≡ grows name cell (tree by)) }
{
    let index = Box::new(alloc, SourceExpr::Number(cell))?;
    Ok(SourceStatement::Assign(SourceExpr::Indexed(name, index), SourceChange::Add, by))
}

/// The square of an expression.
fn squared(alloc: Global, e: &SourceExpr) -> Result<SourceExpr, AllocError>
    ensures { IfOk result (λ square. tree square ≡ squared (tree e.now)) }
{
    let a = SourceExpr::Group(Box::new(alloc, copied(alloc, e)?)?);
    let b = SourceExpr::Group(Box::new(alloc, copied(alloc, e)?)?);
    Ok(SourceExpr::Binary(Operator::Times, Box::new(alloc, a)?, Box::new(alloc, b)?))
}

/// One statement more.
pub fn then(
    alloc: Global,
    before: Block,
    last: SourceStatement,
    marked: bool,
) -> Result<Block, AllocError>
    ensures { IfOk result (λ block. body block ≡ Then (body before) (told last) marked) }
{
    Ok(Block::Then(Box::new(alloc, before)?, Box::new(alloc, last)?, marked))
}

/// What `observe` comes to: one more, the number to the sum, and its square to the sum of squares.
fn observed(
    alloc: Global,
    before: Block,
    name: usize,
    e: SourceExpr,
    marked: bool,
) -> Result<Block, AllocError>
    ensures { IfOk result (λ block. body block ≡ observed (body before) name (tree e) marked) }
{
    let square = squared(alloc, &e)?;
    let count = then(
        alloc,
        before,
        grows(alloc, name, 0, SourceExpr::Number(1))?,
        false,
    )?;
    let sum = then(alloc, count, grows(alloc, name, 1, e)?, false)?;
    then(alloc, sum, grows(alloc, name, 2, square)?, marked)
}

/// A statement behind others.
fn behind(
    alloc: Global,
    before: Block,
    last: SourceStatement,
    marked: bool,
) -> Result<Block, AllocError>
    ensures { IfOk result (λ block. body block ≡ behind (body before) (told last) marked) }
{
    match last {
        SourceStatement::Act(Verb::Observe, SourceExpr::Name(name), e) => {
            observed(alloc, before, name, e, marked)
        }
        other => then(alloc, before, other, marked),
    }
}

/// A statement behind others; where it draws a number, `draw` follows it.
fn followed(
    alloc: Global,
    drawing: bool,
    before: Block,
    last: SourceStatement,
    marked: bool,
) -> Result<Block, AllocError>
    ensures { IfOk result
        (λ block. body block ≡ followed drawing (body before) (told last) marked) }
{
    if drawing {
        let behind = behind(alloc, before, last, false)?;
        then(alloc, behind, SourceStatement::Draw, marked)
    } else {
        behind(alloc, before, last, marked)
    }
}

/// What a block begins with: `draw`, where the test before it draws.
fn begun(alloc: Global, drawing: bool) -> Result<Block, AllocError>
    ensures { IfOk result (λ block. body block ≡ begun drawing) }
{
    if drawing {
        then(alloc, Block::Empty, SourceStatement::Draw, false)
    } else {
        Ok(Block::Empty)
    }
}

/// One arm more, where the test before it draws or not.
fn further(
    alloc: Global,
    drawing: bool,
    so_far: Chain,
    test: SourceExpr,
    then: Block,
) -> Result<Chain, AllocError>
    ensures { IfOk result
        (λ all. parted all ≡ further drawing (parted so_far) (tree test) (body then)) }
{
    let mut before = so_far.before;
    let then = Box::new(alloc, then)?;
    if drawing {
        before.push(so_far.last)?;
        let last = Arms::One(test, then);
        Ok(Chain { before, last })
    } else {
        let last = Arms::More(Box::new(alloc, so_far.last)?, test, then);
        Ok(Chain { before, last })
    }
}

/// Arms, and a block behind `else` if there is one.
fn choice(alloc: Global, arms: Arms, last: Option<Block>) -> Result<SourceStatement, AllocError>
    ensures { IfOk result (λ s. told s ≡ choice (chain arms) (option_map body last)) }
{
    let arms = Box::new(alloc, arms)?;
    match last {
        Some(last) => Ok(SourceStatement::IfElse(arms, Box::new(alloc, last)?)),
        None => Ok(SourceStatement::If(arms)),
    }
}

/// A statement behind the `else` of a test that draws.
fn within(alloc: Global, arms: Arms, inner: SourceStatement) -> Result<SourceStatement, AllocError>
    ensures { IfOk result (λ s. told s ≡ IfElse (chain arms) (Then (begun true) (told inner) false)) }
{
    let last = then(alloc, begun(alloc, true)?, inner, false)?;
    Ok(SourceStatement::IfElse(Box::new(alloc, arms)?, Box::new(alloc, last)?))
}

/// The `if` of all arms.
fn chosen(alloc: Global, all: Chain, last: Option<Block>) -> Result<SourceStatement, AllocError>
    ensures { IfOk result (λ s. told s ≡ chosen (parted all) (option_map body last)) }
{
    let mut before = all.before;
    let mut statement = choice(alloc, all.last, last)?;
    'outwards: while let Some(arms) = before.pop() {
        statement = within(alloc, arms, statement)?;
    }
    Ok(statement)
}

/// The block behind the `else` that a test that draws makes.
fn no_else(alloc: Global, drawing: bool) -> Result<Option<Block>, AllocError>
    ensures { IfOk result (λ last. option_map body last ≡ no_else drawing) }
{
    if drawing {
        Ok(Some(begun(alloc, true)?))
    } else {
        Ok(None)
    }
}

/// A statement in the core of the language.
#[cycle(desugars)]
fn desugared_statement(
    alloc: Global,
    kinds: &[Meaning],
    said: &SourceStatement,
) -> Result<SourceStatement, AllocError>
    ensures { IfOk result (λ s. told s ≡ desugared_statement kinds.now (told said.now)) }
{
    match said {
        SourceStatement::Assign(place, change, by) => {
            let place = core_tree(alloc, kinds, place)?;
            Ok(SourceStatement::Assign(place, *change, core_tree(alloc, kinds, by)?))
        }
        SourceStatement::Act(verb, object, operands) => {
            let object = core_tree(alloc, kinds, object)?;
            Ok(SourceStatement::Act(*verb, object, core_tree(alloc, kinds, operands)?))
        }
        SourceStatement::Treat(deed, queue) => {
            Ok(SourceStatement::Treat(*deed, core_tree(alloc, kinds, queue)?))
        }
        SourceStatement::Draw => Ok(SourceStatement::Draw),
        SourceStatement::Wait(ticks) => Ok(SourceStatement::Wait(core_tree(alloc, kinds, ticks)?)),
        SourceStatement::Passivate => Ok(SourceStatement::Passivate),
        SourceStatement::Start(timer, ticks) => {
            let timer = core_tree(alloc, kinds, timer)?;
            Ok(SourceStatement::Start(timer, core_tree(alloc, kinds, ticks)?))
        }
        SourceStatement::Send(sent) => Ok(SourceStatement::Send(core_tree(alloc, kinds, sent)?)),
        SourceStatement::If(arms) => {
            let all = desugared_arms(alloc, kinds, arms)?;
            let last = no_else(alloc, draws_last(arms))?;
            chosen(alloc, all, last)
        }
        SourceStatement::IfElse(arms, last) => {
            let all = desugared_arms(alloc, kinds, arms)?;
            let last = desugared_behind(alloc, kinds, draws_last(arms), last)?;
            chosen(alloc, all, Some(last))
        }
        SourceStatement::Repeat(count, each) => {
            let each = desugared_behind(alloc, kinds, false, each)?;
            let count = copied(alloc, count)?;
            Ok(SourceStatement::Repeat(count, Box::new(alloc, each)?))
        }
    }
}

/// What a program comes to, behind `draw` or nothing.
#[cycle(desugars)]
fn desugared_behind(
    alloc: Global,
    kinds: &[Meaning],
    drawing: bool,
    program: &Block,
) -> Result<Block, AllocError>
    ensures { IfOk result
        (λ block. body block ≡ desugared_behind kinds.now drawing (body program.now)) }
{
    match program {
        Block::Empty => begun(alloc, drawing),
        Block::Then(before, last, marked) => {
            let before = desugared_behind(alloc, kinds, drawing, before)?;
            let last_draws = draws_in(last);
            let last = desugared_statement(alloc, kinds, last)?;
            followed(alloc, last_draws, before, last, *marked)
        }
    }
}

/// The arms of an `if`, of which tests and blocks are in the core.
#[cycle(desugars)]
fn desugared_arms(alloc: Global, kinds: &[Meaning], arms: &Arms) -> Result<Chain, AllocError>
    ensures { IfOk result (λ all. parted all ≡ desugared_arms kinds.now (chain arms.now)) }
{
    match arms {
        Arms::One(test, then) => {
            let then = Box::new(alloc, desugared_behind(alloc, kinds, draws(test), then)?)?;
            let last = Arms::One(core_tree(alloc, kinds, test)?, then);
            Ok(Chain {
                before: Vec::new(alloc),
                last,
            })
        }
        Arms::More(before, test, then) => {
            let so_far = desugared_arms(alloc, kinds, before)?;
            let then = desugared_behind(alloc, kinds, draws(test), then)?;
            let test = core_tree(alloc, kinds, test)?;
            further(alloc, draws_last(before), so_far, test, then)
        }
    }
}

/// Whether a program has no more levels than there may be, and no more than so many nodes.
fn is_within(program: &Block, many: usize) -> bool
    requires { many ≤ max_nodes }
    ensures { result ≡ is_within max_levels many (body program.now) }
{
    deep_block(program) <= MAX_LEVELS && nodes_block(program) <= many
}

/// The same of an expression.
fn is_within_tree(e: &SourceExpr, many: usize) -> bool
    requires { many ≤ max_nodes }
    ensures { result ≡ is_within_tree max_levels many (tree e.now) }
{
    deep(e) <= MAX_LEVELS && nodes(e) <= many
}

/// What a written program comes to, if that is within the limits; else the text is wrong at this place.
pub(crate) fn desugared(
    alloc: Global,
    names: Names<'_>,
    procedures: &[Block],
    written: &Block,
    many: usize,
    place: usize,
) -> Result<Block, Refused>
    requires { many ≤ max_nodes }
    ensures { Tells body result (limited max_levels many
        (desugared_block names.entry.timing names.entry.kinds.now (map body procedures.now)
        (body written.now))) }
{
    let Names { kinds, timing, .. } = names;
    let behind = desugared_behind(alloc, kinds, false, written)?;
    let parts = timed(alloc, timing, kinds, behind)?;
    if nodes_of(kinds, procedures, &parts) > many {
        return Err(Refused::Wrong(place));
    }
    let program = expanded(alloc, kinds, procedures, &parts)?;
    if is_within(&program, many) {
        Ok(program)
    } else {
        Err(Refused::Wrong(place))
    }
}

/// What a written expression comes to, if that is within the limits; else the text is wrong at this place.
pub(crate) fn desugared_tree(
    alloc: Global,
    timing: Option<Timing>,
    kinds: &[Meaning],
    written: &SourceExpr,
    many: usize,
    place: usize,
) -> Result<SourceExpr, Refused>
    requires { many ≤ max_nodes }
    ensures { Tells tree result
        (limited_tree max_levels many (desugared_text timing kinds.now (tree written.now))) }
{
    let core = core_tree(alloc, kinds, written)?;
    let e = timed_text(alloc, timing, kinds, core)?;
    if is_within_tree(&e, many) {
        Ok(e)
    } else {
        Err(Refused::Wrong(place))
    }
}
