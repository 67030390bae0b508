//! What timers are in the core of the language, and what may stand in a machine with timers. Behind a machine's own names
//! stand those that timers need: the ticks at which they are due, the timer that goes next, and queues of what is to be
//! sent.
ghost use Rattle.std.specs.Prelude.{◌≡◌, ◌+◌, ◌≤◌, IfOk};
ghost use Rattle.tw_machine_text.specs.Limits.{max_count};
ghost use Rattle.tw_machine_text.specs.Timers.{
  in_time,
  in_time_statement,
  in_time_block,
  in_time_arms,
  may_stand,
  may_stand_as,
  lesser,
  greater,
  minus_one,
  before_of,
  last_of,
  placed_at,
  place_of,
  due_of,
  runs,
  rests,
  idle_from,
  idles,
  which_of,
  timed_name,
  timed_call,
  timed_tree,
  started,
  treated,
  sent,
  timed_statement,
  timed_block,
  timed_arms,
  timed,
  timed_text,
};
ghost use Rattle.tw_machine_text.specs.Tree.{Binary};
ghost use Rattle.tw_machine_text.specs.Views.{tree, told, body, chain};

use crate::binding::{bound_as, bound_block, uses};
use crate::desugaring::{copied, then};
use crate::drawn::{draws_none, few_drawn};
use crate::kinds::{Kind, Meaning, Member, Timing, stands_for};
use crate::limits::{LAST_DUE, MAX_COUNT};
use crate::tree::{Arms, Block, SourceExpr, SourceStatement};
use crate::words::{Builtin, Deed, Operator, SourceChange, Verb};
use std::alloc::{AllocError, Global};

/// Whether `left` and `which` stand where they may: `which` in a machine with timers, `left` in one without.
fn in_time(timed: bool, e: &SourceExpr) -> bool
    ensures { result ≡ in_time timed (tree e.now) }
{
    match e {
        SourceExpr::Known(Builtin::Left) => !timed,
        SourceExpr::Known(Builtin::Which) => timed,
        SourceExpr::Number(_) | SourceExpr::Name(_) | SourceExpr::Known(_) => true,
        SourceExpr::Indexed(_, inner)
        | SourceExpr::Call(_, inner)
        | SourceExpr::RandomBelow(inner)
        | SourceExpr::Group(inner)
        | SourceExpr::Negate(inner)
        | SourceExpr::Not(inner) => in_time(timed, inner),
        SourceExpr::Binary(_, a, b) => in_time(timed, a) && in_time(timed, b),
    }
}

#[cycle(keeps_time)]
fn in_time_statement(timed: bool, said: &SourceStatement) -> bool
    ensures { result ≡ in_time_statement timed (told said.now) }
{
    match said {
        SourceStatement::Draw => true,
        SourceStatement::Passivate => !timed,
        SourceStatement::Assign(place, _, e) => in_time(timed, place) && in_time(timed, e),
        SourceStatement::Act(_, object, e) => in_time(timed, object) && in_time(timed, e),
        SourceStatement::Treat(_, named) => in_time(timed, named),
        SourceStatement::Wait(e) => !timed && in_time(timed, e),
        SourceStatement::Start(timer, e) => timed && in_time(timed, timer) && in_time(timed, e),
        SourceStatement::Send(e) => timed && in_time(timed, e),
        SourceStatement::If(arms) => in_time_arms(timed, arms),
        SourceStatement::IfElse(arms, last) => {
            in_time_arms(timed, arms) && in_time_block(timed, last)
        }
        SourceStatement::Repeat(_, each) => in_time_block(timed, each),
    }
}

/// Whether `wait`, `passivate` and `left` stand in a machine without timers, and what is said of timers in one with them.
#[cycle(keeps_time)]
fn in_time_block(timed: bool, program: &Block) -> bool
    ensures { result ≡ in_time_block timed (body program.now) }
{
    match program {
        Block::Empty => true,
        Block::Then(before, last, _) => {
            in_time_block(timed, before) && in_time_statement(timed, last)
        }
    }
}

#[cycle(keeps_time)]
fn in_time_arms(timed: bool, arms: &Arms) -> bool
    ensures { result ≡ in_time_arms timed (chain arms.now) }
{
    match arms {
        Arms::One(test, then) => in_time(timed, test) && in_time_block(timed, then),
        Arms::More(before, test, then) => {
            in_time_arms(timed, before) && in_time(timed, test) && in_time_block(timed, then)
        }
    }
}

/// Whether each name of a program stands where it may, only the first so many procedures are used, no more numbers are
/// drawn than may be, and time is kept as the machine keeps it.
pub(crate) fn may_stand(
    timing: Option<Timing>,
    kinds: &[Meaning],
    known: usize,
    program: &Block,
) -> bool
    ensures { result ≡ may_stand timing kinds.now known (body program.now) }
{
    bound_block(kinds, program)
        && uses(kinds, known, program)
        && few_drawn(program)
        && in_time_block(timing.is_some(), program)
}

/// The same of a member's text, in which no number is drawn.
pub(crate) fn may_stand_as(
    timing: Option<Timing>,
    member: Member,
    kinds: &[Meaning],
    e: &SourceExpr,
) -> bool
    ensures { result ≡ may_stand_as timing member kinds.now (tree e.now) }
{
    bound_as(member, kinds, e) && draws_none(e) && in_time(timing.is_some(), e)
}

/// Two expressions, and what joins them. The only error is want of memory.
pub fn binary(
    alloc: Global,
    operator: Operator,
    a: SourceExpr,
    b: SourceExpr,
) -> Result<SourceExpr, AllocError>
    ensures { IfOk result (λ e. tree e ≡ Binary operator (tree a) (tree b)) }
{
    Ok(SourceExpr::Binary(operator, Box::new(alloc, a)?, Box::new(alloc, b)?))
}

fn lesser(alloc: Global, a: SourceExpr, b: SourceExpr) -> Result<SourceExpr, AllocError>
    ensures { IfOk result (λ e. tree e ≡ lesser (tree a) (tree b)) }
{
    let both = binary(alloc, Operator::Comma, a, b)?;
    Ok(SourceExpr::Call(0, Box::new(alloc, both)?))
}

fn greater(alloc: Global, a: SourceExpr, b: SourceExpr) -> Result<SourceExpr, AllocError>
    ensures { IfOk result (λ e. tree e ≡ greater (tree a) (tree b)) }
{
    let both = binary(alloc, Operator::Comma, a, b)?;
    Ok(SourceExpr::Call(1, Box::new(alloc, both)?))
}

/// The number -1. The only error is want of memory.
pub fn minus_one(alloc: Global) -> Result<SourceExpr, AllocError>
    ensures { IfOk result (λ e. tree e ≡ minus_one) }
{
    Ok(SourceExpr::Negate(Box::new(alloc, SourceExpr::Number(1))?))
}

/// The name of how many timers are before one.
fn before_of(kind: Kind) -> usize
    ensures { result ≡ before_of kind }
{
    match kind {
        Kind::Timer(before) | Kind::TimerArray(before, _) => before,
        _ => 0,
    }
}

/// The name of the greatest index of a timer with a count.
fn last_of(kind: Kind) -> usize
    ensures { result ≡ last_of kind }
{
    match kind {
        Kind::TimerArray(_, last) => last,
        _ => 0,
    }
}

/// The place of one of a timer with a count.
fn placed_at(
    alloc: Global,
    before: usize,
    last: usize,
    index: SourceExpr,
) -> Result<SourceExpr, AllocError>
    ensures { IfOk result (λ e. tree e ≡ placed_at before last (tree index)) }
{
    let positive = greater(alloc, index, SourceExpr::Number(0))?;
    let within = lesser(alloc, positive, SourceExpr::Name(last))?;
    binary(alloc, Operator::Plus, SourceExpr::Name(before), within)
}

/// The place of a timer among all.
fn place_of(alloc: Global, kinds: &[Meaning], timer: SourceExpr) -> Result<SourceExpr, AllocError>
    ensures { IfOk result (λ e. tree e ≡ place_of kinds.now (tree timer)) }
{
    match timer {
        SourceExpr::Name(name) => Ok(SourceExpr::Name(before_of(stands_for(kinds, name)))),
        SourceExpr::Indexed(name, index) => {
            let kind = stands_for(kinds, name);
            placed_at(
                alloc,
                before_of(kind),
                last_of(kind),
                Box::into_inner(index),
            )
        }
        other => Ok(other),
    }
}

/// The tick at which a timer is due.
fn due_of(
    alloc: Global,
    timing: Timing,
    kinds: &[Meaning],
    timer: SourceExpr,
) -> Result<SourceExpr, AllocError>
    ensures { IfOk result (λ e. tree e ≡ due_of timing kinds.now (tree timer)) }
{
    let place = place_of(alloc, kinds, timer)?;
    Ok(SourceExpr::Indexed(timing.due, Box::new(alloc, place)?))
}

/// Whether a timer runs.
fn runs(
    alloc: Global,
    timing: Timing,
    kinds: &[Meaning],
    timer: SourceExpr,
) -> Result<SourceExpr, AllocError>
    ensures { IfOk result (λ e. tree e ≡ runs timing kinds.now (tree timer)) }
{
    let due = due_of(alloc, timing, kinds, timer)?;
    let test = binary(alloc, Operator::GreaterEqual, due, SourceExpr::Number(0))?;
    Ok(SourceExpr::Group(Box::new(alloc, test)?))
}

/// In how many ticks a timer is due.
fn rests(
    alloc: Global,
    timing: Timing,
    kinds: &[Meaning],
    timer: SourceExpr,
) -> Result<SourceExpr, AllocError>
    ensures { IfOk result (λ e. tree e ≡ rests timing kinds.now (tree timer)) }
{
    let due = due_of(alloc, timing, kinds, timer)?;
    let rest = binary(alloc, Operator::Minus, due, SourceExpr::Known(Builtin::Now))?;
    greater(alloc, rest, minus_one(alloc)?)
}

/// `which`, in the text of a timer with a count or in another.
fn which_of(alloc: Global, timing: Timing) -> Result<SourceExpr, AllocError>
    ensures { IfOk result (λ e. tree e ≡ which_of timing) }
{
    match timing.of {
        Some(before) => {
            let next = SourceExpr::Name(timing.next);
            let which = binary(alloc, Operator::Minus, next, SourceExpr::Name(before))?;
            Ok(SourceExpr::Group(Box::new(alloc, which)?))
        }
        None => Ok(SourceExpr::Number(0)),
    }
}

fn timed_name(alloc: Global, timing: Timing, builtin: Builtin) -> Result<SourceExpr, AllocError>
    ensures { IfOk result (λ e. tree e ≡ timed_name timing builtin) }
{
    match builtin {
        Builtin::Which => which_of(alloc, timing),
        other => Ok(SourceExpr::Known(other)),
    }
}

/// The first of the timers that does not run, of so many that are left from an index on.
fn idle_from(
    alloc: Global,
    timing: Timing,
    names: (usize, usize),
    index: u64,
    left: u64,
) -> Result<SourceExpr, AllocError>
    requires { index + left ≤ max_count }
    ensures { IfOk result (λ e. tree e ≡ idle_from timing names.0 names.1 index left) }
{
    if left == 0 {
        return minus_one(alloc);
    }
    let others = idle_from(alloc, timing, names, index + 1, left - 1)?;
    let within = lesser(alloc, SourceExpr::Number(index), SourceExpr::Name(names.1))?;
    let place = binary(alloc, Operator::Plus, SourceExpr::Name(names.0), within)?;
    let due = SourceExpr::Indexed(timing.due, Box::new(alloc, place)?);
    let test = binary(alloc, Operator::Less, due, SourceExpr::Number(0))?;
    let first = binary(alloc, Operator::Comma, test, SourceExpr::Number(index))?;
    let all = binary(alloc, Operator::Comma, first, others)?;
    Ok(SourceExpr::Call(2, Box::new(alloc, all)?))
}

/// The first of the timers that are alike that does not run.
fn idles(
    alloc: Global,
    timing: Timing,
    kinds: &[Meaning],
    timers: SourceExpr,
) -> Result<SourceExpr, AllocError>
    ensures { IfOk result (λ e. tree e ≡ idles timing kinds.now (tree timers)) }
{
    match timers {
        SourceExpr::Name(name) => {
            let kind = stands_for(kinds, name);
            idle_from(
                alloc,
                timing,
                (before_of(kind), last_of(kind)),
                0,
                MAX_COUNT,
            )
        }
        other => Ok(other),
    }
}

/// A function of arguments that are in the core.
fn timed_call(
    alloc: Global,
    timing: Timing,
    kinds: &[Meaning],
    name: usize,
    arguments: SourceExpr,
) -> Result<SourceExpr, AllocError>
    ensures { IfOk result (λ e. tree e ≡ timed_call timing kinds.now name (tree arguments)) }
{
    if name == 12 {
        runs(alloc, timing, kinds, arguments)
    } else if name == 13 {
        rests(alloc, timing, kinds, arguments)
    } else if name == 14 {
        idles(alloc, timing, kinds, arguments)
    } else {
        Ok(SourceExpr::Call(name, Box::new(alloc, arguments)?))
    }
}

/// An expression without timers.
fn timed_tree(
    alloc: Global,
    timing: Timing,
    kinds: &[Meaning],
    e: &SourceExpr,
) -> Result<SourceExpr, AllocError>
    ensures { IfOk result (λ core. tree core ≡ timed_tree timing kinds.now (tree e.now)) }
{
    match e {
        SourceExpr::Number(number) => Ok(SourceExpr::Number(*number)),
        SourceExpr::Name(name) => Ok(SourceExpr::Name(*name)),
        SourceExpr::Known(builtin) => timed_name(alloc, timing, *builtin),
        SourceExpr::Indexed(name, index) => Ok(SourceExpr::Indexed(
            *name,
            Box::new(alloc, timed_tree(alloc, timing, kinds, index)?)?,
        )),
        SourceExpr::Call(name, arguments) => {
            let arguments = timed_tree(alloc, timing, kinds, arguments)?;
            timed_call(alloc, timing, kinds, *name, arguments)
        }
        SourceExpr::RandomBelow(below) => Ok(SourceExpr::RandomBelow(Box::new(
            alloc,
            timed_tree(alloc, timing, kinds, below)?,
        )?)),
        SourceExpr::Group(inner) => Ok(SourceExpr::Group(Box::new(
            alloc,
            timed_tree(alloc, timing, kinds, inner)?,
        )?)),
        SourceExpr::Negate(inner) => Ok(SourceExpr::Negate(Box::new(
            alloc,
            timed_tree(alloc, timing, kinds, inner)?,
        )?)),
        SourceExpr::Not(inner) => Ok(SourceExpr::Not(Box::new(
            alloc,
            timed_tree(alloc, timing, kinds, inner)?,
        )?)),
        SourceExpr::Binary(operator, a, b) => {
            let a = timed_tree(alloc, timing, kinds, a)?;
            let b = timed_tree(alloc, timing, kinds, b)?;
            binary(alloc, *operator, a, b)
        }
    }
}

/// The tick at which a timer is due that is started for so many ticks.
fn started(alloc: Global, timing: Timing, ticks: SourceExpr) -> Result<SourceExpr, AllocError>
    ensures { IfOk result (λ e. tree e ≡ started timing (tree ticks)) }
{
    let least = greater(alloc, ticks, SourceExpr::Name(timing.least))?;
    let within = lesser(alloc, least, SourceExpr::Number(LAST_DUE))?;
    binary(
        alloc,
        Operator::Plus,
        SourceExpr::Known(Builtin::Now),
        within,
    )
}

/// `stop`, or what is done to a queue or a procedure.
fn treated(
    alloc: Global,
    timing: Timing,
    kinds: &[Meaning],
    deed: Deed,
    named: SourceExpr,
) -> Result<SourceStatement, AllocError>
    ensures { IfOk result (λ s. told s ≡ treated timing kinds.now deed (tree named)) }
{
    match deed {
        Deed::Stop => {
            let due = due_of(alloc, timing, kinds, named)?;
            Ok(SourceStatement::Assign(due, SourceChange::Set, minus_one(alloc)?))
        }
        other => Ok(SourceStatement::Treat(other, named)),
    }
}

/// A statement behind others; `send` is two.
fn sent(
    alloc: Global,
    timing: Timing,
    before: Block,
    last: SourceStatement,
    marked: bool,
) -> Result<Block, AllocError>
    ensures { IfOk result (λ block. body block ≡ sent timing (body before) (told last) marked) }
{
    match last {
        SourceStatement::Send(SourceExpr::Binary(Operator::Comma, port, value)) => {
            let ports = SourceExpr::Name(timing.ports);
            let port = SourceStatement::Act(Verb::Push, ports, Box::into_inner(port));
            let values = SourceExpr::Name(timing.values);
            let value = SourceStatement::Act(Verb::Push, values, Box::into_inner(value));
            let block = then(alloc, before, port, false)?;
            then(alloc, block, value, marked)
        }
        other => then(alloc, before, other, marked),
    }
}

#[cycle(times)]
fn timed_statement(
    alloc: Global,
    timing: Timing,
    kinds: &[Meaning],
    said: &SourceStatement,
) -> Result<SourceStatement, AllocError>
    ensures { IfOk result (λ s. told s ≡ timed_statement timing kinds.now (told said.now)) }
{
    match said {
        SourceStatement::Assign(place, change, by) => {
            let place = timed_tree(alloc, timing, kinds, place)?;
            let by = timed_tree(alloc, timing, kinds, by)?;
            Ok(SourceStatement::Assign(place, *change, by))
        }
        SourceStatement::Act(verb, object, operands) => {
            let object = timed_tree(alloc, timing, kinds, object)?;
            let operands = timed_tree(alloc, timing, kinds, operands)?;
            Ok(SourceStatement::Act(*verb, object, operands))
        }
        SourceStatement::Treat(deed, named) => {
            let named = timed_tree(alloc, timing, kinds, named)?;
            treated(alloc, timing, kinds, *deed, named)
        }
        SourceStatement::Draw => Ok(SourceStatement::Draw),
        SourceStatement::Wait(ticks) => Ok(SourceStatement::Wait(timed_tree(
            alloc, timing, kinds, ticks,
        )?)),
        SourceStatement::Passivate => Ok(SourceStatement::Passivate),
        SourceStatement::Start(timer, ticks) => {
            let timer = timed_tree(alloc, timing, kinds, timer)?;
            let due = due_of(alloc, timing, kinds, timer)?;
            let ticks = timed_tree(alloc, timing, kinds, ticks)?;
            let at = started(alloc, timing, ticks)?;
            Ok(SourceStatement::Assign(due, SourceChange::Set, at))
        }
        SourceStatement::Send(sent) => Ok(SourceStatement::Send(timed_tree(
            alloc, timing, kinds, sent,
        )?)),
        SourceStatement::If(arms) => {
            let arms = timed_arms(alloc, timing, kinds, arms)?;
            Ok(SourceStatement::If(Box::new(alloc, arms)?))
        }
        SourceStatement::IfElse(arms, last) => {
            let arms = timed_arms(alloc, timing, kinds, arms)?;
            let last = timed_block(alloc, timing, kinds, last)?;
            Ok(SourceStatement::IfElse(Box::new(alloc, arms)?, Box::new(alloc, last)?))
        }
        SourceStatement::Repeat(count, each) => {
            let each = timed_block(alloc, timing, kinds, each)?;
            let count = copied(alloc, count)?;
            Ok(SourceStatement::Repeat(count, Box::new(alloc, each)?))
        }
    }
}

#[cycle(times)]
fn timed_block(
    alloc: Global,
    timing: Timing,
    kinds: &[Meaning],
    program: &Block,
) -> Result<Block, AllocError>
    ensures { IfOk result (λ block. body block ≡ timed_block timing kinds.now (body program.now)) }
{
    match program {
        Block::Empty => Ok(Block::Empty),
        Block::Then(before, last, marked) => {
            let before = timed_block(alloc, timing, kinds, before)?;
            let last = timed_statement(alloc, timing, kinds, last)?;
            sent(alloc, timing, before, last, *marked)
        }
    }
}

#[cycle(times)]
fn timed_arms(
    alloc: Global,
    timing: Timing,
    kinds: &[Meaning],
    arms: &Arms,
) -> Result<Arms, AllocError>
    ensures { IfOk result (λ all. chain all ≡ timed_arms timing kinds.now (chain arms.now)) }
{
    match arms {
        Arms::One(test, then) => {
            let test = timed_tree(alloc, timing, kinds, test)?;
            let then = timed_block(alloc, timing, kinds, then)?;
            Ok(Arms::One(test, Box::new(alloc, then)?))
        }
        Arms::More(before, test, then) => {
            let before = timed_arms(alloc, timing, kinds, before)?;
            let test = timed_tree(alloc, timing, kinds, test)?;
            let then = timed_block(alloc, timing, kinds, then)?;
            Ok(Arms::More(Box::new(alloc, before)?, test, Box::new(alloc, then)?))
        }
    }
}

/// A program in the core, of a machine with timers or without.
pub(crate) fn timed(
    alloc: Global,
    timing: Option<Timing>,
    kinds: &[Meaning],
    program: Block,
) -> Result<Block, AllocError>
    ensures { IfOk result (λ block. body block ≡ timed timing kinds.now (body program)) }
{
    match timing {
        Some(timing) => timed_block(alloc, timing, kinds, &program),
        None => Ok(program),
    }
}

/// The same of an expression.
pub(crate) fn timed_text(
    alloc: Global,
    timing: Option<Timing>,
    kinds: &[Meaning],
    e: SourceExpr,
) -> Result<SourceExpr, AllocError>
    ensures { IfOk result (λ core. tree core ≡ timed_text timing kinds.now (tree e)) }
{
    match timing {
        Some(timing) => timed_tree(alloc, timing, kinds, &e),
        None => Ok(e),
    }
}
