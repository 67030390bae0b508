//! What a machine with timers does, sends and waits for, in the core of the language. Its internal program is that of the
//! timer that goes, or empties what was to be sent; each program ends with the choice of the timer that goes next.
ghost use Rattle.std.specs.Prelude.{
  ◌≡◌,
  ◌<◌,
  ◌+◌,
  ◌^◌,
  ◌++◌,
  IfOk,
  OnOk,
  length,
  map,
  option_map,
  suc,
};
ghost use Rattle.tw_machine_text.specs.Views.{tree, told, body, chain};
ghost use Rattle.tw_machine_declaration.specs.Seen as plain;
ghost use Rattle.tw_machine_declaration.specs.Timed.{
  both,
  choice_behind,
  due_at,
  emptied,
  ended,
  goes,
  goes_sooner,
  internal,
  is_timed,
  is_to_send,
  lies_before,
  lies_in,
  looked,
  next_rest,
  next_tree,
  none_runs,
  nothing_to_send,
  only,
  outbox_output,
  outbox_outputs,
  outputs,
  passive_behind,
  ports_name,
  sends_or_goes,
  sent_by,
  stopped,
  test_of,
  told_apart,
  waiting,
  waits,
  with_test,
  zero_tree,
};
ghost use Rattle.tw_machine_declaration.specs.TimedViews.{named, timer_output};
ghost use Rattle.tw_machine_text.specs.Tree.{Assign, Call, Known, Name, One};
ghost use Rattle.tw_machine_text.specs.declared.words.Builtin.TheVariants.{Turn};
ghost use Rattle.tw_machine_text.specs.declared.words.SourceChange.TheVariants.{Set};

use crate::declaration::{OutputText, TimerOutput, Value};
use crate::timer_names::TimerNames;
use std::alloc::{AllocError, Global};
use std::collections::VecDeque;
use tw_machine_text::{
    Arms, Block, Builtin, Deed, Operator, SourceChange, SourceExpr, SourceStatement, binary,
    joined, minus_one, then,
};

/// The function `length`, by its number.
const LENGTH: usize = 3;

/// The function `at`, by its number.
const AT: usize = 8;

/// A program of one statement.
fn only(alloc: Global, said: SourceStatement) -> Result<Block, AllocError>
    ensures { IfOk result (λ b. body b ≡ only (told said)) }
{
    then(alloc, Block::Empty, said, false)
}

/// A function of these arguments.
fn call(alloc: Global, function: usize, arguments: SourceExpr) -> Result<SourceExpr, AllocError>
    ensures { IfOk result (λ e. tree e ≡ Call function (tree arguments)) }
{
    Ok(SourceExpr::Call(function, Box::new(alloc, arguments)?))
}

/// A register is set.
fn set(place: SourceExpr, to: SourceExpr) -> SourceStatement
    ensures { told result ≡ Assign (tree place) Set (tree to) }
{
    SourceStatement::Assign(place, SourceChange::Set, to)
}

/// The tick at which the timer at a place is due.
fn due_at(alloc: Global, names: TimerNames, place: SourceExpr) -> Result<SourceExpr, AllocError>
    ensures { IfOk result (λ e. tree e ≡ due_at (named names) (tree place)) }
{
    Ok(SourceExpr::Indexed(names.due(), Box::new(alloc, place)?))
}

/// The same of the timer that goes next.
fn due_next(alloc: Global, names: TimerNames) -> Result<SourceExpr, AllocError>
    ensures { IfOk result (λ e. tree e ≡ due_at (named names) (next_tree (named names))) }
{
    due_at(alloc, names, SourceExpr::Name(names.next()))
}

/// The same of the timer of this turn.
fn due_turn(alloc: Global, names: TimerNames) -> Result<SourceExpr, AllocError>
    ensures { IfOk result (λ e. tree e ≡ due_at (named names) (Known Turn)) }
{
    due_at(alloc, names, SourceExpr::Known(Builtin::Turn))
}

/// Whether the timer of this turn runs and is due before all so far.
fn goes_sooner(alloc: Global, names: TimerNames) -> Result<SourceExpr, AllocError>
    ensures { IfOk result (λ e. tree e ≡ goes_sooner (named names)) }
{
    let turn = due_turn(alloc, names)?;
    let runs = binary(alloc, Operator::GreaterEqual, turn, SourceExpr::Number(0))?;
    let none = none_runs(alloc, names)?;
    let turn = due_turn(alloc, names)?;
    let sooner = binary(alloc, Operator::Less, turn, due_next(alloc, names)?)?;
    let first = binary(alloc, Operator::Or, none, sooner)?;
    let first = SourceExpr::Group(Box::new(alloc, first)?);
    binary(alloc, Operator::And, runs, first)
}

/// All timers are looked at, for the first of those that are due soonest.
fn looked(alloc: Global, names: TimerNames) -> Result<SourceStatement, AllocError>
    ensures { IfOk result (λ s. told s ≡ looked (named names)) }
{
    let test = goes_sooner(alloc, names)?;
    let next = SourceExpr::Name(names.next());
    let chosen = only(alloc, set(next, SourceExpr::Known(Builtin::Turn)))?;
    let arms = Arms::One(test, Box::new(alloc, chosen)?);
    let each = only(alloc, SourceStatement::If(Box::new(alloc, arms)?))?;
    let all = SourceExpr::Name(names.before(names.timers));
    Ok(SourceStatement::Repeat(all, Box::new(alloc, each)?))
}

/// The timer that goes next is chosen behind a program, where there are timers.
fn choice_behind(alloc: Global, names: TimerNames, before: Block) -> Result<Block, AllocError>
    ensures { IfOk result (λ b. body b ≡ choice_behind (named names) (body before)) }
{
    if names.timers == 0 {
        return Ok(before);
    }
    let none = set(SourceExpr::Name(names.next()), minus_one(alloc)?);
    let before = then(alloc, before, none, false)?;
    then(alloc, before, looked(alloc, names)?, false)
}

/// How many items are to be sent.
fn items(alloc: Global, names: TimerNames) -> Result<SourceExpr, AllocError>
    ensures { IfOk result (λ e. tree e ≡ Call 3 (Name (ports_name (named names)))) }
{
    call(alloc, LENGTH, SourceExpr::Name(names.ports()))
}

/// Whether something is to be sent.
fn is_to_send(alloc: Global, names: TimerNames) -> Result<SourceExpr, AllocError>
    ensures { IfOk result (λ e. tree e ≡ is_to_send (named names)) }
{
    let items = items(alloc, names)?;
    binary(alloc, Operator::Greater, items, SourceExpr::Number(0))
}

/// Whether no timer runs.
fn none_runs(alloc: Global, names: TimerNames) -> Result<SourceExpr, AllocError>
    ensures { IfOk result (λ e. tree e ≡ none_runs (named names)) }
{
    let next = SourceExpr::Name(names.next());
    binary(alloc, Operator::Less, next, SourceExpr::Number(0))
}

/// A program that waits.
fn waits(alloc: Global, ticks: SourceExpr) -> Result<Block, AllocError>
    ensures { IfOk result (λ b. body b ≡ waits (tree ticks)) }
{
    only(alloc, SourceStatement::Wait(ticks))
}

/// In how many ticks the next timer is due.
fn next_rest(alloc: Global, names: TimerNames) -> Result<SourceExpr, AllocError>
    ensures { IfOk result (λ e. tree e ≡ next_rest (named names)) }
{
    let due = due_next(alloc, names)?;
    binary(alloc, Operator::Minus, due, SourceExpr::Known(Builtin::Now))
}

/// What is waited for where something may be to be sent.
fn waits_at_once(alloc: Global, names: TimerNames) -> Result<Arms, AllocError>
    ensures { IfOk result (λ arms. chain arms ≡ One (is_to_send (named names)) (waits zero_tree)) }
{
    let test = is_to_send(alloc, names)?;
    let at_once = waits(alloc, SourceExpr::Number(0))?;
    Ok(Arms::One(test, Box::new(alloc, at_once)?))
}

/// The arms of what is waited for: nothing, where no timer runs, behind those of what is to be sent.
fn passive_behind(
    alloc: Global,
    names: TimerNames,
    before: Option<Arms>,
) -> Result<Arms, AllocError>
    ensures { IfOk result
        (λ arms. chain arms ≡ passive_behind (named names) (option_map chain before)) }
{
    let test = none_runs(alloc, names)?;
    let passive = Box::new(alloc, only(alloc, SourceStatement::Passivate)?)?;
    match before {
        Some(arms) => Ok(Arms::More(Box::new(alloc, arms)?, test, passive)),
        None => Ok(Arms::One(test, passive)),
    }
}

/// What is waited for: to send, or for the next timer.
fn waiting(alloc: Global, names: TimerNames, sends: bool) -> Result<SourceStatement, AllocError>
    ensures { IfOk result (λ s. told s ≡ waiting (named names) sends (is_timed (named names))) }
{
    let at_once = if sends {
        Some(waits_at_once(alloc, names)?)
    } else {
        None
    };
    if names.timers > 0 {
        let arms = passive_behind(alloc, names, at_once)?;
        let last = waits(alloc, next_rest(alloc, names)?)?;
        return Ok(SourceStatement::IfElse(Box::new(alloc, arms)?, Box::new(alloc, last)?));
    }
    match at_once {
        Some(arms) => {
            let last = only(alloc, SourceStatement::Passivate)?;
            Ok(SourceStatement::IfElse(Box::new(alloc, arms)?, Box::new(alloc, last)?))
        }
        None => Ok(SourceStatement::Passivate),
    }
}

/// A program of a machine with timers, with its end: the choice of the next timer, and the wait for it. The only error is
/// want of memory.
pub fn ended(
    alloc: Global,
    names: TimerNames,
    sends: bool,
    program: Block,
) -> Result<Block, AllocError>
    ensures { IfOk result (λ b. body b ≡ ended (named names) sends (body program)) }
{
    let chosen = choice_behind(alloc, names, program)?;
    then(alloc, chosen, waiting(alloc, names, sends)?, false)
}

/// The timer that goes is stopped.
fn stopped(alloc: Global, names: TimerNames) -> Result<Block, AllocError>
    ensures { IfOk result (λ b. body b ≡ stopped (named names)) }
{
    let due = due_next(alloc, names)?;
    only(alloc, set(due, minus_one(alloc)?))
}

/// Whether the timer that goes is before the one at a place in the file.
fn lies_before(alloc: Global, names: TimerNames, timer: usize) -> Result<SourceExpr, AllocError>
    ensures { IfOk result (λ e. tree e ≡ lies_before (named names) timer) }
{
    let next = SourceExpr::Name(names.next());
    binary(
        alloc,
        Operator::Less,
        next,
        SourceExpr::Name(names.before(timer)),
    )
}

/// Whether it is before the one behind that.
fn lies_behind(alloc: Global, names: TimerNames, timer: usize) -> Result<SourceExpr, AllocError>
    ensures { IfOk result (λ e. tree e ≡ lies_before (named names) (suc timer)) }
{
    let next = SourceExpr::Name(names.next());
    binary(
        alloc,
        Operator::Less,
        next,
        SourceExpr::Name(names.behind(timer)),
    )
}

/// The programs of the timers from a place in the file on, behind the arms of those before.
fn told_apart(
    alloc: Global,
    names: TimerNames,
    timer: usize,
    arms: Arms,
    program: Block,
    rest: VecDeque<Block>,
) -> Result<SourceStatement, AllocError>
    requires { timer + length rest.items < 2 ^ 64 }
    ensures { IfOk result (λ s. told s
        ≡ told_apart (named names) timer (chain arms) (body program) (map body rest.items)) }
{
    let mut rest = rest;
    let arms = Box::new(alloc, arms)?;
    let program = Box::new(alloc, program)?;
    match rest.pop_front() {
        Some(more) => {
            let test = lies_behind(alloc, names, timer)?;
            let arms = Arms::More(arms, test, program);
            told_apart(alloc, names, timer + 1, arms, more, rest)
        }
        None => Ok(SourceStatement::IfElse(arms, program)),
    }
}

/// The timer that goes is stopped, and what it does is done.
fn goes(alloc: Global, names: TimerNames, programs: VecDeque<Block>) -> Result<Block, AllocError>
    ensures { IfOk result (λ b. body b ≡ goes (named names) (map body programs.items)) }
{
    let mut programs = programs;
    let Some(first) = programs.pop_front() else {
        return Ok(Block::Empty);
    };
    let stopped = stopped(alloc, names)?;
    match programs.pop_front() {
        Some(more) => {
            let test = lies_before(alloc, names, 1)?;
            let arms = Arms::One(test, Box::new(alloc, first)?);
            let told = told_apart(alloc, names, 1, arms, more, programs)?;
            then(alloc, stopped, told, false)
        }
        None => joined(alloc, stopped, &first),
    }
}

/// What was to be sent is gone.
fn emptied(alloc: Global, names: TimerNames) -> Result<Block, AllocError>
    ensures { IfOk result (λ b. body b ≡ emptied (named names)) }
{
    let ports = SourceStatement::Treat(Deed::Clear, SourceExpr::Name(names.ports()));
    let values = SourceStatement::Treat(Deed::Clear, SourceExpr::Name(names.values()));
    then(alloc, only(alloc, ports)?, values, false)
}

/// What was to be sent is gone, or a timer goes.
fn sends_or_goes(
    alloc: Global,
    names: TimerNames,
    sends: bool,
    programs: VecDeque<Block>,
) -> Result<Block, AllocError>
    ensures { IfOk result (λ b. body b
        ≡ sends_or_goes (named names) sends (is_timed (named names)) (map body programs.items)) }
{
    if !sends {
        return goes(alloc, names, programs);
    }
    let emptied = emptied(alloc, names)?;
    if names.timers == 0 {
        return Ok(emptied);
    }
    let test = is_to_send(alloc, names)?;
    let arms = Arms::One(test, Box::new(alloc, emptied)?);
    let last = goes(alloc, names, programs)?;
    let said = SourceStatement::IfElse(Box::new(alloc, arms)?, Box::new(alloc, last)?);
    only(alloc, said)
}

/// The internal program of a machine whose timers do this, in order. The only error is want of memory.
pub fn internal(
    alloc: Global,
    names: TimerNames,
    sends: bool,
    programs: Vec<Block>,
) -> Result<Block, AllocError>
    ensures { IfOk result (λ b. body b ≡ internal (named names) sends (map body programs.items)) }
{
    let programs = VecDeque::from_vec(programs);
    let program = sends_or_goes(alloc, names, sends, programs)?;
    ended(alloc, names, sends, program)
}

/// A test behind another, if there is one.
fn both(
    alloc: Global,
    before: Option<SourceExpr>,
    test: SourceExpr,
) -> Result<SourceExpr, AllocError>
    ensures { IfOk result (λ e. tree e ≡ both (option_map tree before) (tree test)) }
{
    match before {
        Some(before) => binary(alloc, Operator::And, before, test),
        None => Ok(test),
    }
}

/// Whether the timer that goes is the one at a place in the file, or one of as many.
fn lies_in(
    alloc: Global,
    names: TimerNames,
    timer: usize,
    counted: bool,
    before: Option<SourceExpr>,
) -> Result<SourceExpr, AllocError>
    ensures { IfOk result (λ e. tree e ≡ lies_in (named names) timer counted (option_map tree before)) }
{
    let next = SourceExpr::Name(names.next());
    let first = SourceExpr::Name(names.before(timer));
    if !counted {
        let test = binary(alloc, Operator::Equal, next, first)?;
        return both(alloc, before, test);
    }
    let test = binary(alloc, Operator::GreaterEqual, next, first)?;
    let from = both(alloc, before, test)?;
    let to = lies_behind(alloc, names, timer)?;
    binary(alloc, Operator::And, from, to)
}

/// Whether nothing is to be sent, where something may be.
fn nothing_to_send(
    alloc: Global,
    names: TimerNames,
    sends: bool,
) -> Result<Option<SourceExpr>, AllocError>
    ensures { IfOk result (λ test. option_map tree test ≡ nothing_to_send (named names) sends) }
{
    if !sends {
        return Ok(None);
    }
    let items = items(alloc, names)?;
    Ok(Some(binary(alloc, Operator::Equal, items, SourceExpr::Number(0))?))
}

/// A condition, of which counts only whether it is 0.
fn test_of(when: Value) -> SourceExpr
    ensures { tree result ≡ test_of (plain.value when) }
{
    match when {
        Value::Number(number) => SourceExpr::Number(if number == 0 { 0 } else { 1 }),
        Value::Text(tree) => tree,
    }
}

/// A test, and a condition behind it if there is one.
fn with_test(alloc: Global, when: Option<Value>, test: SourceExpr) -> Result<SourceExpr, AllocError>
    ensures { IfOk result
        (λ e. tree e ≡ with_test (option_map plain.value when) (tree test)) }
{
    match when {
        Some(when) => {
            let when = SourceExpr::Group(Box::new(alloc, test_of(when))?);
            binary(alloc, Operator::And, test, when)
        }
        None => Ok(test),
    }
}

/// An output of a timer: it is sent where that timer goes and nothing else is to be sent.
fn sent_by(
    alloc: Global,
    names: TimerNames,
    sends: bool,
    sent: TimerOutput,
) -> Result<OutputText, AllocError>
    ensures { IfOk result (λ o. plain.output o ≡ sent_by (named names) sends (timer_output sent)) }
{
    let TimerOutput {
        timer,
        counted,
        output,
    } = sent;
    let OutputText {
        port,
        value,
        when,
        each,
    } = output;
    let nothing = nothing_to_send(alloc, names, sends)?;
    let test = lies_in(alloc, names, timer, counted, nothing)?;
    let test = with_test(alloc, when, test)?;
    Ok(OutputText {
        port,
        value,
        when: Some(Value::Text(test)),
        each,
    })
}

/// What is to be sent, in the order of sending.
fn outbox_output(alloc: Global, names: TimerNames) -> Result<OutputText, AllocError>
    ensures { IfOk result (λ o. plain.output o ≡ outbox_output (named names)) }
{
    let ports = SourceExpr::Name(names.ports());
    let turn = SourceExpr::Known(Builtin::Turn);
    let arguments = binary(alloc, Operator::Comma, ports, turn)?;
    Ok(OutputText {
        port: Value::Text(call(alloc, AT, arguments)?),
        value: Value::Text(SourceExpr::Known(Builtin::Value)),
        when: None,
        each: Some(SourceExpr::Name(names.values())),
    })
}

/// What is to be sent, where something is sent.
fn outbox_outputs(
    alloc: Global,
    names: TimerNames,
    sends: bool,
) -> Result<Vec<OutputText>, AllocError>
    ensures { IfOk result
        (λ v. map plain.output v.items ≡ outbox_outputs (named names) sends) }
{
    let mut outputs = Vec::new(alloc);
    if !sends {
        return Ok(outputs);
    }
    outputs.push(outbox_output(alloc, names)?)?;
    Ok(outputs)
}

/// Appends what timers send.
fn push_sent(
    alloc: Global,
    names: TimerNames,
    sends: bool,
    sent: Vec<TimerOutput>,
    outputs: &mut Vec<OutputText>,
) -> Result<(), AllocError>
    ensures { OnOk result (map plain.output outputs.new.items ≡ map plain.output outputs.old.items
        ++ map (sent_by (named names) sends) (map timer_output sent.items)) }
{
    for one in sent {
        outputs.push(sent_by(alloc, names, sends, one)?)?;
    }
    Ok(())
}

/// What a machine sends whose timers send this. The only error is want of memory.
pub fn timed_outputs(
    alloc: Global,
    names: TimerNames,
    sends: bool,
    sent: Vec<TimerOutput>,
) -> Result<Vec<OutputText>, AllocError>
    ensures { IfOk result (λ v. map plain.output v.items
        ≡ outputs (named names) sends (map timer_output sent.items)) }
{
    let mut outputs = outbox_outputs(alloc, names, sends)?;
    push_sent(alloc, names, sends, sent, &mut outputs)?;
    Ok(outputs)
}
