//! What timers have at the start: how many there are, when they are due, and which of them goes first.
ghost use Rattle.std.specs.Prelude.{
  ◌≡◌,
  ◌++◌,
  ◌≤◌,
  ◌≤ℤ◌,
  pos,
  min,
  IfOk,
  OnOk,
  flat_map,
  option_and_then,
  replicate,
  sum_by,
};
ghost use Rattle.tw_machine.specs.Limits.{cells_end};
ghost use Rattle.tw_machine_text.specs.Limits.{max_count};
ghost use Rattle.tw_machine_declaration.specs.Seen as plain;
ghost use Rattle.tw_machine_declaration.specs.Names.{
  constant,
  due_first,
  due_ticks,
  earliest,
  first_place,
  greatest_index,
  least_ticks,
  next_timer,
  timer_count,
  timer_ticks,
};

use crate::declaration::{Constant, Given, Timer, Timers};
use crate::names::{constant, start_of};
use std::alloc::{AllocError, Global};
use tw_machine::limits::CELLS_END;
use tw_machine_text::MAX_COUNT;

/// How many timers are alike, at most 16.
pub fn timer_count(given: &Given, timer: Timer) -> u32
    ensures value { result ≡ timer_count (plain.given given.now) timer }
    ensures small { result ≤ max_count }
{
    match timer.count {
        Some(count) => start_of(given, count).max(0).min(MAX_COUNT as i64) as u32,
        None => 1,
    }
}

/// How many timers there are together, at most 257.
pub fn all_timers(given: &Given, timers: &[Timer]) -> u32
    ensures value { result
        ≡ min (sum_by (timer_count (plain.given given.now)) timers.now) cells_end }
    ensures small { result ≤ cells_end }
{
    let mut total = 0;
    for timer in timers {
        total = (total + timer_count(given, *timer)).min(CELLS_END as u32);
    }
    total
}

/// The greatest index of a timer.
pub(crate) fn greatest_index(given: &Given, timer: Timer) -> i64
    ensures { result ≡ pos (greatest_index (plain.given given.now) timer) }
{
    timer_count(given, timer).saturating_sub(1) as i64
}

/// The least number of ticks for which a timer runs.
fn least_ticks(given: &Given, least: Option<Constant>) -> i64
    ensures { result ≡ pos (least_ticks (plain.given given.now) least) }
{
    match least {
        Some(least) => start_of(given, least).max(0),
        None => 0,
    }
}

/// The tick at which a timer is due that is started for so many ticks at the start; -1 where it does not run.
fn due_first(least: i64, first: Option<i64>) -> i64
    requires { pos 0 ≤ℤ least }
    ensures { result ≡ due_first least first }
{
    match first {
        Some(first) if first >= 0 => first.max(least),
        _ => -1,
    }
}

/// When a timer is due.
fn due_of(given: &Given, least: i64, timer: Timer) -> i64
    requires { pos 0 ≤ℤ least }
    ensures { result
        ≡ due_first least (option_and_then (constant (plain.given given.now)) timer.first) }
{
    match timer.first {
        Some(first) => due_first(least, constant(given, first)),
        None => due_first(least, None),
    }
}

/// Appends a tick so many times.
fn push_ticks(count: u32, tick: i64, ticks: &mut Vec<i64>) -> Result<(), AllocError>
    ensures { OnOk result (ticks.new.items ≡ ticks.old.items ++ replicate count tick) }
{
    for i in 0..count {
        let _ = i;
        ticks.push(tick)?;
    }
    Ok(())
}

/// The ticks at which these timers are due at the start, in order.
fn ticks_of(
    alloc: Global,
    given: &Given,
    least: i64,
    timers: &[Timer],
) -> Result<Vec<i64>, AllocError>
    requires { pos 0 ≤ℤ least }
    ensures { IfOk result (λ ticks. ticks.items
        ≡ flat_map (timer_ticks (plain.given given.now) least) timers.now) }
{
    let mut ticks = Vec::new(alloc);
    for timer in timers {
        let count = timer_count(given, *timer);
        push_ticks(count, due_of(given, least, *timer), &mut ticks)?;
    }
    Ok(ticks)
}

/// The ticks at which timers are due at the start, in order; -1 of one that does not run. The only error is want of
/// memory.
pub fn due_ticks(alloc: Global, given: &Given, timers: &Timers) -> Result<Vec<i64>, AllocError>
    ensures { IfOk result
        (λ ticks. ticks.items ≡ due_ticks (plain.given given.now) (plain.timers timers.now)) }
{
    let least = least_ticks(given, timers.least);
    ticks_of(alloc, given, least, timers.each.as_slice())
}

/// The least tick at which a timer is due; none where none runs.
pub fn earliest(ticks: &[i64]) -> Option<u64>
    ensures { result ≡ earliest ticks.now }
{
    let (first, rest) = ticks.split_first()?;
    let later = earliest(rest);
    if *first < 0 {
        return later;
    }
    let tick = *first as u64;
    match later {
        Some(other) => Some(tick.min(other)),
        None => Some(tick),
    }
}

/// The place of the first timer that is due at a tick; -1 where none is.
fn first_place(ticks: &[i64], at: u64) -> i64
    ensures { result ≡ first_place 0 at ticks.now }
{
    for (place, tick) in ticks.iter().enumerate() {
        if *tick >= 0 && *tick as u64 == at {
            return place as i64;
        }
    }
    -1
}

/// The place of the timer that goes next: the first that is due at the least tick; -1 where none runs.
pub fn next_timer(ticks: &[i64]) -> i64
    ensures { result ≡ next_timer ticks.now }
{
    match earliest(ticks) {
        Some(tick) => first_place(ticks, tick),
        None => -1,
    }
}
