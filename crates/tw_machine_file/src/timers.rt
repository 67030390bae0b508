//! The timers that a machine declares.
ghost use Rattle.std.specs.Prelude.{◌≡◌, ◌≤◌, ◌+◌, IfOk, length};
ghost use Rattle.serde_json.specs.Events.{items_len};
ghost use Rattle.serde_json.specs.View.{view, items_view, members_view};
ghost use Rattle.tw_machine_declaration.specs.Limits.{max_timer_names};
ghost use Rattle.tw_machine_declaration.specs.Seen.{thing};
ghost use Rattle.tw_machine_declaration.specs.Timed.{names_behind};
ghost use Rattle.tw_machine_declaration.specs.TimedViews.{named};
ghost use Rattle.tw_machine_file.specs.Answers.{Gives, FailsBy, data_of};
ghost use Rattle.tw_machine_file.specs.Constants.{numbers_in};
ghost use Rattle.tw_machine_file.specs.Seen.{scope};
ghost use Rattle.tw_machine_file.specs.Timers.{
  count_in,
  entry_of,
  few_timers,
  first_in,
  least_in,
  name_of,
  names_of,
  timer_in,
  timer_named,
  timer_of,
  timer_thing,
  timers_in,
  timers_named,
  with_timer,
};

use crate::constants::{Numbers, constant, count};
use crate::declarations::{Scope, new_name};
use crate::fault::{MachineFault, Part, Why};
use crate::names::is_name;
use crate::values::{are_among, are_few, items_of};
use serde_json::{Map, Value};
use std::alloc::{AllocError, Global};
use tw_machine_compiler::{Constant, Named, Thing, Timer};
use tw_machine_declaration::{MAX_TIMER_NAMES, TimerNames};
use tw_machine_text::MAX_COUNT;
use tw_vtime::MAX_TICK;

/// The members of a timer.
const MEMBERS: [&[u8]; 5] = [b"name", b"count", b"first", b"do", b"output"];

impl Scope {
    /// The hidden names of its timers, once all are declared.
    pub fn timer_names(&self) -> TimerNames
        ensures { named result ≡ names_of (scope self.now) }
    {
        TimerNames::new(self.names.len(), self.timers.len())
    }
}

/// The members of a timer, an object of these alone.
fn entry(place: usize, value: &Value) -> Result<&Map<String, Value>, MachineFault>
    ensures ok { Gives result
        (λ ms. members_view ms.now.entries) (entry_of place (view value.now)) }
    ensures err { FailsBy result (entry_of place (view value.now)) }
{
    let Some(members) = value.as_object() else {
        return Err(MachineFault::Wrong(Part::Timer(place), Why::Shape));
    };
    if !are_among(&MEMBERS, members) {
        return Err(MachineFault::Wrong(Part::Timer(place), Why::Unknown));
    }
    Ok(members)
}

/// The name of a timer, which must be there.
fn name_of<'a>(place: usize, member: Option<&'a Value>) -> Result<&'a str, MachineFault>
    ensures ok { Gives result (λ t. t.now) (name_of place (data_of member.entry)) }
    ensures err { FailsBy result (name_of place (data_of member.entry)) }
{
    let Some(value) = member else {
        return Err(MachineFault::Wrong(Part::TimerName(place), Why::Missing));
    };
    match value.as_str() {
        Some(name) => Ok(name),
        None => Err(MachineFault::Wrong(Part::TimerName(place), Why::Shape)),
    }
}

/// How many timers are alike, if that is said.
fn count_in(
    place: usize,
    numbers: &Numbers,
    member: Option<&Value>,
) -> Result<Option<Constant>, MachineFault>
    ensures ok { Gives result
        (λ c. c) (count_in place (numbers_in numbers.now) (data_of member.entry)) }
    ensures err { FailsBy result (count_in place (numbers_in numbers.now) (data_of member.entry)) }
{
    match member {
        Some(value) => Ok(Some(count(Part::TimerCount(place), MAX_COUNT, numbers, value)?)),
        None => Ok(None),
    }
}

/// In how many ticks of the start a timer is due, if that is said.
fn first_in(
    place: usize,
    numbers: &Numbers,
    member: Option<&Value>,
) -> Result<Option<Constant>, MachineFault>
    ensures ok { Gives result
        (λ c. c) (first_in place (numbers_in numbers.now) (data_of member.entry)) }
    ensures err { FailsBy result (first_in place (numbers_in numbers.now) (data_of member.entry)) }
{
    match member {
        Some(value) => Ok(Some(constant(Part::TimerFirst(place), numbers, value)?)),
        None => Ok(None),
    }
}

/// How many timers are alike, and when they are first due.
fn timer_in(place: usize, numbers: &Numbers, value: &Value) -> Result<Timer, MachineFault>
    ensures ok { Gives result (λ t. t) (timer_in place (numbers_in numbers.now) (view value.now)) }
    ensures err { FailsBy result (timer_in place (numbers_in numbers.now) (view value.now)) }
{
    let count = count_in(place, numbers, value.get("count"))?;
    let first = first_in(place, numbers, value.get("first"))?;
    Ok(Timer { count, first })
}

/// What the name of a timer declares.
fn timer_thing(names: TimerNames, place: usize, timer: Timer) -> Thing
    ensures { thing result ≡ timer_thing (named names) place timer.count }
{
    match timer.count {
        Some(_) => Thing::TimerArray(names.before(place), names.greatest(place)),
        None => Thing::Timer(names.before(place)),
    }
}

/// One timer more.
fn with_timer(
    alloc: Global,
    names: TimerNames,
    so_far: Scope,
    text: &str,
    timer: Timer,
) -> Result<Scope, AllocError>
    ensures { IfOk result (λ s. with_timer (named names) (scope so_far) text.now timer ≡ scope s) }
{
    let mut so_far = so_far;
    let thing = timer_thing(names, so_far.timers.len(), timer);
    let name = String::from_str(alloc, text)?;
    so_far.names.push(Named { name, thing })?;
    so_far.timers.push(timer)?;
    Ok(so_far)
}

/// The timer that an object declares, of this name.
fn timer_named(
    alloc: Global,
    names: TimerNames,
    so_far: Scope,
    text: &str,
    value: &Value,
) -> Result<Scope, MachineFault>
    ensures ok { Gives result scope (timer_named (named names) (scope so_far) text.now (view value.now)) }
    ensures err { FailsBy result (timer_named (named names) (scope so_far) text.now (view value.now)) }
{
    let place = so_far.timers.len();
    let may = is_name(so_far.timed, text.as_bytes());
    new_name(Part::TimerName(place), may, so_far.names.as_slice(), text)?;
    let timer = timer_in(place, &so_far.numbers, value)?;
    Ok(with_timer(alloc, names, so_far, text, timer)?)
}

/// The timer that a value declares.
fn timer_of(
    alloc: Global,
    names: TimerNames,
    so_far: Scope,
    value: &Value,
) -> Result<Scope, MachineFault>
    ensures ok { Gives result scope (timer_of (named names) (scope so_far) (view value.now)) }
    ensures err { FailsBy result (timer_of (named names) (scope so_far) (view value.now)) }
{
    let place = so_far.timers.len();
    let _ = entry(place, value)?;
    let name = name_of(place, value.get("name"))?;
    timer_named(alloc, names, so_far, name, value)
}

/// Timers more, each behind those before it.
fn timers_named(
    alloc: Global,
    names: TimerNames,
    so_far: Scope,
    values: &[Value],
) -> Result<Scope, MachineFault>
    ensures ok { Gives result scope (timers_named (named names) (scope so_far) (items_view values.now)) }
    ensures err { FailsBy result (timers_named (named names) (scope so_far) (items_view values.now)) }
{
    let mut all = so_far;
    for value in values {
        all = timer_of(alloc, names, all, value)?;
    }
    Ok(all)
}

/// An array of at most 16.
fn few_timers(value: &Value) -> Result<&[Value], MachineFault>
    ensures ok { Gives result (λ vs. items_view vs.now) (few_timers (view value.now)) }
    ensures err { FailsBy result (few_timers (view value.now)) }
    ensures few { IfOk result (λ vs. length vs.now ≤ max_timer_names) }
{
    let Some(values) = items_of(value) else {
        return Err(MachineFault::Wrong(Part::Timers, Why::Shape));
    };
    if !are_few(MAX_TIMER_NAMES, values) {
        return Err(MachineFault::Wrong(Part::Timers, Why::Count));
    }
    Ok(values)
}

/// The hidden names of a machine that declares these timers behind its other names.
#[tactic(auto, using(crate::proofs::Passed::many_values, crate::proofs::Passed::many_names))]
fn names_behind(so_far: &Scope, values: &[Value]) -> TimerNames
    requires { length values.now ≤ max_timer_names }
    ensures { let many = items_len (items_view values.now) in
        named result ≡ names_behind (length (scope so_far.now).names + many) many }
{
    TimerNames::new(so_far.names.len() + values.len(), values.len())
}

/// The timers in the member `timers`: of each its name, its count and when it is first due.
pub(crate) fn timers_in(
    alloc: Global,
    so_far: Scope,
    member: Option<&Value>,
) -> Result<Scope, MachineFault>
    ensures ok { Gives result scope (timers_in (scope so_far) (data_of member.entry)) }
    ensures err { FailsBy result (timers_in (scope so_far) (data_of member.entry)) }
{
    let Some(value) = member else {
        return Ok(so_far);
    };
    let values = few_timers(value)?;
    let names = names_behind(&so_far, values);
    timers_named(alloc, names, so_far, values)
}

/// The member `least`, which stands beside `timers` alone.
pub(crate) fn least_in(
    all: &Scope,
    member: Option<&Value>,
) -> Result<Option<Constant>, MachineFault>
    ensures ok { Gives result (λ c. c) (least_in (scope all.now) (data_of member.entry)) }
    ensures err { FailsBy result (least_in (scope all.now) (data_of member.entry)) }
{
    match member {
        Some(value) if all.timed => {
            let least = count(Part::Least, MAX_TICK, &all.numbers, value)?;
            Ok(Some(least))
        }
        Some(_) => Err(MachineFault::Wrong(Part::Least, Why::Unknown)),
        None => Ok(None),
    }
}
