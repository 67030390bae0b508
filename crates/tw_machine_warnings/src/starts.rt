//! What starts by itself: a machine by its first wait, a timer by `first` or by `start`.
ghost use Rattle.std.specs.Prelude.{◌≡◌, map};
ghost use Rattle.tw_machine_declaration.specs.Seen as plain;
ghost use Rattle.tw_machine_warnings.specs.Starts.{
  counted,
  has_first,
  may_wait,
  never_runs,
  runs_at_start,
  timers_before,
};

use crate::deeds::Doing;
use crate::texts::does_machine;
use tw_machine_declaration::{Constant, Declaration, Named, Thing};
use tw_machine_text::OWN_NAMES;

fn may_wait(first: Constant) -> bool
    ensures { result ≡ may_wait first }
{
    match first {
        Constant::Number(ticks) => ticks >= 0,
        Constant::Parameter(_) => true,
    }
}

/// Whether there is a first wait, or a first tick, that is not negative, as far as its number stands in the machine.
pub(crate) fn has_first(first: Option<Constant>) -> bool
    ensures { result ≡ has_first first }
{
    match first {
        Some(first) => may_wait(first),
        None => false,
    }
}

fn counted(thing: &Thing) -> usize
    ensures { result ≡ counted (plain.thing thing.now) }
{
    match thing {
        Thing::Together(timers) => timers.len(),
        _ => 0,
    }
}

/// How many timers are before one, by the name that stands for that.
fn timers_before(names: &[Named], before: usize) -> usize
    ensures { result ≡ timers_before (map plain.name names.now) before }
{
    match names.get(before.saturating_sub(OWN_NAMES)) {
        Some(named) => counted(&named.thing),
        None => 0,
    }
}

/// Whether a timer runs from the start on, by the name of how many are before it.
fn runs_at_start(declaration: &Declaration, before: usize) -> bool
    ensures { result ≡ runs_at_start (plain.declaration declaration.now) before }
{
    let place = timers_before(&declaration.names, before);
    match &declaration.timers {
        Some(timers) => match timers.each.get(place) {
            Some(timer) => has_first(timer.first),
            None => false,
        },
        None => false,
    }
}

/// Whether a timer never runs.
pub(crate) fn never_runs(declaration: &Declaration, before: usize) -> bool
    ensures { result ≡ never_runs (plain.declaration declaration.now) before }
{
    !(runs_at_start(declaration, before) || does_machine(Doing::Starts(before), declaration))
}
