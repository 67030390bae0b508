//! The names that timers have behind a machine's own. No text can name them, for a blank stands in each.
ghost use Rattle.std.specs.Prelude.{◌≡◌, ◌++◌, ◌∷◌, [], IfOk, OnOk, codes, map};
ghost use Rattle.tw_machine_declaration.specs.Seen as plain;
ghost use Rattle.tw_machine_declaration.specs.Seen.{greatest};
ghost use Rattle.tw_machine_declaration.specs.Timed.{before_hidden, each_hidden, hidden, queues_hidden};

use crate::declaration::{Constant, Named, Thing, Timer, Timers};
use crate::limits::OUTBOX;
use std::alloc::{AllocError, Global};

/// Timers once more.
fn again(alloc: Global, timers: &Timers) -> Result<Timers, AllocError>
    ensures { IfOk result (λ ts. plain.timers ts ≡ plain.timers timers.now) }
{
    Ok(Timers {
        each: Vec::from_slice(alloc, timers.each.as_slice())?,
        least: timers.least,
    })
}

/// Appends a name that no text has.
fn hide(alloc: Global, names: &mut Vec<Named>, text: &str, thing: Thing) -> Result<(), AllocError>
    ensures { OnOk result (map plain.name names.new.items
        ≡ map plain.name names.old.items ++ (text.now, plain.thing thing) ∷ []) }
{
    let name = String::from_str(alloc, text)?;
    names.push(Named { name, thing })?;
    Ok(())
}

/// Appends how many timers these are, which are before one, and its greatest index.
fn hide_one(
    alloc: Global,
    names: &mut Vec<Named>,
    before: &[Timer],
    timer: Timer,
) -> Result<(), AllocError>
    ensures { OnOk result (map plain.name names.new.items ≡ map plain.name names.old.items
        ++ before_hidden before.now ∷ (codes " greatest", greatest timer) ∷ []) }
{
    let before = Vec::from_slice(alloc, before)?;
    hide(alloc, names, " before", Thing::Together(before))?;
    hide(alloc, names, " greatest", Thing::Greatest(timer))?;
    Ok(())
}

/// Appends how many timers are before each, its greatest index, and how many there are together.
fn hide_each(alloc: Global, names: &mut Vec<Named>, timers: &[Timer]) -> Result<(), AllocError>
    ensures { OnOk result (map plain.name names.new.items
        ≡ map plain.name names.old.items ++ each_hidden timers.now 0 timers.now) }
{
    for (place, timer) in timers.iter().enumerate() {
        hide_one(alloc, names, &timers[..place], *timer)?;
    }
    let all = Vec::from_slice(alloc, timers)?;
    hide(alloc, names, " before", Thing::Together(all))
}

/// Appends the two queues of what is to be sent, where something is sent.
fn hide_queues(alloc: Global, names: &mut Vec<Named>, sends: bool) -> Result<(), AllocError>
    ensures { OnOk result (map plain.name names.new.items
        ≡ map plain.name names.old.items ++ queues_hidden sends) }
{
    if !sends {
        return Ok(());
    }
    let room = Constant::Number(OUTBOX as i64);
    hide(alloc, names, " ports", Thing::Queue(room))?;
    hide(alloc, names, " values", Thing::Queue(room))
}

/// Appends the hidden names of these timers, and of what is to be sent where something is sent. The only error is want of
/// memory.
pub fn hide_timers(
    alloc: Global,
    names: &mut Vec<Named>,
    timers: &Timers,
    sends: bool,
) -> Result<(), AllocError>
    ensures { OnOk result (map plain.name names.new.items
        ≡ map plain.name names.old.items ++ hidden (plain.timers timers.now) sends) }
{
    hide(alloc, names, " due", Thing::Due(again(alloc, timers)?))?;
    hide(alloc, names, " next", Thing::Next(again(alloc, timers)?))?;
    let least = timers.least.unwrap_or(Constant::Number(0));
    hide(alloc, names, " least", Thing::Number(least))?;
    hide_each(alloc, names, timers.each.as_slice())?;
    hide_queues(alloc, names, sends)
}
