//! What a machine has at the start: the cells of its registers, the rooms of its queues, the numbers of its tables.
ghost use Rattle.std.specs.Prelude.{◌≡◌, ◌++◌, ◌∷◌, [], ◌≤◌, IfOk, OnOk, flat_map, map, replicate};
ghost use Rattle.tw_machine_declaration.specs.Seen as plain;
ghost use Rattle.tw_machine_declaration.specs.Names.{
  start_of,
  cells,
  due_ticks,
  next_timer,
  rooms,
  given_numbers,
  numbers,
  things,
};

use std::alloc::{AllocError, Global};
use tw_machine::limits::OBSERVATION_CELLS;
use tw_machine_declaration::{
    Constant, Given, Named, Thing, Timers, count_of, due_ticks, next_timer, room_of, start_of,
};

/// Appends what the cells of an array register have at the start.
fn push_starts(given: &Given, starts: &[Constant], cells: &mut Vec<i64>) -> Result<(), AllocError>
    ensures { OnOk result (cells.new.items
        ≡ cells.old.items ++ map (start_of (plain.given given.now)) starts.now) }
{
    for start in starts {
        cells.push(start_of(given, *start))?;
    }
    Ok(())
}

/// Appends the room of a queue so many times.
fn push_rooms(count: u32, room: u16, rooms: &mut Vec<u16>) -> Result<(), AllocError>
    ensures { OnOk result (rooms.new.items ≡ rooms.old.items ++ replicate count room) }
{
    for i in 0..count {
        let _ = i;
        rooms.push(room)?;
    }
    Ok(())
}

/// Appends when the timers are due.
fn push_due(
    alloc: Global,
    given: &Given,
    timers: &Timers,
    cells: &mut Vec<i64>,
) -> Result<(), AllocError>
    ensures { OnOk result (cells.new.items
        ≡ cells.old.items ++ due_ticks (plain.given given.now) (plain.timers timers.now)) }
{
    let ticks = due_ticks(alloc, given, timers)?;
    cells.extend_from_slice(&ticks)?;
    Ok(())
}

/// Appends which timer goes first.
fn push_next(
    alloc: Global,
    given: &Given,
    timers: &Timers,
    cells: &mut Vec<i64>,
) -> Result<(), AllocError>
    ensures { OnOk result (cells.new.items ≡ cells.old.items
        ++ next_timer (due_ticks (plain.given given.now) (plain.timers timers.now)) ∷ []) }
{
    let ticks = due_ticks(alloc, given, timers)?;
    cells.push(next_timer(&ticks))?;
    Ok(())
}

/// Appends the cells of a name.
fn push_cells(
    alloc: Global,
    given: &Given,
    thing: &Thing,
    out: &mut Vec<i64>,
) -> Result<(), AllocError>
    ensures { OnOk result (out.new.items
        ≡ out.old.items ++ cells (plain.given given.now) (plain.thing thing.now)) }
{
    match thing {
        Thing::Register(start) => out.push(start_of(given, *start))?,
        Thing::RegisterArray(starts) => push_starts(given, starts, out)?,
        Thing::Observation => out.extend_from_slice(&[0; OBSERVATION_CELLS])?,
        Thing::Due(timers) => push_due(alloc, given, timers, out)?,
        Thing::Next(timers) => push_next(alloc, given, timers, out)?,
        _ => {}
    }
    Ok(())
}

/// Appends the rooms of a name.
fn push_queues(given: &Given, thing: &Thing, out: &mut Vec<u16>) -> Result<(), AllocError>
    ensures { OnOk result (out.new.items
        ≡ out.old.items ++ rooms (plain.given given.now) (plain.thing thing.now)) }
{
    match thing {
        Thing::Queue(room) => out.push(room_of(given, *room))?,
        Thing::QueueArray(count, room) => {
            push_rooms(count_of(given, *count), room_of(given, *room), out)?;
        }
        _ => {}
    }
    Ok(())
}

/// Appends the numbers that stand in a table.
fn push_numbers(thing: &Thing, out: &mut Vec<i64>) -> Result<(), AllocError>
    ensures { OnOk result (out.new.items ≡ out.old.items ++ numbers (plain.thing thing.now)) }
{
    if let Thing::Table(numbers) = thing {
        out.extend_from_slice(numbers)?;
    }
    Ok(())
}

/// The numbers of the lists that are given, each once. The only error is want of memory.
fn list_numbers(alloc: Global, lists: &[Vec<i64>]) -> Result<Vec<i64>, AllocError>
    ensures { IfOk result
        (λ out. out.items ≡ flat_map (λ list. list) (map (λ list. list.items) lists.now)) }
{
    let mut out = Vec::new(alloc);
    for list in lists {
        out.extend_from_slice(list)?;
    }
    Ok(out)
}

/// The cells of all registers at the start. The only error is want of memory.
pub(crate) fn all_cells(
    alloc: Global,
    given: &Given,
    names: &[Named],
) -> Result<Vec<i64>, AllocError>
    ensures { IfOk result (λ out. out.items
        ≡ flat_map (cells (plain.given given.now)) (things (map plain.name names.now))) }
{
    let mut out = Vec::new(alloc);
    for named in names {
        push_cells(alloc, given, &named.thing, &mut out)?;
    }
    Ok(out)
}

/// The rooms of all queues. The only error is want of memory.
pub(crate) fn all_rooms(
    alloc: Global,
    given: &Given,
    names: &[Named],
) -> Result<Vec<u16>, AllocError>
    ensures { IfOk result (λ out. out.items
        ≡ flat_map (rooms (plain.given given.now)) (things (map plain.name names.now))) }
{
    let mut out = Vec::new(alloc);
    for named in names {
        push_queues(given, &named.thing, &mut out)?;
    }
    Ok(out)
}

/// The numbers of all tables: first those of the lists that are given. The only error is want of memory.
pub(crate) fn all_numbers(
    alloc: Global,
    given: &Given,
    names: &[Named],
) -> Result<Vec<i64>, AllocError>
    ensures { IfOk result (λ out. out.items
        ≡ given_numbers (plain.given given.now) ++ flat_map numbers
        (things (map plain.name names.now))) }
{
    let mut out = list_numbers(alloc, given.lists.as_slice())?;
    for named in names {
        push_numbers(&named.thing, &mut out)?;
    }
    Ok(out)
}
