//! The limit that a machine passes, in words.

use crate::machines::Machine;
use crate::members::{member_text, timer_place};
use std::alloc::{AllocError, Global};
use tw_machine::limits::{
    MAX_CELLS, MAX_COMPUTATIONS, MAX_NUMBERS, MAX_QUEUES, MAX_ROOM, MAX_ROOMS,
};
use tw_machine_compiler::{BadMachine, Constant, Given, Thing};
use tw_machine_declaration::{
    MAX_TIMERS, all_timers, block_work, constant, count_of, outputs_work, room_of, standings_of,
    words_work,
};
use tw_machine_file::{FileMachine, Part};
use tw_machine_text::{MAX_COUNT, MAX_NODES, MAX_TURNS};
use tw_machine_text_faults::{quoted, words_of};
use tw_vtime::MAX_TICK;

/// What is counted of a machine.
#[derive(Clone, Copy)]
enum Counted {
    Cells,
    Queues,
    Room,
    Numbers,
}

/// The line for a limit that a machine passes with these numbers.
pub(crate) fn limit_fault(
    alloc: Global,
    given: &Given,
    machine: &Machine<'_>,
    bad: BadMachine,
) -> Result<String, AllocError> {
    let read = machine.read;
    match bad {
        BadMachine::QueueCount => queue_fault(alloc, given, read, bad),
        BadMachine::Longest => longest_fault(alloc, given, read, bad),
        BadMachine::Turns => turns_fault(alloc, given, machine, bad),
        BadMachine::TooManyCells => {
            let cells = total(given, read, Counted::Cells);
            format!(in alloc; "registers have {cells} cells together, at most {MAX_CELLS}")
        }
        BadMachine::TooManyQueues => {
            let queues = total(given, read, Counted::Queues);
            format!(in alloc; "{queues} queues, at most {MAX_QUEUES}")
        }
        BadMachine::TooMuchRoom => {
            let room = total(given, read, Counted::Room);
            format!(in alloc; "queues have room for {room} values together, at most {MAX_ROOMS}")
        }
        BadMachine::TooManyNumbers => {
            let numbers = lists_together(given).saturating_add(total(
                given,
                read,
                Counted::Numbers,
            ));
            format!(in alloc; "tables have {numbers} numbers together, at most {MAX_NUMBERS}")
        }
        BadMachine::TimerCount => timer_count_fault(alloc, given, machine, bad),
        BadMachine::TooManyTimers => {
            let timers = timers_together(given, read);
            format!(in alloc; "{timers} timers, at most {MAX_TIMERS}")
        }
        BadMachine::Least => least_fault(alloc, given, read, bad),
        BadMachine::TooManyNodes => {
            format!(in alloc; "more than {MAX_NODES} nodes in programs, outputs and words together")
        }
        BadMachine::TooManyComputations => work_fault(alloc, given, read),
        bad => format!(in alloc; "{bad}"),
    }
}

/// A number of all things that a machine declares.
fn total(given: &Given, machine: &FileMachine, counted: Counted) -> usize {
    let mut total = 0usize;
    for named in &machine.declaration.names {
        total = total.saturating_add(count(given, &named.thing, counted));
    }
    total
}

/// A number of a thing that a machine declares.
fn count(given: &Given, thing: &Thing, counted: Counted) -> usize {
    match (counted, thing) {
        (Counted::Cells, Thing::Register(_)) | (Counted::Queues, Thing::Queue(_)) => 1,
        (Counted::Cells, Thing::RegisterArray(cells)) => cells.len(),
        (Counted::Queues, Thing::QueueArray(count, _)) => count_of(given, *count) as usize,
        (Counted::Room, Thing::Queue(room)) => room_of(given, *room) as usize,
        (Counted::Room, Thing::QueueArray(count, room)) => {
            let count = count_of(given, *count) as usize;
            count.saturating_mul(room_of(given, *room) as usize)
        }
        (Counted::Numbers, Thing::Table(numbers)) => numbers.len(),
        _ => 0,
    }
}

/// How many numbers the lists that are given have together, each once, however many tables are named after it.
fn lists_together(given: &Given) -> usize {
    let mut total = 0usize;
    for list in &given.lists {
        total = total.saturating_add(list.len());
    }
    total
}

/// How many numbers the tables of a machine have that stand in it.
pub(crate) fn own_numbers(alloc: Global, machine: &FileMachine) -> usize {
    let nothing = Given {
        numbers: Vec::new(alloc),
        lists: Vec::new(alloc),
    };
    total(&nothing, machine, Counted::Numbers)
}

/// The words for a number out of its range, behind what has it.
fn range_words(
    alloc: Global,
    number: i64,
    least: i64,
    most: i64,
) -> Result<Option<String>, AllocError> {
    if number < least {
        return Ok(Some(format!(in alloc; "{number}, at least {least}")?));
    }
    if number > most {
        return Ok(Some(format!(in alloc; "{number}, at most {most}")?));
    }
    Ok(None)
}

/// The words for a constant out of its range, if it is given.
fn given_words(
    alloc: Global,
    given: &Given,
    one: Constant,
    most: i64,
) -> Result<Option<String>, AllocError> {
    match constant(given, one) {
        Some(number) => range_words(alloc, number, 1, most),
        None => Ok(None),
    }
}

/// The words for a count or a room of a queue.
fn queue_words(alloc: Global, given: &Given, thing: &Thing) -> Result<Option<String>, AllocError> {
    let room = match thing {
        Thing::Queue(room) => *room,
        Thing::QueueArray(count, room) => {
            if let Some(words) = given_words(alloc, given, *count, MAX_QUEUES as i64)? {
                return Ok(Some(format!(in alloc; "has a count of {words}")?));
            }
            *room
        }
        _ => return Ok(None),
    };
    match given_words(alloc, given, room, MAX_ROOM as i64)? {
        Some(words) => Ok(Some(format!(in alloc; "has room for {words}")?)),
        None => Ok(None),
    }
}

/// The first queue whose count or room is out of its range.
fn queue_fault(
    alloc: Global,
    given: &Given,
    machine: &FileMachine,
    bad: BadMachine,
) -> Result<String, AllocError> {
    for named in &machine.declaration.names {
        if let Some(words) = queue_words(alloc, given, &named.thing)? {
            let name = quoted(alloc, named.name.as_str())?;
            return format!(in alloc; "queues: {name} {words}");
        }
    }
    format!(in alloc; "{bad}")
}

/// The longest wait, out of its range.
fn longest_fault(
    alloc: Global,
    given: &Given,
    machine: &FileMachine,
    bad: BadMachine,
) -> Result<String, AllocError> {
    if let Some(longest) = machine.declaration.longest {
        if let Some(words) = given_words(alloc, given, longest, MAX_TICK as i64)? {
            return format!(in alloc; "longest is {words}");
        }
    }
    format!(in alloc; "{bad}")
}

/// The least time of a timer, out of its range.
fn least_fault(
    alloc: Global,
    given: &Given,
    machine: &FileMachine,
    bad: BadMachine,
) -> Result<String, AllocError> {
    let least = machine
        .declaration
        .timers
        .as_ref()
        .and_then(|timers| timers.least);
    if let Some(least) = least {
        if let Some(words) = given_words(alloc, given, least, MAX_TICK as i64)? {
            return format!(in alloc; "least is {words}");
        }
    }
    format!(in alloc; "{bad}")
}

/// The first timer whose count is out of its range.
fn timer_count_fault(
    alloc: Global,
    given: &Given,
    machine: &Machine<'_>,
    bad: BadMachine,
) -> Result<String, AllocError> {
    let Some(timers) = &machine.read.declaration.timers else {
        return format!(in alloc; "{bad}");
    };
    for (i, timer) in timers.each.iter().enumerate() {
        if let Some(count) = timer.count {
            if let Some(words) = given_words(alloc, given, count, MAX_COUNT as i64)? {
                let place = timer_place(alloc, machine.value, i)?;
                return format!(in alloc; "{place}.count is {words}");
            }
        }
    }
    format!(in alloc; "{bad}")
}

/// How many timers a machine has together.
fn timers_together(given: &Given, machine: &FileMachine) -> u32 {
    match &machine.declaration.timers {
        Some(timers) => all_timers(given, timers.each.as_slice()),
        None => 0,
    }
}

/// The first block that is repeated too often, or a negative number of times.
fn turns_fault(
    alloc: Global,
    given: &Given,
    machine: &Machine<'_>,
    bad: BadMachine,
) -> Result<String, AllocError> {
    let timers = match &machine.read.declaration.timers {
        Some(timers) => timers.each.len(),
        None => 0,
    };
    for part in &[Part::Internal, Part::External] {
        if let Some(line) = turns_fault_in(alloc, given, machine, *part)? {
            return Ok(line);
        }
    }
    for i in 0..timers {
        if let Some(line) = turns_fault_in(alloc, given, machine, Part::TimerProgram(i))? {
            return Ok(line);
        }
    }
    format!(in alloc; "{bad}")
}

/// The same in one program.
fn turns_fault_in(
    alloc: Global,
    given: &Given,
    machine: &Machine<'_>,
    part: Part,
) -> Result<Option<String>, AllocError> {
    let said = member_text(alloc, machine.value, part)?;
    let mut is_repeated = false;
    for word in &words_of(alloc, said.text.as_str())? {
        if is_repeated {
            let name = word.text.as_str();
            if let Some(words) = turns_words(alloc, given, machine.read, name)? {
                let place = said.place.as_str();
                let (line, column) = (word.place.line, word.place.column);
                let line = format!(in alloc;
                    "{place}, line {line}, column {column}: {name} is {words}"
                )?;
                return Ok(Some(line));
            }
        }
        is_repeated = word.text.as_str() == "repeat";
    }
    Ok(None)
}

/// The words for a parameter by which a block is repeated.
fn turns_words(
    alloc: Global,
    given: &Given,
    machine: &FileMachine,
    name: &str,
) -> Result<Option<String>, AllocError> {
    for (i, number) in machine.numbers.iter().enumerate() {
        if number.as_str() == name {
            return match given.numbers.get(i) {
                Some(number) => range_words(alloc, *number, 0, MAX_TURNS as i64),
                None => Ok(None),
            };
        }
    }
    Ok(None)
}

/// The first run that may make too many computations.
fn work_fault(alloc: Global, given: &Given, machine: &FileMachine) -> Result<String, AllocError> {
    let declaration = &machine.declaration;
    let standings = standings_of(alloc, given, declaration.names.as_slice())?;
    let what = if block_work(&standings, &declaration.internal) > MAX_COMPUTATIONS {
        "a run of internal"
    } else if block_work(&standings, &declaration.external) > MAX_COMPUTATIONS {
        "an item of external"
    } else if outputs_work(&standings, declaration.outputs.as_slice()) > MAX_COMPUTATIONS {
        "output"
    } else if words_work(&standings, declaration.words.as_slice()) > MAX_COMPUTATIONS {
        "words"
    } else {
        "a part"
    };
    format!(in alloc; "{what} may take more than {MAX_COMPUTATIONS} computations")
}
