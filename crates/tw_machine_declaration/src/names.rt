//! What each name of a machine stands for.
ghost use Rattle.std.specs.Prelude.{◌≡◌, ◌+◌, ◌≤◌, min, IfOk, map, length, slice_index_or};
ghost use Rattle.tw_machine.specs.Limits.{cells_end, max_queues, max_room, numbers_end};
ghost use Rattle.tw_machine_text.specs.Letters.{functions};
ghost use Rattle.tw_machine_declaration.specs.Seen as plain;
ghost use Rattle.tw_machine_declaration.specs.Names.{
  constant,
  start_of,
  room_of,
  count_of,
  list_given,
  cells,
  rooms,
  numbers,
  together,
  list_place,
  lists_taken,
  given_number,
  taken,
  things,
  place_named,
  standing_of,
  own_standings,
  texts,
  standings_of,
  standing_at,
  observation_span,
};
ghost use Rattle.tw_machine_declaration.specs.declared.names.Standing.TheVariants.{Nothing};

use crate::declaration::{Constant, Given, Named, Thing};
use crate::starts::{all_timers, greatest_index};
use std::alloc::{AllocError, Global};
use tw_machine::language::Span;
use tw_machine::limits::{
    CELLS_END, MAX_QUEUES, MAX_ROOM, NUMBERS_END, OBSERVATION_CELLS, QUEUES_END,
};
use tw_machine_text::{FUNCTIONS, same_text};

/// What a name stands for.
#[derive(Clone, Copy, Debug, PartialEq, Eq)]
pub enum Standing {
    /// A list, a procedure, a timer, or a function's or a field's name that nothing else has.
    Nothing,
    /// The number of a parameter, or one that no component gives.
    Number(i64),
    /// A parameter of which nothing is given.
    Unknown,
    /// The register at this place.
    Cell(u32),
    /// The cells of an array register.
    Cells(Span),
    /// The cells of the ticks at which timers are due. A program reads and sets them as those of an array register; `words` show none.
    Due(Span),
    /// The queue at this place, and its room.
    Queue(u32, u16),
    /// An array of queues, and the room of each.
    Queues(Span, u16),
    /// Numbers of the tables.
    Table(Span),
    /// The three cells of an observation, from this place on.
    Observation(u32),
}

/// How many cells, queues and numbers of tables are taken by the names before.
#[derive(Clone, Copy, PartialEq, Eq)]
pub(crate) struct Places {
    pub cells: u32,
    pub queues: u32,
    pub numbers: u32,
}

/// The number that a constant is, if it is given.
pub fn constant(given: &Given, one: Constant) -> Option<i64>
    ensures { result ≡ constant (plain.given given.now) one }
{
    match one {
        Constant::Number(number) => Some(number),
        Constant::Parameter(place) => given.numbers.get(place).copied(),
    }
}

/// What a register has at the start.
pub fn start_of(given: &Given, start: Constant) -> i64
    ensures { result ≡ start_of (plain.given given.now) start }
{
    constant(given, start).unwrap_or(0)
}

/// The room of a queue, at most 1,024.
pub fn room_of(given: &Given, room: Constant) -> u16
    ensures value { result ≡ room_of (plain.given given.now) room }
    ensures small { result ≤ max_room }
{
    start_of(given, room).max(0).min(MAX_ROOM as i64) as u16
}

/// How many queues an array has, at most 16.
pub fn count_of(given: &Given, count: Constant) -> u32
    ensures value { result ≡ count_of (plain.given given.now) count }
    ensures small { result ≤ max_queues }
{
    start_of(given, count).max(0).min(MAX_QUEUES as i64) as u32
}

/// The list that is given for a parameter; empty where none is.
pub fn list_given(given: &Given, place: usize) -> &[i64]
    ensures { result.now ≡ list_given (plain.given given.now) place }
{
    match given.lists.get(place) {
        Some(list) => list.as_slice(),
        None => &[],
    }
}

/// The cells of an observation, of which the first is at this place.
pub fn observation_span(first: u32) -> Span
    ensures { result ≡ observation_span first }
{
    Span {
        first,
        count: OBSERVATION_CELLS as u32,
    }
}

/// What the name of this number stands for.
pub fn standing_at(standings: &[Standing], name: usize) -> Standing
    ensures { result ≡ standing_at standings.now name }
{
    standings.get(name).copied().unwrap_or(Standing::Nothing)
}

/// How many cells a name takes, at most 257.
fn cell_count(given: &Given, thing: &Thing) -> u32
    ensures value { result
        ≡ min (length (cells (plain.given given.now) (plain.thing thing.now))) cells_end }
    ensures small { result ≤ cells_end }
{
    match thing {
        Thing::Register(_) | Thing::Next(_) => 1,
        Thing::RegisterArray(starts) => starts.len().min(CELLS_END) as u32,
        Thing::Observation => OBSERVATION_CELLS as u32,
        Thing::Due(timers) => all_timers(given, timers.each.as_slice()),
        _ => 0,
    }
}

/// How many queues a name takes.
fn queue_count(given: &Given, thing: &Thing) -> u32
    ensures value { result ≡ length (rooms (plain.given given.now) (plain.thing thing.now)) }
    ensures small { result ≤ max_queues }
{
    match thing {
        Thing::Queue(_) => 1,
        Thing::QueueArray(count, _) => count_of(given, *count),
        _ => 0,
    }
}

/// How many numbers of tables a name takes, at most 65,537; a table of a list takes none, for the list stands once
/// before all of them.
fn number_count(thing: &Thing) -> u32
    ensures value { result ≡ min (length (numbers (plain.thing thing.now))) numbers_end }
    ensures small { result ≤ numbers_end }
{
    match thing {
        Thing::Table(numbers) => numbers.len().min(NUMBERS_END) as u32,
        _ => 0,
    }
}

/// How many numbers the list of a parameter has, at most 65,537.
fn list_count(given: &Given, place: usize) -> u32
    ensures { result ≡ min (length (list_given (plain.given given.now) place)) numbers_end }
{
    list_given(given, place).len().min(NUMBERS_END) as u32
}

/// How many numbers these lists have together, at most 65,537.
fn together(lists: &[Vec<i64>]) -> u32
    ensures { result ≡ together (map (λ list. list.items) lists.now) }
{
    let mut total = 0;
    for list in lists {
        total = added(
            total,
            list.len().min(NUMBERS_END) as u32,
            NUMBERS_END as u32,
        );
    }
    total
}

/// Where the list of a parameter begins among the numbers of tables.
fn list_place(given: &Given, place: usize) -> u32
    ensures { result ≡ list_place (plain.given given.now) place }
{
    let lists = given.lists.as_slice();
    together(&lists[..place.min(lists.len())])
}

/// What is taken before the first name: the lists, each once.
fn lists_taken(given: &Given) -> Places
    ensures { result ≡ lists_taken (plain.given given.now) }
{
    Places {
        cells: 0,
        queues: 0,
        numbers: together(given.lists.as_slice()),
    }
}

/// A count, to one past what is allowed.
fn added(at: u32, more: u32, most: u32) -> u32
    requires { more ≤ numbers_end }
    ensures { result ≡ min (at + more) most }
{
    (at as u64 + more as u64).min(most as u64) as u32
}

/// What is taken behind a name, counted to one past what a machine may have.
fn taken(given: &Given, at: Places, thing: &Thing) -> Places
    ensures { result ≡ taken (plain.given given.now) at (plain.thing thing.now) }
{
    Places {
        cells: added(at.cells, cell_count(given, thing), CELLS_END as u32),
        queues: added(at.queues, queue_count(given, thing), QUEUES_END as u32),
        numbers: added(at.numbers, number_count(thing), NUMBERS_END as u32),
    }
}

/// What a parameter stands for.
fn given_number(number: Option<i64>) -> Standing
    ensures { result ≡ given_number number }
{
    match number {
        Some(number) => Standing::Number(number),
        None => Standing::Unknown,
    }
}

/// What a name stands for, where so much is taken before it.
fn standing_of(given: &Given, at: Places, thing: &Thing) -> Standing
    ensures { result ≡ standing_of (plain.given given.now) at (plain.thing thing.now) }
{
    match thing {
        Thing::Parameter(place) => given_number(given.numbers.get(*place).copied()),
        Thing::ListParameter(_) => Standing::Nothing,
        Thing::Register(_) | Thing::Next(_) => Standing::Cell(at.cells),
        Thing::RegisterArray(_) => Standing::Cells(Span {
            first: at.cells,
            count: cell_count(given, thing),
        }),
        Thing::Due(_) => Standing::Due(Span {
            first: at.cells,
            count: cell_count(given, thing),
        }),
        Thing::Queue(room) => Standing::Queue(at.queues, room_of(given, *room)),
        Thing::QueueArray(count, room) => Standing::Queues(
            Span {
                first: at.queues,
                count: count_of(given, *count),
            },
            room_of(given, *room),
        ),
        Thing::Table(_) => Standing::Table(Span {
            first: at.numbers,
            count: number_count(thing),
        }),
        Thing::ListTable(place) => Standing::Table(Span {
            first: list_place(given, *place),
            count: list_count(given, *place),
        }),
        Thing::Observation => Standing::Observation(at.cells),
        Thing::Procedure(_) | Thing::Timer(_) | Thing::TimerArray(..) | Thing::Field => {
            Standing::Nothing
        }
        Thing::Constant(number) => Standing::Number(*number),
        Thing::Number(number) => given_number(constant(given, *number)),
        Thing::Together(timers) => Standing::Number(all_timers(given, timers.as_slice()) as i64),
        Thing::Greatest(timer) => Standing::Number(greatest_index(given, *timer)),
    }
}

/// What the names that are declared stand for.
fn own_standings(alloc: Global, given: &Given, names: &[Named]) -> Result<Vec<Standing>, AllocError>
    ensures { IfOk result (λ standings. standings.items
        ≡ own_standings (plain.given given.now)
        (lists_taken (plain.given given.now)) (things (map plain.name names.now))) }
{
    let mut standings = Vec::with_capacity(alloc, names.len())?;
    let mut at = lists_taken(given);
    for named in names {
        standings.push(standing_of(given, at, &named.thing))?;
        at = taken(given, at, &named.thing);
    }
    Ok(standings)
}

/// The place of the first name that is this text; their count where there is none.
fn place_named(names: &[Named], text: &[u8]) -> usize
    ensures { result ≡ place_named 0 (texts (map plain.name names.now)) text.now }
{
    for (index, named) in names.iter().enumerate() {
        if same_text(named.name.as_bytes(), text) {
            return index;
        }
    }
    names.len()
}

/// What each of these names stands for.
fn named_standings(
    alloc: Global,
    names: &[Named],
    own: &[Standing],
    functions: &[&str],
) -> Result<Vec<Standing>, AllocError>
    ensures { IfOk result
        (λ standings. standings.items ≡ map
        (λ f. standing_at own.now (place_named 0
        (texts (map plain.name names.now)) f.now)) functions.now) }
{
    let mut standings = Vec::with_capacity(alloc, functions.len())?;
    for function in functions {
        standings.push(standing_at(own, place_named(names, function.as_bytes())))?;
    }
    Ok(standings)
}

/// What each name stands for, by its number: first the functions' names, then those that are declared. The only error
/// is want of memory.
pub fn standings_of(
    alloc: Global,
    given: &Given,
    names: &[Named],
) -> Result<Vec<Standing>, AllocError>
    ensures { IfOk result (λ standings. standings.items
        ≡ standings_of (plain.given given.now) (map plain.name names.now)) }
{
    let own = own_standings(alloc, given, names)?;
    let mut standings = named_standings(alloc, names, &own, &FUNCTIONS)?;
    standings.extend_from_slice(&own)?;
    Ok(standings)
}
