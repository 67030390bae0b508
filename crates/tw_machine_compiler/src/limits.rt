//! What is wrong with a machine as it is declared, the first of it.
ghost use Rattle.std.specs.Prelude.{◌≡◌, ◌≤◌, length, map, min, sum, option_and_then, option_map};
ghost use Rattle.std.specs.List.{list_all};
ghost use Rattle.tw_machine_text.specs.Limits.{levels_end};
ghost use Rattle.tw_vtime.specs.Stamps.{max_tick};
ghost use Rattle.tw_machine.specs.Limits.{cells_end, max_queues};
ghost use Rattle.tw_machine.specs.Program.{text_of};
ghost use Rattle.tw_machine_text.specs.Views.{told, body, chain};
ghost use Rattle.tw_machine_declaration.specs.Seen as plain;
ghost use Rattle.tw_machine_declaration.specs.Names.{constant, things};
ghost use Rattle.tw_machine_compiler.specs.Limits.{
  is_up_to,
  constant_up_to,
  length_up_to,
  is_register,
  is_queue,
  is_table,
  is_counted,
  is_flat,
  has_few_levels,
  test_levels,
  texts_fault,
  timers_fault,
  all,
  is_turns,
  turns_fit,
  turns_fit_statement,
  turns_fit_arms,
  members_fault,
  own_cells,
  register_cells,
  has_few_cells,
  limit,
};
ghost use Rattle.tw_machine_compiler.specs.declared.limits.BadMachine.TheVariants.{OutOfMemory};

use crate::rows::twice;
use std::alloc::AllocError;
use thiserror::Error;
use tw_machine::limits::{
    CELLS_END, MAX_CELLS, MAX_COMPUTATIONS, MAX_NUMBERS, MAX_OUTPUTS, MAX_PROGRAM_CELLS,
    MAX_QUEUES, MAX_ROOM, MAX_ROOMS, MAX_WORDS,
};
use tw_machine::program::Parts;
use tw_machine_declaration::{
    Constant, Declaration, Given, MAX_TIMERS, Named, OutputText, Standing, Thing, Timer, Timers,
    Value, all_nodes, all_timers, block_work, constant, outputs_work, words_work, written_turns,
};
use tw_machine_text::{
    Arms, Block, MAX_COUNT, MAX_LEVELS, MAX_NODES, MAX_TURNS, SourceStatement, deep, deep_block,
};
use tw_vtime::MAX_TICK;

/// Why a machine makes no program: the first fault, in this order, or want of memory. Each but that is refusal 21
/// (BadShape).
#[derive(Clone, Copy, Debug, Error, PartialEq, Eq)]
pub enum BadMachine {
    /// A growth of memory was refused: refusal 4.
    #[error("out of memory")]
    OutOfMemory,
    #[error("an array register has 1 to 64 cells")]
    CellCount,
    #[error("an array of queues has 1 to 16, and a queue has room for 1 to 1,024")]
    QueueCount,
    #[error("a table has 1 to 65,536 numbers")]
    TableCount,
    #[error("the longest wait is 1 to 1,099,511,627,774")]
    Longest,
    #[error("of a timer with a count there are 1 to 16")]
    TimerCount,
    #[error("there are more than 64 timers")]
    TooManyTimers,
    #[error("the least time of a timer is 1 to 1,099,511,627,774")]
    Least,
    #[error("a block is repeated 0 to 64 times")]
    Turns,
    #[error("there are at most 64 outputs")]
    OutputCount,
    #[error("there are 1 to 64 words")]
    WordCount,
    #[error("no queue, array register or observation stands twice among the words")]
    WordTwice,
    /// Or all cells are more than 256, those of observations too: no machine of a file has so many observations.
    #[error("the registers have more than 64 cells")]
    TooManyCells,
    #[error("there are more than 16 queues")]
    TooManyQueues,
    #[error("the queues have room for more than 4,096 values together")]
    TooMuchRoom,
    #[error("the tables have more than 65,536 numbers together")]
    TooManyNumbers,
    #[error("there are more than 4,096 nodes")]
    TooManyNodes,
    /// Of a machine with timers alone: each text by itself has no more.
    #[error("blocks and parentheses stand in one another more than 64 levels deep")]
    TooManyLevels,
    #[error("a run makes more than 262,144 computations")]
    TooManyComputations,
}

impl From<AllocError> for BadMachine {
    ghost from_gives = { λ _ bad. bad ≡ OutOfMemory };

    fn from(_error: AllocError) -> BadMachine {
        BadMachine::OutOfMemory
    }
}

/// Whether a number of ticks is 1 to 1,099,511,627,774, if it is given.
fn is_some_ticks(given: &Given, said: Option<Constant>) -> bool
    ensures { result ≡ constant_up_to max_tick
        (option_and_then (constant (plain.given given.now)) said) }
{
    match said {
        Some(said) => constant_up_to(MAX_TICK, constant(given, said)),
        None => true,
    }
}

/// The rooms of at most 16 queues together.
fn total_room(rooms: &[u16]) -> usize
    requires { length rooms.now ≤ max_queues }
    ensures { result ≡ sum rooms.now }
{
    let mut total = 0;
    for room in rooms {
        total += *room as usize;
    }
    total
}

/// Whether a number is from 1 to this.
fn is_up_to(most: u64, number: i64) -> bool
    ensures { result ≡ is_up_to most number }
{
    number >= 1 && number as u64 <= most
}

/// Whether a constant is from 1 to this, if it is given.
pub(crate) fn constant_up_to(most: u64, number: Option<i64>) -> bool
    ensures { result ≡ constant_up_to most number }
{
    match number {
        Some(number) => is_up_to(most, number),
        None => true,
    }
}

/// Whether an array register has 1 to 64 cells.
fn is_register(thing: &Thing) -> bool
    ensures { result ≡ is_register (plain.thing thing.now) }
{
    match thing {
        Thing::RegisterArray(cells) => cells.len() >= 1 && cells.len() <= MAX_CELLS,
        _ => true,
    }
}

/// Whether there are as many queues, and as much room, as there may be.
fn is_queue(given: &Given, thing: &Thing) -> bool
    ensures { result ≡ is_queue (plain.given given.now) (plain.thing thing.now) }
{
    match thing {
        Thing::Queue(room) => constant_up_to(MAX_ROOM as u64, constant(given, *room)),
        Thing::QueueArray(count, room) => {
            constant_up_to(MAX_QUEUES as u64, constant(given, *count))
                && constant_up_to(MAX_ROOM as u64, constant(given, *room))
        }
        _ => true,
    }
}

/// Whether a table has 1 to 65,536 numbers.
fn is_table(given: &Given, thing: &Thing) -> bool
    ensures { result ≡ is_table (plain.given given.now) (plain.thing thing.now) }
{
    match thing {
        Thing::Table(numbers) => numbers.len() >= 1 && numbers.len() <= MAX_NUMBERS,
        Thing::ListTable(place) => match given.lists.get(*place) {
            Some(list) => list.len() >= 1 && list.len() <= MAX_NUMBERS,
            None => true,
        },
        _ => true,
    }
}

/// Whether all array registers have as many cells as they may have.
fn are_registers(names: &[Named]) -> bool
    ensures { result ≡ all is_register (things (map plain.name names.now)) }
{
    for named in names {
        if !is_register(&named.thing) {
            return false;
        }
    }
    true
}

/// Whether this is so of all queues.
fn are_queues(given: &Given, names: &[Named]) -> bool
    ensures { result ≡ all (is_queue (plain.given given.now)) (things (map plain.name names.now)) }
{
    for named in names {
        if !is_queue(given, &named.thing) {
            return false;
        }
    }
    true
}

/// Whether this is so of all tables.
fn are_tables(given: &Given, names: &[Named]) -> bool
    ensures { result ≡ all (is_table (plain.given given.now)) (things (map plain.name names.now)) }
{
    for named in names {
        if !is_table(given, &named.thing) {
            return false;
        }
    }
    true
}

/// Whether of a timer with a count there are 1 to 16, if that is given.
fn is_counted(given: &Given, timer: Timer) -> bool
    ensures { result ≡ is_counted (plain.given given.now) timer }
{
    match timer.count {
        Some(count) => constant_up_to(MAX_COUNT, constant(given, count)),
        None => true,
    }
}

/// Whether this is so of all timers.
fn are_counted(given: &Given, timers: &[Timer]) -> bool
    ensures { result ≡ list_all (is_counted (plain.given given.now)) timers.now }
{
    for timer in timers {
        if !is_counted(given, *timer) {
            return false;
        }
    }
    true
}

/// The first of a machine's timers that is wrong.
fn timers_fault(given: &Given, timers: &Option<Timers>) -> Option<BadMachine>
    ensures { result
        ≡ timers_fault (plain.given given.now) (option_map plain.timers timers.now) }
{
    let Some(timers) = timers else {
        return None;
    };
    if !are_counted(given, timers.each.as_slice()) {
        return Some(BadMachine::TimerCount);
    }
    if all_timers(given, timers.each.as_slice()) as usize > MAX_TIMERS {
        return Some(BadMachine::TooManyTimers);
    }
    if !is_some_ticks(given, timers.least) {
        return Some(BadMachine::Least);
    }
    None
}

/// Whether a block is repeated 0 to 64 times.
fn is_turns(written: Option<i128>) -> bool
    ensures { result ≡ is_turns written }
{
    match written {
        Some(turns) => turns >= 0 && turns <= MAX_TURNS as i128,
        None => true,
    }
}

/// Whether all blocks in a statement are repeated 0 to 64 times.
#[cycle(repeats)]
fn turns_fit_statement(standings: &[Standing], said: &SourceStatement) -> bool
    ensures { result ≡ turns_fit_statement standings.now (told said.now) }
{
    match said {
        SourceStatement::If(arms) => turns_fit_arms(standings, arms),
        SourceStatement::IfElse(arms, last) => {
            turns_fit_arms(standings, arms) && turns_fit(standings, last)
        }
        SourceStatement::Repeat(count, each) => {
            is_turns(written_turns(standings, count)) && turns_fit(standings, each)
        }
        _ => true,
    }
}

/// Whether all blocks in a program are repeated 0 to 64 times.
#[cycle(repeats)]
pub(crate) fn turns_fit(standings: &[Standing], program: &Block) -> bool
    ensures { result ≡ turns_fit standings.now (body program.now) }
{
    match program {
        Block::Empty => true,
        Block::Then(before, last, _) => {
            turns_fit(standings, before) && turns_fit_statement(standings, last)
        }
    }
}

/// Whether all blocks in the arms of an `if` are repeated 0 to 64 times.
#[cycle(repeats)]
fn turns_fit_arms(standings: &[Standing], arms: &Arms) -> bool
    ensures { result ≡ turns_fit_arms standings.now (chain arms.now) }
{
    match arms {
        Arms::One(_, then) => turns_fit(standings, then),
        Arms::More(before, _, then) => {
            turns_fit_arms(standings, before) && turns_fit(standings, then)
        }
    }
}

/// The first of a machine's texts that is wrong.
fn texts_fault(declaration: &Declaration, standings: &[Standing]) -> Option<BadMachine>
    ensures { result ≡ texts_fault (plain.declaration declaration.now) standings.now }
{
    if !(turns_fit(standings, &declaration.internal)
        && turns_fit(standings, &declaration.external))
    {
        return Some(BadMachine::Turns);
    }
    if declaration.outputs.len() > MAX_OUTPUTS {
        return Some(BadMachine::OutputCount);
    }
    if declaration.words.len() < 1 || declaration.words.len() > MAX_WORDS {
        return Some(BadMachine::WordCount);
    }
    if twice(standings, declaration.words.as_slice()) {
        return Some(BadMachine::WordTwice);
    }
    None
}

/// The first of a machine's members that is wrong.
pub(crate) fn members_fault(
    given: &Given,
    declaration: &Declaration,
    standings: &[Standing],
) -> Option<BadMachine>
    ensures { result ≡ members_fault (plain.given given.now)
        (plain.declaration declaration.now) standings.now }
{
    let names = declaration.names.as_slice();
    if !are_registers(names) {
        return Some(BadMachine::CellCount);
    }
    if !are_queues(given, names) {
        return Some(BadMachine::QueueCount);
    }
    if !are_tables(given, names) {
        return Some(BadMachine::TableCount);
    }
    if !is_some_ticks(given, declaration.longest) {
        return Some(BadMachine::Longest);
    }
    match timers_fault(given, &declaration.timers) {
        Some(bad) => Some(bad),
        None => texts_fault(declaration, standings),
    }
}

/// How many cells a register has, at most 257.
fn own_cells(thing: &Thing) -> usize
    ensures value { result ≡ min (own_cells (plain.thing thing.now)) cells_end }
    ensures small { result ≤ cells_end }
{
    match thing {
        Thing::Register(_) => 1,
        Thing::RegisterArray(starts) => starts.len().min(CELLS_END),
        _ => 0,
    }
}

/// How many cells the registers among these names have, at most 257.
fn register_cells(names: &[Named]) -> usize
    ensures value { result ≡ min (register_cells (map plain.name names.now)) cells_end }
    ensures small { result ≤ cells_end }
{
    let mut total = 0;
    for named in names {
        total = (total + own_cells(&named.thing)).min(CELLS_END);
    }
    total
}

/// Whether the registers have no more cells than they may have, and the program no more than any.
fn has_few_cells(names: &[Named], parts: &Parts) -> bool
    ensures { result ≡ has_few_cells (map plain.name names.now) (text_of parts.now) }
{
    register_cells(names) <= MAX_CELLS && parts.cells.len() <= MAX_PROGRAM_CELLS
}

/// The levels of a condition, at most 65.
fn test_levels(when: &Option<Value>) -> usize
    ensures { result ≡ min (test_levels (option_map plain.value when.now)) levels_end }
{
    match when {
        Some(Value::Text(tree)) => deep(tree),
        _ => 0,
    }
}

/// Whether no condition of an output has more than 64 levels.
fn are_flat(outputs: &[OutputText]) -> bool
    ensures { result ≡ list_all is_flat (map plain.output outputs.now) }
{
    for output in outputs {
        if test_levels(&output.when) > MAX_LEVELS {
            return false;
        }
    }
    true
}

/// Whether no program and no condition has more than 64 levels.
fn has_few_levels(declaration: &Declaration) -> bool
    ensures { result ≡ has_few_levels (plain.declaration declaration.now) }
{
    deep_block(&declaration.internal) <= MAX_LEVELS
        && deep_block(&declaration.external) <= MAX_LEVELS
        && are_flat(declaration.outputs.as_slice())
}

/// The first limit that is passed.
pub(crate) fn limit(
    standings: &[Standing],
    declaration: &Declaration,
    parts: &Parts,
) -> Option<BadMachine>
    ensures { result ≡ limit standings.now (plain.declaration declaration.now) (text_of parts.now) }
{
    if !has_few_cells(declaration.names.as_slice(), parts) {
        return Some(BadMachine::TooManyCells);
    }
    if parts.rooms.len() > MAX_QUEUES {
        return Some(BadMachine::TooManyQueues);
    }
    if total_room(parts.rooms.as_slice()) > MAX_ROOMS {
        return Some(BadMachine::TooMuchRoom);
    }
    if parts.numbers.len() > MAX_NUMBERS {
        return Some(BadMachine::TooManyNumbers);
    }
    if all_nodes(declaration) > MAX_NODES {
        return Some(BadMachine::TooManyNodes);
    }
    if !has_few_levels(declaration) {
        return Some(BadMachine::TooManyLevels);
    }
    if block_work(standings, &declaration.internal) > MAX_COMPUTATIONS {
        return Some(BadMachine::TooManyComputations);
    }
    if block_work(standings, &declaration.external) > MAX_COMPUTATIONS {
        return Some(BadMachine::TooManyComputations);
    }
    if outputs_work(standings, declaration.outputs.as_slice()) > MAX_COMPUTATIONS {
        return Some(BadMachine::TooManyComputations);
    }
    if words_work(standings, declaration.words.as_slice()) > MAX_COMPUTATIONS {
        return Some(BadMachine::TooManyComputations);
    }
    None
}
