//! The program of a machine with the numbers of a component put in.
ghost use Rattle.std.specs.Prelude.{◌≡◌, ◌≢◌, ◌++◌, IfOk, IfErr, Some, None, flat_map, map};
ghost use Rattle.tw_machine.specs.Limits.{fault_of as limits_of};
ghost use Rattle.tw_machine.specs.Program.{text_of};
ghost use Rattle.tw_machine_declaration.specs.Seen as plain;
ghost use Rattle.tw_machine_declaration.specs.Names.{
  cells,
  given_numbers,
  numbers,
  rooms,
  standings_of,
  things,
};
ghost use Rattle.tw_machine.specs.Seen.{seen_output, seen_statement, seen_program, seen_word};
ghost use Rattle.tw_machine_compiler.specs.Statements.{block};
ghost use Rattle.tw_machine_compiler.specs.Program.{first_wait, output, program_of, shown_word};
ghost use Rattle.tw_machine_compiler.specs.Limits.{members_fault, limit, fault_of};
ghost use Rattle.tw_machine_compiler.specs.declared.limits.BadMachine.TheVariants.{OutOfMemory};

use crate::limits::{BadMachine, limit, members_fault};
use crate::members::{outputs, seed, ticks, words};
use crate::starts::{all_cells, all_numbers, all_rooms};
use crate::statements::block;
use std::alloc::{AllocError, Global};
use tw_machine::language::{Output, Statement, Word};
use tw_machine::program::{Parts, Program};
use tw_machine_declaration::{
    Declaration, Given, Named, Standing, due_ticks, earliest, standings_of,
};

/// What a machine has at the start: the cells of its registers, the rooms of its queues and the numbers of its tables.
/// The only error is want of memory.
fn starts_of(
    alloc: Global,
    given: &Given,
    names: &[Named],
) -> Result<(Vec<i64>, Vec<u16>, Vec<i64>), AllocError>
    ensures cells { IfOk result (λ s. s.0.items
        ≡ flat_map (cells (plain.given given.now)) (things (map plain.name names.now))) }
    ensures rooms { IfOk result (λ s. s.1.items
        ≡ flat_map (rooms (plain.given given.now)) (things (map plain.name names.now))) }
    ensures numbers { IfOk result (λ s. s.2.items
        ≡ given_numbers (plain.given given.now) ++ flat_map numbers
        (things (map plain.name names.now))) }
{
    let cells = all_cells(alloc, given, names)?;
    let rooms = all_rooms(alloc, given, names)?;
    let numbers = all_numbers(alloc, given, names)?;
    Ok((cells, rooms, numbers))
}

/// What a machine does: in an internal transition, and for each item that comes. The only error is want of memory.
fn blocks_of(
    alloc: Global,
    standings: &[Standing],
    declaration: &Declaration,
) -> Result<(Statement, Statement), AllocError>
    ensures internal { IfOk result (λ s. seen_statement s.0
        ≡ block standings.now (plain.declaration declaration.now).internal) }
    ensures external { IfOk result (λ s. seen_statement s.1
        ≡ block standings.now (plain.declaration declaration.now).external) }
{
    let internal = block(alloc, standings, &declaration.internal)?;
    let external = block(alloc, standings, &declaration.external)?;
    Ok((internal, external))
}

/// What a machine sends and shows. The only error is want of memory.
fn texts_of(
    alloc: Global,
    standings: &[Standing],
    declaration: &Declaration,
) -> Result<(Vec<Output>, Vec<Word>), AllocError>
    ensures outputs { IfOk result (λ s. map seen_output s.0.items
        ≡ map (output standings.now) (plain.declaration declaration.now).outputs) }
    ensures words { IfOk result (λ s. map seen_word s.1.items
        ≡ map (shown_word standings.now) (plain.declaration declaration.now).words) }
{
    let outputs = outputs(alloc, standings, declaration.outputs.as_slice())?;
    let words = words(alloc, standings, declaration.words.as_slice())?;
    Ok((outputs, words))
}

/// The first wait: of a machine with timers until the first is due. The only error is want of memory.
fn first_wait(
    alloc: Global,
    given: &Given,
    declaration: &Declaration,
) -> Result<Option<u64>, AllocError>
    ensures { IfOk result (λ first. first
        ≡ first_wait (plain.given given.now) (plain.declaration declaration.now)) }
{
    match &declaration.timers {
        Some(timers) => {
            let due = due_ticks(alloc, given, timers)?;
            Ok(earliest(&due))
        }
        None => Ok(ticks(given, declaration.first)),
    }
}

/// The parts of the program that a machine means with these numbers, by what its names stand for. The only error is
/// want of memory.
fn parts_of(
    alloc: Global,
    given: &Given,
    declaration: &Declaration,
    standings: &[Standing],
) -> Result<Parts, AllocError>
    requires { standings.now
        ≡ standings_of (plain.given given.now) (plain.declaration declaration.now).names }
    ensures { IfOk result (λ parts. seen_program (text_of parts)
        ≡ program_of (plain.given given.now) (plain.declaration declaration.now)) }
{
    let (cells, rooms, numbers) = starts_of(alloc, given, declaration.names.as_slice())?;
    let (outputs, words) = texts_of(alloc, standings, declaration)?;
    let (internal, external) = blocks_of(alloc, standings, declaration)?;
    let first = first_wait(alloc, given, declaration)?;
    Ok(Parts {
        cells,
        rooms,
        seed: seed(given, declaration.random),
        first,
        longest: ticks(given, declaration.longest),
        numbers,
        internal,
        external,
        outputs,
        words,
    })
}

/// Nothing where there is no fault.
fn held(fault: Option<BadMachine>) -> Result<(), BadMachine>
    ensures held { IfOk result (λ _. fault ≡ None) }
    ensures refused { IfErr result (λ bad. fault ≡ Some bad) }
{
    match fault {
        Some(bad) => Err(bad),
        None => Ok(()),
    }
}

/// The first of a machine's members that is wrong is refused.
fn members_held(
    given: &Given,
    declaration: &Declaration,
    standings: &[Standing],
) -> Result<(), BadMachine>
    requires { standings.now
        ≡ standings_of (plain.given given.now) (plain.declaration declaration.now).names }
    ensures held { IfOk result
        (λ _. members_fault (plain.given given.now)
        (plain.declaration declaration.now) standings.now ≡ None) }
    ensures refused { IfErr result
        (λ bad. fault_of (plain.given given.now) (plain.declaration declaration.now) ≡ Some bad) }
{
    held(members_fault(given, declaration, standings))
}

/// The program of parts that are within the limits of any.
fn program(parts: Parts) -> Program
    requires { limits_of (text_of parts) ≡ None }
    ensures { result ≡ text_of parts }
{
    match Program::new(parts) {
        Ok(program) => program,
        Err(_) => unreachable!(),
    }
}

/// The program of these parts, or the first limit that they pass. Two numbers at the most are logged for each
/// computation, so these limits are the narrower ones.
fn limited(
    standings: &[Standing],
    declaration: &Declaration,
    parts: Parts,
) -> Result<Program, BadMachine>
    requires internal { seen_statement parts.internal
        ≡ block standings.now (plain.declaration declaration.now).internal }
    requires external { seen_statement parts.external
        ≡ block standings.now (plain.declaration declaration.now).external }
    ensures made { IfOk result (λ program. program ≡ text_of parts) }
    ensures sound { IfOk result
        (λ _. limit standings.now (plain.declaration declaration.now) (text_of parts) ≡ None) }
    ensures refused { IfErr result
        (λ bad. limit standings.now (plain.declaration declaration.now) (text_of parts)
        ≡ Some bad) }
{
    match limit(standings, declaration, &parts) {
        Some(bad) => {
            drop(parts);
            Err(bad)
        }
        None => Ok(program(parts)),
    }
}

/// The program that a machine means with these numbers, or its first fault: 21 (BadShape). Want of memory (4) may come
/// before any fault.
pub fn compile(
    alloc: Global,
    given: &Given,
    declaration: &Declaration,
) -> Result<Program, BadMachine>
    ensures made { IfOk result (λ program. seen_program program
        ≡ program_of (plain.given given.now) (plain.declaration declaration.now)) }
    ensures sound { IfOk result
        (λ _. fault_of (plain.given given.now) (plain.declaration declaration.now) ≡ None) }
    ensures refused { IfErr result (λ bad. bad ≢ OutOfMemory
        → fault_of (plain.given given.now) (plain.declaration declaration.now) ≡ Some bad) }
{
    let standings = standings_of(alloc, given, declaration.names.as_slice())?;
    members_held(given, declaration, &standings)?;
    let parts = parts_of(alloc, given, declaration, &standings)?;
    limited(&standings, declaration, parts)
}
