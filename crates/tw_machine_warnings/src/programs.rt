//! What is odd about the programs of a machine, what it sends and what it shows.
ghost use Rattle.std.specs.Prelude.{◌≡◌, ◌++◌, ◌&&◌, not, IfOk, OnOk, map, string_bytes};
ghost use Rattle.tw_machine_text.specs.Views.{body};
ghost use Rattle.tw_machine_declaration.specs.Seen as plain;
ghost use Rattle.tw_machine_warnings.specs.Machines.{
  entry_place,
  has_timers,
  never_draws,
  output_warnings,
  outputs_warnings,
  program_warnings,
  sent_place,
  word_warnings,
  words_warnings,
};
ghost use Rattle.tw_machine_warnings.specs.Texts.{does_machine};
ghost use Rattle.tw_machine_warnings.specs.Warning.{warning};
ghost use Rattle.tw_machine_warnings.specs.declared.deeds.Doing.TheVariants.{Draws};

use crate::deeds::{Doing, does, waits_twice};
use crate::names::add_indexes;
use crate::sought::{Sought, in_block};
use crate::texts::{
    Text, does_machine, has_timers, has_zero_output, has_zero_word, in_output, in_value, is_past,
};
use crate::warning::{Kind, Warning, add_where};
use std::alloc::{AllocError, Global};
use tw_machine_declaration::{Declaration, Named, OutputText, Value};
use tw_machine_text::Block;

/// Whether a random number is read, and the program never draws.
fn never_draws(program: &Block) -> bool
    ensures { result ≡ never_draws (body program.now) }
{
    in_block(Sought::Random, program) && !does(Doing::Draws, program)
}

/// Adds what is odd about a program; `has_zero` says whether a number stands in it that is always 0.
pub(crate) fn add_program(
    alloc: Global,
    warnings: &mut Vec<Warning>,
    place: &str,
    has_zero: bool,
    program: &Block,
    names: &[Named],
) -> Result<(), AllocError>
    ensures { OnOk result (map warning warnings.new.items
        ≡ map warning warnings.old.items
        ++ program_warnings place.now has_zero (body program.now) (map plain.name names.now)) }
{
    let waits_back = does(Doing::WaitsBack, program);
    add_where(
        alloc,
        warnings,
        never_draws(program),
        place,
        Kind::NeverDraws,
    )?;
    add_where(alloc, warnings, has_zero, place, Kind::AlwaysZero)?;
    add_where(alloc, warnings, waits_twice(program), place, Kind::TwoWaits)?;
    add_where(alloc, warnings, waits_back, place, Kind::NegativeWait)?;
    add_indexes(alloc, warnings, Text::Program(program), place, names)
}

/// Adds what is odd about an entry of what is sent by a machine that draws or not.
fn add_output(
    alloc: Global,
    warnings: &mut Vec<Warning>,
    place: &str,
    draws: bool,
    entry: &OutputText,
    names: &[Named],
) -> Result<(), AllocError>
    ensures { OnOk result (map warning warnings.new.items
        ≡ map warning warnings.old.items
        ++ output_warnings place.now draws (plain.output entry.now) (map plain.name names.now)) }
{
    let never_draws = in_output(Sought::Random, entry) && !draws;
    add_where(alloc, warnings, never_draws, place, Kind::NeverDraws)?;
    add_where(alloc, warnings, is_past(&entry.port), place, Kind::PortPast)?;
    add_where(
        alloc,
        warnings,
        has_zero_output(entry),
        place,
        Kind::AlwaysZero,
    )?;
    add_indexes(alloc, warnings, Text::Output(entry), place, names)
}

/// Adds what is odd about a word of a machine that draws or not.
fn add_word(
    alloc: Global,
    warnings: &mut Vec<Warning>,
    place: &str,
    draws: bool,
    word: &Value,
    names: &[Named],
) -> Result<(), AllocError>
    ensures { OnOk result (map warning warnings.new.items
        ≡ map warning warnings.old.items
        ++ word_warnings place.now draws (plain.value word.now) (map plain.name names.now)) }
{
    let never_draws = in_value(Sought::Random, word) && !draws;
    add_where(alloc, warnings, never_draws, place, Kind::NeverDraws)?;
    add_where(
        alloc,
        warnings,
        has_zero_word(word),
        place,
        Kind::AlwaysZero,
    )?;
    add_indexes(alloc, warnings, Text::Word(word), place, names)
}

/// The place of an entry of a member.
fn entry_place(alloc: Global, place: &str, index: usize) -> Result<String, AllocError>
    ensures { IfOk result (λ t. string_bytes t ≡ entry_place place.now index) }
{
    format!(in alloc; "{place}[{index}]")
}

/// The place of an entry of what is sent; of timers it is not told.
fn sent_place(alloc: Global, timed: bool, place: &str, index: usize) -> Result<String, AllocError>
    ensures { IfOk result (λ t. string_bytes t ≡ sent_place timed place.now index) }
{
    if timed {
        String::from_str(alloc, place)
    } else {
        entry_place(alloc, place, index)
    }
}

/// Adds what is odd about what a machine sends, by timers or not, at the place of that member.
pub(crate) fn add_outputs(
    alloc: Global,
    warnings: &mut Vec<Warning>,
    place: &str,
    declaration: &Declaration,
) -> Result<(), AllocError>
    ensures { OnOk result (map warning warnings.new.items ≡ map warning warnings.old.items
        ++ outputs_warnings place.now (has_timers (plain.declaration declaration.now))
        (does_machine Draws (plain.declaration declaration.now))
        (map plain.name declaration.now.names.items) 0
        (map plain.output declaration.now.outputs.items)) }
{
    let timed = has_timers(declaration);
    let draws = does_machine(Doing::Draws, declaration);
    let names = declaration.names.as_slice();
    let entries = declaration.outputs.as_slice();
    for (index, entry) in entries.iter().enumerate() {
        let place = sent_place(alloc, timed, place, index)?;
        add_output(alloc, warnings, place.as_str(), draws, entry, names)?;
    }
    Ok(())
}

/// Adds what is odd about the words.
pub(crate) fn add_words(
    alloc: Global,
    warnings: &mut Vec<Warning>,
    place: &str,
    draws: bool,
    words: &[Value],
    names: &[Named],
) -> Result<(), AllocError>
    ensures { OnOk result (map warning warnings.new.items
        ≡ map warning warnings.old.items
        ++ words_warnings place.now draws (map plain.name names.now) 0
        (map plain.value words.now)) }
{
    for (index, word) in words.iter().enumerate() {
        let place = entry_place(alloc, place, index)?;
        add_word(alloc, warnings, place.as_str(), draws, word, names)?;
    }
    Ok(())
}
