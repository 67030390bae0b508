//! The machines of a file, and the figures and observations of one of them.

ghost use Rattle.std.specs.Prelude.{◌≡◌, IfOk, map, option_map};
ghost use Rattle.serde_json.specs.View.{view, items_view};
ghost use Rattle.tw_machine_declaration.specs.Seen.{value};
ghost use Rattle.tw_machine_file.specs.Seen.{machine};
ghost use Rattle.tw_figure_names.specs.Entries.{figures_of, observations_of};
ghost use Rattle.tw_figures.specs.Labelled.{figure, observation};
ghost use Rattle.tw_figure_names.specs.Said.{
  entries_said,
  figures_named,
  machines_said,
  observations_named,
  value_named,
  words_named,
};

use crate::entries::entries_of;
use crate::figures::{Told, told_of};
use serde_json::Value;
use std::alloc::{AllocError, Global};
use tw_file_members::{items_in, machine_named, text_in};
use tw_machine_declaration::{Given, standings_of};
use tw_machine_file::{FileMachine, MachineFault, machines_in};

/// The machines that a file declares; none where one of them is refused.
pub(crate) fn machines_of(alloc: Global, file: &Value) -> Result<Vec<FileMachine>, AllocError>
    ensures { IfOk result
        (λ machines. map machine machines.items ≡ machines_said (view file.now)) }
{
    let Some(models) = file.get("models") else {
        return Ok(Vec::new(alloc));
    };
    match machines_in(alloc, file, models) {
        Ok(machines) => Ok(machines),
        Err(MachineFault::OutOfMemory) => Err(AllocError),
        Err(_) => Ok(Vec::new(alloc)),
    }
}

/// The first value of a name.
fn value_named<'a>(values: &'a [Value], name: &str) -> Option<&'a Value>
    ensures { option_map (λ v. view v.now) result ≡ value_named (items_view values.now) name.now }
{
    for value in values {
        if text_in(value, "name") == name {
            return Some(value);
        }
    }
    None
}

/// The entries of `words` of the first value of a name.
fn words_named<'a>(values: &'a [Value], name: &str) -> &'a [Value]
    ensures { items_view result.now ≡ words_named (items_view values.now) name.now }
{
    match value_named(values, name) {
        Some(value) => items_in(value, "words"),
        None => &[],
    }
}

/// The figures and observations of a machine, of which these values are the entries of `words`.
fn told_by(alloc: Global, said: &FileMachine, words: &[Value]) -> Result<Told, AllocError>
    ensures figures { IfOk result (λ told. map figure told.figures.items
        ≡ figures_of (entries_said (machine said.now) (items_view words.now))) }
    ensures observations { IfOk result (λ told. map observation told.observations.items
        ≡ observations_of (entries_said (machine said.now) (items_view words.now))) }
{
    let nothing = Given {
        numbers: Vec::new(alloc),
        lists: Vec::new(alloc),
    };
    let declaration = &said.declaration;
    let standings = standings_of(alloc, &nothing, &declaration.names)?;
    let entries = entries_of(alloc, &standings, &declaration.words, words)?;
    told_of(alloc, &entries)
}

/// The figures and observations of the machine of a name, among machines that these values declare.
pub(crate) fn told_named(
    alloc: Global,
    machines: &[FileMachine],
    values: &[Value],
    name: &str,
) -> Result<Told, AllocError>
    ensures figures { IfOk result (λ told. map figure told.figures.items
        ≡ figures_named (map machine machines.now) (items_view values.now) name.now) }
    ensures observations { IfOk result (λ told. map observation told.observations.items
        ≡ observations_named (map machine machines.now) (items_view values.now) name.now) }
{
    match machine_named(machines, name) {
        Some(machine) => told_by(alloc, machine, words_named(values, name)),
        None => Ok(Told {
            figures: Vec::new(alloc),
            observations: Vec::new(alloc),
        }),
    }
}
