//! The figures and the observations of a machine, from the entries of its `words`.

ghost use Rattle.std.specs.Prelude.{◌≡◌, ◌≤◌, ◌++◌, ◌∷◌, [], IfOk, OnOk, Some, length, map, string_bytes, take};
ghost use Rattle.std.specs.List.{flat_map, range_with_len};
ghost use Rattle.tw_figures.specs.Labelled.{figure, observation};
ghost use Rattle.tw_figure_names.specs.Entries.{
  before_queue,
  cell_name,
  figures_of,
  numbers_by,
  numbers_of,
  observations_of,
  observed_at,
  observed_by,
  observed_from,
  placed,
  queue_texts,
  values_behind,
};
ghost use Rattle.tw_figure_names.specs.EntryViews.{entry, number};
ghost use Rattle.tw_figure_names.specs.declared.entries.Shown.TheVariants.{Observed};

use crate::entries::{Entry, Shown};
use crate::texts::joined;
use std::alloc::{AllocError, Global};
use tw_figures::{Figure, Measure, Observation};

/// The figures and the observations of a machine.
#[derive(Drop)]
pub(crate) struct Told {
    pub figures: Vec<Figure>,
    pub observations: Vec<Observation>,
}

/// The numbers that entries show, each by its name if it is a figure; and the observations among them.
#[derive(Drop)]
struct Numbers {
    names: Vec<Option<String>>,
    observations: Vec<Observation>,
}

/// A number of this name.
fn add(names: &mut Vec<Option<String>>, name: String) -> Result<(), AllocError>
    ensures { OnOk result (map number names.new.items
        ≡ map number names.old.items ++ Some (string_bytes name) ∷ []) }
{
    names.push(Some(name))?;
    Ok(())
}

/// The cells of an array register.
fn add_cells(
    alloc: Global,
    names: &mut Vec<Option<String>>,
    text: &str,
    count: u32,
) -> Result<(), AllocError>
    ensures { OnOk result (map number names.new.items ≡ map number names.old.items
        ++ map (λ i. Some (cell_name text.now i)) (range_with_len 0 count)) }
{
    for cell in 0..count {
        add(names, format!(in alloc; "{text}[{cell}]")?)?;
    }
    Ok(())
}

/// An observation, and its three numbers.
fn add_observation(alloc: Global, numbers: &mut Numbers, text: &str) -> Result<(), AllocError>
    ensures names { OnOk result (map number numbers.new.names.items
        ≡ map number numbers.old.names.items ++ numbers_by text.now Observed) }
    ensures observations { OnOk result (map observation numbers.new.observations.items
        ≡ map observation numbers.old.observations.items
        ++ observed_by (length numbers.old.names.items) text.now Observed) }
{
    let name = String::from_str(alloc, text)?;
    let place = numbers.names.len();
    numbers.observations.push(Observation { name, place })?;
    numbers.names.push(None)?;
    numbers.names.push(None)?;
    numbers.names.push(None)?;
    Ok(())
}

/// The numbers that an entry shows.
fn add_entry(alloc: Global, numbers: &mut Numbers, said: &Entry) -> Result<(), AllocError>
    ensures names { OnOk result (map number numbers.new.names.items
        ≡ map number numbers.old.names.items ++ numbers_of (entry said.now)) }
    ensures observations { OnOk result (map observation numbers.new.observations.items
        ≡ map observation numbers.old.observations.items
        ++ observed_at (length numbers.old.names.items) (entry said.now)) }
{
    let text = said.text.as_str();
    match said.shows {
        Shown::Number => add(&mut numbers.names, String::from_str(alloc, text)?)?,
        Shown::Cells(count) => add_cells(alloc, &mut numbers.names, text, count)?,
        Shown::Observed => add_observation(alloc, numbers, text)?,
        Shown::Values => {}
    }
    Ok(())
}

/// The numbers that entries show.
fn add_all(alloc: Global, numbers: &mut Numbers, entries: &[Entry]) -> Result<(), AllocError>
    ensures names { OnOk result (map number numbers.new.names.items
        ≡ map number numbers.old.names.items ++ flat_map numbers_of (map entry entries.now)) }
    ensures observations { OnOk result (map observation numbers.new.observations.items
        ≡ map observation numbers.old.observations.items
        ++ observed_from (length numbers.old.names.items) (map entry entries.now)) }
{
    for said in entries {
        add_entry(alloc, numbers, said)?;
    }
    Ok(())
}

/// Where the first queue stands; behind the last entry where there is none.
fn queue_at(entries: &[Entry]) -> usize
    ensures within { result ≤ length entries.now }
    ensures before { map entry (take result entries.now) ≡ before_queue (map entry entries.now) }
{
    for (index, said) in entries.iter().enumerate() {
        if said.shows == Shown::Values {
            return index;
        }
    }
    entries.len()
}

/// The texts of the queues.
fn queue_texts(alloc: Global, entries: &[Entry]) -> Result<Vec<String>, AllocError>
    ensures { IfOk result
        (λ texts. map string_bytes texts.items ≡ queue_texts (map entry entries.now)) }
{
    let mut texts = Vec::new(alloc);
    for said in entries {
        if said.shows == Shown::Values {
            texts.push(String::from_str(alloc, said.text.as_str())?)?;
        }
    }
    Ok(texts)
}

/// The numbers of these names as figures, each by its place.
fn placed(alloc: Global, names: &[Option<String>]) -> Result<Vec<Figure>, AllocError>
    ensures { IfOk result (λ figures. map figure figures.items ≡ placed 0 (map number names.now)) }
{
    let mut figures = Vec::new(alloc);
    for (place, name) in names.iter().enumerate() {
        if let Some(name) = name {
            let name = String::from_str(alloc, name.as_str())?;
            let measure = Measure::Word(place);
            figures.push(Figure { name, measure })?;
        }
    }
    Ok(figures)
}

/// How many values all queues have, behind so many numbers; nothing where there is no queue.
fn add_values(
    alloc: Global,
    figures: &mut Vec<Figure>,
    numbers: usize,
    entries: &[Entry],
) -> Result<(), AllocError>
    ensures { OnOk result (map figure figures.new.items ≡ map figure figures.old.items
        ++ values_behind numbers (queue_texts (map entry entries.now))) }
{
    let texts = queue_texts(alloc, entries)?;
    if !texts.is_empty() {
        let name = joined(alloc, texts.as_slice())?;
        let measure = Measure::Beyond(numbers);
        figures.push(Figure { name, measure })?;
    }
    Ok(())
}

/// The figures and observations of a machine with these entries. What stands behind a queue is only counted.
pub(crate) fn told_of(alloc: Global, entries: &[Entry]) -> Result<Told, AllocError>
    ensures figures { IfOk result
        (λ told. map figure told.figures.items ≡ figures_of (map entry entries.now)) }
    ensures observations { IfOk result
        (λ told. map observation told.observations.items ≡ observations_of (map entry entries.now)) }
{
    let (before, behind) = entries.split_at(queue_at(entries));
    let mut numbers = Numbers {
        names: Vec::new(alloc),
        observations: Vec::new(alloc),
    };
    add_all(alloc, &mut numbers, before)?;
    let mut figures = placed(alloc, &numbers.names)?;
    let shown = numbers.observations.len();
    add_all(alloc, &mut numbers, behind)?;
    add_values(alloc, &mut figures, numbers.names.len(), entries)?;
    let mut observations = numbers.observations;
    observations.truncate(shown);
    Ok(Told {
        figures,
        observations,
    })
}
