//! The lines of a table of figures that are gathered until they are written.

ghost use Rattle.std.specs.Prelude.{◌≡◌, ◌<◌, ◌++◌, ◌||◌, ◌∷◌, [], ℕ, ℤ, List, IfOk, OnOk, codes, decimal, if◌then◌else◌, length, map, string_bytes, true};
ghost use Rattle.tw_figures.specs.Gathered.{start_words};
ghost use Rattle.tw_figures.specs.Labelled.{figure, label};
ghost use Rattle.tw_msgs.specs.declared.record.Record.{Record as TheRecord};
ghost use Rattle.tw_network.specs.Contents.{network_of};
ghost use Rattle.tw_record_lines.specs.FigureRows.{begin_text, figures_in, values_in};
ghost use Rattle.tw_record_lines.specs.FigureTables.{figures_head, table_of};
ghost use Rattle.tw_record_lines.specs.Gathering.{
  FiguresStand,
  all_values,
  changed_values,
  rows_at,
  rows_behind,
  rows_due,
  rows_of_change,
  rows_of_turn,
  rows_with,
  told_rows,
  turned_values,
};
ghost use Rattle.tw_record_lines.specs.Tables.{time_cells};

use crate::figure_rows::{add_changes, add_values};
use crate::rows::add_time;
use crate::table_lines::tick;
use std::alloc::{AllocError, Global};
use tw_atomic::Atomic;
use tw_figures::{Figure, Labels, is_shown};
use tw_msgs::{Record, RecordKind, Words};
use tw_network::Network;
use tw_texts::Names;
use tw_vtime::Stamp;

/// A table of figures: the components with their names and their figures, which of them are shown, and from which tick on.
#[derive(Drop)]
pub struct FigureTable<'a, N: Names> {
    /// The names.
    pub names: &'a N,
    /// What the components' models are called, and their figures.
    pub labels: &'a [Labels],
    /// Whether each component is shown, in their order.
    pub shown: &'a [bool],
    /// The tick from which on it has changes.
    pub from: u64,
}

/// Lines of a table of figures, gathered until they are written, and the values that the figures have by now.
#[derive(Drop)]
pub struct FigureLines {
    /// The values of the figures of each component.
    pub(crate) values: Vec<Vec<i128>>,
    /// Whether all figures stand in the table already.
    pub(crate) opened: bool,
    /// The lines.
    pub(crate) text: String,
}

impl FigureLines {
    /// The first line, before any record. Refused for want of memory (4).
    pub(crate) fn new<M: Atomic, N: Names>(
        alloc: Global,
        network: &Network<M>,
        table: &FigureTable<'_, N>,
    ) -> Result<FigureLines, AllocError>
        ensures stand { let net = network_of M.meaning network.now in
            let t = table_of (N.name_of table.now.names.now) table.now.labels.now
            table.now.shown.now table.now.from in
            IfOk result (FiguresStand t (start_words net) []) }
        ensures text { IfOk result (λ lines. string_bytes lines.text ≡ figures_head) }
    {
        Ok(FigureLines {
            values: first_values(alloc, network, table)?,
            opened: false,
            text: String::from_str(alloc, "tick,microstep,component,figure,value\n")?,
        })
    }

    /// Takes the next records of the run, in their order. Refused for want of memory (4); then it is of no more use.
    pub(crate) fn take_all<N: Names>(
        &mut self,
        alloc: Global,
        table: &FigureTable<'_, N>,
        steps: &[Record],
    ) -> Result<(), AllocError>
        ensures stand { let t = table_of (N.name_of table.now.names.now) table.now.labels.now
            table.now.shown.now table.now.from in
            (starts : List (List ℤ)) (front : List TheRecord)
            → FiguresStand t starts front self.old
            → OnOk result (FiguresStand t starts (front ++ steps.now) self.new) }
        ensures text { let t = table_of (N.name_of table.now.names.now) table.now.labels.now
            table.now.shown.now table.now.from in
            (starts : List (List ℤ)) (front : List TheRecord)
            → FiguresStand t starts front self.old
            → OnOk result (string_bytes self.new.text
            ≡ string_bytes self.old.text ++ rows_behind t starts front steps.now) }
    {
        for step in steps {
            self.take(alloc, table, step)?;
        }
        Ok(())
    }

    /// Takes the next record of the run. Before the first one that is at the first tick or later stand all figures.
    pub(crate) fn take<N: Names>(
        &mut self,
        alloc: Global,
        table: &FigureTable<'_, N>,
        step: &Record,
    ) -> Result<(), AllocError>
        ensures stand { let t = table_of (N.name_of table.now.names.now) table.now.labels.now
            table.now.shown.now table.now.from in
            (starts : List (List ℤ)) (front : List TheRecord)
            → FiguresStand t starts front self.old
            → OnOk result (FiguresStand t starts (front ++ step.now ∷ []) self.new) }
        ensures text { let t = table_of (N.name_of table.now.names.now) table.now.labels.now
            table.now.shown.now table.now.from in
            (starts : List (List ℤ)) (front : List TheRecord)
            → FiguresStand t starts front self.old
            → OnOk result (string_bytes self.new.text
            ≡ string_bytes self.old.text ++ rows_at t starts front step.now) }
    {
        let told = tick(step.stamp) >= table.from;
        self.open_where(alloc, table, told)?;
        self.turn(alloc, table, step, told)
    }

    /// The lines of all figures, where something is told and they do not stand there yet.
    fn open_where<N: Names>(
        &mut self,
        alloc: Global,
        table: &FigureTable<'_, N>,
        told: bool,
    ) -> Result<(), AllocError>
        ensures text { let t = table_of (N.name_of table.now.names.now) table.now.labels.now
            table.now.shown.now table.now.from in
            (starts : List (List ℤ)) (front : List TheRecord) → FiguresStand t starts front self.old
            → OnOk result (string_bytes self.new.text
            ≡ string_bytes self.old.text ++ (if told then rows_due t starts front else [])) }
        ensures opened { OnOk result (self.new.opened ≡ (self.old.opened || told)) }
        ensures values { self.new.values ≡ self.old.values }
    {
        if told {
            return self.open(alloc, table);
        }
        Ok(())
    }

    /// What a record does: an output nothing, a transition what [`change`](FigureLines::change) does.
    fn turn<N: Names>(
        &mut self,
        alloc: Global,
        table: &FigureTable<'_, N>,
        step: &Record,
        told: bool,
    ) -> Result<(), AllocError>
        ensures values { let t = table_of (N.name_of table.now.names.now) table.now.labels.now
            table.now.shown.now table.now.from in
            OnOk result (map (λ v. v.items) self.new.values.items
            ≡ turned_values t step.now (map (λ v. v.items) self.old.values.items)) }
        ensures text { let t = table_of (N.name_of table.now.names.now) table.now.labels.now
            table.now.shown.now table.now.from in
            OnOk result (string_bytes self.new.text ≡ string_bytes self.old.text
            ++ rows_of_turn t step.now told (map (λ v. v.items) self.old.values.items)) }
        ensures opened { self.new.opened ≡ self.old.opened }
    {
        match step.kind {
            RecordKind::Out => Ok(()),
            RecordKind::Int | RecordKind::Ext | RecordKind::Con => {
                self.change(alloc, table, step, told)
            }
        }
    }

    /// The lines of all figures, with the values that they have by now, where they do not stand there yet.
    pub(crate) fn open<N: Names>(
        &mut self,
        alloc: Global,
        table: &FigureTable<'_, N>,
    ) -> Result<(), AllocError>
        ensures text { let t = table_of (N.name_of table.now.names.now) table.now.labels.now
            table.now.shown.now table.now.from in
            (starts : List (List ℤ)) (front : List TheRecord) → FiguresStand t starts front self.old
            → OnOk result (string_bytes self.new.text
            ≡ string_bytes self.old.text ++ rows_due t starts front) }
        ensures opened { OnOk result (self.new.opened ≡ true) }
        ensures values { self.new.values ≡ self.old.values }
    {
        if self.opened {
            return Ok(());
        }
        add_all(alloc, &mut self.text, table, self.values.as_slice())?;
        self.opened = true;
        Ok(())
    }

    /// A transition: the lines of the figures that changed, where it is told, and the values that they now have.
    fn change<N: Names>(
        &mut self,
        alloc: Global,
        table: &FigureTable<'_, N>,
        step: &Record,
        told: bool,
    ) -> Result<(), AllocError>
        ensures values { let t = table_of (N.name_of table.now.names.now) table.now.labels.now
            table.now.shown.now table.now.from in
            OnOk result (map (λ v. v.items) self.new.values.items
            ≡ changed_values t step.now (map (λ v. v.items) self.old.values.items)) }
        ensures text { let t = table_of (N.name_of table.now.names.now) table.now.labels.now
            table.now.shown.now table.now.from in
            OnOk result (string_bytes self.new.text ≡ string_bytes self.old.text
            ++ rows_of_change t step.now told (map (λ v. v.items) self.old.values.items)) }
        ensures opened { self.new.opened ≡ self.old.opened }
    {
        let component = step.component;
        if component >= self.values.len() {
            return Ok(());
        }
        self.tell(alloc, table, step, told)?;
        let figures = figures_in(table.labels, table.shown, component);
        self.values[component] = values_of(alloc, figures, &step.words)?;
        Ok(())
    }

    /// The lines of the figures that a transition of a component that is there changed, where it is told.
    fn tell<N: Names>(
        &mut self,
        alloc: Global,
        table: &FigureTable<'_, N>,
        step: &Record,
        told: bool,
    ) -> Result<(), AllocError>
        requires { step.now.component < length self.old.values.items }
        ensures text { let t = table_of (N.name_of table.now.names.now) table.now.labels.now
            table.now.shown.now table.now.from in
            OnOk result (string_bytes self.new.text ≡ string_bytes self.old.text
            ++ (if told then told_rows t step.now (map (λ v. v.items) self.old.values.items) else [])) }
        ensures values { self.new.values ≡ self.old.values }
        ensures opened { self.new.opened ≡ self.old.opened }
    {
        if !told {
            return Ok(());
        }
        let component = step.component;
        let begin = cells(alloc, step.stamp, table.names.name(component))?;
        let figures = figures_in(table.labels, table.shown, component);
        let values = self.values[component].as_slice();
        add_changes(&mut self.text, begin.as_str(), figures, values, &step.words)
    }
}

/// The values of the figures of each component in its start state. Refused for want of memory (4).
fn first_values<M: Atomic, N: Names>(
    alloc: Global,
    network: &Network<M>,
    table: &FigureTable<'_, N>,
) -> Result<Vec<Vec<i128>>, AllocError>
    ensures { let net = network_of M.meaning network.now in
        let t = table_of (N.name_of table.now.names.now) table.now.labels.now
        table.now.shown.now table.now.from in
        IfOk result (λ values. map (λ v. v.items) values.items ≡ all_values t 0 (start_words net) []) }
{
    network.facts();
    let mut values = Vec::new(alloc);
    for component in 0..network.len() {
        let words = words_of(alloc, network.model(component))?;
        let figures = figures_in(table.labels, table.shown, component);
        values.push(values_of(alloc, figures, &words)?)?;
    }
    Ok(values)
}

/// The lines of all figures, with these values.
fn add_all<N: Names>(
    alloc: Global,
    text: &mut String,
    table: &FigureTable<'_, N>,
    values: &[Vec<i128>],
) -> Result<(), AllocError>
    ensures { let t = table_of (N.name_of table.now.names.now) table.now.labels.now
        table.now.shown.now table.now.from in
        OnOk result (string_bytes text.new
        ≡ string_bytes text.old ++ rows_with t 0 (map (λ v. v.items) values.now)) }
{
    for (component, values) in values.iter().enumerate() {
        let figures = figures_in(table.labels, table.shown, component);
        let begin = first_cells(alloc, table.from, table.names.name(component))?;
        add_values(text, begin.as_str(), figures, values.as_slice())?;
    }
    Ok(())
}

/// The figures of a component; none where it is not shown.
fn figures_in<'a>(labels: &'a [Labels], shown: &[bool], component: usize) -> &'a [Figure]
    ensures { map figure result.now ≡ figures_in (map label labels.now) shown.now component }
{
    if !is_shown(shown, component) {
        return &[];
    }
    match labels.get(component) {
        Some(label) => label.figures.as_slice(),
        None => &[],
    }
}

/// The words of the state in which a model starts. Refused for want of memory (4).
fn words_of<M: Atomic>(alloc: Global, model: &M) -> Result<Words, AllocError>
    ensures { let means = M.meaning model.now in
        IfOk result (λ words. words ≡ means.words means.start) }
{
    let state = model.start(alloc)?;
    let mut words = Vec::new(alloc);
    model.words(alloc, &state, &mut words)?;
    Ok(Words::from(words))
}

/// The values of figures in a state of these words. Refused for want of memory (4).
fn values_of(alloc: Global, figures: &[Figure], words: &Words) -> Result<Vec<i128>, AllocError>
    ensures { IfOk result
        (λ values. values.items ≡ values_in (map figure figures.now) words.now) }
{
    let mut values = Vec::new(alloc);
    for figure in figures {
        values.push(figure.measure.value(words))?;
    }
    Ok(values)
}

/// The cells of the first tick, of microstep 0 and of a component. Refused for want of memory (4).
fn first_cells(alloc: Global, from: u64, name: &str) -> Result<String, AllocError>
    ensures { IfOk result
        (λ text. string_bytes text ≡ begin_text (decimal from ++ codes ",0") name.now) }
{
    let text = format!(in alloc; "{from},0,{name},")?;
    Ok(text)
}

/// The cells of a time and of a component. Refused for want of memory (4).
fn cells(alloc: Global, at: Stamp, name: &str) -> Result<String, AllocError>
    ensures { IfOk result (λ text. string_bytes text ≡ begin_text (time_cells at) name.now) }
{
    let mut text = String::new(alloc);
    add_time(&mut text, at)?;
    text.push_str(",")?;
    text.push_str(name)?;
    text.push_str(",")?;
    Ok(text)
}
