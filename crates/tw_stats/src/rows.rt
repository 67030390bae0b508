//! What a report says of each component, beside its name.

ghost use Rattle.std.specs.Prelude.{◌≡◌, IfOk, map, string_bytes};
ghost use Rattle.std.specs.List.{zip};
ghost use Rattle.tw_figures.specs.Labelled as plain;
ghost use Rattle.tw_stats.specs.Rows.{row, row_of, rows_of, shown_rows, told_figure, told_observation};

use crate::report::{Part, Report};
use std::alloc::{AllocError, Global};
use tw_figures::{Counts, Figure, Labels, Observation, Observed, Told};
use tw_texts::Names;

/// A component: its name and that of its model, its counts, its figures and its observations, each beside its name.
#[derive(Drop)]
pub(crate) struct Row<'a> {
    pub(crate) name: &'a str,
    pub(crate) model: &'a str,
    pub(crate) counts: Counts,
    pub(crate) figures: Vec<(&'a str, Told)>,
    pub(crate) observations: Vec<(&'a str, Observed)>,
}

/// The components of a report, in order. Refused for want of memory (4).
pub(crate) fn rows_of<'a, N: Names>(
    alloc: Global,
    report: &'a Report,
    names: &'a N,
    labels: &'a [Labels],
) -> Result<Vec<Row<'a>>, AllocError>
    ensures { let said = map plain.label labels.now in
        IfOk result (λ rows. map row rows.items
        ≡ rows_of (N.name_of names.now) said report.now.parts.items) }
{
    let mut rows = Vec::new(alloc);
    for (label, part) in labels.iter().zip(report.parts.iter()) {
        let name = names.name(rows.len());
        rows.push(row_of(alloc, name, label, part)?)?;
    }
    Ok(rows)
}

/// A component of this name.
fn row_of<'a>(
    alloc: Global,
    name: &'a str,
    label: &'a Labels,
    part: &'a Part,
) -> Result<Row<'a>, AllocError>
    ensures { IfOk result (λ r. row r ≡ row_of name.now (plain.label label.now) part.now) }
{
    Ok(Row {
        name,
        model: label.model.as_str(),
        counts: part.counts,
        figures: told_figures(alloc, label.figures.as_slice(), part.figures.as_slice())?,
        observations: told_observations(
            alloc,
            label.observations.as_slice(),
            part.observations.as_slice(),
        )?,
    })
}

/// Figures beside their names.
fn told_figures<'a>(
    alloc: Global,
    figures: &'a [Figure],
    tolds: &[Told],
) -> Result<Vec<(&'a str, Told)>, AllocError>
    ensures { IfOk result (λ named. map told_figure named.items
        ≡ zip (map (λ f. string_bytes f.name) figures.now) tolds.now) }
{
    let mut named = Vec::new(alloc);
    for (figure, told) in figures.iter().zip(tolds.iter()) {
        named.push((figure.name.as_str(), *told))?;
    }
    Ok(named)
}

/// Observations beside their names.
fn told_observations<'a>(
    alloc: Global,
    observations: &'a [Observation],
    tolds: &[Observed],
) -> Result<Vec<(&'a str, Observed)>, AllocError>
    ensures { IfOk result (λ named. map told_observation named.items
        ≡ zip (map (λ o. string_bytes o.name) observations.now) tolds.now) }
{
    let mut named = Vec::new(alloc);
    for (observation, told) in observations.iter().zip(tolds.iter()) {
        named.push((observation.name.as_str(), *told))?;
    }
    Ok(named)
}

/// Those of components that are shown. Refused for want of memory (4).
pub(crate) fn shown_rows<'a>(
    alloc: Global,
    rows: Vec<Row<'a>>,
    shown: &[bool],
) -> Result<Vec<Row<'a>>, AllocError>
    ensures { IfOk result
        (λ kept. map row kept.items ≡ shown_rows (map row rows.entry.items) shown.now) }
{
    let mut kept = Vec::new(alloc);
    for (row, is_shown) in rows.into_iter().zip(shown.iter()) {
        if *is_shown {
            kept.push(row)?;
        }
    }
    Ok(kept)
}
