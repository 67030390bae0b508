//! A report as text: what it is of, the counts of the components, their figures, and their observations where there are any.

ghost use Rattle.std.specs.Prelude.{◌≡◌, ◌++◌, ◌∷◌, [], IfOk, OnOk, codes, decimal, flat_map, map, string_bytes};
ghost use Rattle.std.specs.Fmt.{signed_decimal};
ghost use Rattle.std.specs.Option.{option_map_or};
ghost use Rattle.tw_stats.specs.Decimals.{thousandths_text};
ghost use Rattle.tw_stats.specs.Grids.{grid_text, lines_of};
ghost use Rattle.tw_stats.specs.Rows as plain;
ghost use Rattle.tw_stats.specs.Texts.{counts_head, counts_line, figure_line, figure_lines, extent_text, figures_head, first_line, from_text, observation_line, observation_lines, observations_head, observations_text, report_text};

use crate::decimals::add_thousandths;
use crate::grid::add_grid;
use crate::report::Report;
use crate::rows::Row;
use std::alloc::{AllocError, Global};
use tw_figures::{Counts, Observed, Told};

/// Adds a report to a text. Where memory is wanting (refusal 4) a part of it may stand at the end.
pub(crate) fn add_text(
    alloc: Global,
    text: &mut String,
    report: &Report,
    rows: &[Row<'_>],
) -> Result<(), AllocError>
    ensures { let said = map plain.row rows.now in
        OnOk result (string_bytes text.new ≡ string_bytes text.old ++ report_text said report.now) }
{
    add_first_line(text, report)?;
    text.push_str("\n")?;
    let counts = counts_lines(alloc, rows)?;
    add_grid(alloc, text, 2, counts.as_slice())?;
    text.push_str("\n")?;
    let figures = figures_lines(alloc, rows)?;
    add_grid(alloc, text, 2, figures.as_slice())?;
    add_observations(alloc, text, rows)?;
    Ok(())
}

/// The table of the observations, behind an empty line; nothing where there is none.
fn add_observations(alloc: Global, text: &mut String, rows: &[Row<'_>]) -> Result<(), AllocError>
    ensures { let said = flat_map observation_lines (map plain.row rows.now) in
        OnOk result (string_bytes text.new ≡ string_bytes text.old ++ observations_text said) }
{
    let lines = observations_lines(alloc, rows)?;
    if lines.len() == 1 {
        return Ok(());
    }
    text.push_str("\n")?;
    add_grid(alloc, text, 2, lines.as_slice())?;
    Ok(())
}

/// What a report is of.
fn add_first_line(text: &mut String, report: &Report) -> Result<(), AllocError>
    ensures { OnOk result (string_bytes text.new ≡ string_bytes text.old ++ first_line report.now) }
{
    add_from(text, report.from)?;
    add_extent(text, report)
}

/// The end tick, and how many components, records and microsteps there are.
fn add_extent(text: &mut String, report: &Report) -> Result<(), AllocError>
    ensures { OnOk result (string_bytes text.new ≡ string_bytes text.old ++ extent_text report.now) }
{
    let until = report.until;
    let components = report.parts.len();
    let records = report.records;
    let microsteps = report.microsteps;
    write!(text, "until {until}  components {components}")?;
    write!(text, "  records {records}  microsteps {microsteps}\n")
}

/// The tick from which on is told, where one was asked for.
fn add_from(text: &mut String, from: Option<u64>) -> Result<(), AllocError>
    ensures { OnOk result (string_bytes text.new ≡ string_bytes text.old ++ from_text from) }
{
    match from {
        Some(from) => write!(text, "from {from}  "),
        None => Ok(()),
    }
}

/// The lines of the counts.
fn counts_lines(alloc: Global, rows: &[Row<'_>]) -> Result<Vec<Vec<String>>, AllocError>
    ensures { IfOk result (λ lines. lines_of lines.items
        ≡ counts_head ∷ map counts_line (map plain.row rows.now)) }
{
    let mut lines = Vec::new(alloc);
    lines.push(head(
        alloc,
        &[
            "component",
            "model",
            "outputs",
            "sent",
            "received",
            "int",
            "ext",
            "con",
        ],
    )?)?;
    for row in rows {
        lines.push(counts_line(alloc, row)?)?;
    }
    Ok(lines)
}

/// The lines of the figures.
fn figures_lines(alloc: Global, rows: &[Row<'_>]) -> Result<Vec<Vec<String>>, AllocError>
    ensures { IfOk result (λ lines. lines_of lines.items
        ≡ figures_head ∷ flat_map figure_lines (map plain.row rows.now)) }
{
    let mut lines = Vec::new(alloc);
    lines.push(head(
        alloc,
        &[
            "component",
            "figure",
            "least",
            "greatest",
            "last",
            "mean",
            "busy",
        ],
    )?)?;
    for row in rows {
        add_figure_lines(alloc, &mut lines, row.name, row.figures.as_slice())?;
    }
    Ok(lines)
}

/// The lines of a component's figures.
fn add_figure_lines(
    alloc: Global,
    lines: &mut Vec<Vec<String>>,
    name: &str,
    figures: &[(&str, Told)],
) -> Result<(), AllocError>
    ensures { OnOk result (lines_of lines.new.items
        ≡ lines_of lines.old.items ++ map (figure_line name.now) (map plain.told_figure figures.now)) }
{
    for (figure, told) in figures {
        lines.push(figure_line(alloc, name, figure, *told)?)?;
    }
    Ok(())
}

/// The lines of the observations.
fn observations_lines(alloc: Global, rows: &[Row<'_>]) -> Result<Vec<Vec<String>>, AllocError>
    ensures { IfOk result (λ lines. lines_of lines.items
        ≡ observations_head ∷ flat_map observation_lines (map plain.row rows.now)) }
{
    let mut lines = Vec::new(alloc);
    lines.push(head(
        alloc,
        &["component", "observation", "count", "sum", "mean", "sd"],
    )?)?;
    for row in rows {
        add_observation_lines(alloc, &mut lines, row.name, row.observations.as_slice())?;
    }
    Ok(lines)
}

/// The lines of a component's observations.
fn add_observation_lines(
    alloc: Global,
    lines: &mut Vec<Vec<String>>,
    name: &str,
    observations: &[(&str, Observed)],
) -> Result<(), AllocError>
    ensures { OnOk result
        (lines_of lines.new.items ≡ lines_of lines.old.items
        ++ map (observation_line name.now) (map plain.told_observation observations.now)) }
{
    for (observation, told) in observations {
        lines.push(observation_line(alloc, name, observation, *told)?)?;
    }
    Ok(())
}

/// A line of these cells.
fn head(alloc: Global, cells: &[&str]) -> Result<Vec<String>, AllocError>
    ensures { IfOk result (λ line. map string_bytes line.items ≡ map (λ cell. cell.now) cells.now) }
{
    let mut line = Vec::new(alloc);
    for cell in cells {
        line.push(String::from_str(alloc, cell)?)?;
    }
    Ok(line)
}

/// The line of a component's counts.
fn counts_line(alloc: Global, row: &Row<'_>) -> Result<Vec<String>, AllocError>
    ensures { IfOk result (λ line. map string_bytes line.items ≡ counts_line (plain.row row.now)) }
{
    let mut line = Vec::new(alloc);
    add_cell(alloc, &mut line, row.name)?;
    add_cell(alloc, &mut line, row.model)?;
    let Counts {
        outputs,
        sent,
        received,
        int,
        ext,
        con,
    } = row.counts;
    add_count(alloc, &mut line, outputs)?;
    add_count(alloc, &mut line, sent)?;
    add_count(alloc, &mut line, received)?;
    add_count(alloc, &mut line, int)?;
    add_count(alloc, &mut line, ext)?;
    add_count(alloc, &mut line, con)?;
    Ok(line)
}

/// The line of a figure of the component of this name.
fn figure_line(
    alloc: Global,
    name: &str,
    figure: &str,
    told: Told,
) -> Result<Vec<String>, AllocError>
    ensures { IfOk result (λ line. map string_bytes line.items
        ≡ figure_line name.now (figure.now, told)) }
{
    let mut line = Vec::new(alloc);
    add_cell(alloc, &mut line, name)?;
    add_cell(alloc, &mut line, figure)?;
    add_value(alloc, &mut line, told.least)?;
    add_value(alloc, &mut line, told.greatest)?;
    add_value(alloc, &mut line, told.last)?;
    add_decimals(alloc, &mut line, told.mean)?;
    add_decimals(alloc, &mut line, told.busy)?;
    Ok(line)
}

/// The line of an observation of the component of this name.
fn observation_line(
    alloc: Global,
    name: &str,
    observation: &str,
    told: Observed,
) -> Result<Vec<String>, AllocError>
    ensures { IfOk result (λ line. map string_bytes line.items
        ≡ observation_line name.now (observation.now, told)) }
{
    let mut line = Vec::new(alloc);
    add_cell(alloc, &mut line, name)?;
    add_cell(alloc, &mut line, observation)?;
    add_value(alloc, &mut line, i128::from(told.count))?;
    add_value(alloc, &mut line, i128::from(told.sum))?;
    add_optional(alloc, &mut line, told.mean)?;
    add_optional(alloc, &mut line, told.deviation.map(i128::from))?;
    Ok(line)
}

/// A cell more.
fn add_cell(alloc: Global, line: &mut Vec<String>, text: &str) -> Result<(), AllocError>
    ensures { OnOk result
        (map string_bytes line.new.items ≡ map string_bytes line.old.items ++ text.now ∷ []) }
{
    line.push(String::from_str(alloc, text)?)?;
    Ok(())
}

/// A cell more, with a count.
fn add_count(alloc: Global, line: &mut Vec<String>, count: u64) -> Result<(), AllocError>
    ensures { OnOk result
        (map string_bytes line.new.items ≡ map string_bytes line.old.items ++ decimal count ∷ []) }
{
    line.push(format!(in alloc; "{count}")?)?;
    Ok(())
}

/// A cell more, with a value.
fn add_value(alloc: Global, line: &mut Vec<String>, value: i128) -> Result<(), AllocError>
    ensures { OnOk result (map string_bytes line.new.items
        ≡ map string_bytes line.old.items ++ signed_decimal value ∷ []) }
{
    line.push(format!(in alloc; "{value}")?)?;
    Ok(())
}

/// A cell more, with three decimals.
fn add_decimals(alloc: Global, line: &mut Vec<String>, number: i128) -> Result<(), AllocError>
    ensures { OnOk result (map string_bytes line.new.items
        ≡ map string_bytes line.old.items ++ thousandths_text number ∷ []) }
{
    let mut cell = String::new(alloc);
    add_thousandths(&mut cell, number)?;
    line.push(cell)?;
    Ok(())
}

/// A cell more, with three decimals; a dash where there is no number.
fn add_optional(
    alloc: Global,
    line: &mut Vec<String>,
    number: Option<i128>,
) -> Result<(), AllocError>
    ensures { OnOk result (map string_bytes line.new.items
        ≡ map string_bytes line.old.items ++ option_map_or thousandths_text number (codes "-") ∷ []) }
{
    match number {
        Some(number) => add_decimals(alloc, line, number),
        None => add_cell(alloc, line, "-"),
    }
}
