//! What is told of a run, written.

ghost use Rattle.std.specs.Prelude.{◌≡◌, ◌≢◌, ◌++◌, IfErr, IfOk, OnOk, map, string_bytes};
ghost use Rattle.std.specs.Io.KnownBytes.{Appends};
ghost use Rattle.tw_figures.specs.Labelled as plain;
ghost use Rattle.tw_stats.specs.Gathering.{BeforeEnd};
ghost use Rattle.tw_stats.specs.Rows.{row};
ghost use Rattle.tw_stats.specs.Written.{report_bytes, rows_bytes};
ghost use Rattle.tw_texts.specs.declared.traces.NotWritten.TheVariants.{WriteFailed};

use crate::json::add_json;
use crate::report::Report;
use crate::rows::{Row, rows_of, shown_rows};
use crate::text::add_text;
use std::alloc::{AllocError, Global};
use std::io::Write;
use tw_figures::Labels;
use tw_texts::{Names, NotWritten, write_out};

/// How a report is written.
#[derive(Clone, Copy, Debug, PartialEq, Eq)]
pub struct Layout<'a> {
    /// Whether as one line of JSON, in place of tables.
    pub json: bool,
    /// Whether each component is shown, in their order. What is told of the whole run stays the same.
    pub shown: &'a [bool],
}

/// Writes what is told of a run, with the names of its components, as tables or as one line of JSON.
///
/// Refused by [`NotWritten::OutOfMemory`] (4), and then nothing is written; by [`NotWritten::WriteFailed`] (24) where the writer
/// failed, and then only the writer knows what it took.
pub fn write_report<N: Names, W: Write>(
    alloc: Global,
    report: &Report,
    names: &N,
    labels: &[Labels],
    layout: &Layout<'_>,
    out: &mut W,
) -> Result<(), NotWritten>
    requires { BeforeEnd report.now.fault }
    ensures written { let said = map plain.label labels.now in
        OnOk result (Appends (W.contents out.old) (W.contents out.new)
        (report_bytes layout.now.json (N.name_of names.now) said layout.now.shown.now report.now)) }
    ensures kept { IfErr result (λ e. e ≢ WriteFailed → out.new ≡ out.old) }
{
    let Ok(mut text) = text_of(alloc, report, names, labels, layout) else {
        return Err(NotWritten::OutOfMemory);
    };
    write_out(&mut text, out)
}

/// The text of a report. Refused for want of memory (4).
fn text_of<N: Names>(
    alloc: Global,
    report: &Report,
    names: &N,
    labels: &[Labels],
    layout: &Layout<'_>,
) -> Result<String, AllocError>
    requires { BeforeEnd report.now.fault }
    ensures { let said = map plain.label labels.now in
        IfOk result (λ text. string_bytes text
        ≡ report_bytes layout.now.json (N.name_of names.now) said layout.now.shown.now report.now) }
{
    let rows = rows_of(alloc, report, names, labels)?;
    let rows = shown_rows(alloc, rows, layout.shown)?;
    let mut text = String::new(alloc);
    add_report(
        alloc,
        &mut text,
        report,
        names,
        rows.as_slice(),
        layout.json,
    )?;
    Ok(text)
}

/// Adds a report to a text. Where memory is wanting (refusal 4) a part of it may stand at the end.
fn add_report<N: Names>(
    alloc: Global,
    text: &mut String,
    report: &Report,
    names: &N,
    rows: &[Row<'_>],
    json: bool,
) -> Result<(), AllocError>
    requires { BeforeEnd report.now.fault }
    ensures { let said = map row rows.now in
        OnOk result (string_bytes text.new ≡ string_bytes text.old
        ++ rows_bytes json (N.name_of names.now) said report.now) }
{
    if json {
        add_json(text, report, names, rows)
    } else {
        add_text(alloc, text, report, rows)
    }
}
