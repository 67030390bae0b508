//! The lines of a table of figures. Where memory is wanting (4) a part of a line may stand at the end.

ghost use Rattle.std.specs.Prelude.{◌≡◌, ◌++◌, OnOk, chars, codes, flat_map, map, string_bytes};
ghost use Rattle.std.specs.List.{list_any};
ghost use Rattle.tw_figures.specs.Labelled as plain;
ghost use Rattle.tw_record_lines.specs.FigureRows.{cell, changed_row, changed_rows, doubled, figure_row, needs_quotes, valued_rows};

use std::alloc::AllocError;
use tw_figures::Figure;
use tw_msgs::Words;

/// A text as a cell: in quotes where it has a comma or a quote, and each quote twice (RFC 4180).
fn add_cell(line: &mut String, text: &str) -> Result<(), AllocError>
    ensures { OnOk result (string_bytes line.new ≡ string_bytes line.old ++ cell text.now) }
{
    if !needs_quotes(text.as_bytes()) {
        return line.push_str(text);
    }
    line.push_str("\"")?;
    add_doubled(line, text)?;
    line.push_str("\"")
}

/// Whether a text has a comma or a quote.
fn needs_quotes(text: &[u8]) -> bool
    ensures { result ≡ list_any needs_quotes text.now }
{
    for byte in text {
        if *byte == b',' || *byte == b'"' {
            return true;
        }
    }
    false
}

/// A text, each of its quotes twice.
fn add_doubled(line: &mut String, text: &str) -> Result<(), AllocError>
    ensures { OnOk result
        (string_bytes line.new ≡ string_bytes line.old ++ flat_map doubled (chars text.now)) }
{
    for letter in text.chars() {
        add_letter(line, letter)?;
    }
    Ok(())
}

/// A letter; a quote twice.
fn add_letter(line: &mut String, letter: char) -> Result<(), AllocError>
    ensures { OnOk result (string_bytes line.new ≡ string_bytes line.old ++ doubled letter) }
{
    match letter {
        '"' => line.push_str("\"\""),
        _ => line.push(letter),
    }
}

/// The line of a figure, behind the cells of the time and of the component.
fn add_figure(text: &mut String, begin: &str, figure: &str, value: i128) -> Result<(), AllocError>
    ensures { OnOk result
        (string_bytes text.new ≡ string_bytes text.old ++ figure_row begin.now figure.now value) }
{
    text.push_str(begin)?;
    add_cell(text, figure)?;
    write!(text, ",{value}\n")
}

/// The lines of figures with these values.
pub(crate) fn add_values(
    text: &mut String,
    begin: &str,
    figures: &[Figure],
    values: &[i128],
) -> Result<(), AllocError>
    ensures { OnOk result (string_bytes text.new
        ≡ string_bytes text.old ++ valued_rows begin.now (map plain.figure figures.now) values.now) }
{
    for (figure, value) in figures.iter().zip(values.iter()) {
        add_figure(text, begin, figure.name.as_str(), *value)?;
    }
    Ok(())
}

/// The lines of those figures that have not these values in a state of these words.
pub(crate) fn add_changes(
    text: &mut String,
    begin: &str,
    figures: &[Figure],
    values: &[i128],
    words: &Words,
) -> Result<(), AllocError>
    ensures { OnOk result
        (string_bytes text.new ≡ string_bytes text.old
        ++ changed_rows begin.now (map plain.figure figures.now) values.now words.now) }
{
    for (figure, old) in figures.iter().zip(values.iter()) {
        add_change(text, begin, figure, *old, words)?;
    }
    Ok(())
}

/// The line of a figure that had this value; none where it has it in a state of these words too.
fn add_change(
    text: &mut String,
    begin: &str,
    figure: &Figure,
    old: i128,
    words: &Words,
) -> Result<(), AllocError>
    ensures { OnOk result (string_bytes text.new
        ≡ string_bytes text.old ++ changed_row begin.now (plain.figure figure.now, old) words.now) }
{
    let value = figure.measure.value(words);
    if old == value {
        return Ok(());
    }
    add_figure(text, begin, figure.name.as_str(), value)
}
