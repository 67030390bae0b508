//! Aligned tables of text.

ghost use Rattle.std.specs.Prelude.{◌≡◌, ◌≤◌, ◌==◌, ◌+◌, ◌++◌, [], ℕ, IfOk, OnOk, codes, length, map, max, nat_lt, string_bytes, slice_index_or, if◌then◌else◌};
ghost use Rattle.tw_stats.specs.Grids.{cell_text, blanks, grid_text, letters, lines_of, line_text, width};

use std::alloc::{AllocError, Global};

/// Adds a table to a text: lines of cells, each column as wide as its widest cell. The first `left` columns stand left, the others
/// right.
///
/// Where memory is wanting (refusal 4) a part of it may stand at the end.
pub(crate) fn add_grid(
    alloc: Global,
    text: &mut String,
    left: usize,
    lines: &[Vec<String>],
) -> Result<(), AllocError>
    ensures { OnOk result (string_bytes text.new
        ≡ string_bytes text.old ++ grid_text left (lines_of lines.now)) }
{
    let widths = widths_of(alloc, lines)?;
    for line in lines {
        add_line(text, left, widths.as_slice(), line.as_slice())?;
    }
    Ok(())
}

/// The width of each column, in characters.
fn widths_of(alloc: Global, lines: &[Vec<String>]) -> Result<Vec<usize>, AllocError>
    ensures { IfOk result (λ widths. (column : ℕ) →
        slice_index_or widths.items column 0 ≡ width (lines_of lines.now) column) }
{
    let mut widths = Vec::new(alloc);
    for line in lines {
        widen_all(&mut widths, line.as_slice())?;
    }
    Ok(widths)
}

/// Makes each column at least as wide as its cell in a line.
fn widen_all(widths: &mut Vec<usize>, line: &[String]) -> Result<(), AllocError>
    ensures { OnOk result ((column : ℕ) → slice_index_or widths.new.items column 0
        ≡ max (slice_index_or widths.old.items column 0)
        (letters (slice_index_or (map string_bytes line.now) column []))) }
{
    for (column, cell) in line.iter().enumerate() {
        widen(widths, column, letters(cell.as_str()))?;
    }
    Ok(())
}

/// Makes a column at least so wide.
fn widen(widths: &mut Vec<usize>, column: usize, width: usize) -> Result<(), AllocError>
    requires { column ≤ length widths.old.items }
    ensures width { OnOk result ((k : ℕ) → slice_index_or widths.new.items k 0
        ≡ (if k == column then max (slice_index_or widths.old.items k 0) width
        else slice_index_or widths.old.items k 0)) }
    ensures longer { OnOk result
        (max (column + 1) (length widths.old.items) ≡ length widths.new.items) }
{
    if column == widths.len() {
        widths.push(width)?;
    } else if widths[column] < width {
        widths[column] = width;
    }
    Ok(())
}

/// A line of cells, two blanks between each two of them.
fn add_line(
    text: &mut String,
    left: usize,
    widths: &[usize],
    line: &[String],
) -> Result<(), AllocError>
    ensures { OnOk result (string_bytes text.new ≡ string_bytes text.old
        ++ line_text left (λ column. slice_index_or widths.now column 0) (map string_bytes line.now)) }
{
    for (column, cell) in line.iter().enumerate() {
        add_gap(text, column)?;
        add_cell(text, cell.as_str(), width_of(widths, column), column < left)?;
    }
    text.push_str("\n")
}

/// The width of a column; 0 where there is none.
fn width_of(widths: &[usize], column: usize) -> usize
    ensures { result ≡ slice_index_or widths.now column 0 }
{
    widths.get(column).copied().unwrap_or(0)
}

/// Two blanks before all columns but the first.
fn add_gap(text: &mut String, column: usize) -> Result<(), AllocError>
    ensures { OnOk result (string_bytes text.new
        ≡ string_bytes text.old ++ (if nat_lt 0 column then codes "  " else [])) }
{
    if column > 0 {
        text.push_str("  ")?;
    }
    Ok(())
}

/// A cell in a column of this width, at its left or at its right end.
fn add_cell(text: &mut String, cell: &str, width: usize, left: bool) -> Result<(), AllocError>
    ensures { OnOk result
        (string_bytes text.new ≡ string_bytes text.old ++ cell_text left width cell.now) }
{
    let rest = width.saturating_sub(letters(cell));
    if left {
        text.push_str(cell)?;
        add_blanks(text, rest)
    } else {
        add_blanks(text, rest)?;
        text.push_str(cell)
    }
}

/// So many blanks.
fn add_blanks(text: &mut String, count: usize) -> Result<(), AllocError>
    ensures { OnOk result (string_bytes text.new ≡ string_bytes text.old ++ blanks count) }
{
    for _ in 0..count {
        text.push_str(" ")?;
    }
    Ok(())
}

/// How many characters a text has.
fn letters(text: &str) -> usize
    ensures { result ≡ letters text.now }
{
    text.chars().count()
}
