//! The fields of an item's value: the columns that a table of items has for them.

ghost use Rattle.std.specs.Prelude.{◌≡◌, ◌≤◌, ◌+◌, ◌*◌, ◌^◌, ◌++◌, OnOk, drop, length, map, min, pos};
ghost use Rattle.tw_record_lines.specs.Fields.{field, field_cells, field_heads, field_of};

use std::alloc::AllocError;
use tw_texts::{Lines, put_byte, put_whole};

/// A part of an item's value: a table of items has a column for it.
#[derive(Clone, Copy)]
pub struct Column<'a> {
    /// What stands at its head: letters, digits and _, so that it needs no quotes.
    pub name: &'a str,
    /// How many bits of the value lie below it, 0 to 62. More count as 62.
    pub low: u32,
    /// How many bits it has, 1 to 62. More count as 62.
    pub bits: u32,
}

/// 2 to this power. More than 62 counts as 62.
fn power(exponent: u32) -> i64
    ensures { result ≡ pos (2 ^ min exponent 62) }
{
    (1_u64 << exponent.min(62)) as i64
}

/// The number that a field has of a value.
fn number_in(column: &Column<'_>, value: i64) -> u64
    ensures { result ≡ field_of column.now.low column.now.bits value }
{
    let above = value.div_euclid(power(column.low));
    above.rem_euclid(power(column.bits)) as u64
}

/// Puts the numbers that fields have of a value, each behind a comma, before the place `end`: at most 21 bytes for each.
pub(crate) fn put_fields(line: &mut [u8], end: usize, fields: &[Column<'_>], value: i64) -> usize
    requires room { (21 * length fields.now ≤ end) × (end ≤ length line.old) }
    ensures start { (result ≤ end) × (end ≤ result + 21 * length fields.now) }
    ensures written { drop result line.new
        ≡ field_cells (map field fields.now) value ++ drop end line.old }
{
    let mut start = end;
    let mut left = fields.len();
    while left > 0 {
        left -= 1;
        start = put_whole(line, start, number_in(&fields[left], value));
        start = put_byte(line, start, b',');
    }
    start
}

/// Adds the names of fields, each behind a comma.
pub(crate) fn add_names(lines: &mut Lines, fields: &[Column<'_>]) -> Result<(), AllocError>
    ensures { OnOk result
        (lines.new.text ≡ lines.old.text ++ field_heads (map field fields.now)) }
{
    for column in fields {
        lines.add_line(b",")?;
        lines.add_line(column.name.as_bytes())?;
    }
    Ok(())
}
