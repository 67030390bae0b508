//! The lines of a table: of a record, of its items, of its words. Where memory is wanting (4) a part of a line may stand at the end.

ghost use Rattle.std.specs.Prelude.{◌≡◌, ◌≤◌, ◌+◌, ◌*◌, ◌++◌, OnOk, drop, length, map, string_bytes};
ghost use Rattle.tw_record_lines.specs.Fields.{field};
ghost use Rattle.tw_record_lines.specs.Tables.{cells_text, head_text, item_row, items_text, items_rows, record_row, time_cells, word_row, word_rows};

use crate::fields::{Column, add_names, put_fields};
use std::alloc::AllocError;
use tw_figures::Rows;
use tw_msgs::RecordKind;
use tw_texts::{
    Lines, kind_name, make_room, put_bag, put_byte, put_text, put_value, put_whole, put_word,
    put_words,
};
use tw_vtime::Stamp;

/// Adds the first line: what stands in each column.
pub(crate) fn add_head(
    lines: &mut Lines,
    rows: Rows,
    fields: &[Column<'_>],
) -> Result<(), AllocError>
    ensures { OnOk result
        (lines.new.text ≡ lines.old.text ++ head_text rows (map field fields.now)) }
{
    match rows {
        Rows::Records => lines.add_line(b"tick,microstep,component,kind,items,words\n"),
        Rows::Items => {
            lines.add_line(b"tick,microstep,component,kind,port,value")?;
            add_names(lines, fields)?;
            lines.add_line(b"\n")
        }
        Rows::Words => lines.add_line(b"tick,microstep,component,kind,place,number\n"),
    }
}

/// The time of a line.
pub(crate) fn add_time(text: &mut String, at: Stamp) -> Result<(), AllocError>
    ensures { OnOk result (string_bytes text.new ≡ string_bytes text.old ++ time_cells at) }
{
    if at.is_end() {
        return text.push_str("end,end");
    }
    let tick = at.tick();
    let micro = at.micro();
    write!(text, "{tick},{micro}")
}

/// What each line of a record tells first: the component, the time, and what was done.
#[derive(Clone, Copy)]
pub(crate) struct Cells<'a> {
    pub(crate) name: &'a str,
    pub(crate) at: Stamp,
    pub(crate) kind: RecordKind,
}

/// Puts the time of a line before the place `end`: at most 41 bytes.
fn put_time(line: &mut [u8], end: usize, at: Stamp) -> usize
    requires room { (41 ≤ end) × (end ≤ length line.old) }
    ensures start { (result ≤ end) × (end ≤ result + 41) }
    ensures written { drop result line.new ≡ time_cells at ++ drop end line.old }
{
    if at.is_end() {
        return put_text(line, end, b"end,end");
    }
    let end = put_whole(line, end, at.micro() as u64);
    let end = put_byte(line, end, b',');
    put_whole(line, end, at.tick())
}

/// Puts the time of a line, its component and what that did before the place `end`: at most 46 bytes and the name.
fn put_cells(line: &mut [u8], end: usize, cells: &Cells<'_>) -> usize
    requires room { (46 + length cells.now.name.now ≤ end) × (end ≤ length line.old) }
    ensures start { (result ≤ end) × (end ≤ result + (46 + length cells.now.name.now)) }
    ensures written { drop result line.new
        ≡ cells_text cells.now.name.now cells.now.at cells.now.kind ++ drop end line.old }
{
    let end = put_text(line, end, kind_name(cells.kind).as_bytes());
    let end = put_byte(line, end, b',');
    let end = put_text(line, end, cells.name.as_bytes());
    let end = put_byte(line, end, b',');
    put_time(line, end, cells.at)
}

/// Puts the items of a record, with a space between each two, before the place `end`.
fn put_items(line: &mut [u8], end: usize, bag: &[(u8, i64)]) -> usize
    requires room { (1 + 25 * length bag.now ≤ end) × (end ≤ length line.old) }
    ensures start { (result ≤ end) × (end ≤ result + (1 + 25 * length bag.now)) }
    ensures written { drop result line.new ≡ items_text bag.now ++ drop end line.old }
{
    if bag.is_empty() {
        return end;
    }
    put_bag(line, end, bag)
}

/// Puts the line of a record at the end of the room.
fn put_record(line: &mut [u8], cells: &Cells<'_>, bag: &[(u8, i64)], words: &[i128]) -> usize
    requires { 50 + length cells.now.name.now + 25 * length bag.now + 41 * length words.now
        ≤ length line.old }
    ensures start { result ≤ length line.new }
    ensures written { drop result line.new
        ≡ record_row cells.now.name.now cells.now.at cells.now.kind bag.now words.now }
{
    let end = put_byte(line, line.len(), b'\n');
    let end = put_words(line, end, words);
    let end = put_byte(line, end, b',');
    let end = put_items(line, end, bag);
    let end = put_byte(line, end, b',');
    put_cells(line, end, cells)
}

/// Adds the line of a record, which is made in this room.
pub(crate) fn add_record(
    lines: &mut Lines,
    room: &mut Vec<u8>,
    cells: &Cells<'_>,
    bag: &[(u8, i64)],
    words: &[i128],
) -> Result<(), AllocError>
    ensures { OnOk result (lines.new.text ≡ lines.old.text
        ++ record_row cells.now.name.now cells.now.at cells.now.kind bag.now words.now) }
{
    let most = (bag.len() + words.len())
        .saturating_mul(41)
        .saturating_add(cells.name.len())
        .saturating_add(50);
    make_room(room, most)?;
    let start = put_record(room.as_mut_slice(), cells, bag, words);
    lines.add_line(&room.as_slice()[start..])
}

/// Puts the line of an item at the end of the room, with the numbers that these fields have of its value.
fn put_item(line: &mut [u8], cells: &Cells<'_>, fields: &[Column<'_>], item: (u8, i64)) -> usize
    requires { 89 + length cells.now.name.now + 21 * length fields.now ≤ length line.old }
    ensures start { result ≤ length line.new }
    ensures written { drop result line.new
        ≡ item_row (map field fields.now) cells.now.name.now cells.now.at cells.now.kind item }
{
    let (port, value) = item;
    let end = put_byte(line, line.len(), b'\n');
    let end = put_fields(line, end, fields, value);
    let end = put_value(line, end, value);
    let end = put_byte(line, end, b',');
    let end = put_whole(line, end, port as u64);
    let end = put_byte(line, end, b',');
    put_cells(line, end, cells)
}

/// Adds the line of an item, which is made in this room.
fn add_item(
    lines: &mut Lines,
    room: &mut Vec<u8>,
    cells: &Cells<'_>,
    fields: &[Column<'_>],
    item: (u8, i64),
) -> Result<(), AllocError>
    ensures { OnOk result (lines.new.text ≡ lines.old.text
        ++ item_row (map field fields.now) cells.now.name.now cells.now.at cells.now.kind item) }
{
    let most = fields
        .len()
        .saturating_mul(21)
        .saturating_add(cells.name.len())
        .saturating_add(89);
    make_room(room, most)?;
    let start = put_item(room.as_mut_slice(), cells, fields, item);
    lines.add_line(&room.as_slice()[start..])
}

/// Puts the line of a word at the end of the room.
fn put_word_row(line: &mut [u8], cells: &Cells<'_>, place: usize, word: &i128) -> usize
    requires { 109 + length cells.now.name.now ≤ length line.old }
    ensures start { result ≤ length line.new }
    ensures written { drop result line.new
        ≡ word_row cells.now.name.now cells.now.at cells.now.kind place word.now }
{
    let end = put_byte(line, line.len(), b'\n');
    let end = put_word(line, end, *word);
    let end = put_byte(line, end, b',');
    let end = put_whole(line, end, place as u64);
    let end = put_byte(line, end, b',');
    put_cells(line, end, cells)
}

/// Adds the line of a word, which is made in this room.
fn add_word(
    lines: &mut Lines,
    room: &mut Vec<u8>,
    cells: &Cells<'_>,
    place: usize,
    word: &i128,
) -> Result<(), AllocError>
    ensures { OnOk result (lines.new.text ≡ lines.old.text
        ++ word_row cells.now.name.now cells.now.at cells.now.kind place word.now) }
{
    make_room(room, 109 + cells.name.len())?;
    let start = put_word_row(room.as_mut_slice(), cells, place, word);
    lines.add_line(&room.as_slice()[start..])
}

/// Adds the lines of a record's items, which are made in this room, with these fields of their values.
pub(crate) fn add_each_item(
    lines: &mut Lines,
    room: &mut Vec<u8>,
    cells: &Cells<'_>,
    fields: &[Column<'_>],
    bag: &[(u8, i64)],
) -> Result<(), AllocError>
    ensures { let fields = map field fields.now in
        OnOk result (lines.new.text ≡ lines.old.text
        ++ items_rows fields cells.now.name.now cells.now.at cells.now.kind bag.now) }
{
    for item in bag {
        add_item(lines, room, cells, fields, *item)?;
    }
    Ok(())
}

/// Adds the lines of a record's words, which are made in this room.
pub(crate) fn add_each_word(
    lines: &mut Lines,
    room: &mut Vec<u8>,
    cells: &Cells<'_>,
    words: &[i128],
) -> Result<(), AllocError>
    ensures { OnOk result (lines.new.text ≡ lines.old.text
        ++ word_rows cells.now.name.now cells.now.at cells.now.kind 0 words.now) }
{
    for (place, word) in words.iter().enumerate() {
        add_word(lines, room, cells, place, word)?;
    }
    Ok(())
}
