//! Parts of lines, written from the end of a line to its beginning, in room that is there. Each ends at a place of the room, and
//! answers where what is written begins.
//!
//! In front of that the room holds what it likes: whoever writes the part before writes over it.

ghost use Rattle.std.specs.Prelude.{◌≡◌, ◌<◌, ◌+◌, ◌*◌, ◌≤◌, ◌∷◌, ◌++◌, OnErr, OnOk, codes, drop, length};
ghost use Rattle.std.specs.Fmt.{decimal, signed_decimal};
ghost use Rattle.tw_texts.specs.Texts.{item_text, bag_text, words_text, step_text};

use itoa::{Buffer, write_digits};
use std::alloc::AllocError;
use tw_msgs::RecordKind;

/// Puts a byte before the place `end`.
#[inline(always)]
pub fn put_byte(line: &mut [u8], end: usize, byte: u8) -> usize
    requires room { (1 ≤ end) × (end ≤ length line.old) }
    ensures start { result + 1 ≡ end }
    ensures written { drop result line.new ≡ byte ∷ drop end line.old }
{
    line[end - 1] = byte;
    end - 1
}

/// Puts a text before the place `end`.
#[inline(always)]
pub fn put_text(line: &mut [u8], end: usize, text: &[u8]) -> usize
    requires room { (length text.now ≤ end) × (end ≤ length line.old) }
    ensures start { result + length text.now ≡ end }
    ensures written { drop result line.new ≡ text.now ++ drop end line.old }
{
    let start = end - text.len();
    line[start..end].copy_from_slice(text);
    start
}

/// Puts a number in decimal before the place `end`: at most 20 bytes.
#[inline(always)]
pub fn put_whole(line: &mut [u8], end: usize, number: u64) -> usize
    requires room { (20 ≤ end) × (end ≤ length line.old) }
    ensures start { (result ≤ end) × (end ≤ result + 20) }
    ensures written { drop result line.new ≡ decimal number ++ drop end line.old }
{
    write_digits(number, line, end)
}

/// Puts a number with its sign before the place `end`: at most 20 bytes.
#[inline(always)]
pub fn put_value(line: &mut [u8], end: usize, value: i64) -> usize
    requires room { (20 ≤ end) × (end ≤ length line.old) }
    ensures start { (result ≤ end) × (end ≤ result + 20) }
    ensures written { drop result line.new ≡ signed_decimal value ++ drop end line.old }
{
    let start = write_digits(value.unsigned_abs(), line, end);
    if value >= 0 {
        return start;
    }
    put_byte(line, start, b'-')
}

/// Puts a number that may have more than 64 bits.
#[inline(never)]
fn put_wide(line: &mut [u8], end: usize, word: i128) -> usize
    requires room { (40 ≤ end) × (end ≤ length line.old) }
    ensures start { (result ≤ end) × (end ≤ result + 40) }
    ensures written { drop result line.new ≡ signed_decimal word ++ drop end line.old }
{
    let mut digits = Buffer::new();
    put_text(line, end, digits.format(word).as_bytes())
}

/// Puts a word of a state before the place `end`: at most 40 bytes.
#[inline(always)]
pub fn put_word(line: &mut [u8], end: usize, word: i128) -> usize
    requires room { (40 ≤ end) × (end ≤ length line.old) }
    ensures start { (result ≤ end) × (end ≤ result + 40) }
    ensures written { drop result line.new ≡ signed_decimal word ++ drop end line.old }
{
    match u64::try_from(word) {
        Ok(number) => put_whole(line, end, number),
        Err(_) => put_wide(line, end, word),
    }
}

/// Puts an item: at most 24 bytes.
#[inline(always)]
fn put_item(line: &mut [u8], end: usize, item: (u8, i64)) -> usize
    requires room { (24 ≤ end) × (end ≤ length line.old) }
    ensures start { (result ≤ end) × (end ≤ result + 24) }
    ensures written { drop result line.new ≡ item_text item ++ drop end line.old }
{
    let (port, value) = item;
    let end = put_value(line, end, value);
    let end = put_byte(line, end, b'=');
    write_digits(port as u64, line, end)
}

/// Puts a bag before the place `end`, as [`push_bag`](crate::push_bag) adds it: at most 25 bytes for each item, and one more.
#[inline]
pub fn put_bag(line: &mut [u8], end: usize, bag: &[(u8, i64)]) -> usize
    requires room { (1 + 25 * length bag.now ≤ end) × (end ≤ length line.old) }
    ensures start { (result ≤ end) × (end ≤ result + (1 + 25 * length bag.now)) }
    ensures written { drop result line.new ≡ bag_text bag.now ++ drop end line.old }
{
    let Some((first, rest)) = bag.split_first() else {
        return put_byte(line, end, b'-');
    };
    let mut start = end;
    let mut left = rest.len();
    while left > 0 {
        left -= 1;
        start = put_item(line, start, rest[left]);
        start = put_byte(line, start, b' ');
    }
    put_item(line, start, *first)
}

/// Puts words before the place `end`, as [`push_words`](crate::push_words) adds them: at most 41 bytes for each.
#[inline]
pub fn put_words(line: &mut [u8], end: usize, words: &[i128]) -> usize
    requires room { (41 * length words.now ≤ end) × (end ≤ length line.old) }
    ensures start { (result ≤ end) × (end ≤ result + 41 * length words.now) }
    ensures written { drop result line.new ≡ words_text words.now ++ drop end line.old }
{
    let Some((first, rest)) = words.split_first() else {
        return end;
    };
    let mut start = end;
    let mut left = rest.len();
    while left > 0 {
        left -= 1;
        start = put_word(line, start, rest[left]);
        start = put_byte(line, start, b' ');
    }
    put_word(line, start, *first)
}

/// Puts what a step tells after its component's name.
#[inline(always)]
pub(crate) fn put_step(
    line: &mut [u8],
    end: usize,
    kind: RecordKind,
    bag: &[(u8, i64)],
    words: &[i128],
) -> usize
    requires room { (8 + 25 * length bag.now + 41 * length words.now ≤ end) × (end ≤ length line.old) }
    ensures start { (result ≤ end)
        × (end ≤ result + (8 + 25 * length bag.now + 41 * length words.now)) }
    ensures written { drop result line.new ≡ step_text kind bag.now words.now ++ drop end line.old }
{
    if kind == RecordKind::Out {
        let end = put_bag(line, end, bag);
        return put_text(line, end, b"out ");
    }
    let end = put_words(line, end, words);
    let end = put_text(line, end, b" | ");
    if kind == RecordKind::Int {
        return put_text(line, end, b"int");
    }
    let end = put_bag(line, end, bag);
    put_text(
        line,
        end,
        if kind == RecordKind::Con {
            b"con "
        } else {
            b"ext "
        },
    )
}

/// Puts a whole line of a trace at the end of the room.
#[inline(always)]
pub(crate) fn put_line(
    line: &mut [u8],
    time: &[u8],
    name: &[u8],
    kind: RecordKind,
    bag: &[(u8, i64)],
    words: &[i128],
) -> usize
    requires { 11 + length time.now + length name.now + 25 * length bag.now + 41 * length words.now
        ≤ length line.old }
    ensures start { result ≤ length line.new }
    ensures written { drop result line.new ≡ time.now ++ codes " " ++ name.now ++ codes " "
        ++ step_text kind bag.now words.now ++ codes "\n" }
{
    let end = put_byte(line, line.len(), b'\n');
    let end = put_step(line, end, kind, bag, words);
    let end = put_byte(line, end, b' ');
    let end = put_text(line, end, name);
    let end = put_byte(line, end, b' ');
    put_text(line, end, time)
}

/// The most bytes that a line of a trace takes, or more than there can be.
#[inline(always)]
pub(crate) fn greatest_length(time: &[u8], name: &[u8], bag: &[(u8, i64)], words: &[i128]) -> usize
    ensures { result < 9223372036854775808
        → 11 + length time.now + length name.now + 25 * length bag.now + 41 * length words.now ≤ result }
{
    (bag.len() + words.len())
        .saturating_mul(41)
        .saturating_add(time.len())
        .saturating_add(name.len())
        .saturating_add(11)
}

/// Sees that a room has at least so many bytes. Refused for want of memory (4); then it is as it was.
#[inline(always)]
pub fn make_room(room: &mut Vec<u8>, most: usize) -> Result<(), AllocError>
    ensures ok { OnOk result (most ≤ length room.new.items) }
    ensures err { OnErr result (room.new.items ≡ room.old.items) }
{
    if most <= room.len() {
        return Ok(());
    }
    room.resize(most, 0)
}
