//! What several modules of tests share: stamps, messages, items and records as the examples write them.

ghost use Rattle.std.specs.Prelude.{◌≡◌};

use std::process::Abort;
use tw_msgs::{Item, Message, Record, RecordKind, Sign, Words};
use tw_vtime::Stamp;

/// A stamp, written as in the examples.
pub(crate) fn stamp(rt: &impl Abort, tick: u64, microstep: u32, phase: u8) -> Stamp {
    Stamp::new(tick, microstep, phase).expect(rt, "a stamp")
}

/// A message: a value for a port of a component at a tick.
pub(crate) fn message(rt: &impl Abort, tick: u64, to: usize, port: u8, value: i64) -> Message
    ensures { result.to ≡ to }
{
    Message {
        stamp: stamp(rt, tick, 0, 1),
        port,
        value,
        to,
    }
}

/// An item with this sign: a value for port 0 of a component at a tick.
pub(crate) fn item(rt: &impl Abort, sign: Sign, tick: u64, to: usize, value: i64) -> Item
    ensures { result.message.to ≡ to }
{
    Item {
        sign,
        message: message(rt, tick, to, 0, value),
    }
}

/// A record as the examples write it: tick, microstep, component, kind, bag and words.
pub(crate) struct Line(
    pub(crate) u64,
    pub(crate) u32,
    pub(crate) usize,
    pub(crate) RecordKind,
    pub(crate) &'static [(u8, i64)],
    pub(crate) &'static [i128],
);

/// Whether words are these numbers.
fn are_words(words: &Words, numbers: &[i128]) -> bool {
    if words.len() != numbers.len() {
        return false;
    }
    for index in 0..numbers.len() {
        if words.get(index) != Some(numbers[index]) {
            return false;
        }
    }
    true
}

/// Whether a record is what a line says.
pub(crate) fn shows(record: &Record, line: &Line) -> bool {
    let phase = if line.3 == RecordKind::Out { 0 } else { 1 };
    Stamp::new(line.0, line.1, phase) == Ok(record.stamp)
        && record.component == line.2
        && record.kind == line.3
        && record.bag.as_slice() == line.4
        && are_words(&record.words, line.5)
}

/// Asserts that the records are what the lines say.
pub(crate) fn assert_records(rt: &impl Abort, records: &[Record], lines: &[Line]) {
    assert!(rt; records.len() == lines.len());
    for (record, line) in records.iter().zip(lines) {
        assert!(rt; shows(record, line));
    }
}

/// A message to a component that is known: tick, port and value.
pub(crate) type Said = (u64, u8, i64);

/// The message that is said, to a component.
pub(crate) fn said(rt: &impl Abort, to: usize, it: &Said) -> Message
    ensures { result.to ≡ to }
{
    message(rt, it.0, to, it.1, it.2)
}

/// Asserts that these are the messages, which are to a component.
pub(crate) fn assert_messages(rt: &impl Abort, messages: &[Message], to: usize, expected: &[Said]) {
    assert!(rt; messages.len() == expected.len());
    for (found, it) in messages.iter().zip(expected) {
        assert!(rt; *found == said(rt, to, it));
    }
}

/// Asserts that these are the items, which are to a component: sign, tick and value for its port 0.
pub(crate) fn assert_items(
    rt: &impl Abort,
    items: &[Item],
    to: usize,
    expected: &[(Sign, u64, i64)],
) {
    assert!(rt; items.len() == expected.len());
    for (found, (sign, tick, value)) in items.iter().zip(expected) {
        assert!(rt; *found == item(rt, *sign, *tick, to, *value));
    }
}
