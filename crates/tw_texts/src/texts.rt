//! The texts that callers add to a text of their own.

ghost use Rattle.std.specs.Prelude.{◌≡◌, ◌++◌, OnOk, OnErr, string_bytes};
ghost use Rattle.tw_texts.specs.Texts.{
  time_text,
  bag_text,
  words_text,
  kind_text,
  record_line,
  fault_line,
};

use crate::lines::{add_bag, add_fault, add_record, add_time, add_words};
use std::alloc::AllocError;
use tw_msgs::{Record, RecordKind};
use tw_vtime::{Limit, Stamp};

/// Adds the time of a stamp: its tick and its microstep with a dot between, as `3.0`; or `end`.
///
/// Where memory is wanting (refusal 4) the text stays as it was.
pub fn push_time(text: &mut String, stamp: Stamp) -> Result<(), AllocError>
    ensures ok { OnOk result (string_bytes text.new ≡ string_bytes text.old ++ time_text stamp) }
    ensures err { OnErr result (string_bytes text.new ≡ string_bytes text.old) }
{
    let mut piece = String::new(*text.allocator());
    add_time(&mut piece, stamp)?;
    text.push_str(piece.as_str())
}

/// Adds a bag: its items in order with a space between each two, each a port and a value, as
/// `0=4 0=9`; an empty bag is `-`.
///
/// Where memory is wanting (refusal 4) the text stays as it was.
pub fn push_bag(text: &mut String, bag: &[(u8, i64)]) -> Result<(), AllocError>
    ensures ok { OnOk result (string_bytes text.new ≡ string_bytes text.old ++ bag_text bag.now) }
    ensures err { OnErr result (string_bytes text.new ≡ string_bytes text.old) }
{
    let mut piece = String::new(*text.allocator());
    add_bag(&mut piece, bag)?;
    text.push_str(piece.as_str())
}

/// Adds words in their order with a space between each two, as `2 13 9`; no words are no bytes.
///
/// Where memory is wanting (refusal 4) the text stays as it was.
pub fn push_words(text: &mut String, words: &[i128]) -> Result<(), AllocError>
    ensures ok { OnOk result
        (string_bytes text.new ≡ string_bytes text.old ++ words_text words.now) }
    ensures err { OnErr result (string_bytes text.new ≡ string_bytes text.old) }
{
    let mut piece = String::new(*text.allocator());
    add_words(&mut piece, words)?;
    text.push_str(piece.as_str())
}

/// The kind of a step, as lines name it: `out`, `int`, `ext` or `con`.
pub fn kind_name(kind: RecordKind) -> &'static str
    ensures { result.now ≡ kind_text kind }
{
    match kind {
        RecordKind::Out => "out",
        RecordKind::Int => "int",
        RecordKind::Ext => "ext",
        RecordKind::Con => "con",
    }
}

/// Adds the line of a record of the component with this name: its time, the name and what it did, as
/// `2.0 g out 0=5`, `2.0 g int | 1`, `3.0 t ext 0=4 0=9 | 2 13 9` and `1.0 a con 0=2 | 0 2`, with a
/// newline at the end.
///
/// The record's own component number is not read. Where memory is wanting (refusal 4) the text stays as
/// it was.
pub fn push_record(text: &mut String, name: &str, step: &Record) -> Result<(), AllocError>
    ensures ok { OnOk result
        (string_bytes text.new ≡ string_bytes text.old ++ record_line name.now step.now) }
    ensures err { OnErr result (string_bytes text.new ≡ string_bytes text.old) }
{
    let mut piece = String::new(*text.allocator());
    add_record(&mut piece, name, step)?;
    text.push_str(piece.as_str())
}

/// Adds the line of a fault: the component with this name would pass this limit after the round at the
/// time of this stamp, as `fault: microstep limit: b at 3.3`, with a newline at the end.
///
/// Where memory is wanting (refusal 4) the text stays as it was.
pub fn push_fault(text: &mut String, name: &str, at: Stamp, limit: Limit) -> Result<(), AllocError>
    ensures ok { OnOk result
        (string_bytes text.new ≡ string_bytes text.old ++ fault_line name.now at limit) }
    ensures err { OnErr result (string_bytes text.new ≡ string_bytes text.old) }
{
    let mut piece = String::new(*text.allocator());
    add_fault(&mut piece, name, at, limit)?;
    text.push_str(piece.as_str())
}
