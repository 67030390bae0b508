//! The parts of lines, added to the end of a text. Where memory is wanting a part may stand half there:
//! the callers give the text up.

ghost use Rattle.std.specs.Prelude.{◌≡◌, ◌++◌, OnOk, string_bytes};
ghost use Rattle.tw_texts.specs.Texts.{
  time_text,
  item_text,
  bag_text,
  words_text,
  step_text,
  limit_text,
  record_line,
  fault_line,
};

use itoa::{Buffer, Integer};
use std::alloc::AllocError;
use tw_msgs::{Record, RecordKind};
use tw_vtime::{Limit, Stamp};

/// A number in decimal.
fn add_number<I: Integer>(text: &mut String, number: I) -> Result<(), AllocError>
    ensures { OnOk result (string_bytes text.new ≡ string_bytes text.old ++ I.text number) }
{
    let mut digits = Buffer::new();
    text.push_str(digits.format(number))
}

pub(crate) fn add_time(text: &mut String, stamp: Stamp) -> Result<(), AllocError>
    ensures { OnOk result (string_bytes text.new ≡ string_bytes text.old ++ time_text stamp) }
{
    if stamp.is_end() {
        return text.push_str("end");
    }
    add_number(text, stamp.tick())?;
    text.push_str(".")?;
    add_number(text, stamp.micro())
}

fn add_item(text: &mut String, item: (u8, i64)) -> Result<(), AllocError>
    ensures { OnOk result (string_bytes text.new ≡ string_bytes text.old ++ item_text item) }
{
    let (port, value) = item;
    add_number(text, port)?;
    text.push_str("=")?;
    add_number(text, value)
}

pub(crate) fn add_bag(text: &mut String, bag: &[(u8, i64)]) -> Result<(), AllocError>
    ensures { OnOk result (string_bytes text.new ≡ string_bytes text.old ++ bag_text bag.now) }
{
    let Some((first, rest)) = bag.split_first() else {
        return text.push_str("-");
    };
    add_item(text, *first)?;
    for item in rest {
        text.push_str(" ")?;
        add_item(text, *item)?;
    }
    Ok(())
}

pub(crate) fn add_words(text: &mut String, words: &[i128]) -> Result<(), AllocError>
    ensures { OnOk result (string_bytes text.new ≡ string_bytes text.old ++ words_text words.now) }
{
    let Some((first, rest)) = words.split_first() else {
        return Ok(());
    };
    add_number(text, *first)?;
    for word in rest {
        text.push_str(" ")?;
        add_number(text, *word)?;
    }
    Ok(())
}

/// What a record tells after its component's name.
pub(crate) fn add_step(
    text: &mut String,
    kind: RecordKind,
    bag: &[(u8, i64)],
    words: &[i128],
) -> Result<(), AllocError>
    ensures { OnOk result
        (string_bytes text.new ≡ string_bytes text.old ++ step_text kind bag.now words.now) }
{
    match kind {
        RecordKind::Out => {
            text.push_str("out ")?;
            return add_bag(text, bag);
        }
        RecordKind::Int => text.push_str("int")?,
        RecordKind::Ext => {
            text.push_str("ext ")?;
            add_bag(text, bag)?;
        }
        RecordKind::Con => {
            text.push_str("con ")?;
            add_bag(text, bag)?;
        }
    }
    text.push_str(" | ")?;
    add_words(text, words)
}

pub(crate) fn add_record(text: &mut String, name: &str, step: &Record) -> Result<(), AllocError>
    ensures { OnOk result
        (string_bytes text.new ≡ string_bytes text.old ++ record_line name.now step.now) }
{
    add_time(text, step.stamp)?;
    text.push_str(" ")?;
    text.push_str(name)?;
    text.push_str(" ")?;
    let bag = step.bag.as_slice();
    let mut words = Vec::new(*text.allocator());
    step.words.append_to(&mut words)?;
    add_step(text, step.kind, bag, words.as_slice())?;
    text.push_str("\n")
}

fn limit_name(limit: Limit) -> &'static str
    ensures { result.now ≡ limit_text limit }
{
    match limit {
        Limit::Microstep => "microstep",
        Limit::Tick => "tick",
    }
}

pub(crate) fn add_fault(
    text: &mut String,
    name: &str,
    at: Stamp,
    limit: Limit,
) -> Result<(), AllocError>
    ensures { OnOk result
        (string_bytes text.new ≡ string_bytes text.old ++ fault_line name.now at limit) }
{
    text.push_str("fault: ")?;
    text.push_str(limit_name(limit))?;
    text.push_str(" limit: ")?;
    text.push_str(name)?;
    text.push_str(" at ")?;
    add_time(text, at)?;
    text.push('\n')
}
