//! Messages, and what is told of them, of numbers and of stamps.

ghost use Rattle.std.specs.Prelude.{◌≡◌, IfSome};

use tw_msgs::{Item, Message, Record, Sign};
use tw_test_refusal_tools::Told;
use tw_texts::{push_message, push_record, sign_name};
use tw_vtime::Stamp;

/// A message: a value for port 0 of a component at a tick, if there is such a tick.
pub(crate) fn message(tick: u64, to: usize, value: i64) -> Option<Message>
    ensures { IfSome result (λ m. m.to ≡ to) }
{
    let stamp = Stamp::new(tick, 0, 1).ok()?;
    Some(Message {
        stamp,
        port: 0,
        value,
        to,
    })
}

/// Tells a number after some words.
pub(crate) fn tell_number(told: &mut Told, words: &str, number: usize) {
    told.say(words);
    if write!(told.text_mut(), "{number}").is_err() {
        told.give_up("write");
    }
}

/// Tells a stamp after some words.
pub(crate) fn tell_stamp(told: &mut Told, words: &str, stamp: Stamp) {
    told.say(words);
    if write!(told.text_mut(), "{stamp}").is_err() {
        told.give_up("write");
    }
}

/// Tells a message after some words, on a line.
fn tell(told: &mut Told, words: &str, message: &Message) {
    told.say(words);
    let before = told.text().len();
    if push_message(told.text_mut(), message).is_err() {
        let stays = told.text().len() == before;
        told.expect("push_message", stays);
        if push_message(told.text_mut(), message).is_err() {
            told.give_up("push_message");
        }
    }
    told.say("\n");
}

/// Tells messages, each after some words.
pub(crate) fn tell_messages(told: &mut Told, words: &str, messages: &[Message]) {
    for message in messages {
        tell(told, words, message);
    }
}

/// Tells items, each with its sign after some words.
pub(crate) fn tell_items(told: &mut Told, words: &str, items: &[Item]) {
    for item in items {
        told.say(words);
        told.say(sign_name(item.sign));
        tell(told, " ", &item.message);
    }
}

/// Tells a record, on a line.
fn tell_record(told: &mut Told, name: &str, record: &Record) {
    let before = told.text().len();
    if push_record(told.text_mut(), name, record).is_err() {
        let stays = told.text().len() == before;
        told.expect("push_record", stays);
        if push_record(told.text_mut(), name, record).is_err() {
            told.give_up("push_record");
        }
    }
}

/// Tells records of the components of a row.
pub(crate) fn tell_records(told: &mut Told, records: &[Record]) {
    for record in records {
        let name = match record.component {
            0 => "g",
            1 => "r",
            _ => "t",
        };
        tell_record(told, name, record);
    }
}

/// An item of a tick, to a component, if there is such a tick.
pub(crate) fn item(sign: Sign, tick: u64, to: usize, value: i64) -> Option<Item>
    ensures { IfSome result (λ i. i.message.to ≡ to) }
{
    Some(Item {
        sign,
        message: message(tick, to, value)?,
    })
}
