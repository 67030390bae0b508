//! The texts of the program: times, bags, words, messages, records and faults, each byte for byte, and a trace written line
//! by line.
//!
//! - `texts`: [`push_time`], [`push_bag`] and [`push_words`] add a part of a line to a text; [`push_record`] and
//!   [`push_fault`] add a whole line, which ends with one newline byte. [`kind_name`] is the word for a kind of step.
//! - `items`: [`push_message`], and [`sign_name`], the word for the sign of an item.
//! - `lines`: the parts of lines, of which the two above are made.
//! - `tails`: parts of lines again, written from the end of a line in room that is there: [`put_byte`], [`put_text`], [`put_whole`],
//!   [`put_value`], [`put_word`], [`put_bag`] and [`put_words`]; [`make_room`] sees that there is room. Lines of a trace are made of these.
//! - `gathered`: [`Lines`], lines of a trace that are gathered until they are written.
//! - `traces`: [`write_trace`] writes the lines of many records to any writer, a portion at a time.
//! - `names`: [`Names`], where names of components come from, so that this crate knows no network.
//!
//! The contracts give the exact bytes. Where there is no memory (refusal 4) the text that was handed in stays as it was.
#![tactic(auto)]

mod gathered;
mod items;
mod lines;
mod names;
mod tails;
mod texts;
mod traces;

pub use gathered::Lines;
pub use items::{push_message, sign_name};
pub use names::Names;
pub use tails::{
    make_room, put_bag, put_byte, put_text, put_value, put_whole, put_word, put_words,
};
pub use texts::{kind_name, push_bag, push_fault, push_record, push_time, push_words};
pub use traces::{NotWritten, write_out, write_portion, write_trace};
