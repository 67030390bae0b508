//! What components send, receive and record: messages, items in transit, bags and records.
//!
//! - `message`: [`Message`], a value for a port of a component at a stamp. Messages are ordered by stamp, port, value and
//!   receiver; [`message_order_law`] says what that order is. [`Item`], a message in transit, with a [`Sign`].
//! - `counting`: [`signed_count`], how often a message stands among items, less its anti-messages.
//! - `bag`: [`Bag`], the items of an input or an output. Contracts see it as a list. It is sorted by port, then value.
//! - `words`: [`Words`], the numbers that a state shows.
//! - `record`: [`Record`], one step of a component as a trace keeps it, with the words of its state. [`equality_law`] says
//!   that records are equal exactly where their contents are.
//! - `record_kind`: [`RecordKind`], an output, or one of the three transitions.
//!
//! Only [`Bag::push`], [`Words::of`], [`Words::append_to`] and the copies of bags, words and records take memory. Where
//! there is none they answer so (refusal 4), and what they were given stays as it was.
#![tactic(auto)]

mod bag;
mod counting;
mod message;
mod record;
mod record_kind;
mod words;

pub use bag::Bag;
pub use counting::signed_count;
pub use message::{Item, Message, Sign, message_order_law};
pub use record::{Record, equality_law};
pub use record_kind::RecordKind;
pub use tw_vtime::OutOfMemory;
pub use words::Words;
