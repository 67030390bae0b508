//! Events in the order of their messages: a binary heap in which each event stands under an index.
//!
//! An [`EventHeap`] keeps messages, each under an index of the caller's, as that of a node in a pool. It gives the first of
//! them in constant time, and takes one in or out, wherever it stands, in time logarithmic in their number: each index's
//! place in the heap is kept beside it. Contracts see the entries as a list in rising order: by message, that is by stamp,
//! port, value and receiver, and equal messages by index. They say exactly what each call makes of that list.
//!
//! Only `reserve` takes memory, for more entries and for greater indices, and it alone can be refused.
//!
//! - `heap`: [`EventHeap`], made, given room, changed; its first entry.
//! - `finding`: a message looked for.
//! - `front`: a copy of the messages before a stamp, in order.
//! - `entries`: [`Entry`], a message under its index, and which of two comes first.
//! - `sifting`: entries that move up and down, and the places that are kept of them.
#![tactic(auto)]

mod entries;
mod finding;
mod front;
mod heap;
mod sifting;

pub use entries::Entry;
pub use heap::EventHeap;
pub use tw_msgs::OutOfMemory;
