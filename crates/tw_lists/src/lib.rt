//! The messages of one process, each a node of one pool: what is pending, consumed, sent, outgoing, waiting and owed.
//!
//! An [`EventLists`] holds six lists. A message goes from one to another as steps are made and taken back
//! (Jefferson 1985): a pending message is consumed by a step and pending again when the step is undone; a sent
//! message goes out, and its anti-message too, or it is owed, when the step is undone. Such moves relink nodes and
//! take no memory. The pending messages stand in their full order, which an event heap keeps.
//!
//! Contracts see six plain lists ([`EventLists`] as `Lists` of `specs/Lists`), for how many more nodes there is room,
//! and for how many more messages to come. Neither nodes nor indices are seen.
//!
//! | File | Calls |
//! |---|---|
//! | `lists` | making, laws, room |
//! | `reading` | lengths, copies in order, least stamps, the pool and the heap |
//! | `moves` | messages consumed and pending again, coming and going |
//! | `sending` | messages sent, or sent again where an equal one is owed |
//! | `settling` | messages taken back: as anti-messages, or owed, and what is owed for too long |
//! | `searching` | one message looked for in a list |
//! | `finder` | where the messages of a list stand, by a hash map |
//!
//! No call walks through a list that grows with the messages under way to find one of them: a pending message is found
//! in the heap, a consumed one from the last one on, down to its stamp, a waiting and an owed one by its finder.
//!
//! Memory is asked for by `reserve`, `reserve_pending`, `reserve_to_send`, `note_orphan`, and by the calls that answer a
//! bag or a vector. A refusal ([`PoolRefused`](tw_pool::PoolRefused)) leaves the lists as they were; it is `Full` exactly where
//! the nodes of all six lists would be more than [`LIVE_LIMIT`](tw_pool::LIVE_LIMIT).
#![tactic(auto)]

mod finder;
mod lists;
mod moves;
mod reading;
mod searching;
mod sending;
mod settling;

pub use lists::EventLists;
