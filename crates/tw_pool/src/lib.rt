//! Linked lists of items, all kept in one slab.
//!
//! A [`Pool`] holds a fixed number of lists. Each item stands under an index that the pool picks, in exactly one of the lists, and
//! can go to another list, or out of the pool, in constant time and without memory. Contracts see the lists themselves, each a
//! list of (index, item), and how many more items fit without memory (`room`). They say exactly what each call makes of every list.
//!
//! Links run both ways. A list read by `last` and `prev` is the reverse of what `first` and `next` read.
//!
//! Memory is asked for by `new` never, and by `push_back` and `insert_before` only where no room is left; `reserve` makes room
//! beforehand. A refusal ([`PoolRefused`]) leaves each list as it was and hands the item back. Before anything is added,
//! `top` bounds the indices to come, so that a table over indices can be made large enough first.
#![tactic(auto)]

mod links;
mod lists;
mod refused;

pub use lists::{LIVE_LIMIT, Pool};
pub use refused::PoolRefused;
pub use tw_vtime::OutOfMemory;
