//! Virtual time: stamps, their order, their packed numbers and their texts, and the advance of a
//! component's own next step.
//!
//! A [`Stamp`] is a tick, a microstep and a phase, or the end, which is after every other stamp and
//! means never. Contracts see a stamp as its packed number, so that the order of stamps is the order of
//! numbers; [`order_law`] says in the words of the subject what these numbers mean. [`advance`] gives the
//! next own step of a component after a transition, or the [`Limit`] that it would pass.
//!
//! The crate also begins the table of refusals of the whole workspace: every refusal of every crate
//! turns into a [`Refusal`], which tells its number and its name. [`OutOfMemory`] is another name of std's error of a refused request for
//! memory (4), which every crate that asks for some hands on.
//!
//! No call takes memory.
#![tactic(auto)]

mod limits;
mod refusal;
mod stamps;

pub use limits::{Limit, advance};
pub use refusal::Refusal;
pub use stamps::{MAX_MICROSTEP, MAX_TICK, Range, Stamp, order_law};
pub use std::alloc::AllocError as OutOfMemory;
