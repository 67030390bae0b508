//! How far a sequential run is, told while it is made.
//!
//! - `listener`: [`Listener`], who hears it, after each round. [`Nobody`] does not listen.
//! - `reached`: [`Reached`], how far a run is: the stamp of its latest record, and how many records there are.
//! - `advancing`: [`advance_telling`], a round, as [`tw_rounds::advance`] makes it, of which the listener hears then; the
//!   receivers count ([`Counting`]).
//! - `trial`: [`try_out`], the first rounds of a run, for as long as a [`Judge`] wants more of them. Nothing of them is
//!   kept.
//! - `outcome`: [`outcome_telling`], the fault that ends a run, told while its rounds are made; and [`run_out`], which makes those that are left.
//!   No record of them is kept.
#![tactic(auto)]

mod advancing;
mod listener;
mod outcome;
mod reached;
mod trial;

pub use advancing::{Counting, advance_telling};
pub use listener::{Listener, Nobody};
pub use outcome::{outcome_telling, run_out};
pub use reached::Reached;
pub use trial::{Judge, try_out};
