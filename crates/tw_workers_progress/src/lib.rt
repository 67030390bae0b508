//! A run by workers of a network whose models are those of a file, told while it goes on.
//!
//! [`run_by_workers`] (`workers`) answers the sequential simulator's records and its fault, and tells on standard error, where that is
//! asked for, how far the run is and what it spent in the end.
#![tactic(auto)]

mod workers;

pub use workers::run_by_workers;
