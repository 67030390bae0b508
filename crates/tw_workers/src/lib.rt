//! A run by workers: threads that share an exchange, to the sequential simulator's outcome.
//!
//! [`run`] lets so many workers draw components from an exchange (`tw_exchange`), each in a thread of its own, until the run is over;
//! [`run_counted`] tells beside it what was spent ([`Effort`]). What comes out depends neither on the [`Setting`] nor on who did what.
//!
//! `desk` is what lies under the lock of a run, `steering` how far it lets components run ahead, and `crew` who of its workers works.
//! `setting` has the [`Setting`] and what comes back of a run that was given up ([`RunFault`]), `effort` the [`Effort`].
//! All that this crate knows of threads stands in `running`.
#![tactic(auto)]

mod crew;
mod desk;
mod effort;
mod running;
mod setting;
mod steering;

pub use effort::Effort;
pub use running::{run, run_counted};
pub use setting::{RunFault, Setting};
pub use tw_actions::{Fault, RunState as State};
pub use tw_exchange::{
    Exchange, Gate, NoSuch, Open, Order, Outcome, Prepareds, SweepRefused, compute,
};
pub use tw_vtime::OutOfMemory;
