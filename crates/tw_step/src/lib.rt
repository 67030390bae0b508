//! One step of one component: where it stands, what it outputs, and the transition that it makes.
//!
//! The sequential simulator, chains and processes all step a component by these calls, so each is proved once, against the
//! definitions of one component by itself (`Transitions` of tw_theory). What an output sends is routed by one call for
//! processes and chains; the simulator deals it into bags by a walk of its own.
//!
//! - `moment`: [`Moment`], where a component stands: its state, its last time, and its next own step; [`start_moment`], at
//!   the start; [`copy_moment`], a copy.
//! - `outputs`: [`output_bag`], what a model sends in a state, sorted; [`fill_output`], the same, into a bag that is there;
//!   [`routed`], the messages that this makes.
//! - `step`: [`Step`], one step with what takes it back. [`output_step`] and [`transition_step`] make the steps of a
//!   component, and [`take_back`] takes them back, the last one first.
//! - `turns`: [`pass_turn`], a transition that is never taken back; [`turn_of`], which of the three transitions it is.
//! - `refused`: [`TurnRefused`], why a transition is not made. The component then stands where it stood.
#![tactic(auto)]

mod moment;
mod outputs;
mod refused;
mod step;
mod turns;

pub use moment::{Moment, copy_moment, start_moment};
pub use outputs::{fill_output, output_bag, routed};
pub use refused::TurnRefused;
pub use step::{Home, Step, output_step, take_back, transition_step};
pub use turns::{pass_turn, turn_of};
