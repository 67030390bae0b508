//! A run of the sequential abstract simulator (Chow and Zeigler 1994), made a round at a time.
//!
//! - `simulation`: [`begin`] and [`advance`] make the rounds of a network up to an end tick ([`Simulation`]). [`Advanced`]: a
//!   round was made, or the run has ended, with a limit fault or without. Records and fault are those of the definition,
//!   `sequential` of tw_theory.
//! - `receiver`: [`Receiver`], to which the parts of each round go as they come, so that whoever writes them at once keeps
//!   no record.
//! - `rounds`: a round: `outputs`, their routing into `bags`, then `turns`, the transitions. `round`: what all of these
//!   read; `bench`: what they work with.
//! - `beforehand`: [`meets_no_limit`] tells of some networks, without a round, that no fault ends their run.
//! - `refused`: [`SeqRefused`], for an end tick that no stamp has, and for want of memory.
//!
//! The next own steps of all components stand on an agenda, the event list: a tournament of their times. The inputs
//! stand in order. So a round takes time in the components that are imminent or receive something, times a logarithm of how
//! many components there are, and not in all components or inputs.
#![tactic(auto)]

mod bags;
mod beforehand;
mod bench;
mod outputs;
mod receiver;
mod refused;
mod round;
mod rounds;
mod simulation;
mod turns;

pub use beforehand::meets_no_limit;
pub use receiver::Receiver;
pub use refused::SeqRefused;
pub use simulation::{Advanced, Simulation, advance, begin};
pub use tw_actions::Fault;
