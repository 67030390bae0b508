//! Five atomic models whose transitions can be taken back, and [`Model`], which is any of them.
//!
//! A model's struct holds its parameters, and its range is kept by the type: [`Model::generator`] and the other makers
//! refuse what is out of range ([`BadModel`]). Each model's plain functions stand in specs/, in a file of its name; the
//! calls are exactly these functions, and the laws of [`tw_atomic::Atomic`] are proved for each model and for [`Model`].
//! What can be computed backwards is computed backwards; the residues hold what a transition overwrites, and no state is
//! copied. All states are of bounded size. [`State`] keeps those of relay and queue on the heap ([`OnHeap`]), each with
//! room for all that it may ever hold: `start` and `copy` make that room, and no transition takes memory but that of a
//! relay which keeps more than two values to take it back.
//!
//! - `generator`: [`Gen`] sends its value each period.
//! - `tally`: [`Tally`] counts and adds what comes, and never sends.
//! - `relay`: [`Relay`] holds what comes, and sends it all after its delay.
//! - `queue`: [`Queue`] works on the first of its jobs, and sends it when its service is over.
//! - `hop`: [`Hop`], a random walk, draws ports, values and waiting times by a linear congruential generator.
//! - `model`: [`Model`], its [`State`] and its [`Residue`]; [`alike_law`] says that models of one meaning take back alike.
//! - `bad_model`: [`BadModel`], what the makers refuse.
//! - `kinds`: [`KINDS`], what a file calls the models, and their parameters with the ranges of these.
//! - `intake`: the bounded list of values that relay and queue have in common.
//! - `remaining`: the time that is left to a model's next own step.
//! - `values`: [`Values`], what a relay let go.
//! - `on_heap`: [`OnHeap`], a state on the heap that contracts see as if it lay in place.
//!
//! Times are in ticks. Counts wrap at 2^64, sums at 64 bits with sign.
#![tactic(auto)]

mod bad_model;
mod generator;
mod hop;
mod intake;
mod kinds;
mod model;
mod on_heap;
mod queue;
mod relay;
mod remaining;
mod tally;
mod values;

pub use bad_model::BadModel;
pub use generator::{Gen, GenState};
pub use hop::{Hop, HopState};
pub use kinds::{GEN, HOP, KINDS, Kind, Numbers, Parameter, QUEUE, RELAY, TALLY, is_kind_name};
pub use model::{Model, Residue, State, alike_law};
pub use on_heap::OnHeap;
pub use queue::{Jobs, Queue, QueueResidue, QueueState};
pub use relay::{Held, Relay, RelayResidue, RelayState};
pub use tally::{Tally, TallyState};
pub use values::Values;
