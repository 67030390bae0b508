//! Networks of atomic models: components by name, couplings, inputs from outside, and where each output goes.
//!
//! - `network`: [`Network`], a flat Parallel DEVS network (Chow and Zeigler 1994), generic in its models. It is made
//!   once, by [`Network::new`] or [`Network::nested`], which refuse what is no network; after that it never changes.
//! - `refused`: [`NetworkRefused`], for what it is refused; the first fault in a fixed order is answered.
//! - `checks`: the faults of what is handed in. `tree_checks`, `counts`: those of a tree, and whether it is small enough.
//! - `routes`: where each output goes, by source and port.
//! - `wiring`: [`Coupling`], [`Input`] and [`Place`], the ends of couplings and of inputs by number.
//! - `naming`: names of components, each found by its text.
//! - `inputs`: [`message_of`], a network input as the message that it is.
//! - `limits`: [`MAX_COMPONENTS`], [`MAX_INPUTS`] and others, how large a network may be.
//!
//! Contracts see a network as its contents, exactly what was handed in; `network_of` gives the network of
//! the theory that they mean. Components are numbered from 0, in the order in which they were handed in.
//! The readers take no memory; [`Network::routes`] takes constant time, and [`Network::find`] hashes the
//! name and does not scan.
#![tactic(auto)]

mod checks;
mod counts;
mod inputs;
mod limits;
mod naming;
mod network;
mod refused;
mod routes;
mod tree_checks;
mod wiring;

pub use inputs::message_of;
pub use limits::{MAX_COMPONENTS, MAX_COUPLED, MAX_INPUTS, MAX_LEVELS, MAX_NAME, MAX_PORT};
pub use network::Network;
pub use refused::NetworkRefused;
pub use tw_nested::{End, Link, MAX_COUPLINGS, Nested, Part};
pub use wiring::{Coupling, Input, Place};
