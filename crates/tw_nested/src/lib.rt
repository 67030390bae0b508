//! Networks as trees of coupled models, and the flat network that such a tree means.
//!
//! - `tree`: [`Nested`], a coupled model of named parts, each an atomic model or a coupled model again (Chow and Zeigler
//!   1994; coupled models are closed under coupling). [`dismantle`] lets a tree of any depth go.
//! - `flattening`: [`flatten`], the atoms of a tree in order, depth first, and the couplings along which its paths lead,
//!   each once. Its time and memory are bounded by the numbers of parts and couplings, and not by that of paths.
//! - `tables`: a tree taken apart, each part by its number.
//! - `edges`: the couplings of all models, as couplings of numbered ports.
//! - `reach`: which ports are reached from a port.
//! - `collect`: the flat couplings ([`Coupling`]), and why there are none ([`FlatRefused`]).
//! - `limits`: [`MAX_COUPLINGS`] and [`PORTS`], the most couplings that a flat network may have, and how many ports a
//!   component has.
//!
//! Flattening goes by numbers: each port of each part has two, for what the part puts out and for where it takes in, and
//! each coupling of each model leads from one of them to a higher one. So one pass over the sorted couplings finds all that
//! is reached from a port.
#![tactic(auto)]

mod collect;
mod edges;
mod flattening;
mod limits;
mod reach;
mod tables;
mod tree;

pub use collect::{Coupling, FlatRefused};
pub use flattening::{Flat, flatten};
pub use limits::{MAX_COUPLINGS, PORTS};
pub use tree::{End, Link, Nested, Part, dismantle};
