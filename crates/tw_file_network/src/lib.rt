//! Network files: the bytes of a JSON text (format `tw-1`, `tw-2` or `tw-3`) to a network of the five models and of
//! machines.
//!
//! - `trees`: [`network_of_any_file`], the network that a file of any format means, or the first fault in a fixed order;
//!   [`network_of_value`], the same of the JSON value of a file. [`meaning_law`]: there is at most one such network, but
//!   for the order of a tree's couplings, and at most one such fault. [`formats_law`]: bytes that say a tree say no file of
//!   format `tw-1`.
//! - `file`: [`json_of`], the JSON value of a file. [`network_of_file`], the network of a file of format `tw-1` alone; one
//!   of another format has another shape.
//! - `shape`: what the JSON value of a `tw-1` file says: exactly its members, each of its type.
//! - `tree_shape`: the same of a tree (`tw-2`, `tw-3`).
//! - `draft`: what a file says, before it is known to be a network.
//! - `components`: components with their models. `tree_models`: the parts of a tree with theirs.
//! - `machines`: components that are a machine of the file. `programs`: their programs, still to be made.
//! - `numbers`: names and ports as the numbers of a network.
//! - `refused`: [`FileRefused`], that first fault; it turns into the workspace's table of refusals by `From`.
//! - [`examples`]: files by hand.
//!
//! What a file of format `tw-1` means is a function of its bytes, in three steps: the JSON value that they write;
//! what the value says, where it has exactly the members of a network file, each of its type; and then the models,
//! whose parameters are in range, and a network of them, in which the number of a component stands for its
//! name. A file of format `tw-2` says a tree of coupled models in the same steps; which flat network a tree means is
//! said by the couplings along which its paths lead, so it is a relation. A file of format `tw-3` says such a tree too,
//! and declares machines, which its components may name as their models.
#![tactic(auto)]

mod components;
mod draft;
pub mod examples;
mod file;
mod machines;
mod numbers;
mod programs;
mod refused;
mod shape;
mod tree_models;
mod tree_shape;
mod trees;

pub use file::{json_of, network_of_file};
pub use refused::FileRefused;
pub use trees::{formats_law, meaning_law, network_of_any_file, network_of_value};
