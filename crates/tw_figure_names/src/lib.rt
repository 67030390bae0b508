//! What the models of a file's network are called, their figures and their observations.
//!
//! - `network`: [`labels_in`], those of all components of a network, with the JSON value of its file.
//! - `labels`: [`labels_of`], the name and the figures of one of the five models.
//! - `law`: [`figures_law`], what the figures of the five models are of a state: its count, its sum, how many values it
//!   holds; [`machine_figures_law`], what those of a machine are: the values of the entries by whose texts they are called.
//! - `atoms`: the components of a file, in the order of their numbers.
//! - `machines`: the machines of a file, and the figures and observations of one of them. `entries`: what the entries of its `words` show,
//!   `texts`: what they are called, `figures`: the figures and observations that they make.
//!
//! So no figure or observation of a file's machine stands under another's name. That an array register has all its cells
//! in a state is a premise of that law.
#![tactic(auto)]

mod atoms;
mod entries;
mod figures;
mod labels;
mod law;
mod machines;
mod network;
mod texts;

pub use labels::labels_of;
pub use law::{figures_law, machine_figures_law};
pub use network::labels_in;
