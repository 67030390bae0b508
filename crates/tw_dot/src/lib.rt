//! The network of a file as Graphviz reads it: a graph in the language DOT.
//!
//! [`write_dot`] makes the text from the JSON value of a network file, and writes it. An atom is a box with its name, its
//! model and its parameters, and with its ports at the left and at the right; a coupled model is a frame round its parts,
//! with its ports in it; couplings lead from port to port, as the file has them, and inputs come from outside.
//!
//! - `writing`: [`write_dot`].
//! - `tree`: the components of a file, each with its number and the ports that are used, and how they nest.
//! - `wires`: what leads to a port and leaves from one: couplings, and how many inputs.
//! - `boxes`: an atom as a box. `parameters`: what its model is given. `frames`: the frames of coupled models.
//! - `edges`: couplings and inputs as edges of the graph.
//! - `escaped`: words in a label.
//!
//! Which words they are is shown by tests. Proved is that the call is safe and ends, that nothing is written where memory is
//! refused, and that words are escaped as those of a picture are (`tw_svg`). That each text of the file is put into a label so
//! is seen in `boxes`, `parameters` and `frames`; no clause says it.
#![tactic(auto)]

mod boxes;
mod edges;
mod escaped;
mod frames;
mod parameters;
mod tree;
mod wires;
mod writing;

pub use writing::write_dot;
