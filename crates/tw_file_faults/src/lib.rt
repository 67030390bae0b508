//! What is wrong with a network file, in words: the place in the file and the reason.
//!
//! [`explain`] takes a second look at the JSON value of a file that `tw_file_network` has refused, apart from the reader
//! there, and answers one line for its user; [`explain_text`] does so of bytes that are no JSON, which it reads again. Which fault it is, its number, is what the reader answers, and is proved there; here that
//! fault's first place is looked for. Of the words nothing is proved but that they are made safely, that they are one line
//! and that the search ends: they are shown by tests, one for each kind of fault.
//!
//! - `lines`: [`explain`], [`explain_text`].
//! - `outline`: the models and components of a file as it is written, well-formed or not, each with its place and its name.
//! - `shape`, `parameters`, `connections`, `counts`: the first place of a fault of each kind.
//! - `given`: components of machines. The machines themselves, the first fault of `fields`, `constants` and `models`, are
//!   left to `tw_machine_faults`, the words that lines are made of to `tw_machine_text_faults`.
//! - `syntax`: what a text that is no JSON wants where it goes wrong.
#![tactic(auto)]

mod connections;
mod counts;
mod given;
mod lines;
mod outline;
mod parameters;
mod shape;
mod syntax;

pub use lines::{explain, explain_text};
