//! What is odd about a file, though it means a network: its machines, and how they are put together. `check` says it.
//!
//! - `file`: [`warnings_of`], all warnings of a file.
//! - `starts`: components whose random numbers start alike.
//! - `ports`: ports on which nothing is sent, that are coupled to nothing, and receivers that do nothing.
//! - `places`: the places of components and couplings.
#![tactic(auto)]

mod file;
mod places;
mod ports;
mod starts;

pub use file::warnings_of;
