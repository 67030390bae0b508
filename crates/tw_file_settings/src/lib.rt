//! Other numbers for a network's file: parameters that a command line sets, and the seeds of a replication.
//!
//! [`Settings`] are what a line says, and [`file_with`] the bytes of the file with these numbers. It knows of a file where components and
//! machines stand, and leaves every other fault to the reader of files, for which it is as if the file had these numbers.
//!
//! - `assignment`: [`Assignment`], a parameter and its number, as text and as read. `wholes`: a whole number as JSON writes it.
//! - `assigning`: the number in its place. `members`: members of JSON objects, taken out and put back.
//! - `reseeding`: the seeds of a replication.
//! - `settings`: [`Settings`], both together. `files`: [`file_with`], and [`one_file_law`]. `refused`: [`SettingRefused`].
#![tactic(auto)]

mod assigning;
mod assignment;
mod files;
mod members;
mod refused;
mod reseeding;
mod settings;
mod wholes;

pub use assignment::{Assignment, assignment_in, assignments_in};
pub use files::{file_with, one_file_law};
pub use refused::SettingRefused;
pub use settings::Settings;
