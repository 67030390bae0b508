//! What is odd about a machine of a file, though it is a right one: a random number that nobody draws, a name that is
//! nowhere read, a machine that never steps by itself.
//!
//! A warning is said only where it is certain: what hangs on what a component gives is not said. Texts are looked at in
//! the core of the language, so procedures stand where they are used.
//!
//! - `warning`: [`Warning`] and its [`Kind`]; [`Kind::words`]; [`lines_of`], the lines of many.
//! - `sought`: what is looked for in expressions and programs.
//! - `deeds`: what a program does somewhere: it draws, waits, sets, starts a timer.
//! - `starts`: what starts by itself: a machine by its first wait, a timer by `first` or `start`.
//! - `texts`: the texts of a machine.
//! - `names`: what is nowhere read or set, and indexes outside.
//! - `programs`: programs, what is sent, what is shown.
//! - [`examples`]: warnings by hand.
//! - `machines`: [`add_machines`], the warnings of the machines of a file.
#![tactic(auto)]

mod deeds;
pub mod examples;
mod machines;
mod names;
mod programs;
mod sought;
mod starts;
mod texts;
mod warning;

pub use machines::add_machines;
pub use sought::{Called, Sought, number_in};
pub use texts::in_machine;
pub use warning::{Kind, Warning, add_where, lines_of};
