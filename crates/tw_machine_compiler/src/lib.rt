//! A machine as its user declares it, and the program that it means once the numbers of a component are put in.
//!
//! - `programs`: [`compile`], the program that a declaration and a component's numbers mean, or the first fault ([`BadMachine`]).
//! - `expressions`, `statements`, `members`: trees into the machine's own language, where names are places.
//! - `making`: expressions and statements of that language, made of parts.
//! - `starts`: the cells of registers, the rooms of queues and the numbers of tables at the start.
//! - `rows`: no queue, no array register and no observation stands twice among the words.
//! - `limits`: [`BadMachine`], and the first limit that a machine passes.
//! - [`examples`]: machines by hand.
//!
//! The walks over trees call themselves as deep as a tree has nodes, up to 4,096.
#![tactic(auto)]

pub mod examples;
mod expressions;
mod limits;
mod making;
mod members;
mod programs;
mod rows;
mod starts;
mod statements;

pub use limits::BadMachine;
pub use programs::compile;
pub use tw_machine_declaration::{
    Constant, Declaration, Given, Named, OutputText, Thing, Timer, TimerOutput, Timers, Value,
};
