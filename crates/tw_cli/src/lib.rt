//! The command line of the program: which job its words ask for.
//!
//! [`job`] reads the words with `clap`. Its contract is exact: the [`Job`] is the subcommand that the
//! parse finds, with the text or the number of each argument, and each number in its range; a refused
//! line (23) is one that the parse refuses, or one in which no job stands. Where help or the version is asked for it
//! hands out clap's text. [`NoJob`] says which of these it is.
//!
//! | File | Says |
//! |---|---|
//! | `command_line` | from the words of a line to a job ([`job`]) |
//! | `commands` | the command as `clap` takes it, a function for each subcommand and each option |
//! | `help` | the texts behind each help |
//! | `jobs` | what can be asked for ([`Job`], [`Task`]), and why nothing is ([`NoJob`]) |
//! | `values` | the text, the number or the flag of one option; each number in its range, or none |
//! | `driving` | what drives an executive ([`Driver`]), and how it cancels |
//! | `setting` | what workers are set to ([`RunOptions`], [`Workers`]), and who makes a run ([`ByWorkers`]) |
//! | `numbers` | the network file, and other numbers for it ([`NetSource`]) |
//! | `explaining` | words for a line that is refused ([`line_words`]) |
//! | `seeing` | what is seen of a run: the lines of a table, and a picture ([`Picture`]) |
#![tactic(auto)]

mod command_line;
mod commands;
mod driving;
mod explaining;
mod help;
mod jobs;
mod numbers;
mod seeing;
mod setting;
mod values;

pub use command_line::job;
pub use driving::Driver;
pub use explaining::line_words;
pub use jobs::{Job, NetSource, NoJob, Task};
pub use seeing::Picture;
pub use setting::{ByWorkers, RunOptions, Workers};
