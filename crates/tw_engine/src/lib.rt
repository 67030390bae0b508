//! The engine that the program runs, over any reader and writer.
//!
//! [`engine`] does a job on the bytes of a network's file: it says what the network has or where the file is at fault, writes the network
//! as a graph, simulates it, alone or by workers, and writes the trace, figures, a table or a picture of the run, drives an executive of it
//! by hand, or runs the demonstration by the executive. [`alone`] does all jobs but those that take threads. Their contracts give the exact bytes
//! written (of pictures when there are any), and what each way to end means. Each job is a file, which reads, simulates and writes by the
//! crates below:
//!
//! | File | Does |
//! |---|---|
//! | `dispatch` | [`alone`] and [`engine`]: a job, by its kind, with the table of all ends |
//! | `job_demo` | the demonstration; [`demo_law`]: what it prints, in its bytes |
//! | `job_check` | [`check`]: what a network has and what is odd about its file, or where it is at fault |
//! | `job_dot` | [`dot`]: the network as Graphviz reads it |
//! | `job_seq` | [`seq`]: the trace of the sequential run; `job_run` makes a run in order by it too |
//! | `job_stats` | [`stats`]: counts, figures and observations of that run, from a tick on where one was asked for; or of one by workers |
//! | `job_table` | [`table`]: its records, or how its figures changed, from a tick on, as comma-separated values; or those of one by workers |
//! | `job_draw` | [`draw`]: a [`Drawing`] of that run, or of a run of Time Warp |
//! | `job_run` | the trace, made by workers; `choosing` says how many there are, where that is left to the program |
//! | `job_play` | [`play`]: an executive that is driven by hand, from its [`Start`] on |
//! | `reading`, `faults`, `names`, `shown` | what jobs share: [`read_all`] and the network of a file, the line of a run's fault, the names of components, which of them are shown |
//! | `telling` | who tells on standard error how far a run is |
//! | `failed`, `exit` | [`Failed`]: why a job came to no end; [`Exit`]: how the program ends, with its status and the line for standard error |
//!
//! [`alone`], [`seq`], [`stats`], [`table`], [`draw`], [`check`], [`dot`] and [`play`] need no thread.
#![tactic(auto)]

mod choosing;
mod dispatch;
mod exit;
mod failed;
mod faults;
mod job_check;
mod job_demo;
mod job_dot;
mod job_draw;
mod job_play;
mod job_run;
mod job_seq;
mod job_stats;
mod job_table;
mod names;
mod reading;
mod shown;
mod telling;

pub use dispatch::{alone, engine};
pub use exit::Exit;
pub use failed::Failed;
pub use job_check::check;
pub use job_demo::demo_law;
pub use job_dot::dot;
pub use job_draw::{Drawing, draw};
pub use job_play::{Start, play};
pub use job_seq::seq;
pub use job_stats::{Summary, stats};
pub use job_table::{Tabulation, table};
pub use reading::read_all;
pub use tw_actions::Fault;
