//! One reversible process: the steps of a component, made one after another and taken back the last first.
//!
//! A [`Process`] holds a component's state, the messages that are to come in order, and every step that is not
//! committed, with what takes it back: the residue of its transition, the inputs that it consumed and the messages
//! that it sent (Jefferson 1985). Its lists are those of tw_lists; the network is shared.
//!
//! Contracts see the contents of the theory ([`Process`] as `Held` of `specs/Process`), and each call does on them
//! what the theory's function of that name does. Both ways of cancelling ([`Cancel`]) stand behind each call.
//!
//! | File | Calls |
//! |---|---|
//! | `process` | making, the next stamp, the history: its length, last stamp, records and counts |
//! | `reading` | all other contents; the lists, their pool and their heap |
//! | `chains` | `start`: what a chain is worked out from |
//! | `installing` | `install`: the steps of a chain made here ([`Finished`]) |
//! | `taking` | what `install` does to the lists, one step of a chain after another |
//! | `stepping` | `step`: the next step, or why it is not made ([`StepRefused`]) |
//! | `undoing` | `undo_last` |
//! | `receiving` | messages and anti-messages that come and go |
//! | `posting` | what goes out, and what is owed |
//! | `committing` | the oldest step leaves the history |
//! | `starting` | the lists at the start |
//! | `entry` | a step of the history |
//! | `marked` | whether steps since a mark stand before a stamp |
//! | `refused` | [`StepRefused`] |
#![tactic(auto)]

mod chains;
mod committing;
mod entry;
mod installing;
mod marked;
mod posting;
mod process;
mod reading;
mod receiving;
mod refused;
mod starting;
mod stepping;
mod taking;
mod undoing;

pub use process::Process;
pub use refused::StepRefused;
pub use tw_actions::{Cancel, Finished, Stop};
pub use tw_vtime::OutOfMemory;
