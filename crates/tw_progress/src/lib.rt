//! How far a run is, told on standard error while the run goes on.
//!
//! [`while_telling`] does work on the calling thread and tells, by a thread of its own and once a second, what a
//! [`Reader`](tw_board::Reader) sees on the board of the run: a [`Progress`], which is the tick committed, the end tick
//! and how many records are committed. What the work answers is what comes back; nothing that is told touches it.
//!
//! Only the start of the thread takes memory; where that is refused, nothing is told, and the work is done all the same.
#![tactic(auto)]

mod bell;
mod progress;
mod telling;

pub use progress::Progress;
pub use telling::while_telling;
