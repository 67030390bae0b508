//! The executive of Time Warp: processes that run ahead of one another, their mailboxes, and what they have committed
//! (Jefferson 1985).
//!
//! An [`Executive`] takes one [`Action`] after another, in whatever order its owner likes: steps of any process, posts of
//! what it sent, deliveries of any item in transit, rollbacks, rises of global virtual time, harvests. Contracts see a
//! network, an end tick and the world of the theory; each action makes of that world, and answers, what the theory's
//! `act` does. Whatever was done, what a component has committed is what the sequential simulator does up to its commit
//! line: `committed` says so, by the soundness that every executive keeps (`facts`).
//!
//! | File | Calls |
//! |---|---|
//! | `executive` | making one, what is read of it, and `into_trace`, which takes it apart |
//! | `acting` | `act`: an action, its answer ([`Done`]) or why it is refused ([`Refused`]); `to_post`: what a post moves |
//! | `marking` | `mark` and `rewind` ([`Mark`]); `replay`: a list of actions |
//! | `chains` | `start`: what a chain is worked out from; `install`: the steps of a chain made here |
//! | `traces` | `trace`: what all components have committed, merged; `lines`: the least commit line |
//! | `laws` | `inverse_law`, `committed_law`: what holds of every executive |
//! | `refused` | [`Refused`] and [`StartRefused`]: what an executive refuses |
#![tactic(auto)]

mod acting;
mod chains;
mod executive;
mod laws;
mod lines;
mod marking;
mod refused;
mod traces;

pub use acting::to_post;
pub use executive::Executive;
pub use marking::Mark;
pub use refused::{Refused, StartRefused};
pub use tw_actions::{Action, Done};
pub use tw_vtime::OutOfMemory;
