//! What an executive is asked and what it answers: plain data, the same for the code and for the definitions.
//!
//! - `action`: [`Action`], what is asked; [`Done`] and [`Received`], what is answered where it is not refused.
//! - `cancel`: [`Cancel`], how the messages of undone steps are cancelled.
//! - `chain`: [`Cause`], why a chain, made apart from its process, has no more steps; [`Finished`] and [`Stop`], how many
//!   of them its process made, and why no more.
//! - `fault`: [`Fault`], the limit that ends a run, who met it, and when.
//! - `run_state`: [`RunState`], how a run stands.
//! - `setting`: [`MAX_WORKERS`] and [`MAX_BURST`], what a run by workers may be set to.
#![tactic(auto)]

mod action;
mod cancel;
mod chain;
mod fault;
mod run_state;
mod setting;

pub use action::{Action, Done, Received};
pub use cancel::Cancel;
pub use chain::{Cause, Finished, Stop};
pub use fault::Fault;
pub use run_state::RunState;
pub use setting::{MAX_BURST, MAX_WORKERS};
