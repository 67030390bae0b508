//! What a user sees of an executive: its report, the description of a component, and the replies to the lines of a script,
//! each byte for byte.
//!
//! - `reports`: [`report`], global virtual time, how many records are committed, and a line for each component;
//!   [`describe`], the line of one component, and all its messages. [`components_law`] says that no component is left out.
//! - `components`: the line of a component in a report.
//! - `items`: the lines of messages in a description.
//! - `replies`: [`push_reply`], the line that says what came of an action ([`Reply`]). [`replies_law`] ties it to what the
//!   theory answers.
//!
//! They read an executive and change nothing of it. Each is refused for want of memory alone (4). The texts of stamps,
//! times, words and messages are those of tw_texts.
//!
//! What can be seen of a run while it goes on is the [`Board`], of the crate tw_board: a [`Publisher`] posts to it, and
//! each [`Reader`] looks.
#![tactic(auto)]

mod components;
mod items;
mod replies;
mod reports;

pub use replies::{Reply, push_reply, replies_law};
pub use reports::{components_law, describe, report};
pub use tw_board::{Board, Publisher, Reader};
pub use tw_vtime::OutOfMemory;
