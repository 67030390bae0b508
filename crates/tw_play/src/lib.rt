//! An executive that is driven by hand, command by command.
//!
//! A [`Player`] has an executive and keeps at most one mark. It obeys a [`Command`] and answers with what is written for it
//! ([`Response`]): the reply to an action, a mark or a rewind, or the text of a report or a description. Contracts name the
//! theory's actions and the texts alone (`IsObeyed`). [`play_script`] and [`play_seed`] obey many, and write the answers as they come.
#![tactic(auto)]

mod player;
mod response;
mod telling;

pub use player::Player;
pub use response::{Response, push_response};
pub use telling::{play_script, play_seed};
