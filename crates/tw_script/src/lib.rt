//! Scripts: what users write to drive an executive by hand.
//!
//! A script is a text of lines, each a [`Command`]: an action of the executive, a mark or a rewind to it, or something to be
//! shown. [`commands_of_script`] reads a whole script against the names of a network, or tells the first line that says
//! nothing.
//!
//! Contracts say what a script means by what is written, and not by how it is read: a line says a command where it is the
//! line of that command (`line_of`). It is the line of no other, so a text is the script of at most one list of
//! commands ([`script_law`]).
//!
//! | File | Says |
//! |---|---|
//! | `command` | what a line can say |
//! | `script` | a script's bytes, its lines, and the commands that they say |
//! | `line` | one line |
//! | `words` | the numbers and stamps in it |
//! | `refused` | why a script says nothing ([`ScriptRefused`]) |
#![tactic(auto)]

mod command;
mod line;
mod refused;
mod script;
mod words;

pub use command::Command;
pub use refused::ScriptRefused;
pub use script::{commands_of_script, script_law};
