//! What is answered to a command.

ghost use Rattle.std.specs.Prelude.{◌≡◌, ◌++◌, OnOk, OnErr, string_bytes};
ghost use Rattle.tw_play.specs.Playing.{response_text};

use std::alloc::AllocError;
use tw_inspect::{Reply, push_reply};

/// What is answered to a command.
#[derive(Debug, Drop)]
pub enum Response {
    /// The reply to an action, a mark or a rewind, or why a command is refused.
    Reply(Reply),
    /// A report, or a description.
    Text(String),
}

/// Adds what is written for an answer.
///
/// Where memory is wanting (refusal 4) the text stays as it was.
pub fn push_response(text: &mut String, answer: &Response) -> Result<(), AllocError>
    ensures ok { OnOk result
        (string_bytes text.new ≡ string_bytes text.old ++ response_text answer.now) }
    ensures err { OnErr result (string_bytes text.new ≡ string_bytes text.old) }
{
    match answer {
        Response::Reply(reply) => push_reply(text, *reply),
        Response::Text(shown) => text.push_str(shown.as_str()),
    }
}
