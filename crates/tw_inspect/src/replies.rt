//! Replies to the lines of a script.

ghost use Rattle.std.specs.Prelude.{◌≡◌, ◌++◌, OnOk, OnErr, Ok, Err, Some, codes, string_bytes};
ghost use Rattle.tw_exec.specs.Actions.{reason};
ghost use Rattle.tw_inspect.specs.Replies.{answer_text, done_text, received_text, reply_text, replied};

use std::alloc::AllocError;
use tw_actions::{Done, Received};
use tw_exec::Refused;
use tw_texts::kind_name;
use tw_vtime::Refusal;

/// What is replied to a line of a script.
#[derive(Clone, Copy, Debug, PartialEq, Eq)]
pub enum Reply {
    /// This came of an action, or of a rewinding.
    Done(Done),
    /// Where the components stand is marked.
    Marked,
    /// The line is refused for this, and the executive is as it was.
    Refused(Refused),
}

impl From<Result<Done, Refused>> for Reply {
    ghost from_gives = { λ answer reply. reply ≡ replied answer };

    fn from(answer: Result<Done, Refused>) -> Reply {
        match answer {
            Ok(done) => Reply::Done(done),
            Err(refused) => Reply::Refused(refused),
        }
    }
}

fn add_received(text: &mut String, came: Received) -> Result<(), AllocError>
    ensures { OnOk result (string_bytes text.new ≡ string_bytes text.old ++ received_text came) }
{
    match came {
        Received::Placed => text.push_str("placed"),
        Received::Straggler(undone) => write!(text, "straggler {undone}"),
        Received::Annihilated(undone) => write!(text, "annihilated {undone}"),
        Received::Waiting => text.push_str("waiting"),
    }
}

fn add_done(text: &mut String, done: Done) -> Result<(), AllocError>
    ensures { OnOk result (string_bytes text.new ≡ string_bytes text.old ++ done_text done) }
{
    match done {
        Done::Stepped(stamp, kind) => {
            let kind = kind_name(kind);
            write!(text, "stepped {stamp} {kind}")
        }
        Done::Posted(count) => write!(text, "posted {count}"),
        Done::Received(came) => add_received(text, came),
        Done::Undone(count) => write!(text, "undone {count}"),
        Done::Raised(gvt) => write!(text, "raised {gvt}"),
        Done::Harvested(count) => write!(text, "harvested {count}"),
    }
}

fn add_reply(text: &mut String, reply: Reply) -> Result<(), AllocError>
    ensures { OnOk result (string_bytes text.new ≡ string_bytes text.old ++ reply_text reply) }
{
    match reply {
        Reply::Done(done) => {
            add_done(text, done)?;
            text.push_str("\n")
        }
        Reply::Marked => text.push_str("marked\n"),
        Reply::Refused(refused) => {
            let refusal = Refusal::from(refused);
            write!(text, "refused {refusal}\n")
        }
    }
}

/// Adds the line of a reply, with a newline at its end: what came of an action, as `stepped 3.0.1 ext`,
/// `posted 1`, `placed`, `straggler 3`, `annihilated 0`, `waiting`, `undone 2`, `raised 2.0.1` and
/// `harvested 2`; `marked`; or the number and the name of a refusal, as `refused 15 NoSuch`.
///
/// Where memory is wanting (refusal 4) the text stays as it was.
pub fn push_reply(text: &mut String, reply: Reply) -> Result<(), AllocError>
    ensures ok { OnOk result (string_bytes text.new ≡ string_bytes text.old ++ reply_text reply) }
    ensures err { OnErr result (string_bytes text.new ≡ string_bytes text.old) }
{
    let mut piece = String::new(*text.allocator());
    add_reply(&mut piece, reply)?;
    text.push_str(piece.as_str())
}

/// A reply is the line of what the theory answers to the action, where the theory has an answer: of a
/// refusal for want of memory or of nodes (4, 12) it knows nothing. The call does nothing.
pub fn replies_law()
    ensures done { (done : _) → reply_text (Reply.Done done) ≡ answer_text (Ok done) ++ codes "\n" }
    ensures refused { (why : _) (known : _) → reason why ≡ Some known
        → reply_text (Reply.Refused why) ≡ answer_text (Err known) ++ codes "\n" }
{}
