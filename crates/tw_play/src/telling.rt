//! Commands one after another, with what is written for them.

ghost use Rattle.std.specs.Prelude.{◌≡◌, ◌≢◌, ◌++◌, IfErr, OnOk, string_bytes};
ghost use Rattle.tw_play.specs.Playing.{response_text, wants_memory};
ghost use Rattle.tw_play.specs.Telling.{HasTold, IsCutShort, IsDrawnShort, IsPlayed, IsWhollyDrawn};
ghost use Rattle.tw_seeded.specs.Schedules.{seeded};
ghost use Rattle.tw_texts.specs.Traces.{MovesBytes};

use crate::player::Player;
use crate::response::{Response, push_response};
use std::alloc::Global;
use std::io::Write;
use tw_atomic::Atomic;
use tw_exec::Refused;
use tw_inspect::Reply;
use tw_script::Command;
use tw_seeded::Schedule;
use tw_texts::{NotWritten, write_out, write_portion};

/// Obeys commands in turn, and writes what is answered to each.
///
/// The text goes to the writer in portions, so that memory does not grow with the number of commands. Refused by
/// [`NotWritten::OutOfMemory`] (4) where a command, or what is written for it, wants memory: then no more commands are obeyed,
/// and the writer has the answers before it, with a last line `refused 4 OutOfMemory` where the command wanted it and there was room
/// for the line. A cut, a raise and a rewind want none. Refused by [`NotWritten::WriteFailed`] (24) where the writer failed, and then
/// only the writer knows what it took.
pub fn play_script<M: Atomic, W: Write>(
    alloc: Global,
    player: &mut Player<M>,
    commands: &[Command],
    out: &mut W,
) -> Result<(), NotWritten>
    ensures played { OnOk result
        (IsPlayed M.meaning commands.now player.old player.new (W.contents out.old)
        (W.contents out.new)) }
    ensures wanting { IfErr result
        (λ why. why ≡ NotWritten.OutOfMemory
        → IsCutShort M.meaning commands.now player.old (W.contents out.old) (W.contents out.new)) }
{
    let mut replies = String::new(alloc);
    for command in commands {
        let answer = player.obey(alloc, *command);
        tell(&answer, &mut replies, out)?;
    }
    write_out(&mut replies, out)
}

/// Takes so many actions that a seed gives, and writes what is answered to each; none where there are no components.
///
/// It writes and is refused as [`play_script`] is.
pub fn play_seed<M: Atomic, W: Write>(
    alloc: Global,
    player: &mut Player<M>,
    seed: u64,
    steps: u64,
    out: &mut W,
) -> Result<(), NotWritten>
    ensures played { OnOk result
        (IsWhollyDrawn M.meaning (seeded seed) steps player.old player.new (W.contents out.old)
        (W.contents out.new)) }
    ensures wanting { IfErr result
        (λ why. why ≡ NotWritten.OutOfMemory
        → IsDrawnShort M.meaning (seeded seed) steps player.old (W.contents out.old)
        (W.contents out.new)) }
{
    let mut replies = String::new(alloc);
    let mut schedule = Schedule::new(seed);
    for _ in 0..steps {
        let Some(action) = schedule.next_action(player.executive()) else {
            return write_out(&mut replies, out);
        };
        let answer = player.obey(alloc, Command::Act(action));
        tell(&answer, &mut replies, out)?;
    }
    write_out(&mut replies, out)
}

/// Adds what is written for an answer to a text that goes out in portions. Nothing is told after want of memory.
fn tell<W: Write>(answer: &Response, replies: &mut String, out: &mut W) -> Result<(), NotWritten>
    ensures told { OnOk result
        (MovesBytes (W.contents out.old) (W.contents out.new)
        (string_bytes replies.old ++ response_text answer.now) (string_bytes replies.new)) }
    ensures enough { OnOk result (answer.now ≢ wants_memory) }
    ensures wanting { IfErr result
        (λ why. why ≡ NotWritten.OutOfMemory
        → HasTold answer.now (W.contents out.old) (W.contents out.new) (string_bytes replies.old)) }
{
    let Ok(()) = push_response(replies, answer) else {
        write_out(replies, out)?;
        return Err(NotWritten::OutOfMemory);
    };
    if let Response::Reply(Reply::Refused(Refused::OutOfMemory)) = answer {
        write_out(replies, out)?;
        return Err(NotWritten::OutOfMemory);
    }
    write_portion(replies, out)
}
