//! A script's bytes, its lines, and the commands that they say.

ghost use Rattle.std.specs.Prelude.{◌≡◌, ◌==◌, ◌+◌, ◌<◌, IfOk, IfErr, OnOk, map};
ghost use Rattle.std.specs.List.{slice_split, AllByRecursion as Each};
ghost use Rattle.std.specs.Str.{IsUtf8};
ghost use Rattle.tw_script.specs.OneScript.{ScriptLaw};
ghost use Rattle.tw_script.specs.Scripts.{ends_in_nothing, lines_of, newline, AreSaid, IsNotText, IsScript, IsRefusedFor, SaysNothing};

use crate::command::Command;
use crate::line::{command_of, is_skipped};
use crate::refused::ScriptRefused;
use std::alloc::{AllocError, Global};
use tw_atomic::Atomic;
use tw_network::Network;

// The most lines that a script has.
const MAX_LINES: usize = 100_000;

/// The commands that a script says, against the names of a network.
///
/// A script is UTF-8 text. A line ends with a newline byte; the last one may lack it. A line that is empty or begins with `#`
/// is skipped. Each other line is the line of one command: words with one space between two and none at either end,
/// decimal numbers of a u64 without sign and without leading zeros, names of components, and stamps as `3.0.1`, or `end`.
///
/// Refused where there are more than 100,000 lines (9); else at the first line that is not UTF-8, else at the first that is
/// the line of no command, with its number from 1 (22); and for want of memory (4).
pub fn commands_of_script<M: Atomic>(
    alloc: Global,
    bytes: &[u8],
    network: &Network<M>,
) -> Result<Vec<Command>, ScriptRefused>
    ensures script { IfOk result (λ commands. IsScript network.now.names bytes.now commands.items) }
    ensures refused { IfErr result (IsRefusedFor network.now.names bytes.now) }
{
    let lines = lines_of(alloc, bytes)?;
    if lines.len() > MAX_LINES {
        return Err(ScriptRefused::TooMany);
    }
    let texts = texts_of(alloc, lines.as_slice())?;
    commands_of(alloc, texts.as_slice(), network)
}

/// Against the names of a network a text is the script of at most one list of commands, and is refused for at most one reason,
/// with one first bad line; never both. It does nothing.
pub fn script_law()
    ensures { ScriptLaw }
{}

/// The lines of a text.
fn lines_of<'a>(alloc: Global, bytes: &'a [u8]) -> Result<Vec<&'a [u8]>, AllocError>
    ensures { IfOk result (λ lines. map (λ line. line.now) lines.items ≡ lines_of bytes.now) }
{
    let mut lines = pieces_of(alloc, bytes)?;
    if ends_in_nothing(lines.as_slice()) {
        lines.pop();
    }
    Ok(lines)
}

/// What stands between the newlines of a text, before the first and after the last.
fn pieces_of<'a>(alloc: Global, bytes: &'a [u8]) -> Result<Vec<&'a [u8]>, AllocError>
    ensures { IfOk result
        (λ pieces. map (λ piece. piece.now) pieces.items ≡ slice_split
        (λ b. b == newline) bytes.now) }
{
    bytes.split(|byte| *byte == b'\n').collect(alloc)
}

/// Whether the last of these is empty.
fn ends_in_nothing(pieces: &[&[u8]]) -> bool
    ensures { result ≡ ends_in_nothing (map (λ piece. piece.now) pieces.now) }
{
    match pieces.last() {
        Some(last) => last.is_empty(),
        None => false,
    }
}

/// Lines as texts; the first that is not UTF-8 is refused.
fn texts_of<'a>(alloc: Global, lines: &[&'a [u8]]) -> Result<Vec<&'a str>, ScriptRefused>
    ensures texts { IfOk result
        (λ texts. map (λ text. text.now) texts.items ≡ map (λ line. line.now) lines.now) }
    ensures utf8 { OnOk result (Each IsUtf8 (map (λ line. line.now) lines.now)) }
    ensures refused { IfErr result (IsNotText (map (λ line. line.now) lines.now)) }
{
    let mut texts = Vec::with_capacity(alloc, lines.len())?;
    for i in 0..lines.len() {
        let Ok(text) = str::from_utf8(lines[i]) else {
            return Err(bad_line(i));
        };
        texts.push(text)?;
    }
    Ok(texts)
}

/// The commands that lines say; the first that says nothing is refused.
fn commands_of<M: Atomic>(
    alloc: Global,
    lines: &[&str],
    network: &Network<M>,
) -> Result<Vec<Command>, ScriptRefused>
    ensures said { IfOk result
        (λ commands. AreSaid network.now.names (map (λ line. line.now) lines.now) commands.items) }
    ensures refused { IfErr result
        (SaysNothing network.now.names (map (λ line. line.now) lines.now)) }
{
    let mut commands = Vec::new(alloc);
    for i in 0..lines.len() {
        let line = lines[i];
        if is_skipped(line) {
            continue;
        }
        let Some(command) = command_of(line, network) else {
            return Err(bad_line(i));
        };
        commands.push(command)?;
    }
    Ok(commands)
}

/// The refusal of the line at a place: lines are numbered from 1.
fn bad_line(place: usize) -> ScriptRefused
    requires { place < 18446744073709551615 }
    ensures { result ≡ ScriptRefused.BadLine (place + 1) }
{
    ScriptRefused::BadLine(place as u64 + 1)
}
