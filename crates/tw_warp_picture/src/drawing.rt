//! A run is watched, and its picture is written.

ghost use Rattle.std.specs.Prelude.{◌≡◌, IfErr};

use crate::watching::{watch_script, watch_seed};
use crate::whole::picture;
use std::alloc::Global;
use std::io::Write;
use tw_atomic::Atomic;
use tw_play::Player;
use tw_script::Command;
use tw_svg::Svg;
use tw_texts::NotWritten;

/// Has a player obey commands, of at most 2,000 actions the first, and writes the picture of what they did, under a title. What
/// is to be shown is left out, and a refused action is no failure.
///
/// The player's executive is one at its start. The picture is made whole, and then written. Refused by
/// [`NotWritten::OutOfMemory`] (4) where a command or the picture wants memory, and then nothing is written; by
/// [`NotWritten::WriteFailed`] (24) where the writer failed, and then only the writer knows what it took.
pub fn draw_script<M: Atomic, W: Write>(
    alloc: Global,
    player: &mut Player<M>,
    commands: &[Command],
    title: &str,
    out: &mut W,
) -> Result<(), NotWritten>
    ensures unwritten { IfErr result (λ e. e ≡ NotWritten.OutOfMemory → out.new ≡ out.old) }
{
    let Ok(seen) = watch_script(alloc, player, commands) else {
        return Err(NotWritten::OutOfMemory);
    };
    let Ok(picture) = picture(alloc, player.executive(), seen, title) else {
        return Err(NotWritten::OutOfMemory);
    };
    write_picture(&picture, out)
}

/// Has a player take so many actions that a seed gives, at most 2,000 and none where there are no components, and writes the
/// picture of what they did, under a title. It writes and is refused as [`draw_script`] is.
pub fn draw_seed<M: Atomic, W: Write>(
    alloc: Global,
    player: &mut Player<M>,
    seed: u64,
    steps: u64,
    title: &str,
    out: &mut W,
) -> Result<(), NotWritten>
    ensures unwritten { IfErr result (λ e. e ≡ NotWritten.OutOfMemory → out.new ≡ out.old) }
{
    let Ok(seen) = watch_seed(alloc, player, seed, steps) else {
        return Err(NotWritten::OutOfMemory);
    };
    let Ok(picture) = picture(alloc, player.executive(), seen, title) else {
        return Err(NotWritten::OutOfMemory);
    };
    write_picture(&picture, out)
}

/// Hands a picture to a writer.
fn write_picture<W: Write>(picture: &Svg, out: &mut W) -> Result<(), NotWritten>
    ensures { IfErr result (λ e. e ≡ NotWritten.WriteFailed) }
{
    match out.write_all(picture.as_str().as_bytes()) {
        Ok(()) => Ok(()),
        Err(_) => Err(NotWritten::WriteFailed),
    }
}
