//! The job `play`: an executive that is driven by hand, by a script or by a seed.

ghost use Rattle.std.specs.Prelude.{◌≡◌, ◌⊎◌, ℕ, List, IfErr, IfOk};
ghost use Rattle.tw_engine.specs.Jobs.{DriverReads, IsPlay, IsScriptedBy, MeansSome};
ghost use Rattle.tw_engine.specs.Plays.{first, IsScripted, IsSeeded, IsTraced};
ghost use Rattle.tw_engine.specs.Runs.{HasNoRun};
ghost use Rattle.tw_engine.specs.Scripting.{HasNoCommands};
ghost use Rattle.tw_file_network.specs.TreeMeaning.{IsMeaning};
ghost use Rattle.tw_script.specs.Scripts.{IsScript};

use crate::failed::Failed;
use crate::names::NetworkNames;
use crate::reading::{network_in, read_all};
use std::alloc::Global;
use std::io::{Read, Write};
use std::sync::Arc;
use tw_any_model::AnyModel;
use tw_cli::Driver;
use tw_exec::Executive;
use tw_network::Network;
use tw_play::{Player, play_script, play_seed};
use tw_process::Cancel;
use tw_script::{Command, ScriptRefused, commands_of_script};
use tw_texts::write_trace;
use tw_vtime::Refusal;

/// An executive that is driven by hand: up to which end tick, and how steps that are taken back are cancelled.
#[derive(Clone, Copy, Debug)]
pub struct Start {
    /// The end tick.
    pub until: u64,
    /// How steps are cancelled.
    pub cancel: Cancel,
}

/// Does the job `play` of [`alone`](crate::alone) on a file's bytes. It takes no handle, and so it returns.
///
/// It fails as the table of [`alone`](crate::alone) says.
pub fn play<S: Read, W: Write>(
    alloc: Global,
    bytes: &[u8],
    script: &mut S,
    start: Start,
    driver: &Driver<'_>,
    out: &mut W,
) -> Result<(), Failed>
    ensures done { IsPlay driver.now start.until start.cancel result bytes.now
        (S.remaining script.old) (W.contents out.old) (W.contents out.new) }
    ensures reads { (script.new ≡ script.old) ⊎ DriverReads driver.now bytes.now }
{
    match driver {
        Driver::Script(_) => play_by_script(alloc, bytes, script, start, out),
        Driver::Seed { seed, steps } => play_by_seed(alloc, bytes, start, *seed, *steps, out),
    }
}

/// Drives an executive by a script, which is read only where the bytes mean a network.
fn play_by_script<S: Read, W: Write>(
    alloc: Global,
    bytes: &[u8],
    script: &mut S,
    start: Start,
    out: &mut W,
) -> Result<(), Failed>
    ensures done { IsScriptedBy bytes.now start.until start.cancel result
        (S.remaining script.old) (W.contents out.old) (W.contents out.new) }
    ensures reads { (script.new ≡ script.old) ⊎ MeansSome bytes.now }
{
    let network = network_in(alloc, bytes)?;
    let lines = read_all(alloc, script)?;
    play_lines(alloc, network, lines.as_slice(), start, out)
}

/// Drives the executive of a network by the lines of a script.
fn play_lines<W: Write>(
    alloc: Global,
    network: Network<AnyModel>,
    script: &[u8],
    start: Start,
    out: &mut W,
) -> Result<(), Failed>
    ensures { (bytes : List ℕ) → IsMeaning bytes network
        → IsScripted bytes script.now start.until start.cancel result
        (W.contents out.old) (W.contents out.new) }
{
    let commands = commands_in(alloc, script, &network)?;
    let mut player = player_of(alloc, network, start)?;
    play_script(alloc, &mut player, commands.as_slice(), out)?;
    write_committed(alloc, player.into_executive(), out)
}

/// Drives the executive of the network that a file's bytes mean by the actions that a seed gives.
fn play_by_seed<W: Write>(
    alloc: Global,
    bytes: &[u8],
    start: Start,
    seed: u64,
    steps: u64,
    out: &mut W,
) -> Result<(), Failed>
    ensures { IsSeeded bytes.now seed steps start.until start.cancel result
        (W.contents out.old) (W.contents out.new) }
{
    let network = network_in(alloc, bytes)?;
    let mut player = player_of(alloc, network, start)?;
    play_seed(alloc, &mut player, seed, steps, out)?;
    write_committed(alloc, player.into_executive(), out)
}

/// The commands of a script.
///
/// Refused where it has too many lines (9), where one says nothing (22), and for want of memory (4).
pub(crate) fn commands_in(
    alloc: Global,
    script: &[u8],
    network: &Network<AnyModel>,
) -> Result<Vec<Command>, Failed>
    ensures ok { IfOk result (λ commands. IsScript network.now.names script.now commands.items) }
    ensures err { IfErr result (HasNoCommands network.now.names script.now) }
{
    match commands_of_script(alloc, script, network) {
        Ok(commands) => Ok(commands),
        Err(ScriptRefused::BadLine(line)) => Err(Failed::Bad {
            refusal: Refusal::BadScript,
            line: Some(line),
        }),
        Err(ScriptRefused::TooMany) => Err(Failed::from(Refusal::TooMany)),
        Err(ScriptRefused::OutOfMemory) => Err(Failed::Want(Refusal::OutOfMemory)),
    }
}

/// An executive at its start, to be driven by hand. Refused where the end tick is above the greatest one (10), or for want of memory (4).
pub(crate) fn player_of(
    alloc: Global,
    network: Network<AnyModel>,
    start: Start,
) -> Result<Player<AnyModel>, Failed>
    ensures ok { IfOk result (λ player. player ≡ first network start.cancel start.until) }
    ensures err { IfErr result (HasNoRun start.until) }
{
    match Executive::with_cancel(alloc, network, start.until, start.cancel) {
        Ok(executive) => Ok(Player::new(executive)),
        Err(refused) => Err(Failed::from(Refusal::from(refused))),
    }
}

/// Writes the trace of what is committed up to the least commit line, whole: where memory is wanting (4) nothing is written. The executive
/// is given up.
fn write_committed<W: Write>(
    alloc: Global,
    executive: Executive<AnyModel>,
    out: &mut W,
) -> Result<(), Failed>
    ensures { IsTraced executive result (W.contents out.old) (W.contents out.new) }
{
    let network = Arc::try_clone(executive.network())?;
    let Ok(records) = executive.into_trace(alloc) else {
        return Err(Failed::Want(Refusal::OutOfMemory));
    };
    let names = NetworkNames { network: &network };
    let mut text = Vec::new(alloc);
    let Ok(()) = write_trace(alloc, &names, records.as_slice(), &mut text) else {
        return Err(Failed::Want(Refusal::OutOfMemory));
    };
    match out.write_all(text.as_slice()) {
        Ok(()) => Ok(()),
        Err(_) => Err(Failed::NoWrite),
    }
}
