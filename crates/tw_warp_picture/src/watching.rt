//! A player is watched while it obeys.

use crate::notes::{Before, Notes};
use crate::seen::{MOST_ACTIONS, Seen};
use std::alloc::{AllocError, Global};
use tw_atomic::Atomic;
use tw_exec::Refused;
use tw_inspect::Reply;
use tw_play::{Player, Response};
use tw_script::Command;
use tw_seeded::Schedule;

/// Has a player obey commands, and notes what came of each. What is to be shown is left out, and counts for no action. After
/// [`MOST_ACTIONS`] actions no more are played.
///
/// The player's executive is one at its start: of what it did before nothing is known. Refused for want of memory (4), of a
/// command or of what is noted.
pub fn watch_script<M: Atomic>(
    alloc: Global,
    player: &mut Player<M>,
    commands: &[Command],
) -> Result<Seen, AllocError> {
    let mut notes = Notes::new(alloc, player.executive().network().len())?;
    for command in commands {
        if is_shown(*command) {
            continue;
        }
        if notes.is_full() {
            notes.seen.goes_on = true;
            break;
        }
        watch(alloc, player, &mut notes, command)?;
    }
    end_of(player, notes)
}

/// Has a player take so many actions that a seed gives, none where there are no components, and notes what came of each. After
/// [`MOST_ACTIONS`] actions no more are played.
///
/// The player's executive is one at its start. It is refused as [`watch_script`] is.
pub fn watch_seed<M: Atomic>(
    alloc: Global,
    player: &mut Player<M>,
    seed: u64,
    steps: u64,
) -> Result<Seen, AllocError> {
    let mut notes = Notes::new(alloc, player.executive().network().len())?;
    let mut schedule = Schedule::new(seed);
    for _ in 0..steps {
        let Some(action) = schedule.next_action(player.executive()) else {
            break;
        };
        if notes.is_full() {
            notes.seen.goes_on = true;
            break;
        }
        watch(alloc, player, &mut notes, &Command::Act(action))?;
    }
    end_of(player, notes)
}

/// Whether a command changes nothing.
fn is_shown(command: Command) -> bool {
    matches!(command, Command::Show | Command::Describe(_))
}

/// A player obeys a command, and what comes of it is noted.
fn watch<M: Atomic>(
    alloc: Global,
    player: &mut Player<M>,
    notes: &mut Notes,
    command: &Command,
) -> Result<(), AllocError> {
    let before = Before::new(alloc, player.executive(), *command)?;
    let Response::Reply(reply) = player.obey(alloc, *command) else {
        return Ok(());
    };
    let executive = player.executive();
    let action = notes.act(executive, command, &reply)?;
    match reply {
        Reply::Done(done) => notes.note(alloc, executive, action, &before, done),
        Reply::Refused(Refused::OutOfMemory) => Err(AllocError),
        _ => Ok(()),
    }
}

/// What was seen, with how things stand at the end.
fn end_of<M: Atomic>(player: &Player<M>, mut notes: Notes) -> Result<Seen, AllocError> {
    notes.end(player.executive())?;
    Ok(notes.seen)
}
