//! The executive, driven by scripts.

use crate::acting::obey;
use crate::chains::{chain, replay};
use crate::made::executive_of;
use crate::scenes::{Part, Scene};
use crate::telling::{tell_component, tell_reply, tell_report, tell_trace};
use std::alloc::Global;
use tw_any_model::AnyModel;
use tw_exec::{Executive, Mark};
use tw_script::{Command, commands_of_script};
use tw_test_refusal_tools::Told;

/// The commands of a script, at the second try where the first finds no memory.
pub(crate) fn commands_of(
    alloc: Global,
    executive: &Executive<AnyModel>,
    script: &str,
) -> Option<Vec<Command>> {
    let network = executive.network();
    match commands_of_script(alloc, script.as_bytes(), network) {
        Err(_) => commands_of_script(alloc, script.as_bytes(), network).ok(),
        made => made.ok(),
    }
}

/// Shows what a command asks to be shown.
fn show(told: &mut Told, alloc: Global, executive: &Executive<AnyModel>, command: Command) {
    match command {
        Command::Describe(component) => tell_component(told, alloc, executive, component),
        _ => tell_report(told, alloc, executive),
    }
}

/// Obeys each line of a script, and tells what came of it.
fn follow(
    told: &mut Told,
    alloc: Global,
    executive: &mut Executive<AnyModel>,
    commands: &[Command],
) {
    let mut marked = None;
    for command in commands {
        match obey(told, alloc, executive, &mut marked, *command) {
            Some(reply) => tell_reply(told, &reply),
            None => show(told, alloc, executive, *command),
        }
    }
}

/// Obeys one line so often, and tells nothing of it.
fn repeat(
    told: &mut Told,
    alloc: Global,
    executive: &mut Executive<AnyModel>,
    commands: &[Command],
    times: usize,
) {
    let mut marked: Option<Mark> = None;
    for _ in 0..times {
        for command in commands {
            let _ = obey(told, alloc, executive, &mut marked, *command);
        }
    }
}

/// Obeys a script: each line once, and tells what came of it; or so often, and tells nothing.
fn play_script(
    told: &mut Told,
    alloc: Global,
    executive: &mut Executive<AnyModel>,
    script: &str,
    times: Option<usize>,
) {
    let Some(commands) = commands_of(alloc, executive, script) else {
        told.give_up("commands_of_script");
        return;
    };
    match times {
        None => follow(told, alloc, executive, commands.as_slice()),
        Some(times) => repeat(told, alloc, executive, commands.as_slice(), times),
    }
}

/// Plays a part of a scene.
fn play_part(told: &mut Told, alloc: Global, executive: &mut Executive<AnyModel>, part: &Part) {
    match *part {
        Part::Chain(component, burst) => chain(told, alloc, executive, component, burst),
        Part::Replay(component) => replay(told, executive, component),
        Part::Lines(script) => play_script(told, alloc, executive, script, None),
        Part::Often(times, line) => play_script(told, alloc, executive, line, Some(times)),
        Part::Trace => tell_trace(told, alloc, executive),
    }
}

/// Plays a scene.
pub(crate) fn play(told: &mut Told, alloc: Global, scene: &Scene) {
    told.begin(scene.name);
    let Some(mut executive) = executive_of(alloc, &scene.run) else {
        told.give_up("new");
        return;
    };
    for part in scene.parts {
        play_part(told, alloc, &mut executive, part);
    }
}
