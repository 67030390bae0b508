//! Scripts are played, and what is seen of them and drawn is compared with what they must do.

mod scenes;
mod summary;

use crate::tests::scenes::{Net, QUEUE, REWOUND, ROW, Scene, network};
use crate::tests::summary::summary;
use arrayvec::ArrayVec;
use std::alloc::Global;
use std::process::Abort;
use tw_actions::{Action, Cancel};
use tw_exec::Executive;
use tw_models::Model;
use tw_play::Player;
use tw_script::{Command, commands_of_script};
use tw_texts::NotWritten;
use tw_warp_picture::{MOST_ACTIONS, draw_script, draw_seed, watch_script};

/// A player of a network at its start.
fn player(rt: &impl Abort, alloc: Global, net: Net, until: u64, cancel: Cancel) -> Player<Model> {
    let network = network(rt, alloc, net);
    let executive = Executive::with_cancel(alloc, network, until, cancel);
    Player::new(executive.ok().expect(rt, "an executive"))
}

/// The commands of a scene.
fn commands(rt: &impl Abort, alloc: Global, scene: &Scene) -> Vec<Command> {
    let network = network(rt, alloc, scene.net);
    let said = commands_of_script(alloc, scene.script.as_bytes(), &network);
    said.ok().expect(rt, "a script")
}

/// Asserts what is seen of a scene.
fn assert_seen(rt: &impl Abort, alloc: Global, scene: &Scene) {
    let commands = commands(rt, alloc, scene);
    let mut player = player(rt, alloc, scene.net, 10, scene.cancel);
    let seen = watch_script(alloc, &mut player, commands.as_slice());
    let seen = seen.expect(rt, "memory");
    let told = summary(alloc, &seen).expect(rt, "memory");
    assert!(rt; told.as_str() == scene.seen);
}

/// The picture of a scene.
fn picture(rt: &impl Abort, alloc: Global, scene: &Scene, commands: &[Command]) -> Vec<u8> {
    let mut player = player(rt, alloc, scene.net, 10, scene.cancel);
    let mut out = Vec::new(alloc);
    let drawn = draw_script(alloc, &mut player, commands, "a <scene>", &mut out);
    assert!(rt; drawn.is_ok());
    out
}

/// How often a text has a part.
fn count(text: &[u8], part: &str) -> usize {
    let bytes = part.as_bytes();
    text.windows(bytes.len().max(1))
        .filter(|window| *window == bytes)
        .count()
}

/// Asserts that a picture has each part as often as it should.
fn assert_parts(rt: &impl Abort, picture: &[u8], parts: &[(&str, usize)]) {
    for (part, times) in parts {
        assert!(rt; count(picture, part) == *times, "{part}");
    }
}

/// Asserts what is drawn of a scene, twice the same.
fn assert_drawn(rt: &impl Abort, alloc: Global, scene: &Scene) {
    let commands = commands(rt, alloc, scene);
    let first = picture(rt, alloc, scene, commands.as_slice());
    let second = picture(rt, alloc, scene, commands.as_slice());
    assert!(rt; first.as_slice() == second.as_slice());
    assert!(rt; first.as_slice().starts_with(b"<svg ") && first.as_slice().ends_with(b"</svg>\n"));
    assert_parts(rt, first.as_slice(), scene.drawn);
}

#[test]
fn sees_and_draws_what_a_script_does(rt: HostRuntime) {
    for scene in [&ROW, &QUEUE, &REWOUND] {
        assert_seen(&rt, rt.alloc(), scene);
        assert_drawn(&rt, rt.alloc(), scene);
    }
}

/// Asserts how many actions of a seed are drawn, and whether the picture ends before the last.
fn assert_seeded(rt: &impl Abort, alloc: Global, net: Net, steps: u64, parts: &[(&str, usize)]) {
    let mut player = player(rt, alloc, net, 1000, Cancel::Aggressive);
    let mut out = Vec::new(alloc);
    let drawn = draw_seed(alloc, &mut player, 493, steps, "seeded", &mut out);
    assert!(rt; drawn.is_ok());
    assert_parts(rt, out.as_slice(), parts);
}

/// No more actions are drawn than the most; none where there are no components.
#[test]
fn draws_the_first_actions_of_a_seed(rt: HostRuntime) {
    let alloc = rt.alloc();
    let ends = "The picture ends after 2000 actions";
    let all = [
        (
            "4 components \u{b7} 300 actions \u{b7} 45 steps \u{b7} 18 rollbacks",
            1,
        ),
        (ends, 0),
    ];
    assert_seeded(&rt, alloc, Net::Line, 300, &all);
    let most = [(" \u{b7} 2000 actions \u{b7} ", 1), (ends, 1)];
    assert_seeded(&rt, alloc, Net::Line, 2001, &most);
    let none = [
        (
            "0 components \u{b7} 0 actions \u{b7} 0 steps \u{b7} 0 rollbacks",
            1,
        ),
        (ends, 0),
    ];
    assert_seeded(&rt, alloc, Net::Empty, 3000, &none);
}

/// Shown things are no actions, and actions after the most are not played.
#[test]
fn plays_no_more_than_the_most(rt: HostRuntime) {
    let alloc = rt.alloc();
    let mut commands = Vec::new(alloc);
    for _ in 0..MOST_ACTIONS {
        commands.push(Command::Show).expect(&rt, "memory");
        commands
            .push(Command::Act(Action::Raise))
            .expect(&rt, "memory");
    }
    commands.push(Command::Describe(0)).expect(&rt, "memory");
    let mut whole = player(&rt, alloc, Net::Row, 10, Cancel::Aggressive);
    let seen = watch_script(alloc, &mut whole, commands.as_slice()).expect(&rt, "memory");
    assert!(rt; seen.actions.len() == MOST_ACTIONS && !seen.goes_on);
    commands
        .push(Command::Act(Action::Step(0)))
        .expect(&rt, "memory");
    let mut short = player(&rt, alloc, Net::Row, 10, Cancel::Aggressive);
    let seen = watch_script(alloc, &mut short, commands.as_slice()).expect(&rt, "memory");
    assert!(rt; seen.actions.len() == MOST_ACTIONS && seen.goes_on && seen.steps.is_empty());
}

/// A writer with too little room fails.
#[test]
fn says_that_a_writer_failed(rt: HostRuntime) {
    let alloc = rt.alloc();
    let mut player = player(&rt, alloc, Net::Row, 10, Cancel::Aggressive);
    let mut out = ArrayVec::<u8, 64>::new();
    let drawn = draw_script(alloc, &mut player, &[], "row", &mut out);
    assert!(rt; drawn == Err(NotWritten::WriteFailed));
}
