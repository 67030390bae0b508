//! Scripts and the schedules that seeds give: each form of a line, and the generator's published words. The lines that are refused
//! are tried on the program.

use super::helpers::{G, R, T, row};
use rand_core::utils::NextWord;
use rand_pcg::Pcg32;
use std::process::Abort;
use tw_any_model::AnyModel;
use tw_exec::{Action, Executive};
use tw_script::{Command, commands_of_script};
use tw_seeded::Schedule;
use tw_vtime::Stamp;

/// A script that has each form of a line, and some that say nothing.
const SCRIPT: &[u8] =
    b"step r\npost g\n# a note, with \xc3\xa9 in it\n\ndeliver t 18446744073709551615
back g 1099511627774.8388607.1\nback r end\n#\nraise\nharvest t\nmark\nrewind\nshow\nshow r";

#[test]
fn each_form_of_a_line_says_its_command(rt: HostRuntime) {
    let alloc = rt.alloc();
    let network = row(&rt, alloc);
    let last = Stamp::new(1_099_511_627_774, 8_388_607, 1).expect(&rt, "a stamp");
    let wanted = [
        Command::Act(Action::Step(R)),
        Command::Act(Action::Post(G)),
        Command::Act(Action::Deliver(T, 18_446_744_073_709_551_615)),
        Command::Act(Action::Back(G, last)),
        Command::Act(Action::Back(R, Stamp::END)),
        Command::Act(Action::Raise),
        Command::Act(Action::Harvest(T)),
        Command::Mark,
        Command::Rewind,
        Command::Show,
        Command::Describe(R),
    ];
    let said = commands_of_script(alloc, SCRIPT, &network).expect(&rt, "a script");
    assert!(rt; said.as_slice() == wanted.as_slice());
}

/// Asserts that a seed gives these actions to an executive that does not move.
fn assert_gives(rt: &impl Abort, executive: &Executive<AnyModel>, seed: u64, actions: &[Action]) {
    let mut schedule = Schedule::new(seed);
    for action in actions {
        assert!(rt; schedule.next_action(executive) == Some(*action));
    }
}

/// The actions of these seeds were worked out apart from this program.
#[test]
fn a_seed_gives_its_actions(rt: HostRuntime) {
    let alloc = rt.alloc();
    let network = row(&rt, alloc);
    let executive = Executive::new(alloc, network, 10).expect(&rt, "memory");
    let first = [
        Action::Post(T),
        Action::Step(G),
        Action::Step(R),
        Action::Deliver(R, 0),
        Action::Harvest(T),
    ];
    assert_gives(&rt, &executive, 0, &first);
    let second = [
        Action::Raise,
        Action::Raise,
        Action::Raise,
        Action::Post(T),
        Action::Post(G),
    ];
    assert_gives(&rt, &executive, 42, &second);
}

/// The first words of the generator's own demonstration (O'Neill, pcg32-demo, state 42, stream 54).
#[test]
fn the_generator_has_its_published_words(rt: HostRuntime) {
    let mut random = Pcg32::new(42, 54);
    for word in [
        0xa15c_02b7,
        0x7b47_f409,
        0xba1d_3330,
        0x83d2_f293,
        0xbfa4_784b,
        0xcbed_606e,
    ] {
        assert!(rt; random.next_word() == word);
    }
}
