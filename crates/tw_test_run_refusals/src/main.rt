//! The program that has each of its requests for memory refused in its turn: what the executive, the exchange, runs by workers, the
//! board, reports and readers do then.
//!
//! It plays scenes, which are tables. Each call that takes memory is made until it stands: where it is refused for want of memory
//! (4), contents must be as they were before, and it is made again. So whichever single request is refused, the program tells what
//! it tells undisturbed; where contents changed it tells so.
//!
//! | File | Plays |
//! |---|---|
//! | `scenes` | the tables |
//! | `made` | networks, executives, exchanges |
//! | `playing` | the executive: scripts, chains and replays, its reports and its trace |
//! | `acting` | one action, a mark, a rewinding |
//! | `chains` | chains worked out and installed, lists of actions |
//! | `looking` | nothing: the sum over the contents of an executive |
//! | `telling` | replies, reports, descriptions and traces |
//! | `exchanging` | the exchange: orders, settling, sweeps, states |
//! | `running` | runs by workers, and the board |
//! | `reading` | files and their faults, command lines, scripts that are refused |
#![tactic(auto)]

mod acting;
mod chains;
mod exchanging;
mod looking;
mod made;
mod playing;
mod reading;
mod running;
mod scenes;
mod telling;

use std::alloc::{AllocError, Global};
use std::io;
use tw_test_refusal_tools::Told;

/// What is told, at the second try where the first finds no memory.
fn told_of(alloc: Global) -> Result<Told, AllocError> {
    match Told::new(alloc) {
        Err(_) => Told::new(alloc),
        made => made,
    }
}

fn main(rt: HostRuntime) -> io::Result<()> {
    let alloc = rt.alloc();
    let mut told = told_of(alloc)?;
    for scene in scenes::SCENES.iter() {
        playing::play(&mut told, alloc, scene);
    }
    for scene in scenes::SHARED.iter() {
        exchanging::play(&mut told, alloc, scene);
    }
    running::play(&rt, &mut told, alloc);
    reading::play(&mut told, alloc);
    rt.print(told.text())
}
