//! The program that has each of its requests for memory refused in its turn: what lies below the executive.
//!
//! It plays scenes, which are tables. Each call that takes memory is made until it stands: where it is refused for want of memory
//! (4), contents must be as they were before, and it is made again. So whichever single request is refused, the program tells what
//! it tells undisturbed; where contents changed it tells so.
//!
//! | File | Plays |
//! |---|---|
//! | `pools`, `heaps` | nodes in lists, and the heap of pending messages |
//! | `scenes`, `processes` | one process: its steps, what comes to it, chains, and what it commits |
//! | `mails` | mailboxes |
//! | `columns` | columns of committed records, as one trace |
//! | `networks` | networks in code, flat and as trees |
//! | `messages` | nothing: messages, and how numbers and stamps of them are told |
#![tactic(auto)]

mod columns;
mod heaps;
mod mails;
mod messages;
mod networks;
mod pools;
mod processes;
mod scenes;

use std::alloc::{AllocError, Global};
use std::io;
use tw_test_refusal_tools::Told;

/// What is told, at the second try where the first finds no memory.
fn told_of(alloc: Global) -> Result<Told, AllocError> {
    match Told::new(alloc) {
        Err(_) => Told::new(alloc),
        made => made,
    }
}

fn main(rt: HostRuntime) -> io::Result<()> {
    let alloc = rt.alloc();
    let mut told = told_of(alloc)?;
    pools::play(&mut told, alloc);
    heaps::play(&mut told, alloc);
    mails::play(&mut told, alloc);
    for scene in scenes::SCENES.iter() {
        processes::play(&mut told, alloc, scene);
    }
    columns::play(&mut told, alloc);
    networks::play(&mut told, alloc);
    rt.print(told.text())
}
