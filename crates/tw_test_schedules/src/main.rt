//! The program that drives executives and exchanges by the numbers of seeds, and compares what they commit with the sequential
//! simulator.
//!
//! Of each network of a table, for both ways of cancelling: an executive obeys the actions that a seed gives, whichever they are, and
//! each component's column must then be just the simulator's records of it before its commit line. And an exchange gives out orders,
//! of which some are given back and the others worked out, kept for a while and handed in out of order, while the executive's own
//! actions, settling and sweeps come between; the trace at the end must be the simulator's.
//!
//! It tells how much was compared, a line for each network and way of cancelling, and the same on each run. Where something differs
//! the line says what, and of which seed.
//!
//! | File | Has |
//! |---|---|
//! | `networks` | the table, and the networks that it means |
//! | `machines` | the files of those that have machines |
//! | `columns` | columns and traces compared with the simulator's records |
//! | `differing` | the lines: how much was done, and what differs, with the seed of which it was seen first |
//! | `acting` | executives by the actions of a seed |
//! | `desk` | an exchange of one network, and the chains that were worked out for it |
//! | `sharing` | what a turn does with an exchange |
//! | `turning` | exchanges by turns that a seed gives |
#![tactic(auto)]

mod acting;
mod columns;
mod desk;
mod differing;
mod machines;
mod networks;
mod sharing;
mod turning;

use networks::{CASES, Case};
use std::alloc::Global;
use std::io;
use tw_process::Cancel;
use tw_seq::{Seq, simulate};
use tw_vtime::Refusal;

/// The simulator's run of a network.
fn seq_of(alloc: Global, case: &Case) -> Result<Seq, Refusal> {
    let network = networks::network_of(alloc, case)?;
    let seq = simulate(alloc, &network, case.until);
    drop(network);
    Ok(seq?)
}

/// Adds the two lines of a network and a way of cancelling.
fn add_lines(
    alloc: Global,
    text: &mut String,
    case: &Case,
    cancel: Cancel,
    seq: &Seq,
) -> Result<(), Refusal> {
    acting::add_line(alloc, text, case, cancel, seq)?;
    turning::add_line(alloc, text, case, cancel, seq)
}

/// Adds the lines of a network.
fn add_case(alloc: Global, text: &mut String, case: &Case) -> Result<(), Refusal> {
    let seq = seq_of(alloc, case)?;
    let added = match add_lines(alloc, text, case, Cancel::Aggressive, &seq) {
        Ok(()) => add_lines(alloc, text, case, Cancel::Lazy, &seq),
        refused => refused,
    };
    drop(seq);
    added
}

/// The lines of all networks.
fn told(alloc: Global) -> Result<String, Refusal> {
    let mut text = String::new(alloc);
    for case in CASES.iter() {
        add_case(alloc, &mut text, case)?;
    }
    Ok(text)
}

fn main(rt: HostRuntime) -> io::Result<()> {
    match told(rt.alloc()) {
        Ok(text) => rt.print(text.as_str()),
        Err(refusal) => println!(rt; "given up: {refusal}"),
    }
}
