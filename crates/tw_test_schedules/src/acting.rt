//! Executives that obey the actions of seeds.

use crate::columns::count_wrong;
use crate::differing::{Differing, begin_line};
use crate::networks::{Case, executive_of};
use std::alloc::{AllocError, Global};
use tw_any_model::AnyModel;
use tw_exec::{Executive, Refused};
use tw_process::Cancel;
use tw_seeded::Schedule;
use tw_seq::Seq;
use tw_vtime::Refusal;

// How many turns a seed has.
const TURNS: u64 = 2_000;

/// How much was done.
#[derive(Clone, Copy)]
struct Counts {
    turns: u64,
    refused: u64,
    over_limit: u64,
    committed: u64,
}

impl Counts {
    /// Nothing was done.
    fn new() -> Counts {
        Counts {
            turns: 0,
            refused: 0,
            over_limit: 0,
            committed: 0,
        }
    }

    /// Counts an action that was refused.
    fn count(&mut self, refused: Refused) {
        self.refused = self.refused.saturating_add(1);
        if let Refused::OverLimit(_) = refused {
            self.over_limit = self.over_limit.saturating_add(1);
        }
    }
}

/// Takes the next action of a schedule. It may be refused, for want of memory only where the program is to give up.
fn take_turn(
    executive: &mut Executive<AnyModel>,
    schedule: &mut Schedule,
    counts: &mut Counts,
) -> Result<(), AllocError> {
    let Some(action) = schedule.next_action(executive) else {
        return Ok(());
    };
    counts.turns = counts.turns.saturating_add(1);
    match executive.act(action) {
        Ok(_) => Ok(()),
        Err(Refused::OutOfMemory) => Err(AllocError),
        Err(refused) => {
            counts.count(refused);
            Ok(())
        }
    }
}

/// Takes the turns of a seed.
fn play(
    executive: &mut Executive<AnyModel>,
    seed: u64,
    counts: &mut Counts,
) -> Result<(), AllocError> {
    let mut schedule = Schedule::new(seed);
    for _ in 0..TURNS {
        take_turn(executive, &mut schedule, counts)?;
    }
    counts.committed = counts.committed.saturating_add(executive.committed_len());
    Ok(())
}

/// Whether each column is right when an executive has taken the turns of a seed.
fn is_right(
    alloc: Global,
    case: &Case,
    cancel: Cancel,
    seed: u64,
    seq: &Seq,
    counts: &mut Counts,
) -> Result<bool, Refusal> {
    let mut executive = executive_of(alloc, case, cancel)?;
    let played = play(&mut executive, seed, counts);
    let wrong = count_wrong(&executive, seq);
    drop(executive);
    played?;
    Ok(wrong == 0)
}

/// Adds the line of a network and a way of cancelling.
pub(crate) fn add_line(
    alloc: Global,
    text: &mut String,
    case: &Case,
    cancel: Cancel,
    seq: &Seq,
) -> Result<(), Refusal> {
    let mut differing = Differing::new();
    let mut counts = Counts::new();
    for seed in 0..case.seeds {
        let right = is_right(alloc, case, cancel, seed, seq, &mut counts)?;
        differing.expect(seed, "a column", right);
    }
    Ok(tell(text, case, cancel, &counts, differing)?)
}

/// Tells what was done.
fn tell(
    text: &mut String,
    case: &Case,
    cancel: Cancel,
    counts: &Counts,
    differing: Differing,
) -> Result<(), AllocError> {
    let counts = [
        (case.seeds, " seeds"),
        (counts.turns, " turns"),
        (counts.refused, " refused"),
        (counts.over_limit, " over a limit"),
        (counts.committed, " records"),
    ];
    begin_line(text, case.name, way_of(cancel), &counts)?;
    differing.end_line(text, "columns right")
}

/// What a way of cancelling is called.
fn way_of(cancel: Cancel) -> &'static str {
    match cancel {
        Cancel::Aggressive => "aggressive",
        Cancel::Lazy => "lazy",
    }
}
