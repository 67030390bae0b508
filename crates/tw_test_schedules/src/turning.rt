//! Exchanges by turns that seeds give.

ghost use Rattle.std.specs.Prelude.{◌≡◌};

use crate::columns::{count_wrong, is_trace};
use crate::desk::{Desk, Given};
use crate::differing::{Differing, begin_line};
use crate::networks::{Case, executive_of};
use crate::sharing::{Counts, Sharing};
use std::alloc::{AllocError, Global};
use std::marker::Brand;
use tw_any_model::AnyModel;
use tw_atomic::Atomic;
use tw_board::Board;
use tw_exec::Executive;
use tw_process::Cancel;
use tw_seq::Seq;
use tw_vtime::Refusal;
use tw_workers::{Exchange, State};

// Within how many turns each seed must come to its end.
const TURNS: u64 = 20_000;

/// How a seed ended: how the run stood, the executive, and how many draws that were given back changed something.
#[derive(Drop)]
struct Ended<M: Atomic> {
    state: Result<State, AllocError>,
    executive: Executive<M>,
    changed: u64,
}

/// Takes turns until the run has ended, or there were too many.
fn play<M: Atomic, H: Given<M>>(
    sharing: &mut Sharing<M, H>,
    counts: &mut Counts,
) -> Result<State, AllocError> {
    for _ in 0..TURNS {
        match sharing.take_turn(counts)? {
            None | Some(State::Going) => {}
            Some(ended) => return Ok(ended),
        }
    }
    Ok(State::Going)
}

/// Drives an exchange by the numbers of a seed.
fn share<M: Atomic, H: Given<M>>(
    alloc: Global,
    exchange: Exchange<M>,
    seed: u64,
    counts: &mut Counts,
) -> Ended<M>
    requires network { exchange.executive.network ≡ H.network }
    requires until { exchange.executive.until ≡ H.until }
{
    let desk: Desk<M, H> = Desk::new(exchange);
    let mut sharing = Sharing::new(alloc, desk, seed);
    let state = play(&mut sharing, counts);
    let (executive, changed) = sharing.end();
    Ended {
        state,
        executive,
        changed,
    }
}

/// An exchange of an executive.
fn exchange_of(
    alloc: Global,
    executive: Executive<AnyModel>,
) -> Result<Exchange<AnyModel>, AllocError> {
    let (_, publisher) = Board::new(alloc)?;
    match Exchange::new(alloc, executive, publisher) {
        Ok(exchange) => Ok(exchange),
        Err((_, _, error)) => Err(error),
    }
}

/// Whether a run that stands so has ended as the simulator's.
fn is_end(state: State, seq: &Seq) -> bool {
    match state {
        State::Going => false,
        State::Complete => seq.fault.is_none(),
        State::Fault(fault) => seq.fault == Some(fault),
    }
}

/// Compares how a seed ended with the simulator.
fn compare(
    alloc: Global,
    seed: u64,
    ended: &Ended<AnyModel>,
    seq: &Seq,
    differing: &mut Differing,
) -> Result<(), AllocError> {
    let state = ended.state?;
    let executive = &ended.executive;
    let trace = executive.trace(alloc)?;
    differing.expect(seed, "a draw that was given back", ended.changed == 0);
    differing.expect(seed, "its end", is_end(state, seq));
    differing.expect(seed, "a column", count_wrong(executive, seq) == 0);
    differing.expect(
        seed,
        "the trace",
        is_trace(trace.as_slice(), seq.records.as_slice()),
    );
    Ok(())
}

/// Drives an exchange of a network by the numbers of a seed, and compares how it ends.
fn try_seed(
    alloc: Global,
    case: &Case,
    cancel: Cancel,
    seed: u64,
    seq: &Seq,
    counts: &mut Counts,
    differing: &mut Differing,
) -> Result<(), Refusal> {
    let executive = executive_of(alloc, case, cancel)?;
    let exchange = exchange_of(alloc, executive)?;
    let ended = share::<AnyModel, Brand>(alloc, exchange, seed, counts);
    let compared = compare(alloc, seed, &ended, seq, differing);
    drop(ended);
    Ok(compared?)
}

/// Adds the line of a network and a way of cancelling.
pub(crate) fn add_line(
    alloc: Global,
    text: &mut String,
    case: &Case,
    cancel: Cancel,
    seq: &Seq,
) -> Result<(), Refusal> {
    let mut differing = Differing::new();
    let mut counts = Counts::new();
    for seed in 0..case.seeds {
        try_seed(alloc, case, cancel, seed, seq, &mut counts, &mut differing)?;
    }
    Ok(tell(text, case, cancel, counts, differing)?)
}

/// What a run that is shared is called by its way of cancelling.
fn shared_way_of(cancel: Cancel) -> &'static str {
    match cancel {
        Cancel::Aggressive => "aggressive shared",
        Cancel::Lazy => "lazy shared",
    }
}

/// Tells what was done.
fn tell(
    text: &mut String,
    case: &Case,
    cancel: Cancel,
    counts: Counts,
    differing: Differing,
) -> Result<(), AllocError> {
    let counts = [
        (case.seeds, " seeds"),
        (counts.turns, " turns"),
        (counts.orders, " orders"),
        (counts.given_back, " given back"),
        (counts.stale, " stale"),
        (counts.steps, " steps"),
    ];
    begin_line(text, case.name, shared_way_of(cancel), &counts)?;
    differing.end_line(text, "traces right")
}
