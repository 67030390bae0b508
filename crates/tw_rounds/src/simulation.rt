//! A run that is made a round at a time, for callers that hand its records on.

ghost use Rattle.std.specs.Prelude.{◌≡◌, ◌<◌, ◌↔◌, [], IfOk, IsErrOf};
ghost use Rattle.tw_rounds.specs.Parts.{IsSimulating, IsRunning, ComesNearer};
ghost use Rattle.tw_rounds.specs.Stepping.{IsAdvanced};
ghost use Rattle.tw_vtime.specs.Stamps.{max_tick};

use crate::bench::Bench;
use crate::receiver::Receiver;
use crate::refused::SeqRefused;
use crate::round::Round;
use crate::rounds::{Running, make_round, start, start_bench};
use std::alloc::{AllocError, Global};
use std::marker::Model;
use tw_actions::Fault;
use tw_atomic::Atomic;
use tw_network::Network;
use tw_vtime::{MAX_TICK, Stamp};

/// How a run was advanced.
#[derive(Clone, Copy, Debug, PartialEq, Eq)]
pub enum Advanced {
    /// A round was made, and more may follow.
    Round,
    /// The run has ended, without a fault or with this one.
    End(Option<Fault>),
}

/// A run up to an end tick, between two rounds. It keeps no record.
pub struct Simulation<S: Drop> {
    until: u64,
    run: Running<S>,
    bench: Bench,
}

// Written out, since a derived one is spelt field by field, and proved, wherever one is let go.
impl<S: Drop> Drop for Simulation<S> {
    fn drop(self) {
        let Simulation {
            until: _,
            run: _,
            bench: _,
        } = self;
    }
}

impl<S: Drop> Model for Simulation<S> {
    ghost use Rattle.tw_rounds.specs.Parts.{Stage, stage_of};

    ghost Value = { Stage S };

    ghost view = { λ s. stage_of s.until s.run s.bench.agenda.times s.bench.arrivals.bags.items };
}

/// A run of a network up to the end tick `until`, before its first round.
///
/// Refused by [`SeqRefused::BadTick`] (10) exactly where `until` is above 1,099,511,627,774, and by
/// [`SeqRefused::OutOfMemory`] (4) where a growth of memory was refused.
pub fn begin<M: Atomic>(
    alloc: Global,
    network: &Network<M>,
    until: u64,
) -> Result<Simulation<M::State>, SeqRefused>
    ensures begun { IfOk result (IsSimulating M.valid M.meaning network.now []) }
    ensures until { IfOk result (λ simulation. simulation.until ≡ until) }
    ensures bad_tick { IsErrOf result SeqRefused.BadTick ↔ (max_tick < until) }
{
    if until > MAX_TICK {
        return Err(SeqRefused::BadTick);
    }
    network.facts();
    let run = start(alloc, network)?;
    let bench = start_bench(alloc, &run)?;
    Ok(Simulation { until, run, bench })
}

/// Makes the next round of a run, and hands its outputs to one receiver and then its transitions to another, in trace
/// order. With [`Advanced::End`] the run has ended: no round is left, and nothing was handed over; or the round met a
/// limit, and then the run has its outputs, but not the transitions that the second receiver may have got.
///
/// Refused for want of memory (4); then the run is of no more use.
pub fn advance<M: Atomic, R: Receiver>(
    alloc: Global,
    network: &Network<M>,
    simulation: &mut Simulation<M::State>,
    outputs: &mut R,
    transitions: &mut R,
) -> Result<Advanced, AllocError>
    requires { IsRunning M.valid M.meaning network.now simulation.old }
    ensures step { IfOk result (IsAdvanced R.takes M.valid M.meaning network.now
        simulation.old simulation.new outputs.old outputs.new transitions.old transitions.new) }
    ensures sooner { IfOk result
        (λ step. step ≡ Advanced.Round → ComesNearer simulation.old simulation.new) }
    ensures until { simulation.new.until ≡ simulation.old.until }
{
    let end = Stamp::new(simulation.until, 0, 0).unwrap();
    let Some(time) = simulation.run.next_time(&simulation.bench.agenda, end) else {
        return Ok(Advanced::End(None));
    };
    let round = Round { network, time };
    let run = &mut simulation.run;
    let bench = &mut simulation.bench;
    let stop = make_round(alloc, &round, run, bench, outputs, transitions)?;
    if let Some((component, limit)) = stop {
        return Ok(Advanced::End(Some(Fault {
            component,
            stamp: time.transition(),
            limit,
        })));
    }
    Ok(Advanced::Round)
}
