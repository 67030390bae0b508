//! How a run ends, told while it is made.

ghost use Rattle.std.specs.Prelude.{◌≡◌, ◌<◌, ◌↔◌, IfOk, IsErrOf};
ghost use Rattle.tw_network.specs.Contents.{network_of};
ghost use Rattle.tw_rounds.specs.Parts.{IsRunning};
ghost use Rattle.tw_theory.specs.Simulator.{sequential};
ghost use Rattle.tw_vtime.specs.Stamps.{max_tick};

use crate::listener::Listener;
use crate::reached::Reached;
use std::alloc::{AllocError, Global};
use tw_atomic::Atomic;
use tw_network::Network;
use tw_rounds::{Advanced, Fault, SeqRefused, Simulation, advance, begin, meets_no_limit};
use tw_vtime::MAX_TICK;

/// The limit fault that ends the run of a network up to the end tick `until`, or `None`. No record is kept. After
/// each round the listener hears the stamp that this pass has reached, with 0 records, since nothing is written yet.
/// Where the models tell that no limit can be met ([`meets_no_limit`]), no round is made.
///
/// Refused by [`SeqRefused::BadTick`] (10) exactly where `until` is above 1,099,511,627,774, and by
/// [`SeqRefused::OutOfMemory`] (4) where a growth of memory was refused.
pub fn outcome_telling<M: Atomic, L: Listener>(
    alloc: Global,
    network: &Network<M>,
    until: u64,
    listener: &mut L,
) -> Result<Option<Fault>, SeqRefused>
    ensures fault { IfOk result
        (λ fault. fault ≡ (sequential (network_of M.meaning network.now) until).fault) }
    ensures bad_tick { IsErrOf result SeqRefused.BadTick ↔ (max_tick < until) }
{
    if until <= MAX_TICK && meets_no_limit(network, until) {
        return Ok(None);
    }
    let simulation = begin(alloc, network, until)?;
    Ok(run_out(alloc, network, simulation, listener)?)
}

/// Makes all rounds of a run that are left, and answers the limit fault that ends it, or `None`. No record is kept. After each round
/// the listener hears the stamp that this pass has reached, with 0 records, since nothing is written.
///
/// Refused for want of memory (4).
pub fn run_out<M: Atomic, L: Listener>(
    alloc: Global,
    network: &Network<M>,
    simulation: Simulation<M::State>,
    listener: &mut L,
) -> Result<Option<Fault>, AllocError>
    requires { IsRunning M.valid M.meaning network.now simulation }
    ensures { let until = simulation.until in IfOk result
        (λ fault. fault ≡ (sequential (network_of M.meaning network.now) until).fault) }
{
    let mut simulation = simulation;
    let mut outputs = Reached::nothing();
    let mut transitions = Reached::nothing();
    loop {
        let step = advance(
            alloc,
            network,
            &mut simulation,
            &mut outputs,
            &mut transitions,
        )?;
        match step {
            Advanced::Round => listener.hear(outputs.with(transitions).unwritten()),
            Advanced::End(fault) => return Ok(fault),
        }
    }
}
