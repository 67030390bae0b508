//! A round that is told of.

ghost use Rattle.std.specs.Prelude.{◌≡◌, IfOk};
ghost use Rattle.tw_rounds.specs.Stepping.{IsAdvanced};
ghost use Rattle.tw_rounds.specs.Parts.{IsRunning, ComesNearer};

use crate::listener::Listener;
use crate::reached::Reached;
use std::alloc::{AllocError, Global};
use tw_atomic::Atomic;
use tw_network::Network;
use tw_rounds::{Advanced, Receiver, Simulation, advance};

/// Who knows how far a run is.
pub trait Counting {
    /// How far it is, by the records that came here.
    fn reached(&self) -> Reached;
}

/// Makes the next round of a run, as [`tw_rounds::advance`] does. Then the listener hears how far the run is, by the records that the
/// two receivers got.
///
/// Refused for want of memory (4); then the run is of no more use.
pub fn advance_telling<M: Atomic, R: Receiver + Counting, L: Listener>(
    alloc: Global,
    network: &Network<M>,
    simulation: &mut Simulation<M::State>,
    outputs: &mut R,
    transitions: &mut R,
    listener: &mut L,
) -> Result<Advanced, AllocError>
    requires { IsRunning M.valid M.meaning network.now simulation.old }
    ensures step { IfOk result (IsAdvanced R.takes M.valid M.meaning network.now
        simulation.old simulation.new outputs.old outputs.new transitions.old transitions.new) }
    ensures sooner { IfOk result
        (λ step. step ≡ Advanced.Round → ComesNearer simulation.old simulation.new) }
    ensures until { simulation.new.until ≡ simulation.old.until }
{
    let step = advance(alloc, network, simulation, outputs, transitions)?;
    listener.hear(outputs.reached().with(transitions.reached()));
    Ok(step)
}
