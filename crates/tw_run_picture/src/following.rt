//! The rounds of a run, of which is kept what the picture shows.

ghost use Rattle.std.specs.Prelude.{◌≡◌, ◌⊎◌, [], None, IfOk};
ghost use Rattle.tw_network.specs.Contents.{network_of};
ghost use Rattle.tw_rounds.specs.Parts.{IsSimulating};
ghost use Rattle.tw_theory.specs.Simulator.{sequential};

use crate::watched::Watched;
use std::alloc::{AllocError, Global};
use tw_atomic::Atomic;
use tw_network::Network;
use tw_rounds::{Advanced, Fault, Simulation, advance, begin};

/// Makes the rounds of a run up to a tick and keeps what the picture shows, to the end of the run or of the picture. Answers the
/// fault that ended the run, if it did. The only error is want of memory, where the tick is one that a run may end at.
pub(crate) fn follow<M: Atomic>(
    alloc: Global,
    network: &Network<M>,
    until: u64,
    watched: &mut Watched,
) -> Result<Option<Fault>, AllocError>
    ensures { let run = sequential (network_of M.meaning network.now) until in
        IfOk result (λ fault. (fault ≡ None) ⊎ (fault ≡ run.fault)) }
{
    let Ok(mut simulation) = begin(alloc, network, until) else {
        return Err(AllocError);
    };
    make_rounds(alloc, network, &mut simulation, watched)
}

/// Makes the rounds of a run that has begun.
fn make_rounds<M: Atomic>(
    alloc: Global,
    network: &Network<M>,
    simulation: &mut Simulation<M::State>,
    watched: &mut Watched,
) -> Result<Option<Fault>, AllocError>
    requires { IsSimulating M.valid M.meaning network.now [] simulation.old }
    ensures { let run = sequential (network_of M.meaning network.now) simulation.old.until in
        IfOk result (λ fault. (fault ≡ None) ⊎ (fault ≡ run.fault)) }
{
    let mut outputs = Vec::new(alloc);
    let mut transitions = Vec::new(alloc);
    loop {
        let step = advance(alloc, network, simulation, &mut outputs, &mut transitions)?;
        match step {
            Advanced::Round => {
                outputs.append(&mut transitions)?;
                if watched.take(alloc, network, outputs.as_slice())? {
                    return Ok(None);
                }
                outputs.clear();
            }
            Advanced::End(fault) => {
                if watched.take(alloc, network, outputs.as_slice())? {
                    return Ok(None);
                }
                return Ok(fault);
            }
        }
    }
}
