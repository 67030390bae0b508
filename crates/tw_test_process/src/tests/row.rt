//! The process of the relay of a row of three. What an executive does with it, and how it stands then, is compared in the program's
//! cases.

ghost use Rattle.std.specs.Prelude.{[], ◌≡◌, IfOk};

use std::alloc::Global;
use std::process::Abort;
use std::sync::Arc;
use tw_models::Model;
use tw_network::Network;
use tw_process::Process;
use tw_vtime::Refusal;

/// The components of a row: a generator of 5 each 2 ticks, a relay with delay 1 and a tally.
fn components(alloc: Global) -> Result<Vec<(String, Model)>, Refusal> {
    let mut components = Vec::new(alloc);
    for (name, model) in [
        ("g", Model::generator(2, 5)),
        ("r", Model::relay(1)),
        ("t", Model::tally()),
    ] {
        let model = model?;
        components.push((String::from_str(alloc, name)?, model))?;
    }
    Ok(components)
}

/// The network that they make in a row, in which the relay has 0=8 at tick 3.
fn row(alloc: Global) -> Result<Network<Model>, Refusal> {
    let couplings = Vec::from_slice(alloc, &[(0, 0, 1, 0), (1, 0, 2, 0)])?;
    let inputs = Vec::from_slice(alloc, &[(3, 1, 0, 8)])?;
    let made = Network::new(alloc, components(alloc)?, couplings, inputs, 100);
    made.map_err(Refusal::from)
}

/// The process of the relay before its first step.
pub(crate) fn at_rest(rt: &impl Abort, alloc: Global) -> Result<Process<Model>, Refusal>
    ensures floor { IfOk result (λ process. process.floor ≡ 0) }
    ensures no_step { IfOk result (λ process. process.process.history ≡ []) }
{
    let network = Arc::new(alloc, row(alloc)?)?;
    assert!(rt; 1 < network.len());
    Ok(Process::new(alloc, network, 1)?)
}

/// The same after so many steps.
fn after_once(rt: &impl Abort, alloc: Global, steps: usize) -> Result<Process<Model>, Refusal> {
    let mut process = at_rest(rt, alloc)?;
    for _ in 0..steps {
        process.step()?;
    }
    Ok(process)
}

/// The same, at the second try where a request for memory is refused: that is answered by 4.
pub(crate) fn after(rt: &impl Abort, alloc: Global, steps: usize) -> Process<Model> {
    match after_once(rt, alloc, steps) {
        Ok(process) => process,
        Err(refusal) => {
            assert!(rt; refusal == Refusal::OutOfMemory);
            after_once(rt, alloc, steps).expect(rt, "memory")
        }
    }
}
