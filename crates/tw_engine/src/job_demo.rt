//! The job `demo`: a generator that feeds a tally, run by two workers.

ghost use Rattle.std.specs.Prelude.{◌≡◌, IfOk};
ghost use Rattle.tw_engine.specs.Runs.{IsDemo, demo_network, demo_text, run_text};

use crate::failed::Failed;
use crate::job_run::{Plan, run_network};
use std::alloc::{AllocError, Global};
use std::io::Write;
use std::sync::Wait;
use std::thread::Threads;
use std::time::Clock;
use tw_actions::Fault;
use tw_any_model::AnyModel;
use tw_cli::{RunOptions, Workers};
use tw_models::Model;
use tw_network::Network;
use tw_process::Cancel;

// How it is run: up to tick 5, by two workers, who tell nothing of it.
const PLAN: Plan = Plan {
    until: 5,
    cancel: Cancel::Aggressive,
    options: RunOptions {
        workers: Workers::Count(2),
        burst: 16,
        window: 1000,
        progress: false,
    },
};

/// Runs the demonstration and writes its text.
pub(crate) fn demo<R: Threads + Wait + Clock + Eprint + Sync, W: Write>(
    rt: &R,
    alloc: Global,
    out: &mut W,
) -> Result<Option<Fault>, Failed>
    ensures { IsDemo result (W.contents out.old) (W.contents out.new) }
{
    let network = gen_tally(alloc)?;
    run_network(rt, alloc, network, PLAN, out)
}

/// The network of the demonstration: a generator of period 2 and value 5, and a tally that it feeds.
/// Such a network is refused for want of memory alone.
fn gen_tally(alloc: Global) -> Result<Network<AnyModel>, AllocError>
    ensures { IfOk result (λ n. n ≡ demo_network) }
{
    let mut components = Vec::new(alloc);
    let generator = AnyModel::BuiltIn(Model::generator(2, 5).unwrap());
    components.push((String::from_str(alloc, "g")?, generator))?;
    let tally = AnyModel::BuiltIn(Model::tally().unwrap());
    components.push((String::from_str(alloc, "t")?, tally))?;
    let mut couplings = Vec::new(alloc);
    couplings.push((0, 0, 1, 0))?;
    Network::new(alloc, components, couplings, Vec::new(alloc), 100).map_err(|_| AllocError)
}

/// What the demonstration prints: the text of its sequential run is these six lines.
pub fn demo_law()
    ensures { run_text demo_network 5 ≡ demo_text }
{}
