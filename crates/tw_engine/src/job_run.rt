//! The job `run`: a run by workers, or in order where that is left to the program and workers would not pay.

ghost use Rattle.std.specs.Arc.{arc_value};
ghost use Rattle.std.specs.Prelude.{◌≡◌, ◌≤◌, IfErr, IfOk};
ghost use Rattle.tw_any_model.specs.AnyModel.{any_meaning};
ghost use Rattle.tw_exec.specs.Running.{start};
ghost use Rattle.tw_engine.specs.Runs.{HasNoRun, IsRunByWorkers, IsShown, IsUnmade, IsWhole, IsWorked};
ghost use Rattle.tw_vtime.specs.Stamps.{max_tick};
ghost use Rattle.tw_workers_progress.specs.Settings.{IsSet};

use crate::choosing::workers_of;
use crate::failed::Failed;
use crate::faults::last_line;
use crate::job_seq::simulate;
use crate::names::NetworkNames;
use crate::reading::{Run, network_in};
use crate::telling::Teller;
use serde_json::Value;
use std::alloc::Global;
use std::io::Write;
use std::sync::{Arc, Wait};
use std::thread::Threads;
use std::time::Clock;
use tw_actions::{Fault, MAX_BURST, MAX_WORKERS};
use tw_any_model::AnyModel;
use tw_cli::RunOptions;
use tw_exec::Executive;
use tw_msgs::Record;
use tw_network::Network;
use tw_process::Cancel;
use tw_stats::MadeRun;
use tw_texts::write_trace;
use tw_vtime::{MAX_TICK, Refusal};
use tw_workers::Setting;
use tw_workers_progress::run_by_workers;

/// A run to be made: up to which end tick, how steps that are taken back are cancelled, and how its workers are set.
#[derive(Clone, Copy)]
pub(crate) struct Plan {
    pub(crate) until: u64,
    pub(crate) cancel: Cancel,
    pub(crate) options: RunOptions,
}

/// A run that workers made.
#[derive(Drop)]
pub(crate) struct Made {
    /// Of this network.
    pub(crate) network: Arc<Network<AnyModel>>,
    /// Its records, in the order of its trace.
    pub(crate) records: Vec<Record>,
    /// The limit fault that ended it.
    pub(crate) fault: Option<Fault>,
}

/// A run that is made, of the network of a file.
#[derive(Clone, Copy)]
pub(crate) struct FileRun<'a> {
    /// What the file says.
    pub(crate) value: &'a Value,
    /// The network that this means.
    pub(crate) network: &'a Network<AnyModel>,
    /// The run of it.
    pub(crate) run: MadeRun<'a>,
}

/// Does the job `run` of [`engine`](crate::engine) on a file's bytes, and answers the fault that the trace ends in, if it ends in one.
///
/// It fails as the table of [`engine`](crate::engine) says.
pub(crate) fn run<R: Threads + Wait + Clock + Eprint + Sync, W: Write>(
    rt: &R,
    alloc: Global,
    bytes: &[u8],
    plan: Plan,
    out: &mut W,
) -> Result<Option<Fault>, Failed>
    ensures { IsRunByWorkers bytes.now plan.cancel plan.until result
        (W.contents out.old) (W.contents out.new) }
{
    let network = network_in(alloc, bytes)?;
    run_network(rt, alloc, network, plan, out)
}

/// Runs a network as it is planned, and writes its text.
pub(crate) fn run_network<R: Threads + Wait + Clock + Eprint + Sync, W: Write>(
    rt: &R,
    alloc: Global,
    network: Network<AnyModel>,
    plan: Plan,
    out: &mut W,
) -> Result<Option<Fault>, Failed>
    ensures { IsWorked (start any_meaning network plan.cancel plan.until) result
        (W.contents out.old) (W.contents out.new) }
{
    match workers_of(rt, alloc, &network, plan.until, plan.options) {
        Some(workers) => {
            let made = make(rt, alloc, network, plan, workers)?;
            let records = made.records.as_slice();
            write_made(alloc, &made.network, records, made.fault, out)
        }
        None => {
            let run = Run {
                network: &network,
                until: plan.until,
            };
            let mut teller = Teller::new(rt, plan.until, plan.options.progress);
            simulate(alloc, &run, &mut teller, out)
        }
    }
}

/// Has so many workers make a network's run. Where the plan says so, a thread tells on standard error how far it is.
///
/// Refused where the end tick is above the greatest one (10), for want of memory (4), or where a process would hold too many nodes (12).
pub(crate) fn make<R: Threads + Wait + Clock + Eprint + Sync>(
    rt: &R,
    alloc: Global,
    network: Network<AnyModel>,
    plan: Plan,
    workers: u64,
) -> Result<Made, Failed>
    ensures network { IfOk result (λ made. arc_value made.network ≡ network) }
    ensures whole { IfOk result (IsWhole plan.until) }
    ensures err { IfErr result (IsUnmade network plan.cancel plan.until) }
{
    let executive = start_executive(alloc, network, plan.until, plan.cancel)?;
    let network = Arc::try_clone(executive.network())?;
    let setting = setting_of(plan.options, workers);
    match run_by_workers(rt, alloc, executive, setting, plan.options.progress) {
        Ok((records, fault)) => Ok(Made {
            network,
            records,
            fault,
        }),
        Err(why) => Err(Failed::Want(why)),
    }
}

/// Writes the text of a run that is made: the lines of its records, and that of its fault.
fn write_made<W: Write>(
    alloc: Global,
    network: &Network<AnyModel>,
    records: &[Record],
    fault: Option<Fault>,
    out: &mut W,
) -> Result<Option<Fault>, Failed>
    ensures { IsShown network.now records.now fault result
        (W.contents out.old) (W.contents out.new) }
{
    let names = NetworkNames { network };
    let last = last_line(alloc, &names, &fault)?;
    write_trace(alloc, &names, records, out)?;
    match out.write_all(last.as_bytes()) {
        Ok(()) => Ok(fault),
        Err(_) => Err(Failed::NoWrite),
    }
}

/// An executive at its start. Refused where the end tick is above the greatest one (10), or for want of memory (4).
fn start_executive(
    alloc: Global,
    network: Network<AnyModel>,
    until: u64,
    cancel: Cancel,
) -> Result<Executive<AnyModel>, Failed>
    ensures start { IfOk result (λ e. e ≡ start any_meaning network cancel until) }
    ensures small { IfOk result (λ _. until ≤ max_tick) }
    ensures err { IfErr result (HasNoRun until) }
{
    match Executive::with_cancel(alloc, network, until, cancel) {
        Ok(executive) => Ok(executive),
        Err(refused) => Err(Failed::from(Refusal::from(refused))),
    }
}

/// The setting of a run by so many workers, each number brought within its range.
fn setting_of(options: RunOptions, workers: u64) -> Setting
    ensures { IsSet result }
{
    Setting {
        workers: workers.clamp(1, MAX_WORKERS),
        burst: options.burst.clamp(1, MAX_BURST) as usize,
        window: options.window.min(MAX_TICK),
    }
}
