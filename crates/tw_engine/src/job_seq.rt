//! The job `seq`: the text of a sequential run, which is its trace and the line of its fault.

ghost use Rattle.std.specs.Prelude.{◌≡◌, ◌≤◌, IfSome};
ghost use Rattle.tw_any_model.specs.AnyModel.{any_meaning};
ghost use Rattle.tw_network.specs.Contents.{network_of};
ghost use Rattle.tw_theory.specs.Simulator.{sequential};
ghost use Rattle.tw_vtime.specs.Stamps.{max_tick};
ghost use Rattle.tw_texts.specs.Texts.{trace_text};
ghost use Rattle.tw_engine.specs.Runs.{IsHeld, IsMadeInOrder, IsRun, IsShown, name_in};

use crate::failed::Failed;
use crate::faults::{fault_of, last_line};
use crate::names::NetworkNames;
use crate::reading::{Run, network_in};
use std::alloc::Global;
use std::io::Write;
use tw_actions::Fault;
use tw_listen::Listener;
use tw_record_lines::{Held, hold_lines, write_lines};
use tw_rounds::meets_no_limit;
use tw_texts::Lines;
use tw_vtime::MAX_TICK;

/// Does the job `seq` of [`alone`](crate::alone) on a file's bytes, and answers the fault that the trace ends in, if it ends in one.
/// After each round the listener hears how far the run is. It takes no handle, and so it returns.
///
/// It fails as the table of [`alone`](crate::alone) says.
pub fn seq<L: Listener, W: Write>(
    alloc: Global,
    bytes: &[u8],
    until: u64,
    listener: &mut L,
    out: &mut W,
) -> Result<Option<Fault>, Failed>
    ensures { IsRun bytes.now until result (W.contents out.old) (W.contents out.new) }
{
    let network = network_in(alloc, bytes)?;
    let run = Run {
        network: &network,
        until,
    };
    simulate(alloc, &run, listener, out)
}

/// Simulates a network in order, and writes its text. Nothing is written before it is known how the run ends: where that is not plain
/// beforehand, the trace is held as long as it is short; else the fault is worked out first, and the run is made twice.
pub(crate) fn simulate<L: Listener, W: Write>(
    alloc: Global,
    run: &Run<'_>,
    listener: &mut L,
    out: &mut W,
) -> Result<Option<Fault>, Failed>
    ensures { IsMadeInOrder run.now.network.now run.now.until result
        (W.contents out.old) (W.contents out.new) }
{
    if let Some(held) = held_of(alloc, run, listener) {
        let Held { fault, lines } = held;
        return match lines {
            Some(lines) => write_held(alloc, run, fault, lines, out),
            None => write_streamed(alloc, run, fault, listener, out),
        };
    }
    let fault = fault_of(alloc, run, listener)?;
    write_streamed(alloc, run, fault, listener, out)
}

/// How a run ends, and its trace if that was held; or none, where it is plain beforehand that no limit is met, where the end tick is
/// above the greatest one, or where memory was refused.
fn held_of<L: Listener>(alloc: Global, run: &Run<'_>, listener: &mut L) -> Option<Held>
    ensures small { IfSome result (λ _. run.now.until ≤ max_tick) }
    ensures held { IfSome result (IsHeld run.now.network.now run.now.until) }
{
    if run.until > MAX_TICK || meets_no_limit(run.network, run.until) {
        return None;
    }
    let names = NetworkNames {
        network: run.network,
    };
    hold_lines(alloc, run.network, &names, run.until, listener).ok()
}

/// Writes the text of a network's run, of which the fault is known and the trace held.
fn write_held<W: Write>(
    alloc: Global,
    run: &Run<'_>,
    fault: Option<Fault>,
    mut lines: Lines,
    out: &mut W,
) -> Result<Option<Fault>, Failed>
    requires { let made = sequential (network_of any_meaning run.now.network.now) run.now.until in
        lines.text ≡ trace_text (name_in run.now.network.now.names) made.records }
    ensures { let made = sequential (network_of any_meaning run.now.network.now) run.now.until in
        IsShown run.now.network.now made.records fault result
        (W.contents out.old) (W.contents out.new) }
{
    let names = NetworkNames {
        network: run.network,
    };
    let last = last_line(alloc, &names, &fault)?;
    lines.write_out(out)?;
    match out.write_all(last.as_bytes()) {
        Ok(()) => Ok(fault),
        Err(_) => Err(Failed::NoWrite),
    }
}

/// Writes the text of a network's run, of which the fault is known: the lines of its rounds, as they are made, and that of the fault.
fn write_streamed<L: Listener, W: Write>(
    alloc: Global,
    run: &Run<'_>,
    fault: Option<Fault>,
    listener: &mut L,
    out: &mut W,
) -> Result<Option<Fault>, Failed>
    requires { run.now.until ≤ max_tick }
    ensures { let made = sequential (network_of any_meaning run.now.network.now) run.now.until in
        IsShown run.now.network.now made.records fault result
        (W.contents out.old) (W.contents out.new) }
{
    let names = NetworkNames {
        network: run.network,
    };
    let last = last_line(alloc, &names, &fault)?;
    write_lines(alloc, run.network, &names, run.until, listener, out)?;
    match out.write_all(last.as_bytes()) {
        Ok(()) => Ok(fault),
        Err(_) => Err(Failed::NoWrite),
    }
}
