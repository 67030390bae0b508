//! The fault that a run ends in, and its line.

ghost use Rattle.std.specs.Prelude.{◌≡◌, ◌≤◌, IfOk, IfErr, string_bytes};
ghost use Rattle.tw_vtime.specs.Stamps.{max_tick};
ghost use Rattle.tw_engine.specs.Runs.{HasNoRun, fault_text, run_fault};
ghost use Rattle.tw_engine.specs.Views.{IsLineOf};

use crate::failed::Failed;
use crate::names::NetworkNames;
use crate::reading::Run;
use std::alloc::{AllocError, Global};
use tw_actions::Fault;
use tw_any_model::AnyModel;
use tw_listen::{Listener, outcome_telling};
use tw_network::Network;
use tw_texts::{Names, push_fault};
use tw_vtime::Refusal;

/// The fault of a network's sequential run, if it ends in one.
///
/// Refused where the end tick is above the greatest one (10), or for want of memory (4).
pub(crate) fn fault_of<L: Listener>(
    alloc: Global,
    run: &Run<'_>,
    listener: &mut L,
) -> Result<Option<Fault>, Failed>
    ensures fault { IfOk result (λ fault. fault ≡ run_fault run.now.network.now run.now.until) }
    ensures small { IfOk result (λ _. run.now.until ≤ max_tick) }
    ensures err { IfErr result (HasNoRun run.now.until) }
{
    match outcome_telling(alloc, run.network, run.until, listener) {
        Ok(fault) => Ok(fault),
        Err(refused) => Err(Failed::from(Refusal::from(refused))),
    }
}

/// The line of a run's fault, or nothing. Refused for want of memory (4).
pub(crate) fn last_line(
    alloc: Global,
    names: &NetworkNames<'_>,
    fault: &Option<Fault>,
) -> Result<String, AllocError>
    ensures { IfOk result
        (λ line. string_bytes line ≡ fault_text names.now.network.now.names fault.now) }
{
    let mut line = String::new(alloc);
    if let Some(fault) = fault {
        push_fault(
            &mut line,
            names.name(fault.component),
            fault.stamp,
            fault.limit,
        )?;
    }
    Ok(line)
}

/// The line of the fault that a run ends in, if it ends in one. Refused for want of memory (4).
pub(crate) fn fault_line(
    alloc: Global,
    network: &Network<AnyModel>,
    fault: Option<Fault>,
) -> Result<Option<String>, AllocError>
    ensures { IfOk result (IsLineOf network.now fault) }
{
    if fault.is_none() {
        return Ok(None);
    }
    let names = NetworkNames { network };
    let line = last_line(alloc, &names, &fault)?;
    Ok(Some(line))
}
