//! How a run stands.

ghost use Rattle.std.specs.Prelude.{◌≡◌, ◌<◌, ◌≤◌, IfOk, IfSome, Some, length, slice_get};
ghost use Rattle.tw_exchange.specs.States.{fault_from, is_quiet, limit_at, state_of};
ghost use Rattle.tw_exec.specs.Actions.{reason};
ghost use Rattle.tw_theory.specs.Bundles.{least_owed};
ghost use Rattle.tw_theory.specs.Executive.{OverLimit};
ghost use Rattle.tw_theory.specs.Outcomes.{all_past, all_quiet};
ghost use Rattle.tw_vtime.specs.Stamps.{never, phase_of, stamp};

use crate::exchange::Exchange;
use crate::idle::all_empty;
use std::alloc::AllocError;
use tw_actions::{Fault, RunState};
use tw_atomic::Atomic;
use tw_exec::{Action, Executive, Refused};
use tw_process::Process;
use tw_vtime::{Limit, Stamp};

impl<M: Atomic> Exchange<M> {
    /// How the run stands. It changes nothing: where a component's next step is at global virtual time and nothing is in transit,
    /// that step is made, to see whether it meets a limit, and taken back.
    ///
    /// Refused for want of memory (4).
    pub fn state(&mut self) -> Result<RunState, AllocError>
        ensures state { IfOk result (λ state. state ≡ state_of M.meaning self.old.executive) }
        ensures stays { self.new ≡ self.old }
    {
        find_state(&mut self.executive)
    }
}

/// How the run of an executive stands.
fn find_state<M: Atomic>(executive: &mut Executive<M>) -> Result<RunState, AllocError>
    ensures state { IfOk result (λ state. state ≡ state_of M.meaning executive.old) }
    ensures stays { executive.new ≡ executive.old }
{
    executive.facts();
    let end = Stamp::new(executive.until(), 0, 0).unwrap();
    if all_past(executive, end) {
        return Ok(RunState::Complete);
    }
    let gvt = executive.gvt();
    if gvt >= end {
        return Ok(RunState::Going);
    }
    if gvt.is_output() {
        return Ok(RunState::Going);
    }
    if !all_quiet(executive) {
        return Ok(RunState::Going);
    }
    if !all_empty(executive) {
        return Ok(RunState::Going);
    }
    first_fault(executive)
}

/// Whether every commit line is at a stamp or after it.
pub(crate) fn all_past<M: Atomic>(executive: &Executive<M>, end: Stamp) -> bool
    ensures { result ≡ all_past end executive.now.world.processes }
{
    executive.facts();
    for component in 0..executive.network().len() {
        if executive.contents(component).line() < end {
            return false;
        }
    }
    true
}

/// Whether nothing is outgoing, and nothing owed is at global virtual time.
fn all_quiet<M: Atomic>(executive: &Executive<M>) -> bool
    requires { executive.now.world.gvt < stamp executive.now.until 0 0 }
    ensures { result ≡ all_quiet executive.now.world.gvt executive.now.world.processes }
{
    executive.facts();
    let gvt = executive.gvt();
    for component in 0..executive.network().len() {
        if !is_quiet(executive.contents(component), gvt) {
            return false;
        }
    }
    true
}

/// Whether nothing of a component is outgoing, and nothing that it owes is at a stamp, before which it owes nothing.
fn is_quiet<M: Atomic>(process: &Process<M>, gvt: Stamp) -> bool
    requires before { gvt < never }
    requires from { gvt ≤ least_owed process.now.process.owed }
    ensures { result ≡ is_quiet gvt process.now.process }
{
    let lists = process.lists();
    if lists.outgoing_len() > 0 {
        return false;
    }
    lists.least_owed() != gvt
}

/// The least component that meets a limit at global virtual time.
fn first_fault<M: Atomic>(executive: &mut Executive<M>) -> Result<RunState, AllocError>
    requires before { executive.old.world.gvt < stamp executive.old.until 0 0 }
    requires odd { phase_of executive.old.world.gvt ≡ 1 }
    ensures state { IfOk result (λ state. state ≡ fault_from M.meaning 0 executive.old) }
    ensures stays { executive.new ≡ executive.old }
{
    executive.facts();
    for component in 0..executive.network().len() {
        if let Some(limit) = find_limit(executive, component)? {
            return Ok(RunState::Fault(Fault {
                component,
                stamp: executive.gvt(),
                limit,
            }));
        }
    }
    Ok(RunState::Going)
}

/// The limit that a component meets at global virtual time. Its step there is a transition, which sends nothing: made and taken back,
/// it leaves everything as it was.
fn find_limit<M: Atomic>(
    executive: &mut Executive<M>,
    component: usize,
) -> Result<Option<Limit>, AllocError>
    requires near { component < length executive.old.network.models }
    requires before { executive.old.world.gvt < stamp executive.old.until 0 0 }
    requires odd { phase_of executive.old.world.gvt ≡ 1 }
    ensures limit { let found = slice_get executive.old.world.processes component in
        IfOk result (λ limit.
        IfSome found (λ p. limit ≡ limit_at M.meaning executive.old component p)) }
    ensures stays { executive.new ≡ executive.old }
{
    executive.facts();
    let gvt = executive.gvt();
    if executive.contents(component).next() != gvt {
        return Ok(None);
    }
    match executive.act(Action::Step(component)) {
        Ok(_) => {
            let _ = executive.act(Action::Back(component, gvt));
            Ok(None)
        }
        Err(refused) => {
            let Some(limit) = limit_met(refused) else {
                return Err(AllocError);
            };
            Ok(Some(limit))
        }
    }
}

/// The limit for which an action is refused.
fn limit_met(refused: Refused) -> Option<Limit>
    ensures { IfSome result (λ limit. reason refused ≡ Some (OverLimit limit)) }
{
    match refused {
        Refused::OverLimit(limit) => Some(limit),
        Refused::OutOfMemory
        | Refused::Full
        | Refused::NothingDue
        | Refused::NoSuch
        | Refused::BeforeGvt
        | Refused::Committed => None,
    }
}
