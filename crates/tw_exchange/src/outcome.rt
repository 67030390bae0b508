//! How a run ends.

ghost use Rattle.std.specs.Prelude.{◌≡◌, ◌↔◌, IfErr, IfOk, IfSome, IsTrue, None};
ghost use Rattle.tw_exchange.specs.Ends.{IsEndOf, IsNotOver, IsOver};
ghost use Rattle.tw_exchange.specs.States.{state_of};

use crate::exchange::Exchange;
use crate::states::all_past;
use std::alloc::{AllocError, Global};
use tw_actions::{Fault, RunState};
use tw_atomic::Atomic;
use tw_exec::Executive;
use tw_msgs::Record;

/// How a run ended: as the sequential simulator's, with its trace.
#[derive(Debug, Drop)]
pub enum Outcome {
    /// All steps before the end tick are made, and no limit is met. All records, by stamp and then component.
    Complete(Vec<Record>),
    /// A component met a limit. The records before the stamp of this fault.
    Fault(Vec<Record>, Fault),
}

/// How a run has ended, where it has and all before its end is committed; `None` exactly where it has not. It changes nothing, and is
/// refused for want of memory alone (4).
pub fn find_end<M: Atomic>(exchange: &mut Exchange<M>) -> Result<Option<RunState>, AllocError>
    ensures end { IfOk result (λ end. IfSome end (IsOver M.meaning exchange.old.executive)) }
    ensures none { IfOk result (λ end. end ≡ None → IsNotOver M.meaning exchange.old.executive) }
    ensures stays { exchange.new ≡ exchange.old }
{
    let state = exchange.state()?;
    if is_over(exchange.executive(), &state) {
        Ok(Some(state))
    } else {
        Ok(None)
    }
}

/// Whether the run of an executive that stands so is over, and all before its end is committed.
fn is_over<M: Atomic>(executive: &Executive<M>, state: &RunState) -> bool
    requires { state.now ≡ state_of M.meaning executive.now }
    ensures { IsTrue result ↔ IsOver M.meaning executive.now state.now }
{
    match state {
        RunState::Complete => true,
        RunState::Fault(fault) => all_past(executive, fault.stamp),
        RunState::Going => false,
    }
}

/// The outcome of the run of an executive that is over, with the executive's own records. Where memory is refused it comes back.
pub fn outcome_of<M: Atomic>(
    alloc: Global,
    executive: Executive<M>,
    end: RunState,
) -> Result<Outcome, Executive<M>>
    requires { IsOver M.meaning executive end }
    ensures outcome { IfOk result (IsEndOf M.meaning executive) }
    ensures handed_back { IfErr result (λ back. back ≡ executive) }
{
    executive.facts();
    let trace = match executive.into_trace(alloc) {
        Ok(trace) => trace,
        Err(failed) => return Err(failed.value),
    };
    match end {
        RunState::Complete => Ok(Outcome::Complete(trace)),
        RunState::Fault(fault) => Ok(Outcome::Fault(trace, fault)),
        RunState::Going => unreachable!(),
    }
}
