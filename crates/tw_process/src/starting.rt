//! The lists of a process at its start.

ghost use Rattle.std.specs.Prelude.{◌≡◌, ◌≤◌, [], IfOk, OnOk, FitsSigned};
ghost use Rattle.std.specs.Int.{w64};
ghost use Rattle.std.specs.List.{AllByRecursion as Each};
ghost use Rattle.tw_lists.specs.Lists.{with_pending, SameButRoom};
ghost use Rattle.tw_msgs.specs.Messages.{sorted_messages};
ghost use Rattle.tw_network.specs.Contents.{message_of, network_of};
ghost use Rattle.tw_theory.specs.Bundles.{addressed};
ghost use Rattle.tw_theory.specs.Standing.{CanTake};
ghost use Rattle.tw_vtime.specs.Stamps.{max_tick};

use std::alloc::{AllocError, Global};
use tw_atomic::Atomic;
use tw_lists::EventLists;
use tw_network::{Input, Network, message_of};

/// The inputs of a component are pending. Of a network's at most 65,536 inputs the lists are never full.
pub(crate) fn start_lists<M: Atomic>(
    alloc: Global,
    network: &Network<M>,
    component: usize,
) -> Result<EventLists, AllocError>
    ensures pending { let inputs = (network_of M.meaning network.now).inputs in
        IfOk result (λ lists. lists.pending ≡ sorted_messages (addressed component inputs)) }
    ensures fit { IfOk result (λ lists. Each (CanTake component) lists.pending) }
    ensures consumed { IfOk result (λ lists. lists.consumed ≡ []) }
    ensures sent { IfOk result (λ lists. lists.sent ≡ []) }
    ensures outgoing { IfOk result (λ lists. lists.outgoing ≡ []) }
    ensures waiting { IfOk result (λ lists. lists.waiting ≡ []) }
    ensures owed { IfOk result (λ lists. lists.owed ≡ []) }
{
    network.facts();
    let mut lists = EventLists::new(alloc);
    for input in network.inputs() {
        if input.1 == component {
            put_input(&mut lists, input)?;
        }
    }
    Ok(lists)
}

/// A network input is pending.
fn put_input(lists: &mut EventLists, input: &Input) -> Result<(), AllocError>
    requires { input.now.0 ≤ max_tick }
    ensures contents { OnOk result
        (SameButRoom (with_pending (message_of input.now) lists.old) lists.new) }
    ensures fits { OnOk result (FitsSigned w64 input.now.3) }
{
    let message = message_of(input);
    match lists.reserve_pending() {
        Ok(()) => {
            lists.put_reserved(&message);
            Ok(())
        }
        Err(_) => Err(AllocError),
    }
}
