//! The steps of a chain on the lists of a process, one after another.

ghost use Rattle.std.specs.Prelude.{◌≡◌, ◌+◌, ◌<◌, ◌≤◌, ◌++◌, ◌∷◌, ◌⊎◌, [], Err, IfErr, IfNone, IfSome, IsTrue, OnErr, OnOk, length, min, vec_capacity, vec_len};
ghost use Rattle.std.specs.VecDeque.{deque_capacity, deque_len};
ghost use Rattle.tw_lists.specs.Lists.{front_consumed, SameButRoom};
ghost use Rattle.tw_process.specs.Installing.{IsNext, IsTakenAt, MakesRoom, IsStoppedAt, after_steps_at, AreNextAt, sent_counts_at, made_of};
ghost use Rattle.tw_theory.specs.Bundles.{first_stamp};
ghost use Rattle.tw_vtime.specs.Stamps.{phase_of};

use crate::entry::Entry;
use std::alloc::Global;
use std::collections::VecDeque;
use tw_actions::{Cancel, Stop};
use tw_atomic::Atomic;
use tw_lists::EventLists;
use tw_network::Network;
use tw_pool::PoolRefused;
use tw_step::{Step, routed};
use tw_vtime::Stamp;

/// Where a chain is taken: a component of a network, and how what is taken back there is cancelled.
#[derive(Drop)]
pub(crate) struct Place<'a, M: Atomic> {
    pub(crate) network: &'a Network<M>,
    pub(crate) component: usize,
    pub(crate) cancel: Cancel,
}

/// What was made of a chain: how many messages each step sent, and why no more steps were made.
#[derive(Drop)]
pub(crate) struct Taken {
    pub(crate) counts: Vec<usize>,
    pub(crate) stop: Option<Stop>,
}

/// The steps of a chain that are those of a component, one after another: their inputs are consumed, and what they
/// send goes out. Room for them is made in the history.
pub(crate) fn take_steps<M: Atomic>(
    alloc: Global,
    place: &Place<'_, M>,
    steps: &[Step<M::State, M::Residue>],
    lists: &mut EventLists,
    history: &mut VecDeque<Entry<M::State, M::Residue>>,
) -> Taken
    requires known { place.now.component < length place.now.network.now.models }
    ensures within { length result.counts.items ≤ length steps.now }
    ensures counts { result.counts.items
        ≡ sent_counts_at M.meaning place.now (made_of result steps.now) }
    ensures lists { SameButRoom
        (after_steps_at M.meaning place.now (made_of result steps.now) lists.old) lists.new }
    ensures next { AreNextAt M.meaning place.now (made_of result steps.now) lists.old }
    ensures history { history.new.items ≡ history.old.items }
    ensures room { deque_len history.new + length result.counts.items ≤ deque_capacity history.new }
    ensures all { IfNone result.stop (length result.counts.items ≡ length steps.now) }
    ensures stop { IfSome result.stop
        (IsStoppedAt M.meaning place.now steps.now result lists.new) }
    ensures short { IfSome result.stop (λ stop. length result.counts.items < length steps.now) }
{
    let mut taken = Taken {
        counts: Vec::new(alloc),
        stop: None,
    };
    for step in steps {
        if let Err(stop) = take_step(alloc, place, step, lists, history, &mut taken.counts) {
            taken.stop = Some(stop);
            return taken;
        }
    }
    taken
}

/// One step of a chain, if it is the component's next one.
fn take_step<M: Atomic>(
    alloc: Global,
    place: &Place<'_, M>,
    step: &Step<M::State, M::Residue>,
    lists: &mut EventLists,
    history: &mut VecDeque<Entry<M::State, M::Residue>>,
    counts: &mut Vec<usize>,
) -> Result<(), Stop>
    requires known { place.now.component < length place.now.network.now.models }
    ensures taken { IsTakenAt M.meaning place.now step.now
        lists.old lists.new counts.old counts.new result }
    ensures room { MakesRoom history.old history.new counts.old result }
{
    if next_stamp(lists, step.due) != step.done.stamp {
        return Err(Stop::Stale);
    }
    if step.done.stamp.is_output() {
        return take_output(alloc, place, step, lists, history, counts);
    }
    take_transition(step, lists, history, counts)
}

/// The lesser of a component's own next stamp and the first pending one, or the end.
fn next_stamp(lists: &EventLists, due: Stamp) -> Stamp
    ensures { result ≡ min due (first_stamp lists.now.pending) }
{
    let first = match lists.first() {
        Some(message) => message.stamp,
        None => Stamp::END,
    };
    due.min(first)
}

/// An output of a chain that comes next: what it sends goes out.
fn take_output<M: Atomic>(
    alloc: Global,
    place: &Place<'_, M>,
    step: &Step<M::State, M::Residue>,
    lists: &mut EventLists,
    history: &mut VecDeque<Entry<M::State, M::Residue>>,
    counts: &mut Vec<usize>,
) -> Result<(), Stop>
    requires known { place.now.component < length place.now.network.now.models }
    requires comes { min step.now.due (first_stamp lists.old.pending) ≡ step.now.done.stamp }
    requires is_output { phase_of step.now.done.stamp ≡ 0 }
    ensures taken { IsTakenAt M.meaning place.now step.now
        lists.old lists.new counts.old counts.new result }
    ensures room { MakesRoom history.old history.new counts.old result }
{
    let Ok(sent) = routed(
        alloc,
        place.network,
        place.component,
        step.done.stamp.transition(),
        &step.done.bag,
    ) else {
        return Err(Stop::OutOfMemory);
    };
    match lists.reserve_to_send(&sent, place.cancel) {
        Ok(()) => {}
        Err(PoolRefused::Full) => return Err(Stop::Full),
        Err(PoolRefused::OutOfMemory) => return Err(Stop::OutOfMemory),
    }
    if !has_room(history, counts) {
        return Err(Stop::OutOfMemory);
    }
    lists.send_all(&sent, place.cancel);
    counts.push_reserved(sent.len());
    Ok(())
}

/// A transition of a chain that comes next, if its bag is what is pending: its inputs are consumed.
fn take_transition<S: Drop, R: Drop>(
    step: &Step<S, R>,
    lists: &mut EventLists,
    history: &mut VecDeque<Entry<S, R>>,
    counts: &mut Vec<usize>,
) -> Result<(), Stop>
    requires comes { min step.now.due (first_stamp lists.old.pending) ≡ step.now.done.stamp }
    requires is_transition { phase_of step.now.done.stamp ≡ 1 }
    ensures taken { OnOk result (lists.new ≡ front_consumed step.now.done.stamp lists.old) }
    ensures next { OnOk result (IsNext step.now lists.old) }
    ensures counted { OnOk result (counts.new.items ≡ counts.old.items ++ 0 ∷ []) }
    ensures stays { OnErr result (lists.new ≡ lists.old) }
    ensures none { OnErr result (counts.new.items ≡ counts.old.items) }
    ensures stale { result ≡ Err Stop.Stale → IsNext step.now lists.old → ⊥ }
    ensures refused { result ≡ Err Stop.OutOfMemory → IsNext step.now lists.old }
    ensures others { IfErr result (λ stop. (stop ≡ Stop.Stale) ⊎ (stop ≡ Stop.OutOfMemory)) }
    ensures room { MakesRoom history.old history.new counts.old result }
{
    let room = has_room(history, counts);
    lists.order_law();
    if !lists.consume_equal(step.done.stamp, step.done.bag.as_slice()) {
        return Err(Stop::Stale);
    }
    if !room {
        lists.restore(step.done.bag.len());
        return Err(Stop::OutOfMemory);
    }
    counts.push_reserved(0);
    Ok(())
}

/// Makes room for one step more, beside those that are counted, or answers that memory was refused.
fn has_room<S: Drop, R: Drop>(history: &mut VecDeque<Entry<S, R>>, counts: &mut Vec<usize>) -> bool
    ensures history { history.new.items ≡ history.old.items }
    ensures len { deque_len history.new ≡ deque_len history.old }
    ensures capacity { deque_capacity history.old ≤ deque_capacity history.new }
    ensures counts { counts.new.items ≡ counts.old.items }
    ensures counts_len { vec_len counts.new ≡ vec_len counts.old }
    ensures room { IsTrue result
        → deque_len history.new + (vec_len counts.old + 1) ≤ deque_capacity history.new }
    ensures counts_room { IsTrue result → vec_len counts.new < vec_capacity counts.new }
{
    history.reserve(counts.len() + 1).is_ok() && counts.reserve(1).is_ok()
}
