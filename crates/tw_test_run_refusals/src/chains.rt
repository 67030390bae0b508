//! Chains: worked out apart from the executive, and installed until all their steps are made.

use crate::looking::look;
use crate::telling::tell_number;
use std::alloc::Global;
use tw_any_model::AnyModel;
use tw_chain::Cause;
use tw_exec::{Action, Executive, Refused};
use tw_process::{Finished, Stop};
use tw_test_refusal_tools::Told;
use tw_vtime::Stamp;

// How often a chain is worked out at most. The second try makes what is left.
const TRIES: usize = 3;

// How many steps a list of actions has.
const STEPS: usize = 9;

/// Whether a chain went no further for want of memory.
pub(crate) fn is_refused(finished: Finished) -> bool {
    matches!(
        finished.stop,
        Stop::OutOfMemory | Stop::Ended(Cause::OutOfMemory)
    )
}

/// Works out a chain of a component, before the end tick, and installs it.
fn install(
    executive: &mut Executive<AnyModel>,
    component: usize,
    burst: usize,
) -> Result<Finished, Refused> {
    let Ok(end) = Stamp::new(executive.until(), 0, 0) else {
        return Err(Refused::NoSuch);
    };
    if component >= executive.network().len() {
        return Err(Refused::NoSuch);
    }
    let start = executive.start(component, end, burst)?;
    let chain = start.prepare(executive.network().model(component));
    let limit = executive.network().micro_limit();
    if chain.component() != component || chain.micro_limit() != limit || chain.before() > end {
        drop(chain);
        return Err(Refused::NoSuch);
    }
    executive.install(component, chain)
}

/// A chain of so many steps: how many of them were made, and whether it went no further for want of memory.
fn chain_once(
    told: &mut Told,
    alloc: Global,
    executive: &mut Executive<AnyModel>,
    component: usize,
    burst: usize,
) -> (usize, bool) {
    let before = look(told, alloc, executive);
    match install(executive, component, burst) {
        Ok(finished) => (finished.installed, is_refused(finished)),
        Err(_) => {
            let after = look(told, alloc, executive);
            told.compare("start", before, after);
            (0, true)
        }
    }
}

/// So many steps of a component by chains, as many as are needed, and how many were made.
pub(crate) fn chain(
    told: &mut Told,
    alloc: Global,
    executive: &mut Executive<AnyModel>,
    component: usize,
    burst: usize,
) {
    let mut made: usize = 0;
    for _ in 0..TRIES {
        let left = burst.saturating_sub(made);
        let (more, is_refused) = chain_once(told, alloc, executive, component, left);
        made = made.saturating_add(more);
        if !is_refused {
            break;
        }
    }
    tell_number(told, "installed", made);
}

/// Replays what is left of a list of steps after so many, and answers how many of them were made.
fn replay_rest(executive: &mut Executive<AnyModel>, steps: &[Action], made: usize) -> usize {
    match steps.get(made..) {
        Some(rest) => executive.replay(rest) as usize,
        None => 0,
    }
}

/// So many steps of a component by lists of actions, as many as are needed, and how many were made.
pub(crate) fn replay(told: &mut Told, executive: &mut Executive<AnyModel>, component: usize) {
    let steps = [Action::Step(component); STEPS];
    let made = replay_rest(executive, &steps, 0);
    let more = replay_rest(executive, &steps, made);
    tell_number(told, "replayed", made.saturating_add(more));
}
