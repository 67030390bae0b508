//! One step of a component, made with what takes it back, and taken back.

ghost use Rattle.std.specs.Prelude.{◌≡◌, ◌<◌, ◌≤◌, IfErr, IfOk, OnErr, OnOk};
ghost use Rattle.tw_step.specs.Steps.{before_of, CanMove, IsOutput, IsStopped, IsTransition, Linked};
ghost use Rattle.tw_vtime.specs.Stamps.{max_microstep, never, phase_of};

use crate::moment::Moment;
use crate::outputs::output_bag;
use crate::refused::TurnRefused;
use crate::turns::{DueTurn, due_turn, told};
use std::alloc::{AllocError, Global};
use std::snapshot::Snapshot;
use tw_atomic::{Atomic, Turn};
use tw_msgs::{Bag, Record, RecordKind, Words};
use tw_vtime::Stamp;

/// One step, with what takes it back. What it sends and which messages it consumes is its network's, and not here.
#[derive(Drop)]
pub struct Step<S, R> {
    /// What is recorded of it.
    pub done: Record,
    /// The time of the last transition before it, as the stamp of that time's output.
    pub last: Stamp,
    /// When the next own step was due before it, or the end.
    pub due: Stamp,
    /// Of a transition, which turn it was, and what takes the turn back.
    pub residue: Option<(Turn, R)>,
    /// The state before it, for contracts alone.
    pub before: Snapshot<S>,
}

/// Where a component is at home: its number, and the greatest microstep of its network.
#[derive(Clone, Copy, Debug, PartialEq, Eq)]
pub struct Home {
    /// The component's number.
    pub component: usize,
    /// The greatest microstep.
    pub micro_limit: u32,
}

/// The output of a component at this stamp, as a step. The component stands where it stood: whoever keeps the step
/// moves it on by [`Moment::after_output`]. Refused for want of memory alone (4).
pub fn output_step<M: Atomic>(
    alloc: Global,
    model: &M,
    component: usize,
    now: &Moment<M::State>,
    stamp: Stamp,
) -> Result<Step<M::State, M::Residue>, AllocError>
    requires valid { M.valid model.now now.now.state }
    ensures step { IfOk result (IsOutput (M.meaning model.now) component now.now stamp) }
    ensures linked { IfOk result (λ step. Linked (M.undone model.now) step now.now.state) }
{
    let bag = output_bag(alloc, model, &now.state)?;
    Ok(Step {
        done: Record {
            component,
            stamp,
            kind: RecordKind::Out,
            bag,
            words: Words::none(),
        },
        last: now.last,
        due: now.due,
        residue: None,
        before: Snapshot::of(&now.state),
    })
}

/// Makes the transition at this stamp with this bag, which is sorted, and answers the step, which takes it back.
/// `now` is then the moment after it.
///
/// Refused by [`TurnRefused::OverLimit`] (2 or 3) only where the next own step would pass a limit, and by
/// [`TurnRefused::OutOfMemory`] (4) where a growth was refused. The model then takes the transition back, and `now`
/// is as it was.
pub fn transition_step<M: Atomic>(
    alloc: Global,
    model: &M,
    home: Home,
    now: &mut Moment<M::State>,
    stamp: Stamp,
    bag: Bag,
) -> Result<Step<M::State, M::Residue>, TurnRefused>
    requires is_due { stamp < never }
    requires is_transition { phase_of stamp ≡ 1 }
    requires last { now.old.last < never }
    requires limit { home.micro_limit ≤ max_microstep }
    requires can_move { CanMove (M.valid model.now) (M.meaning model.now) now.old stamp bag }
    ensures step { IfOk result
        (λ step. IsTransition (M.meaning model.now) home now.old stamp bag step now.new) }
    ensures linked { IfOk result (λ step. Linked (M.undone model.now) step now.new.state) }
    ensures valid { OnOk result (M.valid model.now now.new.state) }
    ensures stays { OnErr result (now.new ≡ now.old) }
    ensures stopped { IfErr result (IsStopped (M.meaning model.now) home now.old stamp bag) }
{
    let DueTurn {
        turn,
        kind,
        elapsed,
    } = due_turn(now, stamp, bag.as_slice());
    let before = Snapshot::of(&now.state);
    let residue = model.forward(alloc, &mut now.state, turn, elapsed, bag.as_slice())?;
    let (words, due) = match told(alloc, model, &now.state, stamp, home.micro_limit) {
        Ok(told) => told,
        Err(refused) => {
            model.back(&mut now.state, turn, elapsed, bag.as_slice(), residue);
            return Err(refused);
        }
    };
    let step = Step {
        done: Record {
            component: home.component,
            stamp,
            kind,
            bag,
            words,
        },
        last: now.last,
        due: now.due,
        residue: Some((turn, residue)),
        before,
    };
    now.last = stamp.output();
    now.due = due;
    Ok(step)
}

/// Takes a step back: the component stands where it stood before it. It takes no memory.
pub fn take_back<M: Atomic>(model: &M, now: &mut Moment<M::State>, step: Step<M::State, M::Residue>)
    requires { Linked (M.undone model.now) step now.old.state }
    ensures { now.new ≡ before_of step }
{
    let Step {
        done,
        last,
        due,
        residue,
        before: _,
    } = step;
    if let Some((turn, residue)) = residue {
        let elapsed = done.stamp.tick().saturating_sub(last.tick());
        model.back(&mut now.state, turn, elapsed, done.bag.as_slice(), residue);
    }
    now.last = last;
    now.due = due;
}
