//! Where a component stands between its steps.

ghost use Rattle.std.specs.Prelude.{◌≡◌, ◌+◌, IfOk};
ghost use Rattle.tw_network.specs.Contents.{StartsInTime};
ghost use Rattle.tw_theory.specs.Transitions.{start_moment};
ghost use Rattle.tw_theory.specs.Standing.{IsStanding};
ghost use Rattle.tw_vtime.specs.Stamps.{phase_of};

use std::alloc::{AllocError, Global};
use std::marker::Model;
use tw_atomic::Atomic;
use tw_vtime::Stamp;

/// Where a component stands: its state, the time of its last transition, and when its next own step is due. The
/// last time is the stamp of that time's output.
#[derive(Drop)]
pub struct Moment<S: Drop> {
    /// The state.
    pub state: S,
    /// The time of the last transition, as the stamp of that time's output.
    pub last: Stamp,
    /// When the next own step is due, or the end.
    pub due: Stamp,
}

impl<S: Drop> Model for Moment<S> {
    ghost use Rattle.tw_theory.specs.Transitions.{Moment as MomentOf};

    ghost Value = { MomentOf S };

    ghost view = { λ now. record { state = now.state; last = now.last; due = now.due } };
}

/// Where a component of this model stands at the start: at time (0, 0), and due after the time advance of its start
/// state. It is refused for want of memory alone (4).
pub fn start_moment<M: Atomic>(alloc: Global, model: &M) -> Result<Moment<M::State>, AllocError>
    requires { StartsInTime (M.meaning model.now) }
    ensures moment { IfOk result (λ now. now ≡ start_moment (M.meaning model.now)) }
    ensures standing { IfOk result
        (λ now. IsStanding (M.valid model.now) (M.meaning model.now) now 0) }
{
    let state = model.start(alloc)?;
    let due = match model.ta(&state) {
        None => Stamp::END,
        Some(wait) => Stamp::new(wait, 0, 0).unwrap(),
    };
    Ok(Moment {
        state,
        last: Stamp::START,
        due,
    })
}

/// A copy of where a component of this model stands. It is refused for want of memory alone (4).
pub fn copy_moment<M: Atomic>(
    alloc: Global,
    model: &M,
    moment: &Moment<M::State>,
) -> Result<Moment<M::State>, AllocError>
    ensures { IfOk result (λ copy. copy ≡ moment.now) }
{
    Ok(Moment {
        state: model.copy(alloc, &moment.state)?,
        last: moment.last,
        due: moment.due,
    })
}

impl<S: Drop> Moment<S> {
    /// Its output of this stamp is made: its transition of the same time is due.
    pub fn after_output(&mut self, stamp: Stamp)
        requires { phase_of stamp ≡ 0 }
        ensures { self.new ≡ record self.old { due = stamp + 1 } }
    {
        self.due = stamp.transition();
    }
}
