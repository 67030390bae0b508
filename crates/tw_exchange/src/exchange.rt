//! An exchange, how it begins and ends, and the executive's own actions.

ghost use Rattle.std.specs.Prelude.{◌≡◌, ◌↔◌, None, IfOk, IfErr, IsErrOf, OnOk, OnErr, false, length, replicate};
ghost use Rattle.tw_exchange.specs.Exchanged.{IsNotAhead, with_executive};
ghost use Rattle.tw_exchange.specs.Further.{ComesFurther};
ghost use Rattle.tw_exec.specs.Actions.{reason};
ghost use Rattle.tw_exec.specs.Running.{answer, after, AreExact, IsDelivery, IsReason, IsSoundly, IsWanting, WantsRoom};
ghost use Rattle.tw_exec.specs.declared.refused.Refused.TheVariants as refusals;
ghost use Rattle.tw_laws.specs.Cancelling.{least_own};
ghost use Rattle.tw_theory.specs.Memory.{TakesMemory};

use crate::keeping::{free_all, refresh_all};
use crate::queues::Queues;
use crate::undone::Undone;
use std::alloc::{AllocError, Global};
use std::marker::Model;
use tw_atomic::Atomic;
use tw_board::Publisher;
use tw_exec::{Action, Done, Executive, Refused};
use tw_vtime::Stamp;

/// An executive that workers share, which of its components are given out to them, and the board's publisher. No more is posted
/// than global virtual time and how many records are committed.
///
/// Contracts see the executive, a flag for each component and the publisher.
pub struct Exchange<M: Atomic> {
    pub(crate) alloc: Global,
    pub(crate) executive: Executive<M>,
    pub(crate) queues: Queues,
    pub(crate) publisher: Publisher,
}

// Written out, since a derived one is spelt field by field, and proved, wherever one is let go.
impl<M: Atomic> Drop for Exchange<M> {
    fn drop(self) {
        let Exchange {
            alloc: _,
            executive: _,
            queues: _,
            publisher: _,
        } = self;
    }
}

impl<M: Atomic> Model for Exchange<M> {
    ghost use Rattle.tw_exchange.specs.Exchanged.{Exchanged, IsNotAhead, busy_in};
    ghost use Rattle.tw_exchange.specs.Queues.{IsKept};

    ghost Value = { Exchanged M M.State };

    ghost view = { λ x. record {
      executive = x.executive;
      busy = busy_in x.queues.free;
      publisher = x.publisher;
    } };

    ghost invariant = { λ x. IsKept x.queues x.executive.world
        × IsNotAhead x.publisher x.executive };
}

impl<M: Atomic> Exchange<M> {
    /// An exchange of an executive, of which no component is given out, with a publisher that has posted no more than global
    /// virtual time and how many records are committed.
    ///
    /// Refused for want of memory (4); then both come back. Once made, an exchange takes memory only for chains' starts,
    /// and for what the executive's own actions take.
    pub fn new(
        alloc: Global,
        executive: Executive<M>,
        publisher: Publisher,
    ) -> Result<Exchange<M>, (Executive<M>, Publisher, AllocError)>
        requires { IsNotAhead publisher executive }
        ensures made { let busy = replicate (length executive.network.models) false in
            IfOk result (λ x. x
            ≡ record { executive = executive; busy = busy; publisher = publisher }) }
        ensures handed_back { IfErr result
            (λ refused. (refused.0 ≡ executive) × (refused.1 ≡ publisher)) }
    {
        executive.network().facts();
        let mut queues = match Queues::new(alloc, executive.network().len()) {
            Ok(queues) => queues,
            Err(error) => return Err((executive, publisher, error)),
        };
        free_all(&mut queues.free, &executive);
        queues.note_all(&executive);
        Ok(Exchange {
            alloc,
            executive,
            queues,
            publisher,
        })
    }

    /// The executive and the publisher, for good. What was given out and is not yet handed in cannot be any more.
    pub fn into_parts(self) -> (Executive<M>, Publisher)
        ensures executive { result.0 ≡ self.executive }
        ensures publisher { result.1 ≡ self.publisher }
        ensures not_ahead { IsNotAhead result.1 result.0 }
    {
        let Exchange {
            alloc: _,
            executive,
            queues: _,
            publisher,
        } = self;
        (executive, publisher)
    }

    /// The executive.
    pub fn executive(&self) -> &Executive<M>
        ensures executive { result.now ≡ self.now.executive }
        ensures sound { IsSoundly M.meaning self.now.executive }
        ensures not_ahead { IsNotAhead self.now.publisher self.now.executive }
    {
        self.executive.facts();
        &self.executive
    }

    /// The least of the next steps of all components, those that are given out among them; the end where there is none. It costs one
    /// look.
    pub fn least_next(&self) -> Stamp
        ensures { result ≡ least_own self.now.executive.world.processes }
    {
        match self.queues.standing.first() {
            Some((next, _)) => next,
            None => Stamp::END,
        }
    }

    /// What deliveries have taken back since this was last asked.
    pub fn take_undone(&mut self) -> Undone
        ensures { self.new ≡ self.old }
    {
        let undone = self.queues.undone;
        self.queues.undone = Undone::nothing();
        undone
    }

    /// Takes an action of the executive, as its own [`act`](Executive::act) does. A component may be given out and act all the same:
    /// its chain is found stale then.
    ///
    /// Refused as there; then nothing changes. Beside the action it costs as many steps as there are components.
    pub fn act(&mut self, action: Action) -> Result<Done, Refused>
        ensures done { let acted = after M.meaning action self.old.executive in
            OnOk result (self.new ≡ with_executive acted self.old) }
        ensures answer { IfOk result
            (λ done. answer M.meaning action self.old.executive ≡ Ok done) }
        ensures refused { IfErr result (IsReason M.meaning action self.old.executive) }
        ensures exact { AreExact M.meaning action self.old.executive result }
        ensures full { IfErr result (IsWanting M.meaning action self.old.executive) }
        ensures limit { IsDelivery action
            → (WantsRoom M.meaning action self.old.executive ↔ IsErrOf result refusals.Full) }
        ensures memory { IfErr result (λ why. reason why ≡ None → TakesMemory action) }
        ensures further { ComesFurther self.old.executive self.new.executive }
        ensures stays { OnErr result (self.new ≡ self.old) }
    {
        self.executive.facts();
        let done = self.executive.act(action)?;
        refresh_all(&mut self.queues.free, &self.executive);
        self.queues.note_all(&self.executive);
        Ok(done)
    }
}
