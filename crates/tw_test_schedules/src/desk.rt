//! An exchange of one network, and the chains that were worked out for it.

ghost use Rattle.std.specs.Prelude.{◌≡◌, IfOk, IfSome};
ghost use Rattle.tw_exchange.specs.Ends.{IsDue, IsMadeFor};

use std::alloc::AllocError;
use std::marker::{Brand, Model, PhantomData};
use tw_atomic::Atomic;
use tw_exec::{Action, Executive, Refused};
use tw_process::Finished;
use tw_vtime::Stamp;
use tw_workers::{Exchange, Open, Order, Prepareds, State, SweepRefused, compute};

/// Of which network an exchange is, and until which tick. Each seed picks it, so that what was worked out is known to be for the
/// exchange that it is handed in to.
pub(crate) trait Given<M> {
    ghost use Rattle.std.specs.Prelude.{ℕ};
    ghost use Rattle.tw_network.specs.Contents.{Contents};

    ghost network: { Contents M };

    ghost until: { ℕ };
}

impl<M> Given<M> for Brand {
    ghost use Rattle.std.specs.Prelude.{[]};

    ghost network = { record { names = []; models = []; couplings = []; inputs = []; micro_limit = 0 } };

    ghost until = { 0 };
}

/// An exchange of this network, until this tick.
///
/// Contracts see the exchange.
#[derive(Drop)]
pub(crate) struct Desk<M: Atomic, H: Given<M>> {
    exchange: Exchange<M>,
    of: PhantomData<H>,
}

impl<M: Atomic, H: Given<M>> Model for Desk<M, H> {
    ghost use Rattle.std.specs.Prelude.{◌≡◌};
    ghost use Rattle.tw_exchange.specs.Exchanged.{Exchanged};

    ghost Value = { Exchanged M M.State };

    ghost view = { λ desk. desk.exchange };

    ghost invariant = { λ desk. (desk.exchange.executive.network ≡ H.network) × (desk.exchange.executive.until ≡ H.until) };
}

/// A chain that was worked out from an order of this network, and is kept until a turn.
///
/// Contracts see the chain.
pub(crate) struct Kept<M: Atomic, H: Given<M>> {
    prepareds: Prepareds<M>,
    due: u64,
    of: PhantomData<H>,
}

impl<M: Atomic, H: Given<M>> Model for Kept<M, H> {
    ghost use Rattle.tw_exchange.specs.Ends.{IsMadeFor};
    ghost use Rattle.tw_theory.specs.Chains.{Chain};

    ghost Value = { Chain M M.State };

    ghost view = { λ kept. kept.prepareds };

    ghost invariant = { λ kept. IsMadeFor M.meaning M.undone H.network H.until kept.prepareds };
}

impl<M: Atomic, H: Given<M>> Kept<M, H> {
    /// The turn from which it is due.
    pub(crate) fn due(&self) -> u64 {
        self.due
    }
}

impl<M: Atomic, H: Given<M>> Desk<M, H> {
    /// The exchange of this network.
    pub(crate) fn new(exchange: Exchange<M>) -> Desk<M, H>
        requires network { exchange.executive.network ≡ H.network }
        requires until { exchange.executive.until ≡ H.until }
    {
        Desk {
            exchange,
            of: PhantomData,
        }
    }

    /// The executive, for good.
    pub(crate) fn into_executive(self) -> Executive<M> {
        let Desk { exchange, of: _ } = self;
        let (executive, _) = exchange.into_parts();
        executive
    }

    /// The executive.
    pub(crate) fn executive(&self) -> &Executive<M> {
        self.exchange.executive()
    }

    /// The component that comes next.
    pub(crate) fn next(&self, window: u64) -> Option<usize> {
        self.exchange.next(window)
    }

    /// Gives out the component that comes next.
    pub(crate) fn draw(&mut self, burst: usize, window: u64) -> Result<Option<Order<M>>, AllocError>
        ensures due { IfOk result (λ drawn. IfSome drawn (IsDue M.valid M.meaning H.network H.until)) }
    {
        self.exchange.draw(burst, window)
    }

    /// Gives out the component that comes next, for less.
    pub(crate) fn draw_near(
        &mut self,
        burst: usize,
        window: u64,
        reach: u64,
    ) -> Result<Option<Order<M>>, AllocError>
        ensures due { IfOk result (λ drawn. IfSome drawn (IsDue M.valid M.meaning H.network H.until)) }
    {
        self.exchange.draw_near(burst, window, reach)
    }

    /// Works an order out, to be kept until a turn.
    pub(crate) fn work_out(&self, order: Order<M>, due: u64) -> Kept<M, H>
        requires { IsDue M.valid M.meaning H.network H.until order }
    {
        let network = self.exchange.executive().network();
        let model = network.model(order.component());
        let prepareds = compute(order, model, &Open);
        Kept {
            prepareds,
            due,
            of: PhantomData,
        }
    }

    /// Gives an order back.
    pub(crate) fn give_back(&mut self, order: Order<M>) {
        self.exchange.give_back(order);
    }

    /// Hands in what was worked out. None where there is no such component.
    pub(crate) fn hand_in(&mut self, kept: Kept<M, H>) -> Option<Finished> {
        let Kept {
            prepareds,
            due: _,
            of: _,
        } = kept;
        self.exchange.finish(prepareds).ok()
    }

    /// Takes an action of the executive's own.
    pub(crate) fn act(&mut self, action: Action) -> Option<Refused> {
        self.exchange.act(action).err()
    }

    /// Settles.
    pub(crate) fn settle(&mut self) -> Result<(), SweepRefused> {
        self.exchange.settle()
    }

    /// Sweeps.
    pub(crate) fn sweep(&mut self) -> Result<Stamp, SweepRefused> {
        self.exchange.sweep()
    }

    /// How the run stands.
    pub(crate) fn state(&mut self) -> Result<State, AllocError> {
        self.exchange.state()
    }
}
