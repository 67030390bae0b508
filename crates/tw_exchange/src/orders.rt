//! Orders, and what is worked out from them.

ghost use Rattle.std.specs.Prelude.{◌≡◌, ◌≤◌, length};
ghost use Rattle.tw_theory.specs.Chains.{IsChain};
ghost use Rattle.tw_vtime.specs.Stamps.{max_microstep};
ghost use Rattle.tw_chain.specs.Kept.{IsReadyStart};

use crate::gate::Gate;
use std::marker::Model;
use tw_atomic::Atomic;
use tw_chain::{Prepared, Start};

/// A component that is given out, with what its chain is worked out from. It must be spent, by [`compute`] or by
/// [`give_back`](crate::Exchange::give_back).
///
/// Contracts see the start of the chain.
pub struct Order<M: Atomic> {
    pub(crate) start: Start<M::State>,
}

impl<M: Atomic> Model for Order<M> {
    ghost use Rattle.tw_theory.specs.Chains.{Start as StartOf};

    ghost Value = { StartOf M.State };

    ghost view = { λ order. order.start };
}

impl<M: Atomic> Order<M> {
    ghost use Rattle.tw_theory.specs.Chains.{Start as StartOf};

    /// The component's number.
    pub fn component(&self) -> usize
        ensures { result ≡ self.now.component }
    {
        self.start.component()
    }
}

/// A chain that was worked out from an order. It must be spent, by [`finish`](crate::Exchange::finish) or [`give_up`](Prepareds::give_up).
///
/// Contracts see the chain.
pub struct Prepareds<M: Atomic> {
    pub(crate) chain: Prepared<M>,
}

impl<M: Atomic> Model for Prepareds<M> {
    ghost use Rattle.tw_theory.specs.Chains.{Chain};

    ghost Value = { Chain M M.State };

    ghost view = { λ prepareds. prepareds.chain };
}

impl<M: Atomic> Prepareds<M> {
    ghost use Rattle.tw_theory.specs.Chains.{Chain};

    /// The component's number.
    pub fn component(&self) -> usize
        ensures { result ≡ self.now.run.start.component }
    {
        self.chain.component()
    }

    /// Lets the chain go: its run has ended.
    pub fn give_up(self) {
        let Prepareds { chain: _ } = self;
    }

    /// How many steps there are.
    pub fn len(&self) -> usize
        ensures { result ≡ length self.now.run.steps }
    {
        self.chain.len()
    }
}

/// Works an order out, by the component's own model: at most its burst of steps, each before its bound. The gate is told first,
/// once. It takes no part of the exchange, and waits for nobody, the gate's own body aside.
///
/// Where memory is refused in the middle, the chain keeps the steps made before.
pub fn compute<M: Atomic, G: Gate>(order: Order<M>, model: &M, gate: &G) -> Prepareds<M>
    requires ready { IsReadyStart (M.valid model.now) (M.meaning model.now) order }
    requires limit { order.micro_limit ≤ max_microstep }
    ensures model { result.model ≡ model.now }
    ensures start { result.run.start ≡ order }
    ensures chain { IsChain (M.meaning model.now) result }
{
    gate.enter(order.component());
    let Order { start } = order;
    Prepareds {
        chain: start.prepare(model),
    }
}
