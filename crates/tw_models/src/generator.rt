//! A model that sends its value each period.
ghost use Rattle.std.specs.Prelude.{refl, ◌≡◌, ◌≤◌, ◌↔◌, Ok, IsOk, IfOk, IfErr};
ghost use Rattle.tw_atomic.specs.Atomic.{CanTurn, turned};
ghost use Rattle.tw_models.specs.declared.bad_model.BadModel.TheVariants.{BadTick};

use crate::bad_model::BadModel;
use crate::remaining::{minus, plus};
use std::alloc::{AllocError, Global};
use std::marker::Model;
use tw_atomic::{Atomic, Outbox, Turn};
use tw_vtime::MAX_TICK;

/// The parameters of a generator, in range.
#[derive(Clone, Copy, Debug, PartialEq, Eq)]
pub struct Gen {
    period: u64,
    value: i64,
}

impl Model for Gen {
    ghost use Rattle.tw_models.specs.Parameters.{GenParameters, FitsGen};

    ghost Value = { GenParameters };

    ghost view = { λ g. record { period = g.period; value = g.value } };

    ghost invariant = { λ g. FitsGen (record { period = g.period; value = g.value }) };

    ghost inverse = { λ g. record { period = g.period; value = g.value } };
}

impl Gen {
    /// A generator that sends `value` each `period` ticks. Refused with [`BadModel::BadTick`] (10)
    /// exactly where the period is not 1 to the greatest tick.
    pub fn new(period: u64, value: i64) -> Result<Gen, BadModel>
        ensures made { IfOk result (λ g. g ≡ record { period = period; value = value }) }
        ensures in_range { IsOk result ↔ ((1 ≤ period) × (period ≤ 1099511627774)) }
        ensures bad_tick { IfErr result (λ e. e ≡ BadTick) }
    {
        if period < 1 || period > MAX_TICK {
            return Err(BadModel::BadTick);
        }
        Ok(Gen { period, value })
    }
}

/// How often a generator sent its value, and the time until the next.
#[derive(Clone, Copy, Debug, PartialEq, Eq)]
pub struct GenState {
    pub count: u64,
    pub left: Option<u64>,
}

impl Atomic for Gen {
    ghost use Rattle.std.specs.Prelude.{Some};
    ghost use Rattle.tw_models.specs.Gen.{IsGen, gen_meaning, gen_undone};
    ghost use Rattle.tw_models.specs.GenLaws.{gen_stays_valid, gen_output_fits, gen_reverses};

    type State = GenState;

    type Residue = ();

    ghost meaning = { gen_meaning };

    ghost valid = { IsGen };

    ghost residue_of = { λ m turn s elapsed bag. tt };

    ghost undone = { λ m turn s elapsed bag residue. gen_undone turn s elapsed };

    ghost longest = { λ g. Some g.period };

    fn start(&self, alloc: Global) -> Result<GenState, AllocError>
        ensures start { result ≡ Ok (gen_meaning self.now).start }
        ensures valid_state { IfOk result (IsGen self.now) }
    {
        let _ = alloc;
        Ok(GenState {
            count: 0,
            left: Some(self.period),
        })
    }

    fn ta(&self, state: &GenState) -> Option<u64> {
        state.left
    }

    fn longest_wait(&self) -> Option<u64> {
        Some(self.period)
    }

    fn output(&self, state: &GenState, outbox: &mut Outbox) {
        let _ = state;
        outbox.push((0, self.value));
    }

    fn forward(
        &self,
        alloc: Global,
        state: &mut GenState,
        turn: Turn,
        elapsed: u64,
        bag: &[(u8, i64)],
    ) -> Result<(), AllocError>
        requires { CanTurn (IsGen self.now) (gen_meaning self.now) turn state.old elapsed bag.now }
        ensures state { state.new ≡ turned (gen_meaning self.now) turn state.old elapsed bag.now }
        ensures residue { result ≡ Ok tt }
    {
        let _ = alloc;
        let _ = bag;
        match turn {
            Turn::Ext => state.left = minus(state.left, elapsed),
            Turn::Int | Turn::Con => {
                state.count = state.count.wrapping_add(1);
                state.left = Some(self.period);
            }
        }
        Ok(())
    }

    fn transition(
        &self,
        alloc: Global,
        state: &mut GenState,
        turn: Turn,
        elapsed: u64,
        bag: &[(u8, i64)],
    ) -> Result<(), AllocError>
        requires { CanTurn (IsGen self.now) (gen_meaning self.now) turn state.old elapsed bag.now }
        ensures state { state.new ≡ turned (gen_meaning self.now) turn state.old elapsed bag.now }
        ensures succeeds { result ≡ Ok tt }
    {
        self.forward(alloc, state, turn, elapsed, bag)
    }

    fn back(&self, state: &mut GenState, turn: Turn, elapsed: u64, bag: &[(u8, i64)], residue: ()) {
        let _ = bag;
        let () = residue;
        match turn {
            Turn::Ext => state.left = plus(state.left, elapsed),
            Turn::Int | Turn::Con => {
                state.count = state.count.wrapping_sub(1);
                state.left = Some(elapsed);
            }
        }
    }

    fn words(
        &self,
        alloc: Global,
        state: &GenState,
        words: &mut Vec<i128>,
    ) -> Result<(), AllocError> {
        let _ = alloc;
        words.push(state.count as i128)?;
        Ok(())
    }

    fn same(&self, one: &GenState, other: &GenState) -> bool {
        one == other
    }

    fn copy(&self, alloc: Global, state: &GenState) -> Result<GenState, AllocError>
        ensures { result ≡ Ok state.now }
    {
        let _ = alloc;
        Ok(*state)
    }

    ghost stays_valid = { gen_stays_valid };

    ghost output_fits = { gen_output_fits };

    ghost reverses = { λ m turn s elapsed bag can. gen_reverses m turn s elapsed bag can };
}
