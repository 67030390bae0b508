//! A model that holds what comes, and sends it all after its delay.
ghost use Rattle.std.specs.Prelude.{refl, ◌≡◌, ◌-◌, ◌≤◌, ◌↔◌, Ok, IsOk, IfOk, IfErr, IsTrue, length, min};
ghost use Rattle.tw_atomic.specs.Atomic.{CanTurn, turned};
ghost use Rattle.tw_models.specs.Left.{IsWithin};
ghost use Rattle.tw_models.specs.Relay.{relay_int, relay_ext};
ghost use Rattle.tw_models.specs.declared.bad_model.BadModel.TheVariants.{BadTick};

use crate::bad_model::BadModel;
use crate::intake::{
    accept, copy_of, dropped_before, left_after, left_before, refill, same_values, write_words,
};
use crate::on_heap::OnHeap;
use crate::values::Values;
use arrayvec::ArrayVec;
use std::alloc::{AllocError, Global};
use std::marker::Model;
use tw_atomic::{Atomic, Outbox, Turn};
use tw_vtime::MAX_TICK;

/// The values that a relay holds, at most 32.
pub type Held = ArrayVec<i64, 32>;

/// The parameter of a relay, in range.
#[derive(Clone, Copy, Debug, PartialEq, Eq)]
pub struct Relay {
    delay: u64,
}

impl Model for Relay {
    ghost use Rattle.tw_models.specs.Parameters.{RelayParameters, FitsRelay};

    ghost Value = { RelayParameters };

    ghost view = { λ r. record { delay = r.delay } };

    ghost invariant = { λ r. FitsRelay (record { delay = r.delay }) };

    ghost inverse = { λ r. record { delay = r.delay } };
}

impl Relay {
    /// A relay that holds what comes for `delay` ticks. Refused with [`BadModel::BadTick`] (10) exactly
    /// where the delay is above the greatest tick.
    pub fn new(delay: u64) -> Result<Relay, BadModel>
        ensures made { IfOk result (λ r. r ≡ record { delay = delay }) }
        ensures in_range { IsOk result ↔ (delay ≤ 1099511627774) }
        ensures bad_tick { IfErr result (λ e. e ≡ BadTick) }
    {
        if delay > MAX_TICK {
            return Err(BadModel::BadTick);
        }
        Ok(Relay { delay })
    }
}

/// What a relay holds, how many values found no room, and the time until it sends what it holds.
#[derive(Drop)]
pub struct RelayState {
    pub held: Held,
    pub dropped: u64,
    pub left: Option<u64>,
}

impl RelayState {
    /// Whether both states are equal.
    pub(crate) fn is_same(&self, other: &RelayState) -> bool
        ensures { IsTrue result ↔ (self.now ≡ other.now) }
    {
        if !same_values(self.held.as_slice(), other.held.as_slice()) {
            return false;
        }
        if self.dropped != other.dropped {
            return false;
        }
        self.left == other.left
    }

    /// An equal state. It takes no memory.
    pub(crate) fn copied(&self) -> RelayState
        ensures { result ≡ self.now }
    {
        RelayState {
            held: copy_of(&self.held),
            dropped: self.dropped,
            left: self.left,
        }
    }

    /// An equal state on the heap. The only error is want of memory (4).
    pub fn on_heap(&self, alloc: Global) -> Result<OnHeap<RelayState>, AllocError>
        ensures { IfOk result (λ copy. copy ≡ self.now) }
    {
        let empty = RelayState {
            held: ArrayVec::new(),
            dropped: self.dropped,
            left: self.left,
        };
        let mut copy = OnHeap::new(alloc, empty)?;
        refill(&mut copy.get_mut().held, &self.held);
        Ok(copy)
    }
}

/// How many values a transition accepted, and what was held when it was sent.
#[derive(Drop)]
pub struct RelayResidue {
    pub accepted: usize,
    pub given: Values,
}

/// Lets all that is held go.
fn let_go(state: &mut RelayState)
    ensures { state.new ≡ relay_int state.old }
{
    state.left = None;
    state.held.clear();
}

/// Holds what finds room and counts the rest, and answers how many values found room.
fn take_in(state: &mut RelayState, delay: u64, elapsed: u64, bag: &[(u8, i64)]) -> usize
    requires { IsWithin elapsed state.old.left }
    ensures state { state.new ≡ relay_ext (record { delay = delay }) state.old elapsed bag.now }
    ensures count { result ≡ min (32 - length state.old.held.items) (length bag.now) }
{
    state.left = left_after(state.held.as_slice(), state.left, elapsed, delay);
    let accepted = accept(&mut state.held, bag);
    state.dropped = state.dropped.wrapping_add((bag.len() - accepted) as u64);
    accepted
}

impl Atomic for Relay {
    ghost use Rattle.tw_atomic.specs.Waiting.{told_wait};
    ghost use Rattle.tw_models.specs.Relay.{IsRelay, relay_meaning, relay_residue, relay_undone};
    ghost use Rattle.tw_models.specs.RelayLaws.{relay_stays_valid, relay_output_fits, relay_reverses};

    type State = RelayState;

    type Residue = RelayResidue;

    ghost meaning = { relay_meaning };

    ghost valid = { IsRelay };

    ghost residue_of = { λ m turn s elapsed bag. relay_residue turn s bag };

    ghost undone = { λ m turn s elapsed bag residue. relay_undone turn s elapsed bag residue };

    ghost longest = { λ r. told_wait r.delay };

    fn start(&self, alloc: Global) -> Result<RelayState, AllocError>
        ensures start { result ≡ Ok (relay_meaning self.now).start }
        ensures valid_state { IfOk result (IsRelay self.now) }
    {
        let _ = alloc;
        let _ = &self.delay;
        Ok(RelayState {
            held: ArrayVec::new(),
            dropped: 0,
            left: None,
        })
    }

    fn ta(&self, state: &RelayState) -> Option<u64> {
        state.left
    }

    fn longest_wait(&self) -> Option<u64> {
        if self.delay == 0 {
            return None;
        }
        Some(self.delay)
    }

    fn output(&self, state: &RelayState, outbox: &mut Outbox) {
        for value in state.held.as_slice() {
            outbox.push((0, *value));
        }
    }

    fn forward(
        &self,
        alloc: Global,
        state: &mut RelayState,
        turn: Turn,
        elapsed: u64,
        bag: &[(u8, i64)],
    ) -> Result<RelayResidue, AllocError> {
        let mut accepted = 0;
        let mut given = Values::none();
        match turn {
            Turn::Int => {
                given = Values::of(alloc, &state.held)?;
                let_go(state);
            }
            Turn::Ext => accepted = take_in(state, self.delay, elapsed, bag),
            Turn::Con => {
                given = Values::of(alloc, &state.held)?;
                let_go(state);
                accepted = take_in(state, self.delay, 0, bag);
            }
        }
        Ok(RelayResidue { accepted, given })
    }

    fn transition(
        &self,
        alloc: Global,
        state: &mut RelayState,
        turn: Turn,
        elapsed: u64,
        bag: &[(u8, i64)],
    ) -> Result<(), AllocError>
        requires { CanTurn (IsRelay self.now)
            (relay_meaning self.now) turn state.old elapsed bag.now }
        ensures state { state.new ≡ turned (relay_meaning self.now) turn state.old elapsed bag.now }
        ensures succeeds { result ≡ Ok tt }
    {
        let _ = alloc;
        match turn {
            Turn::Int => let_go(state),
            Turn::Ext => {
                take_in(state, self.delay, elapsed, bag);
            }
            Turn::Con => {
                let_go(state);
                take_in(state, self.delay, 0, bag);
            }
        }
        Ok(())
    }

    fn back(
        &self,
        state: &mut RelayState,
        turn: Turn,
        elapsed: u64,
        bag: &[(u8, i64)],
        residue: RelayResidue,
    ) {
        let RelayResidue { accepted, given } = residue;
        match turn {
            Turn::Int => {
                state.held = given.held();
                state.left = Some(elapsed);
            }
            Turn::Ext => {
                let kept = state.held.len().saturating_sub(accepted);
                state.held.truncate(kept);
                state.dropped = dropped_before(state.dropped, bag.len(), accepted);
                state.left = left_before(state.held.as_slice(), state.left, elapsed);
            }
            Turn::Con => {
                state.held = given.held();
                state.dropped = dropped_before(state.dropped, bag.len(), accepted);
                state.left = Some(elapsed);
            }
        }
    }

    fn words(
        &self,
        alloc: Global,
        state: &RelayState,
        words: &mut Vec<i128>,
    ) -> Result<(), AllocError> {
        let _ = alloc;
        write_words(state.dropped, state.held.as_slice(), words)
    }

    fn same(&self, one: &RelayState, other: &RelayState) -> bool {
        one.is_same(other)
    }

    fn copy(&self, alloc: Global, state: &RelayState) -> Result<RelayState, AllocError>
        ensures { result ≡ Ok state.now }
    {
        let _ = alloc;
        Ok(state.copied())
    }

    ghost stays_valid = { relay_stays_valid };

    ghost output_fits = { relay_output_fits };

    ghost reverses = { λ m turn s elapsed bag can. relay_reverses m turn s elapsed bag can };
}
