//! A model that counts and adds what comes, and never sends.
ghost use Rattle.std.specs.Prelude.{refl, ◌≡◌, Ok, IfOk};
ghost use Rattle.tw_atomic.specs.Atomic.{CanTurn, turned};
ghost use Rattle.tw_models.specs.Tally.{tally_one, tally_all, tally_less, tally_none};

use std::alloc::{AllocError, Global};
use tw_atomic::{Atomic, Outbox, Turn};

/// A tally, which has no parameters.
#[derive(Clone, Copy, Debug, PartialEq, Eq)]
pub struct Tally;

/// How many items came, their sum, and the value of the last one.
#[derive(Clone, Copy, Debug, PartialEq, Eq)]
pub struct TallyState {
    pub count: u64,
    pub sum: i64,
    pub last: i64,
}

/// One item more.
fn count_one(state: &mut TallyState, item: &(u8, i64))
    ensures { state.new ≡ tally_one state.old item.now }
{
    state.count = state.count.wrapping_add(1);
    state.sum = state.sum.wrapping_add(item.1);
    state.last = item.1;
}

/// One item less; the last value is not given back.
fn discount_one(state: &mut TallyState, item: &(u8, i64))
    ensures { state.new ≡ tally_less state.old item.now }
{
    state.count = state.count.wrapping_sub(1);
    state.sum = state.sum.wrapping_sub(item.1);
}

/// Each item of a bag more.
fn count_all(state: &mut TallyState, bag: &[(u8, i64)])
    ensures { state.new ≡ tally_all state.old bag.now }
{
    for item in bag {
        count_one(state, item);
    }
}

/// Each item of a bag less, the last one first.
fn discount_all(state: &mut TallyState, bag: &[(u8, i64)])
    ensures { state.new ≡ tally_none state.old bag.now }
{
    let mut left = bag.len();
    while left > 0 {
        left -= 1;
        discount_one(state, &bag[left]);
    }
}

impl Atomic for Tally {
    ghost use Rattle.std.specs.Prelude.{Some};
    ghost use Rattle.tw_models.specs.Tally.{IsTally, tally_meaning, tally_undone};
    ghost use Rattle.tw_models.specs.TallyLaws.{tally_stays_valid, tally_output_fits, tally_reverses};

    type State = TallyState;

    type Residue = i64;

    ghost meaning = { λ m. tally_meaning };

    ghost valid = { λ m. IsTally };

    ghost residue_of = { λ m turn s elapsed bag. s.last };

    ghost undone = { λ m turn s elapsed bag last. tally_undone turn s bag last };

    ghost longest = { λ t. Some 0 };

    fn start(&self, alloc: Global) -> Result<TallyState, AllocError>
        ensures start { result ≡ Ok tally_meaning.start }
        ensures valid_state { IfOk result (IsTally) }
    {
        let _ = alloc;
        Ok(TallyState {
            count: 0,
            sum: 0,
            last: 0,
        })
    }

    fn ta(&self, state: &TallyState) -> Option<u64> {
        let _ = state;
        None
    }

    fn longest_wait(&self) -> Option<u64> {
        Some(0)
    }

    fn output(&self, state: &TallyState, outbox: &mut Outbox) {
        let _ = state;
        let _ = outbox;
    }

    fn forward(
        &self,
        alloc: Global,
        state: &mut TallyState,
        turn: Turn,
        elapsed: u64,
        bag: &[(u8, i64)],
    ) -> Result<i64, AllocError>
        requires { CanTurn IsTally tally_meaning turn state.old elapsed bag.now }
        ensures state { state.new ≡ turned tally_meaning turn state.old elapsed bag.now }
        ensures residue { result ≡ Ok state.old.last }
    {
        let last = state.last;
        self.transition(alloc, state, turn, elapsed, bag)?;
        Ok(last)
    }

    fn transition(
        &self,
        alloc: Global,
        state: &mut TallyState,
        turn: Turn,
        elapsed: u64,
        bag: &[(u8, i64)],
    ) -> Result<(), AllocError>
        requires { CanTurn IsTally tally_meaning turn state.old elapsed bag.now }
        ensures state { state.new ≡ turned tally_meaning turn state.old elapsed bag.now }
        ensures succeeds { result ≡ Ok tt }
    {
        let _ = alloc;
        let _ = elapsed;
        match turn {
            Turn::Int => {}
            Turn::Ext | Turn::Con => count_all(state, bag),
        }
        Ok(())
    }

    fn back(
        &self,
        state: &mut TallyState,
        turn: Turn,
        elapsed: u64,
        bag: &[(u8, i64)],
        residue: i64,
    ) {
        let _ = elapsed;
        match turn {
            Turn::Int => {}
            Turn::Ext | Turn::Con => {
                discount_all(state, bag);
                state.last = residue;
            }
        }
    }

    fn words(
        &self,
        alloc: Global,
        state: &TallyState,
        words: &mut Vec<i128>,
    ) -> Result<(), AllocError> {
        let _ = alloc;
        words.extend_from_slice(&[state.count as i128, state.sum as i128, state.last as i128])
    }

    fn same(&self, one: &TallyState, other: &TallyState) -> bool {
        one == other
    }

    fn copy(&self, alloc: Global, state: &TallyState) -> Result<TallyState, AllocError>
        ensures { result ≡ Ok state.now }
    {
        let _ = alloc;
        Ok(*state)
    }

    ghost stays_valid = { λ m turn s elapsed bag can. tally_stays_valid turn s elapsed bag can };

    ghost output_fits = { λ m s valid. tally_output_fits s };

    ghost reverses = { λ m turn s elapsed bag can. tally_reverses turn s elapsed bag can };
}
