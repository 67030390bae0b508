//! A counter that implements the trait, followed by a function that knows a model by the trait alone.
ghost use Rattle.std.specs.Prelude.{refl, ◌≡◌, ◌≢◌, [], ◌∷◌, ◌<◌, ◌≤◌, IfOk, IfSome, IsNone, true, length, pos};
ghost use Rattle.tw_atomic.specs.Atomic.{CanTurn, FitsBag, IsSorted};
ghost use Rattle.tw_atomic.specs.declared.Turn.TheVariants.{Ext};

use super::models::{Worked, follow};
use std::alloc::{AllocError, Global};
use tw_atomic::{Atomic, Outbox, Turn};

#[derive(Clone, Copy)]
struct Counter;

impl Atomic for Counter {
    ghost use Rattle.std.specs.Prelude.{ℕ, None};
    ghost use Rattle.std.proofs.Common.{arith};
    ghost use Rattle.tw_atomic.specs.Counter.{IsCounter, counter_meaning, counter_undone, counter_stays_valid, counter_reverses};

    type State = (u64, bool);

    type Residue = bool;

    ghost meaning = { λ m. counter_meaning };

    ghost valid = { λ m. IsCounter };

    ghost residue_of = { λ m turn s elapsed bag. s.1 };

    ghost undone = { λ m turn s elapsed bag sends. counter_undone turn s bag sends };

    ghost longest = { λ m. None };

    fn start(&self, alloc: Global) -> Result<(u64, bool), AllocError> {
        let _ = alloc;
        Ok((0, false))
    }

    fn ta(&self, state: &(u64, bool)) -> Option<u64> {
        if state.1 { Some(0) } else { None }
    }

    fn longest_wait(&self) -> Option<u64> {
        None
    }

    fn output(&self, state: &(u64, bool), outbox: &mut Outbox) {
        let _ = state;
        outbox.push((3, 1));
    }

    fn forward(
        &self,
        alloc: Global,
        state: &mut (u64, bool),
        turn: Turn,
        elapsed: u64,
        bag: &[(u8, i64)],
    ) -> Result<bool, AllocError> {
        let _ = alloc;
        let _ = elapsed;
        let sends = state.1;
        match turn {
            Turn::Int => state.1 = false,
            Turn::Ext | Turn::Con => *state = (state.0.wrapping_add(bag.len() as u64), true),
        }
        Ok(sends)
    }

    fn back(
        &self,
        state: &mut (u64, bool),
        turn: Turn,
        elapsed: u64,
        bag: &[(u8, i64)],
        residue: bool,
    ) {
        let _ = elapsed;
        match turn {
            Turn::Int => state.1 = residue,
            Turn::Ext | Turn::Con => *state = (state.0.wrapping_sub(bag.len() as u64), residue),
        }
    }

    fn words(
        &self,
        alloc: Global,
        state: &(u64, bool),
        words: &mut Vec<i128>,
    ) -> Result<(), AllocError> {
        let _ = alloc;
        words.push(state.0 as i128)?;
        Ok(())
    }

    fn same(&self, one: &(u64, bool), other: &(u64, bool)) -> bool {
        one == other
    }

    fn copy(&self, alloc: Global, state: &(u64, bool)) -> Result<(u64, bool), AllocError> {
        let _ = alloc;
        Ok(*state)
    }

    ghost stays_valid = { λ m turn s elapsed bag can. counter_stays_valid turn s elapsed bag can };

    ghost output_fits = { λ m s valid. (Prim.omega arith, ((Prim.omega arith, Prim.omega arith), tt)) };

    ghost reverses = { λ m turn s elapsed bag can. counter_reverses turn s elapsed bag can };
}

/// The turns of a counter: two items come, and then it sends.
static COUNTER: [Worked; 3] = [
    Worked {
        before: (&[0], None),
        sends: &[],
        turn: Turn::Ext,
        elapsed: 4,
        bag: &[(0, -1), (2, 7)],
        after: (&[2], Some(0)),
        stays: true,
    },
    Worked {
        before: (&[2], Some(0)),
        sends: &[(3, 1)],
        turn: Turn::Con,
        elapsed: 0,
        bag: &[(0, -1)],
        after: (&[3], Some(0)),
        stays: false,
    },
    Worked {
        before: (&[2], Some(0)),
        sends: &[(3, 1)],
        turn: Turn::Int,
        elapsed: 0,
        bag: &[],
        after: (&[2], None),
        stays: true,
    },
];

#[test]
fn a_counter_is_followed(rt: HostRuntime) {
    follow(&rt, rt.alloc(), &Counter, &COUNTER);
    assert!(rt; Counter.longest_wait() == None);
}
