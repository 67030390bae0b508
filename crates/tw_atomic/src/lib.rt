//! The atomic model of Parallel DEVS (Chow and Zeigler 1994) whose transitions can be taken back by
//! computing (reverse computation: Carothers, Perumalla and Fujimoto 1999).
//!
//! - [`Turn`]: the three kinds of a transition.
//! - [`Outbox`]: what one output gives.
//! - [`Atomic`]: the trait. An implementation names its plain functions (`meaning`), the states that
//!   it can be in (`valid`), what a transition keeps of the state before it (`residue_of`) and how
//!   that state is computed back (`undone`); each call is contracted to be exactly these functions,
//!   and the laws at the end of the trait are proved by each implementation.
//!
//! Times are in ticks. A bag is a slice of items of (port, value), sorted by port, then value.
#![tactic(auto)]

ghost use Rattle.std.specs.Prelude.{◌≡◌, ℕ, ◌≤◌, ◌↔◌, ◌++◌, [], List, Option, IsTrue, IfOk, IfSome, OnOk, OnErr, length};
ghost use Rattle.tw_atomic.specs.Atomic.{Bag, Meaning, FitsOutput, turned, CanTurn};
ghost use Rattle.tw_atomic.specs.Waiting.{AlwaysWaits};

use arrayvec::ArrayVec;
use std::alloc::{AllocError, Global};
pub use tw_msgs::OutOfMemory;

/// The kind of a transition.
#[derive(Clone, Copy, Debug, PartialEq, Eq)]
pub enum Turn {
    /// Internal: the component is imminent and nothing came.
    Int,
    /// External: something came before the component was imminent.
    Ext,
    /// Confluent: the component is imminent and something came at the same time.
    Con,
}

/// What one output gives: at most 64 items of (port, value), in any order.
pub type Outbox = ArrayVec<(u8, i64), 64>;

/// An atomic model whose transitions can be taken back.
///
/// A model is its parameters alone. What changes is the state, which the caller keeps.
pub trait Atomic: Drop {
    ghost use Rattle.tw_atomic.specs.declared.Turn.{Turn};

    /// What the transitions change.
    type State: Drop;

    /// What a transition keeps of the state before it, besides the state after it.
    type Residue: Drop;

    /// The model's plain functions.
    ghost meaning: { Self → Meaning Self.State };

    /// The states whose numbers fit: the start state is one, and each transition keeps them.
    ghost valid: { Self → Self.State → Type 0 };

    /// What a turn keeps of the state before it.
    ghost residue_of: { Self → Turn → Self.State → ℕ → Bag → Self.Residue };

    /// The state before a turn, computed from the one after it, the turn's elapsed time and bag, and
    /// its residue.
    ghost undone: { Self → Turn → Self.State → ℕ → Bag → Self.Residue → Self.State };

    /// The longest time advance that the model tells of, in ticks, as [`Atomic::longest_wait`] answers it.
    ghost longest: { Self → Option ℕ };

    /// The start state. Refused for want of memory alone (4).
    fn start(&self, alloc: Global) -> Result<Self::State, AllocError>
        ensures start { IfOk result (λ s. s ≡ (meaning self.now).start) }
        ensures valid_state { IfOk result (valid self.now) };

    /// The time advance in ticks; `None` is never. It takes no memory.
    fn ta(&self, state: &Self::State) -> Option<u64>
        ensures { result ≡ (meaning self.now).ta state.now };

    /// The longest time advance of the model, in ticks, if it never has a time advance of 0: at its start and after
    /// each transition it then waits 1 to so many ticks, or is passive. `None`: nothing is told. It takes no memory.
    ///
    /// A network of such models meets no limit in a run that ends so many ticks before the last tick.
    fn longest_wait(&self) -> Option<u64>
        ensures told { result ≡ longest self.now }
        ensures waits { IfSome result (AlwaysWaits (meaning self.now)) };

    /// Fills the empty box with the output of this state, which is sent just before an internal or a confluent
    /// transition. It may be asked of every valid state, and takes no memory.
    fn output(&self, state: &Self::State, outbox: &mut Outbox)
        requires empty { outbox.old.items ≡ [] }
        requires valid_state { valid self.now state.now }
        ensures { outbox.new.items ≡ (meaning self.now).out state.now };

    /// Makes one transition and answers its residue, by which [`Atomic::back`] takes it back. `elapsed` is the ticks
    /// since the last transition; `bag` is sorted by port, then value. Refused for want of memory alone (4); the
    /// state then stays as it was.
    fn forward(
        &self,
        alloc: Global,
        state: &mut Self::State,
        turn: Turn,
        elapsed: u64,
        bag: &[(u8, i64)],
    ) -> Result<Self::Residue, AllocError>
        requires { CanTurn (valid self.now) (meaning self.now) turn state.old elapsed bag.now }
        ensures state { OnOk result
            (state.new ≡ turned (meaning self.now) turn state.old elapsed bag.now) }
        ensures residue { IfOk result
            (λ residue. residue ≡ residue_of self.now turn state.old elapsed bag.now) }
        ensures err { OnErr result (state.new ≡ state.old) };

    /// Makes one transition as [`Atomic::forward`] does, without a residue: for callers that never take one back.
    /// Refused for want of memory alone (4); the state then stays as it was.
    ///
    /// A model that does not write it gets `forward`, and the residue is dropped.
    fn transition(
        &self,
        alloc: Global,
        state: &mut Self::State,
        turn: Turn,
        elapsed: u64,
        bag: &[(u8, i64)],
    ) -> Result<(), AllocError>
        requires { CanTurn (valid self.now) (meaning self.now) turn state.old elapsed bag.now }
        ensures state { OnOk result
            (state.new ≡ turned (meaning self.now) turn state.old elapsed bag.now) }
        ensures err { OnErr result (state.new ≡ state.old) }
    {
        self.forward(alloc, state, turn, elapsed, bag)?;
        Ok(())
    }

    /// Takes a transition back. `state` is the state after it; `turn`, `elapsed` and `bag` are those of the
    /// transition, `residue` is what [`Atomic::forward`] answered. It takes no memory and cannot fail.
    fn back(
        &self,
        state: &mut Self::State,
        turn: Turn,
        elapsed: u64,
        bag: &[(u8, i64)],
        residue: Self::Residue,
    )
        ensures { state.new ≡ undone self.now turn state.old elapsed bag.now residue };

    /// Appends the words of the state: the numbers by which a trace writes it. Refused for want of memory alone (4);
    /// the list then has the numbers that it had.
    fn words(
        &self,
        alloc: Global,
        state: &Self::State,
        words: &mut Vec<i128>,
    ) -> Result<(), AllocError>
        ensures ok { OnOk result
            (words.new.items ≡ words.old.items ++ (meaning self.now).words state.now) }
        ensures err { OnErr result (words.new.items ≡ words.old.items) };

    /// Whether two states are equal. It takes no memory.
    fn same(&self, one: &Self::State, other: &Self::State) -> bool
        ensures { IsTrue result ↔ (one.now ≡ other.now) };

    /// A copy of a state. Refused for want of memory alone (4).
    fn copy(&self, alloc: Global, state: &Self::State) -> Result<Self::State, AllocError>
        ensures { IfOk result (λ copy. copy ≡ state.now) };

    /// Each transition keeps a state valid.
    ghost stays_valid: { (m : Self) (turn : Turn) (s : Self.State) (elapsed : ℕ) (bag : Bag)
        → CanTurn (valid m) (meaning m) turn s elapsed bag
        → valid m (turned (meaning m) turn s elapsed bag) };

    /// An output has at most 64 items, on ports 0 to 15, with values that fit.
    ghost output_fits: { (m : Self) (s : Self.State) → valid m s
        → (length ((meaning m).out s) ≤ 64) × FitsOutput ((meaning m).out s) };

    /// Taking back after a transition gives the old state.
    ghost reverses: { (m : Self) (turn : Turn) (s : Self.State) (elapsed : ℕ) (bag : Bag)
        → CanTurn (valid m) (meaning m) turn s elapsed bag
        → undone m turn (turned (meaning m) turn s elapsed bag) elapsed bag
        (residue_of m turn s elapsed bag) ≡ s };
}
