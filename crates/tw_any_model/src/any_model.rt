//! One of the five models, or a machine.
ghost use Rattle.std.specs.Prelude.{◌≡◌, ◌↔◌, Ok, IfOk, IsTrue};
ghost use Rattle.tw_atomic.specs.Atomic.{CanTurn, turned};

use std::alloc::{AllocError, Global};
use tw_atomic::{Atomic, Outbox, Turn};
use tw_machine::kept::Kept;
use tw_machine::machine::Machine;
use tw_machine::memory::State as MachineState;
use tw_models::{Model, OnHeap, Residue, State};

/// The model of a component.
#[derive(Drop)]
pub enum AnyModel {
    /// One of the five models.
    BuiltIn(Model),
    /// A machine.
    Machine(Machine),
}

/// A state of the one or the other. A machine's lies on the heap, so that a state takes 40 bytes in
/// place.
#[derive(Drop)]
pub enum AnyState {
    OfBuiltIn(State),
    OfMachine(OnHeap<MachineState>),
}

/// What a transition of the one or the other keeps of the state before it.
#[derive(Drop)]
pub enum AnyResidue {
    /// Nothing: a state of another kind, which no transition changes.
    Nothing,
    BuiltInParts(Residue),
    MachineParts(Kept),
}

impl Atomic for AnyModel {
    ghost use Rattle.tw_any_model.specs.AnyModel.{
      any_longest,
      any_meaning,
      IsAny,
      any_residue,
      any_undone,
    };
    ghost use Rattle.tw_any_model.specs.AnyModelLaws.{any_stays_valid, any_output_fits, any_reverses};

    type State = AnyState;

    type Residue = AnyResidue;

    ghost meaning = { any_meaning };

    ghost valid = { IsAny };

    ghost residue_of = { any_residue };

    ghost undone = { any_undone };

    ghost longest = { any_longest };

    fn start(&self, alloc: Global) -> Result<AnyState, AllocError> {
        Ok(match self {
            AnyModel::BuiltIn(model) => AnyState::OfBuiltIn(model.start(alloc)?),
            AnyModel::Machine(machine) => AnyState::OfMachine(OnHeap::new(
                alloc,
                machine.start(alloc)?,
            )?),
        })
    }

    fn ta(&self, state: &AnyState) -> Option<u64> {
        match (self, state) {
            (AnyModel::BuiltIn(model), AnyState::OfBuiltIn(state)) => model.ta(state),
            (AnyModel::Machine(machine), AnyState::OfMachine(state)) => machine.ta(state.get()),
            _ => None,
        }
    }

    fn longest_wait(&self) -> Option<u64> {
        match self {
            AnyModel::BuiltIn(model) => model.longest_wait(),
            AnyModel::Machine(machine) => machine.longest_wait(),
        }
    }

    fn output(&self, state: &AnyState, outbox: &mut Outbox) {
        match (self, state) {
            (AnyModel::BuiltIn(model), AnyState::OfBuiltIn(state)) => model.output(state, outbox),
            (AnyModel::Machine(machine), AnyState::OfMachine(state)) => {
                machine.output(state.get(), outbox);
            }
            _ => {}
        }
    }

    fn forward(
        &self,
        alloc: Global,
        state: &mut AnyState,
        turn: Turn,
        elapsed: u64,
        bag: &[(u8, i64)],
    ) -> Result<AnyResidue, AllocError> {
        match (self, state) {
            (AnyModel::BuiltIn(model), AnyState::OfBuiltIn(state)) => {
                let parts = model.forward(alloc, state, turn, elapsed, bag)?;
                Ok(AnyResidue::BuiltInParts(parts))
            }
            (AnyModel::Machine(machine), AnyState::OfMachine(state)) => {
                let parts = machine.forward(alloc, state.get_mut(), turn, elapsed, bag)?;
                Ok(AnyResidue::MachineParts(parts))
            }
            _ => Ok(AnyResidue::Nothing),
        }
    }

    fn transition(
        &self,
        alloc: Global,
        state: &mut AnyState,
        turn: Turn,
        elapsed: u64,
        bag: &[(u8, i64)],
    ) -> Result<(), AllocError>
        requires { CanTurn (IsAny self.now) (any_meaning self.now) turn state.old elapsed bag.now }
        ensures state { state.new ≡ turned (any_meaning self.now) turn state.old elapsed bag.now }
        ensures succeeds { result ≡ Ok tt }
    {
        match (self, state) {
            (AnyModel::BuiltIn(model), AnyState::OfBuiltIn(state)) => {
                model.transition(alloc, state, turn, elapsed, bag)
            }
            (AnyModel::Machine(machine), AnyState::OfMachine(state)) => {
                machine.transition(alloc, state.get_mut(), turn, elapsed, bag)
            }
            _ => Ok(()),
        }
    }

    fn back(
        &self,
        state: &mut AnyState,
        turn: Turn,
        elapsed: u64,
        bag: &[(u8, i64)],
        residue: AnyResidue,
    ) {
        match (self, state, residue) {
            (
                AnyModel::BuiltIn(model),
                AnyState::OfBuiltIn(state),
                AnyResidue::BuiltInParts(parts),
            ) => {
                model.back(state, turn, elapsed, bag, parts);
            }
            (
                AnyModel::Machine(machine),
                AnyState::OfMachine(state),
                AnyResidue::MachineParts(parts),
            ) => {
                machine.back(state.get_mut(), turn, elapsed, bag, parts);
            }
            _ => {}
        }
    }

    fn words(
        &self,
        alloc: Global,
        state: &AnyState,
        words: &mut Vec<i128>,
    ) -> Result<(), AllocError> {
        match (self, state) {
            (AnyModel::BuiltIn(model), AnyState::OfBuiltIn(state)) => {
                model.words(alloc, state, words)
            }
            (AnyModel::Machine(machine), AnyState::OfMachine(state)) => {
                machine.words(alloc, state.get(), words)
            }
            _ => Ok(()),
        }
    }

    fn same(&self, one: &AnyState, other: &AnyState) -> bool {
        match (one, other) {
            (AnyState::OfBuiltIn(one), AnyState::OfBuiltIn(other)) => same_built_in(one, other),
            (AnyState::OfMachine(one), AnyState::OfMachine(other)) => same_machine(
                one.get(),
                other.get(),
            ),
            _ => false,
        }
    }

    fn copy(&self, alloc: Global, state: &AnyState) -> Result<AnyState, AllocError> {
        Ok(match state {
            AnyState::OfBuiltIn(state) => AnyState::OfBuiltIn(Model::Tally.copy(alloc, state)?),
            AnyState::OfMachine(state) => AnyState::OfMachine(copy_of_machine(alloc, state.get())?),
        })
    }

    ghost stays_valid = { any_stays_valid };

    ghost output_fits = { any_output_fits };

    ghost reverses = { any_reverses };
}

/// Whether two states of the five models are equal: any of them compares states of all kinds.
fn same_built_in(one: &State, other: &State) -> bool
    ensures { IsTrue result ↔ (one.now ≡ other.now) }
{
    Model::Tally.same(one, other)
}

/// A copy of a machine's state, on the heap. The only error is want of memory.
fn copy_of_machine(alloc: Global, state: &MachineState) -> Result<OnHeap<MachineState>, AllocError>
    ensures { IfOk result (λ copy. copy ≡ state.now) }
{
    let copy = MachineState {
        memory: state.memory.copied(alloc)?,
        time: state.time,
        left: state.left,
    };
    OnHeap::new(alloc, copy)
}

/// Whether two states of machines are equal.
fn same_machine(one: &MachineState, other: &MachineState) -> bool
    ensures { IsTrue result ↔ (one.now ≡ other.now) }
{
    if one.left != other.left || one.time != other.time {
        return false;
    }
    one.memory.is_same(&other.memory)
}
