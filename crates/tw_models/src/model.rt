//! The five models as one type.
ghost use Rattle.std.specs.Prelude.{◌≡◌, ◌≤◌, ◌<◌, ◌↔◌, ◌⊎◌, Ok, IsOk, IfOk, IfErr, IsErrOf};
ghost use Rattle.tw_atomic.specs.Atomic.{AreAlike, CanTurn, turned};
ghost use Rattle.tw_models.specs.Model.{LiesInPlace, model_meaning, model_undone};
ghost use Rattle.tw_models.specs.declared.bad_model.BadModel.TheVariants.{BadPort, BadTick};

use crate::bad_model::BadModel;
use crate::generator::{Gen, GenState};
use crate::hop::{Hop, HopState};
use crate::on_heap::OnHeap;
use crate::queue::{Queue, QueueResidue, QueueState};
use crate::relay::{Relay, RelayResidue, RelayState};
use crate::tally::{Tally, TallyState};
use std::alloc::{AllocError, Global};
use tw_atomic::{Atomic, Outbox, Turn};

/// One of the five models, with its parameters.
#[derive(Clone, Copy, Debug, PartialEq, Eq)]
pub enum Model {
    /// Sends its value each period.
    Gen(Gen),
    /// Counts and adds what comes.
    Tally,
    /// Holds what comes, and sends it all after its delay.
    Relay(Relay),
    /// Works on one job after another.
    Queue(Queue),
    /// Draws its ports, values and waiting times.
    Hop(Hop),
}

impl Model {
    /// A generator that sends `value` on port 0 each `period` ticks. Refused with
    /// [`BadModel::BadTick`] (10) exactly where the period is not 1 to 1,099,511,627,774.
    pub fn generator(period: u64, value: i64) -> Result<Model, BadModel>
        ensures made { IfOk result
            (λ m. m ≡ Model.Gen (record { period = period; value = value })) }
        ensures in_range { IsOk result ↔ ((1 ≤ period) × (period ≤ 1099511627774)) }
        ensures bad_tick { IfErr result (λ e. e ≡ BadTick) }
    {
        Ok(Model::Gen(Gen::new(period, value)?))
    }

    /// A tally. It is never refused.
    pub fn tally() -> Result<Model, BadModel>
        ensures { result ≡ Ok Model.Tally }
    {
        Ok(Model::Tally)
    }

    /// A relay that holds what comes for `delay` ticks. Refused with [`BadModel::BadTick`] (10) exactly
    /// where the delay is above 1,099,511,627,774.
    pub fn relay(delay: u64) -> Result<Model, BadModel>
        ensures made { IfOk result (λ m. m ≡ Model.Relay (record { delay = delay })) }
        ensures in_range { IsOk result ↔ (delay ≤ 1099511627774) }
        ensures bad_tick { IfErr result (λ e. e ≡ BadTick) }
    {
        Ok(Model::Relay(Relay::new(delay)?))
    }

    /// A queue that works on each job for `service` ticks. Refused with [`BadModel::BadTick`] (10)
    /// exactly where the service is above 1,099,511,627,774.
    pub fn queue(service: u64) -> Result<Model, BadModel>
        ensures made { IfOk result (λ m. m ≡ Model.Queue (record { service = service })) }
        ensures in_range { IsOk result ↔ (service ≤ 1099511627774) }
        ensures bad_tick { IfErr result (λ e. e ≡ BadTick) }
    {
        Ok(Model::Queue(Queue::new(service)?))
    }

    /// A hop that starts with the number `seed`, sends on ports below `ports`, and waits 1 to `spread`
    /// ticks. Refused with [`BadModel::BadPort`] (6) exactly where `ports` is not 1 to 16, and else
    /// with [`BadModel::BadTick`] (10) exactly where `spread` is not 1 to 1,048,576.
    pub fn hop(seed: u64, ports: u64, spread: u64) -> Result<Model, BadModel>
        ensures made { IfOk result
            (λ m. m ≡ Model.Hop (record { seed = seed; ports = ports; spread = spread })) }
        ensures in_range { IsOk result
            ↔ ((1 ≤ ports) × (ports ≤ 16) × (1 ≤ spread) × (spread ≤ 1048576)) }
        ensures bad_port { IsErrOf result BadPort ↔ ((ports < 1) ⊎ (16 < ports)) }
        ensures bad_tick { IsErrOf result BadTick
            ↔ ((1 ≤ ports) × (ports ≤ 16) × ((spread < 1) ⊎ (1048576 < spread))) }
    {
        Ok(Model::Hop(Hop::new(seed, ports, spread)?))
    }
}

/// A state of one of the models. A large one lies on the heap, so that a state of any of them takes
/// no more room than a small one, 32 bytes.
#[derive(Drop)]
pub enum State {
    OfGen(GenState),
    OfTally(TallyState),
    OfRelay(OnHeap<RelayState>),
    OfQueue(OnHeap<QueueState>),
    OfHop(HopState),
}

/// What a transition of one of the models keeps of the state before it.
#[derive(Drop)]
pub enum Residue {
    /// Nothing: the state before is computed.
    Nothing,
    /// The last value of a tally.
    TallyLast(i64),
    /// What a relay accepted and sent.
    RelayParts(RelayResidue),
    /// What a queue accepted and sent.
    QueueParts(QueueResidue),
}

impl Atomic for Model {
    ghost use Rattle.tw_models.specs.Model.{
      IsModel,
      model_longest,
      model_meaning,
      model_residue,
      model_undone,
    };
    ghost use Rattle.tw_models.specs.ModelLaws.{model_stays_valid, model_output_fits, model_reverses};

    type State = State;

    type Residue = Residue;

    ghost meaning = { model_meaning };

    ghost valid = { IsModel };

    ghost residue_of = { λ m turn s elapsed bag. model_residue m turn s bag };

    ghost undone = { model_undone };

    ghost longest = { model_longest };

    fn start(&self, alloc: Global) -> Result<State, AllocError>
        ensures start { IfOk result (λ s. s ≡ (model_meaning self.now).start) }
        ensures valid_state { IfOk result (IsModel self.now) }
        ensures in_place { LiesInPlace (model_meaning self.now).start → IsOk result }
    {
        Ok(match self {
            Model::Gen(model) => State::OfGen(model.start(alloc)?),
            Model::Tally => State::OfTally(Tally.start(alloc)?),
            Model::Relay(model) => State::OfRelay(OnHeap::new(alloc, model.start(alloc)?)?),
            Model::Queue(model) => State::OfQueue(OnHeap::new(alloc, model.start(alloc)?)?),
            Model::Hop(model) => State::OfHop(model.start(alloc)?),
        })
    }

    fn ta(&self, state: &State) -> Option<u64> {
        match (self, state) {
            (Model::Gen(model), State::OfGen(state)) => model.ta(state),
            (Model::Tally, State::OfTally(state)) => Tally.ta(state),
            (Model::Relay(model), State::OfRelay(state)) => model.ta(state.get()),
            (Model::Queue(model), State::OfQueue(state)) => model.ta(state.get()),
            (Model::Hop(model), State::OfHop(state)) => model.ta(state),
            _ => None,
        }
    }

    fn longest_wait(&self) -> Option<u64> {
        match self {
            Model::Gen(model) => model.longest_wait(),
            Model::Tally => Tally.longest_wait(),
            Model::Relay(model) => model.longest_wait(),
            Model::Queue(model) => model.longest_wait(),
            Model::Hop(model) => model.longest_wait(),
        }
    }

    fn output(&self, state: &State, outbox: &mut Outbox) {
        match (self, state) {
            (Model::Gen(model), State::OfGen(state)) => model.output(state, outbox),
            (Model::Tally, State::OfTally(state)) => Tally.output(state, outbox),
            (Model::Relay(model), State::OfRelay(state)) => model.output(state.get(), outbox),
            (Model::Queue(model), State::OfQueue(state)) => model.output(state.get(), outbox),
            (Model::Hop(model), State::OfHop(state)) => model.output(state, outbox),
            _ => {}
        }
    }

    fn forward(
        &self,
        alloc: Global,
        state: &mut State,
        turn: Turn,
        elapsed: u64,
        bag: &[(u8, i64)],
    ) -> Result<Residue, AllocError> {
        match (self, state) {
            (Model::Gen(model), State::OfGen(state)) => {
                model.forward(alloc, state, turn, elapsed, bag)?;
                Ok(Residue::Nothing)
            }
            (Model::Tally, State::OfTally(state)) => {
                let last = Tally.forward(alloc, state, turn, elapsed, bag)?;
                Ok(Residue::TallyLast(last))
            }
            (Model::Relay(model), State::OfRelay(state)) => {
                let parts = model.forward(alloc, state.get_mut(), turn, elapsed, bag)?;
                Ok(Residue::RelayParts(parts))
            }
            (Model::Queue(model), State::OfQueue(state)) => {
                let parts = model.forward(alloc, state.get_mut(), turn, elapsed, bag)?;
                Ok(Residue::QueueParts(parts))
            }
            (Model::Hop(model), State::OfHop(state)) => {
                model.forward(alloc, state, turn, elapsed, bag)?;
                Ok(Residue::Nothing)
            }
            _ => Ok(Residue::Nothing),
        }
    }

    fn transition(
        &self,
        alloc: Global,
        state: &mut State,
        turn: Turn,
        elapsed: u64,
        bag: &[(u8, i64)],
    ) -> Result<(), AllocError>
        requires { CanTurn (IsModel self.now)
            (model_meaning self.now) turn state.old elapsed bag.now }
        ensures state { state.new ≡ turned (model_meaning self.now) turn state.old elapsed bag.now }
        ensures succeeds { result ≡ Ok tt }
    {
        match (self, state) {
            (Model::Gen(model), State::OfGen(state)) => {
                model.transition(alloc, state, turn, elapsed, bag)
            }
            (Model::Tally, State::OfTally(state)) => {
                Tally.transition(alloc, state, turn, elapsed, bag)
            }
            (Model::Relay(model), State::OfRelay(state)) => {
                model.transition(alloc, state.get_mut(), turn, elapsed, bag)
            }
            (Model::Queue(model), State::OfQueue(state)) => {
                model.transition(alloc, state.get_mut(), turn, elapsed, bag)
            }
            (Model::Hop(model), State::OfHop(state)) => {
                model.transition(alloc, state, turn, elapsed, bag)
            }
            _ => Ok(()),
        }
    }

    fn back(
        &self,
        state: &mut State,
        turn: Turn,
        elapsed: u64,
        bag: &[(u8, i64)],
        residue: Residue,
    ) {
        match (self, state, residue) {
            (Model::Gen(model), State::OfGen(state), _) => {
                model.back(state, turn, elapsed, bag, ());
            }
            (Model::Tally, State::OfTally(state), Residue::TallyLast(last)) => {
                Tally.back(state, turn, elapsed, bag, last);
            }
            (Model::Relay(model), State::OfRelay(state), Residue::RelayParts(parts)) => {
                model.back(state.get_mut(), turn, elapsed, bag, parts);
            }
            (Model::Queue(model), State::OfQueue(state), Residue::QueueParts(parts)) => {
                model.back(state.get_mut(), turn, elapsed, bag, parts);
            }
            (Model::Hop(model), State::OfHop(state), _) => {
                model.back(state, turn, elapsed, bag, ());
            }
            _ => {}
        }
    }

    fn words(&self, alloc: Global, state: &State, words: &mut Vec<i128>) -> Result<(), AllocError> {
        match (self, state) {
            (Model::Gen(model), State::OfGen(state)) => model.words(alloc, state, words),
            (Model::Tally, State::OfTally(state)) => Tally.words(alloc, state, words),
            (Model::Relay(model), State::OfRelay(state)) => model.words(alloc, state.get(), words),
            (Model::Queue(model), State::OfQueue(state)) => model.words(alloc, state.get(), words),
            (Model::Hop(model), State::OfHop(state)) => model.words(alloc, state, words),
            _ => Ok(()),
        }
    }

    fn same(&self, one: &State, other: &State) -> bool {
        match (one, other) {
            (State::OfGen(one), State::OfGen(other)) => one == other,
            (State::OfTally(one), State::OfTally(other)) => one == other,
            (State::OfRelay(one), State::OfRelay(other)) => one.get().is_same(other.get()),
            (State::OfQueue(one), State::OfQueue(other)) => one.get().is_same(other.get()),
            (State::OfHop(one), State::OfHop(other)) => one == other,
            _ => false,
        }
    }

    fn copy(&self, alloc: Global, state: &State) -> Result<State, AllocError>
        ensures copy { IfOk result (λ copy. copy ≡ state.now) }
        ensures in_place { LiesInPlace state.now → IsOk result }
    {
        Ok(match state {
            State::OfGen(state) => State::OfGen(*state),
            State::OfTally(state) => State::OfTally(*state),
            State::OfRelay(state) => State::OfRelay(state.get().on_heap(alloc)?),
            State::OfQueue(state) => State::OfQueue(state.get().on_heap(alloc)?),
            State::OfHop(state) => State::OfHop(*state),
        })
    }

    ghost stays_valid = { model_stays_valid };

    ghost output_fits = { model_output_fits };

    ghost reverses = { λ m turn s elapsed bag can. model_reverses m turn s elapsed bag can };
}

/// Models of one meaning take back alike, so that each can take back what the other made: a chain of one is run back by the
/// other. It does nothing.
pub fn alike_law()
    ensures { (m n : Model) → model_meaning m ≡ model_meaning n
        → AreAlike model_meaning model_undone m n }
{}
