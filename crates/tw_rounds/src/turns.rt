//! The transitions of a round.

ghost use Rattle.std.specs.Prelude.{◌≡◌, ◌==◌, ◌<◌, ◌+◌, IfOk, length, [], replicate, true, false};
ghost use Rattle.std.specs.List.{AllByRecursion as Each};
ghost use Rattle.tw_atomic.specs.Atomic.{FitsBag};
ghost use Rattle.tw_rounds.specs.Agenda.{dues};
ghost use Rattle.tw_rounds.specs.Receiving.{Receives};
ghost use Rattle.tw_rounds.specs.Turning.{part_of, past_output, CanGoOn, IsTurn, turns_in, IfGoing};
ghost use Rattle.tw_rounds.specs.Waking.{IsInTurn};
ghost use Rattle.tw_theory.specs.Simulator.{turn_records, turned_moments, first_stop};
ghost use Rattle.tw_vtime.specs.Stamps.{max_tick, tick_of, phase_of};
ghost use Rattle.tw_rounds.specs.Invariant.{StandsIn, AllStandIn};

use crate::bench::Bench;
use crate::receiver::Receiver;
use crate::round::Round;
use std::alloc::{AllocError, Global};
use tw_atomic::Atomic;
use tw_msgs::{Bag, RecordKind};
use tw_step::{Moment, pass_turn};
use tw_vtime::{Limit, Stamp};

/// What a component did at the transition of a round.
#[derive(Clone, Copy, Debug)]
pub(crate) enum Taken {
    /// Nothing: it is not imminent, and nothing came.
    Stays,
    /// A transition of this kind.
    Moves(RecordKind),
    /// A transition after which its next own step would pass this limit.
    Stops(Limit),
}

/// Whether a component that is imminent or not, with an empty bag or not, has a turn.
fn has_turn(imminent: bool, empty: bool) -> bool
    ensures some { result ≡ true → imminent ≡ false → empty ≡ false }
    ensures none { result ≡ false → (imminent ≡ false) × (empty ≡ true) }
{
    imminent || !empty
}

/// Whether a component is imminent at a time. If it is, its output of that time is made now.
fn pass_output<S: Drop>(now: &mut Moment<S>, time: Stamp) -> bool
    requires { phase_of time ≡ 0 }
    ensures imminent { result ≡ (now.old.due == time) }
    ensures now { now.new ≡ past_output time now.old }
{
    let imminent = now.due == time;
    if imminent {
        now.after_output(time);
    }
    imminent
}

/// Makes the transition of a component in a round, if it is imminent or receives something: its bag is sorted, and
/// `words` are those of its new state. Without a limit it then stands where the definition says; with one, its state
/// is of no more use.
fn take_turn<M: Atomic>(
    alloc: Global,
    round: &Round<'_, M>,
    component: usize,
    now: &mut Moment<M::State>,
    bag: &mut Bag,
    words: &mut Vec<i128>,
) -> Result<Taken, AllocError>
    requires component { component < length round.now.network.now.models }
    requires time { tick_of round.now.time < max_tick }
    requires even { phase_of round.now.time ≡ 0 }
    requires standing { StandsIn M.valid M.meaning round.now component round.now.time now.old }
    requires fits { FitsBag bag.old }
    ensures turn { IfOk result (λ taken.
        let part = part_of component (round.now.time + 1) bag.new words.new.items taken in
        IsTurn M.meaning round.now component now.old bag.old part now.new) }
    ensures kept { IfOk result (λ taken. taken ≡ Taken.Stays → now.new ≡ now.old) }
    ensures standing { IfOk result (λ taken. CanGoOn taken →
        StandsIn M.valid M.meaning round.now component (round.now.time + 2) now.new) }
{
    bag.sort();
    let imminent = pass_output(now, round.time);
    if !has_turn(imminent, bag.is_empty()) {
        return Ok(Taken::Stays);
    }
    let network = round.network;
    network.facts();
    let model = network.model(component);
    let at = round.time.transition();
    match pass_turn(alloc, model, now, at, bag.as_slice(), network.micro_limit())? {
        Ok(kind) => {
            words.clear();
            model.words(alloc, &now.state, words)?;
            Ok(Taken::Moves(kind))
        }
        Err(limit) => Ok(Taken::Stops(limit)),
    }
}

/// Makes the transition of each component that is awake in a round, hands them to the receiver, and puts their next
/// own steps on the agenda. Where a component meets a limit, the least one is answered, and the receiver has got a part
/// of the transitions.
pub(crate) fn make_turns<M: Atomic, R: Receiver>(
    alloc: Global,
    round: &Round<'_, M>,
    moments: &mut [Moment<M::State>],
    bench: &mut Bench,
    receiver: &mut R,
) -> Result<Option<(usize, Limit)>, AllocError>
    requires time { tick_of round.now.time < max_tick }
    requires even { phase_of round.now.time ≡ 0 }
    requires moments { AllStandIn M.valid M.meaning round.now round.now.time moments.old }
    requires bags { length bench.old.arrivals.bags.items ≡ length round.now.network.now.models }
    requires fits { Each FitsBag bench.old.arrivals.bags.items }
    requires awake { let arrivals = bench.old.arrivals in
        IsInTurn round.now.time moments.old arrivals.bags.items arrivals.awake.items }
    requires agenda { bench.old.agenda.times ≡ dues moments.old }
    ensures stop { let bags = bench.old.arrivals.bags.items in
        IfOk result (λ stop. stop ≡ first_stop 0 (turns_in M.meaning round.now moments.old bags)) }
    ensures received { let bags = bench.old.arrivals.bags.items in
        let turns = turns_in M.meaning round.now moments.old bags in
        IfGoing result (Receives R.takes receiver.old (turn_records turns) receiver.new) }
    ensures moments { let bags = bench.old.arrivals.bags.items in
        let turns = turns_in M.meaning round.now moments.old bags in
        IfGoing result (moments.new ≡ turned_moments moments.old turns) }
    ensures standing { let next = round.now.time + 2 in
        IfGoing result (AllStandIn M.valid M.meaning round.now next moments.new) }
    ensures bags { let count = length round.now.network.now.models in
        IfGoing result (bench.new.arrivals.bags.items ≡ replicate count []) }
    ensures agenda { IfGoing result (bench.new.agenda.times ≡ dues moments.new) }
{
    let at = round.time.transition();
    let agenda = &mut bench.agenda;
    let words = &mut bench.words;
    let awake = &bench.arrivals.awake;
    let bags = bench.arrivals.bags.as_mut_slice();
    for component in awake {
        let component = *component;
        let bag = &mut bags[component];
        let now = &mut moments[component];
        match take_turn(alloc, round, component, now, bag, words)? {
            Taken::Stays => {}
            Taken::Moves(kind) => {
                receiver.take(component, at, kind, bag, words)?;
                agenda.set(component, now.due);
            }
            Taken::Stops(limit) => return Ok(Some((component, limit))),
        }
        bag.clear();
    }
    Ok(None)
}
