//! Rounds: all outputs of a time, their routing, and then all transitions of that time.

ghost use Rattle.std.specs.Prelude.{◌≡◌, ◌<◌, ◌≤◌, ◌+◌, [], None, drop, length, replicate, IfOk, IfNone, IfSome, OnOk};
ghost use Rattle.std.specs.List.{AllByRecursion as Each};
ghost use Rattle.tw_network.specs.Contents.{network_of};
ghost use Rattle.tw_msgs.specs.Messages.{sorted_messages};
ghost use Rattle.tw_rounds.specs.Agenda.{dues};
ghost use Rattle.tw_rounds.specs.Dealing.{Carried};
ghost use Rattle.tw_rounds.specs.InOrder.{start_in_order};
ghost use Rattle.tw_rounds.specs.Invariant.{IsUnderway, HaveTimes};
ghost use Rattle.tw_rounds.specs.Receiving.{Receives};
ghost use Rattle.tw_theory.specs.Bundles.{Ascending};
ghost use Rattle.tw_theory.specs.Simulator.{first_stop, least_input, round_time, turn_records};
ghost use Rattle.tw_vtime.specs.Stamps.{max_tick, tick_of};
ghost use Rattle.tw_rounds.specs.Turning.{outputs_in, turns_of, past, IfGoing};

use crate::bags::Arrivals;
use crate::bench::Bench;
use crate::outputs::{Sending, make_outputs};
use crate::receiver::Receiver;
use crate::round::Round;
use crate::turns::make_turns;
use std::alloc::{AllocError, Global};
use std::marker::Model;
use tw_atomic::Atomic;
use tw_msgs::Message;
use tw_network::Network;
use tw_step::{Moment, start_moment};
use tw_tournament::Tournament;
use tw_vtime::{Limit, Stamp};

/// A run between two rounds: where each component stands, the inputs in order, of which those from place
/// `given` on are to come.
#[derive(Drop)]
pub(crate) struct Running<S: Drop> {
    moments: Vec<Moment<S>>,
    inputs: Vec<Message>,
    given: usize,
}

impl<S: Drop> Model for Running<S> {
    ghost use Rattle.std.specs.Prelude.{None, [], drop};
    ghost use Rattle.tw_theory.specs.Simulator.{Run};

    ghost Value = { Run S };

    ghost view = { λ r. record {
      at = record { moments = r.moments.items; inputs = drop r.given r.inputs.items };
      records = [];
      fault = None;
    } };
}

impl<S: Drop> Running<S> {
    /// The time of the next round, if it is before `end`.
    pub(crate) fn next_time(&self, agenda: &Tournament, end: Stamp) -> Option<Stamp>
        requires agenda { agenda.now.times ≡ dues self.now.at.moments }
        requires inputs { HaveTimes self.now.at.inputs }
        requires order { Ascending self.now.at.inputs }
        ensures none { IfNone result (end ≤ round_time self.now.at) }
        ensures time { IfSome result (λ time. time ≡ round_time self.now.at) }
        ensures before { IfSome result (λ time. time < end) }
    {
        let due = agenda.least();
        let input = next_input(&self.inputs, self.given);
        let time = if input < due { input } else { due };
        if time < end { Some(time) } else { None }
    }
}

/// The least time of an input from place `given` on, as the stamp of its output.
fn next_input(inputs: &[Message], given: usize) -> Stamp
    requires inputs { HaveTimes (drop given inputs.now) }
    requires order { Ascending (drop given inputs.now) }
    ensures { result ≡ least_input (drop given inputs.now) }
{
    match inputs.get(given) {
        Some(message) => message.stamp.output(),
        None => Stamp::END,
    }
}

/// The network inputs as messages, in order.
fn start_inputs<M: Atomic>(alloc: Global, network: &Network<M>) -> Result<Vec<Message>, AllocError>
    ensures inputs { let inputs = (network_of M.meaning network.now).inputs in
        IfOk result (λ sorted. sorted.items ≡ sorted_messages inputs) }
    ensures carried { IfOk result (λ inputs. Each Carried inputs.items) }
{
    network.facts();
    let mut inputs = Vec::new(alloc);
    for (tick, to, port, value) in network.inputs() {
        inputs.push(Message {
            stamp: Stamp::new(*tick, 0, 1).unwrap(),
            port: *port,
            value: *value,
            to: *to,
        })?;
    }
    inputs.sort_unstable();
    Ok(inputs)
}

/// A run of the network before its first round.
pub(crate) fn start<M: Atomic>(
    alloc: Global,
    network: &Network<M>,
) -> Result<Running<M::State>, AllocError>
    ensures run { IfOk result (λ run. run ≡ start_in_order (network_of M.meaning network.now)) }
    ensures underway { IfOk result (IsUnderway M.valid M.meaning network.now 0) }
{
    network.facts();
    let mut moments = Vec::new(alloc);
    for component in 0..network.len() {
        moments.push(start_moment(alloc, network.model(component))?)?;
    }
    Ok(Running {
        moments,
        inputs: start_inputs(alloc, network)?,
        given: 0,
    })
}

/// The agenda of components that stand so.
fn start_agenda<S: Drop>(alloc: Global, moments: &[Moment<S>]) -> Result<Tournament, AllocError>
    requires { length moments.now ≤ 4294967296 }
    ensures { IfOk result (λ agenda. agenda.times ≡ dues moments.now) }
{
    let mut agenda = Tournament::new(alloc, moments.len())?;
    for (component, now) in moments.iter().enumerate() {
        agenda.set(component, now.due);
    }
    Ok(agenda)
}

/// The bench before the first round of a run.
pub(crate) fn start_bench<S: Drop>(alloc: Global, run: &Running<S>) -> Result<Bench, AllocError>
    requires { length run.now.at.moments ≤ 4294967296 }
    ensures agenda { IfOk result (λ bench. bench.agenda.times ≡ dues run.now.at.moments) }
    ensures bags { let count = length run.now.at.moments in
        IfOk result (λ bench. bench.arrivals.bags.items ≡ replicate count []) }
{
    Ok(Bench {
        agenda: start_agenda(alloc, &run.moments)?,
        arrivals: Arrivals::new(alloc, run.moments.len())?,
        imminent: Vec::new(alloc),
        sending: Sending::new(alloc),
        words: Vec::new(alloc),
    })
}

/// Makes a round, and hands its outputs to one receiver and then its transitions to another. Answers the
/// least component that met a limit, with that limit; then the second receiver has got a part of the transitions,
/// which the run does not have, and the run has ended.
pub(crate) fn make_round<M: Atomic, R: Receiver>(
    alloc: Global,
    round: &Round<'_, M>,
    run: &mut Running<M::State>,
    bench: &mut Bench,
    outputs: &mut R,
    transitions: &mut R,
) -> Result<Option<(usize, Limit)>, AllocError>
    requires time { tick_of round.now.time < max_tick }
    requires underway { IsUnderway M.valid M.meaning round.now.network.now round.now.time run.old }
    requires agenda { bench.old.agenda.times ≡ dues run.old.at.moments }
    requires bags { bench.old.arrivals.bags.items ≡ replicate (length run.old.at.moments) [] }
    ensures outputs { let made = outputs_in M.meaning round.now run.old.at.moments in
        OnOk result (Receives R.takes outputs.old made outputs.new) }
    ensures transitions { let turns = turns_of M.meaning round.now run.old in
        IfGoing result (Receives R.takes transitions.old (turn_records turns) transitions.new) }
    ensures stop { IfOk result
        (λ stop. stop ≡ first_stop 0 (turns_of M.meaning round.now run.old)) }
    ensures going { IfGoing result (run.new ≡ past M.meaning round.now run.old) }
    ensures underway { let next = round.now.time + 2 in
        IfGoing result (IsUnderway M.valid M.meaning round.now.network.now next run.new) }
    ensures agenda { IfGoing result (bench.new.agenda.times ≡ dues run.new.at.moments) }
    ensures bags { let count = length run.new.at.moments in
        IfGoing result (bench.new.arrivals.bags.items ≡ replicate count []) }
{
    round.network.facts();
    bench.arrivals.awake.clear();
    bench.imminent.clear();
    bench.agenda.collect(round.time, &mut bench.imminent)?;
    make_outputs(
        round,
        &run.moments,
        &bench.imminent,
        &mut bench.sending,
        &mut bench.arrivals,
        outputs,
    )?;
    let at = round.time.transition();
    let given = bench.arrivals.deliver_inputs(&run.inputs, run.given, at)?;
    bench.arrivals.wake(&bench.imminent)?;
    let stop = make_turns(alloc, round, &mut run.moments, bench, transitions)?;
    run.given = given;
    Ok(stop)
}
