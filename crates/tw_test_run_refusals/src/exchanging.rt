//! The exchange, driven on one thread.

ghost use Rattle.std.specs.Prelude.{◌≡◌};

use crate::chains::is_refused;
use crate::looking::look;
use crate::made::{exchange_of, executive_of};
use crate::playing::commands_of;
use crate::scenes::{Share, Turn};
use crate::telling::{
    name_of, tell_component, tell_fault, tell_number, tell_report, tell_seen, tell_trace,
};
use std::alloc::{AllocError, Global};
use tw_any_model::AnyModel;
use tw_board::Reader;
use tw_exec::{Action, Executive, Refused};
use tw_network::Network;
use tw_process::Finished;
use tw_script::Command;
use tw_test_refusal_tools::{Sum, Told, add_records};
use tw_workers::{Exchange, Open, Order, State, compute};

// How often something is tried at most that a second try ends.
const TRIES: usize = 3;

// How many chains a whole run takes at most.
const CHAINS: usize = 1_000;

// How many components a scene has at most.
const COMPONENTS: usize = 4;

// How many ticks ahead of global virtual time components may run.
const WINDOW: u64 = 1_000;

/// The sum over the executive of an exchange, and which component comes next.
fn look_at(told: &mut Told, alloc: Global, exchange: &Exchange<AnyModel>) -> Sum {
    let mut sum = look(told, alloc, exchange.executive());
    for window in [0, WINDOW] {
        sum.add_count(exchange.next(window).unwrap_or(COMPONENTS));
    }
    sum
}

/// Takes an action, at the second try where memory is refused at the first.
fn act(told: &mut Told, alloc: Global, exchange: &mut Exchange<AnyModel>, action: &Action) {
    let before = look_at(told, alloc, exchange);
    if exchange.act(*action) == Err(Refused::OutOfMemory) {
        let after = look_at(told, alloc, exchange);
        told.compare("act", before, after);
        if exchange.act(*action).is_err() {
            told.give_up("act");
        }
    }
}

/// Takes the actions of a script.
fn follow(told: &mut Told, alloc: Global, exchange: &mut Exchange<AnyModel>, commands: &[Command]) {
    for command in commands {
        if let Command::Act(action) = *command {
            act(told, alloc, exchange, &action);
        }
    }
}

/// Gives out the component that comes next, at the second try where memory is refused at the first.
fn draw(
    told: &mut Told,
    alloc: Global,
    exchange: &mut Exchange<AnyModel>,
) -> Option<Order<AnyModel>> {
    let before = look_at(told, alloc, exchange);
    if let Ok(drawn) = exchange.draw_near(1, WINDOW, 0) {
        return drawn;
    }
    let after = look_at(told, alloc, exchange);
    told.compare("draw_near", before, after);
    match exchange.draw_near(1, WINDOW, 0) {
        Ok(drawn) => drawn,
        Err(_) => None,
    }
}

/// A chain of the component that comes next, which is handed in. None where nothing is to be given out.
fn hand_in(
    exchange: &mut Exchange<AnyModel>,
    burst: usize,
) -> Result<Option<Finished>, AllocError> {
    let Some(order) = exchange.draw(burst, WINDOW)? else {
        return Ok(None);
    };
    let component = order.component();
    if component >= exchange.executive().network().len() {
        exchange.give_back(order);
        return Ok(None);
    }
    let network = exchange.executive().network();
    let prepareds = compute(order, network.model(component), &Open);
    Ok(exchange.finish(prepareds).ok())
}

/// A chain of the component that comes next, of so many steps: how many of them were made, and whether it went no further for want
/// of memory.
fn chain_once(
    told: &mut Told,
    alloc: Global,
    exchange: &mut Exchange<AnyModel>,
    burst: usize,
) -> (usize, bool) {
    let before = look_at(told, alloc, exchange);
    match hand_in(exchange, burst) {
        Ok(Some(finished)) => (finished.installed, is_refused(finished)),
        Ok(None) => (0, false),
        Err(_) => {
            let after = look_at(told, alloc, exchange);
            told.compare("draw", before, after);
            (0, true)
        }
    }
}

/// So many steps of the component that comes next by chains, as many as are needed, and how many were made.
fn chain(told: &mut Told, alloc: Global, exchange: &mut Exchange<AnyModel>, burst: usize) -> usize {
    let mut made: usize = 0;
    for _ in 0..TRIES {
        let (more, is_refused) = chain_once(told, alloc, exchange, burst.saturating_sub(made));
        made = made.saturating_add(more);
        if !is_refused {
            break;
        }
    }
    made
}

/// So many steps of the component that comes second, while the first is given out.
fn chain_behind(told: &mut Told, alloc: Global, exchange: &mut Exchange<AnyModel>, burst: usize) {
    let Some(first) = draw(told, alloc, exchange) else {
        told.give_up("draw_near");
        return;
    };
    let made = chain(told, alloc, exchange, burst);
    exchange.give_back(first);
    tell_number(told, "installed", made);
}

/// How many records each component has committed.
fn lengths_of(executive: &Executive<AnyModel>) -> [usize; COMPONENTS] {
    let mut lengths = [0; COMPONENTS];
    for component in 0..executive.network().len().min(COMPONENTS) {
        lengths[component] = executive.committed(component).len();
    }
    lengths
}

/// The sum over the first records of each component, so many, where there are as many.
fn beginnings(executive: &Executive<AnyModel>, lengths: [usize; COMPONENTS]) -> Sum {
    let mut sum = Sum::new();
    for component in 0..executive.network().len().min(COMPONENTS) {
        if let Some(first) = executive.committed(component).get(..lengths[component]) {
            add_records(&mut sum, first);
        }
    }
    sum
}

/// Sweeps, at the second try where the first is cut short: global virtual time has not fallen then, what was committed is, and
/// nothing is posted.
fn sweep(told: &mut Told, exchange: &mut Exchange<AnyModel>, reader: &mut Reader) {
    let gvt = exchange.executive().gvt();
    let lengths = lengths_of(exchange.executive());
    let before = beginnings(exchange.executive(), lengths);
    let seen = reader.see();
    if exchange.sweep().is_ok() {
        return;
    }
    let after = beginnings(exchange.executive(), lengths);
    told.compare("sweep", before, after);
    told.expect(
        "sweep",
        gvt <= exchange.executive().gvt() && seen == reader.see(),
    );
    if exchange.sweep().is_err() {
        told.give_up("sweep");
    }
}

/// Settles, at the second try where the first is cut short; nothing is committed.
fn settle(told: &mut Told, exchange: &mut Exchange<AnyModel>) {
    let gvt = exchange.executive().gvt();
    let committed = exchange.executive().committed_len();
    if exchange.settle().is_err() && exchange.settle().is_err() {
        told.give_up("settle");
    }
    let executive = exchange.executive();
    told.expect(
        "settle",
        gvt == executive.gvt() && committed == executive.committed_len(),
    );
}

/// How the run stands, at the second try where the first finds no memory.
fn state_of(told: &mut Told, alloc: Global, exchange: &mut Exchange<AnyModel>) -> Option<State> {
    let before = look_at(told, alloc, exchange);
    let first = exchange.state();
    let after = look_at(told, alloc, exchange);
    told.compare("state", before, after);
    match first {
        Ok(state) => Some(state),
        Err(_) => exchange.state().ok(),
    }
}

/// Tells a state of a run of a network.
fn tell_found(told: &mut Told, network: &Network<AnyModel>, state: State) {
    match state {
        State::Going => told.say("going\n"),
        State::Complete => told.say("complete\n"),
        State::Fault(fault) => tell_fault(told, name_of(network, fault.component), &fault),
    }
}

/// Tells how the run stands.
fn tell_state(told: &mut Told, alloc: Global, exchange: &mut Exchange<AnyModel>) {
    if let Some(state) = state_of(told, alloc, exchange) {
        tell_found(told, exchange.executive().network(), state);
    } else {
        told.give_up("state");
    }
}

/// Chains of so many steps, and what they send passed on, until nothing is left to be given out or so many were made.
fn work(told: &mut Told, alloc: Global, exchange: &mut Exchange<AnyModel>, burst: usize) {
    for _ in 0..CHAINS {
        if chain(told, alloc, exchange, burst) == 0 {
            return;
        }
        settle(told, exchange);
    }
}

/// Takes one turn of a scene.
fn take_turn(
    told: &mut Told,
    alloc: Global,
    exchange: &mut Exchange<AnyModel>,
    reader: &mut Reader,
    turn: &Turn,
) {
    match *turn {
        Turn::Lines(script) => match commands_of(alloc, exchange.executive(), script) {
            Some(commands) => follow(told, alloc, exchange, commands.as_slice()),
            None => told.give_up("commands_of_script"),
        },
        Turn::Behind(burst) => chain_behind(told, alloc, exchange, burst),
        Turn::Work(burst) => work(told, alloc, exchange, burst),
        Turn::Settle => settle(told, exchange),
        Turn::Sweep => sweep(told, exchange, reader),
        _ => tell(told, alloc, exchange, reader, turn),
    }
}

/// Tells what a turn asks for.
fn tell(
    told: &mut Told,
    alloc: Global,
    exchange: &mut Exchange<AnyModel>,
    reader: &mut Reader,
    turn: &Turn,
) {
    match *turn {
        Turn::Describe(component) => tell_component(told, alloc, exchange.executive(), component),
        Turn::State => tell_state(told, alloc, exchange),
        Turn::Seen => tell_seen(told, reader.see()),
        Turn::Trace => tell_trace(told, alloc, exchange.executive()),
        _ => tell_report(told, alloc, exchange.executive()),
    }
}

/// Plays a scene.
pub(crate) fn play(told: &mut Told, alloc: Global, share: &Share) {
    told.begin(share.name);
    let Some(executive) = executive_of(alloc, &share.run) else {
        told.give_up("new");
        return;
    };
    let Some((mut exchange, mut reader)) = exchange_of(alloc, executive) else {
        told.give_up("Exchange::new");
        return;
    };
    for turn in share.turns {
        take_turn(told, alloc, &mut exchange, &mut reader, turn);
    }
}
