//! The exchange by worked examples, driven on one thread.

ghost use Rattle.std.specs.Prelude.{◌≡◌};

use super::helpers::{
    G, R, T, assert_relay, chain_of, exchange_of, in_a_row, order_of, stamp, text_of,
};
use std::alloc::Global;
use std::process::Abort;
use tw_chain::Cause;
use tw_exec::Action;
use tw_models::Model;
use tw_process::{Cancel, Finished, Stop};
use tw_vtime::Stamp;
use tw_workers::{Exchange, State};

/// Takes these actions in turn.
fn act_all(rt: &impl Abort, exchange: &mut Exchange<Model>, actions: &[Action])
    ensures network { exchange.new.executive.network ≡ exchange.old.executive.network }
    ensures until { exchange.new.executive.until ≡ exchange.old.executive.until }
{
    for action in actions {
        assert!(rt; exchange.act(*action).is_ok());
    }
}

/// Nothing is made of a chain that is stale from its start on.
const STALE: Finished = Finished {
    installed: 0,
    stop: Stop::Stale,
};

/// All three steps are made of a chain whose component stands where it started.
const MADE: Finished = Finished {
    installed: 3,
    stop: Stop::Ended(Cause::All),
};

/// The relay before its steps, with the generator's message.
const OVERTAKEN: &str = "\
r line 0.0.0 next 2.0.1 due end last 0.0 steps 0 pending 2 waiting 0 outgoing 0 mail 0 | 0
pending 0=5 at 2.0.1
pending 0=8 at 3.0.1
";

/// The relay after one step.
const ONE_STEP: &str =
    "r line 0.0.0 next 4.0.0 due 4.0.0 last 3.0 steps 1 pending 0 waiting 0 outgoing 0 mail 0 | 0 8\n";

/// The relay after three steps.
const THREE_STEPS: &str = "\
r line 0.0.0 next end due end last 4.0 steps 3 pending 0 waiting 0 outgoing 1 mail 0 | 0
outgoing + t 0=8 at 4.0.1
";

/// Asserts what is made of a chain of three steps of the relay before which these actions come, and what is seen of the relay then.
/// The chain was drawn after an order of the generator, which is given back.
fn assert_made(rt: &impl Abort, alloc: Global, before: &[Action], made: Finished, seen: &str) {
    let mut exchange = exchange_of(rt, alloc, in_a_row(rt, alloc, Cancel::Aggressive));
    let generator = order_of(rt, &mut exchange, G);
    let chain = chain_of(rt, &mut exchange, R);
    exchange.give_back(generator);
    act_all(rt, &mut exchange, before);
    assert!(rt; exchange.finish(chain) == Ok(made));
    assert_relay(rt, alloc, exchange.executive(), seen);
    drop(exchange);
}

/// The generator's message comes; or a step of the relay's own; or that step and its way back.
#[test]
fn a_chain_is_stale_where_its_component_stands_elsewhere(rt: HostRuntime) {
    let alloc = rt.alloc();
    let message = [Action::Step(G), Action::Post(G), Action::Deliver(R, 0)];
    assert_made(&rt, alloc, &message, STALE, OVERTAKEN);
    assert_made(&rt, alloc, &[Action::Step(R)], STALE, ONE_STEP);
    let there_and_back = [Action::Step(R), Action::Back(R, Stamp::START)];
    assert_made(&rt, alloc, &there_and_back, MADE, THREE_STEPS);
}

/// Three steps of the relay, and then a message from before them; and an anti-message that waits for its message.
const STRAGGLER: [Action; 8] = [
    Action::Step(R),
    Action::Step(R),
    Action::Step(R),
    Action::Step(G),
    Action::Post(G),
    Action::Deliver(R, 0),
    Action::Post(R),
    Action::Deliver(T, 1),
];

/// What a sweep leaves of the row: nothing is in transit, and all lines are at 2.0.1.
const SWEPT: &str = "\
gvt 2.0.1 committed 1
g line 2.0.1 next 2.0.1 due 2.0.1 last 0.0 steps 0 pending 0 waiting 0 outgoing 0 mail 0 | 0
r line 2.0.1 next 2.0.1 due end last 0.0 steps 0 pending 2 waiting 0 outgoing 0 mail 0 | 0
t line 2.0.1 next end due end last 0.0 steps 0 pending 0 waiting 0 outgoing 0 mail 0 | 0 0 0
";

/// The same where the anti-message is owed: the tally still has the message.
const SWEPT_LAZILY: &str = "\
gvt 2.0.1 committed 1
g line 2.0.1 next 2.0.1 due 2.0.1 last 0.0 steps 0 pending 0 waiting 0 outgoing 0 owed 0 mail 0 | 0
r line 2.0.1 next 2.0.1 due end last 0.0 steps 0 pending 2 waiting 0 outgoing 0 owed 1 mail 0 | 0
t line 2.0.1 next 4.0.1 due end last 0.0 steps 0 pending 1 waiting 0 outgoing 0 owed 0 mail 0 | 0 0 0
";

/// Of how many of these actions, by which way of cancelling, and what a sweep leaves then.
static SWEEPS: [(Cancel, usize, &str); 7] = [
    (Cancel::Aggressive, 4, SWEPT),
    (Cancel::Aggressive, 5, SWEPT),
    (Cancel::Aggressive, 6, SWEPT),
    (Cancel::Aggressive, 8, SWEPT),
    (Cancel::Lazy, 4, SWEPT_LAZILY),
    (Cancel::Lazy, 5, SWEPT_LAZILY),
    (Cancel::Lazy, 6, SWEPT_LAZILY),
];

/// Sweeps the row, and asserts what is seen of it.
fn assert_sweep(rt: &impl Abort, alloc: Global, exchange: &mut Exchange<Model>, seen: &str) {
    assert!(rt; exchange.sweep() == Ok(stamp(rt, 2, 0, 1)));
    assert!(rt; exchange.state() == Ok(State::Going));
    assert!(rt; text_of(rt, alloc, exchange.executive()).as_str() == seen);
}

/// Settles the row after so many of these actions, and raises global virtual time, which commits nothing; then sweeps it, and again.
fn assert_swept(rt: &impl Abort, alloc: Global, cancel: Cancel, count: usize, seen: &str) {
    let mut exchange = exchange_of(rt, alloc, in_a_row(rt, alloc, cancel));
    act_all(rt, &mut exchange, &STRAGGLER[..count.min(8)]);
    assert!(rt; exchange.settle().is_ok() && exchange.raise() == stamp(rt, 2, 0, 1));
    assert!(rt; exchange.executive().committed_len() == 0);
    assert_sweep(rt, alloc, &mut exchange, seen);
    assert_sweep(rt, alloc, &mut exchange, seen);
    assert!(rt; exchange.into_parts().0.committed_len() == 1);
}

#[test]
fn a_sweep_delivers_stragglers_and_anti_messages(rt: HostRuntime) {
    for (cancel, count, seen) in SWEEPS.iter() {
        assert_swept(&rt, rt.alloc(), *cancel, *count, seen);
    }
}
