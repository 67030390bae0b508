//! The executive by a worked example: a list of actions in one replay.

use super::helpers::{G, R, T, assert_relay, assert_trace, in_a_row, stamp};
use tw_exec::Action;
use tw_inspect::report;
use tw_process::Cancel;

/// What is seen of the row after the example's fourteen actions.
const CUT: &str = "\
gvt 3.0.0 committed 3
g line 3.0.0 next 4.0.0 due 4.0.0 last 2.0 steps 0 pending 0 waiting 0 outgoing 0 mail 0 | 1
r line 3.0.0 next 3.0.0 due 3.0.0 last 2.0 steps 0 pending 1 waiting 0 outgoing 2 mail 0 | 0 5
t line 3.0.0 next end due end last 0.0 steps 0 pending 0 waiting 0 outgoing 0 mail 0 | 0 0 0
";

/// The relay then, with what it sent and its anti-message.
const CUT_RELAY: &str = "\
r line 3.0.0 next 3.0.0 due 3.0.0 last 2.0 steps 0 pending 1 waiting 0 outgoing 2 mail 0 | 0 5
pending 0=8 at 3.0.1
outgoing + t 0=5 at 3.0.1
outgoing - t 0=5 at 3.0.1
";

/// What is committed then.
const COMMITTED: &str = "2.0 g out 0=5\n2.0 g int | 1\n2.0 r ext 0=5 | 0 5\n";

/// Of the actions the one that would go back before global virtual time is refused.
#[test]
fn commit_and_cut_by_one_replay(rt: HostRuntime) {
    let alloc = rt.alloc();
    let mut executive = in_a_row(&rt, alloc, Cancel::Aggressive);
    let actions = [
        Action::Step(G),
        Action::Step(G),
        Action::Raise,
        Action::Post(G),
        Action::Deliver(R, 0),
        Action::Raise,
        Action::Step(R),
        Action::Raise,
        Action::Step(R),
        Action::Back(R, stamp(&rt, 2, 0, 1)),
        Action::Back(R, stamp(&rt, 3, 0, 0)),
        Action::Harvest(G),
        Action::Harvest(R),
        Action::Harvest(T),
    ];
    assert!(rt; executive.replay(&actions) == 13);
    let seen = report(alloc, &executive).expect(&rt, "memory");
    assert!(rt; seen.as_str() == CUT);
    assert_relay(&rt, alloc, &executive, CUT_RELAY);
    let trace = executive.trace(alloc).expect(&rt, "memory");
    assert_trace(&rt, alloc, trace.as_slice(), &["g", "r", "t"], COMMITTED);
}
