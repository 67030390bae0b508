//! Runs without the executive: the records and the fault of a run, and each way that it ends.

use super::helpers::{Line, Made, Net, assert_records, network_of, stamp};
use std::alloc::{AllocError, Global};
use std::process::Abort;
use tw_msgs::RecordKind;
use tw_rounds::{Advanced, Fault, SeqRefused, advance, begin};
use tw_seq::{outcome, simulate};
use tw_vtime::{Limit, MAX_TICK, Refusal};

/// A generator of 5 each 2 ticks and its tally, which has 3=7 at tick 1.
static WITH_INPUT: Net = Net {
    names: &["a", "b"],
    models: &[Made::Generator(2, 5), Made::Tally],
    couplings: &[(0, 0, 1, 0)],
    inputs: &[(1, 1, 3, 7)],
    micro_limit: 100,
};

/// The same without its input.
static PAIR: Net = Net {
    names: &["a", "b"],
    models: &[Made::Generator(2, 5), Made::Tally],
    couplings: &[(0, 0, 1, 0)],
    inputs: &[],
    micro_limit: 100,
};

/// A network, an end tick, the tick and the limit that it meets, and how many records a run has. The rounds of
/// the first are not run.
static OUTCOMES: [(Net, u64, Option<(u64, Limit)>, Option<usize>); 3] = [
    (
        Net {
            names: &["a", "b"],
            models: &[Made::Generator(2, 5), Made::Tally],
            couplings: &[(0, 0, 1, 0)],
            inputs: &[],
            micro_limit: 100,
        },
        1_099_511_627_772,
        None,
        None,
    ),
    (
        Net {
            names: &["a"],
            models: &[Made::Generator(600_000_000_000, 5)],
            couplings: &[],
            inputs: &[],
            micro_limit: 100,
        },
        1_099_511_627_774,
        Some((600_000_000_000, Limit::Tick)),
        Some(1),
    ),
    (
        Net {
            names: &["a"],
            models: &[Made::Generator(1_099_511_627_774, 5)],
            couplings: &[],
            inputs: &[],
            micro_limit: 100,
        },
        1_099_511_627_774,
        None,
        Some(0),
    ),
];

/// Asserts the outcome of a run, and how many records it has.
fn assert_outcome(
    rt: &impl Abort,
    alloc: Global,
    net: &Net,
    until: u64,
    limit: Option<(u64, Limit)>,
    count: Option<usize>,
) -> Result<(), Refusal> {
    let network = network_of(alloc, net)?;
    let fault = match limit {
        Some((tick, limit)) => Some(Fault {
            component: 0,
            stamp: stamp(rt, tick, 0, 1),
            limit,
        }),
        None => None,
    };
    assert!(rt; outcome(alloc, &network, until)? == fault);
    if let Some(count) = count {
        let run = simulate(alloc, &network, until)?;
        assert!(rt; run.records.len() == count && run.fault == fault);
    }
    Ok(())
}

/// Models that wait for a tick at least meet no limit before the last tick: the answer comes without a round, or it
/// would not come for years. Of a wait that may go past the last tick it comes by the rounds.
#[test]
fn outcome_is_known_beforehand(rt: HostRuntime) {
    for (net, until, limit, count) in OUTCOMES.iter() {
        assert_outcome(&rt, rt.alloc(), net, *until, *limit, *count).expect(&rt, "memory");
    }
}

/// End ticks of the pair, whether there is a round before it, and what is handed over.
static ROUNDS: [(u64, bool, &'static [Line], &'static [Line]); 2] = [
    (
        5,
        true,
        &[Line(2, 0, 0, RecordKind::Out, &[(0, 5)], &[])],
        &[
            Line(2, 0, 0, RecordKind::Int, &[], &[1]),
            Line(2, 0, 1, RecordKind::Ext, &[(0, 5)], &[1, 5, 5]),
        ],
    ),
    (2, false, &[], &[]),
];

/// Makes the first round of the pair, and asserts what is handed over.
fn assert_round(rt: &impl Abort, alloc: Global, until: u64, lines: (&[Line], &[Line])) -> Advanced {
    let network = network_of(alloc, &PAIR).expect(rt, "memory");
    let mut run = begin(alloc, &network, until).expect(rt, "memory");
    let mut outputs = Vec::new(alloc);
    let mut transitions = Vec::new(alloc);
    let step = advance(alloc, &network, &mut run, &mut outputs, &mut transitions).expect(
        rt, "memory",
    );
    assert_records(rt, outputs.as_slice(), lines.0);
    assert_records(rt, transitions.as_slice(), lines.1);
    step
}

#[test]
fn round_is_handed_over(rt: HostRuntime) {
    for (until, is_round, outputs, transitions) in ROUNDS.iter() {
        let step = assert_round(&rt, rt.alloc(), *until, (outputs, transitions));
        assert!(rt;
            (step == Advanced::Round) == *is_round && (step == Advanced::End(None)) != *is_round
        );
    }
}

/// The records of the worked example up to tick 3.
static WORKED: [Line; 4] = [
    Line(1, 0, 1, RecordKind::Ext, &[(3, 7)], &[1, 7, 7]),
    Line(2, 0, 0, RecordKind::Out, &[(0, 5)], &[]),
    Line(2, 0, 0, RecordKind::Int, &[], &[1]),
    Line(2, 0, 1, RecordKind::Ext, &[(0, 5)], &[2, 12, 5]),
];

/// Runs the worked example, to tick 3 and past the last tick.
fn run(rt: &impl Abort, alloc: Global) -> Result<(), Refusal> {
    let network = network_of(alloc, &WITH_INPUT)?;
    assert!(rt; outcome(alloc, &network, MAX_TICK + 1) == Err(SeqRefused::BadTick));
    let run = simulate(alloc, &network, 3)?;
    assert_records(rt, run.records.as_slice(), &WORKED);
    assert!(rt; run.fault.is_none());
    Ok(())
}

/// Where a request for memory is refused, 4 is answered, and the second try is made.
#[test]
fn a_run_has_its_records_and_an_end(rt: HostRuntime) {
    if let Err(refusal) = run(&rt, rt.alloc()) {
        assert!(rt; refusal == Refusal::OutOfMemory);
        run(&rt, rt.alloc()).expect(&rt, "memory");
    }
    assert!(rt; Refusal::from(SeqRefused::BadTick).number() == 10);
    assert!(rt; Refusal::from(SeqRefused::from(AllocError)).number() == 4);
}
