//! One process: what is read of it, and what is put, committed and installed. Its steps, the way back and what comes to it are
//! compared in the program's cases.

ghost use Rattle.std.specs.Prelude.{◌≡◌, OnOk, Some, [], slice_get};

use super::helpers::{Line, assert_messages, assert_records, message, said, shows, stamp};
use super::row::{after, at_rest};
use std::alloc::{AllocError, Global};
use std::process::Abort;
use tw_atomic::Atomic;
use tw_chain::{Cause, Prepared};
use tw_fossils::Column;
use tw_models::Model;
use tw_msgs::RecordKind;
use tw_pool::PoolRefused;
use tw_process::{Cancel, Finished, Process, Stop};
use tw_vtime::{Refusal, Stamp};

/// A stamp of microstep 0: tick and phase; none for the end.
type At = Option<(u64, u8)>;

/// The stamp.
fn stamp_at(rt: &impl Abort, at: At) -> Stamp {
    match at {
        Some((tick, phase)) => stamp(rt, tick, 0, phase),
        None => Stamp::END,
    }
}

/// The words of the state of a process.
fn words_of(alloc: Global, process: &Process<Model>) -> Result<Vec<i128>, AllocError> {
    let mut words = Vec::new(alloc);
    let network = &**process.network();
    if process.component() < network.len() {
        let model = network.model(process.component());
        model.words(alloc, process.state(), &mut words)?;
    }
    Ok(words)
}

/// Asserts which messages a process has consumed.
fn assert_consumed(rt: &impl Abort, process: &Process<Model>) {
    assert!(rt; process.has_consumed(&said(rt, 1, &(3, 0, 8))));
    assert!(rt; !process.has_consumed(&said(rt, 1, &(3, 0, 9))));
    assert!(rt; !process.has_consumed(&said(rt, 1, &(2, 0, 8))));
}

/// Asserts what a process has sent, and the words of its state.
fn assert_sent(rt: &impl Abort, alloc: Global, process: &Process<Model>) {
    let lists = process.lists();
    assert!(rt;
        lists.least_outgoing() == stamp_at(rt, Some((4, 1))) && lists.least_owed() == Stamp::END
    );
    assert!(rt; words_of(alloc, process).expect(rt, "memory").as_slice() == [0, 8].as_slice());
}

/// Asserts what is told of the steps that a process made.
fn assert_steps(rt: &impl Abort, alloc: Global, process: &Process<Model>) {
    assert!(rt; process.last_stamp() == Some(stamp_at(rt, Some((4, 0)))));
    assert!(rt; process.steps_before(stamp_at(rt, Some((4, 0)))) == 1);
    assert!(rt; process.cancel() == Cancel::Aggressive && process.line() == Stamp::START);
    assert_consumed(rt, process);
    assert_sent(rt, alloc, process);
}

/// Its steps, the oldest first: the record, and how many messages the step consumed and sent.
static STEPS: [(Line, usize, usize); 2] = [
    (Line(3, 0, 1, RecordKind::Ext, &[(0, 8)], &[0, 8]), 1, 0),
    (Line(4, 0, 1, RecordKind::Out, &[(0, 8)], &[]), 0, 1),
];

/// Asserts what is read of a step that is not committed.
fn assert_step(
    rt: &impl Abort,
    process: &Process<Model>,
    number: usize,
    step: &(Line, usize, usize),
) {
    let record = process.record_at(number).expect(rt, "a step");
    assert!(rt; shows(record, &step.0));
    assert!(rt;
        process.consumed_at(number) == Some(step.1) && process.sent_at(number) == Some(step.2)
    );
}

/// Messages of a tick to a component, and whether they can come to the relay then.
static COMING: [(u64, usize, bool); 3] = [(4, 1, true), (3, 1, false), (4, 2, false)];

#[test]
fn steps_are_read_and_messages_can_come_after_them(rt: HostRuntime) {
    let process = after(&rt, rt.alloc(), 2);
    for (number, step) in STEPS.iter().enumerate() {
        assert_step(&rt, &process, number, step);
    }
    assert!(rt; process.record_at(2).is_none() && process.sent_at(2).is_none());
    for (tick, to, can) in COMING.iter() {
        assert!(rt; process.can_come(&message(&rt, *tick, *to, 0, 5)) == *can);
    }
    drop(process);
}

/// The record of its oldest step.
static COMMITTED: [Line; 1] = [Line(3, 0, 1, RecordKind::Ext, &[(0, 8)], &[0, 8])];

/// The oldest step becomes a record of a column.
#[test]
fn the_oldest_step_is_committed(rt: HostRuntime) {
    let mut process = after(&rt, rt.alloc(), 2);
    assert_steps(&rt, rt.alloc(), &process);
    let mut column = Column::new(rt.alloc());
    assert!(rt; column.is_empty());
    let done = process.commit_oldest().expect(&rt, "a step");
    assert!(rt; column.push(done).is_ok() && column.len() == 1);
    process.set_line(stamp_at(&rt, Some((4, 0))));
    assert!(rt; process.line() == stamp_at(&rt, Some((4, 0))) && process.history_len() == 1);
    assert_records(&rt, column.records(), &COMMITTED);
    drop(column);
    drop(process);
}

/// One more message is pending, before a step is made; room is made first, or with it.
fn put(
    rt: &impl Abort,
    process: &mut Process<Model>,
    value: i64,
    room_first: bool,
) -> Result<(), PoolRefused>
    requires floor { process.old.floor ≡ 0 }
    requires no_step { process.old.process.history ≡ [] }
    ensures floor { OnOk result (process.new.floor ≡ 0) }
    ensures no_step { OnOk result (process.new.process.history ≡ []) }
{
    let message = said(rt, process.component(), &(2, 0, value));
    assert!(rt; message.stamp.pack() < u64::MAX);
    assert!(rt; message.stamp.phase() == 1);
    let _port = message.port;
    let _value = message.value;
    if room_first {
        process.reserve()?;
        process.put_reserved(&message);
        Ok(())
    } else {
        process.put(message).map_err(|refused| refused.1)
    }
}

/// The relay with 0=4 and 0=5 at tick 2 put before its input.
fn with_two_put(rt: &impl Abort, alloc: Global) -> Result<Process<Model>, Refusal> {
    let mut process = at_rest(rt, alloc)?;
    put(rt, &mut process, 5, false)?;
    put(rt, &mut process, 4, true)?;
    process.count_law();
    Ok(process)
}

/// Asserts in which lists the messages lie after a step.
fn assert_lists(rt: &impl Abort, process: &Process<Model>) {
    let late = said(rt, 1, &(3, 0, 8));
    let (pool, heap) = process.lists().nodes();
    assert!(rt; pool.len(0) == 1 && pool.len(1) == 2);
    let first = heap.first().expect(rt, "an entry");
    assert!(rt; first.key == late && process.heap().first() == Some(first));
    assert!(rt; process.pool().len(2) == 0 && process.pool().len(3) == 0);
}

#[test]
fn messages_are_put_and_lie_in_the_lists(rt: HostRuntime) {
    let mut process = with_two_put(&rt, rt.alloc()).expect(&rt, "memory");
    let pending = process.lists().pending().expect(&rt, "memory");
    assert_messages(
        &rt,
        pending.as_slice(),
        1,
        &[(2, 0, 4), (2, 0, 5), (3, 0, 8)],
    );
    assert!(rt; process.step() == Ok((stamp_at(&rt, Some((2, 1))), RecordKind::Ext)));
    assert_lists(&rt, &process);
    drop(pending);
    drop(process);
}

/// A chain of one step, before tick 10, worked out from where a process stands.
fn prepared(rt: &impl Abort, process: &Process<Model>) -> Prepared<Model>
    ensures component { result.run.start.component ≡ process.now.component }
    ensures limit { result.run.start.micro_limit ≡ process.now.network.micro_limit }
    ensures model { slice_get process.now.network.models process.now.component ≡ Some result.model }
{
    let start = process
        .start(stamp_at(rt, Some((10, 0))), 1)
        .expect(rt, "memory");
    let network = &**process.network();
    let component = process.component();
    assert!(rt; component < network.len() && start.component() == component);
    start.prepare(network.model(component))
}

/// Asserts what a chain of one step is.
fn assert_chain(rt: &impl Abort, chain: &Prepared<Model>) {
    assert!(rt; chain.len() == 1 && chain.cause() == Cause::All && chain.component() == 1);
    assert!(rt; chain.start_times() == (Stamp::START, Stamp::END));
    assert!(rt; chain.micro_limit() == 100 && chain.burst() == 1 && chain.messages().len() == 1);
    assert!(rt; chain.before() == stamp_at(rt, Some((10, 0))));
    let step = chain.steps().first().expect(rt, "a step");
    assert!(rt; step.done.stamp == stamp_at(rt, Some((3, 1))));
}

#[test]
fn the_second_of_two_chains_is_stale(rt: HostRuntime) {
    let mut process = after(&rt, rt.alloc(), 0);
    let first = prepared(&rt, &process);
    let second = prepared(&rt, &process);
    assert_chain(&rt, &first);
    let made = process.install(first);
    assert!(rt;
        made == Finished {
            installed: 1,
            stop: Stop::Ended(Cause::All)
        }
    );
    let made = process.install(second);
    assert!(rt;
        made == Finished {
            installed: 0,
            stop: Stop::Stale
        }
    );
    assert!(rt; process.history_len() == 1 && process.due() == stamp_at(&rt, Some((4, 0))));
    drop(process);
}
