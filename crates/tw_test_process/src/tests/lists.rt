//! The six lists of a process by worked examples: each call once.

ghost use Rattle.std.specs.Prelude.{◌≡◌, ◌≤◌, OnOk};

use super::helpers::{Said, assert_items, assert_messages, said, stamp};
use std::alloc::{AllocError, Global};
use std::process::Abort;
use tw_actions::Cancel;
use tw_lists::EventLists;
use tw_msgs::{Message, Sign};
use tw_pool::PoolRefused;
use tw_vtime::Stamp;

/// What is done with the lists, and what is answered.
enum Act {
    /// One more message is pending.
    Put(Said),
    /// A message is no longer pending; whether it was.
    Withdraw(Said, bool),
    /// An anti-message waits for this message.
    Wait(Said),
    /// The anti-message of this message waits no longer; whether it did.
    Clear(Said, bool),
    /// The bag of a tick is consumed, and pending again: so many messages.
    ThereAndBack(u64, usize),
    /// The bag of a tick is consumed: these items.
    Consume(u64, &'static [(u8, i64)]),
    /// The bag of a tick is consumed if it is this one; whether it is.
    ConsumeEqual(u64, &'static [(u8, i64)], bool),
    /// Messages are sent, so many anew.
    Send(&'static [Said], Cancel, usize),
    /// One message is sent.
    SendOne(Said),
    /// The last sent messages, so many, are taken back.
    TakeBack(usize, Cancel),
    /// The next step is at a tick and phase: what is owed for earlier is posted.
    Settle(u64, u8),
    /// So many of the oldest consumed and of the oldest sent messages are forgotten.
    Forget(usize, usize),
    /// All that is outgoing is posted.
    Post,
}

/// The bag of a stamp is consumed, and pending again; answers how many messages it has.
fn there_and_back(lists: &mut EventLists, stamp: Stamp) -> Result<usize, AllocError> {
    lists.order_law();
    let bag = lists.consume_bag(stamp)?;
    let count = bag.len();
    lists.restore(count);
    Ok(count)
}

/// One more message is pending.
fn put(lists: &mut EventLists, message: &Message) -> Result<(), PoolRefused> {
    lists.reserve_pending()?;
    lists.put_reserved(message);
    Ok(())
}

/// These messages are sent, and so many of them go out.
fn send(rt: &impl Abort, lists: &mut EventLists, messages: &[Message], way: Cancel, fresh: usize) {
    let outgoing = lists.outgoing_len();
    lists.reserve_to_send(messages, way).expect(rt, "room");
    lists.send_all(messages, way);
    assert!(rt; lists.outgoing_len() == outgoing.saturating_add(fresh));
}

/// Does what concerns one pending or waiting message.
fn act_on_message(rt: &impl Abort, lists: &mut EventLists, act: &Act) {
    match act {
        Act::Put(it) => put(lists, &said(rt, 0, it)).expect(rt, "room"),
        Act::Withdraw(it, was) => assert!(rt; lists.withdraw(&said(rt, 0, it)) == *was),
        Act::Wait(it) => lists.note_orphan(said(rt, 0, it)).expect(rt, "room"),
        Act::Clear(it, was) => assert!(rt; lists.clear_orphan(&said(rt, 0, it)) == *was),
        _ => {}
    }
}

/// Does what concerns the bag of a tick.
fn act_on_bag(rt: &impl Abort, lists: &mut EventLists, act: &Act) {
    match act {
        Act::ThereAndBack(tick, count) => {
            let stamp = stamp(rt, *tick, 0, 1);
            assert!(rt; there_and_back(lists, stamp) == Ok(*count));
        }
        Act::Consume(tick, items) => {
            let bag = lists
                .consume_bag(stamp(rt, *tick, 0, 1))
                .expect(rt, "memory");
            assert!(rt; bag.as_slice() == *items);
        }
        Act::ConsumeEqual(tick, items, is_it) => {
            assert!(rt; lists.consume_equal(stamp(rt, *tick, 0, 1), items) == *is_it);
        }
        Act::Forget(consumed, sent) => {
            assert!(rt; *consumed <= lists.pool().len(1));
            assert!(rt; *sent <= lists.pool().len(2));
            lists.forget(*consumed, *sent);
        }
        _ => {}
    }
}

/// Does what concerns what is sent.
fn act_on_sent(rt: &impl Abort, alloc: Global, lists: &mut EventLists, act: &Act) {
    match act {
        Act::Send(messages, way, fresh) => {
            let mut sent = Vec::new(alloc);
            for it in messages.iter() {
                sent.push(said(rt, 0, it)).expect(rt, "memory");
            }
            send(rt, lists, sent.as_slice(), *way, *fresh);
        }
        Act::SendOne(it) => {
            lists.reserve(2).expect(rt, "room");
            lists.send(&said(rt, 0, it));
        }
        Act::TakeBack(count, way) => {
            assert!(rt; *count <= lists.pool().len(2));
            lists.cancel(*count, *way);
        }
        Act::Settle(tick, phase) => lists.settle(stamp(rt, *tick, 0, *phase)),
        Act::Post => lists.clear_outgoing(),
        _ => {}
    }
}

/// How many are pending, consumed, sent, outgoing, waiting and owed.
fn lengths(lists: &EventLists) -> [usize; 6] {
    [
        lists.pending_len(),
        lists.pool().len(1),
        lists.pool().len(2),
        lists.outgoing_len(),
        lists.waiting_len(),
        lists.owed_len(),
    ]
}

/// What is done with empty lists, each with their lengths afterwards, and what is in four of them at the end.
struct Scene {
    acts: &'static [(Act, [usize; 6])],
    pending: &'static [Said],
    outgoing: &'static [(Sign, u64, i64)],
    waiting: &'static [Said],
    owed: &'static [Said],
}

/// Asserts what is pending, outgoing, waiting and owed.
fn assert_contents(rt: &impl Abort, lists: &EventLists, scene: &Scene) -> Result<(), AllocError> {
    assert_messages(rt, lists.pending()?.as_slice(), 0, scene.pending);
    assert_items(rt, lists.outgoing()?.as_slice(), 0, scene.outgoing);
    assert_messages(rt, lists.waiting()?.as_slice(), 0, scene.waiting);
    assert_messages(rt, lists.owed()?.as_slice(), 0, scene.owed);
    Ok(())
}

/// Does something with the lists, and asserts their lengths afterwards.
fn make(rt: &impl Abort, alloc: Global, lists: &mut EventLists, act: &Act, expected: [usize; 6]) {
    act_on_message(rt, lists, act);
    act_on_bag(rt, lists, act);
    act_on_sent(rt, alloc, lists, act);
    assert!(rt; lengths(lists) == expected);
}

/// Does what a scene says.
fn play(rt: &impl Abort, alloc: Global, scene: &Scene) -> EventLists {
    let mut lists = EventLists::new(alloc);
    for (act, expected) in scene.acts {
        make(rt, alloc, &mut lists, act, *expected);
    }
    assert_contents(rt, &lists, scene).expect(rt, "memory");
    lists
}

/// Messages come and go, wait for theirs, and are consumed as the bag of their tick.
static PENDING: Scene = Scene {
    acts: &[
        (Act::Put((3, 0, 8)), [1, 0, 0, 0, 0, 0]),
        (Act::Put((2, 1, 4)), [2, 0, 0, 0, 0, 0]),
        (Act::Put((2, 0, 9)), [3, 0, 0, 0, 0, 0]),
        (Act::Put((4, 1, 1)), [4, 0, 0, 0, 0, 0]),
        (Act::Put((4, 0, 2)), [5, 0, 0, 0, 0, 0]),
        (Act::Put((4, 0, 1)), [6, 0, 0, 0, 0, 0]),
        (Act::Withdraw((4, 0, 1), true), [5, 0, 0, 0, 0, 0]),
        (Act::Withdraw((4, 0, 1), false), [5, 0, 0, 0, 0, 0]),
        (Act::Wait((2, 1, 4)), [5, 0, 0, 0, 1, 0]),
        (Act::Clear((2, 1, 4), true), [5, 0, 0, 0, 0, 0]),
        (Act::Clear((2, 1, 4), false), [5, 0, 0, 0, 0, 0]),
        (Act::Wait((5, 1, 4)), [5, 0, 0, 0, 1, 0]),
        (Act::ThereAndBack(2, 2), [5, 0, 0, 0, 1, 0]),
        (Act::ConsumeEqual(2, &[(0, 9)], false), [5, 0, 0, 0, 1, 0]),
        (
            Act::ConsumeEqual(2, &[(0, 9), (1, 5)], false),
            [5, 0, 0, 0, 1, 0],
        ),
        (Act::ConsumeEqual(3, &[(0, 8)], false), [5, 0, 0, 0, 1, 0]),
        (
            Act::ConsumeEqual(2, &[(0, 9), (1, 4)], true),
            [3, 2, 0, 0, 1, 0],
        ),
    ],
    pending: &[(3, 0, 8), (4, 0, 2), (4, 1, 1)],
    outgoing: &[],
    waiting: &[(5, 1, 4)],
    owed: &[],
};

/// Asserts what is told of the pending and the consumed messages of that scene.
fn assert_told(rt: &impl Abort, lists: &EventLists) -> Result<(), AllocError> {
    let first = said(rt, 0, &(3, 0, 8));
    assert!(rt; lists.first() == Some(first));
    let early = lists.pending_before(stamp(rt, 4, 0, 1))?;
    assert_messages(rt, early.as_slice(), 0, &[(3, 0, 8)]);
    Ok(())
}

#[test]
fn messages_come_and_go_and_are_consumed(rt: HostRuntime) {
    let lists = play(&rt, rt.alloc(), &PENDING);
    lists.count_law();
    assert_told(&rt, &lists).expect(&rt, "memory");
    let (pool, heap) = lists.nodes();
    assert!(rt; pool.len(0) == 3 && heap.first() == lists.heap().first());
}

/// Messages are sent, owed and sent again, and posted where they are not.
static SENT: Scene = Scene {
    acts: &[
        (
            Act::Send(&[(5, 0, 1), (6, 0, 2)], Cancel::Aggressive, 2),
            [0, 0, 2, 2, 0, 0],
        ),
        (Act::TakeBack(2, Cancel::Lazy), [0, 0, 0, 2, 0, 2]),
        (
            Act::Send(&[(6, 0, 2), (6, 0, 2)], Cancel::Lazy, 1),
            [0, 0, 2, 3, 0, 1],
        ),
        (Act::Settle(5, 0), [0, 0, 2, 3, 0, 1]),
        (Act::Settle(5, 1), [0, 0, 2, 4, 0, 0]),
        (Act::TakeBack(1, Cancel::Aggressive), [0, 0, 1, 5, 0, 0]),
    ],
    pending: &[],
    outgoing: &[
        (Sign::Positive, 5, 1),
        (Sign::Positive, 6, 2),
        (Sign::Positive, 6, 2),
        (Sign::Anti, 5, 1),
        (Sign::Anti, 6, 2),
    ],
    waiting: &[],
    owed: &[],
};

/// The oldest messages are forgotten; those that are owed stay, and what is outgoing goes.
static FORGOTTEN: Scene = Scene {
    acts: &[
        (Act::Put((3, 0, 8)), [1, 0, 0, 0, 0, 0]),
        (Act::Put((2, 1, 4)), [2, 0, 0, 0, 0, 0]),
        (Act::Put((2, 0, 9)), [3, 0, 0, 0, 0, 0]),
        (
            Act::Send(&[(5, 0, 1), (6, 0, 2)], Cancel::Aggressive, 2),
            [3, 0, 2, 2, 0, 0],
        ),
        (Act::Consume(2, &[(0, 9), (1, 4)]), [1, 2, 2, 2, 0, 0]),
        (Act::Forget(1, 2), [1, 1, 0, 2, 0, 0]),
        (Act::Post, [1, 1, 0, 0, 0, 0]),
        (Act::SendOne((7, 0, 3)), [1, 1, 1, 1, 0, 0]),
        (Act::SendOne((8, 0, 4)), [1, 1, 2, 2, 0, 0]),
        (Act::TakeBack(2, Cancel::Lazy), [1, 1, 0, 2, 0, 2]),
    ],
    pending: &[(3, 0, 8)],
    outgoing: &[(Sign::Positive, 7, 3), (Sign::Positive, 8, 4)],
    waiting: &[],
    owed: &[(7, 0, 3), (8, 0, 4)],
};

/// Messages that are taken back one after another, the last first: what is owed for too long is behind the others.
static OWED_IN_TURN: Scene = Scene {
    acts: &[
        (
            Act::Send(&[(5, 0, 1), (6, 0, 2), (7, 0, 3)], Cancel::Lazy, 3),
            [0, 0, 3, 3, 0, 0],
        ),
        (Act::Post, [0, 0, 3, 0, 0, 0]),
        (Act::TakeBack(1, Cancel::Lazy), [0, 0, 2, 0, 0, 1]),
        (Act::TakeBack(1, Cancel::Lazy), [0, 0, 1, 0, 0, 2]),
        (Act::TakeBack(1, Cancel::Lazy), [0, 0, 0, 0, 0, 3]),
        (Act::Settle(5, 0), [0, 0, 0, 0, 0, 3]),
        (Act::Settle(6, 0), [0, 0, 0, 1, 0, 2]),
    ],
    pending: &[],
    outgoing: &[(Sign::Anti, 5, 1)],
    waiting: &[],
    owed: &[(7, 0, 3), (6, 0, 2)],
};

/// Messages that are owed in no order: what is owed for too long is among them.
static OWED_IN_NO_ORDER: Scene = Scene {
    acts: &[
        (
            Act::Send(&[(6, 0, 2), (7, 0, 3)], Cancel::Lazy, 2),
            [0, 0, 2, 2, 0, 0],
        ),
        (Act::Post, [0, 0, 2, 0, 0, 0]),
        (Act::TakeBack(1, Cancel::Lazy), [0, 0, 1, 0, 0, 1]),
        (Act::TakeBack(1, Cancel::Lazy), [0, 0, 0, 0, 0, 2]),
        (Act::SendOne((8, 0, 4)), [0, 0, 1, 1, 0, 2]),
        (Act::SendOne((9, 0, 5)), [0, 0, 2, 2, 0, 2]),
        (Act::TakeBack(2, Cancel::Lazy), [0, 0, 0, 2, 0, 4]),
        (Act::Settle(7, 0), [0, 0, 0, 3, 0, 3]),
    ],
    pending: &[],
    outgoing: &[
        (Sign::Positive, 8, 4),
        (Sign::Positive, 9, 5),
        (Sign::Anti, 6, 2),
    ],
    waiting: &[],
    owed: &[(7, 0, 3), (8, 0, 4), (9, 0, 5)],
};

/// Asserts which of the owed messages were sent before a tick's output.
fn assert_overdue(rt: &impl Abort, lists: &EventLists, tick: u64, expected: &[Said]) {
    let overdue = lists.overdue(stamp(rt, tick, 0, 0)).expect(rt, "memory");
    assert_messages(rt, overdue.as_slice(), 0, expected);
}

#[test]
fn what_is_owed_for_too_long_is_found(rt: HostRuntime) {
    let lists = play(&rt, rt.alloc(), &OWED_IN_TURN);
    assert!(rt; lists.least_owed() == stamp(&rt, 6, 0, 1));
    assert_overdue(&rt, &lists, 6, &[]);
    assert_overdue(&rt, &lists, 7, &[(6, 0, 2)]);
    assert_overdue(&rt, &lists, 8, &[(7, 0, 3), (6, 0, 2)]);
    drop(lists);
    let lists = play(&rt, rt.alloc(), &OWED_IN_NO_ORDER);
    assert!(rt; lists.least_owed() == stamp(&rt, 7, 0, 1));
    assert_overdue(&rt, &lists, 9, &[(7, 0, 3), (8, 0, 4)]);
    drop(lists);
}

#[test]
fn messages_are_sent_owed_sent_again_and_forgotten(rt: HostRuntime) {
    let lists = play(&rt, rt.alloc(), &SENT);
    assert!(rt; lists.least_outgoing() == stamp(&rt, 5, 0, 1) && lists.least_owed() == Stamp::END);
    drop(lists);
    let lists = play(&rt, rt.alloc(), &FORGOTTEN);
    assert!(rt;
        lists.least_outgoing() == stamp(&rt, 7, 0, 1) && lists.least_owed() == stamp(&rt, 7, 0, 1)
    );
    drop(lists);
}
