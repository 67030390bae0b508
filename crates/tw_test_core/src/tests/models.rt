//! The worked examples, by functions that know a model by its trait alone.
ghost use Rattle.std.specs.Prelude.{◌≡◌, IfOk, IsTrue};
ghost use Rattle.tw_atomic.specs.Atomic.{CanTurn, FitsBag, FitsItem, IsDue};
ghost use Rattle.tw_msgs.specs.Bags.{IsBeforeFirst, IsSorted, by_port};

use super::helpers::Made;
use std::alloc::{AllocError, Global};
use std::process::Abort;
use tw_atomic::{Atomic, Outbox, Turn};

/// Whether one item may stand before another.
fn is_in_order(one: &(u8, i64), other: &(u8, i64)) -> bool
    ensures { result ≡ by_port one.now other.now }
{
    one.0 < other.0 || one.0 == other.0 && one.1 <= other.1
}

/// Whether an item may stand before the first of these.
fn is_before_first(item: &(u8, i64), items: &[(u8, i64)]) -> bool
    ensures { IsTrue result → IsBeforeFirst item.now items.now }
{
    match items.split_first() {
        None => true,
        Some((first, _)) => is_in_order(item, first),
    }
}

/// An item fits: its port and its value are numbers of their sizes. It does nothing.
fn fits(item: &(u8, i64))
    ensures { FitsItem item.now }
{
    let (_port, _value) = *item;
}

/// Whether a slice is a sorted bag.
fn is_bag(bag: &[(u8, i64)]) -> bool
    ensures { IsTrue result → IsSorted bag.now × FitsBag bag.now }
{
    match bag.split_first() {
        None => true,
        Some((item, items)) => {
            fits(item);
            is_before_first(item, items) && is_bag(items)
        }
    }
}

/// Whether a turn is due.
fn is_due(ta: Option<u64>, turn: Turn, elapsed: u64, bag: &[(u8, i64)]) -> bool
    ensures { IsTrue result → IsDue ta turn elapsed bag.now }
{
    match (turn, ta) {
        (Turn::Int, Some(advance)) => advance == elapsed && bag.is_empty(),
        (Turn::Con, Some(advance)) => advance == elapsed && !bag.is_empty(),
        (Turn::Ext, Some(advance)) => elapsed < advance && !bag.is_empty(),
        (Turn::Ext, None) => !bag.is_empty(),
        _ => false,
    }
}

/// A turn: the words and the time advance before it, what is sent before it, the turn, the elapsed time and the bag,
/// the words and the time advance after it, and whether it stays made.
pub(crate) struct Worked {
    pub(crate) before: (&'static [i128], Option<u64>),
    pub(crate) sends: &'static [(u8, i64)],
    pub(crate) turn: Turn,
    pub(crate) elapsed: u64,
    pub(crate) bag: &'static [(u8, i64)],
    pub(crate) after: (&'static [i128], Option<u64>),
    pub(crate) stays: bool,
}

/// Whether a state has these words and this time advance.
fn shows<M: Atomic>(
    alloc: Global,
    model: &M,
    state: &M::State,
    shown: (&[i128], Option<u64>),
) -> Result<bool, AllocError> {
    let mut words = Vec::new(alloc);
    model.words(alloc, state, &mut words)?;
    Ok(words.as_slice() == shown.0 && model.ta(state) == shown.1)
}

/// Whether a state is as it should be before a turn, and sends what it should.
fn stands<M: Atomic>(
    alloc: Global,
    model: &M,
    state: &M::State,
    worked: &Worked,
) -> Result<bool, AllocError>
    requires { M.valid model.now state.now }
{
    let mut outbox = Outbox::new();
    if worked.turn != Turn::Ext {
        model.output(state, &mut outbox);
    }
    Ok(outbox.as_slice() == worked.sends && shows(alloc, model, state, worked.before)?)
}

/// Makes a turn and takes it back: asserts what both give.
fn there_and_back<M: Atomic>(
    rt: &impl Abort,
    alloc: Global,
    model: &M,
    state: &M::State,
    worked: &Worked,
) -> Result<(), AllocError>
    requires valid { M.valid model.now state.now }
    requires can { let w = worked.now in
        CanTurn (M.valid model.now) (M.meaning model.now) w.turn state.now w.elapsed w.bag.now }
{
    let mut there = model.copy(alloc, state)?;
    let residue = model.forward(alloc, &mut there, worked.turn, worked.elapsed, worked.bag)?;
    assert!(rt; shows(alloc, model, &there, worked.after)?);
    model.back(&mut there, worked.turn, worked.elapsed, worked.bag, residue);
    assert!(rt; model.same(state, &there) && shows(alloc, model, &there, worked.before)?);
    Ok(())
}

/// Makes a turn that has to be allowed, to take it back and for good: asserts what it gives, and answers the state
/// after it.
fn turn<M: Atomic>(
    rt: &impl Abort,
    alloc: Global,
    model: &M,
    state: &M::State,
    worked: &Worked,
) -> Result<M::State, AllocError>
    requires { M.valid model.now state.now }
    ensures { IfOk result (M.valid model.now) }
{
    assert!(rt; is_bag(worked.bag));
    assert!(rt; is_due(model.ta(state), worked.turn, worked.elapsed, worked.bag));
    there_and_back(rt, alloc, model, state, worked)?;
    let mut after = model.copy(alloc, state)?;
    model.transition(alloc, &mut after, worked.turn, worked.elapsed, worked.bag)?;
    assert!(rt; shows(alloc, model, &after, worked.after)?);
    Ok(after)
}

/// Makes these turns from the start state, one after another: each to take it back and for good, and the next from
/// there where it stays made.
fn follow_once<M: Atomic>(
    rt: &impl Abort,
    alloc: Global,
    model: &M,
    turns: &[Worked],
) -> Result<(), AllocError> {
    let mut state = model.start(alloc)?;
    for worked in turns {
        assert!(rt; stands(alloc, model, &state, worked)?);
        let after = turn(rt, alloc, model, &state, worked)?;
        if worked.stays {
            state = after;
        }
    }
    Ok(())
}

/// The same, at the second try where a request for memory is refused.
pub(crate) fn follow<M: Atomic>(rt: &impl Abort, alloc: Global, model: &M, turns: &[Worked]) {
    if follow_once(rt, alloc, model, turns).is_err() {
        follow_once(rt, alloc, model, turns).expect(rt, "memory");
    }
}

/// The turns of a hop with number 0, two ports and waits of up to 4. What comes before the first output stirs the
/// number.
const HOP: [Worked; 3] = [
    Worked {
        before: (&[0], Some(1)),
        sends: &[],
        turn: Turn::Ext,
        elapsed: 0,
        bag: &[(0, -1)],
        after: (&[13_525_302_890_751_722_018], Some(1)),
        stays: false,
    },
    Worked {
        before: (&[0], Some(1)),
        sends: &[(0, 0)],
        turn: Turn::Int,
        elapsed: 1,
        bag: &[],
        after: (&[1_442_695_040_888_963_407], Some(4)),
        stays: true,
    },
    Worked {
        before: (&[1_442_695_040_888_963_407], Some(4)),
        sends: &[(1, 614)],
        turn: Turn::Int,
        elapsed: 4,
        bag: &[],
        after: (&[1_876_011_003_808_476_466], Some(1)),
        stays: false,
    },
];

/// The turns of a generator of value 5 each 2 ticks.
const GENERATOR: [Worked; 2] = [
    Worked {
        before: (&[0], Some(2)),
        sends: &[(0, 5)],
        turn: Turn::Int,
        elapsed: 2,
        bag: &[],
        after: (&[1], Some(2)),
        stays: false,
    },
    Worked {
        before: (&[0], Some(2)),
        sends: &[],
        turn: Turn::Ext,
        elapsed: 1,
        bag: &[(0, 9)],
        after: (&[0], Some(1)),
        stays: false,
    },
];

/// The turn of a tally, whose sum wraps.
const TALLY: [Worked; 1] = [Worked {
    before: (&[0, 0, 0], None),
    sends: &[],
    turn: Turn::Ext,
    elapsed: 1,
    bag: &[(0, 1), (0, i64::MAX)],
    after: (
        &[2, -9_223_372_036_854_775_808, 9_223_372_036_854_775_807],
        None,
    ),
    stays: false,
}];

/// The words of a relay that holds the numbers from 1 to 32, and has dropped one more.
const HELD: [i128; 33] = [
    1, 1, 2, 3, 4, 5, 6, 7, 8, 9, 10, 11, 12, 13, 14, 15, 16, 17, 18, 19, 20, 21, 22, 23, 24, 25,
    26, 27, 28, 29, 30, 31, 32,
];

/// The turns of a relay with delay 100: it overflows, and holds two values.
const RELAY: [Worked; 4] = [
    Worked {
        before: (&[0], None),
        sends: &[],
        turn: Turn::Ext,
        elapsed: 1,
        bag: &[
            (0, 1),
            (0, 2),
            (0, 3),
            (0, 4),
            (0, 5),
            (0, 6),
            (0, 7),
            (0, 8),
            (0, 9),
            (0, 10),
            (0, 11),
            (0, 12),
            (0, 13),
            (0, 14),
            (0, 15),
            (0, 16),
            (0, 17),
            (0, 18),
            (0, 19),
            (0, 20),
            (0, 21),
            (0, 22),
            (0, 23),
            (0, 24),
            (0, 25),
            (0, 26),
            (0, 27),
            (0, 28),
            (0, 29),
            (0, 30),
            (0, 31),
            (0, 32),
            (0, 33),
        ],
        after: (&HELD, Some(100)),
        stays: false,
    },
    Worked {
        before: (&[0], None),
        sends: &[],
        turn: Turn::Ext,
        elapsed: 1,
        bag: &[(0, 8), (3, -2)],
        after: (&[0, 8, -2], Some(100)),
        stays: true,
    },
    Worked {
        before: (&[0, 8, -2], Some(100)),
        sends: &[(0, 8), (0, -2)],
        turn: Turn::Int,
        elapsed: 100,
        bag: &[],
        after: (&[0], None),
        stays: false,
    },
    Worked {
        before: (&[0, 8, -2], Some(100)),
        sends: &[(0, 8), (0, -2)],
        turn: Turn::Con,
        elapsed: 100,
        bag: &[(0, 5)],
        after: (&[0, 5], Some(100)),
        stays: false,
    },
];

/// The words of a queue that has the jobs from 1 to 64.
const FULL: [i128; 65] = [
    0, 1, 2, 3, 4, 5, 6, 7, 8, 9, 10, 11, 12, 13, 14, 15, 16, 17, 18, 19, 20, 21, 22, 23, 24, 25,
    26, 27, 28, 29, 30, 31, 32, 33, 34, 35, 36, 37, 38, 39, 40, 41, 42, 43, 44, 45, 46, 47, 48, 49,
    50, 51, 52, 53, 54, 55, 56, 57, 58, 59, 60, 61, 62, 63, 64,
];

/// The words of that queue, which has dropped five more jobs.
const DROPPED: [i128; 65] = [
    5, 1, 2, 3, 4, 5, 6, 7, 8, 9, 10, 11, 12, 13, 14, 15, 16, 17, 18, 19, 20, 21, 22, 23, 24, 25,
    26, 27, 28, 29, 30, 31, 32, 33, 34, 35, 36, 37, 38, 39, 40, 41, 42, 43, 44, 45, 46, 47, 48, 49,
    50, 51, 52, 53, 54, 55, 56, 57, 58, 59, 60, 61, 62, 63, 64,
];

/// The words of that queue once its first job is done and one of two more is dropped.
const SHIFTED: [i128; 65] = [
    1, 2, 3, 4, 5, 6, 7, 8, 9, 10, 11, 12, 13, 14, 15, 16, 17, 18, 19, 20, 21, 22, 23, 24, 25, 26,
    27, 28, 29, 30, 31, 32, 33, 34, 35, 36, 37, 38, 39, 40, 41, 42, 43, 44, 45, 46, 47, 48, 49, 50,
    51, 52, 53, 54, 55, 56, 57, 58, 59, 60, 61, 62, 63, 64, 101,
];

/// The turns of a queue with service time 100: it is full, and the first job leaves room for one of two.
const QUEUE: [Worked; 3] = [
    Worked {
        before: (&[0], None),
        sends: &[],
        turn: Turn::Ext,
        elapsed: 1,
        bag: &[
            (0, 1),
            (0, 2),
            (0, 3),
            (0, 4),
            (0, 5),
            (0, 6),
            (0, 7),
            (0, 8),
            (0, 9),
            (0, 10),
            (0, 11),
            (0, 12),
            (0, 13),
            (0, 14),
            (0, 15),
            (0, 16),
            (0, 17),
            (0, 18),
            (0, 19),
            (0, 20),
            (0, 21),
            (0, 22),
            (0, 23),
            (0, 24),
            (0, 25),
            (0, 26),
            (0, 27),
            (0, 28),
            (0, 29),
            (0, 30),
            (0, 31),
            (0, 32),
            (0, 33),
            (0, 34),
            (0, 35),
            (0, 36),
            (0, 37),
            (0, 38),
            (0, 39),
            (0, 40),
            (0, 41),
            (0, 42),
            (0, 43),
            (0, 44),
            (0, 45),
            (0, 46),
            (0, 47),
            (0, 48),
            (0, 49),
            (0, 50),
            (0, 51),
            (0, 52),
            (0, 53),
            (0, 54),
            (0, 55),
            (0, 56),
            (0, 57),
            (0, 58),
            (0, 59),
            (0, 60),
            (0, 61),
            (0, 62),
            (0, 63),
            (0, 64),
        ],
        after: (&FULL, Some(100)),
        stays: true,
    },
    Worked {
        before: (&FULL, Some(100)),
        sends: &[],
        turn: Turn::Ext,
        elapsed: 1,
        bag: &[(0, 101), (0, 102), (0, 103), (0, 104), (0, 105)],
        after: (&DROPPED, Some(99)),
        stays: false,
    },
    Worked {
        before: (&FULL, Some(100)),
        sends: &[(0, 1)],
        turn: Turn::Con,
        elapsed: 100,
        bag: &[(0, 101), (0, 102)],
        after: (&SHIFTED, Some(100)),
        stays: false,
    },
];

/// Models, each with its turns.
static MODELS: [(Made, &'static [Worked]); 5] = [
    (Made::Hop(0, 2, 4), &HOP),
    (Made::Generator(2, 5), &GENERATOR),
    (Made::Tally, &TALLY),
    (Made::Relay(100), &RELAY),
    (Made::Queue(100), &QUEUE),
];

#[test]
fn models_are_followed(rt: HostRuntime) {
    for (made, turns) in MODELS.iter() {
        let model = made.model().expect(&rt, "a model");
        follow(&rt, rt.alloc(), &model, turns);
    }
}

/// A state of another model is passive, and has no words.
#[test]
fn a_state_of_another_model_shows_nothing(rt: HostRuntime) {
    let generator = Made::Generator(2, 5).model().expect(&rt, "a model");
    let tally = Made::Tally.model().expect(&rt, "a model");
    let state = generator.start(rt.alloc()).expect(&rt, "memory");
    assert!(rt; shows(rt.alloc(), &tally, &state, (&[], None)) == Ok(true));
}

/// Models, each with the longest time that it waits.
static WAITS: [(Made, Option<u64>); 10] = [
    (Made::Generator(2, 5), Some(2)),
    (Made::Tally, Some(0)),
    (Made::Relay(100), Some(100)),
    (Made::Relay(1), Some(1)),
    (Made::Relay(0), None),
    (Made::Queue(100), Some(100)),
    (Made::Queue(1), Some(1)),
    (Made::Queue(0), None),
    (Made::Hop(0, 2, 4), Some(4)),
    (Made::Hop(0, 2, 1), Some(1)),
];

#[test]
fn longest_waits_of_models(rt: HostRuntime) {
    for (made, longest) in WAITS.iter() {
        let model = made.model().expect(&rt, "a model");
        assert!(rt; model.longest_wait() == *longest);
    }
}
