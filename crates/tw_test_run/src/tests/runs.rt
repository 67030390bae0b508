//! Runs by workers: they work at the same time, and what comes out is the sequential run.

ghost use Rattle.std.specs.Prelude.{◌≡◌, ◌≤◌};
ghost use Rattle.tw_exchange.specs.Exchanged.{IsNotAhead};
ghost use Rattle.tw_vtime.specs.Stamps.{max_tick};

use super::helpers::{apart, assert_trace, stamp};
use std::alloc::{AllocError, Global};
use std::process::Abort;
use std::sync::Wait;
use std::sync::atomic::AtomicU64;
use std::sync::atomic::Ordering::SeqCst;
use std::thread;
use std::thread::Threads;
use tw_atomic::{Atomic, Outbox, Turn};
use tw_board::{Board, Publisher, Reader};
use tw_exec::Executive;
use tw_models::{Gen, GenState};
use tw_process::Cancel;
use tw_workers::{Gate, Open, Outcome, Setting, SweepRefused, run};

/// How many turns one waits for the other at most.
const TURNS: u64 = 10_000_000;

/// How often the first and the second of a pair was called, and how often one waited in vain for the other.
#[derive(Drop)]
struct Meeting {
    first: AtomicU64,
    second: AtomicU64,
    late: AtomicU64,
}

impl Meeting {
    fn new() -> Meeting {
        Meeting {
            first: AtomicU64::new(0),
            second: AtomicU64::new(0),
            late: AtomicU64::new(0),
        }
    }

    /// How often each was called, and how often one waited in vain.
    fn calls(&self) -> (u64, u64, u64) {
        (
            self.first.load(SeqCst),
            self.second.load(SeqCst),
            self.late.load(SeqCst),
        )
    }

    /// The number of calls of the one that comes, and that of the other.
    fn sides(&self, is_first: bool) -> (&AtomicU64, &AtomicU64) {
        if is_first {
            (&self.first, &self.second)
        } else {
            (&self.second, &self.first)
        }
    }

    /// Waits until the other was called more than so often.
    fn wait(&self, other: &AtomicU64, often: u64) {
        for _ in 0..TURNS {
            if other.load(SeqCst) > often {
                return;
            }
            thread::yield_now();
        }
        self.late.fetch_add(1, SeqCst);
    }

    /// The nth call of the one waits until the other was called n times.
    fn meet(&self, is_first: bool) {
        let (own, other) = self.sides(is_first);
        let before = own.fetch_add(1, SeqCst);
        self.wait(other, before);
    }
}

// Holds the first order of each of two components until the other's came.
impl Gate for Meeting {
    fn enter(&self, component: usize) {
        let (own, other) = self.sides(component == 0);
        if own.fetch_add(1, SeqCst) == 0 {
            self.wait(other, 0);
        }
    }
}

/// The sequential trace of two generators of period 2 and value 1.
const APART: &str = "\
2.0 x out 0=1
2.0 y out 0=1
2.0 x int | 1
2.0 y int | 1
4.0 x out 0=1
4.0 y out 0=1
4.0 x int | 2
4.0 y int | 2
";

/// Two workers, each of which hands in every step.
const TWO: Setting = Setting {
    workers: 2,
    burst: 1,
    window: 1000,
};

/// One worker, which hands in every step, and no component runs ahead.
const ONE: Setting = Setting {
    workers: 1,
    burst: 1,
    window: 0,
};

/// Asserts that a run of two generators has the sequential trace, and that a reader of its board is told so.
fn assert_whole<M: Atomic + Send + Sync, G: Gate + Sync, R: Abort + Threads + Wait + Sync>(
    rt: &R,
    alloc: Global,
    executive: Executive<M>,
    setting: Setting,
    gate: &G,
    publisher: Publisher,
    reader: &mut Reader,
)
where
    M::State: Send,
    M::Residue: Send,
    requires workers { (1 ≤ setting.workers) × (setting.workers ≤ 64) }
    requires burst { (1 ≤ setting.burst) × (setting.burst ≤ 256) }
    requires window { setting.window ≤ max_tick }
    requires not_ahead { IsNotAhead publisher executive }
    requires board { reader.old.board ≡ publisher.board }
{
    let (outcome, mut publisher) = run(rt, alloc, executive, setting, gate, publisher);
    let Ok(Outcome::Complete(trace)) = outcome else {
        panic!(rt; "no whole run");
    };
    assert_trace(rt, alloc, trace.as_slice(), &["x", "y"], APART);
    assert!(rt; reader.meet(&mut publisher) == (stamp(rt, 6, 0, 0), 8));
}

/// Asserts that a run of two generators by two workers, in which they meet, has the sequential trace.
fn assert_met<M: Atomic + Copy + Send + Sync, G: Gate + Sync, R: Abort + Threads + Wait + Sync>(
    rt: &R,
    alloc: Global,
    named: &[(&str, M)],
    gate: &G,
)
where
    M::State: Send,
    M::Residue: Send,
{
    let (mut board, publisher) = Board::new(alloc).expect(rt, "memory");
    let mut reader = board.reader().expect(rt, "memory");
    let executive = apart(rt, alloc, named, Cancel::Aggressive);
    assert_whole(rt, alloc, executive, TWO, gate, publisher, &mut reader);
}

#[test]
fn gate_of_two(rt: HostRuntime) {
    let meeting = Meeting::new();
    let generator = Gen::new(2, 1).expect(&rt, "a model");
    let named = [("x", generator), ("y", generator)];
    assert_met(&rt, rt.alloc(), &named, &meeting);
    assert!(rt; meeting.calls() == (4, 4, 0));
}

/// What a model does before each transition forward.
#[derive(Clone, Copy)]
enum Before<'a> {
    /// The nth, of the first of a pair or of the second, waits until the other's was called n times.
    Meet(bool, &'a Meeting),
    /// Of the calls, which are counted, the two from the first number on find no memory.
    Refuse(u64, &'a AtomicU64),
}

/// Counts a call, and refuses it where it is one of the two from the first number on.
fn refuse(first: u64, calls: &AtomicU64) -> Result<(), AllocError> {
    let before = calls.fetch_add(1, SeqCst);
    if before >= first && before - first < 2 {
        return Err(AllocError);
    }
    Ok(())
}

/// A generator of period 2 and value 1 that does something before each transition forward.
#[derive(Clone, Copy)]
struct Watched<'a> {
    model: Gen,
    before: Before<'a>,
}

impl<'a> Watched<'a> {
    fn new(rt: &impl Abort, before: Before<'a>) -> Watched<'a> {
        Watched {
            model: Gen::new(2, 1).expect(rt, "a model"),
            before,
        }
    }

    /// Does what is to be done before a transition forward.
    fn prepare(&self) -> Result<(), AllocError> {
        match self.before {
            Before::Meet(is_first, meeting) => {
                meeting.meet(is_first);
                Ok(())
            }
            Before::Refuse(first, calls) => refuse(first, calls),
        }
    }
}

impl Atomic for Watched<'_> {
    ghost use Rattle.std.specs.Prelude.{refl, Some};
    ghost use Rattle.tw_models.specs.Gen.{IsGen, gen_meaning, gen_undone};
    ghost use Rattle.tw_models.specs.GenLaws.{gen_stays_valid, gen_output_fits, gen_reverses};

    type State = GenState;

    type Residue = ();

    ghost meaning = { λ m. gen_meaning m.model };

    ghost valid = { λ m. IsGen m.model };

    ghost residue_of = { λ m turn s elapsed bag. tt };

    ghost undone = { λ m turn s elapsed bag residue. gen_undone turn s elapsed };

    ghost longest = { λ m. Some m.model.period };

    fn start(&self, alloc: Global) -> Result<GenState, AllocError> {
        self.model.start(alloc)
    }

    fn ta(&self, state: &GenState) -> Option<u64> {
        self.model.ta(state)
    }

    fn longest_wait(&self) -> Option<u64> {
        self.model.longest_wait()
    }

    fn output(&self, state: &GenState, outbox: &mut Outbox) {
        self.model.output(state, outbox);
    }

    fn forward(
        &self,
        alloc: Global,
        state: &mut GenState,
        turn: Turn,
        elapsed: u64,
        bag: &[(u8, i64)],
    ) -> Result<(), AllocError> {
        self.prepare()?;
        self.model.forward(alloc, state, turn, elapsed, bag)
    }

    fn back(&self, state: &mut GenState, turn: Turn, elapsed: u64, bag: &[(u8, i64)], residue: ()) {
        self.model.back(state, turn, elapsed, bag, residue);
    }

    fn words(
        &self,
        alloc: Global,
        state: &GenState,
        words: &mut Vec<i128>,
    ) -> Result<(), AllocError> {
        self.model.words(alloc, state, words)
    }

    fn same(&self, one: &GenState, other: &GenState) -> bool {
        self.model.same(one, other)
    }

    fn copy(&self, alloc: Global, state: &GenState) -> Result<GenState, AllocError> {
        self.model.copy(alloc, state)
    }

    ghost stays_valid = { λ m. gen_stays_valid m.model };

    ghost output_fits = { λ m. gen_output_fits m.model };

    ghost reverses = { λ m turn s elapsed bag can. gen_reverses m.model turn s elapsed bag can };
}

#[test]
fn forwards_meet(rt: HostRuntime) {
    let meeting = Meeting::new();
    let named = [
        ("x", Watched::new(&rt, Before::Meet(true, &meeting))),
        ("y", Watched::new(&rt, Before::Meet(false, &meeting))),
    ];
    assert_met(&rt, rt.alloc(), &named, &Open);
    assert!(rt; meeting.calls() == (2, 2, 0));
}

/// Asserts that a run of two components finds no memory, that a reader of its board is told how far it came, and that it cancels as it
/// did. What comes back can be run again.
fn give_up<M: Atomic + Send + Sync, R: Abort + Threads + Wait + Sync>(
    rt: &R,
    alloc: Global,
    executive: Executive<M>,
    publisher: Publisher,
    reader: &mut Reader,
    cancel: Cancel,
) -> (Executive<M>, Publisher)
where
    M::State: Send,
    M::Residue: Send,
    requires not_ahead { IsNotAhead publisher executive }
    ensures not_ahead { IsNotAhead result.1 result.0 }
    ensures board { result.1.board ≡ publisher.board }
    ensures reader { reader.new.board ≡ reader.old.board }
{
    let (outcome, publisher) = run(rt, alloc, executive, ONE, &Open, publisher);
    let Err(fault) = outcome else {
        panic!(rt; "the run found memory");
    };
    assert!(rt; fault.why == SweepRefused::OutOfMemory);
    let executive = fault.executive;
    assert!(rt; reader.see() == (executive.gvt(), executive.committed_len()));
    assert!(rt; executive.network().len() == 2);
    assert!(rt; executive.contents(1).cancel() == cancel);
    (executive, publisher)
}

/// Asserts that a run of two generators that twice finds no memory has the sequential trace in the end, cancelling in this way.
fn assert_resumed<M: Atomic + Copy + Send + Sync, R: Abort + Threads + Wait + Sync>(
    rt: &R,
    alloc: Global,
    named: &[(&str, M)],
    cancel: Cancel,
)
where
    M::State: Send,
    M::Residue: Send,
{
    let (mut board, publisher) = Board::new(alloc).expect(rt, "memory");
    let mut reader = board.reader().expect(rt, "memory");
    let executive = apart(rt, alloc, named, cancel);
    let (executive, publisher) = give_up(rt, alloc, executive, publisher, &mut reader, cancel);
    let (executive, publisher) = give_up(rt, alloc, executive, publisher, &mut reader, cancel);
    assert_whole(rt, alloc, executive, ONE, &Open, publisher, &mut reader);
}

/// At the first refusal a sweep brings global virtual time further, and the run goes on; at the second it does not.
fn give_up_and_go_on<R: Abort + Threads + Wait + Sync>(rt: &R, alloc: Global, cancel: Cancel) {
    let calls = [AtomicU64::new(0), AtomicU64::new(0)];
    let calls = &calls;
    let named = [
        ("x", Watched::new(rt, Before::Refuse(1, &calls[0]))),
        ("y", Watched::new(rt, Before::Refuse(0, &calls[1]))),
    ];
    assert_resumed(rt, alloc, &named, cancel);
}

#[test]
fn a_run_that_was_given_up_goes_on(rt: HostRuntime) {
    give_up_and_go_on(&rt, rt.alloc(), Cancel::Aggressive);
    give_up_and_go_on(&rt, rt.alloc(), Cancel::Lazy);
}
