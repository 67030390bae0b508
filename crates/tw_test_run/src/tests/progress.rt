//! What is told, when, and when no more.

use super::helpers::stamp;
use std::alloc::Global;
use std::fmt::Display;
use std::io::ErrorKind;
use std::process::Abort;
use std::sync::Wait;
use std::sync::atomic::{AtomicU64, Ordering};
use std::thread::Threads;
use std::time::{Clock, Duration, Instant};
use std::{io, thread};
use tw_board::Board;
use tw_progress::{Progress, while_telling};
use tw_vtime::Stamp;

/// A handle that counts the lines for standard error, and fails after so many of them.
#[derive(Drop)]
struct Ear<'a, R> {
    rt: &'a R,
    lines: AtomicU64,
    most: u64,
    has_clock: bool,
}

impl<R: Wait> Wait for Ear<'_, R> {}

impl<R: Threads> Threads for Ear<'_, R> {}

impl<R: Clock> Clock for Ear<'_, R> {
    fn monotonic(&self) -> io::Result<Duration> {
        if self.has_clock {
            self.rt.monotonic()
        } else {
            Err(io::Error::from(ErrorKind::Unsupported))
        }
    }

    fn since_1970(&self) -> io::Result<Duration> {
        self.rt.since_1970()
    }
}

impl<R> Eprint for Ear<'_, R> {
    fn eprint<D: Display + Drop>(&self, _value: D) -> io::Result<()> {
        Err(io::Error::from(ErrorKind::Unsupported))
    }

    fn eprintln<D: Display + Drop>(&self, _value: D) -> io::Result<()> {
        if self.lines.load(Ordering::SeqCst) == self.most {
            return Err(io::Error::from(ErrorKind::BrokenPipe));
        }
        self.lines.fetch_add(1, Ordering::SeqCst);
        Ok(())
    }
}

/// A moment by its tick, microstep and phase, or the end; how many records are committed; and what is told then of a run until tick 40.
static TOLD: [(Option<(u64, u32, u8)>, u64, &str); 6] = [
    (Some((0, 0, 0)), 0, "tick 0 of 40, 0 records"),
    (Some((12, 2, 1)), 345, "tick 12 of 40, 345 records"),
    (Some((40, 2, 1)), 1, "tick 40 of 40, 1 records"),
    (Some((41, 2, 1)), 1, "tick 40 of 40, 1 records"),
    (
        Some((1_099_511_627_774, 2, 1)),
        1,
        "tick 40 of 40, 1 records",
    ),
    (None, 1, "tick 40 of 40, 1 records"),
];

/// The moment.
fn moment(rt: &impl Abort, of: Option<(u64, u32, u8)>) -> Stamp {
    match of {
        Some((tick, microstep, phase)) => stamp(rt, tick, microstep, phase),
        None => Stamp::END,
    }
}

/// Asserts what is told of a run until tick 40, on whose board these were posted.
fn assert_told(rt: &impl Abort, alloc: Global, gvt: Stamp, committed: u64, told: &str) {
    let (mut board, mut publisher) = Board::new(alloc).expect(rt, "memory");
    let mut reader = board.reader().expect(rt, "memory");
    publisher.post(gvt, committed);
    let text = Progress::look(&mut reader, 40).to_string(alloc);
    assert!(rt; text.expect(rt, "memory").as_str() == told);
}

#[test]
fn a_board_is_told_as_it_was_posted(rt: HostRuntime) {
    for (gvt, committed, told) in TOLD.iter() {
        assert_told(&rt, rt.alloc(), moment(&rt, *gvt), *committed, told);
    }
}

/// How many lines are told while work waits for so many of them, where standard error fails after the most.
fn told<R: Abort + Threads + Wait + Clock + Sync>(
    rt: &R,
    alloc: Global,
    lines: u64,
    most: u64,
    has_clock: bool,
) -> u64 {
    let (mut board, _) = Board::new(alloc).expect(rt, "memory");
    let reader = board.reader().expect(rt, "memory");
    let ear = Ear {
        rt,
        lines: AtomicU64::new(0),
        most,
        has_clock,
    };
    while_telling(&ear, reader, 40, || wait_for(rt, &ear.lines, lines));
    ear.lines.load(Ordering::SeqCst)
}

/// Waits for so many lines.
fn wait_for(rt: &impl Wait, heard: &AtomicU64, lines: u64) {
    for _ in rt.forever() {
        if heard.load(Ordering::SeqCst) >= lines {
            return;
        }
        thread::yield_now();
    }
}

/// Work that is soon done tells nothing; a line comes after a second; and with no clock lines come until standard error is gone.
#[test]
fn lines_come_while_work_goes_on(rt: HostRuntime) {
    let soon = told(&rt, rt.alloc(), 0, 9, true);
    let start = Instant::now(&rt).expect(&rt, "a clock");
    let later = told(&rt, rt.alloc(), 1, 9, true);
    let took = start.elapsed(&rt).expect(&rt, "a clock");
    let unheard = told(&rt, rt.alloc(), 3, 3, false);
    assert!(rt; soon == 0 && later >= 1 && unheard == 3 && took >= Duration::from_secs(1));
}
