//! Telling how far a run is.

ghost use Rattle.std.specs.Prelude.{◌≡◌};

use crate::bell::Bell;
use crate::progress::Progress;
use std::sync::Wait;
use std::thread;
use std::thread::Threads;
use std::time::{Clock, Duration};
use tw_board::Reader;

// How long it is from one line to the next, in seconds.
const PAUSE: u64 = 1;

/// Does `work` on the calling thread, and answers what it answers. Meanwhile a thread of its own writes on standard
/// error, once a second, how far the run is, as the reader's board says: `twarp: tick 12 of 40, 345 records`. `until`
/// is the run's end tick. That thread has ended when this returns.
///
/// Work that takes less than a second tells nothing. Where no thread can be started, or standard error is gone,
/// nothing more is told, and the work goes on. Where the clock cannot be read, one line follows another without a
/// pause.
pub fn while_telling<R: Threads + Wait + Clock + Eprint + Sync, F: FnOnce() -> T, T>(
    rt: &R,
    reader: Reader,
    until: u64,
    work: F,
) -> T
    requires { F.pre work }
    ensures { F.post work result }
{
    let bell = Bell::new();
    work_beside(rt, &bell, reader, until, work)
}

/// Does work while a thread tells, until the bell rings for the end of the work.
fn work_beside<'a, R: Threads + Wait + Clock + Eprint + Sync, F: FnOnce() -> T, T>(
    rt: &'a R,
    bell: &'a Bell,
    reader: Reader,
    until: u64,
    work: F,
) -> T
    requires { F.pre work }
    ensures { F.post work result }
{
    thread::scope(
        thread::scope_env(),
        rt,
        move |scope| -> T
            requires { F.pre work }
            ensures { F.post work result }
        {
            let _ = scope.spawn(move || tell(rt, bell, reader, until));
            let answer = work();
            bell.ring(rt);
            answer
        },
    )
}

/// Tells how far a run is each time that a second is over, until the bell rings or standard error is gone.
fn tell<R: Wait + Clock + Eprint>(rt: &R, bell: &Bell, mut reader: Reader, until: u64) {
    for _ in rt.forever() {
        if bell.rings_within(rt, Duration::from_secs(PAUSE)) {
            return;
        }
        let progress = Progress::look(&mut reader, until);
        if eprintln!(rt; "twarp: {progress}").is_err() {
            return;
        }
    }
    unreachable!()
}
