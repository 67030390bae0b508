//! Telling on standard error how far a run is.

use std::time::{Clock, Duration, Instant};
use tw_listen::{Listener, Reached};
use tw_progress::Progress;
use tw_vtime::Stamp;

// How long it is from one line to the next, in seconds.
const PAUSE: u64 = 1;

/// Tells on standard error, once a second, how far a run is: `twarp: tick 12 of 40, 345 records`. Where the clock cannot be read it
/// tells nothing; what is told touches nothing of the run.
#[derive(Drop)]
pub(crate) struct Teller<'a, R: Clock + Eprint> {
    rt: &'a R,
    until: u64,
    // When the latest line was told, and the start of the run before there is one; none where nothing is told, or where the clock could
    // not be read.
    told: Option<Instant>,
}

impl<'a, R: Clock + Eprint> Teller<'a, R> {
    /// Begins to tell of a run up to an end tick, where that is asked for; where it is not, it tells nothing.
    pub(crate) fn new(rt: &'a R, until: u64, progress: bool) -> Teller<'a, R> {
        let told = if progress {
            Instant::now(rt).ok()
        } else {
            None
        };
        Teller { rt, until, told }
    }

    /// Whether a line is due, a second after the latest one.
    fn is_due(&self) -> bool {
        match self.told {
            Some(told) => match told.elapsed(self.rt) {
                Ok(since) => since >= Duration::from_secs(PAUSE),
                Err(_) => false,
            },
            None => false,
        }
    }
}

impl<R: Clock + Eprint> Listener for Teller<'_, R> {
    fn hear(&mut self, reached: Reached) {
        if !self.is_due() {
            return;
        }
        let Reached { at, records } = reached;
        let until = self.until;
        let progress = Progress {
            tick: tick_of(at, until),
            until,
            records,
        };
        let rt = self.rt;
        let _ = eprintln!(rt; "twarp: {progress}");
        self.told = Instant::now(rt).ok();
    }
}

/// The tick of a run up to an end tick whose latest record is at this stamp.
fn tick_of(at: Stamp, until: u64) -> u64 {
    if at.is_end() {
        until
    } else {
        at.tick().min(until)
    }
}
