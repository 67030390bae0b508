//! How many workers a run has, where that is left to the program.

use std::alloc::Global;
use std::thread;
use std::thread::Threads;
use std::time::{Clock, Duration, Instant};
use tw_any_model::AnyModel;
use tw_cli::{RunOptions, Workers};
use tw_listen::{Judge, Reached, try_out};
use tw_network::Network;

// The most records that are made in order to see what they cost, and how long that may take, in milliseconds.
const RECORDS: u64 = 20_000;

const TRIAL: u64 = 100;

// From how many nanoseconds a record on workers pay: what they do for one under their lock takes a part of a microsecond.
const DEAR: u64 = 3_000;

/// How many workers a run has: as many as are asked for. Where that is left to the program it is one for each processor, or none, so
/// that the run goes on in order: where there is one processor or one component, or where the first records cost so little that
/// workers would cost more. Where the clock cannot be read there are none. With `progress` it tells on standard error what it chose.
pub(crate) fn workers_of<R: Threads + Clock + Eprint>(
    rt: &R,
    alloc: Global,
    network: &Network<AnyModel>,
    until: u64,
    setting: RunOptions,
) -> Option<u64> {
    match setting.workers {
        Workers::Count(count) => Some(count),
        Workers::Auto => {
            let chosen = choose(rt, alloc, network, until);
            if setting.progress {
                tell(rt, chosen);
            }
            chosen
        }
    }
}

/// Tells what was chosen.
fn tell<R: Eprint>(rt: &R, chosen: Option<u64>) {
    let _ = match chosen {
        Some(workers) => eprintln!(rt; "twarp: auto: {workers} workers"),
        None => eprintln!(rt; "twarp: auto: in order"),
    };
}

/// As many workers as there are processors, where they pay.
fn choose<R: Threads + Clock>(
    rt: &R,
    alloc: Global,
    network: &Network<AnyModel>,
    until: u64,
) -> Option<u64> {
    let processors = processors(rt);
    if processors < 2 || network.len() < 2 {
        return None;
    }
    if is_dear(rt, alloc, network, until) {
        Some(processors)
    } else {
        None
    }
}

/// How many processors the program may use; one where that is not known.
fn processors<R: Threads>(rt: &R) -> u64 {
    match thread::available_parallelism(rt) {
        Ok(count) => count.get() as u64,
        Err(_) => 1,
    }
}

/// Whether the first records of a run in order cost so much that workers pay. What is refused there is refused again by the run.
fn is_dear<R: Clock>(rt: &R, alloc: Global, network: &Network<AnyModel>, until: u64) -> bool {
    let Ok(begun) = Instant::now(rt) else {
        return false;
    };
    let mut stopwatch = Stopwatch {
        rt,
        begun,
        records: 0,
        time: Duration::ZERO,
    };
    let _ = try_out(alloc, network, until, &mut stopwatch);
    stopwatch.is_dear()
}

// What the rounds of a run cost since a moment.
#[derive(Drop)]
struct Stopwatch<'a, R: Clock> {
    rt: &'a R,
    begun: Instant,
    // How many records there were when the clock was read last, and how long they took.
    records: u64,
    time: Duration,
}

impl<R: Clock> Stopwatch<'_, R> {
    /// Whether a record takes so long that workers pay.
    fn is_dear(&self) -> bool {
        let least = u128::from(self.records).saturating_mul(u128::from(DEAR));
        self.records > 0 && self.time.as_nanos() >= least
    }
}

impl<R: Clock> Judge for Stopwatch<'_, R> {
    fn wants_more(&mut self, reached: Reached) -> bool {
        let Ok(time) = self.begun.elapsed(self.rt) else {
            return false;
        };
        self.records = reached.records;
        self.time = time;
        reached.records < RECORDS && time < Duration::from_millis(TRIAL)
    }
}
