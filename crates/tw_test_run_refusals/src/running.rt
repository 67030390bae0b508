//! Runs by workers, each of which ends whatever was refused: one that is given up is run again.

ghost use Rattle.std.specs.Prelude.{◌≡◌, ◌≤◌, IfOk};
ghost use Rattle.tw_exchange.specs.Exchanged.{IsNotAhead};
ghost use Rattle.tw_theory.specs.Board.{nothing_posted};

use crate::made::ends_of_board;
use crate::scenes::DESK;
use crate::telling::{name_in, tell_fault, tell_lines, tell_seen};
use std::alloc::{AllocError, Global};
use std::sync::Wait;
use std::thread::Threads;
use tw_any_model::AnyModel;
use tw_board::{Publisher, Reader};
use tw_exec::Executive;
use tw_file_network::network_of_any_file;
use tw_process::Cancel;
use tw_test_refusal_tools::Told;
use tw_vtime::Refusal;
use tw_workers::{Open, Outcome, RunFault, Setting, run};

/// A network's file, the names of its components, the end tick, and the way of cancelling.
struct Race {
    name: &'static str,
    file: &'static str,
    names: &'static [&'static str],
    until: u64,
    cancel: Cancel,
}

static RACES: [Race; 4] = [
    Race {
        name: "gen-tally",
        file: r#"{"format": "tw-1", "micro_limit": 100,
 "components": [{"name": "g", "model": "gen", "period": 2, "value": 5}, {"name": "t", "model": "tally"}],
 "couplings": [["g", 0, "t", 0]], "inputs": []}"#,
        names: &["g", "t"],
        until: 5,
        cancel: Cancel::Aggressive,
    },
    Race {
        name: "microstep-fault",
        file: r#"{"format": "tw-1", "micro_limit": 3,
 "components": [{"name": "a", "model": "relay", "delay": 0}, {"name": "b", "model": "relay", "delay": 0}],
 "couplings": [["a", 0, "b", 0], ["b", 0, "a", 0]], "inputs": [{"tick": 3, "to": "a", "port": 0, "value": 1}]}"#,
        names: &["a", "b"],
        until: 5,
        cancel: Cancel::Lazy,
    },
    Race {
        name: "mutual-confluent",
        file: r#"{"format": "tw-1", "micro_limit": 100,
 "components": [{"name": "a", "model": "relay", "delay": 1}, {"name": "b", "model": "relay", "delay": 1}],
 "couplings": [["a", 0, "b", 0], ["b", 0, "a", 0]],
 "inputs": [{"tick": 0, "to": "a", "port": 0, "value": 1}, {"tick": 0, "to": "b", "port": 0, "value": 2}]}"#,
        names: &["a", "b"],
        until: 3,
        cancel: Cancel::Aggressive,
    },
    Race {
        name: "a desk",
        file: DESK,
        names: &["g", "d", "t"],
        until: 10,
        cancel: Cancel::Aggressive,
    },
];

/// The executive, if there is memory for it.
fn begin(alloc: Global, it: &Race) -> Result<Executive<AnyModel>, Refusal> {
    let network = network_of_any_file(alloc, it.file.as_bytes())?;
    Ok(Executive::with_cancel(alloc, network, it.until, it.cancel)?)
}

/// A board's publisher and a reader of it, at the second try where the first finds no memory.
fn board_of(alloc: Global) -> Result<(Publisher, Reader), AllocError>
    ensures { IfOk result (λ ends. ends.0.numbers ≡ nothing_posted) }
{
    match ends_of_board(alloc) {
        Err(_) => ends_of_board(alloc),
        made => made,
    }
}

/// Tells how a run ended.
fn tell_end(told: &mut Told, names: &[&str], end: Result<Outcome, RunFault<AnyModel>>) {
    match end {
        Ok(Outcome::Complete(trace)) => tell_lines(told, names, trace.as_slice()),
        Ok(Outcome::Fault(trace, fault)) => {
            tell_lines(told, names, trace.as_slice());
            tell_fault(told, name_in(names, fault.component), &fault);
        }
        Err(_) => told.give_up("run"),
    }
}

/// How a run of an executive by so many workers ends, or the second run where the first is given up.
fn end_of<R: Threads + Wait + Sync>(
    rt: &R,
    alloc: Global,
    executive: Executive<AnyModel>,
    publisher: Publisher,
    workers: u64,
) -> Result<Outcome, RunFault<AnyModel>>
    requires workers { (1 ≤ workers) × (workers ≤ 64) }
    requires not_ahead { IsNotAhead publisher executive }
{
    let setting = Setting {
        workers,
        burst: 16,
        window: 1_000,
    };
    let (first, publisher) = run(rt, alloc, executive, setting, &Open, publisher);
    match first {
        Ok(outcome) => Ok(outcome),
        Err(fault) => {
            let (second, _) = run(rt, alloc, fault.executive, setting, &Open, publisher);
            second
        }
    }
}

/// Makes what a run takes, and runs it by so many workers.
fn play_race<R: Threads + Wait + Sync>(
    rt: &R,
    told: &mut Told,
    alloc: Global,
    it: &Race,
    workers: u64,
)
    requires { (1 ≤ workers) × (workers ≤ 64) }
{
    told.begin(it.name);
    let begun = match begin(alloc, it) {
        Err(_) => begin(alloc, it),
        begun => begun,
    };
    let Ok(executive) = begun else {
        told.give_up("new");
        return;
    };
    let Ok((publisher, mut reader)) = board_of(alloc) else {
        drop(executive);
        told.give_up("Board::new");
        return;
    };
    let end = end_of(rt, alloc, executive, publisher, workers);
    tell_end(told, it.names, end);
    tell_seen(told, reader.see());
}

/// Each run by one worker and by two.
pub(crate) fn play<R: Threads + Wait + Sync>(rt: &R, told: &mut Told, alloc: Global) {
    for it in RACES.iter() {
        play_race(rt, told, alloc, it, 1);
        play_race(rt, told, alloc, it, 2);
    }
}
