//! A text of a machine with timers, read.

use std::alloc::Global;
use std::process::Abort;
use tw_machine_text::{Declared, Kind, Meaning, Program, TextRefused, Timing, read_program};

// The numbers of names begin behind those of the functions and `in`.
const FIRST: usize = 17;

// A register `n` and a timer `shift`, and behind them the names that no text has: how many timers are before `shift`, when timers are
// due, which goes next, the least wait, and the queues of ports and of values.
const NAMES: [(&str, Kind); 8] = [
    ("n", Kind::Register),
    ("shift", Kind::Timer(FIRST + 2)),
    (".before", Kind::Nothing),
    (".due", Kind::Nothing),
    (".next", Kind::Nothing),
    (".least", Kind::Nothing),
    (".ports", Kind::Nothing),
    (".values", Kind::Nothing),
];

const TIMING: Timing = Timing {
    due: FIRST + 3,
    next: FIRST + 4,
    least: FIRST + 5,
    ports: FIRST + 6,
    values: FIRST + 7,
    of: None,
};

/// Reads a text, of a machine with timers or without.
fn read(
    rt: &impl Abort,
    alloc: Global,
    timing: Option<Timing>,
    text: &str,
) -> Result<Program, TextRefused> {
    let mut declared = Vec::new(alloc);
    for (name, kind) in NAMES {
        let name = String::from_str(alloc, name).expect(rt, "memory");
        let meaning = Meaning { kind, field: None };
        declared
            .push(Declared { name, meaning })
            .expect(rt, "memory");
    }
    read_program(alloc, declared.as_slice(), timing, &[], text, 4096)
}

// `start` comes to 12 nodes, `due[before] = now + min(max(n + 1, least), 1099511627775)`; `stop` to 5, `due[before] = -1`; `send` to 6,
// `push ports 0 push values n`.
#[test]
fn timers_are_started_and_stopped(rt: HostRuntime) {
    let text = "start shift in n + 1  stop shift  send 0, n";
    let program = read(&rt, rt.alloc(), Some(TIMING), text);
    assert!(rt; program.ok().expect(&rt, "a program").nodes == 23);
}

#[test]
fn timers_stand_in_machines_with_timers(rt: HostRuntime) {
    let sent = read(&rt, rt.alloc(), None, "send 0, n");
    assert!(rt; sent.is_err());
    let waited = read(&rt, rt.alloc(), Some(TIMING), "wait n");
    assert!(rt; waited.is_err());
}
