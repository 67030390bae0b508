//! The warnings of a network's file.

use serde_json::Value;
use std::alloc::Global;
use std::process::Abort;
use tw_file_warnings::warnings_of;
use tw_machine_warnings::lines_of;

/// Two `wait`s in one block, where the second counts; and a coupling from a port on which nothing is sent.
const ODD: &str = r#"{"format": "tw-3", "micro_limit": 100,
    "models": [{"name": "m", "registers": {"on": 0}, "first": 1,
        "internal": "if on { wait 2; on = 0; wait 3 } else { on = 1 wait 1 }",
        "output": [{"port": 0, "value": 1}], "words": [0]}],
    "components": [{"name": "a", "model": "m"}, {"name": "t", "model": "tally"}],
    "couplings": [["a", 0, "t", 0], ["a", 1, "t", 0]], "inputs": []}"#;

const ODD_LINES: &str =
    r#"warning: models[0] "m": internal: one "wait" stands behind another, and the last counts
warning: couplings[1]: on this port nothing is ever sent
"#;

/// The same without either.
const EVEN: &str = r#"{"format": "tw-3", "micro_limit": 100,
    "models": [{"name": "m", "registers": {"on": 0}, "first": 1,
        "internal": "if on { on = 0; wait 3 } else { on = 1 wait 1 }",
        "output": [{"port": 0, "value": 1}], "words": [0]}],
    "components": [{"name": "a", "model": "m"}, {"name": "t", "model": "tally"}],
    "couplings": [["a", 0, "t", 0]], "inputs": []}"#;

/// Asserts the lines of a file's warnings.
fn assert_warnings(rt: &impl Abort, alloc: Global, file: &str, wanted: &str) {
    let value = Value::from_slice(alloc, file.as_bytes()).expect(rt, "JSON");
    let warnings = warnings_of(alloc, &value).ok().expect(rt, "memory");
    let lines = lines_of(alloc, warnings.as_slice()).expect(rt, "memory");
    assert!(rt; lines.as_str() == wanted);
}

#[test]
fn a_file_is_warned_of(rt: HostRuntime) {
    assert_warnings(&rt, rt.alloc(), ODD, ODD_LINES);
}

#[test]
fn a_right_file_has_no_warning(rt: HostRuntime) {
    assert_warnings(&rt, rt.alloc(), EVEN, "");
}
