//! Names and figures of machines, as they are worked out by hand from a file.

use serde_json::Value;
use std::alloc::Global;
use std::process::Abort;
use tw_figure_names::labels_in;
use tw_figures::{Labels, Measure};
use tw_file_network::network_of_any_file;

/// Two machines and a tally. The desk shows six numbers, of which the last one stands behind its first queue, and two
/// queues.
const FILE: &str = r#"{"format": "tw-3", "micro_limit": 100,
 "models": [
  {"name": "clock", "registers": {"beat": 0}, "words": ["beat", -5]},
  {"name": "desk", "registers": {"open": 1, "seats": [0, 0, 0]}, "queues": {"line": 4, "lanes": [2, 3]},
   "words": [" open \n + \t1", "seats", 7, "line  # who waits", "open", "lanes[1]"]}],
 "components": [
  {"name": "hall", "components": [
    {"name": "d", "model": "desk"},
    {"name": "t", "model": "tally"}], "couplings": []},
  {"name": "c", "model": "clock"}],
 "couplings": [],
 "inputs": []}"#;

/// The desk's figures.
static DESK: [(&str, Measure); 6] = [
    ("open + 1", Measure::Word(0)),
    ("seats[0]", Measure::Word(1)),
    ("seats[1]", Measure::Word(2)),
    ("seats[2]", Measure::Word(3)),
    ("7", Measure::Word(4)),
    ("line # who waits + lanes[1]", Measure::Beyond(6)),
];

/// Those of the tally.
static TALLY: [(&str, Measure); 3] = [
    ("count", Measure::Word(0)),
    ("sum", Measure::Word(1)),
    ("last", Measure::Word(2)),
];

/// Those of the clock.
static CLOCK: [(&str, Measure); 2] = [("beat", Measure::Word(0)), ("-5", Measure::Word(1))];

/// What the models of the file's components are called, and their figures.
fn labels(rt: &impl Abort, alloc: Global) -> Vec<Labels> {
    let file = Value::from_str(alloc, FILE).ok().expect(rt, "a value");
    let network = network_of_any_file(alloc, FILE.as_bytes());
    let network = network.ok().expect(rt, "a network");
    labels_in(alloc, &file, &network).expect(rt, "memory")
}

/// Asserts the name and the figures of a component's model.
fn assert_label(
    rt: &impl Abort,
    labels: &[Labels],
    component: usize,
    model: &str,
    figures: &[(&str, Measure)],
) {
    let label = labels.get(component).expect(rt, "a component");
    assert!(rt; label.model.as_str() == model);
    assert!(rt; label.figures.len() == figures.len());
    for (figure, wanted) in label.figures.iter().zip(figures) {
        assert!(rt; figure.name.as_str() == wanted.0);
        assert!(rt; figure.measure == wanted.1);
    }
}

#[test]
fn names_the_words_of_machines(rt: HostRuntime) {
    let labels = labels(&rt, rt.alloc());
    let labels = labels.as_slice();
    assert!(rt; labels.len() == 3);
    assert_label(&rt, labels, 0, "desk", &DESK);
    assert_label(&rt, labels, 1, "tally", &TALLY);
    assert_label(&rt, labels, 2, "clock", &CLOCK);
}
