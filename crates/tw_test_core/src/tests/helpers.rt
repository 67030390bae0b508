//! What several modules of tests share: stamps, messages, networks and records as the examples write them.

ghost use Rattle.std.specs.Prelude.{◌≡◌};

use std::alloc::Global;
use std::process::Abort;
use tw_models::{BadModel, Model};
use tw_msgs::{Message, Record, RecordKind, Words};
use tw_network::{Coupling, Input, Network};
use tw_vtime::{Refusal, Stamp};

/// A stamp, written as in the examples.
pub(crate) fn stamp(rt: &impl Abort, tick: u64, microstep: u32, phase: u8) -> Stamp {
    Stamp::new(tick, microstep, phase).expect(rt, "a stamp")
}

/// A message: a value for a port of a component at a tick.
pub(crate) fn message(rt: &impl Abort, tick: u64, to: usize, port: u8, value: i64) -> Message
    ensures { result.to ≡ to }
{
    Message {
        stamp: stamp(rt, tick, 0, 1),
        port,
        value,
        to,
    }
}

/// A record as the examples write it: tick, microstep, component, kind, bag and words.
pub(crate) struct Line(
    pub(crate) u64,
    pub(crate) u32,
    pub(crate) usize,
    pub(crate) RecordKind,
    pub(crate) &'static [(u8, i64)],
    pub(crate) &'static [i128],
);

/// Whether words are these numbers.
fn are_words(words: &Words, numbers: &[i128]) -> bool {
    if words.len() != numbers.len() {
        return false;
    }
    for index in 0..numbers.len() {
        if words.get(index) != Some(numbers[index]) {
            return false;
        }
    }
    true
}

/// Whether a record is what a line says.
fn shows(record: &Record, line: &Line) -> bool {
    let phase = if line.3 == RecordKind::Out { 0 } else { 1 };
    Stamp::new(line.0, line.1, phase) == Ok(record.stamp)
        && record.component == line.2
        && record.kind == line.3
        && record.bag.as_slice() == line.4
        && are_words(&record.words, line.5)
}

/// Asserts that the records are what the lines say.
pub(crate) fn assert_records(rt: &impl Abort, records: &[Record], lines: &[Line]) {
    assert!(rt; records.len() == lines.len());
    for (record, line) in records.iter().zip(lines) {
        assert!(rt; shows(record, line));
    }
}

/// A model, by its parameters.
#[derive(Clone, Copy)]
pub(crate) enum Made {
    /// Period and value.
    Generator(u64, i64),
    Tally,
    /// Its delay.
    Relay(u64),
    /// Its service time.
    Queue(u64),
    /// Seed, ports and spread.
    Hop(u64, u64, u64),
}

impl Made {
    /// The model, if its parameters are in range.
    pub(crate) fn model(self) -> Result<Model, BadModel> {
        match self {
            Made::Generator(period, value) => Model::generator(period, value),
            Made::Tally => Model::tally(),
            Made::Relay(delay) => Model::relay(delay),
            Made::Queue(service) => Model::queue(service),
            Made::Hop(seed, ports, spread) => Model::hop(seed, ports, spread),
        }
    }
}

/// What a network is made of: names, models, couplings, inputs and the greatest microstep.
pub(crate) struct Net {
    pub(crate) names: &'static [&'static str],
    pub(crate) models: &'static [Made],
    pub(crate) couplings: &'static [Coupling],
    pub(crate) inputs: &'static [Input],
    pub(crate) micro_limit: u64,
}

/// The network.
pub(crate) fn network_of(alloc: Global, net: &Net) -> Result<Network<Model>, Refusal> {
    let mut components = Vec::new(alloc);
    for (name, made) in net.names.iter().zip(net.models) {
        components.push((String::from_str(alloc, name)?, made.model()?))?;
    }
    let couplings = Vec::from_slice(alloc, net.couplings)?;
    let inputs = Vec::from_slice(alloc, net.inputs)?;
    Ok(Network::new(alloc, components, couplings, inputs, net.micro_limit)?)
}
