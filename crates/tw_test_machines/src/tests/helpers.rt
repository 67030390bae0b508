//! Networks whose components are machines, from JSON texts, and the text of a run.

use serde_json::Value;
use std::alloc::Global;
use std::process::Abort;
use tw_any_model::AnyModel;
use tw_machine::machine::{Machine, Shared};
use tw_machine_compiler::compile;
use tw_machine_file::{FileMachine, SharedNames, given_of, machine_of};
use tw_msgs::Record;
use tw_network::{Coupling, Input, Network};
use tw_seq::simulate;
use tw_texts::push_record;

/// A component: its name, the place of its machine among the machines, and the text of the component.
pub(crate) struct Part(
    pub(crate) &'static str,
    pub(crate) usize,
    pub(crate) &'static str,
);

/// A network of machines: their texts, its parts, its end tick, and the lines of its run.
pub(crate) struct Scene {
    pub(crate) machines: &'static [&'static str],
    pub(crate) parts: &'static [Part],
    pub(crate) couplings: &'static [Coupling],
    pub(crate) inputs: &'static [Input],
    pub(crate) until: u64,
    pub(crate) lines: &'static str,
}

/// The machine that a text declares.
pub(crate) fn read(rt: &impl Abort, alloc: Global, text: &str) -> FileMachine {
    let value = Value::from_slice(alloc, text.as_bytes()).expect(rt, "JSON");
    machine_of(alloc, &SharedNames::nothing(alloc), &[], &value).expect(rt, "a machine")
}

/// The model of a component.
fn model(rt: &impl Abort, alloc: Global, scene: &Scene, part: &Part) -> AnyModel {
    let text = scene.machines.get(part.1).expect(rt, "a machine");
    let machine = read(rt, alloc, text);
    let value = Value::from_slice(alloc, part.2.as_bytes()).expect(rt, "JSON");
    let given = given_of(alloc, &machine, &value).expect(rt, "numbers");
    let program = compile(alloc, &given, &machine.declaration).expect(rt, "a program");
    AnyModel::Machine(Machine {
        program: Shared::new(alloc, program).expect(rt, "memory"),
    })
}

/// The network.
fn network(rt: &impl Abort, alloc: Global, scene: &Scene) -> Network<AnyModel> {
    let mut components = Vec::new(alloc);
    for part in scene.parts {
        let name = String::from_str(alloc, part.0).expect(rt, "memory");
        components
            .push((name, model(rt, alloc, scene, part)))
            .expect(rt, "memory");
    }
    let couplings = Vec::from_slice(alloc, scene.couplings).expect(rt, "memory");
    let inputs = Vec::from_slice(alloc, scene.inputs).expect(rt, "memory");
    Network::new(alloc, components, couplings, inputs, 100).expect(rt, "a network")
}

/// Asserts that the records have the lines of the run.
fn assert_lines(rt: &impl Abort, alloc: Global, scene: &Scene, records: &[Record]) {
    let mut text = String::new(alloc);
    for record in records {
        let part = scene.parts.get(record.component).expect(rt, "a component");
        push_record(&mut text, part.0, record).expect(rt, "memory");
    }
    assert!(rt; text.as_str() == scene.lines);
}

/// Asserts that the run in order has these lines.
pub(crate) fn assert_run(rt: &impl Abort, alloc: Global, scene: &Scene) {
    let network = network(rt, alloc, scene);
    let ended = simulate(alloc, &network, scene.until).expect(rt, "memory");
    assert!(rt; ended.fault.is_none());
    assert_lines(rt, alloc, scene, ended.records.as_slice());
}
