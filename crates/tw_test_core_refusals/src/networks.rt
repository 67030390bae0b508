//! Networks in code, flat and as trees.

use crate::messages::tell_number;
use std::alloc::Global;
use tw_models::{BadModel, Model};
use tw_network::{Coupling, End, Input, Link, Nested, Network, Part};
use tw_test_refusal_tools::Told;
use tw_vtime::Refusal;

// The greatest microstep.
const MICRO_LIMIT: u64 = 100;

/// Adds a component with its name.
fn add(
    alloc: Global,
    components: &mut Vec<(String, Model)>,
    name: &str,
    made: Result<Model, BadModel>,
) -> Result<(), Refusal> {
    let model = made?;
    components.push((String::from_str(alloc, name)?, model))?;
    Ok(())
}

/// Adds the components of a row: a generator of 5 each 2 ticks, a relay with delay 1, and a tally.
fn add_row(alloc: Global, components: &mut Vec<(String, Model)>) -> Result<(), Refusal> {
    add(alloc, components, "g", Model::generator(2, 5))?;
    add(alloc, components, "r", Model::relay(1))?;
    add(alloc, components, "t", Model::tally())
}

/// The components of a row.
fn components(alloc: Global) -> Result<Vec<(String, Model)>, Refusal> {
    let mut components = Vec::new(alloc);
    add_row(alloc, &mut components)?;
    Ok(components)
}

// The couplings and inputs of a row.
const COUPLINGS: [Coupling; 2] = [(0, 0, 1, 0), (1, 0, 2, 0)];

const INPUTS: [Input; 1] = [(3, 1, 0, 8)];

/// The row, of which the relay has 0=8 at tick 3.
pub(crate) fn row(alloc: Global) -> Result<Network<Model>, Refusal> {
    let couplings = Vec::from_slice(alloc, &COUPLINGS)?;
    let inputs = Vec::from_slice(alloc, &INPUTS)?;
    Ok(Network::new(alloc, components(alloc)?, couplings, inputs, MICRO_LIMIT)?)
}

// The couplings of the model X of the nested example: into its relay, from that to its tally, and out.
const INNER: [Link; 3] = [
    (End::Here, 3, End::Part(0), 0),
    (End::Part(0), 0, End::Part(1), 0),
    (End::Part(0), 0, End::Here, 1),
];

// Those of its root: from the generator into X, and from X to a tally.
const OUTER: [Link; 2] = [
    (End::Part(0), 0, End::Part(1), 3),
    (End::Part(1), 1, End::Part(2), 0),
];

/// The parts of a model.
type Parts = Vec<(String, Part<Model>)>;

/// Adds a part with its name.
fn add_part(
    alloc: Global,
    parts: &mut Parts,
    name: &str,
    made: Result<Part<Model>, Refusal>,
) -> Result<(), Refusal> {
    let part = made?;
    parts.push((String::from_str(alloc, name)?, part))?;
    Ok(())
}

/// A model as a part.
fn atom(made: Result<Model, BadModel>) -> Result<Part<Model>, Refusal> {
    Ok(Part::Atom(made?))
}

/// Adds the parts of the model X.
fn add_inner(alloc: Global, parts: &mut Parts) -> Result<(), Refusal> {
    add_part(alloc, parts, "r", atom(Model::relay(0)))?;
    add_part(alloc, parts, "t", atom(Model::tally()))
}

/// The model X, as a part.
fn inner(alloc: Global) -> Result<Part<Model>, Refusal> {
    let mut parts = Vec::new(alloc);
    add_inner(alloc, &mut parts)?;
    let couplings = Vec::from_slice(alloc, &INNER)?;
    Ok(Part::Coupled(Nested { parts, couplings }))
}

/// Adds the parts of the root: a generator, the model X, and a tally.
fn add_outer(alloc: Global, parts: &mut Parts) -> Result<(), Refusal> {
    add_part(alloc, parts, "g", atom(Model::generator(2, 5)))?;
    add_part(alloc, parts, "X", inner(alloc))?;
    add_part(alloc, parts, "u", atom(Model::tally()))
}

/// The root.
fn root(alloc: Global) -> Result<Nested<Model>, Refusal> {
    let mut parts = Vec::new(alloc);
    add_outer(alloc, &mut parts)?;
    let couplings = Vec::from_slice(alloc, &OUTER)?;
    Ok(Nested { parts, couplings })
}

/// The nested example.
fn nested(alloc: Global) -> Result<Network<Model>, Refusal> {
    Ok(Network::nested(alloc, root(alloc)?, Vec::new(alloc), MICRO_LIMIT)?)
}

/// Tells the names of a network's components, and how many couplings and inputs there are.
fn tell(told: &mut Told, network: &Network<Model>) {
    for component in 0..network.len() {
        told.say(network.name(component));
        told.say("\n");
    }
    tell_number(told, "couplings ", network.couplings().len());
    tell_number(told, " inputs ", network.inputs().len());
    told.say("\n");
}

/// Tells a network, if there is one.
fn tell_made(told: &mut Told, made: Result<Network<Model>, Refusal>) {
    match made {
        Ok(network) => {
            tell(told, &network);
            drop(network);
        }
        Err(_) => told.give_up("new"),
    }
}

/// Makes both, and tells them.
pub(crate) fn play(told: &mut Told, alloc: Global) {
    told.begin("a row");
    let made = match row(alloc) {
        Err(Refusal::OutOfMemory) => row(alloc),
        made => made,
    };
    tell_made(told, made);
    told.begin("nested");
    let made = match nested(alloc) {
        Err(Refusal::OutOfMemory) => nested(alloc),
        made => made,
    };
    tell_made(told, made);
}
