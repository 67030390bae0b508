//! The networks, and executives of them.

use crate::machines::{FUSES, HOPS_AND_DESKS, RING_OF_MACHINES};
use std::alloc::Global;
use tw_any_model::AnyModel;
use tw_exec::Executive;
use tw_file_network::network_of_any_file;
use tw_models::{BadModel, Model};
use tw_network::{Coupling, Input, Network};
use tw_process::Cancel;
use tw_vtime::Refusal;

/// A model, by its parameters.
#[derive(Clone, Copy)]
pub(crate) enum Made {
    /// A generator: period and value.
    Gen(u64, i64),
    /// A relay: its delay.
    Relay(u64),
    /// A queue: its service time.
    Queue(u64),
    /// A hop: seed, ports and spread.
    Hop(u64, u64, u64),
    Tally,
}

/// A network, the tick before which its runs end, and how many seeds drive them.
pub(crate) struct Case {
    pub(crate) name: &'static str,
    pub(crate) network: Plan,
    pub(crate) until: u64,
    pub(crate) seeds: u64,
}

/// What a network is made of.
pub(crate) enum Plan {
    /// Built-in models alone.
    BuiltIn(Parts),
    /// What a file says, which may define machines.
    File(&'static str),
}

/// Built-in models, and how they are coupled.
pub(crate) struct Parts {
    pub(crate) names: &'static [&'static str],
    pub(crate) models: &'static [Made],
    pub(crate) couplings: &'static [Coupling],
    pub(crate) inputs: &'static [Input],
    /// How many jobs the first component has at tick 1 before its other inputs, of the values from 1 on.
    pub(crate) jobs: i64,
    pub(crate) micro_limit: u64,
}

/// The model.
fn model_of(made: Made) -> Result<Model, BadModel> {
    match made {
        Made::Gen(period, value) => Model::generator(period, value),
        Made::Relay(delay) => Model::relay(delay),
        Made::Queue(service) => Model::queue(service),
        Made::Hop(seed, ports, spread) => Model::hop(seed, ports, spread),
        Made::Tally => Model::tally(),
    }
}

/// The components.
fn components_of(alloc: Global, parts: &Parts) -> Result<Vec<(String, AnyModel)>, Refusal> {
    let mut components = Vec::new(alloc);
    for (name, made) in parts.names.iter().zip(parts.models) {
        let model = AnyModel::BuiltIn(model_of(*made)?);
        components.push((String::from_str(alloc, name)?, model))?;
    }
    Ok(components)
}

/// The inputs.
fn inputs_of(alloc: Global, parts: &Parts) -> Result<Vec<Input>, Refusal> {
    let mut inputs = Vec::new(alloc);
    for value in 0..parts.jobs {
        inputs.push((1, 0, 0, value + 1))?;
    }
    inputs.extend_from_slice(parts.inputs)?;
    Ok(inputs)
}

/// The network of built-in models.
fn built_in(alloc: Global, parts: &Parts) -> Result<Network<AnyModel>, Refusal> {
    let components = components_of(alloc, parts)?;
    let couplings = Vec::from_slice(alloc, parts.couplings)?;
    let inputs = inputs_of(alloc, parts)?;
    Ok(Network::new(alloc, components, couplings, inputs, parts.micro_limit)?)
}

/// The network.
pub(crate) fn network_of(alloc: Global, case: &Case) -> Result<Network<AnyModel>, Refusal> {
    match &case.network {
        Plan::BuiltIn(parts) => built_in(alloc, parts),
        Plan::File(text) => Ok(network_of_any_file(alloc, text.as_bytes())?),
    }
}

/// An executive of the network at its start.
pub(crate) fn executive_of(
    alloc: Global,
    case: &Case,
    cancel: Cancel,
) -> Result<Executive<AnyModel>, Refusal> {
    let network = network_of(alloc, case)?;
    Ok(Executive::with_cancel(alloc, network, case.until, cancel)?)
}

/// The networks: examples of the program's, until later ticks, two in which each component sends to each other one, and three
/// with machines.
pub(crate) static CASES: [Case; 10] = [
    Case {
        name: "two-gens",
        network: Plan::BuiltIn(Parts {
            names: &["a", "b", "t"],
            models: &[Made::Gen(3, 9), Made::Gen(3, 4), Made::Tally],
            couplings: &[(0, 0, 2, 0), (1, 0, 2, 0)],
            inputs: &[],
            jobs: 0,
            micro_limit: 100,
        }),
        until: 200,
        seeds: 100,
    },
    Case {
        name: "microstep-fault",
        network: Plan::BuiltIn(Parts {
            names: &["a", "b"],
            models: &[Made::Relay(0), Made::Relay(0)],
            couplings: &[(0, 0, 1, 0), (1, 0, 0, 0)],
            inputs: &[(3, 0, 0, 1)],
            jobs: 0,
            micro_limit: 3,
        }),
        until: 5,
        seeds: 100,
    },
    Case {
        name: "mutual-confluent",
        network: Plan::BuiltIn(Parts {
            names: &["a", "b"],
            models: &[Made::Relay(1), Made::Relay(1)],
            couplings: &[(0, 0, 1, 0), (1, 0, 0, 0)],
            inputs: &[(0, 0, 0, 1), (0, 1, 0, 2)],
            jobs: 0,
            micro_limit: 100,
        }),
        until: 50,
        seeds: 100,
    },
    Case {
        name: "straggler-of-three",
        network: Plan::BuiltIn(Parts {
            names: &["g", "r", "t"],
            models: &[Made::Gen(2, 5), Made::Relay(1), Made::Tally],
            couplings: &[(0, 0, 1, 0), (1, 0, 2, 0)],
            inputs: &[(3, 1, 0, 8)],
            jobs: 0,
            micro_limit: 100,
        }),
        until: 100,
        seeds: 100,
    },
    Case {
        name: "full-queue",
        network: Plan::BuiltIn(Parts {
            names: &["q"],
            models: &[Made::Queue(100)],
            couplings: &[],
            inputs: &[
                (2, 0, 0, 101),
                (2, 0, 0, 102),
                (2, 0, 0, 103),
                (2, 0, 0, 104),
                (2, 0, 0, 105),
            ],
            jobs: 64,
            micro_limit: 100,
        }),
        until: 4_000,
        seeds: 100,
    },
    Case {
        name: "three-hops",
        network: Plan::BuiltIn(Parts {
            names: &["a", "b", "c"],
            models: &[Made::Hop(1, 2, 4), Made::Hop(2, 2, 4), Made::Hop(3, 2, 4)],
            couplings: &[
                (0, 0, 1, 0),
                (0, 1, 2, 0),
                (1, 0, 2, 1),
                (1, 1, 0, 0),
                (2, 0, 0, 1),
                (2, 1, 1, 1),
            ],
            inputs: &[],
            jobs: 0,
            micro_limit: 100,
        }),
        until: 60,
        seeds: 100,
    },
    Case {
        name: "eight-hops",
        network: Plan::BuiltIn(Parts {
            names: &["a", "b", "c", "d", "e", "f", "g", "h"],
            models: &[
                Made::Hop(1, 3, 8),
                Made::Hop(2, 3, 8),
                Made::Hop(3, 3, 8),
                Made::Hop(4, 3, 8),
                Made::Hop(5, 3, 8),
                Made::Hop(6, 3, 8),
                Made::Hop(7, 3, 8),
                Made::Hop(8, 3, 8),
            ],
            couplings: &[
                (0, 0, 1, 0),
                (0, 1, 3, 1),
                (0, 2, 5, 2),
                (1, 0, 2, 0),
                (1, 1, 4, 1),
                (1, 2, 6, 2),
                (2, 0, 3, 0),
                (2, 1, 5, 1),
                (2, 2, 7, 2),
                (3, 0, 4, 0),
                (3, 1, 6, 1),
                (3, 2, 0, 2),
                (4, 0, 5, 0),
                (4, 1, 7, 1),
                (4, 2, 1, 2),
                (5, 0, 6, 0),
                (5, 1, 0, 1),
                (5, 2, 2, 2),
                (6, 0, 7, 0),
                (6, 1, 1, 1),
                (6, 2, 3, 2),
                (7, 0, 0, 0),
                (7, 1, 2, 1),
                (7, 2, 4, 2),
            ],
            inputs: &[],
            jobs: 0,
            micro_limit: 100,
        }),
        until: 40,
        seeds: 100,
    },
    Case {
        name: "ring-of-machines",
        network: Plan::File(RING_OF_MACHINES),
        until: 120,
        seeds: 40,
    },
    Case {
        name: "hops-and-desks",
        network: Plan::File(HOPS_AND_DESKS),
        until: 60,
        seeds: 40,
    },
    Case {
        name: "fuses",
        network: Plan::File(FUSES),
        until: 100,
        seeds: 40,
    },
];
