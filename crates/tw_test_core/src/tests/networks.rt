//! Each reader of a network once. The faults of networks are compared in the program's cases.

use super::helpers::{Made, Net, network_of};
use std::process::Abort;
use tw_models::Model;
use tw_network::{Coupling, Input, Network, Place};
use tw_vtime::Refusal;

/// The couplings of two relays, in no order.
const COUPLINGS: [Coupling; 4] = [(0, 0, 1, 3), (1, 15, 0, 0), (0, 2, 1, 0), (0, 0, 1, 1)];

/// The inputs of two relays, in no order.
const INPUTS: [Input; 2] = [(5, 1, 0, -7), (2, 0, 9, 7)];

/// A network of two relays.
static RELAYS: Net = Net {
    names: &["a", "b_2-c"],
    models: &[Made::Relay(1), Made::Relay(1)],
    couplings: &COUPLINGS,
    inputs: &INPUTS,
    micro_limit: 100,
};

/// Where its components send from their ports, in order.
static ROUTES: [(usize, u8, &'static [Place]); 6] = [
    (0, 0, &[(1, 1), (1, 3)]),
    (0, 2, &[(1, 0)]),
    (0, 255, &[]),
    (1, 0, &[]),
    (1, 15, &[(0, 0)]),
    (1, 16, &[]),
];

/// Asserts what the network of two relays has.
fn assert_relays(rt: &impl Abort, network: &Network<Model>) {
    network.facts();
    assert!(rt; network.len() == 2);
    assert!(rt; !network.is_empty() && network.micro_limit() == 100);
    assert!(rt; network.name(1) == "b_2-c" && Ok(*network.model(0)) == Made::Relay(1).model());
    assert!(rt; network.find("b_2-c") == Some(1) && network.find("b") == None);
    assert!(rt; network.couplings() == RELAYS.couplings && network.inputs() == RELAYS.inputs);
}

/// Asserts where the two relays send.
fn assert_routes(rt: &impl Abort, network: &Network<Model>) {
    for (component, port, places) in ROUTES.iter() {
        assert!(rt; *component < network.len());
        assert!(rt; network.routes(*component, *port) == *places);
    }
}

/// Where a request for memory is refused, 4 is answered, and the second try is made.
#[test]
fn a_network_is_read_and_routes_are_in_order(rt: HostRuntime) {
    let network = match network_of(rt.alloc(), &RELAYS) {
        Ok(network) => network,
        Err(refusal) => {
            assert!(rt; refusal == Refusal::OutOfMemory);
            network_of(rt.alloc(), &RELAYS).expect(&rt, "memory")
        }
    };
    assert_relays(&rt, &network);
    assert_routes(&rt, &network);
}
