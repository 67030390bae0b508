//! What tests of the program are given: the network of a row, from its file.

use std::alloc::Global;
use std::process::Abort;
use tw_any_model::AnyModel;
use tw_file_network::network_of_file;
use tw_network::Network;

/// The generator of the row.
pub(crate) const G: usize = 0;
/// Its relay.
pub(crate) const R: usize = 1;
/// Its tally.
pub(crate) const T: usize = 2;

/// A generator of period 2 and value 5, a relay of delay 1 and a tally in a row, of which the relay has 0=8 at tick 3.
const ROW: &str =
    r#"{"format": "tw-1", "micro_limit": 100, "components": [{"name": "g", "model": "gen", "period": 2, "value": 5}, {"name": "r", "model": "relay", "delay": 1}, {"name": "t", "model": "tally"}], "couplings": [["g", 0, "r", 0], ["r", 0, "t", 0]], "inputs": [{"tick": 3, "to": "r", "port": 0, "value": 8}]}"#;

/// The network of the row.
pub(crate) fn row(rt: &impl Abort, alloc: Global) -> Network<AnyModel> {
    network_of_file(alloc, ROW.as_bytes()).expect(rt, "a network")
}
