//! Trees of very many levels. What a tree is as a flat network, and its faults, are compared in the program's cases.

use std::alloc::Global;
use tw_models::Model;
use tw_network::{Nested, Network, Part};
use tw_vtime::Refusal;

/// A coupled model of one part, without couplings.
fn around(alloc: Global, name: &str, part: Part<Model>) -> Result<Nested<Model>, Refusal> {
    let mut parts = Vec::new(alloc);
    parts.push((String::from_str(alloc, name)?, part))?;
    Ok(Nested {
        parts,
        couplings: Vec::new(alloc),
    })
}

/// A relay at this level, in models one in another.
fn tower(alloc: Global, levels: usize) -> Result<Nested<Model>, Refusal> {
    let mut model = around(alloc, "r", Part::Atom(Model::relay(0)?))?;
    for _ in 1..levels {
        model = around(alloc, "m", Part::Coupled(model))?;
    }
    Ok(model)
}

/// For what the network of the relay is refused, by its number; 0 where it is taken.
fn number_of_levels(alloc: Global, levels: usize) -> Result<u8, Refusal> {
    match Network::nested(alloc, tower(alloc, levels)?, Vec::new(alloc), 100) {
        Ok(_) => Ok(0),
        Err(refused) => Ok(Refusal::from(refused).number()),
    }
}

/// Levels, and the number that is answered.
static LEVELS: [(usize, u8); 3] = [(16, 0), (17, 9), (100_000, 9)];

#[test]
fn a_tree_has_at_most_16_levels(rt: HostRuntime) {
    for (levels, number) in LEVELS.iter() {
        assert!(rt; number_of_levels(rt.alloc(), *levels) == Ok(*number));
    }
}
