//! How large a network may be; how many couplings it may have, and ports, says [`tw_nested`].

use tw_nested::PORTS;

/// The most components of a network: the atoms of a tree.
pub const MAX_COMPONENTS: usize = 1_024;

/// The most inputs of a network.
pub const MAX_INPUTS: usize = 65_536;

/// The most coupled parts of a tree.
pub const MAX_COUPLED: usize = 1_024;

/// The most levels of a tree; the root's parts are at level 1.
pub const MAX_LEVELS: usize = 16;

/// The most bytes of a component's name, and of a part's.
pub const MAX_NAME: usize = 32;

/// The greatest number of a port: they are numbered from 0.
pub const MAX_PORT: u8 = PORTS as u8 - 1;
