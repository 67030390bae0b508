//! How large a flat network may be, and how many ports its components have.

/// The most couplings of a network, and of all models of a tree together.
pub const MAX_COUPLINGS: usize = 8_192;

/// How many ports a component has, for what it puts out and for what it takes in: they are numbered from 0.
pub const PORTS: usize = 16;
