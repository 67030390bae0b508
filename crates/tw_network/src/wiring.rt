//! What the ends of couplings are, and of inputs, by number.

/// A coupling: source, its port, destination, its port.
pub type Coupling = (usize, u8, usize, u8);

/// What comes from outside: tick, component, port, value.
pub type Input = (u64, usize, u8, i64);

/// Where an output arrives: component and port.
pub type Place = (usize, u8);
