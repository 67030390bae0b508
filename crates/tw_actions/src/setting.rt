//! What a run by workers may be set to. Its window may be any number of ticks.

/// The most workers that a run may have; it has one at least.
pub const MAX_WORKERS: u64 = 64;

/// The most steps of a component that a worker may make before it hands them in; it makes one at least.
pub const MAX_BURST: u64 = 256;
