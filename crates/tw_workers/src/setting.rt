//! How a run is set, and what comes back of one that was given up.

use tw_atomic::Atomic;
use tw_exchange::SweepRefused;
use tw_exec::Executive;

/// How a run goes about its work. Its outcome does not depend on it. Burst and window are bounds: within them a run finds by itself how
/// far its components run ahead.
#[derive(Clone, Copy, Debug, PartialEq, Eq)]
pub struct Setting {
    /// How many workers there are, 1 to 64; the calling thread is one of them.
    pub workers: u64,
    /// How many steps of a component a worker makes at most before it hands them in, 1 to 256.
    pub burst: usize,
    /// How many ticks after that of global virtual time a component may run ahead at most, 0 to 1,099,511,627,774.
    pub window: u64,
}

/// A run that was given up, for want of memory (4) or of nodes (12), and its executive, which can be run again.
#[derive(Drop)]
pub struct RunFault<M: Atomic> {
    /// What was wanting.
    pub why: SweepRefused,
    /// The executive, with all that was committed.
    pub executive: Executive<M>,
}
