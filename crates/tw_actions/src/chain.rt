//! Why a chain has no more steps, and what becomes of it.

/// Why a chain has no more steps.
#[derive(Clone, Copy, Debug, PartialEq, Eq)]
pub enum Cause {
    /// The burst is reached, or the next step is not before the bound.
    All,
    /// The next step would pass the network's greatest microstep, or the greatest tick.
    Limit,
    /// A growth of memory was refused.
    OutOfMemory,
}

/// Why no more steps of a chain were made by its process.
#[derive(Clone, Copy, Debug, PartialEq, Eq)]
pub enum Stop {
    /// All were made, and this is the chain's own cause.
    Ended(Cause),
    /// The next step of the chain is not the process's own.
    Stale,
    /// A growth of memory was refused: refusal 4.
    OutOfMemory,
    /// The lists of the process would have more than 1,048,576 nodes: refusal 12.
    Full,
}

/// How many steps of a chain its process made, and why no more.
#[derive(Clone, Copy, Debug, PartialEq, Eq)]
pub struct Finished {
    /// How many steps were made.
    pub installed: usize,
    /// Why no more.
    pub stop: Stop,
}
