//! Why a walk over a file ends before its end.

use std::alloc::{AllocError, AllocFailed};

/// A walk over a file has ended.
#[derive(Debug, Drop)]
pub enum Stop {
    /// Here is the fault, as a line of words.
    Fault(String),
    /// A growth of memory was refused.
    OutOfMemory,
}

impl From<AllocError> for Stop {
    fn from(_error: AllocError) -> Stop {
        Stop::OutOfMemory
    }
}

impl<T: Drop> From<AllocFailed<T>> for Stop {
    fn from(_failed: AllocFailed<T>) -> Stop {
        Stop::OutOfMemory
    }
}
