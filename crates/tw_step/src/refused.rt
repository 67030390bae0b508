//! Why a turn is not made.

ghost use Rattle.std.specs.Prelude.{◌≡◌};
ghost use Rattle.tw_step.specs.Refusals.{out_of_memory, over_limit};

use std::alloc::{AllocError, AllocFailed};
use thiserror::Error;
use tw_vtime::Limit;

/// Why a turn is not made.
#[derive(Clone, Copy, Debug, PartialEq, Eq, Error)]
pub enum TurnRefused {
    /// A growth of memory was refused: refusal 4.
    #[error("out of memory")]
    OutOfMemory,
    /// The next own step after it would pass a limit: refusal 2 or 3.
    #[error("over the {0} limit")]
    OverLimit(Limit),
}

impl From<AllocError> for TurnRefused {
    ghost from_gives = { λ _ refused. refused ≡ out_of_memory };

    fn from(_error: AllocError) -> TurnRefused {
        TurnRefused::OutOfMemory
    }
}

impl<T: Drop> From<AllocFailed<T>> for TurnRefused {
    ghost from_gives = { λ _ refused. refused ≡ out_of_memory };

    fn from(_failed: AllocFailed<T>) -> TurnRefused {
        TurnRefused::OutOfMemory
    }
}

impl From<Limit> for TurnRefused {
    ghost from_gives = { λ limit refused. refused ≡ over_limit limit };

    fn from(limit: Limit) -> TurnRefused {
        TurnRefused::OverLimit(limit)
    }
}
