//! Why a step is not made.

ghost use Rattle.std.specs.Prelude.{◌≡◌};
ghost use Rattle.tw_process.specs.Refusals.{of_pool, of_turn, out_of_memory, step_refusal};

use std::alloc::AllocError;
use thiserror::Error;
use tw_pool::PoolRefused;
use tw_step::TurnRefused;
use tw_vtime::{Limit, Refusal};

/// Why a step is not made. The process is as it was.
#[derive(Clone, Copy, Debug, PartialEq, Eq, Error)]
pub enum StepRefused {
    /// A growth of memory was refused: refusal 4.
    #[error("out of memory")]
    OutOfMemory,
    /// The lists of the process would have more than 1,048,576 nodes: refusal 12.
    #[error("the pool is full")]
    Full,
    /// No step is due, now or later: refusal 16.
    #[error("no step is due")]
    NothingDue,
    /// The next own step after it would pass this limit: refusal 2 or 3.
    #[error("over the {0} limit")]
    OverLimit(Limit),
}

impl From<AllocError> for StepRefused {
    ghost from_gives = { λ _ refused. refused ≡ out_of_memory };

    fn from(_error: AllocError) -> StepRefused {
        StepRefused::OutOfMemory
    }
}

impl From<PoolRefused> for StepRefused {
    ghost from_gives = { λ pool refused. refused ≡ of_pool pool };

    fn from(refused: PoolRefused) -> StepRefused {
        match refused {
            PoolRefused::OutOfMemory => StepRefused::OutOfMemory,
            PoolRefused::Full => StepRefused::Full,
        }
    }
}

impl From<TurnRefused> for StepRefused {
    ghost from_gives = { λ turn refused. refused ≡ of_turn turn };

    fn from(refused: TurnRefused) -> StepRefused {
        match refused {
            TurnRefused::OutOfMemory => StepRefused::OutOfMemory,
            TurnRefused::OverLimit(limit) => StepRefused::OverLimit(limit),
        }
    }
}

impl From<StepRefused> for Refusal {
    ghost from_gives = { λ refused refusal. refusal ≡ step_refusal refused };

    fn from(refused: StepRefused) -> Refusal {
        match refused {
            StepRefused::OutOfMemory => Refusal::OutOfMemory,
            StepRefused::Full => Refusal::Full,
            StepRefused::NothingDue => Refusal::NothingDue,
            StepRefused::OverLimit(limit) => limit.into(),
        }
    }
}
