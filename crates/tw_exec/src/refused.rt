//! What an executive refuses.

ghost use Rattle.std.specs.Prelude.{◌≡◌};
ghost use Rattle.tw_exec.specs.Refusals.{of_pool, of_step, out_of_memory, refusal_of, start_out_of_memory, start_refusal_of};

use std::alloc::{AllocError, AllocFailed};
use thiserror::Error;
use tw_pool::PoolRefused;
use tw_process::StepRefused;
use tw_vtime::{Limit, Refusal};

/// Why an action was not taken. The executive is as it was.
#[derive(Clone, Copy, Debug, PartialEq, Eq, Error)]
pub enum Refused {
    /// A growth of memory was refused: refusal 4.
    #[error("out of memory")]
    OutOfMemory,
    /// The lists of the process would have more than 1,048,576 nodes: refusal 12.
    #[error("the pool is full")]
    Full,
    /// The component has no step before the end of the run: refusal 16.
    #[error("no step is due")]
    NothingDue,
    /// The next own step after it would pass this limit: refusal 2 or 3.
    #[error("over the {0} limit")]
    OverLimit(Limit),
    /// There is no such component, or no item at this place of its mailbox: refusal 15.
    #[error("no such component or item")]
    NoSuch,
    /// The stamp is before global virtual time: refusal 14.
    #[error("the stamp is before global virtual time")]
    BeforeGvt,
    /// A step since its mark is committed, or stands before global virtual time: refusal 13.
    #[error("a step since the mark is committed")]
    Committed,
}

impl From<AllocError> for Refused {
    ghost from_gives = { λ _ refused. refused ≡ out_of_memory };

    fn from(_error: AllocError) -> Refused {
        Refused::OutOfMemory
    }
}

impl From<PoolRefused> for Refused {
    ghost from_gives = { λ pool refused. refused ≡ of_pool pool };

    fn from(refused: PoolRefused) -> Refused {
        match refused {
            PoolRefused::OutOfMemory => Refused::OutOfMemory,
            PoolRefused::Full => Refused::Full,
        }
    }
}

impl From<StepRefused> for Refused {
    ghost from_gives = { λ step refused. refused ≡ of_step step };

    fn from(refused: StepRefused) -> Refused {
        match refused {
            StepRefused::OutOfMemory => Refused::OutOfMemory,
            StepRefused::Full => Refused::Full,
            StepRefused::NothingDue => Refused::NothingDue,
            StepRefused::OverLimit(limit) => Refused::OverLimit(limit),
        }
    }
}

impl From<Refused> for Refusal {
    ghost from_gives = { λ refused refusal. refusal ≡ refusal_of refused };

    fn from(refused: Refused) -> Refusal {
        match refused {
            Refused::OutOfMemory => Refusal::OutOfMemory,
            Refused::Full => Refusal::Full,
            Refused::NothingDue => Refusal::NothingDue,
            Refused::OverLimit(limit) => limit.into(),
            Refused::NoSuch => Refusal::NoSuch,
            Refused::BeforeGvt => Refusal::BeforeGvt,
            Refused::Committed => Refusal::Committed,
        }
    }
}

/// Why no executive was made. Nothing is left.
#[derive(Clone, Copy, Debug, PartialEq, Eq, Error)]
pub enum StartRefused {
    /// A growth of memory was refused: refusal 4.
    #[error("out of memory")]
    OutOfMemory,
    /// The end of the run is above the greatest tick: refusal 10.
    #[error("no stamp has the end tick")]
    BadTick,
}

impl From<AllocError> for StartRefused {
    ghost from_gives = { λ _ refused. refused ≡ start_out_of_memory };

    fn from(_error: AllocError) -> StartRefused {
        StartRefused::OutOfMemory
    }
}

impl<T: Drop> From<AllocFailed<T>> for StartRefused {
    ghost from_gives = { λ _ refused. refused ≡ start_out_of_memory };

    fn from(_failed: AllocFailed<T>) -> StartRefused {
        StartRefused::OutOfMemory
    }
}

impl From<StartRefused> for Refusal {
    ghost from_gives = { λ refused refusal. refusal ≡ start_refusal_of refused };

    fn from(refused: StartRefused) -> Refusal {
        match refused {
            StartRefused::OutOfMemory => Refusal::OutOfMemory,
            StartRefused::BadTick => Refusal::BadTick,
        }
    }
}
