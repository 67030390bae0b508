//! Why a network is not simulated.

ghost use Rattle.tw_rounds.specs.Refusals.{seq_refusal, out_of_memory};
ghost use Rattle.std.specs.Prelude.{◌≡◌};

use std::alloc::{AllocError, AllocFailed};
use thiserror::Error;
use tw_vtime::Refusal;

/// Why a network is not simulated.
#[derive(Clone, Copy, Debug, PartialEq, Eq, Error)]
pub enum SeqRefused {
    /// A growth of memory was refused: refusal 4.
    #[error("out of memory")]
    OutOfMemory,
    /// The end tick is above the greatest tick of a stamp: refusal 10.
    #[error("no stamp has the end tick")]
    BadTick,
}

impl From<AllocError> for SeqRefused {
    ghost from_gives = { λ _ refused. refused ≡ out_of_memory };

    fn from(_error: AllocError) -> SeqRefused {
        Self::OutOfMemory
    }
}

impl From<SeqRefused> for Refusal {
    ghost from_gives = { λ refused refusal. refusal ≡ seq_refusal refused };

    fn from(refused: SeqRefused) -> Refusal {
        match refused {
            SeqRefused::OutOfMemory => Refusal::OutOfMemory,
            SeqRefused::BadTick => Refusal::BadTick,
        }
    }
}
