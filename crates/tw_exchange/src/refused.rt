//! What an exchange refuses.

ghost use Rattle.std.specs.Prelude.{◌≡◌};
ghost use Rattle.tw_exchange.specs.Refusals.{no_such, sweep_refusal_of};

use thiserror::Error;
use tw_vtime::Refusal;

/// There is no such component: refusal 15.
#[derive(Clone, Copy, Debug, PartialEq, Eq, Error)]
#[error("no such component")]
pub struct NoSuch;

impl From<NoSuch> for Refusal {
    ghost from_gives = { λ _ refusal. refusal ≡ no_such };

    fn from(_refused: NoSuch) -> Refusal {
        Refusal::NoSuch
    }
}

/// Why a sweep went no further. What was done of it stays.
#[derive(Clone, Copy, Debug, PartialEq, Eq, Error)]
pub enum SweepRefused {
    /// A growth of memory was refused: refusal 4.
    #[error("out of memory")]
    OutOfMemory,
    /// The lists of a process would have more than 1,048,576 nodes: refusal 12.
    #[error("the pool is full")]
    Full,
}

impl From<SweepRefused> for Refusal {
    ghost from_gives = { λ refused refusal. refusal ≡ sweep_refusal_of refused };

    fn from(refused: SweepRefused) -> Refusal {
        match refused {
            SweepRefused::OutOfMemory => Refusal::OutOfMemory,
            SweepRefused::Full => Refusal::Full,
        }
    }
}
