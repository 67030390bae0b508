//! Why a pool takes no more items.

ghost use Rattle.std.specs.Prelude.{◌≡◌};
ghost use Rattle.tw_pool.specs.Refused.{pool_refusal};

use thiserror::Error;
use tw_vtime::Refusal;

/// Why a pool took no more items. Its lists are as they were.
#[derive(Clone, Copy, Debug, PartialEq, Eq, Error)]
pub enum PoolRefused {
    /// A growth was refused: refusal 4.
    #[error("out of memory")]
    OutOfMemory,
    /// The pool would have more than 1,048,576 items: refusal 12.
    #[error("the pool is full")]
    Full,
}

impl From<PoolRefused> for Refusal {
    ghost from_gives = { λ refused refusal. refusal ≡ pool_refusal refused };

    fn from(refused: PoolRefused) -> Refusal {
        match refused {
            PoolRefused::OutOfMemory => Refusal::OutOfMemory,
            PoolRefused::Full => Refusal::Full,
        }
    }
}
