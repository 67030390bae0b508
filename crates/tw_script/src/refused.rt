//! Why a script says nothing.

ghost use Rattle.std.specs.Prelude.{◌≡◌};
ghost use Rattle.tw_script.specs.Refusals.{out_of_memory, refusal_of};

use std::alloc::{AllocError, AllocFailed};
use thiserror::Error;
use tw_vtime::Refusal;

/// A script could not be read.
#[derive(Clone, Copy, Debug, Error, PartialEq, Eq)]
pub enum ScriptRefused {
    /// A growth of memory was refused: refusal 4.
    #[error("out of memory")]
    OutOfMemory,
    /// It has more than 100,000 lines: refusal 9.
    #[error("more than 100000 lines")]
    TooMany,
    /// The line of this number, from 1, is not UTF-8, has none of the forms of a line or names no component: refusal 22.
    #[error("line {0} says nothing")]
    BadLine(u64),
}

impl From<AllocError> for ScriptRefused {
    ghost from_gives = { λ _ refused. refused ≡ out_of_memory };

    fn from(_error: AllocError) -> ScriptRefused {
        ScriptRefused::OutOfMemory
    }
}

impl<T: Drop> From<AllocFailed<T>> for ScriptRefused {
    ghost from_gives = { λ _ refused. refused ≡ out_of_memory };

    fn from(_failed: AllocFailed<T>) -> ScriptRefused {
        ScriptRefused::OutOfMemory
    }
}

impl From<ScriptRefused> for Refusal {
    ghost from_gives = { λ refused refusal. refusal ≡ refusal_of refused };

    fn from(refused: ScriptRefused) -> Refusal {
        match refused {
            ScriptRefused::OutOfMemory => Refusal::OutOfMemory,
            ScriptRefused::TooMany => Refusal::TooMany,
            ScriptRefused::BadLine(_) => Refusal::BadScript,
        }
    }
}
