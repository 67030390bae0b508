//! Why a program is not read.
ghost use Rattle.std.specs.Prelude.{◌≡◌};
ghost use Rattle.tw_machine_text.specs.declared.refused.Refused.TheVariants.{OutOfMemory};

use std::alloc::{AllocError, AllocFailed};

/// Why a program is not read.
#[derive(Clone, Copy, Debug, PartialEq, Eq)]
pub(crate) enum Refused {
    OutOfMemory,
    /// It is no program: the first word that none continues with has this number, or there are so many words and more
    /// are wanted.
    Wrong(usize),
}

impl From<AllocError> for Refused {
    ghost from_gives = { λ _ refused. refused ≡ OutOfMemory };

    fn from(_error: AllocError) -> Refused {
        Refused::OutOfMemory
    }
}

impl<T: Drop> From<AllocFailed<T>> for Refused {
    ghost from_gives = { λ _ refused. refused ≡ OutOfMemory };

    fn from(_failed: AllocFailed<T>) -> Refused {
        Refused::OutOfMemory
    }
}
