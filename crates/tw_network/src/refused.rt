//! What the maker of a network refuses.

ghost use Rattle.std.specs.Prelude.{◌≡◌};
ghost use Rattle.tw_network.specs.Refused.{flat_fault, network_refusal};
ghost use Rattle.tw_network.specs.declared.refused.NetworkRefused.TheVariants.{OutOfMemory};

use std::alloc::{AllocError, AllocFailed};
use thiserror::Error;
use tw_nested::FlatRefused;
use tw_vtime::Refusal;

/// What was handed in is no network, or there was no memory for one.
#[derive(Clone, Copy, Debug, Error, PartialEq, Eq)]
pub enum NetworkRefused {
    /// A growth of memory was refused: refusal 4.
    #[error("out of memory")]
    OutOfMemory,
    /// A coupling or an input names a component, a part or an end that is not there: refusal 5.
    #[error("no such component")]
    UnknownComponent,
    /// A port of a coupling or an input is above 15: refusal 6.
    #[error("a port is above 15")]
    BadPort,
    /// A coupling leads from a component to itself: refusal 7.
    #[error("a component is coupled to itself")]
    SelfCoupling,
    /// A coupling stood before: refusal 8.
    #[error("a coupling stands twice")]
    DuplicateRoute,
    /// There are more than 1,024 components, 8,192 couplings or 65,536 inputs, or a tree has more than 16
    /// levels, 1,024 coupled parts or 8,192 couplings, over all its models or flat: refusal 9.
    #[error("too many components, couplings or inputs")]
    TooMany,
    /// An input's tick, or a start state's time advance, is above the last tick: refusal 10.
    #[error("a tick or a time advance is too late")]
    BadTick,
    /// The greatest microstep is not 1 to 8,388,607: refusal 11.
    #[error("the greatest microstep is out of range")]
    BadLimit,
    /// A name is not 1 to 32 of ASCII letters, digits, `_` and `-`: refusal 17.
    #[error("a name is not 1 to 32 letters, digits, `_` or `-`")]
    BadName,
    /// A name stood before: refusal 18.
    #[error("a name stands twice")]
    DuplicateName,
}

impl From<AllocError> for NetworkRefused {
    ghost from_gives = { λ _ refused. refused ≡ OutOfMemory };

    fn from(_error: AllocError) -> NetworkRefused {
        NetworkRefused::OutOfMemory
    }
}

impl<T: Drop> From<AllocFailed<T>> for NetworkRefused {
    ghost from_gives = { λ _ refused. refused ≡ OutOfMemory };

    fn from(_failed: AllocFailed<T>) -> NetworkRefused {
        NetworkRefused::OutOfMemory
    }
}

impl From<FlatRefused> for NetworkRefused {
    ghost from_gives = { λ refused fault. fault ≡ flat_fault refused };

    fn from(refused: FlatRefused) -> NetworkRefused {
        match refused {
            FlatRefused::OutOfMemory => NetworkRefused::OutOfMemory,
            FlatRefused::TooMany => NetworkRefused::TooMany,
        }
    }
}

impl From<NetworkRefused> for Refusal {
    ghost from_gives = { λ refused refusal. refusal ≡ network_refusal refused };

    fn from(refused: NetworkRefused) -> Refusal {
        match refused {
            NetworkRefused::OutOfMemory => Refusal::OutOfMemory,
            NetworkRefused::UnknownComponent => Refusal::UnknownComponent,
            NetworkRefused::BadPort => Refusal::BadPort,
            NetworkRefused::SelfCoupling => Refusal::SelfCoupling,
            NetworkRefused::DuplicateRoute => Refusal::DuplicateRoute,
            NetworkRefused::TooMany => Refusal::TooMany,
            NetworkRefused::BadTick => Refusal::BadTick,
            NetworkRefused::BadLimit => Refusal::BadLimit,
            NetworkRefused::BadName => Refusal::BadName,
            NetworkRefused::DuplicateName => Refusal::DuplicateName,
        }
    }
}
