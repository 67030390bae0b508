//! What the reader of a network file refuses.

ghost use Rattle.std.specs.Prelude.{◌≡◌};
ghost use Rattle.tw_file_network.specs.Refused.{file_refusal, network_fault};
ghost use Rattle.tw_file_network.specs.declared.refused.FileRefused.TheVariants.{
  OutOfMemory,
  Parameter,
};

use std::alloc::{AllocError, AllocFailed};
use thiserror::Error;
use tw_models::BadModel;
use tw_network::NetworkRefused;
use tw_vtime::Refusal;

/// A file gives no network, or there was no memory to read it.
#[derive(Clone, Copy, Debug, Error, PartialEq, Eq)]
pub enum FileRefused {
    /// A growth of memory was refused: refusal 4.
    #[error("out of memory")]
    OutOfMemory,
    /// The bytes are not UTF-8, not JSON, or nested deeper than 127 levels: refusal 20.
    #[error("the file is not JSON")]
    NotJson,
    /// A member is missing, unknown or of another type, or `format` or `model` is another text: refusal 21.
    #[error("the file has not the shape of a network")]
    BadShape,
    /// A model's parameter is out of range: refusal 6 or 10.
    #[error("{0}")]
    Parameter(BadModel),
    /// The models, couplings and inputs are no network: refusal 5 to 11, 17 or 18.
    #[error("{0}")]
    Network(NetworkRefused),
}

impl From<AllocError> for FileRefused {
    ghost from_gives = { λ _ refused. refused ≡ OutOfMemory };

    fn from(_error: AllocError) -> FileRefused {
        FileRefused::OutOfMemory
    }
}

impl<T: Drop> From<AllocFailed<T>> for FileRefused {
    ghost from_gives = { λ _ refused. refused ≡ OutOfMemory };

    fn from(_failed: AllocFailed<T>) -> FileRefused {
        FileRefused::OutOfMemory
    }
}

impl From<BadModel> for FileRefused {
    ghost from_gives = { λ bad refused. refused ≡ Parameter bad };

    fn from(bad: BadModel) -> FileRefused {
        FileRefused::Parameter(bad)
    }
}

impl From<NetworkRefused> for FileRefused {
    ghost from_gives = { λ fault refused. refused ≡ network_fault fault };

    fn from(fault: NetworkRefused) -> FileRefused {
        match fault {
            NetworkRefused::OutOfMemory => FileRefused::OutOfMemory,
            fault => FileRefused::Network(fault),
        }
    }
}

impl From<FileRefused> for Refusal {
    ghost from_gives = { λ refused refusal. refusal ≡ file_refusal refused };

    fn from(refused: FileRefused) -> Refusal {
        match refused {
            FileRefused::OutOfMemory => Refusal::OutOfMemory,
            FileRefused::NotJson => Refusal::NotJson,
            FileRefused::BadShape => Refusal::BadShape,
            FileRefused::Parameter(bad) => Refusal::from(bad),
            FileRefused::Network(fault) => Refusal::from(fault),
        }
    }
}
