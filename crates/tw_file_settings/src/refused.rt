//! Why settings cannot be put into a file.

ghost use Rattle.std.specs.Prelude.{◌≡◌};
ghost use Rattle.tw_file_settings.specs.Refused.{setting_refusal};
ghost use Rattle.tw_file_settings.specs.declared.refused.SettingRefused.TheVariants.{OutOfMemory};

use std::alloc::AllocError;
use thiserror::Error;
use tw_vtime::Refusal;

/// A parameter cannot be set, or there was no memory.
#[derive(Clone, Copy, Debug, Error, PartialEq, Eq)]
pub enum SettingRefused {
    /// A growth of memory was refused: refusal 4.
    #[error("out of memory")]
    OutOfMemory,
    /// No component has such a parameter that may be a number: refusal 23.
    #[error("no component has such a parameter")]
    NoParameter,
}

impl From<AllocError> for SettingRefused {
    ghost from_gives = { λ _ refused. refused ≡ OutOfMemory };

    fn from(_error: AllocError) -> SettingRefused {
        SettingRefused::OutOfMemory
    }
}

impl From<SettingRefused> for Refusal {
    ghost from_gives = { λ refused refusal. refusal ≡ setting_refusal refused };

    fn from(refused: SettingRefused) -> Refusal {
        match refused {
            SettingRefused::OutOfMemory => Refusal::OutOfMemory,
            SettingRefused::NoParameter => Refusal::BadLine,
        }
    }
}
