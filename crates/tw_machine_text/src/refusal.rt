//! Why a text is not read.
ghost use Rattle.std.specs.Prelude.{◌≡◌};
ghost use Rattle.tw_machine_text.specs.declared.refusal.TextRefused.TheVariants.{OutOfMemory};

use crate::place::Place;
use std::alloc::AllocError;
use thiserror::Error;

/// A text is no program, or there was no memory to read it.
#[derive(Clone, Copy, Debug, Error, PartialEq, Eq)]
pub enum TextRefused {
    /// A growth of memory was refused: refusal 4.
    #[error("out of memory")]
    OutOfMemory,
    /// The text is no program of this machine: refusal 21. The place is meant to be that of the first word that cannot
    /// stand there, or behind the last word where the text ends too early; that it is this one is not proved.
    #[error("no program")]
    Wrong(Place),
}

impl From<AllocError> for TextRefused {
    ghost from_gives = { λ _ refused. refused ≡ OutOfMemory };

    fn from(_error: AllocError) -> TextRefused {
        TextRefused::OutOfMemory
    }
}
