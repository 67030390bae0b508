//! Why no picture is drawn.

ghost use Rattle.std.specs.Prelude.{◌≡◌};
ghost use Rattle.tw_run_picture.specs.Refusals.{draw_refusal, out_of_memory};

use std::alloc::AllocError;
use thiserror::Error;
use tw_vtime::Refusal;

/// Why no picture is drawn.
#[derive(Clone, Copy, Debug, PartialEq, Eq, Error)]
pub enum DrawRefused {
    /// A growth of memory was refused: refusal 4.
    #[error("out of memory")]
    OutOfMemory,
    /// The end tick is above the greatest tick of a stamp: refusal 10.
    #[error("no stamp has the end tick")]
    BadTick,
    /// No component has a name that is to be shown, or no component that is shown has the figure: refusal 15.
    #[error("no component has the name, or no component that is shown has the figure")]
    NoSuch,
    /// The writer failed: refusal 24.
    #[error("the writer failed")]
    WriteFailed,
}

impl From<AllocError> for DrawRefused {
    ghost from_gives = { λ _ refused. refused ≡ out_of_memory };

    fn from(_error: AllocError) -> DrawRefused {
        DrawRefused::OutOfMemory
    }
}

impl From<DrawRefused> for Refusal {
    ghost from_gives = { λ refused refusal. refusal ≡ draw_refusal refused };

    fn from(refused: DrawRefused) -> Refusal {
        match refused {
            DrawRefused::OutOfMemory => Refusal::OutOfMemory,
            DrawRefused::BadTick => Refusal::BadTick,
            DrawRefused::NoSuch => Refusal::NoSuch,
            DrawRefused::WriteFailed => Refusal::WriteFailed,
        }
    }
}
