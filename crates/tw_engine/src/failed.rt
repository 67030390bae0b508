//! Why a job came to no end.

ghost use Rattle.std.specs.Prelude.{◌≡◌};
ghost use Rattle.tw_engine.specs.Ends.{failed_of, out_of_memory};
ghost use Rattle.tw_texts.specs.Refusals.{not_written_refusal};

use std::alloc::AllocError;
use tw_texts::NotWritten;
use tw_vtime::Refusal;

/// Why a job came to no end: it is refused, or could not go on.
#[derive(Debug, PartialEq, Eq, Drop)]
pub enum Failed {
    /// The command line or a file is refused. Nothing was written, of `check` a line of words.
    Bad {
        /// For this.
        refusal: Refusal,
        /// The line of the script that says nothing, from 1, where that is why (22).
        line: Option<u64>,
    },
    /// A growth was refused: 4, or 12. A beginning of the text may be written.
    Want(Refusal),
    /// The writer failed. A beginning of the text may be written.
    NoWrite,
}

/// A job that is refused: for want of memory (4) or nodes (12), for a failed writer (24), or for a bad line or file.
impl From<Refusal> for Failed {
    ghost from_gives = { λ refusal failed. failed ≡ failed_of refusal };

    fn from(refusal: Refusal) -> Failed {
        match refusal {
            Refusal::OutOfMemory | Refusal::Full => Failed::Want(refusal),
            Refusal::WriteFailed => Failed::NoWrite,
            _ => Failed::Bad {
                refusal,
                line: None,
            },
        }
    }
}

impl From<AllocError> for Failed {
    ghost from_gives = { λ _ failed. failed ≡ out_of_memory };

    fn from(_error: AllocError) -> Failed {
        Failed::Want(Refusal::OutOfMemory)
    }
}

impl From<NotWritten> for Failed {
    ghost from_gives = { λ why failed. failed ≡ failed_of (not_written_refusal why) };

    fn from(why: NotWritten) -> Failed {
        Failed::from(Refusal::from(why))
    }
}
