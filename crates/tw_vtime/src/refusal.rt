//! The refusals of the whole workspace, in one table.

ghost use Rattle.std.specs.Prelude.{◌≡◌, Some};
ghost use Rattle.tw_vtime.specs.Refusals.{refusal_number, refusal_name, refusal_text, no_memory};

use std::alloc::{AllocError, AllocFailed};
use std::fmt;

/// What a call, a file or a command line is refused for.
///
/// Each crate has a refusal type of its own, with the cases that its calls can answer; all of them turn
/// into this one by `From`. The number and the name are what the program prints.
#[derive(Clone, Copy, Debug, PartialEq, Eq)]
pub enum Refusal {
    /// No stamp has this number, or these parts.
    Range = 1,
    /// The next step would be past the network's greatest microstep.
    Microstep = 2,
    /// The next step would be past the greatest tick.
    Tick = 3,
    /// A growth of memory was refused.
    OutOfMemory = 4,
    /// A component that the network does not have.
    UnknownComponent = 5,
    /// A port above 15, or a number of ports out of range.
    BadPort = 6,
    /// A coupling of a component to itself.
    SelfCoupling = 7,
    /// A coupling that stood before.
    DuplicateRoute = 8,
    /// More components, couplings, inputs or lines than are taken.
    TooMany = 9,
    /// A tick, or a time that a model keeps, out of range.
    BadTick = 10,
    /// A greatest microstep out of range.
    BadLimit = 11,
    /// A pool would have more than 1,048,576 live nodes.
    Full = 12,
    /// A step before the present global virtual time would have to be taken back.
    Committed = 13,
    /// A stamp before the present global virtual time.
    BeforeGvt = 14,
    /// There is no such component, place or mark.
    NoSuch = 15,
    /// No step is due.
    NothingDue = 16,
    /// A name that is not one to 32 of ASCII letters, digits, `_` and `-`.
    BadName = 17,
    /// A name that stood before.
    DuplicateName = 18,
    /// A file that cannot be read.
    Unreadable = 19,
    /// A file that is not JSON.
    NotJson = 20,
    /// JSON that is no network file.
    BadShape = 21,
    /// A line of a script that is none of its forms.
    BadScript = 22,
    /// A command line that is none of the program's.
    BadLine = 23,
    /// Standard output failed.
    WriteFailed = 24,
}

impl Refusal {
    /// The number that the program prints, 1 to 24.
    pub fn number(self) -> u8
        ensures { result ≡ refusal_number self }
    {
        self as u8
    }

    /// The name that the program prints.
    pub fn name(self) -> &'static str
        ensures { result.now ≡ refusal_name self }
    {
        match self {
            Refusal::Range => "Range",
            Refusal::Microstep => "Microstep",
            Refusal::Tick => "Tick",
            Refusal::OutOfMemory => "OutOfMemory",
            Refusal::UnknownComponent => "UnknownComponent",
            Refusal::BadPort => "BadPort",
            Refusal::SelfCoupling => "SelfCoupling",
            Refusal::DuplicateRoute => "DuplicateRoute",
            Refusal::TooMany => "TooMany",
            Refusal::BadTick => "BadTick",
            Refusal::BadLimit => "BadLimit",
            Refusal::Full => "Full",
            Refusal::Committed => "Committed",
            Refusal::BeforeGvt => "BeforeGvt",
            Refusal::NoSuch => "NoSuch",
            Refusal::NothingDue => "NothingDue",
            Refusal::BadName => "BadName",
            Refusal::DuplicateName => "DuplicateName",
            Refusal::Unreadable => "Unreadable",
            Refusal::NotJson => "NotJson",
            Refusal::BadShape => "BadShape",
            Refusal::BadScript => "BadScript",
            Refusal::BadLine => "BadLine",
            Refusal::WriteFailed => "WriteFailed",
        }
    }
}

impl From<AllocError> for Refusal {
    ghost from_gives = { λ _ refusal. refusal ≡ no_memory };

    fn from(_error: AllocError) -> Refusal {
        Refusal::OutOfMemory
    }
}

/// What could not be stored is given up.
impl<T: Drop> From<AllocFailed<T>> for Refusal {
    ghost from_gives = { λ _ refusal. refusal ≡ no_memory };

    fn from(failed: AllocFailed<T>) -> Refusal {
        Refusal::from(AllocError::from(failed))
    }
}

/// The number and the name, as `10 BadTick`.
impl fmt::Display for Refusal {
    ghost output = { λ r. Some (refusal_text r) };

    fn fmt<W: fmt::Write>(&self, f: &mut fmt::Formatter<W>) -> fmt::Result {
        let number = self.number();
        let name = self.name();
        write!(f, "{number} {name}")
    }
}
