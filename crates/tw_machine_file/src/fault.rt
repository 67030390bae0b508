//! What is wrong with a machine.
ghost use Rattle.std.specs.Prelude.{◌≡◌};
ghost use Rattle.tw_machine_file.specs.Limited.{limited};
ghost use Rattle.tw_machine_file.specs.declared.fault.MachineFault.TheVariants.{OutOfMemory};

use std::alloc::{AllocError, AllocFailed};
use thiserror::Error;
use tw_machine_compiler::BadMachine;
use tw_machine_text::Place;

/// What an output stands with.
#[derive(Clone, Copy, Debug, PartialEq, Eq)]
pub enum Sender {
    /// The machine.
    Machine,
    /// The timer at this place.
    Timer(usize),
}

/// A part of what a file says once, of a machine, or of a component of one. Entries are numbered from 0.
#[derive(Clone, Copy, Debug, PartialEq, Eq)]
pub enum Part {
    /// The member `fields` of the file.
    Fields,
    /// The member `constants` of the file.
    Constants,
    /// The machine itself, or a member that no machine has.
    Whole,
    Name,
    Parameters,
    Registers,
    Queues,
    Tables,
    Observations,
    Random,
    /// The whole of `procedures`, or a name in it.
    Procedures,
    /// The program of the procedure at this place.
    Procedure(usize),
    First,
    Longest,
    /// The whole of `timers`.
    Timers,
    /// The timer at this place.
    Timer(usize),
    /// The name of a timer.
    TimerName(usize),
    /// The member `count` of a timer.
    TimerCount(usize),
    /// The member `first` of a timer.
    TimerFirst(usize),
    /// The member `do` of a timer.
    TimerProgram(usize),
    Least,
    Internal,
    External,
    /// The whole of `output`, of the machine or of a timer.
    Output(Sender),
    /// An entry of `output`.
    Entry(Sender, usize),
    /// The member `port` of an entry of `output`.
    Port(Sender, usize),
    /// The member `value` of an entry of `output`.
    Value(Sender, usize),
    /// The member `when` of an entry of `output`.
    When(Sender, usize),
    /// The member `each` of an entry of `output`.
    Each(Sender, usize),
    /// The whole of `words`.
    Words,
    /// An entry of `words`.
    Word(usize),
    /// A component: it has a member that is none of its name, its model and its machine's parameters, or not these.
    Component,
    /// What a component gives for the parameter at this place among those that are numbers.
    Number(usize),
    /// What it gives for the one at this place among those that are lists.
    List(usize),
}

/// How a part is wrong.
#[derive(Clone, Copy, Debug, PartialEq, Eq)]
pub enum Why {
    /// It has to be there.
    Missing,
    /// It has a member that it may not have, or is one.
    Unknown,
    /// It is of another type.
    Shape,
    /// A name that may not be one.
    Name,
    /// A name, a queue, an array register or an observation that has come before.
    Twice,
    /// Neither a whole number of 64 bits with a sign nor the name of a parameter that is a number or of a constant; of a
    /// table, the name of no parameter.
    Constant,
    /// A number out of its range, or too few or too many entries.
    Count,
}

/// Why a value declares no machine: the first fault in the order of its members, or want of memory. Each but that is
/// refusal 21 (BadShape).
#[derive(Clone, Copy, Debug, Error, PartialEq, Eq)]
pub enum MachineFault {
    /// A growth of memory was refused: refusal 4.
    #[error("out of memory")]
    OutOfMemory,
    /// A part has not the form that it must have.
    #[error("a part of a machine has not its form")]
    Wrong(Part, Why),
    /// The text of a part says nothing in the machine's language. The place is in this text; the lines of an array are
    /// joined.
    #[error("a text of a machine says nothing")]
    Text(Part, Place),
    /// It passes this limit, with what is given for its parameters.
    #[error("{0}")]
    Limit(BadMachine),
}

impl From<AllocError> for MachineFault {
    ghost from_gives = { λ _ fault. fault ≡ OutOfMemory };

    fn from(_error: AllocError) -> MachineFault {
        MachineFault::OutOfMemory
    }
}

impl<T: Drop> From<AllocFailed<T>> for MachineFault {
    ghost from_gives = { λ _ fault. fault ≡ OutOfMemory };

    fn from(_failed: AllocFailed<T>) -> MachineFault {
        MachineFault::OutOfMemory
    }
}

impl From<BadMachine> for MachineFault {
    ghost from_gives = { λ bad fault. fault ≡ limited bad };

    fn from(bad: BadMachine) -> MachineFault {
        match bad {
            BadMachine::OutOfMemory => MachineFault::OutOfMemory,
            bad => MachineFault::Limit(bad),
        }
    }
}
