//! How a run of the program ends.

ghost use Rattle.std.specs.Prelude.{◌≡◌, OnOk};
ghost use Rattle.std.specs.Io.KnownBytes.{Appends};
ghost use Rattle.tw_engine.specs.Ends.{failed_of};
ghost use Rattle.tw_engine.specs.Exits.{exit_of, exit_of_rest, exit_of_run, exit_of_view, line_of, status_of};

use crate::failed::Failed;
use std::io;
use std::io::Write;
use tw_actions::Fault;
use tw_vtime::Refusal;

/// How a run ended.
#[derive(Debug, PartialEq, Eq, Drop)]
pub enum Exit {
    /// All was written, and no limit was met.
    Done,
    /// The command line or a file is refused. Nothing was written, of `check` a line of words.
    Bad {
        /// For this.
        refusal: Refusal,
        /// The line of the script that says nothing, from 1, where that is why (22).
        line: Option<u64>,
    },
    /// A component met a limit: the trace before it was written, and then the line of the fault.
    Fault,
    /// A component met a limit: what is told of the run before it was written. This is the line of the fault, for standard error.
    Limited(String),
    /// A growth was refused: 4, or 12. A beginning of the text may be written.
    Want(Refusal),
    /// The writer failed. A beginning of the text may be written.
    NoWrite,
}

/// The exit of a job that came to no end.
impl From<Failed> for Exit {
    ghost from_gives = { λ failed exit. exit ≡ exit_of failed };

    fn from(failed: Failed) -> Exit {
        match failed {
            Failed::Bad { refusal, line } => Exit::Bad { refusal, line },
            Failed::Want(refusal) => Exit::Want(refusal),
            Failed::NoWrite => Exit::NoWrite,
        }
    }
}

/// The exit of a job that is refused: for want of memory (4) or nodes (12), for a failed writer (24), or for a bad line or file.
impl From<Refusal> for Exit {
    ghost from_gives = { λ refusal exit. exit ≡ exit_of (failed_of refusal) };

    fn from(refusal: Refusal) -> Exit {
        Exit::from(Failed::from(refusal))
    }
}

impl Exit {
    /// The exit of a job that writes the text of a run, with its fault.
    pub(crate) fn of_run(ended: Result<Option<Fault>, Failed>) -> Exit
        ensures { result ≡ exit_of_run ended }
    {
        match ended {
            Ok(None) => Exit::Done,
            Ok(Some(_)) => Exit::Fault,
            Err(failed) => Exit::from(failed),
        }
    }

    /// The exit of a job that tells of a run, whose fault has a line of its own.
    pub(crate) fn of_view(ended: Result<Option<String>, Failed>) -> Exit
        ensures { result ≡ exit_of_view ended }
    {
        match ended {
            Ok(None) => Exit::Done,
            Ok(Some(line)) => Exit::Limited(line),
            Err(failed) => Exit::from(failed),
        }
    }

    /// The exit of any other job.
    pub(crate) fn of_rest(ended: Result<(), Failed>) -> Exit
        ensures { result ≡ exit_of_rest ended }
    {
        match ended {
            Ok(()) => Exit::Done,
            Err(failed) => Exit::from(failed),
        }
    }

    /// The status that the process ends with: 0, 2, 3, 3, 4 or 5 in the order above.
    pub fn status(&self) -> u8
        ensures { result ≡ status_of self.now }
    {
        match self {
            Exit::Done => 0,
            Exit::Bad { .. } => 2,
            Exit::Fault | Exit::Limited(_) => 3,
            Exit::Want(_) => 4,
            Exit::NoWrite => 5,
        }
    }

    /// Writes the line for standard error: `twarp: `, the number and the name of the refusal, and for a script
    /// the number of the line. After [`Exit::Done`] and [`Exit::Fault`] there is none, and after [`Exit::Limited`] it is that of the
    /// fault, as it stands at the end of a trace.
    ///
    /// Refused where the writer fails.
    pub fn write_line<W: Write>(&self, out: &mut W) -> io::Result<()>
        ensures { OnOk result
            (Appends (W.contents out.old) (W.contents out.new) (line_of self.now)) }
    {
        match self {
            Exit::Done | Exit::Fault => Ok(()),
            Exit::Limited(line) => out.write_all(line.as_bytes()),
            Exit::Bad {
                refusal,
                line: Some(line),
            } => writeln!(out, "twarp: {refusal} line {line}"),
            Exit::Bad {
                refusal,
                line: None,
            }
            | Exit::Want(refusal) => writeln!(out, "twarp: {refusal}"),
            Exit::NoWrite => {
                let refusal = Refusal::WriteFailed;
                writeln!(out, "twarp: {refusal}")
            }
        }
    }
}
