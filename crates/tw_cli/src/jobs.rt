//! What the program can be asked to do.

ghost use Rattle.std.specs.Prelude.{◌≡◌, option_map};
ghost use Rattle.tw_cli.specs.Lines.{net_of, refusal_of, refused_for_memory};

use crate::driving::Driver;
use crate::seeing::Picture;
use crate::setting::{ByWorkers, RunOptions};
use std::alloc::AllocError;
use thiserror::Error;
use tw_actions::Cancel;
use tw_figures::Tabled;
use tw_file_settings::Settings;
use tw_vtime::Refusal;

/// A network's file, and what the line changes in it.
#[derive(Debug, Drop)]
pub struct NetSource<'a> {
    /// The path of the file.
    pub path: &'a str,
    /// The numbers that parameters and seeds get in place of those of the file.
    pub settings: Settings<'a>,
}

/// What the program is asked to do.
#[derive(Debug, Drop)]
pub enum Job<'a> {
    /// Show a run of a built-in network.
    Demo,
    /// Read a network file and say what it has and what of it is likely to be a mistake, or its first fault, where it stands and why;
    /// simulate nothing.
    Check {
        /// The network file.
        net: NetSource<'a>,
        /// Whether what is likely to be a mistake is a fault.
        strict: bool,
    },
    /// Read a network file and write the network as Graphviz reads it; simulate nothing.
    Dot {
        /// The network file.
        net: NetSource<'a>,
    },
    /// Simulate a network.
    Simulate {
        /// The network file.
        net: NetSource<'a>,
        /// The end tick, 0 to 1,099,511,627,774: only steps before it are made.
        until: u64,
        /// How, and what is written of it.
        task: Task<'a>,
    },
}

/// How a network is simulated, and what is written of it.
#[derive(Debug, Drop)]
pub enum Task<'a> {
    /// By the sequential abstract simulator; write the trace.
    Seq {
        /// Whether a line on standard error tells once a second how far the run is.
        progress: bool,
    },
    /// In order or by workers; write counts and figures of the run.
    Stats {
        /// The tick from which on they are counted, 0 to 1,099,511,627,774; of the whole run where there is none.
        from: Option<u64>,
        /// The names of the components that are shown, parted by commas; all of them where there is none.
        only: Option<&'a str>,
        /// Whether they are written as a line of JSON, in place of tables.
        json: bool,
        /// Whether a line on standard error tells once a second how far the run is.
        progress: bool,
        /// How workers make the run; it is made in order where there is none.
        by: Option<ByWorkers>,
    },
    /// In order or by workers; write the records of the run, or how its figures changed, as comma-separated values.
    Table {
        /// The tick from which on it has these, 0 to 1,099,511,627,774; 0 where none was asked for.
        from: u64,
        /// The names of the components that are shown, parted by commas; all of them where there is none.
        only: Option<&'a str>,
        /// What it is of.
        of: Tabled,
        /// Whether a line on standard error tells once a second how far the run is.
        progress: bool,
        /// How workers make the run; it is made in order where there is none.
        by: Option<ByWorkers>,
    },
    /// Draw a picture of a run: of this one, or of one by Time Warp.
    Draw {
        /// Of what.
        picture: Picture<'a>,
    },
    /// By Time Warp, with workers in threads; write the trace.
    Run {
        /// How steps that are taken back are cancelled.
        cancel: Cancel,
        /// How many workers there are, how far they work ahead, and whether the run tells how far it is.
        setting: RunOptions,
    },
    /// By an executive that is driven by hand, action by action; write a reply to each, then the trace of what is committed.
    Play {
        /// How steps that are taken back are cancelled.
        cancel: Cancel,
        /// What drives it.
        driver: Driver<'a>,
    },
}

impl<'a> Job<'a> {
    /// The network file of a job; none of `demo`.
    pub fn net(&self) -> Option<&NetSource<'a>>
        ensures { option_map (λ net. net.now) result ≡ net_of self.now }
    {
        match self {
            Job::Demo => None,
            Job::Check { net, .. } | Job::Dot { net } | Job::Simulate { net, .. } => Some(net),
        }
    }
}

/// Why a command line gave no job.
#[derive(Debug, Drop, Error)]
pub enum NoJob {
    /// Help was asked for, and here is its text: print it, with status 0.
    #[error("{0}")]
    Help(clap::Error),
    /// The version was asked for, and here is its text: print it, with status 0.
    #[error("{0}")]
    Version(clap::Error),
    /// The line is none of the program's: 23.
    #[error("the command line is none of the program's")]
    BadLine,
    /// A growth of memory was refused: 4.
    #[error("a growth of memory was refused")]
    OutOfMemory,
}

impl From<AllocError> for NoJob {
    ghost from_gives = { λ _ no_job. no_job ≡ refused_for_memory };

    fn from(_error: AllocError) -> NoJob {
        Self::OutOfMemory
    }
}

impl NoJob {
    /// The refusal of the line: 23 or 4, and none where help or the version was asked for.
    pub fn refusal(&self) -> Option<Refusal>
        ensures { result ≡ refusal_of self.now }
    {
        match self {
            NoJob::Help(_) | NoJob::Version(_) => None,
            NoJob::BadLine => Some(Refusal::BadLine),
            NoJob::OutOfMemory => Some(Refusal::OutOfMemory),
        }
    }
}
