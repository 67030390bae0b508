//! The words behind the line of a refusal: what is wrong, and where.

use crate::script_of;
use crate::source::Source;
use std::alloc::AllocError;
use std::env;
use std::fs::File;
use std::io::Read;
use tw_cli::{Job, Picture, Task};
use tw_engine::{Exit, read_all};
use tw_explain::{file_words, name_words, script_words};
use tw_vtime::Refusal;

/// Whether words stand there: not for `seq`, `run`, `play` and `demo`, but where the environment has a variable `TWARP_EXPLAIN`.
pub(crate) fn is_explained(rt: &HostRuntime, words: &[String]) -> bool {
    let subcommand = match words.get(1) {
        Some(word) => word.as_str(),
        None => "",
    };
    match subcommand {
        "seq" | "run" | "play" | "demo" => env::var(rt, "TWARP_EXPLAIN").is_ok(),
        _ => true,
    }
}

/// The words for a file that cannot be read: its path, and why. None where it can be read.
pub(crate) fn unread_words(rt: &HostRuntime, path: &str) -> Option<String> {
    let mut file = match File::open(rt, path) {
        Ok(file) => file,
        Err(error) => return format!(in rt.alloc(); "{path:?}: {error}").ok(),
    };
    let mut byte = [0u8; 1];
    match file.read(&mut byte) {
        Ok(_) => None,
        Err(error) => format!(in rt.alloc(); "{path:?}: {error}").ok(),
    }
}

/// The words for a job that is refused on the bytes of its network's file. None where the number says all, where memory is wanting, and
/// of `check`, which has said on standard output what is wrong with a file.
pub(crate) fn job_words(
    rt: &HostRuntime,
    job: &Job<'_>,
    bytes: &[u8],
    exit: &Exit,
) -> Option<String> {
    let Exit::Bad { refusal, line } = exit else {
        return None;
    };
    let task = match job {
        Job::Demo | Job::Check { .. } => return None,
        Job::Dot { .. } => return file_words(rt.alloc(), bytes).ok()?,
        Job::Simulate { task, .. } => task,
    };
    if let Some(words) = file_words(rt.alloc(), bytes).ok()? {
        return Some(words);
    }
    match refusal {
        Refusal::NoSuch => unknown_words(rt, task, bytes),
        _ => refused_script(rt, job, *refusal, *line),
    }
}

/// The words for names that nothing has, of what is to be shown.
fn unknown_words(rt: &HostRuntime, task: &Task<'_>, bytes: &[u8]) -> Option<String> {
    match task {
        Task::Draw {
            picture: Picture::Run(view),
        } => name_words(rt.alloc(), bytes, view.only, view.figures.as_slice()).ok(),
        Task::Stats { only, .. } | Task::Table { only, .. } => {
            name_words(rt.alloc(), bytes, *only, &[]).ok()
        }
        _ => None,
    }
}

/// The words for a script that is refused.
fn refused_script(
    rt: &HostRuntime,
    job: &Job<'_>,
    refusal: Refusal,
    line: Option<u64>,
) -> Option<String> {
    let path = script_of(job)?;
    match refusal {
        Refusal::Unreadable => unread_words(rt, path),
        Refusal::TooMany => format!(in rt.alloc(); "{path:?}: more than 100000 lines").ok(),
        Refusal::BadScript => line_of_script(rt, path, line?).ok()?,
        _ => None,
    }
}

/// The words for the line of a script.
fn line_of_script(rt: &HostRuntime, path: &str, line: u64) -> Result<Option<String>, AllocError> {
    let mut file = Source::from(File::open(rt, path));
    match read_all(rt.alloc(), &mut file) {
        Ok(script) => script_words(rt.alloc(), script.as_slice(), line),
        Err(_) => Ok(None),
    }
}
