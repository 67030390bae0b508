//! The program: its words, its file and its standard streams.
//!
//! What it does is [`tw_cli::job`], [`tw_file_settings::file_with`], [`tw_engine::alone`] and [`tw_engine::engine`]; here they only get the
//! process's arguments, the bytes of the network's file, the script and the streams. `explaining` says in words what is wrong where a job is refused.
#![tactic(auto)]

mod explaining;
mod source;

use crate::explaining::{is_explained, job_words, unread_words};
use crate::source::Source;
use std::fs::File;
use std::io::{ErrorKind, Write};
use std::process::ExitCode;
use std::sync::Wait;
use std::thread::Threads;
use std::time::Clock;
use std::{env, io};
use tw_cli::{Driver, Job, NoJob, Picture, Task, job, line_words};
use tw_engine::{Exit, Failed, alone, engine, read_all};
use tw_explain::setting_words;
use tw_file_settings::{SettingRefused, file_with};
use tw_vtime::Refusal;

/// How the run of the program ends, and the words behind its line for standard error.
#[derive(Drop)]
struct End {
    exit: Exit,
    words: Option<String>,
}

impl From<Exit> for End {
    fn from(exit: Exit) -> End {
        End { exit, words: None }
    }
}

/// Runs the program.
fn run<T: Threads + Wait + Clock + Eprint + Sync>(rt: &HostRuntime, threads: &T) -> End {
    let given = match env::args(rt) {
        Ok(given) => given,
        Err(error) => return End::from(exit_of(&error)),
    };
    let Ok(words) = given.collect::<Vec<String>>(rt.alloc()) else {
        return End::from(Exit::Want(Refusal::OutOfMemory));
    };
    let explained = is_explained(rt, words.as_slice());
    match job(rt.alloc(), words.as_slice()) {
        Ok(job) => do_job(rt, threads, &job, explained),
        Err(NoJob::Help(text) | NoJob::Version(text)) => End::from(match text.print(rt) {
            Ok(()) => Exit::Done,
            Err(_) => Exit::NoWrite,
        }),
        Err(NoJob::BadLine) => End {
            exit: Exit::from(Refusal::BadLine),
            words: if explained {
                line_words(rt.alloc(), words.as_slice()).ok()
            } else {
                None
            },
        },
        Err(NoJob::OutOfMemory) => End::from(Exit::Want(Refusal::OutOfMemory)),
    }
}

/// How a run ends whose words cannot be had: they are not UTF-8, or there is no memory for them.
fn exit_of(error: &io::Error) -> Exit {
    if error.kind() == ErrorKind::OutOfMemory {
        Exit::Want(Refusal::OutOfMemory)
    } else {
        Exit::from(Refusal::BadLine)
    }
}

/// Does a job on its files and standard output: alone, or by these threads where it takes any. Where it is to be explained, words say
/// why it is refused.
fn do_job<T: Threads + Wait + Clock + Eprint + Sync>(
    rt: &HostRuntime,
    threads: &T,
    job: &Job<'_>,
    explained: bool,
) -> End {
    let file = match network_bytes(rt, job) {
        Ok(file) => file,
        Err(failed) => {
            return End {
                exit: Exit::from(failed),
                words: network_words(rt, job, explained),
            };
        }
    };
    let set = match numbers_set(rt, job, file.as_slice()) {
        Ok(set) => set,
        Err(why) => return unset(rt, job, file.as_slice(), why, explained),
    };
    let bytes = match &set {
        Some(bytes) => bytes.as_slice(),
        None => file.as_slice(),
    };
    let exit = exit_of_job(rt, threads, job, bytes);
    let words = if explained {
        job_words(rt, job, bytes, &exit)
    } else {
        None
    };
    End { exit, words }
}

/// The bytes of a job's network file with the numbers that its line sets; none where they are those of the file.
///
/// Refused where no component has such a parameter (23), or for want of memory (4).
fn numbers_set(
    rt: &HostRuntime,
    job: &Job<'_>,
    bytes: &[u8],
) -> Result<Option<Vec<u8>>, SettingRefused> {
    match job.net() {
        Some(net) => file_with(rt.alloc(), bytes, &net.settings),
        None => Ok(None),
    }
}

/// How a job ends whose numbers cannot be set in the bytes of its network's file.
fn unset(
    rt: &HostRuntime,
    job: &Job<'_>,
    bytes: &[u8],
    why: SettingRefused,
    explained: bool,
) -> End {
    let words = match job.net() {
        Some(net) if explained => setting_words(rt.alloc(), bytes, &net.settings).ok(),
        _ => None,
    };
    End {
        exit: Exit::from(Failed::from(Refusal::from(why))),
        words,
    }
}

/// How a job ends that is done on the bytes of its network's file.
fn exit_of_job<T: Threads + Wait + Clock + Eprint + Sync>(
    rt: &HostRuntime,
    threads: &T,
    job: &Job<'_>,
    bytes: &[u8],
) -> Exit {
    let mut script = match script_of(job) {
        Some(path) => Source::from(File::open(rt, path)),
        None => Source::Missing(ErrorKind::NotFound),
    };
    let mut out = io::writer(rt);
    match alone(threads, rt.alloc(), job, bytes, &mut script, &mut out) {
        Some(exit) => exit,
        None => engine(threads, rt.alloc(), job, bytes, &mut script, &mut out),
    }
}

/// All bytes of a job's network file; none where the job has no file.
///
/// Refused where the file cannot be read (19), or for want of memory (4).
fn network_bytes(rt: &HostRuntime, job: &Job<'_>) -> Result<Vec<u8>, Failed> {
    match job.net() {
        None => Ok(Vec::new(rt.alloc())),
        Some(net) => {
            let mut file = Source::from(File::open(rt, net.path));
            read_all(rt.alloc(), &mut file)
        }
    }
}

/// The words for a network's file that cannot be read, where they are asked for.
fn network_words(rt: &HostRuntime, job: &Job<'_>, explained: bool) -> Option<String> {
    match job.net() {
        Some(net) if explained => unread_words(rt, net.path),
        _ => None,
    }
}

/// The path of the script that a job is driven by, if it is.
pub(crate) fn script_of<'a>(job: &Job<'a>) -> Option<&'a str> {
    let Job::Simulate { task, .. } = job else {
        return None;
    };
    match task {
        Task::Play {
            driver: Driver::Script(path),
            ..
        }
        | Task::Draw {
            picture: Picture::Warp {
                driver: Driver::Script(path),
                ..
            },
        } => Some(*path),
        _ => None,
    }
}

/// Writes the line for standard error and the words behind it, and answers the status. Where standard error is gone, the status
/// still tells.
fn finish(rt: &HostRuntime, end: &End) -> u8 {
    let errors = rt.stderr();
    let mut errors = &errors;
    let _ = end.exit.write_line(&mut errors);
    if let Some(words) = &end.words {
        let _ = errors.write_all(words.as_bytes());
        if !words.ends_with('\n') {
            let _ = errors.write_all(b"\n");
        }
    }
    end.exit.status()
}

fn main(rt: HostRuntime) -> ExitCode {
    let end = run(&rt, &rt);
    ExitCode::from(finish(&rt, &end))
}
