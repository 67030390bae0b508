//! From a job and the bytes of its file to the bytes written.

ghost use Rattle.std.specs.Prelude.{◌≡◌, ◌↔◌, ◌⊎◌, IfSome, List, None, Option, ℕ};
ghost use Rattle.tw_engine.specs.Jobs.{IsByWorkers, IsDone, IsTaskDone, ReadsScript, TakesThreads};

use crate::exit::Exit;
use crate::job_check::check;
use crate::job_demo::demo;
use crate::job_dot::dot;
use crate::job_draw::{Drawing, draw, title_of};
use crate::job_play::{Start, play};
use crate::job_run::{Plan, run};
use crate::job_seq::seq;
use crate::job_stats::{Summary, stats, stats_by_workers};
use crate::job_table::{Tabulation, table, table_by_workers};
use crate::telling::Teller;
use std::alloc::Global;
use std::io::{Read, Write};
use std::sync::Wait;
use std::thread::Threads;
use std::time::Clock;
use tw_cli::{Job, Task};

/// Does a job that takes no threads, and so returns; `demo`, `run`, and `stats` and `table` by workers it leaves to [`engine`], and answers
/// none.
///
/// The bytes are those of the network's file, from its beginning to its end, with the numbers that the job's line sets:
/// [`read_all`](crate::read_all) has them of a reader, or says why it has not, and [`file_with`](tw_file_settings::file_with) sets the
/// numbers.
///
/// | Job | Reads | Writes |
/// |---|---|---|
/// | `check` | the network | what the network has, and a line for each warning; or the place and the reason of the file's first fault; it simulates nothing |
/// | `dot` | the network | the network as Graphviz reads it; it simulates nothing |
/// | `seq` | the network | the trace of its sequential run, and the line of its fault if there is one |
/// | `stats` | the network | counts, figures and observations of that run, from a tick on where one was asked for |
/// | `table` | the network | its records, or the changes of its figures, from a tick on as comma-separated values |
/// | `draw` | the network, and then the script, if one drives an executive | a picture of that run, or of a run of Time Warp |
/// | `play` | the network, and then the script, if one drives it | the answer to each command as it comes, and then the trace up to the least commit line |
///
/// A script is read to its end, and only where the bytes of the network's file mean a network. Of `seq` and `table` nothing is written
/// before the outcome of the simulation is known, of `stats`, `draw` and `dot` nothing before all is known. Where they say so, `seq`, `stats`
/// and `table` tell on standard error how far they are.
///
/// | Exit | Status | Number | Written |
/// |---|---|---|---|
/// | [`Exit::Done`], [`Exit::Fault`] | 0, 3 | | the whole text; of `check` its line |
/// | [`Exit::Limited`] | 3 | of `stats`, `table` and `draw`: a component met a limit | what is told of the run before it |
/// | [`Exit::Bad`] | 2 | 19: the script cannot be read; 5 to 11, 17, 18, 20, 21: the network's file is refused; 21: of a strict `check`, there is a warning; 10: the end tick is above the greatest one; 15: of `stats`, `table` and `draw`, no component has the name; of `draw`, no figure has it; 9, 22: the script has too many lines, or one that says nothing | nothing; of `check` a line of words, or what it writes of a network |
/// | [`Exit::Want`] | 4 | 4: a growth of memory was refused | a beginning of the text; of `play` only answers, and the line `refused 4 OutOfMemory` after them where a command was refused; of `check`, `stats` and `dot` nothing |
/// | [`Exit::NoWrite`] | 5 | 24: the writer failed | only the writer knows |
pub fn alone<R: Clock + Eprint, S: Read, W: Write>(
    rt: &R,
    alloc: Global,
    job: &Job<'_>,
    bytes: &[u8],
    script: &mut S,
    out: &mut W,
) -> Option<Exit>
    ensures done { IfSome result
        (λ exit. IsDone job.now exit bytes.now (S.remaining script.old)
        (W.contents out.old) (W.contents out.new)) }
    ensures left { (result ≡ None) ↔ TakesThreads job.now }
    ensures idle { result ≡ None → out.new ≡ out.old }
    ensures reads { (script.new ≡ script.old) ⊎ ReadsScript job.now bytes.now }
{
    match job {
        Job::Demo => None,
        Job::Check { strict, .. } => Some(Exit::of_rest(check(alloc, bytes, *strict, out))),
        Job::Dot { .. } => Some(Exit::of_rest(dot(alloc, bytes, out))),
        Job::Simulate { net, until, task } => match task {
            Task::Seq { progress } => {
                let mut teller = Teller::new(rt, *until, *progress);
                Some(Exit::of_run(seq(alloc, bytes, *until, &mut teller, out)))
            }
            Task::Stats {
                from,
                only,
                json,
                progress,
                by: None,
            } => {
                let mut teller = Teller::new(rt, *until, *progress);
                let summary = Summary {
                    only: *only,
                    from: *from,
                    until: *until,
                    json: *json,
                };
                let ended = stats(alloc, bytes, &summary, &mut teller, out);
                Some(Exit::of_view(ended))
            }
            Task::Table {
                from,
                only,
                of,
                progress,
                by: None,
            } => {
                let mut teller = Teller::new(rt, *until, *progress);
                let tabulation = Tabulation {
                    only: *only,
                    from: *from,
                    until: *until,
                    of: *of,
                };
                let ended = table(alloc, bytes, &tabulation, &mut teller, out);
                Some(Exit::of_view(ended))
            }
            Task::Draw { picture } => {
                let drawing = Drawing {
                    title: title_of(net.path),
                    until: *until,
                    picture,
                };
                Some(Exit::of_view(draw(alloc, bytes, script, &drawing, out)))
            }
            Task::Stats { by: Some(_), .. } | Task::Table { by: Some(_), .. } | Task::Run { .. } =>
                { None }
            Task::Play { cancel, driver } => {
                let start = Start {
                    until: *until,
                    cancel: *cancel,
                };
                let ended = play(alloc, bytes, script, start, driver, out);
                Some(Exit::of_rest(ended))
            }
        },
    }
}

/// Does any job: those that take no threads as [`alone`] does, and
///
/// | Job | Reads | Writes |
/// |---|---|---|
/// | `demo` | nothing | the text of a network of its own, run by two workers |
/// | `run` | the network | the text that `seq` writes, by workers in threads of their own, whatever the setting; where that says so, a thread tells on standard error how far it is |
/// | `stats`, `table` | the network | by such workers what they write without |
///
/// Of these nothing is written before the outcome is known. They exit as they do in order, `run` as `seq` does, and by [`Exit::Want`] (status 4) also with 12 where a
/// process would hold too many nodes: then nothing is written.
pub fn engine<R: Threads + Wait + Clock + Eprint + Sync, S: Read, W: Write>(
    rt: &R,
    alloc: Global,
    job: &Job<'_>,
    bytes: &[u8],
    script: &mut S,
    out: &mut W,
) -> Exit
    ensures done { IsDone job.now result bytes.now (S.remaining script.old)
        (W.contents out.old) (W.contents out.new) }
    ensures reads { (script.new ≡ script.old) ⊎ ReadsScript job.now bytes.now }
{
    match alone(rt, alloc, job, bytes, script, out) {
        Some(exit) => exit,
        None => by_threads(rt, alloc, job, bytes, out),
    }
}

/// Does a job that takes threads.
fn by_threads<R: Threads + Wait + Clock + Eprint + Sync, W: Write>(
    rt: &R,
    alloc: Global,
    job: &Job<'_>,
    bytes: &[u8],
    out: &mut W,
) -> Exit
    requires { TakesThreads job.now }
    ensures { (script : Option (List ℕ))
        → IsDone job.now result bytes.now script (W.contents out.old) (W.contents out.new) }
{
    match job {
        Job::Demo => Exit::of_run(demo(rt, alloc, out)),
        Job::Check { .. } | Job::Dot { .. } => unreachable!(),
        Job::Simulate { until, task, .. } => by_workers(rt, alloc, task, *until, bytes, out),
    }
}

/// Has workers do a task, up to an end tick.
fn by_workers<R: Threads + Wait + Clock + Eprint + Sync, W: Write>(
    rt: &R,
    alloc: Global,
    task: &Task<'_>,
    until: u64,
    bytes: &[u8],
    out: &mut W,
) -> Exit
    requires { IsByWorkers task.now }
    ensures { (script : Option (List ℕ))
        → IsTaskDone task.now until result bytes.now script (W.contents out.old) (W.contents out.new) }
{
    match task {
        Task::Run { cancel, setting } => {
            let plan = Plan {
                until,
                cancel: *cancel,
                options: *setting,
            };
            Exit::of_run(run(rt, alloc, bytes, plan, out))
        }
        Task::Stats {
            from,
            only,
            json,
            by,
            ..
        } => {
            let Some(by) = by else { unreachable!() };
            let summary = Summary {
                only: *only,
                from: *from,
                until,
                json: *json,
            };
            Exit::of_view(stats_by_workers(rt, alloc, bytes, &summary, *by, out))
        }
        Task::Table {
            from,
            only,
            of,
            by,
            ..
        } => {
            let Some(by) = by else { unreachable!() };
            let tabulation = Tabulation {
                only: *only,
                from: *from,
                until,
                of: *of,
            };
            Exit::of_view(table_by_workers(rt, alloc, bytes, &tabulation, *by, out))
        }
        Task::Seq { .. } | Task::Draw { .. } | Task::Play { .. } => unreachable!(),
    }
}
