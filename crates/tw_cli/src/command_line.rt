//! From the words of a line to a job.

ghost use Rattle.std.specs.Prelude.{◌≡◌, [], codes, IfOk, IfErr, IfSome, IfNone, map, string_bytes};
ghost use Rattle.clap.specs.Words.{rows_of, found_of, fault_of, kind_of, subcommand_of, subcommand_rows_of};
ghost use Rattle.tw_cli.specs.Lines.{twarp_app, FailsFor, IsJob, IsJobOf, IsReason, IsMadeOf, IsNetIn, IsSimulationOf, IsTaskOf, IsTimedTask};

use crate::commands::command;
use crate::driving::{cancel_in, driver_in};
use crate::jobs::{Job, NoJob, Task};
use crate::numbers::net_in;
use crate::seeing::{from_in, picture_in, start_in, tabled_in};
use crate::setting::{by_in, setting_in};
use crate::values::{flag_in, number_in, text_in};
use clap::error::ErrorKind;
use clap::{ArgMatches, Error};
use std::alloc::{AllocError, Global};
use tw_vtime::MAX_TICK;

/// The job of `check` and its options; none where they do not say which file is checked, and what is changed in it.
fn check_in<'a>(alloc: Global, options: &ArgMatches<'a>) -> Result<Job<'a>, NoJob>
    ensures ok { IfOk result (IsJobOf (codes "check") (rows_of (found_of options.now))) }
    ensures err { let rows = rows_of (found_of options.now) in
        IfErr result (FailsFor ((net : _) → ¬ (IsNetIn rows net))) }
{
    let net = net_in(alloc, options)?;
    let strict = flag_in(options, "strict");
    Ok(Job::Check { net, strict })
}

/// The job of `dot` and its options; none where they do not say of which file, and what is changed in it.
fn dot_in<'a>(alloc: Global, options: &ArgMatches<'a>) -> Result<Job<'a>, NoJob>
    ensures ok { IfOk result (IsJobOf (codes "dot") (rows_of (found_of options.now))) }
    ensures err { let rows = rows_of (found_of options.now) in
        IfErr result (FailsFor ((net : _) → ¬ (IsNetIn rows net))) }
{
    let net = net_in(alloc, options)?;
    Ok(Job::Dot { net })
}

/// The task of `stats` and its options; none where they do not say from when on it counts, or who makes the run.
fn stats_in<'a>(options: &ArgMatches<'a>) -> Option<Task<'a>>
    ensures some { IfSome result (IsTaskOf (codes "stats") (rows_of (found_of options.now))) }
    ensures none { let rows = rows_of (found_of options.now) in
        IfNone result ((t : _) → ¬ (IsTaskOf (codes "stats") rows t)) }
{
    let from = start_in(options)?;
    let only = text_in(options, "only");
    let json = flag_in(options, "json");
    let progress = flag_in(options, "progress");
    let by = by_in(options)?;
    Some(Task::Stats {
        from,
        only,
        json,
        progress,
        by,
    })
}

/// The task of `table` and its options; none where they do not say what it is of, from when on there are lines, or who makes the run.
fn table_in<'a>(options: &ArgMatches<'a>) -> Option<Task<'a>>
    ensures some { IfSome result (IsTaskOf (codes "table") (rows_of (found_of options.now))) }
    ensures none { let rows = rows_of (found_of options.now) in
        IfNone result ((t : _) → ¬ (IsTaskOf (codes "table") rows t)) }
{
    let from = from_in(options)?;
    let only = text_in(options, "only");
    let of = tabled_in(options)?;
    let progress = flag_in(options, "progress");
    let by = by_in(options)?;
    Some(Task::Table {
        from,
        only,
        of,
        progress,
        by,
    })
}

/// The task of `draw` and its options; none where they do not say what the picture is of.
fn draw_in<'a>(alloc: Global, options: &ArgMatches<'a>) -> Result<Option<Task<'a>>, AllocError>
    ensures some { let rows = rows_of (found_of options.now) in
        IfOk result (λ o. IfSome o (IsTaskOf (codes "draw") rows)) }
    ensures none { let rows = rows_of (found_of options.now) in
        IfOk result (λ o. IfNone o ((t : _) → ¬ (IsTaskOf (codes "draw") rows t))) }
{
    match picture_in(alloc, options)? {
        Some(picture) => Ok(Some(Task::Draw { picture })),
        None => Ok(None),
    }
}

/// The task of `run` and its options; none where they do not say how steps are cancelled, or what the workers are set to.
fn run_in<'a>(options: &ArgMatches<'a>) -> Option<Task<'a>>
    ensures some { IfSome result (IsTaskOf (codes "run") (rows_of (found_of options.now))) }
    ensures none { let rows = rows_of (found_of options.now) in
        IfNone result ((t : _) → ¬ (IsTaskOf (codes "run") rows t)) }
{
    let cancel = cancel_in(options)?;
    let setting = setting_in(options)?;
    Some(Task::Run { cancel, setting })
}

/// The task of `play` and its options; none where they do not say how steps are cancelled, or what drives it.
fn play_in<'a>(options: &ArgMatches<'a>) -> Option<Task<'a>>
    ensures some { IfSome result (IsTaskOf (codes "play") (rows_of (found_of options.now))) }
    ensures none { let rows = rows_of (found_of options.now) in
        IfNone result ((t : _) → ¬ (IsTaskOf (codes "play") rows t)) }
{
    let cancel = cancel_in(options)?;
    let driver = driver_in(options)?;
    Some(Task::Play { cancel, driver })
}

/// The task of a subcommand, by its name, and its options.
fn task_named<'a>(
    alloc: Global,
    name: &str,
    options: &ArgMatches<'a>,
) -> Result<Option<Task<'a>>, AllocError>
    ensures some { let rows = rows_of (found_of options.now) in
        IfOk result (λ o. IfSome o (IsTaskOf name.now rows)) }
    ensures none { let rows = rows_of (found_of options.now) in
        IfOk result (λ o. IfNone o ((t : _) → ¬ (IsTaskOf name.now rows t))) }
{
    match name {
        "seq" => Ok(Some(Task::Seq {
            progress: flag_in(options, "progress"),
        })),
        "stats" => Ok(stats_in(options)),
        "table" => Ok(table_in(options)),
        "draw" => draw_in(alloc, options),
        "run" => Ok(run_in(options)),
        "play" => Ok(play_in(options)),
        _ => Ok(None),
    }
}

/// The end tick and the task of a subcommand that simulates a network, by its name, and its options.
fn timed_task<'a>(
    alloc: Global,
    name: &str,
    options: &ArgMatches<'a>,
) -> Result<Option<(u64, Task<'a>)>, AllocError>
    ensures some { let rows = rows_of (found_of options.now) in
        IfOk result (λ o. IfSome o (λ p. IsTimedTask name.now rows p.0 p.1)) }
    ensures none { let rows = rows_of (found_of options.now) in
        IfOk result (λ o. IfNone o ((n : _) (t : _) → ¬ (IsTimedTask name.now rows n t))) }
{
    let Some(until) = number_in(options, "until", 0, MAX_TICK) else {
        return Ok(None);
    };
    match task_named(alloc, name, options)? {
        Some(task) => Ok(Some((until, task))),
        None => Ok(None),
    }
}

/// The job of a subcommand that simulates a network, by its name, and its options.
fn simulation_in<'a>(alloc: Global, name: &str, options: &ArgMatches<'a>) -> Result<Job<'a>, NoJob>
    ensures ok { IfOk result (IsJobOf name.now (rows_of (found_of options.now))) }
    ensures err { let rows = rows_of (found_of options.now) in
        IfErr result (FailsFor ((net : _) (n : _) (t : _)
        → ¬ (IsSimulationOf name.now rows net n t))) }
{
    let Some((until, task)) = timed_task(alloc, name, options)? else {
        return Err(NoJob::BadLine);
    };
    let net = net_in(alloc, options)?;
    Ok(Job::Simulate { net, until, task })
}

/// The job of a subcommand, by its name, and its options.
fn job_named<'a>(alloc: Global, name: &str, options: &ArgMatches<'a>) -> Result<Job<'a>, NoJob>
    ensures ok { IfOk result (IsJobOf name.now (rows_of (found_of options.now))) }
    ensures err { let rows = rows_of (found_of options.now) in
        IfErr result (FailsFor ((j : _) → ¬ (IsJobOf name.now rows j))) }
{
    match name {
        "demo" => Ok(Job::Demo),
        "check" => check_in(alloc, options),
        "dot" => dot_in(alloc, options),
        _ => simulation_in(alloc, name, options),
    }
}

/// The job of a command line that has been read.
fn job_of<'a>(alloc: Global, matches: &ArgMatches<'a>) -> Result<Job<'a>, NoJob>
    ensures ok { IfOk result (IsJob (subcommand_rows_of matches.now)) }
    ensures err { let found = subcommand_rows_of matches.now in
        IfErr result (FailsFor ((j : _) → ¬ (IsJob found j))) }
{
    match matches.subcommand() {
        Some((name, options)) => job_named(alloc, name, options),
        None => Err(NoJob::BadLine),
    }
}

/// What an error of the parse means.
fn no_job(error: Error) -> NoJob
    ensures { IsMadeOf (kind_of error) result }
{
    match error.kind() {
        ErrorKind::DisplayHelp => NoJob::Help(error),
        ErrorKind::DisplayVersion => NoJob::Version(error),
        ErrorKind::OutOfMemory => NoJob::OutOfMemory,
        _ => NoJob::BadLine,
    }
}

/// The job that a command line asks for. The first word is the program's name.
///
/// The jobs are `demo`; `check NET` with `--strict` or without; `dot NET`; `seq NET --until T`; `stats NET --until T` with `--json` or without, and with `--from T0` (0 to
/// 1,099,511,627,774 ticks) or without; `table NET --until T`
/// with `--items`, `--words` or `--figures` or none of them, and with `--from T0` or without, both with `--only NAMES` or without; `run NET --until T` with `--workers N` (1 to 64) or `--workers auto`, `--burst K` (1 to
/// 256 steps) and `--window W` (0 to 1,099,511,627,774 ticks), which are 2, 64 and 1,099,511,627,774 where they are left out;
/// `play NET --until T` with what drives it, either `--script FILE` alone or both `--seed S` and `--steps N`; and
/// `draw NET --until T`, either with what drives an executive, as `play`, or with what is seen of a run: `--from T0` (0 to
/// 1,099,511,627,774 ticks, 0 where it is left out), `--only NAMES` and `--figure NAME`. `stats` and `table` take the options of `run`,
/// where `--workers` stands; where it is left out, so are the others. `run`, `play` and a driven `draw`
/// take `--cancel aggressive` (also where it is left out) or `--cancel lazy`; `seq`, `stats`, `table` and `run` take
/// `--progress`. A flag stands there once or not at all. T is a number of ticks, 0
/// to 1,099,511,627,774, S any u64, N of `--steps` at most 1,000,000; numbers are those that clap's reader of a u64
/// takes, `+5` and `007` among them. Every other line is refused by [`NoJob::BadLine`] (23), also one with no
/// subcommand, one with two drivers, one with half of one, and a `draw` that is driven and says what is seen. Where `--help`, `-h` or `help` is met first,
/// [`NoJob::Help`] has clap's text, and where `--version` or `-V` is in place of a subcommand, [`NoJob::Version`];
/// where memory is wanting, it is [`NoJob::OutOfMemory`] (4).
///
/// In the contract, `twarp_app` is the command in clap's own words, `subcommand_of` the subcommand that
/// clap's parse finds there and `fault_of` the kinds of error that it answers, none for a line that it
/// takes.
pub fn job<'a>(alloc: Global, words: &'a [String]) -> Result<Job<'a>, NoJob>
    ensures ok { IfOk result (IsJob (subcommand_of twarp_app (map string_bytes words.entry.now))) }
    ensures taken { IfOk result (λ _. fault_of twarp_app (map string_bytes words.entry.now) ≡ []) }
    ensures err { IfErr result (IsReason (map string_bytes words.entry.now)) }
{
    match command(alloc)?.try_get_matches_from(words) {
        Ok(matches) => job_of(alloc, &matches),
        Err(error) => Err(no_job(error)),
    }
}
