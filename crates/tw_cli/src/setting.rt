//! What the workers of a run are set to.

ghost use Rattle.std.specs.Prelude.{◌≡◌, ◌≢◌, Some, codes, false, IfSome, IfNone, IsTrue, IsFalse};
ghost use Rattle.clap.specs.Words.{rows_of, found_of, first_of};
ghost use Rattle.tw_cli.specs.Options.{IsBurstIn, IsByIn, IsInOrder, IsSettingIn, IsTeamIn, IsWindowIn, IsWorkersIn};

use crate::driving::cancel_in;
use crate::values::{flag_in, has, number_in, text_in};
use clap::ArgMatches;
use tw_actions::{Cancel, MAX_BURST, MAX_WORKERS};
use tw_vtime::MAX_TICK;

/// How many workers a run has.
#[derive(Clone, Copy, Debug, PartialEq, Eq)]
pub enum Workers {
    /// So many threads work, 1 to 64.
    Count(u64),
    /// The program chooses: it goes on in order where threads would cost more than they bring, else a thread works for each processor.
    Auto,
}

/// How many workers a run has, how far they work ahead, and whether it tells how far it is. The trace is the same for all of them.
#[derive(Clone, Copy, Debug, PartialEq, Eq)]
pub struct RunOptions {
    /// How many threads work.
    pub workers: Workers,
    /// The most steps of one component that a worker computes at a time, 1 to 256.
    pub burst: u64,
    /// How many ticks after gvt a component may still make a step, 0 to 1,099,511,627,774.
    pub window: u64,
    /// Whether a line on standard error tells once a second how far the run is.
    pub progress: bool,
}

/// How workers make a run that is made in order without them.
#[derive(Clone, Copy, Debug, PartialEq, Eq)]
pub struct ByWorkers {
    /// How steps that are taken back are cancelled.
    pub cancel: Cancel,
    /// How many workers there are, and what they are set to.
    pub setting: RunOptions,
}

// The most steps that a worker computes at a time, where none were asked for.
const USUAL_BURST: u64 = 64;

/// Whether the number of workers is left to the program.
fn is_auto(options: &ArgMatches<'_>) -> bool
    ensures yes { let rows = rows_of (found_of options.now) in
        IsTrue result → first_of (codes "workers") rows ≡ Some (codes "auto") }
    ensures no { let rows = rows_of (found_of options.now) in
        result ≡ false → first_of (codes "workers") rows ≢ Some (codes "auto") }
{
    text_in(options, "workers") == Some("auto")
}

/// How many workers there are, among the options. Clap puts in what is left out.
fn workers_in(options: &ArgMatches<'_>) -> Option<Workers>
    ensures some { IfSome result (IsWorkersIn (rows_of (found_of options.now))) }
    ensures none { IfNone result ((w : _) → ¬ (IsWorkersIn (rows_of (found_of options.now)) w)) }
{
    if is_auto(options) {
        return Some(Workers::Auto);
    }
    let count = number_in(options, "workers", 1, MAX_WORKERS)?;
    Some(Workers::Count(count))
}

/// What the workers are set to, among the options. Clap puts in what is left out.
pub fn setting_in(options: &ArgMatches<'_>) -> Option<RunOptions>
    ensures some { IfSome result (IsSettingIn (rows_of (found_of options.now))) }
    ensures none { IfNone result ((s : _) → ¬ (IsSettingIn (rows_of (found_of options.now)) s)) }
{
    let workers = workers_in(options)?;
    let burst = number_in(options, "burst", 1, MAX_BURST)?;
    let window = number_in(options, "window", 0, MAX_TICK)?;
    let progress = flag_in(options, "progress");
    Some(RunOptions {
        workers,
        burst,
        window,
        progress,
    })
}

/// The most steps of one component that a worker computes at a time, among the options; 64 where that is left out.
fn burst_in(options: &ArgMatches<'_>) -> Option<u64>
    ensures some { IfSome result (IsBurstIn (rows_of (found_of options.now))) }
    ensures none { IfNone result ((n : _) → ¬ (IsBurstIn (rows_of (found_of options.now)) n)) }
{
    if !has(options, "burst") {
        return Some(USUAL_BURST);
    }
    number_in(options, "burst", 1, MAX_BURST)
}

/// How many ticks after gvt a component may still make a step, among the options; all of them where that is left out.
fn window_in(options: &ArgMatches<'_>) -> Option<u64>
    ensures some { IfSome result (IsWindowIn (rows_of (found_of options.now))) }
    ensures none { IfNone result ((n : _) → ¬ (IsWindowIn (rows_of (found_of options.now)) n)) }
{
    if !has(options, "window") {
        return Some(MAX_TICK);
    }
    number_in(options, "window", 0, MAX_TICK)
}

/// What workers are set to, among the options, where their number stands there.
fn team_in(options: &ArgMatches<'_>) -> Option<ByWorkers>
    ensures some { IfSome result (IsTeamIn (rows_of (found_of options.now))) }
    ensures none { IfNone result ((by : _) → ¬ (IsTeamIn (rows_of (found_of options.now)) by)) }
{
    let cancel = cancel_in(options)?;
    let workers = workers_in(options)?;
    let burst = burst_in(options)?;
    let window = window_in(options)?;
    let progress = flag_in(options, "progress");
    let setting = RunOptions {
        workers,
        burst,
        window,
        progress,
    };
    Some(ByWorkers { cancel, setting })
}

/// Whether an option stands that speaks of workers.
fn is_manned(options: &ArgMatches<'_>) -> bool
    ensures yes { IsTrue result → ¬ (IsInOrder (rows_of (found_of options.now))) }
    ensures no { IsFalse result → IsInOrder (rows_of (found_of options.now)) }
{
    has(options, "workers")
        || has(options, "burst")
        || has(options, "window")
        || has(options, "cancel")
}

/// Who makes a run, among the options of a subcommand that makes it in order where none of them speaks of workers. What workers are set to
/// stands there with their number alone.
pub(crate) fn by_in(options: &ArgMatches<'_>) -> Option<Option<ByWorkers>>
    ensures some { IfSome result (IsByIn (rows_of (found_of options.now))) }
    ensures none { IfNone result ((o : _) → ¬ (IsByIn (rows_of (found_of options.now)) o)) }
{
    if !is_manned(options) {
        return Some(None);
    }
    if !has(options, "workers") {
        return None;
    }
    let team = team_in(options)?;
    Some(Some(team))
}
