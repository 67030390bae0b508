//! The command as clap takes it, with its help.

ghost use Rattle.std.specs.Prelude.{◌≡◌, IfOk, codes};
ghost use Rattle.clap.specs.Words.{App, app_of};
ghost use Rattle.tw_cli.specs.Lines.{flag_rule, from_rule, net_rule, number_rule, numbered_app, text_rule, texts_rule, until_rule, alone_app, cancelled_app, check_app, demo_app, dot_app, draw_app, driven_app, file_app, first_app, listed_app, manned_app, network_app, part_app, play_app, preset_rule, preset_text_rule, run_app, seen_app, seq_app, set_app, shown_app, stats_app, summary_app, table_app, told_app, twarp_app, IsArg, IsCommand, IsJoined};

use crate::driving::MAX_STEPS;
use crate::help::{
    CHECK_END, DEMO_END, DOT_END, DRAW_END, PLAY_END, RUN_END, SEQ_END, STATS_END, TABLE_END,
    TWARP_END, VERSION,
};
use clap::builder::ValueParser;
use clap::{Arg, ArgAction, Command};
use std::alloc::{AllocError, Global};
use tw_actions::MAX_BURST;
use tw_vtime::MAX_TICK;

/// The path of the network file, which stands on the line with no name of its own.
fn net<'a>(alloc: Global) -> Arg<'a>
    ensures { IsArg net_rule result }
{
    Arg::new(alloc, "net").required(true).value_name("NET").help(
        "Path of the network file: JSON of the format tw-1, tw-2 or tw-3",
    )
}

/// An option that takes a number in a range.
fn number<'a>(alloc: Global, id: &'a str, value_name: &'a str, least: u64, most: u64) -> Arg<'a>
    ensures { IsArg (number_rule id.entry.now least most) result }
{
    Arg::new(alloc, id)
        .long(id)
        .value_name(value_name)
        .value_parser(ValueParser::unsigned(least, most))
}

/// A number in a range, which stands there as this text where the option is left out.
fn preset<'a>(
    alloc: Global,
    id: &'a str,
    value_name: &'a str,
    least: u64,
    most: u64,
    left_out: &'a str,
) -> Arg<'a>
    ensures { IsArg (preset_rule id.entry.now least most left_out.entry.now) result }
{
    number(alloc, id, value_name, least, most).default_value(left_out)
}

/// An option that takes a text.
fn text<'a>(alloc: Global, id: &'a str, value_name: &'a str) -> Arg<'a>
    ensures { IsArg (text_rule id.entry.now) result }
{
    Arg::new(alloc, id).long(id).value_name(value_name)
}

/// A text, which stands there as this one where the option is left out.
fn preset_text<'a>(alloc: Global, id: &'a str, value_name: &'a str, left_out: &'a str) -> Arg<'a>
    ensures { IsArg (preset_text_rule id.entry.now left_out.entry.now) result }
{
    text(alloc, id, value_name).default_value(left_out)
}

/// An option that takes no value, and stands on the line or not.
fn flag<'a>(alloc: Global, id: &'a str) -> Arg<'a>
    ensures { IsArg (flag_rule id.entry.now) result }
{
    Arg::new(alloc, id).long(id).action(ArgAction::SetTrue)
}

fn until<'a>(alloc: Global) -> Arg<'a>
    ensures { IsArg until_rule result }
{
    number(alloc, "until", "T", 0, MAX_TICK).required(true).help(
        "End of the run in ticks, 0 to 1099511627774. Only steps before tick T are made",
    )
}

fn set<'a>(alloc: Global) -> Arg<'a>
    ensures { IsArg (texts_rule (codes "set")) result }
{
    text(alloc, "set", "COMPONENT.PARAMETER=VALUE")
        .action(ArgAction::Append)
        .help(
            "Use this number for a parameter of a component, in place of that of the file. May stand many times",
        )
}

fn seed_all<'a>(alloc: Global) -> Arg<'a>
    ensures { IsArg (number_rule (codes "seed-all") 0 18446744073709551615) result }
{
    number(alloc, "seed-all", "S", 0, u64::MAX).help(
        "Replication S, 0 to 18446744073709551615: replace each seed by the S-th number that SplitMix64 makes of it. 0 keeps the seeds",
    )
}

/// A subcommand with other numbers for its network file.
fn numbered_command<'a>(command: Command<'a>, alloc: Global) -> Result<Command<'a>, AllocError>
    ensures { (app : App) → IsCommand app command.entry
        → IfOk result (IsCommand (numbered_app app)) }
{
    command.arg(set(alloc))?.arg(seed_all(alloc))
}

fn demo_command<'a>(alloc: Global) -> Command<'a>
    ensures { IsCommand demo_app result }
{
    Command::new(alloc, "demo")
        .about(
            "Run a built-in network until tick 5: a generator with a period of 2 ticks, and a tally",
        )
        .after_help(DEMO_END)
}

/// A subcommand that takes a network file alone.
fn file_command<'a>(
    alloc: Global,
    name: &'a str,
    about: &'a str,
    end: &'a str,
) -> Result<Command<'a>, AllocError>
    ensures { IfOk result (IsCommand (file_app name.entry.now)) }
{
    let bare = Command::new(alloc, name)
        .about(about)
        .after_help(end)
        .arg(net(alloc))?;
    numbered_command(bare, alloc)
}

fn strict<'a>(alloc: Global) -> Arg<'a>
    ensures { IsArg (flag_rule (codes "strict")) result }
{
    flag(alloc, "strict").help("Fail with status 2 if there is a warning")
}

fn check_command<'a>(alloc: Global) -> Result<Command<'a>, AllocError>
    ensures { IfOk result (IsCommand check_app) }
{
    file_command(
        alloc,
        "check",
        "Check a network file. Print what it contains and what is likely to be a mistake, or the place and the reason of its first fault",
        CHECK_END,
    )?
    .arg(strict(alloc))
}

fn dot_command<'a>(alloc: Global) -> Result<Command<'a>, AllocError>
    ensures { IfOk result (IsCommand dot_app) }
{
    file_command(
        alloc,
        "dot",
        "Print a network as a graph that Graphviz draws: components, ports, couplings and coupled models",
        DOT_END,
    )
}

/// A subcommand over a network, up to an end.
fn network_command<'a>(
    alloc: Global,
    name: &'a str,
    about: &'a str,
    end: &'a str,
) -> Result<Command<'a>, AllocError>
    ensures { IfOk result (IsCommand (network_app name.entry.now)) }
{
    let bare = Command::new(alloc, name)
        .about(about)
        .after_help(end)
        .arg(net(alloc))?
        .arg(until(alloc))?;
    numbered_command(bare, alloc)
}

fn far<'a>(alloc: Global) -> Arg<'a>
    ensures { IsArg (flag_rule (codes "progress")) result }
{
    flag(alloc, "progress").help(
        "Print progress on standard error once a second: simulated tick, end tick, number of records",
    )
}

/// A subcommand over a network, up to an end, that may tell how far it is.
fn told_command<'a>(
    alloc: Global,
    name: &'a str,
    about: &'a str,
    end: &'a str,
) -> Result<Command<'a>, AllocError>
    ensures { IfOk result (IsCommand (told_app name.entry.now)) }
{
    network_command(alloc, name, about, end)?.arg(far(alloc))
}

fn seq_command<'a>(alloc: Global) -> Result<Command<'a>, AllocError>
    ensures { IfOk result (IsCommand seq_app) }
{
    told_command(
        alloc,
        "seq",
        "Simulate a network sequentially and print its trace",
        SEQ_END,
    )
}

fn json<'a>(alloc: Global) -> Arg<'a>
    ensures { IsArg (flag_rule (codes "json")) result }
{
    flag(alloc, "json").help("Print one line of JSON")
}

/// The components that are shown.
fn only<'a>(alloc: Global, help: &'a str) -> Arg<'a>
    ensures { IsArg (text_rule (codes "only")) result }
{
    text(alloc, "only", "NAMES").help(help)
}

/// The tick from which on a run is told or seen.
fn from<'a>(alloc: Global, help: &'a str) -> Arg<'a>
    ensures { IsArg from_rule result }
{
    number(alloc, "from", "T0", 0, MAX_TICK).help(help)
}

fn team<'a>(alloc: Global) -> Arg<'a>
    ensures { IsArg (text_rule (codes "workers")) result }
{
    text(alloc, "workers", "N").help(
        "Simulate by Time Warp in N threads, 1 to 64, or auto: one per processor if that pays. Default: simulate sequentially. The output is the same",
    )
}

fn team_burst<'a>(alloc: Global) -> Arg<'a>
    ensures { IsArg (number_rule (codes "burst") 1 256) result }
{
    number(alloc, "burst", "K", 1, MAX_BURST).help(
        "Maximum number of steps of one component that a worker computes at a time, 1 to 256. Default: 64. Requires --workers",
    )
}

fn team_window<'a>(alloc: Global) -> Arg<'a>
    ensures { IsArg (number_rule (codes "window") 0 1099511627774) result }
{
    number(alloc, "window", "W", 0, MAX_TICK).help(
        "Maximum number of ticks that a component may be ahead of GVT, 0 to 1099511627774. Default: 1099511627774. Requires --workers",
    )
}

fn team_cancel<'a>(alloc: Global) -> Arg<'a>
    ensures { IsArg (text_rule (codes "cancel")) result }
{
    text(alloc, "cancel", "WAY").help(
        "How to cancel the messages of undone steps: aggressive (at once; the default) or lazy (only messages that are not sent again). Requires --workers",
    )
}

/// A subcommand that workers may make.
fn manned_command<'a>(command: Command<'a>, alloc: Global) -> Result<Command<'a>, AllocError>
    ensures { (app : App) → IsCommand app command.entry
        → IfOk result (IsCommand (manned_app app)) }
{
    command
        .arg(team(alloc))?
        .arg(team_burst(alloc))?
        .arg(team_window(alloc))?
        .arg(team_cancel(alloc))
}

/// `stats` with what it tells of a run.
fn summary_command<'a>(alloc: Global) -> Result<Command<'a>, AllocError>
    ensures { IfOk result (IsCommand summary_app) }
{
    told_command(
        alloc,
        "stats",
        "Simulate a network. Print the counts of each component, and the least, greatest, last and mean value of each figure",
        STATS_END,
    )?
    .arg(from(
        alloc,
        "Count from tick T0 on, 0 to 1099511627774. Without it the whole run counts",
    ))?
    .arg(only(
        alloc,
        "Names of the components to print, separated by commas. Default: all",
    ))?
    .arg(json(alloc))
}

fn stats_command<'a>(alloc: Global) -> Result<Command<'a>, AllocError>
    ensures { IfOk result (IsCommand stats_app) }
{
    let summary = summary_command(alloc)?;
    manned_command(summary, alloc)
}

fn items<'a>(alloc: Global) -> Arg<'a>
    ensures { IsArg (flag_rule (codes "items")) result }
{
    flag(alloc, "items").help(
        "Print one line for each item of a record, with a column for each field of the file. Not with --words or --figures",
    )
}

fn words<'a>(alloc: Global) -> Arg<'a>
    ensures { IsArg (flag_rule (codes "words")) result }
{
    flag(alloc, "words").help(
        "Print one line for each word of the state after a transition. Not with --items or --figures",
    )
}

fn figures<'a>(alloc: Global) -> Arg<'a>
    ensures { IsArg (flag_rule (codes "figures")) result }
{
    flag(alloc, "figures").help(
        "Print all figures at the first tick, then one line for each figure that changed. Not with --items or --words",
    )
}

/// `table` with what part of a run it shows.
fn part_command<'a>(alloc: Global) -> Result<Command<'a>, AllocError>
    ensures { IfOk result (IsCommand part_app) }
{
    told_command(
        alloc,
        "table",
        "Simulate a network and print its records as comma-separated values, one record per line",
        TABLE_END,
    )?
    .arg(from(
        alloc,
        "First tick of the table, 0 to 1099511627774. Default: 0",
    ))?
    .arg(only(
        alloc,
        "Names of the components to print, separated by commas. Default: all",
    ))
}

/// `table` with what its lines are of.
fn listed_command<'a>(alloc: Global) -> Result<Command<'a>, AllocError>
    ensures { IfOk result (IsCommand listed_app) }
{
    part_command(alloc)?
        .arg(items(alloc))?
        .arg(words(alloc))?
        .arg(figures(alloc))
}

fn table_command<'a>(alloc: Global) -> Result<Command<'a>, AllocError>
    ensures { IfOk result (IsCommand table_app) }
{
    let listed = listed_command(alloc)?;
    manned_command(listed, alloc)
}

fn workers<'a>(alloc: Global) -> Arg<'a>
    ensures { IsArg (preset_text_rule (codes "workers") (codes "2")) result }
{
    preset_text(alloc, "workers", "N", "2").help(
        "Number of threads, 1 to 64, or auto: one per processor if that pays, else a sequential run. The trace is the same",
    )
}

fn burst<'a>(alloc: Global) -> Arg<'a>
    ensures { IsArg (preset_rule (codes "burst") 1 256 (codes "64")) result }
{
    preset(alloc, "burst", "K", 1, MAX_BURST, "64").help(
        "Maximum number of steps of one component that a worker computes at a time, 1 to 256",
    )
}

fn window<'a>(alloc: Global) -> Arg<'a>
    ensures { let most = codes "1099511627774" in
        IsArg (preset_rule (codes "window") 0 1099511627774 most) result }
{
    preset(alloc, "window", "W", 0, MAX_TICK, "1099511627774").help(
        "Maximum number of ticks that a component may be ahead of GVT, 0 to 1099511627774",
    )
}

fn progress<'a>(alloc: Global) -> Arg<'a>
    ensures { IsArg (flag_rule (codes "progress")) result }
{
    flag(alloc, "progress").help(
        "Print progress on standard error once a second: committed tick, end tick, number of committed records",
    )
}

/// `run` with what its workers are set to.
fn set_command<'a>(alloc: Global) -> Result<Command<'a>, AllocError>
    ensures { IfOk result (IsCommand set_app) }
{
    network_command(
        alloc,
        "run",
        "Simulate a network by Time Warp in parallel threads and print its trace",
        RUN_END,
    )?
    .arg(workers(alloc))?
    .arg(burst(alloc))?
    .arg(window(alloc))?
    .arg(progress(alloc))
}

fn run_command<'a>(alloc: Global) -> Result<Command<'a>, AllocError>
    ensures { IfOk result (IsCommand run_app) }
{
    set_command(alloc)?.arg(cancel(alloc))
}

fn script<'a>(alloc: Global) -> Arg<'a>
    ensures { IsArg (text_rule (codes "script")) result }
{
    text(alloc, "script", "FILE").help(
        "Path of a script, one action per line. Not with --seed and --steps",
    )
}

fn seed<'a>(alloc: Global) -> Arg<'a>
    ensures { IsArg (number_rule (codes "seed") 0 18446744073709551615) result }
{
    number(alloc, "seed", "S", 0, u64::MAX).help(
        "Seed of random actions, 0 to 18446744073709551615. Requires --steps",
    )
}

fn steps<'a>(alloc: Global) -> Arg<'a>
    ensures { IsArg (number_rule (codes "steps") 0 1000000) result }
{
    number(alloc, "steps", "N", 0, MAX_STEPS).help(
        "Number of random actions, 0 to 1000000. Requires --seed",
    )
}

fn cancel<'a>(alloc: Global) -> Arg<'a>
    ensures { IsArg (text_rule (codes "cancel")) result }
{
    text(alloc, "cancel", "WAY").help(
        "How to cancel the messages of undone steps: aggressive (at once; the default) or lazy (only messages that are not sent again)",
    )
}

/// A subcommand with what may drive an executive.
fn driven_command<'a>(command: Command<'a>, alloc: Global) -> Result<Command<'a>, AllocError>
    ensures { (app : App) → IsCommand app command.entry
        → IfOk result (IsCommand (driven_app app)) }
{
    command
        .arg(script(alloc))?
        .arg(seed(alloc))?
        .arg(steps(alloc))
}

/// A subcommand with what may drive an executive, and how that cancels.
fn cancelled_command<'a>(command: Command<'a>, alloc: Global) -> Result<Command<'a>, AllocError>
    ensures { (app : App) → IsCommand app command.entry
        → IfOk result (IsCommand (cancelled_app app)) }
{
    driven_command(command, alloc)?.arg(cancel(alloc))
}

fn play_command<'a>(alloc: Global) -> Result<Command<'a>, AllocError>
    ensures { IfOk result (IsCommand play_app) }
{
    let bare = network_command(
        alloc,
        "play",
        "Drive a Time Warp executive: make, undo and commit steps in any order. Print a reply to each action, then the committed trace",
        PLAY_END,
    )?;
    cancelled_command(bare, alloc)
}

fn figure<'a>(alloc: Global) -> Arg<'a>
    ensures { IsArg (texts_rule (codes "figure")) result }
{
    text(alloc, "figure", "NAME").action(ArgAction::Append).help(
        "Name of a figure to draw, as stats prints it, or COMPONENT=NAME for that of one component. May stand many times: a lane shows the first that its component has. Default: the last figure of each model; of a tally, its sum",
    )
}

fn width<'a>(alloc: Global) -> Arg<'a>
    ensures { IsArg (number_rule (codes "width") 600 4000) result }
{
    number(alloc, "width", "POINTS", 600, 4000).help(
        "Width of the picture in points, 600 to 4000. Default: 1280",
    )
}

fn marks<'a>(alloc: Global) -> Arg<'a>
    ensures { IsArg (flag_rule (codes "marks")) result }
{
    flag(alloc, "marks").help(
        "Draw a mark for each record, and end the picture after 20000 of them. Default: marks if the whole run has room, else --courses",
    )
}

fn courses<'a>(alloc: Global) -> Arg<'a>
    ensures { IsArg (flag_rule (codes "courses")) result }
{
    flag(alloc, "courses").help(
        "Draw figures alone, of a run of any length: the mean as a line, from the least to the greatest value as a band",
    )
}

/// `draw` with the part of a run that is shown.
fn shown_command<'a>(alloc: Global) -> Result<Command<'a>, AllocError>
    ensures { IfOk result (IsCommand shown_app) }
{
    network_command(
        alloc,
        "draw",
        "Draw a run as an SVG picture, one lane per component. With --script or --seed, draw a Time Warp run with its rollbacks",
        DRAW_END,
    )?
    .arg(from(
        alloc,
        "First tick of the picture, 0 to 1099511627774. Default: 0",
    ))?
    .arg(only(
        alloc,
        "Names of the components to draw, separated by commas. Default: all",
    ))?
    .arg(figure(alloc))
}

/// `draw` with what is seen of a run.
fn seen_command<'a>(alloc: Global) -> Result<Command<'a>, AllocError>
    ensures { IfOk result (IsCommand seen_app) }
{
    shown_command(alloc)?
        .arg(width(alloc))?
        .arg(marks(alloc))?
        .arg(courses(alloc))
}

fn draw_command<'a>(alloc: Global) -> Result<Command<'a>, AllocError>
    ensures { IfOk result (IsCommand draw_app) }
{
    let seen = seen_command(alloc)?;
    cancelled_command(seen, alloc)
}

/// A command with a subcommand more, where memory sufficed for it.
fn with_made<'a>(
    command: Command<'a>,
    made: Result<Command<'a>, AllocError>,
) -> Result<Command<'a>, AllocError>
    ensures { IfOk result (IsJoined command.entry made.entry) }
{
    command.subcommand(made?)
}

/// The program with the subcommands that simulate no network of a file.
fn first_commands<'a>(alloc: Global) -> Result<Command<'a>, AllocError>
    ensures { IfOk result (IsCommand first_app) }
{
    let first = Command::new(alloc, "twarp")
        .version(VERSION)
        .about("Simulate networks of Parallel DEVS models")
        .after_help(TWARP_END)
        .subcommand_required(true)
        .subcommand(demo_command(alloc))?;
    let second = with_made(first, check_command(alloc))?;
    with_made(second, dot_command(alloc))
}

/// The program with the subcommands that tell of the sequential run.
fn alone_commands<'a>(alloc: Global) -> Result<Command<'a>, AllocError>
    ensures { IfOk result (IsCommand alone_app) }
{
    let first = first_commands(alloc)?;
    let second = with_made(first, seq_command(alloc))?;
    let third = with_made(second, stats_command(alloc))?;
    with_made(third, table_command(alloc))
}

/// The whole command.
pub(crate) fn command<'a>(alloc: Global) -> Result<Command<'a>, AllocError>
    ensures { IfOk result (λ c. app_of c ≡ twarp_app) }
{
    let first = alone_commands(alloc)?;
    let second = with_made(first, draw_command(alloc))?;
    let third = with_made(second, run_command(alloc))?;
    with_made(third, play_command(alloc))
}
