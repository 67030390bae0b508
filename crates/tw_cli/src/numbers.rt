//! The network file of a line, and other numbers for it.

ghost use Rattle.std.specs.Prelude.{IfErr, IfNone, IfOk, IfSome};
ghost use Rattle.clap.specs.Words.{rows_of, found_of};
ghost use Rattle.tw_cli.specs.Lines.{FailsFor, IsNetIn};
ghost use Rattle.tw_cli.specs.Options.{IsReplicationIn, IsSettingsIn};

use crate::jobs::{NetSource, NoJob};
use crate::values::{has, number_in, text_in, texts_in};
use clap::ArgMatches;
use std::alloc::{AllocError, Global};
use tw_file_settings::{Settings, assignments_in};

/// The number of the replication among the options; 0 where it is left out.
fn replication_in(options: &ArgMatches<'_>) -> Option<u64>
    ensures some { IfSome result (IsReplicationIn (rows_of (found_of options.now))) }
    ensures none { IfNone result ((n : _) → ¬ (IsReplicationIn (rows_of (found_of options.now)) n)) }
{
    if !has(options, "seed-all") {
        return Some(0);
    }
    number_in(options, "seed-all", 0, u64::MAX)
}

/// What is changed in the network's file, among the options; none where a text says no assignment, or two set the same.
fn settings_in<'a>(
    alloc: Global,
    options: &ArgMatches<'a>,
) -> Result<Option<Settings<'a>>, AllocError>
    ensures some { IfOk result
        (λ o. IfSome o (IsSettingsIn (rows_of (found_of options.now)))) }
    ensures none { let rows = rows_of (found_of options.now) in
        IfOk result (λ o. IfNone o ((s : _) → ¬ (IsSettingsIn rows s))) }
{
    let Some(replication) = replication_in(options) else {
        return Ok(None);
    };
    let Some(assignments) = assignments_in(alloc, texts_in(options, "set").unwrap_or(&[]))? else {
        return Ok(None);
    };
    Ok(Some(Settings {
        assignments,
        replication,
    }))
}

/// The network file among the options, and what is changed in it.
pub(crate) fn net_in<'a>(alloc: Global, options: &ArgMatches<'a>) -> Result<NetSource<'a>, NoJob>
    ensures ok { IfOk result (IsNetIn (rows_of (found_of options.now))) }
    ensures err { let rows = rows_of (found_of options.now) in
        IfErr result (FailsFor ((net : _) → ¬ (IsNetIn rows net))) }
{
    let Some(path) = text_in(options, "net") else {
        return Err(NoJob::BadLine);
    };
    let Some(settings) = settings_in(alloc, options)? else {
        return Err(NoJob::BadLine);
    };
    Ok(NetSource { path, settings })
}
