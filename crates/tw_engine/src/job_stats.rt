//! The job `stats`: counts, figures and observations of a run, in order or by workers.

ghost use Rattle.std.specs.Prelude.{◌≡◌, ◌≤◌, Some, map};
ghost use Rattle.serde_json.specs.View.{view};
ghost use Rattle.tw_any_model.specs.AnyModel.{any_meaning};
ghost use Rattle.tw_figure_names.specs.Said.{labels_said};
ghost use Rattle.tw_engine.specs.Views.{IsReportWritten, IsSummed, IsSummedByWorkers, IsSummedOf, summary_of};
ghost use Rattle.tw_figures.specs.Labelled.{label};
ghost use Rattle.tw_figures.specs.Shown.{shown_of};
ghost use Rattle.tw_network.specs.Contents.{network_of};
ghost use Rattle.tw_stats.specs.Gathering.{BeforeEnd, IsMade};
ghost use Rattle.tw_theory.specs.Simulator.{sequential};
ghost use Rattle.tw_vtime.specs.Stamps.{max_tick};

use crate::choosing::workers_of;
use crate::failed::Failed;
use crate::faults::fault_line;
use crate::job_run::{FileRun, Plan, make};
use crate::names::NetworkNames;
use crate::reading::{NetworkFile, file_in};
use crate::shown::shown_in;
use crate::telling::Teller;
use std::alloc::Global;
use std::io::Write;
use std::sync::Wait;
use std::thread::Threads;
use std::time::Clock;
use tw_any_model::AnyModel;
use tw_cli::ByWorkers;
use tw_figure_names::labels_in;
use tw_figures::Labels;
use tw_listen::Listener;
use tw_network::Network;
use tw_stats::{Layout, MadeRun, Report, report_of, report_of_made, write_report};
use tw_vtime::Refusal;

/// What is told of a run, and how.
#[derive(Clone, Copy, Debug, PartialEq, Eq)]
pub struct Summary<'a> {
    /// The names of the components that are shown, parted by commas; all of them where there is none.
    pub only: Option<&'a str>,
    /// The tick from which on it is told, 0 to 1,099,511,627,774; of the whole run where there is none.
    pub from: Option<u64>,
    /// The end tick.
    pub until: u64,
    /// Whether it is written as a line of JSON, in place of tables.
    pub json: bool,
}

/// Does the job `stats` of [`alone`](crate::alone) on a file's bytes, and answers the line of the run's fault, if it ends in one. After
/// each round the listener hears how far the run is. It takes no handle, and so it returns.
///
/// It fails as the table of [`alone`](crate::alone) says.
pub fn stats<L: Listener, W: Write>(
    alloc: Global,
    bytes: &[u8],
    summary: &Summary<'_>,
    listener: &mut L,
    out: &mut W,
) -> Result<Option<String>, Failed>
    ensures { IsSummed bytes.now (summary_of summary.now) result
        (W.contents out.old) (W.contents out.new) }
{
    let file = file_in(alloc, bytes)?;
    let shown = shown_in(alloc, &file.network, summary.only)?;
    sum_up(alloc, &file, shown.as_slice(), summary, listener, out)
}

/// Writes the counts, the figures and the observations of a network's run, of the components that are shown, with the names that its
/// file has for them.
fn sum_up<L: Listener, W: Write>(
    alloc: Global,
    file: &NetworkFile,
    shown: &[bool],
    summary: &Summary<'_>,
    listener: &mut L,
    out: &mut W,
) -> Result<Option<String>, Failed>
    requires { shown_of file.now.network.names (summary_of summary.now).only ≡ Some shown.now }
    ensures { let n = file.now.network in
        IsSummedOf n (labels_said (view file.now.value) n.models) (summary_of summary.now)
        result (W.contents out.old) (W.contents out.new) }
{
    let network = &file.network;
    let labels = labels_in(alloc, &file.value, network)?;
    let labels = labels.as_slice();
    let report = match report_of(
        alloc,
        network,
        labels,
        summary.from,
        summary.until,
        listener,
    ) {
        Ok(report) => report,
        Err(why) => return Err(Failed::from(Refusal::from(why))),
    };
    let layout = Layout {
        json: summary.json,
        shown,
    };
    write_up(alloc, network, labels, &layout, &report, out)
}

/// Writes a report of a network's run, and answers the line of the run's fault, if it ends in one.
fn write_up<W: Write>(
    alloc: Global,
    network: &Network<AnyModel>,
    labels: &[Labels],
    layout: &Layout<'_>,
    report: &Report,
    out: &mut W,
) -> Result<Option<String>, Failed>
    requires { BeforeEnd report.now.fault }
    ensures { let said = map label labels.now in
        IsReportWritten network.now said layout.now.shown.now layout.now.json report.now
        result (W.contents out.old) (W.contents out.new) }
{
    let line = fault_line(alloc, network, report.fault)?;
    let names = NetworkNames { network };
    match write_report(alloc, report, &names, labels, layout, out) {
        Ok(()) => Ok(line),
        Err(why) => Err(Failed::from(why)),
    }
}

/// Does the job `stats` of [`engine`](crate::engine) on a file's bytes by workers, and answers the line of the run's fault, if it ends in
/// one.
///
/// It fails as the table of [`engine`](crate::engine) says.
pub(crate) fn stats_by_workers<R: Threads + Wait + Clock + Eprint + Sync, W: Write>(
    rt: &R,
    alloc: Global,
    bytes: &[u8],
    summary: &Summary<'_>,
    by: ByWorkers,
    out: &mut W,
) -> Result<Option<String>, Failed>
    ensures { IsSummedByWorkers bytes.now by.cancel (summary_of summary.now) result
        (W.contents out.old) (W.contents out.new) }
{
    let file = file_in(alloc, bytes)?;
    let shown = shown_in(alloc, &file.network, summary.only)?;
    let shown = shown.as_slice();
    let plan = Plan {
        until: summary.until,
        cancel: by.cancel,
        options: by.setting,
    };
    match workers_of(rt, alloc, &file.network, plan.until, plan.options) {
        Some(workers) => {
            let NetworkFile { value, network } = file;
            let made = make(rt, alloc, network, plan, workers)?;
            let run = MadeRun {
                records: made.records.as_slice(),
                fault: made.fault,
            };
            let made = FileRun {
                value: &value,
                network: &made.network,
                run,
            };
            sum_up_made(alloc, &made, shown, summary, out)
        }
        None => {
            let mut teller = Teller::new(rt, plan.until, plan.options.progress);
            sum_up(alloc, &file, shown, summary, &mut teller, out)
        }
    }
}

/// Writes the counts, the figures and the observations of a run that is made, of the components that are shown, with the names that its
/// network's file has for them.
fn sum_up_made<W: Write>(
    alloc: Global,
    made: &FileRun<'_>,
    shown: &[bool],
    summary: &Summary<'_>,
    out: &mut W,
) -> Result<Option<String>, Failed>
    requires shown { let n = made.now.network.now in
        shown_of n.names (summary_of summary.now).only ≡ Some shown.now }
    requires small { summary.now.until ≤ max_tick }
    requires made { let net = network_of any_meaning made.now.network.now in
        IsMade (sequential net summary.now.until) made.now.run }
    ensures { let n = made.now.network.now in
        IsSummedOf n (labels_said (view made.now.value.now) n.models) (summary_of summary.now)
        result (W.contents out.old) (W.contents out.new) }
{
    let FileRun { value, network, .. } = *made;
    let run = &made.run;
    let labels = labels_in(alloc, value, network)?;
    let labels = labels.as_slice();
    let report = report_of_made(alloc, network, labels, summary.from, summary.until, run)?;
    let layout = Layout {
        json: summary.json,
        shown,
    };
    write_up(alloc, network, labels, &layout, &report, out)
}
