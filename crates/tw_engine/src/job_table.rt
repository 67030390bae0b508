//! The job `table`: the records of a run, or how its figures changed, as comma-separated values; in order or by workers.

ghost use Rattle.std.specs.Prelude.{◌≡◌, ◌≤◌, Bool, IfOk, IfSome, List, Some, map, ℕ};
ghost use Rattle.serde_json.specs.View.{view};
ghost use Rattle.tw_any_model.specs.AnyModel.{any_meaning};
ghost use Rattle.tw_engine.specs.Views.{IsListed, IsTableHeld, IsTableWritten, IsTabulated, IsTabulatedByWorkers, IsTabulatedOf, column, columns_said, figures_table, listing_text, run_table, table_with, tabulation_of};
ghost use Rattle.tw_figure_names.specs.Said.{labels_said};
ghost use Rattle.tw_figures.specs.Shown.{shown_of};
ghost use Rattle.tw_machine_file.specs.Shared.{file_field};
ghost use Rattle.tw_network.specs.Contents.{network_of};
ghost use Rattle.tw_record_lines.specs.Fields.{field};
ghost use Rattle.tw_stats.specs.Gathering.{IsMade};
ghost use Rattle.tw_theory.specs.Simulator.{sequential};
ghost use Rattle.tw_vtime.specs.Stamps.{max_tick};

use crate::choosing::workers_of;
use crate::failed::Failed;
use crate::faults::{fault_line, fault_of};
use crate::job_run::{FileRun, Plan, make};
use crate::names::NetworkNames;
use crate::reading::{NetworkFile, Run, file_in};
use crate::shown::shown_in;
use crate::telling::Teller;
use std::alloc::{AllocError, Global};
use std::io::Write;
use std::sync::Wait;
use std::thread::Threads;
use std::time::Clock;
use tw_actions::Fault;
use tw_cli::ByWorkers;
use tw_figure_names::labels_in;
use tw_figures::{Rows, Tabled};
use tw_listen::Listener;
use tw_machine_file::{FileField, fields_of};
use tw_record_lines::{
    Column, FigureTable, Held, Table, hold_table, write_figures, write_figures_of, write_table,
    write_table_of,
};
use tw_rounds::meets_no_limit;
use tw_stats::MadeRun;
use tw_texts::Lines;
use tw_vtime::MAX_TICK;

/// What of a run stands in a table.
#[derive(Clone, Copy, Debug, PartialEq, Eq)]
pub struct Tabulation<'a> {
    /// The names of the components that are shown, parted by commas; all of them where there is none.
    pub only: Option<&'a str>,
    /// The tick from which on it has lines, 0 to 1,099,511,627,774.
    pub from: u64,
    /// The end tick of the run.
    pub until: u64,
    /// What it is of.
    pub of: Tabled,
}

/// Does the job `table` of [`alone`](crate::alone) on a file's bytes, and answers the line of the run's fault, if it ends in one. After
/// each round the listener hears how far the run is. It takes no handle, and so it returns.
///
/// It fails as the table of [`alone`](crate::alone) says.
pub fn table<L: Listener, W: Write>(
    alloc: Global,
    bytes: &[u8],
    tabulation: &Tabulation<'_>,
    listener: &mut L,
    out: &mut W,
) -> Result<Option<String>, Failed>
    ensures { IsTabulated bytes.now (tabulation_of tabulation.now) result
        (W.contents out.old) (W.contents out.new) }
{
    let file = file_in(alloc, bytes)?;
    let shown = shown_in(alloc, &file.network, tabulation.only)?;
    let asked = Asked {
        tabulation,
        shown: shown.as_slice(),
    };
    tabulate_file(alloc, &file, &asked, listener, out)
}

/// What of a network's run stands in a table, and which components this shows.
#[derive(Clone, Copy)]
struct Asked<'a> {
    tabulation: &'a Tabulation<'a>,
    shown: &'a [bool],
}

/// A table of records: of which run, what its lines are of, the fields of an item's value, which components it shows, and from which tick on.
#[derive(Clone, Copy)]
pub(crate) struct Listing<'a> {
    pub(crate) run: Run<'a>,
    pub(crate) rows: Rows,
    pub(crate) fields: &'a [Column<'a>],
    pub(crate) shown: &'a [bool],
    pub(crate) from: u64,
}

/// The columns of a table of items for these fields.
fn columns_of<'a>(alloc: Global, fields: &'a [FileField]) -> Result<Vec<Column<'a>>, AllocError>
    ensures { IfOk result
        (λ columns. map field columns.items ≡ map column (map file_field fields.now)) }
{
    let mut columns = Vec::with_capacity(alloc, fields.len())?;
    for one in fields {
        columns.push(Column {
            name: one.name.as_str(),
            low: one.low,
            bits: one.bits,
        })?;
    }
    Ok(columns)
}

/// Writes the table of the records of a network's run, of the components that are shown, with the fields that its file says.
fn tabulate<L: Listener, W: Write>(
    alloc: Global,
    file: &NetworkFile,
    rows: Rows,
    asked: &Asked<'_>,
    listener: &mut L,
    out: &mut W,
) -> Result<Option<String>, Failed>
    requires { let t = tabulation_of asked.now.tabulation.now in
        shown_of file.now.network.names t.only ≡ Some asked.now.shown.now }
    ensures { let t = tabulation_of asked.now.tabulation.now in
        let n = file.now.network in
        let fields = columns_said (view file.now.value) in
        let written : List Bool → List ℕ = λ shown. run_table n rows fields shown t.from t.until in
        IsTabulatedOf n written t result (W.contents out.old) (W.contents out.new) }
{
    let fields = fields_of(alloc, &file.value)?;
    let columns = columns_of(alloc, fields.as_slice())?;
    let listing = Listing {
        run: Run {
            network: &file.network,
            until: asked.tabulation.until,
        },
        rows,
        fields: columns.as_slice(),
        shown: asked.shown,
        from: asked.tabulation.from,
    };
    list(alloc, &listing, listener, out)
}

/// Simulates a network in order, and writes a table of its records. Nothing is written before it is known how the run ends: where that is
/// not plain beforehand, the table is held as long as it is short; else the fault is worked out first, and the run is made twice.
fn list<L: Listener, W: Write>(
    alloc: Global,
    listing: &Listing<'_>,
    listener: &mut L,
    out: &mut W,
) -> Result<Option<String>, Failed>
    ensures { IsListed listing.now result (W.contents out.old) (W.contents out.new) }
{
    if let Some(held) = held_of(alloc, listing, listener) {
        let Held { fault, lines } = held;
        return match lines {
            Some(lines) => write_held(alloc, listing, fault, lines, out),
            None => write_streamed(alloc, listing, fault, listener, out),
        };
    }
    let fault = fault_of(alloc, &listing.run, listener)?;
    write_streamed(alloc, listing, fault, listener, out)
}

/// How a run ends, and a table of it if that was held; or none, where it is plain beforehand that no limit is met, where the end tick is
/// above the greatest one, or where memory was refused.
fn held_of<L: Listener>(alloc: Global, listing: &Listing<'_>, listener: &mut L) -> Option<Held>
    ensures small { IfSome result (λ _. listing.now.run.until ≤ max_tick) }
    ensures held { IfSome result (IsTableHeld listing.now) }
{
    let Run { network, until } = listing.run;
    if until > MAX_TICK || meets_no_limit(network, until) {
        return None;
    }
    let names = NetworkNames { network };
    let table = Table {
        rows: listing.rows,
        fields: listing.fields,
        names: &names,
        shown: listing.shown,
        from: listing.from,
    };
    hold_table(alloc, network, until, &table, listener).ok()
}

/// Writes a table that is held, of a run that ends in this fault or in none.
fn write_held<W: Write>(
    alloc: Global,
    listing: &Listing<'_>,
    fault: Option<Fault>,
    mut lines: Lines,
    out: &mut W,
) -> Result<Option<String>, Failed>
    requires { lines.text ≡ listing_text listing.now }
    ensures { IsTableWritten listing.now.run.network.now fault (listing_text listing.now)
        result (W.contents out.old) (W.contents out.new) }
{
    let line = fault_line(alloc, listing.run.network, fault)?;
    lines.write_out(out)?;
    Ok(line)
}

/// Writes a table of a run that ends in this fault or in none, as the run is made.
fn write_streamed<L: Listener, W: Write>(
    alloc: Global,
    listing: &Listing<'_>,
    fault: Option<Fault>,
    listener: &mut L,
    out: &mut W,
) -> Result<Option<String>, Failed>
    requires { listing.now.run.until ≤ max_tick }
    ensures { IsTableWritten listing.now.run.network.now fault (listing_text listing.now)
        result (W.contents out.old) (W.contents out.new) }
{
    let Run { network, until } = listing.run;
    let line = fault_line(alloc, network, fault)?;
    let names = NetworkNames { network };
    let table = Table {
        rows: listing.rows,
        fields: listing.fields,
        names: &names,
        shown: listing.shown,
        from: listing.from,
    };
    write_table(alloc, network, until, &table, listener, out)?;
    Ok(line)
}

/// Writes the table of the figures of a network's run, of the components that are shown, with the names that its file has for them. The
/// fault is worked out first.
fn tabulate_figures<L: Listener, W: Write>(
    alloc: Global,
    file: &NetworkFile,
    asked: &Asked<'_>,
    listener: &mut L,
    out: &mut W,
) -> Result<Option<String>, Failed>
    requires { let t = tabulation_of asked.now.tabulation.now in
        shown_of file.now.network.names t.only ≡ Some asked.now.shown.now }
    ensures { let t = tabulation_of asked.now.tabulation.now in
        let n = file.now.network in
        let labels = labels_said (view file.now.value) n.models in
        let written : List Bool → List ℕ = λ shown.
        figures_table n labels shown t.from t.until in
        IsTabulatedOf n written t result (W.contents out.old) (W.contents out.new) }
{
    let network = &file.network;
    let labels = labels_in(alloc, &file.value, network)?;
    let until = asked.tabulation.until;
    let run = Run { network, until };
    let fault = fault_of(alloc, &run, listener)?;
    let line = fault_line(alloc, network, fault)?;
    let names = NetworkNames { network };
    let table = FigureTable {
        names: &names,
        labels: labels.as_slice(),
        shown: asked.shown,
        from: asked.tabulation.from,
    };
    write_figures(alloc, network, until, &table, listener, out)?;
    Ok(line)
}

/// Does the job `table` of [`engine`](crate::engine) on a file's bytes by workers, and answers the line of the run's fault, if it ends in
/// one.
///
/// It fails as the table of [`engine`](crate::engine) says.
pub(crate) fn table_by_workers<R: Threads + Wait + Clock + Eprint + Sync, W: Write>(
    rt: &R,
    alloc: Global,
    bytes: &[u8],
    tabulation: &Tabulation<'_>,
    by: ByWorkers,
    out: &mut W,
) -> Result<Option<String>, Failed>
    ensures { IsTabulatedByWorkers bytes.now by.cancel (tabulation_of tabulation.now) result
        (W.contents out.old) (W.contents out.new) }
{
    let file = file_in(alloc, bytes)?;
    let shown = shown_in(alloc, &file.network, tabulation.only)?;
    let shown = shown.as_slice();
    let asked = Asked { tabulation, shown };
    let plan = Plan {
        until: tabulation.until,
        cancel: by.cancel,
        options: by.setting,
    };
    match workers_of(rt, alloc, &file.network, plan.until, plan.options) {
        Some(workers) => {
            let NetworkFile { value, network } = file;
            let made = make(rt, alloc, network, plan, workers)?;
            let run = MadeRun {
                records: made.records.as_slice(),
                fault: made.fault,
            };
            let made = FileRun {
                value: &value,
                network: &made.network,
                run,
            };
            tabulate_made(alloc, &made, &asked, out)
        }
        None => {
            let mut teller = Teller::new(rt, plan.until, plan.options.progress);
            tabulate_file(alloc, &file, &asked, &mut teller, out)
        }
    }
}

/// Writes the table of a network's run in order, of the components that are shown, with the names that its file has for its figures.
fn tabulate_file<L: Listener, W: Write>(
    alloc: Global,
    file: &NetworkFile,
    asked: &Asked<'_>,
    listener: &mut L,
    out: &mut W,
) -> Result<Option<String>, Failed>
    requires { let t = tabulation_of asked.now.tabulation.now in
        shown_of file.now.network.names t.only ≡ Some asked.now.shown.now }
    ensures { let t = tabulation_of asked.now.tabulation.now in
        let n = file.now.network in
        let fields = columns_said (view file.now.value) in
        IsTabulatedOf n (table_with n fields (labels_said (view file.now.value) n.models) t) t
        result (W.contents out.old) (W.contents out.new) }
{
    match asked.tabulation.of {
        Tabled::OfRun(rows) => tabulate(alloc, file, rows, asked, listener, out),
        Tabled::OfFigures => tabulate_figures(alloc, file, asked, listener, out),
    }
}

/// Writes the table of a run that is made, of the components that are shown, with the names that its network's file has for its figures.
fn tabulate_made<W: Write>(
    alloc: Global,
    made: &FileRun<'_>,
    asked: &Asked<'_>,
    out: &mut W,
) -> Result<Option<String>, Failed>
    requires shown { let t = tabulation_of asked.now.tabulation.now in
        shown_of made.now.network.now.names t.only ≡ Some asked.now.shown.now }
    requires small { asked.now.tabulation.now.until ≤ max_tick }
    requires made { let net = network_of any_meaning made.now.network.now in
        IsMade (sequential net asked.now.tabulation.now.until) made.now.run }
    ensures { let t = tabulation_of asked.now.tabulation.now in
        let n = made.now.network.now in
        let fields = columns_said (view made.now.value.now) in
        IsTabulatedOf n (table_with n fields (labels_said (view made.now.value.now) n.models) t) t
        result (W.contents out.old) (W.contents out.new) }
{
    match asked.tabulation.of {
        Tabled::OfRun(rows) => tabulate_made_rows(alloc, made, rows, asked, out),
        Tabled::OfFigures => tabulate_made_figures(alloc, made, asked, out),
    }
}

/// Writes the table of the records of a run that is made, of the components that are shown.
fn tabulate_made_rows<W: Write>(
    alloc: Global,
    made: &FileRun<'_>,
    rows: Rows,
    asked: &Asked<'_>,
    out: &mut W,
) -> Result<Option<String>, Failed>
    requires shown { let t = tabulation_of asked.now.tabulation.now in
        shown_of made.now.network.now.names t.only ≡ Some asked.now.shown.now }
    requires made { let net = network_of any_meaning made.now.network.now in
        IsMade (sequential net asked.now.tabulation.now.until) made.now.run }
    ensures { let t = tabulation_of asked.now.tabulation.now in
        let n = made.now.network.now in
        let fields = columns_said (view made.now.value.now) in
        let written : List Bool → List ℕ = λ shown. run_table n rows fields shown t.from t.until in
        IsTabulatedOf n written t result (W.contents out.old) (W.contents out.new) }
{
    let run = &made.run;
    let network = made.network;
    let fields = fields_of(alloc, made.value)?;
    let columns = columns_of(alloc, fields.as_slice())?;
    let line = fault_line(alloc, network, run.fault)?;
    let names = NetworkNames { network };
    let table = Table {
        rows,
        fields: columns.as_slice(),
        names: &names,
        shown: asked.shown,
        from: asked.tabulation.from,
    };
    write_table_of(alloc, run.records, &table, out)?;
    Ok(line)
}

/// Writes the table of the figures of a run that is made, of the components that are shown, with the names that its network's file has for them.
fn tabulate_made_figures<W: Write>(
    alloc: Global,
    made: &FileRun<'_>,
    asked: &Asked<'_>,
    out: &mut W,
) -> Result<Option<String>, Failed>
    requires shown { let t = tabulation_of asked.now.tabulation.now in
        shown_of made.now.network.now.names t.only ≡ Some asked.now.shown.now }
    requires small { asked.now.tabulation.now.until ≤ max_tick }
    requires made { let net = network_of any_meaning made.now.network.now in
        IsMade (sequential net asked.now.tabulation.now.until) made.now.run }
    ensures { let t = tabulation_of asked.now.tabulation.now in
        let n = made.now.network.now in
        let labels = labels_said (view made.now.value.now) n.models in
        let written : List Bool → List ℕ = λ shown.
        figures_table n labels shown t.from t.until in
        IsTabulatedOf n written t result (W.contents out.old) (W.contents out.new) }
{
    let FileRun { value, network, .. } = *made;
    let run = &made.run;
    network.facts();
    let labels = labels_in(alloc, value, network)?;
    let line = fault_line(alloc, network, run.fault)?;
    let names = NetworkNames { network };
    let table = FigureTable {
        names: &names,
        labels: labels.as_slice(),
        shown: asked.shown,
        from: asked.tabulation.from,
    };
    write_figures_of(alloc, network, run.records, &table, out)?;
    Ok(line)
}
