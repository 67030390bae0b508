//! The views of a run that is made already, and a table that is held, of the generator and its tally.

use crate::tests::{COUNTED, GEN_TALLY, TwoNames, labels};
use crate::views::{CHANGES, Changing, counted};
use std::alloc::Global;
use std::process::Abort;
use tw_figures::Rows;
use tw_listen::Nobody;
use tw_models::Model;
use tw_network::Network;
use tw_record_lines::{FigureTable, Table, hold_table, write_figures_of, write_table_of};
use tw_seq::simulate;
use tw_stats::{Layout, MadeRun, report_of_made, write_report};

/// The table of all records.
fn records() -> Table<'static, TwoNames> {
    Table {
        rows: Rows::Records,
        fields: &[],
        names: &COUNTED.names,
        shown: &[true, true],
        from: 0,
    }
}

#[test]
fn tells_of_a_made_run(rt: HostRuntime) {
    let alloc = rt.alloc();
    let network = counted(&rt, alloc);
    let labels = labels(&rt, alloc, &network);
    assert!(rt; labels.len() == network.len());
    let labels = labels.as_slice();
    let seq = simulate(alloc, &network, 5).ok().expect(&rt, "a run");
    let run = MadeRun {
        records: seq.records.as_slice(),
        fault: seq.fault,
    };
    let report = report_of_made(alloc, &network, labels, None, 5, &run);
    let report = report.ok().expect(&rt, "a report");
    let layout = Layout {
        json: false,
        shown: &[true, true],
    };
    let mut out = Vec::new(alloc);
    let written = write_report(alloc, &report, &COUNTED.names, labels, &layout, &mut out);
    assert!(rt; written.is_ok());
    assert!(rt; out.as_slice() == GEN_TALLY.text.as_bytes());
}

#[test]
fn writes_the_table_of_a_made_run(rt: HostRuntime) {
    let alloc = rt.alloc();
    let network = counted(&rt, alloc);
    let seq = simulate(alloc, &network, 5).ok().expect(&rt, "a run");
    let mut out = Vec::new(alloc);
    let written = write_table_of(alloc, seq.records.as_slice(), &records(), &mut out);
    assert!(rt; written.is_ok());
    assert!(rt; out.as_slice() == GEN_TALLY.records.as_bytes());
}

/// Asserts the table of the changes of a run that is made.
fn assert_changes(rt: &impl Abort, alloc: Global, network: &Network<Model>, changing: &Changing) {
    network.facts();
    let labels = labels(rt, alloc, network);
    assert!(rt; network.len() == 2);
    let (first, second) = changing.shown;
    let table = FigureTable {
        names: &COUNTED.names,
        labels: labels.as_slice(),
        shown: &[first, second],
        from: changing.from,
    };
    let seq = simulate(alloc, network, 5).ok().expect(rt, "a run");
    let mut out = Vec::new(alloc);
    let written = write_figures_of(alloc, network, seq.records.as_slice(), &table, &mut out);
    assert!(rt; written.is_ok());
    assert!(rt; out.as_slice() == changing.wanted.as_bytes());
}

#[test]
fn lists_changes_of_a_made_run(rt: HostRuntime) {
    let network = counted(&rt, rt.alloc());
    for changing in &CHANGES {
        assert_changes(&rt, rt.alloc(), &network, changing);
    }
}

#[test]
fn holds_a_table(rt: HostRuntime) {
    let alloc = rt.alloc();
    let network = counted(&rt, alloc);
    let held = hold_table(alloc, &network, 5, &records(), &mut Nobody);
    let held = held.ok().expect(&rt, "a table");
    assert!(rt; held.fault.is_none());
    let mut lines = held.lines.expect(&rt, "lines");
    let mut out = Vec::new(alloc);
    assert!(rt; lines.write_out(&mut out).is_ok());
    assert!(rt; out.as_slice() == GEN_TALLY.records.as_bytes());
}
