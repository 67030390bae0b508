//! The table of the figures of a run, written after each round.

ghost use Rattle.std.specs.Prelude.{◌≡◌, ◌≤◌, IfErr, OnOk};
ghost use Rattle.std.specs.Io.KnownBytes.{Appends};
ghost use Rattle.tw_figures.specs.Gathered.{start_words};
ghost use Rattle.tw_network.specs.Contents.{network_of};
ghost use Rattle.tw_record_lines.specs.FigureTables.{figures_text, table_of};
ghost use Rattle.tw_texts.specs.Traces.{AppendsBeginning};
ghost use Rattle.tw_theory.specs.Simulator.{sequential};
ghost use Rattle.tw_vtime.specs.Stamps.{max_tick};

use crate::figure_lines::{FigureLines, FigureTable};
use std::alloc::Global;
use std::io::Write;
use tw_atomic::Atomic;
use tw_listen::{Listener, Reached};
use tw_network::Network;
use tw_rounds::{Advanced, advance, begin};
use tw_texts::{Names, NotWritten, write_out, write_portion};

/// Simulates a network up to the end tick `until`, and writes this table of the figures of those components that it shows: first
/// all, with the values with which they come to its first tick, and then each that changed with a transition from there on. It writes
/// after each round, in portions of about 65,536 bytes, and keeps the records of one round, one portion, and a value of each figure.
/// After each round the listener hears how far the run is.
///
/// Refused by [`NotWritten::OutOfMemory`] (4), and the writer then has got a beginning of the table; by
/// [`NotWritten::WriteFailed`] (24) where the writer failed, and then only the writer knows what it took.
pub fn write_figures<M: Atomic, N: Names, L: Listener, W: Write>(
    alloc: Global,
    network: &Network<M>,
    until: u64,
    table: &FigureTable<'_, N>,
    listener: &mut L,
    out: &mut W,
) -> Result<(), NotWritten>
    requires { until ≤ max_tick }
    ensures ok { let net = network_of M.meaning network.now in
        let t = table_of (N.name_of table.now.names.now) table.now.labels.now
        table.now.shown.now table.now.from in
        OnOk result (Appends (W.contents out.old) (W.contents out.new)
        (figures_text t (start_words net) (sequential net until).records)) }
    ensures err { let net = network_of M.meaning network.now in
        let t = table_of (N.name_of table.now.names.now) table.now.labels.now
        table.now.shown.now table.now.from in
        IfErr result (λ e. e ≡ NotWritten.OutOfMemory
        → AppendsBeginning (W.contents out.old) (W.contents out.new)
        (figures_text t (start_words net) (sequential net until).records)) }
{
    network.facts();
    let Ok(mut simulation) = begin(alloc, network, until) else {
        return Err(NotWritten::OutOfMemory);
    };
    let Ok(mut lines) = FigureLines::new(alloc, network, table) else {
        return Err(NotWritten::OutOfMemory);
    };
    let mut outputs = Vec::new(alloc);
    let mut transitions = Vec::new(alloc);
    // All records, also those of which nothing is written.
    let mut seen: u64 = 0;
    loop {
        let Ok(step) = advance(
            alloc,
            network,
            &mut simulation,
            &mut outputs,
            &mut transitions,
        ) else {
            return Err(NotWritten::OutOfMemory);
        };
        match step {
            Advanced::Round => {
                let Ok(()) = outputs.append(&mut transitions) else {
                    return Err(NotWritten::OutOfMemory);
                };
                let Ok(()) = lines.take_all(alloc, table, outputs.as_slice()) else {
                    return Err(NotWritten::OutOfMemory);
                };
                seen = seen.saturating_add(outputs.len() as u64);
                listener.hear(Reached::after(outputs.as_slice(), seen));
                outputs.clear();
                write_portion(&mut lines.text, out)?;
            }
            Advanced::End(_) => {
                let Ok(()) = lines.take_all(alloc, table, outputs.as_slice()) else {
                    return Err(NotWritten::OutOfMemory);
                };
                let Ok(()) = lines.open(alloc, table) else {
                    return Err(NotWritten::OutOfMemory);
                };
                return write_out(&mut lines.text, out);
            }
        }
    }
}
