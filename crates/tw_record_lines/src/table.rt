//! The table of a run, written after each round.

ghost use Rattle.std.specs.Prelude.{◌≡◌, ◌≤◌, OnOk, IfErr, map};
ghost use Rattle.std.specs.Io.KnownBytes.{Appends};
ghost use Rattle.tw_network.specs.Contents.{network_of};
ghost use Rattle.tw_record_lines.specs.Fields.{field};
ghost use Rattle.tw_record_lines.specs.Tables.{listed, table_text};
ghost use Rattle.tw_texts.specs.Traces.{AppendsBeginning};
ghost use Rattle.tw_theory.specs.Simulator.{sequential};
ghost use Rattle.tw_vtime.specs.Stamps.{max_tick};

use crate::table_lines::{Table, TableLines, head_of};
use std::alloc::Global;
use std::io::Write;
use tw_atomic::Atomic;
use tw_listen::{Listener, advance_telling};
use tw_network::Network;
use tw_rounds::{Advanced, begin};
use tw_texts::{Lines, Names, NotWritten};

/// Simulates a network up to the end tick `until`, and writes this table of the records of those components that it shows, from
/// its first tick on: after each round, in portions of about 65,536 bytes. It keeps the lines of one round and one portion. After each round the listener
/// hears how far the run is.
///
/// Refused by [`NotWritten::OutOfMemory`] (4), and the writer then has got a beginning of the table; by
/// [`NotWritten::WriteFailed`] (24) where the writer failed, and then only the writer knows what it took.
pub fn write_table<M: Atomic, N: Names, L: Listener, W: Write>(
    alloc: Global,
    network: &Network<M>,
    until: u64,
    table: &Table<'_, N>,
    listener: &mut L,
    out: &mut W,
) -> Result<(), NotWritten>
    requires { until ≤ max_tick }
    ensures ok { let run = sequential (network_of M.meaning network.now) until in
        OnOk result (Appends (W.contents out.old) (W.contents out.new) (table_text table.now.rows
        (map field table.now.fields.now) (N.name_of table.now.names.now)
        (listed table.now.shown.now table.now.from run.records))) }
    ensures err { let run = sequential (network_of M.meaning network.now) until in
        IfErr result (λ e. e ≡ NotWritten.OutOfMemory
        → AppendsBeginning (W.contents out.old) (W.contents out.new) (table_text table.now.rows
        (map field table.now.fields.now) (N.name_of table.now.names.now)
        (listed table.now.shown.now table.now.from run.records))) }
{
    let Ok(mut simulation) = begin(alloc, network, until) else {
        return Err(NotWritten::OutOfMemory);
    };
    let Ok(first) = head_of(alloc, table) else {
        return Err(NotWritten::OutOfMemory);
    };
    let mut outputs = TableLines::new(alloc, table, first);
    let mut transitions = TableLines::new(alloc, table, Lines::new(alloc));
    loop {
        let Ok(step) = advance_telling(
            alloc,
            network,
            &mut simulation,
            &mut outputs,
            &mut transitions,
            listener,
        ) else {
            return Err(NotWritten::OutOfMemory);
        };
        match step {
            Advanced::Round => {
                let Ok(()) = outputs.lines.append(&mut transitions.lines) else {
                    return Err(NotWritten::OutOfMemory);
                };
                outputs.lines.write_portion(out)?;
            }
            Advanced::End(_) => return outputs.lines.write_out(out),
        }
    }
}
