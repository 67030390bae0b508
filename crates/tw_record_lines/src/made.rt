//! The table of a run that is made already, of its records or of its figures.

ghost use Rattle.std.specs.Prelude.{◌≡◌, OnOk, IfErr, map};
ghost use Rattle.std.specs.Io.KnownBytes.{Appends};
ghost use Rattle.tw_figures.specs.Figures.{IsSteady};
ghost use Rattle.tw_figures.specs.Gathered.{start_words};
ghost use Rattle.tw_network.specs.Contents.{network_of};
ghost use Rattle.tw_record_lines.specs.Fields.{field};
ghost use Rattle.tw_record_lines.specs.FigureTables.{figures_text, table_of};
ghost use Rattle.tw_record_lines.specs.Tables.{listed, table_text};
ghost use Rattle.tw_texts.specs.Traces.{AppendsBeginning};

use crate::figure_lines::{FigureLines, FigureTable};
use crate::table_lines::{Table, TableLines, head_of};
use std::alloc::Global;
use std::io::Write;
use tw_atomic::Atomic;
use tw_msgs::Record;
use tw_network::Network;
use tw_texts::{Names, NotWritten, write_out, write_portion};

/// Writes this table of records that are there, of those components that it shows and from its first tick on, in portions of about
/// 65,536 bytes.
///
/// Refused by [`NotWritten::OutOfMemory`] (4), and the writer then has got a beginning of the table; by
/// [`NotWritten::WriteFailed`] (24) where the writer failed, and then only the writer knows what it took.
pub fn write_table_of<N: Names, W: Write>(
    alloc: Global,
    records: &[Record],
    table: &Table<'_, N>,
    out: &mut W,
) -> Result<(), NotWritten>
    ensures ok { let name_of = N.name_of table.now.names.now in
        OnOk result (Appends (W.contents out.old) (W.contents out.new)
        (table_text table.now.rows (map field table.now.fields.now) name_of
        (listed table.now.shown.now table.now.from records.now))) }
    ensures err { let name_of = N.name_of table.now.names.now in
        IfErr result (λ e. e ≡ NotWritten.OutOfMemory
        → AppendsBeginning (W.contents out.old) (W.contents out.new)
        (table_text table.now.rows (map field table.now.fields.now) name_of
        (listed table.now.shown.now table.now.from records.now))) }
{
    let Ok(first) = head_of(alloc, table) else {
        return Err(NotWritten::OutOfMemory);
    };
    let mut lines = TableLines::new(alloc, table, first);
    let mut words = Vec::new(alloc);
    for record in records {
        let Ok(()) = lines.take_record(record, &mut words) else {
            return Err(NotWritten::OutOfMemory);
        };
        lines.lines.write_portion(out)?;
    }
    lines.lines.write_out(out)
}

/// Writes this table of the figures of a run that is made: first all, with the values with which they come to its first tick, and then
/// each that changed with a transition from there on. It writes in portions of about 65,536 bytes.
///
/// Refused by [`NotWritten::OutOfMemory`] (4), and the writer then has got a beginning of the table; by
/// [`NotWritten::WriteFailed`] (24) where the writer failed, and then only the writer knows what it took.
pub fn write_figures_of<M: Atomic, N: Names, W: Write>(
    alloc: Global,
    network: &Network<M>,
    records: &[Record],
    table: &FigureTable<'_, N>,
    out: &mut W,
) -> Result<(), NotWritten>
    requires { IsSteady records.now }
    ensures ok { let starts = start_words (network_of M.meaning network.now) in
        let t = table_of (N.name_of table.now.names.now) table.now.labels.now
        table.now.shown.now table.now.from in
        OnOk result (Appends (W.contents out.old) (W.contents out.new)
        (figures_text t starts records.now)) }
    ensures err { let starts = start_words (network_of M.meaning network.now) in
        let t = table_of (N.name_of table.now.names.now) table.now.labels.now
        table.now.shown.now table.now.from in
        IfErr result (λ e. e ≡ NotWritten.OutOfMemory
        → AppendsBeginning (W.contents out.old) (W.contents out.new)
        (figures_text t starts records.now)) }
{
    let Ok(mut lines) = FigureLines::new(alloc, network, table) else {
        return Err(NotWritten::OutOfMemory);
    };
    for record in records {
        let Ok(()) = lines.take(alloc, table, record) else {
            return Err(NotWritten::OutOfMemory);
        };
        write_portion(&mut lines.text, out)?;
    }
    let Ok(()) = lines.open(alloc, table) else {
        return Err(NotWritten::OutOfMemory);
    };
    write_out(&mut lines.text, out)
}
