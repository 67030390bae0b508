//! The lines of a table that are gathered until they are written.

ghost use Rattle.std.specs.Prelude.{◌≡◌, ◌++◌, ◌∷◌, [], IfOk, OnOk, map};
ghost use Rattle.tw_record_lines.specs.Fields.{field};
ghost use Rattle.tw_record_lines.specs.Tables.{head_text, listed, rows_text};
ghost use Rattle.tw_vtime.specs.Stamps.{tick_of};

use crate::fields::Column;
use crate::rows::{Cells, add_each_item, add_each_word, add_head, add_record};
use std::alloc::{AllocError, Global};
use tw_figures::{Rows, is_shown};
use tw_listen::{Counting, Reached};
use tw_msgs::{Bag, Record, RecordKind};
use tw_rounds::Receiver;
use tw_texts::{Lines, Names};
use tw_vtime::Stamp;

/// A table: what its lines are of, the fields of an item's value, the names of the components, which of them are shown, and from which
/// tick on it has records.
#[derive(Drop)]
pub struct Table<'a, N: Names> {
    /// What a line is of.
    pub rows: Rows,
    /// The fields of an item's value, each with a column where a line is of an item.
    pub fields: &'a [Column<'a>],
    /// The names.
    pub names: &'a N,
    /// Whether each component is shown, in their order.
    pub shown: &'a [bool],
    /// The tick from which on it has records.
    pub from: u64,
}

/// The first line of a table. Refused for want of memory (4).
pub(crate) fn head_of<N: Names>(alloc: Global, table: &Table<'_, N>) -> Result<Lines, AllocError>
    ensures { IfOk result
        (λ lines. lines.text ≡ head_text table.now.rows (map field table.now.fields.now)) }
{
    let mut lines = Lines::new(alloc);
    add_head(&mut lines, table.rows, table.fields)?;
    Ok(lines)
}

/// Lines with names of components, gathered until they are written, and how far their run is.
#[derive(Drop)]
pub struct TableLines<'a, N: Names> {
    names: &'a N,
    rows: Rows,
    fields: &'a [Column<'a>],
    shown: &'a [bool],
    from: u64,
    pub(crate) lines: Lines,
    // Room in which a line is made.
    room: Vec<u8>,
    reached: Reached,
}

impl<'a, N: Names> TableLines<'a, N> {
    /// These lines, to which lines of a table are added.
    pub(crate) fn new(alloc: Global, table: &Table<'a, N>, lines: Lines) -> TableLines<'a, N>
        ensures names { result.names.now ≡ table.now.names.now }
        ensures rows { result.rows ≡ table.now.rows }
        ensures fields { result.fields.now ≡ table.now.fields.now }
        ensures shown { result.shown.now ≡ table.now.shown.now }
        ensures from { result.from ≡ table.now.from }
        ensures lines { result.lines ≡ lines }
    {
        TableLines {
            names: table.names,
            rows: table.rows,
            fields: table.fields,
            shown: table.shown,
            from: table.from,
            lines,
            room: Vec::new(alloc),
            reached: Reached::nothing(),
        }
    }

    /// The lines alone.
    pub(crate) fn into_lines(self) -> Lines
        ensures { result ≡ self.entry.lines }
    {
        let TableLines { lines, .. } = self;
        lines
    }

    /// Adds the lines of a record, where it is of a component that is shown and not before the table's first tick. `words` is room.
    /// Refused for want of memory (4).
    pub(crate) fn take_record(
        &mut self,
        step: &Record,
        words: &mut Vec<i128>,
    ) -> Result<(), AllocError>
        ensures names { OnOk result (self.new.names.now ≡ self.old.names.now) }
        ensures rows { OnOk result (self.new.rows ≡ self.old.rows) }
        ensures fields { OnOk result (self.new.fields.now ≡ self.old.fields.now) }
        ensures shown { OnOk result (self.new.shown.now ≡ self.old.shown.now) }
        ensures from { OnOk result (self.new.from ≡ self.old.from) }
        ensures lines { let name_of = N.name_of self.old.names.now in
            OnOk result (self.new.lines.text ≡ self.old.lines.text
            ++ rows_text self.old.rows (map field self.old.fields.now) name_of
            (listed self.old.shown.now self.old.from (step.now ∷ []))) }
    {
        words.clear();
        step.words.append_to(words)?;
        self.take(
            step.component,
            step.stamp,
            step.kind,
            &step.bag,
            words.as_slice(),
        )
    }
}

/// Adds the lines of each record of a component that is shown and that is not before the table's first tick.
impl<N: Names> Receiver for TableLines<'_, N> {
    ghost takes = { λ old r new. (new.names.now ≡ old.names.now) × (new.rows ≡ old.rows)
        × (new.fields.now ≡ old.fields.now)
        × (new.shown.now ≡ old.shown.now) × (new.from ≡ old.from)
        × (new.lines.text ≡ old.lines.text
        ++ rows_text old.rows (map field old.fields.now) (N.name_of old.names.now)
        (listed old.shown.now old.from (r ∷ []))) };

    fn take(
        &mut self,
        component: usize,
        stamp: Stamp,
        kind: RecordKind,
        bag: &Bag,
        words: &[i128],
    ) -> Result<(), AllocError> {
        self.reached.add(stamp);
        if tick(stamp) < self.from || !is_shown(self.shown, component) {
            return Ok(());
        }
        let cells = Cells {
            name: self.names.name(component),
            at: stamp,
            kind,
        };
        let lines = &mut self.lines;
        let room = &mut self.room;
        match self.rows {
            Rows::Records => add_record(lines, room, &cells, bag.as_slice(), words),
            Rows::Items => add_each_item(lines, room, &cells, self.fields, bag.as_slice()),
            Rows::Words => add_each_word(lines, room, &cells, words),
        }
    }
}

/// The tick of a stamp. Of the end it is behind those of all others.
pub(crate) fn tick(stamp: Stamp) -> u64
    ensures { result ≡ tick_of stamp }
{
    stamp.pack() / 16_777_216
}

impl<N: Names> Counting for TableLines<'_, N> {
    fn reached(&self) -> Reached {
        self.reached
    }
}
