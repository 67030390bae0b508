//! The lines of a trace that are gathered until they are written.

ghost use Rattle.std.specs.Prelude.{◌≡◌, ◌++◌, [], ℕ, List};
ghost use Rattle.tw_texts.specs.Texts.{record_line};

use std::alloc::{AllocError, Global};
use tw_listen::{Counting, Reached};
use tw_msgs::{Bag, RecordKind};
use tw_rounds::Receiver;
use tw_texts::{Lines, Names};
use tw_vtime::Stamp;

/// Lines with names of components, and how far their run is.
#[derive(Drop)]
pub struct TraceLines<'a, N: Names> {
    names: &'a N,
    pub(crate) lines: Lines,
    reached: Reached,
}

impl<'a, N: Names> TraceLines<'a, N> {
    /// No lines.
    pub(crate) fn new(alloc: Global, names: &'a N) -> TraceLines<'a, N>
        ensures names { result.names.now ≡ names.now }
        ensures none { result.lines.text ≡ [] }
    {
        TraceLines {
            names,
            lines: Lines::new(alloc),
            reached: Reached::nothing(),
        }
    }

    /// The lines alone.
    pub(crate) fn into_lines(self) -> Lines
        ensures { result ≡ self.entry.lines }
    {
        let TraceLines { lines, .. } = self;
        lines
    }
}

/// Adds the line of each record.
impl<N: Names> Receiver for TraceLines<'_, N> {
    ghost takes = { λ old r new. (new.names.now ≡ old.names.now)
        × (new.lines.text ≡ old.lines.text ++ record_line (N.name_of old.names.now r.component) r) };

    fn take(
        &mut self,
        component: usize,
        stamp: Stamp,
        kind: RecordKind,
        bag: &Bag,
        words: &[i128],
    ) -> Result<(), AllocError> {
        self.reached.add(stamp);
        let name = self.names.name(component);
        self.lines.add(name, stamp, kind, bag.as_slice(), words)
    }
}

impl<N: Names> Counting for TraceLines<'_, N> {
    fn reached(&self) -> Reached {
        self.reached
    }
}
