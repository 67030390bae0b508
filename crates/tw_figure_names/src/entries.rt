//! The entries of a machine's `words`: what each is called, and what it shows.

ghost use Rattle.std.specs.Prelude.{◌≡◌, IfOk, map};
ghost use Rattle.serde_json.specs.View.{view, items_view};
ghost use Rattle.tw_machine_text.specs.Views.{tree};
ghost use Rattle.tw_machine_declaration.specs.Seen.{value};
ghost use Rattle.tw_figure_names.specs.Entries.{
  entries_of,
  shown_by,
  shown_indexed,
  shown_plain,
  shown_tree,
};
ghost use Rattle.tw_figure_names.specs.EntryViews.{entry};
ghost use Rattle.tw_figure_names.specs.Texts.{text_of};

use crate::texts::text_of;
use serde_json::Value;
use std::alloc::{AllocError, Global};
use tw_machine_declaration::{Standing, Value as Said, standing_at};
use tw_machine_text::SourceExpr;

/// What an entry of `words` shows.
#[derive(Clone, Copy, Debug, PartialEq, Eq)]
pub(crate) enum Shown {
    /// A number.
    Number,
    /// So many cells of an array register.
    Cells(u32),
    /// The three numbers of an observation.
    Observed,
    /// The values of a queue.
    Values,
}

/// An entry of `words`.
#[derive(Drop)]
pub(crate) struct Entry {
    /// What it is called.
    pub text: String,
    /// What it shows.
    pub shows: Shown,
}

/// What a name shows.
fn shown_plain(standing: Standing) -> Shown
    ensures { result ≡ shown_plain standing }
{
    match standing {
        Standing::Cells(span) => Shown::Cells(span.count),
        Standing::Observation(_) => Shown::Observed,
        Standing::Queue(..) => Shown::Values,
        _ => Shown::Number,
    }
}

/// What a name with a number in brackets shows.
fn shown_indexed(standing: Standing) -> Shown
    ensures { result ≡ shown_indexed standing }
{
    match standing {
        Standing::Queues(..) => Shown::Values,
        _ => Shown::Number,
    }
}

/// What a text shows.
fn shown_tree(standings: &[Standing], text: &SourceExpr) -> Shown
    ensures { result ≡ shown_tree standings.now (tree text.now) }
{
    match text {
        SourceExpr::Name(name) => shown_plain(standing_at(standings, *name)),
        SourceExpr::Indexed(name, index) => match &**index {
            SourceExpr::Number(_) => shown_indexed(standing_at(standings, *name)),
            _ => Shown::Number,
        },
        _ => Shown::Number,
    }
}

/// What an entry shows, where names stand for these.
fn shown_by(standings: &[Standing], said: &Said) -> Shown
    ensures { result ≡ shown_by standings.now (value said.now) }
{
    match said {
        Said::Number(_) => Shown::Number,
        Said::Text(text) => shown_tree(standings, text),
    }
}

/// An entry, which this value says.
fn entry_of(
    alloc: Global,
    standings: &[Standing],
    said: &Said,
    written: &Value,
) -> Result<Entry, AllocError>
    ensures { IfOk result
        (λ e. entry e ≡ (text_of (view written.now), shown_by standings.now (value said.now))) }
{
    Ok(Entry {
        text: text_of(alloc, written)?,
        shows: shown_by(standings, said),
    })
}

/// The entries of these expressions, which these values say.
pub(crate) fn entries_of(
    alloc: Global,
    standings: &[Standing],
    words: &[Said],
    values: &[Value],
) -> Result<Vec<Entry>, AllocError>
    ensures { IfOk result (λ entries. map entry entries.items
        ≡ entries_of standings.now (map value words.now) (items_view values.now)) }
{
    let mut entries = Vec::new(alloc);
    for (index, said) in words.iter().enumerate() {
        let Some(written) = values.get(index) else {
            return Ok(entries);
        };
        entries.push(entry_of(alloc, standings, said, written)?)?;
    }
    Ok(entries)
}
