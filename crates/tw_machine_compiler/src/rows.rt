//! The rows among the words of a machine: no queue, no array register and no observation stands there twice.
ghost use Rattle.std.specs.Prelude.{◌≡◌, map};
ghost use Rattle.tw_machine_text.specs.Views.{tree};
ghost use Rattle.tw_machine_declaration.specs.Seen as plain;
ghost use Rattle.tw_machine_compiler.specs.Rows.{
  which,
  row_named,
  row_numbered,
  row_of,
  shown_row,
  rows,
  among,
  twice,
};

use tw_machine::language::Span;
use tw_machine_declaration::{Standing, Value, standing_at};
use tw_machine_text::SourceExpr;

/// A queue, an array register or an observation that is shown: its name, and which it is of an array of queues.
#[derive(Clone, Copy, PartialEq, Eq)]
pub(crate) struct Row {
    pub name: usize,
    pub index: u64,
}

/// Which queue of an array a number says.
fn which(span: Span, index: u64) -> u64
    ensures { result ≡ which span index }
{
    if span.count == 0 {
        index
    } else {
        index.min(span.count as u64 - 1)
    }
}

/// The row of this name.
fn row_named(name: usize, standing: Standing) -> Option<Row>
    ensures { result ≡ row_named name standing }
{
    match standing {
        Standing::Queue(_, _) | Standing::Cells(_) | Standing::Observation(_) => {
            Some(Row { name, index: 0 })
        }
        _ => None,
    }
}

/// The row of this name and number.
fn row_numbered(name: usize, index: u64, standing: Standing) -> Option<Row>
    ensures { result ≡ row_numbered name index standing }
{
    match standing {
        Standing::Queues(span, _) => Some(Row {
            name,
            index: which(span, index),
        }),
        _ => None,
    }
}

/// The row that a text in `words` is; an expression is none.
fn row_of(standings: &[Standing], written: &SourceExpr) -> Option<Row>
    ensures { result ≡ row_of standings.now (tree written.now) }
{
    match written {
        SourceExpr::Name(name) => row_named(*name, standing_at(standings, *name)),
        SourceExpr::Indexed(name, index) => match &**index {
            SourceExpr::Number(index) => row_numbered(*name, *index, standing_at(standings, *name)),
            _ => None,
        },
        _ => None,
    }
}

/// The row that an entry of `words` is.
fn shown_row(standings: &[Standing], written: &Value) -> Option<Row>
    ensures { result ≡ shown_row standings.now (plain.value written.now) }
{
    match written {
        Value::Number(_) => None,
        Value::Text(tree) => row_of(standings, tree),
    }
}

/// Whether a row stands among these words.
fn among(standings: &[Standing], one: Row, words: &[Value]) -> bool
    ensures { result ≡ among one (rows standings.now (map plain.value words.now)) }
{
    for word in words {
        if let Some(other) = shown_row(standings, word) {
            if one == other {
                return true;
            }
        }
    }
    false
}

/// Whether a row stands twice among the words.
pub(crate) fn twice(standings: &[Standing], words: &[Value]) -> bool
    ensures { result ≡ twice (rows standings.now (map plain.value words.now)) }
{
    let Some((first, rest)) = words.split_first() else {
        return false;
    };
    match shown_row(standings, first) {
        Some(one) => among(standings, one, rest) || twice(standings, rest),
        None => twice(standings, rest),
    }
}
