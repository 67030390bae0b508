//! What a machine shows.
ghost use Rattle.std.specs.Prelude.{◌≡◌, [], Ok, IfOk, map};
ghost use Rattle.std.specs.List.{list_any};
ghost use Rattle.serde_json.specs.View.{view, items_view};
ghost use Rattle.tw_machine_text.specs.Views.{tree as spelled};
ghost use Rattle.tw_machine_declaration.specs.Seen.{value};
ghost use Rattle.tw_machine_file.specs.Answers.{Gives, FailsBy, data_of};
ghost use Rattle.tw_machine_file.specs.Texts.{language_of};
ghost use Rattle.tw_machine_file.specs.Words.{
  is_again,
  is_same_number,
  is_same_tree,
  some_words,
  word_of,
  words_in,
  words_of,
};

use crate::fault::{MachineFault, Part, Why};
use crate::texts::{Language, kinds_in, value_in};
use crate::values::{is_long, items_of};
use serde_json::Value;
use std::alloc::Global;
use tw_machine::limits::MAX_WORDS;
use tw_machine_compiler::Value as Said;
use tw_machine_text::{Meaning, Member, SourceExpr, is_shown};

/// Whether two indices are one number.
fn is_same_number(a: &SourceExpr, b: &SourceExpr) -> bool
    ensures { result ≡ is_same_number (spelled a.now) (spelled b.now) }
{
    match a {
        SourceExpr::Number(i) => match b {
            SourceExpr::Number(j) => *i == *j,
            _ => false,
        },
        _ => false,
    }
}

/// Whether two trees are one name, or one name with one number.
fn is_same_tree(a: &SourceExpr, b: &SourceExpr) -> bool
    ensures { result ≡ is_same_tree (spelled a.now) (spelled b.now) }
{
    match a {
        SourceExpr::Name(a) => match b {
            SourceExpr::Name(b) => *a == *b,
            _ => false,
        },
        SourceExpr::Indexed(a, i) => match b {
            SourceExpr::Indexed(b, j) => *a == *b && is_same_number(i, j),
            _ => false,
        },
        _ => false,
    }
}

/// Whether a queue, an array register or an observation is that of another word.
fn is_again(kinds: &[Meaning], a: &Said, b: &Said) -> bool
    ensures { result ≡ is_again kinds.now (value a.now) (value b.now) }
{
    match a {
        Said::Text(a) => match b {
            Said::Text(b) => is_shown(kinds, a) && is_same_tree(a, b),
            _ => false,
        },
        _ => false,
    }
}

fn is_among_words(kinds: &[Meaning], word: &Said, before: &[Said]) -> bool
    ensures { result ≡ list_any (is_again kinds.now (value word.now)) (map value before.now) }
{
    for other in before {
        if is_again(kinds, word, other) {
            return true;
        }
    }
    false
}

/// A word that shows no queue and no array register again.
fn word_of(
    alloc: Global,
    language: &Language<'_>,
    kinds: &[Meaning],
    index: usize,
    before: &[Said],
    written: &Value,
) -> Result<Said, MachineFault>
    requires { kinds.now ≡ (language_of language.now).kinds }
    ensures ok { Gives result value (word_of (language_of language.now) index
        (map value before.now) (view written.now)) }
    ensures err { FailsBy result (word_of (language_of language.now) index (map value before.now)
        (view written.now)) }
{
    let word = value_in(alloc, language, Part::Word(index), Member::Shown, written)?;
    if is_among_words(kinds, &word, before) {
        return Err(MachineFault::Wrong(Part::Word(index), Why::Twice));
    }
    Ok(word)
}

#[tactic(auto, using(crate::proofs::Loops::behind_none, crate::proofs::Loops::behind_more))]
fn words_of(
    alloc: Global,
    language: &Language<'_>,
    values: &[Value],
) -> Result<Vec<Said>, MachineFault>
    ensures ok { Gives result
        (λ v. map value v.items) (words_of (language_of language.now) 0 []
        (items_view values.now)) }
    ensures err { FailsBy result (words_of (language_of language.now) 0 []
        (items_view values.now)) }
{
    let kinds = kinds_in(alloc, language)?;
    let mut words = Vec::new(alloc);
    for (index, value) in values.iter().enumerate() {
        let word = word_of(alloc, language, &kinds, index, words.as_slice(), value)?;
        words.push(word)?;
    }
    Ok(words)
}

/// An array of 1 to 64.
fn some_words(written: &Value) -> Result<&[Value], MachineFault>
    ensures ok { Gives result (λ vs. items_view vs.now) (some_words (view written.now)) }
    ensures err { FailsBy result (some_words (view written.now)) }
{
    let Some(values) = items_of(written) else {
        return Err(MachineFault::Wrong(Part::Words, Why::Shape));
    };
    if !is_long(MAX_WORDS, values) {
        return Err(MachineFault::Wrong(Part::Words, Why::Count));
    }
    Ok(values)
}

/// The member `words`, which must be there.
pub(crate) fn words_in(
    alloc: Global,
    language: &Language<'_>,
    member: Option<&Value>,
) -> Result<Vec<Said>, MachineFault>
    ensures ok { IfOk result
        (λ v. words_in (language_of language.now) (data_of member.entry) ≡ Ok (map value v.items)) }
    ensures err { FailsBy result (words_in (language_of language.now) (data_of member.entry)) }
{
    match member {
        Some(written) => words_of(alloc, language, some_words(written)?),
        None => Err(MachineFault::Wrong(Part::Words, Why::Missing)),
    }
}
