//! What may be a name.
ghost use Rattle.std.specs.Prelude.{◌≡◌, map};
ghost use Rattle.std.specs.List.{list_all};
ghost use Rattle.tw_machine_text.specs.Text.{is_word, position};
ghost use Rattle.tw_machine_file.specs.Answers.{names_in};
ghost use Rattle.tw_machine_file.specs.Names.{
  is_among,
  is_letter,
  is_machine_name,
  is_name,
  is_own_name,
  is_taken,
  is_word_or_dash,
};

use tw_machine_text::{MAX_NAME, is_digit, is_reserved, is_word, same_text};
use tw_models::is_kind_name;

/// The members of a component that are no parameters.
const MEMBERS: [&[u8]; 4] = [b"name", b"model", b"components", b"couplings"];

/// The words that no name is in a machine with timers.
const TIMED_WORDS: [&[u8]; 4] = [b"which", b"start", b"stop", b"send"];

fn is_word_or_dash(c: u8) -> bool
    ensures { result ≡ is_word_or_dash c }
{
    is_word(c) || c == b'-'
}

/// Whether a text is one of these.
pub(crate) fn is_among(texts: &[&[u8]], text: &[u8]) -> bool
    ensures { result ≡ is_among (map (λ t. t.now) texts.now) text.now }
{
    for one in texts {
        if same_text(one, text) {
            return true;
        }
    }
    false
}

fn are_words(text: &[u8]) -> bool
    ensures { result ≡ list_all is_word text.now }
{
    for c in text {
        if !is_word(*c) {
            return false;
        }
    }
    true
}

fn are_words_or_dashes(text: &[u8]) -> bool
    ensures { result ≡ list_all is_word_or_dash text.now }
{
    for c in text {
        if !is_word_or_dash(*c) {
            return false;
        }
    }
    true
}

/// Whether it begins as a name.
fn is_letter(text: &[u8]) -> bool
    ensures { result ≡ is_letter text.now }
{
    match text {
        [] => false,
        [first, ..] => !is_digit(*first),
    }
}

/// Whether a text is a word of the language that no name may be, in a machine with timers or without.
fn is_taken(timed: bool, text: &[u8]) -> bool
    ensures { result ≡ is_taken timed text.now }
{
    is_reserved(text) || (timed && is_among(&TIMED_WORDS, text))
}

/// Whether it may be the name of a parameter, a register, a queue or a table of such a machine.
pub(crate) fn is_name(timed: bool, text: &[u8]) -> bool
    ensures { result ≡ is_name timed text.now }
{
    is_letter(text) && are_words(text) && text.len() <= MAX_NAME && !is_taken(timed, text)
}

/// Whether it may be the name of a parameter of such a machine.
pub(crate) fn is_own_name(timed: bool, text: &[u8]) -> bool
    ensures { result ≡ is_own_name timed text.now }
{
    is_name(timed, text) && !is_among(&MEMBERS, text)
}

/// Whether it may be the name of a machine.
pub(crate) fn is_machine_name(text: &[u8]) -> bool
    ensures { result ≡ is_machine_name text.now }
{
    text.len() >= 1 && text.len() <= MAX_NAME && are_words_or_dashes(text) && !is_kind_name(text)
}

/// Whether a text is one of these names.
pub(crate) fn is_named(names: &[String], text: &[u8]) -> bool
    ensures { result ≡ is_among (names_in names.now) text.now }
{
    for name in names {
        if same_text(name.as_bytes(), text) {
            return true;
        }
    }
    false
}

/// The place of a text among names.
pub(crate) fn place_in(names: &[String], text: &[u8]) -> Option<usize>
    ensures { result ≡ position 0 (names_in names.now) text.now }
{
    for (index, name) in names.iter().enumerate() {
        if same_text(name.as_bytes(), text) {
            return Some(index);
        }
    }
    None
}
