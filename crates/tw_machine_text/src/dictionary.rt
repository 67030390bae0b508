//! The word that a run of letters and digits is, or a sign.
ghost use Rattle.std.specs.Prelude.{◌≡◌, ◌==◌, ◌<◌, ◌+◌, map};
ghost use Rattle.tw_machine_text.specs.Letters.{functions, own_names, same_text};
ghost use Rattle.tw_machine_text.specs.Text.{
  name_of,
  is_digit,
  is_word,
  lookup,
  position,
  reserved,
  is_reserved,
  contextual,
  signs,
  is_sign,
  digits,
  number,
  word_of,
};
ghost use Rattle.tw_machine_text.specs.TextViews.{names_of};

use crate::kinds::Declared;
use crate::words::{Builtin, Deed, Operator, SourceChange, Verb, Word};

/// Whether a byte is a digit.
pub fn is_digit(c: u8) -> bool
    ensures { result ≡ is_digit c }
{
    c >= b'0' && c <= b'9'
}

/// Whether a byte is a letter, a digit or `_`.
pub fn is_word(c: u8) -> bool
    ensures { result ≡ is_word c }
{
    is_digit(c) || (c >= b'A' && c <= b'Z') || (c >= b'a' && c <= b'z') || c == b'_'
}

/// The words of the language that no name may be, each with what it is.
pub const RESERVED: [(&str, Word); 21] = [
    ("random", Word::Known(Builtin::Random)),
    ("port", Word::Known(Builtin::Port)),
    ("value", Word::Known(Builtin::Value)),
    ("elapsed", Word::Known(Builtin::Elapsed)),
    ("left", Word::Known(Builtin::Left)),
    ("now", Word::Known(Builtin::Now)),
    ("turn", Word::Known(Builtin::Turn)),
    ("or", Word::Sign(Operator::Or)),
    ("and", Word::Sign(Operator::And)),
    ("not", Word::Not),
    ("if", Word::If),
    ("else", Word::Else),
    ("repeat", Word::Repeat),
    ("wait", Word::Wait),
    ("passivate", Word::Passivate),
    ("draw", Word::Draw),
    ("push", Word::Begins(Verb::Push)),
    ("insert", Word::Begins(Verb::Insert)),
    ("put", Word::Begins(Verb::Put)),
    ("remove", Word::Begins(Verb::Remove)),
    ("pop", Word::Does(Deed::Pop)),
];

/// The words of the language in a machine that has no such name, each with what it is. Of timers are the last four: in a
/// machine with timers no name may be one of these.
pub const CONTEXTUAL: [(&str, Word); 7] = [
    ("observe", Word::Begins(Verb::Observe)),
    ("clear", Word::Does(Deed::Clear)),
    ("do", Word::Does(Deed::Do)),
    ("start", Word::Start),
    ("stop", Word::Does(Deed::Stop)),
    ("send", Word::Send),
    ("which", Word::Known(Builtin::Which)),
];

/// The signs, each with what it is.
const SIGNS: [(&str, Word); 24] = [
    ("(", Word::Open),
    (")", Word::Close),
    ("[", Word::OpenBracket),
    ("]", Word::CloseBracket),
    ("{", Word::OpenBrace),
    ("}", Word::CloseBrace),
    (";", Word::Semicolon),
    (",", Word::Sign(Operator::Comma)),
    (":", Word::Sign(Operator::Colon)),
    ("+", Word::Sign(Operator::Plus)),
    ("-", Word::Sign(Operator::Minus)),
    ("*", Word::Sign(Operator::Times)),
    ("/", Word::Sign(Operator::Divide)),
    ("%", Word::Sign(Operator::Modulo)),
    ("<", Word::Sign(Operator::Less)),
    (">", Word::Sign(Operator::Greater)),
    ("=", Word::Becomes(SourceChange::Set)),
    ("==", Word::Sign(Operator::Equal)),
    ("!=", Word::Sign(Operator::NotEqual)),
    ("<=", Word::Sign(Operator::LessEqual)),
    (">=", Word::Sign(Operator::GreaterEqual)),
    ("+=", Word::Becomes(SourceChange::Add)),
    ("-=", Word::Becomes(SourceChange::Subtract)),
    ("^=", Word::Becomes(SourceChange::Xor)),
];

/// Whether two texts are the same.
pub fn same_text(a: &[u8], b: &[u8]) -> bool
    ensures { result ≡ same_text a.now b.now }
{
    a == b
}

/// The word of a text in a table.
fn lookup(table: &[(&str, Word)], text: &[u8]) -> Option<Word>
    ensures { result ≡ lookup (map (λ e. (e.0.now, e.1)) table.now) text.now }
{
    for entry in table {
        if same_text(entry.0.as_bytes(), text) {
            return Some(entry.1);
        }
    }
    None
}

/// The names of the functions, in the order of their numbers, and, before `item`, `in`, which is a word behind a timer
/// alone.
pub const FUNCTIONS: [&str; OWN_NAMES] = [
    "min", "max", "choose", "length", "room", "front", "last", "sum", "at", "place", "sample",
    "roll", "running", "rest", "idle", "in", "item",
];

/// How many of these there are. The names that a machine declares have the numbers from here on.
pub const OWN_NAMES: usize = 17;

/// The number of `in`.
pub(crate) const IN: usize = 15;

/// The number of `item`.
pub(crate) const ITEM: usize = 16;

/// The number of a function in a list.
fn function_in(functions: &[&str], text: &[u8]) -> Option<usize>
    ensures { result ≡ position 0 (map (λ f. f.now) functions.now) text.now }
{
    for (index, function) in functions.iter().enumerate() {
        if same_text(function.as_bytes(), text) {
            return Some(index);
        }
    }
    None
}

fn function(text: &[u8]) -> Option<usize>
    ensures { result ≡ position 0 functions text.now }
{
    function_in(&FUNCTIONS, text)
}

/// The number of a name of the machine.
fn position(declared: &[Declared], text: &[u8]) -> Option<usize>
    ensures { result ≡ position own_names (names_of declared.now) text.now }
{
    for (index, one) in declared.iter().enumerate() {
        if same_text(one.name.as_bytes(), text) {
            return Some(index + OWN_NAMES);
        }
    }
    None
}

/// The number of a name.
fn name_of(declared: &[Declared], text: &[u8]) -> Option<usize>
    ensures { result ≡ name_of (names_of declared.now) text.now }
{
    match function(text) {
        Some(number) => Some(number),
        None => position(declared, text),
    }
}

/// The number that digits are.
fn digits(text: &[u8]) -> Option<u64>
    ensures { result ≡ digits 0 text.now }
{
    let mut value: u64 = 0;
    for c in text {
        if !is_digit(*c) {
            return None;
        }
        let digit = (*c - b'0') as u64;
        if value > (9223372036854775807 - digit) / 10 {
            return None;
        }
        value = value * 10 + digit;
    }
    Some(value)
}

/// With no zero before them.
fn number(text: &[u8]) -> Option<u64>
    ensures { result ≡ number text.now }
{
    if text.len() > 1 && text[0] == b'0' {
        None
    } else {
        digits(text)
    }
}

/// The word of the language that no name may be, where the text is one.
fn reserved(text: &[u8]) -> Option<Word>
    ensures { result ≡ lookup reserved text.now }
{
    lookup(&RESERVED, text)
}

/// Whether a text is a word of the language that no name may be.
pub fn is_reserved(text: &[u8]) -> bool
    ensures { result ≡ is_reserved text.now }
{
    reserved(text).is_some()
}

/// The word that a text is where the machine has no such name.
fn contextual(text: &[u8]) -> Option<Word>
    ensures { result ≡ lookup contextual text.now }
{
    lookup(&CONTEXTUAL, text)
}

/// The sign that a text is.
fn sign(text: &[u8]) -> Option<Word>
    ensures { result ≡ lookup signs text.now }
{
    lookup(&SIGNS, text)
}

/// Whether a text is a sign.
pub fn is_sign(text: &[u8]) -> bool
    ensures { result ≡ is_sign text.now }
{
    sign(text).is_some()
}

/// The word of a run or a sign.
pub(crate) fn word_of(declared: &[Declared], text: &[u8]) -> Option<Word>
    ensures { result ≡ word_of (names_of declared.now) text.now }
{
    let first = *text.first()?;
    if is_digit(first) {
        number(text).map(Word::Number)
    } else if is_word(first) {
        match reserved(text) {
            Some(word) => Some(word),
            None => match name_of(declared, text) {
                Some(name) => Some(Word::Name(name)),
                None => contextual(text),
            },
        }
    } else {
        sign(text)
    }
}
