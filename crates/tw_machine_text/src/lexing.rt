//! The words of a text, and where they stand.
ghost use Rattle.std.specs.Prelude.{◌≡◌, ◌∷◌, ◌++◌, [], ◌==◌, IfOk};
ghost use Rattle.std.specs.Option.{option_map};
ghost use Rattle.tw_machine_text.specs.Text.{
  is_blank,
  word_of,
  goes_on,
  begin,
  byte,
  scanned,
  words_of,
  Lexed,
};
ghost use Rattle.tw_machine_text.specs.TextViews.{viewed, names_of};
ghost use Rattle.tw_machine_text.specs.Views.{Gives};

use crate::dictionary::{is_word, word_of};
use crate::fault::Fault;
use crate::kinds::Declared;
use crate::words::Word;
use std::alloc::{AllocError, Global};

fn is_blank(c: u8) -> bool
    ensures { result ≡ is_blank c }
{
    c == b' ' || c == b'\t' || c == b'\r' || c == b'\n'
}

/// Whether a byte makes what is being read longer.
fn goes_on(text: &[u8], c: u8) -> bool
    ensures { result ≡ goes_on text.now c }
{
    match text {
        [] => true,
        [first] => {
            if is_word(*first) {
                is_word(c)
            } else {
                c == b'='
                    && (*first == b'<'
                        || *first == b'>'
                        || *first == b'='
                        || *first == b'!'
                        || *first == b'+'
                        || *first == b'-'
                        || *first == b'^')
            }
        }
        [first, ..] => is_word(*first) && is_word(c),
    }
}

/// What is being read.
#[derive(Drop)]
pub(crate) enum Mode {
    Between,
    InComment,
    Reading(Vec<u8>),
}

/// What a byte begins behind what is done.
fn begin(alloc: Global, c: u8) -> Result<Mode, AllocError>
    ensures { IfOk result (λ mode. viewed mode ≡ begin c) }
{
    if is_blank(c) {
        Ok(Mode::Between)
    } else if c == b'#' {
        Ok(Mode::InComment)
    } else {
        let mut text = Vec::new(alloc);
        text.push(c)?;
        Ok(Mode::Reading(text))
    }
}

/// A word more, which ends at this byte.
fn add(
    declared: &[Declared],
    words: &mut Vec<Word>,
    spans: &mut Vec<Span>,
    text: &[u8],
    end: usize,
) -> Result<(), Fault>
    ensures { Gives (λ _. words.new.items) result (option_map
        (λ w. words.old.items ++ w ∷ []) (word_of (names_of declared.now) text.now)) }
{
    spans.push(Span {
        begin: end.saturating_sub(text.len()),
        end,
    })?;
    match word_of(declared, text) {
        Some(word) => {
            words.push(word)?;
            Ok(())
        }
        None => Err(Fault::Wrong),
    }
}

/// A byte.
fn byte(
    alloc: Global,
    declared: &[Declared],
    words: &mut Vec<Word>,
    spans: &mut Vec<Span>,
    c: u8,
    at: usize,
    mode: Mode,
) -> Result<Mode, Fault>
    ensures { Gives (λ mode. (words.new.items, viewed mode)) result
        (byte (names_of declared.now) c (words.old.items, viewed mode)) }
{
    match mode {
        Mode::Between => Ok(begin(alloc, c)?),
        Mode::InComment => {
            if c == b'\n' {
                Ok(Mode::Between)
            } else {
                Ok(Mode::InComment)
            }
        }
        Mode::Reading(mut text) => {
            if goes_on(&text, c) {
                text.push(c)?;
                Ok(Mode::Reading(text))
            } else {
                match add(declared, words, spans, &text, at) {
                    Ok(()) => Ok(begin(alloc, c)?),
                    Err(fault) => Err(fault),
                }
            }
        }
    }
}

/// The last word.
fn last(
    declared: &[Declared],
    words: &mut Vec<Word>,
    spans: &mut Vec<Span>,
    at: usize,
    mode: Mode,
) -> Result<(), Fault>
    ensures { Gives (λ _. words.new.items) result
        (scanned (names_of declared.now) (words.old.items, viewed mode)) }
{
    match mode {
        Mode::Reading(text) => add(declared, words, spans, &text, at),
        _ => Ok(()),
    }
}

/// Where a word begins in the text, and where it ends.
#[derive(Clone, Copy)]
pub(crate) struct Span {
    pub begin: usize,
    pub end: usize,
}

/// The words of a text and their spans; of one that has none, those before the first that is no word, and its place too.
#[derive(Drop)]
pub(crate) struct Words {
    pub words: Vec<Word>,
    pub spans: Vec<Span>,
    pub complete: bool,
}

impl Words {
    /// Where the word of this number begins, or where the last one ends.
    pub fn place(&self, index: usize) -> usize {
        match self.spans.get(index) {
            Some(place) => place.begin,
            None => match self.spans.last() {
                Some(place) => place.end,
                None => 0,
            },
        }
    }
}

/// The words of a text.
pub(crate) fn lex(alloc: Global, declared: &[Declared], text: &[u8]) -> Result<Words, AllocError>
    ensures { IfOk result
        (λ words. Lexed words.complete words.words.items (words_of (names_of declared.now) text.now)) }
{
    let mut words = Vec::new(alloc);
    let mut spans = Vec::new(alloc);
    let mut mode = Mode::Between;
    'bytes: for (index, c) in text.iter().enumerate() {
        mode = match byte(alloc, declared, &mut words, &mut spans, *c, index, mode) {
            Ok(next) => next,
            Err(Fault::OutOfMemory) => return Err(AllocError),
            Err(Fault::Wrong) => {
                return Ok(Words {
                    words,
                    spans,
                    complete: false,
                });
            }
        };
    }
    match last(declared, &mut words, &mut spans, text.len(), mode) {
        Ok(()) => Ok(Words {
            words,
            spans,
            complete: true,
        }),
        Err(Fault::OutOfMemory) => Err(AllocError),
        Err(Fault::Wrong) => Ok(Words {
            words,
            spans,
            complete: false,
        }),
    }
}
