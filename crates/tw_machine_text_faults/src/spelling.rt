//! The words of a machine's text, each with its place.

use std::alloc::{AllocError, Global};
use tw_machine_text::Place;

/// A word of a text, as it is written.
#[derive(Drop)]
pub struct Spelled {
    /// As it stands in the text.
    pub text: String,
    /// Where it begins.
    pub place: Place,
}

/// What is being read.
#[derive(Clone, Copy, PartialEq)]
enum Mode {
    Between,
    Comment,
    Word,
    Sign,
}

/// The words so far, and where the next letter stands.
#[derive(Drop)]
struct Reader {
    words: Vec<Spelled>,
    text: String,
    begin: Place,
    at: Place,
    mode: Mode,
}

/// All words of a text, what is none of the language too.
///
/// Refused where a growth of memory is.
pub fn words_of(alloc: Global, text: &str) -> Result<Vec<Spelled>, AllocError> {
    let start = Place { line: 1, column: 1 };
    let mut reader = Reader {
        words: Vec::new(alloc),
        text: String::new(alloc),
        begin: start,
        at: start,
        mode: Mode::Between,
    };
    for letter in text.chars() {
        read_letter(alloc, &mut reader, letter)?;
        pass(&mut reader, letter);
    }
    end_word(alloc, &mut reader)?;
    Ok(reader.words)
}

/// Goes one letter on.
fn pass(reader: &mut Reader, letter: char) {
    if letter == '\n' {
        reader.at.line = reader.at.line.saturating_add(1);
        reader.at.column = 1;
    } else {
        reader.at.column = reader.at.column.saturating_add(1);
    }
}

/// Reads a letter.
fn read_letter(alloc: Global, reader: &mut Reader, letter: char) -> Result<(), AllocError> {
    if reader.mode == Mode::Comment {
        if letter == '\n' {
            reader.mode = Mode::Between;
        }
        return Ok(());
    }
    if !goes_on(reader, letter) {
        end_word(alloc, reader)?;
        reader.begin = reader.at;
        reader.mode = mode_of(letter);
    }
    if reader.mode == Mode::Word || reader.mode == Mode::Sign {
        reader.text.push(letter)?;
    }
    Ok(())
}

/// Whether a letter makes what is read longer.
fn goes_on(reader: &Reader, letter: char) -> bool {
    match reader.mode {
        Mode::Word => is_word(letter),
        Mode::Sign => letter == '=' && may_be_equal(reader.text.as_str()),
        _ => false,
    }
}

/// Whether a sign may have an equality sign behind it.
fn may_be_equal(sign: &str) -> bool {
    matches!(sign, "<" | ">" | "=" | "!" | "+" | "-" | "^")
}

/// What a letter begins.
fn mode_of(letter: char) -> Mode {
    if letter == ' ' || letter == '\t' || letter == '\r' || letter == '\n' {
        Mode::Between
    } else if letter == '#' {
        Mode::Comment
    } else if is_word(letter) {
        Mode::Word
    } else {
        Mode::Sign
    }
}

/// Whether a letter is one of a name or a number.
pub(crate) fn is_word(letter: char) -> bool {
    match u8::try_from(letter) {
        Ok(byte) => tw_machine_text::is_word(byte),
        Err(_) => false,
    }
}

/// Ends the word that is read, if there is one.
fn end_word(alloc: Global, reader: &mut Reader) -> Result<(), AllocError> {
    if reader.text.is_empty() {
        return Ok(());
    }
    let text = reader.text.clone()?;
    reader.text = String::new(alloc);
    reader.words.push(Spelled {
        text,
        place: reader.begin,
    })?;
    Ok(())
}
