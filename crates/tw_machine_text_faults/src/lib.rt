//! Where a machine's text goes wrong, in words: what it has there, and what it wants.
//!
//! The text is spelt out once more into words and read word by word up to the place where the reader of `tw_machine_text`
//! stopped; what may stand there says what is wrong. Of the words nothing is proved but that they are made safely and that
//! the search ends: they are shown by tests, one for each kind of fault.
//!
//! - `texts`: [`reason`], why a text goes wrong at a place; `reading`, what may stand behind the words before it.
//! - `cures`: mistakes that other languages bring, and the cure of each.
//! - `spelling`: [`words_of`], [`Spelled`], all words of a text, each with its place.
//! - `nearest`: [`Nearest`], the name that was meant, where one is misspelt.
//! - `words`: [`quoted`], [`described`], [`listed`], words of which a line is made.
#![tactic(auto)]

mod cures;
mod nearest;
mod reading;
mod spelling;
mod texts;
mod words;

pub use nearest::Nearest;
pub use spelling::{Spelled, words_of};
pub use texts::reason;
pub use words::{described, listed, quoted};
