//! A file that is read, or one that could not be opened.

use std::io;
use std::io::{ErrorKind, Read};

/// A reader that was opened, or one whose every read fails.
#[derive(Drop)]
pub enum Source<F> {
    /// It was opened.
    Open(F),
    /// It was not, for this: what every read answers.
    Missing(ErrorKind),
}

impl<F: Drop> From<io::Result<F>> for Source<F> {
    fn from(opened: io::Result<F>) -> Source<F> {
        match opened {
            Ok(file) => Source::Open(file),
            Err(error) => Source::Missing(error.kind()),
        }
    }
}

impl<F: Read> Read for Source<F> {
    fn read(&mut self, buf: &mut [u8]) -> io::Result<usize> {
        match self {
            Source::Open(file) => file.read(buf),
            Source::Missing(kind) => Err(io::Error::from(*kind)),
        }
    }
}
