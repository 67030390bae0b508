//! The board of a run: two numbers that only rise, posted by one end and seen by any number of others
//! while the run goes on.
//!
//! The numbers are global virtual time (Jefferson 1985) and how many records are committed. A [`Publisher`] posts
//! them, each by one atomic step that keeps the greater of the old and the new; a [`Reader`] sees them
//! ([`Reader::see`]), never less than it saw before. The two are two words, and a look is two loads: it may give
//! the one as it was before a post and the other as it was after. [`Reader::meet`], for whoever has both ends,
//! gives exactly the greatest numbers that were posted, and promises that what the reader saw before was not
//! above them. So whatever a reader sees, and whenever, is no more than is posted.
//!
//! No call takes a lock, and none waits for another. Only making a board or a reader takes memory (4).
//!
//! Contracts see the stamps of a board as their packed numbers, and which board it is by the name of its table.
#![tactic(auto)]

mod board;
mod rule;

pub use board::{Board, Publisher, Reader};
pub use tw_vtime::OutOfMemory;
