//! What the board shows while a run goes on.

ghost use Rattle.tw_laws.specs.Board.{BoardLaw};

/// Where no more is posted than global virtual time and the number of committed records, no Reader sees more than
/// was committed, and what is posted never falls.
pub fn board_law<S>()
    ensures { BoardLaw S }
{}
