//! Laws of the definitions themselves. The functions do nothing; their contracts are the laws, for states of any type.

ghost use Rattle.tw_theory.specs.Laws.{UndoLaw, CutLaw, AggressiveLaw, BalanceLaw};

/// A step and its undoing leave a process as it was, but for what is outgoing and owed.
pub fn undo_law<S>()
    ensures { UndoLaw S }
{}

/// A cut after every step changes nothing, two cuts are the cut at the lesser stamp, and no cut loses an input.
pub fn cut_law<S>()
    ensures { CutLaw S }
{}

/// Where anti-messages are made at once, steps, cuts and posts are what they would be if nothing could be owed.
pub fn aggressive_law<S>()
    ensures { AggressiveLaw S }
{}

/// What balances for every weight of messages balances for each message, as its signed count.
pub fn balance_law<S>()
    ensures { BalanceLaw S }
{}
