//! Numbers and states by hand, which the check computes.
ghost use Rattle.tw_machine.specs.Examples.{
  Clears,
  Confluent,
  Divides,
  DividesByNone,
  External,
  Indexes,
  Puts,
  Turns,
};

/// Quotients and remainders of negative numbers; and by a divisor that is not positive.
pub fn division()
    ensures negative { Divides }
    ensures by_none { DividesByNone }
{}

/// An index past both ends of an array register and of a table; `put` past both ends of a queue, and into a full one.
pub fn places()
    ensures indexes { Indexes }
    ensures puts { Puts }
{}

/// A queue of two values that is cleared, and then not.
pub fn clearing()
    ensures { Clears }
{}

/// What is sent for each value of a queue reads its place as `turn`.
pub fn sending()
    ensures { Turns }
{}

/// What two items of one bag read of `elapsed`, `left` and `now`, and in a confluent transition.
pub fn items()
    ensures external { External }
    ensures confluent { Confluent }
{}
