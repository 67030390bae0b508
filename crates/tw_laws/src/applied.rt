//! The laws applied to a concrete network: their premises can be met.

ghost use Rattle.tw_theory.specs.Contents.{Cancel};
ghost use Rattle.tw_laws.specs.Applied.{LawsOfThree};
ghost use Rattle.tw_laws.specs.Driven.{Driven};
ghost use Rattle.tw_laws.specs.OfRelay.{LawsOfRelay};

/// The laws hold of a generator, a relay and a tally in a row, for both ways of cancelling.
pub fn laws_of_three()
    ensures { (cancel : Cancel) → LawsOfThree cancel }
{}

/// What a sweep is on a small network, and two runs driven to their ends: one complete, one in a fault.
pub fn driven_runs()
    ensures { Driven }
{}

/// The laws of steps, chains, memory and the board hold of a relay between a generator and a tally.
pub fn laws_of_relay()
    ensures { LawsOfRelay }
{}
