//! The order of a network's couplings.

ghost use Rattle.tw_laws.specs.Couplings.{CouplingsLaw};

/// Networks that differ in the order of their couplings alone have one sequential run, and whatever is done to an
/// executive of the one does the same to one of the other.
pub fn couplings_law<S>()
    ensures { CouplingsLaw S }
{}
