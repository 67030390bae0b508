//! The executive is sound at the start, and whatever it does keeps it so.

ghost use Rattle.tw_laws.specs.Keeping.{StartLaw, KeepingLaw, RefusedLaw};

/// The executive at the start is sound, for every network.
pub fn start_law<S>()
    ensures { StartLaw S }
{}

/// Each action, each rewind and each list of actions keeps an executive sound, refused ones included.
pub fn keeping_law<S>()
    ensures { KeepingLaw S }
{}

/// An action, or a rewind, that is refused changes nothing.
pub fn refused_law<S>()
    ensures { RefusedLaw S }
{}
