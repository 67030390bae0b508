//! What is committed is what the sequential simulator does.

ghost use Rattle.tw_laws.specs.History.{CommittedHistory, FaultStamp, FaultLaw};
ghost use Rattle.tw_laws.specs.Committed.{CommittedLaw, LinesLaw, SoundLines, GvtLaw, RoundsLaw};

/// The law of committed history: local runs that are taken up to a stamp, and that balance before it, are the
/// sequential simulator's run before it.
pub fn committed_history<S>()
    ensures { CommittedHistory S }
{}

/// Whatever actions are taken from the start, each column is the sequential records of its component before its
/// commit line.
pub fn committed_law<S>()
    ensures { CommittedLaw S }
{}

/// No commit line passes the sequential simulator's fault: in every sound executive, and so after any actions from
/// the start.
pub fn lines_law<S>()
    ensures start { LinesLaw S }
    ensures sound { SoundLines S }
{}

/// Global virtual time never falls, and Raise sets it to the exact least of all that can still change. What is
/// committed stays: each column is a beginning of what it is later.
pub fn gvt_law<S>()
    ensures { GvtLaw S }
{}

/// If local runs are taken up to a stamp and nothing is in transit before it or at it, the least component that meets
/// a limit there is the sequential simulator's fault. Every such fault is of a component of the network, at a
/// transition before the end of the run.
pub fn fault_law<S>()
    ensures stamp { FaultStamp S }
    ensures least { FaultLaw S }
{}

/// A sequential run without a fault has made all its rounds: none is left of a time before its end.
pub fn rounds_law<S>()
    ensures { RoundsLaw S }
{}
