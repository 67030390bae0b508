//! How a sweep and a run end.

ghost use Rattle.tw_laws.specs.Ending.{EndingLaw, StateLaw};
ghost use Rattle.tw_laws.specs.Exchange.{SweepLaw, SweepSteps, DrawLaw};
ghost use Rattle.tw_laws.specs.Outcome.{OutcomeLaw};
ghost use Rattle.tw_laws.specs.Sweeping.{WorkFalls, SweepEnds};
ghost use Rattle.tw_laws.specs.Traces.{OneTrace, TraceLaw, MergingLaw, LeastLineLaw};

/// Posting and delivering until nothing is in transit ends. The work is 3 for each message sent in a history, 2 for
/// each outgoing item and each message owed, and 1 for each item in a mailbox. Each item posted and each delivery,
/// with the steps that it takes back, makes it less.
pub fn sweep_law<S>()
    ensures falls { WorkFalls S }
    ensures ends { SweepEnds S }
{}

/// What the state of a run says is so. It is complete exactly where every line is at the end of the run or after it;
/// in a sound executive the simulator then has no fault, and the columns are its records. It is a fault exactly where
/// nothing is in transit and a next step at global virtual time meets a limit; in a sound executive this is the
/// simulator's fault.
pub fn state_law<S>()
    ensures ending { EndingLaw S }
    ensures state { StateLaw S }
{}

/// The sequential trace is the only list in the order of a trace that has, of each component, that component's
/// records.
pub fn trace_law<S>()
    ensures one { OneTrace }
    ensures sequential { TraceLaw S }
{}

/// Merging the columns up to a stamp that no line is before, as the least line is, gives a beginning of the
/// sequential trace.
pub fn merging_law<S>()
    ensures merged { MergingLaw S }
    ensures least { LeastLineLaw S }
{}

/// A sweep posts and delivers until the executive is swept, then raises global virtual time and commits: no action
/// of it is refused, and afterwards every commit line is global virtual time, the least of the next stamps.
pub fn whole_sweep_law<S>()
    ensures whole { SweepLaw S }
    ensures steps { SweepSteps S }
{}

/// A component may be given out exactly where its next step is before the bound, and at most one is the next.
pub fn draw_law<S>()
    ensures { DrawLaw S }
{}

/// What the state of a run says, with the columns merged, is the sequential simulator's outcome.
pub fn outcome_law<S>()
    ensures { OutcomeLaw S }
{}
