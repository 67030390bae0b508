//! The theorem of the whole.

ghost use Rattle.tw_laws.specs.Headline.{TimeWarpLaw};

/// Whatever was done to an executive from its start: taking back any steps restores every component's state, pending
/// events and lists, with one anti-message, sent or owed, for each message sent; and what each component has
/// committed is what the sequential abstract simulator does up to its commit line.
pub fn time_warp_law<S>()
    ensures { TimeWarpLaw S }
{}
