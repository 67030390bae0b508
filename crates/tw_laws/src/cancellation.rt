//! The two ways of cancelling.

ghost use Rattle.tw_laws.specs.Cancelling.{CancelStays, SweptLeast};

/// How an executive cancels stays as it began; where anti-messages are made at once, nothing is ever owed.
pub fn cancel_law<S>()
    ensures { CancelStays S }
{}

/// Where nothing is in transit and nothing owed is overdue, what is owed does not hold global virtual time back.
pub fn swept_law<S>()
    ensures { SweptLeast S }
{}
