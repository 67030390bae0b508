//! When a component's next step can be made, and what it may receive.

ghost use Rattle.tw_laws.specs.Standing.{ReceiveLaw, RunningLaw, StandingLaw};

use tw_atomic::Atomic;

/// A component that is ready can make the turn that is due. It stays ready after each step, each cut, each message
/// that comes after its last step, and each message that is withdrawn.
pub fn standing_law<M: Atomic>()
    ensures { (model : M) → StandingLaw (M.valid model) (M.meaning model) }
{}

/// Whatever a process does, steps, rollbacks, chains, receipts and commitments, it stays one whose run began where it
/// was ready: so its next step can always be made.
pub fn running_law<M: Atomic>()
    ensures { (model : M) → RunningLaw (M.valid model) (M.meaning model) }
{}

/// In a sound executive each item of a mailbox is to its component, for a transition, not before its commit line and
/// after every record that it has committed.
pub fn receive_law<S>()
    ensures { ReceiveLaw S }
{}
