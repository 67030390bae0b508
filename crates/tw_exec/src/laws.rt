//! What holds of every executive, whatever was done to it: the two halves of the theorem.

ghost use Rattle.std.specs.Prelude.{◌≡◌, ◌≤◌, ℕ, List, Some, slice_get};
ghost use Rattle.tw_exec.specs.Running.{Running, IsSoundly, after};
ghost use Rattle.tw_laws.specs.Committed.{HasCommitted, IsBeforeFault};
ghost use Rattle.tw_laws.specs.Headline.{TakesBack};
ghost use Rattle.tw_laws.specs.Rewinding.{IsParted};
ghost use Rattle.tw_network.specs.Contents.{network_of};
ghost use Rattle.tw_theory.specs.Contents.{Process};
ghost use Rattle.tw_theory.specs.Executive.{Action, Raise, least_of};
ghost use Rattle.tw_theory.specs.Marks.{rewind};

use crate::executive::Executive;
use tw_atomic::Atomic;

impl<M: Atomic> Executive<M> {
    /// Taking back: steps on any components of an executive, and a rewind to the marks taken before them (or Back to one
    /// component's mark), restore every component's state, pending messages and lists, with one anti-message, sent or owed,
    /// for each message sent. And a rewind or Back that is not refused, whatever came before it, cuts its processes there: what is
    /// cut off a process stands at or after the stamp of the cut, and what it keeps before it.
    pub fn inverse_law()
        ensures takes_back { (e : Running M M.State) → IsSoundly M.meaning e
            → TakesBack (network_of M.meaning e.network) e.until e.world }
        ensures parts { (e : Running M M.State) (c s : ℕ) (p : Process M.State)
            → IsSoundly M.meaning e → slice_get e.world.processes c ≡ Some p → IsParted s p }
    {}

    /// What is committed: each component's column is what the sequential simulator records of it before its commit line; no commit
    /// line passes the stamp at which that simulator ends in a fault; global virtual time never falls, by an action or a rewind, and
    /// Raise sets it to the exact least.
    pub fn committed_law()
        ensures committed { (e : Running M M.State) → IsSoundly M.meaning e
            → HasCommitted (network_of M.meaning e.network) e.until e.world }
        ensures before_fault { (e : Running M M.State) → IsSoundly M.meaning e
            → IsBeforeFault (network_of M.meaning e.network) e.until e.world }
        ensures rises { (e : Running M M.State) (action : Action) → IsSoundly M.meaning e
            → e.world.gvt ≤ (after M.meaning action e).world.gvt }
        ensures rewound { (e : Running M M.State) (ss : List ℕ)
            → (rewind e.world ss).1.gvt ≡ e.world.gvt }
        ensures raised { (e : Running M M.State)
            → (after M.meaning Raise e).world.gvt ≡ least_of e.world }
    {}
}
