//! The nodes that processes hold, and actions that are left undone for want of memory or of nodes.

ghost use Rattle.tw_laws.specs.Memory.{MemoryLaw, ReplayLaw};

/// How many nodes a process holds after an action: at most `need` more than before. Only a step and a delivery need
/// any.
pub fn memory_law<S>()
    ensures { MemoryLaw S }
{}

/// Whichever actions are left undone for want of memory or of nodes, the executive stays sound, global virtual time
/// does not fall, and what is committed is what the sequential simulator does.
pub fn replay_law<S>()
    ensures { ReplayLaw S }
{}
