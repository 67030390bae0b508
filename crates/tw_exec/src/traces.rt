//! The trace of what all components have committed.

ghost use Rattle.std.specs.Prelude.{◌≡◌, IfOk};
ghost use Rattle.tw_theory.specs.Traces.{IsMerged, least_line};
ghost use Rattle.tw_exec.specs.Running.{committed_records};

use crate::executive::Executive;
use crate::lines::least_line;
use std::alloc::{AllocError, Global};
use tw_atomic::Atomic;
use tw_fossils::merge;
use tw_msgs::Record;

impl<M: Atomic> Executive<M> {
    /// The records before the least commit line of all components, by stamp and then component: what the sequential simulator
    /// records before it, and each record of a column before it once. Without components there are none.
    ///
    /// It copies them, and is refused for want of memory alone (4).
    pub fn trace(&self, alloc: Global) -> Result<Vec<Record>, AllocError>
        ensures sequential { IfOk result
            (λ trace. trace.items ≡ committed_records M.meaning self.now) }
        ensures merged { IfOk result
            (λ trace. IsMerged (least_line self.now.world.processes) self.now.world trace.items) }
    {
        let line = least_line(self.processes.as_slice());
        merge(alloc, self.columns.as_slice(), line)
    }
}
