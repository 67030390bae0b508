//! Whether steps since a mark stand before a stamp.

ghost use Rattle.std.specs.Prelude.{◌≡◌};
ghost use Rattle.tw_theory.specs.Contents.{records_of};
ghost use Rattle.tw_theory.specs.Marks.{any_between};

use crate::process::Process;
use tw_atomic::Atomic;
use tw_vtime::Stamp;

impl<M: Atomic> Process<M> {
    /// Whether a step that is not committed stands at or after one stamp and before another. It looks at no steps but those
    /// at or after the first stamp and the one before them, and takes no memory.
    pub fn has_step_between(&self, from: Stamp, before: Stamp) -> bool
        ensures { result ≡ any_between from before (records_of self.now.process.history) }
    {
        let mut left = self.history.len();
        while left > 0 {
            let stamp = self.history[left - 1].step.done.stamp;
            if stamp < from {
                return false;
            }
            if stamp < before {
                return true;
            }
            left -= 1;
        }
        false
    }
}
