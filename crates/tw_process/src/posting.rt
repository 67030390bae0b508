//! What goes out, and what is owed.

ghost use Rattle.std.specs.Prelude.{◌≡◌};
ghost use Rattle.tw_process.specs.Process.{with_posted, with_settled, SameButSpare};

use crate::process::Process;
use tw_actions::Cancel;
use tw_atomic::Atomic;

impl<M: Atomic> Process<M> {
    /// The owed messages that an output before the next step sent go to the outgoing list, as anti-messages: the
    /// component has passed them by without sending them again. It takes no memory.
    pub fn settle(&mut self)
        ensures { self.new ≡ with_settled self.old }
    {
        match self.cancel {
            Cancel::Aggressive => {}
            Cancel::Lazy => {
                let next = self.next();
                self.lists.settle(next);
            }
        }
    }

    /// Nothing is outgoing any more: all has been posted. It takes no memory.
    pub fn clear_outgoing(&mut self)
        ensures { SameButSpare (with_posted self.old) self.new }
    {
        self.lists.clear_outgoing();
    }
}
