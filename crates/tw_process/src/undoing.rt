//! The last step taken back.

ghost use Rattle.std.specs.Prelude.{◌≡◌, ◌≢◌, ◌↔◌, [], IsTrue};
ghost use Rattle.tw_process.specs.Process.{with_last_undone};

use crate::entry::Entry;
use crate::process::Process;
use tw_atomic::Atomic;
use tw_step::take_back;

impl<M: Atomic> Process<M> {
    /// Takes the last step that is not committed back, or answers that there is none. What it consumed is pending
    /// again; for each message that it sent an anti-message is outgoing, or the message is owed. It takes no memory.
    pub fn undo_last(&mut self) -> bool
        ensures undone { self.new ≡ with_last_undone self.old }
        ensures some { IsTrue result ↔ (self.old.process.history ≢ []) }
    {
        let Some(entry) = self.history.pop_back() else {
            return false;
        };
        let Entry {
            step,
            consumed,
            sent,
        } = entry;
        let network = &*self.network;
        let model = network.model(self.component);
        take_back(model, &mut self.moment, step);
        self.lists.restore(consumed);
        self.lists.cancel(sent, self.cancel);
        true
    }
}
