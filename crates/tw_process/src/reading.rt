//! What is read of a process besides its next step and its history.

ghost use Rattle.std.specs.Prelude.{◌≡◌, map, min, IfOk};
ghost use Rattle.std.specs.Arc.{arc_value};
ghost use Rattle.tw_heap.specs.Entries.{message_of};
ghost use Rattle.tw_process.specs.Process.{IsPoolOf};
ghost use Rattle.tw_theory.specs.Contents.{consumed_by, sent_by};

use crate::process::Process;
use std::alloc::AllocError;
use std::sync::Arc;
use tw_actions::Cancel;
use tw_atomic::Atomic;
use tw_heap::EventHeap;
use tw_lists::EventLists;
use tw_msgs::{Item, Message};
use tw_network::Network;
use tw_pool::Pool;
use tw_vtime::Stamp;

impl<M: Atomic> Process<M> {
    /// The network.
    pub fn network(&self) -> &Arc<Network<M>>
        ensures { arc_value result.now ≡ self.now.network }
    {
        &self.network
    }

    /// The number of its component.
    pub fn component(&self) -> usize
        ensures { result ≡ self.now.component }
    {
        self.component
    }

    /// The state.
    pub fn state(&self) -> &M::State
        ensures { result.now ≡ self.now.process.now.state }
    {
        &self.moment.state
    }

    /// The time of the last transition, as the stamp of that time's output.
    pub fn last(&self) -> Stamp
        ensures { result ≡ self.now.process.now.last }
    {
        self.moment.last
    }

    /// When the next own step is due, or the end.
    pub fn due(&self) -> Stamp
        ensures { result ≡ self.now.process.now.due }
    {
        self.moment.due
    }

    /// The commit line.
    pub fn line(&self) -> Stamp
        ensures { result ≡ self.now.process.line }
    {
        self.line
    }

    /// How steps that are taken back are cancelled.
    pub fn cancel(&self) -> Cancel
        ensures { result ≡ self.now.process.cancel }
    {
        self.cancel
    }

    /// The lists of its messages: pending, consumed, sent, outgoing, waiting and owed.
    pub fn lists(&self) -> &EventLists
        ensures pending { result.now.pending ≡ self.now.process.pending }
        ensures consumed { result.now.consumed ≡ consumed_by self.now.process.history }
        ensures sent { result.now.sent ≡ sent_by self.now.process.history }
        ensures outgoing { result.now.outgoing ≡ self.now.process.outgoing }
        ensures waiting { result.now.waiting ≡ self.now.process.waiting }
        ensures owed { result.now.owed ≡ self.now.process.owed }
        ensures spare { min result.now.room result.now.spare ≡ self.now.spare }
    {
        &self.lists
    }

    /// The owed messages in order. It is refused for want of memory alone (4).
    pub fn owed(&self) -> Result<Vec<Message>, AllocError>
        ensures { IfOk result (λ messages. messages.items ≡ self.now.process.owed) }
    {
        self.lists.owed()
    }

    /// The pool of its lists, numbered from 0: pending (in any order), consumed, sent, outgoing, waiting and owed
    /// messages. A sent, a waiting and an owed message is there as its anti-message.
    pub fn pool(&self) -> &Pool<Item, 6>
        ensures { IsPoolOf self.now.process result.now.lists }
    {
        self.lists.pool()
    }

    /// The heap of the pending messages.
    pub fn heap(&self) -> &EventHeap
        ensures { map message_of result.now.entries ≡ self.now.process.pending }
    {
        self.lists.heap()
    }
}
