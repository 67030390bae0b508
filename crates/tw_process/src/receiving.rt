//! Messages and anti-messages that come and go.

ghost use Rattle.std.specs.Prelude.{◌≡◌, ◌↔◌, ◌≤◌, Err, IfErr, IsOk, IsTrue, OnErr, OnOk};
ghost use Rattle.tw_msgs.specs.Messages.{has};
ghost use Rattle.tw_pool.specs.declared.refused.PoolRefused.TheVariants.{Full};
ghost use Rattle.tw_process.specs.Process.{CanCome, IsFullBy, with_cleared, with_noted, with_placed, with_removed, SameButSpare};
ghost use Rattle.tw_theory.specs.Contents.{consumed_by};
ghost use Rattle.tw_theory.specs.Standing.{CanTake, floor_after};

use crate::process::Process;
use tw_atomic::Atomic;
use tw_msgs::Message;
use tw_pool::PoolRefused;
use tw_vtime::Stamp;

impl<M: Atomic> Process<M> {
    /// Whether a message can be pending now, as [`put`](Process::put) asks: it is to this component, for a transition
    /// before the end and after all steps that were made.
    pub fn can_come(&self, message: &Message) -> bool
        ensures { IsTrue result ↔ CanCome self.now message.now }
    {
        can_take(self.component, *message) && self.is_past(message.stamp)
    }

    /// Whether a stamp is after all steps that were made, those that are committed too.
    fn is_past(&self, stamp: Stamp) -> bool
        ensures { IsTrue result ↔ (floor_after self.now.floor self.now.process.history ≤ stamp) }
    {
        match self.last_stamp() {
            Some(last) => last.pack() < stamp.pack(),
            None => self.floor <= stamp.pack(),
        }
    }

    /// One more message is pending, in its place. It is refused for want of memory (4), only where there was no room, or
    /// exactly where the lists would have more than 1,048,576 nodes (12); the message is handed back, and the process is
    /// as it was.
    pub fn put(&mut self, message: Message) -> Result<(), (Message, PoolRefused)>
        requires { CanCome self.old message }
        ensures placed { OnOk result (SameButSpare (with_placed message self.old) self.new) }
        ensures succeeds { 1 ≤ self.old.spare → IsOk result }
        ensures stays { OnErr result (SameButSpare self.old self.new) }
        ensures handed_back { IfErr result (λ refused. refused.0 ≡ message) }
        ensures limit { IsFullBy 1 self.old.process ↔ result ≡ Err (message, Full) }
    {
        match self.reserve() {
            Ok(()) => {
                self.put_reserved(&message);
                Ok(())
            }
            Err(refused) => Err((message, refused)),
        }
    }

    /// Makes room for one more pending message. It is refused as [`put`](Process::put) is.
    pub fn reserve(&mut self) -> Result<(), PoolRefused>
        ensures contents { SameButSpare self.old self.new }
        ensures room { OnOk result (1 ≤ self.new.spare) }
        ensures succeeds { 1 ≤ self.old.spare → IsOk result }
        ensures limit { IsFullBy 1 self.old.process ↔ result ≡ Err Full }
    {
        self.lists.reserve_pending()
    }

    /// One more message is pending, in its place. It takes no memory: [`reserve`](Process::reserve) has made room.
    pub fn put_reserved(&mut self, message: &Message)
        requires room { 1 ≤ self.old.spare }
        requires come { CanCome self.old message.now }
        ensures { SameButSpare (with_placed message.now self.old) self.new }
    {
        self.lists.put_reserved(message);
    }

    /// One equal pending message goes; the answer is whether there was one. It takes no memory.
    pub fn withdraw(&mut self, message: &Message) -> bool
        ensures answer { result ≡ has message.now self.old.process.pending }
        ensures contents { SameButSpare (with_removed message.now self.old) self.new }
    {
        self.lists.withdraw(message)
    }

    /// Whether a step that is not committed consumed an equal message.
    pub fn has_consumed(&self, message: &Message) -> bool
        ensures { result ≡ has message.now (consumed_by self.now.process.history) }
    {
        self.lists.has_consumed(message)
    }

    /// The first equal waiting anti-message goes; the answer is whether there was one. It takes no memory.
    pub fn clear_orphan(&mut self, message: &Message) -> bool
        ensures answer { result ≡ has message.now self.old.process.waiting }
        ensures contents { SameButSpare (with_cleared message.now self.old) self.new }
    {
        self.lists.clear_orphan(message)
    }

    /// An anti-message waits for its message, the last of those that wait. It is refused as [`put`](Process::put) is.
    pub fn note_orphan(&mut self, message: Message) -> Result<(), PoolRefused>
        ensures noted { OnOk result (SameButSpare (with_noted message self.old) self.new) }
        ensures stays { OnErr result (SameButSpare self.old self.new) }
        ensures limit { IsFullBy 1 self.old.process ↔ result ≡ Err Full }
    {
        self.lists.note_orphan(message)
    }
}

/// Whether a component can take a message: it is to it, for a transition before the end.
fn can_take(component: usize, message: Message) -> bool
    ensures { IsTrue result ↔ CanTake component message }
{
    message.to == component && !message.stamp.is_end() && message.stamp.phase() == 1
}
