//! Messages consumed and pending again, coming and going.

ghost use Rattle.std.specs.Prelude.{◌≡◌, ◌≢◌, ◌↔◌, ◌+◌, ◌<◌, ◌≤◌, [], ◌∷◌, ◌++◌, length, false, Err, OnOk, OnErr, IfOk, IsTrue};
ghost use Rattle.tw_msgs.specs.Bags.{Bag as BagItems};
ghost use Rattle.tw_msgs.specs.Messages.{Sorted, has};
ghost use Rattle.tw_pool.specs.declared.refused.PoolRefused.TheVariants.{Full};
ghost use Rattle.tw_theory.specs.Bundles.{front, items_of};
ghost use Rattle.tw_lists.specs.Lists.{first_consumed, front_consumed, restored, with_pending, without_pending, with_orphan, without_orphan, forgotten, node_count, without_outgoing, SameButRoom, last_ones};
ghost use Rattle.tw_lists.specs.Nodes.{IsNext};

use crate::lists::{CONSUMED, EventLists, OUTGOING, PENDING, SENT, WAITING, signed};
use crate::searching::has_late;
use std::alloc::AllocError;
use tw_msgs::{Bag, Message, Sign};
use tw_pool::{LIVE_LIMIT, PoolRefused};
use tw_vtime::Stamp;

impl EventLists {
    /// The first pending message becomes the last consumed one.
    fn consume_first(&mut self)
        ensures { self.new ≡ first_consumed self.old }
    {
        self.pool.lists_law();
        if let Some(entry) = self.heap.first() {
            self.heap.entries_law();
            self.heap.remove(entry.index);
            self.pool.relink(entry.index, CONSUMED);
        }
    }

    /// The last consumed message is pending again.
    fn restore_last(&mut self)
        requires some { self.old.consumed ≢ [] }
        requires sorted { Sorted (last_ones 1 self.old.consumed ++ self.old.pending) }
        ensures { self.new ≡ restored 1 self.old }
    {
        self.pool.lists_law();
        self.heap.entries_law();
        if let Some(index) = self.pool.last(CONSUMED) {
            let message = self.pool.get(index).message;
            self.pool.relink(index, PENDING);
            self.heap.insert(index, message);
        }
    }

    /// The last `n` consumed messages are pending again.
    pub fn restore(&mut self, n: usize)
        requires n { n ≤ length self.old.consumed }
        requires sorted { Sorted (last_ones n self.old.consumed ++ self.old.pending) }
        ensures { self.new ≡ restored n self.old }
    {
        for _ in 0..n {
            self.restore_last();
        }
    }

    /// All pending messages of the first stamp become consumed, if it is this one. Answers their bag.
    pub fn consume_bag(&mut self, stamp: Stamp) -> Result<Bag, AllocError>
        ensures bag { IfOk result (λ bag. bag ≡ items_of (front stamp self.old.pending)) }
        ensures ok { OnOk result (self.new ≡ front_consumed stamp self.old) }
        ensures err { OnErr result (self.new ≡ self.old) }
    {
        self.order_law();
        let mut bag = Bag::new(self.alloc);
        while let Some(message) = self.first() {
            if message.stamp != stamp {
                break;
            }
            if let Err(error) = bag.push((message.port, message.value)) {
                self.restore(bag.len());
                return Err(error.into());
            }
            self.consume_first();
        }
        Ok(bag)
    }

    /// All pending messages of this stamp become consumed, if they are the first and carry exactly this bag, in its order; else
    /// nothing changes. It takes no memory.
    pub fn consume_equal(&mut self, stamp: Stamp, bag: &[(u8, i64)]) -> bool
        ensures yes { let carried = items_of (front stamp self.old.pending) in
            IsTrue result → (carried ≡ bag.now) × (self.new ≡ front_consumed stamp self.old) }
        ensures no { let carried = items_of (front stamp self.old.pending) in
            result ≡ false → (carried ≢ bag.now) × (self.new ≡ self.old) }
    {
        self.order_law();
        let mut taken = 0;
        for item in bag {
            if !self.is_next(stamp, *item) {
                self.restore(taken);
                return false;
            }
            self.consume_first();
            taken += 1;
        }
        if self.is_at(stamp) {
            self.restore(taken);
            return false;
        }
        true
    }

    /// Whether the first pending message has this stamp.
    fn is_at(&self, stamp: Stamp) -> bool
        ensures yes { IsTrue result → front stamp self.now.pending ≢ [] }
        ensures no { result ≡ false → front stamp self.now.pending ≡ [] }
    {
        match self.first() {
            Some(message) => message.stamp == stamp,
            None => false,
        }
    }

    /// Whether the first pending message has this stamp, port and value.
    fn is_next(&self, stamp: Stamp, item: (u8, i64)) -> bool
        ensures yes { IsTrue result → IsNext stamp item self.now.pending }
        ensures no { let carried = items_of (front stamp self.now.pending) in
            result ≡ false → (rest : BagItems) → carried ≢ item ∷ rest }
    {
        match self.first() {
            Some(message) => message.stamp == stamp && (message.port, message.value) == item,
            None => false,
        }
    }

    /// One more message is pending. It takes no memory: `reserve_pending` has made room.
    pub fn put_reserved(&mut self, message: &Message)
        requires room { 1 ≤ self.old.room }
        requires spare { 1 ≤ self.old.spare }
        ensures { SameButRoom (with_pending message.now self.old) self.new }
    {
        self.pool.lists_law();
        self.heap.entries_law();
        if let Ok(index) = self
            .pool
            .push_back(PENDING, signed(Sign::Positive, message))
        {
            self.pool.lists_law();
            self.heap.insert(index, *message);
        }
    }

    /// An equal pending message goes, or the answer is that there is none.
    pub fn withdraw(&mut self, message: &Message) -> bool
        ensures answer { result ≡ has message.now self.old.pending }
        ensures contents { SameButRoom (without_pending message.now self.old) self.new }
    {
        self.pool.lists_law();
        self.heap.entries_law();
        let Some(index) = self.heap.find(message) else {
            return false;
        };
        self.heap.remove(index);
        self.pool.take(index);
        true
    }

    /// Whether an equal message was consumed. It is looked for from the last one on, down to its stamp.
    pub fn has_consumed(&self, message: &Message) -> bool
        requires { Sorted self.now.consumed }
        ensures { result ≡ has message.now self.now.consumed }
    {
        has_late(&self.pool, CONSUMED, message)
    }

    /// The first equal message that waits goes, or the answer is that there is none.
    pub fn clear_orphan(&mut self, message: &Message) -> bool
        ensures answer { result ≡ has message.now self.old.waiting }
        ensures contents { SameButRoom (without_orphan message.now self.old) self.new }
    {
        self.pool.lists_law();
        let Some(index) = self.waiting.first(&self.pool, WAITING, message) else {
            return false;
        };
        self.waiting.leave(&self.pool, WAITING, index, message);
        self.pool.take(index);
        true
    }

    /// One more message waits.
    pub fn note_orphan(&mut self, message: Message) -> Result<(), PoolRefused>
        ensures noted { OnOk result (SameButRoom (with_orphan message self.old) self.new) }
        ensures stays { OnErr result (SameButRoom self.old self.new) }
        ensures limit { LIVE_LIMIT < node_count self.old + 1 ↔ result ≡ Err Full }
    {
        self.pool.lists_law();
        match self.pool.push_back(WAITING, signed(Sign::Anti, &message)) {
            Ok(_index) => {
                self.waiting.grow(1);
                self.waiting.learn(&self.pool, WAITING);
                Ok(())
            }
            Err((_, refused)) => Err(refused),
        }
    }

    /// The first `consumed` consumed and the first `sent` sent messages are dropped.
    pub fn forget(&mut self, consumed: usize, sent: usize)
        requires consumed { consumed ≤ length self.old.consumed }
        requires sent { sent ≤ length self.old.sent }
        ensures { SameButRoom (forgotten consumed sent self.old) self.new }
    {
        self.pool.lists_law();
        self.pool.cut_front(CONSUMED, consumed);
        self.pool.cut_front(SENT, sent);
    }

    /// The outgoing items are dropped.
    pub fn clear_outgoing(&mut self)
        ensures { SameButRoom (without_outgoing self.old) self.new }
    {
        self.pool.lists_law();
        let count = self.pool.len(OUTGOING);
        self.pool.cut_front(OUTGOING, count);
    }
}
