//! Messages taken back: as anti-messages, or owed, and what is owed for too long.

ghost use Rattle.std.specs.Prelude.{Some, ◌≡◌, ℕ, ◌<◌, ◌≤◌, ◌++◌, IfSome, IsTrue, length};
ghost use Rattle.tw_pool.specs.Lists.{list_at, item_of, IsLive};
ghost use Rattle.tw_theory.specs.Contents.{Aggressive, Lazy};
ghost use Rattle.tw_lists.specs.Falling.{AreUpTo, IsFalling};
ghost use Rattle.tw_lists.specs.Lists.{cancelled, with_overdue_posted, last_ones};
ghost use Rattle.tw_lists.specs.Nodes.{IsSettled, IsPosted};

use crate::lists::{EventLists, OUTGOING, OWED, SENT};
use tw_actions::Cancel;
use tw_msgs::Item;
use tw_pool::Pool;
use tw_vtime::Stamp;

impl EventLists {
    /// The last `n` sent messages are taken back: they go to the outgoing list as anti-messages, or are owed. It takes no memory.
    pub fn cancel(&mut self, n: usize, way: Cancel)
        requires { n ≤ length self.old.sent }
        ensures { self.new ≡ cancelled way n self.old }
    {
        match way {
            Cancel::Aggressive => self.unsend(n),
            Cancel::Lazy => self.owe(n),
        }
    }

    /// The last `n` sent messages go to the outgoing list, as anti-messages.
    fn unsend(&mut self, n: usize)
        requires { n ≤ length self.old.sent }
        ensures { self.new ≡ cancelled Aggressive n self.old }
    {
        self.pool.lists_law();
        self.pool.relink_last(SENT, n, OUTGOING);
    }

    /// The last `n` sent messages are owed.
    fn owe(&mut self, n: usize)
        requires { n ≤ length self.old.sent }
        ensures { self.new ≡ cancelled Lazy n self.old }
    {
        self.pool.lists_law();
        let falls = falls_behind(&self.pool, n);
        self.falling = self.falling && falls;
        self.pool.relink_last(SENT, n, OWED);
        self.owed.grow(n);
    }

    /// The owed messages that were sent before this stamp go to the outgoing list, as anti-messages. It takes no memory.
    pub fn settle(&mut self, next: Stamp)
        ensures { self.new ≡ with_overdue_posted next self.old }
    {
        if !self.falling {
            self.settle_all(next);
            return;
        }
        // Those that are overdue are the last ones.
        self.pool.lists_law();
        let count = self.owed.leave_overdue(&self.pool, OWED, next);
        self.pool.relink_last(OWED, count, OUTGOING);
    }

    /// As [`settle`](EventLists::settle) does, in whatever order the stamps are. It looks whether those that are left fall.
    fn settle_all(&mut self, next: Stamp)
        ensures { self.new ≡ with_overdue_posted next self.old }
    {
        self.pool.lists_law();
        let before = self.pool.len(OWED);
        post_overdue(&mut self.pool, next);
        let left = self.pool.len(OWED);
        self.falling = top_of_last(&self.pool, OWED, left).is_some();
        if left < before {
            self.owed.forget(left);
        }
    }
}

/// Whether the last `n` sent nodes, behind the owed ones, fall, as those do.
fn falls_behind(pool: &Pool<Item, 6>, n: usize) -> bool
    requires { n ≤ length (list_at pool.now.lists 2) }
    ensures { let owed = list_at pool.now.lists 5 in
        IsTrue result → IsFalling owed → IsFalling (owed ++ last_ones n (list_at pool.now.lists 2)) }
{
    pool.lists_law();
    let Some(top) = top_of_last(pool, SENT, n) else {
        return false;
    };
    match pool.last(OWED) {
        Some(index) => top <= pool.get(index).message.stamp,
        None => true,
    }
}

/// The greatest stamp of the last `n` nodes of a list, where their stamps fall.
fn top_of_last(pool: &Pool<Item, 6>, list: usize, n: usize) -> Option<Stamp>
    requires list { list < 6 }
    requires n { n ≤ length (list_at pool.now.lists list) }
    ensures falling { IfSome result (λ top. IsFalling (last_ones n (list_at pool.now.lists list))) }
    ensures top { IfSome result (λ top. AreUpTo top (last_ones n (list_at pool.now.lists list))) }
{
    pool.lists_law();
    let mut top = Stamp::START;
    let mut at = pool.last(list);
    for _ in 0..n {
        if let Some(index) = at {
            let stamp = pool.get(index).message.stamp;
            if stamp < top {
                return None;
            }
            top = stamp;
            at = pool.prev(index);
        }
    }
    Some(top)
}

/// Each owed node that was sent before the next step goes to the outgoing list.
fn post_overdue(pool: &mut Pool<Item, 6>, next: Stamp)
    ensures lists { IsSettled next
        (length (list_at pool.old.lists 5)) pool.old.lists pool.new.lists }
    ensures room { pool.new.room ≡ pool.old.room }
    ensures top { pool.new.top ≡ pool.old.top }
{
    pool.lists_law();
    let mut at = pool.first(OWED);
    for _ in 0..pool.len(OWED) {
        if let Some(index) = at {
            pool.lists_law();
            at = pool.next(index);
            post_one(pool, index, next);
        }
    }
}

/// An owed node that was sent before the next step goes to the outgoing list.
fn post_one(pool: &mut Pool<Item, 6>, index: usize, next: Stamp)
    requires { IsLive index pool.old.lists }
    ensures lists { (item : Item) → item_of index pool.old.lists ≡ Some item
        → IsPosted next index item pool.old.lists pool.new.lists }
    ensures items { (each : ℕ) → item_of each pool.new.lists ≡ item_of each pool.old.lists }
    ensures room { pool.new.room ≡ pool.old.room }
    ensures top { pool.new.top ≡ pool.old.top }
{
    if pool.get(index).message.stamp.is_overdue(next) {
        pool.relink(index, OUTGOING);
    }
}
