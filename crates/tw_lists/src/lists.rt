//! The six lists, what there is room for, and what is read of them.

ghost use Rattle.std.specs.Prelude.{◌≡◌, ◌+◌, ◌<◌, ◌≤◌, ◌↔◌, [], Err, IsOk, OnOk};
ghost use Rattle.tw_msgs.specs.Messages.{Sorted};
ghost use Rattle.tw_pool.specs.declared.refused.PoolRefused.TheVariants.{Full};
ghost use Rattle.tw_lists.specs.Lists.{first_of, node_count, SameButRoom};

use crate::finder::Finder;
use std::alloc::{AllocError, Global};
use std::marker::Model;
use tw_heap::EventHeap;
use tw_msgs::{Item, Message, Sign};
use tw_pool::{LIVE_LIMIT, Pool, PoolRefused};
use tw_vtime::Stamp;

pub(crate) const PENDING: usize = 0;

pub(crate) const CONSUMED: usize = 1;

pub(crate) const SENT: usize = 2;

pub(crate) const OUTGOING: usize = 3;

pub(crate) const WAITING: usize = 4;

pub(crate) const OWED: usize = 5;

/// The six lists of a process: pending, consumed and sent messages, outgoing items, waiting and owed messages.
pub struct EventLists {
    pub(crate) alloc: Global,
    // The lists in this order. A sent, an owed and a waiting message is kept as its anti-message.
    pub(crate) pool: Pool<Item, 6>,
    // The pending nodes by their messages, with room for the consumed ones too.
    pub(crate) heap: EventHeap,
    // Where the waiting and the owed messages stand.
    pub(crate) waiting: Finder,
    pub(crate) owed: Finder,
    // Whether the stamps of the owed messages are known to fall, or to stay, from each to the next: so they do where steps are taken
    // back one after another, and then the least stamp is the last one's.
    pub(crate) falling: bool,
}

// Written out, since a derived one is spelt field by field, and proved, wherever one is let go.
impl Drop for EventLists {
    fn drop(self) {
        let EventLists {
            alloc: _,
            pool: _,
            heap: _,
            waiting: _,
            owed: _,
            falling: _,
        } = self;
    }
}

impl Model for EventLists {
    ghost use Rattle.std.specs.Prelude.{length};
    ghost use Rattle.tw_pool.specs.Lists.{list_at};
    ghost use Rattle.tw_lists.specs.Lists.{Lists};
    ghost use Rattle.tw_lists.specs.Nodes.{contents, spare_of, IsKept};
    ghost use Rattle.tw_lists.specs.Finders.{AreFound};
    ghost use Rattle.tw_lists.specs.Falling.{FallIf};

    ghost Value = { Lists };

    ghost view = { λ s. contents s.pool.lists s.pool.room
        (spare_of s.pool.top s.heap (length (list_at s.pool.lists 1))) s.heap.entries };

    ghost invariant = { λ s. IsKept s.pool.lists s.heap
        × AreFound s.waiting s.owed s.pool.lists × FallIf s.falling (list_at s.pool.lists 5) };
}

impl EventLists {
    /// Six empty lists. It takes no memory.
    pub fn new(alloc: Global) -> Self
        ensures pending { result.pending ≡ [] }
        ensures consumed { result.consumed ≡ [] }
        ensures sent { result.sent ≡ [] }
        ensures outgoing { result.outgoing ≡ [] }
        ensures waiting { result.waiting ≡ [] }
        ensures owed { result.owed ≡ [] }
    {
        EventLists {
            alloc,
            pool: Pool::new(alloc),
            heap: EventHeap::new(alloc),
            waiting: Finder::new(alloc),
            owed: Finder::new(alloc),
            falling: true,
        }
    }

    /// The pending messages stand in order. The call does nothing: its contract gives a caller this fact.
    pub fn order_law(&self)
        ensures { Sorted self.now.pending }
    {
        self.heap.entries_law();
    }

    /// The nodes, with those that there is room for, are at most [`LIVE_LIMIT`]. The call does nothing: its contract
    /// gives a caller this fact.
    pub fn count_law(&self)
        ensures { node_count self.now + self.now.room ≤ LIVE_LIMIT }
    {
        self.pool.lists_law();
    }

    /// The first pending message, in constant time.
    pub fn first(&self) -> Option<Message>
        ensures { result ≡ first_of self.now.pending }
    {
        match self.heap.first() {
            Some(entry) => Some(entry.key),
            None => None,
        }
    }

    /// Makes room for `n` more nodes, which can then be added without refusal and without memory.
    ///
    /// It is refused as full exactly where the nodes would be more than [`LIVE_LIMIT`], before anything grows, and for
    /// want of memory (4) only where there was not room enough.
    pub fn reserve(&mut self, n: usize) -> Result<(), PoolRefused>
        ensures contents { SameButRoom self.old self.new }
        ensures room { OnOk result (n ≤ self.new.room) }
        ensures room_grows { self.old.room ≤ self.new.room }

        ensures succeeds { n ≤ self.old.room → IsOk result }
        ensures had_room { n ≤ self.old.room → self.new ≡ self.old }
        ensures limit { LIVE_LIMIT < node_count self.old + n ↔ result ≡ Err Full }
        ensures full { result ≡ Err Full → self.new ≡ self.old }
    {
        self.pool.lists_law();
        self.pool.reserve(n)
    }

    /// Makes room for one more pending message, also beside those that were consumed.
    ///
    /// It is refused as [`reserve`](EventLists::reserve) is for one node.
    pub fn reserve_pending(&mut self) -> Result<(), PoolRefused>
        ensures contents { SameButRoom self.old self.new }
        ensures room { OnOk result (1 ≤ self.new.room) }
        ensures spare { OnOk result (1 ≤ self.new.spare) }

        ensures succeeds { 1 ≤ self.old.room → 1 ≤ self.old.spare → IsOk result }
        ensures limit { LIVE_LIMIT < node_count self.old + 1 ↔ result ≡ Err Full }
    {
        self.pool.lists_law();
        let consumed = self.pool.len(CONSUMED);
        self.pool.reserve(1)?;
        let top = self.pool.top();
        match self.heap.reserve(consumed + 1, top) {
            Ok(()) => Ok(()),
            Err(_) => Err(PoolRefused::OutOfMemory),
        }
    }
}

/// A message with a sign.
pub(crate) fn signed(sign: Sign, message: &Message) -> Item
    ensures { result ≡ record { sign = sign; message = message.now } }
{
    Item {
        sign,
        message: *message,
    }
}
