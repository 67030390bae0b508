//! What is read of the lists: lengths, copies, least stamps, and the pool and the heap themselves.

ghost use Rattle.std.specs.Prelude.{◌≡◌, ◌<◌, IfOk, length, map, nat_lt, take_while};
ghost use Rattle.tw_heap.specs.Entries.{message_of};
ghost use Rattle.tw_pool.specs.Lists.{list_at};
ghost use Rattle.tw_theory.specs.Bundles.{least_owed, least_stamp, overdue};
ghost use Rattle.tw_lists.specs.Falling.{IsFalling, NoneBefore};
ghost use Rattle.tw_lists.specs.Lists.{item_at, message_at, AreSame, AreHeldIn};

use crate::lists::{EventLists, OUTGOING, OWED, PENDING, WAITING};
use std::alloc::{AllocError, Global};
use tw_heap::EventHeap;
use tw_msgs::{Item, Message};
use tw_pool::Pool;
use tw_vtime::Stamp;

impl EventLists {
    /// How many messages are pending.
    pub fn pending_len(&self) -> usize
        ensures { result ≡ length self.now.pending }
    {
        self.pool.len(PENDING)
    }

    /// How many anti-messages wait.
    pub fn waiting_len(&self) -> usize
        ensures { result ≡ length self.now.waiting }
    {
        self.pool.len(WAITING)
    }

    /// How many items are outgoing.
    pub fn outgoing_len(&self) -> usize
        ensures { result ≡ length self.now.outgoing }
    {
        self.pool.len(OUTGOING)
    }

    /// How many messages are owed.
    pub fn owed_len(&self) -> usize
        ensures { result ≡ length self.now.owed }
    {
        self.pool.len(OWED)
    }

    /// The pending messages in order. It is refused for want of memory alone (4), as the copies below.
    pub fn pending(&self) -> Result<Vec<Message>, AllocError>
        ensures { IfOk result (λ messages. messages.items ≡ self.now.pending) }
    {
        let mut messages = Vec::new(self.alloc);
        let mut rest = self.heap.copy()?;
        while let Some(entry) = rest.first() {
            messages.push(entry.key)?;
            rest.remove(entry.index);
        }
        Ok(messages)
    }

    /// The pending messages at the front that come before a stamp, in order. Where there are none, it takes no memory.
    pub fn pending_before(&self, stamp: Stamp) -> Result<Vec<Message>, AllocError>
        ensures { let early = take_while (λ m. nat_lt m.stamp stamp) self.now.pending in
            IfOk result (λ messages. messages.items ≡ early) }
    {
        self.heap.messages_before(stamp)
    }

    /// The outgoing items in order.
    pub fn outgoing(&self) -> Result<Vec<Item>, AllocError>
        ensures { IfOk result (λ items. items.items ≡ self.now.outgoing) }
    {
        items_in(self.alloc, &self.pool, OUTGOING)
    }

    /// The messages whose anti-messages wait, in order of arrival.
    pub fn waiting(&self) -> Result<Vec<Message>, AllocError>
        ensures { IfOk result (λ messages. messages.items ≡ self.now.waiting) }
    {
        messages_in(self.alloc, &self.pool, WAITING)
    }

    /// The owed messages in order.
    pub fn owed(&self) -> Result<Vec<Message>, AllocError>
        ensures { IfOk result (λ messages. messages.items ≡ self.now.owed) }
    {
        messages_in(self.alloc, &self.pool, OWED)
    }

    /// The owed messages that were sent before this stamp, in order. Where steps were taken back one after another it looks at no
    /// others.
    pub fn overdue(&self, next: Stamp) -> Result<Vec<Message>, AllocError>
        ensures { IfOk result (λ messages. messages.items ≡ overdue next self.now.owed) }
    {
        let from = if self.falling {
            first_overdue(&self.pool, next)
        } else {
            self.pool.first(OWED)
        };
        overdue_from(self.alloc, &self.pool, from, next)
    }

    /// The least stamp of the outgoing items, or the end.
    pub fn least_outgoing(&self) -> Stamp
        ensures { result ≡ least_stamp self.now.outgoing }
    {
        least_in(&self.pool, OUTGOING)
    }

    /// The least stamp of the owed messages, or the end.
    pub fn least_owed(&self) -> Stamp
        ensures { result ≡ least_owed self.now.owed }
    {
        if self.falling {
            last_in(&self.pool, OWED)
        } else {
            least_in(&self.pool, OWED)
        }
    }

    /// The pool: lists of pending (in any order), consumed, sent, outgoing, waiting and owed messages, numbered from 0.
    /// A sent, a waiting and an owed message is there as its anti-message.
    pub fn pool(&self) -> &Pool<Item, 6>
        ensures holds { AreHeldIn self.now result.now.lists }
        ensures room { result.now.room ≡ self.now.room }
    {
        self.pool.lists_law();
        self.heap.entries_law();
        &self.pool
    }

    /// The heap of the pending messages.
    pub fn heap(&self) -> &EventHeap
        ensures { map message_of result.now.entries ≡ self.now.pending }
    {
        &self.heap
    }

    /// The pool and the heap, as [`pool`](EventLists::pool) and [`heap`](EventLists::heap) lend them: the heap's entries
    /// are exactly the nodes of list 0, each under its own message.
    pub fn nodes(&self) -> (&Pool<Item, 6>, &EventHeap)
        ensures holds { AreHeldIn self.now result.0.now.lists }
        ensures room { result.0.now.room ≡ self.now.room }
        ensures heap { map message_of result.1.now.entries ≡ self.now.pending }
        ensures same { AreSame (list_at result.0.now.lists 0) result.1.now.entries }
        ensures count { length result.1.now.entries ≡ length (list_at result.0.now.lists 0) }
    {
        self.pool.lists_law();
        self.heap.entries_law();
        (&self.pool, &self.heap)
    }
}

/// The items of a list, in order.
fn items_in(alloc: Global, pool: &Pool<Item, 6>, list: usize) -> Result<Vec<Item>, AllocError>
    requires { list < 6 }
    ensures { IfOk result (λ items. items.items ≡ map item_at (list_at pool.now.lists list)) }
{
    pool.lists_law();
    let mut items = Vec::new(alloc);
    let mut at = pool.first(list);
    for _ in 0..pool.len(list) {
        if let Some(index) = at {
            items.push(*pool.get(index))?;
            at = pool.next(index);
        }
    }
    Ok(items)
}

/// The messages of a list, in order.
fn messages_in(alloc: Global, pool: &Pool<Item, 6>, list: usize) -> Result<Vec<Message>, AllocError>
    requires { list < 6 }
    ensures { IfOk result
        (λ messages. messages.items ≡ map message_at (list_at pool.now.lists list)) }
{
    pool.lists_law();
    let mut messages = Vec::new(alloc);
    let mut at = pool.first(list);
    for _ in 0..pool.len(list) {
        if let Some(index) = at {
            messages.push(pool.get(index).message)?;
            at = pool.next(index);
        }
    }
    Ok(messages)
}

/// The first owed node that was sent before a stamp, or none, where the stamps fall.
fn first_overdue(pool: &Pool<Item, 6>, next: Stamp) -> Option<usize>
    requires { IsFalling (list_at pool.now.lists 5) }
    ensures { NoneBefore next result (list_at pool.now.lists 5) }
{
    pool.lists_law();
    let mut first = None;
    let mut before = pool.last(OWED);
    for _ in 0..pool.len(OWED) {
        let Some(index) = before else {
            return first;
        };
        if !pool.get(index).message.stamp.is_overdue(next) {
            return first;
        }
        first = before;
        before = pool.prev(index);
    }
    first
}

/// The owed messages that were sent before a stamp, where none of those before a node was.
fn overdue_from(
    alloc: Global,
    pool: &Pool<Item, 6>,
    from: Option<usize>,
    next: Stamp,
) -> Result<Vec<Message>, AllocError>
    requires { NoneBefore next from (list_at pool.now.lists 5) }
    ensures { let owed = map message_at (list_at pool.now.lists 5) in
        IfOk result (λ messages. messages.items ≡ overdue next owed) }
{
    pool.lists_law();
    let mut messages = Vec::new(alloc);
    let mut at = from;
    for _ in 0..pool.len(OWED) {
        let Some(index) = at else {
            return Ok(messages);
        };
        let message = pool.get(index).message;
        if message.stamp.is_overdue(next) {
            messages.push(message)?;
        }
        at = pool.next(index);
    }
    Ok(messages)
}

/// The stamp of the last node of a list, or the end. It is the least one where the stamps fall.
fn last_in(pool: &Pool<Item, 6>, list: usize) -> Stamp
    requires list { list < 6 }
    requires falling { IsFalling (list_at pool.now.lists list) }
    ensures { result ≡ least_stamp (map item_at (list_at pool.now.lists list)) }
{
    pool.lists_law();
    match pool.last(list) {
        Some(index) => {
            let stamp = pool.get(index).message.stamp;
            stamp.facts();
            stamp
        }
        None => Stamp::END,
    }
}

/// The least stamp of a list, or the end.
fn least_in(pool: &Pool<Item, 6>, list: usize) -> Stamp
    requires { list < 6 }
    ensures { result ≡ least_stamp (map item_at (list_at pool.now.lists list)) }
{
    pool.lists_law();
    let mut least = Stamp::END;
    let mut at = pool.first(list);
    for _ in 0..pool.len(list) {
        if let Some(index) = at {
            least = least.min(pool.get(index).message.stamp);
            at = pool.next(index);
        }
    }
    least
}
