//! Messages of a list found without a walk through it.

ghost use Rattle.std.specs.HashMap.{get};
ghost use Rattle.std.specs.Prelude.{◌≡◌, ◌+◌, ◌<◌, ◌≤◌, ◌^◌, IfSome, IsTrue, Some, [], false, length};
ghost use Rattle.tw_pool.specs.Lists.{IsLive, first_of, list_at, without};
ghost use Rattle.tw_lists.specs.Falling.{AreOverdue, IsLastTimely};
ghost use Rattle.tw_lists.specs.Finders.{Finds, Knows, behind, key_of, same_key, Learns, LosesLast};
ghost use Rattle.tw_lists.specs.Lists.{Nodes, but_last, last_ones};
ghost use Rattle.tw_lists.specs.Nodes.{index_of};

use crate::searching::find;
use std::alloc::Global;
use std::collections::HashMap;
use tw_msgs::{Item, Message};
use tw_pool::Pool;
use tw_vtime::Stamp;

// So many nodes are walked through sooner than their messages are hashed.
const FEW: usize = 16;

/// What a message is found by: its fields.
#[derive(Clone, Copy, PartialEq, Eq, Hash, Drop)]
pub(crate) struct Key {
    stamp: u64,
    port: u8,
    value: i64,
    to: usize,
}

/// The nodes of a list that have one message: the first of them, and how many they are.
#[derive(Clone, Copy, Drop)]
pub(crate) struct Equals {
    first: usize,
    count: usize,
}

/// Finds the first node of a list that has a message.
///
/// The last `late` nodes of the list are not known yet: a list grows without memory, and its nodes are learned where memory may
/// be asked for. Of a short list nothing is learned: it is walked through.
#[derive(Drop)]
pub(crate) struct Finder {
    pub(crate) known: HashMap<Key, Equals>,
    pub(crate) late: usize,
}

impl Finder {
    /// Of an empty list. It takes no memory.
    pub(crate) fn new(alloc: Global) -> Finder
        ensures { Finds result.known result.late [] }
    {
        Finder {
            known: HashMap::new(alloc),
            late: 0,
        }
    }

    /// The first node of the list that has a message, or none.
    pub(crate) fn first(
        &self,
        pool: &Pool<Item, 6>,
        list: usize,
        message: &Message,
    ) -> Option<usize>
        requires list { list < 6 }
        requires finds { Finds self.now.known self.now.late (list_at pool.now.lists list) }
        ensures { result ≡ index_of message.now (list_at pool.now.lists list) }
    {
        match look_up(&self.known, message) {
            Some(equals) => Some(equals.first),
            None if self.late == 0 => None,
            None => find(pool, list, message),
        }
    }

    /// The list has `n` more nodes at its end.
    pub(crate) fn grow(&mut self, n: usize)
        requires { self.old.late + n < 2 ^ 63 }
        ensures known { self.new.known ≡ self.old.known }
        ensures late { self.new.late ≡ self.old.late + n }
    {
        self.late += n;
    }

    /// Nothing is known of a list of `n` nodes.
    pub(crate) fn forget(&mut self, n: usize)
        ensures { (nodes : Nodes) → length nodes ≡ n → Finds self.new.known self.new.late nodes }
    {
        self.known.clear();
        self.late = n;
    }

    /// Learns of the late nodes of the list as many as memory allows, but nothing of a few.
    pub(crate) fn learn(&mut self, pool: &Pool<Item, 6>, list: usize)
        requires list { list < 6 }
        requires finds { Finds self.old.known self.old.late (list_at pool.now.lists list) }
        ensures { Finds self.new.known self.new.late (list_at pool.now.lists list) }
    {
        pool.lists_law();
        let late = self.late;
        if late <= FEW && self.known.is_empty() {
            return;
        }
        let mut at = first_of_last(pool, list, late);
        for _ in 0..late {
            let Some(index) = at else {
                return;
            };
            if !learn_one(&mut self.known, index, &pool.get(index).message) {
                return;
            }
            self.late -= 1;
            at = pool.next(index);
        }
    }

    /// The first node that has a message is about to leave the list.
    pub(crate) fn leave(
        &mut self,
        pool: &Pool<Item, 6>,
        list: usize,
        index: usize,
        message: &Message,
    )
        requires list { list < 6 }
        requires finds { Finds self.old.known self.old.late (list_at pool.now.lists list) }
        requires first { index_of message.now (list_at pool.now.lists list) ≡ Some index }
        ensures { Finds self.new.known self.new.late (list_at (without index pool.now.lists) list) }
    {
        pool.lists_law();
        let Some(equals) = look_up(&self.known, message) else {
            self.late -= 1;
            return;
        };
        if equals.count < 2 {
            let _ = self.known.remove(&key_of(message));
            return;
        }
        if let Some(first) = next_equal(pool, list, index, message) {
            let count = equals.count - 1;
            let _ = self.known.insert(key_of(message), Equals { first, count });
        }
    }

    /// The nodes at the end of the list that were sent before this stamp are about to leave it, as many as stand there one after
    /// another. Answers how many.
    pub(crate) fn leave_overdue(&mut self, pool: &Pool<Item, 6>, list: usize, next: Stamp) -> usize
        requires list { list < 6 }
        requires finds { Finds self.old.known self.old.late (list_at pool.now.lists list) }
        ensures within { result ≤ length (list_at pool.now.lists list) }
        ensures finds { Finds self.new.known self.new.late
            (but_last result (list_at pool.now.lists list)) }
        ensures overdue { AreOverdue next (last_ones result (list_at pool.now.lists list)) }
        ensures last { IsLastTimely next (but_last result (list_at pool.now.lists list)) }
    {
        pool.lists_law();
        let mut at = pool.last(list);
        for count in 0..pool.len(list) {
            let Some(index) = at else {
                return count;
            };
            let message = &pool.get(index).message;
            if !message.stamp.is_overdue(next) {
                return count;
            }
            self.leave_last(message);
            at = pool.prev(index);
        }
        pool.len(list)
    }

    /// The last node of the list, which has this message, is about to leave it.
    fn leave_last(&mut self, message: &Message)
        ensures { LosesLast message.now self.old.known self.old.late self.new.known self.new.late }
    {
        if self.late > 0 {
            self.late -= 1;
            return;
        }
        let Some(equals) = look_up(&self.known, message) else {
            return;
        };
        if equals.count < 2 {
            let _ = self.known.remove(&key_of(message));
            return;
        }
        let count = equals.count - 1;
        let first = equals.first;
        let _ = self.known.insert(key_of(message), Equals { first, count });
    }
}

/// What a message is found by.
fn key_of(message: &Message) -> Key
    ensures { result ≡ key_of message.now }
{
    Key {
        stamp: message.stamp.pack(),
        port: message.port,
        value: message.value,
        to: message.to,
    }
}

/// What is known of a message.
fn look_up(known: &HashMap<Key, Equals>, message: &Message) -> Option<Equals>
    ensures { result ≡ get same_key known.now (key_of message.now) }
{
    if known.is_empty() {
        return None;
    }
    known.get(&key_of(message)).copied()
}

/// One more node at the end of what is known, or memory was refused.
fn learn_one(known: &mut HashMap<Key, Equals>, index: usize, message: &Message) -> bool
    ensures yes { IsTrue result → Learns index message.now known.old known.new }
    ensures no { result ≡ false → (nodes : Nodes) → Knows known.old nodes → Knows known.new nodes }
{
    let equals = match look_up(known, message) {
        None => Equals {
            first: index,
            count: 1,
        },
        Some(before) => match before.count.checked_add(1) {
            Some(count) => Equals {
                first: before.first,
                count,
            },
            None => return false,
        },
    };
    match known.insert(key_of(message), equals) {
        Ok(_) => true,
        Err(_) => false,
    }
}

/// The first of the last `n` nodes of a list, or none of no nodes.
fn first_of_last(pool: &Pool<Item, 6>, list: usize, n: usize) -> Option<usize>
    requires list { list < 6 }
    requires n { n ≤ length (list_at pool.now.lists list) }
    ensures first { result ≡ first_of (last_ones n (list_at pool.now.lists list)) }
    ensures live { IfSome result (λ index. IsLive index pool.now.lists) }
{
    pool.lists_law();
    let mut first = None;
    let mut before = pool.last(list);
    for _ in 0..n {
        if let Some(index) = before {
            first = before;
            before = pool.prev(index);
        }
    }
    first
}

/// The next node with an equal message behind the first one that has it, or none.
fn next_equal(pool: &Pool<Item, 6>, list: usize, index: usize, message: &Message) -> Option<usize>
    requires list { list < 6 }
    requires first { index_of message.now (list_at pool.now.lists list) ≡ Some index }
    ensures { result ≡ index_of message.now (behind index (list_at pool.now.lists list)) }
{
    pool.lists_law();
    let mut at = pool.next(index);
    for _ in 0..pool.len(list) {
        let Some(next) = at else {
            return None;
        };
        if pool.get(next).message == *message {
            return at;
        }
        at = pool.next(next);
    }
    None
}
