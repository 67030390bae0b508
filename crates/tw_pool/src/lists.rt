//! The lists of a pool, and what can be done with them.

ghost use Rattle.std.specs.Prelude.{◌≡◌, ◌≢◌, ℕ, ◌+◌, ◌<◌, ◌≤◌, [], length, replicate, Some, None, Err, ◌↔◌, IfOk, IfSome, OnOk, IsOk};
ghost use Rattle.tw_pool.specs.Lists.{list_at, live_count, item_of, IsLive, AreBelow, AreDistinct, first_of, next_of, backward, without, without_first, with_item_last, with_item_before, with_last_moved};
ghost use Rattle.tw_pool.specs.declared.refused.PoolRefused.TheVariants.{Full};
ghost use Rattle.tw_pool.specs.Inserted.{IsInserted};

use crate::links::{Ends, Node, link_before, link_last, unlink};
use crate::refused::PoolRefused;
use slab::Slab;
use std::alloc::Global;
use std::marker::Model;

/// The most items that one pool holds at a time.
pub const LIVE_LIMIT: usize = 1_048_576;

/// Items in `L` lists, numbered from 0, each item under an index of its own.
///
/// A call that names an index wants a live one: an index under which one of the lists has an item.
#[derive(Drop)]
pub struct Pool<T, const L: usize> {
    nodes: Slab<Node<T>>,
    ends: [Ends; L],
}

impl<T, const L: usize> Model for Pool<T, L> {
    ghost use Rattle.std.specs.Prelude.{◌-◌, min};
    ghost use Rattle.slab.specs.Slab.{slab_len};
    ghost use Rattle.tw_pool.specs.Lists.{PoolLists, pool_code};
    ghost use Rattle.tw_pool.specs.Links.{lists_of, IsPool};

    ghost Value = { PoolLists T };

    ghost coded = { pool_code T.code };

    ghost view = { λ p. record {
      lists = lists_of p.nodes p.ends;
      room = min p.nodes.capacity 1048576 - slab_len p.nodes;
      top = p.nodes.capacity;
    } };

    ghost invariant = { λ p. IsPool p.nodes p.ends };
}

impl<T, const L: usize> Pool<T, L> {
    /// A pool of empty lists. It takes no memory.
    pub fn new(alloc: Global) -> Self
        ensures lists { result.lists ≡ replicate L [] }
        ensures room { result.room ≡ 0 }
        ensures top { result.top ≡ 0 }
    {
        let none = Ends {
            first: None,
            last: None,
            len: 0,
        };
        Pool {
            nodes: Slab::new(alloc),
            ends: [none; L],
        }
    }

    /// The first index of a list.
    pub fn first(&self, list: usize) -> Option<usize>
        requires { list < L }
        ensures value { result ≡ first_of (list_at self.now.lists list) }
        ensures live { IfSome result (λ index. IsLive index self.now.lists) }
    {
        let ends: &[Ends] = &self.ends;
        ends[list].first
    }

    /// The last index of a list.
    pub fn last(&self, list: usize) -> Option<usize>
        requires { list < L }
        ensures value { result ≡ first_of (list_at (backward self.now.lists) list) }
        ensures live { IfSome result (λ index. IsLive index self.now.lists) }
    {
        let ends: &[Ends] = &self.ends;
        ends[list].last
    }

    /// How many items a list has, in constant time.
    pub fn len(&self, list: usize) -> usize
        requires { list < L }
        ensures value { result ≡ length (list_at self.now.lists list) }
        ensures limited { result ≤ LIVE_LIMIT }
    {
        let ends: &[Ends] = &self.ends;
        ends[list].len
    }

    /// The index that comes after this one in its list.
    pub fn next(&self, index: usize) -> Option<usize>
        requires { IsLive index self.now.lists }
        ensures value { result ≡ next_of index self.now.lists }
        ensures live { IfSome result (λ after. IsLive after self.now.lists) }
    {
        self.nodes[index].next
    }

    /// The index that comes before this one in its list.
    pub fn prev(&self, index: usize) -> Option<usize>
        requires { IsLive index self.now.lists }
        ensures value { result ≡ next_of index (backward self.now.lists) }
        ensures live { IfSome result (λ before. IsLive before self.now.lists) }
    {
        self.nodes[index].prev
    }

    /// The item under an index.
    pub fn get(&self, index: usize) -> &T
        requires { IsLive index self.now.lists }
        ensures { item_of index self.now.lists ≡ Some result.now }
    {
        &self.nodes[index].item
    }

    /// A bound on indices: each index is below it, and so is each one that `push_back` and `insert_before` give while there is room.
    pub fn top(&self) -> usize
        ensures value { result ≡ self.now.top }
        ensures below { AreBelow self.now.lists result }
    {
        self.nodes.capacity()
    }

    /// What holds of every pool: there are `L` lists, no index comes twice, and the items are [`LIVE_LIMIT`] at most, with those
    /// that there is room for. The call does nothing: its contract gives a caller these facts.
    pub fn lists_law(&self)
        ensures count { length self.now.lists ≡ L }
        ensures distinct { AreDistinct self.now.lists }
        ensures limited { live_count self.now.lists + self.now.room ≤ LIVE_LIMIT }
    {
        let _ends: &[Ends] = &self.ends;
        let _ = &self.nodes;
    }

    /// Makes room for `n` more items, which can then be added without refusal and without memory.
    ///
    /// It is refused as full exactly where the items would be more than [`LIVE_LIMIT`], before anything grows, and for want of
    /// memory only where there was not room enough. The lists stay in either case; the room may have grown.
    pub fn reserve(&mut self, n: usize) -> Result<(), PoolRefused>
        ensures room { OnOk result (n ≤ self.new.room) }
        ensures lists { self.new.lists ≡ self.old.lists }
        ensures room_grows { self.old.room ≤ self.new.room }
        ensures top_grows { self.old.top ≤ self.new.top }

        ensures succeeds { n ≤ self.old.room → IsOk result }
        ensures had_room { n ≤ self.old.room → self.new ≡ self.old }
        ensures limit { LIVE_LIMIT < live_count self.old.lists + n ↔ result ≡ Err Full }
        ensures full { result ≡ Err Full → self.new ≡ self.old }
    {
        if n > LIVE_LIMIT - self.nodes.len() {
            return Err(PoolRefused::Full);
        }
        prove!(self.nodes.len() <= self.nodes.capacity());
        match self.nodes.reserve(n) {
            Ok(()) => Ok(()),
            Err(_) => Err(PoolRefused::OutOfMemory),
        }
    }

    /// Puts an item at the end of a list, and answers its index. It takes memory only where no room is left.
    ///
    /// It is refused as full exactly where there are [`LIVE_LIMIT`] items already, and for want of memory only where no room was
    /// left. The item is handed back, and the lists stay.
    pub fn push_back(&mut self, list: usize, item: T) -> Result<usize, (T, PoolRefused)>
        requires { list < L }
        ensures added { IfOk result (λ index.
            self.new.lists ≡ with_item_last self.old.lists list (index, item)) }
        ensures inserted { IsInserted self.old self.new item result }
    {
        if let Err(refused) = self.reserve(1) {
            return Err((item, refused));
        }
        let index = self.nodes.insert_reserved(Node {
            item,
            list,
            prev: None,
            next: None,
        });
        link_last(&mut self.nodes, &mut self.ends, list, index);
        Ok(index)
    }

    /// Puts an item right before the one under `at`, in its list, and answers the new index. It takes memory only where no room is
    /// left.
    ///
    /// It is refused as [`push_back`](Pool::push_back) is.
    pub fn insert_before(&mut self, at: usize, item: T) -> Result<usize, (T, PoolRefused)>
        requires { IsLive at self.old.lists }
        ensures added { IfOk result (λ index.
            self.new.lists ≡ with_item_before at (index, item) self.old.lists) }
        ensures inserted { IsInserted self.old self.new item result }
    {
        if let Err(refused) = self.reserve(1) {
            return Err((item, refused));
        }
        let index = self.nodes.insert_reserved(Node {
            item,
            list: 0,
            prev: None,
            next: None,
        });
        link_before(&mut self.nodes, &mut self.ends, at, index);
        Ok(index)
    }

    /// Moves an item to the end of a list, which may be its own. The item keeps its index.
    pub fn relink(&mut self, index: usize, to_list: usize)
        requires live { IsLive index self.old.lists }
        requires list { to_list < L }
        ensures lists { (item : T) → item_of index self.old.lists ≡ Some item
            → self.new.lists ≡ with_item_last (without index self.old.lists) to_list (index, item) }
        ensures items { (each : ℕ) → item_of each self.new.lists ≡ item_of each self.old.lists }
        ensures room { self.new.room ≡ self.old.room }
        ensures top { self.new.top ≡ self.old.top }
    {
        unlink(&mut self.nodes, &mut self.ends, index);
        link_last(&mut self.nodes, &mut self.ends, to_list, index);
    }

    /// Takes an item out of the pool.
    pub fn take(&mut self, index: usize) -> T
        requires { IsLive index self.old.lists }
        ensures item { item_of index self.old.lists ≡ Some result }
        ensures lists { self.new.lists ≡ without index self.old.lists }
        ensures gone { item_of index self.new.lists ≡ None }
        ensures others { (other : ℕ) → other ≢ index
            → item_of other self.new.lists ≡ item_of other self.old.lists }
        ensures room { self.new.room ≡ self.old.room + 1 }
        ensures top { self.new.top ≡ self.old.top }
    {
        unlink(&mut self.nodes, &mut self.ends, index);
        let Node {
            item,
            list: _,
            prev: _,
            next: _,
        } = self.nodes.remove(index);
        item
    }

    /// Drops the first `n` items of a list, in time `n`.
    pub fn cut_front(&mut self, list: usize, n: usize)
    where
        T: Drop,
        requires list { list < L }
        requires n { n ≤ length (list_at self.old.lists list) }
        ensures lists { self.new.lists ≡ without_first self.old.lists list n }
        ensures room { self.new.room ≡ self.old.room + n }
        ensures top { self.new.top ≡ self.old.top }
    {
        for _ in 0..n {
            self.lists_law();
            if let Some(index) = self.first(list) {
                self.take(index);
            }
        }
    }

    /// Moves the last `count` items of a list to the end of another one, in their order, in time `count`.
    pub fn relink_last(&mut self, from: usize, count: usize, to: usize)
        requires from { from < L }
        requires count { count ≤ length (list_at self.old.lists from) }
        requires to { to < L }
        requires other { to ≢ from }
        ensures lists { self.new.lists ≡ with_last_moved self.old.lists from count to }
        ensures items { (each : ℕ) → item_of each self.new.lists ≡ item_of each self.old.lists }
        ensures room { self.new.room ≡ self.old.room }
        ensures top { self.new.top ≡ self.old.top }
    {
        self.lists_law();
        let mut first = None;
        let mut before = self.last(from);
        for _ in 0..count {
            if let Some(index) = before {
                first = before;
                before = self.prev(index);
            }
        }
        for _ in 0..count {
            self.lists_law();
            if let Some(index) = first {
                first = self.next(index);
                self.relink(index, to);
            }
        }
    }
}
