//! The heap of events.

ghost use Rattle.std.specs.Prelude.{◌≡◌, ◌≢◌, ℕ, ◌+◌, ◌<◌, ◌≤◌, [], map, Some, None, IfOk, IfSome, IsSome, IsOk, OnOk};
ghost use Rattle.tw_msgs.specs.Messages.{Sorted};
ghost use Rattle.tw_heap.specs.Order.{insert_by};
ghost use Rattle.tw_heap.specs.Entries.{is_before, message_of, entry_of, without, first_of, IsRising, AreDistinct, AreBelow, IsKeyOf};

use crate::entries::Entry;
use crate::sifting::{exchange, settle, sift_up};
use std::alloc::{AllocError, Global};
use std::marker::Model;
use tw_msgs::Message;

/// A binary heap of messages, each under an index of its own. Contracts see its entries by message, then index, how
/// many more fit without memory, and a bound on the indices.
#[derive(Drop)]
pub struct EventHeap {
    // A binary heap: no entry is before its parent.
    pub(crate) entries: Vec<Entry>,
    // The place of each entry, under its index.
    places: Vec<usize>,
}

impl Model for EventHeap {
    ghost use Rattle.std.specs.Prelude.{◌-◌, length, vec_capacity};
    ghost use Rattle.tw_heap.specs.Order.{sort_by};
    ghost use Rattle.tw_heap.specs.Entries.{Events, is_before as is_before_entry};
    ghost use Rattle.tw_heap.specs.Heap.{IsKept};

    ghost Value = { Events };

    ghost view = { λ h. record {
      entries = sort_by is_before_entry h.entries.items;
      room = vec_capacity h.entries - length h.entries.items;
      top = length h.places.items;
    } };

    ghost invariant = { λ h. IsKept h.entries.items h.places.items };
}

impl EventHeap {
    /// An empty heap. It takes no memory.
    pub fn new(alloc: Global) -> Self
        ensures entries { result.entries ≡ [] }
        ensures room { result.room ≡ 0 }
        ensures top { result.top ≡ 0 }
    {
        EventHeap {
            entries: Vec::new(alloc),
            places: Vec::new(alloc),
        }
    }

    /// What holds of every heap: the entries rise, so that their messages are in order, no index comes twice, and each is below `top`.
    /// The call does nothing: its contract gives a caller these facts.
    pub fn entries_law(&self)
        ensures rising { IsRising self.now.entries }
        ensures sorted { Sorted (map message_of self.now.entries) }
        ensures distinct { AreDistinct self.now.entries }
        ensures below { AreBelow self.now.entries self.now.top }
    {
        let _ = &self.entries;
    }

    /// Makes room for `n` more entries, and for indices below `top`.
    ///
    /// It is refused for want of memory (refusal 4), and only where there was not room enough. The entries stay in either case; the
    /// room may have grown.
    pub fn reserve(&mut self, n: usize, top: usize) -> Result<(), AllocError>
        ensures room { OnOk result (n ≤ self.new.room) }
        ensures top { OnOk result (top ≤ self.new.top) }
        ensures entries { self.new.entries ≡ self.old.entries }
        ensures room_grows { self.old.room ≤ self.new.room }
        ensures top_grows { self.old.top ≤ self.new.top }

        ensures succeeds { n ≤ self.old.room → top ≤ self.old.top → IsOk result }
    {
        self.entries.reserve(n)?;
        if self.places.len() < top {
            self.places.resize(top, 0)?;
        }
        Ok(())
    }

    /// A heap of the same entries. It is refused for want of memory (refusal 4).
    pub fn copy(&self) -> Result<Self, AllocError>
        ensures entries { IfOk result (λ copy. copy.entries ≡ self.now.entries) }
        ensures top { IfOk result (λ copy. copy.top ≡ self.now.top) }
    {
        Ok(EventHeap {
            entries: self.entries.clone()?,
            places: self.places.clone()?,
        })
    }

    /// The entry that comes first, in constant time.
    pub fn first(&self) -> Option<Entry>
        ensures value { result ≡ first_of self.now.entries }
        ensures there { IfSome result
            (λ entry. entry_of entry.index self.now.entries ≡ Some entry) }
    {
        self.entries.first().copied()
    }

    /// Puts a message under an index that has none and is below `top`. It takes no memory and cannot fail:
    /// [`EventHeap::reserve`] has made the room.
    pub fn insert(&mut self, index: usize, key: Message)
        requires room { 0 < self.old.room }
        requires index { index < self.old.top }
        requires vacant { entry_of index self.old.entries ≡ None }
        ensures entries { self.new.entries ≡
            insert_by is_before (record { key = key; index = index }) self.old.entries }
        ensures there { IsKeyOf key index self.new.entries }
        ensures others { (other : ℕ) → other ≢ index
            → entry_of other self.new.entries ≡ entry_of other self.old.entries }
        ensures room { self.new.room + 1 ≡ self.old.room }
        ensures top { self.new.top ≡ self.old.top }
    {
        let place = self.entries.len();
        self.entries.push_reserved(Entry { key, index });
        self.places[index] = place;
        sift_up(
            self.entries.as_mut_slice(),
            self.places.as_mut_slice(),
            place,
        );
    }

    /// Takes the message under an index out. Its room is free again.
    pub fn remove(&mut self, index: usize)
        requires { IsSome (entry_of index self.old.entries) }
        ensures entries { self.new.entries ≡ without index self.old.entries }
        ensures gone { entry_of index self.new.entries ≡ None }
        ensures others { (other : ℕ) → other ≢ index
            → entry_of other self.new.entries ≡ entry_of other self.old.entries }
        ensures room { self.new.room ≡ self.old.room + 1 }
        ensures top { self.new.top ≡ self.old.top }
    {
        let place = self.places[index];
        let last = self.entries.len() - 1;
        exchange(
            self.entries.as_mut_slice(),
            self.places.as_mut_slice(),
            place,
            last,
        );
        self.entries.pop();
        if place < last {
            settle(
                self.entries.as_mut_slice(),
                self.places.as_mut_slice(),
                place,
            );
        }
    }
}
