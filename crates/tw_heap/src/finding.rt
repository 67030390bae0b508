//! A message looked for in a heap.

ghost use Rattle.std.specs.Prelude.{◌≡◌, ◌≢◌, ℕ, ◌<◌, IfNone, IfSome, false, length, map};
ghost use Rattle.tw_heap.specs.Entries.{message_of, IsKeyOf};
ghost use Rattle.tw_heap.specs.Heap.{IsHeap, at};
ghost use Rattle.tw_msgs.specs.Messages.{has};

use crate::entries::Entry;
use crate::heap::EventHeap;
use tw_msgs::Message;

impl EventHeap {
    /// The index of an entry of this message, if there is one.
    ///
    /// It does not look below an entry of a later stamp, so a message near the front is found among few.
    pub fn find(&self, key: &Message) -> Option<usize>
        ensures there { IfSome result (λ index. IsKeyOf key.now index self.now.entries) }
        ensures none { IfNone result (has key.now (map message_of self.now.entries) ≡ false) }
    {
        let entries = self.entries.as_slice();
        match find_place(entries, key) {
            Some(place) => Some(entries[place].index),
            None => None,
        }
    }
}

/// The place of an entry of this message, if there is one.
fn find_place(entries: &[Entry], key: &Message) -> Option<usize>
    requires { IsHeap entries.now }
    ensures within { IfSome result (λ place. place < length entries.now) }
    ensures there { IfSome result (λ place. (at entries.now place).key ≡ key.now) }
    ensures none { IfNone result
        ((k : ℕ) → k < length entries.now → (at entries.now k).key ≢ key.now) }
{
    // From this place on there is none that is no child of one found later.
    let mut end = 1usize;
    for place in 0..entries.len() {
        if place >= end {
            return None;
        }
        let found = entries[place].key;
        if found == *key {
            return Some(place);
        }
        if found.stamp <= key.stamp {
            end = place.saturating_mul(2).saturating_add(3);
        }
    }
    None
}
