//! The messages at the front of a heap.

ghost use Rattle.std.specs.List.Sorted.{IsPermutation, IsSorted};
ghost use Rattle.std.specs.Prelude.{◌≡◌, IfOk, filter, length, map, nat_lt, take_while};
ghost use Rattle.tw_heap.specs.Entries.{message_of};
ghost use Rattle.tw_heap.specs.Heap.{IsHeap};
ghost use Rattle.tw_msgs.specs.Messages.{message_cmp};

use crate::entries::Entry;
use crate::heap::EventHeap;
use std::alloc::{AllocError, Global};
use tw_msgs::Message;
use tw_vtime::Stamp;

impl EventHeap {
    /// The messages that come before a stamp, in order.
    ///
    /// Refused for want of memory alone (4); where there is no such message it takes none. It looks at these entries
    /// and at their children in the heap, and at no others.
    pub fn messages_before(&self, stamp: Stamp) -> Result<Vec<Message>, AllocError>
        ensures { let all = map message_of self.now.entries in
            IfOk result (λ front. front.items ≡ take_while (λ m. nat_lt m.stamp stamp) all) }
    {
        let alloc = *self.entries.allocator();
        let mut messages = gather(alloc, self.entries.as_slice(), stamp)?;
        sort(messages.as_mut_slice());
        Ok(messages)
    }
}

// Puts messages in order.
fn sort(messages: &mut [Message])
    ensures permutation { IsPermutation messages.old messages.new }
    ensures len { length messages.new ≡ length messages.old }
    ensures sorted { IsSorted message_cmp messages.new }
{
    if messages.len() > 1 {
        messages.sort_unstable();
    }
}

// The messages of a heap that come before a stamp, as they lie there.
fn gather(alloc: Global, entries: &[Entry], stamp: Stamp) -> Result<Vec<Message>, AllocError>
    requires { IsHeap entries.now }
    ensures { let all = map message_of entries.now in
        IfOk result (λ early. early.items ≡ filter (λ m. nat_lt m.stamp stamp) all) }
{
    let mut messages = Vec::new(alloc);
    // From this place on there is none that is no child of one found later.
    let mut end = 1usize;
    for place in 0..entries.len() {
        if place >= end {
            return Ok(messages);
        }
        let key = entries[place].key;
        if key.stamp < stamp {
            messages.push(key)?;
            end = place.saturating_mul(2).saturating_add(3);
        }
    }
    Ok(messages)
}
