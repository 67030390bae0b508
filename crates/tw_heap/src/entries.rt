//! The entries of a heap, and their order.

ghost use Rattle.std.specs.Prelude.{◌≡◌, ◌<◌, length};
ghost use Rattle.tw_heap.specs.Entries.{is_before};
ghost use Rattle.tw_heap.specs.Heap.{at};

use tw_msgs::Message;

/// A message and the index that it stands under. Entries are ordered by message, then index.
#[derive(Clone, Copy, Debug, PartialEq, Eq, PartialOrd, Ord)]
pub struct Entry {
    pub key: Message,
    pub index: usize,
}

/// Whether the entry at one place comes before the one at another.
pub(crate) fn before(entries: &[Entry], first: usize, second: usize) -> bool
    requires first { first < length entries.now }
    requires second { second < length entries.now }
    ensures { result ≡ is_before (at entries.now first) (at entries.now second) }
{
    entries[first] < entries[second]
}
