//! Bags: the items of an input or an output.

ghost use Rattle.std.specs.Prelude.{
  ◌≡◌,
  ◌↔◌,
  ◌<◌,
  ◌≤◌,
  ◌^◌,
  ◌++◌,
  ◌∷◌,
  [],
  ℕ,
  ℤ,
  IsTrue,
  IsOk,
  IfOk,
  IfErr,
  OnOk,
  OnErr,
  length,
};
ghost use Rattle.std.specs.Iterator.Adapters.{IterYieldsInOrder};
ghost use Rattle.std.specs.List.Sorted.{IsPermutation};
ghost use Rattle.std.specs.Slice.Iter.{iter_rest};
ghost use Rattle.std.specs.Cmp.{partial_equiv_from_equiv};
ghost use Rattle.tw_msgs.specs.Bags.{IsSorted, same_bag, same_bag_equiv, sorted_bag};

use smallvec::SmallVec;
use std::alloc::{AllocError, AllocFailed, Global};
use std::marker::Model;
use std::slice;

/// The items of an input or of an output, each a port and a value; equal items are all kept.
///
/// Contracts see a bag as the list of its items. Up to two items take no memory.
#[derive(Debug, Drop)]
pub struct Bag {
    items: SmallVec<(u8, i64), 2>,
}

impl Model for Bag {
    ghost use Rattle.std.specs.Prelude.{◌≤◌, ℕ, ℤ, List};

    ghost Value = { List (ℕ × ℤ) };

    ghost view = { λ b. b.items.items };

    ghost invariant = { λ b. 2 ≤ b.items.capacity };
}

impl Bag {
    /// An empty bag. It takes no memory.
    pub fn new(alloc: Global) -> Bag
        ensures { result ≡ [] }
    {
        Bag {
            items: SmallVec::new(alloc),
        }
    }

    /// How many items there are.
    pub fn len(&self) -> usize
        ensures { result ≡ length self.now }
    {
        self.items.len()
    }

    /// Whether there is no item.
    pub fn is_empty(&self) -> bool
        ensures { IsTrue result ↔ (self.now ≡ []) }
    {
        self.items.is_empty()
    }

    /// The items, in their order.
    pub fn as_slice(&self) -> &[(u8, i64)]
        ensures { result.now ≡ self.now }
    {
        self.items.as_slice()
    }

    /// The items one after another, in their order.
    pub fn iter(&self) -> slice::Iter<'_, (u8, i64)>
        ensures items { iter_rest result ≡ self.now }
        ensures fits { length (iter_rest result) < 2 ^ 64 }
        ensures in_order { IterYieldsInOrder (ℕ × ℤ) }
    {
        self.as_slice().iter()
    }

    /// Adds an item at the end.
    ///
    /// Where memory is wanting (refusal 4) the item is handed back, and the bag stays as it was. The
    /// first two items take no memory.
    pub fn push(&mut self, item: (u8, i64)) -> Result<(), AllocFailed<(u8, i64)>>
        ensures ok { OnOk result (self.new ≡ self.old ++ item ∷ []) }
        ensures err { OnErr result (self.new ≡ self.old) }
        ensures handed_back { IfErr result (λ failed. failed.value ≡ item) }
        ensures inline { length self.old < 2 → IsOk result }
    {
        self.items.push(item)
    }

    /// Puts the items in the order of port, then value; equal items are all kept. It takes no memory.
    pub fn sort(&mut self)
        ensures same_items { IsPermutation self.old self.new }
        ensures in_order { IsSorted self.new }
        ensures sorted { self.new ≡ sorted_bag self.old }
    {
        if self.items.len() > 1 {
            self.items.as_mut_slice().sort_unstable();
        }
    }

    /// Takes all items away. The room that they had is kept.
    pub fn clear(&mut self)
        ensures { self.new ≡ [] }
    {
        self.items.clear();
    }
}

/// A copy: the same items in the same order, with room of its own.
///
/// Where memory is wanting (refusal 4) there is no copy, and nothing is left behind. A bag of up to two
/// items is copied without memory.
impl Clone for Bag {
    ghost is_clone = { λ bag copy. copy ≡ bag };

    ghost is_infallible = { λ bag. length bag ≤ 2 };

    fn clone(&self) -> Result<Bag, AllocError>
        ensures ok { IfOk result (λ copy. copy ≡ self.now) }
        ensures inline { length self.now ≤ 2 → IsOk result }
    {
        let mut items = SmallVec::new(*self.items.allocator());
        items.extend_from_slice(self.as_slice())?;
        Ok(Bag { items })
    }
}

/// Whether the items are equal, in their order.
impl PartialEq for Bag {
    ghost eq = { same_bag };

    ghost laws = { partial_equiv_from_equiv same_bag_equiv };

    fn eq(&self, other: &Bag) -> bool
        ensures eq { result ≡ same_bag self.now other.now }
        ensures same { IsTrue result ↔ (self.now ≡ other.now) }
    {
        self.items == other.items
    }
}

impl Eq for Bag {
    ghost laws = { same_bag_equiv };
}

impl<'a> IntoIterator for &'a Bag {
    type Item = &'a (u8, i64);

    type IntoIter = slice::Iter<'a, (u8, i64)>;

    ghost into_iter_gives = { λ bag it. (iter_rest it ≡ bag.now) × (length (iter_rest it) < 2 ^ 64)
        × IterYieldsInOrder (ℕ × ℤ) };

    fn into_iter(self) -> slice::Iter<'a, (u8, i64)> {
        self.iter()
    }
}
