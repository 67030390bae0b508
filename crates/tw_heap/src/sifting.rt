//! Entries that move up and down a binary heap. Places count from 0, the root, and the children of place k are 2k + 1 and 2k + 2.
//! With each entry that moves, the place that is kept under its index changes.

ghost use Rattle.std.specs.Prelude.{ℕ, ◌+◌, ◌<◌, length};
ghost use Rattle.std.specs.List.{SwappedAt};
ghost use Rattle.std.specs.List.Sorted.{IsPermutation};
ghost use Rattle.tw_heap.specs.Heap.{IsChild, InOrder, IsHeap, IsHeapAbove, IsHeapBelow, IsHeapAround, IsPlaced};

use crate::entries::{Entry, before};

/// Two entries change places.
pub(crate) fn exchange(entries: &mut [Entry], places: &mut [usize], first: usize, second: usize)
    requires first { first < length entries.old }
    requires second { second < length entries.old }
    requires placed { IsPlaced entries.old places.old }
    ensures entries { SwappedAt entries.old entries.new first second }
    ensures permutation { IsPermutation entries.old entries.new }
    ensures placed { IsPlaced entries.new places.new }
{
    entries.swap(first, second);
    let index = entries[first].index;
    places[index] = first;
    let index = entries[second].index;
    places[index] = second;
}

/// Moves an entry up, until its parent is not after it.
pub(crate) fn sift_up(entries: &mut [Entry], places: &mut [usize], from: usize)
    requires from { from < length entries.old }
    requires placed { IsPlaced entries.old places.old }
    requires heap { IsHeapAbove entries.old from }
    ensures permutation { IsPermutation entries.old entries.new }
    ensures placed { IsPlaced entries.new places.new }
    ensures heap { IsHeap entries.new }
{
    let mut place = from;
    while place > 0 {
        let parent = (place - 1) / 2;
        if !before(entries, place, parent) {
            break;
        }
        exchange(entries, places, place, parent);
        place = parent;
    }
}

/// The child that comes first, of a place that has one.
fn first_child(entries: &[Entry], place: usize) -> usize
    requires { place + place + 1 < length entries.now }
    ensures child { IsChild place result }
    ensures within { result < length entries.now }
    ensures first { (c : ℕ) → IsChild place c
        → c < length entries.now → InOrder entries.now result c }
{
    let left = place + place + 1;
    let right = left + 1;
    if right < entries.len() && before(entries, right, left) {
        right
    } else {
        left
    }
}

/// Moves an entry down, until no child of it is before it.
fn sift_down(entries: &mut [Entry], places: &mut [usize], from: usize)
    requires placed { IsPlaced entries.old places.old }
    requires heap { IsHeapBelow entries.old from }
    ensures permutation { IsPermutation entries.old entries.new }
    ensures placed { IsPlaced entries.new places.new }
    ensures heap { IsHeap entries.new }
{
    let mut place = from;
    while place < entries.len() / 2 {
        let child = first_child(entries, place);
        if !before(entries, child, place) {
            break;
        }
        exchange(entries, places, place, child);
        place = child;
    }
}

/// Moves an entry up or down, to where it belongs.
pub(crate) fn settle(entries: &mut [Entry], places: &mut [usize], place: usize)
    requires place { place < length entries.old }
    requires placed { IsPlaced entries.old places.old }
    requires heap { IsHeapAround entries.old place }
    ensures permutation { IsPermutation entries.old entries.new }
    ensures placed { IsPlaced entries.new places.new }
    ensures heap { IsHeap entries.new }
{
    if place > 0 && before(entries, place, (place - 1) / 2) {
        sift_up(entries, places, place);
    } else {
        sift_down(entries, places, place);
    }
}
