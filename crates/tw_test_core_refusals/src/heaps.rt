//! A heap of messages.

use crate::messages::tell_number;
use std::alloc::{AllocError, Global};
use tw_heap::EventHeap;
use tw_msgs::Message;
use tw_test_refusal_tools::Told;
use tw_vtime::Stamp;

/// A message to the first component, at the start of time where there is no such tick.
fn message(tick: u64, port: u8, value: i64) -> Message {
    Message {
        stamp: Stamp::new(tick, 0, 1).unwrap_or(Stamp::START),
        port,
        value,
        to: 0,
    }
}

/// The heap of the worked example: four messages, of which the one under index 1 is taken out.
fn three_of_four(alloc: Global) -> Result<EventHeap, AllocError> {
    let mut heap = EventHeap::new(alloc);
    heap.reserve(4, 4)?;
    heap.insert(0, message(3, 0, 8));
    heap.insert(1, message(2, 1, 4));
    heap.insert(2, message(2, 0, 9));
    heap.insert(3, message(2, 0, 9));
    heap.remove(1);
    Ok(heap)
}

/// For how many more entries room is made, and for indices below which number.
static ROOM: [(usize, usize); 5] = [(1, 4), (2, 5), (8, 16), (9, 64), (100, 1_000)];

/// Makes room, at the second try where the first finds no memory.
fn grow(told: &mut Told, heap: &mut EventHeap, count: usize, top: usize) {
    let first = heap.first();
    if heap.reserve(count, top).is_err() {
        let stays = first == heap.first();
        told.expect("reserve", stays);
        if heap.reserve(count, top).is_err() {
            told.give_up("reserve");
        }
    }
}

/// Makes all that room.
fn grow_all(told: &mut Told, heap: &mut EventHeap) {
    for (count, top) in ROOM.iter() {
        grow(told, heap, *count, *top);
    }
}

/// Tells the index of the first entry, and takes it out.
fn tell_first(told: &mut Told, heap: &mut EventHeap) {
    match heap.first() {
        Some(first) => {
            tell_number(told, " ", first.index);
            heap.remove(first.index);
        }
        None => told.say(" none"),
    }
}

/// Tells the indices of three entries, in the order of their messages, and takes them out.
fn tell(told: &mut Told, mut heap: EventHeap) {
    for _ in 0..4 {
        tell_first(told, &mut heap);
    }
    told.say("\n");
}

/// Tells a copy of a heap, at the second try where the first finds no memory.
fn tell_copy(told: &mut Told, heap: &EventHeap) {
    let copy = match heap.copy() {
        Err(_) => heap.copy(),
        made => made,
    };
    match copy {
        Ok(copy) => tell(told, copy),
        Err(_) => told.give_up("copy"),
    }
}

/// Makes room in a heap and a copy of it, and tells both.
fn play_on(told: &mut Told, mut heap: EventHeap) {
    grow_all(told, &mut heap);
    tell_copy(told, &heap);
    tell(told, heap);
}

/// Makes the heap, and plays on it.
pub(crate) fn play(told: &mut Told, alloc: Global) {
    told.begin("heap-order");
    let made = match three_of_four(alloc) {
        Err(_) => three_of_four(alloc),
        made => made,
    };
    match made {
        Ok(heap) => play_on(told, heap),
        Err(_) => told.give_up("reserve"),
    }
}
