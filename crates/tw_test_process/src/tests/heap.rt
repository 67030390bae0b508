//! A heap by a worked example.

use super::helpers::message;
use std::alloc::{AllocError, Global};
use std::process::Abort;
use tw_heap::EventHeap;

/// Takes the first entry out, and answers its index.
fn take_first(heap: &mut EventHeap) -> Option<usize> {
    let index = heap.first()?.index;
    heap.remove(index);
    Some(index)
}

/// A heap of four messages, of which the one under index 1 is taken out: left are two equal ones and a later one.
fn three_of_four(rt: &impl Abort, alloc: Global) -> Result<EventHeap, AllocError> {
    let mut heap = EventHeap::new(alloc);
    heap.reserve(4, 4)?;
    heap.insert(0, message(rt, 3, 0, 0, 8));
    heap.insert(1, message(rt, 2, 0, 1, 4));
    heap.insert(2, message(rt, 2, 0, 0, 9));
    heap.insert(3, message(rt, 2, 0, 0, 9));
    heap.remove(1);
    Ok(heap)
}

/// The second try is made where memory is refused in the first.
#[test]
fn orders_messages(rt: HostRuntime) {
    let mut heap = match three_of_four(&rt, rt.alloc()) {
        Ok(heap) => heap,
        Err(_) => three_of_four(&rt, rt.alloc()).expect(&rt, "memory"),
    };
    assert!(rt; heap.first().expect(&rt, "an entry").key == message(&rt, 2, 0, 0, 9));
    assert!(rt; heap.find(&message(&rt, 3, 0, 0, 8)) == Some(0));
    assert!(rt; heap.find(&message(&rt, 2, 0, 1, 4)).is_none());
    for index in [2, 3, 0] {
        assert!(rt; take_first(&mut heap) == Some(index));
    }
    assert!(rt; heap.first().is_none());
}
