//! Pools by worked examples, and up to their limit.

ghost use Rattle.std.specs.Prelude.{◌<◌, IfSome};
ghost use Rattle.tw_pool.specs.Lists.{IsLive};

use std::alloc::Global;
use std::process::Abort;
use tw_pool::{LIVE_LIMIT, Pool, PoolRefused};
use tw_vtime::Refusal;

/// A pool of two lists.
type Lists = Pool<u32, 2>;

/// The index at a place of a list.
fn index_at(pool: &Lists, list: usize, place: usize) -> Option<usize>
    requires { list < 2 }
    ensures { IfSome result (λ index. IsLive index pool.now.lists) }
{
    let mut at = pool.first(list);
    for _ in 0..place {
        at = pool.next(at?);
    }
    at
}

/// Whether a list has these items, from an index on, read forward.
fn is_forward(pool: &Lists, first: Option<usize>, items: &[u32]) -> bool
    requires { IfSome first (λ index. IsLive index pool.now.lists) }
{
    match (first, items.split_first()) {
        (None, None) => true,
        (Some(index), Some((item, later))) => {
            pool.get(index) == item && is_forward(pool, pool.next(index), later)
        }
        _ => false,
    }
}

/// Whether a list has these items, up to an index, read backward.
fn is_backward(pool: &Lists, last: Option<usize>, items: &[u32]) -> bool
    requires { IfSome last (λ index. IsLive index pool.now.lists) }
{
    match (last, items.split_last()) {
        (None, None) => true,
        (Some(index), Some((item, earlier))) => {
            pool.get(index) == item && is_backward(pool, pool.prev(index), earlier)
        }
        _ => false,
    }
}

/// Whether a list has these items, read either way.
fn has(pool: &Lists, list: usize, items: &[u32]) -> bool
    requires { list < 2 }
{
    pool.len(list) == items.len()
        && is_forward(pool, pool.first(list), items)
        && is_backward(pool, pool.last(list), items)
}

/// A change of a pool of two lists.
enum Change {
    /// An item comes to the back of a list.
    Push(usize, u32),
    /// An item comes before the one at a place of the first list.
    Insert(usize, u32),
    /// The item at a place of the first list goes to the back of the second.
    Relink(usize),
    /// This item is taken from a place of the first list.
    Take(usize, u32),
    /// The first items, so many, of the first list are let go.
    Cut(usize),
    /// The last items, so many, of the first list go to the back of the second.
    RelinkLast(usize),
}

/// The answer without what it hands back.
fn without_item(answer: Result<usize, (u32, PoolRefused)>) -> Result<(), PoolRefused> {
    match answer {
        Ok(_) => Ok(()),
        Err((_, refused)) => Err(refused),
    }
}

/// Makes a change at a place of the first list.
fn change_at(
    rt: &impl Abort,
    pool: &mut Lists,
    place: usize,
    change: &Change,
) -> Result<(), PoolRefused> {
    let at = index_at(pool, 0, place).expect(rt, "an index");
    match *change {
        Change::Insert(_, item) => without_item(pool.insert_before(at, item)),
        Change::Take(_, item) => {
            assert!(rt; pool.take(at) == item);
            Ok(())
        }
        _ => {
            pool.relink(at, 1);
            Ok(())
        }
    }
}

/// Makes a change.
fn make(rt: &impl Abort, pool: &mut Lists, change: &Change) -> Result<(), PoolRefused> {
    match *change {
        Change::Push(list, item) => {
            assert!(rt; list < 2);
            without_item(pool.push_back(list, item))
        }
        Change::Insert(place, _) | Change::Take(place, _) | Change::Relink(place) => {
            change_at(rt, pool, place, change)
        }
        Change::Cut(count) => {
            assert!(rt; count <= pool.len(0));
            pool.cut_front(0, count);
            Ok(())
        }
        Change::RelinkLast(count) => {
            assert!(rt; count <= pool.len(0));
            pool.relink_last(0, count, 1);
            Ok(())
        }
    }
}

/// Changes of a pool, and what its two lists have then.
type Worked = (Change, &'static [u32], &'static [u32]);

/// The worked example of single items.
static RELINKED: [Worked; 7] = [
    (Change::Push(0, 7), &[7], &[]),
    (Change::Push(0, 8), &[7, 8], &[]),
    (Change::Push(0, 9), &[7, 8, 9], &[]),
    (Change::Relink(1), &[7, 9], &[8]),
    (Change::Insert(1, 6), &[7, 6, 9], &[8]),
    (Change::Take(0, 7), &[6, 9], &[8]),
    (Change::Cut(1), &[9], &[8]),
];

/// The last of a list put behind another, and more than eight items.
static MOVED: [Worked; 13] = [
    (Change::Push(0, 1), &[1], &[]),
    (Change::Push(0, 2), &[1, 2], &[]),
    (Change::Push(0, 3), &[1, 2, 3], &[]),
    (Change::Push(0, 4), &[1, 2, 3, 4], &[]),
    (Change::Push(0, 5), &[1, 2, 3, 4, 5], &[]),
    (Change::Push(1, 6), &[1, 2, 3, 4, 5], &[6]),
    (Change::RelinkLast(3), &[1, 2], &[6, 3, 4, 5]),
    (Change::Push(0, 7), &[1, 2, 7], &[6, 3, 4, 5]),
    (Change::Push(0, 8), &[1, 2, 7, 8], &[6, 3, 4, 5]),
    (Change::Push(1, 9), &[1, 2, 7, 8], &[6, 3, 4, 5, 9]),
    (Change::Push(1, 10), &[1, 2, 7, 8], &[6, 3, 4, 5, 9, 10]),
    (Change::Push(1, 11), &[1, 2, 7, 8], &[6, 3, 4, 5, 9, 10, 11]),
    (
        Change::RelinkLast(4),
        &[],
        &[6, 3, 4, 5, 9, 10, 11, 1, 2, 7, 8],
    ),
];

/// Makes a change, at the second try where the first is refused, which leaves the lists as they were: asserts what they
/// have before and after it.
fn grow(rt: &impl Abort, pool: &mut Lists, before: (&[u32], &[u32]), worked: &Worked) {
    if let Err(refused) = make(rt, pool, &worked.0) {
        assert!(rt; refused == PoolRefused::OutOfMemory);
        assert!(rt; has(pool, 0, before.0) && has(pool, 1, before.1));
        make(rt, pool, &worked.0).expect(rt, "memory");
    }
    assert!(rt; has(pool, 0, worked.1) && has(pool, 1, worked.2));
}

/// Makes changes of an empty pool.
fn follow(rt: &impl Abort, alloc: Global, changes: &[Worked]) {
    let mut pool = Pool::new(alloc);
    let mut before: (&[u32], &[u32]) = (&[], &[]);
    for worked in changes {
        grow(rt, &mut pool, before, worked);
        before = (worked.1, worked.2);
    }
}

/// Whichever request for memory is refused.
#[test]
fn items_are_moved_and_come_and_go(rt: HostRuntime) {
    follow(&rt, rt.alloc(), &RELINKED);
    follow(&rt, rt.alloc(), &MOVED);
}

#[test]
fn refuses_past_the_limit(rt: HostRuntime) {
    let mut pool: Lists = Pool::new(rt.alloc());
    assert!(rt; pool.reserve(1_048_577) == Err(PoolRefused::Full) && pool.top() == 0);
    assert!(rt;
        Refusal::from(PoolRefused::Full).number() == 12
            && Refusal::from(PoolRefused::OutOfMemory).number() == 4
    );
    pool.reserve(LIVE_LIMIT).expect(&rt, "room for all");
    for item in 0..1_048_576 {
        pool.push_back(0, item).expect(&rt, "room is left");
    }
    assert!(rt;
        pool.push_back(1, 5) == Err((5, PoolRefused::Full))
            && pool.reserve(1) == Err(PoolRefused::Full)
    );
    assert!(rt; pool.len(0) == 1_048_576);
}
