//! A pool of two lists.

ghost use Rattle.std.specs.Prelude.{◌<◌, IfSome};
ghost use Rattle.tw_pool.specs.Lists.{IsLive};

use crate::messages::tell_number;
use std::alloc::Global;
use tw_pool::{LIVE_LIMIT, Pool};
use tw_test_refusal_tools::{Sum, Told};

/// A pool of two lists.
type Lists = Pool<u32, 2>;

/// A change of a pool of two lists.
enum Change {
    /// An item comes to the back of a list.
    Push(usize, u32),
    /// An item comes before the one at a place of the first list.
    Insert(usize, u32),
    /// The item at a place of the first list goes to the back of the second.
    Relink(usize),
    /// Room is made for so many more.
    Reserve(usize),
}

/// Changes of an empty pool, each so often; whether what the lists have is told.
struct Scene {
    name: &'static str,
    changes: &'static [(usize, Change)],
    is_told: bool,
}

static SCENES: [Scene; 3] = [
    Scene {
        name: "pool-relinks",
        changes: &[
            (1, Change::Push(0, 7)),
            (1, Change::Push(0, 8)),
            (1, Change::Push(0, 9)),
            (1, Change::Relink(1)),
            (1, Change::Insert(1, 6)),
        ],
        is_told: true,
    },
    Scene {
        name: "a long pool",
        changes: &[
            (40, Change::Push(0, 1)),
            (40, Change::Push(1, 2)),
            (70, Change::Insert(5, 3)),
            (20, Change::Relink(0)),
        ],
        is_told: false,
    },
    Scene {
        name: "room for all",
        changes: &[
            (1, Change::Reserve(LIVE_LIMIT)),
            (9, Change::Push(0, 1)),
            (1, Change::Reserve(LIVE_LIMIT - 9)),
        ],
        is_told: false,
    },
];

/// The index at a place of the first list.
fn index_at(pool: &Lists, place: usize) -> Option<usize>
    ensures { IfSome result (λ index. IsLive index pool.now.lists) }
{
    let mut at = pool.first(0);
    for _ in 0..place {
        at = pool.next(at?);
    }
    at
}

/// Makes a change, and answers whether it stands; one at a place where nothing is does nothing.
fn make(pool: &mut Lists, change: &Change) -> bool {
    match *change {
        Change::Push(list, item) => pool.push_back(list.min(1), item).is_ok(),
        Change::Reserve(count) => pool.reserve(count).is_ok(),
        Change::Insert(place, item) => match index_at(pool, place) {
            Some(at) => pool.insert_before(at, item).is_ok(),
            None => true,
        },
        Change::Relink(place) => {
            if let Some(at) = index_at(pool, place) {
                pool.relink(at, 1);
            }
            true
        }
    }
}

/// Adds the items of a list to a sum.
fn add_list(sum: &mut Sum, pool: &Lists, list: usize)
    requires { list < 2 }
{
    sum.add_count(pool.len(list));
    let mut at = pool.first(list);
    for _ in 0..pool.len(list) {
        let Some(index) = at else {
            break;
        };
        sum.add(u64::from(*pool.get(index)));
        at = pool.next(index);
    }
}

/// The sum over the items of both lists.
fn look(pool: &Lists) -> Sum {
    let mut sum = Sum::new();
    add_list(&mut sum, pool, 0);
    add_list(&mut sum, pool, 1);
    sum
}

/// Makes a change, at the second try where memory is refused at the first.
fn grow(told: &mut Told, pool: &mut Lists, change: &Change) {
    let before = look(pool);
    if !make(pool, change) {
        let after = look(pool);
        told.compare("pool", before, after);
        if !make(pool, change) {
            told.give_up("pool");
        }
    }
}

/// Makes a change so often.
fn repeat(told: &mut Told, pool: &mut Lists, change: &Change, times: usize) {
    for _ in 0..times {
        grow(told, pool, change);
    }
}

/// Makes the changes of a scene.
fn follow(told: &mut Told, pool: &mut Lists, changes: &[(usize, Change)]) {
    for (times, change) in changes {
        repeat(told, pool, change, *times);
    }
}

/// Tells the items of a list, on a line.
fn tell_list(told: &mut Told, pool: &Lists, list: usize)
    requires { list < 2 }
{
    let mut at = pool.first(list);
    for _ in 0..pool.len(list) {
        let Some(index) = at else {
            break;
        };
        tell_number(told, " ", *pool.get(index) as usize);
        at = pool.next(index);
    }
    told.say("\n");
}

/// Tells what the lists have, where that is told, and how many items.
fn tell(told: &mut Told, pool: &Lists, is_told: bool) {
    if is_told {
        tell_list(told, pool, 0);
        tell_list(told, pool, 1);
    }
    tell_number(told, "lengths ", pool.len(0));
    tell_number(told, " ", pool.len(1));
    told.say("\n");
}

/// Plays a scene.
fn play_scene(told: &mut Told, alloc: Global, scene: &Scene) {
    told.begin(scene.name);
    let mut pool = Pool::new(alloc);
    follow(told, &mut pool, scene.changes);
    tell(told, &pool, scene.is_told);
}

/// Plays the scenes.
pub(crate) fn play(told: &mut Told, alloc: Global) {
    for scene in SCENES.iter() {
        play_scene(told, alloc, scene);
    }
}
