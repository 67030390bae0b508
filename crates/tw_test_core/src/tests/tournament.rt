//! A tournament of times, a small one.

ghost use Rattle.std.specs.Prelude.{◌≡◌, length};

use super::helpers::stamp;
use std::alloc::Global;
use std::process::Abort;
use tw_tournament::Tournament;
use tw_vtime::Stamp;

/// A time that is set, none for the end, and then the least tick and whose it is.
struct Change {
    number: usize,
    tick: Option<u64>,
    least: u64,
    firsts: &'static [usize],
}

/// The changes of a tournament of five.
static CHANGES: [Change; 6] = [
    Change {
        number: 0,
        tick: Some(7),
        least: 7,
        firsts: &[0],
    },
    Change {
        number: 1,
        tick: Some(3),
        least: 3,
        firsts: &[1],
    },
    Change {
        number: 2,
        tick: Some(9),
        least: 3,
        firsts: &[1],
    },
    Change {
        number: 4,
        tick: Some(3),
        least: 3,
        firsts: &[1, 4],
    },
    Change {
        number: 1,
        tick: Some(8),
        least: 3,
        firsts: &[4],
    },
    Change {
        number: 4,
        tick: None,
        least: 7,
        firsts: &[0],
    },
];

/// Sets a time, and asserts what is first then.
fn make_change(rt: &impl Abort, alloc: Global, times: &mut Tournament, change: &Change)
    requires { length times.old.times ≡ 5 }
    ensures { length times.new.times ≡ 5 }
{
    assert!(rt; change.number < 5);
    let time = match change.tick {
        Some(tick) => stamp(rt, tick, 0, 0),
        None => Stamp::END,
    };
    times.set(change.number, time);
    let least = times.least();
    assert!(rt; least == stamp(rt, change.least, 0, 0) && least < Stamp::END);
    let mut firsts = Vec::new(alloc);
    times.collect(least, &mut firsts).expect(rt, "memory");
    assert!(rt; firsts.as_slice() == change.firsts);
    let Some((time, number)) = times.first() else {
        panic!(rt; "none is the first");
    };
    assert!(rt; time == least && change.firsts.first() == Some(&number));
}

#[test]
fn the_first_of_five_and_of_none(rt: HostRuntime) {
    let mut times = Tournament::new(rt.alloc(), 5).expect(&rt, "memory");
    assert!(rt; times.least() == Stamp::END);
    for next in CHANGES.iter() {
        make_change(&rt, rt.alloc(), &mut times, next);
    }
    let none = Tournament::new(rt.alloc(), 0).expect(&rt, "memory");
    assert!(rt; none.least() == Stamp::END && none.first().is_none());
}
