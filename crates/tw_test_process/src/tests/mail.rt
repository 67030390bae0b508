//! Mailboxes by a worked example.

ghost use Rattle.std.specs.Prelude.{◌≡◌, ◌<◌, length};

use super::helpers::{assert_items, item, stamp};
use std::alloc::AllocError;
use std::process::Abort;
use tw_mail::Mailboxes;
use tw_msgs::Sign;
use tw_vtime::Stamp;

/// What is done with the mailboxes of two components: their component, then the place and the tick.
enum Move {
    /// An item of a tick comes to a component.
    Post(Sign, usize, u64),
    /// The item at a place is taken, which is of this tick; none where there is none.
    Take(usize, usize, Option<u64>),
    /// The message at a place is taken, which is of this tick, and put back.
    Return(usize, usize, u64),
}

/// Takes the item at a place, if there is one.
fn take(mail: &mut Mailboxes, to: usize, place: usize) -> Option<Stamp>
    requires two { length mail.old.boxes ≡ 2 }
    requires known { to < 2 }
    ensures { length mail.new.boxes ≡ 2 }
{
    match mail.take(to, place) {
        Some(item) => Some(item.message.stamp),
        None => None,
    }
}

/// Takes the item at a place, which is a message of a tick, and puts it back.
fn take_and_put_back(rt: &impl Abort, mail: &mut Mailboxes, to: usize, place: usize, tick: u64)
    requires two { length mail.old.boxes ≡ 2 }
    requires known { to < 2 }
    ensures { length mail.new.boxes ≡ 2 }
{
    let taken = mail.take(to, place).expect(rt, "an item");
    assert!(rt; taken == item(rt, Sign::Positive, tick, to, 7));
    mail.put_back(to, place, taken);
}

/// The stamp of messages of a tick.
fn at(rt: &impl Abort, tick: Option<u64>) -> Option<Stamp> {
    match tick {
        Some(tick) => Some(stamp(rt, tick, 0, 1)),
        None => None,
    }
}

/// Does it.
fn make(rt: &impl Abort, mail: &mut Mailboxes, it: &Move) -> Result<(), AllocError>
    requires { length mail.old.boxes ≡ 2 }
    ensures { length mail.new.boxes ≡ 2 }
{
    match *it {
        Move::Post(sign, to, tick) => {
            assert!(rt; to < 2);
            mail.post(&[item(rt, sign, tick, to, 7)])
        }
        Move::Take(to, place, tick) => {
            assert!(rt; to < 2);
            assert!(rt; take(mail, to, place) == at(rt, tick));
            Ok(())
        }
        Move::Return(to, place, tick) => {
            assert!(rt; to < 2);
            take_and_put_back(rt, mail, to, place, tick);
            Ok(())
        }
    }
}

/// What is done with empty mailboxes, each with how many items they have then and the least tick of all.
static MOVES: [(Move, [usize; 2], Option<u64>); 11] = [
    (Move::Post(Sign::Positive, 1, 5), [0, 1], Some(5)),
    (Move::Post(Sign::Positive, 1, 3), [0, 2], Some(3)),
    (Move::Post(Sign::Positive, 1, 4), [0, 3], Some(3)),
    (Move::Post(Sign::Anti, 0, 2), [1, 3], Some(2)),
    (Move::Return(1, 1, 3), [1, 3], Some(2)),
    (Move::Take(1, 3, None), [1, 3], Some(2)),
    (Move::Take(0, 0, Some(2)), [0, 3], Some(3)),
    (Move::Take(1, 1, Some(3)), [0, 2], Some(4)),
    (Move::Return(1, 0, 5), [0, 2], Some(4)),
    (Move::Take(1, 0, Some(5)), [0, 1], Some(4)),
    (Move::Post(Sign::Positive, 1, 9), [0, 2], Some(4)),
];

/// Asserts how many items there are, and the least tick.
fn assert_mail(rt: &impl Abort, mail: &Mailboxes, counts: [usize; 2], least: Option<u64>)
    requires { length mail.now.boxes ≡ 2 }
{
    let least = match least {
        Some(tick) => stamp(rt, tick, 0, 1),
        None => Stamp::END,
    };
    assert!(rt; mail.least() == least && mail.len(0) == counts[0] && mail.len(1) == counts[1]);
}

/// How many items there are, and the least tick.
type Counted = ([usize; 2], Option<u64>);

/// Does it, at the second try where the first is refused, which leaves the mailboxes as they were: asserts how they
/// stand before and after it.
fn grow(rt: &impl Abort, mail: &mut Mailboxes, before: Counted, it: &Move, after: Counted)
    requires { length mail.old.boxes ≡ 2 }
    ensures { length mail.new.boxes ≡ 2 }
{
    if make(rt, mail, it).is_err() {
        assert_mail(rt, mail, before.0, before.1);
        make(rt, mail, it).expect(rt, "memory");
    }
    assert_mail(rt, mail, after.0, after.1);
}

#[test]
fn items_close_up_and_are_put_back(rt: HostRuntime) {
    let mut mail = Mailboxes::new(rt.alloc(), 2).expect(&rt, "memory");
    assert!(rt; mail.least() == Stamp::END);
    let mut before = ([0, 0], None);
    for (it, counts, least) in MOVES.iter() {
        grow(&rt, &mut mail, before, it, (*counts, *least));
        before = (*counts, *least);
    }
    assert_items(
        &rt,
        mail.items(1),
        1,
        &[(Sign::Positive, 4, 7), (Sign::Positive, 9, 7)],
    );
}
