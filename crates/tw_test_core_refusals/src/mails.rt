//! Mailboxes, to which several items are posted at once.

ghost use Rattle.std.specs.Prelude.{◌≡◌, ◌<◌, length};
ghost use Rattle.std.specs.List.{AllByRecursion as Each};

use crate::messages::{item, tell_items, tell_number};
use std::alloc::Global;
use tw_mail::Mailboxes;
use tw_msgs::{Item, Sign};
use tw_test_refusal_tools::{Sum, Told, add_items};

// How many mailboxes there are.
const BOXES: usize = 3;

/// The sum over all items.
fn look(mail: &Mailboxes) -> Sum
    requires { length mail.now.boxes ≡ 3 }
{
    let mut sum = Sum::new();
    sum.add(mail.least().pack());
    for to in 0..BOXES {
        add_items(&mut sum, mail.items(to));
    }
    sum
}

/// Posts items, at the second try where memory is refused at the first.
fn post(told: &mut Told, mail: &mut Mailboxes, items: &[Item])
    requires boxes { length mail.old.boxes ≡ 3 }
    requires known { Each (λ i. i.message.to < 3) items.now }
    ensures { length mail.new.boxes ≡ 3 }
{
    let before = look(mail);
    if mail.post(items).is_err() {
        let after = look(mail);
        told.compare("post", before, after);
        if mail.post(items).is_err() {
            told.give_up("post");
        }
    }
}

/// Posts three items of a tick and of the two after it: one to each mailbox but the last, and an anti-message to the second.
fn post_three(told: &mut Told, mail: &mut Mailboxes, tick: u64)
    requires { length mail.old.boxes ≡ 3 }
    ensures { length mail.new.boxes ≡ 3 }
{
    let (Some(first), Some(second), Some(third)) = (
        item(Sign::Positive, tick, 0, 7),
        item(Sign::Anti, tick, 1, 8),
        item(Sign::Positive, tick, 1, 9),
    ) else {
        told.give_up("item");
        return;
    };
    post(told, mail, &[first, second, third]);
}

/// Posts often.
fn post_often(told: &mut Told, mail: &mut Mailboxes)
    requires { length mail.old.boxes ≡ 3 }
    ensures { length mail.new.boxes ≡ 3 }
{
    for tick in 1..20 {
        post_three(told, mail, tick);
    }
}

/// Tells how many items there are, and the last two.
fn tell_last(told: &mut Told, items: &[Item]) {
    let count = items.len();
    tell_number(told, "items ", count);
    told.say("\n");
    if count >= 2 {
        tell_items(told, "mail ", &items[count - 2..]);
    }
}

/// Posts often, and tells what the last of the items in each mailbox are.
fn play_on(told: &mut Told, mut mail: Mailboxes)
    requires { length mail.boxes ≡ 3 }
{
    post_often(told, &mut mail);
    for to in 0..BOXES {
        tell_last(told, mail.items(to));
    }
}

/// Makes the mailboxes, and plays on them.
pub(crate) fn play(told: &mut Told, alloc: Global) {
    told.begin("mailboxes");
    let made = match Mailboxes::new(alloc, BOXES) {
        Err(_) => Mailboxes::new(alloc, BOXES),
        made => made,
    };
    match made {
        Ok(mail) => play_on(told, mail),
        Err(_) => told.give_up("new"),
    }
}
