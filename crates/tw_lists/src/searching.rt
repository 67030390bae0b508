//! A message looked for in a list.

ghost use Rattle.std.specs.Prelude.{◌≡◌, ◌<◌, map};
ghost use Rattle.tw_pool.specs.Lists.{list_at};
ghost use Rattle.tw_lists.specs.Lists.{message_at};
ghost use Rattle.tw_lists.specs.Nodes.{index_of};
ghost use Rattle.tw_msgs.specs.Messages.{Sorted, has};

use tw_msgs::{Item, Message};
use tw_pool::Pool;

/// The first index in a list whose message equals this one.
pub(crate) fn find(pool: &Pool<Item, 6>, list: usize, message: &Message) -> Option<usize>
    requires { list < 6 }
    ensures { result ≡ index_of message.now (list_at pool.now.lists list) }
{
    pool.lists_law();
    let mut at = pool.first(list);
    for _ in 0..pool.len(list) {
        if let Some(index) = at {
            if pool.get(index).message == *message {
                return Some(index);
            }
            at = pool.next(index);
        }
    }
    None
}

/// Whether a list in order has a message equal to this one. It is looked for from the end on, down to its stamp.
pub(crate) fn has_late(pool: &Pool<Item, 6>, list: usize, message: &Message) -> bool
    requires list { list < 6 }
    requires sorted { Sorted (map message_at (list_at pool.now.lists list)) }
    ensures { result ≡ has message.now (map message_at (list_at pool.now.lists list)) }
{
    pool.lists_law();
    let mut at = pool.last(list);
    for _ in 0..pool.len(list) {
        let Some(index) = at else {
            return false;
        };
        let found = &pool.get(index).message;
        if *found == *message {
            return true;
        }
        if found.stamp < message.stamp {
            return false;
        }
        at = pool.prev(index);
    }
    false
}
