//! The signed count of a message.

ghost use Rattle.std.specs.Prelude.{◌≡◌};
ghost use Rattle.tw_msgs.specs.Counting.{signed_count};

use crate::message::{Item, Message, Sign};

/// How many times `message` is among the items as a positive item, minus how many times as an anti-message.
///
/// It takes no memory, and is exact for every list.
pub fn signed_count(items: &[Item], message: &Message) -> i64
    ensures { result ≡ signed_count message.now items.now }
{
    let mut count = 0i64;
    for item in items {
        if item.message == *message {
            match item.sign {
                Sign::Positive => count += 1,
                Sign::Anti => count -= 1,
            }
        }
    }
    count
}
