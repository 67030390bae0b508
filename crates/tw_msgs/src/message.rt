//! Messages, and items in transit: messages with a sign.

ghost use Rattle.std.specs.Prelude.{◌≡◌, ◌↔◌, List, true};
ghost use Rattle.std.specs.Cmp.{IsTotalOrder};
ghost use Rattle.std.specs.List.Sorted.{IsPermutation};
ghost use Rattle.std.specs.Ordering.{is_le};
ghost use Rattle.std.specs.declared.cmp.Ordering.TheVariants.{Less, Equal};
ghost use Rattle.tw_msgs.specs.Messages.{
  same_message,
  at_or_before,
  sorted_messages,
  ComesBefore,
  Sorted,
};

use tw_vtime::Stamp;

/// A message: a value for a port of a component, at a stamp.
///
/// Messages are ordered by stamp, port, value and receiver, in the order of the fields. The sender is no
/// part of a message.
#[derive(Clone, Copy, Debug, PartialEq, Eq, PartialOrd, Ord)]
pub struct Message {
    /// When the receiver takes it: a stamp of phase 1.
    pub stamp: Stamp,
    /// The receiver's port. It is 0 to 15 if the message comes by a coupling or is an input of a network; else it may
    /// be any.
    pub port: u8,
    /// What is sent.
    pub value: i64,
    /// The number of the receiving component.
    pub to: usize,
}

/// Whether an item is a message or its anti-message (Jefferson 1985).
#[derive(Clone, Copy, Debug, PartialEq, Eq)]
pub enum Sign {
    /// The message itself.
    Positive,
    /// What takes an equal message away where the two meet.
    Anti,
}

/// An item in transit: a message with a sign.
#[derive(Clone, Copy, Debug, PartialEq, Eq)]
pub struct Item {
    /// Whether the message is sent or taken back.
    pub sign: Sign,
    /// The message itself.
    pub message: Message,
}

/// What the order of messages is. It does nothing.
///
/// Messages are ordered by stamp, then port, then value, then receiver. The order is total, and only equal messages
/// compare as equal. `at_or_before` and `same_message` of the definitions agree with the order and with `==`, and
/// `sorted_messages` is the only list of the same messages in that order.
pub fn message_order_law()
    ensures order { (m n : Message) → (⟦<Message as Ord>⟧.cmp m n ≡ Less) ↔ ComesBefore m n }
    ensures ties { (m n : Message) → (⟦<Message as Ord>⟧.cmp m n ≡ Equal) ↔ (m ≡ n) }
    ensures total { IsTotalOrder ⟦<Message as Ord>⟧.cmp }
    ensures not_after { (m n : Message) → at_or_before m n ≡ is_le (⟦<Message as Ord>⟧.cmp m n) }
    ensures same { (m n : Message) → (same_message m n ≡ true) ↔ (m ≡ n) }
    ensures sorted { (ms : List Message) → IsPermutation ms (sorted_messages ms)
        × Sorted (sorted_messages ms) }
    ensures only_sorted { (ms ns : List Message) → IsPermutation ms ns → Sorted ns
        → ns ≡ sorted_messages ms }
{}
