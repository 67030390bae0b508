//! What an executive is asked to do, and what it answers.

use tw_msgs::RecordKind;
use tw_vtime::Stamp;

/// What an executive is asked to do. Components are known by their numbers.
#[derive(Clone, Copy, Debug, PartialEq, Eq)]
pub enum Action {
    /// The next step of a component.
    Step(usize),
    /// A component's outgoing items go, in order, to the ends of their receivers' mailboxes.
    Post(usize),
    /// A component receives the item at a place of its mailbox; later items close up.
    Deliver(usize, usize),
    /// Every step of a component at or after a stamp is taken back.
    Back(usize, Stamp),
    /// Global virtual time rises to the least stamp from which anything can still change.
    Raise,
    /// A component's records from before global virtual time are committed: they go to its column.
    Harvest(usize),
}

/// What an action answers where it is not refused.
#[derive(Clone, Copy, Debug, PartialEq, Eq)]
pub enum Done {
    /// A step of this stamp and kind was made.
    Stepped(Stamp, RecordKind),
    /// So many items were posted.
    Posted(u64),
    /// This came of the item.
    Received(Received),
    /// So many steps were taken back.
    Undone(u64),
    /// Global virtual time is now this.
    Raised(Stamp),
    /// So many records were committed.
    Harvested(u64),
}

/// What became of a delivered item (Jefferson 1985). A number says how many steps were taken back.
#[derive(Clone, Copy, Debug, PartialEq, Eq)]
pub enum Received {
    /// The message is pending.
    Placed,
    /// Steps at or after its stamp were taken back, and the message is pending.
    Straggler(u64),
    /// The message and its anti-message are both gone.
    Annihilated(u64),
    /// The anti-message waits for its message.
    Waiting,
}
