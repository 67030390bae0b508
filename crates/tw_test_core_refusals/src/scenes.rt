//! What is done with one process.

use tw_msgs::Sign;
use tw_process::Cancel;

/// How an item is handed to a process.
#[derive(Clone, Copy)]
pub(crate) enum How {
    /// It comes.
    Come,
    /// It is an anti-message, and waits for its message.
    Wait,
    /// It is a message, and is put among those that are pending.
    Put,
}

/// What is done with a process.
#[derive(Clone, Copy)]
pub(crate) enum Act {
    /// The next step is made.
    Step,
    /// The last step is taken back.
    Undo,
    /// The steps from a tick and phase on are taken back.
    Back(u64, u8),
    /// An item is handed to it, a value for port 0 at a tick.
    Hand(How, Sign, u64, i64),
    /// Room is made for one more pending message.
    Reserve,
    /// So many steps are made by chains.
    Chain(usize),
    /// What is owed for too long is posted.
    Settle,
    /// All that is outgoing is posted.
    Post,
}

/// A component of the row, its way of cancelling, and what is done with its process: each act so often, where each time is at the tick
/// after that of the time before.
pub(crate) struct Scene {
    pub(crate) name: &'static str,
    pub(crate) component: usize,
    pub(crate) cancel: Cancel,
    pub(crate) acts: &'static [(u64, Act)],
    /// The tick before which steps are committed at the end.
    pub(crate) line: u64,
}

/// The numbers of the generator and of the relay.
const G: usize = 0;

const R: usize = 1;

/// What is done with processes.
pub(crate) static SCENES: [Scene; 7] = [
    Scene {
        name: "one-process-straggler",
        component: R,
        cancel: Cancel::Aggressive,
        acts: &[
            (3, Act::Step),
            (1, Act::Hand(How::Come, Sign::Positive, 2, 5)),
        ],
        line: 0,
    },
    Scene {
        name: "one-process-straggler, lazily",
        component: R,
        cancel: Cancel::Lazy,
        acts: &[
            (3, Act::Step),
            (1, Act::Hand(How::Come, Sign::Positive, 2, 5)),
            (1, Act::Settle),
            (2, Act::Step),
        ],
        line: 3,
    },
    Scene {
        name: "messages that were put",
        component: R,
        cancel: Cancel::Aggressive,
        acts: &[
            (30, Act::Hand(How::Put, Sign::Positive, 1, 4)),
            (4, Act::Step),
            (1, Act::Reserve),
            (2, Act::Undo),
        ],
        line: 3,
    },
    Scene {
        name: "many steps",
        component: R,
        cancel: Cancel::Aggressive,
        acts: &[
            (30, Act::Hand(How::Come, Sign::Positive, 10, 5)),
            (1, Act::Reserve),
            (40, Act::Step),
            (1, Act::Reserve),
            (1, Act::Back(20, 0)),
            (30, Act::Step),
        ],
        line: 15,
    },
    Scene {
        name: "many steps, lazily",
        component: R,
        cancel: Cancel::Lazy,
        acts: &[
            (30, Act::Hand(How::Come, Sign::Positive, 10, 5)),
            (40, Act::Step),
            (1, Act::Back(20, 0)),
            (1, Act::Hand(How::Come, Sign::Positive, 20, 7)),
            (30, Act::Step),
        ],
        line: 15,
    },
    Scene {
        name: "anti-messages first",
        component: R,
        cancel: Cancel::Aggressive,
        acts: &[
            (20, Act::Hand(How::Come, Sign::Anti, 10, 5)),
            (20, Act::Hand(How::Wait, Sign::Anti, 40, 6)),
            (20, Act::Hand(How::Come, Sign::Positive, 10, 5)),
        ],
        line: 0,
    },
    Scene {
        name: "chains",
        component: G,
        cancel: Cancel::Aggressive,
        acts: &[
            (1, Act::Chain(1)),
            (1, Act::Chain(7)),
            (1, Act::Chain(40)),
            (1, Act::Back(40, 1)),
            (1, Act::Post),
        ],
        line: 40,
    },
];
