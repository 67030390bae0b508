//! What is done with executives and exchanges.

use crate::made::{Made, Net, Parts, Run};
use tw_process::Cancel;

/// A generator of 5 each 2 ticks, a relay with delay 1 and a tally in a row, of which the relay has 8 at tick 3.
const ROW: Net = Net::BuiltIn(Parts {
    names: &["g", "r", "t"],
    models: &[Made::Gen(2, 5), Made::Relay(1), Made::Tally],
    couplings: &[(0, 0, 1, 0), (1, 0, 2, 0)],
    inputs: &[(3, 1, 0, 8)],
    micro_limit: 100,
});

/// A slower row, of which the relay has 8 at tick 4.
const SLOW_ROW: Net = Net::BuiltIn(Parts {
    names: &["g", "r", "t"],
    models: &[Made::Gen(3, 5), Made::Relay(2), Made::Tally],
    couplings: &[(0, 0, 1, 0), (1, 0, 2, 0)],
    inputs: &[(4, 1, 0, 8)],
    micro_limit: 100,
});

/// A generator of 5 each 2 ticks and a tally.
const GEN_TALLY: Net = Net::BuiltIn(Parts {
    names: &["g", "t"],
    models: &[Made::Gen(2, 5), Made::Tally],
    couplings: &[(0, 0, 1, 0)],
    inputs: &[],
    micro_limit: 100,
});

/// Two relays with no delay that hand a value to and fro, until they meet the greatest microstep.
const MICROSTEPS: Net = Net::BuiltIn(Parts {
    names: &["a", "b"],
    models: &[Made::Relay(0), Made::Relay(0)],
    couplings: &[(0, 0, 1, 0), (1, 0, 0, 0)],
    inputs: &[(3, 0, 0, 1)],
    micro_limit: 3,
});

/// Two relays that send to one another at the same times.
const MUTUAL: Net = Net::BuiltIn(Parts {
    names: &["a", "b"],
    models: &[Made::Relay(1), Made::Relay(1)],
    couplings: &[(0, 0, 1, 0), (1, 0, 0, 0)],
    inputs: &[(0, 0, 0, 1), (0, 1, 0, 2)],
    micro_limit: 100,
});

/// A queue that has eight jobs at tick 1 and three at tick 2.
const CROWDED: Net = Net::BuiltIn(Parts {
    names: &["q"],
    models: &[Made::Queue(100)],
    couplings: &[],
    inputs: &[
        (1, 0, 0, 1),
        (1, 0, 0, 2),
        (1, 0, 0, 3),
        (1, 0, 0, 4),
        (1, 0, 0, 5),
        (1, 0, 0, 6),
        (1, 0, 0, 7),
        (1, 0, 0, 8),
        (2, 0, 0, 101),
        (2, 0, 0, 102),
        (2, 0, 0, 103),
    ],
    micro_limit: 100,
});

/// A generator of 5 each 2 ticks, a desk and a tally in a row, of which the desk has 8 on its port 1 at tick 3. The desk is a machine:
/// it keeps what comes in order, works on each for one or two ticks, and sends the first; a random number too, where there are more.
pub(crate) const DESK: &str = r#"{"format": "tw-3", "micro_limit": 100,
 "models": [
  {"name": "desk", "parameters": ["seed"], "random": "seed",
   "registers": {"got": [0, 0], "idle": 0}, "queues": {"line": 3},
   "internal": ["pop line", "if length(line) > 0 { draw; wait 1 + random(2) }"],
   "external": ["got[port] += 1; idle += elapsed; insert line value", "if left < 0 { draw; wait 1 + random(2) }"],
   "output": [{"port": 0, "value": "front(line)"}, {"when": "length(line) > 1", "port": 1, "value": "random"}],
   "words": ["got", "idle", "random", "now", "line"]}],
 "components": [{"name": "g", "model": "gen", "period": 2, "value": 5}, {"name": "d", "model": "desk", "seed": 1},
                {"name": "t", "model": "tally"}],
 "couplings": [["g", 0, "d", 0], ["d", 0, "t", 0], ["d", 1, "t", 1]],
 "inputs": [{"tick": 3, "to": "d", "port": 1, "value": 8}]}"#;

/// The row until tick 10.
const SHORT: Run = Run {
    net: ROW,
    until: 10,
    cancel: Cancel::Aggressive,
};

/// The row until tick 100.
const LONG: Run = Run {
    net: ROW,
    until: 100,
    cancel: Cancel::Aggressive,
};

/// The same, where what is taken back is cancelled lazily.
const SHORT_LAZILY: Run = Run {
    net: ROW,
    until: 10,
    cancel: Cancel::Lazy,
};

const LONG_LAZILY: Run = Run {
    net: ROW,
    until: 100,
    cancel: Cancel::Lazy,
};

/// The row with a desk until tick 10, and the same lazily.
const AT_A_DESK: Run = Run {
    net: Net::File(DESK),
    until: 10,
    cancel: Cancel::Aggressive,
};

const AT_A_DESK_LAZILY: Run = Run {
    net: Net::File(DESK),
    until: 10,
    cancel: Cancel::Lazy,
};

/// A part of what is done with an executive.
pub(crate) enum Part {
    /// The lines of a script, each of which is told of.
    Lines(&'static str),
    /// A line so often, of which nothing is told.
    Often(usize, &'static str),
    /// So many steps of a component by chains.
    Chain(usize, usize),
    /// Nine steps of a component by a list of actions.
    Replay(usize),
    /// The trace.
    Trace,
}

/// A name, how an executive begins, and what is done with it.
pub(crate) struct Scene {
    pub(crate) name: &'static str,
    pub(crate) run: Run,
    pub(crate) parts: &'static [Part],
}

/// The numbers of the relay or the desk and of the generator of a row, and of the queue.
const R: usize = 1;

const D: usize = 1;

const G: usize = 0;

const Q: usize = 0;

/// Twenty messages of the generator to the relay.
const SENT: Part = Part::Often(40, "step g");

/// Three steps of the desk, and then a message from before them.
const TAKEN_BACK: &str = "show d\nstep d\nstep d\nstep d\nstep g\npost g\ndeliver d 0\nshow d\n";

/// The desk goes on, until a second message comes when it sends.
const GONE_ON: &str =
    "step d\nstep d\nstep d\nstep g\nstep g\npost g\ndeliver d 0\nstep d\npost d\nshow d\n";

/// What is done with executives.
pub(crate) static SCENES: [Scene; 14] = [
    Scene {
        name: "straggler-of-three",
        run: SHORT,
        parts: &[Part::Lines(
            "show\nstep r\nstep r\nstep r\nstep g\npost g\ndeliver r 0\nshow r\nraise\n",
        )],
    },
    Scene {
        name: "delivered-anti-message-before",
        run: SHORT,
        parts: &[Part::Lines(
            "step r\nstep r\nstep r\nstep g\npost g\ndeliver r 0\nstep r\nstep r\nstep r\nstep r\npost r\ndeliver t 1\ndeliver t 0\ndeliver t 1\nshow t\n",
        )],
    },
    Scene {
        name: "lazy-match",
        run: SHORT_LAZILY,
        parts: &[Part::Lines(
            "step r\nstep r\nstep r\nstep g\npost g\ndeliver r 0\nshow r\nstep r\nstep r\nstep r\nstep r\npost r\ndeliver t 0\ndeliver t 0\n",
        )],
    },
    Scene {
        name: "lazy-anti",
        run: Run {
            net: SLOW_ROW,
            until: 10,
            cancel: Cancel::Lazy,
        },
        parts: &[Part::Lines(
            "step r\nstep r\nstep g\npost g\ndeliver r 0\nstep r\nstep r\nstep r\nstep r\nraise\npost r\ndeliver t 0\ndeliver t 2\nshow r\nshow t\n",
        )],
    },
    Scene {
        name: "commit-and-cut",
        run: SHORT,
        parts: &[
            Part::Lines(
                "step g\nstep g\nraise\npost g\ndeliver r 0\nraise\nstep r\nraise\nstep r\nback r 2.0.1\nback r 3.0.0\nharvest g\nharvest r\nharvest t\n",
            ),
            Part::Trace,
        ],
    },
    Scene {
        name: "mark-and-rewind",
        run: SHORT,
        parts: &[Part::Lines(
            "mark\nstep r\nstep r\nstep r\nrewind\nshow r\nstep g\nraise\nrewind\n",
        )],
    },
    Scene {
        name: "a crowded queue",
        run: Run {
            net: CROWDED,
            until: 50,
            cancel: Cancel::Aggressive,
        },
        parts: &[
            Part::Lines("step q\nstep q\nshow q\nback q 2.0.1\nshow q\nraise\nharvest q\n"),
            Part::Trace,
            Part::Chain(Q, 1),
            Part::Lines("show q\n"),
        ],
    },
    Scene {
        name: "a long row",
        run: LONG,
        parts: &[
            SENT,
            Part::Lines("post g\n"),
            Part::Often(20, "deliver r 0"),
            Part::Often(61, "step r"),
            Part::Lines("post r\n"),
            Part::Often(21, "deliver t 0"),
            Part::Often(21, "step t"),
            Part::Lines("raise\nharvest g\nharvest r\nharvest t\nshow\n"),
        ],
    },
    Scene {
        name: "a long rollback",
        run: LONG,
        parts: &[
            SENT,
            Part::Lines("post g\n"),
            Part::Often(20, "deliver r 0"),
            Part::Often(61, "step r"),
            Part::Lines("back r 0.0.0\npost r\n"),
            Part::Often(21, "deliver t 21"),
            Part::Lines("show\n"),
            Part::Often(21, "deliver t 0"),
            Part::Lines("show\n"),
        ],
    },
    Scene {
        name: "a long rollback, lazily",
        run: LONG_LAZILY,
        parts: &[
            SENT,
            Part::Lines("post g\n"),
            Part::Often(20, "deliver r 0"),
            Part::Often(61, "step r"),
            Part::Lines("back r 0.0.0\nshow\n"),
            Part::Often(3, "step r"),
            Part::Lines("post r\nshow\n"),
            Part::Often(58, "step r"),
            Part::Lines("post r\nshow\n"),
        ],
    },
    Scene {
        name: "chains",
        run: LONG,
        parts: &[
            Part::Chain(R, 3),
            Part::Lines("show r\nback r 0.0.0\npost r\n"),
            Part::Replay(G),
            Part::Chain(G, 31),
            Part::Lines("post g\n"),
            Part::Often(20, "deliver r 0"),
            Part::Chain(R, 61),
            Part::Lines("show\n"),
        ],
    },
    Scene {
        name: "a desk taken back",
        run: AT_A_DESK,
        parts: &[
            Part::Lines(TAKEN_BACK),
            Part::Lines(GONE_ON),
            Part::Lines("raise\nharvest g\nharvest d\nharvest t\nback d 4.0.1\nshow d\n"),
            Part::Trace,
        ],
    },
    Scene {
        name: "a desk taken back, lazily",
        run: AT_A_DESK_LAZILY,
        parts: &[
            Part::Lines(TAKEN_BACK),
            Part::Lines(GONE_ON),
            Part::Lines("mark\nstep d\nstep d\nrewind\nshow d\n"),
        ],
    },
    Scene {
        name: "chains of a desk",
        run: AT_A_DESK,
        parts: &[
            Part::Chain(D, 3),
            Part::Lines("show d\nback d 0.0.0\npost d\n"),
            Part::Replay(G),
            Part::Lines("post g\n"),
            Part::Often(4, "deliver d 0"),
            Part::Chain(D, 20),
            Part::Lines("show\n"),
            Part::Lines("back d 2.0.1\npost d\nshow d\n"),
            Part::Replay(D),
            Part::Lines("show d\n"),
        ],
    },
];

/// A turn of what is done with an exchange.
pub(crate) enum Turn {
    /// The actions of a script.
    Lines(&'static str),
    /// So many steps of the component that comes second, while the first is given out.
    Behind(usize),
    /// Chains of so many steps, until nothing is to be given out.
    Work(usize),
    /// What is in transit is posted and delivered.
    Settle,
    /// That, and what can be committed is.
    Sweep,
    /// The report.
    Show,
    /// The description of a component.
    Describe(usize),
    /// How the run stands.
    State,
    /// What a reader of the board sees.
    Seen,
    /// The trace.
    Trace,
}

/// A name, how an executive begins, and what is done with its exchange.
pub(crate) struct Share {
    pub(crate) name: &'static str,
    pub(crate) run: Run,
    pub(crate) turns: &'static [Turn],
}

/// Three steps of the relay, and then a message from before them; and an anti-message that waits for its message.
const STRAGGLER: &str =
    "step r\nstep r\nstep r\nstep g\npost g\ndeliver r 0\npost r\ndeliver t 1\n";

/// The same, without the anti-message.
const STRAGGLER_LAZILY: &str = "step r\nstep r\nstep r\nstep g\npost g\ndeliver r 0\n";

/// Three steps of the desk, and then a message from before them.
const STRAGGLER_AT_A_DESK: &str = "step d\nstep d\nstep d\nstep g\npost g\ndeliver d 0\n";

/// What is done with exchanges.
pub(crate) static SHARED: [Share; 11] = [
    Share {
        name: "a chain behind another component",
        run: SHORT,
        turns: &[Turn::Behind(3), Turn::Describe(R), Turn::State],
    },
    Share {
        name: "a sweep",
        run: SHORT,
        turns: &[
            Turn::Lines(STRAGGLER),
            Turn::Sweep,
            Turn::Show,
            Turn::State,
            Turn::Seen,
        ],
    },
    Share {
        name: "a sweep, lazily",
        run: SHORT_LAZILY,
        turns: &[
            Turn::Lines(STRAGGLER_LAZILY),
            Turn::Settle,
            Turn::Sweep,
            Turn::Show,
            Turn::State,
            Turn::Seen,
        ],
    },
    Share {
        name: "gen-tally",
        run: Run {
            net: GEN_TALLY,
            until: 5,
            cancel: Cancel::Aggressive,
        },
        turns: &[
            Turn::Work(1),
            Turn::Sweep,
            Turn::State,
            Turn::Seen,
            Turn::Trace,
        ],
    },
    Share {
        name: "microstep-fault",
        run: Run {
            net: MICROSTEPS,
            until: 5,
            cancel: Cancel::Aggressive,
        },
        turns: &[
            Turn::Work(1),
            Turn::Sweep,
            Turn::State,
            Turn::Seen,
            Turn::Trace,
        ],
    },
    Share {
        name: "mutual-confluent",
        run: Run {
            net: MUTUAL,
            until: 3,
            cancel: Cancel::Lazy,
        },
        turns: &[
            Turn::Work(1),
            Turn::Sweep,
            Turn::State,
            Turn::Seen,
            Turn::Trace,
        ],
    },
    Share {
        name: "a row by chains of one step",
        run: Run {
            net: ROW,
            until: 31,
            cancel: Cancel::Aggressive,
        },
        turns: &[
            Turn::Work(1),
            Turn::Sweep,
            Turn::Show,
            Turn::State,
            Turn::Seen,
        ],
    },
    Share {
        name: "a row by chains of sixteen steps",
        run: Run {
            net: ROW,
            until: 31,
            cancel: Cancel::Lazy,
        },
        turns: &[
            Turn::Work(16),
            Turn::Sweep,
            Turn::Show,
            Turn::State,
            Turn::Seen,
        ],
    },
    Share {
        name: "a sweep with a desk",
        run: AT_A_DESK,
        turns: &[
            Turn::Lines(STRAGGLER_AT_A_DESK),
            Turn::Sweep,
            Turn::Describe(D),
            Turn::State,
            Turn::Seen,
        ],
    },
    Share {
        name: "a desk by chains of one step",
        run: AT_A_DESK,
        turns: &[
            Turn::Lines(STRAGGLER_AT_A_DESK),
            Turn::Work(1),
            Turn::Sweep,
            Turn::State,
            Turn::Seen,
            Turn::Trace,
        ],
    },
    Share {
        name: "a desk by chains of sixteen steps",
        run: AT_A_DESK_LAZILY,
        turns: &[
            Turn::Lines(STRAGGLER_AT_A_DESK),
            Turn::Work(16),
            Turn::Sweep,
            Turn::State,
            Turn::Seen,
            Turn::Trace,
        ],
    },
];
