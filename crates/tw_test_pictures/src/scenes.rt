//! Networks whose records were counted by hand, and what their pictures show.

use tw_figures::Detail;

/// A built-in model.
#[derive(Clone, Copy)]
pub enum Kind {
    /// A generator of this period, of the value 5.
    Gen(u64),
    /// A tally.
    Tally,
    /// A relay with this delay.
    Relay(u64),
    /// A queue with this service.
    Queue(u64),
}

/// What comes of a picture.
#[derive(Clone, Copy)]
pub enum Wanted {
    /// A picture with so many outputs, internal, external and confluent transitions, and crosses of faults.
    Picture([usize; 5]),
    /// No component has the name, or no component that is shown has the figure.
    NoSuch,
    /// No stamp has the end tick.
    BadTick,
}

/// A network, a call, and what comes of it.
pub struct Scene {
    pub names: &'static [&'static str],
    pub kinds: &'static [Kind],
    pub couplings: &'static [(usize, u8, usize, u8)],
    pub inputs: &'static [(u64, usize, u8, i64)],
    pub until: u64,
    pub from: u64,
    pub only: Option<&'static str>,
    pub figures: &'static [&'static str],
    pub detail: Detail,
    pub wanted: Wanted,
    /// Words that stand in the picture.
    pub told: &'static str,
}

/// Nothing at all: a call of this alone is of a network without components.
const NOTHING: Scene = Scene {
    names: &[],
    kinds: &[],
    couplings: &[],
    inputs: &[],
    until: 10,
    from: 0,
    only: None,
    figures: &[],
    detail: Detail::Fitting,
    wanted: Wanted::Picture([0; 5]),
    told: "0 components",
};

/// A generator of period 2 and its tally, until 5: at ticks 2 and 4 an output, an internal and an external transition.
const COUNTED: Scene = Scene {
    names: &["g", "t"],
    kinds: &[Kind::Gen(2), Kind::Tally],
    couplings: &[(0, 0, 1, 0)],
    until: 5,
    wanted: Wanted::Picture([2, 2, 2, 0, 0]),
    told: "<title>4.0 t ext 0=5 | 2 10 5</title>",
    ..NOTHING
};

/// Two queues that send to each other, with a job from outside at tick 0, until 4: outputs at 1 and 3 of a, at 2 of b.
const RING: Scene = Scene {
    names: &["a", "b"],
    kinds: &[Kind::Queue(1), Kind::Queue(1)],
    couplings: &[(0, 0, 1, 0), (1, 0, 0, 0)],
    inputs: &[(0, 0, 0, 7)],
    until: 4,
    wanted: Wanted::Picture([3, 3, 4, 0, 0]),
    told: "from outside",
    ..NOTHING
};

/// Two relays without a delay that send one item to each other from tick 3 on, with no microstep past 3: b meets the limit at 3.3.
const RELAYED: Scene = Scene {
    names: &["a", "b"],
    kinds: &[Kind::Relay(0), Kind::Relay(0)],
    couplings: &[(0, 0, 1, 0), (1, 0, 0, 0)],
    inputs: &[(3, 0, 0, 1)],
    wanted: Wanted::Picture([3, 2, 3, 0, 1]),
    told: "fault: microstep limit: b at 3.3",
    ..NOTHING
};

/// A generator of period 1 until 30,000: 29,999 outputs and as many transitions, more than a picture of marks takes.
const LONG: Scene = Scene {
    names: &["g"],
    kinds: &[Kind::Gen(1)],
    until: 30_000,
    told: "<title>g: count, 0 to 29999</title>",
    ..NOTHING
};

/// All scenes.
pub static SCENES: [Scene; 22] = [
    NOTHING,
    COUNTED,
    RING,
    RELAYED,
    Scene {
        only: Some("t,t"),
        wanted: Wanted::Picture([0, 0, 2, 0, 0]),
        told: "1 of 2 components",
        ..COUNTED
    },
    Scene {
        from: 3,
        wanted: Wanted::Picture([1, 1, 1, 0, 0]),
        told: "ticks 3 to 5",
        ..COUNTED
    },
    Scene {
        from: 5,
        wanted: Wanted::Picture([0; 5]),
        told: "0 records",
        ..COUNTED
    },
    Scene {
        figures: &["last"],
        told: "t: last",
        ..COUNTED
    },
    Scene {
        only: Some("t,u"),
        wanted: Wanted::NoSuch,
        ..COUNTED
    },
    Scene {
        only: Some("g"),
        figures: &["sum"],
        wanted: Wanted::NoSuch,
        ..COUNTED
    },
    Scene {
        until: 1_099_511_627_775,
        only: Some("u"),
        wanted: Wanted::BadTick,
        ..COUNTED
    },
    // a figure of one component; the others go on with their own
    Scene {
        figures: &["t=count"],
        told: "t: count",
        ..COUNTED
    },
    Scene {
        figures: &["t=count"],
        told: "g: count",
        ..COUNTED
    },
    // the first figure that a component has
    Scene {
        figures: &["last", "count", "t=sum"],
        told: "t: sum",
        ..COUNTED
    },
    Scene {
        figures: &["last", "g=sum"],
        wanted: Wanted::NoSuch,
        ..COUNTED
    },
    Scene {
        only: Some("t"),
        figures: &["g=count"],
        wanted: Wanted::NoSuch,
        ..COUNTED
    },
    // courses alone: the tally's sum is 0 until 2, 5 until 4, and then 10
    Scene {
        detail: Detail::Courses,
        wanted: Wanted::Picture([0; 5]),
        told: "<title>t: sum, 0 to 10</title>",
        ..COUNTED
    },
    Scene {
        detail: Detail::Courses,
        from: 3,
        wanted: Wanted::Picture([0; 5]),
        told: "<title>t: sum, 5 to 10</title>",
        ..COUNTED
    },
    Scene {
        detail: Detail::Courses,
        wanted: Wanted::Picture([0, 0, 0, 0, 1]),
        told: "fault: microstep limit: b at 3.3",
        ..RELAYED
    },
    Scene {
        detail: Detail::Marks,
        wanted: Wanted::Picture([10_000, 10_000, 0, 0, 0]),
        told: "The picture ends after 20,000 records; the run goes on.",
        ..LONG
    },
    LONG,
    // 29,999 ticks in at most 2,260 columns, two to each of the 1,130 points beside the names
    Scene {
        told: "the mean of 16 ticks",
        ..LONG
    },
];
