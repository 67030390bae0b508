//! Networks, scripts, and what they must do, worked out by hand.

use std::alloc::Global;
use std::process::Abort;
use tw_actions::Cancel;
use tw_models::Model;
use tw_network::Network;

/// A network.
#[derive(Clone, Copy, PartialEq, Eq)]
pub(crate) enum Net {
    /// A generator of period 2 and value 5, a relay of delay 1 and a tally in a row, of which the relay has 0=8 at tick 3.
    Row,
    /// The same with a queue of service 2 in place of the relay.
    Queue,
    /// A generator, two queues and a tally in a line, with orders from outside.
    Line,
    /// No components.
    Empty,
}

/// A script, and what it must do until tick 10.
pub(crate) struct Scene {
    pub(crate) net: Net,
    pub(crate) cancel: Cancel,
    pub(crate) script: &'static str,
    pub(crate) seen: &'static str,
    /// Parts of the picture, and how often they are there: those of the legend once more.
    pub(crate) drawn: &'static [(&'static str, usize)],
}

/// The relay runs ahead; the source comes late, and the relay's anti-message makes the tally fall; the source runs ahead and is
/// taken back, but not before global virtual time; in the end all is right, and is committed.
pub(crate) static ROW: Scene = Scene {
    net: Net::Row,
    cancel: Cancel::Aggressive,
    script: "\
step r\nstep r\nstep r\npost r\ndeliver t 0\nstep t\n\
step s\npost s\ndeliver r 0\npost r\ndeliver t 0\n\
step s\nstep s\nstep s\nraise\nback s 3.0.0\nback s 1.0.0\nharvest s\n\
step r\nstep r\nstep r\npost r\ndeliver t 0\nstep t\nshow\nraise\nharvest r\nharvest s\n",
    seen: "\
actions 27 steps 12 outputs 4 undone 6
fall 9 of 1 straggler to start from 2.0.1 on, 3 undone, 0 before
fall 11 of 2 anti to start from 4.0.1 on, 1 undone, 0 before
fall 16 of 0 back to 2.0.1 from 4.0.0 on, 2 undone, 0 before
+ 2 of 1 to 2 8 at 4.0.1 by 4.0.0 delivered 5
+ 7 of 0 to 1 5 at 2.0.1 by 2.0.0 delivered 9
- 9 of 1 to 2 8 at 4.0.1 by start delivered 11
+ 20 of 1 to 2 5 at 3.0.1 by 3.0.0 delivered 23
rise 15 to 2.0.1
rise 25 to 4.0.0
commit 18 of 0 from 0.0.0 to 2.0.1
commit 26 of 1 from 0.0.0 to 4.0.0
commit 27 of 0 from 2.0.1 to 4.0.0
refused 17 at 2.0.1
ends 2.0.1 3.0.1 3.0.1
",
    drawn: &[
        ("<title>a &lt;scene&gt;</title>", 2),
        (
            "3 components \u{b7} 27 actions \u{b7} 12 steps \u{b7} 3 rollbacks \u{b7} until tick 10<",
            1,
        ),
        ("class=\"fall straggler w", 2),
        ("class=\"fall anti w", 2),
        ("class=\"fall hand w", 2),
        ("class=\"msg w1 neg\"", 1),
        ("class=\"g\"", 4),
        ("class=\"commit w", 4),
        ("class=\"no w", 2),
        ("17: back s 1.0.0 \u{2192} refused 14 BeforeGvt", 2),
        ("not delivered", 0),
        ("microsteps", 0),
        ("show", 0),
        ("</g>", 4),
    ],
};

/// The queue runs ahead; the source comes late, and the queue serves its item first. What it had sent is owed until a Post finds
/// that it is not sent again.
pub(crate) static QUEUE: Scene = Scene {
    net: Net::Queue,
    cancel: Cancel::Lazy,
    script: "\
step q\nstep q\nstep q\npost q\ndeliver t 0\nstep t\n\
step s\npost s\ndeliver q 0\nstep q\nstep q\nstep q\nstep q\npost q\n\
deliver t 1\ndeliver t 0\nstep t\nraise\n",
    seen: "\
actions 18 steps 10 outputs 3 undone 4
fall 9 of 1 straggler to start from 2.0.1 on, 3 undone, 0 before
fall 15 of 2 anti to start from 5.0.1 on, 1 undone, 0 before
+ 2 of 1 to 2 8 at 5.0.1 by 5.0.0 delivered 5
+ 7 of 0 to 1 5 at 2.0.1 by 2.0.0 delivered 9
- 14 of 1 to 2 8 at 5.0.1 by start delivered 15
+ 12 of 1 to 2 5 at 4.0.1 by 4.0.0 delivered 16
rise 18 to 2.0.1
ends 2.0.0 4.0.1 4.0.1
",
    drawn: &[
        ("until tick 10 \u{b7} lazy cancelling<", 1),
        ("class=\"fall straggler w", 2),
        ("class=\"fall anti w", 2),
        ("falls by Back", 0),
        ("committed by a harvest", 0),
        (
            "anti-message to t, 0=8 at 5.0.1, made by action 14; 15: deliver t 1 \u{2192} annihilated 1",
            1,
        ),
    ],
};

/// A rewind takes back two steps of the source and one of the relay; a second one takes back nothing more.
pub(crate) static REWOUND: Scene = Scene {
    net: Net::Row,
    cancel: Cancel::Aggressive,
    script: "\
rewind\nstep s\nstep s\nmark\npost s\nstep s\nstep s\ndeliver r 0\nstep r\nstep r\nstep r\npost s\nshow r\n\
rewind\npost s\nraise\nrewind\nback t 0.0.0\n",
    seen: "\
actions 17 steps 7 outputs 3 undone 3
fall 13 of 0 back to 2.0.1 from 4.0.0 on, 2 undone, 0 before
fall 13 of 1 back to 3.0.0 from 3.0.1 on, 1 undone, 1 before
+ 2 of 0 to 1 5 at 2.0.1 by 2.0.0 delivered 8
+ 6 of 0 to 1 5 at 4.0.1 by 4.0.0 not delivered
- 13 of 0 to 1 5 at 4.0.1 by start not delivered
rise 15 to 3.0.1
refused 1 at start
refused 17 at start
ends 2.0.1 3.0.0 start
",
    drawn: &[
        ("class=\"fall hand w", 3),
        ("rewind, 2 undone", 1),
        ("13: rewind \u{2192} undone 3", 5),
        ("made by action 13; not delivered", 1),
    ],
};

/// A component of a network.
fn add(
    rt: &impl Abort,
    alloc: Global,
    components: &mut Vec<(String, Model)>,
    name: &str,
    model: Model,
) {
    let name = String::from_str(alloc, name).expect(rt, "memory");
    components.push((name, model)).ok().expect(rt, "memory");
}

/// The components of a network.
fn components(rt: &impl Abort, alloc: Global, net: Net) -> Vec<(String, Model)> {
    let mut made = Vec::new(alloc);
    if net == Net::Empty {
        return made;
    }
    let value = if net == Net::Line { 1 } else { 5 };
    add(
        rt,
        alloc,
        &mut made,
        "s",
        Model::generator(2, value).ok().expect(rt, "a generator"),
    );
    match net {
        Net::Row => add(
            rt,
            alloc,
            &mut made,
            "r",
            Model::relay(1).ok().expect(rt, "a relay"),
        ),
        Net::Line => add(
            rt,
            alloc,
            &mut made,
            "p",
            Model::queue(1).ok().expect(rt, "a queue"),
        ),
        _ => {}
    }
    if net != Net::Row {
        add(
            rt,
            alloc,
            &mut made,
            "q",
            Model::queue(2).ok().expect(rt, "a queue"),
        );
    }
    add(rt, alloc, &mut made, "t", Model::Tally);
    made
}

/// The couplings of so many components in a line.
static COUPLINGS: [(usize, u8, usize, u8); 3] = [(0, 0, 1, 0), (1, 0, 2, 0), (2, 0, 3, 0)];

/// What comes from outside.
static ONE: [(u64, usize, u8, i64); 1] = [(3, 1, 0, 8)];

/// What comes from outside of a line.
static ORDERS: [(u64, usize, u8, i64); 6] = [
    (1, 1, 0, 9),
    (2, 2, 0, 9),
    (5, 2, 0, 9),
    (7, 1, 0, 9),
    (9, 1, 0, 9),
    (11, 2, 0, 9),
];

/// A network.
pub(crate) fn network(rt: &impl Abort, alloc: Global, net: Net) -> Network<Model> {
    let components = components(rt, alloc, net);
    let (couplings, inputs) = match net {
        Net::Row | Net::Queue => (&COUPLINGS[..2], ONE.as_slice()),
        Net::Line => (COUPLINGS.as_slice(), ORDERS.as_slice()),
        Net::Empty => (&COUPLINGS[..0], &ONE[..0]),
    };
    let couplings = Vec::from_slice(alloc, couplings).expect(rt, "memory");
    let inputs = Vec::from_slice(alloc, inputs).expect(rt, "memory");
    Network::new(alloc, components, couplings, inputs, 100)
        .ok()
        .expect(rt, "a network")
}
