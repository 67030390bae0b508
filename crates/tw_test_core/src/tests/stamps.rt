//! Stamps, their advance and the table of refusals.

use super::helpers::stamp;
use std::alloc::{AllocError, Global};
use std::fmt::Display;
use std::process::Abort;
use tw_vtime::{Limit, Range, Refusal, Stamp, advance};

/// A stamp, its number, that number's eight bytes, the high byte first, and the numbers of the output and the
/// transition at the same tick and microstep.
struct Listed {
    tick: u64,
    micro: u32,
    phase: u8,
    number: u64,
    bytes: [u8; 8],
    output: u64,
    transition: u64,
}

/// The listed stamps.
static LISTED: [Listed; 6] = [
    Listed {
        tick: 0,
        micro: 0,
        phase: 0,
        number: 0,
        bytes: [0, 0, 0, 0, 0, 0, 0, 0],
        output: 0,
        transition: 1,
    },
    Listed {
        tick: 0,
        micro: 1,
        phase: 0,
        number: 2,
        bytes: [0, 0, 0, 0, 0, 0, 0, 2],
        output: 2,
        transition: 3,
    },
    Listed {
        tick: 2,
        micro: 0,
        phase: 1,
        number: 33_554_433,
        bytes: [0, 0, 0, 0, 2, 0, 0, 1],
        output: 33_554_432,
        transition: 33_554_433,
    },
    Listed {
        tick: 3,
        micro: 0,
        phase: 0,
        number: 50_331_648,
        bytes: [0, 0, 0, 0, 3, 0, 0, 0],
        output: 50_331_648,
        transition: 50_331_649,
    },
    Listed {
        tick: 3,
        micro: 3,
        phase: 1,
        number: 50_331_655,
        bytes: [0, 0, 0, 0, 3, 0, 0, 7],
        output: 50_331_654,
        transition: 50_331_655,
    },
    Listed {
        tick: 1_099_511_627_774,
        micro: 8_388_607,
        phase: 1,
        number: 18_446_744_073_692_774_399,
        bytes: [255, 255, 255, 255, 254, 255, 255, 255],
        output: 18_446_744_073_692_774_398,
        transition: 18_446_744_073_692_774_399,
    },
];

/// Asserts that a stamp is as it is listed.
fn assert_listed(rt: &impl Abort, listed: &Listed) {
    let stamp = stamp(rt, listed.tick, listed.micro, listed.phase);
    assert!(rt; stamp < Stamp::END && !stamp.is_end() && stamp != Stamp::END);
    assert!(rt; stamp.pack() == listed.number && stamp.pack().to_be_bytes() == listed.bytes);
    assert!(rt; Stamp::unpack(listed.number) == Ok(stamp));
    assert!(rt;
        stamp.tick() == listed.tick
            && stamp.micro() == listed.micro
            && stamp.phase() == listed.phase
    );
    assert!(rt;
        stamp.output().pack() == listed.output && stamp.transition().pack() == listed.transition
    );
}

/// Numbers, and whether each is a stamp's.
static NUMBERS: [(u64, bool); 5] = [
    (0, true),
    (18_446_744_073_692_774_399, true),
    (18_446_744_073_692_774_400, false),
    (18_446_744_073_709_551_614, false),
    (18_446_744_073_709_551_615, true),
];

/// Ticks, microsteps and phases, and whether there is such a stamp.
static RANGES: [(u64, u32, u8, bool); 6] = [
    (1_099_511_627_774, 0, 0, true),
    (1_099_511_627_775, 0, 0, false),
    (0, 8_388_607, 0, true),
    (0, 8_388_608, 0, false),
    (0, 0, 1, true),
    (0, 0, 2, false),
];

#[test]
fn packs_the_listed_stamps_and_refuses_at_the_ends_of_the_ranges(rt: HostRuntime) {
    for listed in LISTED.iter() {
        assert_listed(&rt, listed);
    }
    for (number, is_stamp) in NUMBERS.iter() {
        assert!(rt; Stamp::unpack(*number).is_ok() == *is_stamp, "{number}");
    }
    for (tick, micro, phase, is_stamp) in RANGES.iter() {
        assert!(rt;
            Stamp::new(*tick, *micro, *phase).is_ok() == *is_stamp,
            "{tick}.{micro}.{phase}"
        );
    }
    assert!(rt;
        (
            Stamp::END.pack(),
            Stamp::END.is_end(),
            Stamp::START.pack(),
            Stamp::unpack(u64::MAX)
        ) == (u64::MAX, true, 0, Ok(Stamp::END))
    );
}

/// Stamps in their order.
static RISING: [(u64, u32, u8); 6] = [
    (0, 0, 0),
    (0, 0, 1),
    (0, 1, 0),
    (0, 8_388_607, 1),
    (1, 0, 0),
    (1_099_511_627_774, 8_388_607, 1),
];

/// Where a transition is, the time advance after it, and the tick and microstep of the output that comes next; the
/// greatest microstep is 3.
static ADVANCES: [(u64, u32, Option<u64>, Result<Option<(u64, u32)>, Limit>); 7] = [
    (3, 2, Some(0), Ok(Some((3, 3)))),
    (3, 3, Some(0), Err(Limit::Microstep)),
    (3, 3, Some(4), Ok(Some((7, 0)))),
    (
        3,
        0,
        Some(1_099_511_627_771),
        Ok(Some((1_099_511_627_774, 0))),
    ),
    (3, 0, Some(1_099_511_627_772), Err(Limit::Tick)),
    (3, 0, Some(u64::MAX), Err(Limit::Tick)),
    (3, 3, None, Ok(None)),
];

/// Asserts what comes after a transition.
fn assert_advance(
    rt: &impl Abort,
    tick: u64,
    micro: u32,
    ta: Option<u64>,
    expected: Result<Option<(u64, u32)>, Limit>,
) {
    let at = stamp(rt, tick, micro, 1);
    assert!(rt; at != Stamp::END);
    assert!(rt; at.phase() == 1);
    let next = match expected {
        Ok(Some((tick, micro))) => Ok(Some(stamp(rt, tick, micro, 0))),
        Ok(None) => Ok(None),
        Err(limit) => Err(limit),
    };
    assert!(rt; advance(at, ta, 3) == next);
}

#[test]
fn orders_by_tick_then_microstep_then_phase_and_advances_as_listed(rt: HostRuntime) {
    let mut last = None;
    for (tick, micro, phase) in RISING.iter() {
        let next = Some(stamp(&rt, *tick, *micro, *phase));
        assert!(rt; last < next);
        last = next;
    }
    assert!(rt; last < Some(Stamp::END));
    for (tick, micro, ta, next) in ADVANCES.iter() {
        assert_advance(&rt, *tick, *micro, *ta, *next);
    }
}

/// The refusals, each with its number and name.
static REFUSALS: [(Refusal, &'static str); 24] = [
    (Refusal::Range, "1 Range"),
    (Refusal::Microstep, "2 Microstep"),
    (Refusal::Tick, "3 Tick"),
    (Refusal::OutOfMemory, "4 OutOfMemory"),
    (Refusal::UnknownComponent, "5 UnknownComponent"),
    (Refusal::BadPort, "6 BadPort"),
    (Refusal::SelfCoupling, "7 SelfCoupling"),
    (Refusal::DuplicateRoute, "8 DuplicateRoute"),
    (Refusal::TooMany, "9 TooMany"),
    (Refusal::BadTick, "10 BadTick"),
    (Refusal::BadLimit, "11 BadLimit"),
    (Refusal::Full, "12 Full"),
    (Refusal::Committed, "13 Committed"),
    (Refusal::BeforeGvt, "14 BeforeGvt"),
    (Refusal::NoSuch, "15 NoSuch"),
    (Refusal::NothingDue, "16 NothingDue"),
    (Refusal::BadName, "17 BadName"),
    (Refusal::DuplicateName, "18 DuplicateName"),
    (Refusal::Unreadable, "19 Unreadable"),
    (Refusal::NotJson, "20 NotJson"),
    (Refusal::BadShape, "21 BadShape"),
    (Refusal::BadScript, "22 BadScript"),
    (Refusal::BadLine, "23 BadLine"),
    (Refusal::WriteFailed, "24 WriteFailed"),
];

/// Stamps, each with its text.
static SHOWN: [(u64, u32, u8, &'static str); 3] = [
    (0, 0, 0, "0.0.0"),
    (3, 0, 1, "3.0.1"),
    (1_099_511_627_774, 8_388_607, 1, "1099511627774.8388607.1"),
];

/// Asserts that this is the text of a value.
fn assert_text<T: Display>(rt: &impl Abort, alloc: Global, value: &T, text: &str) {
    let shown = value.to_string(alloc).expect(rt, "memory");
    assert!(rt; shown.as_str() == text);
}

#[test]
fn shows_stamps_and_refusals(rt: HostRuntime) {
    let alloc = rt.alloc();
    for (tick, micro, phase, text) in SHOWN.iter() {
        assert_text(&rt, alloc, &stamp(&rt, *tick, *micro, *phase), text);
    }
    assert_text(&rt, alloc, &Stamp::END, "end");
    for (refusal, text) in REFUSALS.iter() {
        assert_text(&rt, alloc, refusal, text);
    }
    assert!(rt;
        (
            Refusal::from(AllocError),
            Refusal::from(Range),
            Refusal::from(Limit::Microstep),
            Refusal::from(Limit::Tick)
        ) == (
            Refusal::OutOfMemory,
            Refusal::Range,
            Refusal::Microstep,
            Refusal::Tick
        )
    );
}
