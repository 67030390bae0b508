//! Stamps: moments of virtual time.

ghost use Rattle.std.specs.Prelude.{
  ◌≡◌,
  ◌==◌,
  ◌↔◌,
  ◌+◌,
  ◌<◌,
  ◌≤◌,
  ◌≢◌,
  IfOk,
  IsOk,
  IsErrOf,
  IsTrue,
  Some,
};
ghost use Rattle.tw_vtime.specs.Stamps.{
  max_tick,
  max_microstep,
  never,
  stamp,
  tick_of,
  micro_of,
  phase_of,
  IsStamp,
  is_overdue,
  stamp_text,
  Parts,
  IsInRange,
  number_of,
  parts_of,
  ComesBefore,
};
ghost use Rattle.tw_vtime.specs.Refusals.{refused_range};
ghost use Rattle.std.proofs.Common.{rules};
ghost use Rattle.std.specs.Cmp.{partial_order_from_own_ties};
ghost use Rattle.std.specs.Cmp.Rules.{comparing};
ghost use Rattle.std.specs.Ordering.{as_partial_cmp, nat_cmp};

use crate::refusal::Refusal;
use std::cmp::Ordering;
use std::fmt;
use std::marker::Model;
use thiserror::Error;

/// The greatest tick of a stamp: 2^40 - 2.
pub const MAX_TICK: u64 = 1_099_511_627_774;

/// The greatest microstep of a stamp: 2^23 - 1.
pub const MAX_MICROSTEP: u32 = 8_388_607;

/// The refusal of a number, or of parts, that no stamp has: 1.
#[derive(Clone, Copy, Debug, PartialEq, Eq, Error)]
#[error("no stamp has this number, or these parts")]
pub struct Range;

impl From<Range> for Refusal {
    ghost from_gives = { λ _ refusal. refusal ≡ refused_range };

    fn from(_range: Range) -> Refusal {
        Refusal::Range
    }
}

/// A moment of virtual time: a tick, a microstep and a phase, or the end.
///
/// Phase 0 is the output of its time, phase 1 the transition. Stamps are ordered by tick, then microstep,
/// then phase; [`Stamp::END`] is after every other stamp and means never.
#[derive(Clone, Copy, Debug, PartialEq, Eq)]
pub struct Stamp {
    number: u64,
}

impl Model for Stamp {
    ghost use Rattle.std.specs.Prelude.{ℕ};

    ghost Value = { ℕ };

    ghost use Rattle.tw_vtime.specs.Stamps.{IsStamp};

    ghost view = { λ s. s.number };

    ghost invariant = { λ s. IsStamp s.number };

    ghost inverse = { λ n. record { number = n } };
}

/// By tick, then microstep, then phase, and the end last: the order of the numbers ([`order_law`]).
impl Ord for Stamp {
    ghost cmp = { nat_cmp };

    ghost total = { Prim.search (comparing, rules) };

    ghost matches_partial_cmp = { Prim.search (comparing, rules) };

    ghost matches_eq = { Prim.search (comparing, rules) };

    fn cmp(&self, other: &Stamp) -> Ordering {
        self.number.cmp(&other.number)
    }
}

impl PartialOrd for Stamp {
    ghost partial_cmp = { as_partial_cmp nat_cmp };

    ghost laws = { partial_order_from_own_ties (Prim.search (comparing, rules)) (Prim.search (comparing, rules)) };

    fn partial_cmp(&self, other: &Stamp) -> Option<Ordering> {
        Some(self.cmp(other))
    }
}

impl Stamp {
    /// The first stamp: tick 0, microstep 0, phase 0.
    pub const START: Stamp = Stamp { number: 0 };

    /// The stamp after every other; it means never.
    pub const END: Stamp = Stamp { number: u64::MAX };

    /// The stamp of a tick (0 to [`MAX_TICK`]), a microstep (0 to [`MAX_MICROSTEP`]) and a phase (0 or 1).
    ///
    /// Refused by [`Range`] (1) where one of them is out of its range.
    pub fn new(tick: u64, micro: u32, phase: u8) -> Result<Stamp, Range>
        ensures is_stamp { IfOk result (λ made. made ≡ stamp tick micro phase) }
        ensures in_range { IsOk result
            ↔ ((tick ≤ max_tick) × (micro ≤ max_microstep) × (phase ≤ 1)) }
    {
        if tick > MAX_TICK || micro > MAX_MICROSTEP || phase > 1 {
            return Err(Range);
        }
        Ok(Stamp {
            number: tick * 16_777_216 + u64::from(micro) * 2 + u64::from(phase),
        })
    }

    /// The number of this stamp: `tick * 2^24 + microstep * 2 + phase`, or `2^64 - 1` for the end.
    pub fn pack(self) -> u64
        ensures number { result ≡ self }
        ensures is_stamp { IsStamp self }
    {
        let Stamp { number } = self;
        number
    }

    /// Hands the caller what holds of every stamp: its tick is in range, or it is the end. The call does nothing.
    pub fn facts(self)
        ensures { IsStamp self }
    {
        let _ = self.number;
    }

    /// The stamp of a number.
    ///
    /// Refused by [`Range`] (1) exactly where no stamp has this number: where its tick part is above
    /// [`MAX_TICK`] and it is not the number of the end.
    pub fn unpack(number: u64) -> Result<Stamp, Range>
        ensures same_number { IfOk result (λ made. made ≡ number) }
        ensures in_range { IsOk result ↔ IsStamp number }
    {
        if number >> 24 > MAX_TICK && number != u64::MAX {
            return Err(Range);
        }
        Ok(Stamp { number })
    }

    /// Whether this is the end.
    pub fn is_end(self) -> bool
        ensures { IsTrue result ↔ (self ≡ never) }
    {
        self.number == u64::MAX
    }

    /// The tick of a stamp that is not the end.
    pub fn tick(self) -> u64
        requires { self ≢ never }
        ensures tick { result ≡ tick_of self }
        ensures in_range { result ≤ max_tick }
    {
        self.number >> 24
    }

    /// The microstep of a stamp that is not the end.
    pub fn micro(self) -> u32
        requires { self ≢ never }
        ensures micro { result ≡ micro_of self }
        ensures in_range { result ≤ max_microstep }
    {
        ((self.number & 0xff_ffff) >> 1) as u32
    }

    /// The phase of a stamp that is not the end: 0 for the output of its time, 1 for the transition.
    pub fn phase(self) -> u8
        requires { self ≢ never }
        ensures phase { result ≡ phase_of self }
        ensures in_range { result ≤ 1 }
    {
        (self.number & 1) as u8
    }

    /// Whether this is the output of its time: phase 0. The end is none.
    pub fn is_output(self) -> bool
        ensures { IsTrue result ↔ (phase_of self ≡ 0) }
    {
        self.number % 2 == 0
    }

    /// Whether an owed message of this stamp is overdue: whether the output that would send it, which is phase 0 of
    /// the same time, comes before `next`, the next step of its sender.
    pub fn is_overdue(self, next: Stamp) -> bool
        ensures { result ≡ is_overdue self next }
    {
        self.number.saturating_sub(1) < next.number
    }

    /// The output of the same time, for a stamp that is not the end.
    pub fn output(self) -> Stamp
        requires { self ≢ never }
        ensures { result ≡ stamp (tick_of self) (micro_of self) 0 }
    {
        Stamp {
            number: self.number & !1,
        }
    }

    /// The transition of the same time, for a stamp that is not the end.
    pub fn transition(self) -> Stamp
        requires { self ≢ never }
        ensures { result ≡ stamp (tick_of self) (micro_of self) 1 }
    {
        Stamp {
            number: (self.number & !1) + 1,
        }
    }
}

/// The tick, the microstep and the phase with a dot between each two, as `3.0.1`; or `end`.
impl fmt::Display for Stamp {
    ghost output = { λ s. Some (stamp_text s) };

    fn fmt<W: fmt::Write>(&self, f: &mut fmt::Formatter<W>) -> fmt::Result {
        let stamp = *self;
        if stamp.is_end() {
            return write!(f, "end");
        }
        let tick = stamp.tick();
        let micro = stamp.micro();
        let phase = stamp.phase();
        write!(f, "{tick}.{micro}.{phase}")
    }
}

/// What the numbers of stamps mean. It does nothing.
///
/// The order of the numbers is the order by tick, then microstep, then phase; each moment is read back
/// from its number, and each stamp that is not the end is the number of a moment; and the end is after
/// every moment.
pub fn order_law()
    ensures order { (a b : Parts) → IsInRange a → IsInRange b
        → ((number_of a < number_of b) ↔ ComesBefore a b) }
    ensures read_back { (a : Parts) → IsInRange a → parts_of (number_of a) ≡ a }
    ensures each_stamp { (a : Parts) → IsInRange a → IsStamp (number_of a) }
    ensures each_moment { (s : _) → IsStamp s → s ≢ never → IsInRange (parts_of s)
        × (number_of (parts_of s) ≡ s) }
    ensures end_is_last { (a : Parts) → IsInRange a → number_of a < never }
{}
