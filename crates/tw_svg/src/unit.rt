//! How many points a tick takes.

use crate::points::Points;

/// Parts of a point in which places along an axis are summed up, so that small ones are not lost.
const FINE: i128 = 1_000_000_000_000_000_000;

/// How many points a tick of virtual time takes: any small part of one, too.
#[derive(Clone, Copy, Debug, PartialEq, Eq)]
pub struct Unit {
    // In parts of a point, at least one.
    fine: i128,
}

impl Unit {
    /// So many ticks take this length; the least unit that there is where it is none.
    pub fn new(length: Points, ticks: u64) -> Unit {
        let all = fine_of(length);
        Unit::of(all.checked_div(i128::from(ticks)).unwrap_or(all))
    }

    fn of(fine: i128) -> Unit {
        Unit {
            fine: if fine < 1 { 1 } else { fine },
        }
    }

    /// This many hundredths of the unit.
    pub fn hundredths(self, count: i64) -> Unit {
        Unit::of(self.fine.saturating_mul(i128::from(count)) / 100)
    }

    /// Whether this unit is less.
    pub fn is_below(self, other: Unit) -> bool {
        self.fine < other.fine
    }

    /// The length of so many ticks.
    pub fn length(self, ticks: u64) -> Points {
        points_of(self.ticks(ticks))
    }

    /// The length of so many ticks, in parts of a point.
    pub(crate) fn ticks(self, ticks: u64) -> i128 {
        self.fine.saturating_mul(i128::from(ticks))
    }

    /// The least number of ticks that is as long as this, at least 1.
    pub fn ticks_in(self, length: Points) -> u64 {
        let all = fine_of(length)
            .saturating_add(self.fine)
            .saturating_sub(1)
            .checked_div(self.fine)
            .unwrap_or(1);
        u64::try_from(all).unwrap_or(1).max(1)
    }
}

/// A length in parts of a point.
pub(crate) fn fine_of(length: Points) -> i128 {
    i128::from(length.tenths()).saturating_mul(FINE / 10)
}

/// Parts of a point as a length.
pub(crate) fn points_of(fine: i128) -> Points {
    let tenths = fine.saturating_add(FINE / 20) / (FINE / 10);
    Points::of_tenths(i64::try_from(tenths).unwrap_or(i64::MAX))
}
