//! The scale of a figure.

use crate::lanes::Course;
use crate::tracks::{Column, Track};
use tw_svg::Points;

/// From which value to which a course is drawn.
#[derive(Clone, Copy)]
pub(crate) struct Scale {
    /// The value at the foot.
    pub bottom: i128,
    /// The value at the top.
    pub top: i128,
}

impl Scale {
    /// The scale of a course.
    pub fn of(course: &Course) -> Scale {
        Scale::between(course.least, course.greatest)
    }

    /// The scale of a course in columns.
    pub fn of_track(track: &Track) -> Scale {
        let (least, greatest) = track.extremes();
        Scale::between(least, greatest)
    }

    /// The scale from a least to a greatest value: from 0, but not where that would take more than two thirds of the height.
    fn between(least: i128, greatest: i128) -> Scale {
        let mut bottom = least;
        let mut top = greatest;
        let thrice = top.saturating_sub(bottom).saturating_mul(3);
        if bottom > 0 && (thrice >= top || bottom == top) {
            bottom = 0;
        }
        if top < 0 && (thrice >= 0i128.saturating_sub(bottom) || bottom == top) {
            top = 0;
        }
        if bottom >= top {
            top = bottom.saturating_add(1);
        }
        Scale { bottom, top }
    }

    /// Whether 0 is on the scale.
    pub fn has_zero(&self) -> bool {
        self.bottom <= 0 && self.top >= 0
    }

    /// How far below the top of a band of this height a value stands.
    pub fn depth(&self, value: i128, band: Points) -> Points {
        let mut range = self.top.saturating_sub(self.bottom);
        let mut below = self.top.saturating_sub(value);
        if range > 1_000_000_000_000_000_000 {
            // So great that the last digits are not seen.
            range /= 1_000_000;
            below /= 1_000_000;
        }
        let tenths = below
            .saturating_mul(i128::from(band.tenths()))
            .saturating_add(range / 2)
            .checked_div(range)
            .unwrap_or(0);
        Points::of_tenths(i64::try_from(tenths).unwrap_or(0)).least(band)
    }

    /// How far below the top of a band of this height the mean of a column stands; none where no tick is counted.
    pub fn depth_of_mean(&self, column: &Column, band: Points) -> Option<Points> {
        if column.ticks == 0 {
            return None;
        }
        let ticks = i128::from(column.ticks);
        let range = self.top.saturating_sub(self.bottom).saturating_mul(ticks);
        let tenths = self
            .top
            .saturating_mul(ticks)
            .saturating_sub(column.sum)
            .saturating_mul(i128::from(band.tenths()))
            .saturating_add(range / 2)
            .checked_div(range)
            .unwrap_or(0);
        let depth = Points::of_tenths(i64::try_from(tenths).unwrap_or(0));
        Some(depth.least(band).most(Points::ZERO))
    }
}
