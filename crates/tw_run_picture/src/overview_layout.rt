//! Where all stands in a picture of courses alone.

use std::alloc::{AllocError, Global};
use tw_svg::{Points, Unit, round_step, tick_text, width_of};

/// Where all stands.
#[derive(Drop)]
pub(crate) struct OverviewLayout {
    /// The tick at which the picture begins.
    pub from: u64,
    /// The tick at which it ends.
    pub end: u64,
    /// The width of names and scales.
    pub gutter: Points,
    /// The width of the time.
    pub plot: Points,
    /// The height of the band of a course.
    pub band: Points,
    /// From the top of a lane to the top of the next.
    pub pitch: Points,
    /// The height of all lanes.
    pub height: Points,
    /// The ticks that are told.
    pub labels: Vec<u64>,
    /// The width of the picture.
    pub width: Points,
    // How wide a tick is.
    unit: Unit,
}

/// The height of a band and the room below it: lower where there are many lanes.
fn heights(lanes: usize) -> (i64, i64) {
    match lanes {
        0..=8 => (52, 14),
        9..=16 => (38, 12),
        17..=64 => (26, 10),
        _ => (18, 8),
    }
}

/// The width of the time on a page, beside names and scales.
pub(crate) fn plot_of(page: Points, gutter: Points) -> Points {
    (page - gutter - Points::whole(40)).most(Points::whole(100))
}

impl OverviewLayout {
    /// Where so many lanes stand on a page, from a tick to another.
    pub fn new(
        alloc: Global,
        lanes: usize,
        gutter: Points,
        page: Points,
        from: u64,
        end: u64,
    ) -> Result<OverviewLayout, AllocError> {
        let end = end.max(from.saturating_add(1));
        let plot = plot_of(page, gutter);
        let (band, below) = heights(lanes);
        let pitch = Points::whole(band.saturating_add(below));
        let count = i64::try_from(lanes).unwrap_or(0);
        let mut layout = OverviewLayout {
            from,
            end,
            gutter,
            plot,
            band: Points::whole(band),
            pitch,
            height: pitch.times(count).most(Points::whole(20)),
            labels: Vec::new(alloc),
            width: page,
            unit: Unit::new(plot, end.saturating_sub(from)),
        };
        layout.place_labels(alloc)?;
        Ok(layout)
    }

    /// Chooses the ticks that are told: round ones, as many as have room.
    fn place_labels(&mut self, alloc: Global) -> Result<(), AllocError> {
        let wide = width_of(tick_text(alloc, self.end)?.as_str(), 11);
        let apart = Points::whole(60).most(wide + Points::whole(26));
        let step = round_step(self.unit.ticks_in(apart));
        let first = self
            .from
            .saturating_add(step.saturating_sub(1))
            .checked_div(step)
            .unwrap_or(0);
        let last = self.end.checked_div(step).unwrap_or(0);
        for count in first..last.saturating_add(1) {
            self.labels.push(count.saturating_mul(step))?;
        }
        Ok(())
    }

    /// Where a tick stands.
    pub fn x(&self, tick: u64) -> Points {
        let ticks = tick.min(self.end).saturating_sub(self.from);
        self.gutter + self.unit.length(ticks)
    }

    /// The top of a lane.
    pub fn top(&self, lane: usize) -> Points {
        self.pitch.times(i64::try_from(lane).unwrap_or(0))
    }

    /// Whether the lanes are so high that the axis stands above them too.
    pub fn is_tall(&self) -> bool {
        Points::whole(420).is_below(self.height)
    }

    /// How far above the lanes the picture begins.
    pub fn lead(&self) -> Points {
        Points::whole(if self.is_tall() { 22 } else { 4 })
    }
}
