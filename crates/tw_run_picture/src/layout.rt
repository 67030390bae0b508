//! Where all stands in a picture of a run.

use crate::fit::Fit;
use crate::kept::Kept;
use crate::lanes::Lane;
use std::alloc::{AllocError, Global};
use tw_svg::{Axis, Points, Time, tick_text, width_of};

/// Where a lane stands in its stave.
#[derive(Clone, Copy)]
pub(crate) struct LanePlace {
    /// The top of its band.
    pub top: Points,
    /// The line of its events.
    pub line: Points,
}

/// A tick that is told.
#[derive(Clone, Copy)]
pub(crate) struct Label {
    /// The tick.
    pub tick: u64,
    /// Where it stands on the axis.
    pub at: Points,
}

/// Where all stands.
#[derive(Drop)]
pub(crate) struct Layout {
    /// The tick at which the axis ends.
    pub end: u64,
    /// The height of the band of a course.
    pub band: Points,
    /// Where the lanes stand.
    pub lanes: Vec<LanePlace>,
    /// The height of all lanes.
    pub height: Points,
    /// The width of names and scales.
    pub gutter: Points,
    /// Time.
    pub axis: Axis,
    /// Where the rounds stand on the axis.
    pub rounds: Vec<Points>,
    /// The ticks that are told.
    pub labels: Vec<Label>,
    /// Where the staves begin on the axis.
    pub staves: Vec<Points>,
    /// The size of a mark.
    pub size: Points,
    /// From an output to a transition of its round.
    pub apart: Points,
    /// From a round to the end of its stave.
    pub edge: Points,
    /// How far a tick that is told reaches to the left of its stave at most.
    pub overhang: Points,
    /// The width of the picture.
    pub width: Points,
}

/// The heights of the parts of a lane: the band, the line of events below it, and the room after that.
#[derive(Clone, Copy)]
struct Heights {
    band: i64,
    under: i64,
    after: i64,
}

impl Heights {
    /// Lower lanes where there are many.
    fn of(count: usize) -> Heights {
        let (band, under, after) = match count {
            0..=8 => (28, 9, 17),
            9..=16 => (20, 8, 15),
            _ => (14, 7, 14),
        };
        Heights { band, under, after }
    }
}

/// A lane that begins so far down, and how high it is.
fn lane_at(lane: &Lane, heights: &Heights, top: Points) -> (LanePlace, Points) {
    let (down, high) = if lane.is_full() {
        let line = heights.band.saturating_add(heights.under);
        (line, line.saturating_add(heights.after))
    } else if lane.last_tick.is_some() {
        (12, 24)
    } else {
        (7, 14)
    };
    let place = LanePlace {
        top,
        line: top + Points::whole(down),
    };
    (place, Points::whole(high))
}

/// The width of names and scales.
pub(crate) fn gutter(lanes: &[Lane]) -> Points {
    let mut wide = Points::whole(44);
    for lane in lanes {
        let letters = i64::try_from(lane.name.len().min(18)).unwrap_or(18);
        wide = wide.most(Points::of_tenths(letters.saturating_mul(74)));
        if let Some(course) = &lane.course {
            let letters = i64::try_from(course.name.len().min(20)).unwrap_or(20);
            wide = wide.most(Points::of_tenths(letters.saturating_mul(53)));
        }
    }
    wide + Points::whole(66)
}

/// The width of a page: what was asked for, 600 to 4,000 points.
pub(crate) fn page_of(width: u64) -> Points {
    Points::whole(i64::try_from(width).unwrap_or(4000).clamp(600, 4000))
}

/// The times of the axis: those of the rounds, and that of a fault on a lane.
fn times_of(alloc: Global, kept: &Kept, fault: Option<Time>) -> Result<Vec<Time>, AllocError> {
    let mut times = Vec::new(alloc);
    for round in kept.rounds.as_slice() {
        times.push(round.time)?;
    }
    if let Some(fault) = fault {
        if fault.tick >= kept.from && times.last().is_none_or(|last| *last < fault) {
            times.push(fault)?;
        }
    }
    Ok(times)
}

/// The gap between records of a lane than which nine of ten are no less; where there is none, the usual one of the axis.
fn tight_gap(gaps: &mut Vec<u64>, usual: u64) -> u64 {
    gaps.sort_unstable();
    gaps.get(gaps.len() / 10).copied().unwrap_or(usual).max(1)
}

impl Layout {
    /// Where all stands on a page, of what is kept of a run that ends at a tick, with a fault on a lane or without one.
    pub fn new(
        alloc: Global,
        kept: &mut Kept,
        page: Points,
        end: u64,
        fault: Option<Time>,
    ) -> Result<Layout, AllocError> {
        let times = times_of(alloc, kept, fault)?;
        let end = end.max(kept.from.saturating_add(1));
        let heights = Heights::of(kept.lanes.len());
        let mut layout = Layout {
            end,
            band: Points::whole(heights.band),
            lanes: Vec::new(alloc),
            height: Points::ZERO,
            gutter: gutter(kept.lanes.items.as_slice()),
            axis: Axis::new(alloc, times.as_slice(), kept.from, end)?,
            rounds: Vec::new(alloc),
            labels: Vec::new(alloc),
            staves: Vec::new(alloc),
            size: Points::ZERO,
            apart: Points::ZERO,
            edge: Points::ZERO,
            overhang: Points::ZERO,
            width: Points::ZERO,
        };
        layout.place_lanes(kept.lanes.items.as_slice(), &heights)?;
        layout.place_times(alloc, kept, page)?;
        Ok(layout)
    }

    /// Places the lanes, one below the other.
    fn place_lanes(&mut self, lanes: &[Lane], heights: &Heights) -> Result<(), AllocError> {
        let mut top = Points::ZERO;
        for lane in lanes {
            let (place, high) = lane_at(lane, heights, top);
            self.lanes.push(place)?;
            top = top + high;
        }
        self.height = top.most(Points::whole(20));
        Ok(())
    }

    /// Places the times: on the axis, and the axis in staves.
    fn place_times(
        &mut self,
        alloc: Global,
        kept: &mut Kept,
        page: Points,
    ) -> Result<(), AllocError> {
        let last = width_of(tick_text(alloc, self.end)?.as_str(), 11);
        let margin = Points::whole(20).most(last.share(1, 2));
        let room = page - Points::whole(30) - self.gutter - margin;
        let fit = Fit {
            room,
            pitch: Points::whole(if kept.lanes.len() <= 8 { 19 } else { 16 }),
            tight: tight_gap(&mut kept.gaps, self.axis.usual()),
            height: self.height,
            rounds: kept.rounds.len(),
        };
        let gap = fit.lay(&mut self.axis);
        self.set_size(gap);
        self.overhang = Points::ZERO.most(last.share(1, 2) - self.edge);
        self.place_rounds(kept)?;
        self.place_labels(alloc, Points::whole(50).most(last + Points::whole(26)))?;
        self.break_staves(room)?;
        let wide = self.gutter + self.longest() + self.edge.times(2) + margin;
        self.width = page.least(Points::whole(660)).most(wide);
        Ok(())
    }

    /// Marks as large as the gaps between them allow.
    fn set_size(&mut self, gap: Points) {
        let tenths = if !gap.is_below(Points::whole(12)) {
            35
        } else if !gap.is_below(Points::whole(7)) {
            26
        } else {
            19
        };
        self.size = Points::of_tenths(tenths);
        self.apart = self.size.share(26, 10);
        self.edge = self.apart.share(1, 2) + self.size.times(2) + Points::whole(2);
    }

    fn place_rounds(&mut self, kept: &Kept) -> Result<(), AllocError> {
        for round in kept.rounds.as_slice() {
            self.rounds.push(self.axis.of(round.time))?;
        }
        Ok(())
    }

    fn place_labels(&mut self, alloc: Global, apart: Points) -> Result<(), AllocError> {
        let ticks = self.axis.labels(alloc, apart)?;
        for tick in ticks.as_slice() {
            let at = self.axis.of(Time {
                tick: *tick,
                micro: 0,
            });
            self.labels.push(Label { tick: *tick, at })?;
        }
        Ok(())
    }

    /// Breaks the axis into staves that are no wider than the page.
    fn break_staves(&mut self, room: Points) -> Result<(), AllocError> {
        let length = self.axis.length();
        let mut begin = Points::ZERO;
        self.staves.push(begin)?;
        for _ in 0..length.parts(room).saturating_mul(4) {
            if !room.is_below(length - begin) {
                break;
            }
            begin = self.next_break(begin, room);
            self.staves.push(begin)?;
        }
        Ok(())
    }

    /// Where the stave after one ends: before a tick that is told, else before a round.
    fn next_break(&self, begin: Points, room: Points) -> Points {
        let far = begin + room;
        let near = far - room.share(4, 10);
        let mut best = None;
        for label in self.labels.as_slice() {
            if near.is_below(label.at) && !far.is_below(label.at) {
                best = Some(label.at);
            }
        }
        if best.is_none() {
            for at in self.rounds.as_slice() {
                if begin.is_below(*at) && !far.is_below(*at) {
                    best = Some(*at);
                }
            }
        }
        best.unwrap_or(far)
    }

    /// Where a stave ends on the axis: the last one a little behind the end of the axis.
    pub fn stave_end(&self, stave: usize) -> Points {
        match self.staves.get(stave.saturating_add(1)) {
            Some(next) => *next,
            None => self.axis.length() + Points::of_tenths(1),
        }
    }

    /// The first round, from one on, that stands at a place of the axis or after it.
    pub fn next_round(&self, first: usize, right: Points) -> usize {
        let mut next = first;
        for at in self.rounds.iter().skip(first) {
            if !at.is_below(right) {
                break;
            }
            next = next.saturating_add(1);
        }
        next
    }

    /// The width of the widest stave.
    fn longest(&self) -> Points {
        let mut longest = Points::ZERO;
        for (stave, begin) in self.staves.iter().enumerate() {
            longest = longest.most(self.stave_end(stave) - *begin);
        }
        longest
    }

    /// Whether the lanes are so high that the axis stands above them too.
    pub fn is_tall(&self) -> bool {
        Points::whole(420).is_below(self.height)
    }

    /// How far the axis is moved down by the words of opened ticks and cuts.
    pub fn shelf(&self) -> Points {
        if self.axis.has_opened() || self.axis.has_cut() {
            Points::whole(12)
        } else {
            Points::ZERO
        }
    }

    /// How far above its lanes a stave begins.
    pub fn lead(&self) -> Points {
        Points::whole(if self.is_tall() { 18 } else { 0 })
    }

    /// The height of a stave with its axis.
    pub fn stave_height(&self) -> Points {
        self.height + Points::whole(40) + self.shelf() + self.lead()
    }

    /// The height of all staves.
    pub fn staves_height(&self) -> Points {
        let count = i64::try_from(self.staves.len()).unwrap_or(1);
        self.stave_height().times(count)
    }

    /// The line of a lane's events in its stave.
    pub fn line_of(&self, lane: usize) -> Points {
        self.lanes
            .get(lane)
            .map_or(Points::ZERO, |place| place.line)
    }
}
