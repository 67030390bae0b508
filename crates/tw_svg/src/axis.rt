//! Virtual time along a line.

use crate::points::Points;
use crate::unit::{Unit, fine_of, points_of};
use std::alloc::{AllocError, Global};

/// How wide a silence that is cut is drawn, in points.
pub const GAP: i64 = 44;

/// A time at which something happens.
#[derive(Clone, Copy, Debug, PartialEq, Eq, PartialOrd, Ord)]
pub struct Time {
    /// Its tick.
    pub tick: u64,
    /// Its microstep.
    pub micro: u32,
}

/// How wide time is drawn.
#[derive(Clone, Copy, Debug)]
pub struct Spread {
    /// The points of a tick.
    pub unit: Unit,
    /// The points of a microstep of a tick that has several.
    pub slot: Points,
    /// The width of a page: a silence of more than a quarter of it may be cut.
    pub room: Points,
}

/// A place on the axis: a time at which something happens, or an end of the axis.
#[derive(Clone, Copy, Debug)]
pub struct Stop {
    /// The time.
    pub time: Time,
    /// Where it stands, from the beginning of the axis.
    pub at: Points,
    /// Which of the times of its tick it is, from 0.
    pub slot: u32,
    /// Whether its tick is opened: it has several times, or one that is not its first microstep.
    pub opened: bool,
    /// How many ticks lie between the tick before and this one, that one counted; 0 at the first.
    pub silence: u64,
    /// Whether that silence is cut.
    pub cut: bool,
    // Where the tick after this one begins.
    after: Points,
}

/// Virtual time along a line: linear, but ticks with several times are opened, and long silences are cut.
#[derive(Drop)]
pub struct Axis {
    stops: Vec<Stop>,
    usual: u64,
    unit: Unit,
}

/// Where the pen is that goes along an axis, in parts of a point.
#[derive(Drop)]
struct Pen {
    // Where the tick begins.
    base: i128,
    tick: u64,
    slots: u32,
    opened: bool,
}

impl Pen {
    // How wide the tick is at which the pen is.
    fn tick_width(&self, spread: &Spread) -> i128 {
        let unit = spread.unit.ticks(1);
        if !self.opened {
            return unit;
        }
        let open = fine_of(spread.slot).saturating_mul(i128::from(self.slots));
        if open > unit { open } else { unit }
    }

    // Whether the silence before a tick is cut.
    fn is_cut(&self, silence: u64, usual: u64, spread: &Spread) -> bool {
        let long = points_of(spread.unit.ticks(silence));
        spread.room.share(1, 4).is_below(long) && silence > usual.saturating_mul(20)
    }

    // Goes on to a stop, and places it.
    fn go_to(&mut self, stop: &mut Stop, usual: u64, spread: &Spread) {
        if stop.slot == 0 {
            stop.cut = self.is_cut(stop.silence, usual, spread);
            if stop.silence > 0 {
                let beyond = if stop.cut {
                    fine_of(Points::whole(GAP))
                } else {
                    spread.unit.ticks(stop.silence.saturating_sub(1))
                };
                let width = self.tick_width(spread);
                self.base = self.base.saturating_add(width).saturating_add(beyond);
            }
            self.tick = stop.time.tick;
            self.opened = stop.opened;
        }
        self.slots = stop.slot.saturating_add(1);
        let slot = fine_of(spread.slot).saturating_mul(i128::from(stop.slot));
        stop.at = points_of(self.base.saturating_add(slot));
        stop.after = points_of(self.base.saturating_add(self.tick_width(spread)));
    }
}

/// The least of 1, 2, 5, 10, 20, .. that is not below a number.
pub fn round_step(least: u64) -> u64 {
    let mut power = 1u64;
    for _ in 0..20 {
        for digit in [1, 2, 5] {
            let step = power.saturating_mul(digit);
            if step >= least {
                return step;
            }
        }
        power = power.saturating_mul(10);
    }
    u64::MAX
}

/// The ticks that are told along an axis, and where the last of them stands.
#[derive(Drop)]
struct Labels {
    ticks: Vec<u64>,
    last: Option<Points>,
    apart: Points,
}

impl Labels {
    // Tells a tick, where it has room.
    fn offer(&mut self, tick: u64, at: Points) -> Result<(), AllocError> {
        if let Some(last) = self.last {
            if (at - last).is_below(self.apart.share(3, 4)) {
                return Ok(());
            }
        }
        self.last = Some(at);
        self.ticks.push(tick)?;
        Ok(())
    }
}

impl Axis {
    /// An axis from tick `begin` to tick `end` with these times, which rise. Its stops have places once it is laid
    /// ([`Axis::lay`]). Refused for want of memory alone (4).
    pub fn new(alloc: Global, times: &[Time], begin: u64, end: u64) -> Result<Axis, AllocError> {
        let mut axis = Axis {
            stops: Vec::new(alloc),
            usual: 1,
            unit: Unit::new(Points::whole(1), 1),
        };
        if times.first().is_none_or(|time| time.tick > begin) {
            axis.add(
                Time {
                    tick: begin,
                    micro: 0,
                },
                false,
            )?;
        }
        for (place, time) in times.iter().enumerate() {
            let next = times.get(place.saturating_add(1));
            let opened = next.is_some_and(|next| next.tick == time.tick);
            axis.add(*time, opened || time.micro > 0)?;
        }
        if axis.stops.last().is_none_or(|stop| stop.time.tick < end) {
            axis.add(
                Time {
                    tick: end,
                    micro: 0,
                },
                false,
            )?;
        }
        axis.usual = axis.usual_gap(alloc)?;
        Ok(axis)
    }

    // A stop more.
    fn add(&mut self, time: Time, opened: bool) -> Result<(), AllocError> {
        let (slot, silence) = match self.stops.last() {
            Some(last) if last.time.tick == time.tick => (last.slot.saturating_add(1), 0),
            Some(last) => (0, time.tick.saturating_sub(last.time.tick)),
            None => (0, 0),
        };
        self.stops.push(Stop {
            time,
            at: Points::ZERO,
            slot,
            opened,
            silence,
            cut: false,
            after: Points::ZERO,
        })?;
        Ok(())
    }

    // The median of the silences, of two the lesser.
    fn usual_gap(&self, alloc: Global) -> Result<u64, AllocError> {
        let mut gaps = Vec::new(alloc);
        for stop in self.stops.as_slice() {
            if stop.silence > 0 {
                gaps.push(stop.silence)?;
            }
        }
        gaps.sort_unstable();
        let middle = gaps.len().saturating_sub(1) / 2;
        Ok(gaps.get(middle).copied().unwrap_or(1))
    }

    /// Gives each stop its place, and answers how long the axis is.
    pub fn lay(&mut self, spread: &Spread) -> Points {
        let mut pen = Pen {
            base: 0,
            tick: 0,
            slots: 0,
            opened: false,
        };
        let mut length = Points::ZERO;
        for stop in self.stops.iter_mut() {
            pen.go_to(stop, self.usual, spread);
            length = stop.at;
        }
        self.unit = spread.unit;
        length
    }

    /// The stops, in order.
    pub fn stops(&self) -> &[Stop] {
        self.stops.as_slice()
    }

    /// How many ticks usually lie between two ticks at which something happens.
    pub fn usual(&self) -> u64 {
        self.usual
    }

    /// How long the axis is.
    pub fn length(&self) -> Points {
        self.stops.last().map_or(Points::ZERO, |stop| stop.at)
    }

    /// Whether a tick is opened.
    pub fn has_opened(&self) -> bool {
        self.stops.iter().any(|stop| stop.opened)
    }

    /// Whether a silence is cut.
    pub fn has_cut(&self) -> bool {
        self.stops.iter().any(|stop| stop.cut)
    }

    // How many stops are not after a time.
    fn reached(&self, time: Time) -> usize {
        let mut low = 0;
        let mut high = self.stops.len();
        for _ in 0..64 {
            if low >= high {
                break;
            }
            let middle = low + (high - low) / 2;
            if self.stops.get(middle).is_some_and(|stop| stop.time <= time) {
                low = middle.saturating_add(1);
            } else {
                high = middle;
            }
        }
        low
    }

    /// Where a time stands, from the beginning of the axis.
    pub fn of(&self, time: Time) -> Points {
        let reached = self.reached(time);
        let Some(stop) = self.stops.get(reached.saturating_sub(1)) else {
            return Points::ZERO;
        };
        if time.tick <= stop.time.tick {
            return stop.at;
        }
        let beyond = time.tick.saturating_sub(stop.time.tick).saturating_sub(1);
        let at = stop.after + self.unit.length(beyond);
        match self.stops.get(reached) {
            Some(next) => at.least(next.at),
            None => at,
        }
    }

    /// The ticks that are told, about so far from each other: round ones, and the first after a cut.
    pub fn labels(&self, alloc: Global, apart: Points) -> Result<Vec<u64>, AllocError> {
        let step = round_step(self.unit.ticks_in(apart));
        let mut labels = Labels {
            ticks: Vec::new(alloc),
            last: None,
            apart,
        };
        let mut before: Option<Stop> = None;
        for stop in self.stops.as_slice() {
            if let Some(last) = before {
                if stop.silence > 0 && !stop.cut {
                    self.label_silence(&mut labels, step, &last, stop)?;
                }
            }
            let tick = stop.time.tick;
            let told = tick.checked_rem(step).unwrap_or(0) == 0;
            if stop.slot == 0 && (told || stop.cut && labels.last.is_some()) {
                labels.offer(tick, stop.at)?;
            }
            before = Some(*stop);
        }
        Ok(labels.ticks)
    }

    // The ticks that are told between two stops.
    fn label_silence(
        &self,
        labels: &mut Labels,
        step: u64,
        before: &Stop,
        stop: &Stop,
    ) -> Result<(), AllocError> {
        let first = before
            .time
            .tick
            .checked_div(step)
            .unwrap_or(0)
            .saturating_add(1);
        let end = stop
            .time
            .tick
            .saturating_sub(1)
            .checked_div(step)
            .unwrap_or(0)
            .saturating_add(1);
        for count in first..end {
            let tick = count.saturating_mul(step);
            let beyond = tick.saturating_sub(before.time.tick).saturating_sub(1);
            let at = before.after + self.unit.length(beyond);
            labels.offer(tick, at.least(stop.at))?;
        }
        Ok(())
    }
}
