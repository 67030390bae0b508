//! Where things stand: actions from left to right, virtual time upwards.

use crate::scene::Scene;
use std::alloc::{AllocError, Global};
use tw_svg::{Axis, Points, Spot, Spread, Stop, Time, Unit, tick_text, width_of};
use tw_vtime::Stamp;

/// The width of a full page, in points.
pub(crate) const PAGE: i64 = 1280;

/// The height of virtual time, in points; more where components need it at the right.
const ROOM: i64 = 560;

/// Where things stand.
#[derive(Drop)]
pub(crate) struct Plan {
    /// The axis of virtual time.
    pub(crate) axis: Axis,
    /// The points of a microstep of an opened tick.
    pub(crate) slot: Points,
    /// Where actions begin, and where lines that go on end.
    pub(crate) left: Points,
    pub(crate) far: Points,
    /// How far an action is from the next.
    pub(crate) pitch: Points,
    /// How many actions there are.
    pub(crate) count: i64,
    /// The top and the start of virtual time.
    pub(crate) top: Points,
    pub(crate) base: Points,
    // How far all actions reach, with a place more.
    span: Points,
    // How far an output is below its transition.
    lift: Points,
    // How far components at one time are beside each other, in hundredths of a point.
    side: i64,
    components: i64,
}

/// A number as a length can be counted.
pub(crate) fn counted(number: usize) -> i64 {
    i64::try_from(number).unwrap_or(i64::MAX)
}

impl Plan {
    /// Where the things of a scene stand, below a top that is not known yet.
    pub(crate) fn new(alloc: Global, scene: &Scene) -> Result<Plan, AllocError> {
        let count = counted(scene.seen.actions.len());
        let places = count.saturating_add(1);
        let mut axis = axis_of(alloc, scene)?;
        let left = left_edge(alloc, &axis)?;
        let right = right_edge(alloc, scene)?;
        let span = Points::whole(44)
            .times(places)
            .least(Points::whole(PAGE) - left - right)
            .most(Points::of_tenths(32).times(places));
        let components = counted(scene.components());
        let room = Points::whole(ROOM.max(counted(scene.shown.len()).saturating_mul(13)));
        let spread = fitted(&mut axis, room);
        let unit = spread.unit.length(1);
        let narrow = if axis.has_opened() {
            spread.slot.least(unit)
        } else {
            unit
        };
        Ok(Plan {
            axis,
            slot: spread.slot,
            left,
            far: left
                + span.share(
                    count.saturating_mul(10).saturating_add(6),
                    places.saturating_mul(10),
                ),
            pitch: span.share(1, places),
            count,
            top: Points::ZERO,
            base: Points::ZERO,
            span,
            lift: narrow.share(4, 10).least(Points::whole(14)),
            side: side_of(unit, components),
            components,
        })
    }

    /// Has virtual time stand below a top.
    pub(crate) fn stand_below(&mut self, top: Points) {
        self.top = top;
        self.base = top + self.axis.length() + self.lift + Points::whole(30);
    }

    /// How wide the picture is, in points.
    pub(crate) fn width(&self, right: Points) -> i64 {
        (self.left + self.span + right).rounded_up().max(700)
    }

    /// Whether each action has its words at the foot, and falls are told in words.
    pub(crate) fn is_short(&self) -> bool {
        self.count <= 40
    }

    /// How far right the action at a place stands; the beginning is as far to the left of the first as actions are apart.
    pub(crate) fn x(&self, action: usize) -> Points {
        let before = counted(action).saturating_add(1);
        self.left + self.span.share(before, self.count.saturating_add(1))
    }

    /// How far right of its action the fall of this rank stands, of those that are by one action.
    pub(crate) fn aside(&self, rank: usize) -> Points {
        let apart = self.pitch.share(1, 8).least(Points::whole(4));
        apart.times(counted(rank).min(7))
    }

    /// How far down a stamp stands: below tick 0 where there is none, at the top where it is the end.
    pub(crate) fn y(&self, stamp: Option<Stamp>) -> Points {
        let Some(stamp) = stamp else {
            return self.base;
        };
        if stamp.is_end() {
            return self.top;
        }
        let time = Time {
            tick: stamp.tick(),
            micro: stamp.micro(),
        };
        let lift = if stamp.is_output() {
            Points::ZERO
        } else {
            self.lift
        };
        self.base - Points::whole(14) - self.axis.of(time) - lift
    }

    /// How far down the start of a tick stands.
    pub(crate) fn tick_y(&self, tick: u64) -> Points {
        self.base - Points::whole(14) - self.axis.of(Time { tick, micro: 0 })
    }

    /// How far down a stop of the axis stands, at its output.
    pub(crate) fn stop_y(&self, stop: &Stop) -> Points {
        self.base - Points::whole(14) - stop.at
    }

    /// How far an output is below its transition.
    pub(crate) fn lift(&self) -> Points {
        self.lift
    }

    /// How far down a component stands at a stamp: components at one time stand a little beside each other.
    pub(crate) fn y_of(&self, component: usize, stamp: Option<Stamp>) -> Points {
        let from_middle = counted(component)
            .saturating_mul(2)
            .saturating_sub(self.components.saturating_sub(1));
        self.y(stamp) + Points::of_tenths(self.side.saturating_mul(from_middle) / 20)
    }

    /// The place of an action and a component's stamp.
    pub(crate) fn spot(&self, action: usize, component: usize, stamp: Option<Stamp>) -> Spot {
        Spot::new(self.x(action), self.y_of(component, stamp))
    }
}

/// How much room the ticks at the left take.
fn left_edge(alloc: Global, axis: &Axis) -> Result<Points, AllocError> {
    let last = axis.stops().last().map_or(0, |stop| stop.time.tick);
    let told = tick_text(alloc, last)?;
    Ok((width_of(told.as_str(), 11) + Points::whole(16)).most(Points::whole(64)))
}

/// How much room the names at the right take.
pub(crate) fn right_edge(alloc: Global, scene: &Scene) -> Result<Points, AllocError> {
    let mut letters = 3;
    for component in scene.shown.as_slice() {
        let name = scene.short_name(alloc, *component)?;
        letters = letters.max(name.chars().count());
    }
    Ok(Points::whole(30) + Points::of_tenths(74).times(counted(letters)))
}

/// How far components at one time are beside each other, in hundredths of a point.
fn side_of(unit: Points, components: i64) -> i64 {
    let all = unit.tenths().saturating_mul(3);
    all.checked_div(components.max(1)).unwrap_or(0).min(200)
}

/// The axis of the times at which anything happens.
fn axis_of(alloc: Global, scene: &Scene) -> Result<Axis, AllocError> {
    let mut stamps = Vec::new(alloc);
    stamps.push(Stamp::START.pack())?;
    for step in scene.seen.steps.as_slice() {
        stamps.push(step.stamp.pack())?;
    }
    for carried in scene.seen.messages.as_slice() {
        stamps.push(carried.item.message.stamp.pack())?;
    }
    for risen in scene.seen.rises.as_slice() {
        stamps.push(risen.gvt.pack())?;
    }
    stamps.sort_unstable();
    let times = times_of(alloc, stamps.as_slice())?;
    let last = times.last().map_or(0, |time| time.tick);
    Axis::new(alloc, times.as_slice(), 0, last.max(1))
}

/// The times of stamps that are in order, each once, without the end.
fn times_of(alloc: Global, stamps: &[u64]) -> Result<Vec<Time>, AllocError> {
    let mut times: Vec<Time> = Vec::new(alloc);
    for packed in stamps {
        if let Some(time) = time_of(*packed) {
            if times.last() != Some(&time) {
                times.push(time)?;
            }
        }
    }
    Ok(times)
}

/// The time of a packed stamp; none of the end.
fn time_of(packed: u64) -> Option<Time> {
    let Ok(stamp) = Stamp::unpack(packed) else {
        return None;
    };
    if stamp.is_end() {
        return None;
    }
    Some(Time {
        tick: stamp.tick(),
        micro: stamp.micro(),
    })
}

/// How wide time is drawn: 60 points a tick, 22 a microstep, or so much less that the axis has room.
fn fitted(axis: &mut Axis, room: Points) -> Spread {
    let mut spread = Spread {
        unit: Unit::new(Points::whole(60), 1),
        slot: Points::whole(22),
        room,
    };
    for _ in 0..500 {
        if !room.is_below(axis.lay(&spread)) {
            break;
        }
        spread.unit = spread.unit.hundredths(95);
        spread.slot = spread.slot.share(95, 100).most(Points::whole(5));
    }
    spread
}
