//! Staves: parts of the time, one below the other, each with its ground, its lanes and its rounds.

use crate::courses::push_lanes;
use crate::kept::Kept;
use crate::layout::Layout;
use crate::marks::{push_fault, push_rounds};
use crate::stave::{ShownFault, Stave};
use std::alloc::{AllocError, Global};
use tw_svg::{GAP, Path, Points, Spot, Stop, Svg, Time, push_number, tick_text};

/// Draws all staves.
pub(crate) fn push_staves(
    svg: &mut Svg,
    alloc: Global,
    kept: &Kept,
    layout: &Layout,
    fault: Option<ShownFault<'_>>,
) -> Result<(), AllocError> {
    let mut first = 0;
    for (number, left) in layout.staves.iter().enumerate() {
        let stave = Stave::new(alloc, layout, number, *left, first);
        push_ground(svg, &stave)?;
        push_lanes(svg, kept, &stave)?;
        push_rounds(svg, kept, &stave)?;
        if let Some(fault) = &fault {
            push_fault(svg, &stave, fault)?;
        }
        first = stave.next;
    }
    Ok(())
}

/// What stands under all: opened ticks, a grid, the axis, cuts.
fn push_ground(svg: &mut Svg, stave: &Stave<'_>) -> Result<(), AllocError> {
    push_bands(svg, stave)?;
    push_slots(svg, stave)?;
    push_grid(svg, stave)?;
    let foot = stave.base + stave.layout.height + Points::whole(13) + stave.layout.shelf();
    push_ticks(svg, stave, foot)?;
    if stave.layout.is_tall() {
        push_ticks(svg, stave, stave.base - Points::whole(9))?;
    }
    push_cuts(svg, stave)
}

/// The grounds of opened ticks.
fn push_bands(svg: &mut Svg, stave: &Stave<'_>) -> Result<(), AllocError> {
    let stops = stave.layout.axis.stops();
    let mut begun: Option<Points> = None;
    for (place, stop) in stops.iter().enumerate() {
        if !stop.opened || !stave.has(stop.at) {
            continue;
        }
        let begin = begun.unwrap_or(stop.at);
        let goes_on = match stops.get(place.saturating_add(1)) {
            Some(next) => next.slot > 0 && stave.has(next.at),
            None => false,
        };
        if goes_on {
            begun = Some(begin);
            continue;
        }
        begun = None;
        let edge = stave.layout.edge - Points::whole(1);
        let corner = Spot::new(stave.x(begin) - edge, stave.base - Points::whole(3));
        let wide = stop.at - begin + edge.times(2);
        svg.rect(corner, wide, stave.layout.height + Points::whole(4), "band")?;
    }
    Ok(())
}

/// The words under opened ticks: the time of the first, then the microsteps.
fn push_slots(svg: &mut Svg, stave: &Stave<'_>) -> Result<(), AllocError> {
    let foot = stave.base + stave.layout.height + Points::whole(10);
    let mut told = None;
    for stop in stave.layout.axis.stops() {
        if stop.opened && stave.has(stop.at) {
            let Time { tick, micro } = stop.time;
            let is_first = told != Some(tick);
            told = Some(tick);
            if micro >= 1000 && stop.slot % 3 != 0 {
                // Four digits are wider than a slot.
                continue;
            }
            let words = if is_first && tick < 1000 {
                format!(in stave.alloc; "{tick}.{micro}")?
            } else {
                format!(in stave.alloc; ".{micro}")?
            };
            let title = format!(in stave.alloc; "time {tick}.{micro}")?;
            let spot = Spot::new(stave.x(stop.at), foot);
            svg.text(spot, "s z q", words.as_str(), Some(title.as_str()))?;
        }
    }
    Ok(())
}

/// The upright lines of the ticks that are told.
fn push_grid(svg: &mut Svg, stave: &Stave<'_>) -> Result<(), AllocError> {
    let mut path = Path::new(stave.alloc);
    for label in stave.layout.labels.as_slice() {
        if stave.has(label.at) {
            path.start(Spot::new(stave.x(label.at), stave.base - Points::whole(3)))?;
            path.by_down(stave.layout.height + Points::whole(4))?;
        }
    }
    if path.is_empty() {
        return Ok(());
    }
    svg.path("grid", &path, None)
}

/// The ticks that are told, at a height.
fn push_ticks(svg: &mut Svg, stave: &Stave<'_>, down: Points) -> Result<(), AllocError> {
    let left = stave.start - Points::whole(10) - stave.layout.overhang;
    svg.text(Spot::new(left, down), "s r", "tick", None)?;
    for label in stave.layout.labels.as_slice() {
        if stave.has(label.at) {
            let words = tick_text(stave.alloc, label.tick)?;
            svg.text(
                Spot::new(stave.x(label.at), down),
                "s q",
                words.as_str(),
                None,
            )?;
        }
    }
    Ok(())
}

/// The cuts: broken lines with the number of ticks.
fn push_cuts(svg: &mut Svg, stave: &Stave<'_>) -> Result<(), AllocError> {
    let middle = Points::whole(GAP).share(1, 2);
    for stop in stave.layout.axis.stops() {
        let at = stop.at - middle;
        if stop.cut && stave.has(at) {
            push_cut(svg, stave, stop, stave.x(at))?;
        }
    }
    Ok(())
}

fn push_cut(svg: &mut Svg, stave: &Stave<'_>, stop: &Stop, x: Points) -> Result<(), AllocError> {
    let mut path = Path::new(stave.alloc);
    path.start(Spot::new(x, stave.base - Points::whole(3)))?;
    path.by_down(stave.layout.height + Points::whole(4))?;
    svg.path("cut", &path, None)?;
    let mut words = String::new(stave.alloc);
    push_number(&mut words, stop.silence)?;
    words.push_str(" ticks")?;
    let tick = stop.time.tick;
    let before = tick.saturating_sub(stop.silence);
    let title = format!(in stave.alloc; "no record between {before} and {tick}")?;
    let spot = Spot::new(x, stave.base + stave.layout.height + Points::whole(10));
    svg.text(spot, "s z q", words.as_str(), Some(title.as_str()))
}
