//! The lanes of a stave: names, lines of events, scales and courses.

use crate::kept::Kept;
use crate::lanes::{Course, Lane};
use crate::layout::LanePlace;
use crate::scale::Scale;
use crate::stave::Stave;
use std::alloc::AllocError;
use tw_svg::{Path, Points, Spot, Svg, cut, value_text};

/// How many letters of a name are told.
const NAME: usize = 18;

/// How many letters of a figure are told.
const FIGURE: usize = 20;

/// Draws the lanes of a stave.
pub(crate) fn push_lanes(svg: &mut Svg, kept: &Kept, stave: &Stave<'_>) -> Result<(), AllocError> {
    for (number, lane) in kept.lanes.items.iter().enumerate() {
        if let Some(place) = stave.layout.lanes.get(number) {
            push_lane(svg, stave, lane, place)?;
        }
    }
    Ok(())
}

/// A level line of a class over the whole stave.
fn push_level(
    svg: &mut Svg,
    stave: &Stave<'_>,
    down: Points,
    class: &str,
) -> Result<(), AllocError> {
    let mut path = Path::new(stave.alloc);
    path.start(Spot::new(stave.start, down))?;
    path.across(stave.end)?;
    svg.path(class, &path, None)
}

fn push_lane(
    svg: &mut Svg,
    stave: &Stave<'_>,
    lane: &Lane,
    place: &LanePlace,
) -> Result<(), AllocError> {
    let line = stave.base + place.line;
    let top = stave.base + place.top;
    push_level(svg, stave, line, "rule")?;
    match &lane.course {
        Some(course) if lane.is_full() => {
            push_names(svg, stave, lane, course, top)?;
            let scale = Scale::of(course);
            push_scale(svg, stave, course, &scale, top)?;
            push_course(svg, stave, lane, course, &scale, top)
        }
        _ => {
            let class = if lane.last_tick.is_some() { "n" } else { "m s" };
            let spot = Spot::new(Points::whole(16), line + Points::whole(4));
            push_cut_name(svg, spot, class, lane.name.as_str(), NAME)
        }
    }
}

/// A name in little room, told whole where one points at it.
fn push_cut_name(
    svg: &mut Svg,
    spot: Spot,
    class: &str,
    name: &str,
    room: usize,
) -> Result<(), AllocError> {
    let words = cut(svg.allocator(), name, room)?;
    svg.text(spot, class, words.as_str(), Some(name))
}

/// The names of a component and of its figure.
fn push_names(
    svg: &mut Svg,
    stave: &Stave<'_>,
    lane: &Lane,
    course: &Course,
    top: Points,
) -> Result<(), AllocError> {
    let middle = top + stave.layout.band.share(1, 2);
    push_names_of(svg, middle, lane.name.as_str(), Some(course.name.as_str()))
}

/// The name of a component and that of its figure, if there is one, about the middle of a lane.
pub(crate) fn push_names_of(
    svg: &mut Svg,
    middle: Points,
    name: &str,
    figure: Option<&str>,
) -> Result<(), AllocError> {
    let left = Points::whole(16);
    let Some(figure) = figure else {
        return push_cut_name(
            svg,
            Spot::new(left, middle + Points::whole(5)),
            "m s",
            name,
            NAME,
        );
    };
    push_cut_name(
        svg,
        Spot::new(left, middle + Points::whole(5)),
        "n",
        name,
        NAME,
    )?;
    let spot = Spot::new(left, middle + Points::whole(17));
    push_cut_name(svg, spot, "s z", figure, FIGURE)
}

/// The numbers of a scale in a stave.
fn push_scale(
    svg: &mut Svg,
    stave: &Stave<'_>,
    course: &Course,
    scale: &Scale,
    top: Points,
) -> Result<(), AllocError> {
    let right = stave.layout.gutter - Points::whole(6);
    let extremes = (course.least, course.greatest);
    push_scale_of(
        svg,
        Spot::new(right, top),
        stave.layout.band,
        extremes,
        scale,
    )
}

/// The numbers of a scale, left of a place, over the height of a band: its ends, or of a figure that never changes its value and 0.
pub(crate) fn push_scale_of(
    svg: &mut Svg,
    place: Spot,
    band: Points,
    extremes: (i128, i128),
    scale: &Scale,
) -> Result<(), AllocError> {
    let (least, greatest) = extremes;
    let (first, second) = if least < greatest {
        (scale.bottom, scale.top)
    } else if scale.has_zero() {
        (0, least)
    } else {
        (least, least)
    };
    push_value(svg, place, band, first, scale)?;
    if second == first {
        return Ok(());
    }
    push_value(svg, place, band, second, scale)
}

fn push_value(
    svg: &mut Svg,
    place: Spot,
    band: Points,
    value: i128,
    scale: &Scale,
) -> Result<(), AllocError> {
    let down = place.y + scale.depth(value, band) + Points::whole(3);
    let words = value_text(svg.allocator(), value)?;
    let title = format!(in svg.allocator(); "{value}")?;
    svg.text(
        Spot::new(place.x, down),
        "s z r",
        words.as_str(),
        Some(title.as_str()),
    )
}

/// The step line of a course in a stave: from its last value before, by its changes in the rounds of the stave.
fn step_line(
    stave: &Stave<'_>,
    course: &Course,
    scale: &Scale,
    top: Points,
) -> Result<Path, AllocError> {
    let mut path = Path::new(stave.alloc);
    let mut before = course.first;
    for change in course.changes.as_slice() {
        if change.round < stave.first {
            before = change.value;
        }
    }
    let down = top + scale.depth(before, stave.layout.band);
    path.start(Spot::new(stave.start, down))?;
    for change in course.changes.as_slice() {
        if change.round >= stave.first && change.round < stave.next {
            if let Some(at) = stave.layout.rounds.get(change.round) {
                path.across(stave.x(*at) + stave.layout.apart.share(1, 2))?;
                path.down(top + scale.depth(change.value, stave.layout.band))?;
            }
        }
    }
    path.across(stave.end)?;
    Ok(path)
}

/// The course of a figure: filled down to 0, or to the foot of its band.
fn push_course(
    svg: &mut Svg,
    stave: &Stave<'_>,
    lane: &Lane,
    course: &Course,
    scale: &Scale,
    top: Points,
) -> Result<(), AllocError> {
    let line = step_line(stave, course, scale, top)?;
    let zero = if scale.has_zero() {
        top + scale.depth(0, stave.layout.band)
    } else {
        top + stave.layout.band
    };
    let mut area = Path::new(stave.alloc);
    area.append(&line)?;
    area.down(zero)?;
    area.across(stave.start)?;
    area.close()?;
    svg.path("area", &area, None)?;
    if scale.has_zero() {
        push_level(svg, stave, zero, "rule thin")?;
    }
    let name = lane.name.as_str();
    let figure = course.name.as_str();
    let title = format!(in stave.alloc; "{name}: {figure}")?;
    svg.path("line", &line, Some(title.as_str()))
}
