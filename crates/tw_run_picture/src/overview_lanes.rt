//! The lanes of a picture of courses alone: names, scales, bands from the least to the greatest value, and lines of means.

use crate::courses::{push_names_of, push_scale_of};
use crate::overview::OverviewLane;
use crate::overview_layout::OverviewLayout;
use crate::scale::Scale;
use crate::tracks::Track;
use std::alloc::AllocError;
use tw_svg::{Path, Points, Spot, Svg};

/// A lane that is drawn: its number, and the top of its band.
#[derive(Clone, Copy)]
struct Place {
    top: Points,
}

/// Draws the lanes.
pub(crate) fn push_lanes(
    svg: &mut Svg,
    layout: &OverviewLayout,
    lanes: &[OverviewLane],
) -> Result<(), AllocError> {
    for (number, lane) in lanes.iter().enumerate() {
        let place = Place {
            top: layout.lead() + layout.top(number),
        };
        push_lane(svg, layout, lane, place)?;
    }
    Ok(())
}

fn push_lane(
    svg: &mut Svg,
    layout: &OverviewLayout,
    lane: &OverviewLane,
    place: Place,
) -> Result<(), AllocError> {
    let foot = place.top + layout.band;
    push_level(svg, layout, foot, "rule")?;
    let middle = place.top + layout.band.share(1, 2);
    let Some(track) = &lane.track else {
        return push_names_of(svg, middle, lane.name.as_str(), None);
    };
    push_names_of(svg, middle, lane.name.as_str(), Some(track.name.as_str()))?;
    let scale = Scale::of_track(track);
    let extremes = track.extremes();
    let right = layout.gutter - Points::whole(6);
    push_scale_of(
        svg,
        Spot::new(right, place.top),
        layout.band,
        extremes,
        &scale,
    )?;
    if scale.has_zero() && scale.bottom < 0 {
        let zero = place.top + scale.depth(0, layout.band);
        push_level(svg, layout, zero, "rule thin")?;
    }
    push_track(svg, layout, lane, track, &scale, place)
}

/// A level line of a class over the whole time.
fn push_level(
    svg: &mut Svg,
    layout: &OverviewLayout,
    down: Points,
    class: &str,
) -> Result<(), AllocError> {
    let mut path = Path::new(svg.allocator());
    path.start(Spot::new(layout.gutter, down))?;
    path.across(layout.gutter + layout.plot)?;
    svg.path(class, &path, None)
}

/// The course of a figure: its band, and the line of its means.
fn push_track(
    svg: &mut Svg,
    layout: &OverviewLayout,
    lane: &OverviewLane,
    track: &Track,
    scale: &Scale,
    place: Place,
) -> Result<(), AllocError> {
    let band = band_of(svg, layout, track, scale, place)?;
    if band.is_empty() {
        return Ok(());
    }
    svg.path("span", &band, None)?;
    let line = line_of(svg, layout, track, scale, place)?;
    let name = lane.name.as_str();
    let figure = track.name.as_str();
    let (least, greatest) = track.extremes();
    let title = format!(in svg.allocator(); "{name}: {figure}, {least} to {greatest}")?;
    svg.path("line", &line, Some(title.as_str()))
}

/// Where a column begins.
fn left_of(layout: &OverviewLayout, track: &Track, place: usize) -> Points {
    layout.x(layout.from.saturating_add(track.begin_of(place)))
}

/// The outline between the greatest and the least values: to the right along the greatest ones, and back along the least ones.
fn band_of(
    svg: &Svg,
    layout: &OverviewLayout,
    track: &Track,
    scale: &Scale,
    place: Place,
) -> Result<Path, AllocError> {
    let mut path = Path::new(svg.allocator());
    let mut last = None;
    for (number, column) in track.columns.iter().enumerate() {
        let down = place.top + scale.depth(column.greatest, layout.band);
        let left = left_of(layout, track, number);
        step_to(&mut path, last, Spot::new(left, down))?;
        last = Some(down);
    }
    let end = left_of(layout, track, track.columns.len());
    if last.is_some() {
        path.across(end)?;
    }
    for (number, column) in track.columns.iter().enumerate().rev() {
        let down = place.top + scale.depth(column.least, layout.band);
        let right = left_of(layout, track, number.saturating_add(1));
        step_to(&mut path, last, Spot::new(right, down))?;
        last = Some(down);
    }
    if last.is_some() {
        path.across(left_of(layout, track, 0))?;
        path.close()?;
    }
    Ok(path)
}

/// The line of means.
fn line_of(
    svg: &Svg,
    layout: &OverviewLayout,
    track: &Track,
    scale: &Scale,
    place: Place,
) -> Result<Path, AllocError> {
    let mut path = Path::new(svg.allocator());
    let mut last = None;
    let mut end = layout.gutter;
    for (number, column) in track.columns.iter().enumerate() {
        if let Some(depth) = scale.depth_of_mean(column, layout.band) {
            let left = left_of(layout, track, number);
            step_to(&mut path, last, Spot::new(left, place.top + depth))?;
            last = Some(place.top + depth);
            end = left_of(layout, track, number.saturating_add(1));
        }
    }
    if last.is_some() {
        path.across(end)?;
    }
    Ok(path)
}

/// Begins at a place, or goes on level to it and there up or down; what is level already goes on.
fn step_to(path: &mut Path, last: Option<Points>, spot: Spot) -> Result<(), AllocError> {
    let Some(down) = last else {
        return path.start(spot);
    };
    if down == spot.y {
        return Ok(());
    }
    path.across(spot.x)?;
    path.down(spot.y)
}
