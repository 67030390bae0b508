//! Under all: the axis of virtual time, global virtual time, and what is committed.

use crate::looks::{Shade, classes};
use crate::plan::Plan;
use crate::scene::Scene;
use std::alloc::{AllocError, Global};
use tw_svg::{GAP, Path, Points, Spot, Stop, Svg, tick_text};
use tw_vtime::Stamp;

/// How far ticks stand apart that are told.
const APART: i64 = 26;

/// Draws the ground: opened ticks, the grid, what is final, and the axis.
pub(crate) fn draw_ground(
    svg: &mut Svg,
    alloc: Global,
    scene: &Scene,
    plan: &Plan,
) -> Result<(), AllocError> {
    let labels = plan.axis.labels(alloc, Points::whole(APART))?;
    draw_opened(svg, plan)?;
    draw_grid(svg, alloc, plan, labels.as_slice())?;
    draw_past(svg, alloc, scene, plan)?;
    draw_labels(svg, alloc, plan, labels.as_slice())?;
    draw_microsteps(svg, alloc, plan)?;
    draw_cuts(svg, alloc, plan)?;
    draw_edges(svg, alloc, plan)
}

/// Ticks with several microsteps stand on a ground of their own.
fn draw_opened(svg: &mut Svg, plan: &Plan) -> Result<(), AllocError> {
    let stops = plan.axis.stops();
    for (place, stop) in stops.iter().enumerate() {
        let last = stops
            .get(place.saturating_add(1))
            .is_none_or(|next| next.time.tick != stop.time.tick);
        if stop.opened && last {
            let slots = plan.slot.times(i64::from(stop.slot));
            draw_band(svg, plan, stop, slots)?;
        }
    }
    Ok(())
}

/// The ground of an opened tick, down from its last microstep.
fn draw_band(svg: &mut Svg, plan: &Plan, stop: &Stop, slots: Points) -> Result<(), AllocError> {
    let edge = Points::whole(3);
    let high = plan.stop_y(stop) - plan.lift() - edge;
    let low = plan.stop_y(stop) + slots + edge;
    svg.rect(
        Spot::new(plan.left, high),
        plan.far - plan.left,
        low - high,
        "band",
    )
}

/// A level line at each tick that is told.
fn draw_grid(svg: &mut Svg, alloc: Global, plan: &Plan, ticks: &[u64]) -> Result<(), AllocError> {
    let mut path = Path::new(alloc);
    for tick in ticks {
        path.start(Spot::new(plan.left, plan.tick_y(*tick)))?;
        path.across(plan.far)?;
    }
    svg.path("grid", &path, None)
}

/// Global virtual time: a staircase.
fn stair(alloc: Global, scene: &Scene, plan: &Plan) -> Result<Path, AllocError> {
    let mut path = Path::new(alloc);
    let mut y = plan.y(Some(Stamp::START));
    path.start(Spot::new(plan.left, y))?;
    for risen in scene.seen.rises.as_slice() {
        let up = plan.y(Some(risen.gvt));
        if up != y {
            path.across(plan.x(risen.action))?;
            path.down(up)?;
            y = up;
        }
    }
    path.across(plan.far)?;
    Ok(path)
}

/// What is below global virtual time is final.
fn draw_past(svg: &mut Svg, alloc: Global, scene: &Scene, plan: &Plan) -> Result<(), AllocError> {
    let mut path = stair(alloc, scene, plan)?;
    path.down(plan.base + Points::whole(4))?;
    path.across(plan.left)?;
    path.close()?;
    svg.path("past", &path, None)
}

/// Draws global virtual time, and a bar over what each harvest committed.
pub(crate) fn draw_final(
    svg: &mut Svg,
    alloc: Global,
    scene: &Scene,
    plan: &Plan,
) -> Result<(), AllocError> {
    let path = stair(alloc, scene, plan)?;
    svg.path("gvt", &path, Some("global virtual time"))?;
    for commit in scene.seen.commits.as_slice() {
        let mut bar = Path::new(alloc);
        bar.start(Spot::new(plan.x(commit.action), plan.y(Some(commit.from))))?;
        bar.down(plan.y(Some(commit.to)))?;
        let class = classes(alloc, &["commit", Shade::Of(commit.component).drawn()])?;
        svg.path(class.as_str(), &bar, Some(scene.told(commit.action)))?;
    }
    Ok(())
}

/// Where words stand that are told of the axis.
fn margin(plan: &Plan) -> Points {
    plan.left - Points::whole(8)
}

/// The ticks.
fn draw_labels(svg: &mut Svg, alloc: Global, plan: &Plan, ticks: &[u64]) -> Result<(), AllocError> {
    for tick in ticks {
        let words = tick_text(alloc, *tick)?;
        let spot = Spot::new(margin(plan), plan.tick_y(*tick) + Points::whole(4));
        svg.text(spot, "s r", words.as_str(), None)?;
    }
    Ok(())
}

/// The microsteps of opened ticks, where there is room.
fn draw_microsteps(svg: &mut Svg, alloc: Global, plan: &Plan) -> Result<(), AllocError> {
    if plan.slot.is_below(Points::whole(10)) {
        return Ok(());
    }
    for stop in plan.axis.stops() {
        if stop.slot > 0 {
            draw_microstep(svg, alloc, plan, stop)?;
        }
    }
    Ok(())
}

fn draw_microstep(
    svg: &mut Svg,
    alloc: Global,
    plan: &Plan,
    stop: &Stop,
) -> Result<(), AllocError> {
    let tick = stop.time.tick;
    let micro = stop.time.micro;
    let words = format!(in alloc; ".{micro}")?;
    let told = format!(in alloc; "time {tick}.{micro}")?;
    let spot = Spot::new(margin(plan), plan.stop_y(stop) + Points::whole(3));
    svg.text(spot, "s z r", words.as_str(), Some(told.as_str()))
}

/// Where a silence is cut, and how long it is.
fn draw_cuts(svg: &mut Svg, alloc: Global, plan: &Plan) -> Result<(), AllocError> {
    for stop in plan.axis.stops() {
        if stop.cut {
            draw_cut(svg, alloc, plan, stop)?;
        }
    }
    Ok(())
}

fn draw_cut(svg: &mut Svg, alloc: Global, plan: &Plan, stop: &Stop) -> Result<(), AllocError> {
    let y = plan.stop_y(stop) + Points::whole(GAP / 2);
    svg.line(Spot::new(plan.left, y), Spot::new(plan.far, y), "cut")?;
    let ticks = tick_text(alloc, stop.silence)?;
    let words = format!(in alloc; "{ticks} ticks")?;
    let spot = Spot::new(plan.left + Points::whole(4), y - Points::whole(3));
    svg.text(spot, "s z", words.as_str(), None)
}

/// The ends of the axis.
fn draw_edges(svg: &mut Svg, alloc: Global, plan: &Plan) -> Result<(), AllocError> {
    let x = margin(plan);
    svg.text(
        Spot::new(x, plan.top - Points::whole(2)),
        "s r",
        "tick",
        None,
    )?;
    svg.text(
        Spot::new(x, plan.base + Points::whole(3)),
        "s r",
        "start",
        None,
    )?;
    let mut foot = Path::new(alloc);
    foot.start(Spot::new(plan.left, plan.base + Points::whole(4)))?;
    foot.across(plan.far)?;
    svg.path("rule", &foot, None)
}
