//! Names at the right, and every action at the foot.

use crate::looks::{Shade, add_figure, class_if, classes};
use crate::plan::{Plan, counted};
use crate::scene::{Scene, number_of};
use crate::seen::Acted;
use std::alloc::{AllocError, Global};
use tw_svg::{Path, Points, Spot, Svg, tick_text};

/// How far names at the right are apart at least.
const LINE: i64 = 13;

/// Draws the name of each component at the right end of its course; those that would meet are pushed apart.
pub(crate) fn draw_names(
    svg: &mut Svg,
    alloc: Global,
    scene: &Scene,
    plan: &Plan,
) -> Result<(), AllocError> {
    let mut tags = Vec::new(alloc);
    for component in scene.shown.as_slice() {
        let end = scene.seen.ends.get(*component).copied().flatten();
        tags.push((plan.y_of(*component, end).tenths(), *component))?;
    }
    tags.sort_unstable();
    let lowest = plan.base + Points::whole(4);
    let mut before = None;
    for (place, (tenths, component)) in tags.iter().enumerate() {
        let below = tags.len().saturating_sub(1).saturating_sub(place);
        let mut y = Points::of_tenths(*tenths);
        if let Some(last) = before {
            y = y.most(last + Points::whole(LINE));
        }
        before = Some(y);
        y = y.least(lowest - Points::whole(LINE).times(counted(below)));
        draw_name(svg, alloc, scene, *component, Spot::new(plan.far, y))?;
    }
    Ok(())
}

fn draw_name(
    svg: &mut Svg,
    alloc: Global,
    scene: &Scene,
    component: usize,
    spot: Spot,
) -> Result<(), AllocError> {
    let name = scene.short_name(alloc, component)?;
    svg.text(
        spot.moved(Points::whole(14), Points::whole(4)),
        "n",
        name.as_str(),
        Some(scene.name(component)),
    )?;
    let mut figure = Path::new(alloc);
    let place = spot.moved(Points::whole(6), Points::ZERO);
    add_figure(&mut figure, component, place, Points::of_tenths(36))?;
    svg.path(Shade::Of(component).filled(), &figure, None)
}

/// Draws a stroke for every action, with its words where they are few, else with numbers. How far down that reaches.
pub(crate) fn draw_strip(
    svg: &mut Svg,
    alloc: Global,
    scene: &Scene,
    plan: &Plan,
) -> Result<Points, AllocError> {
    let top = plan.base + Points::whole(12);
    for (action, acted) in scene.seen.actions.iter().enumerate() {
        let spot = Spot::new(plan.x(action), top);
        let path = stroke(alloc, spot)?;
        let class = class_of(alloc, acted)?;
        let wide = plan.pitch.share(6, 10).least(Points::whole(3));
        svg.wide_path(class.as_str(), &path, wide, Some(scene.told(action)))?;
    }
    if plan.is_short() {
        return draw_words(svg, scene, plan, top);
    }
    draw_numbers(svg, alloc, plan, top)?;
    Ok(top + Points::whole(34))
}

/// The stroke of an action.
fn stroke(alloc: Global, spot: Spot) -> Result<Path, AllocError> {
    let mut path = Path::new(alloc);
    path.start(spot)?;
    path.by_down(Points::whole(8))?;
    Ok(path)
}

/// Its class: the shade of its component, and whether it was refused.
fn class_of(alloc: Global, acted: &Acted) -> Result<String, AllocError> {
    let shade = match acted.component() {
        Some(component) => Shade::Of(component),
        None => Shade::Plain,
    };
    let gone = class_if(acted.is_refused(), "gone");
    classes(alloc, &[shade.drawn(), gone])
}

/// The words of each action, from the lower left.
fn draw_words(
    svg: &mut Svg,
    scene: &Scene,
    plan: &Plan,
    top: Points,
) -> Result<Points, AllocError> {
    let mut letters = 1;
    for action in 0..scene.seen.actions.len() {
        let words = scene.words(action);
        letters = letters.max(words.chars().count());
        let x = plan.x(action) + Points::whole(3);
        let spot = Spot::new(x, top + Points::whole(18));
        svg.turned(spot, -48, "m s r", words, None)?;
    }
    Ok(top + Points::whole(30) + Points::of_tenths(46).times(counted(letters)))
}

/// The numbers of some actions.
fn draw_numbers(svg: &mut Svg, alloc: Global, plan: &Plan, top: Points) -> Result<(), AllocError> {
    let y = top + Points::whole(22);
    let x = plan.left - Points::whole(8);
    svg.text(Spot::new(x, y), "s r", "action", None)?;
    let step = step_of(plan);
    for action in 0..usize::try_from(plan.count).unwrap_or(0) {
        let number = number_of(action);
        if number.checked_rem(step).unwrap_or(1) == 0 {
            let words = tick_text(alloc, number as u64)?;
            svg.text(Spot::new(plan.x(action), y), "s q", words.as_str(), None)?;
        }
    }
    Ok(())
}

/// How far numbers are apart, in actions: round, and 46 points at least.
fn step_of(plan: &Plan) -> usize {
    for step in [1, 2, 5, 10, 20, 50] {
        if !plan.pitch.times(step).is_below(Points::whole(46)) {
            return usize::try_from(step).unwrap_or(1);
        }
    }
    100
}
