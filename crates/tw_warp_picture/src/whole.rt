//! The picture as a whole.

use crate::courses::draw_courses;
use crate::ground::{draw_final, draw_ground};
use crate::keys::draw_keys;
use crate::messages::draw_messages;
use crate::plan::{Plan, right_edge};
use crate::scene::Scene;
use crate::seen::Seen;
use crate::strip::{draw_names, draw_strip};
use crate::style::SHEET;
use std::alloc::{AllocError, Global};
use tw_atomic::Atomic;
use tw_exec::Executive;
use tw_svg::{Points, Svg, push_sheet};

/// The picture of what was seen of an executive.
pub fn picture<M: Atomic>(
    alloc: Global,
    executive: &Executive<M>,
    seen: Seen,
    title: &str,
) -> Result<Svg, AllocError> {
    let scene = Scene::new(alloc, executive, seen)?;
    let mut plan = Plan::new(alloc, &scene)?;
    let width = plan.width(right_edge(alloc, &scene)?);
    let mut body = Svg::new(alloc);
    let top = draw_keys(&mut body, alloc, &scene, &plan, title, width)?;
    plan.stand_below(top + Points::whole(6));
    let bottom = draw_body(&mut body, alloc, &scene, &plan)?;
    let mut sheet = String::new(alloc);
    push_sheet(&mut sheet, &SHEET)?;
    let mut whole = Svg::new(alloc);
    whole.begin(width, bottom, title, sheet.as_str())?;
    whole.append(&body)?;
    whole.end()?;
    Ok(whole)
}

/// All below the legend, from the ground up. How far down it reaches, in points.
fn draw_body(body: &mut Svg, alloc: Global, scene: &Scene, plan: &Plan) -> Result<i64, AllocError> {
    draw_ground(body, alloc, scene, plan)?;
    draw_messages(body, alloc, scene, plan)?;
    draw_final(body, alloc, scene, plan)?;
    draw_courses(body, alloc, scene, plan)?;
    draw_names(body, alloc, scene, plan)?;
    let bottom = draw_strip(body, alloc, scene, plan)?;
    Ok(bottom.rounded_up())
}
