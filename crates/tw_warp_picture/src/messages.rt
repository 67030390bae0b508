//! Messages and anti-messages, from where they were made to where they were delivered.

use crate::looks::{Shade, class_if, classes, draw_coin};
use crate::plan::{Plan, counted};
use crate::scene::{Scene, number_of};
use crate::seen::Carried;
use std::alloc::{AllocError, Global};
use tw_msgs::Sign;
use tw_svg::{Path, Points, Spot, Svg};

/// Draws all messages.
pub(crate) fn draw_messages(
    svg: &mut Svg,
    alloc: Global,
    scene: &Scene,
    plan: &Plan,
) -> Result<(), AllocError> {
    for carried in scene.seen.messages.as_slice() {
        draw_message(svg, alloc, scene, plan, carried)?;
    }
    Ok(())
}

/// A line from where it was made, and a ring where it was delivered; what is not delivered goes to the right edge.
fn draw_message(
    svg: &mut Svg,
    alloc: Global,
    scene: &Scene,
    plan: &Plan,
    carried: &Carried,
) -> Result<(), AllocError> {
    let sender = Shade::Of(carried.sending.component);
    let receiver = Shade::Of(carried.item.message.to);
    let sign = carried.item.sign;
    let (from, to) = ends(plan, carried);
    svg.open("g")?;
    let told = told_of(alloc, scene, carried)?;
    svg.title(told.as_str())?;
    let neg = class_if(sign == Sign::Anti, "neg");
    let class = classes(alloc, &["msg", sender.drawn(), neg])?;
    let path = bow(alloc, carried, from, to)?;
    svg.path(class.as_str(), &path, None)?;
    if carried.delivered.is_some() {
        draw_coin(svg, to, sign, receiver)?;
    } else {
        draw_head(svg, alloc, to, sender)?;
    }
    svg.close()
}

/// Where its line begins and ends.
fn ends(plan: &Plan, carried: &Carried) -> (Spot, Spot) {
    let sending = carried.sending;
    let message = carried.item.message;
    let at = Some(message.stamp);
    let made = match sending.step {
        Some(step) => Some(step),
        None => at,
    };
    let from = plan.spot(sending.action, sending.component, made);
    let x = match carried.delivered {
        Some(action) => plan.x(action),
        None => plan.far - Points::whole(4),
    };
    (from, Spot::new(x, plan.y_of(message.to, at)))
}

/// The line: upwards for a message, downwards for an anti-message, a little otherwise for each receiver.
fn bow(alloc: Global, carried: &Carried, from: Spot, to: Spot) -> Result<Path, AllocError> {
    let long = to.x - from.x;
    let lane = counted(carried.item.message.to % 3);
    let high = (Points::whole(2) + long.share(5, 100))
        .least(Points::whole(15))
        .share(lane.saturating_mul(35).saturating_add(100), 100);
    let bow = match (carried.delivered, carried.item.sign) {
        (None, _) => Points::ZERO,
        (_, Sign::Positive) => -high,
        (_, Sign::Anti) => high,
    };
    let mut path = Path::new(alloc);
    path.start(from)?;
    path.bow(
        from.moved(long.share(3, 10), bow),
        Spot::new(from.x + long.share(7, 10), to.y + bow),
        to,
    )?;
    Ok(path)
}

/// Adds an open head of a line that goes right.
pub(crate) fn add_head(path: &mut Path) -> Result<(), AllocError> {
    let (wide, high) = (Points::whole(4), Points::whole(3));
    path.by(-wide, -high)?;
    path.by(wide, high)?;
    path.by(-wide, high)
}

fn draw_head(svg: &mut Svg, alloc: Global, spot: Spot, shade: Shade) -> Result<(), AllocError> {
    let mut path = Path::new(alloc);
    path.start(spot)?;
    add_head(&mut path)?;
    let class = classes(alloc, &["msg", shade.drawn()])?;
    svg.path(class.as_str(), &path, None)
}

/// What is told of a message.
fn told_of(alloc: Global, scene: &Scene, carried: &Carried) -> Result<String, AllocError> {
    let kind = match carried.item.sign {
        Sign::Positive => "message",
        Sign::Anti => "anti-message",
    };
    let message = carried.item.message;
    let name = scene.name(message.to);
    let port = message.port;
    let value = message.value;
    let stamp = message.stamp;
    let made = number_of(carried.sending.action);
    let end = match carried.delivered {
        Some(action) => scene.told(action),
        None => "not delivered",
    };
    format!(in alloc; "{kind} to {name}, {port}={value} at {stamp}, made by action {made}; {end}")
}
