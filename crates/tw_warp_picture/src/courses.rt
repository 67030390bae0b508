//! Where the components stand: up by steps, down by rollbacks.

use crate::looks::{Fall, Shade, add_figure, class_if, classes};
use crate::plan::Plan;
use crate::scene::Scene;
use crate::seen::{Acted, Cause, Fallen, Move, Stepped};
use std::alloc::{AllocError, Global};
use tw_svg::{Path, Points, Spot, Svg};

/// The course of a component, while it is drawn.
#[derive(Drop)]
struct Course {
    component: usize,
    // Where the component stands.
    spot: Spot,
    // What stays, and what is undone later.
    stays: Path,
    gone: Path,
    // The steps and falls.
    marks: Svg,
}

/// Draws the courses of all components that did something, and a cross for each refused action.
pub(crate) fn draw_courses(
    svg: &mut Svg,
    alloc: Global,
    scene: &Scene,
    plan: &Plan,
) -> Result<(), AllocError> {
    for component in scene.shown.as_slice() {
        draw_course(svg, alloc, scene, plan, *component)?;
    }
    for (action, acted) in scene.seen.actions.iter().enumerate() {
        if acted.is_refused() {
            draw_refused(svg, alloc, scene, plan, action, acted)?;
        }
    }
    Ok(())
}

fn draw_course(
    svg: &mut Svg,
    alloc: Global,
    scene: &Scene,
    plan: &Plan,
    component: usize,
) -> Result<(), AllocError> {
    let mut course = Course {
        component,
        spot: Spot::new(plan.left, plan.y_of(component, None)),
        stays: Path::new(alloc),
        gone: Path::new(alloc),
        marks: Svg::new(alloc),
    };
    for change in scene.seen.moves.as_slice() {
        course.follow(alloc, scene, plan, *change)?;
    }
    course.draw(svg, alloc, plan)
}

impl Course {
    /// Goes on by a step or a fall, where it is the component's.
    fn follow(
        &mut self,
        alloc: Global,
        scene: &Scene,
        plan: &Plan,
        change: Move,
    ) -> Result<(), AllocError> {
        match change {
            Move::Step(place) => match scene.seen.steps.get(place) {
                Some(step) if step.component == self.component => {
                    self.climb(alloc, scene, plan, step)
                }
                _ => Ok(()),
            },
            Move::Fall(place) => match scene.seen.falls.get(place) {
                Some(fall) if fall.component == self.component => {
                    self.fall(alloc, scene, plan, fall)
                }
                _ => Ok(()),
            },
        }
    }

    /// Level until a little before the step, then up to its mark.
    fn climb(
        &mut self,
        alloc: Global,
        scene: &Scene,
        plan: &Plan,
        step: &Stepped,
    ) -> Result<(), AllocError> {
        let from = self.spot;
        let to = plan.spot(step.action, step.component, Some(step.stamp));
        let line = if step.undone {
            &mut self.gone
        } else {
            &mut self.stays
        };
        line.start(from)?;
        line.across(from.x.most(to.x - plan.pitch.least(Points::whole(14))))?;
        line.line(to)?;
        self.spot = to;
        self.mark(alloc, scene, plan, step)
    }

    /// The mark of a step: hollow for an output, full for a transition.
    fn mark(
        &mut self,
        alloc: Global,
        scene: &Scene,
        plan: &Plan,
        step: &Stepped,
    ) -> Result<(), AllocError> {
        let shade = Shade::Of(step.component);
        let mut figure = Path::new(alloc);
        add_figure(&mut figure, step.component, self.spot, mark_size(plan))?;
        let gone = class_if(step.undone, "gone");
        let class = if step.is_output() {
            classes(alloc, &["hollow", shade.drawn(), gone])?
        } else {
            classes(alloc, &[shade.filled(), gone])?
        };
        self.marks
            .path(class.as_str(), &figure, Some(scene.told(step.action)))
    }

    /// Level, and then down to where the component stands now.
    fn fall(
        &mut self,
        alloc: Global,
        scene: &Scene,
        plan: &Plan,
        fallen: &Fallen,
    ) -> Result<(), AllocError> {
        let to = plan
            .spot(fallen.action, fallen.component, fallen.to)
            .moved(plan.aside(fallen.rank), Points::ZERO);
        self.gone.start(self.spot)?;
        self.gone.across(to.x)?;
        let fall = Fall {
            cause: fallen.cause,
            x: to.x,
            from: self.spot.y,
            undone: plan.y_of(fallen.component, Some(fallen.least)),
            to: to.y,
        };
        let told = Some(scene.told(fallen.action));
        fall.draw(&mut self.marks, Shade::Of(fallen.component), told)?;
        if plan.is_short() && Points::whole(90).is_below((to.y - self.spot.y).size()) {
            self.say(alloc, scene, to, fallen)?;
        }
        self.spot = to;
        Ok(())
    }

    /// A long fall is told beside it.
    fn say(
        &mut self,
        alloc: Global,
        scene: &Scene,
        to: Spot,
        fallen: &Fallen,
    ) -> Result<(), AllocError> {
        let cause = match fallen.cause {
            Cause::Straggler => "straggler",
            Cause::AntiMessage => "anti-message",
            Cause::Back if scene.is_rewind(fallen.action) => "rewind",
            Cause::Back => "Back",
        };
        let count = fallen.undone;
        let words = format!(in alloc; "{cause}, {count} undone")?;
        let middle = Spot::new(
            to.x + Points::whole(11),
            self.spot.y + (to.y - self.spot.y).share(1, 2),
        );
        self.marks
            .turned(middle, -90, "s z q halo", words.as_str(), None)
    }

    /// Draws the course under its marks.
    fn draw(&mut self, svg: &mut Svg, alloc: Global, plan: &Plan) -> Result<(), AllocError> {
        let shade = Shade::Of(self.component);
        if !self.gone.is_empty() {
            let class = classes(alloc, &["course", shade.drawn(), "gone"])?;
            svg.path(class.as_str(), &self.gone, None)?;
        }
        self.stays.start(self.spot)?;
        self.stays.across(plan.far)?;
        let class = classes(alloc, &["course", shade.drawn()])?;
        svg.path(class.as_str(), &self.stays, None)?;
        svg.append(&self.marks)
    }
}

/// How large marks are.
fn mark_size(plan: &Plan) -> Points {
    if plan.pitch.is_below(Points::whole(12)) {
        Points::of_tenths(32)
    } else {
        Points::of_tenths(46)
    }
}

/// A refused action: a cross where its component stands.
fn draw_refused(
    svg: &mut Svg,
    alloc: Global,
    scene: &Scene,
    plan: &Plan,
    action: usize,
    acted: &Acted,
) -> Result<(), AllocError> {
    let (spot, shade) = match acted.component() {
        Some(component) => (
            plan.spot(action, component, acted.place),
            Shade::Of(component),
        ),
        None => (Spot::new(plan.x(action), plan.base), Shade::Plain),
    };
    let size = if plan.pitch.is_below(Points::whole(12)) {
        3
    } else {
        4
    };
    let mut path = Path::new(alloc);
    path.cross(spot, Points::whole(size))?;
    let class = classes(alloc, &["no", shade.drawn()])?;
    svg.path(class.as_str(), &path, Some(scene.told(action)))
}
