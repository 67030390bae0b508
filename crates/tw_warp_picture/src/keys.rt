//! Title, facts and legend.

use crate::looks::{Fall, Shade, add_figure, draw_coin};
use crate::messages::add_head;
use crate::plan::{PAGE, Plan};
use crate::scene::Scene;
use crate::seen::{Cause, MOST_ACTIONS};
use std::alloc::{AllocError, Global};
use tw_msgs::Sign;
use tw_svg::{Axis, Front, Legend, Path, Points, Spot, Svg, many, tick_text};

/// How to read the picture.
const READING: [&str; 2] = [
    "Actions go from left to right, virtual time upwards. A component climbs by its steps and falls in a rollback: thick over",
    "the steps that are undone, thin on to the last one that stays.",
];

/// How many components the legend names at most.
const NAMED: usize = 12;

/// Draws title, facts and legend. How far down they reach.
pub(crate) fn draw_keys(
    svg: &mut Svg,
    alloc: Global,
    scene: &Scene,
    plan: &Plan,
    title: &str,
    width: i64,
) -> Result<Points, AllocError> {
    let facts = facts(alloc, scene)?;
    let missing = missing(alloc, scene)?;
    let front = Front {
        title,
        facts: facts.as_str(),
        reading: &READING,
        faults: &[],
        missing: missing.as_slice(),
    };
    let down = front.push_to(svg)?;
    let mut keys = Keys {
        alloc,
        legend: Legend::new(down + Points::whole(8), Points::whole(width.min(PAGE))),
    };
    keys.draw(svg, scene, &plan.axis)?;
    Ok(keys.legend.bottom())
}

/// How much there is of what.
fn facts(alloc: Global, scene: &Scene) -> Result<String, AllocError> {
    let seen = &scene.seen;
    let mut text = many(alloc, scene.components() as u64, "component")?;
    push_fact(
        &mut text,
        many(alloc, seen.actions.len() as u64, "action")?.as_str(),
    )?;
    push_fact(
        &mut text,
        many(alloc, seen.steps.len() as u64, "step")?.as_str(),
    )?;
    push_fact(
        &mut text,
        many(alloc, seen.falls.len() as u64, "rollback")?.as_str(),
    )?;
    let until = tick_text(alloc, scene.until)?;
    push_fact(&mut text, "until tick ")?;
    text.push_str(until.as_str())?;
    if scene.is_lazy {
        push_fact(&mut text, "lazy cancelling")?;
    }
    let idle = scene.components().saturating_sub(scene.shown.len());
    if idle > 0 {
        push_fact(&mut text, many(alloc, idle as u64, "component")?.as_str())?;
        text.push_str(" did nothing")?;
    }
    Ok(text)
}

fn push_fact(text: &mut String, fact: &str) -> Result<(), AllocError> {
    text.push_str(" \u{b7} ")?;
    text.push_str(fact)
}

/// What is left out.
fn missing(alloc: Global, scene: &Scene) -> Result<Vec<String>, AllocError> {
    let mut lines = Vec::new(alloc);
    if scene.seen.goes_on {
        let most = tick_text(alloc, MOST_ACTIONS as u64)?;
        lines.push(format!(in alloc;
            "The picture ends after {most} actions; the others are not played."
        )?)?;
    }
    Ok(lines)
}

/// The legend, while it is drawn.
#[derive(Drop)]
struct Keys {
    alloc: Global,
    legend: Legend,
}

impl Keys {
    /// What is in the picture, and no more.
    fn draw(&mut self, svg: &mut Svg, scene: &Scene, axis: &Axis) -> Result<(), AllocError> {
        let count = scene.shown.len();
        if count > 1 && count <= NAMED {
            self.components(svg, scene)?;
        }
        self.steps(svg, scene)?;
        self.falls(svg, scene)?;
        self.messages(svg, scene)?;
        self.final_time(svg, scene)?;
        self.time(svg, axis)
    }

    /// The middle of a sample of 8 points.
    fn mark(&mut self, svg: &mut Svg, words: &str) -> Result<Spot, AllocError> {
        let spot = self.legend.entry(svg, Points::whole(8), words)?;
        Ok(spot.moved(Points::whole(4), Points::ZERO))
    }

    fn components(&mut self, svg: &mut Svg, scene: &Scene) -> Result<(), AllocError> {
        for component in scene.shown.as_slice() {
            let name = scene.short_name(self.alloc, *component)?;
            let spot = self.legend.entry(svg, Points::whole(10), name.as_str())?;
            let mut figure = Path::new(self.alloc);
            let middle = spot.moved(Points::whole(5), Points::ZERO);
            add_figure(&mut figure, *component, middle, Points::whole(4))?;
            svg.path(Shade::Of(*component).filled(), &figure, None)?;
        }
        Ok(())
    }

    fn disc(&mut self, svg: &mut Svg, class: &str, words: &str) -> Result<(), AllocError> {
        let middle = self.mark(svg, words)?;
        let mut path = Path::new(self.alloc);
        path.disc(middle, Points::of_tenths(36))?;
        svg.path(class, &path, None)
    }

    fn steps(&mut self, svg: &mut Svg, scene: &Scene) -> Result<(), AllocError> {
        if scene.seen.steps.iter().any(|step| step.is_output()) {
            self.disc(svg, "hollow w7", "output step")?;
        }
        if scene.seen.steps.iter().any(|step| !step.is_output()) {
            self.disc(svg, "k7", "transition")?;
        }
        if scene.seen.steps.iter().any(|step| step.undone) {
            self.disc(svg, "k7 gone", "undone later")?;
        }
        Ok(())
    }

    fn falls(&mut self, svg: &mut Svg, scene: &Scene) -> Result<(), AllocError> {
        for (cause, words) in [
            (Cause::Straggler, "falls for a straggler"),
            (Cause::AntiMessage, "falls for an anti-message"),
            (Cause::Back, "falls by Back"),
        ] {
            if scene.seen.falls.iter().any(|fall| fall.cause == cause) {
                self.fall(svg, cause, words)?;
            }
        }
        Ok(())
    }

    fn fall(&mut self, svg: &mut Svg, cause: Cause, words: &str) -> Result<(), AllocError> {
        let spot = self.legend.entry(svg, Points::whole(10), words)?;
        let fall = Fall {
            cause,
            x: spot.x + Points::whole(5),
            from: spot.y - Points::whole(9),
            undone: spot.y,
            to: spot.y + Points::whole(9),
        };
        fall.draw(svg, Shade::Plain, None)
    }

    fn messages(&mut self, svg: &mut Svg, scene: &Scene) -> Result<(), AllocError> {
        for (sign, class, words) in [
            (Sign::Positive, "msg w7", "message and delivery"),
            (Sign::Anti, "msg w7 neg", "anti-message"),
        ] {
            if scene
                .seen
                .messages
                .iter()
                .any(|carried| carried.item.sign == sign)
            {
                self.message(svg, sign, class, words)?;
            }
        }
        if scene
            .seen
            .messages
            .iter()
            .any(|carried| carried.delivered.is_none())
        {
            let spot = self.legend.entry(svg, Points::whole(24), "not delivered")?;
            let mut path = Path::new(self.alloc);
            path.start(spot)?;
            path.by_right(Points::whole(22))?;
            add_head(&mut path)?;
            svg.path("msg w7", &path, None)?;
        }
        Ok(())
    }

    fn message(
        &mut self,
        svg: &mut Svg,
        sign: Sign,
        class: &str,
        words: &str,
    ) -> Result<(), AllocError> {
        let spot = self.legend.entry(svg, Points::whole(29), words)?;
        let mut path = Path::new(self.alloc);
        path.start(spot)?;
        path.by_right(Points::whole(22))?;
        svg.path(class, &path, None)?;
        draw_coin(
            svg,
            spot.moved(Points::whole(25), Points::ZERO),
            sign,
            Shade::Plain,
        )
    }

    /// Global virtual time, what is committed, and what is refused.
    fn final_time(&mut self, svg: &mut Svg, scene: &Scene) -> Result<(), AllocError> {
        self.stair(svg)?;
        if !scene.seen.commits.is_empty() {
            let spot = self
                .legend
                .entry(svg, Points::whole(6), "committed by a harvest")?;
            let mut bar = Path::new(self.alloc);
            bar.start(spot.moved(Points::whole(3), Points::whole(-7)))?;
            bar.by_down(Points::whole(14))?;
            svg.path("commit w7", &bar, None)?;
        }
        if scene.seen.actions.iter().any(|acted| acted.is_refused()) {
            let middle = self.mark(svg, "refused")?;
            let mut path = Path::new(self.alloc);
            path.cross(middle, Points::of_tenths(35))?;
            svg.path("no w7", &path, None)?;
        }
        Ok(())
    }

    /// What the axis of virtual time has.
    fn time(&mut self, svg: &mut Svg, axis: &Axis) -> Result<(), AllocError> {
        if axis.has_opened() {
            let words = "microsteps of one tick";
            let spot = self.legend.entry(svg, Points::whole(20), words)?;
            let corner = spot.moved(Points::ZERO, Points::whole(-7));
            svg.rect(corner, Points::whole(20), Points::whole(14), "band")?;
            let middle = spot.moved(Points::whole(10), Points::whole(3));
            svg.text(middle, "s z q", ".1", None)?;
        }
        if axis.has_cut() {
            let words = "the axis is cut: nothing happens";
            let spot = self.legend.entry(svg, Points::whole(22), words)?;
            svg.line(spot, spot.moved(Points::whole(22), Points::ZERO), "cut")?;
        }
        Ok(())
    }

    fn stair(&mut self, svg: &mut Svg) -> Result<(), AllocError> {
        let words = "global virtual time; all below is final";
        let spot = self.legend.entry(svg, Points::whole(26), words)?;
        let corner = spot.moved(Points::ZERO, Points::whole(-3));
        svg.rect(corner, Points::whole(26), Points::whole(10), "past")?;
        let mut path = Path::new(self.alloc);
        path.start(corner)?;
        path.by_right(Points::whole(26))?;
        svg.path("gvt", &path, None)
    }
}
