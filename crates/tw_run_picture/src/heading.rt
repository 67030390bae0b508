//! What stands above the staves: title, facts, faults, what is left out, and the legend.

use crate::kept::Kept;
use crate::layout::Layout;
use crate::marks::{class_of, push_arrow, push_shape, push_stub};
use crate::subject::Subject;
use std::alloc::{AllocError, Global};
use tw_msgs::RecordKind;
use tw_svg::{Front, Legend, Path, Points, Spot, Svg, cut, many, push_number};

/// What a reader has to know.
const READING: [&str; 2] = [
    "Time runs to the right. About the line of a tick stand its outputs, on the left,",
    "and its transitions, on the right.",
];

/// What a heading says of a picture.
#[derive(Clone, Copy)]
pub(crate) struct Facts<'a> {
    /// What the picture is of.
    pub subject: &'a Subject<'a>,
    /// How many components the network has.
    pub components: usize,
    /// The line of the fault that ended the run, if one did.
    pub fault: Option<&'a str>,
}

/// A count as a number.
fn number(count: usize) -> u64 {
    u64::try_from(count).unwrap_or(u64::MAX)
}

/// The line of facts: so many lanes and records up to a tick, and the figures that were asked for.
pub(crate) fn push_facts(
    alloc: Global,
    lanes: usize,
    records: u64,
    last: u64,
    facts: &Facts<'_>,
) -> Result<String, AllocError> {
    let view = facts.subject.view;
    let mut line = String::new(alloc);
    if view.only.is_some() {
        push_number(&mut line, number(lanes))?;
        line.push_str(" of ")?;
    }
    line.push_str(many(alloc, number(facts.components), "component")?.as_str())?;
    line.push_str(" \u{b7} ")?;
    line.push_str(many(alloc, records, "record")?.as_str())?;
    line.push_str(" \u{b7} ticks ")?;
    push_number(&mut line, view.from)?;
    line.push_str(" to ")?;
    push_number(&mut line, last.max(view.from))?;
    let mut before = if view.figures.len() == 1 {
        " \u{b7} figure "
    } else {
        " \u{b7} figures "
    };
    for figure in view.figures.as_slice() {
        line.push_str(before)?;
        line.push_str(cut(alloc, figure, 60)?.as_str())?;
        before = ", ";
    }
    Ok(line)
}

/// The line of facts of what is kept.
fn line_of_facts(
    alloc: Global,
    kept: &Kept,
    layout: &Layout,
    facts: &Facts<'_>,
) -> Result<String, AllocError> {
    let last = if kept.goes_on {
        layout.end
    } else {
        facts.subject.until
    };
    push_facts(alloc, kept.lanes.len(), number(kept.marks), last, facts)
}

/// What is left out, a line each.
fn missing(alloc: Global, kept: &Kept) -> Result<Vec<String>, AllocError> {
    let mut lines = Vec::new(alloc);
    if kept.goes_on {
        let count = many(alloc, number(kept.marks), "record")?;
        let count = count.as_str();
        lines.push(format!(in alloc; "The picture ends after {count}; the run goes on.")?)?;
    }
    if kept.lost > 0 {
        let count = many(alloc, kept.lost, "arrow")?;
        let count = count.as_str();
        lines.push(format!(in alloc; "{count} more are not drawn.")?)?;
    }
    Ok(lines)
}

/// Draws title, facts, faults and what is left out, and answers how far down they end.
fn push_front(
    svg: &mut Svg,
    alloc: Global,
    kept: &Kept,
    layout: &Layout,
    facts: &Facts<'_>,
) -> Result<Points, AllocError> {
    let line = line_of_facts(alloc, kept, layout, facts)?;
    let missing = missing(alloc, kept)?;
    let mut faults = Vec::new(alloc);
    if let Some(line) = facts.fault {
        faults.push(String::from_str(alloc, line)?)?;
    }
    let front = Front {
        title: facts.subject.title,
        facts: line.as_str(),
        reading: &READING,
        faults: faults.as_slice(),
        missing: missing.as_slice(),
    };
    front.push_to(svg)
}

/// Draws what stands above the staves, and answers how far down they begin.
pub(crate) fn push_heading(
    svg: &mut Svg,
    alloc: Global,
    kept: &Kept,
    layout: &Layout,
    facts: &Facts<'_>,
) -> Result<Points, AllocError> {
    let top = push_front(svg, alloc, kept, layout, facts)?;
    let mut legend = Legend::new(top + Points::whole(6), layout.width);
    push_kinds(svg, alloc, kept, &mut legend)?;
    push_ways(svg, alloc, kept, facts, &mut legend)?;
    push_course(svg, alloc, kept, &mut legend)?;
    push_axis(svg, alloc, layout, &mut legend)?;
    Ok(legend.bottom() + Points::whole(6))
}

/// The samples of marks.
fn push_kinds(
    svg: &mut Svg,
    alloc: Global,
    kept: &Kept,
    legend: &mut Legend,
) -> Result<(), AllocError> {
    let kinds = [
        (RecordKind::Out, "output"),
        (RecordKind::Int, "internal: its own time has come"),
        (RecordKind::Ext, "external: it takes items"),
        (RecordKind::Con, "confluent: both at once"),
    ];
    for (kind, words) in kinds.as_slice() {
        if has_kind(kept, *kind) {
            let spot = legend.entry(svg, Points::whole(8), words)?;
            let mut path = Path::new(alloc);
            let middle = spot.moved(Points::whole(4), Points::ZERO);
            push_shape(&mut path, *kind, middle, Points::of_tenths(38))?;
            svg.path(class_of(*kind), &path, None)?;
        }
    }
    Ok(())
}

/// Whether a record of a kind is shown.
fn has_kind(kept: &Kept, kind: RecordKind) -> bool {
    for round in kept.rounds.as_slice() {
        for mark in round.marks.as_slice() {
            if mark.kind == kind {
                return true;
            }
        }
    }
    false
}

/// Whether a record took items from outside.
fn has_outside(kept: &Kept) -> bool {
    for round in kept.rounds.as_slice() {
        for mark in round.marks.as_slice() {
            if mark.outside {
                return true;
            }
        }
    }
    false
}

/// The samples of arrows.
fn push_ways(
    svg: &mut Svg,
    alloc: Global,
    kept: &Kept,
    facts: &Facts<'_>,
    legend: &mut Legend,
) -> Result<(), AllocError> {
    if kept.arrows > 0 {
        let spot = legend.entry(svg, Points::whole(14), "from an output to who takes it")?;
        let mut path = Path::new(alloc);
        push_arrow(
            &mut path,
            spot.moved(Points::whole(3), Points::whole(-6)),
            spot.moved(Points::whole(9), Points::whole(9)),
            Points::of_tenths(36),
        )?;
        svg.path("a k", &path, None)?;
    }
    if has_outside(kept) {
        let words = if facts.subject.view.only.is_some() {
            "from outside or from one not shown"
        } else {
            "from outside"
        };
        let spot = legend.entry(svg, Points::whole(13), words)?;
        let mut path = Path::new(alloc);
        let end = spot.moved(Points::whole(13), Points::whole(6));
        push_stub(&mut path, end, Points::of_tenths(32))?;
        svg.path("a x k", &path, None)?;
    }
    Ok(())
}

/// The outline of the sample of a course.
fn push_steps(path: &mut Path, spot: Spot) -> Result<(), AllocError> {
    path.start(spot.moved(Points::ZERO, Points::whole(4)))?;
    path.by_right(Points::whole(8))?;
    path.by_down(Points::whole(-9))?;
    path.by_right(Points::whole(9))?;
    path.by_down(Points::whole(5))?;
    path.by_right(Points::whole(9))
}

/// The sample of a course.
fn push_course(
    svg: &mut Svg,
    alloc: Global,
    kept: &Kept,
    legend: &mut Legend,
) -> Result<(), AllocError> {
    if !kept.lanes.items.iter().any(|lane| lane.is_full()) {
        return Ok(());
    }
    let spot = legend.entry(svg, Points::whole(26), "the figure named at the left")?;
    let mut line = Path::new(alloc);
    push_steps(&mut line, spot)?;
    let mut area = Path::new(alloc);
    push_steps(&mut area, spot)?;
    area.by_down(Points::whole(4))?;
    area.close()?;
    svg.path("area", &area, None)?;
    svg.path("line", &line, None)
}

/// The samples of opened ticks and of cuts.
fn push_axis(
    svg: &mut Svg,
    alloc: Global,
    layout: &Layout,
    legend: &mut Legend,
) -> Result<(), AllocError> {
    if layout.axis.has_opened() {
        let spot = legend.entry(svg, Points::whole(28), "microsteps of one tick")?;
        let corner = spot.moved(Points::ZERO, Points::whole(-7));
        svg.rect(corner, Points::whole(28), Points::whole(14), "band")?;
        let middle = spot.moved(Points::whole(14), Points::whole(3));
        svg.text(middle, "s z q", "7.0 \u{a0}.1", None)?;
    }
    if layout.axis.has_cut() {
        let spot = legend.entry(svg, Points::whole(6), "the axis is cut: nothing happens")?;
        let mut path = Path::new(alloc);
        path.start(spot.moved(Points::whole(3), Points::whole(-7)))?;
        path.by_down(Points::whole(14))?;
        svg.path("cut", &path, None)?;
    }
    Ok(())
}
