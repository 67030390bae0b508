//! The picture of courses alone.

use crate::heading::{Facts, push_facts};
use crate::overview::Overview;
use crate::overview_lanes::push_lanes;
use crate::overview_layout::OverviewLayout;
use crate::styles::plain_sheet;
use std::alloc::{AllocError, Global};
use tw_rounds::Fault;
use tw_svg::{Front, Legend, Path, Points, Spot, Svg, many, tick_text};

/// What a reader has to know.
const READING: [&str; 2] = [
    "Time runs to the right. A lane shows a figure of a component:",
    "its mean as a line, from its least to its greatest value as a band.",
];

/// How wide a column is, in ticks.
fn column_width(overview: &Overview) -> u64 {
    for lane in overview.lanes.as_slice() {
        if let Some(track) = &lane.track {
            return track.width;
        }
    }
    1
}

/// Draws what stands above the lanes, and answers how far down they begin.
fn push_heading(
    svg: &mut Svg,
    alloc: Global,
    overview: &Overview,
    layout: &OverviewLayout,
    facts: &Facts<'_>,
) -> Result<Points, AllocError> {
    let line = push_facts(
        alloc,
        overview.lanes.len(),
        overview.records,
        facts.subject.until,
        facts,
    )?;
    let mut faults = Vec::new(alloc);
    if let Some(line) = facts.fault {
        faults.push(String::from_str(alloc, line)?)?;
    }
    let front = Front {
        title: facts.subject.title,
        facts: line.as_str(),
        reading: &READING,
        faults: faults.as_slice(),
        missing: &[],
    };
    let top = front.push_to(svg)?;
    let mut legend = Legend::new(top + Points::whole(6), layout.width);
    push_samples(svg, alloc, &mut legend, column_width(overview))?;
    Ok(legend.bottom() + Points::whole(6))
}

/// The samples of a line and a band.
fn push_samples(
    svg: &mut Svg,
    alloc: Global,
    legend: &mut Legend,
    wide: u64,
) -> Result<(), AllocError> {
    let of = many(alloc, wide, "tick")?;
    let of = of.as_str();
    let words = format!(in alloc; "the mean of {of}")?;
    let spot = legend.entry(svg, Points::whole(26), words.as_str())?;
    let mut line = Path::new(alloc);
    line.start(spot)?;
    line.by_right(Points::whole(26))?;
    svg.path("line", &line, None)?;
    let words = format!(in alloc; "from the least to the greatest value in {of}")?;
    let spot = legend.entry(svg, Points::whole(26), words.as_str())?;
    let corner = spot.moved(Points::ZERO, Points::whole(-6));
    svg.rect(corner, Points::whole(26), Points::whole(12), "span")
}

/// Draws the ground: upright lines at the ticks that are told, and their words.
fn push_ground(svg: &mut Svg, alloc: Global, layout: &OverviewLayout) -> Result<(), AllocError> {
    let mut path = Path::new(alloc);
    for tick in layout.labels.as_slice() {
        path.start(Spot::new(layout.x(*tick), layout.lead() - Points::whole(3)))?;
        path.by_down(layout.height + Points::whole(3))?;
    }
    if !path.is_empty() {
        svg.path("grid", &path, None)?;
    }
    push_ticks(
        svg,
        alloc,
        layout,
        layout.lead() + layout.height + Points::whole(10),
    )?;
    if layout.is_tall() {
        push_ticks(svg, alloc, layout, Points::whole(12))?;
    }
    Ok(())
}

/// The ticks that are told, at a height.
fn push_ticks(
    svg: &mut Svg,
    alloc: Global,
    layout: &OverviewLayout,
    down: Points,
) -> Result<(), AllocError> {
    let left = layout.gutter - Points::whole(26);
    svg.text(Spot::new(left, down), "s r", "tick", None)?;
    for tick in layout.labels.as_slice() {
        let words = tick_text(alloc, *tick)?;
        svg.text(
            Spot::new(layout.x(*tick), down),
            "s q",
            words.as_str(),
            None,
        )?;
    }
    Ok(())
}

/// Draws the fault that ended the run, where its component is shown: a cross at the end of its lane.
fn push_fault(
    svg: &mut Svg,
    overview: &Overview,
    layout: &OverviewLayout,
    fault: &Fault,
    line: &str,
) -> Result<(), AllocError> {
    let Some(lane) = overview.of(fault.component) else {
        return Ok(());
    };
    let down = layout.lead() + layout.top(lane) + layout.band.share(1, 2);
    let mut path = Path::new(svg.allocator());
    path.cross(Spot::new(layout.x(layout.end), down), Points::whole(5))?;
    svg.path("bad", &path, Some(line))
}

/// The picture of the courses of a run that ended so.
pub(crate) fn overview_picture(
    alloc: Global,
    overview: &Overview,
    layout: &OverviewLayout,
    facts: &Facts<'_>,
    fault: &Option<Fault>,
) -> Result<Svg, AllocError> {
    let mut heading = Svg::new(alloc);
    let top = push_heading(&mut heading, alloc, overview, layout, facts)?;
    let sheet = plain_sheet(alloc)?;
    let height = top + layout.lead() + layout.height + Points::whole(24);
    let mut svg = Svg::new(alloc);
    svg.begin(
        layout.width.rounded_up(),
        height.rounded_up(),
        facts.subject.title,
        sheet.as_str(),
    )?;
    svg.append(&heading)?;
    svg.open_moved(top)?;
    push_ground(&mut svg, alloc, layout)?;
    push_lanes(&mut svg, layout, overview.lanes.as_slice())?;
    if let (Some(fault), Some(line)) = (fault, facts.fault) {
        push_fault(&mut svg, overview, layout, fault, line)?;
    }
    svg.close()?;
    svg.end()?;
    Ok(svg)
}
