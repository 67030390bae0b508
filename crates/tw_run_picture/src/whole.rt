//! The picture as a whole.

ghost use Rattle.std.specs.Prelude.{◌≡◌, ◌⊎◌, None, IfOk};
ghost use Rattle.tw_network.specs.Contents.{network_of};
ghost use Rattle.tw_theory.specs.Simulator.{sequential};

use crate::following::follow;
use crate::heading::{Facts, push_heading};
use crate::kept::{Kept, time_of};
use crate::lanes::Lanes;
use crate::layout::{Layout, gutter, page_of};
use crate::overview_layout::{OverviewLayout, plot_of};
use crate::overview_picture::overview_picture;
use crate::stave::ShownFault;
use crate::staves::push_staves;
use crate::styles::sheet_of;
use crate::subject::Subject;
use crate::watched::Watched;
use std::alloc::{AllocError, Global};
use tw_atomic::Atomic;
use tw_network::Network;
use tw_rounds::Fault;
use tw_svg::{Points, Svg};
use tw_texts::{Names, push_fault};

/// Makes the picture of the run of a network in these lanes, and answers it with the fault that ended the run. Where the end tick is
/// one that a run may have, it is refused for want of memory alone (4).
pub fn make_picture<M: Atomic, N: Names>(
    alloc: Global,
    network: &Network<M>,
    names: &N,
    lanes: Lanes,
    subject: &Subject<'_>,
) -> Result<(Svg, Option<Fault>), AllocError>
    ensures fault { let run = sequential (network_of M.meaning network.now) subject.now.until in
        IfOk result (λ p. (p.1 ≡ None) ⊎ (p.1 ≡ run.fault)) }
{
    let page = page_of(subject.view.width);
    let gutter = gutter(lanes.items.as_slice());
    let wide = usize::try_from(plot_of(page, gutter).rounded_up()).unwrap_or(0);
    let view = subject.view;
    let mut watched = Watched::new(alloc, lanes, view.from, wide, view.detail)?;
    let fault = follow(alloc, network, subject.until, &mut watched)?;
    let facts = Facts {
        subject,
        components: network.len(),
        fault: None,
    };
    let picture = told_picture(alloc, names, watched, gutter, facts, &fault)?;
    Ok((picture, fault))
}

/// The picture of what was kept of a run that ended so, with the line of the fault that ended it, if one did.
fn told_picture<N: Names>(
    alloc: Global,
    names: &N,
    watched: Watched,
    gutter: Points,
    facts: Facts<'_>,
    fault: &Option<Fault>,
) -> Result<Svg, AllocError> {
    let Some(met) = fault else {
        return watched_picture(alloc, watched, gutter, facts, fault);
    };
    let line = fault_line(alloc, names, met)?;
    let facts = Facts {
        fault: Some(line.as_str()),
        ..facts
    };
    watched_picture(alloc, watched, gutter, facts, fault)
}

/// The picture of what was kept of a run that ended so, beside names and scales of this width.
fn watched_picture(
    alloc: Global,
    watched: Watched,
    gutter: Points,
    facts: Facts<'_>,
    fault: &Option<Fault>,
) -> Result<Svg, AllocError> {
    match (watched.kept, watched.overview) {
        (Some(mut kept), _) => picture_of(alloc, &mut kept, facts, fault),
        (None, Some(mut overview)) => {
            let end = match fault {
                Some(fault) => time_of(fault.stamp).tick,
                None => facts.subject.until,
            };
            overview.end(end)?;
            let page = page_of(facts.subject.view.width);
            let lanes = overview.lanes.len();
            let layout = OverviewLayout::new(alloc, lanes, gutter, page, overview.from, end)?;
            overview_picture(alloc, &overview, &layout, &facts, fault)
        }
        (None, None) => Ok(Svg::new(alloc)),
    }
}

/// The line of a fault.
fn fault_line<N: Names>(alloc: Global, names: &N, fault: &Fault) -> Result<String, AllocError> {
    let mut line = String::new(alloc);
    push_fault(
        &mut line,
        names.name(fault.component),
        fault.stamp,
        fault.limit,
    )?;
    String::from_str(alloc, line.as_str().trim_end())
}

/// The picture of rounds that are kept of a run that ended so.
fn picture_of(
    alloc: Global,
    kept: &mut Kept,
    facts: Facts<'_>,
    fault: &Option<Fault>,
) -> Result<Svg, AllocError> {
    let (Some(fault), Some(line)) = (fault, facts.fault) else {
        let last = kept.rounds.last().map_or(0, |round| round.time.tick);
        let end = if kept.goes_on {
            last
        } else {
            facts.subject.until
        };
        return picture(alloc, kept, &facts, end, None);
    };
    let time = time_of(fault.stamp);
    let Some(lane) = kept.lanes.of(fault.component) else {
        return picture(alloc, kept, &facts, time.tick, None);
    };
    let shown = ShownFault { lane, time, line };
    picture(alloc, kept, &facts, time.tick, Some(shown))
}

/// The picture of what is kept of a run up to a tick, with a fault on a lane or without one.
fn picture(
    alloc: Global,
    kept: &mut Kept,
    facts: &Facts<'_>,
    end: u64,
    fault: Option<ShownFault<'_>>,
) -> Result<Svg, AllocError> {
    let page = page_of(facts.subject.view.width);
    let layout = Layout::new(alloc, kept, page, end, fault.map(|fault| fault.time))?;
    picture_in(alloc, kept, facts, &layout, fault)
}

/// The picture in a layout.
fn picture_in(
    alloc: Global,
    kept: &Kept,
    facts: &Facts<'_>,
    layout: &Layout,
    fault: Option<ShownFault<'_>>,
) -> Result<Svg, AllocError> {
    let mut heading = Svg::new(alloc);
    let top = push_heading(&mut heading, alloc, kept, layout, facts)?;
    let sheet = sheet_of(alloc, kept, layout)?;
    let width = layout.width.rounded_up();
    let height = (top + layout.staves_height()).rounded_up();
    let mut svg = Svg::new(alloc);
    svg.begin(width, height, facts.subject.title, sheet.as_str())?;
    svg.append(&heading)?;
    svg.open_moved(top)?;
    push_staves(&mut svg, alloc, kept, layout, fault)?;
    svg.close()?;
    svg.end()?;
    Ok(svg)
}
