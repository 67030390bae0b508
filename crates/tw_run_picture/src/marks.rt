//! The rounds of a stave: arrows under marks, one group a round.

use crate::kept::{Kept, Mark, Round};
use crate::stave::{ShownFault, Stave};
use crate::takers::Arrow;
use std::alloc::AllocError;
use tw_msgs::RecordKind;
use tw_svg::{Path, Points, Spot, Svg};

/// The class of a mark.
pub(crate) fn class_of(kind: RecordKind) -> &'static str {
    match kind {
        RecordKind::Out => "o",
        RecordKind::Int => "i",
        RecordKind::Ext => "e",
        RecordKind::Con => "c",
    }
}

/// The shape of a mark: a triangle that points on, a disc, a square, a diamond.
pub(crate) fn push_shape(
    path: &mut Path,
    kind: RecordKind,
    spot: Spot,
    size: Points,
) -> Result<(), AllocError> {
    match kind {
        RecordKind::Out => path.triangle(spot, size),
        RecordKind::Int => path.disc(spot, size),
        RecordKind::Ext => path.square(spot, size),
        RecordKind::Con => path.diamond(spot, size),
    }
}

/// An arrow from an output to a transition of its round: a bow to the right of both, wider where it is longer, so that arrows of one
/// round lie beside each other.
pub(crate) fn push_arrow(
    path: &mut Path,
    from: Spot,
    to: Spot,
    size: Points,
) -> Result<(), AllocError> {
    let far = (to.y - from.y).size();
    let bow = Points::whole(3) + Points::whole(14).least(far.share(35, 1000));
    let short = size.share(15, 10);
    let down = if from.y.is_below(to.y) {
        to.y - short
    } else {
        to.y + short
    };
    let end = Spot::new(to.x + Points::of_tenths(5), down);
    let high = end.y - from.y;
    path.start(from)?;
    path.bow(
        from.moved(bow.share(13, 10), high.share(3, 10)),
        Spot::new(to.x + bow, from.y + high.share(6, 10)),
        end,
    )?;
    path.head(
        end,
        Points::of_tenths(5) - bow,
        high.share(4, 10),
        size.share(9, 10),
    )
}

/// What comes from outside: a short line from the upper left.
pub(crate) fn push_stub(path: &mut Path, spot: Spot, size: Points) -> Result<(), AllocError> {
    let from = spot.moved(-size.times(4), -size.share(34, 10) - Points::whole(3));
    let to = spot.moved(-size.share(6, 10), -size.share(11, 10));
    path.start(from)?;
    path.line(to)?;
    path.head(to, to.x - from.x, to.y - from.y, size.share(9, 10))
}

/// Draws the rounds of a stave.
pub(crate) fn push_rounds(svg: &mut Svg, kept: &Kept, stave: &Stave<'_>) -> Result<(), AllocError> {
    for number in stave.first..stave.next {
        if let Some(round) = kept.rounds.get(number) {
            if let Some(at) = stave.layout.rounds.get(number) {
                push_round(svg, stave, round, stave.x(*at))?;
            }
        }
    }
    Ok(())
}

fn push_round(
    svg: &mut Svg,
    stave: &Stave<'_>,
    round: &Round,
    x: Points,
) -> Result<(), AllocError> {
    svg.open("g")?;
    for arrow in round.arrows.as_slice() {
        push_one_arrow(svg, stave, arrow, x)?;
    }
    for mark in round.marks.as_slice() {
        if mark.outside {
            let mut path = Path::new(stave.alloc);
            push_stub(&mut path, spot_of(stave, mark, x), stave.layout.size)?;
            svg.path("a x", &path, None)?;
        }
    }
    for mark in round.marks.as_slice() {
        let mut path = Path::new(stave.alloc);
        let spot = spot_of(stave, mark, x);
        push_shape(&mut path, mark.kind, spot, stave.layout.size)?;
        svg.path(class_of(mark.kind), &path, Some(mark.title.as_str()))?;
    }
    svg.close()
}

/// Where a mark stands: an output at the left of its time, a transition at the right.
fn spot_of(stave: &Stave<'_>, mark: &Mark, x: Points) -> Spot {
    let half = stave.layout.apart.share(1, 2);
    let place = if mark.kind == RecordKind::Out {
        x - half
    } else {
        x + half
    };
    Spot::new(place, stave.base + stave.layout.line_of(mark.lane))
}

fn push_one_arrow(
    svg: &mut Svg,
    stave: &Stave<'_>,
    arrow: &Arrow,
    x: Points,
) -> Result<(), AllocError> {
    let half = stave.layout.apart.share(1, 2);
    let from = Spot::new(
        x - half + stave.layout.size.share(6, 10),
        stave.base + stave.layout.line_of(arrow.from),
    );
    let to = Spot::new(x + half, stave.base + stave.layout.line_of(arrow.to));
    let mut path = Path::new(stave.alloc);
    push_arrow(&mut path, from, to, stave.layout.size)?;
    let far = Points::whole(240).is_below((to.y - from.y).size());
    svg.path(if far { "a f" } else { "a" }, &path, None)
}

/// A fault on a lane of the stave: a cross.
pub(crate) fn push_fault(
    svg: &mut Svg,
    stave: &Stave<'_>,
    fault: &ShownFault<'_>,
) -> Result<(), AllocError> {
    let at = stave.layout.axis.of(fault.time);
    if !stave.has(at) {
        return Ok(());
    }
    let x = stave.x(at) + stave.layout.apart.share(1, 2);
    let spot = Spot::new(x, stave.base + stave.layout.line_of(fault.lane));
    let mut path = Path::new(stave.alloc);
    path.cross(spot, Points::whole(5))?;
    svg.path("bad", &path, Some(fault.line))
}
