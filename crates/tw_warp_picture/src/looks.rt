//! Shapes and colours: of components, of deliveries, of falls.

use crate::seen::Cause;
use std::alloc::{AllocError, Global};
use tw_msgs::Sign;
use tw_svg::{Path, Points, Spot, Svg};

/// Whose colour a shape has.
#[derive(Clone, Copy, PartialEq, Eq)]
pub(crate) enum Shade {
    /// A component's.
    Of(usize),
    /// No component's.
    Plain,
}

impl Shade {
    /// The number of the colour: there are seven, and one for what is of no component.
    fn number(self) -> usize {
        match self {
            Shade::Of(component) => component % 7,
            Shade::Plain => 7,
        }
    }

    /// The class that fills a shape with it.
    pub(crate) fn filled(self) -> &'static str {
        match self.number() {
            0 => "k0",
            1 => "k1",
            2 => "k2",
            3 => "k3",
            4 => "k4",
            5 => "k5",
            6 => "k6",
            _ => "k7",
        }
    }

    /// The class that draws a line with it.
    pub(crate) fn drawn(self) -> &'static str {
        match self.number() {
            0 => "w0",
            1 => "w1",
            2 => "w2",
            3 => "w3",
            4 => "w4",
            5 => "w5",
            6 => "w6",
            _ => "w7",
        }
    }
}

/// Classes, one after another.
pub(crate) fn classes(alloc: Global, names: &[&str]) -> Result<String, AllocError> {
    let mut text = String::new(alloc);
    for name in names {
        if !name.is_empty() {
            if !text.is_empty() {
                text.push_str(" ")?;
            }
            text.push_str(name)?;
        }
    }
    Ok(text)
}

/// A class where something holds.
pub(crate) fn class_if(holds: bool, class: &'static str) -> &'static str {
    if holds { class } else { "" }
}

/// Adds the shape of a component: there are six, told apart without colour.
pub(crate) fn add_figure(
    path: &mut Path,
    component: usize,
    spot: Spot,
    size: Points,
) -> Result<(), AllocError> {
    match component % 6 {
        0 => path.disc(spot, size),
        1 => path.square(spot, size),
        2 => path.corners(spot, size, &[(0, -125), (115, 85), (-115, 85)]),
        3 => path.corners(spot, size, &[(0, -135), (120, 0), (0, 135), (-120, 0)]),
        4 => path.corners(spot, size, &[(0, 125), (115, -85), (-115, -85)]),
        _ => path.corners(spot, size, &PLUS),
    }
}

static PLUS: [(i64, i64); 12] = [
    (-40, -120),
    (40, -120),
    (40, -40),
    (120, -40),
    (120, 40),
    (40, 40),
    (40, 120),
    (-40, 120),
    (-40, 40),
    (-120, 40),
    (-120, -40),
    (-40, -40),
];

/// A delivery: a ring with the sign of the item.
pub(crate) fn draw_coin(
    svg: &mut Svg,
    spot: Spot,
    sign: Sign,
    shade: Shade,
) -> Result<(), AllocError> {
    let alloc = svg.allocator();
    let size = Points::of_tenths(34);
    let arm = size.share(6, 10);
    let mut path = Path::new(alloc);
    path.disc(spot, size)?;
    path.start(spot.moved(-arm, Points::ZERO))?;
    path.by_right(arm.times(2))?;
    if sign == Sign::Positive {
        path.start(spot.moved(Points::ZERO, -arm))?;
        path.by_down(arm.times(2))?;
    }
    let class = classes(alloc, &["hollow", "coin", shade.drawn()])?;
    svg.path(class.as_str(), &path, None)
}

/// A fall: upright, over what is undone and on to where it ends.
#[derive(Clone, Copy)]
pub(crate) struct Fall {
    pub(crate) cause: Cause,
    pub(crate) x: Points,
    /// Where it begins, the end of what it undoes, and where it ends.
    pub(crate) from: Points,
    pub(crate) undone: Points,
    pub(crate) to: Points,
}

impl Fall {
    /// The class of the cause: whole, dashed or dotted.
    fn class(&self) -> &'static str {
        match self.cause {
            Cause::Straggler => "straggler",
            Cause::AntiMessage => "anti",
            Cause::Back => "hand",
        }
    }

    /// Where the thick part ends: it is 10 points long at least, and ends above the foot.
    fn middle(&self) -> Points {
        let low = self.to - Points::whole(3);
        low.least(self.undone.most(self.from + Points::whole(10)))
    }

    /// Draws it: thick over what is undone, thin on to the last step that stays, and a foot.
    pub(crate) fn draw(
        &self,
        svg: &mut Svg,
        shade: Shade,
        told: Option<&str>,
    ) -> Result<(), AllocError> {
        let middle = self.middle();
        self.line(
            svg,
            "thin",
            shade,
            (middle, self.to - Points::whole(3)),
            told,
        )?;
        self.line(svg, "", shade, (self.from, middle), told)?;
        let mut foot = Path::new(svg.allocator());
        add_foot(&mut foot, self.cause, Spot::new(self.x, self.to))?;
        svg.path(shade.filled(), &foot, None)
    }

    /// A part of its line.
    fn line(
        &self,
        svg: &mut Svg,
        wide: &'static str,
        shade: Shade,
        ends: (Points, Points),
        told: Option<&str>,
    ) -> Result<(), AllocError> {
        let alloc = svg.allocator();
        let class = classes(alloc, &["fall", self.class(), wide, shade.drawn()])?;
        let mut path = Path::new(alloc);
        path.start(Spot::new(self.x, ends.0))?;
        path.down(ends.1)?;
        svg.path(class.as_str(), &path, told)
    }
}

/// The foot of a fall: a full head, an open one, or a bar.
fn add_foot(path: &mut Path, cause: Cause, spot: Spot) -> Result<(), AllocError> {
    path.start(spot)?;
    match cause {
        Cause::Straggler => add_strokes(path, &[(45, -70), (-90, 0)])?,
        Cause::AntiMessage => {
            add_strokes(
                path,
                &[(45, -70), (-18, -6), (-27, 43), (-27, -43), (-18, 6)],
            )?;
        }
        Cause::Back => add_strokes(path, &[(40, 0), (0, -20), (-80, 0), (0, 20)])?,
    }
    path.close()
}

/// Lines from where the pen is, each so many tenths of a point right and down.
fn add_strokes(path: &mut Path, strokes: &[(i64, i64)]) -> Result<(), AllocError> {
    for (right, down) in strokes {
        path.by(Points::of_tenths(*right), Points::of_tenths(*down))?;
    }
    Ok(())
}
