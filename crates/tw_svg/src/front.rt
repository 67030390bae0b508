//! What stands at the top of a picture.

use crate::points::{Points, Spot};
use crate::svg::Svg;
use crate::words::cut;
use std::alloc::AllocError;

/// The lines at the top of a picture.
#[derive(Clone, Copy, Debug)]
pub struct Front<'a> {
    /// What the picture is of.
    pub title: &'a str,
    /// Facts in one line.
    pub facts: &'a str,
    /// How to read the picture: soft lines.
    pub reading: &'a [&'a str],
    /// Faults: red lines.
    pub faults: &'a [String],
    /// What was left out.
    pub missing: &'a [String],
}

impl Front<'_> {
    /// Writes the lines, and answers how far down the next thing may stand.
    pub fn push_to(&self, svg: &mut Svg) -> Result<Points, AllocError> {
        let left = Points::whole(16);
        let title = cut(svg.allocator(), self.title, 60)?;
        svg.text(
            Spot::new(left, Points::whole(26)),
            "t",
            title.as_str(),
            Some(self.title),
        )?;
        svg.text(Spot::new(left, Points::whole(44)), "s", self.facts, None)?;
        let mut down = Points::whole(60);
        for line in self.reading {
            svg.text(Spot::new(left, down), "s", line, None)?;
            down = down + Points::whole(15);
        }
        down = down + Points::whole(3);
        for line in self.faults {
            svg.text(Spot::new(left, down), "bad", line.as_str(), None)?;
            down = down + Points::whole(17);
        }
        for line in self.missing {
            svg.text(Spot::new(left, down), "", line.as_str(), None)?;
            down = down + Points::whole(17);
        }
        Ok(down)
    }
}
