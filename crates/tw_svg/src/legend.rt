//! The legend: samples with words, in rows.

use crate::points::{Points, Spot};
use crate::svg::Svg;
use crate::words::width_of;
use std::alloc::AllocError;

/// How far a row is below the one before.
const ROW: i64 = 20;

/// How far from the edges entries stay.
const EDGE: i64 = 16;

/// The place of the next entry of a legend.
#[derive(Clone, Copy, Debug)]
pub struct Legend {
    place: Spot,
    width: Points,
}

impl Legend {
    /// A legend without entries: its first row stands at `top`, in a picture of this width.
    pub fn new(top: Points, width: Points) -> Legend {
        Legend {
            place: Spot::new(Points::whole(EDGE), top),
            width,
        }
    }

    /// Makes room for a sample of this width and writes its words beside it, at its right. Answers where the sample stands: its
    /// left, and the middle of its height.
    pub fn entry(&mut self, svg: &mut Svg, wide: Points, words: &str) -> Result<Spot, AllocError> {
        let long = width_of(words, 11);
        let end = self.place.x + wide + Points::whole(8) + long;
        let edge = Points::whole(EDGE);
        if edge.is_below(self.place.x) && (self.width - edge).is_below(end) {
            self.place = Spot::new(edge, self.place.y + Points::whole(ROW));
        }
        let spot = self.place;
        svg.text(
            spot.moved(wide + Points::whole(7), Points::whole(4)),
            "",
            words,
            None,
        )?;
        self.place = spot.moved(wide + Points::whole(25) + long, Points::ZERO);
        Ok(spot)
    }

    /// How far down the legend reaches.
    pub fn bottom(&self) -> Points {
        self.place.y + Points::whole(ROW)
    }
}
