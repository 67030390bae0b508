//! Outlines of shapes.

use crate::points::{Points, Spot};
use std::alloc::{AllocError, Global};

/// The outline of a shape, or of several: lines and bows from place to place.
#[derive(Drop)]
pub struct Path {
    data: String,
}

impl Path {
    /// No outline.
    pub fn new(alloc: Global) -> Path {
        Path {
            data: String::new(alloc),
        }
    }

    /// Whether there is no outline.
    pub fn is_empty(&self) -> bool {
        self.data.is_empty()
    }

    /// The outline, as an attribute has it.
    pub fn as_str(&self) -> &str {
        self.data.as_str()
    }

    /// Gives the outline up.
    pub fn clear(&mut self) {
        self.data.clear();
    }

    /// Adds another outline behind this one.
    pub fn append(&mut self, other: &Path) -> Result<(), AllocError> {
        self.data.push_str(other.as_str())
    }

    /// Goes to a place without a line.
    pub fn start(&mut self, spot: Spot) -> Result<(), AllocError> {
        self.data.push_str("M")?;
        spot.push_to(&mut self.data)
    }

    /// A line to a place.
    pub fn line(&mut self, spot: Spot) -> Result<(), AllocError> {
        self.data.push_str("L")?;
        spot.push_to(&mut self.data)
    }

    /// A level line to so far right.
    pub fn across(&mut self, x: Points) -> Result<(), AllocError> {
        self.data.push_str("H")?;
        x.push_to(&mut self.data)
    }

    /// An upright line to so far down.
    pub fn down(&mut self, y: Points) -> Result<(), AllocError> {
        self.data.push_str("V")?;
        y.push_to(&mut self.data)
    }

    /// A line as long as this from where the pen is.
    pub fn by(&mut self, right: Points, down: Points) -> Result<(), AllocError> {
        self.data.push_str("l")?;
        Spot::new(right, down).push_to(&mut self.data)
    }

    /// A level line as long as this.
    pub fn by_right(&mut self, right: Points) -> Result<(), AllocError> {
        self.data.push_str("h")?;
        right.push_to(&mut self.data)
    }

    /// An upright line as long as this.
    pub fn by_down(&mut self, down: Points) -> Result<(), AllocError> {
        self.data.push_str("v")?;
        down.push_to(&mut self.data)
    }

    /// A bow to a place, drawn towards two others.
    pub fn bow(&mut self, first: Spot, second: Spot, to: Spot) -> Result<(), AllocError> {
        self.data.push_str("C")?;
        first.push_to(&mut self.data)?;
        self.data.push_str(" ")?;
        second.push_to(&mut self.data)?;
        self.data.push_str(" ")?;
        to.push_to(&mut self.data)
    }

    /// Half a circle of this radius, to so far right of the pen.
    pub(crate) fn half_circle(&mut self, radius: Points, right: Points) -> Result<(), AllocError> {
        self.data.push_str("a")?;
        Spot::new(radius, radius).push_to(&mut self.data)?;
        self.data.push_str(" 0 1 0 ")?;
        Spot::new(right, Points::ZERO).push_to(&mut self.data)
    }

    /// Goes back to where the outline began.
    pub fn close(&mut self) -> Result<(), AllocError> {
        self.data.push_str("z")
    }
}
