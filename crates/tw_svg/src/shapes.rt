//! Shapes of marks: discs, shapes with corners, crosses, heads of arrows.

use crate::outline::Path;
use crate::points::{Points, Spot};
use std::alloc::AllocError;

impl Path {
    /// A disc round a place.
    pub fn disc(&mut self, middle: Spot, radius: Points) -> Result<(), AllocError> {
        self.start(middle.moved(-radius, Points::ZERO))?;
        self.half_circle(radius, radius.times(2))?;
        self.half_circle(radius, radius.times(-2))?;
        self.close()
    }

    /// A shape round a place, by its corners: how far right and down they are, in hundredths of the size.
    pub fn corners(
        &mut self,
        middle: Spot,
        size: Points,
        corners: &[(i64, i64)],
    ) -> Result<(), AllocError> {
        let mut first = true;
        for (right, down) in corners {
            let corner = middle.moved(size.share(*right, 100), size.share(*down, 100));
            if first {
                self.start(corner)?;
            } else {
                self.line(corner)?;
            }
            first = false;
        }
        self.close()
    }

    /// A triangle that points right.
    pub fn triangle(&mut self, middle: Spot, size: Points) -> Result<(), AllocError> {
        self.corners(middle, size, &[(-80, -100), (110, 0), (-80, 100)])
    }

    /// A square.
    pub fn square(&mut self, middle: Spot, size: Points) -> Result<(), AllocError> {
        self.corners(middle, size, &[(-90, -90), (90, -90), (90, 90), (-90, 90)])
    }

    /// A diamond.
    pub fn diamond(&mut self, middle: Spot, size: Points) -> Result<(), AllocError> {
        self.corners(middle, size, &[(0, -135), (135, 0), (0, 135), (-135, 0)])
    }

    /// A cross of two lines.
    pub fn cross(&mut self, middle: Spot, size: Points) -> Result<(), AllocError> {
        self.start(middle.moved(-size, -size))?;
        self.line(middle.moved(size, size))?;
        self.start(middle.moved(size, -size))?;
        self.line(middle.moved(-size, size))
    }

    /// The two strokes of the head of an arrow that comes to a place from so far left and up.
    pub fn head(
        &mut self,
        spot: Spot,
        right: Points,
        down: Points,
        size: Points,
    ) -> Result<(), AllocError> {
        let long = length_of(right, down);
        let back = (-size).share(right.tenths(), long);
        let up = (-size).share(down.tenths(), long);
        for side in [47, -47] {
            self.start(spot)?;
            self.by(
                back.share(88, 100) - up.share(side, 100),
                up.share(88, 100) + back.share(side, 100),
            )?;
        }
        Ok(())
    }
}

/// How long a line is that goes so far right and down, in tenths of a point; at least 1.
fn length_of(right: Points, down: Points) -> i64 {
    let width = right.tenths().unsigned_abs();
    let height = down.tenths().unsigned_abs();
    let square = width
        .saturating_mul(width)
        .saturating_add(height.saturating_mul(height));
    i64::try_from(square.isqrt()).unwrap_or(i64::MAX).max(1)
}
