//! Lengths and places.

use std::alloc::AllocError;
use std::ops::{Add, Neg, Sub};

/// A length in points, with one decimal. Sums and products that are too great stay at the greatest.
#[derive(Clone, Copy, Debug, PartialEq, Eq, PartialOrd, Ord)]
pub struct Points {
    tenths: i64,
}

/// A place in a picture: so far to the right and so far down.
#[derive(Clone, Copy, Debug, PartialEq, Eq)]
pub struct Spot {
    /// To the right.
    pub x: Points,
    /// Down.
    pub y: Points,
}

impl Points {
    /// No length.
    pub const ZERO: Points = Points { tenths: 0 };

    /// So many whole points.
    pub fn whole(count: i64) -> Points {
        Points {
            tenths: count.saturating_mul(10),
        }
    }

    /// So many tenths of a point.
    pub fn of_tenths(tenths: i64) -> Points {
        Points { tenths }
    }

    /// How many tenths of a point.
    pub fn tenths(self) -> i64 {
        self.tenths
    }

    /// How many whole points; what is over counts as one more.
    pub fn rounded_up(self) -> i64 {
        self.tenths.saturating_add(9) / 10
    }

    /// So many times the length.
    pub fn times(self, count: i64) -> Points {
        Points {
            tenths: self.tenths.saturating_mul(count),
        }
    }

    /// This share of the length, to the nearest tenth; none where `under` is not positive.
    pub fn share(self, over: i64, under: i64) -> Points {
        if under <= 0 {
            return Points::ZERO;
        }
        let product = self.tenths.saturating_mul(over);
        let half = if product < 0 {
            0i64.saturating_sub(under / 2)
        } else {
            under / 2
        };
        Points {
            tenths: product.saturating_add(half).saturating_div(under),
        }
    }

    /// The length without a sign.
    pub fn size(self) -> Points {
        Points {
            tenths: self.tenths.saturating_abs(),
        }
    }

    /// The lesser length.
    pub fn least(self, other: Points) -> Points {
        if self.tenths <= other.tenths {
            self
        } else {
            other
        }
    }

    /// The greater length.
    pub fn most(self, other: Points) -> Points {
        if self.tenths >= other.tenths {
            self
        } else {
            other
        }
    }

    /// Whether this is the lesser length.
    pub fn is_below(self, other: Points) -> bool {
        self.tenths < other.tenths
    }

    /// How often the other length goes into this one, a begun time too; 0 where the other is not positive.
    pub fn parts(self, other: Points) -> i64 {
        if other.tenths <= 0 {
            return 0;
        }
        self.tenths
            .saturating_add(other.tenths.saturating_sub(1))
            .saturating_div(other.tenths)
    }

    /// Adds the length as a coordinate: without a decimal where that is 0.
    pub fn push_to(self, text: &mut String) -> Result<(), AllocError> {
        let size = self.tenths.unsigned_abs();
        if self.tenths < 0 {
            text.push_str("-")?;
        }
        let whole = size / 10;
        let tenth = size % 10;
        if tenth == 0 {
            return write!(text, "{whole}");
        }
        write!(text, "{whole}.{tenth}")
    }
}

impl Add for Points {
    type Output = Points;

    fn add(self, other: Points) -> Points {
        Points {
            tenths: self.tenths.saturating_add(other.tenths),
        }
    }
}

impl Sub for Points {
    type Output = Points;

    fn sub(self, other: Points) -> Points {
        Points {
            tenths: self.tenths.saturating_sub(other.tenths),
        }
    }
}

impl Neg for Points {
    type Output = Points;

    fn neg(self) -> Points {
        Points {
            tenths: 0i64.saturating_sub(self.tenths),
        }
    }
}

impl Spot {
    /// A place.
    pub fn new(x: Points, y: Points) -> Spot {
        Spot { x, y }
    }

    /// The place so far to the right and down of this one.
    pub fn moved(self, right: Points, down: Points) -> Spot {
        Spot {
            x: self.x + right,
            y: self.y + down,
        }
    }

    /// Adds the place as two coordinates.
    pub fn push_to(self, text: &mut String) -> Result<(), AllocError> {
        self.x.push_to(text)?;
        text.push_str(" ")?;
        self.y.push_to(text)
    }
}
