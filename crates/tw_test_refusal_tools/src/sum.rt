//! Sums over numbers.

// An odd number of 64 bits, by which each sum is multiplied.
const MULTIPLIER: u64 = 6_364_136_223_846_793_005;

/// A sum over numbers in their order.
#[derive(Clone, Copy, Debug, PartialEq, Eq)]
pub struct Sum {
    number: u64,
}

impl Sum {
    /// The sum over no number.
    pub fn new() -> Sum {
        Sum { number: 1 }
    }

    /// Adds a number.
    pub fn add(&mut self, number: u64) {
        let mixed = (self.number ^ number).wrapping_mul(MULTIPLIER);
        self.number = mixed ^ (mixed >> 29);
    }

    /// Adds a length or a place.
    pub fn add_count(&mut self, count: usize) {
        self.add(count as u64);
    }

    /// Adds a number that may be negative.
    pub fn add_signed(&mut self, number: i128) {
        for byte in number.to_le_bytes() {
            self.add(u64::from(byte));
        }
    }

    /// Adds a sum in such a way that the order of those that are added does not matter.
    pub fn add_in_any_order(&mut self, other: Sum) {
        self.number = self.number.wrapping_add(other.number);
    }
}
