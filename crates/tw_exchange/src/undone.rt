//! What deliveries have taken back.

/// What deliveries have taken back: so many steps, and how many deliveries did.
#[derive(Clone, Copy, Debug, PartialEq, Eq)]
pub struct Undone {
    /// How many steps were taken back.
    pub steps: u64,
    /// How many deliveries took steps back.
    pub rollbacks: u64,
}

impl Undone {
    /// Nothing.
    pub fn nothing() -> Undone {
        Undone {
            steps: 0,
            rollbacks: 0,
        }
    }

    /// A delivery took so many steps back.
    pub(crate) fn count(&mut self, steps: u64) {
        if steps > 0 {
            self.steps = self.steps.saturating_add(steps);
            self.rollbacks = self.rollbacks.saturating_add(1);
        }
    }
}
