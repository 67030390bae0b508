//! What a run spent beside its outcome.

use tw_exchange::Undone;

/// What a run spent, for those who look for a better setting. Nothing is promised of these numbers; each stays at the greatest of its
/// type.
#[derive(Clone, Copy, Debug, PartialEq, Eq)]
pub struct Effort {
    /// How many steps were worked out by workers.
    pub made: u64,
    /// How many of these were lost: those that were not the component's own next ones any more when they were handed in, and those
    /// that were taken back later.
    pub lost: u64,
    /// How many deliveries took steps back (rollbacks).
    pub rollbacks: u64,
    /// How often a worker slept because there was nothing to do for it.
    pub slept: u64,
    /// How often a worker stepped back because the others had the lock nearly all the time.
    pub stepped_back: u64,
}

impl Effort {
    /// Of a run that has not begun.
    pub fn nothing() -> Effort {
        Effort {
            made: 0,
            lost: 0,
            rollbacks: 0,
            slept: 0,
            stepped_back: 0,
        }
    }

    /// How many of the steps that were worked out were not lost, in thousandths; all of none.
    pub fn useful(&self) -> u64 {
        if self.made == 0 {
            return 1_000;
        }
        let kept = u128::from(self.made.saturating_sub(self.lost));
        (kept.saturating_mul(1_000) / u128::from(self.made)) as u64
    }

    /// A chain was handed in: so many steps of it were made by the component, and so many not.
    pub(crate) fn count_chain(&mut self, installed: u64, lost: u64) {
        let made = installed.saturating_add(lost);
        self.made = self.made.saturating_add(made);
        self.lost = self.lost.saturating_add(lost);
    }

    /// So much was taken back.
    pub(crate) fn count_undone(&mut self, undone: Undone) {
        self.lost = self.lost.saturating_add(undone.steps);
        self.rollbacks = self.rollbacks.saturating_add(undone.rollbacks);
    }
}
