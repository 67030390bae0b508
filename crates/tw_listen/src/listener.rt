//! Who hears how far a run is.

use crate::reached::Reached;

/// Who hears how far a run is. What it does with that is no part of the run.
pub trait Listener {
    /// Hears how far the run is, after a round.
    fn hear(&mut self, reached: Reached);
}

/// Nobody listens.
#[derive(Clone, Copy, Debug, PartialEq, Eq)]
pub struct Nobody;

impl Listener for Nobody {
    fn hear(&mut self, _reached: Reached) {}
}
