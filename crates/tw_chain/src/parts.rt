//! The parts of a chain.

use tw_step::{Moment, Step};

/// What is left of a chain that was run back: its first steps, and where the component stands after them.
#[derive(Drop)]
pub struct Parts<S: Drop, R> {
    /// The steps.
    pub steps: Vec<Step<S, R>>,
    /// Where the component stands after them.
    pub moment: Moment<S>,
}
