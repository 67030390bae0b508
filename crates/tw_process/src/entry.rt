//! A step of the history.

ghost use Rattle.std.specs.Prelude.{◌≡◌, length, take_while, nat_lt};

use std::collections::VecDeque;
use tw_step::Step;
use tw_vtime::Stamp;

/// A step that is not committed.
#[derive(Drop)]
pub(crate) struct Entry<S, R> {
    /// The step, with what takes it back on the state.
    pub(crate) step: Step<S, R>,
    /// How many messages it consumed, and how many it sent.
    pub(crate) consumed: usize,
    pub(crate) sent: usize,
}

impl<S: Drop, R: Drop> Entry<S, R> {
    /// Whether it stands before a stamp.
    fn is_before(&self, stamp: Stamp) -> bool
        ensures { result ≡ nat_lt self.now.step.done.stamp stamp }
    {
        self.step.done.stamp < stamp
    }
}

/// How many entries at the front stand before a stamp.
pub(crate) fn entries_before<S: Drop, R: Drop>(
    history: &VecDeque<Entry<S, R>>,
    stamp: Stamp,
) -> usize
    ensures { result ≡ length (take_while (λ e. nat_lt e.step.done.stamp stamp) history.now.items) }
{
    history
        .iter()
        .take_while(|entry| entry.is_before(stamp))
        .count()
}
