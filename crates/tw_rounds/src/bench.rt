//! What a round works with.

use crate::bags::Arrivals;
use crate::outputs::Sending;
use tw_tournament::Tournament;

/// What a round works with, kept from round to round: the agenda, which is a tournament of the components' next own
/// steps; what comes to the components; which of them are imminent; what an output is put into; and the words of a state.
pub(crate) struct Bench {
    pub(crate) agenda: Tournament,
    pub(crate) arrivals: Arrivals,
    pub(crate) imminent: Vec<usize>,
    pub(crate) sending: Sending,
    pub(crate) words: Vec<i128>,
}

// Written out, since a derived one is spelt field by field, and proved, wherever one is let go.
impl Drop for Bench {
    fn drop(self) {
        let Bench {
            agenda: _,
            arrivals: _,
            imminent: _,
            sending: _,
            words: _,
        } = self;
    }
}
