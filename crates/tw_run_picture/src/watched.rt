//! What is kept of a run while it goes on: rounds with their marks, courses in columns, or both until it is known which are shown.

use crate::kept::Kept;
use crate::lanes::Lanes;
use crate::overview::Overview;
use std::alloc::{AllocError, Global};
use tw_atomic::Atomic;
use tw_figures::Detail;
use tw_msgs::Record;
use tw_network::Network;

/// What is kept of a run.
#[derive(Drop)]
pub(crate) struct Watched {
    /// The rounds with their marks; none where courses alone are shown.
    pub kept: Option<Kept>,
    /// The courses in columns; none where marks are shown, however many there are.
    pub overview: Option<Overview>,
}

impl Watched {
    /// Nothing kept yet, for a picture from a tick on, whose plots are so many points wide.
    pub fn new(
        alloc: Global,
        lanes: Lanes,
        from: u64,
        wide: usize,
        detail: Detail,
    ) -> Result<Watched, AllocError> {
        let overview = if detail == Detail::Marks {
            None
        } else {
            Some(Overview::new(alloc, &lanes, from, wide)?)
        };
        let kept = if detail == Detail::Courses {
            None
        } else {
            Some(Kept::new(alloc, lanes, from)?)
        };
        Ok(Watched { kept, overview })
    }

    /// Takes the records of a round. Answers whether the picture ends before it, and the run need not go on.
    pub fn take<M: Atomic>(
        &mut self,
        alloc: Global,
        network: &Network<M>,
        records: &[Record],
    ) -> Result<bool, AllocError> {
        let is_full = match &mut self.kept {
            Some(kept) => kept.take(alloc, network, records)?,
            None => false,
        };
        let Some(overview) = &mut self.overview else {
            return Ok(is_full);
        };
        if is_full {
            self.kept = None;
        }
        overview.take(records)?;
        Ok(false)
    }
}
