//! Who took what the outputs of a round sent.

use crate::lanes::Lanes;
use std::alloc::{AllocError, Global};
use tw_atomic::Atomic;
use tw_msgs::{Record, RecordKind};
use tw_network::Network;

/// An arrow from the lane of an output to that of a transition of its round.
#[derive(Clone, Copy)]
pub(crate) struct Arrow {
    /// The lane of the output.
    pub from: usize,
    /// The lane of the transition.
    pub to: usize,
}

/// What the outputs of a round sent so far, by lane.
#[derive(Drop)]
pub(crate) struct Sendings {
    // How many items were sent to each lane.
    items: Vec<usize>,
    // Whether each lane takes items in this round.
    takes: Vec<bool>,
    // The lanes to which an output sends.
    goals: Vec<usize>,
}

/// How many arrows an output has.
#[derive(Clone, Copy)]
pub(crate) struct Drawn {
    /// Those that are drawn.
    pub drawn: usize,
    /// Those that are left out.
    pub lost: u64,
}

impl Sendings {
    /// Nothing sent, to so many lanes.
    pub fn new(alloc: Global, lanes: usize) -> Result<Sendings, AllocError> {
        Ok(Sendings {
            items: vec![in alloc; 0; lanes]?,
            takes: vec![in alloc; false; lanes]?,
            goals: Vec::new(alloc),
        })
    }

    /// A round begins, in which these records are made.
    pub fn begin(&mut self, lanes: &Lanes, records: &[Record]) {
        self.items.fill(0);
        self.takes.fill(false);
        for record in records {
            if record.kind == RecordKind::Ext || record.kind == RecordKind::Con {
                if let Some(place) = lanes.of(record.component) {
                    self.note_taker(place);
                }
            }
        }
    }

    fn note_taker(&mut self, place: usize) {
        if place < self.takes.len() {
            self.takes[place] = true;
        }
    }

    /// How many items were sent to a lane.
    pub fn sent_to(&self, place: usize) -> usize {
        self.items.get(place).copied().unwrap_or(0)
    }

    /// Notes an item for a component.
    fn note_item(&mut self, lanes: &Lanes, to: usize) -> Result<(), AllocError> {
        let Some(place) = lanes.of(to) else {
            return Ok(());
        };
        if place < self.items.len() {
            self.items[place] = self.items[place].saturating_add(1);
        }
        self.goals.push(place)?;
        Ok(())
    }

    /// Notes where the items of an output go.
    fn note_output<M: Atomic>(
        &mut self,
        network: &Network<M>,
        lanes: &Lanes,
        record: &Record,
    ) -> Result<(), AllocError> {
        if record.component >= network.len() {
            return Ok(());
        }
        for (port, _) in record.bag.as_slice() {
            for (to, _) in network.routes(record.component, *port) {
                self.note_item(lanes, *to)?;
            }
        }
        Ok(())
    }

    /// Adds an arrow from an output of a lane to each lane that took one of its items, while there is room for more.
    pub fn send<M: Atomic>(
        &mut self,
        network: &Network<M>,
        lanes: &Lanes,
        from: usize,
        record: &Record,
        room: usize,
        arrows: &mut Vec<Arrow>,
    ) -> Result<Drawn, AllocError> {
        self.goals.clear();
        self.note_output(network, lanes, record)?;
        self.goals.sort_unstable();
        let mut made = Drawn { drawn: 0, lost: 0 };
        let mut before = None;
        for goal in self.goals.as_slice() {
            let took = self.takes.get(*goal).copied().unwrap_or(false);
            if before == Some(*goal) || !took {
                continue;
            }
            before = Some(*goal);
            if made.drawn < room {
                arrows.push(Arrow { from, to: *goal })?;
                made.drawn = made.drawn.saturating_add(1);
            } else {
                made.lost = made.lost.saturating_add(1);
            }
        }
        Ok(made)
    }
}
