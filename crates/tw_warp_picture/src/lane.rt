//! What is known of one component beside what the executive tells: where its steps and items come from.

use crate::seen::{Carried, Sending, Stepped};
use std::alloc::{AllocError, Global};
use std::collections::VecDeque;
use std::mem;
use tw_msgs::Item;
use tw_vtime::Stamp;

/// What is known of one component.
#[derive(Drop)]
pub(crate) struct Lane {
    // Which steps its history has, by their places among all.
    history: VecDeque<usize>,
    // Where its outgoing items come from, in their order.
    outgoing: Vec<Sending>,
    // The items of its mailbox, in their order.
    mail: Vec<Carried>,
}

/// What a rollback undid.
#[derive(Clone, Copy)]
pub(crate) struct Undone {
    pub(crate) steps: usize,
    pub(crate) least: Stamp,
}

impl Lane {
    /// Of a component that has done nothing.
    pub(crate) fn new(alloc: Global) -> Lane {
        Lane {
            history: VecDeque::new(alloc),
            outgoing: Vec::new(alloc),
            mail: Vec::new(alloc),
        }
    }

    /// A step more, at this place among all.
    pub(crate) fn step(&mut self, place: usize) -> Result<(), AllocError> {
        self.history.push_back(place)?;
        Ok(())
    }

    /// So many steps of the history are left: the others are undone. What was undone, if any was.
    pub(crate) fn take_back(&mut self, steps: &mut [Stepped], left: usize) -> Option<Undone> {
        let mut undone = None;
        for count in left..self.history.len() {
            let place = self.history.pop_back()?;
            let step = steps.get_mut(place)?;
            step.undone = true;
            undone = Some(Undone {
                steps: count - left + 1,
                least: step.stamp,
            });
        }
        undone
    }

    /// So many steps of the history are left: the oldest are committed. Whether there were any.
    pub(crate) fn commit(&mut self, left: usize) -> bool {
        let committed = left < self.history.len();
        for _ in left..self.history.len() {
            let _ = self.history.pop_front();
        }
        committed
    }

    /// So many items are outgoing now: those that are new come from here.
    pub(crate) fn send(&mut self, count: usize, sending: &Sending) -> Result<(), AllocError> {
        let known = self.outgoing.len();
        for _ in known..count {
            self.outgoing.push(Sending {
                step: sending.step,
                ..*sending
            })?;
        }
        Ok(())
    }

    /// Where the outgoing items come from; then there are none.
    pub(crate) fn take_outgoing(&mut self, alloc: Global) -> Vec<Sending> {
        mem::replace(&mut self.outgoing, Vec::new(alloc))
    }

    /// An item more in the mailbox.
    pub(crate) fn receive(&mut self, item: &Item, sending: &Sending) -> Result<(), AllocError> {
        self.mail.push(Carried {
            item: *item,
            sending: *sending,
            delivered: None,
        })?;
        Ok(())
    }

    /// The mailbox has these items: those that are new come from here.
    pub(crate) fn receive_others(
        &mut self,
        mail: &[Item],
        sending: &Sending,
    ) -> Result<(), AllocError> {
        let known = self.mail.len();
        for item in mail.iter().skip(known) {
            self.receive(item, sending)?;
        }
        Ok(())
    }

    /// The item at a place of the mailbox, which it leaves.
    pub(crate) fn deliver(&mut self, place: usize) -> Option<Carried> {
        if place >= self.mail.len() {
            return None;
        }
        Some(self.mail.remove(place))
    }

    /// The items of the mailbox.
    pub(crate) fn mail(&self) -> &[Carried] {
        self.mail.as_slice()
    }
}
