//! What came of an action is noted.

use crate::lane::Lane;
use crate::reading::{history_len, line, mail, outgoing, outgoing_len, place};
use crate::seen::{
    Acted, Carried, Cause, Committed, Fallen, MOST_ACTIONS, Move, Risen, Seen, Sending, Stepped,
    component_of,
};
use std::alloc::{AllocError, Global};
use tw_actions::Received;
use tw_atomic::Atomic;
use tw_exec::{Action, Done, Executive};
use tw_inspect::Reply;
use tw_msgs::Item;
use tw_script::Command;
use tw_vtime::Stamp;

/// What is seen, and what is known beside it of each component.
#[derive(Drop)]
pub(crate) struct Notes {
    pub(crate) seen: Seen,
    lanes: Vec<Lane>,
}

/// What is read of a component before its action.
#[derive(Drop)]
pub(crate) struct Before {
    // The outgoing items, where it is a Post.
    items: Vec<Item>,
    // The commit line, where it is a Harvest.
    line: Stamp,
}

impl Before {
    /// What is read before a command.
    pub(crate) fn new<M: Atomic>(
        alloc: Global,
        executive: &Executive<M>,
        command: Command,
    ) -> Result<Before, AllocError> {
        let mut items = Vec::new(alloc);
        let mut start = Stamp::START;
        if let Command::Act(Action::Post(component)) = command {
            items = outgoing(alloc, executive, component)?;
        }
        if let Command::Act(Action::Harvest(component)) = command {
            start = line(executive, component);
        }
        Ok(Before { items, line: start })
    }
}

impl Notes {
    /// Of so many components, which have done nothing.
    pub(crate) fn new(alloc: Global, components: usize) -> Result<Notes, AllocError> {
        let mut lanes = Vec::new(alloc);
        for _ in 0..components {
            lanes.push(Lane::new(alloc))?;
        }
        Ok(Notes {
            seen: Seen::new(alloc),
            lanes,
        })
    }

    /// Whether as many actions are noted as are watched.
    pub(crate) fn is_full(&self) -> bool {
        self.seen.actions.len() >= MOST_ACTIONS
    }

    /// Notes a command with its reply, and where its component stands then, and answers the place of the action.
    pub(crate) fn act<M: Atomic>(
        &mut self,
        executive: &Executive<M>,
        command: &Command,
        reply: &Reply,
    ) -> Result<usize, AllocError> {
        let stands = match *command {
            Command::Act(action) => place_after(executive, action),
            _ => None,
        };
        let place = self.seen.actions.len();
        self.seen.actions.push(Acted {
            command: *command,
            reply: *reply,
            place: stands,
        })?;
        Ok(place)
    }

    /// Notes what the action at a place did, where it was not refused.
    pub(crate) fn note<M: Atomic>(
        &mut self,
        alloc: Global,
        executive: &Executive<M>,
        action: usize,
        before: &Before,
        done: Done,
    ) -> Result<(), AllocError> {
        let Some(acted) = self.seen.actions.get(action) else {
            return Ok(());
        };
        match acted.command {
            Command::Act(Action::Step(component)) => {
                self.step(executive, action, component, done)
            }
            Command::Act(Action::Post(component)) => {
                self.post(alloc, executive, action, component, before)
            }
            Command::Act(Action::Deliver(component, at)) => {
                self.deliver(executive, action, component, at, done)
            }
            Command::Act(Action::Back(component, _)) => {
                self.fall(executive, action, component, Cause::Back, None)
            }
            Command::Act(Action::Raise) => self.raise(executive, action),
            Command::Act(Action::Harvest(component)) => {
                self.harvest(executive, action, component, before)
            }
            Command::Rewind => self.rewind(executive, action),
            _ => Ok(()),
        }
    }

    /// Notes where the components stand at the end, and what lies in their mailboxes.
    pub(crate) fn end<M: Atomic>(&mut self, executive: &Executive<M>) -> Result<(), AllocError> {
        for (component, lane) in self.lanes.iter().enumerate() {
            self.seen.ends.push(place(executive, component))?;
            for carried in lane.mail() {
                self.seen.messages.push(*carried)?;
            }
        }
        Ok(())
    }

    /// A step, and what it sends.
    fn step<M: Atomic>(
        &mut self,
        executive: &Executive<M>,
        action: usize,
        component: usize,
        done: Done,
    ) -> Result<(), AllocError> {
        let Done::Stepped(stamp, _) = done else {
            return Ok(());
        };
        let index = self.seen.steps.len();
        self.seen.steps.push(Stepped {
            action,
            component,
            stamp,
            undone: false,
        })?;
        self.seen.moves.push(Move::Step(index))?;
        let sending = Sending {
            action,
            component,
            step: Some(stamp),
        };
        let Some(lane) = self.lanes.get_mut(component) else {
            return Ok(());
        };
        lane.step(index)?;
        lane.send(outgoing_len(executive, component), &sending)
    }

    /// The outgoing items, and the anti-messages that the Post settled, are in the mailboxes.
    fn post<M: Atomic>(
        &mut self,
        alloc: Global,
        executive: &Executive<M>,
        action: usize,
        component: usize,
        before: &Before,
    ) -> Result<(), AllocError> {
        let settled = Sending {
            action,
            component,
            step: None,
        };
        let Some(sender) = self.lanes.get_mut(component) else {
            return Ok(());
        };
        let sendings = sender.take_outgoing(alloc);
        for (item, sending) in before.items.iter().zip(sendings.iter()) {
            if let Some(receiver) = self.lanes.get_mut(item.message.to) {
                receiver.receive(item, sending)?;
            }
        }
        for (to, receiver) in self.lanes.iter_mut().enumerate() {
            receiver.receive_others(mail(executive, to), &settled)?;
        }
        Ok(())
    }

    /// A delivery, and the rollback for which it is the cause.
    fn deliver<M: Atomic>(
        &mut self,
        executive: &Executive<M>,
        action: usize,
        component: usize,
        at: usize,
        done: Done,
    ) -> Result<(), AllocError> {
        let Some(lane) = self.lanes.get_mut(component) else {
            return Ok(());
        };
        let Some(carried) = lane.deliver(at) else {
            return Ok(());
        };
        self.seen.messages.push(Carried {
            delivered: Some(action),
            ..carried
        })?;
        let (cause, reached) = match done {
            Done::Received(Received::Straggler(_)) => {
                (Cause::Straggler, Some(carried.item.message.stamp))
            }
            _ => (Cause::AntiMessage, None),
        };
        self.fall(executive, action, component, cause, reached)
    }

    /// A rollback, where there is one, and the anti-messages that it makes.
    fn fall<M: Atomic>(
        &mut self,
        executive: &Executive<M>,
        action: usize,
        component: usize,
        cause: Cause,
        straggler: Option<Stamp>,
    ) -> Result<(), AllocError> {
        let Some(lane) = self.lanes.get_mut(component) else {
            return Ok(());
        };
        let left = history_len(executive, component);
        if let Some(undone) = lane.take_back(self.seen.steps.as_mut_slice(), left) {
            self.seen.moves.push(Move::Fall(self.seen.falls.len()))?;
            let rank = rank_after(self.seen.falls.last(), action);
            self.seen.falls.push(Fallen {
                action,
                component,
                cause,
                to: place(executive, component),
                least: undone.least.min(straggler.unwrap_or(Stamp::END)),
                undone: undone.steps,
                rank,
            })?;
        }
        let sending = Sending {
            action,
            component,
            step: None,
        };
        lane.send(outgoing_len(executive, component), &sending)
    }

    /// A rise of global virtual time.
    fn raise<M: Atomic>(
        &mut self,
        executive: &Executive<M>,
        action: usize,
    ) -> Result<(), AllocError> {
        self.seen.rises.push(Risen {
            action,
            gvt: executive.gvt(),
        })?;
        Ok(())
    }

    /// A harvest.
    fn harvest<M: Atomic>(
        &mut self,
        executive: &Executive<M>,
        action: usize,
        component: usize,
        before: &Before,
    ) -> Result<(), AllocError> {
        let Some(lane) = self.lanes.get_mut(component) else {
            return Ok(());
        };
        if !lane.commit(history_len(executive, component)) {
            return Ok(());
        }
        self.seen.commits.push(Committed {
            action,
            component,
            from: before.line,
            to: line(executive, component),
        })?;
        Ok(())
    }

    /// A rewind: each component falls for itself.
    fn rewind<M: Atomic>(
        &mut self,
        executive: &Executive<M>,
        action: usize,
    ) -> Result<(), AllocError> {
        for component in 0..self.lanes.len() {
            self.fall(executive, action, component, Cause::Back, None)?;
        }
        Ok(())
    }
}

/// Where the component of an action stands.
fn place_after<M: Atomic>(executive: &Executive<M>, action: Action) -> Option<Stamp> {
    let component = component_of(action)?;
    place(executive, component)
}

/// How many falls of an action came before the next one, where this is the last.
fn rank_after(last: Option<&Fallen>, action: usize) -> usize {
    match last {
        Some(last) if last.action == action => last.rank.saturating_add(1),
        _ => 0,
    }
}
