//! A process, how it begins, and what is read of it.

ghost use Rattle.std.specs.Prelude.{◌≡◌, ◌+◌, ◌<◌, ◌≤◌, length, slice_get, option_map, IfOk, IfSome, MatchOption, Some};
ghost use Rattle.std.specs.Arc.{arc_value};
ghost use Rattle.tw_process.specs.Process.{IsNew, consumed_in, last_stamp_of, sent_in};
ghost use Rattle.tw_theory.specs.Contents.{next, records_of, Aggressive};
ghost use Rattle.tw_theory.specs.Memory.{live, max_nodes};
ghost use Rattle.tw_theory.specs.Soundness.{AllBefore};

use crate::entry::Entry;
use crate::starting::start_lists;
use std::alloc::{AllocError, Global};
use std::collections::VecDeque;
use std::marker::Model;
use std::sync::Arc;
use tw_actions::Cancel;
use tw_atomic::Atomic;
use tw_lists::EventLists;
use tw_msgs::Record;
use tw_network::Network;
use tw_step::{Moment, start_moment};
use tw_vtime::Stamp;

/// A process of one component of a network.
pub struct Process<M: Atomic> {
    pub(crate) alloc: Global,
    pub(crate) network: Arc<Network<M>>,
    pub(crate) component: usize,
    pub(crate) moment: Moment<M::State>,
    pub(crate) line: Stamp,
    pub(crate) cancel: Cancel,
    // One past the packed stamp of the last step that was committed.
    pub(crate) floor: u64,
    // The steps that are not committed, the oldest first.
    pub(crate) history: VecDeque<Entry<M::State, M::Residue>>,
    pub(crate) lists: EventLists,
}

// Written out, since a derived one is spelt field by field, and proved, wherever one is let go.
impl<M: Atomic> Drop for Process<M> {
    fn drop(self) {
        let Process {
            alloc: _,
            network: _,
            component: _,
            moment: _,
            line: _,
            cancel: _,
            floor: _,
            history: _,
            lists: _,
        } = self;
    }
}

impl<M: Atomic> Model for Process<M> {
    ghost use Rattle.std.specs.Arc.{arc_value};
    ghost use Rattle.tw_process.specs.Process.{Held};
    ghost use Rattle.tw_process.specs.History.{seen, IsKept};

    ghost Value = { Held M M.State };

    ghost view = { λ p. seen (arc_value p.network) p.component p.moment
        p.line p.cancel p.floor p.history.items p.lists };

    ghost invariant = { λ p. IsKept M.valid M.meaning M.undone (arc_value p.network) p.component p.moment
        p.floor p.history.items p.lists };
}

impl<M: Atomic> Process<M> {
    /// A process of this component at its start, with its network inputs pending. Steps that are taken back are
    /// cancelled aggressively. It is refused for want of memory alone (4).
    pub fn new(
        alloc: Global,
        network: Arc<Network<M>>,
        component: usize,
    ) -> Result<Self, AllocError>
        requires { component < length (arc_value network).models }
        ensures { IfOk result (IsNew M.meaning (arc_value network) Aggressive component) }
    {
        Process::with_cancel(alloc, network, component, Cancel::Aggressive)
    }

    /// A process as [`new`](Process::new) makes it, for either way of cancelling.
    pub fn with_cancel(
        alloc: Global,
        network: Arc<Network<M>>,
        component: usize,
        cancel: Cancel,
    ) -> Result<Self, AllocError>
        requires { component < length (arc_value network).models }
        ensures { IfOk result (IsNew M.meaning (arc_value network) cancel component) }
    {
        let shared = &*network;
        shared.facts();
        let moment = start_moment(alloc, shared.model(component))?;
        let lists = start_lists(alloc, shared, component)?;
        Ok(Process {
            alloc,
            network,
            component,
            moment,
            line: Stamp::START,
            cancel,
            floor: 0,
            history: VecDeque::new(alloc),
            lists,
        })
    }

    /// Its lists have at most 1,048,576 nodes. The call does nothing: its contract gives a caller this fact.
    pub fn count_law(&self)
        ensures { live self.now.process ≤ max_nodes }
    {
        self.lists.count_law();
    }

    /// The stamp of the next step, or the end: the lesser of `due` and the least pending stamp.
    pub fn next(&self) -> Stamp
        ensures { result ≡ next self.now.process }
    {
        let first = match self.lists.first() {
            Some(message) => message.stamp,
            None => Stamp::END,
        };
        self.moment.due.min(first)
    }

    /// How many steps are not committed.
    pub fn history_len(&self) -> usize
        ensures { result ≡ length self.now.process.history }
    {
        self.history.len()
    }

    /// The stamp of the last step that is not committed; the others are before it.
    pub fn last_stamp(&self) -> Option<Stamp>
        ensures value { result ≡ last_stamp_of self.now.process.history }
        ensures latest { IfSome result (λ last. AllBefore (last + 1) self.now.process.history) }
    {
        match self.history.back() {
            Some(entry) => Some(entry.step.done.stamp),
            None => None,
        }
    }

    /// The record of the `i`th step that is not committed, the oldest first, if there are so many.
    pub fn record_at(&self, i: usize) -> Option<&Record>
        ensures { let history = self.now.process.history in
            MatchOption result (length history ≤ i)
            (λ done. slice_get (records_of history) i ≡ Some done.now) }
    {
        match self.history.get(i) {
            Some(entry) => Some(&entry.step.done),
            None => None,
        }
    }

    /// How many messages the `i`th step that is not committed consumed, the oldest first, if there are so many.
    pub fn consumed_at(&self, i: usize) -> Option<usize>
        ensures { result ≡ option_map consumed_in (slice_get self.now.process.history i) }
    {
        match self.history.get(i) {
            Some(entry) => Some(entry.consumed),
            None => None,
        }
    }

    /// How many messages the `i`th step that is not committed sent, the oldest first, if there are so many.
    pub fn sent_at(&self, i: usize) -> Option<usize>
        ensures { result ≡ option_map sent_in (slice_get self.now.process.history i) }
    {
        match self.history.get(i) {
            Some(entry) => Some(entry.sent),
            None => None,
        }
    }
}
