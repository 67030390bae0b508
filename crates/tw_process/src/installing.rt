//! A chain installed: its steps that are the process's own next ones are made.

ghost use Rattle.std.specs.Prelude.{◌≡◌, ◌↔◌, ◌+◌, ◌≤◌, ◌++◌, IsTrue, Some, slice_get, vec_len};
ghost use Rattle.std.specs.VecDeque.{deque_capacity, deque_len};
ghost use Rattle.tw_atomic.specs.Atomic.{AreAlike};
ghost use Rattle.tw_network.specs.Contents.{network_of};
ghost use Rattle.tw_process.specs.Installing.{consumed_count, entries_with, entry_with};
ghost use Rattle.tw_theory.specs.Installing.{IsInstalled};

use crate::entry::Entry;
use crate::process::Process;
use crate::taking::{Place, Taken, take_steps};
use std::collections::VecDeque;
use tw_actions::{Finished, Stop};
use tw_atomic::Atomic;
use tw_chain::{Parts, Prepared};
use tw_msgs::Record;
use tw_step::{Moment, Step};

impl<M: Atomic> Process<M> {
    /// Makes the steps of a chain that are this process's own next ones, up to the first that is stale or for which room
    /// is refused; the others are run backwards.
    ///
    /// The first step is stale where state, last, due, stamp or bag differ from the process's, a later one where stamp
    /// or bag differ.
    pub fn install(&mut self, chain: Prepared<M>) -> Finished
        requires component { chain.run.start.component ≡ self.old.component }
        requires limit { chain.run.start.micro_limit ≡ self.old.network.micro_limit }
        requires alike { (m : M) → slice_get self.old.network.models self.old.component ≡ Some m
            → AreAlike M.meaning M.undone m chain.model }
        ensures installed { IsInstalled (network_of M.meaning self.old.network)
            chain.run chain.cause self.old.process self.new.process result }
        ensures others { self.new ≡ record self.old
            { process = self.new.process; spare = self.new.spare } }
    {
        chain.facts();
        let network = &*self.network;
        network.facts();
        let model = network.model(self.component);
        if !stands_at_start(model, &self.moment, &chain) {
            let stop = if chain.len() == 0 {
                Stop::Ended(chain.cause())
            } else {
                Stop::Stale
            };
            return Finished { installed: 0, stop };
        }
        let place = Place {
            network,
            component: self.component,
            cancel: self.cancel,
        };
        let Taken { counts, stop } = take_steps(
            self.alloc,
            &place,
            chain.steps(),
            &mut self.lists,
            &mut self.history,
        );
        let stop = stop.unwrap_or(Stop::Ended(chain.cause()));
        let installed = counts.len();
        let Parts { steps, moment } = chain.cut_back(model, installed);
        push_entries(&mut self.history, steps, counts);
        self.moment = moment;
        Finished { installed, stop }
    }
}

/// Whether a component stands where a chain begins.
fn stands_at_start<M: Atomic>(model: &M, now: &Moment<M::State>, chain: &Prepared<M>) -> bool
    ensures { IsTrue result ↔ (now.now ≡ chain.now.run.start.now) }
{
    let (last, due) = chain.start_times();
    model.same(&now.state, chain.start_state()) && now.last == last && now.due == due
}

/// Steps of a chain, which sent so many messages each, are the last of a history. There is room for them.
fn push_entries<S: Drop, R: Drop>(
    history: &mut VecDeque<Entry<S, R>>,
    steps: Vec<Step<S, R>>,
    counts: Vec<usize>,
)
    requires { deque_len history.old + vec_len steps ≤ deque_capacity history.old }
    ensures { history.new.items ≡ history.old.items ++ entries_with counts.items steps.items }
{
    let mut steps = VecDeque::from_vec(steps);
    let mut counts = VecDeque::from_vec(counts);
    while let Some(step) = steps.pop_front() {
        let sent = counts.pop_front().unwrap_or(0);
        history.push_back_reserved(entry_of(step, sent));
    }
}

/// A step of a chain as a step of the history that sent so many messages.
fn entry_of<S: Drop, R: Drop>(step: Step<S, R>, sent: usize) -> Entry<S, R>
    ensures { result ≡ entry_with sent step }
{
    let consumed = consumed_in(&step.done);
    Entry {
        step,
        consumed,
        sent,
    }
}

/// How many messages a step consumed: an output none, a transition its bag.
fn consumed_in(done: &Record) -> usize
    ensures { result ≡ consumed_count done.now }
{
    if done.stamp.is_output() {
        0
    } else {
        done.bag.len()
    }
}
