//! A model that works on the first of its jobs, and sends it when its service is over.
ghost use Rattle.std.specs.Prelude.{refl, ◌≡◌, ◌-◌, ◌≤◌, ◌↔◌, Ok, IsOk, IfOk, IfErr, IsTrue, length, min, take};
ghost use Rattle.tw_atomic.specs.Atomic.{CanTurn, turned};
ghost use Rattle.tw_models.specs.Left.{IsWithin};
ghost use Rattle.tw_models.specs.Intake.{dropped_before};
ghost use Rattle.tw_models.specs.Queue.{first_job, later_jobs, left_with, with_first, queue_out, queue_int, queue_ext};
ghost use Rattle.tw_models.specs.declared.bad_model.BadModel.TheVariants.{BadTick};

use crate::bad_model::BadModel;
use crate::intake::{
    accept, copy_of, dropped_before, left_after, left_before, refill, same_values, write_words,
};
use crate::on_heap::OnHeap;
use arrayvec::ArrayVec;
use std::alloc::{AllocError, Global};
use std::marker::Model;
use tw_atomic::{Atomic, Outbox, Turn};
use tw_vtime::MAX_TICK;

/// The jobs of a queue, at most 64.
pub type Jobs = ArrayVec<i64, 64>;

/// The parameter of a queue, in range.
#[derive(Clone, Copy, Debug, PartialEq, Eq)]
pub struct Queue {
    service: u64,
}

impl Model for Queue {
    ghost use Rattle.tw_models.specs.Parameters.{QueueParameters, FitsQueue};

    ghost Value = { QueueParameters };

    ghost view = { λ q. record { service = q.service } };

    ghost invariant = { λ q. FitsQueue (record { service = q.service }) };

    ghost inverse = { λ q. record { service = q.service } };
}

impl Queue {
    /// A queue that works on each job for `service` ticks. Refused with [`BadModel::BadTick`] (10)
    /// exactly where the service is above the greatest tick.
    pub fn new(service: u64) -> Result<Queue, BadModel>
        ensures made { IfOk result (λ q. q ≡ record { service = service }) }
        ensures in_range { IsOk result ↔ (service ≤ 1099511627774) }
        ensures bad_tick { IfErr result (λ e. e ≡ BadTick) }
    {
        if service > MAX_TICK {
            return Err(BadModel::BadTick);
        }
        Ok(Queue { service })
    }
}

/// The jobs of a queue, how many values found no room, and the time until the first job is done.
#[derive(Drop)]
pub struct QueueState {
    pub jobs: Jobs,
    pub dropped: u64,
    pub left: Option<u64>,
}

impl QueueState {
    /// Whether both states are equal.
    pub(crate) fn is_same(&self, other: &QueueState) -> bool
        ensures { IsTrue result ↔ (self.now ≡ other.now) }
    {
        if !same_values(self.jobs.as_slice(), other.jobs.as_slice()) {
            return false;
        }
        if self.dropped != other.dropped {
            return false;
        }
        self.left == other.left
    }

    /// An equal state. It takes no memory.
    pub(crate) fn copied(&self) -> QueueState
        ensures { result ≡ self.now }
    {
        QueueState {
            jobs: copy_of(&self.jobs),
            dropped: self.dropped,
            left: self.left,
        }
    }

    /// An equal state on the heap. The only error is want of memory (4).
    pub fn on_heap(&self, alloc: Global) -> Result<OnHeap<QueueState>, AllocError>
        ensures { IfOk result (λ copy. copy ≡ self.now) }
    {
        let empty = QueueState {
            jobs: ArrayVec::new(),
            dropped: self.dropped,
            left: self.left,
        };
        let mut copy = OnHeap::new(alloc, empty)?;
        refill(&mut copy.get_mut().jobs, &self.jobs);
        Ok(copy)
    }
}

/// How many values a transition accepted, and the job that was sent.
#[derive(Clone, Copy, Debug, PartialEq, Eq)]
pub struct QueueResidue {
    pub accepted: usize,
    pub gone: Option<i64>,
}

/// Takes the first job out.
fn take_first(jobs: &mut Jobs) -> Option<i64>
    ensures first { result ≡ first_job jobs.old.items }
    ensures later { jobs.new.items ≡ later_jobs jobs.old.items }
{
    jobs.pop_at(0)
}

/// Puts the job that went in front again. Where there is no room, which no transition leaves, the jobs
/// stay.
fn put_first(jobs: &mut Jobs, gone: Option<i64>)
    ensures { jobs.new.items ≡ with_first gone jobs.old.items }
{
    if let Some(job) = gone {
        if !jobs.is_full() {
            jobs.insert(0, job);
        }
    }
}

/// The time left when a service begins, in ticks.
fn left_with(jobs: &[i64], service: u64) -> Option<u64>
    ensures { result ≡ left_with jobs.now service }
{
    if jobs.is_empty() { None } else { Some(service) }
}

/// Lets the first job go, begins the next service, and answers the job.
fn finish_first(state: &mut QueueState, service: u64) -> Option<i64>
    ensures state { state.new ≡ queue_int (record { service = service }) state.old }
    ensures gone { result ≡ first_job state.old.jobs.items }
{
    let gone = take_first(&mut state.jobs);
    state.left = left_with(state.jobs.as_slice(), service);
    gone
}

/// Makes jobs of what finds room and counts the rest, and answers how many values found room.
fn take_in(state: &mut QueueState, service: u64, elapsed: u64, bag: &[(u8, i64)]) -> usize
    requires { IsWithin elapsed state.old.left }
    ensures state { state.new ≡ queue_ext (record { service = service }) state.old elapsed bag.now }
    ensures count { result ≡ min (64 - length state.old.jobs.items) (length bag.now) }
{
    state.left = left_after(state.jobs.as_slice(), state.left, elapsed, service);
    let accepted = accept(&mut state.jobs, bag);
    state.dropped = state.dropped.wrapping_add((bag.len() - accepted) as u64);
    accepted
}

/// Cuts off as many jobs as a bag of so many items brought.
fn cut_off(state: &mut QueueState, items: usize, accepted: usize)
    ensures jobs { state.new.jobs.items
        ≡ take (length state.old.jobs.items - accepted) state.old.jobs.items }
    ensures dropped { state.new.dropped ≡ dropped_before state.old.dropped items accepted }
    ensures left { state.new.left ≡ state.old.left }
{
    let kept = state.jobs.len().saturating_sub(accepted);
    state.jobs.truncate(kept);
    state.dropped = dropped_before(state.dropped, items, accepted);
}

impl Atomic for Queue {
    ghost use Rattle.tw_atomic.specs.Waiting.{told_wait};
    ghost use Rattle.tw_models.specs.Queue.{IsQueue, queue_meaning, queue_residue, queue_undone};
    ghost use Rattle.tw_models.specs.QueueLaws.{queue_stays_valid, queue_output_fits, queue_reverses};

    type State = QueueState;

    type Residue = QueueResidue;

    ghost meaning = { queue_meaning };

    ghost valid = { IsQueue };

    ghost residue_of = { λ m turn s elapsed bag. queue_residue turn s bag };

    ghost undone = { λ m turn s elapsed bag residue. queue_undone turn s elapsed bag residue };

    ghost longest = { λ q. told_wait q.service };

    fn start(&self, alloc: Global) -> Result<QueueState, AllocError>
        ensures start { result ≡ Ok (queue_meaning self.now).start }
        ensures valid_state { IfOk result (IsQueue self.now) }
    {
        let _ = alloc;
        let _ = &self.service;
        Ok(QueueState {
            jobs: ArrayVec::new(),
            dropped: 0,
            left: None,
        })
    }

    fn ta(&self, state: &QueueState) -> Option<u64> {
        state.left
    }

    fn longest_wait(&self) -> Option<u64> {
        if self.service == 0 {
            return None;
        }
        Some(self.service)
    }

    fn output(&self, state: &QueueState, outbox: &mut Outbox) {
        if let Some(job) = state.jobs.as_slice().first() {
            outbox.push((0, *job));
        }
    }

    fn forward(
        &self,
        alloc: Global,
        state: &mut QueueState,
        turn: Turn,
        elapsed: u64,
        bag: &[(u8, i64)],
    ) -> Result<QueueResidue, AllocError>
        requires { CanTurn (IsQueue self.now)
            (queue_meaning self.now) turn state.old elapsed bag.now }
        ensures state { state.new ≡ turned (queue_meaning self.now) turn state.old elapsed bag.now }
        ensures residue { result ≡ Ok (queue_residue turn state.old bag.now) }
    {
        let _ = alloc;
        let mut residue = QueueResidue {
            accepted: 0,
            gone: None,
        };
        match turn {
            Turn::Int => residue.gone = finish_first(state, self.service),
            Turn::Ext => residue.accepted = take_in(state, self.service, elapsed, bag),
            Turn::Con => {
                residue.gone = finish_first(state, self.service);
                residue.accepted = take_in(state, self.service, 0, bag);
            }
        }
        Ok(residue)
    }

    fn transition(
        &self,
        alloc: Global,
        state: &mut QueueState,
        turn: Turn,
        elapsed: u64,
        bag: &[(u8, i64)],
    ) -> Result<(), AllocError>
        requires { CanTurn (IsQueue self.now)
            (queue_meaning self.now) turn state.old elapsed bag.now }
        ensures state { state.new ≡ turned (queue_meaning self.now) turn state.old elapsed bag.now }
        ensures succeeds { result ≡ Ok tt }
    {
        let _ = alloc;
        match turn {
            Turn::Int => {
                finish_first(state, self.service);
            }
            Turn::Ext => {
                take_in(state, self.service, elapsed, bag);
            }
            Turn::Con => {
                finish_first(state, self.service);
                take_in(state, self.service, 0, bag);
            }
        }
        Ok(())
    }

    fn back(
        &self,
        state: &mut QueueState,
        turn: Turn,
        elapsed: u64,
        bag: &[(u8, i64)],
        residue: QueueResidue,
    ) {
        match turn {
            Turn::Int => {
                put_first(&mut state.jobs, residue.gone);
                state.left = Some(elapsed);
            }
            Turn::Ext => {
                cut_off(state, bag.len(), residue.accepted);
                state.left = left_before(state.jobs.as_slice(), state.left, elapsed);
            }
            Turn::Con => {
                cut_off(state, bag.len(), residue.accepted);
                put_first(&mut state.jobs, residue.gone);
                state.left = Some(elapsed);
            }
        }
    }

    fn words(
        &self,
        alloc: Global,
        state: &QueueState,
        words: &mut Vec<i128>,
    ) -> Result<(), AllocError> {
        let _ = alloc;
        write_words(state.dropped, state.jobs.as_slice(), words)
    }

    fn same(&self, one: &QueueState, other: &QueueState) -> bool {
        one.is_same(other)
    }

    fn copy(&self, alloc: Global, state: &QueueState) -> Result<QueueState, AllocError>
        ensures { result ≡ Ok state.now }
    {
        let _ = alloc;
        Ok(state.copied())
    }

    ghost stays_valid = { queue_stays_valid };

    ghost output_fits = { queue_output_fits };

    ghost reverses = { λ m turn s elapsed bag can. queue_reverses m turn s elapsed bag can };
}
