//! A run by workers.

ghost use Rattle.std.specs.Arc.{arc_value};
ghost use Rattle.std.specs.Prelude.{◌≡◌, ◌≤◌, IfErr, IfOk, IfSome, IsErrAnd};
ghost use Rattle.tw_exchange.specs.Ends.{IsDue, IsEndOf, IsMadeFor, IsOnly, IsOver};
ghost use Rattle.tw_exchange.specs.Exchanged.{IsNotAhead};
ghost use Rattle.tw_exchange.specs.Further.{reached, IsSince};
ghost use Rattle.tw_exchange.specs.declared.refused.SweepRefused.TheVariants as refusal;
ghost use Rattle.tw_theory.specs.Board.{numbers_of};
ghost use Rattle.tw_vtime.specs.Stamps.{max_tick};
ghost use Rattle.tw_workers.specs.Runs.{HasEnded, IsRunBy};

use crate::crew::Looks;
use crate::desk::{Desk, End, Given};
use crate::effort::Effort;
use crate::setting::{RunFault, Setting};
use std::alloc::Global;
use std::hint::spin_loop;
use std::marker::Brand;
use std::sync::{Arc, Condvar, Mutex, MutexGuard, OnceLock, Wait};
use std::thread;
use std::thread::Threads;
use tw_actions::RunState;
use tw_atomic::Atomic;
use tw_board::Publisher;
use tw_exchange::{
    Exchange, Gate, Order, Outcome, Prepareds, SweepRefused, compute, outcome_of, post,
};
use tw_exec::Executive;
use tw_network::Network;

// How often a worker looks whether the lock is free before it sleeps, and how long it pauses between two looks, so that those who
// look do not slow down the one who has it.
const LOOKS: u64 = 1_000;

const PAUSE: u64 = 16;

// How often a worker looks whether there is an order for it before it sleeps, and how long it pauses between two looks.
const IDLE_LOOKS: u64 = 64;

const IDLE_PAUSE: u64 = 64;

// What the workers of a run share.
struct Shared<'c, M: Atomic, H: Given<M>> {
    desk: Mutex<Desk<'c, M, H>>,
    // Something was handed in, or swept, or the run has ended.
    changed: Condvar,
    // One that stepped back is called, or the run has ended.
    called: Condvar,
    network: Arc<Network<M>>,
    until: u64,
}

// What each member of the crew has: what all of them share, where it is written how the run has ended, and whom to tell of each order.
struct Member<'b, 'c, M: Atomic, H: Given<M>, G: Gate> {
    shared: &'b Shared<'c, M, H>,
    end: &'c OnceLock<End>,
    gate: &'b G,
}

// A worker. What starts the workers is generic in it, so that no lifetime of theirs stands in its closures.
trait Worker {
    ghost is_ready: { Self → Type 0 };

    fn work<R: Wait>(&self, rt: &R)
        requires { is_ready self.now };
}

impl<'b, 'c, M: Atomic, H: Given<M>, G: Gate> Worker for Member<'b, 'c, M, H, G> {
    ghost is_ready = { λ member. IsOnly H.is_given
        (arc_value member.shared.now.network) member.shared.now.until };

    fn work<R: Wait>(&self, rt: &R) {
        work(rt, self.shared, self.end, self.gate)
    }
}

/// Runs an executive to the end by so many workers, each in a thread of its own; the calling thread is one of them. A thread that
/// cannot be started is left out, and the later ones are tried all the same. Each worker works out the next steps of a component
/// apart from the others, tells the gate before, and hands them in; from time to time one of them sweeps. What comes out does not
/// depend on the setting or on who did what: it is the trace of the sequential simulator, with its fault if there is one (Jefferson
/// 1985).
///
/// Global virtual time and how many records are committed are posted after each sweep, and once more at the end: the publisher that
/// comes back has then posted as many records as the trace has.
///
/// Given up where a sweep brings global virtual time no further: for want of memory (4), or of nodes (12) where an action of the executive
/// that comes back would have its process hold more than 1,048,576 of them. The executive comes back sound, of the same network and
/// until the same tick: it cancels as it did, what was committed stays, and global virtual time has not fallen. The publisher has
/// posted just its numbers; so it can be run again with it. Workers that left without an end, as none does, would be taken for want of
/// memory too.
pub fn run<M: Atomic + Send + Sync, G: Gate + Sync, R: Threads + Wait + Sync>(
    rt: &R,
    alloc: Global,
    executive: Executive<M>,
    setting: Setting,
    gate: &G,
    publisher: Publisher,
) -> (Result<Outcome, RunFault<M>>, Publisher)
where
    M::State: Send,
    M::Residue: Send,
    requires workers { (1 ≤ setting.workers) × (setting.workers ≤ 64) }
    requires burst { (1 ≤ setting.burst) × (setting.burst ≤ 256) }
    requires window { setting.window ≤ max_tick }
    requires not_ahead { IsNotAhead publisher executive }
    ensures run { IsRunBy M.meaning executive publisher result.0 result.1 }
{
    let (ended, publisher, _) = run_counted(rt, alloc, executive, setting, gate, publisher);
    (ended, publisher)
}

/// Runs an executive as [`run`] does, and answers beside it what the run spent.
pub fn run_counted<M: Atomic + Send + Sync, G: Gate + Sync, R: Threads + Wait + Sync>(
    rt: &R,
    alloc: Global,
    executive: Executive<M>,
    setting: Setting,
    gate: &G,
    publisher: Publisher,
) -> (Result<Outcome, RunFault<M>>, Publisher, Effort)
where
    M::State: Send,
    M::Residue: Send,
    requires workers { (1 ≤ setting.workers) × (setting.workers ≤ 64) }
    requires burst { (1 ≤ setting.burst) × (setting.burst ≤ 256) }
    requires window { setting.window ≤ max_tick }
    requires not_ahead { IsNotAhead publisher executive }
    ensures run { IsRunBy M.meaning executive publisher result.0 result.1 }
{
    let nothing = Effort::nothing();
    let Ok(network) = Arc::try_clone(executive.network()) else {
        return given_up(SweepRefused::OutOfMemory, executive, publisher, nothing);
    };
    let exchange = match Exchange::new(alloc, executive, publisher) {
        Ok(exchange) => exchange,
        Err((executive, publisher, _)) => {
            return given_up(SweepRefused::OutOfMemory, executive, publisher, nothing);
        }
    };
    let cell = OnceLock::new();
    let (exchange, end, effort) = run_given::<M, Brand, G, R>(
        rt, alloc, network, exchange, setting, gate, &cell,
    );
    let (executive, publisher) = exchange.into_parts();
    match end {
        Some(Ok(end)) => ended(alloc, executive, end, publisher, effort),
        Some(Err(why)) => given_up(why, executive, publisher, effort),
        None => given_up(SweepRefused::OutOfMemory, executive, publisher, effort),
    }
}

/// A run that is over, and its publisher, which has posted just the executive's numbers. Where memory is refused for the trace it is
/// given up.
fn ended<M: Atomic>(
    alloc: Global,
    executive: Executive<M>,
    end: RunState,
    mut publisher: Publisher,
    effort: Effort,
) -> (Result<Outcome, RunFault<M>>, Publisher, Effort)
    requires not_ahead { IsNotAhead publisher executive }
    requires over { IsOver M.meaning executive end }
    ensures end { IfOk result.0 (IsEndOf M.meaning executive) }
    ensures err { IfErr result.0 (λ fault. fault.executive ≡ executive) }
    ensures why { IfErr result.0 (λ fault. fault.why ≡ refusal.OutOfMemory) }
    ensures board { result.1.board ≡ publisher.board }
    ensures numbers { result.1.numbers ≡ numbers_of executive.world }
{
    post(&mut publisher, &executive);
    match outcome_of(alloc, executive, end) {
        Ok(outcome) => (Ok(outcome), publisher, effort),
        Err(executive) => {
            let why = SweepRefused::OutOfMemory;
            (Err(RunFault { why, executive }), publisher, effort)
        }
    }
}

/// A run that is given up, and its publisher, which has posted just the executive's numbers.
fn given_up<M: Atomic>(
    why: SweepRefused,
    executive: Executive<M>,
    mut publisher: Publisher,
    effort: Effort,
) -> (Result<Outcome, RunFault<M>>, Publisher, Effort)
    requires { IsNotAhead publisher executive }
    ensures err { IsErrAnd result.0 (λ fault. fault.executive ≡ executive) }
    ensures why { IfErr result.0 (λ fault. fault.why ≡ why) }
    ensures board { result.1.board ≡ publisher.board }
    ensures numbers { result.1.numbers ≡ numbers_of executive.world }
{
    post(&mut publisher, &executive);
    (Err(RunFault { why, executive }), publisher, effort)
}

/// Runs what was handed in, and reads in the cell how the run has ended.
fn run_given<
    'c,
    M: Atomic + Send + Sync,
    H: Given<M> + Send + Sync,
    G: Gate + Sync,
    R: Threads + Wait + Sync,
>(
    rt: &R,
    alloc: Global,
    network: Arc<Network<M>>,
    exchange: Exchange<M>,
    setting: Setting,
    gate: &G,
    cell: &'c OnceLock<End>,
) -> (Exchange<M>, Option<End>, Effort)
where
    M::State: Send,
    M::Residue: Send,
    requires given { let e = exchange.executive in
        H.is_given e.network e.until exchange.publisher.board }
    requires begun { H.is_begun (reached exchange.executive.world) }
    requires only { IsOnly H.is_given (arc_value network) exchange.executive.until }
    requires cell { cell.now.id ≡ H.cell }
    ensures given { let e = result.0.executive in
        H.is_given e.network e.until result.0.publisher.board }
    ensures end { IfSome result.1 (HasEnded M.meaning result.0.executive) }
    ensures since { IsSince H.is_begun result.0.executive.world }
{
    let until = exchange.executive().until();
    let desk = match Desk::new(alloc, exchange, setting, cell) {
        Ok(desk) => desk,
        Err(exchange) => return (exchange, None, Effort::nothing()),
    };
    let shared: Shared<'c, M, H> = Shared {
        desk: Mutex::new(desk),
        changed: Condvar::new(),
        called: Condvar::new(),
        network,
        until,
    };
    let member = Member {
        shared: &shared,
        end: cell,
        gate: &*gate,
    };
    work_all(rt, &member, setting.workers);
    let Member {
        shared: _,
        end: _,
        gate: _,
    } = member;
    let Shared {
        desk,
        changed: _,
        called: _,
        network: _,
        until: _,
    } = shared;
    let (exchange, token, effort) = desk.into_inner().into_parts();
    let Some(token) = token else {
        return (exchange, None, effort);
    };
    let end = *cell.value(&token);
    (exchange, Some(end), effort)
}

/// Starts the workers, of which the calling thread is one, and waits for them.
fn work_all<'b, W: Worker + Sync, R: Threads + Wait + Sync>(rt: &'b R, worker: &'b W, workers: u64)
    requires { W.is_ready worker.now }
{
    thread::scope(
        thread::scope_env(),
        rt,
        move |scope|
            requires { W.is_ready worker.now }
        {
            for _ in 1..workers {
                // Who cannot be started is left out.
                let _ = scope.spawn(
                    move ||
                        requires { W.is_ready worker.now }
                    { worker.work(rt) },
                );
            }
            worker.work(rt)
        },
    );
}

/// One worker: takes an order under the lock, works it out apart from it, and hands it in under the lock, until the run has ended.
fn work<'c, M: Atomic, H: Given<M>, G: Gate, R: Wait>(
    rt: &R,
    shared: &Shared<'c, M, H>,
    end: &OnceLock<End>,
    gate: &G,
)
    requires { IsOnly H.is_given (arc_value shared.now.network) shared.now.until }
{
    let mut looks = Looks::new();
    shared.desk.lock(rt).join();
    let Some(mut order) = next_order(rt, shared, end, &mut looks, None) else {
        return;
    };
    for _ in rt.forever() {
        let model = shared.network.model(order.component());
        let prepareds = compute(order, model, gate);
        let Some(next) = next_order(rt, shared, end, &mut looks, Some(prepareds)) else {
            return;
        };
        order = next;
    }
    unreachable!()
}

/// Hands in what was worked out, if anything was, and waits for an order. None where the run has ended: then what was worked out is let
/// go, and the lock is not asked for where the end is written already. Who ends the run wakes all the others before it lets go of the
/// lock, since those who leave without the lock wake nobody.
fn next_order<'c, M: Atomic, H: Given<M>, R: Wait>(
    rt: &R,
    shared: &Shared<'c, M, H>,
    end: &OnceLock<End>,
    looks: &mut Looks,
    done: Option<Prepareds<M>>,
) -> Option<Order<M>>
    requires only { IsOnly H.is_given (arc_value shared.now.network) shared.now.until }
    requires made { let n = arc_value shared.now.network in
        IfSome done (IsMadeFor M.meaning M.undone n shared.now.until) }
    ensures { let n = arc_value shared.now.network in
        IfSome result (IsDue M.valid M.meaning n shared.now.until) }
{
    if end.get().is_some() {
        if let Some(prepareds) = done {
            prepareds.give_up();
        }
        return None;
    }
    let mut desk = lock_soon(rt, &shared.desk, looks);
    if let Some(prepareds) = done {
        desk.hand_in(prepareds);
    }
    desk = take_turns(rt, shared, looks, desk);
    let mut idled = 0;
    for _ in rt.forever() {
        if desk.is_over() {
            shared.changed.notify_all();
            shared.called.notify_all();
            return None;
        }
        if let Some(order) = desk.draw() {
            if desk.wants_more_workers() {
                shared.changed.notify_one();
            }
            return Some(order);
        }
        if desk.is_over() {
            continue;
        }
        if desk.has_order_once_raised() {
            desk.raise();
        } else if desk.is_idle() {
            desk.sweep_and_look();
        } else {
            desk = wait_for_change(rt, shared, desk, idled);
            idled = idled.saturating_add(1);
        }
    }
    unreachable!()
}

/// Waits until something may have changed: looks again at first, and then sleeps.
fn wait_for_change<'a, 'c, M: Atomic, H: Given<M>, R: Wait>(
    rt: &R,
    shared: &'a Shared<'c, M, H>,
    mut desk: MutexGuard<'a, Desk<'c, M, H>>,
    idled: u64,
) -> MutexGuard<'a, Desk<'c, M, H>> {
    if idled < IDLE_LOOKS {
        drop(desk);
        pause(IDLE_PAUSE);
        return lock_soon(rt, &shared.desk, &mut Looks::new());
    }
    desk.fall_asleep();
    desk = shared.changed.wait(rt, desk);
    desk.wake_up();
    desk
}

/// From time to time a worker looks at how often another one had the lock: it steps back where that was nearly always so, until it is
/// called, and calls one that stepped back where that was seldom so.
fn take_turns<'a, 'c, M: Atomic, H: Given<M>, R: Wait>(
    rt: &R,
    shared: &'a Shared<'c, M, H>,
    looks: &mut Looks,
    mut desk: MutexGuard<'a, Desk<'c, M, H>>,
) -> MutexGuard<'a, Desk<'c, M, H>> {
    let Some(seen) = looks.look_back() else {
        return desk;
    };
    if desk.step_back(seen) {
        // Those that sleep may be the only ones left.
        shared.changed.notify_one();
        desk = shared.called.wait(rt, desk);
        desk.come_back();
    } else if desk.call(seen) {
        shared.called.notify_one();
    }
    desk
}

/// Takes the lock. It looks a while before it sleeps: who holds it soon lets go.
fn lock_soon<'a, T, R: Wait>(rt: &R, lock: &'a Mutex<T>, looks: &mut Looks) -> MutexGuard<'a, T> {
    if let Some(guard) = lock.try_lock() {
        looks.note(false);
        return guard;
    }
    looks.note(true);
    for _ in 0..LOOKS {
        pause(PAUSE);
        if let Some(guard) = lock.try_lock() {
            return guard;
        }
    }
    lock.lock(rt)
}

/// Lets a moment pass.
fn pause(length: u64) {
    for _ in 0..length {
        spin_loop();
    }
}
