//! What a turn does with an exchange.

ghost use Rattle.std.specs.Prelude.{◌<◌, IfOk, IfSome, length};
ghost use Rattle.tw_exchange.specs.Ends.{IsDue};

use crate::desk::{Desk, Given, Kept};
use rand_core::SeedableRng;
use rand_core::utils::NextWord;
use rand_pcg::Pcg32;
use std::alloc::{AllocError, Global};
use tw_atomic::Atomic;
use tw_exec::{Executive, Refused};
use tw_inspect::{describe, report};
use tw_process::{Finished, Stop};
use tw_seeded::Schedule;
use tw_workers::{Order, State};

// For how many turns a chain is kept back at most.
const KEPT: u32 = 50;

// How many steps an order is for, and how far it reaches, is below these; and how many ticks ahead of global virtual time it may go
// is one of these.
const BURST: u32 = 16;

const REACH: u32 = 8;

const WINDOWS: [u64; 4] = [0, 3, 20, 1_000];

// What is told in place of a component where none comes next.
const NONE: usize = 1_000_000;

/// How much was done.
#[derive(Clone, Copy)]
pub(crate) struct Counts {
    pub(crate) turns: u64,
    pub(crate) orders: u64,
    pub(crate) steps: u64,
    pub(crate) stale: u64,
    pub(crate) given_back: u64,
}

impl Counts {
    /// Nothing was done.
    pub(crate) fn new() -> Counts {
        Counts {
            turns: 0,
            orders: 0,
            steps: 0,
            stale: 0,
            given_back: 0,
        }
    }

    /// Counts what became of a chain.
    fn count(&mut self, finished: Finished) {
        self.steps = self.steps.saturating_add(finished.installed as u64);
        if finished.stop == Stop::Stale {
            self.stale = self.stale.saturating_add(1);
        }
    }
}

/// An exchange, the chains and orders that are kept back from it, and the numbers of a seed.
pub(crate) struct Sharing<M: Atomic, H: Given<M>> {
    alloc: Global,
    desk: Desk<M, H>,
    kept: Vec<Kept<M, H>>,
    held: Vec<Order<M>>,
    random: Pcg32,
    schedule: Schedule,
    turn: u64,
    // How many draws that were given back left another text.
    changed: u64,
}

impl<M: Atomic, H: Given<M>> Sharing<M, H> {
    /// Nothing is kept back yet.
    pub(crate) fn new(alloc: Global, desk: Desk<M, H>, seed: u64) -> Sharing<M, H> {
        Sharing {
            alloc,
            desk,
            kept: Vec::new(alloc),
            held: Vec::new(alloc),
            random: Pcg32::seed_from_u64(u64::MAX - seed),
            schedule: Schedule::new(seed),
            turn: 0,
            changed: 0,
        }
    }

    /// A number below this one, which is not 0.
    fn below(&mut self, count: u32) -> u32
        requires { 0 < count }
        ensures { result < count }
    {
        self.random.next_word() % count
    }

    /// Takes a turn. Answers how the run stands where that was looked at.
    pub(crate) fn take_turn(&mut self, counts: &mut Counts) -> Result<Option<State>, AllocError> {
        self.turn = self.turn.saturating_add(1);
        counts.turns = counts.turns.saturating_add(1);
        if let Some(at) = self.overdue() {
            self.hand_in(at, counts);
            return Ok(None);
        }
        match self.below(16) {
            0 | 1 | 2 | 3 => self.keep_one(counts)?,
            4 => self.hold_one(counts)?,
            5 => self.look_twice(counts)?,
            6 => self.give_back_one(counts),
            7 | 8 | 9 => self.hand_in_one(counts),
            10 | 11 => self.pass_on()?,
            12 => return Ok(Some(self.desk.state()?)),
            _ => self.act()?,
        }
        Ok(None)
    }

    /// The place of a chain that is overdue.
    fn overdue(&self) -> Option<usize> {
        for at in 0..self.kept.len() {
            if self.kept[at].due() < self.turn {
                return Some(at);
            }
        }
        None
    }

    /// Gives out the component that comes next, by either call.
    fn draw(&mut self) -> Result<Option<Order<M>>, AllocError>
        ensures due { IfOk result (λ drawn. IfSome drawn (IsDue M.valid M.meaning H.network H.until)) }
    {
        let burst = self.below(BURST) as usize;
        let window = WINDOWS[self.below(4) as usize];
        let reach = u64::from(self.below(REACH));
        if self.below(4) == 0 {
            self.desk.draw_near(burst, window, reach)
        } else {
            self.desk.draw(burst, window)
        }
    }

    /// Works out an order of the component that comes next, and keeps the chain back.
    fn keep_one(&mut self, counts: &mut Counts) -> Result<(), AllocError> {
        let Some(order) = self.draw()? else {
            return Ok(());
        };
        counts.orders = counts.orders.saturating_add(1);
        let due = self.turn.saturating_add(u64::from(self.below(KEPT)));
        let kept = self.desk.work_out(order, due);
        match self.kept.push(kept) {
            Ok(()) => Ok(()),
            Err(failed) => {
                self.desk.hand_in(failed.value);
                Err(AllocError)
            }
        }
    }

    /// Keeps an order back that is not worked out.
    fn hold_one(&mut self, counts: &mut Counts) -> Result<(), AllocError> {
        let Some(order) = self.draw()? else {
            return Ok(());
        };
        counts.orders = counts.orders.saturating_add(1);
        match self.held.push(order) {
            Ok(()) => Ok(()),
            Err(failed) => {
                self.desk.give_back(failed.value);
                Err(AllocError)
            }
        }
    }

    /// Gives back the last order that is not worked out.
    fn give_back_one(&mut self, counts: &mut Counts) {
        if let Some(order) = self.held.pop() {
            self.desk.give_back(order);
            counts.given_back = counts.given_back.saturating_add(1);
        }
    }

    /// Gives out the component that comes next, and gives its order back: all must be seen as it was.
    fn look_twice(&mut self, counts: &mut Counts) -> Result<(), AllocError> {
        let before = self.seen()?;
        let looked = self.look_again(before.as_str(), counts);
        drop(before);
        looked
    }

    /// Gives out the component that comes next, and gives its order back: this text must be seen again.
    fn look_again(&mut self, before: &str, counts: &mut Counts) -> Result<(), AllocError> {
        let Some(order) = self.draw()? else {
            return Ok(());
        };
        self.desk.give_back(order);
        let after = self.seen()?;
        counts.given_back = counts.given_back.saturating_add(1);
        if before != after.as_str() {
            self.changed = self.changed.saturating_add(1);
        }
        Ok(())
    }

    /// All that is seen of the executive, and which components come next.
    fn seen(&self) -> Result<String, AllocError> {
        let mut text = seen(self.alloc, self.desk.executive())?;
        self.add_next(&mut text)?;
        Ok(text)
    }

    /// Adds which components come next.
    fn add_next(&self, text: &mut String) -> Result<(), AllocError> {
        for window in WINDOWS {
            let next = self.desk.next(window).unwrap_or(NONE);
            write!(text, "next {next}\n")?;
        }
        Ok(())
    }

    /// Hands in any of the chains that are kept back.
    fn hand_in_one(&mut self, counts: &mut Counts) {
        let count = self.kept.len();
        if count > 0 {
            let at = self.random.next_word() as usize % count;
            self.hand_in(at, counts);
        }
    }

    /// Hands in the chain at a place.
    fn hand_in(&mut self, at: usize, counts: &mut Counts) {
        if at >= self.kept.len() {
            return;
        }
        let kept = self.kept.swap_remove(at);
        if let Some(finished) = self.desk.hand_in(kept) {
            counts.count(finished);
        }
    }

    /// Settles, or sweeps.
    fn pass_on(&mut self) -> Result<(), AllocError> {
        let refused = if self.below(2) == 0 {
            self.desk.settle().is_err()
        } else {
            self.desk.sweep().is_err()
        };
        if refused { Err(AllocError) } else { Ok(()) }
    }

    /// Takes an action of the executive's own. It may be refused, for want of memory only where the program is to give up.
    fn act(&mut self) -> Result<(), AllocError> {
        let Some(action) = self.schedule.next_action(self.desk.executive()) else {
            return Ok(());
        };
        match self.desk.act(action) {
            Some(Refused::OutOfMemory) => Err(AllocError),
            _ => Ok(()),
        }
    }

    /// Hands in or gives back all that is kept back, and sweeps. Answers the executive, and how many draws that were given back
    /// changed something.
    pub(crate) fn end(self) -> (Executive<M>, u64) {
        let Sharing {
            alloc: _,
            mut desk,
            kept,
            held,
            random: _,
            schedule: _,
            turn: _,
            changed,
        } = self;
        hand_in_all(&mut desk, kept);
        give_back_all(&mut desk, held);
        let _ = desk.sweep();
        (desk.into_executive(), changed)
    }
}

/// Hands in all that is kept back.
fn hand_in_all<M: Atomic, H: Given<M>>(desk: &mut Desk<M, H>, mut kept: Vec<Kept<M, H>>) {
    while let Some(chain) = kept.pop() {
        desk.hand_in(chain);
    }
    kept.destroy_empty();
}

/// Gives all orders back.
fn give_back_all<M: Atomic, H: Given<M>>(desk: &mut Desk<M, H>, mut held: Vec<Order<M>>) {
    while let Some(order) = held.pop() {
        desk.give_back(order);
    }
    held.destroy_empty();
}

/// All that a user sees of an executive.
fn seen<M: Atomic>(alloc: Global, executive: &Executive<M>) -> Result<String, AllocError> {
    let mut text = report(alloc, executive)?;
    for component in 0..executive.network().len() {
        add_component(alloc, &mut text, executive, component)?;
    }
    Ok(text)
}

/// Adds what a user sees of a component.
fn add_component<M: Atomic>(
    alloc: Global,
    text: &mut String,
    executive: &Executive<M>,
    component: usize,
) -> Result<(), AllocError>
    requires { component < length executive.now.network.models }
{
    let own = describe(alloc, executive, component)?;
    text.push_str(own.as_str())
}
