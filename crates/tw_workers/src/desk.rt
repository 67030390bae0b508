//! What lies under the lock that workers share.

ghost use Rattle.std.specs.Prelude.{◌≡◌, ℕ, IfErr, IfOk, IfSome};
ghost use Rattle.atomic_table.specs.Seated.{TableId};
ghost use Rattle.tw_exchange.specs.Ends.{IsDue, IsMadeFor};
ghost use Rattle.tw_exchange.specs.Further.{reached, IsSince};
ghost use Rattle.tw_network.specs.Contents.{Contents};
ghost use Rattle.tw_workers.specs.Runs.{HasEnded};

use crate::crew::{Crew, Seen};
use crate::effort::Effort;
use crate::setting::Setting;
use crate::steering::{Ending, Pace, Window, tick_of};
use std::alloc::Global;
use std::marker::{Brand, Model, PhantomData};
use std::sync::{OnceLock, OnceToken};
use tw_actions::{Action, RunState};
use tw_atomic::Atomic;
use tw_chain::Cause;
use tw_exchange::{Exchange, Order, Prepareds, SweepRefused, find_end};
use tw_exec::{Executive, Refused};
use tw_process::{Finished, Stop};

// How many chains are handed in between two sweeps, at least; and as many as there are components, at each of which a sweep looks.
const CHAINS_BETWEEN_SWEEPS: u64 = 64;

/// How a run ended: over, or given up, and for which want.
pub(crate) type End = Result<RunState, SweepRefused>;

/// What was handed in: a network, an end tick and a board, and how far the executive had come; and the cell into which is written how
/// the run ended. Each run picks it, so that its workers know that what lies under their lock is of that network and until that tick,
/// and the run knows its board and its cell again, and that what was committed before is committed still.
pub(crate) trait Given<M> {
    ghost use Rattle.std.specs.Prelude.{ℕ};
    ghost use Rattle.atomic_table.specs.Seated.{TableId};
    ghost use Rattle.tw_exchange.specs.Further.{Reached};
    ghost use Rattle.tw_network.specs.Contents.{Contents};

    ghost is_given: { Contents M → ℕ → TableId → Type 0 };

    ghost is_begun: { Reached → Type 0 };

    ghost cell: { ℕ };
}

impl<M> Given<M> for Brand {
    ghost is_given = { λ n until board. Unit {0} };

    ghost is_begun = { λ from. Unit {0} };

    ghost cell = { 0 };
}

/// An exchange of what was handed in, and what shows how the run has ended, once it has.
///
/// Contracts see the exchange.
#[derive(Drop)]
pub(crate) struct Desk<'a, M: Atomic, H: Given<M>> {
    alloc: Global,
    exchange: Exchange<M>,
    setting: Setting,
    // How far each component may run ahead of its next step, and all of them of global virtual time.
    paces: Vec<Pace>,
    window: Window,
    // Who works, and what the run has spent.
    crew: Crew,
    effort: Effort,
    // How many orders are given out and not yet handed in.
    out: u64,
    // How many chains were handed in since the last sweep.
    handed_in: u64,
    // After how many chains it is swept.
    sweep_after: u64,
    // How the run ended is written there once, for all workers; and what shows that it was.
    cell: &'a OnceLock<End>,
    end: Option<OnceToken<'a, End>>,
    of: PhantomData<H>,
}

impl<'a, M: Atomic, H: Given<M>> Model for Desk<'a, M, H> {
    ghost use Rattle.std.specs.Prelude.{◌≡◌, IfSome};
    ghost use Rattle.tw_exchange.specs.Exchanged.{Exchanged};
    ghost use Rattle.tw_exchange.specs.Further.{IsSince};
    ghost use Rattle.tw_workers.specs.Runs.{HasEnded};

    ghost Value = { Exchanged M M.State };

    ghost view = { λ desk. desk.exchange };

    ghost invariant = { λ desk. H.is_given desk.exchange.executive.network
        desk.exchange.executive.until desk.exchange.publisher.board
        × IfSome desk.end (λ token. (token.of ≡ H.cell)
        × HasEnded M.meaning desk.exchange.executive token.value)
        × IsSince H.is_begun desk.exchange.executive.world × (desk.cell.now.id ≡ H.cell) };
}

impl<'a, M: Atomic, H: Given<M>> Desk<'a, M, H> {
    /// The exchange of what was handed in, before a run, and the cell for its end. Where memory is refused the exchange comes back.
    pub(crate) fn new(
        alloc: Global,
        exchange: Exchange<M>,
        setting: Setting,
        cell: &'a OnceLock<End>,
    ) -> Result<Desk<'a, M, H>, Exchange<M>>
        requires given { let e = exchange.executive in
            H.is_given e.network e.until exchange.publisher.board }
        requires begun { H.is_begun (reached exchange.executive.world) }
        requires cell { cell.now.id ≡ H.cell }
        ensures made { IfOk result (λ desk. desk ≡ exchange) }
        ensures handed_back { IfErr result (λ back. back ≡ exchange) }
    {
        let executive = exchange.executive();
        let window = Window::new(spread_of(executive), setting.window);
        let components = executive.network().len();
        let Ok(paces) = Vec::from_elem(alloc, Pace::new(), components) else {
            return Err(exchange);
        };
        Ok(Desk {
            alloc,
            exchange,
            setting,
            paces,
            window,
            crew: Crew::new(),
            effort: Effort::nothing(),
            out: 0,
            handed_in: 0,
            sweep_after: CHAINS_BETWEEN_SWEEPS.max(components as u64),
            cell,
            end: None,
            of: PhantomData,
        })
    }

    /// The exchange after a run, what shows how the run ended, and what it spent.
    pub(crate) fn into_parts(self) -> (Exchange<M>, Option<OnceToken<'a, End>>, Effort)
        ensures given { let e = result.0.executive in
            H.is_given e.network e.until result.0.publisher.board }
        ensures cell { IfSome result.1 (λ token. token.of ≡ H.cell) }
        ensures end { IfSome result.1
            (λ token. HasEnded M.meaning result.0.executive token.value) }
        ensures since { IsSince H.is_begun result.0.executive.world }
    {
        let Desk {
            alloc: _,
            mut exchange,
            setting: _,
            paces: _,
            window: _,
            crew: _,
            mut effort,
            out: _,
            handed_in: _,
            sweep_after: _,
            cell: _,
            end,
            of: _,
        } = self;
        effort.count_undone(exchange.take_undone());
        (exchange, end, effort)
    }

    /// A worker comes to the run.
    pub(crate) fn join(&mut self)
        ensures { self.new ≡ self.old }
    {
        self.crew.join();
    }

    /// A worker goes to sleep.
    pub(crate) fn fall_asleep(&mut self)
        ensures { self.new ≡ self.old }
    {
        self.crew.fall_asleep();
        self.effort.slept = self.effort.slept.saturating_add(1);
    }

    /// A worker has slept.
    pub(crate) fn wake_up(&mut self)
        ensures { self.new ≡ self.old }
    {
        self.crew.wake_up();
    }

    /// Whether a worker sleeps for which there is something to do.
    pub(crate) fn wants_more_workers(&self) -> bool {
        self.crew.has_sleeper() && self.has_order()
    }

    /// Whether a worker that saw this of the lock steps back.
    pub(crate) fn step_back(&mut self, seen: Seen) -> bool
        ensures { self.new ≡ self.old }
    {
        let steps_back = self.end.is_none() && self.crew.step_back(seen);
        if steps_back {
            self.effort.stepped_back = self.effort.stepped_back.saturating_add(1);
        }
        steps_back
    }

    /// One that stepped back works again.
    pub(crate) fn come_back(&mut self)
        ensures { self.new ≡ self.old }
    {
        self.crew.come_back();
    }

    /// Whether a worker that saw this of the lock calls one that stepped back.
    pub(crate) fn call(&mut self, seen: Seen) -> bool
        ensures { self.new ≡ self.old }
    {
        self.crew.call(seen)
    }

    /// Whether the run has ended.
    pub(crate) fn is_over(&self) -> bool {
        self.end.is_some()
    }

    /// Whether no order is given out.
    pub(crate) fn is_idle(&self) -> bool {
        self.out == 0
    }

    /// Whether an order can be given out.
    pub(crate) fn has_order(&self) -> bool {
        self.exchange.next(self.window.ticks()).is_some()
    }

    /// Whether there were an order if global virtual time rose, where nothing is in transit.
    pub(crate) fn has_order_once_raised(&self) -> bool {
        let Some(first) = self.exchange.next(self.window.greatest()) else {
            return false;
        };
        let executive = self.exchange.executive();
        let least = tick_of(self.exchange.least_next());
        if first >= executive.network().len() || least <= tick_of(executive.gvt()) {
            return false;
        }
        let edge = least.saturating_add(self.window.ticks());
        tick_of(executive.contents(first).next()) <= edge
    }

    /// Gives out an order. None where there is nothing to be given out, or where memory for it is refused; then it sweeps, and where
    /// that brings global virtual time no further, the run has ended.
    pub(crate) fn draw(&mut self) -> Option<Order<M>>
        ensures due { let e = self.old.executive in
            IfSome result (IsDue M.valid M.meaning e.network e.until) }
        ensures given { let e = self.old.executive in
            H.is_given e.network e.until self.old.publisher.board }
    {
        let reach = self.begin();
        self.give_out(reach)
    }

    /// Gives out the component that comes next, for as much as it may go.
    fn give_out(&mut self, reach: u64) -> Option<Order<M>>
        ensures due { let e = self.old.executive in
            IfSome result (IsDue M.valid M.meaning e.network e.until) }
        ensures given { let e = self.old.executive in
            H.is_given e.network e.until self.old.publisher.board }
    {
        let window = self.window.ticks();
        match self.exchange.draw_near(self.setting.burst, window, reach) {
            Ok(Some(order)) => {
                self.out = self.out.saturating_add(1);
                Some(order)
            }
            Ok(None) => None,
            Err(_) => {
                self.make_room();
                None
            }
        }
    }

    /// Looks at the component that comes next, and answers how far it may go. Where there is none, it is noted whether there were one
    /// in a wider window, which then becomes wider at once where little was lost.
    fn begin(&mut self) -> u64
        ensures { self.new ≡ self.old }
    {
        let Some(component) = self.exchange.next(self.window.ticks()) else {
            if self.out > 0 && self.exchange.next(self.window.greatest()).is_some() {
                self.window.was_in_the_way();
                self.window.steer();
            }
            return 0;
        };
        let executive = self.exchange.executive();
        if component >= executive.network().len() {
            return 0;
        }
        let process = executive.contents(component);
        let (next, last) = (process.next(), process.last());
        match self.paces.get_mut(component) {
            Some(pace) => {
                pace.begin(next, last);
                pace.reach()
            }
            None => 0,
        }
    }

    /// Hands in what was worked out from an order, and passes on what was sent, so that no component runs ahead of a message on its
    /// way to it; or sweeps where that is due, after so many chains. Once the run has ended neither is done any more.
    pub(crate) fn hand_in(&mut self, prepareds: Prepareds<M>)
        requires { (n : Contents M) (until : ℕ) (board : TableId) → H.is_given n until board
            → IsMadeFor M.meaning M.undone n until prepareds }
    {
        let component = prepareds.component();
        let Some(stop) = self.take_in(prepareds) else {
            return;
        };
        match stop {
            Stop::Ended(Cause::All) | Stop::Stale => self.go_on(),
            Stop::Ended(Cause::Limit) => {
                self.go_on();
                self.look_at(component);
            }
            Stop::Ended(Cause::OutOfMemory) | Stop::OutOfMemory => self.make_room(),
            Stop::Full => self.free_nodes(component),
        }
    }

    /// Passes on what was sent, or sweeps where that is due.
    fn go_on(&mut self) {
        if self.handed_in >= self.sweep_after {
            self.sweep();
        } else {
            self.pass_on();
        }
    }

    /// A component has met a limit: where nothing else comes before its next step, that is the end of the run.
    fn look_at(&mut self, component: usize) {
        self.raise();
        let executive = self.exchange.executive();
        if component < executive.network().len()
            && executive.contents(component).next() == executive.gvt()
        {
            self.sweep_and_look();
        }
    }

    /// Hands in what was worked out from an order. Answers why it went no further. Once the run has ended nothing is handed in any more.
    fn take_in(&mut self, prepareds: Prepareds<M>) -> Option<Stop>
        requires { (n : Contents M) (until : ℕ) (board : TableId) → H.is_given n until board
            → IsMadeFor M.meaning M.undone n until prepareds }
    {
        self.out = self.out.saturating_sub(1);
        self.handed_in = self.handed_in.saturating_add(1);
        if self.end.is_some() {
            prepareds.give_up();
            return None;
        }
        let (component, made) = (prepareds.component(), prepareds.len());
        let Ok(finished) = self.exchange.finish(prepareds) else {
            return None;
        };
        self.learn(component, made, finished);
        Some(finished.stop)
    }

    /// Learns from what became of a chain of so many steps of a component how far it may go, and the run.
    fn learn(&mut self, component: usize, made: usize, finished: Finished)
        ensures { self.new ≡ self.old }
    {
        let executive = self.exchange.executive();
        if component >= executive.network().len() {
            return;
        }
        let Some(pace) = self.paces.get_mut(component) else {
            return;
        };
        let process = executive.contents(component);
        let next = process.next();
        let edge = tick_of(executive.gvt()).saturating_add(self.window.ticks());
        let all = finished.stop == Stop::Ended(Cause::All);
        let ending = Ending {
            made: made as u64,
            installed: finished.installed as u64,
            at_bound: all
                && tick_of(next) < executive.until()
                && (pace.reach() == 0 || made < self.setting.burst),
            next,
            last: process.last(),
            at_edge: tick_of(next) > edge,
        };
        if pace.end(&ending) {
            self.window.was_in_the_way();
        }
        let lost = ending.made.saturating_sub(ending.installed);
        self.effort.count_chain(ending.installed, lost);
        self.window
            .count(ending.installed, lost, process.lists().pending_len());
    }

    /// Posts and delivers what is in transit. Where that is refused it sweeps: for want of memory as for any other; for want of nodes
    /// the sweep delivers the rest, or is refused as well.
    fn pass_on(&mut self) {
        if self.end.is_some() {
            return;
        }
        match self.exchange.settle() {
            Ok(()) => {}
            Err(SweepRefused::OutOfMemory) => self.make_room(),
            Err(SweepRefused::Full) => self.sweep_and_look(),
        }
    }

    /// Sweeps because memory was refused: what is committed frees some. Where that brings global virtual time no further, the run has
    /// ended.
    fn make_room(&mut self) {
        if self.sweep_in_vain() {
            self.end_as(Err(SweepRefused::OutOfMemory));
        }
    }

    /// Sweeps because a component has used up its nodes: what is committed frees some. Where that brings global virtual time no
    /// further, its step is tried once more.
    fn free_nodes(&mut self, component: usize) {
        if self.sweep_in_vain() {
            self.try_step(component);
        }
    }

    /// Sweeps, and looks whether the run has ended. Answers whether it has not, and global virtual time came no further.
    fn sweep_in_vain(&mut self) -> bool {
        let before = self.exchange.executive().gvt();
        self.sweep_and_look();
        self.end.is_none() && self.exchange.executive().gvt() == before
    }

    /// The executive makes the next step of a component itself. Where that is refused for want of nodes, or of memory, the run has
    /// ended.
    fn try_step(&mut self, component: usize) {
        if self.end.is_some() {
            return;
        }
        match self.exchange.act(Action::Step(component)) {
            Err(Refused::Full) => self.end_as(Err(SweepRefused::Full)),
            Err(Refused::OutOfMemory) => self.end_as(Err(SweepRefused::OutOfMemory)),
            _ => {}
        }
    }

    /// Writes down how the run has ended. Nobody else writes there; an end that were refused would be found again.
    fn end_as(&mut self, end: End)
        requires { HasEnded M.meaning self.old.executive end }
        ensures { self.new ≡ self.old }
    {
        let cell = self.cell;
        if let Ok(token) = cell.try_set(end) {
            self.end = Some(token);
        }
    }

    /// Raises global virtual time; nothing where the run has ended.
    pub(crate) fn raise(&mut self) {
        if self.end.is_some() {
            return;
        }
        let _ = self.exchange.raise();
    }

    /// Sweeps, and looks whether the run has ended, be it in a fault; nothing where it has.
    pub(crate) fn sweep_and_look(&mut self) {
        self.commit();
        self.look();
    }

    /// Sweeps. Where global virtual time has come to the end tick, the run has ended.
    fn sweep(&mut self) {
        self.commit();
        let executive = self.exchange.executive();
        if tick_of(executive.gvt()) >= executive.until() {
            self.look();
        }
    }

    /// Commits all that can be. Where that is refused, and global virtual time came no further, the run has ended.
    fn commit(&mut self) {
        if self.end.is_some() {
            return;
        }
        let before = self.exchange.executive().gvt();
        self.handed_in = 0;
        let undone = self.exchange.take_undone();
        self.effort.count_undone(undone);
        self.window.count(0, undone.steps, 0);
        self.window.steer();
        let Err(refused) = self.exchange.sweep() else {
            return;
        };
        if self.exchange.executive().gvt() == before {
            self.end_as(Err(refused));
        }
    }

    /// Looks whether the run has ended. For that a component which stands at global virtual time may have to make its step there, to see
    /// whether it meets a limit.
    fn look(&mut self) {
        if self.end.is_some() {
            return;
        }
        match find_end(&mut self.exchange) {
            Ok(Some(end)) => self.end_as(Ok(end)),
            Ok(None) => {}
            Err(_) => self.end_as(Err(SweepRefused::OutOfMemory)),
        }
    }
}

/// The least tick of all next steps.
fn least_tick<M: Atomic>(executive: &Executive<M>) -> u64 {
    let mut least = u64::MAX;
    for component in 0..executive.network().len() {
        least = tick_of(executive.contents(component).next()).min(least);
    }
    least
}

/// How many ticks lie between the least and the greatest next step of all components, the ends aside.
fn spread_of<M: Atomic>(executive: &Executive<M>) -> u64 {
    let mut greatest = 0;
    for component in 0..executive.network().len() {
        let next = executive.contents(component).next();
        if !next.is_end() {
            greatest = tick_of(next).max(greatest);
        }
    }
    greatest.saturating_sub(least_tick(executive))
}
