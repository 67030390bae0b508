//! Components given out, and handed in.

ghost use Rattle.std.specs.Prelude.{◌≡◌, ◌↔◌, ◌≤◌, false, IfOk, IfSome, IsErr, None, OnErr, OnOk, length, slice_set};
ghost use Rattle.tw_exchange.specs.Exchanged.{IsNearOrder, IsNext, IsOrder, NoneNext, bound_at, near_bound, near_burst, window_end, with_busy, IsGivenOut};
ghost use Rattle.tw_exec.specs.Chains.{IsInstalledOn};
ghost use Rattle.tw_theory.specs.Exchange.{bound_of};
ghost use Rattle.tw_vtime.specs.Stamps.{max_tick, stamp};
ghost use Rattle.tw_exchange.specs.Further.{ComesFurther};
ghost use Rattle.tw_exchange.specs.Ends.{AreAlikeIn};

use crate::exchange::Exchange;
use crate::keeping::free;
use crate::orders::{Order, Prepareds};
use crate::refused::NoSuch;
use std::alloc::AllocError;
use tw_atomic::Atomic;
use tw_process::Finished;
use tw_vtime::Stamp;

impl<M: Atomic> Exchange<M> {
    /// Gives out the component with the least (`next`, number) among those that are free, whose next step is before the end tick and
    /// at most `window` ticks after that of global virtual time. Its order is for at most `burst` steps, all before the end tick and
    /// within the window. It answers `None` exactly where there is no such component.
    ///
    /// Refused for want of memory (4); then nothing changes. A component that is not there would be answered by 4 too; none such is ever
    /// free. It costs as many steps as the logarithm of the number of components, beside the copies in the order.
    pub fn draw(&mut self, burst: usize, window: u64) -> Result<Option<Order<M>>, AllocError>
        ensures drawn { IfOk result (λ drawn. IfSome drawn (IsOrder window burst self.old)) }
        ensures given { IsGivenOut M.valid M.meaning window self.old self.new result }
    {
        self.executive.facts();
        let bound = bound_of(self.executive.until(), self.executive.gvt(), window);
        let Some(component) = self.next_before(bound, window) else {
            return Ok(None);
        };
        let Ok(start) = self.executive.start(component, bound, burst) else {
            return Err(AllocError);
        };
        self.queues.free.take_out(component);
        Ok(Some(Order { start }))
    }

    /// Gives out the same component for less: beside all that [`draw`](Exchange::draw) says, the steps of its order stand less than
    /// `reach` ticks after that of its next step; where `reach` is 0, it is for that step alone.
    ///
    /// Refused as there; then nothing changes.
    pub fn draw_near(
        &mut self,
        burst: usize,
        window: u64,
        reach: u64,
    ) -> Result<Option<Order<M>>, AllocError>
        ensures drawn { IfOk result
            (λ drawn. IfSome drawn (IsNearOrder window burst reach self.old)) }
        ensures given { IsGivenOut M.valid M.meaning window self.old self.new result }
    {
        self.executive.facts();
        let bound = bound_of(self.executive.until(), self.executive.gvt(), window);
        let Some(component) = self.next_before(bound, window) else {
            return Ok(None);
        };
        let next = self.executive.contents(component).next();
        let before = near_bound(reach, bound, next);
        let Ok(start) = self
            .executive
            .start(component, before, near_burst(reach, burst))
        else {
            return Err(AllocError);
        };
        self.queues.free.take_out(component);
        Ok(Some(Order { start }))
    }

    /// The component that [`draw`](Exchange::draw) gives out.
    pub fn next(&self, window: u64) -> Option<usize>
        ensures next { IfSome result (IsNext window self.now) }
        ensures none { result ≡ None → NoneNext window self.now }
    {
        self.executive.facts();
        let bound = bound_of(self.executive.until(), self.executive.gvt(), window);
        self.next_before(bound, window)
    }

    /// The component that is to be given out, where the window ends at a bound.
    fn next_before(&self, bound: Stamp, window: u64) -> Option<usize>
        requires { bound ≡ bound_at window self.now }
        ensures next { IfSome result (IsNext window self.now) }
        ensures none { result ≡ None → NoneNext window self.now }
    {
        self.executive.facts();
        let (next, component) = self.queues.free.first()?;
        if next >= bound {
            return None;
        }
        Some(component)
    }

    /// Hands in what was worked out from an order, by a model of the component's meaning: the steps that are the component's own next
    /// ones are made, as so many Step actions would, up to the first that is stale or for which room is refused, whoever acted since
    /// the order was drawn. The component is free again.
    ///
    /// Refused where there is no such component (15); then nothing changes, and the chain is given up.
    pub fn finish(&mut self, prepareds: Prepareds<M>) -> Result<Finished, NoSuch>
        requires limit { prepareds.run.start.micro_limit ≡ self.old.executive.network.micro_limit }
        requires bound { prepareds.run.start.before ≤ stamp self.old.executive.until 0 0 }
        requires alike { AreAlikeIn M.meaning M.undone self.old.executive.network prepareds }
        ensures installed { IfOk result
            (IsInstalledOn M.meaning prepareds self.old.executive self.new.executive) }
        ensures further { ComesFurther self.old.executive self.new.executive }
        ensures free { let component = prepareds.run.start.component in
            OnOk result (self.new.busy ≡ slice_set self.old.busy component false) }
        ensures publisher { self.new.publisher ≡ self.old.publisher }
        ensures no_such { let component = prepareds.run.start.component in
            IsErr result ↔ length self.old.executive.network.models ≤ component }
        ensures stays { OnErr result (self.new ≡ self.old) }
    {
        self.executive.facts();
        let Prepareds { chain } = prepareds;
        let component = chain.component();
        let Ok(finished) = self.executive.install(component, chain) else {
            return Err(NoSuch);
        };
        free(&mut self.queues.free, &self.executive, component);
        self.queues.note_marks(&self.executive, component);
        Ok(finished)
    }

    /// Gives an order back: its component is free again. An order of a component that is not here changes nothing.
    pub fn give_back(&mut self, order: Order<M>)
        ensures { self.new ≡ with_busy order.component false self.old }
    {
        let Order { start } = order;
        free(&mut self.queues.free, &self.executive, start.component());
    }
}

/// The stamp before which the steps of a component stand that is given out: the first of the tick after that of global virtual time
/// and the window, or the end tick's where that is before it.
fn bound_of(until: u64, gvt: Stamp, window: u64) -> Stamp
    requires { until ≤ max_tick }
    ensures { result ≡ bound_of until gvt window }
{
    let end = Stamp::new(until, 0, 0).unwrap();
    end.min(window_end(gvt, window))
}

/// The first stamp of the tick after a stamp's and the window, or the end where no stamp has that tick.
fn window_end(gvt: Stamp, window: u64) -> Stamp
    ensures { result ≡ window_end gvt window }
{
    if gvt.is_end() {
        return Stamp::END;
    }
    let tick = gvt.tick().saturating_add(window).saturating_add(1);
    Stamp::new(tick, 0, 0).unwrap_or(Stamp::END)
}

/// The stamp before which the steps of an order stand that reaches so far from the component's next step.
fn near_bound(reach: u64, bound: Stamp, next: Stamp) -> Stamp
    ensures { result ≡ near_bound reach bound next }
{
    bound.min(window_end(next, reach.saturating_sub(1)))
}

/// How many steps an order is for that reaches so far: with a reach of 0 one at most.
fn near_burst(reach: u64, burst: usize) -> usize
    ensures { result ≡ near_burst reach burst }
{
    if reach == 0 { burst.min(1) } else { burst }
}
