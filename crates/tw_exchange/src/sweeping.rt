//! All that is in transit posted and delivered, and all that can be committed committed.

ghost use Rattle.std.specs.Prelude.{◌≡◌, ◌<◌, [], IfErr, IfOk, IsOk, OnErr, OnOk, length, suc, true};
ghost use Rattle.tw_exchange.specs.Exchanged.{busy_in, posted};
ghost use Rattle.tw_exchange.specs.Queues.{IsElsewhereSame, IsKept, LooksSame};
ghost use Rattle.tw_exchange.specs.Sweeping.{deliveries_from, pass_of, passes_of, replayed, sweep_of, IsCutShort, IsUnderWay, IsWanting};
ghost use Rattle.tw_exec.specs.Running.{after, answer};
ghost use Rattle.tw_theory.specs.Exchange.{deliveries, harvests, is_swept, posts};
ghost use Rattle.tw_theory.specs.Executive.{mail_of, Post, Raise};
ghost use Rattle.tw_theory.specs.Memory.{TakesMemory};
ghost use Rattle.tw_exchange.specs.Further.{ComesFurther};

use crate::exchange::Exchange;
use crate::keeping::refresh;
use crate::posting::post;
use crate::queues::Queues;
use crate::refused::SweepRefused;
use crate::undone::Undone;
use tw_actions::Received;
use tw_atomic::Atomic;
use tw_exec::{Action, Done, Executive, Refused, to_post};
use tw_vtime::Stamp;

impl<M: Atomic> Exchange<M> {
    /// Posts what each component sends and delivers all that lies in mailboxes, again and again, until nothing is in transit and
    /// nothing owed is overdue: what a [`sweep`](Exchange::sweep) begins with. Nothing is committed, and nothing posted on the board.
    ///
    /// Refused for want of memory (4), or of nodes (12) where the lists of a process would have more than 1,048,576, at a post or a
    /// delivery; what was done before that stays done, and the next call, or a sweep, does the rest.
    pub fn settle(&mut self) -> Result<(), SweepRefused>
        ensures settled { let actions = passes_of M.meaning self.old.executive in
            OnOk result (self.new.executive ≡ replayed M.meaning actions self.old.executive) }
        ensures nothing_left { OnOk result (is_swept self.new.executive.world ≡ true) }
        ensures cut_short { let actions = passes_of M.meaning self.old.executive in
            IfErr result (IsCutShort M.meaning actions self.old.executive self.new.executive) }
        ensures further { ComesFurther self.old.executive self.new.executive }
        ensures publisher { self.new.publisher ≡ self.old.publisher }
        ensures busy { self.new.busy ≡ self.old.busy }
    {
        self.executive.facts();
        settle_all(&mut self.executive, &mut self.queues)
    }

    /// Posts what each component sends and delivers all that lies in mailboxes, again and again, until nothing is in transit and
    /// nothing owed is overdue; then raises global virtual time, and commits what is before it; then posts global virtual time and
    /// how many records are committed on the board. Answers global virtual time.
    ///
    /// Refused for want of memory (4), or of nodes (12) where the lists of a process would have more than 1,048,576, at an action that
    /// takes memory: a post, a delivery or a harvest, and never where global virtual time is to rise. What was done before that stays
    /// done, and nothing is posted on the board. It costs as many steps as there are components and items that move, and what these
    /// undo.
    pub fn sweep(&mut self) -> Result<Stamp, SweepRefused>
        ensures swept { let actions = sweep_of M.meaning self.old.executive in
            OnOk result (self.new.executive ≡ replayed M.meaning actions self.old.executive) }
        ensures gvt { IfOk result (λ gvt. gvt ≡ self.new.executive.world.gvt) }
        ensures cut_short { let actions = sweep_of M.meaning self.old.executive in
            IfErr result (IsCutShort M.meaning actions self.old.executive self.new.executive) }
        ensures further { ComesFurther self.old.executive self.new.executive }
        ensures posted { OnOk result
            (self.new.publisher ≡ posted self.new.executive self.old.publisher) }
        ensures not_posted { OnErr result (self.new.publisher ≡ self.old.publisher) }
        ensures busy { self.new.busy ≡ self.old.busy }
    {
        self.executive.facts();
        let gvt = sweep_all(&mut self.executive, &mut self.queues)?;
        post(&mut self.publisher, &self.executive);
        Ok(gvt)
    }

    /// Raises global virtual time, as the executive's own Raise does, and posts on the board how far it came. Nothing is committed.
    /// Answers global virtual time.
    ///
    /// It takes no memory, and costs as many steps as there are components.
    pub fn raise(&mut self) -> Stamp
        ensures raised { self.new.executive ≡ after M.meaning Raise self.old.executive }
        ensures gvt { result ≡ self.new.executive.world.gvt }
        ensures further { ComesFurther self.old.executive self.new.executive }
        ensures posted { self.new.publisher ≡ posted self.new.executive self.old.publisher }
        ensures busy { self.new.busy ≡ self.old.busy }
    {
        self.executive.facts();
        let _ = self.executive.act(Action::Raise);
        post(&mut self.publisher, &self.executive);
        self.executive.gvt()
    }
}

/// A sweep of an executive. Beside it is kept only who is given out.
fn sweep_all<M: Atomic>(
    executive: &mut Executive<M>,
    queues: &mut Queues,
) -> Result<Stamp, SweepRefused>
    requires { IsKept queues.old executive.old.world }
    ensures swept { let actions = sweep_of M.meaning executive.old in
        OnOk result (executive.new ≡ replayed M.meaning actions executive.old) }
    ensures gvt { IfOk result (λ gvt. gvt ≡ executive.new.world.gvt) }
    ensures cut_short { let actions = sweep_of M.meaning executive.old in
        IfErr result (IsCutShort M.meaning actions executive.old executive.new) }
    ensures kept { IsKept queues.new executive.new.world }
    ensures busy { busy_in queues.new.free ≡ busy_in queues.old.free }
{
    executive.facts();
    settle_all(executive, queues)?;
    executive.facts();
    take(executive, Action::Raise)?;
    harvest_all(executive)?;
    Ok(executive.gvt())
}

/// The passes of a sweep.
fn settle_all<M: Atomic>(
    executive: &mut Executive<M>,
    queues: &mut Queues,
) -> Result<(), SweepRefused>
    requires { IsKept queues.old executive.old.world }
    ensures settled { let actions = passes_of M.meaning executive.old in
        OnOk result (executive.new ≡ replayed M.meaning actions executive.old) }
    ensures nothing_left { OnOk result (is_swept executive.new.world ≡ true) }
    ensures cut_short { let actions = passes_of M.meaning executive.old in
        IfErr result (IsCutShort M.meaning actions executive.old executive.new) }
    ensures kept { IsKept queues.new executive.new.world }
    ensures busy { busy_in queues.new.free ≡ busy_in queues.old.free }
{
    executive.facts();
    while !queues.is_clear() {
        pass(executive, queues)?;
        executive.facts();
    }
    Ok(())
}

/// A post of each component, and a delivery of each item that lies in a mailbox then.
fn pass<M: Atomic>(executive: &mut Executive<M>, queues: &mut Queues) -> Result<(), SweepRefused>
    requires { IsKept queues.old executive.old.world }
    ensures done { let actions = pass_of M.meaning executive.old in
        OnOk result (executive.new ≡ replayed M.meaning actions executive.old) }
    ensures cut_short { let actions = pass_of M.meaning executive.old in
        IfErr result (IsCutShort M.meaning actions executive.old executive.new) }
    ensures kept { IsKept queues.new executive.new.world }
    ensures busy { busy_in queues.new.free ≡ busy_in queues.old.free }
{
    post_all(executive, queues)?;
    deliver_all(executive, queues)?;
    Ok(())
}

/// A post of each component: of those that have something to post. Another one's would do nothing.
fn post_all<M: Atomic>(
    executive: &mut Executive<M>,
    queues: &mut Queues,
) -> Result<(), SweepRefused>
    requires { IsKept queues.old executive.old.world }
    ensures done { let actions = posts 0 (length executive.old.world.processes) in
        OnOk result (executive.new ≡ replayed M.meaning actions executive.old) }
    ensures cut_short { let actions = posts 0 (length executive.old.world.processes) in
        IfErr result (IsCutShort M.meaning actions executive.old executive.new) }
    ensures kept { IsKept queues.new executive.new.world }
    ensures busy { busy_in queues.new.free ≡ busy_in queues.old.free }
{
    executive.facts();
    while let Some((_, sender)) = queues.posting.first() {
        post_one(executive, queues, sender)?;
        executive.facts();
    }
    Ok(())
}

/// A post of a component.
fn post_one<M: Atomic>(
    executive: &mut Executive<M>,
    queues: &mut Queues,
    sender: usize,
) -> Result<(), SweepRefused>
    requires near { sender < length executive.old.network.models }
    requires kept { IsKept queues.old executive.old.world }
    ensures done { OnOk result (executive.new ≡ after M.meaning (Post sender) executive.old) }
    ensures wanting { IfErr result (IsWanting M.meaning executive.old (Post sender)) }
    ensures stays { OnErr result (executive.new ≡ executive.old) }
    ensures kept { IsKept queues.new executive.new.world }
    ensures busy { busy_in queues.new.free ≡ busy_in queues.old.free }
{
    executive.facts();
    let Ok(items) = to_post(executive.contents(sender)) else {
        return Err(SweepRefused::OutOfMemory);
    };
    take(executive, Action::Post(sender))?;
    queues.note_posted(items.as_slice());
    queues.note(executive, sender);
    Ok(())
}

/// A delivery of each item that lies in a mailbox.
fn deliver_all<M: Atomic>(
    executive: &mut Executive<M>,
    queues: &mut Queues,
) -> Result<(), SweepRefused>
    requires { IsKept queues.old executive.old.world }
    ensures done { let actions = deliveries 0 executive.old.world.mail in
        OnOk result (executive.new ≡ replayed M.meaning actions executive.old) }
    ensures cut_short { let actions = deliveries 0 executive.old.world.mail in
        IfErr result (IsCutShort M.meaning actions executive.old executive.new) }
    ensures kept { IsKept queues.new executive.new.world }
    ensures busy { busy_in queues.new.free ≡ busy_in queues.old.free }
{
    executive.facts();
    while let Some((_, receiver)) = queues.delivering.first() {
        deliver_box(executive, queues, receiver)?;
        executive.facts();
    }
    Ok(())
}

/// A delivery of each item that lies in the mailbox of a component.
fn deliver_box<M: Atomic>(
    executive: &mut Executive<M>,
    queues: &mut Queues,
    receiver: usize,
) -> Result<(), SweepRefused>
    requires near { receiver < length executive.old.network.models }
    requires kept { IsKept queues.old executive.old.world }
    ensures done { let all = deliveries_from receiver executive.old in
        let left = deliveries_from (suc receiver) executive.new in
        OnOk result (IsUnderWay M.meaning all left executive.old executive.new) }
    ensures cut_short { let all = deliveries_from receiver executive.old in
        IfErr result (IsCutShort M.meaning all executive.old executive.new) }
    ensures emptied { OnOk result (mail_of executive.new.world.mail receiver ≡ []) }
    ensures elsewhere { IsElsewhereSame receiver executive.old.world executive.new.world }
    ensures kept { IsKept queues.new executive.new.world }
    ensures busy { busy_in queues.new.free ≡ busy_in queues.old.free }
{
    let delivered = deliver_to(executive, receiver, &mut queues.undone);
    queues.note(executive, receiver);
    delivered
}

/// A delivery of each item that lies in the mailbox of a component; those of the mailboxes behind it are left.
fn deliver_to<M: Atomic>(
    executive: &mut Executive<M>,
    receiver: usize,
    undone: &mut Undone,
) -> Result<(), SweepRefused>
    requires { receiver < length executive.old.network.models }
    ensures done { let all = deliveries_from receiver executive.old in
        let left = deliveries_from (suc receiver) executive.new in
        OnOk result (IsUnderWay M.meaning all left executive.old executive.new) }
    ensures cut_short { let all = deliveries_from receiver executive.old in
        IfErr result (IsCutShort M.meaning all executive.old executive.new) }
    ensures emptied { OnOk result (mail_of executive.new.world.mail receiver ≡ []) }
    ensures elsewhere { IsElsewhereSame receiver executive.old.world executive.new.world }
    ensures network { executive.new.network ≡ executive.old.network }
{
    executive.facts();
    while !executive.mail(receiver).is_empty() {
        let done = take(executive, Action::Deliver(receiver, 0))?;
        undone.count(undone_by(&done));
        executive.facts();
    }
    Ok(())
}

/// A harvest of each component.
fn harvest_all<M: Atomic>(executive: &mut Executive<M>) -> Result<(), SweepRefused>
    ensures done { let actions = harvests 0 (length executive.old.world.processes) in
        OnOk result (executive.new ≡ replayed M.meaning actions executive.old) }
    ensures cut_short { let actions = harvests 0 (length executive.old.world.processes) in
        IfErr result (IsCutShort M.meaning actions executive.old executive.new) }
    ensures looks { LooksSame executive.old.world executive.new.world }
{
    executive.facts();
    for component in 0..executive.network().len() {
        take(executive, Action::Harvest(component))?;
    }
    Ok(())
}

/// Takes an action of a sweep. None of these is refused but for want of memory or of nodes, and so none that takes no memory.
fn take<M: Atomic>(executive: &mut Executive<M>, action: Action) -> Result<Done, SweepRefused>
    ensures done { OnOk result (executive.new ≡ after M.meaning action executive.old) }
    ensures wanting { IfErr result (IsWanting M.meaning executive.old action) }
    ensures memory { IfErr result
        (λ why. IsOk (answer M.meaning action executive.old) → TakesMemory action) }
    ensures stays { OnErr result (executive.new ≡ executive.old) }
{
    match executive.act(action) {
        Ok(done) => Ok(done),
        Err(Refused::Full) => Err(SweepRefused::Full),
        Err(_) => Err(SweepRefused::OutOfMemory),
    }
}

/// How many steps an action took back, a delivery.
fn undone_by(done: &Done) -> u64 {
    match *done {
        Done::Received(Received::Straggler(count) | Received::Annihilated(count)) => count,
        _ => 0,
    }
}
