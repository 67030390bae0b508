//! The actions.

ghost use Rattle.std.specs.Prelude.{◌≡◌, ◌≢◌, ◌↔◌, ◌++◌, None, IfOk, IfErr, IsErrOf, OnOk};
ghost use Rattle.tw_exec.specs.Actions.{reason};
ghost use Rattle.tw_exec.specs.Running.{IsDelivery, WantsRoom, IsActed};
ghost use Rattle.tw_exec.specs.declared.refused.Refused.TheVariants as refused;
ghost use Rattle.tw_theory.specs.Bundles.{antis};
ghost use Rattle.tw_theory.specs.Contents.{settle};
ghost use Rattle.tw_theory.specs.Executive.{Back, Deliver, Harvest, Post, Raise, Step};
ghost use Rattle.tw_theory.specs.Memory.{TakesMemory};

use crate::executive::Executive;
use crate::refused::Refused;
use std::alloc::AllocError;
use tw_actions::{Action, Done};
use tw_atomic::Atomic;
use tw_fossils::harvest;
use tw_gvt::least_of;
use tw_msgs::{Item, Message, Sign};
use tw_process::{Cancel, Process};
use tw_rollback::{back_to, receive};
use tw_vtime::Stamp;

impl<M: Atomic> Executive<M> {
    /// Takes an action, and answers what came of it.
    ///
    /// Refused exactly where there is no such component or item (15), where no step of the component is before the end tick (16), and
    /// where Back would go before global virtual time (14). Else where its step would pass a limit (2, 3); for want of nodes (12)
    /// where the lists of its process would have more than 1,048,576, Deliver exactly then; and for want of memory (4), which can
    /// come of Step in place of 2, 3 and 12, and never of Back and Raise, which take none. A Harvest that would commit the record
    /// after 18,446,744,073,709,551,615 of them would be answered by 4 too; no run comes so far. A refused action changes nothing: the item
    /// of a refused Deliver keeps its place.
    pub fn act(&mut self, action: Action) -> Result<Done, Refused>
        ensures acted { IsActed M.meaning action self.old result self.new }
        ensures limit { IsDelivery action
            → (WantsRoom M.meaning action self.old ↔ IsErrOf result refused.Full) }
        ensures memory { IfErr result (λ why. reason why ≡ None → TakesMemory action) }
    {
        match action {
            Action::Step(component) => self.step(component),
            Action::Post(component) => self.post(component),
            Action::Deliver(receiver, place) => self.deliver(receiver, place),
            Action::Back(component, stamp) => self.back(component, stamp),
            Action::Raise => Ok(self.raise()),
            Action::Harvest(component) => self.harvest(component),
        }
    }

    /// The next step of a component is made.
    fn step(&mut self, component: usize) -> Result<Done, Refused>
        ensures acted { IsActed M.meaning (Step component) self.old result self.new }
    {
        if component >= self.processes.len() {
            return Err(Refused::NoSuch);
        }
        let process = &mut self.processes[component];
        if process.next() >= self.end {
            return Err(Refused::NothingDue);
        }
        let (stamp, kind) = process.step()?;
        Ok(Done::Stepped(stamp, kind))
    }

    /// What a component sends goes to the mailboxes.
    fn post(&mut self, component: usize) -> Result<Done, Refused>
        ensures acted { IsActed M.meaning (Post component) self.old result self.new }
    {
        if component >= self.processes.len() {
            return Err(Refused::NoSuch);
        }
        let process = &mut self.processes[component];
        let items = to_post(process)?;
        self.mail.post(items.as_slice())?;
        process.settle();
        process.clear_outgoing();
        Ok(Done::Posted(items.len() as u64))
    }

    /// A component receives an item of its mailbox; a refused one goes back to its place.
    fn deliver(&mut self, receiver: usize, place: usize) -> Result<Done, Refused>
        ensures acted { IsActed M.meaning (Deliver receiver place) self.old result self.new }
        ensures limit { WantsRoom M.meaning (Deliver receiver place) self.old
            ↔ IsErrOf result refused.Full }
    {
        if receiver >= self.processes.len() {
            return Err(Refused::NoSuch);
        }
        self.processes[receiver].count_law();
        let Some(item) = self.mail.take(receiver, place) else {
            return Err(Refused::NoSuch);
        };
        match receive(&mut self.processes[receiver], item) {
            Ok(came) => Ok(Done::Received(came)),
            Err((item, refused)) => {
                self.mail.put_back(receiver, place, item);
                Err(refused.into())
            }
        }
    }

    /// The steps of a component at or after a stamp are taken back.
    fn back(&mut self, component: usize, stamp: Stamp) -> Result<Done, Refused>
        ensures acted { IsActed M.meaning (Back component stamp) self.old result self.new }
        ensures known { IfErr result (λ why. reason why ≢ None) }
    {
        if component >= self.processes.len() {
            return Err(Refused::NoSuch);
        }
        if stamp < self.gvt {
            return Err(Refused::BeforeGvt);
        }
        let undone = back_to(&mut self.processes[component], stamp);
        Ok(Done::Undone(undone))
    }

    /// Global virtual time rises.
    fn raise(&mut self) -> Done
        ensures acted { IsActed M.meaning Raise self.old (Ok result) self.new }
    {
        let gvt = least_of(self.processes.as_slice(), &self.mail);
        self.gvt = gvt;
        Done::Raised(gvt)
    }

    /// The records of a component from before global virtual time go to its column.
    fn harvest(&mut self, component: usize) -> Result<Done, Refused>
        ensures acted { IsActed M.meaning (Harvest component) self.old result self.new }
    {
        if component >= self.processes.len() {
            return Err(Refused::NoSuch);
        }
        let count = self.processes[component].steps_before(self.gvt);
        let Some(records) = self.records.checked_add(count as u64) else {
            return Err(Refused::OutOfMemory);
        };
        let column = &mut self.columns[component];
        let committed = harvest(&mut self.processes[component], column, self.gvt)?;
        self.records = records;
        Ok(Done::Harvested(committed))
    }
}

/// What a post of a process moves: the outgoing items, and behind them the anti-messages of what is owed from before
/// its next step. It is refused for want of memory alone (4).
pub fn to_post<M: Atomic>(process: &Process<M>) -> Result<Vec<Item>, AllocError>
    ensures { IfOk result (λ items. items.items ≡ (settle process.now.process).outgoing) }
{
    let mut items = process.lists().outgoing()?;
    match process.cancel() {
        Cancel::Aggressive => Ok(items),
        Cancel::Lazy => {
            let overdue = process.lists().overdue(process.next())?;
            push_antis(&mut items, overdue.as_slice())?;
            Ok(items)
        }
    }
}

/// The anti-messages of messages go to the end of a list.
fn push_antis(items: &mut Vec<Item>, messages: &[Message]) -> Result<(), AllocError>
    ensures { OnOk result (items.new.items ≡ items.old.items ++ antis messages.now) }
{
    for message in messages {
        items.push(Item {
            sign: Sign::Anti,
            message: *message,
        })?;
    }
    Ok(())
}
