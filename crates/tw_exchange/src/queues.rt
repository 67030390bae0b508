//! What is kept up beside the executive, so that no component has to be looked for.

ghost use Rattle.std.specs.List.{AllByRecursion as Each};
ghost use Rattle.std.specs.Prelude.{◌≡◌, ◌<◌, ◌≤◌, IfOk, IfSome, IsTrue, None, length, replicate, slice_get, slice_set};
ghost use Rattle.tw_exchange.specs.Agenda.{AllLate};
ghost use Rattle.tw_exchange.specs.Exchanged.{busy_in};
ghost use Rattle.tw_exchange.specs.Queues.{box_mark, marked, next_mark, post_mark, AreMarked, AreMarkedBut, IsKept, IsKeptBut};
ghost use Rattle.tw_theory.specs.Executive.{mail_of};

use crate::agenda::Agenda;
use crate::idle::is_idle;
use crate::keeping::refresh;
use crate::undone::Undone;
use std::alloc::{AllocError, Global};
use tw_atomic::Atomic;
use tw_exec::Executive;
use tw_msgs::Item;
use tw_vtime::Stamp;

/// Who is free, who has something to post, and which mailboxes hold something. Once made it takes no memory.
#[derive(Drop)]
pub(crate) struct Queues {
    /// The components that are free, by their next steps.
    pub(crate) free: Agenda,
    /// The components of which something is to be posted, each at the start.
    pub(crate) posting: Agenda,
    /// The components whose mailboxes hold something, each at the start.
    pub(crate) delivering: Agenda,
    /// The components by their next steps, also those that are given out.
    pub(crate) standing: Agenda,
    /// What deliveries have taken back, for those who steer by it.
    pub(crate) undone: Undone,
}

impl Queues {
    /// Those of so many components, of which none is free, and nothing is to be posted or delivered.
    pub(crate) fn new(alloc: Global, count: usize) -> Result<Queues, AllocError>
        requires { count ≤ 4294967296 }
        ensures free { IfOk result (λ queues. queues.free ≡ replicate count None) }
        ensures posting { IfOk result (λ queues. queues.posting ≡ replicate count None) }
        ensures delivering { IfOk result (λ queues. queues.delivering ≡ replicate count None) }
        ensures standing { IfOk result (λ queues. queues.standing ≡ replicate count None) }
    {
        Ok(Queues {
            free: Agenda::new(alloc, count)?,
            posting: Agenda::new(alloc, count)?,
            delivering: Agenda::new(alloc, count)?,
            standing: Agenda::new(alloc, count)?,
            undone: Undone::nothing(),
        })
    }

    /// Whether nothing is to be posted or delivered.
    pub(crate) fn is_clear(&self) -> bool
        ensures clear { IsTrue result → AllLate self.now.posting × AllLate self.now.delivering }
        ensures some { AllLate self.now.posting → AllLate self.now.delivering → IsTrue result }
    {
        self.posting.first().is_none() && self.delivering.first().is_none()
    }

    /// A component's process has changed, or its mailbox.
    pub(crate) fn note<M: Atomic>(&mut self, executive: &Executive<M>, component: usize)
        requires near { component < length executive.now.network.models }
        requires but { IsKeptBut component self.old executive.now.world }
        ensures kept { IsKept self.new executive.now.world }
        ensures busy { busy_in self.new.free ≡ busy_in self.old.free }
    {
        refresh(&mut self.free, executive, component);
        self.note_marks(executive, component);
    }

    /// Whether a component has something to post, and its mailbox holds something, is looked at again, and its next step.
    pub(crate) fn note_marks<M: Atomic>(&mut self, executive: &Executive<M>, component: usize)
        requires near { component < length executive.now.network.models }
        requires but { AreMarkedBut component self.old executive.now.world }
        ensures marked { AreMarked self.new executive.now.world }
        ensures free { self.new.free ≡ self.old.free }
    {
        executive.facts();
        self.note_post(executive, component);
        self.note_box(executive, component);
        self.note_standing(executive, component);
    }

    /// That of every component is.
    pub(crate) fn note_all<M: Atomic>(&mut self, executive: &Executive<M>)
        requires posting { length self.old.posting ≡ length executive.now.network.models }
        requires delivering { length self.old.delivering ≡ length executive.now.network.models }
        requires standing { length self.old.standing ≡ length executive.now.network.models }
        ensures marked { AreMarked self.new executive.now.world }
        ensures free { self.new.free ≡ self.old.free }
    {
        executive.facts();
        for component in 0..executive.network().len() {
            self.note_post(executive, component);
            self.note_box(executive, component);
            self.note_standing(executive, component);
        }
    }

    /// Whether a component has something to post.
    fn note_post<M: Atomic>(&mut self, executive: &Executive<M>, component: usize)
        requires near { component < length executive.now.network.models }
        requires within { component < length self.old.posting }
        ensures posting { IfSome (slice_get executive.now.world.processes component)
            (λ p. self.new.posting ≡ slice_set self.old.posting component (post_mark p)) }
        ensures free { self.new.free ≡ self.old.free }
        ensures delivering { self.new.delivering ≡ self.old.delivering }
        ensures standing { self.new.standing ≡ self.old.standing }
    {
        executive.facts();
        let idle = is_idle(executive.contents(component));
        self.posting.mark(component, !idle);
    }

    /// Whether a component's mailbox holds something.
    fn note_box<M: Atomic>(&mut self, executive: &Executive<M>, component: usize)
        requires near { component < length executive.now.network.models }
        requires within { component < length self.old.delivering }
        ensures delivering { let mark = box_mark (mail_of executive.now.world.mail component) in
            self.new.delivering ≡ slice_set self.old.delivering component mark }
        ensures free { self.new.free ≡ self.old.free }
        ensures posting { self.new.posting ≡ self.old.posting }
        ensures standing { self.new.standing ≡ self.old.standing }
    {
        let empty = executive.mail(component).is_empty();
        self.delivering.mark(component, !empty);
    }

    /// The next step of a component.
    fn note_standing<M: Atomic>(&mut self, executive: &Executive<M>, component: usize)
        requires near { component < length executive.now.network.models }
        requires within { component < length self.old.standing }
        ensures standing { IfSome (slice_get executive.now.world.processes component)
            (λ p. self.new.standing ≡ slice_set self.old.standing component (next_mark p)) }
        ensures free { self.new.free ≡ self.old.free }
        ensures posting { self.new.posting ≡ self.old.posting }
        ensures delivering { self.new.delivering ≡ self.old.delivering }
    {
        self.standing
            .put(component, executive.contents(component).next());
    }

    /// These items were posted: the mailboxes of their receivers hold something.
    pub(crate) fn note_posted(&mut self, items: &[Item])
        requires { Each (λ i. i.message.to < length self.old.delivering) items.now }
        ensures delivering { self.new.delivering ≡ marked self.old.delivering items.now }
        ensures free { self.new.free ≡ self.old.free }
        ensures posting { self.new.posting ≡ self.old.posting }
        ensures standing { self.new.standing ≡ self.old.standing }
    {
        for item in items {
            self.delivering.put(item.message.to, Stamp::START);
        }
    }
}
