//! Which of so many comes next.

ghost use Rattle.std.specs.Prelude.{◌≡◌, ◌↔◌, ◌<◌, ◌≤◌, None, Some, IsTrue, IfOk, IfSome, length, replicate, slice_get, slice_set};
ghost use Rattle.tw_exchange.specs.Agenda.{mark, AllLate, IsLeast};
ghost use Rattle.tw_vtime.specs.Stamps.{never};

use std::alloc::{AllocError, Global};
use std::marker::Model;
use tw_tournament::Tournament;
use tw_vtime::Stamp;

/// Of each component a stamp, or `None` where it has left; and the least of those that stand here, by stamp and then number. Once made
/// it takes no memory.
#[derive(Drop)]
pub(crate) struct Agenda {
    stamps: Vec<Option<Stamp>>,
    // The stamps of those that stand here; the end for one that has left.
    times: Tournament,
}

impl Model for Agenda {
    ghost use Rattle.std.specs.Prelude.{ℕ, List, Option};
    ghost use Rattle.tw_exchange.specs.Agenda.{IsIndexed};

    ghost Value = { List (Option ℕ) };

    ghost view = { λ a. a.stamps.items };

    ghost invariant = { λ a. IsIndexed a.stamps.items a.times.times };
}

impl Agenda {
    /// So many components, all of which have left.
    pub(crate) fn new(alloc: Global, count: usize) -> Result<Agenda, AllocError>
        requires { count ≤ 4294967296 }
        ensures { IfOk result (λ a. a ≡ replicate count None) }
    {
        let stamps = Vec::from_elem(alloc, None, count)?;
        let times = Tournament::new(alloc, count)?;
        Ok(Agenda { stamps, times })
    }

    /// How many components there are.
    pub(crate) fn len(&self) -> usize
        ensures { result ≡ length self.now }
    {
        self.stamps.len()
    }

    /// Whether a component has left.
    pub(crate) fn is_out(&self, component: usize) -> bool
        requires { component < length self.now }
        ensures { slice_get self.now component ≡ Some None ↔ IsTrue result }
    {
        self.stamps[component].is_none()
    }

    /// A component stands here at this stamp.
    pub(crate) fn put(&mut self, component: usize, stamp: Stamp)
        requires { component < length self.old }
        ensures { self.new ≡ slice_set self.old component (Some stamp) }
    {
        self.times.set(component, stamp);
        self.stamps[component] = Some(stamp);
    }

    /// A component leaves.
    pub(crate) fn take_out(&mut self, component: usize)
        requires { component < length self.old }
        ensures { self.new ≡ slice_set self.old component None }
    {
        self.times.set(component, Stamp::END);
        self.stamps[component] = None;
    }

    /// A component stands here at the start, or leaves.
    pub(crate) fn mark(&mut self, component: usize, marked: bool)
        requires { component < length self.old }
        ensures { self.new ≡ slice_set self.old component (mark marked) }
    {
        if marked {
            self.put(component, Stamp::START);
        } else {
            self.take_out(component);
        }
    }

    /// The least of those that stand here before the end, with its stamp.
    pub(crate) fn first(&self) -> Option<(Stamp, usize)>
        ensures least { IfSome result (λ first. IsLeast self.now first.0 first.1) }
        ensures before_end { IfSome result (λ first. first.0 < never) }
        ensures none { result ≡ None → AllLate self.now }
    {
        self.times.first()
    }
}
