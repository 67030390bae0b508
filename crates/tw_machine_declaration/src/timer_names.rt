//! The numbers of the names that timers have behind a machine's own.

ghost use Rattle.std.specs.Prelude.{◌≤◌, ◌+◌, ◌^◌};
ghost use Rattle.tw_machine_declaration.specs.Limits.{max_timer_names};

use crate::limits::MAX_TIMER_NAMES;
use tw_machine_text::{OWN_NAMES, Timing};

/// The numbers of the hidden names of a machine with timers, one behind another.
#[derive(Clone, Copy)]
pub struct TimerNames {
    /// The number of the first of them, behind all names that the machine's texts may have.
    pub first: usize,
    /// How many entries `timers` has, at most 16.
    pub timers: usize,
    pub ghost small: { first ≤ 2 ^ 63 + 65 },
    pub ghost few: { timers ≤ max_timer_names },
}

impl TimerNames {
    ghost use Rattle.std.specs.Prelude.{◌≡◌, ◌≤◌, ◌+◌, ◌^◌, suc};
    ghost use Rattle.tw_machine_declaration.specs.Timed.{
      before_name,
      due_name,
      greatest_name,
      names_behind,
      next_name,
      ports_name,
      timing,
      values_name,
    };
    ghost use Rattle.tw_machine_declaration.specs.TimedViews.{named};

    /// The names behind so many that a machine declares, its timers among them. It has at most 16 timers; more count as
    /// that.
    pub fn new(declared: usize, timers: usize) -> TimerNames
        requires { declared ≤ 2 ^ 63 + 48 }
        ensures { named result ≡ names_behind declared timers }
    {
        TimerNames {
            first: OWN_NAMES + declared,
            timers: timers.min(MAX_TIMER_NAMES),
        }
    }

    /// The name of the ticks at which timers are due.
    pub(crate) fn due(self) -> usize
        ensures { result ≡ due_name (named self) }
    {
        self.first
    }

    /// The name of the timer that goes next.
    pub(crate) fn next(self) -> usize
        ensures { result ≡ next_name (named self) }
    {
        self.first + 1
    }

    /// The name of how many timers are before the one at a place in the file; behind the last, of how many there are.
    pub fn before(self, timer: usize) -> usize
        ensures { result ≡ before_name (named self) timer }
    {
        self.first + 3 + 2 * timer.min(self.timers)
    }

    /// The same of the timer behind the one at a place.
    pub(crate) fn behind(self, timer: usize) -> usize
        ensures { result ≡ before_name (named self) (suc timer) }
    {
        self.before(timer.saturating_add(1))
    }

    /// The name of the greatest index of the timer at a place in the file.
    pub fn greatest(self, timer: usize) -> usize
        ensures { result ≡ greatest_name (named self) timer }
    {
        self.first + 4 + 2 * timer.min(self.timers)
    }

    /// The name of the queue of the ports on which something is to be sent.
    pub fn ports(self) -> usize
        ensures { result ≡ ports_name (named self) }
    {
        self.first + 4 + 2 * self.timers
    }

    /// The name of the queue of the values that are to be sent.
    pub(crate) fn values(self) -> usize
        ensures { result ≡ values_name (named self) }
    {
        self.first + 5 + 2 * self.timers
    }

    /// The names for the texts' reader, where a text is of the timer that has so many before it by this name, or of none.
    pub fn timing(self, of: Option<usize>) -> Timing
        ensures { result ≡ timing (named self) of }
    {
        Timing {
            due: self.due(),
            next: self.next(),
            least: self.first + 2,
            ports: self.ports(),
            values: self.values(),
            of,
        }
    }
}
