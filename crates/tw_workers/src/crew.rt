//! Which workers of a run work, and which step back because the lock cannot serve them.

// How many turns at the lock a worker makes between two looks at how often it found it taken.
const TURNS: u64 = 128;

// How many looks of the others' pass, at first and at most, before one that stepped back is called again.
const LEAST_PATIENCE: u64 = 1;

const GREATEST_PATIENCE: u64 = 4_096;

/// How often a worker came to the lock since it last looked at that, and how often another one had it.
#[derive(Clone, Copy)]
pub(crate) struct Looks {
    turns: u64,
    taken: u64,
}

impl Looks {
    /// Of a worker that has not come to the lock yet.
    pub(crate) fn new() -> Looks {
        Looks { turns: 0, taken: 0 }
    }

    /// The worker came to the lock; and whether another one had it.
    pub(crate) fn note(&mut self, was_taken: bool) {
        self.turns = self.turns.saturating_add(1);
        if was_taken {
            self.taken = self.taken.saturating_add(1);
        }
    }

    /// What was seen in so many turns, once there are enough of them; then it begins anew.
    pub(crate) fn look_back(&mut self) -> Option<Seen> {
        if self.turns < TURNS {
            return None;
        }
        let seen = if self.taken > self.turns / 8 * 7 {
            Seen::Taken
        } else if self.taken < self.turns / 2 {
            Seen::Free
        } else {
            Seen::Between
        };
        *self = Looks::new();
        Some(seen)
    }
}

/// How a worker found the lock.
#[derive(Clone, Copy, Debug, PartialEq, Eq)]
pub(crate) enum Seen {
    /// Taken, in more than seven of eight turns.
    Taken,
    /// Taken, in less than half of the turns.
    Free,
    /// Neither.
    Between,
}

/// The workers of a run. One at least works at any time: the others step back where the lock is what they all wait for, so that many
/// workers are not much slower than one, and are called again where it is free.
#[derive(Clone, Copy)]
pub(crate) struct Crew {
    // How many work, those that sleep among them; how many sleep, because there is nothing to do for them; and how many stepped back.
    working: u64,
    sleeping: u64,
    back: u64,
    // How many looks pass before one that stepped back is called: those that are left, and those of the next time. It doubles each
    // time that one was called in vain.
    left: u64,
    patience: u64,
    was_called: bool,
}

impl Crew {
    /// One of no workers.
    pub(crate) fn new() -> Crew {
        Crew {
            working: 0,
            sleeping: 0,
            back: 0,
            left: LEAST_PATIENCE,
            patience: LEAST_PATIENCE,
            was_called: false,
        }
    }

    /// A worker comes to it.
    pub(crate) fn join(&mut self) {
        self.working = self.working.saturating_add(1);
    }

    /// A worker goes to sleep.
    pub(crate) fn fall_asleep(&mut self) {
        self.sleeping = self.sleeping.saturating_add(1);
    }

    /// A worker has slept.
    pub(crate) fn wake_up(&mut self) {
        self.sleeping = self.sleeping.saturating_sub(1);
    }

    /// Whether a worker sleeps.
    pub(crate) fn has_sleeper(&self) -> bool {
        self.sleeping > 0
    }

    /// Whether a worker steps back that saw this. It is then counted among those.
    pub(crate) fn step_back(&mut self, seen: Seen) -> bool {
        if seen != Seen::Taken || self.working < 2 {
            return false;
        }
        if self.was_called {
            self.patience = self.patience.saturating_mul(2).min(GREATEST_PATIENCE);
        }
        self.was_called = false;
        self.left = self.patience;
        self.working = self.working.saturating_sub(1);
        self.back = self.back.saturating_add(1);
        true
    }

    /// One that stepped back works again.
    pub(crate) fn come_back(&mut self) {
        self.back = self.back.saturating_sub(1);
        self.working = self.working.saturating_add(1);
    }

    /// Whether a worker that saw this calls one that stepped back.
    pub(crate) fn call(&mut self, seen: Seen) -> bool {
        if seen != Seen::Free || self.back == 0 {
            return false;
        }
        if self.left > 0 {
            self.left = self.left.saturating_sub(1);
            return false;
        }
        self.was_called = true;
        self.left = self.patience;
        true
    }
}
