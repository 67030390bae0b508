//! A bell that is rung once.

use std::sync::{Condvar, Mutex, Wait};
use std::time::{Clock, Duration};

// A bell that one thread rings, and that another waits for.
#[derive(Drop)]
pub(crate) struct Bell {
    has_rung: Mutex<bool>,
    rung: Condvar,
}

impl Bell {
    /// A bell that has not rung.
    pub(crate) fn new() -> Bell {
        Bell {
            has_rung: Mutex::new(false),
            rung: Condvar::new(),
        }
    }

    /// Rings, for good.
    pub(crate) fn ring<R: Wait>(&self, rt: &R) {
        *self.has_rung.lock(rt) = true;
        self.rung.notify_all();
    }

    /// Waits for the bell, for so long at most, and answers whether it has rung. Where the clock cannot be read, it does not wait.
    pub(crate) fn rings_within<R: Wait + Clock>(&self, rt: &R, time: Duration) -> bool {
        let (has_rung, _) = self
            .rung
            .wait_timeout_while(rt, self.has_rung.lock(rt), time, |has_rung| !*has_rung);
        *has_rung
    }
}
