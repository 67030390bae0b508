//! The oldest step leaves the history.

ghost use Rattle.std.specs.Prelude.{◌≡◌, ◌≤◌, length};
ghost use Rattle.tw_process.specs.Process.{oldest_of, with_line, without_oldest, SameButSpare};
ghost use Rattle.tw_theory.specs.Contents.{steps_before};

use crate::entry::{Entry, entries_before};
use crate::process::Process;
use tw_atomic::Atomic;
use tw_msgs::Record;
use tw_step::Step;
use tw_vtime::Stamp;

impl<M: Atomic> Process<M> {
    /// How many steps stand before this stamp.
    pub fn steps_before(&self, stamp: Stamp) -> usize
        ensures count { result ≡ steps_before stamp self.now.process.history }
        ensures within { result ≤ length self.now.process.history }
    {
        entries_before(&self.history, stamp)
    }

    /// The oldest step leaves the history, and its nodes are freed; its record is answered. It takes no memory.
    pub fn commit_oldest(&mut self) -> Option<Record>
        ensures value { result ≡ oldest_of self.old.process.history }
        ensures contents { SameButSpare (without_oldest self.old) self.new }
    {
        let Some(entry) = self.history.pop_front() else {
            return None;
        };
        let Entry {
            step,
            consumed,
            sent,
        } = entry;
        let Step {
            done,
            last: _,
            due: _,
            residue: _residue,
            before: _before,
        } = step;
        self.lists.forget(consumed, sent);
        self.floor = done.stamp.pack() + 1;
        Some(done)
    }

    /// Sets the commit line.
    pub fn set_line(&mut self, line: Stamp)
        ensures { self.new ≡ with_line line self.old }
    {
        self.line = line;
    }
}
