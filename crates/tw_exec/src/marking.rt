//! Marks, rewinding to them, and lists of actions.

ghost use Rattle.std.specs.Prelude.{◌≡◌, ◌≢◌, ◌<◌, ◌||◌, min, None, IfOk, IfErr, IfSome, OnOk, OnErr, length, map, Ok, Err};
ghost use Rattle.std.specs.List.{AllByRecursion as Each};
ghost use Rattle.tw_exec.specs.Actions.{reason};
ghost use Rattle.tw_exec.specs.Rewinding.{at_marks, greatest_count};
ghost use Rattle.tw_fossils.specs.Columns.{IsRising};
ghost use Rattle.tw_network.specs.Contents.{network_of};
ghost use Rattle.tw_theory.specs.Contents.{records_of};
ghost use Rattle.tw_theory.specs.Executive.{Undone};
ghost use Rattle.tw_theory.specs.Marks.{any_between, any_committed, marks, rewind, rewound_steps};
ghost use Rattle.tw_theory.specs.Memory.{IsReplayed};

use crate::executive::Executive;
use crate::refused::Refused;
use std::alloc::AllocError;
use std::marker::Model;
use tw_actions::Action;
use tw_atomic::Atomic;
use tw_fossils::Column;
use tw_process::Process;
use tw_rollback::back_to;
use tw_vtime::Stamp;

/// Where the components of an executive stood: the stamp of the next step of each.
///
/// Contracts see the list of these stamps.
#[derive(Drop)]
pub struct Mark {
    stamps: Vec<Stamp>,
}

impl Model for Mark {
    ghost use Rattle.std.specs.Prelude.{ℕ, List};

    ghost Value = { List ℕ };

    ghost view = { λ m. m.stamps.items };
}

impl<M: Atomic> Executive<M> {
    /// A mark of where every component stands now. Refused for want of memory alone (4).
    pub fn mark(&self) -> Result<Mark, AllocError>
        ensures { IfOk result (λ mark. mark ≡ marks self.now.world.processes) }
    {
        let mut stamps = Vec::new(self.alloc);
        for process in self.processes.as_slice() {
            stamps.push(process.next())?;
        }
        Ok(Mark { stamps })
    }

    /// Takes back every step of each component at or after its marked stamp, and answers how many steps those are. It takes no
    /// memory, and costs as many steps as there are components and steps taken back.
    ///
    /// A mark of another number of components is refused (15), and so is a mark since which a component has committed a step or
    /// has one before global virtual time (13). Then nothing changes. A count above 18,446,744,073,709,551,615 is answered as
    /// that number.
    pub fn rewind(&mut self, mark: &Mark) -> Result<u64, Refused>
        ensures done { let count = rewound_steps mark.now self.old.world.processes in
            OnOk result (rewind self.old.world mark.now ≡ (Ok (Undone count), self.new.world)) }
        ensures count { let count = rewound_steps mark.now self.old.world.processes in
            IfOk result (λ n. n ≡ min count greatest_count) }
        ensures refused { IfErr result
            (λ why. IfSome (reason why) (λ r. (rewind self.old.world mark.now).0 ≡ Err r)) }
        ensures known { IfErr result (λ why. reason why ≢ None) }
        ensures others { self.new ≡ record self.old { world = self.new.world } }
        ensures stays { OnErr result (self.new ≡ self.old) }
    {
        let stamps = mark.stamps.as_slice();
        if stamps.len() != self.processes.len() {
            return Err(Refused::NoSuch);
        }
        if any_committed(
            self.gvt,
            stamps,
            self.processes.as_slice(),
            self.columns.as_slice(),
        ) {
            return Err(Refused::Committed);
        }
        Ok(back_to_marks(&mut self.processes, stamps))
    }

    /// Takes each action in turn, and answers how many were not refused. A refused one changes nothing.
    pub fn replay(&mut self, actions: &[Action]) -> u64
        ensures replayed { IsReplayed (network_of M.meaning self.old.network) self.old.until
            self.old.world actions.now result self.new.world }
        ensures others { self.new ≡ record self.old { world = self.new.world } }
    {
        let mut taken = 0;
        for action in actions {
            if self.act(*action).is_ok() {
                taken += 1;
            }
        }
        taken
    }
}

/// Whether a component has, in its column or its history, a step at or after its mark and before global virtual time.
fn any_committed<M: Atomic>(
    gvt: Stamp,
    stamps: &[Stamp],
    processes: &[Process<M>],
    columns: &[Column],
) -> bool
    requires processes { length processes.now ≡ length stamps.now }
    requires columns { length columns.now ≡ length stamps.now }
    requires rising { Each
        (λ column. IsRising column × Each (λ r. r.stamp < gvt) column) columns.now }
    ensures { result ≡ any_committed gvt stamps.now
        (map (λ p. p.process) processes.now) columns.now }
{
    let mut any = false;
    for c in 0..stamps.len() {
        any |= is_committed_since(&columns[c], &processes[c], gvt, stamps[c]);
    }
    any
}

/// Whether a component has, in its column or its history, a step at or after a mark and before global virtual time.
fn is_committed_since<M: Atomic>(
    column: &Column,
    process: &Process<M>,
    gvt: Stamp,
    mark: Stamp,
) -> bool
    requires rising { IsRising column.now }
    requires before { Each (λ r. r.stamp < gvt) column.now }
    ensures { let records = records_of process.now.process.history in
        result ≡ (any_between mark gvt column.now || any_between mark gvt records) }
{
    reaches(column, gvt, mark) || process.has_step_between(mark, gvt)
}

/// Whether a column of records before a stamp has one at or after another stamp: its last one is.
fn reaches(column: &Column, before: Stamp, from: Stamp) -> bool
    requires rising { IsRising column.now }
    requires before { Each (λ r. r.stamp < before) column.now }
    ensures { result ≡ any_between from before column.now }
{
    match column.records().last() {
        Some(last) => last.stamp >= from,
        None => false,
    }
}

/// Takes back every step of each process at or after its marked stamp, and answers how many.
fn back_to_marks<M: Atomic>(processes: &mut Vec<Process<M>>, stamps: &[Stamp]) -> u64
    requires { length processes.old.items ≡ length stamps.now }
    ensures cut { processes.new.items ≡ at_marks stamps.now processes.old.items }
    ensures count { let old = map (λ p. p.process) processes.old.items in
        result ≡ min (rewound_steps stamps.now old) greatest_count }
{
    let mut count: u64 = 0;
    for c in 0..stamps.len() {
        let undone = back_to(&mut processes[c], stamps[c]);
        count = count.saturating_add(undone);
    }
    count
}
