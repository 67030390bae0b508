//! The transitions of a program: made, with what takes them back, and taken back.
ghost use Rattle.std.specs.Prelude.{◌≡◌, Ok, OnOk, OnErr, IfOk, reverse};
ghost use Rattle.tw_atomic.specs.Atomic.{turned};
ghost use Rattle.tw_machine.specs.Machine.{machine_meaning, kept_left, kept_log, machine_undone};

use crate::items::earlier;
use crate::memory::State;
use crate::program::Program;
use std::alloc::{AllocError, Global};
use std::marker::Model;
use tw_atomic::Turn;

/// What a transition logged, as a stack.
#[derive(Drop)]
pub struct Log {
    entries: Vec<i64>,
}

impl Model for Log {
    ghost use Rattle.std.specs.Prelude.{List, ℤ, reverse};

    ghost Value = { List ℤ };

    ghost view = { λ l. reverse l.entries.items };
}

impl Log {
    /// These entries, the last one on top.
    fn of(entries: Vec<i64>) -> Log
        ensures { result ≡ reverse entries.items }
    {
        Log { entries }
    }

    /// The entries, of which the last is on top.
    fn take(self) -> Vec<i64>
        ensures { reverse result.items ≡ self }
    {
        let Log { entries } = self;
        entries
    }
}

/// What a transition keeps: the time that was left when the first item came, and the log.
#[derive(Drop)]
pub struct Kept {
    pub left: Option<u64>,
    pub log: Log,
}

impl Program {
    /// Makes a transition, and answers what takes it back. The only error is want of memory; then the state is as it was.
    pub(crate) fn make(
        &self,
        alloc: Global,
        state: &mut State,
        turn: Turn,
        elapsed: u64,
        bag: &[(u8, i64)],
    ) -> Result<Kept, AllocError>
        ensures state { OnOk result (state.new
            ≡ turned (machine_meaning self.now) turn state.old elapsed bag.now) }
        ensures residue { IfOk result
            (λ kept. kept ≡ record { left = kept_left self.now turn state.old; log = kept_log self.now turn state.old elapsed bag.now }) }
        ensures stays { OnErr result (state.new ≡ state.old) }
    {
        let Some(room) = self.room(turn, bag) else {
            return Err(AllocError);
        };
        let mut log = Vec::with_capacity(alloc, room)?;
        let left = match turn {
            Turn::Int => {
                self.log_internal(state, &mut log);
                None
            }
            Turn::Ext => {
                let left = state.left;
                self.log_external(state, elapsed, bag, &mut log);
                left
            }
            Turn::Con => {
                self.log_internal(state, &mut log);
                let left = state.left;
                self.log_external(state, 0, bag, &mut log);
                left
            }
        };
        Ok(Kept {
            left,
            log: Log::of(log),
        })
    }

    /// Takes a transition back by what it kept.
    pub(crate) fn take_back(
        &self,
        state: &mut State,
        turn: Turn,
        elapsed: u64,
        bag: &[(u8, i64)],
        kept: Kept,
    )
        ensures { state.new
            ≡ machine_undone self.now kept.left kept.log turn state.old elapsed bag.now }
    {
        let Kept { left, log } = kept;
        let mut log = log.take();
        match turn {
            Turn::Int => {
                self.undo_internal(elapsed, state.time, &mut state.memory, &mut log);
                state.time = earlier(state.time, elapsed);
                state.left = Some(elapsed);
            }
            Turn::Ext => {
                self.undo_external(left, elapsed, state.time, bag, &mut state.memory, &mut log);
                state.time = earlier(state.time, elapsed);
                state.left = left;
            }
            Turn::Con => {
                self.undo_external(left, 0, state.time, bag, &mut state.memory, &mut log);
                self.undo_internal(elapsed, state.time, &mut state.memory, &mut log);
                state.time = earlier(state.time, elapsed);
                state.left = Some(elapsed);
            }
        }
    }
}
