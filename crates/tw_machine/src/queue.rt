//! A queue of a machine.
ghost use Rattle.std.specs.Prelude.{
  ◌≡◌,
  ◌+◌,
  ◌<◌,
  ◌≤◌,
  ◌++◌,
  ◌↔◌,
  [],
  drop,
  length,
  IsTrue,
  IfOk,
  nat_lt,
  vec_len,
  vec_capacity,
};
ghost use Rattle.std.specs.List.{insert, remove};
ghost use Rattle.tw_machine.specs.Memory.{refilled};

use std::alloc::{AllocError, Global};
use std::marker::Model;

/// The values of a queue, and how many it may have. It has the memory for as many from the start.
#[derive(Drop)]
pub struct Queue {
    values: Vec<i64>,
    room: u16,
}

impl Model for Queue {
    ghost use Rattle.std.specs.Prelude.{◌≤◌, ◌<◌, length, vec_capacity};
    ghost use Rattle.tw_machine.specs.Memory.{QueueValue};

    ghost Value = { QueueValue };

    ghost view = { λ q. record { items = q.values.items; room = q.room } };

    ghost invariant = { λ q. (length q.values.items ≤ q.room) × (q.room ≤ vec_capacity q.values)
        × (q.room < 65536) };
}

/// Whether two lists of values are equal.
pub(crate) fn same_values(one: &[i64], other: &[i64]) -> bool
    ensures { IsTrue result ↔ (one.now ≡ other.now) }
{
    one == other
}

/// Appends values, for which there is room.
pub(crate) fn append(values: &[i64], copy: &mut Vec<i64>)
    requires { vec_len copy.old + length values.now ≤ vec_capacity copy.old }
    ensures items { copy.new.items ≡ copy.old.items ++ values.now }
    ensures capacity { vec_capacity copy.new ≡ vec_capacity copy.old }
{
    for value in values {
        copy.push_reserved(*value);
    }
}

impl Queue {
    /// An empty queue of this room. The only error is want of memory.
    pub fn new(alloc: Global, room: u16) -> Result<Queue, AllocError>
        ensures { IfOk result (λ q. q ≡ record { items = []; room = room }) }
    {
        Ok(Queue {
            values: Vec::with_capacity(alloc, room as usize)?,
            room,
        })
    }

    /// The values, in order.
    pub fn values(&self) -> &[i64]
        ensures values { result.now ≡ self.now.items }
        ensures few { length result.now < 65536 }
    {
        self.values.as_slice()
    }

    /// How many values it may have.
    pub fn room(&self) -> u16
        ensures { result ≡ self.now.room }
    {
        self.room
    }

    /// Whether it takes one more.
    pub fn takes(&self) -> bool
        ensures { result ≡ nat_lt (length self.now.items) self.now.room }
    {
        self.values.len() < self.room as usize
    }

    /// Puts a value at a place. It takes no memory.
    pub fn insert(&mut self, at: usize, value: i64)
        requires within { at ≤ length self.old.items }
        requires room { length self.old.items < self.old.room }
        ensures { self.new ≡ refilled self.old (insert self.old.items at value) }
    {
        self.values.insert(at, value).unwrap();
    }

    /// Takes the value at a place out.
    pub fn remove(&mut self, at: usize)
        requires { at < length self.old.items }
        ensures { self.new ≡ refilled self.old (remove self.old.items at) }
    {
        self.values.remove(at);
    }

    /// Takes so many values from the front, or those that there are. It takes no memory.
    pub fn clear(&mut self, count: u16)
        ensures { self.new ≡ refilled self.old (drop count self.old.items) }
    {
        let count = self.values.len().min(count as usize);
        let rest = self.values.len() - count;
        self.values.rotate_left(count);
        self.values.truncate(rest);
    }

    /// Whether both have the same values and the same room.
    pub(crate) fn is_same(&self, other: &Queue) -> bool
        ensures { IsTrue result ↔ (self.now ≡ other.now) }
    {
        if self.room != other.room {
            return false;
        }
        same_values(self.values.as_slice(), other.values.as_slice())
    }

    /// An equal queue. The only error is want of memory.
    pub(crate) fn copied(&self, alloc: Global) -> Result<Queue, AllocError>
        ensures { IfOk result (λ q. q ≡ self.now) }
    {
        let mut values = Vec::with_capacity(alloc, self.room as usize)?;
        append(self.values.as_slice(), &mut values);
        Ok(Queue {
            values,
            room: self.room,
        })
    }
}
