//! Values that a relay let go.
ghost use Rattle.std.specs.Prelude.{◌≡◌, ◌≤◌, [], IfOk, length};

use crate::on_heap::OnHeap;
use arrayvec::ArrayVec;
use std::alloc::{AllocError, Global};
use std::marker::Model;

/// Up to two values in place, more on the heap.
#[derive(Drop)]
enum Given {
    Nothing,
    One(i64),
    Two(i64, i64),
    More(OnHeap<Vec<i64>>),
}

/// Values that a relay let go, at most 32. Up to two of them take no memory.
///
/// Contracts see the list of them.
#[derive(Drop)]
pub struct Values {
    given: Given,
}

impl Model for Values {
    ghost use Rattle.std.specs.Prelude.{◌≤◌, ℤ, List, length};

    ghost Value = { List ℤ };

    ghost use Rattle.tw_models.specs.Values.{listed};

    ghost view = { λ v. listed v.given };

    ghost invariant = { λ v. length (listed v.given) ≤ 32 };
}

impl Values {
    /// No values. It takes no memory.
    pub fn none() -> Values
        ensures { result ≡ [] }
    {
        Values {
            given: Given::Nothing,
        }
    }

    /// These values. The only error is want of memory.
    pub fn of(alloc: Global, values: &ArrayVec<i64, 32>) -> Result<Values, AllocError>
        ensures { IfOk result (λ made. made ≡ values.now.items) }
    {
        let given = match values.as_slice() {
            [] => Given::Nothing,
            [one] => Given::One(*one),
            [one, two] => Given::Two(*one, *two),
            more => Given::More(OnHeap::new(alloc, Vec::from_slice(alloc, more)?)?),
        };
        Ok(Values { given })
    }

    /// The values again, where a relay holds them. It takes no memory.
    pub fn held(&self) -> ArrayVec<i64, 32>
        ensures { result.items ≡ self.now }
    {
        match &self.given {
            Given::Nothing => ArrayVec::new(),
            Given::One(one) => held_of(&[*one]),
            Given::Two(one, two) => held_of(&[*one, *two]),
            Given::More(more) => held_of(more.get().as_slice()),
        }
    }
}

/// These values, at most 32.
fn held_of(values: &[i64]) -> ArrayVec<i64, 32>
    requires { length values.now ≤ 32 }
    ensures { result.items ≡ values.now }
{
    let mut held = ArrayVec::new();
    for value in values {
        held.push(*value);
    }
    held
}
