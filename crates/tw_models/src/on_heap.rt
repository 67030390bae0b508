//! Values on the heap that contracts see as if they lay in place.
ghost use Rattle.std.specs.Prelude.{◌≡◌, IfOk};
ghost use Rattle.std.specs.Borrow.{Lends, sem};
ghost use Rattle.tw_models.specs.contracts.on_heap.OnHeap.{the_row};

use std::alloc::{AllocError, Global};
use std::marker::Model;

/// A value on the heap: in place it is as large as a pointer, and to move it moves no more than that.
///
/// Contracts see the value alone, and not where it lies.
#[derive(Drop)]
pub struct OnHeap<T> {
    value: Box<T>,
}

impl<T> Model for OnHeap<T> {
    ghost use Rattle.std.specs.Prelude.{◌≡◌};

    ghost Value = { T };

    ghost coded = { T.code };

    ghost view = { λ h. h.value.value };
}

impl<T: Drop> OnHeap<T> {
    /// This value on the heap. The only error is want of memory (4).
    pub fn new(alloc: Global, value: T) -> Result<OnHeap<T>, AllocError>
        ensures { IfOk result (λ made. made ≡ value) }
    {
        Ok(OnHeap {
            value: Box::new(alloc, value)?,
        })
    }

    /// The value.
    pub fn get(&self) -> &T
        ensures { result.now ≡ self.now }
    {
        &self.value
    }

    /// The value, for writing.
    pub fn get_mut(&mut self) -> &mut T
        ensures* writes_back { sem 𝓛 (Lends (the_row T.row) T.row self.entry result (λ w. w)) }
        ensures value { result.now ≡ self.old }
    {
        self.value.as_mut()
    }
}
