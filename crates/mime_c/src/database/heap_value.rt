//! A value on the heap, by its address.

ghost use Rattle.std.specs.Prelude.{◌≡◌};
ghost use Rattle.std.specs.Borrow.{sem};
ghost use Rattle.std.specs.Box.Ownership.{box_owns};

use std::alloc::Allocator;
use std::marker::{Model, Send};

/// A box as its address: the value there, and the right to free its block.
pub struct HeapValue<T, A: Allocator> {
    pub(super) address: *mut T,
    pub(super) alloc: A,
    pub(super) ghost value: { T },
}

impl<T, A: Allocator> Model for HeapValue<T, A> {
    ghost also_owns = { λ it. box_owns (A.dealloc_token it.alloc) T.row it.address it.value };
}

// It may go to another thread if its value and its allocator may.
unsafe impl<T: Send, A: Allocator + Send> Send for HeapValue<T, A> {}

impl<T: Drop, A: Allocator> HeapValue<T, A> {
    /// What a box owns.
    pub fn of(value: Box<T, A>) -> HeapValue<T, A>
        // The value is the box's.
        ensures { result.value ≡ value.value }
    {
        let (address, alloc) = Box::into_raw_with_allocator(value);
        HeapValue { address, alloc }
    }

    /// The box again.
    pub fn into_box(self) -> Box<T, A>
        // The value is the same.
        ensures { result.value ≡ self.value }
    {
        let HeapValue { address, alloc } = self;
        unsafe { Box::from_raw(alloc, address) }
    }
}

impl<T, A: Allocator> HeapValue<T, A> {
    ghost use Rattle.mime_c.specs.HeapValue.{lends_value};

    /// The value, where it lies.
    pub fn as_mut(&mut self) -> &mut T
        // What is written through the reference lies at the same address then.
        ensures* writes_back { sem 𝓛 (lends_value T.row A.row A.Allocator self.entry result) }
        // It is the value.
        ensures value { result.now ≡ self.old.value }
    {
        unsafe { &mut *self.address }
    }
}
