//! A boxed heap whose type names none, so that it may lie in C's memory.
ghost use Rattle.std.specs.Prelude.{◌≡◌, Bool, true, false};
ghost use Rattle.tlsf_c.specs.contracts.held_heap.HeldHeap.{the_row as held_row};
ghost use Rattle.tlsf_c.specs.declared.held_heap.HeldHeap.{HeldHeap};

use crate::held_heap::HeldHeap;
use crate::parts::Parts;
use std::alloc::Global;
use std::marker::Model;

/// A heap, or nothing.
#[repr(C)]
#[derive(Drop)]
pub struct BoxedHeap {
    at: *mut u8,
    alloc: Global,
    pub ghost full: { Bool },
    pub ghost value: { HeldHeap } by { held_row.coded },
}

impl Model for BoxedHeap {
    ghost use Rattle.tlsf_c.specs.HeapOwned.{heap_owned};

    ghost also_owns = { λ h. heap_owned h.full h.alloc h.at h.value };
}

// It may go to another thread, as what it holds may.
unsafe impl Send for BoxedHeap {}

impl BoxedHeap {
    ghost use Rattle.std.specs.Borrow.{sem};
    ghost use Rattle.tlsf_c.specs.Lending.{LendsHeap};

    /// Holds a heap.
    pub fn new(inner: Box<HeldHeap, Global>) -> BoxedHeap
        ensures full { result.full ≡ true }
        ensures value { result.value ≡ inner.value }
    {
        BoxedHeap::of_parts(Parts::of(inner))
    }

    /// The heap inside.
    pub fn into_box(self) -> Box<HeldHeap, Global>
        requires { self.full ≡ true }
        ensures { result.value ≡ self.value }
    {
        self.into_parts().into_box()
    }

    /// Lends what is inside.
    #[inline(always)]
    pub fn lend(&mut self) -> &mut HeldHeap
        requires { self.old.full ≡ true }
        ensures* back { sem 𝓛 (LendsHeap self.entry result) }
        ensures heap { result.now ≡ self.old.value }
    {
        let at = self.at as *mut HeldHeap;
        unsafe { &mut *at }
    }

    /// Holds nothing.
    pub fn empty(alloc: Global, at: *mut u8) -> BoxedHeap
        ensures { result.full ≡ false }
    {
        BoxedHeap { at, alloc }
    }

    fn of_parts(parts: Parts<HeldHeap, Global>) -> BoxedHeap
        ensures { (result.full ≡ true) × (result.value ≡ parts.value) }
    {
        let Parts { ptr, alloc } = parts;
        BoxedHeap {
            at: ptr as *mut u8,
            alloc,
        }
    }

    fn into_parts(self) -> Parts<HeldHeap, Global>
        requires { self.full ≡ true }
        ensures { result.value ≡ self.value }
    {
        let BoxedHeap { at, alloc } = self;
        Parts {
            ptr: at as *mut HeldHeap,
            alloc,
        }
    }
}
