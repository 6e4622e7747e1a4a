//! A place for a heap in C's memory.
ghost use Rattle.std.specs.Prelude.{◌≡◌, true, false, None, Some};

use crate::boxed_heap::BoxedHeap;
use crate::held_heap::HeldHeap;
use crate::odd_note::note_odd;
use std::alloc::Global;
use std::{mem, ptr};

/// Calls the heap of an open handle where it lies, and notes meanwhile that a call is using it.
///
/// ```text
/// on_heap!(heap, owned => owned.reset())
/// ```
macro_rules! on_heap {
    ($slot:ident, $owned:ident => $call:expr) => {{
        let held = $slot.inner.lend();
        held.is_idle = false;
        let $owned = &mut held.heap;
        let answer = $call;
        held.is_idle = true;
        answer
    }};
}

pub(crate) use on_heap;

/// A place for a heap in C's memory: open with one, or closed. All zero, it is closed.
#[repr(C)]
#[derive(Drop)]
pub struct HeapSlot {
    pub inner: BoxedHeap,
    pub is_open: bool,
    /// The address of the first word of the region that was opened last, for C's own sums. No call reads it.
    pub base: *mut u64,
    /// The heap's number, for C's own names. No call reads it.
    pub number: u32,
    /// Whether a block by name has had an odd number of words: payloads may then be misaligned to 16 bytes. Opening clears it. C then
    /// notes the same of a heap whose alignment isn't that of malloc.
    pub is_mixed: bool,
    /// The alignment of pointers in bytes, for C's own sums. C writes it before it opens. No call reads it, and none writes it.
    pub align: u8,
    ghost tied: { is_open ≡ inner.full },
}

// It may go to another thread, as what it holds may: no call follows `base`.
unsafe impl Send for HeapSlot {}

impl HeapSlot {
    ghost use Rattle.tlsf_c.specs.Handles.{KeepsBeside, NotesOdd, serves};

    /// Whether it is open, and no call is using it.
    #[inline(always)]
    pub fn serves(&mut self) -> bool
        ensures serves { result ≡ serves self.old }
        ensures open { result ≡ true → self.old.is_open ≡ true }
        ensures idle { result ≡ true → self.old.inner.value.is_idle ≡ true }
        ensures same { self.new ≡ self.old }
    {
        // As numbers, which a processor compares with 0: `true` is a constant to it.
        u8::from(self.is_open) != 0 && u8::from(self.inner.lend().is_idle) != 0
    }

    /// Notes a block of `len` bytes, as `note_odd`.
    #[inline(always)]
    pub fn note(&mut self, len: u32)
        ensures mixed { NotesOdd len 0 self.old.is_mixed self.new.is_mixed }
        ensures open { self.new.is_open ≡ self.old.is_open }
        ensures value { self.new.inner.value ≡ self.old.inner.value }
        ensures beside { (self.new.base ≡ self.old.base) × (self.new.number ≡ self.old.number) × (self.new.align ≡ self.old.align) }
    {
        note_odd(&mut self.is_mixed, len);
    }

    /// Takes out what is there, and leaves the place closed. A place that is closed or in use stays as it is: a signal handler interrupts
    /// the call that uses it. The heap that is taken out says that a call is using it. So a copy of the place is refused as long as
    /// that memory has no other use.
    pub fn take_out(&mut self, alloc: Global) -> Option<Box<HeldHeap, Global>>
        ensures closed { serves self.new ≡ false }
        ensures beside { KeepsBeside self.old self.new }
        ensures none { result ≡ None → (serves self.old ≡ false) × (self.new ≡ self.old) }
        ensures some { (b : _) → result ≡ Some b → (serves self.old ≡ true) × (self.new.is_open ≡ false) × (b.value ≡ record (self.old.inner.value) { is_idle = false }) }
    {
        if !self.serves() {
            return None;
        }
        let nowhere: *mut u8 = ptr::null_mut();
        self.is_open = false;
        self.inner.lend().is_idle = false;
        let inner = mem::replace(&mut self.inner, BoxedHeap::empty(alloc, nowhere));
        Some(inner.into_box())
    }

    /// Puts a heap that no call is using into a closed place.
    pub fn put_in(&mut self, boxed: Box<HeldHeap, Global>)
        requires closed { self.old.is_open ≡ false }
        requires idle { boxed.value.is_idle ≡ true }
        ensures open { serves self.new ≡ true }
        ensures beside { KeepsBeside self.old self.new }
        ensures value { self.new.inner.value ≡ boxed.value }
    {
        self.inner = BoxedHeap::new(boxed);
        self.is_open = true;
    }
}
