//! A place for an end in C's memory.
ghost use Rattle.std.specs.Prelude.{◌≡◌, true, false, is_some, None, Some};

use crate::any_end::AnyEnd;
use crate::boxed_end::BoxedEnd;
use std::alloc::Global;
use std::{mem, ptr};

/// Calls the end of an open handle where it lies, and notes meanwhile that a call is using it. Refuses another kind of end.
///
/// ```text
/// on_end!(poster, Poster, end => put_once(end, name))
/// ```
macro_rules! on_end {
    ($slot:ident, $kind:ident, $end:ident => $call:expr) => {{
        let $crate::any_end::AnyEnd::$kind { is_idle, end: $end } = $slot.inner.lend() else {
            return $crate::call_fault::CallFault::OtherKind.refusal();
        };
        *is_idle = false;
        let answer = $call;
        *is_idle = true;
        answer
    }};
}

pub(crate) use on_end;

/// A place for an end of a lane or of a queue in C's memory: open with one, or closed. All zero, it is closed.
#[repr(C)]
#[derive(Drop)]
pub struct EndSlot {
    pub inner: BoxedEnd,
    pub is_open: bool,
    ghost tied: { is_open ≡ is_some inner.value },
}

impl EndSlot {
    ghost use Rattle.tlsf_c.specs.Ends.{is_idle, with_idle};
    ghost use Rattle.tlsf_c.specs.Handles.{end_serves};

    /// Whether it is open, and no call is using it.
    #[inline(always)]
    pub fn serves(&mut self) -> bool
        ensures serves { result ≡ end_serves self.old }
        ensures open { result ≡ true → self.old.is_open ≡ true }
        ensures idle { result ≡ true → is_idle self.old.inner.value ≡ true }
        ensures same { self.new ≡ self.old }
    {
        // As in `HeapSlot::serves`.
        u8::from(self.is_open) != 0 && u8::from(self.inner.lend().is_idle()) != 0
    }

    /// Takes out what is there, and leaves the place closed. A place that is closed or in use stays as it is: a signal handler interrupts
    /// the call that uses it. The end that is taken out says that a call is using it. So a copy of the place is refused as long as
    /// that memory has no other use.
    pub fn take_out(&mut self, alloc: Global) -> Option<Box<AnyEnd, Global>>
        ensures closed { end_serves self.new ≡ false }
        ensures none { result ≡ None → (end_serves self.old ≡ false) × (self.new ≡ self.old) }
        ensures some { (b : _) → result ≡ Some b → (end_serves self.old ≡ true) × (self.new.is_open ≡ false) × (Some b.value ≡ with_idle false self.old.inner.value) }
    {
        if !self.serves() {
            return None;
        }
        self.inner.lend().set_idle(false);
        let nowhere: *mut u8 = ptr::null_mut();
        let EndSlot { inner, .. } = mem::replace(
            self,
            EndSlot {
                inner: BoxedEnd::empty(alloc, nowhere),
                is_open: false,
            },
        );
        Some(inner.into_box())
    }

    /// Drops what an open place holds that no call is using, and leaves it closed.
    pub fn close(&mut self, alloc: Global)
        requires { end_serves self.old ≡ true }
        ensures { self.new.is_open ≡ false }
    {
        drop(self.take_out(alloc));
    }

    /// Puts something into a closed place.
    pub fn put_in(&mut self, boxed: Box<AnyEnd, Global>)
        requires { self.old.is_open ≡ false }
        ensures open { self.new.is_open ≡ true }
        ensures value { self.new.inner.value ≡ Some boxed.value }
    {
        *self = EndSlot {
            inner: BoxedEnd::new(boxed),
            is_open: true,
        };
    }
}
