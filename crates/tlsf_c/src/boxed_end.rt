//! A boxed end whose type names none, so that it may lie in C's memory.
ghost use Rattle.std.specs.Prelude.{◌≡◌, Option, Some, None, is_some, true};
ghost use Rattle.std.specs.Coded.{coded_option};
ghost use Rattle.tlsf_c.specs.contracts.any_end.AnyEnd.{the_row as end_row};
ghost use Rattle.tlsf_c.specs.declared.any_end.AnyEnd.{AnyEnd};

use crate::any_end::AnyEnd;
use crate::parts::Parts;
use std::alloc::Global;
use std::marker::Model;

/// An end, or nothing.
#[repr(C)]
#[derive(Drop)]
pub struct BoxedEnd {
    at: *mut u8,
    alloc: Global,
    pub ghost value: { Option AnyEnd } by { coded_option end_row.coded },
}

impl Model for BoxedEnd {
    ghost use Rattle.tlsf_c.specs.EndOwned.{end_owned};

    ghost also_owns = { λ h. end_owned h.alloc h.at h.value };
}

// It may go to another thread, as what it holds may.
unsafe impl Send for BoxedEnd {}

impl BoxedEnd {
    ghost use Rattle.std.specs.Borrow.{sem};
    ghost use Rattle.tlsf_c.specs.Lending.{LendsEnd};

    /// Holds an end.
    pub fn new(inner: Box<AnyEnd, Global>) -> BoxedEnd
        ensures { result.value ≡ Some inner.value }
    {
        BoxedEnd::of_parts(Parts::of(inner))
    }

    /// The box inside.
    pub fn into_box(self) -> Box<AnyEnd, Global>
        requires { is_some self.value ≡ true }
        ensures { self.value ≡ Some result.value }
    {
        self.into_parts().into_box()
    }

    /// Lends what is inside.
    #[inline(always)]
    pub fn lend(&mut self) -> &mut AnyEnd
        requires { is_some self.old.value ≡ true }
        ensures* back { sem 𝓛 (LendsEnd self.entry result) }
        ensures end { self.old.value ≡ Some result.now }
    {
        let at = self.at as *mut AnyEnd;
        unsafe { &mut *at }
    }

    /// Holds nothing.
    pub fn empty(alloc: Global, at: *mut u8) -> BoxedEnd
        ensures { result.value ≡ None }
    {
        BoxedEnd { at, alloc }
    }

    fn of_parts(parts: Parts<AnyEnd, Global>) -> BoxedEnd
        ensures { result.value ≡ Some parts.value }
    {
        let Parts { ptr, alloc } = parts;
        BoxedEnd {
            at: ptr as *mut u8,
            alloc,
        }
    }

    fn into_parts(self) -> Parts<AnyEnd, Global>
        requires { is_some self.value ≡ true }
        ensures { self.value ≡ Some result.value }
    {
        let BoxedEnd { at, alloc } = self;
        Parts {
            ptr: at as *mut AnyEnd,
            alloc,
        }
    }
}
