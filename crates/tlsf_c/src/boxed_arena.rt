//! A boxed arena whose type names none, so that it may lie in C's memory.
ghost use Rattle.std.specs.Prelude.{◌≡◌, Option, Some, None, is_some, true};
ghost use Rattle.std.specs.Coded.{coded_option};
ghost use Rattle.tlsf_c.specs.contracts.any_arena.AnyArena.{the_row as arena_row};
ghost use Rattle.tlsf_c.specs.declared.any_arena.AnyArena.{AnyArena};

use crate::any_arena::AnyArena;
use crate::parts::Parts;
use std::alloc::Global;
use std::marker::Model;

/// An arena, or nothing.
#[repr(C)]
#[derive(Drop)]
pub struct BoxedArena {
    at: *mut u8,
    alloc: Global,
    pub ghost value: { Option AnyArena } by { coded_option arena_row.coded },
}

impl Model for BoxedArena {
    ghost use Rattle.tlsf_c.specs.ArenaOwned.{arena_owned};

    ghost also_owns = { λ h. arena_owned h.alloc h.at h.value };
}

// It may go to another thread, as what it holds may.
unsafe impl Send for BoxedArena {}

impl BoxedArena {
    ghost use Rattle.std.specs.Borrow.{sem};
    ghost use Rattle.tlsf_c.specs.Lending.{LendsArena};

    /// Holds an arena.
    pub fn new(inner: Box<AnyArena, Global>) -> BoxedArena
        ensures { result.value ≡ Some inner.value }
    {
        BoxedArena::of_parts(Parts::of(inner))
    }

    /// The box inside.
    pub fn into_box(self) -> Box<AnyArena, Global>
        requires { is_some self.value ≡ true }
        ensures { self.value ≡ Some result.value }
    {
        self.into_parts().into_box()
    }

    /// Lends what is inside.
    #[inline(always)]
    pub fn lend(&mut self) -> &mut AnyArena
        requires { is_some self.old.value ≡ true }
        ensures* back { sem 𝓛 (LendsArena self.entry result) }
        ensures arena { self.old.value ≡ Some result.now }
    {
        let at = self.at as *mut AnyArena;
        unsafe { &mut *at }
    }

    /// Holds nothing.
    pub fn empty(alloc: Global, at: *mut u8) -> BoxedArena
        ensures { result.value ≡ None }
    {
        BoxedArena { at, alloc }
    }

    fn of_parts(parts: Parts<AnyArena, Global>) -> BoxedArena
        ensures { result.value ≡ Some parts.value }
    {
        let Parts { ptr, alloc } = parts;
        BoxedArena {
            at: ptr as *mut u8,
            alloc,
        }
    }

    fn into_parts(self) -> Parts<AnyArena, Global>
        requires { is_some self.value ≡ true }
        ensures { self.value ≡ Some result.value }
    {
        let BoxedArena { at, alloc } = self;
        Parts {
            ptr: at as *mut AnyArena,
            alloc,
        }
    }
}
