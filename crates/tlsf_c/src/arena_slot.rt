//! A place for an arena in C's memory.
ghost use Rattle.std.specs.Prelude.{◌≡◌, true, false, is_some, None, Some};

use crate::any_arena::AnyArena;
use crate::boxed_arena::BoxedArena;
use std::alloc::Global;
use std::{mem, ptr};

/// Calls the arena of an open handle where it lies, and notes meanwhile that a call is using it. Refuses another kind of arena.
///
/// ```text
/// on_arena!(pools, Pools, owned => owned.release(name))
/// ```
macro_rules! on_arena {
    ($slot:ident, $kind:ident, $owned:ident => $call:expr) => {{
        let $crate::any_arena::AnyArena::$kind { is_idle, owned: $owned } = $slot.inner.lend() else {
            return $crate::call_fault::CallFault::OtherKind.refusal();
        };
        *is_idle = false;
        let answer = $call;
        *is_idle = true;
        answer
    }};
}

pub(crate) use on_arena;

/// A place for an arena in C's memory: open with one, or closed. All zero, it is closed.
#[repr(C)]
#[derive(Drop)]
pub struct ArenaSlot {
    pub inner: BoxedArena,
    pub is_open: bool,
    ghost tied: { is_open ≡ is_some inner.value },
}

impl ArenaSlot {
    ghost use Rattle.tlsf_c.specs.Arenas.{is_arena_idle, arena_with_idle};
    ghost use Rattle.tlsf_c.specs.Serving.{arena_serves};

    /// Whether it is open, and no call is using it.
    #[inline(always)]
    pub fn serves(&mut self) -> bool
        ensures serves { result ≡ arena_serves self.old }
        ensures open { result ≡ true → self.old.is_open ≡ true }
        ensures idle { result ≡ true → is_arena_idle self.old.inner.value ≡ true }
        ensures same { self.new ≡ self.old }
    {
        // As in `HeapSlot::serves`.
        u8::from(self.is_open) != 0 && u8::from(self.inner.lend().is_idle()) != 0
    }

    /// Takes out what is there, and leaves the place closed. A place that is closed or in use stays as it is: a signal handler interrupts
    /// the call that uses it. The arena that is taken out says that a call is using it. So a copy of the place is refused as long as
    /// that memory has no other use.
    pub fn take_out(&mut self, alloc: Global) -> Option<Box<AnyArena, Global>>
        ensures closed { arena_serves self.new ≡ false }
        ensures none { result ≡ None → (arena_serves self.old ≡ false) × (self.new ≡ self.old) }
        ensures some { (b : _) → result ≡ Some b → (arena_serves self.old ≡ true) × (self.new.is_open ≡ false) × (Some b.value ≡ arena_with_idle false self.old.inner.value) }
    {
        if !self.serves() {
            return None;
        }
        self.inner.lend().set_idle(false);
        let nowhere: *mut u8 = ptr::null_mut();
        let ArenaSlot { inner, .. } = mem::replace(
            self,
            ArenaSlot {
                inner: BoxedArena::empty(alloc, nowhere),
                is_open: false,
            },
        );
        Some(inner.into_box())
    }

    /// Drops what an open place holds that no call is using, and leaves it closed.
    pub fn close(&mut self, alloc: Global)
        requires { arena_serves self.old ≡ true }
        ensures { self.new.is_open ≡ false }
    {
        drop(self.take_out(alloc));
    }

    /// Puts something into a closed place.
    pub fn put_in(&mut self, boxed: Box<AnyArena, Global>)
        requires { self.old.is_open ≡ false }
        ensures open { self.new.is_open ≡ true }
        ensures value { self.new.inner.value ≡ Some boxed.value }
    {
        *self = ArenaSlot {
            inner: BoxedArena::new(boxed),
            is_open: true,
        };
    }
}
