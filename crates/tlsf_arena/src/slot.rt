// A cell that holds an arena of one region and book, or nothing while the arena is in use.
ghost use Rattle.std.specs.Prelude.{◌≡◌, IfSome};
ghost use base.Fml.{fex, fsep, ftrue};
ghost use Rattle.linked_list_allocator.specs.Ownership.{behind_a_ref};
ghost use Rattle.tlsf_arena.specs.Ownership.{Home};

use crate::boxed::BoxedArena;
use std::marker::{Move, Owns};

pub(crate) struct Slot<const SLI: u32, const UNIT: usize> {
    arena: Option<BoxedArena<SLI, UNIT>>,
}

impl<const SLI: u32, const UNIT: usize> Owns for Slot<SLI, UNIT> {
    ghost Value = { Home };

    ghost shr_at = { λ h. behind_a_ref Fields (λ i. fex (IfSome i.arena (λ a. (a.region ≡ h.0) × (a.book ≡ h.1))) (λ _. ftrue)) };
}

impl<const SLI: u32, const UNIT: usize> Move for Slot<SLI, UNIT> {
    ghost own_val = { λ h vs. fex Inside (λ i. fsep (Fields.own_val i vs) (fex (IfSome i.arena (λ a. (a.region ≡ h.0) × (a.book ≡ h.1))) (λ _. ftrue))) };
}

impl<const SLI: u32, const UNIT: usize> Slot<SLI, UNIT> {
    pub(crate) fn new(arena: BoxedArena<SLI, UNIT>) -> Slot<SLI, UNIT>
        ensures { result ≡ (arena.entry.region, arena.entry.book) }
    {
        Slot { arena: Some(arena) }
    }

    pub(crate) fn replace(
        &self,
        arena: Option<BoxedArena<SLI, UNIT>>,
    ) -> Option<BoxedArena<SLI, UNIT>>
        requires { IfSome arena (λ a. (a.region ≡ self.now.0) × (a.book ≡ self.now.1)) }
        ensures { IfSome result (λ a. (a.region ≡ self.now.0) × (a.book ≡ self.now.1)) }
    {
        let place = &raw const self.arena as *mut Option<BoxedArena<SLI, UNIT>>;
        unsafe {
            let old = place.read();
            place.write(arena);
            old
        }
    }

    pub(crate) fn into_inner(self) -> Option<BoxedArena<SLI, UNIT>> {
        let Slot { arena } = self;
        arena
    }
}
