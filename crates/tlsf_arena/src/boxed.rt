// An arena behind a pointer: what gives it out and takes it back moves the pointer alone.
ghost use Rattle.std.specs.Prelude.{◌≡◌, ◌+◌, ◌≤◌};
ghost use Rattle.std.specs.Bool.{Decides};
ghost use Rattle.tlsf_heap.specs.Calls.{last_tick, released};
ghost use Rattle.tlsf_arena.specs.Arenas.{SameHome};
ghost use Rattle.tlsf_arena.specs.Effects.{IsLent};
ghost use Rattle.tlsf_arena.specs.Loans.{name_of};

use crate::arena::Arena;
use crate::piece::Piece;
use crate::right::Right;
use std::alloc::Global;
use std::marker::Model;
use std::mem::ManuallyDrop;

#[derive(Drop)]
pub(crate) struct BoxedArena<const SLI: u32, const UNIT: usize> {
    pub(crate) arena: Box<Arena<SLI, UNIT>, Global>,
}

impl<const SLI: u32, const UNIT: usize> Model for BoxedArena<SLI, UNIT> {
    ghost use Rattle.tlsf_arena.specs.Arenas.{ArenaState};

    ghost Value = { ArenaState };

    ghost view = { λ b. b.arena.value };
}

impl<const SLI: u32, const UNIT: usize> BoxedArena<SLI, UNIT> {
    // Takes a block back by its address, and answers whether it did: always but at the last tick, when the block is lost.
    #[tactic(auto, using(crate::proofs::Worn::worn_is_last, crate::proofs::Worn::done_is_fresh))]
    pub(crate) fn give(&mut self, piece: Piece, right: Right, guesses: (u32, u32)) -> bool
        requires lent { IsLent UNIT self.old (name_of right.loan) piece right }
        ensures given { Decides result (¬ (self.old.heap.tick ≡ last_tick)) }
        ensures heap { self.new.heap ≡ (released self.old.heap (name_of right.loan)).heap }
        ensures home { SameHome self.old self.new }
        ensures compared { self.new.compared ≤ self.old.compared + 27 }
        ensures touches { self.new.touches ≤ self.old.touches + 64 }
    {
        match self.arena.release_at(piece, right, guesses) {
            Ok(()) => true,
            Err((_, piece, right)) => {
                let _lost = unsafe { ManuallyDrop::new_unchecked((piece, right)) };
                false
            }
        }
    }
}
