ghost use Rattle.std.specs.Prelude.{◌≡◌, ◌≢◌, ℕ, ◌+◌, ◌≤◌, slice_index_or};
ghost use Rattle.tlsf_class.specs.Classes.{IsLevel, last_class};
ghost use Rattle.tlsf_words.specs.Lists.{nowhere};

use std::marker::Model;
use tlsf_class::{Class, Touches};

/// No place, 2^32 - 1: where a list of places ends, and what stands before the first block of a region. A place is below 2^24, so
/// no block begins there.
///
/// ```
/// let links = Links { next: 8, previous: NO_PLACE };     // the head of a list: 8 comes next, and nothing before
/// ```
pub const NO_PLACE: u32 = u32::MAX;

/// For each class, by its number, the place where its list begins, `NO_PLACE` for none, and how often one of them was read or
/// written. No class has a number below 4: those entries are never read, and stay so that a number needs no sum.
#[derive(Drop)]
pub(crate) struct Heads<const SLI: u32> {
    places: [u32; 641],
    touches: Touches,
}

impl<const SLI: u32> Model for Heads<SLI> {
    ghost use Rattle.std.specs.Prelude.{◌≡◌, length};
    ghost use Rattle.tlsf_words.specs.Counted.{CountedHeads};

    ghost Value = { CountedHeads };

    ghost view = { λ h. record { places = h.places; touches = h.touches.count } };

    ghost invariant = { λ h. length h.places ≡ 641 };
}

impl<const SLI: u32> Heads<SLI> {
    /// No list has a place.
    #[inline(always)]
    pub(crate) fn new() -> Heads<SLI>
        ensures places { (class : ℕ) → slice_index_or result.places class nowhere ≡ nowhere }
        ensures touches { result.touches ≡ 0 }
    {
        Heads {
            places: [NO_PLACE; 641],
            touches: Touches::new(),
        }
    }

    /// Makes the list of 4 words begin at a place, or nowhere. The touches are counted from here on.
    #[inline(always)]
    pub(crate) fn begin_least(&mut self, at: u32)
        ensures least { slice_index_or self.new.places 4 nowhere ≡ at }
        ensures others { (class : ℕ) → class ≢ 4 → slice_index_or self.new.places class nowhere ≡ slice_index_or self.old.places class nowhere }
        ensures touches { self.new.touches ≡ 0 }
    {
        self.places[4] = at;
        self.touches = Touches::new();
    }

    /// The place where the list of a class begins. Each read of a head is here.
    #[inline]
    pub(crate) fn place(&mut self, class: Class<SLI>) -> u32
        ensures value { result ≡ slice_index_or self.old.places class.entry nowhere }
        ensures places { self.new.places ≡ self.old.places }
        ensures touches { self.new.touches ≡ self.old.touches + 1 }
    {
        self.touches.add_one();
        self.places[class.index()]
    }

    /// Makes the list of a class begin at a place. Each write of one head is here. The clauses say the range of the class's
    /// number besides, which a proof can't read off the private field.
    #[inline]
    pub(crate) fn set_place(&mut self, class: Class<SLI>, at: u32)
        ensures value { slice_index_or self.new.places class.entry nowhere ≡ at }
        ensures others { (other : ℕ) → other ≢ class.entry → slice_index_or self.new.places other nowhere ≡ slice_index_or self.old.places other nowhere }
        ensures least { 4 ≤ class.entry }
        ensures most { class.entry ≤ last_class SLI }
        ensures level { IsLevel SLI }
        ensures touches { self.new.touches ≡ self.old.touches + 1 }
    {
        self.touches.add_one();
        self.places[class.index()] = at;
    }

    /// Makes every list begin nowhere. One touch for each number that a class might have, and those below 4.
    pub(crate) fn clear(&mut self)
        ensures places { (class : ℕ) → slice_index_or self.new.places class nowhere ≡ nowhere }
        ensures touches { self.new.touches ≡ self.old.touches + 641 }
    {
        self.places = [NO_PLACE; 641];
        self.touches.add(641);
    }
}
