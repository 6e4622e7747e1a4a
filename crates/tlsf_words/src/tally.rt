ghost use Rattle.std.specs.Prelude.{◌≡◌, ◌+◌, ◌<◌, ◌^◌, [], ◌∷◌};
ghost use Rattle.tlsf_words.specs.Counted.{Within, Notes};

use crate::places::Places;
use std::marker::Model;
use tlsf_class::Touches;

/// How often a word of a region was read or written, and which ones. It has no bytes and does nothing: contracts alone see it.
#[derive(Drop)]
pub(crate) struct Tally {
    touches: Touches,
    places: Places,
}

impl Model for Tally {
    ghost use Rattle.tlsf_words.specs.Counted.{Tallied};

    ghost Value = { Tallied };

    ghost view = { λ t. record { touches = t.touches.count; touched = t.places.list } };
}

impl Tally {
    /// No word was read or written yet.
    #[inline]
    pub(crate) fn new() -> Tally
        ensures touches { result.touches ≡ 0 }
        ensures touched { result.touched ≡ [] }
    {
        Tally {
            touches: Touches::new(),
            places: Places::new(),
        }
    }

    /// Notes one read or write of the word at a place.
    #[inline]
    pub(crate) fn note(&mut self, at: usize)
        ensures tally { Notes (at ∷ []) self.old self.new }
    {
        self.touches.add_one();
        self.places.add(at);
    }

    /// Notes one of each of `n` words, from a place on.
    #[inline]
    pub(crate) fn note_all(&mut self, from: usize, n: usize)
        requires { from + n < 2 ^ 64 }
        ensures tally { Within n from (from + n) self.old self.new }
    {
        self.touches.add(n);
        self.places.add_all(from, n);
    }
}
