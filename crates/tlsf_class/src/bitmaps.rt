ghost use Rattle.std.specs.Prelude.{◌≡◌, ◌↔◌, ◌+◌, ◌≤◌, [], Contains, IsTrue};
ghost use Rattle.tlsf_class.specs.Classes.{IsLevel};
ghost use Rattle.tlsf_class.specs.Members.{with_member, without_member, next_member};

use crate::bits::{
    is_bit_set, lowest_bit, lowest_bit_from, steps_above_bit, with_bit, without_bit,
};
use crate::class::Class;
use crate::levels::Levels;
use std::marker::Model;

/// A set of classes, as of those that have a free block, in two levels of bitmaps (ECRTS 2004, section 3). It holds 22
/// words of 32 bits and takes no other memory. A call on one class reads and writes four words at most. Each read and
/// write counts as a touch.
///
/// ```
/// let mut bitmaps = Bitmaps::<4>::new();
/// bitmaps.set(class_of(64));
/// let next = bitmaps.next_from(search_of(33));     // Some: class 48, of 64 to 67 words
/// ```
#[derive(Drop)]
pub struct Bitmaps<const SLI: u32> {
    levels: Levels,
}

impl<const SLI: u32> Model for Bitmaps<SLI> {
    ghost use Rattle.tlsf_class.specs.Bitmaps.{marked_in, AreLevels};
    ghost use Rattle.tlsf_class.specs.Members.{ClassSet};

    ghost Value = { ClassSet };

    ghost view = { λ b. record { members = marked_in SLI b.levels.first b.levels.second; touches = b.levels.touches } };

    ghost invariant = { λ b. AreLevels SLI b.levels.first b.levels.second };
}

impl<const SLI: u32> Bitmaps<SLI> {
    /// The empty set. It makes no touch: the first zeros aren't counted.
    ///
    /// ```
    /// let none = Bitmaps::<4>::new().next_from(class_of(4));     // None
    /// ```
    #[inline(always)]
    pub fn new() -> Bitmaps<SLI>
        requires { IsLevel SLI }
        ensures members { result.members ≡ [] }
        ensures touches { result.touches ≡ 0 }
    {
        Bitmaps {
            levels: Levels::new(),
        }
    }

    /// The set of the class of 4 words, the first. It makes no touch.
    ///
    /// ```
    /// let least = Bitmaps::<4>::of_least().next_from(class_of(4));     // Some: class 4
    /// ```
    #[inline(always)]
    pub fn of_least() -> Bitmaps<SLI>
        requires { IsLevel SLI }
        ensures members { result.members ≡ with_member SLI [] 4 }
        ensures touches { result.touches ≡ 0 }
    {
        Bitmaps {
            levels: Levels::of_first(with_bit(0, 0), with_bit(0, 4)),
        }
    }

    /// Makes a class a member, if it isn't one. Four touches at most.
    ///
    /// ```
    /// bitmaps.set(class_of(20));
    /// let is_member = bitmaps.holds(class_of(20));     // true
    /// ```
    pub fn set(&mut self, class: Class<SLI>)
        ensures members { self.new.members ≡ with_member SLI self.old.members class.entry }
        ensures touches { self.new.touches ≤ self.old.touches + 4 }
        ensures rise { self.old.touches ≤ self.new.touches }
    {
        // Both words are read before one is written: LLVM then sets a bit in a register, and a test would take longer.
        let first_level = class.first_level();
        let first_word = self.levels.first_word();
        let word = self.levels.second_word(first_level);
        self.levels
            .set_first_word(with_bit(first_word, first_level as u32));
        let wider = with_bit(word, class.second_level());
        self.levels.set_second_word(first_level, wider);
    }

    /// Takes a class out, if it is a member. Four touches at most.
    ///
    /// ```
    /// bitmaps.clear(class_of(20));
    /// let is_member = bitmaps.holds(class_of(20));     // false
    /// ```
    pub fn clear(&mut self, class: Class<SLI>)
        ensures members { self.new.members ≡ without_member self.old.members class.entry }
        ensures touches { self.new.touches ≤ self.old.touches + 4 }
        ensures rise { self.old.touches ≤ self.new.touches }
    {
        let first_level = class.first_level();
        let word = without_bit(self.levels.second_word(first_level), class.second_level());
        self.levels.set_second_word(first_level, word);
        if word == 0 {
            let first_word = self.levels.first_word();
            self.levels
                .set_first_word(without_bit(first_word, first_level as u32));
        }
    }

    /// Takes every class out. 22 touches, one a word.
    ///
    /// ```
    /// bitmaps.clear_all();
    /// let none = bitmaps.next_from(class_of(4));     // None
    /// ```
    pub fn clear_all(&mut self)
        ensures members { self.new.members ≡ [] }
        ensures touches { self.new.touches ≡ self.old.touches + 22 }
    {
        self.levels.clear();
    }

    /// Whether a class is a member. One touch. No heap asks it, since [`Bitmaps::next_from`] tells more: it is for those
    /// who use the set by itself, and for tests.
    ///
    /// ```
    /// let has_blocks = bitmaps.holds(class_of(32));
    /// ```
    pub fn holds(&mut self, class: Class<SLI>) -> bool
        ensures answer { IsTrue result ↔ Contains self.old.members class.entry }
        ensures same { self.new.members ≡ self.old.members }
        ensures touches { self.new.touches ≡ self.old.touches + 1 }
    {
        let word = self.levels.second_word(class.first_level());
        is_bit_set(word, class.second_level())
    }

    /// The least member at or above a class, `None` where there is none. Three touches at most, however
    /// many classes lie between (ECRTS 2004, section 3).
    ///
    /// ```
    /// let class = bitmaps.next_from(search_of(33))?;     // of blocks of 34 words or more
    /// ```
    pub fn next_from(&mut self, class: Class<SLI>) -> Option<Class<SLI>>
        ensures least { result ≡ next_member self.old.members class.entry }
        ensures same { self.new.members ≡ self.old.members }
        ensures touches { self.new.touches ≤ self.old.touches + 3 }
        ensures rise { self.old.touches ≤ self.new.touches }
    {
        // From the number below on, and then one above: a search class is one above a number that is at hand.
        let first_level = class.first_level_below();
        let word = self.levels.second_word(first_level);
        if let Some(n) = steps_above_bit(word, class.second_level_below()) {
            return Some(class.below_plus(n));
        }
        let first_word = self.levels.first_word();
        let first_level = lowest_bit_from(first_word, first_level as u32 + 1)?;
        let word = self.levels.second_word(first_level as usize);
        Some(Class::at(first_level, lowest_bit(word)))
    }
}

impl Default for Bitmaps<4> {
    ghost is_default = { λ bitmaps. (bitmaps.members ≡ []) × (bitmaps.touches ≡ 0) };

    /// The empty set, as `new` gives it. Types that hold a set of classes can so derive their own `Default`; no crate of
    /// this repository calls it but for tests.
    ///
    /// ```
    /// let bitmaps = Bitmaps::<4>::default();
    /// ```
    fn default() -> Bitmaps<4> {
        Bitmaps::new()
    }
}

impl Default for Bitmaps<5> {
    ghost is_default = { λ bitmaps. (bitmaps.members ≡ []) × (bitmaps.touches ≡ 0) };

    /// The empty set of level 5, as `new` gives it.
    ///
    /// ```
    /// let bitmaps = Bitmaps::<5>::default();
    /// ```
    fn default() -> Bitmaps<5> {
        Bitmaps::new()
    }
}
