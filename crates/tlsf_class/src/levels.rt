ghost use Rattle.std.specs.Prelude.{◌≡◌, ◌+◌, ◌<◌, length, slice_index, slice_set, replicate};

use crate::touches::Touches;
use std::marker::Model;

/// The words of the two levels, of 32 bits. One is of the first level, with a bit for each first level. The 21 after it are of the
/// second. Each has a bit for each class of its first level. Level 4 uses the first 18. They say how often one was read or written.
/// All reads and writes of them go through here, so that each is counted.
#[derive(Drop)]
pub(crate) struct Levels {
    first: u32,
    second: [u32; 21],
    touches: Touches,
}

impl Model for Levels {
    ghost use Rattle.std.specs.Prelude.{◌≡◌, length};
    ghost use Rattle.tlsf_class.specs.Steps.{CountedLevels};

    ghost Value = { CountedLevels };

    ghost view = { λ l. record { first = l.first; second = l.second; touches = l.touches.count } };

    ghost invariant = { λ l. length l.second ≡ 21 };
}

impl Levels {
    /// Every word is zero.
    #[inline(always)]
    pub(crate) fn new() -> Levels
        ensures { result ≡ record { first = 0; second = replicate 21 0; touches = 0 } }
    {
        Levels {
            first: 0,
            second: [0; 21],
            touches: Touches::new(),
        }
    }

    /// The first word of the first level, and the first of the second. All others are zero.
    #[inline(always)]
    pub(crate) fn of_first(first: u32, second: u32) -> Levels
        ensures { result ≡ record { first = first; second = slice_set (replicate 21 0) 0 second; touches = 0 } }
    {
        let mut words = [0; 21];
        words[0] = second;
        Levels {
            first,
            second: words,
            touches: Touches::new(),
        }
    }

    /// Reads the word of the first level.
    pub(crate) fn first_word(&mut self) -> u32
        ensures value { result ≡ self.old.first }
        ensures reads { self.new ≡ record self.old { touches = self.old.touches + 1 } }
    {
        self.touches.add_one();
        self.first
    }

    /// Writes the word of the first level.
    pub(crate) fn set_first_word(&mut self, word: u32)
        ensures { self.new ≡ record self.old { first = word; touches = self.old.touches + 1 } }
    {
        self.touches.add_one();
        self.first = word;
    }

    /// Reads the second-level word of a first level, 0 to 20.
    pub(crate) fn second_word(&mut self, first_level: usize) -> u32
        requires { first_level < 21 }
        ensures value { result ≡ slice_index self.old.second first_level }
        ensures reads { self.new ≡ record self.old { touches = self.old.touches + 1 } }
    {
        self.touches.add_one();
        self.second[first_level]
    }

    /// Writes the second-level word of a first level, 0 to 20.
    pub(crate) fn set_second_word(&mut self, first_level: usize, word: u32)
        requires { first_level < 21 }
        ensures { self.new ≡ record self.old { second = slice_set self.old.second first_level word; touches = self.old.touches + 1 } }
    {
        self.touches.add_one();
        self.second[first_level] = word;
    }

    /// Makes every word zero. One touch a word.
    pub(crate) fn clear(&mut self)
        ensures { self.new ≡ record { first = 0; second = replicate 21 0; touches = self.old.touches + 22 } }
    {
        self.first = 0;
        self.second = [0; 21];
        self.touches.add(22);
    }
}
