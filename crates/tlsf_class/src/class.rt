ghost use Rattle.std.specs.Prelude.{◌≡◌, ◌+◌, ◌-◌, ◌*◌, ◌/◌, ◌%◌, ◌<◌, ◌≤◌, Some};
ghost use Rattle.tlsf_class.specs.Classes.{IsLevel, level_classes, last_class, most_words, low, class_of, search_of};
ghost use Rattle.tlsf_class.specs.Steps.{IsInUse, IsStep};

use std::marker::Model;

/// A size class: a range of sizes in words, by its number, 4 to 272 at level 4 and 4 to 640 at level 5. Classes are ordered as
/// their sizes are (ECRTS 2004, section 3). There is no class of another level than these.
///
/// ```
/// let class = class_of::<4>(33);             // class 32, the sizes 32 and 33
/// let above = class < class_of(34);          // true: 34 begins class 33
/// ```
#[derive(Clone, Copy, Debug, PartialEq, Eq, PartialOrd, Ord)]
pub struct Class<const SLI: u32> {
    // As wide as an index, so that the head of its list is found without widening.
    number: usize,
}

impl<const SLI: u32> Model for Class<SLI> {
    ghost use Rattle.std.specs.Prelude.{ℕ, ◌≤◌};
    ghost use Rattle.tlsf_class.specs.Classes.{IsLevel, last_class};

    ghost Value = { ℕ };

    ghost view = { λ c. c.number };

    ghost invariant = { λ c. IsLevel SLI × (4 ≤ c.number) × (c.number ≤ last_class SLI) };

    ghost inverse = { λ n. record { number = n } };
}

impl<const SLI: u32> Class<SLI> {
    /// The class of these two indexes: a first level, from 0 on, and a second level, 0 to 15 or 31.
    pub(crate) fn at(first_level: u32, second_level: u32) -> Class<SLI>
        requires level { IsLevel SLI }
        requires below { second_level < level_classes SLI }
        requires least { 4 ≤ level_classes SLI * first_level + second_level }
        requires most { level_classes SLI * first_level + second_level ≤ last_class SLI }
        ensures { result ≡ level_classes SLI * first_level + second_level }
    {
        Class {
            number: ((first_level << SLI) + second_level) as usize,
        }
    }

    /// The class whose number is `n` greater than the number below that of the class.
    pub(crate) fn below_plus(self, n: u32) -> Class<SLI>
        requires least { 0 < n }
        requires most { self - 1 + n ≤ last_class SLI }
        ensures { result ≡ self.entry - 1 + n }
    {
        Class {
            number: self.number - 1 + n as usize,
        }
    }

    /// The number of the class as an index: see [`Class::number`].
    ///
    /// ```
    /// let head = heads[class.index()];
    /// ```
    pub fn index(self) -> usize
        ensures value { result ≡ self.entry }
        ensures level { IsLevel SLI }
        ensures least { 4 ≤ self.entry }
        ensures most { self.entry ≤ last_class SLI }
    {
        // Taken apart, so that the proof has the range of the field.
        let Class { number } = self;
        number
    }

    /// The number of the class, from 4 on: 16 times its first level, or 32 times at level 5, and its second level.
    ///
    /// ```
    /// let number = class_of::<4>(460).number();     // 92: first level 5, second level 12
    /// ```
    pub fn number(self) -> u32
        ensures value { result ≡ self.entry }
        ensures level { IsLevel SLI }
        ensures least { 4 ≤ self.entry }
        ensures most { self.entry ≤ last_class SLI }
    {
        self.index() as u32
    }

    /// The first level of the class, 0 to 17, or to 20 at level 5: which two powers of two its sizes lie between. Its clauses say
    /// the range of the number besides, which a proof can't read off the private field.
    pub(crate) fn first_level(self) -> usize
        ensures value { result ≡ self.entry / level_classes SLI }
        ensures bound { result < 21 }
        ensures in_use { IsInUse SLI self.entry }
    {
        self.number >> SLI
    }

    /// The second level of the class, 0 to 15, or to 31 at level 5: which sixteenth of its first level, or which 32nd.
    pub(crate) fn second_level(self) -> u32
        ensures value { result ≡ self.entry % level_classes SLI }
        ensures bound { result < 32 }
    {
        (self.number as u32) % (1 << SLI)
    }

    /// The first level of the number below that of the class, 0 to 17, or to 20 at level 5.
    pub(crate) fn first_level_below(self) -> usize
        ensures value { result ≡ (self.entry - 1) / level_classes SLI }
        ensures bound { result < 21 }
        ensures in_use { IsInUse SLI self.entry }
    {
        (self.number - 1) >> SLI
    }

    /// The second level of the number below that of the class, 0 to 15, or to 31 at level 5.
    pub(crate) fn second_level_below(self) -> u32
        ensures value { result ≡ (self.entry - 1) % level_classes SLI }
        ensures bound { result < 32 }
    {
        (self.number as u32 - 1) % (1 << SLI)
    }
}

/// The most words that a region may have. They are 2^20 at level 4, 8 MiB in words of 64 bits, and 2^24 at level 5, 128 MiB. The
/// last class begins here, so that each size of a block has a class and a search class.
///
/// ```
/// let class = class_of(most_words::<5>());     // class 640, the last
/// ```
#[inline]
pub fn most_words<const SLI: u32>() -> u32
    requires { IsLevel SLI }
    ensures { result ≡ most_words SLI }
{
    1 << (4 * SLI + 4)
}

/// The class of a size of `words`, at least 4 and no more than a region may have. It is the greatest one that begins at or below
/// it. A free block of this size is kept there (the mapping of ECRTS 2004, section 3). The size's highest bit gives the first
/// level, and the four bits below it, or five at level 5, the second level.
///
/// ```
/// let class = class_of::<4>(460);         // class 92
/// let least = low(class);                 // 448 words
/// let finer = low(class_of::<5>(460));    // 456 words
/// ```
pub fn class_of<const SLI: u32>(words: u32) -> Class<SLI>
    requires level { IsLevel SLI }
    requires least { 4 ≤ words }
    requires most { words ≤ most_words SLI }
    ensures { result ≡ class_of SLI words }
{
    let step = step_of::<SLI>(words);
    Class {
        number: ((words >> step) + (step << SLI)) as usize,
    }
}

/// The search class of a size of `words`, at least 4 and no more than a region may have. It is the least class that has no size
/// below `words`. Each block of this class or a greater one is large enough. So no block has to be measured (good fit: ECRTS 2004,
/// section 3).
///
/// ```
/// let search = search_of::<4>(460);       // class 93, which begins at 464 words
/// let exact = search_of::<4>(464);        // class 93 too
/// ```
pub fn search_of<const SLI: u32>(words: u32) -> Class<SLI>
    requires level { IsLevel SLI }
    requires least { 4 ≤ words }
    requires most { words ≤ most_words SLI }
    ensures { search_of SLI words ≡ Some result }
{
    let step = step_of::<SLI>(words);
    // The steps are rounded up: one more than a size of one word less has.
    Class {
        number: (((words - 1) >> step) + 1 + (step << SLI)) as usize,
    }
}

/// The step from class to class at a size, by its exponent: the number of bits below the five highest, or six. It is 2^0 to 2^16
/// words, or to 2^19 at level 5. At level 4 a size has 16 to 31 steps. Below 16 words it has one for each word, and bit 4 stands in
/// as the highest. 32 steps would be 16 of twice the step. So a class is the number of steps and 16 for each doubling, and no size
/// is a case of its own. At level 5 each of these numbers is twice as great.
fn step_of<const SLI: u32>(words: u32) -> u32
    requires level { IsLevel SLI }
    requires most { words ≤ most_words SLI }
    ensures { IsStep SLI words result }
{
    (words | (1 << SLI)).ilog2() - SLI
}

/// The least size of a class in words, from 4 to as many as a region may have.
///
/// ```
/// let least = low(class_of::<4>(33));     // 32 words
/// ```
pub fn low<const SLI: u32>(class: Class<SLI>) -> u32
    ensures { result ≡ low SLI class.entry }
{
    let first_level = class.first_level() as u32;
    if first_level == 0 {
        class.second_level()
    } else {
        (1 << (first_level + (SLI - 1))) + (class.second_level() << (first_level - 1))
    }
}
