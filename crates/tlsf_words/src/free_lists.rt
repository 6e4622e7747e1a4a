ghost use Rattle.std.specs.Prelude.{◌≡◌, ◌≢◌, ◌↔◌, ℕ, ◌+◌, ◌^◌, ◌<◌, ◌≤◌, true, false, [], ◌∷◌, List, length, Contains, slice_get, slice_index, slice_index_or, slice_set};
ghost use Rattle.tlsf_class.specs.Classes.{IsLevel, most_words, class_of};
ghost use Rattle.tlsf_class.specs.Members.{next_member, without_member};
ghost use Rattle.tlsf_words.specs.Fields.{links_word, low_half, high_half};
ghost use Rattle.tlsf_words.specs.Frame.{Reads, Writes};
ghost use Rattle.tlsf_words.specs.Lists.{nowhere, list_of, without_place, AreThreaded, IsUnlisted};
ghost use Rattle.tlsf_words.specs.Ties.{AreTied};
ghost use Rattle.tlsf_words.specs.Relinks.{ListsLeast, Relists, Relinks, TouchesLinks};
ghost use Rattle.tlsf_words.specs.Touched.{OnlyTied};

use crate::heads::{Heads, NO_PLACE};
use crate::links::Links;
use crate::words::Words;
use std::marker::Model;
use tlsf_class::{Bitmaps, Class, class_of, low};

/// Lists of places, one for each class, threaded through the third words of their headers, and bitmaps of the classes whose lists
/// aren't empty. They are the segregated lists of two-level segregated fit (ECRTS 2004, section 3). A list is last in, first out.
/// Nothing allocates, and no list is walked, however long the lists are. To put a place in makes seven touches at most, and to take
/// one out six. To take out the first, which isn't known yet, makes seven.
///
/// ```
/// let mut lists = FreeLists::<4>::new();
/// lists.push(&mut words, class_of(12), 0);                     // the block at place 0 has 12 words
/// let at = lists.first(lists.next_from(search_of(9))?)?;       // 0
/// lists.remove(&mut words, class_of(12), at);
/// ```
#[derive(Drop)]
pub struct FreeLists<const SLI: u32> {
    // First: see `Heap`.
    bitmaps: Bitmaps<SLI>,
    heads: Heads<SLI>,
}

impl<const SLI: u32> Model for FreeLists<SLI> {
    ghost use Rattle.std.specs.Prelude.{◌+◌};
    ghost use Rattle.tlsf_words.specs.Lists.{ListHeads};

    ghost Value = { ListHeads };

    ghost view = { λ f. record { heads = f.heads.places; members = f.bitmaps.members; touches = f.heads.touches + f.bitmaps.touches } };
}

impl<const SLI: u32> FreeLists<SLI> {
    /// Lists with no place in any. It makes no touch: the first heads aren't counted.
    ///
    /// ```
    /// let none = FreeLists::<4>::new().next_from(class_of(4));     // None
    /// ```
    #[inline(always)]
    pub fn new() -> FreeLists<SLI>
        requires { IsLevel SLI }
        ensures empty { (words : List ℕ) (class : ℕ) → list_of result.heads words class ≡ [] }
        ensures threaded { (words : List ℕ) → AreThreaded SLI result.heads result.members words }
        ensures touches { result.touches ≡ 0 }
    {
        FreeLists {
            heads: Heads::new(),
            bitmaps: Bitmaps::new(),
        }
    }

    /// The place 0 alone, in the list of 4 words. It makes no touch, and no word is written: the links of the place name none.
    ///
    /// ```
    /// let first = FreeLists::<4>::of_least().first(class_of(4));     // Some(0)
    /// ```
    #[inline(always)]
    pub fn of_least() -> FreeLists<SLI>
        requires { IsLevel SLI }
        ensures least { (words : List ℕ) → 2 < length words → length words ≤ 2 ^ 24 → slice_index words 2 ≡ links_word nowhere nowhere → ListsLeast SLI result.heads result.members words }
        ensures touches { result.touches ≡ 0 }
    {
        let mut heads = Heads::new();
        heads.begin_least(0);
        FreeLists {
            heads,
            bitmaps: Bitmaps::of_least(),
        }
    }

    /// Takes out the place that is in the list of 4 words, where no other list has one. The touches are counted from here on. No word
    /// of the region is read or written.
    ///
    /// ```
    /// let mut lists = FreeLists::<4>::of_least();
    /// lists.leave_least();
    /// let none = lists.next_from(class_of(4));     // None
    /// ```
    pub fn leave_least(&mut self)
        requires level { IsLevel SLI }
        requires others { (class : ℕ) → class ≢ 4 → slice_index_or self.old.heads class nowhere ≡ nowhere }
        ensures empty { (words : List ℕ) (class : ℕ) → list_of self.new.heads words class ≡ [] }
        ensures threaded { (words : List ℕ) → AreThreaded SLI self.new.heads self.new.members words }
        ensures touches { self.new.touches ≡ 0 }
    {
        self.heads.begin_least(NO_PLACE);
        self.bitmaps = Bitmaps::new();
    }

    /// Takes every place out of its list. It makes 663 touches: one for each head and each word of the bitmaps. No word of the
    /// region is read or written, so the links stay as they lie.
    ///
    /// ```
    /// lists.clear();
    /// let none = lists.next_from(class_of(4));     // None
    /// ```
    pub fn clear(&mut self)
        requires { IsLevel SLI }
        ensures empty { (words : List ℕ) (class : ℕ) → list_of self.new.heads words class ≡ [] }
        ensures threaded { (words : List ℕ) → AreThreaded SLI self.new.heads self.new.members words }
        ensures touches { self.new.touches ≡ self.old.touches + 663 }
    {
        self.heads.clear();
        self.bitmaps.clear_all();
    }

    /// Puts a place that is in no list at the head of the list of a class, in seven touches at most. It writes the links of
    /// the place and those of the head before.
    ///
    /// ```
    /// lists.push(&mut words, class_of(12), 20);
    /// let head = lists.first(class_of(12));     // Some(20)
    /// ```
    pub fn push(&mut self, words: &mut Words, class: Class<SLI>, at: u32)
        requires threaded { AreThreaded SLI self.old.heads self.old.members words.old.words }
        requires inside { at + 2 < length words.old.words }
        requires unlisted { IsUnlisted (list_of self.old.heads words.old.words) at }
        ensures lists { Relists SLI class.entry (at ∷ list_of self.old.heads words.old.words class.entry) self.old words.old.words self.new words.new.words }
        ensures links { Relinks 7 self.old words.old self.new words.new }
        ensures footprint { TouchesLinks 2 (list_of self.old.heads words.old.words) at words.old.touched words.new.touched }
    {
        // Read, so that the proof has the range of a place.
        let _count = words.len();
        let next = self.heads.place(class);
        self.heads.set_place(class, at);
        // Each case writes its own links: those of a place that is alone are a constant.
        if !is_place(next) {
            words.set_links(
                at,
                Links {
                    next: NO_PLACE,
                    previous: NO_PLACE,
                },
            );
            self.bitmaps.set(class);
        } else {
            words.link(
                at,
                Links {
                    next,
                    previous: NO_PLACE,
                },
            );
        }
    }

    /// Takes a place out of the list of its class, in six touches at most: an [`FreeLists::unlink`] for those who know the class alone.
    ///
    /// ```
    /// lists.remove(&mut words, class_of(12), 20);     // 20 was in the list of class 12, anywhere
    /// ```
    pub fn remove(&mut self, words: &mut Words, class: Class<SLI>, at: u32)
        requires threaded { AreThreaded SLI self.old.heads self.old.members words.old.words }
        requires listed { Contains (list_of self.old.heads words.old.words class) at }
        ensures lists { Relists SLI class.entry (without_place at (list_of self.old.heads words.old.words class.entry)) self.old words.old.words self.new words.new.words }
        ensures links { Relinks 6 self.old words.old self.new words.new }
        ensures footprint { TouchesLinks 3 (list_of self.old.heads words.old.words) at words.old.touched words.new.touched }
    {
        // Read, so that the proof has the range of the class.
        let _number = class.number();
        self.unlink(words, low(class), at);
    }

    /// Takes the place of a block of `size` words out of the list of its class, in six touches at most. It reads the place's own links
    /// and writes those of its two neighbours, so that the list isn't walked. Only the head of a list needs the class, which is worked
    /// out there alone.
    ///
    /// ```
    /// lists.unlink(&mut words, 12, 20);     // 20 was in the list of the class of 12 words, anywhere
    /// ```
    pub fn unlink(&mut self, words: &mut Words, size: u32, at: u32)
        requires level { IsLevel SLI }
        requires least { 4 ≤ size }
        requires most { size ≤ most_words SLI }
        requires threaded { AreThreaded SLI self.old.heads self.old.members words.old.words }
        requires listed { Contains (list_of self.old.heads words.old.words (class_of SLI size)) at }
        ensures lists { Relists SLI (class_of SLI size) (without_place at (list_of self.old.heads words.old.words (class_of SLI size))) self.old words.old.words self.new words.new.words }
        ensures links { Relinks 6 self.old words.old self.new words.new }
        ensures footprint { TouchesLinks 3 (list_of self.old.heads words.old.words) at words.old.touched words.new.touched }
    {
        let links = words.links(at);
        if is_place(links.previous) {
            tie(words, links);
        } else {
            self.begin_at(words, class_of(size), links.next);
        }
    }

    /// Takes out the place at the head of the list of a class, the one that was put in last, and answers it. Makes seven touches at
    /// most. The list isn't empty: that of a class which [`FreeLists::next_from`] answered never is. No place stands before the
    /// head, so one neighbour is written at most.
    ///
    /// ```
    /// let class = lists.next_from(search_of(9))?;
    /// let at = lists.pop_first(&mut words, class);     // the one that `first` answers, and it is in no list any more
    /// ```
    pub fn pop_first(&mut self, words: &mut Words, class: Class<SLI>) -> u32
        requires threaded { AreThreaded SLI self.old.heads self.old.members words.old.words }
        requires some { ¬ (list_of self.old.heads words.old.words class ≡ []) }
        ensures lists { Relists SLI class.entry (without_place result (list_of self.old.heads words.old.words class.entry)) self.old words.old.words self.new words.new.words }
        ensures first { list_of self.old.heads words.old.words class.entry ≡ result ∷ list_of self.new.heads words.new.words class.entry }
        ensures links { Relinks 7 self.old words.old self.new words.new }
        ensures footprint { TouchesLinks 2 (list_of self.old.heads words.old.words) result words.old.touched words.new.touched }
    {
        let head = self.heads.place(class);
        let next = words.links(head).next;
        self.begin_at(words, class, next);
        head
    }

    /// The place at the head of the list of a class, the one that was put in last, `None` where the list is empty. One touch.
    ///
    /// ```
    /// let head = lists.first(class_of(12));
    /// ```
    pub fn first(&mut self, class: Class<SLI>) -> Option<u32>
        ensures place { (words : List ℕ) → AreThreaded SLI self.old.heads self.old.members words → result ≡ slice_get (list_of self.old.heads words class.entry) 0 }
        ensures heads { self.new.heads ≡ self.old.heads }
        ensures members { self.new.members ≡ self.old.members }
        ensures touches { self.new.touches ≡ self.old.touches + 1 }
    {
        let at = self.heads.place(class);
        if at == NO_PLACE { None } else { Some(at) }
    }

    /// Whether a place that is in a list is the first of it: its links name none before it. One touch.
    ///
    /// ```
    /// lists.push(&mut words, class_of(12), 20);
    /// let stands_first = lists.is_first(&mut words, 20);     // true
    /// ```
    pub fn is_first(&self, words: &mut Words, at: u32) -> bool
        requires threaded { AreThreaded SLI self.now.heads self.now.members words.old.words }
        requires listed { (class : ℕ) × Contains (list_of self.now.heads words.old.words class) at }
        ensures first { (class : ℕ) → Contains (list_of self.now.heads words.old.words class) at → (result ≡ true) ↔ (list_of self.now.heads words.old.words class ≡ at ∷ without_place at (list_of self.now.heads words.old.words class)) }
        ensures reads { Reads (at + 2) words.old words.new }
    {
        !is_place(words.links(at).previous)
    }

    /// The least class at or above a class whose list isn't empty, `None` where there is none. Three touches at most
    /// (ECRTS 2004, section 3).
    ///
    /// ```
    /// let class = lists.next_from(search_of(9))?;     // each of its blocks has 9 words or more
    /// ```
    pub fn next_from(&mut self, class: Class<SLI>) -> Option<Class<SLI>>
        ensures least { result ≡ next_member self.old.members class.entry }
        ensures heads { self.new.heads ≡ self.old.heads }
        ensures members { self.new.members ≡ self.old.members }
        ensures touches { self.new.touches ≤ self.old.touches + 3 }
        ensures rise { self.old.touches ≤ self.new.touches }
    {
        self.bitmaps.next_from(class)
    }

    /// Makes the list of a class begin at the place behind its head, with none before it. The class is no member where that is
    /// `NO_PLACE`. A head goes so, and `tie` takes out what has a place before it: the proof of each has few cases.
    #[tactic(auto, using(crate::proofs::Touching::times_other))]
    fn begin_at(&mut self, words: &mut Words, class: Class<SLI>, next: u32)
        requires { next ≢ nowhere → next + 2 < length words.old.words }
        ensures head { slice_index_or self.new.heads class.entry nowhere ≡ next }
        ensures heads { (other : ℕ) → other ≢ class.entry → slice_index_or self.new.heads other nowhere ≡ slice_index_or self.old.heads other nowhere }
        ensures emptied { next ≡ nowhere → self.new.members ≡ without_member self.old.members class.entry }
        ensures members { next ≢ nowhere → self.new.members ≡ self.old.members }
        ensures tied { AreTied words.old.words words.new.words next nowhere }
        ensures links { Relinks 5 self.old words.old self.new words.new }
        ensures touched { OnlyTied next nowhere words.old.touched words.new.touched }
    {
        if next == NO_PLACE {
            self.heads.set_place(class, NO_PLACE);
            self.bitmaps.clear(class);
        } else {
            set_previous(words, next, NO_PLACE);
            self.heads.set_place(class, next);
        }
    }
}

/// Whether this is a place, and not `NO_PLACE`. A place is below 2^24, so the highest bit tells, which takes no constant to compare
/// with.
#[inline]
fn is_place(at: u32) -> bool
    requires { at ≢ nowhere → at < 2 ^ 24 }
    ensures yes { result ≡ true → at ≢ nowhere }
    ensures no { result ≡ false → at ≡ nowhere }
{
    at < 1 << 31
}

/// Ties a place and the one that comes next, which may be `NO_PLACE`, to each other.
#[tactic(auto, using(crate::proofs::Touching::times_other))]
fn tie(words: &mut Words, links: Links)
    requires next { links.next ≢ nowhere → links.next + 2 < length words.old.words }
    requires some { links.previous ≢ nowhere }
    requires previous { links.previous + 2 < length words.old.words }
    requires apart { links.next ≢ nowhere → links.next ≢ links.previous }
    ensures tied { AreTied words.old.words words.new.words links.next links.previous }
    ensures length { length words.new.words ≡ length words.old.words }
    ensures starts { words.new.starts ≡ words.old.starts }
    ensures stays { words.new.extents ≡ words.old.extents }
    ensures touches { words.new.touches ≤ words.old.touches + 4 }
    ensures touched { OnlyTied links.next links.previous words.old.touched words.new.touched }
    ensures rise { words.old.touches ≤ words.new.touches }
{
    if links.next == NO_PLACE {
        set_next(words, links.previous, NO_PLACE);
    } else {
        let before = words.links(links.previous);
        words.link(
            links.previous,
            Links {
                next: links.next,
                ..before
            },
        );
    }
}

/// Writes the next place of the place `at`.
fn set_next(words: &mut Words, at: u32, next: u32)
    requires { at + 2 < length words.old.words }
    ensures writes { Writes ((at + 2) ∷ (at + 2) ∷ []) (slice_set words.old.words (at + 2) (links_word next (high_half (slice_index words.old.words (at + 2))))) words.old words.new }
{
    let links = words.links(at);
    words.set_links(at, Links { next, ..links });
}

/// Writes the previous place of the place `at`.
fn set_previous(words: &mut Words, at: u32, previous: u32)
    requires { at + 2 < length words.old.words }
    ensures writes { Writes ((at + 2) ∷ (at + 2) ∷ []) (slice_set words.old.words (at + 2) (links_word (low_half (slice_index words.old.words (at + 2))) previous)) words.old words.new }
{
    let links = words.links(at);
    words.set_links(at, Links { previous, ..links });
}
