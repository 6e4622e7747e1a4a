ghost use Rattle.std.specs.Fn.{FnOnceReturnsAt, FnOnceReturnsAtMut, FnOnceTakesAt, FnOnceTakesAtMut};
ghost use Rattle.std.specs.Prelude.{◌≡◌, ℕ, ◌+◌, ◌/◌, ◌<◌, ◌≤◌, ◌^◌, [], ◌∷◌, ◌++◌, false, length, take, drop, replicate, slice_index, slice_index_or, slice_set, IfOk};
ghost use Rattle.tlsf_words.specs.Fields.{tag_word, size_in, last_in, free_in, back_in, length_word, links_word, low_half, high_half};
ghost use Rattle.tlsf_words.specs.Frame.{Reads, Writes, TouchesStarts};
ghost use Rattle.tlsf_words.specs.Touched.{times};

mod bytes;

use crate::cells::Cells;
use crate::halves::low_half;
use crate::links::Links;
use crate::no_memory::NoMemory;
use crate::start_map::StartMap;
use crate::tag::Tag;
use std::alloc::Global;
use std::marker::Model;

/// The 64-bit words of a region, 4 to 2^24, and a map that says at which of them a block starts. A place is the number of a word,
/// from 0 on. Nothing but `open` allocates. A call that reads or writes one field or one start bit makes one touch.
///
/// `small` of the records that clauses cite says that there are at most 2^24 words. A caller's proof can't read that off the private
/// fields.
///
/// ```
/// let mut words = Words::open(alloc, 64)?;
/// words.set_tag(0, Tag::new(64, true, true, NO_PLACE));
/// words.set_start(0, true);     // one free block of 64 words
/// ```
#[derive(Drop)]
pub struct Words {
    words: Cells,
    starts: StartMap,
}

impl Model for Words {
    ghost use Rattle.std.specs.Prelude.{◌+◌};
    ghost use Rattle.tlsf_words.specs.Memory.{Memory, IsRegion};

    ghost Value = { Memory };

    ghost view = { λ w. record { words = w.words.words; starts = w.starts.starts; extents = record { words = w.words.extent; starts = w.starts.extent }; touches = w.words.touches + w.starts.touches; touched = w.words.touched } };

    ghost invariant = { λ w. IsRegion w.words.words w.starts.starts };
}

impl Words {
    /// A region of `n` words, 4 to 2^24: each word is zero, and no block starts anywhere. The first zeros and the
    /// empty map aren't counted. It fails only for want of memory.
    ///
    /// ```
    /// let words = Words::open(alloc, 64)?;     // 512 bytes of words, and 8 of the map
    /// ```
    pub fn open(alloc: Global, n: u32) -> Result<Words, NoMemory>
        requires least { 4 ≤ n }
        requires most { n ≤ 2 ^ 24 }
        ensures words { IfOk result (λ region. region.words ≡ replicate n 0) }
        ensures starts { IfOk result (λ region. region.starts ≡ replicate n false) }
        ensures touches { IfOk result (λ region. region.touches ≡ 0) }
        ensures touched { IfOk result (λ region. region.touched ≡ []) }
    {
        let words = Cells::open(alloc, n)?;
        let starts = StartMap::open(alloc, n)?;
        Ok(Words { words, starts })
    }

    /// A region of four words in memory for `n`, 4 to 2^24: each word is zero, and no block starts anywhere. It fails only for want of
    /// memory.
    ///
    /// ```
    /// let words = Words::open_for(alloc, 64)?;     // words.len() == 4
    /// ```
    pub fn open_for(alloc: Global, n: u32) -> Result<Words, NoMemory>
        requires least { 4 ≤ n }
        requires most { n ≤ 2 ^ 24 }
        ensures words { IfOk result (λ region. region.words ≡ replicate 4 0) }
        ensures starts { IfOk result (λ region. region.starts ≡ replicate 4 false) }
        ensures touches { IfOk result (λ region. region.touches ≡ 0) }
        ensures touched { IfOk result (λ region. region.touched ≡ []) }
        ensures words_room { IfOk result (λ region. n ≤ region.extents.words.capacity) }
        ensures starts_room { IfOk result (λ region. (n + 63) / 64 ≤ region.extents.starts.capacity) }
    {
        let words = Cells::open_for(alloc, n)?;
        let starts = StartMap::open_for(alloc, n)?;
        Ok(Words { words, starts })
    }

    /// Makes it a region of `n` words, where no block starts. Zeros come after the words that there are. The touches are counted from
    /// here on.
    pub fn lengthen(&mut self, n: u32)
        requires least { length self.old.words ≤ n }
        requires most { n ≤ 2 ^ 24 }
        requires words_room { n ≤ self.old.extents.words.capacity }
        requires starts_room { (n + 63) / 64 ≤ self.old.extents.starts.capacity }
        ensures words { length self.new.words ≡ n }
        ensures starts { self.new.starts ≡ replicate n false }
        ensures touches { self.new.touches ≡ 0 }
        ensures touched { self.new.touched ≡ [] }
    {
        self.words.lengthen(n);
        self.starts.lengthen(n);
    }

    /// How many words the region has, 4 to 2^24. No touch.
    ///
    /// ```
    /// let is_inside = at < words.len();
    /// ```
    #[inline]
    pub fn len(&self) -> u32
        ensures words { result ≡ length self.now.words }
        ensures starts { result ≡ length self.now.starts }
        ensures least { 4 ≤ result }
        ensures most { result ≤ 2 ^ 24 }
    {
        self.words.len() as u32
    }

    /// The word at a place of the region, whatever it holds.
    ///
    /// ```
    /// let word = words.word(3);     // the first payload word of the block at place 0
    /// ```
    #[inline]
    pub fn word(&mut self, at: u32) -> u64
        requires { at < length self.old.words }
        ensures value { result ≡ slice_index self.old.words at }
        ensures reads { Reads at self.old self.new }
    {
        self.read(at as usize)
    }

    /// The tag of the header at a place, its first word.
    ///
    /// ```
    /// let size = words.tag(at).size();     // in words, with the header
    /// ```
    #[inline]
    pub fn tag(&mut self, at: u32) -> Tag
        requires { at < length self.old.words }
        ensures size { result.size ≡ size_in (slice_index self.old.words at) }
        ensures free { result.free ≡ free_in (slice_index self.old.words at) }
        ensures last { result.last ≡ last_in (slice_index self.old.words at) }
        ensures back { result.back ≡ back_in (slice_index self.old.words at) }
        ensures reads { Reads at self.old self.new }
    {
        Tag::of_word(self.read(at as usize))
    }

    /// Writes the tag of the header at a place.
    ///
    /// ```
    /// let tag = words.tag(at);
    /// words.set_tag(at, tag.as_free());
    /// ```
    #[inline]
    pub fn set_tag(&mut self, at: u32, tag: Tag)
        requires { at < length self.old.words }
        ensures writes { Writes (at ∷ []) (slice_set self.old.words at (tag_word tag.size tag.last tag.free tag.back)) self.old self.new }
    {
        self.write(at as usize, tag.to_word());
    }

    /// The mark of the header at a place, its second word: the serial of a live block or the stamp of a free one.
    ///
    /// ```
    /// let is_named = words.mark(at) == name.serial;
    /// ```
    #[inline]
    pub fn mark(&mut self, at: u32) -> u64
        requires { at + 1 < length self.old.words }
        ensures value { result ≡ slice_index self.old.words (at + 1) }
        ensures reads { Reads (at + 1) self.old self.new }
    {
        self.read(at as usize + 1)
    }

    /// Writes the mark of the header at a place.
    ///
    /// ```
    /// words.set_mark(at, tick);     // the stamp of a free block
    /// ```
    #[inline]
    pub fn set_mark(&mut self, at: u32, mark: u64)
        requires { at + 1 < length self.old.words }
        ensures writes { Writes ((at + 1) ∷ []) (slice_set self.old.words (at + 1) mark) self.old self.new }
    {
        self.write(at as usize + 1, mark);
    }

    /// Writes the tag and the mark of the header at a place, at once. Two touches.
    ///
    /// ```
    /// words.set_tag_and_mark(at, tag.as_free(), tick);     // a free block, stamped
    /// ```
    #[inline]
    pub fn set_tag_and_mark(&mut self, at: u32, tag: Tag, mark: u64)
        requires { at + 1 < length self.old.words }
        ensures writes { Writes ((at + 1) ∷ at ∷ []) (slice_set (slice_set self.old.words at (tag_word tag.size tag.last tag.free tag.back)) (at + 1) mark) self.old self.new }
    {
        self.words.write_two(at as usize, tag.to_word(), mark);
    }

    /// Writes the header of a live block at a place: its tag, its mark and its payload length in bytes. Three touches.
    ///
    /// ```
    /// words.set_header(at, tag.as_live(), serial, 8);     // of a block of 4 words: its payload stays
    /// ```
    #[inline]
    #[tactic(auto, unfolding(crate::specs::Fields::length_word))]
    pub fn set_header(&mut self, at: u32, tag: Tag, mark: u64, bytes: u32)
        requires { at + 2 < length self.old.words }
        ensures writes { Writes ((at + 2) ∷ (at + 1) ∷ at ∷ []) (slice_set (slice_set (slice_set self.old.words at (tag_word tag.size tag.last tag.free tag.back)) (at + 1) mark) (at + 2) (length_word bytes)) self.old self.new }
    {
        self.words
            .write_three(at as usize, tag.to_word(), mark, u64::from(bytes));
    }

    /// Writes the header of a live block at a place, as [`Words::set_header`] does. Writes the tag and the mark, the same one, of a
    /// free block at another place too. Five touches. The address of the words is read once.
    ///
    /// ```
    /// words.set_headers(at, tag.without(rest), serial, 8, at + 4, rest);     // a block of 4 words, cut off its front
    /// ```
    #[inline]
    #[tactic(auto, unfolding(crate::specs::Fields::length_word))]
    pub fn set_headers(&mut self, at: u32, tag: Tag, mark: u64, bytes: u32, place: u32, rest: Tag)
        requires at { at + 2 < length self.old.words }
        requires place { place + 1 < length self.old.words }
        ensures writes { Writes ((place + 1) ∷ place ∷ (at + 2) ∷ (at + 1) ∷ at ∷ []) (slice_set (slice_set (slice_set (slice_set (slice_set self.old.words at (tag_word tag.size tag.last tag.free tag.back)) (at + 1) mark) (at + 2) (length_word bytes)) place (tag_word rest.size rest.last rest.free rest.back)) (place + 1) mark) self.old self.new }
    {
        self.words.write_both(
            at as usize,
            tag.to_word(),
            mark,
            u64::from(bytes),
            place as usize,
            rest.to_word(),
        );
    }

    /// The payload length in bytes of the live block at a place: the third word of its header. Of a free block that is a place.
    ///
    /// ```
    /// let bytes = words.length(at);
    /// ```
    #[inline]
    pub fn length(&mut self, at: u32) -> u32
        requires { at + 2 < length self.old.words }
        ensures value { result ≡ low_half (slice_index self.old.words (at + 2)) }
        ensures reads { Reads (at + 2) self.old self.new }
    {
        low_half(self.read(at as usize + 2))
    }

    /// Writes the payload length in bytes of the live block at a place. The upper half of its word becomes zero.
    ///
    /// ```
    /// words.set_length(at, 100);     // of 13 payload words
    /// ```
    #[inline]
    #[tactic(auto, unfolding(crate::specs::Fields::length_word))]
    pub fn set_length(&mut self, at: u32, bytes: u32)
        requires { at + 2 < length self.old.words }
        ensures writes { Writes ((at + 2) ∷ []) (slice_set self.old.words (at + 2) (length_word bytes)) self.old self.new }
    {
        self.write(at as usize + 2, u64::from(bytes));
    }

    /// The links of the free block at a place, the third word of its header.
    ///
    /// ```
    /// let next = words.links(at).next;     // NO_PLACE where the list ends
    /// ```
    #[inline]
    pub fn links(&mut self, at: u32) -> Links
        requires { at + 2 < length self.old.words }
        ensures next { result.next ≡ low_half (slice_index self.old.words (at + 2)) }
        ensures previous { result.previous ≡ high_half (slice_index self.old.words (at + 2)) }
        ensures reads { Reads (at + 2) self.old self.new }
    {
        Links::of_word(self.read(at as usize + 2))
    }

    /// Writes the links of the free block at a place.
    ///
    /// ```
    /// words.set_links(at, Links { next, previous: NO_PLACE });
    /// ```
    #[inline]
    pub fn set_links(&mut self, at: u32, links: Links)
        requires { at + 2 < length self.old.words }
        ensures writes { Writes ((at + 2) ∷ []) (slice_set self.old.words (at + 2) (links_word links.next links.previous)) self.old self.new }
    {
        self.write(at as usize + 2, links.to_word());
    }

    /// Writes the links of the free block at a place. Writes the place as the previous one into the links of the next, which is a
    /// place. Three touches. The address of the words is read once, where two calls read it twice.
    #[inline]
    pub(crate) fn link(&mut self, at: u32, links: Links)
        requires at { at + 2 < length self.old.words }
        requires next { links.next + 2 < length self.old.words }
        ensures writes { Writes ((links.next + 2) ∷ (links.next + 2) ∷ (at + 2) ∷ []) (slice_set (slice_set self.old.words (at + 2) (links_word links.next links.previous)) (links.next + 2) (links_word (low_half (slice_index (slice_set self.old.words (at + 2) (links_word links.next links.previous)) (links.next + 2))) at)) self.old self.new }
    {
        self.words.write_and_upper(
            at as usize + 2,
            links.to_word(),
            links.next as usize + 2,
            at,
        );
    }

    /// Whether a block starts at a place. A forged name is caught so, before a word of it is read.
    ///
    /// ```
    /// let is_block = at < words.len() && words.starts(at);
    /// ```
    #[inline]
    pub fn starts(&mut self, at: u32) -> bool
        requires { at < length self.old.words }
        ensures value { result ≡ slice_index_or self.old.starts at false }
        ensures reads { TouchesStarts 1 self.old.starts self.old self.new }
    {
        self.starts.has(at)
    }

    /// Says whether a block starts at a place.
    ///
    /// ```
    /// words.set_start(at, false);     // where a block was merged with the one before
    /// ```
    #[inline]
    pub fn set_start(&mut self, at: u32, starts: bool)
        requires { at < length self.old.words }
        ensures writes { TouchesStarts 1 (slice_set self.old.starts at starts) self.old self.new }
    {
        self.starts.set(at, starts);
    }

    /// Says that no block starts anywhere. One touch for 64 words, or part of them: the map has a bit for each.
    ///
    /// ```
    /// words.clear_starts();
    /// let is_block = words.starts(0);     // false
    /// ```
    pub fn clear_starts(&mut self)
        ensures writes { TouchesStarts ((length self.old.words + 63) / 64) (replicate (length self.old.words) false) self.old self.new }
    {
        self.starts.clear();
    }

    /// Makes `n` words zero, from a place on, as one slice. One touch a word.
    ///
    /// ```
    /// words.zero(at + 3, payload_words);
    /// ```
    #[inline]
    pub fn zero(&mut self, at: u32, n: u32)
        requires { at + n ≤ length self.old.words }
        ensures words { self.new.words ≡ take at self.old.words ++ replicate n 0 ++ drop (at + n) self.old.words }
        ensures starts { self.new.starts ≡ self.old.starts }
        ensures stays { self.new.extents ≡ self.old.extents }
        ensures touches { self.new.touches ≡ self.old.touches + n }
        ensures touched_before { (k : ℕ) → k < at → times self.new.touched k ≡ times self.old.touched k }
        ensures touched_behind { (k : ℕ) → at + n ≤ k → times self.new.touched k ≡ times self.old.touched k }
    {
        self.words.zero(at as usize, n as usize);
    }

    /// Hands `n` words behind the header at a place to `f`, as one slice that it may change, and answers what it answers. Its reads
    /// and writes there make no touch.
    ///
    /// ```
    /// let first = words.alter(at, 2, |payload| {
    ///     payload[1] = 7;     // the second payload word
    ///     payload[0]
    /// });
    /// ```
    pub fn alter<R, F: FnOnce(&mut [u64]) -> R>(&mut self, at: u32, n: u32, f: F) -> R
        requires within { at + 3 + n ≤ length self.old.words }
        requires calls { FnOnceTakesAtMut F.FnOnce f (take n (drop (at + 3) self.old.words)) }
        ensures called { FnOnceReturnsAtMut F.FnOnce f (take n (drop (at + 3) self.old.words)) result (take n (drop (at + 3) self.new.words)) }
        ensures before { (k : ℕ) → k < at + 3 → slice_index self.new.words k ≡ slice_index self.old.words k }
        ensures behind { (k : ℕ) → at + 3 + n ≤ k → slice_index self.new.words k ≡ slice_index self.old.words k }
        ensures length { length self.new.words ≡ length self.old.words }
        ensures starts { self.new.starts ≡ self.old.starts }
        ensures stays { self.new.extents ≡ self.old.extents }
        ensures touches { self.new.touches ≡ self.old.touches }
        ensures touched { self.new.touched ≡ self.old.touched }
    {
        self.words.alter(at as usize + 3, n as usize, f)
    }

    /// Shows `n` words behind the header at a place to `f`, as one slice, and answers what it answers. Its reads make no touch.
    ///
    /// ```
    /// let first = words.inspect(at, 2, |payload| payload[0]);
    /// ```
    pub fn inspect<R, F: FnOnce(&[u64]) -> R>(&self, at: u32, n: u32, f: F) -> R
        requires within { at + 3 + n ≤ length self.now.words }
        requires calls { FnOnceTakesAt F.FnOnce f (take n (drop (at + 3) self.now.words)) }
        ensures { FnOnceReturnsAt F.FnOnce f (take n (drop (at + 3) self.now.words)) result }
    {
        self.words.inspect(at as usize + 3, n as usize, f)
    }

    /// The address of the first word. It stays while the region does. No touch.
    ///
    /// ```
    /// let base = words.base();     // the payload of the block at a place begins 8 * (at + 3) bytes from there
    /// ```
    #[inline]
    pub fn base(&mut self) -> *mut u64
        ensures address { result ≡ self.old.extents.words.address }
        ensures same { self.new ≡ self.old }
    {
        self.words.base()
    }

    /// Reads a word. The calls above read through here, since `small` comes from the model's invariant, once.
    #[inline]
    fn read(&mut self, at: usize) -> u64
        requires { at < length self.old.words }
        ensures value { result ≡ slice_index self.old.words at }
        ensures reads { Reads at self.old self.new }
    {
        self.words.read(at)
    }

    /// Writes a word.
    #[inline]
    fn write(&mut self, at: usize, word: u64)
        requires { at < length self.old.words }
        ensures writes { Writes (at ∷ []) (slice_set self.old.words at word) self.old self.new }
    {
        self.words.write(at, word);
    }
}
