ghost use Rattle.std.specs.Fn.{FnOnceReturnsAt, FnOnceReturnsAtMut, FnOnceTakesAt, FnOnceTakesAtMut};
ghost use Rattle.std.specs.Prelude.{◌≡◌, ◌≢◌, ◌↔◌, ℕ, ◌+◌, ◌*◌, ◌/◌, ◌-◌, ◌<◌, ◌≤◌, List, [], ◌∷◌, ◌++◌, false, true, length, take, drop, replicate, Some, slice_get, Contains, IfOk};
ghost use Rattle.std.specs.List.{AllByRecursion};
ghost use Rattle.tlsf_class.specs.Classes.{IsLevel, most_words, class_of};
ghost use Rattle.tlsf_class.specs.Members.{next_member};
ghost use Rattle.tlsf_words.specs.Bytes.{bytes_in, payload_byte};
ghost use Rattle.tlsf_words.specs.Touched.{InGroups, times};
ghost use Rattle.tlsf_words.specs.Lists.{without_place, list_of, listed_classes, AreThreaded, IsUnlisted};
ghost use Rattle.tlsf_heap.specs.Aligned.{IsFreeTest};
ghost use Rattle.tlsf_heap.specs.Blocks.{Live, Free, size_of, is_free, bytes_of, words_for, want, StandsAt, IsPlace};
ghost use Rattle.tlsf_heap.specs.GoodFit.{block_at};
ghost use Rattle.tlsf_heap.specs.ByPlace.{IsPlaceTest};
ghost use Rattle.tlsf_heap.specs.Footprint.{LeavesBoth, LeavesLive, LeavesPayloads, OnlyTagAndSerial};
ghost use Rattle.tlsf_heap.specs.Calls;
ghost use Rattle.tlsf_heap.specs.Calls.{first_free, last_free};
ghost use Rattle.tlsf_heap.specs.Checks.{Begins, IsCheck, block_touches};
ghost use Rattle.tlsf_heap.specs.Unset.{lying};
ghost use Rattle.tlsf_heap.specs.Headers.{IsRest, OnlyFrom};
ghost use Rattle.tlsf_heap.specs.Image.{mark_of};
ghost use Rattle.tlsf_heap.specs.InPlace.{payload_at};
ghost use Rattle.tlsf_heap.specs.Lawful.{HasRoom};
ghost use Rattle.tlsf_heap.specs.Named.{IsNameTest};
ghost use Rattle.tlsf_heap.specs.Placed.{placed_at};
ghost use Rattle.tlsf_heap.specs.Touched.{groups_of, reset_touches};
ghost use Rattle.tlsf_heap.specs.Regions.{list_in, AreUnlisted, EachAt, HasAt, IsTagOf, AreNeighbours, IsWhole, AwaitsZeros, image_of, OnlyReads, Edits, Rewrites, PutInFront, TakenOut, IsAlone, region_of};
ghost use Rattle.tlsf_heap.specs.Listed.{HoldsLists};

mod around;

use crate::check::check_words;
use crate::checked::Checked;
use crate::headers::{
    first_header, free_header, live_header, merge_headers, recut_header, split_header, widen_header,
};
use crate::payload::set_payload;
use crate::placed_block::{Content, PlacedBlock};
use std::alloc::Global;
use std::marker::Model;
use tlsf_class::{Class, class_of};
use tlsf_words::{FreeLists, Links, NO_PLACE, NoMemory, Tag, Words};

/// The words of a region, seen as the blocks that they show, one after the other. Their links thread the lists of free blocks, one
/// for each class. A block is known by its place. Sizes and places are in words. Nothing but `open_for` allocates. Its touches are
/// those of the words and of the lists together.
#[derive(Drop)]
pub struct Region<const SLI: u32> {
    words: Words,
    lists: FreeLists<SLI>,
}

impl<const SLI: u32> Model for Region<SLI> {
    ghost use Rattle.std.specs.Prelude.{◌+◌, length};
    ghost use Rattle.tlsf_heap.specs.Regions.{RegionState, image_of};
    ghost use Rattle.tlsf_heap.specs.Read.{blocks_of};
    ghost use Rattle.tlsf_heap.specs.Listed.{lists_of, HoldsLists};

    ghost Value = { RegionState };

    ghost view = { λ r. record { words = length r.words.words; blocks = blocks_of r.words.words; lists = lists_of r.lists.heads r.words.words; marked = r.lists.members; stored = image_of r.words; extents = r.words.extents; touches = r.words.touches + r.lists.touches; touched = r.words.touched } };

    ghost invariant = { λ r. HoldsLists SLI (image_of r.words) r.lists };
}

/// Makes a region where no block starts one free block, and puts it into its list: no list has a place before. No word is read or
/// written but the three of the block's header.
#[inline(always)]
fn fill<const SLI: u32>(words: &mut Words, lists: &mut FreeLists<SLI>, stamp: u64)
    requires level { IsLevel SLI }
    requires most { length words.old.words ≤ most_words SLI }
    requires starts { words.old.starts ≡ replicate (length words.old.words) false }
    requires empty { (now : List ℕ) (class : ℕ) → list_of lists.old.heads now class ≡ [] }
    requires threaded { (now : List ℕ) → AreThreaded SLI lists.old.heads lists.old.members now }
    ensures holds { HoldsLists SLI (image_of words.new) lists.new }
    ensures alone { IsAlone SLI (length words.old.words) stamp (region_of words.new lists.new) }
    ensures stays { words.new.extents ≡ words.old.extents }
    ensures touches { words.new.touches + lists.new.touches ≤ words.old.touches + lists.old.touches + 10 }
    ensures rise { words.old.touches + lists.old.touches ≤ words.new.touches + lists.new.touches }
    ensures touched { (k : ℕ) → 3 ≤ k → times words.new.touched k ≡ times words.old.touched k }
{
    let class = class_of(words.len());
    first_header(words, stamp);
    lists.push(words, class, 0);
}

impl<const SLI: u32> Region<SLI> {
    /// A region of four words, one free block that is alone in the lists, in memory for `words`.
    #[inline(always)]
    pub fn open_for(alloc: Global, words: u32, stamp: u64) -> Result<Region<SLI>, NoMemory>
        requires level { IsLevel SLI }
        requires least { 4 ≤ words }
        requires most { words ≤ most_words SLI }
        ensures alone { IfOk result (IsAlone SLI 4 stamp) }
        ensures words_room { IfOk result (λ region. words ≤ region.extents.words.capacity) }
        ensures starts_room { IfOk result (λ region. (words + 63) / 64 ≤ region.extents.starts.capacity) }
    {
        let mut region = Words::open_for(alloc, words)?;
        first_header(&mut region, stamp);
        region.set_links(
            0,
            Links {
                next: NO_PLACE,
                previous: NO_PLACE,
            },
        );
        Ok(Region {
            words: region,
            lists: FreeLists::of_least(),
        })
    }

    /// Makes the region one free block of `words` words, which is alone in the lists. Up to now no list had a place but that of 4 words.
    /// The touches are counted from here on.
    pub fn lengthen(&mut self, words: u32, stamp: u64)
        requires level { IsLevel SLI }
        requires least { self.old.words ≤ words }
        requires most { words ≤ most_words SLI }
        requires words_room { words ≤ self.old.extents.words.capacity }
        requires starts_room { (words + 63) / 64 ≤ self.old.extents.starts.capacity }
        requires others { (other : ℕ) → other ≢ 4 → list_in self.old.lists other ≡ [] }
        ensures alone { IsAlone SLI words stamp self.new }
        ensures touches { self.new.touches ≤ 10 }
    {
        self.words.lengthen(words);
        self.lists.leave_least();
        fill(&mut self.words, &mut self.lists, stamp);
    }

    /// Makes the region one free block, which is alone in the lists. No word is read or written but the three of its header.
    pub fn reset(&mut self, stamp: u64)
        requires level { IsLevel SLI }
        requires most { self.old.words ≤ most_words SLI }
        ensures alone { IsAlone SLI self.old.words stamp self.new }
        ensures edits { Edits self.old self.new (reset_touches + (self.old.words + 63) / 64) }
        ensures touched { (k : ℕ) → 3 ≤ k → times self.new.touched k ≡ times self.old.touched k }
    {
        self.words.clear_starts();
        self.lists.clear();
        fill(&mut self.words, &mut self.lists, stamp);
    }

    /// The number of words.
    pub fn len(&self) -> u32
        ensures value { result ≡ self.now.words }
    {
        self.words.len()
    }

    /// The words and the start bits as they stand.
    pub fn into_words(self) -> Words
        ensures stored { image_of result ≡ self.entry.stored }
        ensures stays { result.extents ≡ self.entry.extents }
        ensures touches { result.touches ≤ self.entry.touches }
    {
        self.words
    }

    /// The serial of the live block at a place, or the stamp of the free one.
    pub fn mark(&mut self, at: u32) -> u64
        requires { IsPlace self.old.blocks at }
        ensures value { EachAt self.old.blocks at (λ s. result ≡ mark_of s.block) }
        ensures reads { OnlyReads self.old self.new 1 }
        ensures touched { LeavesLive self.old.blocks self.old.touched self.new.touched }
        ensures only { OnlyTagAndSerial at self.old.touched self.new.touched }
        ensures groups { InGroups 1 self.old.touched self.new.touched }
    {
        self.words.mark(at)
    }

    /// The tag of the live block that begins at a place, which may be any number, and has this serial; `None` where there is none.
    /// No word is read unless a block begins there, and no start bit unless the place lies in the region. So a place from outside
    /// is not followed.
    pub fn find_live(&mut self, at: u32, serial: u64) -> Option<Tag>
        ensures answer { IsNameTest at serial self.old.words self.old.blocks result }
        ensures reads { OnlyReads self.old self.new 3 }
        ensures touched { LeavesLive self.old.blocks self.old.touched self.new.touched }
        ensures only { OnlyTagAndSerial at self.old.touched self.new.touched }
        ensures groups { InGroups 2 self.old.touched self.new.touched }
        ensures outside { self.old.words ≤ at → self.new.touches ≡ self.old.touches }
        ensures nowhere { at < self.old.words → ¬ (IsPlace self.old.blocks at) → self.new.touches ≡ self.old.touches + 1 }
    {
        if !self.begins(at) {
            return None;
        }
        let tag = self.tag(at);
        if tag.is_free() || self.mark(at) != serial {
            return None;
        }
        Some(tag)
    }

    /// The tag of the live block that begins at a place, which may be any number; `None` where there is none. No word is read unless a block
    /// begins there, and no start bit unless the place lies in the region. So a place from outside is not followed.
    pub fn live_at(&mut self, at: u32) -> Option<Tag>
        ensures answer { IsPlaceTest at self.old.words self.old.blocks result }
        ensures reads { OnlyReads self.old self.new 2 }
        ensures touched { LeavesLive self.old.blocks self.old.touched self.new.touched }
        ensures groups { InGroups 1 self.old.touched self.new.touched }
        ensures outside { self.old.words ≤ at → self.new.touches ≡ self.old.touches }
        ensures nowhere { ¬ (IsPlace self.old.blocks at) → self.new.touches ≤ self.old.touches + 1 }
        ensures unread { ¬ (IsPlace self.old.blocks at) → self.new.touched ≡ self.old.touched }
    {
        if !self.begins(at) {
            return None;
        }
        let tag = self.tag(at);
        if tag.is_free() {
            return None;
        }
        Some(tag)
    }

    /// The tag of the free block that begins at a place, which may be any number; `None` where there is none. No word is read unless a block
    /// begins there, and no start bit unless the place lies in the region. So a place from outside is not followed.
    pub fn free_at(&mut self, at: u32) -> Option<Tag>
        ensures answer { IsFreeTest at self.old.words self.old.blocks result }
        ensures reads { OnlyReads self.old self.new 2 }
        ensures touched { LeavesLive self.old.blocks self.old.touched self.new.touched }
        ensures groups { InGroups 1 self.old.touched self.new.touched }
        ensures outside { self.old.words ≤ at → self.new.touches ≡ self.old.touches }
        ensures nowhere { ¬ (IsPlace self.old.blocks at) → self.new.touches ≤ self.old.touches + 1 }
        ensures unread { ¬ (IsPlace self.old.blocks at) → self.new.touched ≡ self.old.touched }
    {
        if !self.begins(at) {
            return None;
        }
        let tag = self.tag(at);
        if !tag.is_free() {
            return None;
        }
        Some(tag)
    }

    /// Whether a block begins at a place, which may be any number. No start bit is read unless the place lies in the region.
    fn begins(&mut self, at: u32) -> bool
        ensures yes { result ≡ true → IsPlace self.old.blocks at }
        ensures no { result ≡ false → ¬ (IsPlace self.old.blocks at) }
        ensures inside { result ≡ true → at < self.old.words }
        ensures rooms { AllByRecursion HasRoom self.old.blocks }
        ensures reads { OnlyReads self.old self.new 1 }
        ensures touched { LeavesLive self.old.blocks self.old.touched self.new.touched }
        ensures untouched { self.new.touched ≡ self.old.touched }
        ensures outside { self.old.words ≤ at → self.new.touches ≡ self.old.touches }
        ensures one { at < self.old.words → self.new.touches ≡ self.old.touches + 1 }
    {
        at < self.words.len() && self.words.starts(at)
    }

    /// The block that begins at a place, which may be any number. No word is read unless a block begins there, and no start bit unless the
    /// place lies in the region.
    pub fn block_at(&mut self, at: u32) -> Option<PlacedBlock>
        ensures answer { result ≡ placed_at self.old.blocks at }
        ensures reads { OnlyReads self.old self.new 4 }
        ensures touched { LeavesLive self.old.blocks self.old.touched self.new.touched }
        ensures outside { self.old.words ≤ at → self.new.touches ≡ self.old.touches }
        ensures nowhere { ¬ (IsPlace self.old.blocks at) → self.new.touches ≤ self.old.touches + 1 }
        ensures unread { ¬ (IsPlace self.old.blocks at) → self.new.touched ≡ self.old.touched }
    {
        if !self.begins(at) {
            return None;
        }
        let tag = self.tag(at);
        let size = tag.size();
        let mark = self.mark(at);
        let content = if tag.is_free() {
            Content::Free { stamp: mark }
        } else {
            Content::Live {
                serial: mark,
                length: self.length(at),
            }
        };
        Some(PlacedBlock { at, size, content })
    }

    /// Looks at `most` blocks at most from a place on, of all numbers, as [`check_words`] does.
    pub fn check(&mut self, from: u32, most: u32) -> Option<Checked>
        ensures answer { IsCheck self.old.stored from most result }
        ensures reads { OnlyReads self.old self.new (1 + block_touches * most) }
        ensures few { self.new.touches ≤ self.old.touches + 1 + block_touches * (self.old.words / 4) }
        ensures outside { self.old.words ≤ from → self.new.touches ≡ self.old.touches }
        ensures nowhere { ¬ (Begins self.old.stored from) → self.new.touches ≤ self.old.touches + 1 }
        ensures unread { ¬ (Begins self.old.stored from) → self.new.touched ≡ self.old.touched }
        ensures touched { LeavesLive self.old.blocks self.old.touched self.new.touched }
    {
        check_words(&mut self.words, from, most)
    }

    /// The tag of the block at a place.
    pub fn tag(&mut self, at: u32) -> Tag
        requires { IsPlace self.old.blocks at }
        ensures value { EachAt self.old.blocks at (λ s. IsTagOf self.old.words s result) }
        ensures reads { OnlyReads self.old self.new 1 }
        ensures touched { LeavesLive self.old.blocks self.old.touched self.new.touched }
        ensures only { OnlyTagAndSerial at self.old.touched self.new.touched }
        ensures groups { InGroups 1 self.old.touched self.new.touched }
    {
        self.words.tag(at)
    }

    /// The payload length in bytes of the live block at a place.
    pub fn length(&mut self, at: u32) -> u32
        requires { (i : ℕ) × StandsAt self.old.blocks at i × (is_free (block_at self.old.blocks i) ≡ false) }
        ensures value { EachAt self.old.blocks at (λ s. result ≡ length (bytes_of s.block)) }
        ensures reads { OnlyReads self.old self.new 1 }
        ensures touched { LeavesLive self.old.blocks self.old.touched self.new.touched }
        ensures groups { InGroups 1 self.old.touched self.new.touched }
    {
        self.words.length(at)
    }

    /// Reads payload bytes of the live block at a place, from byte `offset` of it on.
    pub fn read(&mut self, at: u32, offset: u32, out: &mut [u8])
        requires { (i : ℕ) × StandsAt self.old.blocks at i × (offset + length out.old ≤ length (bytes_of (block_at self.old.blocks i))) }
        ensures bytes { EachAt self.old.blocks at (λ s. out.new ≡ take (length out.old) (drop offset (bytes_of s.block))) }
        ensures reads { OnlyReads self.old self.new (length out.old / 8 + 2) }
        ensures touched { LeavesPayloads self.old.blocks at self.old.touched self.new.touched }
    {
        self.words.copy_out(at, offset, out);
    }

    /// Writes payload bytes of the live block at a place, from byte `offset` of it on.
    pub fn write(&mut self, at: u32, offset: u32, bytes: &[u8])
        requires { (i : ℕ) × StandsAt self.old.blocks at i × (offset + length bytes.now ≤ length (bytes_of (block_at self.old.blocks i))) }
        ensures change { EachAt self.old.blocks at (λ s. Rewrites self.old self.new
            (s.before ++ (Calls.with_bytes s.block (Calls.overwritten (bytes_of s.block) offset bytes.now) ∷ []) ++ s.after) (2 * (length bytes.now / 8 + 2))) }
        ensures touched { LeavesPayloads self.old.blocks at self.old.touched self.new.touched }
    {
        self.words.copy_in(at, offset, bytes);
    }

    /// Hands the words that hold the payload of the live block at a place, of `len` bytes, to `f`, which may change them. Answers
    /// what `f` answers.
    pub fn alter<R, F: FnOnce(&mut [u64]) -> R>(&mut self, at: u32, len: u32, f: F) -> R
        requires live { (i : ℕ) × StandsAt self.old.blocks at i × (len ≡ length (bytes_of (block_at self.old.blocks i))) }
        requires calls { FnOnceTakesAtMut F.FnOnce f (payload_at self.old.stored at len) }
        ensures called { FnOnceReturnsAtMut F.FnOnce f (payload_at self.old.stored at len) result (payload_at self.new.stored at len) }
        ensures touched { self.new.touched ≡ self.old.touched }
        ensures change { EachAt self.old.blocks at (λ s. Rewrites self.old self.new
            (s.before ++ (Calls.with_bytes s.block (Calls.overwritten (bytes_of s.block) 0 (bytes_in self.new.stored.words (payload_byte at 0) len)) ∷ []) ++ s.after) 0) }
    {
        self.words.alter(at, len.div_ceil(8), f)
    }

    /// Shows the words that hold the payload of the live block at a place, of `len` bytes, to `f`, and answers what it answers.
    pub fn inspect<R, F: FnOnce(&[u64]) -> R>(&self, at: u32, len: u32, f: F) -> R
        requires live { (i : ℕ) × StandsAt self.now.blocks at i × (len ≡ length (bytes_of (block_at self.now.blocks i))) }
        requires calls { FnOnceTakesAt F.FnOnce f (payload_at self.now.stored at len) }
        ensures { FnOnceReturnsAt F.FnOnce f (payload_at self.now.stored at len) result }
    {
        self.words.inspect(at, len.div_ceil(8), f)
    }

    /// The address of the first word.
    pub fn base(&mut self) -> *mut u64
        ensures address { result ≡ self.old.extents.words.address }
        ensures same { self.new ≡ self.old }
    {
        self.words.base()
    }

    /// Copies the first `len` payload bytes of the live block at a place, `from`, to the first of that at another, `to`.
    pub fn copy(&mut self, from: u32, to: u32, len: u32)
        requires from { (i : ℕ) × StandsAt self.old.blocks from i × (len ≤ length (bytes_of (block_at self.old.blocks i))) }
        requires to { (i : ℕ) × StandsAt self.old.blocks to i × (len ≤ length (bytes_of (block_at self.old.blocks i))) }
        ensures touched { LeavesBoth self.old.blocks from to self.old.touched self.new.touched }
        ensures change { EachAt self.old.blocks to (λ s. Rewrites self.old self.new
            (s.before ++ (Calls.with_bytes s.block (Calls.overwritten (bytes_of s.block) 0 (bytes_in self.old.stored.words (payload_byte from 0) len)) ∷ []) ++ s.after) (2 * (len / 8) + 3)) }
        ensures groups { InGroups (4 + 2 * (len / 64)) self.old.touched self.new.touched }
    {
        self.words.copy_payload(from, to, len);
    }

    /// Makes the payload of the live block at a place `len` bytes long, for which the block has room. The bytes up to the smaller
    /// length stay, and new ones are zero. Where the caller knows that it doesn't grow, `grows` is false.
    #[inline(always)]
    pub fn set_payload(&mut self, at: u32, len: u32, grows: bool)
        requires { HasAt self.old.blocks at (λ s. (is_free s.block ≡ false) × (words_for len ≤ size_of s.block) × (grows ≡ false → len ≤ length (bytes_of s.block))) }
        ensures change { EachAt self.old.blocks at (λ s. Rewrites self.old self.new
            (s.before ++ (Calls.with_bytes s.block (Calls.fitted (bytes_of s.block) len) ∷ []) ++ s.after) (words_for len)) }
        ensures grown { EachAt self.old.blocks at (λ s. self.new.touches ≤ self.old.touches + 4 + (words_for len - words_for (length (bytes_of s.block)))) }
        ensures touched { LeavesPayloads self.old.blocks at self.old.touched self.new.touched }
        ensures groups { EachAt self.old.blocks at (λ s. InGroups (3 + (len - length (bytes_of s.block)) / 64) self.old.touched self.new.touched) }
    {
        set_payload(&mut self.words, at, len, grows);
    }

    /// Says that the payload of the live block at a place, which has room for it, is `len` bytes long: those that lie there. No byte of it is
    /// read or written.
    pub fn set_length(&mut self, at: u32, len: u32)
        requires { HasAt self.old.blocks at (λ s. (is_free s.block ≡ false) × (words_for len ≤ size_of s.block)) }
        ensures change { EachAt self.old.blocks at (λ s. Rewrites self.old self.new (s.before ++ (Calls.with_bytes s.block (lying self.new.stored at len) ∷ []) ++ s.after) 1) }
        ensures only { OnlyFrom self.old.stored.words self.new.stored.words (at + 2) (at + 3) }
        ensures touched { LeavesLive self.old.blocks self.old.touched self.new.touched }
        ensures groups { InGroups 1 self.old.touched self.new.touched }
    {
        self.words.set_length(at, len);
    }

    /// Makes the live block at a place and the free block after it a live block of `size` words and a free rest. Together they have
    /// this free tag, and four words more at least. The free block has `after` words. Where there is none, that is 0, and `merges` is
    /// false. The payload stays. Answers the size of the rest.
    #[inline(always)]
    pub fn recut(
        &mut self,
        at: u32,
        whole: Tag,
        after: u32,
        merges: bool,
        size: u32,
        stamp: u64,
    ) -> u32
        requires merged { (merges ≡ true → 0 < after) × (merges ≡ false → after ≡ 0) }
        requires least { 4 ≤ size }
        requires room { size + 4 ≤ whole.size }
        requires live { HasAt self.old.blocks at (λ s. (is_free s.block ≡ false) × (words_for (length (bytes_of s.block)) ≤ size)) }
        requires whole { EachAt self.old.blocks at (λ s. IsWhole self.old.words s whole after) }
        requires unlisted { AreUnlisted (list_in self.old.lists) at (at + whole.size) }
        ensures rest { result ≡ whole.size - size }
        ensures touched { LeavesPayloads self.old.blocks at self.old.touched self.new.touched }
        ensures change { EachAt self.old.blocks at (λ s. Rewrites self.old self.new (s.before ++ Calls.recut stamp size s.block s.after) 7) }
        ensures groups { InGroups 4 self.old.touched self.new.touched }
    {
        recut_header(&mut self.words, at, whole, after, merges, size, stamp);
        whole.size() - size
    }

    /// Makes the live block at a place and the free block of `after` words after it one live block of all their words. Together they
    /// have this free tag. The payload stays. It is as a `recut` to as many words as leave no rest.
    pub fn widen(&mut self, at: u32, whole: Tag, after: u32)
        requires some { 0 < after }
        requires live { HasAt self.old.blocks at (λ s. is_free s.block ≡ false) }
        requires whole { EachAt self.old.blocks at (λ s. IsWhole self.old.words s whole after) }
        requires unlisted { AreUnlisted (list_in self.old.lists) at (at + whole.size) }
        ensures touched { LeavesPayloads self.old.blocks at self.old.touched self.new.touched }
        ensures change { (size stamp : ℕ) → whole.size < size + 4 → EachAt self.old.blocks at (λ s. Rewrites self.old self.new (s.before ++ Calls.recut stamp size s.block s.after) 4) }
        ensures groups { InGroups 2 self.old.touched self.new.touched }
    {
        widen_header(&mut self.words, at, whole, after);
    }

    /// Makes the free block at a place a live one of all its words with `len` bytes of payload, those that lie there. The free block
    /// has this tag and is in no list. Answers how many words it has.
    pub fn grant(&mut self, at: u32, own: Tag, serial: u64, len: u32) -> u32
        requires own { HasAt self.old.blocks at (λ s. IsTagOf self.old.words s own) }
        requires free { own.free ≡ true }
        requires payload { words_for len ≤ own.size }
        requires unlisted { EachAt self.old.blocks at (λ s. AreUnlisted (list_in self.old.lists) at (at + size_of s.block)) }
        ensures size { result ≡ own.size }
        ensures touched { LeavesLive self.old.blocks self.old.touched self.new.touched }
        ensures change { EachAt self.old.blocks at (λ s. Rewrites self.old self.new
            (s.before ++ (Live (size_of s.block) serial (bytes_in self.new.stored.words (payload_byte at 0) len) ∷ []) ++ s.after) 3) }
        ensures groups { InGroups 2 self.old.touched self.new.touched }
    {
        let live = own.granted();
        live_header(&mut self.words, at, live, serial, len);
        live.size()
    }

    /// Makes the free block at a place a live one of `size` words with `len` bytes of payload, those that lie there. The free block
    /// has this tag and is in no list. The rest stays a free block of its tag.
    pub fn split(&mut self, at: u32, own: Tag, rest: Tag, size: u32, serial: u64, len: u32)
        requires own { HasAt self.old.blocks at (λ s. IsTagOf self.old.words s own) }
        requires free { own.free ≡ true }
        requires rest { IsRest own at size rest }
        requires payload { want len ≤ size }
        requires room { size + 4 ≤ own.size }
        requires unlisted { EachAt self.old.blocks at (λ s. AreUnlisted (list_in self.old.lists) at (at + size_of s.block)) }
        ensures touched { LeavesLive self.old.blocks self.old.touched self.new.touched }
        ensures change { EachAt self.old.blocks at (λ s. Rewrites self.old self.new
            (s.before ++ (Live size serial (bytes_in self.new.stored.words (payload_byte at 0) len) ∷ Free (size_of s.block - size) serial ∷ []) ++ s.after) 8) }
        ensures groups { InGroups 5 self.old.touched self.new.touched }
    {
        split_header(&mut self.words, at, own, rest, size, serial, len);
    }

    /// Makes the payload of the live block at a place zero: the `n` words behind its header.
    pub fn zero(&mut self, at: u32, n: u32)
        requires { HasAt self.old.blocks at (λ s. AwaitsZeros s.block n) }
        ensures change { EachAt self.old.blocks at (λ s. Rewrites self.old self.new
            (s.before ++ (Calls.with_bytes s.block (replicate (length (bytes_of s.block)) 0) ∷ []) ++ s.after) n) }
        ensures touched { LeavesPayloads self.old.blocks at self.old.touched self.new.touched }
        ensures groups { InGroups (groups_of n) self.old.touched self.new.touched }
    {
        self.words.zero(at + 3, n);
    }

    /// Makes the live block at a place, of this tag, neither of whose neighbours is free, a free one.
    pub fn free(&mut self, at: u32, own: Tag, stamp: u64)
        requires own { HasAt self.old.blocks at (λ s. IsTagOf self.old.words s own) }
        requires alone { EachAt self.old.blocks at (λ s. (last_free s.before ≡ 0) × (first_free s.after ≡ 0)) }
        requires unlisted { EachAt self.old.blocks at (λ s. AreUnlisted (list_in self.old.lists) at (at + size_of s.block)) }
        ensures change { EachAt self.old.blocks at (λ s. Rewrites self.old self.new (Calls.coalesced stamp s) 2) }
        ensures touched { LeavesLive self.old.blocks self.old.touched self.new.touched }
        ensures groups { InGroups 2 self.old.touched self.new.touched }
    {
        free_header(&mut self.words, at, own.as_free(), stamp);
    }

    /// Makes the block at a place one free block of this tag. It takes in the free one of `before` words before it and the one of
    /// `after` words after it. Where there is none, that is 0. `previous` and `next` say whether there is one. Only the first of them
    /// may be in a list, where it stays.
    #[inline(always)]
    pub fn merge(
        &mut self,
        at: u32,
        before: u32,
        after: u32,
        previous: bool,
        next: bool,
        tag: Tag,
        stamp: u64,
    )
        requires previous { previous ≡ true → 0 < before }
        requires no_previous { previous ≡ false → before ≡ 0 }
        requires next { next ≡ true → 0 < after }
        requires no_next { next ≡ false → after ≡ 0 }
        requires around { HasAt self.old.blocks at (λ s. AreNeighbours self.old.words s before after tag) }
        requires unlisted { AreUnlisted (list_in self.old.lists) (at - before + 1) (at - before + tag.size) }
        ensures change { EachAt self.old.blocks at (λ s. Rewrites self.old self.new (Calls.coalesced stamp s) 6) }
        ensures touched { LeavesLive self.old.blocks self.old.touched self.new.touched }
        ensures groups { InGroups 3 self.old.touched self.new.touched }
    {
        merge_headers(
            &mut self.words,
            at,
            before,
            after,
            previous,
            next,
            tag,
            stamp,
        );
    }

    /// Puts a free block that is in no list in front of the list of a class.
    pub fn push(&mut self, class: Class<SLI>, at: u32)
        requires free { (i : ℕ) × StandsAt self.old.blocks at i × (is_free (block_at self.old.blocks i) ≡ true) }
        requires unlisted { IsUnlisted (list_in self.old.lists) at }
        ensures { PutInFront self.old self.new class.entry at 7 }
    {
        self.lists.push(&mut self.words, class, at);
    }

    /// Whether a free block that is in a list is the first of it.
    pub fn is_first(&mut self, at: u32) -> bool
        requires listed { (class : ℕ) × Contains (list_in self.old.lists class) at }
        ensures first { (class : ℕ) → Contains (list_in self.old.lists class) at → (result ≡ true) ↔ (list_in self.old.lists class ≡ at ∷ without_place at (list_in self.old.lists class)) }
        ensures reads { OnlyReads self.old self.new 1 }
        ensures touched { LeavesLive self.old.blocks self.old.touched self.new.touched }
        ensures groups { InGroups 1 self.old.touched self.new.touched }
    {
        self.lists.is_first(&mut self.words, at)
    }

    /// Takes a block of this size out of the list of its class.
    pub fn remove(&mut self, size: u32, at: u32)
        requires level { IsLevel SLI }
        requires least { 4 ≤ size }
        requires most { size ≤ most_words SLI }
        requires listed { Contains (list_in self.old.lists (class_of SLI size)) at }
        ensures { TakenOut self.old self.new (class_of SLI size) at 6 }
    {
        self.lists.unlink(&mut self.words, size, at);
    }

    /// Takes the head of the list of a class, which isn't empty, out of it.
    pub fn pop_first(&mut self, class: Class<SLI>) -> u32
        requires some { ¬ (list_in self.old.lists class ≡ []) }
        ensures place { slice_get (list_in self.old.lists class.entry) 0 ≡ Some result }
        ensures change { TakenOut self.old self.new class.entry result 7 }
    {
        self.lists.pop_first(&mut self.words, class)
    }

    /// The least class at or above a class whose list isn't empty, `None` where there is none.
    pub fn next_from(&mut self, class: Class<SLI>) -> Option<Class<SLI>>
        ensures least { result ≡ next_member (listed_classes SLI (list_in self.old.lists)) class.entry }
        ensures reads { OnlyReads self.old self.new 3 }
        ensures touched { LeavesLive self.old.blocks self.old.touched self.new.touched }
        ensures untouched { self.new.touched ≡ self.old.touched }
    {
        self.lists.next_from(class)
    }
}
