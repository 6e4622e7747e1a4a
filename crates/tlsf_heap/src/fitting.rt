//! Good fit, splitting and coalescing over a region and the lists of its free blocks. Sizes and places are in words.
ghost use Rattle.std.specs.Prelude.{◌≡◌, ◌≢◌, ℕ, ◌+◌, ◌-◌, ◌<◌, ◌≤◌, true, false, Some, slice_get, List, Contains};
ghost use Rattle.std.specs.List.{AllByRecursion};
ghost use Rattle.tlsf_heap.specs.Blocks.{size_of, words_in, is_free, stamps, want};
ghost use Rattle.tlsf_class.specs.Classes.{IsLevel, most_words, class_of};
ghost use Rattle.tlsf_heap.specs.Regions.{AreRegions, EachAt, HasAt, IsTagOf, IsNextTag, IsPreviousTag, AreTagsAround, AreNeighbours, AreUnlisted, IsWithout, MovedToFront, withheld_alone, list_in, OnlyReads, IsInOrder, AwaitsTick, Edits, Relists};
ghost use Rattle.tlsf_heap.specs.Footprint.{LeavesLive, LeavesPayloads};
ghost use Rattle.tlsf_heap.specs.GoodFit.{block_at};
ghost use Rattle.tlsf_heap.specs.Headers.{IsRest};
ghost use Rattle.tlsf_heap.specs.Lawful.{IsRegion};
ghost use Rattle.tlsf_heap.specs.Chosen.{IsHead, IsBestClass};
ghost use Rattle.tlsf_heap.specs.Calls.{carved, coalesced, last_free, last_tick};
ghost use Rattle.tlsf_heap.specs.CarvedUnset.{CarvedUnset};
ghost use Rattle.tlsf_heap.specs.FreePlaces.{AreFreeLists};
ghost use Rattle.tlsf_heap.specs.WordsInUse.{words_used};
ghost use Rattle.tlsf_words.specs.Touched.{InGroups};

use crate::region::Region;
use tlsf_class::{Class, class_of, most_words, search_of};
use tlsf_words::Tag;

/// A block that was given.
#[derive(Clone, Copy)]
pub struct Given {
    pub at: u32,
    /// Its words, the three of its header with them.
    pub words: u32,
}

/// The class whose list has the block that serves a request of `words` words as its head.
pub fn choose<const SLI: u32>(region: &mut Region<SLI>, words: u32) -> Option<Class<SLI>>
    requires region { IsInOrder SLI region.old }
    requires wanted { 4 ≤ words }
    ensures best { IsBestClass SLI words region.old.blocks (list_in region.old.lists) result }
    ensures reads { OnlyReads region.old region.new 3 }
    ensures touched { LeavesLive region.old.blocks region.old.touched region.new.touched }
    ensures untouched { region.new.touched ≡ region.old.touched }
{
    if words > most_words::<SLI>() {
        return None;
    }
    region.next_from(search_of(words))
}

/// Takes the head of the list of a class, a free block. Makes it a live one of `words` words with `len` bytes of payload, those that
/// lie there. The rest stays a free block, unless it would have fewer than four words: then the whole block is given. Answers its
/// place, and how many words it has.
// Always inline. In a call of its own, as where several calls of a heap end in it, each of them takes fourteen to thirty
// instructions more. The serial comes by value, and is read once: for all that LLVM knows, the list's links are written where the
// tick lies. The length goes into the header with the serial: set later, it lives over the listing of the rest.
#[inline(always)]
pub fn carve<const SLI: u32>(
    region: &mut Region<SLI>,
    class: Class<SLI>,
    words: u32,
    serial: u64,
    len: u32,
) -> Given
    requires region { AwaitsTick SLI serial region.old }
    requires payload { want len ≤ words }
    requires fits { (at : ℕ) × (i : ℕ) × IsHead SLI region.old.blocks (list_in region.old.lists) class at i × (is_free (block_at region.old.blocks i) ≡ true) × (words ≤ size_of (block_at region.old.blocks i)) }
    ensures place { slice_get (list_in region.old.lists class.entry) 0 ≡ Some result.at }
    ensures carved { EachAt region.old.blocks result.at (λ s. CarvedUnset SLI region.old region.new s result.at words serial len 23) }
    ensures used { words_used region.new.blocks ≡ words_used region.old.blocks + result.words }
    ensures touched { LeavesLive region.old.blocks region.old.touched region.new.touched }
    ensures groups { InGroups 11 region.old.touched region.new.touched }
{
    let at = region.pop_first(class);
    let own = region.tag(at);
    let words = give(region, at, own, words, serial, len);
    Given { at, words }
}

/// Makes the free block at a place a live one of `words` words with `len` bytes of payload, those that lie there. The free block has
/// this tag and is in no list. The rest stays a free block, unless it would have fewer than four words: then the whole block is
/// given. Answers how many words it has.
// Always inline, as `carve` is.
#[inline(always)]
pub fn give<const SLI: u32>(
    region: &mut Region<SLI>,
    at: u32,
    own: Tag,
    words: u32,
    serial: u64,
    len: u32,
) -> u32
    requires level { IsLevel SLI }
    requires payload { want len ≤ words }
    requires free { HasAt region.old.blocks at (λ s. (is_free s.block ≡ true) × (words ≤ size_of s.block)) }
    requires own { EachAt region.old.blocks at (λ s. IsTagOf region.old.words s own) }
    requires sized { AreRegions SLI region.old.blocks }
    requires small { words_in region.old.blocks ≤ most_words SLI }
    requires listed { EachAt region.old.blocks at (λ s. AreFreeLists SLI (withheld_alone s) (list_in region.old.lists)) }
    requires stamped { AllByRecursion (λ s. s < serial) (stamps region.old.blocks) }
    ensures carved { EachAt region.old.blocks at (λ s. CarvedUnset SLI region.old region.new s at words serial len 15) }
    ensures used { words_used region.new.blocks ≡ words_used region.old.blocks + result }
    ensures touched { LeavesLive region.old.blocks region.old.touched region.new.touched }
    ensures groups { InGroups 7 region.old.touched region.new.touched }
{
    let (rest, left) = rest_of(own, words, at);
    // Both headers before the rest is listed, so that few registers are wanted at once.
    if left < 4 {
        return region.grant(at, own, serial, len);
    }
    region.split(at, own, rest, words, serial, len);
    region.push(class_of(left), at + words);
    words
}

/// The tag of the rest after the first `words` words of the block of this tag at a place, and how many words it has.
// A function of its own, so that it is compiled before it is inlined. The size is then 32 bits wide wherever the words come from,
// and an allocate takes seven instructions fewer.
#[inline]
fn rest_of(own: Tag, words: u32, at: u32) -> (Tag, u32)
    requires { words ≤ own.size }
    ensures rest { IsRest own at words result.0 }
    ensures left { result.1 ≡ own.size - words }
{
    let rest = own.rest(words, at);
    (rest, rest.size())
}

/// Makes the live block at a place, of this tag, and its free neighbours one free block, stamped with the tick. The tick then rises
/// by one.
// Where neither neighbour is free, most often, a release is this alone. Always inline: otherwise the tag is taken apart for all
// releases, and not just where a merge needs a part of it. The tick rises before a merge, so that no register is kept for it over
// the call. Otherwise it rises after the stores of the header, where one instruction does it.
// Each neighbour has a test and a call of its own: one test for both would want a register more, saved in each release.
#[inline(always)]
pub fn coalesce<const SLI: u32>(region: &mut Region<SLI>, tick: &mut u64, at: u32, own: Tag)
    requires region { AwaitsTick SLI tick.old region.old }
    requires live { HasAt region.old.blocks at (λ s. is_free s.block ≡ false) }
    requires own { EachAt region.old.blocks at (λ s. IsTagOf region.old.words s own) }
    requires left { tick.old ≢ last_tick }
    ensures blocks { EachAt region.old.blocks at (λ s. region.new.blocks ≡ coalesced tick.old s) }
    ensures relists { Relists SLI at 27 13 region.old region.new }
    ensures tick { tick.new ≡ tick.old + 1 }
{
    let next = next_tag(region, at, own);
    let previous = previous_tag(region, at, own);
    if previous.is_free() {
        let stamp = *tick;
        *tick = stamp + 1;
        merge_before(region, next, previous, stamp, at, own);
        return;
    }
    if next.is_free() {
        let stamp = *tick;
        *tick = stamp + 1;
        merge_next(region, next, own, stamp, at);
        return;
    }
    region.free(at, own, *tick);
    *tick += 1;
    region.push(class_of(own.size()), at);
}

/// The tag of the block behind the one at a place, of this tag; that of a live block where the region ends.
#[inline]
pub fn next_tag<const SLI: u32>(region: &mut Region<SLI>, at: u32, own: Tag) -> Tag
    requires own { HasAt region.old.blocks at (λ s. IsTagOf region.old.words s own) }
    requires region { IsInOrder SLI region.old }
    ensures tag { EachAt region.old.blocks at (λ s. IsNextTag region.old.words s result) }
    ensures reads { OnlyReads region.old region.new 1 }
    ensures touched { LeavesLive region.old.blocks region.old.touched region.new.touched }
    ensures groups { InGroups 1 region.old.touched region.new.touched }
{
    if own.is_last() {
        return Tag::new(0, false, false, 0);
    }
    region.tag(at + own.size())
}

/// The tag of the block before the one at a place, of this tag; that of a live block where the region begins.
#[inline]
fn previous_tag<const SLI: u32>(region: &mut Region<SLI>, at: u32, own: Tag) -> Tag
    requires own { HasAt region.old.blocks at (λ s. IsTagOf region.old.words s own) }
    requires region { IsInOrder SLI region.old }
    ensures tag { EachAt region.old.blocks at (λ s. IsPreviousTag s result) }
    ensures reads { OnlyReads region.old region.new 1 }
    ensures touched { LeavesLive region.old.blocks region.old.touched region.new.touched }
    ensures groups { InGroups 1 region.old.touched region.new.touched }
{
    // No block is before the one at place 0, whose tag names none: a compare with 0 takes no constant.
    if at == 0 {
        return Tag::new(0, false, false, 0);
    }
    region.tag(own.back())
}

/// Makes the live block at a place and the free one after it one free block. No free one is before it. The tags are those of these
/// two blocks.
// Never inline, and so the two below: a release that merges nothing then saves no registers. The argument that a caller knows last
// comes first, since the register of the second one holds the name until its serial is read. The stamp is the fourth: its register
// is wanted for shifts, and the stamp is needed last.
#[inline(never)]
fn merge_next<const SLI: u32>(region: &mut Region<SLI>, next: Tag, own: Tag, tick: u64, at: u32)
    requires region { AwaitsTick SLI tick region.old }
    requires live { HasAt region.old.blocks at (λ s. is_free s.block ≡ false) }
    requires own { EachAt region.old.blocks at (λ s. IsTagOf region.old.words s own) }
    requires next { EachAt region.old.blocks at (λ s. IsNextTag region.old.words s next) }
    requires some { next.free ≡ true }
    requires none { EachAt region.old.blocks at (λ s. last_free s.before ≡ 0) }
    ensures blocks { EachAt region.old.blocks at (λ s. region.new.blocks ≡ coalesced tick s) }
    ensures relists { Relists SLI at 25 11 region.old region.new }
{
    let after = next.size();
    region.remove(after, at + own.size());
    let whole = own.with_next(next);
    region.merge(at, 0, after, false, true, whole, tick);
    region.push(class_of(whole.size()), at);
}

/// Makes the live block at a place, the free one before it, and the one after it, if that is free, one free block. The tags are those
/// of these blocks.
#[inline(never)]
fn merge_before<const SLI: u32>(
    region: &mut Region<SLI>,
    next: Tag,
    previous: Tag,
    tick: u64,
    at: u32,
    own: Tag,
)
    requires region { AwaitsTick SLI tick region.old }
    requires live { HasAt region.old.blocks at (λ s. is_free s.block ≡ false) }
    requires tags { EachAt region.old.blocks at (λ s. AreTagsAround region.old.words s own next previous) }
    requires some { previous.free ≡ true }
    ensures blocks { EachAt region.old.blocks at (λ s. region.new.blocks ≡ coalesced tick s) }
    ensures relists { Relists SLI at 25 11 region.old region.new }
{
    if next.is_free() {
        merge_both(region, next, previous, tick, at, own);
        return;
    }
    let before = previous.size();
    let whole = own.as_free().with_previous(previous);
    take_in(region, at, before, whole, tick);
}

/// Makes the live block at a place and the free ones before and after it one free block. The tags are those of these blocks.
#[inline(never)]
fn merge_both<const SLI: u32>(
    region: &mut Region<SLI>,
    next: Tag,
    previous: Tag,
    tick: u64,
    at: u32,
    own: Tag,
)
    requires region { AwaitsTick SLI tick region.old }
    requires live { HasAt region.old.blocks at (λ s. is_free s.block ≡ false) }
    requires tags { EachAt region.old.blocks at (λ s. AreTagsAround region.old.words s own next previous) }
    requires some { next.free ≡ true }
    requires both { previous.free ≡ true }
    ensures blocks { EachAt region.old.blocks at (λ s. region.new.blocks ≡ coalesced tick s) }
    ensures relists { Relists SLI at 25 11 region.old region.new }
{
    let after = next.size();
    region.remove(after, at + own.size());
    let before = previous.size();
    region.remove(before, at - before);
    let whole = own.with_next(next).with_previous(previous);
    region.merge(at, before, after, true, true, whole, tick);
    region.push(class_of(whole.size()), at - before);
}

/// Makes the block at a place one free block of this tag. It takes in the free one of `before` words before it. The block is then at
/// the head of the list of its class. Where the one before it is there already, it stays, and no link is written.
// The links of the one before say whether it is first, and are read anyway, to take it out. So one that isn't takes no instruction
// more. The same test beside a free block after it would take six in the longest release, which it can't shorten.
#[inline(always)]
fn take_in<const SLI: u32>(region: &mut Region<SLI>, at: u32, before: u32, tag: Tag, tick: u64)
    requires level { IsLevel SLI }
    requires before { IsRegion SLI before }
    requires around { HasAt region.old.blocks at (λ s. AreNeighbours region.old.words s before 0 tag) }
    requires most { tag.size ≤ most_words SLI }
    requires listed { Contains (list_in region.old.lists (class_of SLI before)) (at - before) }
    requires unlisted { (left : ℕ → List ℕ) → IsWithout (list_in region.old.lists) (class_of SLI before) (at - before) left → AreUnlisted left (at - before) (at - before + tag.size) }
    ensures blocks { EachAt region.old.blocks at (λ s. region.new.blocks ≡ coalesced tick s) }
    ensures lists { MovedToFront region.old region.new (class_of SLI before) (class_of SLI tag.size) (at - before) }
    ensures edits { Edits region.old region.new 20 }
    ensures touched { LeavesPayloads region.old.blocks at region.old.touched region.new.touched }
    ensures groups { InGroups 9 region.old.touched region.new.touched }
{
    let place = at - before;
    if region.is_first(place) {
        let from = class_of::<SLI>(before);
        let to = class_of::<SLI>(tag.size());
        if from.number() == to.number() {
            region.merge(at, before, 0, true, false, tag, tick);
            return;
        }
    }
    region.remove(before, place);
    region.merge(at, before, 0, true, false, tag, tick);
    region.push(class_of(tag.size()), place);
}
