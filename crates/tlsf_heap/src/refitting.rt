//! Resizing a block where it stands, over a region and the lists of its free blocks. Sizes and places are in words, lengths in bytes.
ghost use Rattle.std.specs.Prelude.{◌≡◌, ◌+◌, ◌-◌, ◌/◌, ◌<◌, ◌≤◌, ◌++◌, true, false, length};
ghost use Rattle.std.specs.List.{AllByRecursion};
ghost use Rattle.tlsf_words.specs.Touched.{InGroups};
ghost use Rattle.tlsf_heap.specs.Lawful.{HasRoom};
ghost use Rattle.tlsf_heap.specs.Blocks.{is_free, bytes_of, words_for};
ghost use Rattle.tlsf_heap.specs.Calls;
ghost use Rattle.tlsf_heap.specs.FreePlaces.{AreFreeLists};
ghost use Rattle.tlsf_heap.specs.Footprint.{LeavesLive, LeavesPayloads};
ghost use Rattle.tlsf_heap.specs.Regions.{EachAt, HasAt, IsTagOf, IsNextTag, IsTagBehind, list_in, OnlyReads, IsInOrder, AwaitsTick, Edits, Relists};
ghost use Rattle.tlsf_heap.specs.WordsInUse.{words_used};

use crate::fitting::next_tag;
use crate::region::Region;
use tlsf_class::class_of;
use tlsf_words::Tag;

/// The tag of the free block behind the block at a place, of this tag. Its size is 0 where the block behind is live or the region
/// ends.
#[inline]
pub fn look_behind<const SLI: u32>(region: &mut Region<SLI>, at: u32, own: Tag) -> Tag
    requires own { HasAt region.old.blocks at (λ s. IsTagOf region.old.words s own) }
    requires region { IsInOrder SLI region.old }
    ensures tag { EachAt region.old.blocks at (λ s. IsTagBehind region.old.words s result) }
    ensures reads { OnlyReads region.old region.new 1 }
    ensures touched { LeavesLive region.old.blocks region.old.touched region.new.touched }
    ensures groups { InGroups 1 region.old.touched region.new.touched }
{
    let next = next_tag(region, at, own);
    if next.is_free() {
        next
    } else {
        Tag::new(0, false, false, 0)
    }
}

/// Makes the live block at a place and the free block after it one live block of `words` words and a free rest. The tags are those
/// of these blocks. Where the rest would have fewer than four words, it makes a live block of them all. The payload stays. Answers
/// the words of the live block.
// Never inline: a resize that finds no free block then saves no registers for it.
#[inline(never)]
fn recut<const SLI: u32>(
    region: &mut Region<SLI>,
    at: u32,
    own: Tag,
    next: Tag,
    words: u32,
    tick: u64,
) -> u32
    requires region { AwaitsTick SLI tick region.old }
    requires least { 4 ≤ words }
    requires live { HasAt region.old.blocks at (λ s. (is_free s.block ≡ false) × (words_for (length (bytes_of s.block)) ≤ words)) }
    requires own { EachAt region.old.blocks at (λ s. IsTagOf region.old.words s own) }
    requires next { EachAt region.old.blocks at (λ s. IsNextTag region.old.words s next) }
    requires some { next.free ≡ true }
    requires room { words ≤ own.size + next.size }
    ensures blocks { EachAt region.old.blocks at (λ s. region.new.blocks ≡ s.before ++ Calls.recut tick words s.block s.after) }
    ensures least { words ≤ result }
    ensures cut { words + 4 ≤ own.size + next.size → result ≡ words }
    ensures used { words_used region.new.blocks + own.size ≡ words_used region.old.blocks + result }
    ensures relists { Relists SLI at 20 9 region.old region.new }
{
    let after = next.size();
    region.remove(after, at + own.size());
    let whole = own.with_next(next);
    let both = whole.size();
    if both < words + 4 {
        region.widen(at, whole, after);
        return both;
    }
    let rest = region.recut(at, whole, after, true, words, tick);
    region.push(class_of(rest), at + words);
    words
}

/// Gives the live block at a place, of this tag, `len` bytes of payload, for which more words are wanted than it has. The free block of
/// tag `next` follows it. Answers the words that the block has then, which are more.
// Always inline: in a call of its own it would hold the filling of bytes that a call which fills nothing never adds.
#[inline(always)]
pub fn grow<const SLI: u32>(
    region: &mut Region<SLI>,
    at: u32,
    own: Tag,
    next: Tag,
    words: u32,
    len: u32,
    grows: bool,
    tick: u64,
) -> u32
    requires region { AwaitsTick SLI tick region.old }
    requires least { 4 ≤ words }
    requires payload { words_for len ≤ words }
    requires live { HasAt region.old.blocks at (λ s. is_free s.block ≡ false) }
    requires grows { EachAt region.old.blocks at (λ s. grows ≡ false → len ≤ length (bytes_of s.block)) }
    requires own { EachAt region.old.blocks at (λ s. IsTagOf region.old.words s own) }
    requires next { EachAt region.old.blocks at (λ s. IsTagBehind region.old.words s next) }
    requires more { own.size < words }
    requires room { words ≤ own.size + next.size }
    requires rooms { AllByRecursion HasRoom region.old.blocks }
    ensures blocks { EachAt region.old.blocks at (λ s. region.new.blocks ≡ s.before ++ Calls.refitted tick words len s.block s.after) }
    ensures used { words_used region.new.blocks + own.size ≡ words_used region.old.blocks + result }
    ensures more { own.size < result }
    ensures listed { AreFreeLists SLI region.new.blocks (list_in region.new.lists) }
    ensures edits { Edits region.old region.new (20 + words_for len) }
    ensures touched { LeavesPayloads region.old.blocks at region.old.touched region.new.touched }
    ensures grown { EachAt region.old.blocks at (λ s. region.new.touches ≤ region.old.touches + 24 + (words_for len - words_for (length (bytes_of s.block)))) }
    ensures groups { EachAt region.old.blocks at (λ s. InGroups (12 + (len - length (bytes_of s.block)) / 64) region.old.touched region.new.touched) }
{
    let left = recut(region, at, own, next, words, tick);
    region.set_payload(at, len, grows);
    left
}

/// Gives the live block at a place, of this tag, `len` bytes of payload, for which no more words are wanted than it has. A block that
/// has those and fewer than four more keeps its size, and what follows it isn't read. Answers the words that the block has then,
/// which are no more.
#[inline(always)]
pub fn shrink<const SLI: u32>(
    region: &mut Region<SLI>,
    at: u32,
    own: Tag,
    words: u32,
    len: u32,
    grows: bool,
    tick: u64,
) -> u32
    requires region { AwaitsTick SLI tick region.old }
    requires least { 4 ≤ words }
    requires payload { words_for len ≤ words }
    requires live { HasAt region.old.blocks at (λ s. is_free s.block ≡ false) }
    requires grows { EachAt region.old.blocks at (λ s. grows ≡ false → len ≤ length (bytes_of s.block)) }
    requires own { EachAt region.old.blocks at (λ s. IsTagOf region.old.words s own) }
    requires less { words ≤ own.size }
    ensures blocks { EachAt region.old.blocks at (λ s. region.new.blocks ≡ s.before ++ Calls.refitted tick words len s.block s.after) }
    ensures used { words_used region.new.blocks + own.size ≡ words_used region.old.blocks + result }
    ensures less { result ≤ own.size }
    ensures listed { AreFreeLists SLI region.new.blocks (list_in region.new.lists) }
    ensures edits { Edits region.old region.new (21 + words_for len) }
    ensures touched { LeavesPayloads region.old.blocks at region.old.touched region.new.touched }
    ensures grown { EachAt region.old.blocks at (λ s. region.new.touches ≤ region.old.touches + 25 + (words_for len - words_for (length (bytes_of s.block)))) }
    ensures groups { EachAt region.old.blocks at (λ s. InGroups (13 + (len - length (bytes_of s.block)) / 64) region.old.touched region.new.touched) }
{
    region.set_payload(at, len, grows);
    let held = own.size();
    if held < words + 4 {
        return held;
    }
    split_off(region, at, own, words, tick);
    words
}

/// Cuts the live block at a place, of this tag, at `words` words, where it has four more at least. Those behind are one free block
/// with the free block that follows.
// Never inline, as `recut` is.
#[inline(never)]
fn split_off<const SLI: u32>(region: &mut Region<SLI>, at: u32, own: Tag, words: u32, tick: u64)
    requires region { AwaitsTick SLI tick region.old }
    requires least { 4 ≤ words }
    requires live { HasAt region.old.blocks at (λ s. (is_free s.block ≡ false) × (words_for (length (bytes_of s.block)) ≤ words)) }
    requires own { EachAt region.old.blocks at (λ s. IsTagOf region.old.words s own) }
    requires less { words + 4 ≤ own.size }
    ensures blocks { EachAt region.old.blocks at (λ s. region.new.blocks ≡ s.before ++ Calls.recut tick words s.block s.after) }
    ensures used { words_used region.new.blocks + own.size ≡ words_used region.old.blocks + words }
    ensures relists { Relists SLI at 21 10 region.old region.new }
{
    let behind = next_tag(region, at, own);
    if behind.is_free() {
        recut(region, at, own, behind, words, tick);
        return;
    }
    let rest = region.recut(at, own.as_free(), 0, false, words, tick);
    region.push(class_of(rest), at + words);
}
