//! The words of headers: what is written where a block is given or taken back. Each word is written once. Sizes and places are in
//! words.
ghost use Rattle.std.specs.Prelude.{◌≡◌, ◌≢◌, ℕ, ◌∷◌, ◌+◌, ◌-◌, ◌<◌, ◌≤◌, ◌==◌, ◌^◌, false, true, length, slice_set};
ghost use Rattle.tlsf_heap.specs.Headers.{HasFree, IsRest, NamesBefore, OnlyFrom, RisesBy, Wholes, Splits, Merges, Widens, Recuts, without_start};
ghost use Rattle.tlsf_heap.specs.Regions.{image_of};
ghost use Rattle.tlsf_words.specs.Lists.{nowhere};
ghost use Rattle.tlsf_words.specs.Touched.{times};

use tlsf_words::{NO_PLACE, Tag, Words};

/// Writes the place of the block before into the header at a place, where a block of tag `own` ends. Writes nothing where that is
/// the last block.
#[tactic(auto, using(crate::proofs::lemmas::words::Headers::size_in_below, crate::proofs::lemmas::words::Headers::inner_below, tlsf_words::proofs::Touching::times_other), unfolding(crate::specs::Headers::with_back))]
fn set_back(words: &mut Words, own: Tag, at: u32, back: u32)
    requires last { own.last ≡ (at == length words.old.words) }
    requires within { at ≤ length words.old.words }
    ensures header { NamesBefore words.old.words words.new.words at back }
    ensures only { OnlyFrom words.old.words words.new.words at (at + 1) }
    ensures starts { words.new.starts ≡ words.old.starts }
    ensures stays { words.new.extents ≡ words.old.extents }
    ensures touches { RisesBy words.old.touches words.new.touches 2 }
    ensures touched { (k : ℕ) → k ≢ at → times words.new.touched k ≡ times words.old.touched k }
{
    if own.is_last() {
        return;
    }
    let tag = words.tag(at);
    words.set_tag(at, tag.with_back(back));
}

/// Writes the tag and the mark of a free block. No neighbour's header says otherwise where its size stays.
pub fn free_header(words: &mut Words, at: u32, tag: Tag, stamp: u64)
    requires within { at + 1 < length words.old.words }
    requires free { tag.free ≡ true }
    ensures header { HasFree words.new.words at tag.size tag.last tag.back stamp }
    ensures only { OnlyFrom words.old.words words.new.words at (at + 2) }
    ensures starts { words.new.starts ≡ words.old.starts }
    ensures stays { words.new.extents ≡ words.old.extents }
    ensures touches { words.new.touches ≡ words.old.touches + 2 }
    ensures touched { words.new.touched ≡ (at + 1) ∷ at ∷ words.old.touched }
{
    words.set_tag_and_mark(at, tag, stamp);
}

/// Writes the header of the one free block of a region.
pub fn first_header(words: &mut Words, stamp: u64)
    ensures header { HasFree words.new.words 0 (length words.old.words) true nowhere stamp }
    ensures only { OnlyFrom words.old.words words.new.words 0 2 }
    ensures starts { words.new.starts ≡ slice_set words.old.starts 0 true }
    ensures stays { words.new.extents ≡ words.old.extents }
    ensures touches { words.new.touches ≡ words.old.touches + 3 }
    ensures touched { words.new.touched ≡ 1 ∷ 0 ∷ words.old.touched }
{
    let tag = Tag::new(words.len(), true, true, NO_PLACE);
    free_header(words, 0, tag, stamp);
    words.set_start(0, true);
}

/// Writes the header of a live block of this tag, with `len` bytes of payload.
pub fn live_header(words: &mut Words, at: u32, tag: Tag, serial: u64, len: u32)
    requires live { tag.free ≡ false }
    requires least { 4 ≤ tag.size }
    requires within { at + tag.size ≤ length words.old.words }
    ensures change { Wholes (image_of words.old) (image_of words.new) at tag serial len }
    ensures stays { words.new.extents ≡ words.old.extents }
    ensures touches { words.new.touches ≡ words.old.touches + 3 }
    ensures touched { words.new.touched ≡ (at + 2) ∷ (at + 1) ∷ at ∷ words.old.touched }
{
    words.set_header(at, tag, serial, len);
}

/// Makes the free block at a place, of this tag, a live one of `size` words with `len` bytes of payload. A free rest of its tag
/// stays. The serial of the first is the stamp of the rest.
#[tactic(auto, using(tlsf_words::proofs::Touching::times_other))]
pub fn split_header(
    words: &mut Words,
    at: u32,
    tag: Tag,
    rest: Tag,
    size: u32,
    serial: u64,
    len: u32,
)
    requires free { tag.free ≡ true }
    requires rest { IsRest tag at size rest }
    requires least { 4 ≤ size }
    requires room { size + 4 ≤ tag.size }
    requires within { at + tag.size ≤ length words.old.words }
    requires last { tag.last ≡ (at + tag.size == length words.old.words) }
    requires small { length words.old.words ≤ 2 ^ 24 }
    ensures change { Splits (image_of words.old) (image_of words.new) at tag size serial len }
    ensures stays { words.new.extents ≡ words.old.extents }
    ensures touches { RisesBy words.old.touches words.new.touches 8 }
    ensures touched { (k : ℕ) → k ≢ at → k ≢ at + 1 → k ≢ at + 2 → k ≢ at + size → k ≢ at + size + 1 → k ≢ at + tag.size → times words.new.touched k ≡ times words.old.touched k }
{
    let place = at + size;
    words.set_headers(at, tag.without(rest), serial, len, place, rest);
    words.set_start(place, true);
    set_back(words, rest, place + rest.size(), place);
}

/// Writes the header of a free block of this tag. The block at a place becomes it, with the free one of `before` words before it
/// and the one of `after` words after it. Where there is none, that is 0. `previous` and `next` say whether there is one: callers
/// know, so that no size is tested.
#[inline(always)]
#[tactic(auto, using(tlsf_words::proofs::Touching::times_other))]
pub fn merge_headers(
    words: &mut Words,
    at: u32,
    before: u32,
    after: u32,
    previous: bool,
    next: bool,
    tag: Tag,
    stamp: u64,
)
    requires previous { previous ≡ true → 0 < before }
    requires no_previous { previous ≡ false → before ≡ 0 }
    requires next { next ≡ true → 0 < after }
    requires no_next { next ≡ false → after ≡ 0 }
    requires free { tag.free ≡ true }
    requires before { before ≤ at }
    requires after { before + after + 4 ≤ tag.size }
    requires within { at - before + tag.size ≤ length words.old.words }
    requires last { tag.last ≡ (at - before + tag.size == length words.old.words) }
    requires small { length words.old.words ≤ 2 ^ 24 }
    ensures change { Merges (image_of words.old) (image_of words.new) at before after tag stamp }
    ensures stays { words.new.extents ≡ words.old.extents }
    ensures touches { RisesBy words.old.touches words.new.touches 6 }
    ensures touched { (k : ℕ) → k ≢ at - before → k ≢ at - before + 1 → k ≢ at - before + tag.size → times words.new.touched k ≡ times words.old.touched k }
{
    let place = at - before;
    let end = place + tag.size();
    clear_start(words, at, before, previous);
    clear_start(words, end - after, after, next);
    free_header(words, place, tag, stamp);
    set_back(words, tag, end, place);
}

/// Makes the live block at a place and the `after` free words after it a live block of all their words. Together they have this free
/// tag. The mark, the length and the payload stay.
#[tactic(auto, using(tlsf_words::proofs::Touching::times_other))]
pub fn widen_header(words: &mut Words, at: u32, tag: Tag, after: u32)
    requires free { tag.free ≡ true }
    requires some { 0 < after }
    requires after { after + 4 ≤ tag.size }
    requires within { at + tag.size ≤ length words.old.words }
    requires last { tag.last ≡ (at + tag.size == length words.old.words) }
    requires small { length words.old.words ≤ 2 ^ 24 }
    ensures change { Widens (image_of words.old) (image_of words.new) at tag after }
    ensures stays { words.new.extents ≡ words.old.extents }
    ensures touches { RisesBy words.old.touches words.new.touches 4 }
    ensures touched { (k : ℕ) → k ≢ at → k ≢ at + tag.size → times words.new.touched k ≡ times words.old.touched k }
{
    let end = at + tag.size();
    clear_start(words, end - after, after, true);
    set_back(words, tag, end, at);
    words.set_tag(at, tag.granted());
}

/// Makes the live block at a place and the `after` free words after it a live block of `size` words and a free rest. Together they
/// have this free tag. `merges` says whether there are such words: callers know, so that no size is tested. The mark, the length and
/// the payload of the first stay.
#[inline(always)]
#[tactic(auto, using(tlsf_words::proofs::Touching::times_other))]
pub fn recut_header(
    words: &mut Words,
    at: u32,
    tag: Tag,
    after: u32,
    merges: bool,
    size: u32,
    stamp: u64,
)
    requires some { merges ≡ true → 0 < after }
    requires none { merges ≡ false → after ≡ 0 }
    requires free { tag.free ≡ true }
    requires least { 4 ≤ size }
    requires room { size + 4 ≤ tag.size }
    requires after { after + 4 ≤ tag.size }
    requires within { at + tag.size ≤ length words.old.words }
    requires last { tag.last ≡ (at + tag.size == length words.old.words) }
    requires small { length words.old.words ≤ 2 ^ 24 }
    ensures change { Recuts (image_of words.old) (image_of words.new) at tag after size stamp }
    ensures stays { words.new.extents ≡ words.old.extents }
    ensures touches { RisesBy words.old.touches words.new.touches 7 }
    ensures touched { (k : ℕ) → k ≢ at → k ≢ at + size → k ≢ at + size + 1 → k ≢ at + tag.size → times words.new.touched k ≡ times words.old.touched k }
{
    let behind = at + tag.size();
    let place = at + size;
    let rest = tag.rest(size, at);

    // The tags first, so that few registers are wanted at once.
    words.set_tag(at, tag.without(rest));
    free_header(words, place, rest, stamp);
    clear_start(words, behind - after, after, merges);
    words.set_start(place, true);
    set_back(words, rest, behind, place);
}

/// Says that no block starts at a place where a block is merged with `size` words of a neighbour. Where that is 0 there is none.
#[inline(always)]
#[tactic(auto, unfolding(crate::specs::Headers::without_start))]
fn clear_start(words: &mut Words, at: u32, size: u32, is_merged: bool)
    requires some { is_merged ≡ true → 0 < size }
    requires none { is_merged ≡ false → size ≡ 0 }
    requires within { 0 < size → at < length words.old.words }
    ensures starts { words.new.starts ≡ without_start words.old.starts at size }
    ensures words { words.new.words ≡ words.old.words }
    ensures stays { words.new.extents ≡ words.old.extents }
    ensures touches { RisesBy words.old.touches words.new.touches 1 }
    ensures touched { words.new.touched ≡ words.old.touched }
{
    if is_merged {
        words.set_start(at, false);
    }
}
