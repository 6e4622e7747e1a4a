//! A check of blocks in words that may hold anything. No place is followed before its start bit was looked at.
ghost use Rattle.std.specs.Prelude.{◌≡◌, ◌+◌, ◌*◌, ◌/◌, ◌^◌, ◌≤◌, ◌<◌, true, false, length, slice_index, MatchOption};
ghost use Rattle.tlsf_heap.specs.Blocks.{words_for};
ghost use Rattle.tlsf_heap.specs.Checks.{Begins, BeginsFree, JoinsBefore, JoinsBehind, NextLeadsBack, PreviousLeadsBack, LeadsBack, IsSound, IsCheck, OnlyLooks, OnlyHeaders, end_at, block_touches};
ghost use Rattle.tlsf_heap.specs.Regions.{image_of};

use crate::checked::Checked;
use tlsf_words::{NO_PLACE, Tag, Words};

/// Looks at `most` blocks at most, one after the other. The first of them begins at `from`; `None` where none begins there. The
/// words may hold anything. Nothing of a damaged block is followed, and each place that a sound one names is looked at before it is
/// used.
///
/// A block is sound where these agree: its start bit, its size, its neighbours' tags, and whether it is the last. Its payload
/// length or its links must agree too. Start bits between its first word and its last are not looked at, nor is its serial or its
/// stamp. Nothing is written. Where `most` is 0, no block is looked at, and `next` is `from`.
///
/// ```text
/// let mut words = Heap::<4>::open(alloc, 0, 64, 0)?.into_words();
/// check_words(&mut words, 0, 100)                  // Some(Checked::Sound { next: 0 })
/// words.set_tag(0, Tag::new(0, true, true, NO_PLACE));
/// check_words(&mut words, 0, 100)                  // Some(Checked::Damaged { at: 0 })
/// ```
pub fn check_words(words: &mut Words, from: u32, most: u32) -> Option<Checked>
    ensures answer { IsCheck (image_of words.old) from most result }
    ensures words { words.new.words ≡ words.old.words }
    ensures starts { words.new.starts ≡ words.old.starts }
    ensures stays { words.new.extents ≡ words.old.extents }

    // At most 13 for each block looked at, and one for the first start bit. No two blocks that are looked at begin within four words.
    ensures touches { words.new.touches ≤ words.old.touches + 1 + block_touches * most }
    ensures few { words.new.touches ≤ words.old.touches + 1 + block_touches * (length words.old.words / 4) }
    ensures touches_rise { words.old.touches ≤ words.new.touches }

    // Whatever the words hold, none is read but those of headers: of no payload, and of no free block's rest.
    ensures touched { OnlyHeaders (image_of words.old) words.old.touched words.new.touched }

    // Not even a start bit is read unless the place lies in the region, and no word unless a block begins there.
    ensures outside { length words.old.words ≤ from → words.new.touches ≡ words.old.touches }
    ensures nowhere { ¬ (Begins (image_of words.old) from) → words.new.touches ≤ words.old.touches + 1 }
    ensures unread { ¬ (Begins (image_of words.old) from) → words.new.touched ≡ words.old.touched }
{
    if !begins(words, from) {
        return None;
    }
    let mut at = from;
    for _count in 0..most {
        let Some(end) = examine(words, at) else {
            return Some(Checked::Damaged { at });
        };
        if end == words.len() {
            return Some(Checked::Sound { next: 0 });
        }
        at = end;
    }
    Some(Checked::Sound { next: at })
}

/// Where the block at a place ends, `None` where it isn't sound.
pub fn examine(words: &mut Words, at: u32) -> Option<u32>
    ensures answer { MatchOption result (¬ (IsSound (image_of words.old) at)) (λ end. IsSound (image_of words.old) at × (end ≡ end_at (image_of words.old) at)) }
    ensures looks { OnlyLooks words.old words.new block_touches }
    ensures touched { OnlyHeaders (image_of words.old) words.old.touched words.new.touched }
{
    if !begins(words, at) {
        return None;
    }
    let tag = words.tag(at);
    let size = tag.size();
    let end = at + size;
    let len = words.len();
    if size < 4 || end > len || tag.is_last() != (end == len) {
        return None;
    }
    if !joins_before(words, at, tag.back()) {
        return None;
    }
    let is_free = tag.is_free();
    if end < len && !joins_behind(words, at, end, is_free) {
        return None;
    }
    let is_sound = if is_free {
        leads_back(words, at)
    } else {
        holds_length(words, at, size)
    };
    if is_sound { Some(end) } else { None }
}

/// Whether a block begins at a place, which may be any number. No start bit is read unless the place lies in the region.
pub fn begins(words: &mut Words, at: u32) -> bool
    ensures yes { result ≡ true → Begins (image_of words.old) at }
    ensures no { result ≡ false → ¬ (Begins (image_of words.old) at) }
    ensures looks { OnlyLooks words.old words.new 1 }
    ensures touched { words.new.touched ≡ words.old.touched }
    ensures outside { length words.old.words ≤ at → words.new.touches ≡ words.old.touches }
    ensures small { length words.old.words ≤ 2 ^ 24 }
{
    at <= words.len() - 4 && words.starts(at)
}

/// Whether a free block begins at a place, which may be any number.
pub fn begins_free(words: &mut Words, at: u32) -> bool
    ensures yes { result ≡ true → BeginsFree (image_of words.old) at }
    ensures no { result ≡ false → ¬ (BeginsFree (image_of words.old) at) }
    ensures looks { OnlyLooks words.old words.new 2 }
    ensures touched { OnlyHeaders (image_of words.old) words.old.touched words.new.touched }
{
    begins(words, at) && words.tag(at).is_free()
}

/// Whether the block before one ends where that one begins, if it begins at `back`, as the tag says.
fn joins_before(words: &mut Words, at: u32, back: u32) -> bool
    ensures yes { result ≡ true → JoinsBefore (image_of words.old) at back }
    ensures no { result ≡ false → ¬ (JoinsBefore (image_of words.old) at back) }
    ensures looks { OnlyLooks words.old words.new 2 }
    ensures touched { OnlyHeaders (image_of words.old) words.old.touched words.new.touched }
{
    if at == 0 {
        return back == NO_PLACE;
    }
    begins(words, back) && back + words.tag(back).size() == at
}

/// Whether the block behind one, which ends at `end`, names it, and not both are free.
fn joins_behind(words: &mut Words, at: u32, end: u32, is_free: bool) -> bool
    ensures yes { result ≡ true → JoinsBehind (image_of words.old) at end is_free }
    ensures no { result ≡ false → ¬ (JoinsBehind (image_of words.old) at end is_free) }
    ensures looks { OnlyLooks words.old words.new 2 }
    ensures touched { OnlyHeaders (image_of words.old) words.old.touched words.new.touched }
{
    if !begins(words, end) {
        return false;
    }
    let next = words.tag(end);
    next.back() == at && !(is_free && next.is_free())
}

/// Whether a live block of `size` words has room for the payload of the length that its header says.
fn holds_length(words: &mut Words, at: u32, size: u32) -> bool
    requires inside { at + 2 < length words.old.words }
    requires least { 4 ≤ size }
    requires small { length words.old.words ≤ 2 ^ 24 }
    ensures yes { result ≡ true → words_for (slice_index words.old.words (at + 2)) ≤ size }
    ensures no { result ≡ false → size < words_for (slice_index words.old.words (at + 2)) }
    ensures looks { OnlyLooks words.old words.new 1 }
    ensures touched { Begins (image_of words.old) at → OnlyHeaders (image_of words.old) words.old.touched words.new.touched }
{
    words.word(at + 2) <= 8 * (u64::from(size) - 3)
}

/// Whether the links of a free block lead to free ones that name it.
fn leads_back(words: &mut Words, at: u32) -> bool
    requires { at + 2 < length words.old.words }
    ensures yes { result ≡ true → LeadsBack (image_of words.old) at }
    ensures no { result ≡ false → ¬ (LeadsBack (image_of words.old) at) }
    ensures looks { OnlyLooks words.old words.new 7 }
    ensures touched { Begins (image_of words.old) at → OnlyHeaders (image_of words.old) words.old.touched words.new.touched }
{
    let links = words.links(at);
    next_leads_back(words, at, links.next) && previous_leads_back(words, at, links.previous)
}

/// Whether the next place of a list is none, or that of a free block which names this one as the previous.
fn next_leads_back(words: &mut Words, at: u32, next: u32) -> bool
    ensures yes { result ≡ true → NextLeadsBack (image_of words.old) at next }
    ensures no { result ≡ false → ¬ (NextLeadsBack (image_of words.old) at next) }
    ensures looks { OnlyLooks words.old words.new 3 }
    ensures touched { OnlyHeaders (image_of words.old) words.old.touched words.new.touched }
{
    next == NO_PLACE || begins_free(words, next) && words.links(next).previous == at
}

/// Whether the previous place of a list is none, or that of a free block which names this one as the next.
fn previous_leads_back(words: &mut Words, at: u32, previous: u32) -> bool
    ensures yes { result ≡ true → PreviousLeadsBack (image_of words.old) at previous }
    ensures no { result ≡ false → ¬ (PreviousLeadsBack (image_of words.old) at previous) }
    ensures looks { OnlyLooks words.old words.new 3 }
    ensures touched { OnlyHeaders (image_of words.old) words.old.touched words.new.touched }
{
    previous == NO_PLACE || begins_free(words, previous) && words.links(previous).next == at
}
