//! A look at the headers that one call is about to follow, in words that may hold anything.
ghost use Rattle.std.specs.Prelude.{◌≡◌, ◌+◌, ◌≤◌, length};
ghost use Rattle.tlsf_heap.specs.Around.{IsAroundCheck, TellsTaken, around_touches, taken_touches};
ghost use Rattle.tlsf_heap.specs.Checks.{Begins, OnlyLooks, OnlyHeaders};
ghost use Rattle.tlsf_heap.specs.Regions.{image_of};

use crate::check::{begins, begins_free, examine};
use crate::checked::Checked;
use tlsf_words::Words;

/// Looks at the block that begins at a place, which may be any number, and at both its neighbours. `None` where no block begins
/// there. The words may hold anything: each place that a sound block names is looked at before it is used.
///
/// A release or a resize of the block follows no header but these, and no links but those in them. Where all are `Sound`, `next` is
/// the place behind the block, and 0 where the region ends there. A block is sound as [`crate::check_words`] says. Nothing is written.
///
/// ```text
/// let mut words = Heap::<4>::open(alloc, 0, 64, 0)?.into_words();
/// check_around(&mut words, 0)                  // Some(Checked::Sound { next: 0 })
/// words.set_tag(0, Tag::new(0, true, true, NO_PLACE));
/// check_around(&mut words, 0)                  // Some(Checked::Damaged { at: 0 })
/// ```
pub fn check_around(words: &mut Words, at: u32) -> Option<Checked>
    ensures answer { IsAroundCheck (image_of words.old) at result }
    ensures looks { OnlyLooks words.old words.new around_touches }

    // Whatever the words hold, none is read but those of headers: of no payload, and of no free block's rest.
    ensures touched { OnlyHeaders (image_of words.old) words.old.touched words.new.touched }

    // Not even a start bit is read unless the place lies in the region, and no word unless a block begins there.
    ensures outside { length words.old.words ≤ at → words.new.touches ≡ words.old.touches }
    ensures nowhere { ¬ (Begins (image_of words.old) at) → words.new.touches ≤ words.old.touches + 1 }
    ensures unread { ¬ (Begins (image_of words.old) at) → words.new.touched ≡ words.old.touched }
{
    if !begins(words, at) {
        return None;
    }
    let Some(end) = examine(words, at) else {
        return Some(Checked::Damaged { at });
    };
    if at > 0 {
        let back = words.tag(at).back();
        if examine(words, back).is_none() {
            return Some(Checked::Damaged { at: back });
        }
    }
    if end == words.len() {
        return Some(Checked::Sound { next: 0 });
    }
    if examine(words, end).is_none() {
        return Some(Checked::Damaged { at: end });
    }
    Some(Checked::Sound { next: end })
}

/// Looks at the free block at a place that a request of `least` words is about to take, and at both its neighbours. The block is
/// `Damaged` where it isn't free, or has fewer words. Otherwise the answer is that of [`check_around`]. Nothing is written.
///
/// ```text
/// let mut words = Heap::<4>::open(alloc, 0, 64, 0)?.into_words();
/// check_taken(&mut words, 0, 16)               // Checked::Sound { next: 0 }
/// check_taken(&mut words, 0, 65)               // Checked::Damaged { at: 0 }
/// ```
pub fn check_taken(words: &mut Words, at: u32, least: u32) -> Checked
    ensures answer { TellsTaken (image_of words.old) at least result }
    ensures looks { OnlyLooks words.old words.new taken_touches }
    ensures touched { OnlyHeaders (image_of words.old) words.old.touched words.new.touched }
{
    if !begins_free(words, at) || words.tag(at).size() < least {
        return Checked::Damaged { at };
    }
    let Some(checked) = check_around(words, at) else {
        return Checked::Damaged { at };
    };
    checked
}
