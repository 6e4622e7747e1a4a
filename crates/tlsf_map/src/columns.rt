//! How words are laid out in characters.
ghost use Rattle.std.specs.Prelude.{◌≤◌, ◌^◌};
ghost use Rattle.tlsf_map.specs.Layouts.{IsScale};

use crate::fold::{Fold, used_words};
use crate::mapped_heap::LabelledBlock;
use tlsf_heap::{Content, PlacedBlock};

const MOST_WORDS_A_CHARACTER: u64 = 16_384;

const MOST_LINES: u64 = 16;

/// The words of a character in a picture of a heap with `words` words and these blocks. They are as few as may be, from 1 up to
/// 16,384 by powers of two, where at most 16 rows are written with them.
pub fn scale(words: u32, blocks: &[LabelledBlock]) -> u64
    ensures { IsScale result }
{
    let mut scale = 1;
    while scale < MOST_WORDS_A_CHARACTER && written_lines(scale, words, blocks) > MOST_LINES {
        scale = (2 * scale).min(MOST_WORDS_A_CHARACTER);
    }
    scale
}

/// How many characters begin before a place.
pub fn columns(scale: u64, place: u64) -> u64
    requires scale { IsScale scale }
    requires place { place ≤ 2 ^ 34 }
    ensures { result ≤ 2 ^ 35 }
{
    (place + scale - 1) / scale
}

/// Whether this number of words is too large for a character that shows the first of them.
pub fn is_dense(scale: u64) -> bool {
    64 < scale
}

// The rows of a block that show its payload alone, or free words after the first. Where a character shows how many of its words are
// live, they are those that lie in it.
fn lines(scale: u64, block: PlacedBlock) -> Fold
    requires { IsScale scale }
{
    let at = u64::from(block.at);
    let first = columns(scale, at);
    let end = columns(scale, at + u64::from(block.size));
    if is_dense(scale) {
        return Fold::between(64, first, end.saturating_sub(1));
    }
    match block.content {
        Content::Free { .. } => Fold::between(64, first + 1, end),
        Content::Live { length, .. } => Fold::between(
            64,
            (first + 1).max(columns(scale, at + 3)),
            columns(scale, at + used_words(length)),
        ),
    }
}

// Those of the rows of this many words that are written where these blocks lie in them.
fn written_lines(scale: u64, words: u32, blocks: &[LabelledBlock]) -> u64
    requires { IsScale scale }
{
    let mut left = (columns(scale, u64::from(words)) + 63) / 64;
    for drawn in blocks {
        left = left.saturating_sub(lines(scale, drawn.block).hidden());
    }
    left
}

/// The spaces before a place, so that all places of up to seven digits end in one column.
pub fn gap(place: u64) -> &'static str {
    if place < 10 {
        "      "
    } else if place < 100 {
        "     "
    } else if place < 1000 {
        "    "
    } else if place < 10_000 {
        "   "
    } else if place < 100_000 {
        "  "
    } else if place < 1_000_000 {
        " "
    } else {
        ""
    }
}

/// The space behind a place of up to seven digits.
pub fn space(place: u64) -> &'static str {
    if place < 10_000_000 { " " } else { "" }
}
