//! Characters that have many words each: how many of them are live.
ghost use Rattle.std.specs.Prelude.{◌+◌, ◌≤◌, ◌^◌};
ghost use Rattle.tlsf_map.specs.Layouts.{IsScale};

use crate::columns::columns;
use crate::mapped_heap::LabelledBlock;
use crate::marks::{write_alike, write_up_to};
use std::alloc::AllocError;
use tlsf_heap::{Content, PlacedBlock};

// The words between two places that lie in a block, where it is live.
fn live_words(from: u64, end: u64, block: PlacedBlock) -> u64
    requires { end ≤ from + 2 ^ 14 }
    ensures { result ≤ 2 ^ 14 }
{
    let at = u64::from(block.at);
    match block.content {
        Content::Free { .. } => 0,
        Content::Live { .. } => {
            end.min(at + u64::from(block.size))
                .saturating_sub(from.max(at))
        }
    }
}

// Those that lie in some blocks.
fn live_among(from: u64, end: u64, blocks: &[LabelledBlock]) -> u64
    requires { end ≤ from + 2 ^ 14 }
    ensures { result ≤ 2 ^ 14 }
{
    let most = end.saturating_sub(from);
    let mut live = 0;
    for drawn in blocks {
        live = (live + live_words(from, end, drawn.block)).min(most);
    }
    live
}

// The character of `words` words where `live` of them are live.
fn mark_of(live: u64, words: u64) -> &'static str
    requires { live ≤ 2 ^ 14 }
{
    if live == 0 {
        return ".";
    }
    if words <= live {
        return "@";
    }
    match 7 * live / words {
        0 => ":",
        1 => "-",
        2 => "=",
        3 => "+",
        4 => "*",
        5 => "#",
        _ => "%",
    }
}

// The character of a number in a heap with this many words and these blocks.
fn mark_at(scale: u64, words: u32, number: u64, blocks: &[LabelledBlock]) -> &'static str
    requires scale { IsScale scale }
    requires number { number ≤ 2 ^ 35 }
{
    let from = number * scale;
    let end = (from + scale).min(u64::from(words));
    mark_of(live_among(from, end, blocks), end.saturating_sub(from))
}

// Adds the characters that begin in a block of a heap: of these all but the last lie in it.
fn write_dense_block(
    text: &mut String,
    scale: u64,
    words: u32,
    blocks: &[LabelledBlock],
    block: PlacedBlock,
) -> Result<(), AllocError>
    requires { IsScale scale }
{
    let at = u64::from(block.at);
    let first = columns(scale, at);
    let end = columns(scale, at + u64::from(block.size));
    if first == end {
        return Ok(());
    }
    let last = end.saturating_sub(1);
    let whole = match block.content {
        Content::Free { .. } => ".",
        Content::Live { .. } => "@",
    };
    write_alike(text, scale, first, last, whole)?;
    write_up_to(text, scale, last, end, mark_at(scale, words, last, blocks))
}

/// Adds the blocks of a heap with `words` words, in characters that tell how many of their words are live.
pub fn write_dense_blocks(
    text: &mut String,
    scale: u64,
    words: u32,
    blocks: &[LabelledBlock],
) -> Result<(), AllocError>
    requires { IsScale scale }
{
    for drawn in blocks {
        write_dense_block(text, scale, words, blocks, drawn.block)?;
    }
    Ok(())
}
