//! The picture in characters as a whole: a key to them, and the heaps, one below the other.
ghost use Rattle.std.specs.Prelude.{OnOk, string_bytes};
ghost use Rattle.tlsf_map.specs.Layouts.{IsScale};
ghost use Rattle.tlsf_map.specs.Told.{Adds, all_told, text_told, title_of};

use crate::columns::{is_dense, scale};
use crate::density::write_dense_blocks;
use crate::free_blocks::FreeBlocks;
use crate::mapped_heap::MappedHeap;
use crate::marks::write_block_marks;
use crate::numbers::{plural, write_numbers};
use crate::title::write_title;
use std::alloc::{AllocError, Global};

// The meaning of each character.
const CHARACTERS: &str =
    "[ live block  # header  = payload  - empty  ( free  * largest  . young  : old\n";

// Their meaning where each tells how many of its words are live.
const DENSE_KEY: &str = "\nlive words of a character: . none  : - = + * # % sevenths  @ all";

// Adds the blocks of a heap, and says in how many no character begins.
fn write_seen_rows(text: &mut String, scale: u64, heap: &MappedHeap) -> Result<(), AllocError>
    requires { IsScale scale }
{
    let free = FreeBlocks::of(heap);
    let mut count = 0u64;
    for drawn in &heap.blocks {
        if write_block_marks(text, scale, free, *drawn)? {
            count = count.saturating_add(1);
        }
    }
    if count == 0 {
        return Ok(());
    }
    let are = plural(
        count,
        " block is not shown: it has the first word of no character",
        " blocks are not shown: none of them has the first word of a character",
    );
    write!(text, "\n{count}{are}")
}

// The text after the title of a heap: the words of a character, its numbers, and its blocks.
fn rows_of(alloc: Global, scale: u64, words: u32, heap: &MappedHeap) -> Result<String, AllocError>
    requires { IsScale scale }
{
    let mut text = String::new(alloc);
    write!(text, ", words a character: {scale}\n")?;
    write_numbers(&mut text, &heap.report, "\n")?;
    if is_dense(scale) {
        text.push_str(DENSE_KEY)?;
        write_dense_blocks(&mut text, scale, words, &heap.blocks)?;
    } else {
        write_seen_rows(&mut text, scale, heap)?;
    }
    text.push_str("\n")?;
    Ok(text)
}

// Adds a heap, with as many words a character as it needs.
#[tactic(auto, using(crate::proofs::Telling::adds_between))]
fn write_heap(
    alloc: Global,
    text: &mut String,
    words: u32,
    heap: &MappedHeap,
) -> Result<(), AllocError>
    ensures { OnOk result (Adds (title_of words heap.now) (string_bytes text.old) (string_bytes text.new)) }
{
    let rows = rows_of(alloc, scale(words, &heap.blocks), words, heap)?;
    text.push_str("\n")?;
    write_title(text, words, heap)?;
    text.push_str(&rows)?;
    Ok(())
}

#[tactic(auto, using(crate::proofs::Telling::adds_none, crate::proofs::Telling::adds_next, crate::proofs::Telling::adds_all))]
fn write_heaps(
    alloc: Global,
    text: &mut String,
    words: u32,
    heaps: &[MappedHeap],
) -> Result<(), AllocError>
    ensures { OnOk result (Adds (all_told (title_of words) heaps.now) (string_bytes text.old) (string_bytes text.new)) }
{
    for number in 0..heaps.len() {
        write_heap(alloc, text, words, &heaps[number])?;
    }
    Ok(())
}

/// Adds the picture of heaps with `words` words each, in the characters of a terminal of 80 columns.
///
/// ```text
/// let mut text = String::new(alloc);
/// write_text(alloc, &mut text, 64, &heaps)?;  // "[ live block  # header .." and for each heap "\nheap 0: 64 words .."
/// ```
///
/// # Errors
///
/// Where memory runs out.
pub fn write_text(
    alloc: Global,
    text: &mut String,
    words: u32,
    heaps: &[MappedHeap],
) -> Result<(), AllocError>
    ensures { OnOk result (Adds (text_told words heaps.now) (string_bytes text.old) (string_bytes text.new)) }
{
    text.push_str(CHARACTERS)?;
    write_heaps(alloc, text, words, heaps)?;
    Ok(())
}
