//! The parts of a picture that show a block.
ghost use Rattle.tlsf_map.specs.Layouts.{AreWords};

use crate::fold::{Fold, used_words};
use crate::free_blocks::FreeBlocks;
use crate::grid::Grid;
use crate::mapped_heap::LabelledBlock;
use crate::numbers::plural;
use crate::rectangles::{Caption, write_caption, write_label, write_rows, write_spread};
use std::alloc::AllocError;
use tlsf_heap::{Content, PlacedBlock};

// Adds the caption of a block, and ends its group.
fn write_end(
    text: &mut String,
    grid: Grid,
    block: PlacedBlock,
    caption: &Caption,
) -> Result<(), AllocError> {
    write_caption(
        text,
        grid,
        u64::from(block.at),
        u64::from(block.size),
        caption,
    )?;
    text.push_str("</g>\n")
}

// Adds a free block of a heap.
fn write_free(
    text: &mut String,
    grid: Grid,
    free: FreeBlocks,
    block: PlacedBlock,
    stamp: u64,
) -> Result<(), AllocError> {
    let class = if block.size == free.largest {
        "free largest"
    } else {
        "free"
    };
    let shade = free.shade(stamp);
    let at = block.at;
    let size = block.size;
    let caption = Caption {
        label: None,
        name: "free",
        amount: size,
        unit: "words",
    };
    write!(
        text,
        "<g class='{class}' fill-opacity='.{shade}'><title>free since tick {stamp}, place {at}, {size} words</title>"
    )?;
    let fold = Fold::of(grid.row, block);
    write_rows(text, grid, fold, u64::from(at), u64::from(size))?;
    write_end(text, grid, block, &caption)
}

// Adds the rectangles of some words of a live block that hold no payload.
fn write_part(
    text: &mut String,
    class: &str,
    grid: Grid,
    at: u64,
    words: u64,
) -> Result<(), AllocError>
    requires { AreWords at words }
{
    write!(text, "<g class='{class}'>")?;
    write_spread(text, grid, false, at, words)?;
    text.push_str("</g>")
}

// Adds the rectangles of a live block: all its words, and over them its header and those that its payload leaves empty.
fn write_fill(
    text: &mut String,
    grid: Grid,
    block: PlacedBlock,
    length: u32,
) -> Result<(), AllocError> {
    let fold = Fold::of(grid.row, block);
    let below = grid.below(fold.hidden());
    let at = u64::from(block.at);
    let size = u64::from(block.size);
    let used = used_words(length);
    write_rows(text, grid, fold, at, size)?;
    write_part(text, "head", grid, at, 3)?;
    write_part(text, "slack", below, at + used, size.saturating_sub(used))
}

// Adds a live block.
fn write_live(
    text: &mut String,
    grid: Grid,
    drawn: LabelledBlock,
    serial: u64,
    length: u32,
) -> Result<(), AllocError> {
    let at = drawn.block.at;
    let size = drawn.block.size;
    let unit = plural(u64::from(length), "byte", "bytes");
    let caption = Caption {
        label: drawn.label,
        name: "live",
        amount: length,
        unit,
    };
    text.push_str("<g class='live'><title>")?;
    write_label(text, drawn.label, "live")?;
    write!(
        text,
        ", place {at}, {size} words, {length} {unit}, serial {serial}</title>"
    )?;
    write_fill(text, grid, drawn.block, length)?;
    write_end(text, grid, drawn.block, &caption)
}

/// Adds a block of a heap, whose free ones these tell apart.
pub fn write_block(
    text: &mut String,
    grid: Grid,
    free: FreeBlocks,
    drawn: LabelledBlock,
) -> Result<(), AllocError> {
    match drawn.block.content {
        Content::Free { stamp } => write_free(text, grid, free, drawn.block, stamp),
        Content::Live { serial, length } => write_live(text, grid, drawn, serial, length),
    }
}
