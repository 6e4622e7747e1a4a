//! The characters that show a block.
ghost use Rattle.std.specs.Prelude.{◌≤◌, ◌^◌, IfOk};
ghost use Rattle.tlsf_map.specs.Layouts.{AreColumns, IsScale};

use crate::columns::{columns, gap, space};
use crate::fold::{Fold, used_words};
use crate::free_blocks::FreeBlocks;
use crate::mapped_heap::LabelledBlock;
use std::alloc::AllocError;
use tlsf_heap::{Content, PlacedBlock};

/// Adds characters alike, from a number up to another. A row begins with the place of its first word.
pub fn write_up_to(
    text: &mut String,
    scale: u64,
    from: u64,
    end: u64,
    mark: &str,
) -> Result<(), AllocError>
    requires scale { IsScale scale }
    requires end { end ≤ 2 ^ 37 }
{
    for number in from..end {
        if number % 64 == 0 {
            let place = number * scale;
            let gap = gap(place);
            let space = space(place);
            write!(text, "\n{gap}{place}{space}|")?;
        }
        text.push_str(mark)?;
    }
    Ok(())
}

// Adds the line that is written for all of some rows of characters alike.
fn write_lines(text: &mut String, scale: u64, lines: Fold, mark: &str) -> Result<(), AllocError>
    requires scale { IsScale scale }
    requires begins { lines.at ≤ 2 ^ 37 }
    requires ends { lines.end ≤ 2 ^ 37 }
{
    let place = lines.at * scale;
    let rows = lines.rows;
    let words = lines.end.saturating_sub(lines.at) * scale;
    let gap = gap(place);
    let space = space(place);
    write!(
        text,
        "\n{gap}{place}{space}~ {rows} rows of {mark} alone, {words} words"
    )
}

/// Adds characters alike, from a number up to another; where they fill three rows or more, a line stands for these.
pub fn write_alike(
    text: &mut String,
    scale: u64,
    from: u64,
    end: u64,
    mark: &str,
) -> Result<(), AllocError>
    requires scale { IsScale scale }
    requires from { from ≤ 2 ^ 36 }
    requires end { end ≤ 2 ^ 36 }
{
    let lines = Fold::between(64, from, end);
    if lines.hidden() == 0 {
        return write_up_to(text, scale, from, end, mark);
    }
    write_up_to(text, scale, from, lines.at, mark)?;
    write_lines(text, scale, lines, mark)?;
    write_up_to(text, scale, lines.end, end, mark)
}

// How many digits a number has.
fn digits_of(number: u32) -> u64
    ensures { result ≤ 2 ^ 32 }
{
    u64::from(number.checked_ilog10().unwrap_or(0)) + 1
}

// Adds the label of a block where it fits, and says how many characters it takes.
fn write_label_marks(
    text: &mut String,
    first: u64,
    end: u64,
    label: Option<u32>,
) -> Result<u64, AllocError>
    requires { first ≤ 2 ^ 35 }
    ensures { IfOk result (λ width. width ≤ 2 ^ 32) }
{
    let Some(label) = label else {
        return Ok(0);
    };
    let width = digits_of(label);
    // Behind the first character of the block, in its row and in the characters of the block.
    if first % 64 + 1 + width <= 64 && first + 1 + width <= end {
        write!(text, "{label}")?;
        return Ok(width);
    }
    Ok(0)
}

// Adds a live block with characters from this one up to that: its label, its header and its payload, and what that leaves empty.
fn write_live_marks(
    text: &mut String,
    scale: u64,
    drawn: LabelledBlock,
    length: u32,
    first: u64,
    end: u64,
) -> Result<(), AllocError>
    requires { AreColumns scale first end }
{
    let at = u64::from(drawn.block.at);
    let header = columns(scale, at + 3);
    let payload = columns(scale, at + used_words(length));
    write_up_to(text, scale, first, first + 1, "[")?;
    let from = first + 1 + write_label_marks(text, first, end, drawn.label)?;
    write_up_to(text, scale, from, header, "#")?;
    let filled = from.max(header);
    write_alike(text, scale, filled, payload, "=")?;
    write_up_to(text, scale, filled.max(payload), end, "-")
}

// Adds a free block of a heap with characters from this one up to that.
fn write_free_marks(
    text: &mut String,
    scale: u64,
    free: FreeBlocks,
    block: PlacedBlock,
    stamp: u64,
    first: u64,
    end: u64,
) -> Result<(), AllocError>
    requires { AreColumns scale first end }
{
    let mark = if block.size == free.largest { "*" } else { "(" };
    let age = if free.shade(stamp) < 50 { "." } else { ":" };
    write_up_to(text, scale, first, first + 1, mark)?;
    write_alike(text, scale, first + 1, end, age)
}

/// Adds the characters that begin in a block of a heap, whose free ones these tell apart, and says whether none does.
pub fn write_block_marks(
    text: &mut String,
    scale: u64,
    free: FreeBlocks,
    drawn: LabelledBlock,
) -> Result<bool, AllocError>
    requires { IsScale scale }
{
    let at = u64::from(drawn.block.at);
    let first = columns(scale, at);
    let end = columns(scale, at + u64::from(drawn.block.size));
    if first == end {
        return Ok(true);
    }
    match drawn.block.content {
        Content::Free { stamp } => {
            write_free_marks(text, scale, free, drawn.block, stamp, first, end)?;
        }
        Content::Live { length, .. } => {
            write_live_marks(text, scale, drawn, length, first, end)?;
        }
    }
    Ok(false)
}
