//! Rectangles and lines of text. Lengths are in sixteenths of a pixel, so that each is a whole number.
ghost use Rattle.std.specs.Prelude.{◌≤◌, ◌^◌};
ghost use Rattle.tlsf_map.specs.Layouts.{AreWords};

use crate::fold::Fold;
use crate::grid::Grid;
use std::alloc::AllocError;

// Adds the place of the first word of a row, left of it.
fn write_place(text: &mut String, grid: Grid, at: u64) -> Result<(), AllocError>
    requires { at ≤ 2 ^ 34 }
{
    let y = grid.top(at) + 328;
    write!(text, "<text class='place' x='-96' y='{y}'>{at}</text>")
}

// Adds the rectangle of some words of one row, and the place where a row begins there and it is wanted.
fn write_piece(
    text: &mut String,
    grid: Grid,
    wanted: bool,
    at: u64,
    words: u64,
) -> Result<(), AllocError>
    requires place { at ≤ 2 ^ 34 }
    requires few { words ≤ 2 ^ 34 }
{
    if wanted && at % grid.row == 0 {
        write_place(text, grid, at)?;
    }
    let x = grid.left(at);
    let y = grid.top(at);
    let width = grid.width(at, words);
    write!(text, "<rect x='{x}' y='{y}' width='{width}' height='560'/>")
}

/// Adds a rectangle for each row that a number of words from a place on touch. Adds the places of the rows that begin among them,
/// where these are wanted.
pub fn write_spread(
    text: &mut String,
    grid: Grid,
    wanted: bool,
    at: u64,
    words: u64,
) -> Result<(), AllocError>
    requires { AreWords at words }
{
    let mut place = at;
    let mut left = words;
    while left > 0 {
        let here = left.min(grid.row - place % grid.row);
        write_piece(text, grid, wanted, place, here)?;
        place += here;
        left -= here;
    }
    Ok(())
}

// Adds the row that is drawn for all of some.
fn write_fold(text: &mut String, grid: Grid, fold: Fold) -> Result<(), AllocError>
    requires { fold.at ≤ 2 ^ 33 }
{
    write_place(text, grid, fold.at)?;
    let y = grid.top(fold.at);
    let base = y + 336;
    let rows = fold.rows;
    let words = fold.end.saturating_sub(fold.at);
    write!(
        text,
        "<rect class='fold' y='{y}' width='16384' height='560'/><g class='caption'><text class='fold' x='8192' y='{base}'>{rows} rows, {words} words</text></g>"
    )
}

/// Adds the words of a block with these rows among them. Where there are three rows or more, one is drawn for all.
pub fn write_rows(
    text: &mut String,
    grid: Grid,
    fold: Fold,
    at: u64,
    words: u64,
) -> Result<(), AllocError>
    requires begins { fold.at ≤ 2 ^ 33 }
    requires ends { fold.end ≤ 2 ^ 33 }
    requires rows { fold.rows ≤ 2 ^ 33 }
    requires place { at ≤ 2 ^ 32 }
    requires few { words ≤ 2 ^ 32 }
{
    if fold.hidden() == 0 {
        return write_spread(text, grid, true, at, words);
    }
    let below = grid.below(fold.hidden());
    write_spread(text, grid, true, at, fold.at.saturating_sub(at))?;
    write_fold(text, grid, fold)?;
    write_spread(
        text,
        below,
        true,
        fold.end,
        (at + words).saturating_sub(fold.end),
    )
}

/// Adds a label, or this name where there is none.
pub fn write_label(text: &mut String, label: Option<u32>, name: &str) -> Result<(), AllocError> {
    match label {
        Some(label) => write!(text, "label {label}"),
        None => text.push_str(name),
    }
}

/// The text on a block, in two lines: its label or a name, and an amount.
#[derive(Clone, Copy)]
pub struct Caption<'a> {
    pub label: Option<u32>,
    pub name: &'a str,
    pub amount: u32,
    pub unit: &'a str,
}

/// Adds the caption of a block, where its first piece is at least 80 pixels wide.
pub fn write_caption(
    text: &mut String,
    grid: Grid,
    at: u64,
    words: u64,
    caption: &Caption,
) -> Result<(), AllocError>
    requires { AreWords at words }
{
    let here = words.min(grid.row - at % grid.row);
    if grid.width(at, here) < 1280 {
        return Ok(());
    }
    let x = grid.left(at) + 64;
    let y = grid.top(at) + 240;
    write!(text, "<g class='caption'><text x='{x}' y='{y}'>")?;
    write_label(text, caption.label, caption.name)?;
    let below = y + 224;
    let amount = caption.amount;
    let unit = caption.unit;
    write!(
        text,
        "</text><text x='{x}' y='{below}'>{amount} {unit}</text></g>"
    )
}
