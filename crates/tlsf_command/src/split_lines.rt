//! The lines that `tlsf size --split` writes.
ghost use Rattle.std.specs.Prelude.{◌≡◌, ◌++◌, ◌-◌, ◌≤◌, ◌<◌, length, None, IfOk, IfSome, OnOk};
ghost use Rattle.std.specs.List.{AllByRecursion};
ghost use Rattle.std.specs.Io.KnownBytes.{Appends};
ghost use Rattle.tlsf_class.specs.Classes.{IsLevel};
ghost use Rattle.tlsf_command.specs.SizeLines.{falling_line, heap_line, heap_lines, no_split_line, split_lines, HasCheapest, HasNoSplit, IsCheapest, IsServable};
ghost use Rattle.tlsf_command.specs.SizeLines as spelled;
ghost use Rattle.tlsf_pool.specs.sizes.Rising.{len_at, IsFirstFall};
ghost use Rattle.tlsf_pool.specs.sizes.Splits.{parts_of, IsPart};
ghost use Rattle.tlsf_lines.specs.Prefixes.{AppendsFront};

use crate::quantity::Quantity;
use crate::region_size::RegionSize;
use crate::size_line::{are_servable, asked_bytes};
use arrayvec::ArrayString;
use std::fmt;
use std::fmt::Write as _;
use std::io::Write;
use tlsf_pool::{Kind, MOST_HEAPS, Split, fixed_kinds_words, rising_split};
use tlsf_trace::{WriteError, write_out};

const NO_SPLIT: &str =
    "tlsf: no region has so many words, however the kinds are given to 8 heaps in their order\n";

// Lines for eight heaps and for all, of 112 bytes each at most.
type Lines = ArrayString<1024>;

/// The cheapest way to give the kinds of a table, 64 at most, to at most eight pools of the level. None where there is none,
/// where a kind has no block or no byte, or where one is no longer than the kind before it.
///
/// ```
/// // of 2,000 blocks of 64 bytes and one of 65,536: two heaps, of 30,704 words
/// let split = split_of::<4>(&kinds);
/// ```
pub fn split_of<const SLI: u32>(kinds: &[Kind]) -> Option<Split>
    requires level { IsLevel SLI }
    requires few { length kinds.now ≤ 64 }
    ensures some { IfSome result (IsCheapest SLI kinds.now) }
    ensures none { result ≡ None → HasNoSplit SLI kinds.now }
{
    if !are_servable::<SLI>(kinds) {
        return None;
    }
    rising_split::<SLI>(kinds, MOST_HEAPS)
}

// The bytes of the longest blocks of a table.
fn longest_of(kinds: &[Kind]) -> u32
    ensures { result ≡ spelled.longest_of kinds.now }
{
    let mut longest = 0;
    for kind in kinds {
        longest = kind.len.max(longest);
    }
    longest
}

// Adds the line on a heap, which has these kinds after this many others of the table.
fn add_heap_line<const SLI: u32>(
    lines: &mut Lines,
    heap: usize,
    before: usize,
    part: &[Kind],
) -> Result<(), fmt::Error>
    requires level { IsLevel SLI }
    requires is { IsPart SLI part.now }
    requires servable { AllByRecursion (IsServable SLI) part.now }
    requires few { length part.now ≤ 64 }
    requires front { before ≤ 64 }
    ensures { OnOk result (lines.new.bytes ≡ lines.old.bytes ++ heap_line SLI heap before part.now) }
{
    let first = before + 1;
    let last = before + part.len();
    let longest = Quantity::new(longest_of(part) as usize, "byte");
    let sized = RegionSize::new(fixed_kinds_words::<SLI>(part) as u32, asked_bytes(part));
    writeln!(
        lines,
        "heap {heap} kinds {first} to {last} up to {longest} {sized}"
    )?;
    Ok(())
}

// Adds the lines on all heaps of a split.
fn add_heap_lines<const SLI: u32>(
    lines: &mut Lines,
    kinds: &[Kind],
    split: &Split,
) -> Result<(), fmt::Error>
    requires { HasCheapest SLI kinds.now split.now }
    ensures { OnOk result (lines.new.bytes ≡ lines.old.bytes ++ heap_lines SLI 0 0 (parts_of split.now kinds.now)) }
{
    let mut left = kinds;
    let mut before = 0;
    for heap in 0..split.heaps {
        let len = split.lens[split.heaps - 1 - heap].min(left.len());
        let (part, rest) = left.split_at(len);
        add_heap_line::<SLI>(lines, heap, before, part)?;
        left = rest;
        before += len;
    }
    Ok(())
}

// The lines on a split, and on all its heaps together.
fn lines_of<const SLI: u32>(kinds: &[Kind], split: &Split) -> Result<Lines, fmt::Error>
    requires has { HasCheapest SLI kinds.now split.now }
    requires some { 0 < length kinds.now }
    ensures { IfOk result (λ lines. lines.bytes ≡ split_lines SLI (parts_of split.now kinds.now) kinds.now) }
{
    let mut lines = ArrayString::new();
    add_heap_lines::<SLI>(&mut lines, kinds, split)?;
    let heaps = split.heaps;
    let sized = RegionSize::new(split.words as u32, asked_bytes(kinds));
    writeln!(lines, "heaps {heaps} {sized}")?;
    Ok(lines)
}

/// Writes the lines on the cheapest split of a table, 1 to 64 kinds, and flushes. Each heap's line has its number, its kinds by
/// their places in the table, the bytes of the longest, its words and its bytes. It also has how many times the bytes asked for
/// these are. The last line has these three numbers of all heaps. After an `Err` a prefix of the lines was written.
///
/// ```
/// write_split_lines::<4, _>(&kinds, &split, &mut writer)?;
/// // writer holds "heap 0 kinds 1 to 1 up to 64 bytes words 22000 bytes 176000 ratio 1.38\n" more, and two lines behind it
/// ```
pub fn write_split_lines<const SLI: u32, W: Write>(
    kinds: &[Kind],
    split: &Split,
    writer: &mut W,
) -> Result<(), WriteError>
    requires has { HasCheapest SLI kinds.now split.now }
    requires some { 0 < length kinds.now }
    ensures front { AppendsFront (W.contents writer.old) (W.contents writer.new)
        (split_lines SLI (parts_of split.now kinds.now) kinds.now) }
    ensures ok { OnOk result (Appends (W.contents writer.old) (W.contents writer.new)
        (split_lines SLI (parts_of split.now kinds.now) kinds.now)) }
{
    match lines_of::<SLI>(kinds, split) {
        Ok(lines) => write_out(writer, lines.as_bytes()),
        // Nine lines of at most 112 bytes have room in 1,024, but no clause of the lines says so.
        Err(_) => Err(WriteError),
    }
}

/// Writes the line that refuses a table that has no split, and flushes. After an `Err` a prefix of the line was written.
///
/// ```
/// let _ = write_no_split_line(&mut errors);
/// ```
pub fn write_no_split_line<E: Write>(errors: &mut E) -> Result<(), WriteError>
    ensures { AppendsFront (E.contents errors.old) (E.contents errors.new) no_split_line }
{
    write_out(errors, NO_SPLIT.as_bytes())
}

// The line that names a kind, by its place from 1 on, that is no longer than the one before it.
fn falling_line_of(row: usize, before: u32, len: u32) -> Result<ArrayString<192>, fmt::Error>
    requires { row < 64 }
    ensures { IfOk result (λ line. line.bytes ≡ falling_line row before len) }
{
    let place = row + 1;
    let own = Quantity::new(len as usize, "byte");
    let longer = Quantity::new(before as usize, "byte");
    let mut line = ArrayString::new();
    writeln!(
        line,
        "tlsf: kind {place} of {own} is no longer than kind {row} of {longer}: --split takes kinds from short to long, each length once"
    )?;
    Ok(line)
}

/// Writes the line that refuses a table of kinds, 64 at most, and flushes. Its row `row` is the first that is no longer than the
/// one before it. The line names kinds by their places, from 1 on. After an `Err` a prefix of the line was written.
///
/// ```
/// let kinds = [Kind { most: 10, len: 100 }, Kind { most: 10, len: 50 }];
/// let _ = write_falling_line(&kinds, 1, &mut errors);      // kind 2 of 50 bytes is no longer than kind 1 of 100 bytes
/// ```
pub fn write_falling_line<E: Write>(
    kinds: &[Kind],
    row: usize,
    errors: &mut E,
) -> Result<(), WriteError>
    requires few { length kinds.now ≤ 64 }
    requires row { IsFirstFall kinds.now row }
    ensures { AppendsFront (E.contents errors.old) (E.contents errors.new)
        (falling_line row (len_at kinds.now (row - 1)) (len_at kinds.now row)) }
{
    match falling_line_of(row, kinds[row - 1].len, kinds[row].len) {
        Ok(line) => write_out(errors, line.as_bytes()),
        // The line has at most 150 bytes and 192 have room, but no clause of the line says so.
        Err(_) => Err(WriteError),
    }
}
