ghost use Rattle.std.specs.Prelude.{◌≡◌, ◌<◌, ℕ, Option, Some, length, slice_get, IfOk};
ghost use Rattle.tlsf_command.specs.SizeLines.{unpaired_line, unreached_table_line, AreKinds, AreReached, AreUnreached, IsFiner, IsFirstUnreached, IsSplitOf};
ghost use Rattle.tlsf_pool.specs.declared.kind.Kind.{Kind};
ghost use Rattle.tlsf_pool.specs.declared.sizes.split.Split.{Split};
ghost use Rattle.tlsf_lines.specs.Prefixes.{AppendsFront};

use crate::finer_hint::FinerHint;
use crate::quantity::Quantity;
use crate::size_line::words_for;
use crate::split_hint::SplitHint;
use crate::split_lines::split_of;
use arrayvec::ArrayString;
use std::fmt;
use std::fmt::Write as _;
use std::io::Write;
use tlsf_pool::{Kind, Split};
use tlsf_trace::{WriteError, write_out};

// How many kinds at the front of the table are reached, where the table is not.
fn reached_kinds<const SLI: u32>(kinds: &[Kind]) -> usize
    requires kinds { AreKinds SLI kinds.now }
    requires unreached { ¬ (AreReached SLI kinds.now) }
    ensures below { result < length kinds.now }
    ensures first { (next : Kind) → slice_get kinds.now result ≡ Some next → IsFirstUnreached SLI kinds.now result next }
{
    let mut reached = 0;
    while reached + 1 < kinds.len() && words_for::<SLI>(&kinds[..reached + 1]).is_some() {
        reached += 1;
    }
    reached
}

// The kind at a place within the table.
fn kind_at(kinds: &[Kind], place: usize) -> Kind
    requires { place < length kinds.now }
    ensures { slice_get kinds.now place ≡ Some result }
{
    kinds[place]
}

// The line that says for how many kinds a region has room, and for which one no more.
fn table_line_of(
    reached: usize,
    next: Kind,
    split: Option<Split>,
    finer: Option<u32>,
) -> Result<ArrayString<384>, fmt::Error>
    ensures { IfOk result (λ line. line.bytes ≡ unreached_table_line reached next split finer) }
{
    let front = Quantity::new(reached, "leading kind");
    let most = Quantity::new(next.most as usize, "block");
    let len = Quantity::new(next.len as usize, "byte");
    let heaps = SplitHint { split };
    let hint = FinerHint { words: finer };
    let mut line = ArrayString::new();
    writeln!(
        line,
        "tlsf: no region has so many words: one has room for {front}, but not for {most} of {len} besides{heaps}{hint}"
    )?;
    Ok(line)
}

/// Writes the line that refuses a table of kinds, 64 at most, and flushes. It has how many kinds at its front a region has room
/// for, and the next one. Then come the heaps that are large enough, and their words together, where there are some. The words of a
/// region of level 5 that is large enough for all come last, where there is one. After an `Err` a prefix of the line was written.
///
/// ```
/// let _ = write_unreached_table_line::<4, _>(&[Kind { most: 1, len: 8 }, Kind { most: 7655, len: 512 }], &mut errors);
/// ```
pub fn write_unreached_table_line<const SLI: u32, E: Write>(
    kinds: &[Kind],
    errors: &mut E,
) -> Result<(), WriteError>
    requires { AreUnreached SLI kinds.now }
    ensures { (reached : ℕ) × (next : Kind) × (split : Option Split) × (finer : Option ℕ) × IsFirstUnreached SLI kinds.now reached next
        × IsSplitOf SLI kinds.now split × IsFiner kinds.now finer
        × AppendsFront (E.contents errors.old) (E.contents errors.new) (unreached_table_line reached next split finer) }
{
    let reached = reached_kinds::<SLI>(kinds);
    let next = kind_at(kinds, reached);
    let split = split_of::<SLI>(kinds);
    let finer = words_for::<5>(kinds);
    match table_line_of(reached, next, split, finer) {
        Ok(line) => write_out(errors, line.as_bytes()),
        // The line has at most 250 bytes and 384 have room, but no clause of the line says so.
        Err(_) => Err(WriteError),
    }
}

// The line that refuses options that are no pairs.
fn unpaired_line_of(blocks: usize, bytes: usize) -> Result<ArrayString<160>, fmt::Error>
    ensures { IfOk result (λ line. line.bytes ≡ unpaired_line blocks bytes) }
{
    let blocks_given = Quantity::new(blocks, "time");
    let bytes_given = Quantity::new(bytes, "time");
    let mut line = ArrayString::new();
    writeln!(
        line,
        "tlsf: --blocks is given {blocks_given} and --bytes {bytes_given}: give one of each for every kind, 64 kinds at most"
    )?;
    Ok(line)
}

/// Writes the line that refuses these numbers of `--blocks` and of `--bytes`, and flushes. After an `Err` a prefix of the line was
/// written.
///
/// ```
/// let _ = write_unpaired_line(2, 1, &mut errors);
/// ```
pub fn write_unpaired_line<E: Write>(
    blocks: usize,
    bytes: usize,
    errors: &mut E,
) -> Result<(), WriteError>
    ensures { AppendsFront (E.contents errors.old) (E.contents errors.new) (unpaired_line blocks bytes) }
{
    match unpaired_line_of(blocks, bytes) {
        Ok(line) => write_out(errors, line.as_bytes()),
        // The line has at most 140 bytes and 160 have room, but no clause of the line says so.
        Err(_) => Err(WriteError),
    }
}
