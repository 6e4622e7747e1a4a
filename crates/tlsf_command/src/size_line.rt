ghost use Rattle.std.specs.Prelude.{◌≡◌, ◌≤◌, ◌<◌, ◌^◌, ◌↔◌, ℕ, [], ◌∷◌, IfOk, IfSome, IsTrue, Option, None, OnOk};
ghost use Rattle.std.specs.List.{AllByRecursion};
ghost use Rattle.std.specs.Io.KnownBytes.{Appends};
ghost use Rattle.tlsf_class.specs.Classes.{IsLevel, most_words};
ghost use Rattle.tlsf_command.specs.SizeLines.{size_line, unreached_line, AreKinds, AreReached, IsFiner, IsGreatest, IsReached, IsServable, IsSized, IsSplitOf};
ghost use Rattle.tlsf_command.specs.SizeLines as spelled;
ghost use Rattle.tlsf_pool.specs.laws.Kinds as table;
ghost use Rattle.tlsf_pool.specs.declared.sizes.split.Split.{Split};
ghost use Rattle.tlsf_lines.specs.Prefixes.{AppendsFront};

use crate::finer_hint::FinerHint;
use crate::quantity::Quantity;
use crate::region_size::RegionSize;
use crate::split_hint::SplitHint;
use crate::split_lines::split_of;
use arrayvec::ArrayString;
use std::fmt;
use std::fmt::Write as _;
use std::io::Write;
use tlsf_class::most_words;
use tlsf_pool::{Kind, Split, kinds_words, longest_request, most_blocks, most_bytes};
use tlsf_trace::{WriteError, write_out};

// Whether the kind has a block and a byte, and a class for its requests.
fn is_servable<const SLI: u32>(kind: Kind) -> bool
    requires { IsLevel SLI }
    ensures { IsTrue result ↔ IsServable SLI kind }
{
    kind.most != 0 && kind.len != 0 && kind.len <= most_bytes::<SLI>()
}

/// Whether each kind of the table has a block and a byte, and a class for its requests.
pub fn are_servable<const SLI: u32>(kinds: &[Kind]) -> bool
    requires { IsLevel SLI }
    ensures { IsTrue result ↔ AllByRecursion (IsServable SLI) kinds.now }
{
    for kind in kinds {
        if !is_servable::<SLI>(*kind) {
            return false;
        }
    }
    true
}

/// The words that the law of the level asks for a table of kinds, 1,024 at most or 64 at level 5. None where no region has that
/// many, or where a kind has no block or no byte.
///
/// ```
/// let words = words_for::<4>(&[Kind { most: 100, len: 512 }]);   // Some(13631)
/// ```
pub fn words_for<const SLI: u32>(kinds: &[Kind]) -> Option<u32>
    requires { AreKinds SLI kinds.now }
    ensures some { IfSome result (λ words. AreReached SLI kinds.now × (words ≡ table.kinds_words SLI kinds.now)) }
    ensures none { result ≡ None → ¬ (AreReached SLI kinds.now) }
{
    if !are_servable::<SLI>(kinds) {
        return None;
    }
    let words = kinds_words::<SLI>(kinds);
    if words > u64::from(most_words::<SLI>()) {
        return None;
    }
    Some(words as u32)
}

/// The bytes of all blocks of a table, 2^35 at most.
pub fn asked_bytes(kinds: &[Kind]) -> u64
    requires { spelled.asked_bytes kinds.now ≤ 2 ^ 35 }
    ensures { result ≡ spelled.asked_bytes kinds.now }
{
    let mut bytes = 0;
    for kind in kinds {
        bytes += u64::from(kind.most) * u64::from(kind.len);
    }
    bytes
}

// The line on a region of `words` for these kinds, as `words 13631 bytes 109048 ratio 2.13`.
fn line_of<const SLI: u32>(kinds: &[Kind], words: u32) -> Result<ArrayString<96>, fmt::Error>
    requires { IsSized SLI kinds.now words }
    ensures { IfOk result (λ line. line.bytes ≡ size_line SLI kinds.now) }
{
    let sized = RegionSize::new(words, asked_bytes(kinds));
    let mut line = ArrayString::new();
    writeln!(line, "{sized}")?;
    Ok(line)
}

/// Writes the line on a region of `words` for a table of one kind or more, and flushes. It has the words, the bytes, and how many
/// times the bytes asked for these are. After an `Err` a prefix of the line was written.
///
/// ```
/// write_size_line::<4, _>(&[Kind { most: 100, len: 512 }], 13631, &mut writer)?;
/// // writer holds "words 13631 bytes 109048 ratio 2.13\n" more
/// ```
pub fn write_size_line<const SLI: u32, W: Write>(
    kinds: &[Kind],
    words: u32,
    writer: &mut W,
) -> Result<(), WriteError>
    requires { IsSized SLI kinds.now words }
    ensures front { AppendsFront (W.contents writer.old) (W.contents writer.new)
        (size_line SLI kinds.now) }
    ensures ok { OnOk result (Appends (W.contents writer.old) (W.contents writer.new)
        (size_line SLI kinds.now)) }
{
    match line_of::<SLI>(kinds, words) {
        Ok(line) => write_out(writer, line.as_bytes()),
        // The line has at most 60 bytes and 96 have room, but no clause of the line says so.
        Err(_) => Err(WriteError),
    }
}

// The most blocks of this many bytes for which some region has room, 0 where there are none.
fn blocks_of<const SLI: u32>(len: u32) -> u32
    requires { IsLevel SLI }
    ensures { IsGreatest (λ most. IsReached SLI most len) result }
{
    if len == 0 || len > most_bytes::<SLI>() {
        return 0;
    }
    most_blocks::<SLI>(len)
}

// The most bytes that each of `most` blocks may have, 0 where no region has room for that many.
fn bytes_for<const SLI: u32>(most: u32) -> u32
    requires { IsLevel SLI }
    ensures { IsGreatest (λ len. IsReached SLI most len) result }
{
    if most == 0 {
        return 0;
    }
    longest_request::<SLI>(most).unwrap_or(0)
}

// The line that says how far the greatest region goes.
fn unreached_line_of(
    kind: Kind,
    blocks: u32,
    bytes: u32,
    split: Option<Split>,
    finer: Option<u32>,
) -> Result<ArrayString<256>, fmt::Error>
    ensures { IfOk result (λ line. line.bytes ≡ unreached_line kind.most kind.len blocks bytes split finer) }
{
    let blocks_reached = Quantity::new(blocks as usize, "block");
    let len = Quantity::new(kind.len as usize, "byte");
    let most = Quantity::new(kind.most as usize, "block");
    let bytes_reached = Quantity::new(bytes as usize, "byte");
    let pool = SplitHint { split };
    let hint = FinerHint { words: finer };
    let mut line = ArrayString::new();
    writeln!(
        line,
        "tlsf: no region has so many words: at most {blocks_reached} of {len}, or {most} of at most {bytes_reached}{pool}{hint}"
    )?;
    Ok(line)
}

/// Writes the line that refuses blocks of this kind, and flushes. It has the most blocks of this length, and the most bytes for
/// this number of blocks, each 0 where there is none. It has the words of a pool of this kind where a region has them. It has the
/// words of a region of level 5 that is large enough, where there is one. After an `Err` a prefix of the line was written.
///
/// ```
/// let _ = write_unreached_line::<4, _>(Kind { most: 7655, len: 512 }, &mut errors);
/// ```
pub fn write_unreached_line<const SLI: u32, E: Write>(
    kind: Kind,
    errors: &mut E,
) -> Result<(), WriteError>
    requires { IsLevel SLI }
    ensures { (blocks : ℕ) × IsGreatest (λ most. IsReached SLI most kind.len) blocks
        × ((bytes : ℕ) × IsGreatest (λ len. IsReached SLI kind.most len) bytes
        × ((split : Option Split) × IsSplitOf SLI (kind ∷ []) split
        × ((finer : Option ℕ) × IsFiner (kind ∷ []) finer
        × AppendsFront (E.contents errors.old) (E.contents errors.new)
        (unreached_line kind.most kind.len blocks bytes split finer)))) }
{
    let blocks = blocks_of::<SLI>(kind.len);
    let bytes = bytes_for::<SLI>(kind.most);
    let split = split_of::<SLI>(&[kind]);
    let finer = words_for::<5>(&[kind]);
    match unreached_line_of(kind, blocks, bytes, split, finer) {
        Ok(line) => write_out(errors, line.as_bytes()),
        // The line has at most 240 bytes and 256 have room, but no clause of the line says so.
        Err(_) => Err(WriteError),
    }
}
