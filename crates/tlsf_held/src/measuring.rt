//! A trace whose run is measured.
ghost use Rattle.tlsf_held.specs.Measures.{IsKindMeasurement, IsMeasurement, IsMergedMeasurement};

use crate::kind_lines::{write_kinds_lines, write_merged_lines};
use crate::lines::write_held_lines;
use std::alloc::{AllocError, Global};
use std::io::{Read, Write};
use tlsf_lines::Script;
use tlsf_trace::{Player, Plays, Puts, Summary, TraceFault, play};

// The line after which each trace has ended.
const END: u32 = u32::MAX;

// The lines on what the workers of a trace ask of their heaps.
#[derive(Drop)]
struct Measurement;

impl Puts for Measurement {
    ghost use Rattle.tlsf_held.specs.Measures.{Measures};

    ghost puts = { λ measurement. Measures };
}

impl<const SLI: u32> Plays<SLI> for Measurement {
    fn output(&self, alloc: Global, script: &Script) -> Result<String, AllocError> {
        let header = script.header;
        let mut player = Player::<SLI>::open(alloc, script)?;
        let entries = player.step_to(alloc, script, END)?;
        let mut text = String::new(alloc);
        write_held_lines::<SLI>(
            alloc,
            &mut text,
            header.workers,
            header.words,
            &player.made,
            &entries,
        )?;
        Ok(text)
    }
}

// The lines on the kinds of blocks that the workers of a trace hold.
#[derive(Drop)]
struct KindMeasurement;

impl Puts for KindMeasurement {
    ghost use Rattle.tlsf_held.specs.Measures.{TellsKinds};

    ghost puts = { λ measurement. TellsKinds };
}

impl<const SLI: u32> Plays<SLI> for KindMeasurement {
    fn output(&self, alloc: Global, script: &Script) -> Result<String, AllocError> {
        let workers = script.header.workers;
        let mut player = Player::<SLI>::open(alloc, script)?;
        let entries = player.step_to(alloc, script, END)?;
        let mut text = String::new(alloc);
        write_kinds_lines::<SLI>(alloc, &mut text, workers, &player.made, &entries)?;
        Ok(text)
    }
}

// The lines on these kinds, merged for this many heaps.
#[derive(Drop)]
struct MergedMeasurement {
    heaps: u32,
}

impl Puts for MergedMeasurement {
    ghost use Rattle.tlsf_held.specs.Measures.{TellsMerged};

    ghost puts = { λ measurement. TellsMerged measurement.heaps };
}

impl<const SLI: u32> Plays<SLI> for MergedMeasurement {
    fn output(&self, alloc: Global, script: &Script) -> Result<String, AllocError> {
        let heaps = self.heaps;
        let workers = script.header.workers;
        let mut player = Player::<SLI>::open(alloc, script)?;
        let entries = player.step_to(alloc, script, END)?;
        let mut text = String::new(alloc);
        write_merged_lines::<SLI>(alloc, &mut text, heaps, workers, &player.made, &entries)?;
        Ok(text)
    }
}

/// Reads a whole trace, runs it on a new yard of workers, and writes for each worker what its calls asked of its heap.
///
/// A worker's line has the most blocks of its heap that were held at once, and the most bytes of an allocate or a resize. It has
/// the words of a region in which such calls are never refused for want of room. It says `none` where no region has that many. Then
/// come the words that the trace gives each heap, and the most words that the held blocks wanted at once. The block that was asked
/// for counts as held. A block is held until its heap has taken it back: where another worker releases it, until its owner drains.
/// The trace is read to its end and checked before a line runs, and the whole text is made before a byte is written. The limits are
/// those of [`replay`](tlsf_trace::replay).
///
/// ```
/// // reader gives "tlsf 1 1 64 1\na 0 1 100\na 0 2 8\nf 0 1\n"
/// let summary = measure_trace(alloc, &mut reader, &mut writer)?;
/// // summary.calls is 3, and writer holds "held 0 blocks 2 bytes 100 words 50 region 64 wanted 20\n"
/// ```
///
/// # Errors
///
/// Those of [`replay`](tlsf_trace::replay), each where a replay of that trace has it.
pub fn measure_trace<R: Read, W: Write>(
    alloc: Global,
    reader: &mut R,
    writer: &mut W,
) -> Result<Summary, TraceFault>
    ensures { IsMeasurement result (R.remaining reader.old) (R.remaining reader.new)
        (W.contents writer.old) (W.contents writer.new) }
{
    play(alloc, &Measurement, reader, writer)
}

/// Reads a whole trace and runs it on a new yard of workers. Writes for each worker a table of the kinds of blocks that it holds,
/// as options of `tlsf size`.
///
/// A worker's line has `--level` with the level of the heaps, and options for each row of its table, in rising length. `--blocks`
/// has the most blocks of the row that were held at once, and `--bytes` the most bytes of one, at least 1. The block that was asked
/// for counts as held.
/// 1. The blocks of a size class make a row. Where there would be more than 64 rows, those of 2, 4, 8 or 16 classes do. Held
///    blocks, reads and refusals are as at [`measure_trace`].
///
/// ```
/// // reader gives "tlsf 1 1 64 1\na 0 1 100\na 0 2 8\nf 0 1\n"
/// let summary = measure_kinds(alloc, &mut reader, &mut writer)?;
/// // summary.calls is 3, and writer holds "--level 4 --blocks 1 --bytes 8 --blocks 1 --bytes 100\n"
/// ```
///
/// # Errors
///
/// Those of [`replay`](tlsf_trace::replay), each where a replay of that trace has it.
pub fn measure_kinds<R: Read, W: Write>(
    alloc: Global,
    reader: &mut R,
    writer: &mut W,
) -> Result<Summary, TraceFault>
    ensures { IsKindMeasurement result (R.remaining reader.old) (R.remaining reader.new)
        (W.contents writer.old) (W.contents writer.new) }
{
    play(alloc, &KindMeasurement, reader, writer)
}

/// Writes such lines with at most `heaps` kinds each, 1 to 8: neighbouring rows of the table of [`measure_kinds`] are merged.
///
/// A merged kind has the most of its blocks that were held at once, which may be far fewer than its rows have together. It has the
/// most bytes of one. The rows are merged so that pools of these kinds, each of a fixed size, have the fewest words of all ways of
/// merging neighbours. A kind that no region serves counts as more words than 8 regions have. No heap counts as 1, and more than 8
/// count as 8. Takes a few milliseconds for each 1,000 lines of a trace whose blocks are of 64 kinds.
///
/// ```
/// // reader gives "tlsf 1 1 256 1\na 0 1 100\nf 0 1\na 0 2 120\na 0 3 8\n"
/// let summary = measure_merged_kinds(alloc, 2, &mut reader, &mut writer)?;
/// // writer holds "--level 4 --blocks 1 --bytes 8 --blocks 1 --bytes 120\n": no block of 100 bytes was held beside that of 120
/// ```
///
/// # Errors
///
/// Those of [`replay`](tlsf_trace::replay), each where a replay of that trace has it.
pub fn measure_merged_kinds<R: Read, W: Write>(
    alloc: Global,
    heaps: u32,
    reader: &mut R,
    writer: &mut W,
) -> Result<Summary, TraceFault>
    ensures { IsMergedMeasurement heaps result (R.remaining reader.old) (R.remaining reader.new)
        (W.contents writer.old) (W.contents writer.new) }
{
    play(alloc, &MergedMeasurement { heaps }, reader, writer)
}
