//! The page that shows the heaps of a trace at one moment at a time.
ghost use Rattle.std.specs.Prelude.{◌≡◌, ℕ, ◌+◌, ◌<◌, ◌≤◌, length, vec_len, OnOk, string_bytes, []};
ghost use Rattle.tlsf_crew.specs.lanes.Yard.{IsYard};
ghost use Rattle.tlsf_lines.specs.ScriptSoFar.{IsScript};
ghost use Rattle.tlsf_lines.specs.Trace.{Trace};
ghost use Rattle.tlsf_picture.specs.Pages as pages;
ghost use Rattle.tlsf_picture.specs.Pages.{DrawsPage};
ghost use Rattle.tlsf_picture.specs.Steps.{AddsMoment, HasShown};
ghost use Rattle.tlsf_trace.specs.Output.{level_in};
ghost use Rattle.tlsf_trace.specs.Players.{Stands};
ghost use Rattle.tlsf_trace.specs.Replay.{IsRun};

use crate::mapping::map_heaps;
use crate::naming::named_lines;
use std::alloc::{AllocError, Global};
use std::io::{Read, Write};
use tlsf_lines::Script;
use tlsf_map::{NamedLines, write_moment, write_page_foot, write_page_head};
use tlsf_trace::{Player, Plays, Puts, Summary, TraceFault, play};

// How many moments are spread over a trace with this many lines after its header.
fn moments_in(lines: usize) -> usize
    requires { lines ≤ 32768 }
    ensures count { result ≡ pages.moments_in lines }
    ensures some { 2 ≤ result }
    ensures few { result ≤ 200 }
{
    (lines + 2).min(200)
}

// The line after which the moment of a number stands.
fn line_of(lines: usize, number: usize) -> u32
    requires lines { lines ≤ 32768 }
    requires number { number < 200 }
    ensures { result ≡ pages.line_of lines number }
{
    let steps = moments_in(lines) - 1;
    let ahead = number * (lines + 1) / steps;
    ahead as u32 + 1
}

// Whether a line has one of those moments.
fn is_spread(lines: usize, line: u32) -> bool
    requires { lines ≤ 32768 }
    ensures { result ≡ pages.is_spread lines line }
{
    let mut is_one = false;
    for number in 0..moments_in(lines) {
        is_one = is_one || line_of(lines, number) == line;
    }
    is_one
}

// Whether a line is named of a heap.
fn is_named_by(line: u32, named: &NamedLines) -> bool
    ensures { result ≡ pages.is_named_by line named.now }
{
    named.peak == line || named.look == line
}

// Whether it is named of one of some heaps.
fn is_named(line: u32, named: &[NamedLines]) -> bool
    ensures { result ≡ pages.is_named line named.now }
{
    let count = named
        .iter()
        .filter(|named| is_named_by(line, named))
        .count();
    0 < count
}

// Whether a line has a moment.
fn is_shown(lines: usize, named: &[NamedLines], line: u32) -> bool
    requires { lines ≤ 32768 }
    ensures { result ≡ pages.is_shown lines named.now line }
{
    is_spread(lines, line) || is_named(line, named)
}

// Adds to the page the heaps of a yard that stands after a line.
fn add_moment<const SLI: u32>(
    alloc: Global,
    text: &mut String,
    player: &mut Player<SLI>,
    script: &Script,
    line: u32,
) -> Result<(), AllocError>
    requires { IsYard player.old.workers.items }
    ensures yard { IsYard player.new.workers.items }
    ensures stands { (from : ℕ) (trace : Trace) → Stands from trace player.old → Stands from trace player.new }
    ensures added { (trace : Trace) → level_in trace.header ≡ SLI → IsScript script.now trace → Stands line trace player.old
        → OnOk result (AddsMoment line trace (string_bytes text.old) (string_bytes text.new)) }
{
    let maps = map_heaps(alloc, &mut player.workers, &player.made, &script.labels)?;
    write_moment(alloc, text, script.header.words, line, &maps)
}

// Runs on to the line of a number, where the header's is 0, and adds its moment to the page, where it has one.
fn add_line<const SLI: u32>(
    alloc: Global,
    text: &mut String,
    player: &mut Player<SLI>,
    script: &Script,
    named: &[NamedLines],
    number: usize,
) -> Result<(), AllocError>
    requires yard { IsYard player.old.workers.items }
    requires lines { vec_len script.now.ends ≤ 32768 }
    requires number { number ≤ 32769 }
    ensures yard { IsYard player.new.workers.items }
    ensures shown { (from : ℕ) (trace : Trace) → from ≤ number → level_in trace.header ≡ SLI → IsScript script.now trace → Stands from trace player.old
        → HasShown (pages.shown_until (length trace.lines) named.now number) trace (string_bytes text.old)
        → OnOk result ((to : ℕ) × (to ≤ number + 1) × Stands to trace player.new
        × HasShown (pages.shown_until (length trace.lines) named.now (number + 1)) trace (string_bytes text.new)) }
{
    let line = number as u32 + 1;
    if !is_shown(script.ends.len(), named, line) {
        return Ok(());
    }
    player.step_to(alloc, script, line)?;
    add_moment(alloc, text, player, script, line)
}

// Adds to the page each of its moments, from a new yard on.
fn add_moments<const SLI: u32>(
    alloc: Global,
    text: &mut String,
    player: &mut Player<SLI>,
    script: &Script,
    named: &[NamedLines],
) -> Result<(), AllocError>
    requires yard { IsYard player.old.workers.items }
    requires lines { vec_len script.now.ends ≤ 32768 }
    ensures { (trace : Trace) → level_in trace.header ≡ SLI → IsScript script.now trace → Stands 0 trace player.old → HasShown [] trace (string_bytes text.old)
        → OnOk result (HasShown (pages.lines_shown (length trace.lines) named.now) trace (string_bytes text.new)) }
{
    for number in 0..script.ends.len() + 2 {
        add_line(alloc, text, player, script, named, number)?;
    }
    Ok(())
}

// The page of a trace.
#[derive(Drop)]
struct Page;

impl Puts for Page {
    ghost use Rattle.tlsf_picture.specs.Pages.{DrawsPage};

    ghost puts = { λ page. DrawsPage };
}

impl<const SLI: u32> Plays<SLI> for Page {
    fn output(&self, alloc: Global, script: &Script) -> Result<String, AllocError> {
        let named = named_lines::<SLI>(alloc, script)?;
        let mut player = Player::<SLI>::open(alloc, script)?;
        let mut text = String::new(alloc);
        write_page_head(&mut text)?;
        add_moments(alloc, &mut text, &mut player, script, &named)?;
        write_page_foot(&mut text, &named)?;
        Ok(text)
    }
}

/// Reads a whole trace and runs it on a new yard of workers. Writes an HTML page that shows its heaps at one moment at a time.
///
/// A browser opens the page without a network. It has all blocks of each heap as they stand after each line and at the end, in the
/// order of the places. A live one comes with its label, its bytes and its serial. Of a trace with more than 198 lines after its
/// header the page has 200 moments, spread evenly from line 1 to the end. Besides these it has the peak of each heap and the line
/// that [`plot_trace`](crate::plot_trace) names above it. A slider, keys and buttons choose the moment that is drawn.
///
/// The trace is read to its end and checked before a line runs. It is run once and once more for each heap, and the whole page is
/// made before a byte is written. It is read, and faults are told, as by [`draw_trace`](crate::draw_trace). A moment has some 20
/// bytes for each block.
///
/// ```
/// // reader gives "tlsf 1 1 64 1\na 0 7 8\n"
/// let summary = draw_trace_as_page(alloc, &mut reader, &mut writer)?;
/// // writer holds "<!doctype html>.." with three moments, of which the last begins "line 3\nheap 0: 64 words at tick 2\n"
/// ```
///
/// # Errors
///
/// Those of [`replay`](tlsf_trace::replay), each where a replay of that trace has it.
pub fn draw_trace_as_page<R: Read, W: Write>(
    alloc: Global,
    reader: &mut R,
    writer: &mut W,
) -> Result<Summary, TraceFault>
    ensures { IsRun DrawsPage result (R.remaining reader.old) (R.remaining reader.new)
        (W.contents writer.old) (W.contents writer.new) }
{
    play(alloc, &Page, reader, writer)
}
