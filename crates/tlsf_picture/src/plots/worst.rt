//! The line to look at, and the picture of the heaps after it.
ghost use Rattle.std.specs.Prelude.{◌≡◌, ℕ, ◌+◌, ◌<◌, IfOk};
ghost use Rattle.tlsf_lines.specs.ScriptSoFar.{IsScript};
ghost use Rattle.tlsf_lines.specs.Trace.{Trace};
ghost use Rattle.tlsf_picture.specs.plots.Worst.{DrawsWorst, IsNamed, IsWorstOf};
ghost use Rattle.tlsf_trace.specs.Output.{level_in};
ghost use Rattle.tlsf_trace.specs.Replay.{IsRun};
ghost use Rattle.tlsf_picture.specs.Steps.{HasHeap, IsPlayable};

use crate::drawing::picture_behind;
use crate::form::Form;
use crate::plots::curve::worst_line;
use crate::plots::look::Look;
use crate::plots::points::{longest_of, points_of};
use std::alloc::{AllocError, Global};
use std::io::{Read, Write};
use tlsf_lines::Script;
use tlsf_trace::{Plays, Puts, Summary, TraceFault, play};

// The line that the plot names above a heap.
fn named_above<const SLI: u32>(
    alloc: Global,
    script: &Script,
    heap: u32,
) -> Result<Look, AllocError>
    requires { HasHeap SLI script.now heap }
    ensures { (trace : Trace) → level_in trace.header ≡ SLI → IsScript script.now trace → IfOk result (IsNamed trace heap) }
{
    let points = points_of::<SLI>(alloc, script, heap)?;
    let longest = longest_of(heap, script);
    Ok(worst_line(longest, &points))
}

// The worse of two, the first where neither is.
fn worse_named(worst: Look, next: Look) -> Look
    ensures { (trace : Trace) (heap : ℕ) → IsWorstOf trace heap worst → IsNamed trace heap next → IsWorstOf trace (heap + 1) result }
{
    if next.standing.is_worse(worst.standing) {
        next
    } else {
        worst
    }
}

// The line to look at of a trace, at its level.
fn worst_on<const SLI: u32>(alloc: Global, script: &Script) -> Result<Look, AllocError>
    requires { IsPlayable SLI script.now }
    ensures { (trace : Trace) → level_in trace.header ≡ SLI → IsScript script.now trace → IfOk result (IsWorstOf trace trace.header.workers) }
{
    let mut worst = named_above::<SLI>(alloc, script, 0)?;
    for heap in 1..script.header.workers {
        worst = worse_named(worst, named_above::<SLI>(alloc, script, heap)?);
    }
    Ok(worst)
}

// The picture of the heaps after the line to look at, in a form.
#[derive(Drop)]
struct WorstDrawing {
    form: Form,
}

impl Puts for WorstDrawing {
    ghost use Rattle.tlsf_picture.specs.plots.Worst.{DrawsWorst};

    ghost puts = { λ drawing. DrawsWorst drawing.form };
}

impl<const SLI: u32> Plays<SLI> for WorstDrawing {
    fn output(&self, alloc: Global, script: &Script) -> Result<String, AllocError> {
        let look = worst_on::<SLI>(alloc, script)?;
        picture_behind::<SLI>(alloc, script, self.form, look.line)
    }
}

/// Reads a whole trace, and writes a picture of each heap as it stands after the line to look at.
///
/// [`plot_trace`](crate::plot_trace) names a line above each heap. Of these it is the one after which a heap stands worst. It has
/// no room for the longest request of its worker, with the most free words. Where each finds room after each line, it is the one
/// with the most live words and of equally many with the most fragmentation. Of equal ones it is that of the first heap. All else
/// is as at [`draw_trace_at`](crate::draw_trace_at); to find the line, the trace is run once for each heap.
///
/// ```
/// // reader gives "tlsf 1 1 64 1\na 0 7 400\nf 0 7\n", whose longest request finds no room after line 2
/// let summary = draw_trace_at_worst(alloc, Form::Text, &mut reader, &mut writer)?;
/// // the picture is that of draw_trace_at(alloc, Form::Text, 2, ..)
/// ```
///
/// # Errors
///
/// Those of [`replay`](tlsf_trace::replay), each where a replay of that trace has it.
pub fn draw_trace_at_worst<R: Read, W: Write>(
    alloc: Global,
    form: Form,
    reader: &mut R,
    writer: &mut W,
) -> Result<Summary, TraceFault>
    ensures { IsRun (DrawsWorst form) result (R.remaining reader.old) (R.remaining reader.new)
        (W.contents writer.old) (W.contents writer.new) }
{
    play(alloc, &WorstDrawing { form }, reader, writer)
}
