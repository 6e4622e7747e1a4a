//! The plot of a trace.
ghost use Rattle.std.specs.Prelude.{◌≡◌, ◌<◌, vec_len, IfOk};
ghost use Rattle.tlsf_lines.specs.ScriptSoFar.{IsScript};
ghost use Rattle.tlsf_lines.specs.Trace.{Trace};
ghost use Rattle.tlsf_picture.specs.plots.Plots.{AreCharts, IsChart, Plots};
ghost use Rattle.tlsf_trace.specs.Output.{level_in};
ghost use Rattle.tlsf_trace.specs.Replay.{IsRun};
ghost use Rattle.tlsf_picture.specs.Steps.{HasHeap, IsMostPoints, IsPlayable};

use crate::form::Form;
use crate::plots::chart::Chart;
use crate::plots::curve::{curve_of, peak_of, stride_for, worst_line};
use crate::plots::plot_form::{most_points, write_plot};
use crate::plots::points::{longest_of, points_of};
use std::alloc::{AllocError, Global};
use std::io::{Read, Write};
use tlsf_lines::Script;
use tlsf_trace::{Plays, Puts, Summary, TraceFault, play};

// The chart of a heap of a trace, at its level, of at most this many points.
fn chart_of<const SLI: u32>(
    alloc: Global,
    script: &Script,
    heap: u32,
    most: usize,
) -> Result<Chart, AllocError>
    requires heap { HasHeap SLI script.now heap }
    requires most { IsMostPoints most }
    ensures { (trace : Trace) → level_in trace.header ≡ SLI → IsScript script.now trace → IfOk result (IsChart most trace heap) }
{
    let words = script.header.words;
    let points = points_of::<SLI>(alloc, script, heap)?;
    let lines = points.len();
    let stride = stride_for(most, lines);
    let longest = longest_of(heap, script);
    let look = worst_line(longest, &points);
    let peak = peak_of(&points);
    let curve = curve_of(alloc, words, stride, &points)?;
    Ok(Chart {
        heap,
        words,
        lines: lines as u32,
        stride,
        longest,
        look,
        peak,
        curve,
    })
}

// The charts of all heaps of a trace, at its level.
fn charts_at<const SLI: u32>(
    alloc: Global,
    script: &Script,
    most: usize,
) -> Result<Vec<Chart>, AllocError>
    requires script { IsPlayable SLI script.now }
    requires most { IsMostPoints most }
    ensures charts { (trace : Trace) → level_in trace.header ≡ SLI → IsScript script.now trace → IfOk result (λ charts. AreCharts most trace charts.items) }
    ensures count { IfOk result (λ charts. vec_len charts ≡ script.now.header.workers) }
{
    let mut charts = Vec::new(alloc);
    for heap in 0..script.header.workers {
        charts.push(chart_of::<SLI>(alloc, script, heap, most)?)?;
    }
    Ok(charts)
}

// The plot of a trace in a form.
#[derive(Drop)]
struct Plot {
    form: Form,
}

impl Puts for Plot {
    ghost use Rattle.tlsf_picture.specs.plots.Plots.{Plots};

    ghost puts = { λ plot. Plots plot.form };
}

impl<const SLI: u32> Plays<SLI> for Plot {
    fn output(&self, alloc: Global, script: &Script) -> Result<String, AllocError> {
        let charts = charts_at::<SLI>(alloc, script, most_points(self.form))?;
        let mut text = String::new(alloc);
        write_plot(alloc, &mut text, self.form, &charts)?;
        Ok(text)
    }
}

/// Reads a whole trace, runs it on a new yard of workers, and writes a plot of each heap over its lines.
///
/// A point is the report on the heap after a line, which [`draw_trace_at`](crate::draw_trace_at) draws. It has the words live and
/// free, the greatest free block, fragmentation, the words that the line asks for, and whether a call was refused. Of a long trace
/// several lines are one point, which shows the worst of each number. So no line has more than 2,000 in an SVG file, and 56 in
/// characters.
///
/// Above a heap stands the line to look at. Of those after which the longest request of its worker would find no room, it is the
/// first with the most words free. Where it finds room after each line, it is the first of those with the most live words that has
/// the most fragmentation among them. There also stands its peak, the first line after which most of its words are live.
///
/// The trace is read to its end and checked before a line runs. It is run once for each heap, and the whole text is made before a
/// byte is written. The limits are those of [`replay`](tlsf_trace::replay).
///
/// ```
/// // reader gives "tlsf 1 1 64 1\na 0 7 8\n"
/// let summary = plot_trace(alloc, Form::Svg, &mut reader, &mut writer)?;
/// // writer holds "<svg xmlns='http://www.w3.org/2000/svg' width='1104' ..", with a line "M0 0V0H1V4H2V4H3V0" of live words
/// ```
///
/// # Errors
///
/// Those of [`replay`](tlsf_trace::replay), each where a replay of that trace has it.
pub fn plot_trace<R: Read, W: Write>(
    alloc: Global,
    form: Form,
    reader: &mut R,
    writer: &mut W,
) -> Result<Summary, TraceFault>
    ensures { IsRun (Plots form) result (R.remaining reader.old) (R.remaining reader.new)
        (W.contents writer.old) (W.contents writer.new) }
{
    play(alloc, &Plot { form }, reader, writer)
}
