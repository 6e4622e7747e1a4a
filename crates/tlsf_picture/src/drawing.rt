//! Pictures of the heaps of a trace, at its end and as they stand after a line.
ghost use Rattle.std.specs.Prelude.{◌≡◌, ◌≤◌, vec_len, IfOk, string_bytes};
ghost use Rattle.tlsf_class.specs.Classes.{IsLevel};
ghost use Rattle.tlsf_lines.specs.Ranges.{IsHeaderInRange};
ghost use Rattle.tlsf_lines.specs.ScriptSoFar.{IsScript};
ghost use Rattle.tlsf_lines.specs.Trace.{Trace};
ghost use Rattle.tlsf_picture.specs.Drawn.{DrawsAt, IsDrawing, IsTextDrawing, line_in};
ghost use Rattle.tlsf_trace.specs.Output.{level_in};
ghost use Rattle.tlsf_trace.specs.Replay.{IsRun};

use crate::form::Form;
use crate::mapping::map_heaps;
use std::alloc::{AllocError, Global};
use std::io::{Read, Write};
use tlsf_lines::Script;
use tlsf_trace::{Player, Plays, Puts, Summary, TraceFault, play};

/// The picture after a line, at the level of the script's version.
pub fn picture_behind<const SLI: u32>(
    alloc: Global,
    script: &Script,
    form: Form,
    line: u32,
) -> Result<String, AllocError>
    requires level { IsLevel SLI }
    requires header { IsHeaderInRange script.now.header }
    ensures { (trace : Trace) → level_in trace.header ≡ SLI → IsScript script.now trace
        → IfOk result (λ text. DrawsAt form line trace (string_bytes text)) }
{
    let mut player = Player::<SLI>::open(alloc, script)?;
    player.step_to(alloc, script, line)?;
    let maps = map_heaps(alloc, &mut player.workers, &player.made, &script.labels)?;
    let mut text = String::new(alloc);
    form.write(alloc, &mut text, script.header.words, &maps)?;
    Ok(text)
}

// The line that is drawn of a script: where none is given the end, which counts as one line more than the last.
fn line_in(script: &Script, line: Option<u32>) -> u32
    requires { vec_len script.now.ends ≤ 32768 }
    ensures { (trace : Trace) → IsScript script.now trace → result ≡ line_in line trace }
{
    match line {
        Some(line) => line,
        None => script.ends.len() as u32 + 2,
    }
}

// A picture in a form, after a line or at the end.
#[derive(Drop)]
struct Drawing {
    form: Form,
    line: Option<u32>,
}

impl Puts for Drawing {
    ghost use Rattle.tlsf_picture.specs.Drawn.{DrawsAt, line_in};

    ghost puts = { λ drawing trace text. DrawsAt drawing.form (line_in drawing.line trace) trace text };
}

impl<const SLI: u32> Plays<SLI> for Drawing {
    fn output(&self, alloc: Global, script: &Script) -> Result<String, AllocError> {
        let line = line_in(script, self.line);
        picture_behind::<SLI>(alloc, script, self.form, line)
    }
}

/// Reads a whole trace and runs it on a new yard of workers. Writes a picture of each heap that it leaves, as an SVG file.
///
/// Each block is drawn once, in the order of the places, and a live one with its label. No reply line is written. The trace is read
/// to its end and checked before a line runs, and the whole text is made before a byte is written. The limits are those of
/// [`replay`](tlsf_trace::replay).
///
/// ```
/// // reader gives "tlsf 1 1 64 1\na 0 7 8\n"
/// let summary = draw_trace(alloc, &mut reader, &mut writer)?;
/// // writer holds "<svg xmlns='http://www.w3.org/2000/svg' width='1104' ..", with a block of label 7 and a free one
/// ```
///
/// # Errors
///
/// Those of [`replay`](tlsf_trace::replay), each where a replay of that trace has it.
pub fn draw_trace<R: Read, W: Write>(
    alloc: Global,
    reader: &mut R,
    writer: &mut W,
) -> Result<Summary, TraceFault>
    ensures { IsDrawing result (R.remaining reader.old) (R.remaining reader.new)
        (W.contents writer.old) (W.contents writer.new) }
{
    let drawing = Drawing {
        form: Form::Svg,
        line: None,
    };
    play(alloc, &drawing, reader, writer)
}

/// Reads a whole trace and runs it on a new yard of workers. Writes a picture of each heap that it leaves in the characters of a
/// terminal of 80 columns, ASCII alone.
///
/// A character stands for as many words as the picture says, and shows the first of them. The heaps, labels and reports, what is
/// read and written, and the limits are those of [`draw_trace`].
///
/// ```
/// // reader gives "tlsf 1 1 64 1\na 0 7 8\n"
/// let summary = draw_trace_as_text(alloc, &mut reader, &mut writer)?;
/// // writer holds, below the numbers of heap 0, the row "      0 |[7#=*..........................................................."
/// ```
///
/// # Errors
///
/// Those of [`replay`](tlsf_trace::replay), each where a replay of that trace has it.
pub fn draw_trace_as_text<R: Read, W: Write>(
    alloc: Global,
    reader: &mut R,
    writer: &mut W,
) -> Result<Summary, TraceFault>
    ensures { IsTextDrawing result (R.remaining reader.old) (R.remaining reader.new)
        (W.contents writer.old) (W.contents writer.new) }
{
    let drawing = Drawing {
        form: Form::Text,
        line: None,
    };
    play(alloc, &drawing, reader, writer)
}

/// Reads a whole trace and runs it on a new yard of workers up to a line. Writes a picture of each heap as it stands then.
///
/// Lines are counted as faults count them: the header is line 1, and after it the heaps are new. Posts that wait after the line
/// wait in the picture too. After the last line the trace is run to its end, with the drains there, so that the picture is that of
/// [`draw_trace`]. The whole trace is checked. It is read, and faults are told, as by [`draw_trace`].
///
/// ```
/// // reader gives "tlsf 1 1 64 1\na 0 7 8\nf 0 7\n"
/// let summary = draw_trace_at(alloc, Form::Text, 2, &mut reader, &mut writer)?;
/// // summary.calls is 2, and the picture has a block of label 7 and a free one
/// ```
///
/// # Errors
///
/// Those of [`replay`](tlsf_trace::replay), each where a replay of that trace has it.
pub fn draw_trace_at<R: Read, W: Write>(
    alloc: Global,
    form: Form,
    line: u32,
    reader: &mut R,
    writer: &mut W,
) -> Result<Summary, TraceFault>
    ensures { IsRun (DrawsAt form line) result (R.remaining reader.old) (R.remaining reader.new)
        (W.contents writer.old) (W.contents writer.new) }
{
    let drawing = Drawing {
        form,
        line: Some(line),
    };
    play(alloc, &drawing, reader, writer)
}
