ghost use Rattle.tlsf_trace.specs.RacedYards.{PutsOver};
ghost use Rattle.tlsf_trace.specs.Replay.{IsRun, Races, RacesQueues, Replays};
ghost use Rattle.tlsf_trace.specs.Finish.{Finishes};

use crate::output::Replay;
use crate::playing::play;
use crate::race_output::race_output;
use crate::raced_yard::PortKind;
use crate::summary::Summary;
use std::alloc::Global;
use std::io::{Read, Write};
use std::marker::Sync;
use std::sync::Wait;
use std::thread::Threads;
use tlsf_crew::Gate;
use tlsf_lines::{TraceFault, read_all, trace_in, write_out};

/// Writes the whole text of a trace of `calls` calls, flushes, and tells of both.
///
/// ```
/// let summary = finish(&mut writer, 2, "0 f 1 freed\n")?;
/// // summary.calls is 2 and summary.bytes is 12
/// ```
///
/// # Errors
///
/// A write that fails (17). Then a prefix of the text was written.
pub fn finish<W: Write>(writer: &mut W, calls: u32, output: &str) -> Result<Summary, TraceFault>
    ensures { Finishes result calls output.now (W.contents writer.old) (W.contents writer.new) }
{
    write_out(writer, output.as_bytes())?;
    Ok(Summary {
        calls,
        bytes: output.len() as u64,
    })
}

/// Reads a whole trace, runs it on a new yard of workers, and writes the reply lines and the report lines.
///
/// The trace is read to its end and checked before a line runs, and the whole text is made before a byte is written. A
/// trace has at most 2^20 bytes and 32,768 lines, the header among them.
///
/// ```
/// // reader gives "tlsf 1 1 64 1\na 0 1 8\nf 0 1\n"
/// let summary = replay(alloc, &mut reader, &mut writer)?;
/// // summary.calls is 2, and writer holds "0 a 1 at 0 serial 1\n0 f 1 freed\n0 d drained 0\n" and the report of heap 0
/// ```
///
/// # Errors
///
/// [`TraceFault`] has the table of faults. A line may be no good (11 to 14, with its number), or a trace too long (15). Memory (6),
/// a read (16) or a write (17) may fail. After fault 17 a prefix of the text was written, after each other nothing.
pub fn replay<R: Read, W: Write>(
    alloc: Global,
    reader: &mut R,
    writer: &mut W,
) -> Result<Summary, TraceFault>
    ensures { IsRun Replays result (R.remaining reader.old) (R.remaining reader.new)
        (W.contents writer.old) (W.contents writer.new) }
{
    play(alloc, &Replay, reader, writer)
}

// Reads a whole trace, races it over ports of this kind, and writes what it puts out.
fn race_trace_over<T: Threads + Wait + Sync, R: Read, W: Write, G: Gate>(
    rt: &T,
    alloc: Global,
    kind: PortKind,
    reader: &mut R,
    writer: &mut W,
    gate: &G,
) -> Result<Summary, TraceFault>
    ensures { IsRun (PutsOver kind) result (R.remaining reader.old) (R.remaining reader.new)
        (W.contents writer.old) (W.contents writer.new) }
{
    let bytes = read_all(alloc, reader)?;
    let trace = trace_in(alloc, &bytes)?;
    drop(bytes);
    let output = race_output(rt, alloc, kind, &trace, gate)?;
    finish(writer, trace.count_calls() as u32, &output)
}

/// Reads a whole trace, races it on a new yard of workers, and writes the reply lines and the report lines.
///
/// Each phase is one [`race`](tlsf_crew::race). A worker's lines are its script, run in a thread of its own, and a last drain of
/// each worker ends the phase. The reply lines of a phase stand worker by worker. A trace without `d` lines gives the same text on
/// every run ([`trace_without_drains_gives_one_text`](crate::trace_without_drains_gives_one_text)); else it depends on the schedule
/// how many posts a drain takes. `gate` is passed as `race` passes it, once more for each phase.
///
/// The trace is read to its end and checked before a line runs, and the whole text is made before a byte is written. The
/// limits are those of [`replay`].
///
/// ```
/// // reader gives "tlsf 1 2 64 1\na 0 1 8\nphase\nf 1 1\n"
/// let summary = race_trace(rt, alloc, &mut reader, &mut writer, &OpenGate)?;
/// // summary.calls is 2; writer holds, after the first phase, "0 take 1 at 0 serial 1 freed\n0 d drained 1\n1 f 1 posted\n"
/// ```
///
/// # Errors
///
/// Those of [`replay`]. A thread that can't be started counts as memory (6).
pub fn race_trace<T: Threads + Wait + Sync, R: Read, W: Write, G: Gate>(
    rt: &T,
    alloc: Global,
    reader: &mut R,
    writer: &mut W,
    gate: &G,
) -> Result<Summary, TraceFault>
    ensures { IsRun Races result (R.remaining reader.old) (R.remaining reader.new)
        (W.contents writer.old) (W.contents writer.new) }
{
    race_trace_over(rt, alloc, PortKind::Lanes, reader, writer, gate)
}

/// Reads a whole trace, races it on a new yard over queues, and writes the reply lines and the report lines.
///
/// As [`race_trace`], but each worker has one queue for the posts of all others ([`race_queues`](tlsf_crew::race_queues)). It has
/// the capacity that the header gives a lane. So a post is refused as full by what all others have posted, and a drain takes posts
/// in the queue's order. The reply lines of its takes may come in another order of posters on each run.
///
/// ```
/// // reader gives "tlsf 1 2 64 1\na 0 1 8\nphase\nf 1 1\n"
/// let summary = race_trace_over_queues(rt, alloc, &mut reader, &mut writer, &OpenGate)?;
/// // summary.calls is 2; writer holds, after the first phase, "0 take 1 at 0 serial 1 freed\n0 d drained 1\n1 f 1 posted\n"
/// ```
///
/// # Errors
///
/// Those of [`race_trace`].
pub fn race_trace_over_queues<T: Threads + Wait + Sync, R: Read, W: Write, G: Gate>(
    rt: &T,
    alloc: Global,
    reader: &mut R,
    writer: &mut W,
    gate: &G,
) -> Result<Summary, TraceFault>
    ensures { IsRun RacesQueues result (R.remaining reader.old) (R.remaining reader.new)
        (W.contents writer.old) (W.contents writer.new) }
{
    race_trace_over(rt, alloc, PortKind::Queues, reader, writer, gate)
}
