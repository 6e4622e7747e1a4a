//! A trace whose least heaps are found.
ghost use Rattle.std.specs.Prelude.{◌≤◌, vec_len, IfOk, string_bytes};
ghost use Rattle.tlsf_held.specs.Least.{IsLeastMeasurement, TellsLeast};
ghost use Rattle.tlsf_lines.specs.Ranges.{IsHeaderInRange};
ghost use Rattle.tlsf_lines.specs.ScriptSoFar.{IsScript};
ghost use Rattle.tlsf_lines.specs.Trace.{Trace};

use crate::least::{least_rows, write_least_lines};
use std::alloc::{AllocError, Global};
use std::io::{Read, Write};
use tlsf_crew::Gate;
use tlsf_lines::{Script, Version, read_all, script_in};
use tlsf_trace::{Summary, TraceFault, finish};

// The lines of a script, at the level of its version.
fn least_output<G: Gate>(alloc: Global, script: &mut Script, gate: &G) -> Result<String, AllocError>
    requires header { IsHeaderInRange script.old.header }
    requires lines { vec_len script.old.ends ≤ 32768 }
    ensures { (trace : Trace) → IsScript script.old trace → IfOk result (λ text. TellsLeast trace (string_bytes text)) }
{
    let rows = match script.header.version {
        Version::One => least_rows::<4, G>(alloc, script, gate)?,
        Version::Two => least_rows::<5, G>(alloc, script, gate)?,
    };
    let mut text = String::new(alloc);
    write_least_lines(&mut text, &rows)?;
    Ok(text)
}

/// Reads a whole trace, and finds by replays how small its heaps may be.
///
/// A worker's line has the least words that were found of heaps in which none of its requests lacks room. With one word less one
/// does. Fewer words may serve besides, since a larger heap may refuse what a smaller one serves. For worker 0 a replay of the
/// trace as it stands is the first. For each other one it is one in heaps of the words that were found before. Then the words
/// double until they serve, and then those between are halved. Where the largest heaps of the level don't serve, the line has
/// `none`. After these stand the most words that the held blocks wanted at once. Then come the words of a region in which such
/// calls are never refused for want of room. Both come of a replay with the words that were found, or with the most. The trace is
/// read to its end and checked before a line runs, and the whole text is made before a byte is written. The limits are those of
/// [`replay`](tlsf_trace::replay). `gate` is passed before each replay of the search, with the worker's number and the words. There
/// a [`Notice`](tlsf_trace::Notice) shows that a long search is alive.
///
/// ```
/// // reader gives "tlsf 1 1 64 1\na 0 1 100\na 0 2 8\nf 0 1\n"
/// let summary = measure_least(alloc, &mut reader, &mut writer, &OpenGate)?;
/// // summary.calls is 3, and writer holds "least 0 words 20 wanted 20 law 50\n"
/// ```
///
/// # Errors
///
/// Those of [`replay`](tlsf_trace::replay), each where a replay of that trace has it.
pub fn measure_least<R: Read, W: Write, G: Gate>(
    alloc: Global,
    reader: &mut R,
    writer: &mut W,
    gate: &G,
) -> Result<Summary, TraceFault>
    ensures { IsLeastMeasurement result (R.remaining reader.old) (R.remaining reader.new)
        (W.contents writer.old) (W.contents writer.new) }
{
    let text = read_all(alloc, reader)?;
    let mut script = script_in(alloc, &text)?;
    drop(text);
    let calls = script.calls;
    let output = least_output(alloc, &mut script, gate)?;
    finish(writer, calls, &output)
}
