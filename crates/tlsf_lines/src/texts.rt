//! A whole text, judged: what it spells, or its first fault.
ghost use Rattle.std.specs.Prelude.{◌≡◌, ◌≤◌, Ok, IfOk, IfErr, vec_len};
ghost use Rattle.tlsf_lines.specs.Limits.{IsWithinLimits};
ghost use Rattle.tlsf_lines.specs.Ranges.{IsHeaderInRange};
ghost use Rattle.tlsf_lines.specs.ScriptSoFar.{IsScriptOfText};
ghost use Rattle.tlsf_lines.specs.Trace.{trace_of};
ghost use Rattle.tlsf_lines.specs.TraceFaults.{IsTextFault};
ghost use Rattle.tlsf_lines.specs.Views.{view_trace};

use crate::parsing::parse;
use crate::script::Script;
use crate::trace::Trace;
use crate::trace_fault::TraceFault;
use std::alloc::Global;

/// The trace that a text spells: its header and its lines, for a race.
///
/// The text is one that [`read_all`](crate::read_all) gives: at most 2^20 bytes and 32,768 lines, the header among them.
///
/// ```
/// let trace = trace_in(alloc, b"tlsf 1 2 64 4\na 0 1 8\nphase\n")?;
/// // trace.header.workers is 2, and trace.lines has an allocate and the end of a phase
/// ```
///
/// # Errors
///
/// The first fault of the text, by its number and its line. It is a first line that is no header (11), or a line that has not its
/// shape (12). Or it is a bad number (13), or a label out of order (14). Memory may run out too (6).
pub fn trace_in(alloc: Global, text: &[u8]) -> Result<Trace, TraceFault>
    requires { IsWithinLimits text.now }
    ensures ok { IfOk result (λ trace. trace_of text.now ≡ Ok (view_trace trace)) }
    ensures header { IfOk result (λ trace. IsHeaderInRange trace.header) }
    ensures lines { IfOk result (λ trace. vec_len trace.lines ≤ 32768) }
    ensures err { IfErr result (IsTextFault text.now) }
{
    Ok(parse::<Trace>(alloc, text)?)
}

/// The script of the trace that a text spells: its events and their labels, for a replay.
///
/// The text is one that [`read_all`](crate::read_all) gives: at most 2^20 bytes and 32,768 lines, the header among them.
///
/// ```
/// let script = script_in(alloc, b"tlsf 1 2 64 4\na 0 1 8\n")?;
/// // script.events are the allocate, and at the end a drain of each of the two workers
/// ```
///
/// # Errors
///
/// Those of [`trace_in`].
pub fn script_in(alloc: Global, text: &[u8]) -> Result<Script, TraceFault>
    requires { IsWithinLimits text.now }
    ensures ok { IfOk result (λ script. IsScriptOfText text.now script) }
    ensures header { IfOk result (λ script. IsHeaderInRange script.header) }
    ensures lines { IfOk result (λ script. vec_len script.ends ≤ 32768) }
    ensures err { IfErr result (IsTextFault text.now) }
{
    Ok(parse::<Script>(alloc, text)?)
}
