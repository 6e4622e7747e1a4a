//! The output of a trace that is played, and the player that makes it.
ghost use Rattle.std.specs.Prelude.{◌≤◌, vec_len, IfOk, string_bytes};
ghost use Rattle.tlsf_lines.specs.Ranges.{IsHeaderInRange};
ghost use Rattle.tlsf_lines.specs.ScriptSoFar.{IsScript};
ghost use Rattle.tlsf_lines.specs.Trace.{Trace};
ghost use Rattle.tlsf_trace.specs.Replay.{IsRun};

use crate::stages::finish;
use crate::summary::Summary;
use std::alloc::{AllocError, Global};
use std::io::{Read, Write};
use tlsf_lines::{Script, TraceFault, Version, read_all, script_in};

/// The output of a run of a trace.
pub trait Puts {
    ghost use Rattle.std.specs.Prelude.{ℕ, List};
    ghost use Rattle.tlsf_lines.specs.Trace.{Trace};

    // It may put out this text of this trace.
    ghost puts: { Self → Trace → List ℕ → Type 0 };
}

/// The player that makes that text, at a level.
pub trait Plays<const SLI: u32>: Puts {
    ghost use Rattle.std.specs.Prelude.{◌≡◌, ◌≤◌, vec_len, IfOk, string_bytes};
    ghost use Rattle.tlsf_class.specs.Classes.{IsLevel};
    ghost use Rattle.tlsf_lines.specs.Ranges.{IsHeaderInRange};
    ghost use Rattle.tlsf_lines.specs.ScriptSoFar.{IsScript};
    ghost use Rattle.tlsf_lines.specs.Trace.{Trace};
    ghost use Rattle.tlsf_trace.specs.Output.{level_in};

    /// The text of a script, at the level of its version.
    fn output(&self, alloc: Global, script: &Script) -> Result<String, AllocError>
        requires level { IsLevel SLI }
        requires header { IsHeaderInRange script.now.header }
        requires lines { vec_len script.now.ends ≤ 32768 }
        ensures { (trace : Trace) → level_in trace.header ≡ SLI → IsScript script.now trace
            → IfOk result (λ text. Self.puts self.now trace (string_bytes text)) };
}

/// Reads a whole trace, plays it on a new yard of workers at the level of its version, and writes what is made of that.
///
/// The trace is read to its end and checked before a line runs, and the whole text is made before a byte is written. A
/// trace has at most 2^20 bytes and 32,768 lines, the header among them.
///
/// # Errors
///
/// Those of [`replay`](crate::replay), each where a replay of that trace has it.
pub fn play<P: Plays<4> + Plays<5>, R: Read, W: Write>(
    alloc: Global,
    played: &P,
    reader: &mut R,
    writer: &mut W,
) -> Result<Summary, TraceFault>
    ensures { IsRun (P.puts played.now) result (R.remaining reader.old) (R.remaining reader.new)
        (W.contents writer.old) (W.contents writer.new) }
{
    let text = read_all(alloc, reader)?;
    let script = script_in(alloc, &text)?;
    drop(text);
    let output = output_of(alloc, played, &script)?;
    finish(writer, script.calls, &output)
}

// The text that is made of a script, at the level of its version.
fn output_of<P: Plays<4> + Plays<5>>(
    alloc: Global,
    played: &P,
    script: &Script,
) -> Result<String, AllocError>
    requires header { IsHeaderInRange script.now.header }
    requires lines { vec_len script.now.ends ≤ 32768 }
    ensures { (trace : Trace) → IsScript script.now trace → IfOk result (λ text. P.puts played.now trace (string_bytes text)) }
{
    match script.header.version {
        Version::One => <P as Plays<4>>::output(played, alloc, script),
        Version::Two => <P as Plays<5>>::output(played, alloc, script),
    }
}
