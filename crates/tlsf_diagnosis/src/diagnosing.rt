//! A trace that is checked.
ghost use Rattle.std.specs.Prelude.{◌≡◌, IfErr, IfSome, OnErr, OnOk, Some, string_bytes};
ghost use Rattle.tlsf_diagnosis.specs.Notes.{Describes, Notes, NotesField};
ghost use Rattle.tlsf_diagnosis.specs.PassedLimits.{NotesUnread};
ghost use Rattle.tlsf_lines.specs.TraceFaults.{IsTextFault, fault_of};
ghost use Rattle.tlsf_trace.specs.Replay.{IsRun};

use crate::count_line::line_on;
use crate::field_spots::field_of_fault;
use crate::limit::note_of;
use crate::notes::explain;
use std::alloc::{AllocError, Global};
use std::io::{Read, Write};
use tlsf_lines::{ReadError, TraceFault, read_all, trace_in};
use tlsf_trace::{Summary, finish};

// The fault of a trace that was not read whole. Adds the note on a limit that it passes.
fn note_unread(error: ReadError, note: &mut String) -> TraceFault
    ensures { NotesUnread error result (string_bytes note.old) (string_bytes note.new) }
{
    match error {
        ReadError::NoMemory => TraceFault::NO_MEMORY,
        ReadError::TooLong(limit) => match note.push_str(note_of(limit)) {
            Ok(()) => TraceFault::TOO_LONG,
            Err(_) => TraceFault::NO_MEMORY,
        },
        ReadError::Read => TraceFault::READ,
    }
}

// Adds the note on the fault of a text.
fn note_fault(
    alloc: Global,
    text: &[u8],
    fault: TraceFault,
    note: &mut String,
) -> Result<(), AllocError>
    requires { fault_of text.now ≡ Some fault }
    ensures ok { OnOk result (NotesField text.now fault (string_bytes note.old) (string_bytes note.new)) }
    ensures err { OnErr result (string_bytes note.new ≡ string_bytes note.old) }
{
    let field = field_of_fault(text, fault);
    let explained = explain(alloc, text, fault, field)?;
    note.push_str(&explained)?;
    Ok(())
}

// Does so where a line of the text is at fault.
#[tactic(auto, using(crate::proofs::NoteSteps::of_text, crate::proofs::NoteSteps::nothing))]
fn note_line(
    alloc: Global,
    text: &[u8],
    fault: TraceFault,
    note: &mut String,
) -> Result<(), AllocError>
    requires { IsTextFault text.now fault }
    ensures ok { OnOk result (Notes text.now fault (string_bytes note.old) (string_bytes note.new)) }
    ensures err { OnErr result (string_bytes note.new ≡ string_bytes note.old) }
{
    if fault.line == 0 {
        return Ok(());
    }
    note_fault(alloc, text, fault, note)
}

/// Reads a whole trace and checks it. Of a good trace it writes one line, of a faulty one it adds a note that explains the fault.
///
/// The line tells the version, the workers with their words, the calls and the phases; the end of a trace ends a phase too. A note
/// has three lines: the faulty line as it stands, a mark under a byte of it, and a line on the field. The faulty line is cut where
/// it is long, and a byte that isn't printable is escaped. The third line has the number of the field, what it is, what was
/// expected there and what was found. A tip on numbers may follow. Of a trace that is too long the note is one line, which says the
/// limit that it passes. The other faults have no note. The limits are those of [`replay`](tlsf_trace::replay).
///
/// ```
/// // reader gives "tlsf 1 1 64 1\na 0 1 x\n"
/// let answer = diagnose_trace(alloc, &mut reader, &mut writer, &mut note);
/// // answer is fault 12 of line 2, and note has "  a 0 1 x\n        ^\n  field 4, the length in bytes: a number from 0 to
/// // 4294967295 without a leading zero; found `x`\n"
/// ```
///
/// # Errors
///
/// Those of [`replay`](tlsf_trace::replay), each where a replay of that trace has it, but for memory: a replay wants more.
pub fn diagnose_trace<R: Read, W: Write>(
    alloc: Global,
    reader: &mut R,
    writer: &mut W,
    note: &mut String,
) -> Result<Summary, TraceFault>
    ensures run { IsRun Describes result (R.remaining reader.old) (R.remaining reader.new)
        (W.contents writer.old) (W.contents writer.new) }
    ensures noted { IfErr result (λ fault. IfSome (R.remaining reader.old)
        (λ text. Notes text fault (string_bytes note.old) (string_bytes note.new))) }
    ensures kept { OnOk result (string_bytes note.new ≡ string_bytes note.old) }
{
    let text = match read_all(alloc, reader) {
        Ok(text) => text,
        Err(error) => return Err(note_unread(error, note)),
    };
    let trace = match trace_in(alloc, &text) {
        Ok(trace) => trace,
        Err(fault) => {
            note_line(alloc, &text, fault, note)?;
            return Err(fault);
        }
    };
    let line = line_on(alloc, &trace)?;
    finish(writer, trace.count_calls() as u32, &line)
}
