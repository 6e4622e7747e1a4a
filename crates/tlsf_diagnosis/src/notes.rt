//! The note on a fault.
ghost use Rattle.std.specs.Prelude.{◌≡◌, ◌≤◌, ◌++◌, length, IfOk, OnOk, string_bytes};
ghost use Rattle.tlsf_diagnosis.specs.Notes.{NamesField, field_row, tip_row};
ghost use Rattle.tlsf_diagnosis.specs.Shown.{MarksField, without_feed};

use crate::field_spots::piece_at;
use crate::findings::{
    Wanted, lacks_feed_alone, mark_in, push_found, push_wanted, wanted_in, wants_tip,
};
use crate::labels::making_of;
use crate::line_view::{push_bytes, view};
use crate::number_tip::NUMBER_TIP;
use crate::spot::{Spot, field_in};
use std::alloc::{AllocError, Global};
use tlsf_lines::{TraceFault, header_in};

/// The number of the fault of a label.
const LABEL_ORDER: u32 = 14;

// How many workers the header of a text names.
fn workers_of(text: &[u8]) -> u32 {
    header_in(piece_at(text, 1)).map_or(0, |header| header.workers)
}

// Adds what is wrong with the label of a line.
fn push_label(words: &mut String, text: &[u8], line: u32) -> Result<(), AllocError> {
    let piece = piece_at(text, line);
    let label = field_in(piece, 3);
    let making = making_of(text, label, line);
    words.push_str(", the label: ")?;
    match making.line {
        None => {
            words.push_str("one that a line before made; found `")?;
            push_bytes(words, label)?;
            words.push_str("`, which none made")
        }
        Some(made) if field_in(piece, 1) == b"a".as_slice() => {
            words.push_str("one that no line before made; found `")?;
            push_bytes(words, label)?;
            write!(words, "`, which line {made} made")
        }
        Some(made) => {
            words.push_str("one that worker ")?;
            push_bytes(words, field_in(piece, 2))?;
            words.push_str(" made, or one of an earlier phase; found `")?;
            push_bytes(words, label)?;
            words.push_str("`, which worker ")?;
            push_bytes(words, field_in(piece_at(text, made), 2))?;
            write!(words, " made in line {made}, in this phase")
        }
    }
}

// The fault of a field of a line, in words.
fn words_on(
    alloc: Global,
    text: &[u8],
    fault: TraceFault,
    spot: Spot,
    wanted: Wanted,
) -> Result<String, AllocError> {
    let mut words = String::new(alloc);
    let workers = workers_of(text);
    if text.is_empty() {
        words.push_str(", the name: `tlsf`; found an empty trace")?;
    } else if lacks_feed_alone(spot, wanted, workers) {
        words.push_str(", the last one: a line feed behind it; found the end of the trace")?;
    } else if fault.no == LABEL_ORDER {
        push_label(&mut words, text, fault.line)?;
    } else {
        push_wanted(&mut words, wanted, workers)?;
        words.push_str("; ")?;
        push_found(&mut words, spot, wanted, workers)?;
    }
    Ok(words)
}

// The byte of the line that is marked: one of the field, or where the line feed alone is missing the end of the line.
fn marked(piece: &[u8], field: usize, wanted: Wanted, workers: u32) -> usize
    ensures marks { MarksField piece.now field result }
    ensures within { result ≤ length (without_feed piece.now) }
{
    let spot = Spot::of(piece, field);
    let end = spot.line.len();
    if lacks_feed_alone(spot, wanted, workers) {
        return end;
    }
    match spot.field {
        None => end,
        Some(found) => spot.start + mark_in(found, wanted),
    }
}

// Adds a row with the number of a field and the words on it, each byte as it is shown. So no byte of a trace gets by, whatever the
// words quote.
fn push_field(note: &mut String, field: usize, words: &str) -> Result<(), AllocError>
    ensures { OnOk result (string_bytes note.new ≡ string_bytes note.old ++ field_row field words.now) }
{
    write!(note, "  field {field}")?;
    push_bytes(note, words.as_bytes())?;
    note.push_str("\n")
}

// Adds a row with the tip on numbers, where it helps.
fn push_tip(note: &mut String, is_tipped: bool) -> Result<(), AllocError>
    ensures { OnOk result (string_bytes note.new ≡ string_bytes note.old ++ tip_row is_tipped) }
{
    if is_tipped {
        return write!(note, "  {NUMBER_TIP}");
    }
    Ok(())
}

/// Explains the fault of a text in a field of its line, in three lines. These are the line as it stands, a mark under the byte, and
/// words. The words say which field it is, what was expected there and what was found. Where the line feed is missing too it says
/// so. Where a number is wanted and has more in it than digits, as `8KiB`, a fourth line has the tip on numbers. A hexadecimal number
/// has no tip, nor has one with a byte that isn't printable.
///
/// A long line is cut on both sides of the mark. A tab is shown as `\t`, a carriage return as `\r`, and another byte that isn't
/// printable as `\x07`. So nothing reaches a terminal but printable ASCII and line feeds.
///
/// ```
/// // text is "tlsf 1 1 64 1\na 0 1 x\n"
/// let note = explain(alloc, text, TraceFault { no: 12, line: 2 }, 4)?;
/// // note has "  a 0 1 x\n        ^\n  field 4, the length in bytes: a number from 0 to 4294967295 without a leading zero; found `x`\n"
/// ```
///
/// # Errors
///
/// [`AllocError`]: memory for the note was refused.
pub fn explain(
    alloc: Global,
    text: &[u8],
    fault: TraceFault,
    field: usize,
) -> Result<String, AllocError>
    ensures { IfOk result (λ note. NamesField text.now fault.line field (string_bytes note)) }
{
    let piece = piece_at(text, fault.line);
    let spot = Spot::of(piece, field);
    let wanted = wanted_in(piece, fault.line, field);
    let words = words_on(alloc, text, fault, spot, wanted)?;
    let mark = marked(piece, field, wanted, workers_of(text));
    let mut note = view(alloc, spot.line, mark)?;
    push_field(&mut note, field, &words)?;
    push_tip(&mut note, wants_tip(spot, wanted))?;
    Ok(note)
}
