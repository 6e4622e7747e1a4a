//! The lines of the records of a phase that was raced.
ghost use Rattle.std.specs.Prelude.{◌≡◌, List, ◌++◌, length, map, string_bytes, OnOk};
ghost use Rattle.std.specs.List.{range_with_len};
ghost use Rattle.tlsf_lines.specs.Phases.{known_behind, known_below, known_in, names_in as names_told, own_lines};
ghost use Rattle.tlsf_lines.specs.Lines.{label_in};
ghost use Rattle.tlsf_lines.specs.Records.{records_text};
ghost use Rattle.tlsf_lines.specs.ReplyLines.{reply_text};
ghost use Rattle.tlsf_lines.specs.declared.line.Line.{Line as ALine};

use crate::learning::{learn, names_in};
use crate::line::Line;
use crate::names::Names;
use crate::phases::labels_of;
use crate::reply_lines::write_replies;
use std::alloc::{AllocError, Global};
use tlsf_calls::Entry;

// Adds the lines of a worker's record, and gives the labels of its lines their names.
fn write_record(
    alloc: Global,
    text: &mut String,
    names: &mut Names,
    lines: &[Line],
    entries: &[Entry],
) -> Result<(), AllocError>
    ensures text { OnOk result (string_bytes text.new ≡ string_bytes text.old ++ reply_text entries.now (map label_in lines.now)) }
    ensures known { OnOk result (known_in names.new ≡ known_behind (known_in names.old) lines.now (names_told entries.now)) }
{
    let labels = labels_of(alloc, lines)?;
    write_replies(text, entries, &labels)?;
    let made = names_in(alloc, entries)?;
    learn(names, lines, &made)
}

/// Adds the lines of a phase's records, worker after worker, and gives the phase's labels their names.
///
/// `lines` has the lines of each worker, as [`PhaseScripts`](crate::PhaseScripts) gives them. `records` has one record for each:
/// the answers that the worker got.
///
/// ```
/// // lines has [[a 0 1 8]], and records has what worker 0 was answered: that block, and a last drain
/// write_phase(alloc, &mut text, &mut names, &lines, &records)?;
/// // text has "0 a 1 at 0 serial 1\n0 d drained 0\n" more, and names has the block's name for label 1
/// ```
///
/// # Errors
///
/// Memory alone. Then `text` has some of the lines, and `names` some of the names.
pub fn write_phase(
    alloc: Global,
    text: &mut String,
    names: &mut Names,
    lines: &[Vec<Line>],
    records: &[Vec<Entry>],
) -> Result<(), AllocError>
    requires { length records.now ≡ length lines.now }
    ensures text { (phase : List ALine) → map (λ l. l.items) lines.now ≡ map (λ w. own_lines w phase) (range_with_len 0 (length lines.now))
        → OnOk result (string_bytes text.new ≡ string_bytes text.old ++ records_text phase (map (λ r. r.items) records.now) (length lines.now)) }
    ensures known { (phase : List ALine) → map (λ l. l.items) lines.now ≡ map (λ w. own_lines w phase) (range_with_len 0 (length lines.now))
        → OnOk result (known_in names.new ≡ known_below (known_in names.old) phase (map (λ r. r.items) records.now) (length lines.now)) }
{
    for worker in 0..lines.len() {
        write_record(alloc, text, names, &lines[worker], &records[worker])?;
    }
    Ok(())
}
