//! The blocks that labels stand for after a phase, by what the records show.
ghost use Rattle.std.specs.Prelude.{◌≡◌, IfOk, OnOk};
ghost use Rattle.tlsf_calls.specs.Entries.{made_by as made};
ghost use Rattle.tlsf_lines.specs.CallMemory.{with_line};
ghost use Rattle.tlsf_lines.specs.Phases.{known_behind, known_in};
ghost use Rattle.tlsf_lines.specs.Phases as spelled;

use crate::line::Line;
use crate::names::Names;
use crate::reply_lines::is_taken;
use std::alloc::{AllocError, Global};
use tlsf_calls::{Entry, Reply};
use tlsf_heap::Name;

// The name that a call of a script made, where it made one; what a drain took is no call of the script.
fn name_made(entry: &Entry) -> Option<Option<Name>>
    ensures { result ≡ spelled.name_made entry.now }
{
    if is_taken(entry.call) {
        return None;
    }
    match entry.reply {
        Reply::Made(name) => Some(Some(name)),
        _ => Some(None),
    }
}

/// The names that the calls of a record made, call by call. The takes of a drain are no calls of the script.
pub fn names_in(alloc: Global, entries: &[Entry]) -> Result<Vec<Option<Name>>, AllocError>
    ensures { IfOk result (λ names. names.items ≡ spelled.names_in entries.now) }
{
    let mut names = Vec::with_capacity(alloc, entries.len())?;
    names.extend(entries.iter().filter_map(name_made))?;
    Ok(names)
}

// Gives the label that a line makes the name that its call made.
fn learn_line(names: &mut Names, line: Line, name: Option<Name>) -> Result<(), AllocError>
    ensures { OnOk result (known_in names.new ≡ with_line (known_in names.old) line name) }
{
    if let Line::Allocate { label, .. } = line {
        names.insert(label, name)?;
    }
    Ok(())
}

/// Gives the labels of a worker's lines the names that its calls made.
pub fn learn(names: &mut Names, lines: &[Line], made: &[Option<Name>]) -> Result<(), AllocError>
    ensures { OnOk result (known_in names.new ≡ known_behind (known_in names.old) lines.now made.now) }
{
    for k in 0..lines.len() {
        learn_line(names, lines[k], made.get(k).copied().flatten())?;
    }
    Ok(())
}
