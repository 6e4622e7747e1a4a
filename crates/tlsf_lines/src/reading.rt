//! The fields of a line, word by word. Each function reads its fields from left to right, once. It answers `None` where a field has
//! not its shape, is missing or is left over, and `None` inside where a number is bad.
ghost use Rattle.std.specs.Prelude.{◌≡◌, ◌<◌, ℕ, ◌∷◌, []};
ghost use Rattle.tlsf_lines.specs.CutFields.{fields_left, line_behind, line_behind_block, value_of};
ghost use Rattle.tlsf_lines.specs.Lines;
ghost use Rattle.tlsf_lines.specs.Values.{Bytes};
ghost use Rattle.tlsf_lines.specs.declared.keyword.Keyword.TheVariants as keyword;
ghost use Rattle.tlsf_lines.specs.declared.kind.Kind.TheVariants.{Count, Offset, Payload};

use crate::fields::{last_number, last_payload, next_number};
use crate::keyword::Keyword;
use crate::line::Line;
use tlsf_calls::{Chunk, MOST_DRAINED};

/// The greatest label.
const MOST_LABEL: u32 = 65_535;

/// The most bytes that one line may read.
const MOST_COUNT: u32 = 64;

#[tactic(auto, unfolding(crate::specs::Lines::line_from))]
fn make_allocate(worker: Option<u32>, label: Option<u32>, len: Option<u32>) -> Option<Line>
    ensures { result ≡ Lines.line_from keyword.Allocate (value_of worker ∷ value_of label ∷ value_of len ∷ []) }
{
    Some(Line::Allocate {
        worker: worker?,
        label: label?,
        len: len?,
    })
}

#[tactic(auto, unfolding(crate::specs::Lines::line_from))]
fn make_release(worker: Option<u32>, label: Option<u32>) -> Option<Line>
    ensures { result ≡ Lines.line_from keyword.Release (value_of worker ∷ value_of label ∷ []) }
{
    Some(Line::Release {
        worker: worker?,
        label: label?,
    })
}

#[tactic(auto, unfolding(crate::specs::Lines::line_from))]
fn make_write(
    worker: Option<u32>,
    label: Option<u32>,
    at: Option<u32>,
    bytes: Chunk,
) -> Option<Line>
    ensures { result ≡ Lines.line_from keyword.Write (value_of worker ∷ value_of label ∷ value_of at ∷ Bytes bytes ∷ []) }
{
    Some(Line::Write {
        worker: worker?,
        label: label?,
        at: at?,
        bytes,
    })
}

#[tactic(auto, unfolding(crate::specs::Lines::line_from))]
fn make_read(
    worker: Option<u32>,
    label: Option<u32>,
    at: Option<u32>,
    n: Option<u32>,
) -> Option<Line>
    ensures { result ≡ Lines.line_from keyword.Read (value_of worker ∷ value_of label ∷ value_of at ∷ value_of n ∷ []) }
{
    Some(Line::Read {
        worker: worker?,
        label: label?,
        at: at?,
        n: n?,
    })
}

#[tactic(auto, unfolding(crate::specs::Lines::line_from))]
fn make_resize(worker: Option<u32>, label: Option<u32>, len: Option<u32>) -> Option<Line>
    ensures { result ≡ Lines.line_from keyword.Resize (value_of worker ∷ value_of label ∷ value_of len ∷ []) }
{
    Some(Line::Resize {
        worker: worker?,
        label: label?,
        len: len?,
    })
}

#[tactic(auto, unfolding(crate::specs::Lines::line_from))]
fn make_drain(worker: Option<u32>, most: Option<u32>) -> Option<Line>
    ensures { result ≡ Lines.line_from keyword.Drain (value_of worker ∷ value_of most ∷ []) }
{
    Some(Line::Drain {
        worker: worker?,
        most: most?,
    })
}

// `a w L len`, after its keyword.
fn parse_allocate(workers: u32, fields: Option<&[u8]>) -> Option<Option<Line>>
    requires { 0 < workers }
    ensures { result ≡ line_behind workers keyword.Allocate (fields_left fields.entry) }
{
    let (worker, fields) = next_number(fields, 0, workers - 1)?;
    let (label, fields) = next_number(fields, 0, MOST_LABEL)?;
    let len = last_number(fields, 0, u32::MAX)?;
    Some(make_allocate(worker, label, len))
}

// `f w L`, after its keyword.
fn parse_release(workers: u32, fields: Option<&[u8]>) -> Option<Option<Line>>
    requires { 0 < workers }
    ensures { result ≡ line_behind workers keyword.Release (fields_left fields.entry) }
{
    let (worker, fields) = next_number(fields, 0, workers - 1)?;
    let label = last_number(fields, 0, MOST_LABEL)?;
    Some(make_release(worker, label))
}

// The byte and the payload of `p w L at HEX`, behind its worker and its label.
#[inline(always)]
fn write_behind(
    worker: Option<u32>,
    label: Option<u32>,
    fields: Option<&[u8]>,
) -> Option<Option<Line>>
    ensures { result ≡ line_behind_block keyword.Write (Offset ∷ Payload ∷ []) worker label (fields_left fields.entry) }
{
    let (at, fields) = next_number(fields, 0, u32::MAX)?;
    let bytes = last_payload(fields)?;
    Some(make_write(worker, label, at, bytes))
}

// `p w L at HEX`, after its keyword.
fn parse_write(workers: u32, fields: Option<&[u8]>) -> Option<Option<Line>>
    requires { 0 < workers }
    ensures { result ≡ line_behind workers keyword.Write (fields_left fields.entry) }
{
    let (worker, fields) = next_number(fields, 0, workers - 1)?;
    let (label, fields) = next_number(fields, 0, MOST_LABEL)?;
    write_behind(worker, label, fields)
}

// The byte and the count of `g w L at n`, behind its worker and its label.
#[inline(always)]
fn read_behind(
    worker: Option<u32>,
    label: Option<u32>,
    fields: Option<&[u8]>,
) -> Option<Option<Line>>
    ensures { result ≡ line_behind_block keyword.Read (Offset ∷ Count ∷ []) worker label (fields_left fields.entry) }
{
    let (at, fields) = next_number(fields, 0, u32::MAX)?;
    let n = last_number(fields, 1, MOST_COUNT)?;
    Some(make_read(worker, label, at, n))
}

// `g w L at n`, after its keyword.
fn parse_read(workers: u32, fields: Option<&[u8]>) -> Option<Option<Line>>
    requires { 0 < workers }
    ensures { result ≡ line_behind workers keyword.Read (fields_left fields.entry) }
{
    let (worker, fields) = next_number(fields, 0, workers - 1)?;
    let (label, fields) = next_number(fields, 0, MOST_LABEL)?;
    read_behind(worker, label, fields)
}

// `r w L len`, after its keyword.
fn parse_resize(workers: u32, fields: Option<&[u8]>) -> Option<Option<Line>>
    requires { 0 < workers }
    ensures { result ≡ line_behind workers keyword.Resize (fields_left fields.entry) }
{
    let (worker, fields) = next_number(fields, 0, workers - 1)?;
    let (label, fields) = next_number(fields, 0, MOST_LABEL)?;
    let len = last_number(fields, 0, u32::MAX)?;
    Some(make_resize(worker, label, len))
}

// `d w n`, after its keyword.
fn parse_drain(workers: u32, fields: Option<&[u8]>) -> Option<Option<Line>>
    requires { 0 < workers }
    ensures { result ≡ line_behind workers keyword.Drain (fields_left fields.entry) }
{
    let (worker, fields) = next_number(fields, 0, workers - 1)?;
    let most = last_number(fields, 1, MOST_DRAINED)?;
    Some(make_drain(worker, most))
}

// `phase` has no field after it.
#[tactic(auto, unfolding(crate::specs::Lines::line_from))]
fn parse_phase(fields: Option<&[u8]>) -> Option<Option<Line>>
    ensures { (workers : ℕ) → result ≡ line_behind workers keyword.Phase (fields_left fields.entry) }
{
    match fields {
        None => Some(Some(Line::Phase)),
        Some(_) => None,
    }
}

/// The line that the fields after a keyword say, where there are `workers` workers.
pub fn parse_fields(workers: u32, keyword: Keyword, fields: Option<&[u8]>) -> Option<Option<Line>>
    requires { 0 < workers }
    ensures { result ≡ line_behind workers keyword (fields_left fields.entry) }
{
    match keyword {
        Keyword::Allocate => parse_allocate(workers, fields),
        Keyword::Release => parse_release(workers, fields),
        Keyword::Write => parse_write(workers, fields),
        Keyword::Read => parse_read(workers, fields),
        Keyword::Resize => parse_resize(workers, fields),
        Keyword::Drain => parse_drain(workers, fields),
        Keyword::Phase => parse_phase(fields),
    }
}
