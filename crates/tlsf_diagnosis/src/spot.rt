//! Where a field stands in a line.
ghost use Rattle.std.specs.Prelude.{◌≡◌, ◌-◌, ◌≤◌, length, is_some, MatchOption, drop};
ghost use Rattle.tlsf_diagnosis.specs.Shown.{HasBefore, IsFieldAt, bytes_of, without_feed};
ghost use Rattle.tlsf_lines.specs.CutFields.{fields_left, fields_of};
ghost use Rattle.tlsf_lines.specs.Fields.{field, fields_in};

use tlsf_lines::{cut_feed, cut_field};

/// A field of a line, or the end of the line where that field is missing.
#[derive(Clone, Copy)]
pub struct Spot<'a> {
    /// The line, without its line feed.
    pub line: &'a [u8],
    /// Whether it has a line feed.
    pub is_ended: bool,
    /// The byte of the line where the field begins; its length where the field is missing.
    pub start: usize,
    /// The bytes of the field; none where it is missing.
    pub field: Option<&'a [u8]>,
}

// A line as it stands without its line feed, and whether it has one.
#[tactic(auto, using(crate::proofs::FieldSteps::fed, crate::proofs::FieldSteps::bare))]
fn line_in(piece: &[u8]) -> (&[u8], bool)
    ensures line { result.0.now ≡ without_feed piece.now }
    ensures ended { result.1 ≡ is_some (fields_in piece.now) }
{
    match cut_feed(piece) {
        Some(line) => (line, true),
        None => (piece, false),
    }
}

// The rest of a line after this many fields.
fn behind_fields(line: &[u8], count: usize) -> Option<&[u8]>
    ensures place { MatchOption result (length (fields_of line.now) ≤ count) (λ rest. HasBefore line.now rest.now count) }
    ensures left { fields_left result ≡ drop count (fields_of line.now) }
{
    let mut rest = line;
    for _i in 0..count {
        let (_, behind) = cut_field(rest);
        match behind {
            Some(behind) => rest = behind,
            None => return None,
        }
    }
    Some(rest)
}

impl<'a> Spot<'a> {
    /// Field number `n`, counted from 1, of a line as it stands.
    pub fn of(piece: &'a [u8], n: usize) -> Spot<'a>
        ensures line { result.line.now ≡ without_feed piece.now }
        ensures ended { result.is_ended ≡ is_some (fields_in piece.now) }
        ensures place { MatchOption result.field ((result.start ≡ length result.line.now) × (length (fields_of result.line.now) ≤ n - 1))
            (λ field. IsFieldAt result.line.now n result.start field.now) }
        ensures bytes { bytes_of result.field ≡ field (fields_of result.line.now) (n - 1) }
    {
        let (line, is_ended) = line_in(piece);
        match behind_fields(line, n.saturating_sub(1)) {
            None => Spot {
                line,
                is_ended,
                start: line.len(),
                field: None,
            },
            Some(rest) => Spot {
                line,
                is_ended,
                start: line.len() - rest.len(),
                field: Some(cut_field(rest).0),
            },
        }
    }
}

/// The bytes of field number `n` of a line as it stands; none where it is missing.
pub fn field_in(piece: &[u8], n: usize) -> &[u8]
    ensures { result.now ≡ field (fields_of (without_feed piece.now)) (n - 1) }
{
    match Spot::of(piece, n).field {
        Some(field) => field,
        None => b"",
    }
}
