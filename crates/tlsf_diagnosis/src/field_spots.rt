//! The field of a fault.
ghost use Rattle.std.specs.Prelude.{ℕ, codes, ◌≡◌, ◌+◌, ◌-◌, ◌≤◌, None, Some, Err, IfSome, count_by, length, ◌==◌, List};
ghost use Rattle.std.specs.Str.{bytes_eq};
ghost use Rattle.tlsf_diagnosis.specs.FieldFaults.{GoAstrayAt, IsFieldOf, IsFirstWrong, IsFoundIn, is_header, is_line};
ghost use Rattle.tlsf_diagnosis.specs.Kinds;
ghost use Rattle.tlsf_diagnosis.specs.Passing.{FindsWrong, IsFirstFailing};
ghost use Rattle.tlsf_lines.specs.CutFields.{fields_left, fields_of};
ghost use Rattle.tlsf_lines.specs.Fields.{field};
ghost use Rattle.tlsf_lines.specs.Header as spelled;
ghost use Rattle.tlsf_lines.specs.Pieces.{pieces_of};
ghost use Rattle.tlsf_lines.specs.Trace.{judged_line};
ghost use Rattle.tlsf_lines.specs.TraceFaults.{fault_of};
ghost use Rattle.tlsf_lines.specs.declared.line.Line.{Line};
ghost use Rattle.tlsf_lines.specs.declared.line_fault.LineFault.{LineFault};
ghost use Rattle.tlsf_lines.specs.declared.line_fault.LineFault.TheVariants.{BadHeader};

use crate::judge::{Judge, passes};
use tlsf_lines::{
    Kind, TraceFault, Version, cut_feed, cut_field, cut_piece, header_in, keyword_of, kinds_behind,
};

/// The field that has the label, in each line that has one.
const LABEL_FIELD: usize = 3;

/// How many fields pass before the first that doesn't, that is missing or that has no kind; `None` where all pass.
fn first_failing(judge: Judge, kinds: &[Kind], fields: Option<&[u8]>) -> Option<usize>
    ensures first { IsFirstFailing (λ k f. Kinds.passes judge k f) kinds.now (fields_left fields.entry) result }
    ensures few { IfSome result (λ n. n ≤ length kinds.now) }
{
    let mut left = fields;
    for (i, kind) in kinds.iter().enumerate() {
        let Some(line) = left else {
            return Some(i);
        };
        let (first, rest) = cut_field(line);
        if !passes(judge, *kind, first) {
            return Some(i);
        }
        left = rest;
    }
    match left {
        Some(_) => Some(kinds.len()),
        None => None,
    }
}

/// How many spaces a line has.
fn count_spaces(line: &[u8]) -> usize
    ensures count { result ≡ count_by (λ byte. byte == 32) line.now }
    ensures few { result ≤ length line.now }
{
    line.iter().filter(|byte| **byte == b' ').count()
}

/// The first wrong field of a line, where there are this many workers: by its shape, and then by its numbers.
fn wrong_in_line(workers: u32, line: &[u8]) -> Option<usize>
    ensures { FindsWrong (is_line workers) (IsFirstWrong workers) (fields_of line.now) result }
{
    let (first, fields) = cut_field(line);
    let Some(keyword) = keyword_of(first) else {
        return Some(1);
    };
    let kinds = kinds_behind(keyword);
    if let Some(passed) = first_failing(Judge::Shape, kinds, fields) {
        return Some(passed + 2);
    }
    match first_failing(Judge::Number { workers }, kinds, fields) {
        Some(passed) => Some(passed + 2),
        None => None,
    }
}

/// The field by which a line is faulty, where there are this many workers: the first wrong one. Where none is wrong it is the
/// label, and of a line without its line feed the last one.
fn line_spot(workers: u32, piece: &[u8]) -> usize
    ensures { (before : List Line) (fault : LineFault) → judged_line workers before piece.now ≡ Err fault
        → IsFieldOf workers fault piece.now result }
{
    match cut_feed(piece) {
        Some(line) => wrong_in_line(workers, line).unwrap_or(LABEL_FIELD),
        None => wrong_in_line(workers, piece).unwrap_or(count_spaces(piece) + 1),
    }
}

/// How many fields after the version pass before the first that is wrong; `None` where they are those of a header.
fn version_failing(version: Version, fields: Option<&[u8]>) -> Option<usize>
    ensures first { IsFirstFailing (λ k f. Kinds.passes (Judge.Number 0) k f) (Kinds.header_kinds version) (fields_left fields.entry) result }
    ensures few { IfSome result (λ n. n ≤ 3) }
{
    let kinds = [Kind::Workers, Kind::Words(version), Kind::Capacity];
    first_failing(Judge::Number { workers: 0 }, &kinds, fields)
}

/// Whether a field is the name that a header begins with.
fn is_name(field: &[u8]) -> bool
    ensures { result ≡ bytes_eq field.now (codes "tlsf") }
{
    field == b"tlsf".as_slice()
}

/// The first wrong field of a header.
fn wrong_in_header(line: &[u8]) -> Option<usize>
    ensures { FindsWrong is_header (GoAstrayAt is_header) (fields_of line.now) result }
{
    let (name, rest) = cut_field(line);
    if !is_name(name) {
        return Some(1);
    }
    let Some(rest) = rest else {
        return Some(2);
    };
    let (second, rest) = cut_field(rest);
    let Some(version) = Version::spelled_by(second) else {
        return Some(2);
    };
    match version_failing(version, rest) {
        Some(passed) => Some(passed + 3),
        None => None,
    }
}

/// The field by which a first line is no header: the first wrong one. Where none is wrong it is the last one, which no line feed
/// follows.
fn header_spot(piece: &[u8]) -> usize
    ensures { spelled.header_in piece.now ≡ None → (workers : ℕ) → IsFieldOf workers BadHeader piece.now result }
{
    match cut_feed(piece) {
        // One that ends with a line feed has a wrong field.
        Some(line) => wrong_in_header(line).unwrap_or(1),
        None => wrong_in_header(piece).unwrap_or(count_spaces(piece) + 1),
    }
}

/// Line number `line` of a text as it stands, counted from 1, with its line feed if it has one. Without bytes where there is none.
pub fn piece_at(text: &[u8], line: u32) -> &[u8]
    ensures { result.now ≡ field (pieces_of text.now) (line - 1) }
{
    let before = line.saturating_sub(1);
    let mut rest = text;
    for _i in 0..before {
        if rest.is_empty() {
            return rest;
        }
        rest = cut_piece(rest).1;
    }
    if rest.is_empty() {
        return rest;
    }
    cut_piece(rest).0
}

/// The field in which the fault of a text is found, counted from 1.
///
/// It is the first field by which the line can't be a line. So no line that begins in this way has its shape, or in the first line
/// no header has. Where a field is missing it is the field that had to follow the last one. Of a bad number it is the first field
/// with one, and of a label out of order the label. Where the last line has no line feed it is the first field that is wrong
/// besides. It is found by the shape of a line and then by its numbers. It is the last one where no other is wrong.
///
/// ```
/// // "tlsf 1 2 64 4\na 0 1 x\n" has fault 12 in line 2
/// let field = field_of_fault(text, TraceFault { no: 12, line: 2 });
/// // field is 4; of "tlsf 1 2 64 4\na 2 1 8", whose last line has no line feed, it is 2
/// ```
pub fn field_of_fault(text: &[u8], fault: TraceFault) -> usize
    requires { fault_of text.now ≡ Some fault }
    ensures { IsFoundIn text.now fault result }
{
    let first = piece_at(text, 1);
    match header_in(first) {
        None => header_spot(first),
        Some(header) => line_spot(header.workers, piece_at(text, fault.line)),
    }
}
