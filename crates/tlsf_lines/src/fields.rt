//! The fields of a line, cut off one after another.
ghost use Rattle.std.specs.Prelude.{◌≡◌, ◌∷◌, Some, None, MatchOption, option_map};
ghost use Rattle.tlsf_lines.specs.CutFields.{fields_left, fields_of, first_by, only_by, value_of};
ghost use Rattle.tlsf_lines.specs.Fields as spelled;
ghost use Rattle.tlsf_lines.specs.Payloads;
ghost use Rattle.tlsf_lines.specs.Values.{Bytes};

use crate::numbers::{digits_in, first_digits_in};
use crate::payload::chunk_in;
use tlsf_calls::Chunk;

/// The line that a piece has in front of its line feed; `None` for a piece without one.
///
/// ```
/// // of "f 0 1\n" it is "f 0 1", of "f 0 1" none
/// ```
pub fn cut_feed(piece: &[u8]) -> Option<&[u8]>
    ensures { option_map (λ line. fields_of line.now) result ≡ spelled.fields_in piece.now }
{
    match piece {
        [line @ .., b'\n'] => Some(line),
        _ => None,
    }
}

/// The first field, and the rest after its space, if there is one. Most fields have a few bytes, where a plain loop is sooner done
/// than a search.
///
/// ```
/// // of "a 0 1" they are "a" and "0 1", of "phase" they are "phase" and none
/// ```
#[tactic(auto, using(crate::proofs::CutSteps::cut_at, crate::proofs::CutSteps::not_cut))]
pub fn cut_field(line: &[u8]) -> (&[u8], Option<&[u8]>)
    ensures { fields_of line.now ≡ result.0.now ∷ fields_left result.1 }
{
    for (i, byte) in line.iter().enumerate() {
        if *byte == b' ' {
            return (&line[..i], Some(&line[i + 1..]));
        }
    }
    (line, None)
}

/// The number from `least` to `most` that the first field spells, and the fields after it. `None` where there is no field, or it
/// isn't all digits. A number that has a leading zero or is out of its range is `None` inside.
pub fn next_number(
    fields: Option<&[u8]>,
    least: u32,
    most: u32,
) -> Option<(Option<u32>, Option<&[u8]>)>
    ensures { MatchOption result (first_by (λ f. spelled.digits_in (least, most) f) (fields_left fields.entry) ≡ None)
        (λ found. first_by (λ f. spelled.digits_in (least, most) f) (fields_left fields.entry) ≡ Some (value_of found.0, fields_left found.1)) }
{
    first_digits_in(fields?, least, most)
}

/// The number that the one field left spells, as [`next_number`] has it; `None` too where there is another.
pub fn last_number(fields: Option<&[u8]>, least: u32, most: u32) -> Option<Option<u32>>
    ensures { option_map value_of result ≡ only_by (λ f. spelled.digits_in (least, most) f) (fields_left fields.entry) }
{
    // Another field would stand after a space, which is no digit, so nothing looks for one.
    digits_in(fields?, least, most)
}

/// The payload bytes that the one field left spells; `None` where it spells none, and where there is another.
#[tactic(auto, using(crate::proofs::LastField::last_chunk))]
pub fn last_payload(fields: Option<&[u8]>) -> Option<Chunk>
    ensures { option_map (λ chunk. Bytes chunk) result ≡ only_by (λ f. option_map (λ chunk. Bytes chunk) (Payloads.chunk_in f)) (fields_left fields.entry) }
{
    // As above: a space is no hexadecimal digit.
    chunk_in(fields?)
}
