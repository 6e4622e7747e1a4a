ghost use Rattle.std.specs.Prelude.{◌≡◌, ◌≢◌, ◌≤◌, ◌∷◌, [], IfSome, MatchOption, length};
ghost use Rattle.tlsf_lines.specs.CutFields.{fields_of};
ghost use Rattle.tlsf_lines.specs.Fields.{range_of};
ghost use Rattle.tlsf_lines.specs.Header as spelled;
ghost use Rattle.tlsf_lines.specs.Ranges.{IsHeaderInRange};

use crate::fields::{cut_feed, cut_field};
use crate::kind::Kind;
use crate::numbers::digits_in;
use crate::version::Version;

/// The first line of a trace.
///
/// ```
/// // "tlsf 1 2 64 4\n" is Header { version: Version::One, workers: 2, words: 64, capacity: 4 }
/// ```
#[derive(Clone, Copy)]
pub struct Header {
    /// The version, by which the heaps are of level 4 or 5.
    pub version: Version,
    /// How many workers there are, each with a heap of its own, from 1 to 8.
    pub workers: u32,
    /// The words of each heap, from 4 to 1048576, in version 2 to 16777216.
    pub words: u32,
    /// How many posts a lane holds, from 1 to 1024.
    pub capacity: u32,
}

/// The number of a kind that a field spells; `None` where it spells none.
fn number_in(field: &[u8], kind: Kind) -> Option<u32>
    ensures number { result ≡ spelled.number_in (range_of 0 kind) field.now }
    ensures range { IfSome result (λ n. ((range_of 0 kind).0 ≤ n) × (n ≤ (range_of 0 kind).1)) }
{
    let (least, most) = kind.range(0);
    digits_in(field, least, most)?
}

#[tactic(auto, unfolding(crate::specs::Header::header_from))]
fn header_from(version: Version, workers: &[u8], words: &[u8], capacity: &[u8]) -> Option<Header>
    ensures header { result ≡ spelled.header_from version workers.now words.now capacity.now }
    ensures ranges { IfSome result IsHeaderInRange }
{
    let workers = number_in(workers, Kind::Workers)?;
    let words = number_in(words, Kind::Words(version))?;
    let capacity = number_in(capacity, Kind::Capacity)?;
    Some(Header {
        version,
        workers,
        words,
        capacity,
    })
}

/// The fields of a line that has five.
#[tactic(auto, using(crate::proofs::CutSteps::fields_count))]
fn five_fields(line: &[u8]) -> Option<(&[u8], &[u8], &[u8], &[u8], &[u8])>
    ensures { MatchOption result (length (fields_of line.now) ≢ 5)
        (λ five. fields_of line.now ≡ five.0.now ∷ five.1.now ∷ five.2.now ∷ five.3.now ∷ five.4.now ∷ []) }
{
    let (first, rest) = cut_field(line);
    let (second, rest) = cut_field(rest?);
    let (third, rest) = cut_field(rest?);
    let (fourth, rest) = cut_field(rest?);
    let (fifth, rest) = cut_field(rest?);
    match rest {
        None => Some((first, second, third, fourth, fifth)),
        Some(_) => None,
    }
}

/// The header that a piece says, or `None` where it says none.
///
/// ```
/// // of "tlsf 1 2 64 4\n" it has version One, 2 workers, 64 words and capacity 4, of "tlsf 3 2 64 4\n" none
/// ```
#[tactic(auto, unfolding(crate::specs::Header::header_in))]
pub fn header_in(piece: &[u8]) -> Option<Header>
    ensures header { result ≡ spelled.header_in piece.now }
    ensures ranges { IfSome result IsHeaderInRange }
{
    let (name, version, workers, words, capacity) = five_fields(cut_feed(piece)?)?;
    if name != b"tlsf".as_slice() {
        return None;
    }
    header_from(Version::spelled_by(version)?, workers, words, capacity)
}
