//! The wanted content of a field, and the content that stands there.
ghost use Rattle.std.specs.Prelude.{◌≡◌, ◌≤◌, ◌&&◌, length, slice_get, IfSome, false, true};
ghost use Rattle.std.specs.List.{list_all};
ghost use Rattle.tlsf_diagnosis.specs.Shown;
ghost use Rattle.tlsf_diagnosis.specs.Tips;
ghost use Rattle.tlsf_lines.specs.CutFields.{fields_of};

use crate::judge::{Judge, is_all_digits, passes};
use crate::line_view::push_bytes;
use crate::number_tip::is_marked_number;
use crate::spot::{Spot, field_in};
use std::alloc::AllocError;
use tlsf_lines::{Kind, Version, keyword_of, kinds_behind};

/// How many bytes of a field are quoted.
const MOST_QUOTED: usize = 24;

/// The content that a field should have.
#[derive(Clone, Copy)]
pub enum Wanted {
    /// `tlsf`, the first field of a header.
    Name,
    /// The version, the second field of a header.
    Version,
    /// The first field of another line.
    Keyword,
    /// A number, or payload bytes.
    Value(Kind),
    /// No field: the line has only this many.
    Nothing(usize),
}

impl Wanted {
    // Whether it is a number.
    fn is_number(self) -> bool
        ensures { result ≡ Tips.is_number_wanted self }
    {
        match self {
            Wanted::Value(kind) => kind.is_number(),
            Wanted::Name | Wanted::Version | Wanted::Keyword | Wanted::Nothing(_) => false,
        }
    }
}

// The kind at a place of these, or no field where there are so few.
fn value_at(kinds: &[Kind], place: usize, fields: usize) -> Wanted
    ensures { Tips.is_number_wanted result ≡ Tips.is_number_kind (slice_get kinds.now place) }
{
    match kinds.get(place) {
        Some(kind) => Wanted::Value(*kind),
        None => Wanted::Nothing(fields),
    }
}

// The content that field `n` of the header should have.
fn wanted_in_header(piece: &[u8], n: usize) -> Wanted
    ensures { Tips.is_number_wanted result ≡ Tips.takes_number_in_header n }
{
    match n {
        0 | 1 => Wanted::Name,
        2 => Wanted::Version,
        _ => {
            let version = Version::spelled_by(field_in(piece, 2)).unwrap_or(Version::One);
            let kinds = [Kind::Workers, Kind::Words(version), Kind::Capacity];
            value_at(&kinds, n - 3, 5)
        }
    }
}

// The content that field `n` of a line after the header should have.
fn wanted_in_line(piece: &[u8], n: usize) -> Wanted
    ensures { Tips.is_number_wanted result ≡ Tips.takes_number_in_line (fields_of (Shown.without_feed piece.now)) n }
{
    if n < 2 {
        return Wanted::Keyword;
    }
    match keyword_of(field_in(piece, 1)) {
        Some(keyword) => {
            let kinds = kinds_behind(keyword);
            value_at(kinds, n - 2, kinds.len() + 1)
        }
        None => Wanted::Keyword,
    }
}

/// The content that field `n` of line number `line` should have, which stands in the text as `piece`.
pub fn wanted_in(piece: &[u8], line: u32, n: usize) -> Wanted
    ensures { Tips.is_number_wanted result ≡ Tips.takes_number line (fields_of (Shown.without_feed piece.now)) n }
{
    if line < 2 {
        wanted_in_header(piece, n)
    } else {
        wanted_in_line(piece, n)
    }
}

// Whether the field is one of these words.
fn is_one_of(field: &[u8], words: &[&str]) -> bool {
    words.iter().any(|word| word.as_bytes() == field)
}

// The word of a line that was meant, where that is easily guessed.
fn word_meant(field: &[u8]) -> Option<&'static str> {
    if is_one_of(field, &["A", "alloc", "allocate", "malloc"]) {
        Some("a")
    } else if is_one_of(field, &["F", "free", "release"]) {
        Some("f")
    } else if is_one_of(field, &["P", "w", "put", "write"]) {
        Some("p")
    } else if is_one_of(field, &["G", "get", "read"]) {
        Some("g")
    } else if is_one_of(field, &["R", "realloc", "resize"]) {
        Some("r")
    } else if is_one_of(field, &["D", "drain"]) {
        Some("d")
    } else if is_one_of(field, &["Phase", "PHASE", "phases", "end"]) {
        Some("phase")
    } else {
        None
    }
}

// Whether a byte is printable ASCII, as each byte of a line is but its line feed.
fn is_printable(byte: u8) -> bool
    ensures { result ≡ Shown.is_printable byte }
{
    matches!(byte, b' '..=b'~')
}

// Whether each byte of a field is.
fn is_all_printable(field: &[u8]) -> bool
    ensures { result ≡ list_all Shown.is_printable field.now }
{
    field.iter().all(|byte| is_printable(*byte))
}

// Where the first byte is that no line has: one that isn't printable.
fn unprintable_in(field: &[u8]) -> Option<usize>
    ensures { IfSome result (λ place. place ≤ length field.now) }
{
    field.iter().position(|byte| !is_printable(*byte))
}

// Where the first byte is that isn't as wanted.
fn unwanted_in(field: &[u8], wanted: Wanted) -> usize
    ensures { result ≤ length field.now }
{
    let place = match wanted {
        Wanted::Value(Kind::Payload) => field.iter().position(|byte| !byte.is_ascii_hexdigit()),
        Wanted::Value(_) => field.iter().position(|byte| !byte.is_ascii_digit()),
        Wanted::Name | Wanted::Version | Wanted::Keyword | Wanted::Nothing(_) => None,
    };
    match place {
        Some(place) => place,
        None => 0,
    }
}

// Whether the field says what it should, where there are this many workers.
fn is_as_wanted(field: &[u8], wanted: Wanted, workers: u32) -> bool {
    match wanted {
        Wanted::Value(kind) => passes(Judge::Number { workers }, kind, field),
        Wanted::Keyword => keyword_of(field).is_some(),
        // These are named where they are wrong alone.
        Wanted::Name | Wanted::Version | Wanted::Nothing(_) => false,
    }
}

/// Whether nothing is wrong but that no line feed follows the field.
pub fn lacks_feed_alone(spot: Spot, wanted: Wanted, workers: u32) -> bool
    ensures { result ≡ true → spot.entry.is_ended ≡ false }
{
    !spot.is_ended
        && spot
            .field
            .is_some_and(|field| is_as_wanted(field, wanted, workers))
}

/// The byte of the field that is marked: its first that isn't as wanted, or its first.
pub fn mark_in(field: &[u8], wanted: Wanted) -> usize
    ensures { result ≤ length field.now }
{
    match unprintable_in(field) {
        Some(place) => place,
        None => unwanted_in(field, wanted),
    }
}

// Whether there is more than one such number: a worker may be the only one.
fn has_range(kind: Kind, workers: u32) -> bool {
    let (least, most) = kind.range(workers);
    least < most
}

// A field of this kind in words, as `the length in bytes`.
fn name_of(kind: Kind) -> &'static str {
    match kind {
        Kind::Worker => "the worker",
        Kind::Label => "the label",
        Kind::Length => "the length in bytes",
        Kind::Offset => "the offset in bytes",
        Kind::Payload => "the bytes to write",
        Kind::Count => "the number of bytes to read",
        Kind::Most => "the most posts to drain",
        Kind::Workers => "the number of workers",
        Kind::Words(_) => "the words of a heap",
        Kind::Capacity => "the posts that a lane holds",
    }
}

/// Adds what the field is, and what was expected there.
pub fn push_wanted(text: &mut String, wanted: Wanted, workers: u32) -> Result<(), AllocError> {
    match wanted {
        Wanted::Name => text.push_str(", the name: `tlsf`"),
        Wanted::Version => text.push_str(", the version: `1` or `2`"),
        Wanted::Keyword => {
            text.push_str(", the keyword of the line: `a`, `f`, `p`, `g`, `r`, `d` or `phase`")
        }
        Wanted::Value(Kind::Payload) => text.push_str(
            ", the bytes to write: 2 to 128 hexadecimal digits, an even number of them",
        ),
        Wanted::Value(kind) if !has_range(kind, workers) => {
            text.push_str(", the worker: 0, the only worker")
        }
        Wanted::Value(kind) => {
            let name = name_of(kind);
            let (least, most) = kind.range(workers);
            write!(
                text,
                ", {name}: a number from {least} to {most} without a leading zero"
            )
        }
        Wanted::Nothing(fields) => {
            let ending = if fields == 1 { "" } else { "s" };
            write!(text, ": none, since such a line has {fields} field{ending}")
        }
    }
}

// Whether a field begins as a hexadecimal number.
fn is_hexadecimal(field: &[u8]) -> bool
    ensures { result ≡ Tips.is_hexadecimal field.now }
{
    matches!(field, [b'0', b'x' | b'X', ..])
}

// Whether the tip on numbers helps: no other word is said of the field.
fn is_tipped(field: &[u8]) -> bool
    ensures { result ≡ Tips.is_tipped field.now }
{
    is_marked_number(field) && is_all_printable(field) && !is_hexadecimal(field)
}

// Adds the field in quotes, cut where it is long.
fn push_quoted(text: &mut String, field: &[u8]) -> Result<(), AllocError> {
    text.push_str("found `")?;
    if field.len() > MOST_QUOTED {
        push_bytes(text, &field[..MOST_QUOTED])?;
        return text.push_str("..`");
    }
    push_bytes(text, field)?;
    text.push_str("`")
}

// More words on a field in the place of a number.
fn number_note(field: &[u8], has_range: bool) -> &'static str {
    match field {
        [b'-', ..] | [b'+', ..] => ": numbers have no sign",
        _ if is_hexadecimal(field) => ": numbers are decimal",
        [b'0', _, ..] if is_all_digits(field) => ": a leading zero",
        _ if has_range && is_all_digits(field) => ": out of that range",
        _ => "",
    }
}

// More words on a field in the place of the words of a heap: version 2 may take a number that version 1 doesn't.
fn words_note(field: &[u8], version: Version, workers: u32) -> &'static str {
    let is_for_two = is_as_wanted(field, Wanted::Value(Kind::Words(Version::Two)), workers);
    match version {
        Version::One if is_for_two => ": out of that range; `tlsf 2` takes up to 16777216",
        _ => number_note(field, true),
    }
}

// More words on a field in the place of payload bytes.
fn payload_note(field: &[u8]) -> &'static str {
    if !field.iter().all(|byte| byte.is_ascii_hexdigit()) {
        ""
    } else if field.len() > 128 {
        ": more than 128 digits"
    } else if field.len() % 2 == 1 {
        ": an odd number of digits"
    } else {
        ""
    }
}

// Adds what more is to say of a field in the place of a word.
fn push_word_note(text: &mut String, field: &[u8]) -> Result<(), AllocError> {
    match word_meant(field) {
        Some(word) => write!(text, ": did you mean `{word}`?"),
        None => Ok(()),
    }
}

// Adds what more is to say of a field, by what was expected there.
fn push_field_note(
    text: &mut String,
    field: &[u8],
    wanted: Wanted,
    workers: u32,
) -> Result<(), AllocError> {
    if let [b'#' | b'/' | b';', ..] = field {
        return text.push_str(": a trace has no comments");
    }
    match wanted {
        Wanted::Keyword => push_word_note(text, field),
        Wanted::Value(Kind::Payload) => text.push_str(payload_note(field)),
        Wanted::Value(Kind::Words(version)) => text.push_str(words_note(field, version, workers)),
        Wanted::Value(kind) => text.push_str(number_note(field, has_range(kind, workers))),
        Wanted::Name | Wanted::Version | Wanted::Nothing(_) => Ok(()),
    }
}

// Adds that a field is empty, and why.
fn push_empty(text: &mut String, spot: Spot) -> Result<(), AllocError> {
    text.push_str(if spot.line.is_empty() {
        "found an empty line"
    } else if spot.start == 0 {
        "found a space at the start of the line"
    } else if spot.start >= spot.line.len() {
        "found a space at the end of the line"
    } else {
        "found two spaces"
    })
}

// Adds the byte of a field that isn't printable.
fn push_unprintable(
    text: &mut String,
    spot: Spot,
    field: &[u8],
    place: usize,
) -> Result<(), AllocError> {
    match field.get(place..) {
        Some([0xef, 0xbb, 0xbf, ..]) if spot.start == 0 && place == 0 => {
            text.push_str("found a byte order mark")
        }
        Some([b'\t', ..]) => text.push_str("found a tab: fields are parted by one space"),
        Some([b'\r', ..]) => {
            text.push_str("found a carriage return: lines end with a line feed alone")
        }
        Some([byte, ..]) => write!(text, "found the byte 0x{byte:02x}, which isn't printable"),
        _ => Ok(()),
    }
}

// Adds what stands in the field, and what more is to say of it.
fn push_contents(
    text: &mut String,
    spot: Spot,
    field: &[u8],
    wanted: Wanted,
    workers: u32,
) -> Result<(), AllocError> {
    if let Some(place) = unprintable_in(field) {
        return push_unprintable(text, spot, field, place);
    }
    if field.is_empty() {
        return push_empty(text, spot);
    }
    push_quoted(text, field)?;
    push_field_note(text, field, wanted, workers)
}

/// Adds what was found in the place of the field. Where the line feed is missing too it says so at the end.
pub fn push_found(
    text: &mut String,
    spot: Spot,
    wanted: Wanted,
    workers: u32,
) -> Result<(), AllocError> {
    match (spot.field, spot.is_ended) {
        (Some(field), true) => push_contents(text, spot, field, wanted, workers),
        (Some(field), false) => {
            push_contents(text, spot, field, wanted, workers)?;
            text.push_str("; the line feed is missing too")
        }
        (None, true) => text.push_str("found the end of the line"),
        (None, false) => text.push_str("found the end of the trace"),
    }
}

/// Whether the tip on numbers helps: the field is a number with more in it than digits.
pub fn wants_tip(spot: Spot, wanted: Wanted) -> bool
    ensures { result ≡ (Tips.is_tipped (Shown.bytes_of spot.entry.field) && Tips.is_number_wanted wanted) }
{
    match spot.field {
        Some(field) => is_tipped(field) && wanted.is_number(),
        None => false,
    }
}
