//! A line as it is shown: what isn't printable is escaped, and a long line is cut on both sides of its mark.
ghost use Rattle.std.specs.Prelude.{◌≡◌, ◌≤◌, ◌<◌, ◌+◌, ◌-◌, ◌++◌, length, take, drop, replicate, min, string_bytes, IfOk, OnOk};
ghost use Rattle.std.specs.List.{flat_map};
ghost use Rattle.tlsf_diagnosis.specs.Shown.{ShowsAt, columns_in, dots_for, rows_text, shown_byte};

use std::alloc::{AllocError, Global};

/// How many columns are shown before the mark.
const COLUMNS_BEFORE: usize = 40;

/// How many columns are shown from the mark on.
const COLUMNS_BEHIND: usize = 32;

/// How many columns a byte is shown in.
#[tactic(auto, using(std::proofs::lemmas::Fmt::hex_byte))]
fn columns_of(byte: u8) -> usize
    ensures { result ≡ length (shown_byte byte) }
{
    match byte {
        b' '..=b'~' => 1,
        b'\t' | b'\r' => 2,
        _ => 4,
    }
}

/// Adds a byte as it is shown: itself, `\t`, `\r`, or as `\x07`.
fn push_byte(text: &mut String, byte: u8) -> Result<(), AllocError>
    ensures { OnOk result (string_bytes text.new ≡ string_bytes text.old ++ shown_byte byte) }
{
    match byte {
        b' '..=b'~' => text.push(char::from(byte)),
        b'\t' => text.push_str("\\t"),
        b'\r' => text.push_str("\\r"),
        _ => write!(text, "\\x{byte:02x}"),
    }
}

/// Adds bytes as they are shown.
pub fn push_bytes(text: &mut String, bytes: &[u8]) -> Result<(), AllocError>
    ensures { OnOk result (string_bytes text.new ≡ string_bytes text.old ++ flat_map shown_byte bytes.now) }
{
    for byte in bytes {
        push_byte(text, *byte)?;
    }
    Ok(())
}

// Adds `count` spaces.
fn push_spaces(text: &mut String, count: usize) -> Result<(), AllocError>
    ensures { OnOk result (string_bytes text.new ≡ string_bytes text.old ++ replicate count 32) }
{
    for _i in 0..count {
        text.push_str(" ")?;
    }
    Ok(())
}

// How many of the first bytes are shown in this many columns.
fn first_shown(bytes: &[u8], columns: usize) -> usize
    ensures within { result ≤ length bytes.now }
    ensures fits { columns_in (take result bytes.now) ≤ columns }
    ensures most { result < length bytes.now → columns < columns_in (take (result + 1) bytes.now) }
{
    let mut left = columns;
    let mut count = 0;
    while count < bytes.len() {
        let wide = columns_of(bytes[count]);
        if wide > left {
            return count;
        }
        left -= wide;
        count += 1;
    }
    count
}

// Where the last bytes begin that are shown in this many columns.
fn last_shown(bytes: &[u8], columns: usize) -> usize
    ensures within { result ≤ length bytes.now }
    ensures fits { columns_in (drop result bytes.now) ≤ columns }
    ensures most { 0 < result → columns < columns_in (drop (result - 1) bytes.now) }
{
    let mut left = columns;
    let mut from = bytes.len();
    while from > 0 {
        let wide = columns_of(bytes[from - 1]);
        if wide > left {
            return from;
        }
        left -= wide;
        from -= 1;
    }
    from
}

// The dots that stand for bytes that are left out, where there are any.
fn dots(left_out: usize) -> &'static str
    ensures { result.now ≡ dots_for left_out }
{
    if left_out == 0 { "" } else { ".." }
}

// Bytes as they are shown, in a text of their own.
fn shown(alloc: Global, bytes: &[u8]) -> Result<String, AllocError>
    ensures { IfOk result (λ text. string_bytes text ≡ flat_map shown_byte bytes.now) }
{
    let mut text = String::new(alloc);
    push_bytes(&mut text, bytes)?;
    Ok(text)
}

// The two rows of a line: these bytes before the mark and from it on, each with these dots beside them.
#[tactic(auto, unfolding(crate::specs::Shown::rows_text))]
fn rows(
    alloc: Global,
    first: &str,
    before: &[u8],
    behind: &[u8],
    last: &str,
) -> Result<String, AllocError>
    ensures { IfOk result (λ rows. string_bytes rows ≡ rows_text first.now before.now behind.now last.now) }
{
    let begin = shown(alloc, before)?;
    let end = shown(alloc, behind)?;
    let mut text = format!(in alloc; "  {first}{begin}{end}{last}\n  ")?;
    push_spaces(&mut text, first.len())?;
    push_spaces(&mut text, begin.len())?;
    text.push_str("^\n")?;
    Ok(text)
}

/// The line in a row of its own, and below it a mark under the byte at `at`, or after the line.
pub fn view(alloc: Global, line: &[u8], at: usize) -> Result<String, AllocError>
    ensures { IfOk result (λ rows. ShowsAt line.now (min at (length line.now)) (string_bytes rows)) }
{
    let (before, behind) = line.split_at(at.min(line.len()));
    let from = last_shown(before, COLUMNS_BEFORE);
    let to = first_shown(behind, COLUMNS_BEHIND);
    let last = dots(behind.len() - to);
    let text = rows(alloc, dots(from), &before[from..], &behind[..to], last)?;
    Ok(text)
}
