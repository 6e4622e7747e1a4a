//! The reply lines of entries.
ghost use Rattle.std.specs.Prelude.{◌≡◌, ◌++◌, None, codes, drop, slice_index_or, IfOk, OnOk, string_bytes};
ghost use Rattle.std.specs.Fmt.{decimal};
ghost use Rattle.hex.specs.Hex.{encode_lower};
ghost use Rattle.tlsf_calls.specs.Bytes.{bytes_of};
ghost use Rattle.tlsf_lines.specs.ReplyLines as spelled;
ghost use Rattle.tlsf_lines.specs.ReplyLines.{answer_part, call_part, label_part, labels_left, place_part, release_part, reply_line, reply_text};

use itoa::Buffer;
use std::alloc::AllocError;
use tlsf_calls::{Call, Chunk, Entry, Reply};
use tlsf_heap::{Name, Refusal};

// Adds a number in decimal digits. It stands apart, so that a single digit, which is written without it, saves no
// registers.
#[inline(never)]
fn write_long(text: &mut String, number: u64) -> Result<(), AllocError>
    ensures { OnOk result (string_bytes text.new ≡ string_bytes text.old ++ decimal number) }
{
    text.push_str(Buffer::new().format(number))
}

// Adds a number in decimal digits. A line has up to five, so each is written without the formatter's machinery.
#[inline(always)]
#[tactic(auto, using(std::proofs::lemmas::Fmt::decimal_digit))]
fn write_number(text: &mut String, number: u64) -> Result<(), AllocError>
    ensures { OnOk result (string_bytes text.new ≡ string_bytes text.old ++ decimal number) }
{
    // A worker has one digit, and so have most counts.
    if number < 10 {
        return text.push(char::from(b'0' + number as u8));
    }
    write_long(text, number)
}

// Adds the keyword of a call.
fn write_call(text: &mut String, call: Call) -> Result<(), AllocError>
    ensures { OnOk result (string_bytes text.new ≡ string_bytes text.old ++ call_part call) }
{
    match call {
        Call::Allocate { .. } => text.push_str(" a"),
        Call::Release { .. } => text.push_str(" f"),
        Call::Write { .. } => text.push_str(" p"),
        Call::Read { .. } => text.push_str(" g"),
        Call::Resize { .. } => text.push_str(" r"),
        Call::Take { from } => {
            text.push_str(" take ")?;
            write_number(text, u64::from(from))
        }
        Call::Drain { .. } => text.push_str(" d"),
    }
}

// Adds the label of a call that has one.
fn write_label(text: &mut String, label: Option<u32>) -> Result<(), AllocError>
    ensures { OnOk result (string_bytes text.new ≡ string_bytes text.old ++ label_part label) }
{
    match label {
        Some(label) => {
            text.push(' ')?;
            write_number(text, u64::from(label))
        }
        None => Ok(()),
    }
}

// Adds the place and the serial of a block.
fn write_place(text: &mut String, name: Name) -> Result<(), AllocError>
    ensures { OnOk result (string_bytes text.new ≡ string_bytes text.old ++ place_part name) }
{
    text.push_str(" at ")?;
    write_number(text, u64::from(name.at))?;
    text.push_str(" serial ")?;
    write_number(text, name.serial)
}

// Adds what became of a block whose post was taken.
fn write_release(text: &mut String, answer: Result<(), Refusal>) -> Result<(), AllocError>
    ensures { OnOk result (string_bytes text.new ≡ string_bytes text.old ++ release_part answer) }
{
    match answer {
        Ok(()) => text.push_str(" freed"),
        Err(refusal) => {
            text.push_str(" refused ")?;
            write_number(text, u64::from(refusal.number()))
        }
    }
}

// Adds bytes as hexadecimal digits.
fn write_bytes(text: &mut String, bytes: &Chunk) -> Result<(), AllocError>
    ensures { OnOk result (string_bytes text.new ≡ string_bytes text.old ++ codes " got " ++ encode_lower (bytes_of bytes.now)) }
{
    let bytes = bytes.as_slice();
    let mut digits = [0u8; 128];
    let digits = &mut digits[..2 * bytes.len()];
    let Ok(()) = hex::encode_to_slice(bytes, digits) else {
        unreachable!();
    };
    let Ok(payload) = str::from_utf8(digits) else {
        unreachable!();
    };
    text.push_str(" got ")?;
    text.push_str(payload)
}

// Adds what a worker was answered.
fn write_answer(text: &mut String, reply: &Reply) -> Result<(), AllocError>
    ensures { OnOk result (string_bytes text.new ≡ string_bytes text.old ++ answer_part reply.now) }
{
    match reply {
        Reply::Made(name) => write_place(text, *name),
        Reply::Freed => text.push_str(" freed"),
        Reply::Posted => text.push_str(" posted"),
        Reply::Wrote(n) => {
            text.push_str(" wrote ")?;
            write_number(text, u64::from(*n))
        }
        Reply::Got(bytes) => write_bytes(text, bytes),
        Reply::Resized => text.push_str(" resized"),
        Reply::Took(took) => {
            write_place(text, took.name)?;
            write_release(text, took.answer)
        }
        Reply::Empty => text.push_str(" empty"),
        Reply::Drained(taken) => {
            text.push_str(" drained ")?;
            write_number(text, u64::from(*taken))
        }
        Reply::Refused(refusal) => {
            text.push_str(" refused ")?;
            write_number(text, u64::from(refusal.number()))
        }
    }
}

// Adds the line of an entry, with its line feed.
fn write_line(text: &mut String, entry: &Entry, label: Option<u32>) -> Result<(), AllocError>
    ensures { OnOk result (string_bytes text.new ≡ string_bytes text.old ++ reply_line entry.now label) }
{
    write_number(text, u64::from(entry.worker))?;
    write_call(text, entry.call)?;
    write_label(text, label)?;
    write_answer(text, &entry.reply)?;
    text.push('\n')
}

/// Whether the call is that of a post which a drain took: it has no event, and so no label.
pub fn is_taken(call: Call) -> bool
    ensures { result ≡ spelled.is_taken call }
{
    matches!(call, Call::Take { .. })
}

// The first label, and those after it. Where none is left, it is `None`.
fn first_label(labels: &[Option<u32>]) -> (Option<u32>, &[Option<u32>])
    ensures first { result.0 ≡ slice_index_or labels.now 0 None }
    ensures rest { result.1.now ≡ drop 1 labels.now }
{
    match labels {
        [label, rest @ ..] => (*label, rest),
        [] => (None, &[]),
    }
}

/// Adds the lines of entries, where each but those of posts that a drain took has the label of the next event. A drain's label is
/// `None`, and so is that of an event after the last label. Answers the labels that are left.
///
/// ```
/// // entries: worker 0 was given the block at place 0 with serial 1; and it drained nothing
/// let left = write_replies(&mut text, &entries, &[Some(7), None])?;
/// // text has "0 a 7 at 0 serial 1\n0 d drained 0\n" more, and left is empty
/// ```
///
/// # Errors
///
/// Memory alone. Then `text` has some of the lines.
pub fn write_replies<'a>(
    text: &mut String,
    entries: &[Entry],
    labels: &'a [Option<u32>],
) -> Result<&'a [Option<u32>], AllocError>
    ensures text { OnOk result (string_bytes text.new ≡ string_bytes text.old ++ reply_text entries.now labels.now) }
    ensures left { IfOk result (λ left. left.now ≡ labels_left entries.now labels.now) }
{
    let mut left = labels;
    for entry in entries {
        if is_taken(entry.call) {
            write_line(text, entry, None)?;
        } else {
            // There is one such entry for each event, so a label is always left. No clause of the run says how many
            // entries there are, and so none is asked for here.
            let (label, rest) = first_label(left);
            write_line(text, entry, label)?;
            left = rest;
        }
    }
    Ok(left)
}
