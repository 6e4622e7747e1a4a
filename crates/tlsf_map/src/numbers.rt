//! The numbers of a heap's report, in words.

use std::alloc::AllocError;
use tlsf_heap::Report;

/// The name of one, or that of many.
pub fn plural(count: u64, one: &'static str, many: &'static str) -> &'static str {
    if count == 1 { one } else { many }
}

// Adds a number of something.
fn write_amount(
    text: &mut String,
    count: u64,
    one: &'static str,
    many: &'static str,
) -> Result<(), AllocError> {
    let name = plural(count, one, many);
    write!(text, "{count} {name}")
}

/// Adds all of them, with a text between what the live blocks are, what the free ones are, and how these lie.
pub fn write_numbers(text: &mut String, report: &Report, between: &str) -> Result<(), AllocError> {
    text.push_str("live ")?;
    write_amount(text, u64::from(report.live_blocks), "block", "blocks")?;
    text.push_str(", ")?;
    write_amount(text, u64::from(report.live_words), "word", "words")?;
    text.push_str(", ")?;
    write_amount(text, u64::from(report.live_bytes), "byte", "bytes")?;
    text.push_str("; waste ")?;
    write_amount(text, u64::from(report.waste), "byte", "bytes")?;
    write!(text, "{between}free ")?;
    write_amount(text, u64::from(report.free_blocks), "block", "blocks")?;
    text.push_str(", ")?;
    write_amount(text, u64::from(report.free_words), "word", "words")?;
    text.push_str("; largest ")?;
    write_amount(text, u64::from(report.largest), "word", "words")?;
    text.push_str(", grant ")?;
    write_amount(text, u64::from(report.grant), "byte", "bytes")?;
    let fragmentation = report.fragmentation;
    write!(text, "{between}fragmentation {fragmentation}/1000; age ")?;
    write_amount(text, report.age, "tick", "ticks")
}
