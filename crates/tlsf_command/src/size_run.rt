ghost use Rattle.std.specs.Prelude.{◌≤◌, ◌<◌, ℕ, List, Option, length};
ghost use Rattle.tlsf_class.specs.Classes.{IsLevel};
ghost use Rattle.tlsf_command.specs.Runs.{streams, ReportsUnreached, ShowsHeaps, ShowsKinds, ShowsSize};
ghost use Rattle.tlsf_command.specs.SizeLines.{AreKinds, AreUnreached};
ghost use Rattle.tlsf_command.specs.SizeQuestions.{HasKinds, HasTable};
ghost use Rattle.tlsf_pool.specs.sizes.Limits.{most_kinds};

use crate::commands::report;
use crate::size_line::{words_for, write_size_line, write_unreached_line};
use crate::size_question::SizeQuestion;
use crate::split_lines::{split_of, write_falling_line, write_no_split_line, write_split_lines};
use crate::unreached_table::{write_unpaired_line, write_unreached_table_line};
use std::io::Write;
use tlsf_pool::{Kind, falling_row};
use tlsf_trace::TraceFault;

// Reports that no region reaches so far. A write that fails changes nothing.
fn report_unreached<const SLI: u32, E: Write>(kinds: &[Kind], errors: &mut E)
    requires { AreUnreached SLI kinds.now }
    ensures { ReportsUnreached SLI kinds.now (E.contents errors.old) (E.contents errors.new) }
{
    if kinds.len() == 1 {
        let _ = write_unreached_line::<SLI, E>(kinds[0], errors);
    } else {
        let _ = write_unreached_table_line::<SLI, E>(kinds, errors);
    }
}

// Writes the line on a region for these kinds, and reports a write that fails, or that no region is large enough.
fn show_kinds<const SLI: u32, W: Write, E: Write>(
    kinds: &[Kind],
    writer: &mut W,
    errors: &mut E,
) -> u8
    requires kinds { AreKinds SLI kinds.now }
    requires some { 0 < length kinds.now }
    requires pairs { length kinds.now ≤ most_kinds 5 }
    ensures { (left : Option (List ℕ)) → ShowsKinds SLI kinds.now result
        (streams left (W.contents writer.old) (E.contents errors.old))
        (streams left (W.contents writer.new) (E.contents errors.new)) }
{
    match words_for::<SLI>(kinds) {
        Some(words) => match write_size_line::<SLI, W>(kinds, words, writer) {
            Ok(()) => 0,
            Err(fault) => report(TraceFault::from(fault), errors),
        },
        None => {
            report_unreached::<SLI, E>(kinds, errors);
            2
        }
    }
}

// Writes the lines on the cheapest split of these kinds. Reports a write that fails, a kind no longer than the one before it, or
// that there is none.
fn show_split<const SLI: u32, W: Write, E: Write>(
    kinds: &[Kind],
    writer: &mut W,
    errors: &mut E,
) -> u8
    requires level { IsLevel SLI }
    requires kinds { HasKinds kinds.now }
    ensures { (left : Option (List ℕ)) → ShowsHeaps SLI kinds.now result
        (streams left (W.contents writer.old) (E.contents errors.old))
        (streams left (W.contents writer.new) (E.contents errors.new)) }
{
    if let Some(row) = falling_row(kinds) {
        let _ = write_falling_line(kinds, row, errors);
        return 2;
    }
    match split_of::<SLI>(kinds) {
        Some(split) => match write_split_lines::<SLI, W>(kinds, &split, writer) {
            Ok(()) => 0,
            Err(fault) => report(TraceFault::from(fault), errors),
        },
        None => {
            let _ = write_no_split_line(errors);
            2
        }
    }
}

/// Answers the question, and gives the exit status: 0 where the line is written, and 1 where a write failed. It is 2 where no
/// region is large enough, where kinds for several heaps don't rise in length, or where the options are no pairs.
///
/// ```
/// let status = run_size(question, &mut writer, &mut errors);
/// ```
pub fn run_size<W: Write, E: Write>(question: SizeQuestion, writer: &mut W, errors: &mut E) -> u8
    requires { HasTable question }
    ensures { (left : Option (List ℕ)) → ShowsSize question result
        (streams left (W.contents writer.old) (E.contents errors.old))
        (streams left (W.contents writer.new) (E.contents errors.new)) }
{
    match question {
        SizeQuestion::Table(kinds) => show_kinds::<4, W, E>(&kinds, writer, errors),
        SizeQuestion::FineTable(kinds) => show_kinds::<5, W, E>(&kinds, writer, errors),
        SizeQuestion::Split(kinds) => show_split::<4, W, E>(&kinds, writer, errors),
        SizeQuestion::FineSplit(kinds) => show_split::<5, W, E>(&kinds, writer, errors),
        SizeQuestion::Unpaired(blocks, bytes) => {
            let _ = write_unpaired_line(blocks, bytes, errors);
            2
        }
    }
}
