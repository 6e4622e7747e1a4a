ghost use Rattle.std.specs.Prelude.{ℕ, List, Option};
ghost use Rattle.tlsf_command.specs.ClassLines.{IsSize};
ghost use Rattle.tlsf_command.specs.ClassQuestions.{HasClasses};
ghost use Rattle.tlsf_command.specs.Runs.{streams, AnswersClasses, ShowsClasses};

use crate::class_line::{write_class_line, write_no_class_line};
use crate::class_question::ClassQuestion;
use crate::commands::report;
use std::io::Write;
use tlsf_trace::TraceFault;

// Writes the line on a size of `words`, and reports a write that fails.
fn show_classes<const SLI: u32, W: Write, E: Write>(
    words: u32,
    writer: &mut W,
    errors: &mut E,
) -> u8
    requires { IsSize SLI words }
    ensures { (left : Option (List ℕ)) → ShowsClasses SLI words result
        (streams left (W.contents writer.old) (E.contents errors.old))
        (streams left (W.contents writer.new) (E.contents errors.new)) }
{
    match write_class_line::<SLI, W>(words, writer) {
        Ok(()) => 0,
        Err(fault) => report(TraceFault::from(fault), errors),
    }
}

/// Answers the question, and gives the exit status: 0 where the line is written, 1 where a write failed. It is 2 where no class of
/// the level has that many words.
///
/// ```
/// let status = run_classes(ClassQuestion::Fine(460), &mut writer, &mut errors);
/// ```
pub fn run_classes<W: Write, E: Write>(
    question: ClassQuestion,
    writer: &mut W,
    errors: &mut E,
) -> u8
    requires { HasClasses question }
    ensures { (left : Option (List ℕ)) → AnswersClasses question result
        (streams left (W.contents writer.old) (E.contents errors.old))
        (streams left (W.contents writer.new) (E.contents errors.new)) }
{
    match question {
        ClassQuestion::Coarse(words) => show_classes::<4, W, E>(words, writer, errors),
        ClassQuestion::Fine(words) => show_classes::<5, W, E>(words, writer, errors),
        ClassQuestion::NoClass => {
            let _ = write_no_class_line(errors);
            2
        }
    }
}
