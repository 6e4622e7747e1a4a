ghost use Rattle.std.specs.Prelude.{◌≡◌, ◌++◌, ℕ, List, [], ◌∷◌, Option, map, string_bytes};
ghost use Rattle.clap.specs.Words.{kind_of};
ghost use Rattle.tlsf_command.specs.FaultLines.{fault_line, status_of_fault};
ghost use Rattle.tlsf_command.specs.CommandLine.{arguments_of, IsAnswerable, IsPlainWord};
ghost use Rattle.tlsf_command.specs.Runs as told;
ghost use Rattle.tlsf_command.specs.Runs.{puts_of, streams, status_of, ChecksNote, Does, Ends, IsNote, Reports, RunsAs, RunsBy, RunsOrLacksMemory, ShowsAnswer, TipsOrLacksMemory};
ghost use Rattle.tlsf_command.specs.declared.trace_run.TraceRun.{TraceRun};
ghost use Rattle.tlsf_held.specs.Measures.{TellsMerged};
ghost use Rattle.tlsf_lines.specs.Prefixes.{AppendsFront};
ghost use Rattle.tlsf_picture.specs.Drawn.{DrawsAt};
ghost use Rattle.tlsf_trace.specs.Replay.{IsRun};

use crate::class_run::run_classes;
use crate::command_line::{Choice, choose};
use crate::fault_report::FaultReport;
use crate::size_run::run_size;
use crate::trace_run::TraceRun;
use crate::usage::{TABLES_TIP, file_for_command, give_tables, without_passing_tip};
use clap::error::ErrorKind;
use std::alloc::Global;
use std::convert::AsStr;
use std::io::{Read, Write};
use std::marker::Sync;
use std::sync::Wait;
use std::thread::Threads;
use tlsf_crew::Gate;
use tlsf_diagnosis::{NUMBER_TIP, diagnose_trace, have_marked_number};
use tlsf_held::{measure_kinds, measure_least, measure_merged_kinds, measure_trace};
use tlsf_picture::{
    Form, draw_trace, draw_trace_as_page, draw_trace_as_text, draw_trace_at, draw_trace_at_worst,
    plot_trace,
};
use tlsf_trace::{
    Summary, TraceFault, WriteError, race_trace, race_trace_over_queues, replay, write_out,
};

// Reports the fault, and gives its exit status, which a fault in writing does not change.
pub(crate) fn report<E: Write>(fault: TraceFault, errors: &mut E) -> u8
    ensures status { result ≡ status_of_fault fault }
    ensures line { AppendsFront (E.contents errors.old) (E.contents errors.new) (fault_line fault) }
{
    let report = FaultReport { fault };
    let _ = report.write_to(errors);
    report.status()
}

// Writes the line that reports the fault, and the notes on it after that.
fn write_noted<E: Write>(report: FaultReport, note: &str, errors: &mut E) -> Result<(), WriteError>
    ensures { AppendsFront (E.contents errors.old) (E.contents errors.new) (fault_line report.fault ++ note.now) }
{
    report.write_to(errors)?;
    write_out(errors, note.as_bytes())
}

// Reports the fault with what is noted of it, and gives its exit status, which a fault in writing does not change.
fn report_noted<E: Write>(fault: TraceFault, note: &str, errors: &mut E) -> u8
    ensures status { result ≡ status_of_fault fault }
    ensures lines { AppendsFront (E.contents errors.old) (E.contents errors.new) (fault_line fault ++ note.now) }
{
    let report = FaultReport { fault };
    let _ = write_noted(report, note, errors);
    report.status()
}

// The exit status of a run of a trace by its answer. Reports the fault that ended it, if one did.
fn ended<E: Write>(answer: Result<Summary, TraceFault>, note: &str, errors: &mut E) -> u8
    ensures status { result ≡ status_of answer }
    ensures reported { Reports answer note.now (E.contents errors.old) (E.contents errors.new) }
{
    match answer {
        Ok(_) => 0,
        Err(fault) => report_noted(fault, note, errors),
    }
}

// The notes on an answer of a run that doesn't check the trace. Where that has a fault and tips are wanted, they are the tip to
// check it.
fn tip_on(tips: bool, answer: &Result<Summary, TraceFault>) -> &'static str
    ensures { result.now ≡ told.tip_on tips answer.now }
{
    match answer {
        Err(fault) if tips => FaultReport { fault: *fault }.check_tip(),
        _ => "",
    }
}

// The notes on an answer of a run, where a check noted this.
fn note_on<'a>(
    ran: TraceRun,
    tips: bool,
    answer: &Result<Summary, TraceFault>,
    note: &'a str,
) -> &'a str
    ensures { (text : Option (List ℕ)) → ChecksNote ran text answer.now note.entry.now → IsNote tips ran text answer.now result.now }
{
    match ran {
        TraceRun::Check => note,
        _ => tip_on(tips, answer),
    }
}

// Runs the trace that the reader gives. Where that is to check it, what explains a fault is noted.
fn traced<T: Threads + Wait + Sync, R: Read, W: Write, G: Gate>(
    rt: &T,
    alloc: Global,
    run: TraceRun,
    reader: &mut R,
    writer: &mut W,
    gate: &G,
    note: &mut String,
) -> Result<Summary, TraceFault>
    requires { string_bytes note.old ≡ [] }
    ensures ran { IsRun (puts_of run) result (R.remaining reader.old) (R.remaining reader.new)
        (W.contents writer.old) (W.contents writer.new) }
    ensures noted { ChecksNote run (R.remaining reader.old) result (string_bytes note.new) }
{
    match run {
        TraceRun::Replay => replay(alloc, reader, writer),
        TraceRun::Held => measure_trace(alloc, reader, writer),
        TraceRun::HeldKinds => measure_kinds(alloc, reader, writer),
        TraceRun::Least => measure_least(alloc, reader, writer, gate),
        TraceRun::Race => race_trace(rt, alloc, reader, writer, gate),
        TraceRun::RaceQueues => race_trace_over_queues(rt, alloc, reader, writer, gate),
        TraceRun::Map(Form::Svg) => draw_trace(alloc, reader, writer),
        TraceRun::Map(Form::Text) => draw_trace_as_text(alloc, reader, writer),
        TraceRun::MapHtml => draw_trace_as_page(alloc, reader, writer),
        TraceRun::MapWorst(form) => draw_trace_at_worst(alloc, form, reader, writer),
        TraceRun::Plot(form) => plot_trace(alloc, form, reader, writer),
        TraceRun::Check => diagnose_trace(alloc, reader, writer, note),
    }
}

// Runs it, and reports the fault that ended it.
fn run_trace<T: Threads + Wait + Sync, R: Read, W: Write, E: Write, G: Gate>(
    rt: &T,
    alloc: Global,
    run: TraceRun,
    reader: &mut R,
    writer: &mut W,
    errors: &mut E,
    gate: &G,
    tips: bool,
) -> u8
    ensures { RunsAs tips run result
        (streams (R.remaining reader.old) (W.contents writer.old) (E.contents errors.old))
        (streams (R.remaining reader.new) (W.contents writer.new) (E.contents errors.new)) }
{
    let mut note = String::new(alloc);
    let answer = traced(rt, alloc, run, reader, writer, gate, &mut note);
    let noted = note_on(run, tips, &answer, &note);
    ended(answer, noted, errors)
}

// Draws the heaps of the trace after a line, and reports the fault that ended it.
fn run_at<R: Read, W: Write, E: Write>(
    alloc: Global,
    form: Form,
    line: u32,
    reader: &mut R,
    writer: &mut W,
    errors: &mut E,
    tips: bool,
) -> u8
    ensures { RunsBy tips (DrawsAt form line) result
        (streams (R.remaining reader.old) (W.contents writer.old) (E.contents errors.old))
        (streams (R.remaining reader.new) (W.contents writer.new) (E.contents errors.new)) }
{
    let answer = draw_trace_at(alloc, form, line, reader, writer);
    let tip = tip_on(tips, &answer);
    ended(answer, tip, errors)
}

// Writes the kinds of blocks of the trace, merged for this many heaps, and reports the fault that ended it.
fn run_merged<R: Read, W: Write, E: Write>(
    alloc: Global,
    heaps: u32,
    reader: &mut R,
    writer: &mut W,
    errors: &mut E,
    tips: bool,
) -> u8
    ensures { RunsBy tips (TellsMerged heaps) result
        (streams (R.remaining reader.old) (W.contents writer.old) (E.contents errors.old))
        (streams (R.remaining reader.new) (W.contents writer.new) (E.contents errors.new)) }
{
    let answer = measure_merged_kinds(alloc, heaps, reader, writer);
    let hint = tip_on(tips, &answer);
    ended(answer, hint, errors)
}

// Refuses the words by this line, as that which says how a trace is read from a file. A write that fails changes nothing.
fn tell<E: Write>(tip: &str, errors: &mut E) -> u8
    ensures status { result ≡ 2 }
    ensures line { AppendsFront (E.contents errors.old) (E.contents errors.new) tip.now }
{
    let _ = write_out(errors, tip.as_bytes());
    2
}

// Writes the text of `clap`, and flushes.
fn show<W: Write>(error: &clap::Error, writer: &mut W) -> Result<(), WriteError> {
    let written = write!(writer, "{error}").and_then(|()| writer.flush());
    written.map_err(|_| WriteError)
}

// Writes what `clap` says of the words that it refuses, without its tip to pass an option as a value.
fn show_usage<E: Write>(
    alloc: Global,
    error: &clap::Error,
    errors: &mut E,
) -> Result<(), WriteError> {
    let usage = format!(in alloc; "{error}").and_then(|text| without_passing_tip(alloc, &text));
    match usage {
        Ok(text) => write_out(errors, text.as_bytes()),
        Err(_) => show(error, errors),
    }
}

// The tip on a file in the place of a command. None is made where no file stands there, or memory runs out.
fn file_tip<S: AsStr>(alloc: Global, kind: ErrorKind, words: &[S]) -> Option<String> {
    match (kind, file_for_command(words)) {
        (ErrorKind::InvalidSubcommand, Some(file)) => TraceRun::Replay.tip(alloc, 0, file).ok(),
        _ => None,
    }
}

// Says why `clap` refuses the words. Where a file stands in the place of a command, that is the tip that `replay` has for it. A tip
// says how numbers are written, where that is one with a suffix or separators. Another says how the lines of several workers are
// given to `size`, where these are given at once.
fn refuse<S: AsStr, E: Write>(
    alloc: Global,
    error: &clap::Error,
    words: &[S],
    errors: &mut E,
) -> Result<(), WriteError> {
    if let Some(tip) = file_tip(alloc, error.kind(), words) {
        return write_out(errors, tip.as_bytes());
    }
    show_usage(alloc, error, errors)?;
    match error.kind() {
        ErrorKind::ValueValidation if have_marked_number(words) => {
            write_out(errors, NUMBER_TIP.as_bytes())
        }
        ErrorKind::ArgumentConflict if give_tables(words) => {
            write_out(errors, TABLES_TIP.as_bytes())
        }
        _ => Ok(()),
    }
}

// Shows what `clap` has to say of these words, and gives the exit status.
fn answer<S: AsStr, W: Write, E: Write>(
    alloc: Global,
    error: &clap::Error,
    words: &[S],
    writer: &mut W,
    errors: &mut E,
) -> u8
    ensures { (left : Option (List ℕ)) → ShowsAnswer (kind_of error.now) result
        (streams left (W.contents writer.old) (E.contents errors.old))
        (streams left (W.contents writer.new) (E.contents errors.new)) }
{
    match error.kind() {
        ErrorKind::OutOfMemory => report(TraceFault::NO_MEMORY, errors),
        ErrorKind::DisplayHelp | ErrorKind::DisplayVersion => match show(error, writer) {
            Ok(()) => 0,
            Err(fault) => report(TraceFault::from(fault), errors),
        },
        _ => {
            let _ = refuse(alloc, error, words, errors);
            2
        }
    }
}

// Does what was chosen, and gives the exit status.
fn act<T: Threads + Wait + Sync, R: Read, W: Write, E: Write, G: Gate>(
    rt: &T,
    alloc: Global,
    choice: Choice,
    reader: &mut R,
    writer: &mut W,
    errors: &mut E,
    gate: &G,
    tips: bool,
) -> u8
    requires { IsAnswerable choice }
    ensures { Does tips choice result
        (streams (R.remaining reader.old) (W.contents writer.old) (E.contents errors.old))
        (streams (R.remaining reader.new) (W.contents writer.new) (E.contents errors.new)) }
{
    match choice {
        Choice::Trace(run) => run_trace(rt, alloc, run, reader, writer, errors, gate, tips),
        Choice::File(_, tip) => tell(&tip, errors),
        Choice::Classes(question) => run_classes(question, writer, errors),
        Choice::Size(question) => run_size(question, writer, errors),
        Choice::At(form, line) => run_at(alloc, form, line, reader, writer, errors, tips),
        Choice::Heaps(heaps) => run_merged(alloc, heaps, reader, writer, errors, tips),
        Choice::Excluded(rivals) => tell(rivals.line(), errors),
    }
}

/// Runs the program on the words of its command line, its name first, and gives the exit status.
/// Only `tlsf race` starts threads, by `rt`; they pass `gate` before each call and once after the
/// last one of a phase. `tlsf replay --least` passes it before each replay of its search. There a
/// [`Notice`](tlsf_trace::Notice) shows that the race or the search is alive.
///
/// The status is 0 where the run is done, and 1 where a fault ended it. It is 2 where the words are refused, and 3 where memory ran
/// out. A fault's line and the text on refused words go to `errors`, where a write that fails changes nothing. Help and version
/// texts go to `writer`.
///
/// `check` explains a fault after its line. By any other command a fault is that line alone, unless `tips` is true, as for a reader
/// at a terminal. Then a tip names `tlsf check`, where the trace itself is faulty. After a refused number with a suffix or
/// separators, as `64KiB` or `1,000`, a line says that numbers are plain digits. After the lines of several workers, given to
/// `size` at once, one says how they are given one at a time.
///
/// ```
/// // words are "tlsf" and "replay", and reader gives "tlsf 1 1 64 1\nx\n"
/// let status = run(rt, alloc, &words, &mut reader, &mut writer, &mut errors, &OpenGate, false);
/// // status is 1, and errors holds "tlsf: line 2: bad line (12)\n"
/// ```
pub fn run<T: Threads + Wait + Sync, S: AsStr, R: Read, W: Write, E: Write, G: Gate>(
    rt: &T,
    alloc: Global,
    words: &[S],
    reader: &mut R,
    writer: &mut W,
    errors: &mut E,
    gate: &G,
    tips: bool,
) -> u8
    ensures ends { Ends tips (map S.text words.now) result
        (streams (R.remaining reader.old) (W.contents writer.old) (E.contents errors.old))
        (streams (R.remaining reader.new) (W.contents writer.new) (E.contents errors.new)) }

    // Where the words are the program's name, whatever that is, and those that ask for a run of a trace.
    ensures trace { (program : List ℕ) (run : TraceRun) → map S.text words.now ≡ program ∷ arguments_of run
        → RunsOrLacksMemory tips run result
        (streams (R.remaining reader.old) (W.contents writer.old) (E.contents errors.old))
        (streams (R.remaining reader.new) (W.contents writer.new) (E.contents errors.new)) }

    // Where a word behind these names a file, and begins with no hyphen: nothing is read or written, and the tip is reported.
    ensures file { (program file : List ℕ) (run : TraceRun) → IsPlainWord file
        → map S.text words.now ≡ program ∷ (arguments_of run ++ file ∷ [])
        → TipsOrLacksMemory run file result
        (streams (R.remaining reader.old) (W.contents writer.old) (E.contents errors.old))
        (streams (R.remaining reader.new) (W.contents writer.new) (E.contents errors.new)) }
{
    match choose(alloc, words) {
        Ok(choice) => act(rt, alloc, choice, reader, writer, errors, gate, tips),
        Err(error) => answer(alloc, &error, words, writer, errors),
    }
}
