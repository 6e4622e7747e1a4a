//! The program `tlsf`: it runs a trace on a yard of workers and writes the reply lines, and shows size classes.
//!
//! `tlsf replay` reads a trace from standard input, runs it, and writes the reply lines and a report on each heap to standard
//! output. The whole trace is read and checked before a line runs, and the whole text is made before a byte is written. `tlsf race`
//! does so with each phase run in threads, one for each worker. `tlsf map` writes a picture of the heaps that a trace leaves, with
//! `--text` in the characters of a terminal. `tlsf plot` writes a plot of them over its lines. `tlsf check` says what a trace is,
//! or where its first fault is and what was expected there. A file that is named after one of these isn't read: a line says how it
//! is given as standard input. `tlsf classes N` writes the size class and the search class of N words, and `tlsf size` the words of
//! a region that never refuses. `tlsf --help` and `tlsf --version` say the rest. [`tlsf_command::run`] does its work on words and
//! streams; `main` gives it those of the process.
//!
//! | Exit status | When |
//! |---|---|
//! | 0 | the run is done, or the class line, the size line, the help or the version text is written |
//! | 1 | a fault of the trace, a read or a write ended the run; its line is on standard error |
//! | 2 | the words of the command line are refused; the usage, or one line that says why, is on standard error |
//! | 3 | memory ran out; the line `tlsf: out of memory (6)` is on standard error |
//!
//! A fault is its line alone on standard error, and what `tlsf check` explains. Where that is a terminal, a tip may follow. Then a
//! long race or search of `tlsf replay --least` says about every ten seconds that it still runs. A write to standard error that
//! fails changes nothing.
#![tactic(auto)]

use std::alloc::{AllocError, Global};
use std::env::Args;
use std::io::IsTerminal;
use std::process::ExitCode;
use std::{env, io};
use tlsf_command::{FaultReport, run};
use tlsf_trace::{Notice, TraceFault};

// The words of the command line. Where `collect` lacks memory it asks again, for less: here a growth that is refused is told.
fn words_of(alloc: Global, args: Args) -> Result<Vec<String>, AllocError> {
    let mut words = Vec::with_capacity(alloc, args.len())?;
    for word in args {
        words.push(word)?;
    }
    Ok(words)
}

// Reports that the words of the command line can't be had: memory ran out, or one is no text.
fn refuse(rt: &impl Eprint, error: &io::Error) -> u8 {
    if error.kind() == io::ErrorKind::OutOfMemory {
        let report = FaultReport {
            fault: TraceFault::NO_MEMORY,
        };
        let _ = eprintln!(rt; "tlsf: {report}");
        report.status()
    } else {
        let _ = eprintln!(rt; "error: the arguments can't be read: {error}");
        2
    }
}

// The words of a notice on a long run: `replay --least` searches, and otherwise it is a race.
fn doing(words: &[String]) -> &'static str {
    if words.iter().any(|word| word.as_str() == "--least") {
        "searching"
    } else {
        "racing"
    }
}

fn main(rt: HostRuntime) -> ExitCode {
    let args = env::args(&rt).and_then(|args| Ok(words_of(rt.alloc(), args)?));
    let status = match args {
        Ok(words) => {
            let mut reader = rt.reader();
            let mut writer = io::writer(&rt);
            let mut errors = rt.stderr();
            let is_terminal = errors.is_terminal();
            run(
                &rt,
                rt.alloc(),
                &words,
                &mut reader,
                &mut writer,
                &mut errors,
                &Notice::new(&rt, doing(&words), is_terminal),
                is_terminal,
            )
        }
        Err(error) => refuse(&rt, &error),
    };
    ExitCode::from(status)
}
