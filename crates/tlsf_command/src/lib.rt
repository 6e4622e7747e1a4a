//! The commands of the program over values: words of the command line, a reader, a writer, an error stream; and the exit
//! status.
//!
//! [`run`] does what the words ask for. `replay` reads a trace, runs it, and writes the reply lines and a report on each heap.
//! `replay --held` writes what each worker asks of its heap, and how large that must be for it. `replay --kinds` writes the kinds
//! of blocks that it holds, as options of `size`, with `--heaps N` merged for N pools. `replay --least` writes how small its heap
//! may be for these calls alone. `race` replays with each phase run in threads, one for each worker. `map` writes a picture of the
//! heaps that a trace leaves. `check` says what a trace is, or where its first fault is and what was expected there. A file that is
//! named after one of these isn't read: a line tells how it is given as standard input. `classes N` writes the size class and the
//! search class of N words. `size --blocks B --bytes N ..` writes the words of a region that never refuses B blocks of N bytes, for
//! each of several kinds. With `--split` it writes those of the heaps to which the kinds are given for the fewest words. All are at
//! level 4 or, with `--level 5`, at level 5. Help and version texts are written, and words that are refused are answered on the
//! error stream.
//!
//! | Exit status | When |
//! |---|---|
//! | 0 | the run is done, or the class line, the size line, the picture, the help or the version text is written |
//! | 1 | a fault of the trace, a read or a write ended the run; its line is on the error stream |
//! | 2 | the words of the command line are refused, and the usage is on the error stream; or a file is named, two options exclude each other, a size has no class of its level, no region is large enough or the options make no kinds, and that line is there |
//! | 3 | memory ran out; the line `tlsf: out of memory (6)` is on the error stream |
//!
//! Where tips are wanted, one names `tlsf check` after the line of a fault in the trace itself. After a refused number with a suffix or
//! separators a line says how numbers are written. A write to the error stream that fails changes nothing. [`FaultReport`] is the line of a
//! fault, and its status.
#![tactic(auto)]

mod arguments;
mod class_line;
mod class_question;
mod class_run;
mod command_line;
mod commands;
mod fault_report;
mod finer_hint;
mod help;
mod quantity;
mod quotes;
mod region_size;
mod rivals;
mod run_number;
mod size_line;
mod size_question;
mod size_run;
mod split_hint;
mod split_lines;
mod trace_run;
mod unreached_table;
mod usage;

pub use commands::run;
pub use fault_report::FaultReport;

/// The version of the program, which `tlsf --version` writes.
pub const VERSION: &str = "0.29.0";
