//! Traces: the text of a run on a yard of workers, checked whole before a line runs.
//!
//! [`replay`] reads a trace, runs it line by line and writes its answers. [`race_trace`] runs each phase in threads, one for each
//! worker, and [`race_trace_over_queues`] does so over queues. A [`Player`] runs a trace line by line, and [`play`] writes what is
//! made of that. The lines of a trace, and those of its replies, are `tlsf_lines`'. Here they are run, and the heaps that they
//! leave are told in report lines.
//!
//! Contracts see the trace that a text spells, or its first fault, as `trace_of`, and what it asks for as `AsksFor`.
//! [`write_out`] writes a text by its known bytes. A [`Notice`] shows that a long run is alive.
#![tactic(auto)]

mod laws;
mod notice;
mod output;
mod player;
mod playing;
mod race_output;
mod raced_yard;
mod report_lines;
mod stages;
mod summary;

pub use laws::{
    one_history_of_a_raced_trace, one_history_of_a_trace_raced_over_queues,
    trace_without_drains_gives_one_text, trace_without_drains_gives_one_text_over_queues,
};
pub use notice::Notice;
pub use player::Player;
pub use playing::{Plays, Puts, play};
pub use stages::{finish, race_trace, race_trace_over_queues, replay};
pub use summary::Summary;
pub use tlsf_lines::{TraceFault, WriteError, first_fault, pieces_join, write_out};
