//! The lines of a trace: what is read, checked whole, and the reply lines that tell what a run answered.
//!
//! A trace is a header, `tlsf 1 N W C` or `tlsf 2 N W C`, and then lines, each with its line feed:
//!
//! | Line | Says |
//! |---|---|
//! | `a w L len` | worker w allocates len bytes and makes label L |
//! | `f w L` | worker w releases the block of label L |
//! | `p w L at HEX` | worker w writes the bytes at byte `at` of the block |
//! | `g w L at n` | worker w reads n bytes at byte `at` of the block |
//! | `r w L len` | worker w resizes the block of label L to len bytes, where it stands |
//! | `d w n` | worker w drains at most n posts |
//! | `phase` | a phase ends |
//!
//! [`read_all`] reads a text, and [`read_counted`] shows besides how its reads went. [`script_in`] turns it into the events of a
//! replay, and [`trace_in`] into the lines of a race. Each answers the first fault of a text that spells no trace.
//! [`write_replies`] writes what the events were answered, and [`write_out`] hands a text on. No worker stands here: who runs the
//! events is `tlsf_trace`.
//!
//! Who tells more of a faulty line reads it by the same steps. [`cut_piece`] and [`cut_feed`] cut a line off a text, and
//! [`cut_field`] its fields. [`header_in`], [`keyword_of`], [`digits_in`] and [`chunk_in`] say what a line or a field spells.
//!
//! Contracts see the trace that a text spells, or its first fault, as `trace_of`, its events as `events_of`, and reply lines
//! as `reply_text`.
#![tactic(auto)]

mod by_label;
mod fields;
mod header;
mod input;
mod kept_event;
mod kept_events;
mod keyword;
mod kind;
mod labels;
mod last_read;
mod laws;
mod learning;
mod limit;
mod line;
mod line_fault;
mod maker;
mod names;
mod numbers;
mod parse_error;
mod parsing;
mod payload;
mod phases;
mod pieces;
mod read_count;
mod read_error;
mod reading;
mod records;
mod reply_lines;
mod request;
mod script;
mod sink;
mod texts;
mod trace;
mod trace_fault;
mod version;

pub use fields::{cut_feed, cut_field};
pub use header::{Header, header_in};
pub use input::{read_all, read_counted};
pub use kept_events::KeptEvents;
pub use keyword::{Keyword, keyword_of};
pub use kind::{Kind, kinds_behind};
pub use last_read::LastRead;
pub use laws::{first_fault, pieces_join};
pub use limit::Limit;
pub use line::Line;
pub use names::Names;
pub use numbers::digits_in;
pub use payload::chunk_in;
pub use phases::{PhaseScripts, cut_phase};
pub use pieces::cut_piece;
pub use read_count::{MOST_READS, ReadCount};
pub use read_error::ReadError;
pub use records::write_phase;
pub use reply_lines::write_replies;
pub use request::Request;
pub use script::Script;
pub use sink::{WriteError, write_out};
pub use texts::{script_in, trace_in};
pub use trace::Trace;
pub use trace_fault::TraceFault;
pub use version::Version;
