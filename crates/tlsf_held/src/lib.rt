//! The demands of a recorded trace on its heaps, so that it leads to a heap that never lacks room.
//!
//! [`measure_trace`] reads a trace, runs it to its end as a replay does, and writes one line for each worker. It has the most
//! blocks of its heap that were held at once, and the longest request. It has the words of the region in which such calls are never
//! refused for want of room. Beside these it has the words that the trace gives each heap and the most words that the held blocks
//! wanted at once. No reply line is written.
//!
//! [`measure_kinds`] writes for each worker the table of the kinds of blocks that it held, as options of `tlsf size`.
//!
//! [`measure_merged_kinds`] merges neighbouring kinds of that table, so that a few pools have the fewest words.
//!
//! [`measure_least`] finds by replays for each worker the least words of heaps in which none of its requests lacks room.
//!
//! Blocks are held as the law for a heap of a yard counts them (`tlsf_yard_laws::yard_never_refuses`). They are the accepted
//! allocates of the heap's own worker less the releases that its heap accepted, at once or in a drain. So a block that another
//! worker has released is held until its owner drains.
//!
//! Contracts see the trace that a text spells and the answers of its run by the definitions of `tlsf_trace` and `tlsf_crew`.
//! `Measures` of `specs/Measures.antt` joins them with the laws: the numbers of a line are the least bounds within which the
//! worker's calls keep.
#![tactic(auto)]

mod band;
mod divisions;
mod kind_lines;
mod laws;
mod least;
mod least_row;
mod least_run;
mod lines;
mod loans;
mod measuring;
mod merging;
mod row;
mod rows;
mod steps;
mod tally;

pub use laws::{held_kinds_suffice, held_pools_suffice, held_words_suffice};
pub use least_run::measure_least;
pub use measuring::{measure_kinds, measure_merged_kinds, measure_trace};
