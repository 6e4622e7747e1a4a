//! Pictures of the heaps that a trace leaves, and plots of them over its lines.
//!
//! [`draw_trace`] reads a trace, runs it to its end, and writes a picture of each heap, one below the other, as an SVG file.
//! [`draw_trace_as_text`] does so in the characters of a terminal, and [`draw_trace_at`] draws the heaps as they stand after a
//! line. No reply line is written. Each block of a heap is drawn once, in the order of the places, and a live one with the label
//! whose line made it.
//!
//! [`plot_trace`] plots each heap over the lines of a trace, in either form. A point is the report on the heap after a line; of a
//! long trace several lines are one point, the worst of each number. [`draw_trace_at_worst`] draws the heaps after the line that the
//! plot names (`specs/plots/Worst.antt`).
//!
//! Contracts see the trace that a text spells and the world that it leaves by the definitions of `tlsf_trace`. A picture is drawn
//! from a table of each heap, `IsMapBy` of `specs/Drawn.antt`, or from the points of each, `point_at` of `specs/plots/Points.antt`.
//! `DrawsAt`, `DrawsPage` and `Plots` say what the text tells of them; no clause says how it looks.
#![tactic(auto)]

mod block_labels;
mod drawing;
mod form;
mod mapping;
mod naming;
mod page_drawing;
mod plots;

pub use drawing::{draw_trace, draw_trace_as_text, draw_trace_at};
pub use form::Form;
pub use page_drawing::draw_trace_as_page;
pub use plots::plotting::plot_trace;
pub use plots::worst::draw_trace_at_worst;
