//! The faults of a trace, told so that they can be mended.
//!
//! [`diagnose_trace`] reads a trace and checks it. Of a good one it writes a line that counts its workers, calls and phases. Of a
//! faulty one it answers the fault of a replay. It notes the line as it stands with a mark under the byte, which field it is, and
//! what was expected there. Of a trace that is too long it notes the limit that it passes.
//!
//! [`field_of_fault`] finds the field of a text's fault, and [`explain`] makes the note. Both read a line by the steps of `tlsf_lines`: what a
//! word, a number and payload bytes are is told there alone. [`have_marked_number`] says whether the words of a command line want the tip
//! on numbers, [`NUMBER_TIP`], which a note has too.
//!
//! Contracts see the fault of a text as `fault_of` of `tlsf_lines`, its field as `IsFoundIn` of `specs/FieldFaults.antt`, and the limit as
//! `NotesLimit` of `specs/PassedLimits.antt`. They see the rows that show the line, with the mark below, as `ShowsField` of
//! `specs/Shown.antt`. By `NamesField` of `specs/Notes.antt` the words are printable. Tests show that they are the right ones. The tip
//! on numbers follows them if and only if `wants_tip` of `specs/Tips.antt` says so.
#![tactic(auto)]

mod count_line;
mod diagnosing;
mod field_spots;
mod findings;
mod judge;
mod labels;
mod limit;
mod line_view;
mod notes;
mod number_tip;
mod spot;

pub use diagnosing::diagnose_trace;
pub use field_spots::field_of_fault;
pub use notes::explain;
pub use number_tip::{NUMBER_TIP, have_marked_number};
