ghost use Rattle.std.specs.Prelude.{◌≡◌, ◌<◌, List, IfOk};
ghost use Rattle.tlsf_lines.specs.Events.{maker_used};
ghost use Rattle.tlsf_lines.specs.LabelMemory.{Recalls, Remembers};
ghost use Rattle.tlsf_lines.specs.Trace.{judged_line};
ghost use Rattle.tlsf_lines.specs.Views.{line_found};
ghost use Rattle.tlsf_lines.specs.declared.line.Line.{Line as ALine};

use crate::fields::{cut_feed, cut_field};
use crate::keyword::keyword_of;
use crate::labels::Labels;
use crate::line_fault::LineFault;
use crate::reading::parse_fields;
use crate::request::Request;
use tlsf_calls::Chunk;

/// A line of a trace after its header: one call that a worker makes, or the end of a phase. A worker is less than the header's
/// number of workers, and a label at most 65535. Fields `len` and `at` are bytes of a payload, at most 4294967295.
///
/// ```
/// // "a 0 1 8\n" is Line::Allocate { worker: 0, label: 1, len: 8 }
/// ```
#[derive(Clone, Copy)]
pub enum Line {
    /// `a w L len`: the worker allocates `len` bytes and makes the label.
    Allocate {
        worker: u32,
        label: u32,
        len: u32,
    },
    /// `f w L`: the worker releases the block of the label.
    Release {
        worker: u32,
        label: u32,
    },
    /// `p w L at HEX`: the worker writes 1 to 64 bytes at byte `at` of the block.
    Write {
        worker: u32,
        label: u32,
        at: u32,
        bytes: Chunk,
    },
    /// `g w L at n`: the worker reads `n` bytes, 1 to 64, at byte `at` of the block.
    Read {
        worker: u32,
        label: u32,
        at: u32,
        n: u32,
    },
    /// `r w L len`: the worker resizes the block to `len` bytes, where it stands.
    Resize {
        worker: u32,
        label: u32,
        len: u32,
    },
    /// `d w n`: the worker drains at most `n` posts, 1 to 8192.
    Drain {
        worker: u32,
        most: u32,
    },
    /// `phase`: a phase ends.
    Phase,
}

impl Line {
    ghost use Rattle.std.specs.Prelude.{◌≡◌};
    ghost use Rattle.tlsf_lines.specs.Events;
    ghost use Rattle.tlsf_lines.specs.Lines;
    ghost use Rattle.tlsf_lines.specs.Phases;

    /// Whether the line is a call of a worker, and not the end of a phase.
    pub(crate) fn is_call(&self) -> bool
        ensures { result ≡ Lines.is_call self.now }
    {
        !matches!(self, Line::Phase)
    }

    /// How many events the line stands for: the end of a phase is a drain of each worker.
    pub(crate) fn width(&self, workers: u32) -> u32
        ensures { result ≡ Events.width_of workers self.now }
    {
        if self.is_call() { 1 } else { workers }
    }

    /// The block that the line asks for: an allocate asks for one, and no other line does.
    pub(crate) fn request(&self) -> Option<Request>
        ensures { result ≡ Lines.request_in self.now }
    {
        match *self {
            Line::Allocate { worker, len, .. } => Some(Request { worker, len }),
            _ => None,
        }
    }

    /// Whether the line is a call of this worker.
    pub(crate) fn is_of(&self, caller: u32) -> bool
        ensures { result ≡ Phases.is_line_of caller self.now }
    {
        match self {
            Line::Phase => false,
            Line::Allocate { worker, .. }
            | Line::Release { worker, .. }
            | Line::Write { worker, .. }
            | Line::Read { worker, .. }
            | Line::Resize { worker, .. }
            | Line::Drain { worker, .. } => *worker == caller,
        }
    }

    /// The label that the line makes or uses; a drain and the end of a phase have none.
    pub(crate) fn label(&self) -> Option<u32>
        ensures { result ≡ Lines.label_in self.now }
    {
        match self {
            Line::Allocate { label, .. }
            | Line::Release { label, .. }
            | Line::Write { label, .. }
            | Line::Read { label, .. }
            | Line::Resize { label, .. } => Some(*label),
            Line::Drain { .. } | Line::Phase => None,
        }
    }
}

/// The line that a piece says, judged behind the lines that the labels remember, and the event that made the label that it uses.
pub fn judge_line(
    workers: u32,
    labels: &Labels,
    piece: &[u8],
) -> Result<(Line, Option<u32>), LineFault>
    requires { 0 < workers }
    ensures line { (before : List ALine) → Remembers labels.now before
        → judged_line workers before piece.now ≡ line_found result }
    ensures made { (before : List ALine) → Recalls workers labels.now before
        → IfOk result (λ found. found.1 ≡ maker_used workers before found.0) }
{
    let Some(line) = cut_feed(piece) else {
        return Err(LineFault::BadLine);
    };
    let (first, fields) = cut_field(line);
    let Some(keyword) = keyword_of(first) else {
        return Err(LineFault::BadLine);
    };
    let Some(said) = parse_fields(workers, keyword, fields) else {
        return Err(LineFault::BadLine);
    };
    let Some(line) = said else {
        return Err(LineFault::BadNumber);
    };
    match labels.judge(&line) {
        Some(made) => Ok((line, made)),
        None => Err(LineFault::LabelOrder),
    }
}
