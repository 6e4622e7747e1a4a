use crate::header::Header;
use crate::line::Line;
use crate::parsing::FromLines;
use std::alloc::{AllocError, Global};

/// A trace that is raced: what a text asks of a yard of workers, line by line.
///
/// [`trace_in`](crate::trace_in) makes it, and [`cut_phase`](crate::cut_phase) cuts its lines.
///
/// ```
/// let trace = trace_in(alloc, b"tlsf 1 1 64 4\na 0 7 8\nphase\n")?;
/// // trace.lines has two lines, and trace.count_calls() is 1
/// ```
#[derive(Drop)]
pub struct Trace {
    /// The first line.
    pub header: Header,
    /// The other lines, in their order.
    pub lines: Vec<Line>,
}

impl Trace {
    ghost use Rattle.std.specs.Prelude.{◌≡◌};
    ghost use Rattle.tlsf_lines.specs.Trace.{calls_of};
    ghost use Rattle.tlsf_lines.specs.Views.{view_trace};

    /// How many lines are calls of a worker: each but `phase`.
    ///
    /// ```
    /// // of the lines "a 0 7 8", "phase", "f 0 7" two are calls
    /// let calls = trace.count_calls();
    /// ```
    pub fn count_calls(&self) -> usize
        ensures { result ≡ calls_of (view_trace self.now) }
    {
        self.lines.iter().filter(|line| line.is_call()).count()
    }
}

impl FromLines for Trace {
    ghost use Rattle.std.specs.Prelude.{◌≡◌};
    ghost use Rattle.tlsf_lines.specs.Views.{view_trace};

    ghost has = { λ trace header before lines. view_trace trace ≡ record { header = header; lines = lines } };

    ghost is_of = { λ trace spelled. view_trace trace ≡ spelled };

    fn begin(alloc: Global, header: Header, room: usize) -> Result<Trace, AllocError> {
        Ok(Trace {
            header,
            lines: Vec::with_capacity(alloc, room)?,
        })
    }

    fn add(&mut self, line: &Line, _made: Option<u32>) -> Result<(), AllocError> {
        self.lines.push(*line)?;
        Ok(())
    }

    fn end(&mut self) -> Result<(), AllocError> {
        Ok(())
    }
}
