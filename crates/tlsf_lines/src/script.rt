ghost use Rattle.std.specs.Prelude.{ℕ, ◌≡◌, ◌≢◌, ◌+◌, ◌^◌, ◌<◌, List, [], ◌∷◌, ◌++◌, replicate, None, OnOk};
ghost use Rattle.tlsf_lines.specs.Events.{events_by, events_in, last_drains, maker_used};
ghost use Rattle.tlsf_lines.specs.Lines.{label_in};
ghost use Rattle.tlsf_lines.specs.ScriptSoFar.{Adds, IsSameBut, IsScript};
ghost use Rattle.tlsf_lines.specs.Trace.{Trace as ATrace};
ghost use Rattle.tlsf_lines.specs.declared.line.Line.{Line as ALine};
ghost use Rattle.tlsf_lines.specs.declared.line.Line.TheVariants.{Phase};

use crate::header::Header;
use crate::kept_events::KeptEvents;
use crate::line::Line;
use crate::parsing::FromLines;
use crate::request::Request;
use std::alloc::{AllocError, Global};
use tlsf_calls::MOST_DRAINED;

/// The request of a trace: its header, the events that its lines stand for, and the label of each, where it has one.
///
/// [`script_in`](crate::script_in) makes it, and [`write_replies`](crate::write_replies) takes its labels.
///
/// ```
/// let script = script_in(alloc, b"tlsf 1 1 64 4\na 0 7 8\n")?;
/// // script.events: worker 0 allocates 8 bytes, and drains; script.labels: Some(7), None; script.calls: 1; script.ends: 1
/// ```
#[derive(Drop)]
pub struct Script {
    /// The first line.
    pub header: Header,
    /// The calls of the lines, in their order; where a phase ends, and at the end, a drain of each worker.
    pub events: KeptEvents,
    /// The label of each event, 0 to 65535; a drain has none.
    pub labels: Vec<Option<u32>>,
    /// How many lines are calls of a worker, 0 to 32,767.
    pub calls: u32,
    /// How many events there are up to each line after the header, those of the line included.
    pub ends: Vec<usize>,
    /// The block that each line behind the header asks for, None where it asks for none.
    pub requests: Vec<Option<Request>>,
}

impl Script {
    /// How many events there are up to a line of the text, whose header is line 1. After the last line these are all, with the
    /// drains at the end.
    ///
    /// ```
    /// let script = script_in(alloc, b"tlsf 1 1 64 4\na 0 7 8\n")?;
    /// // script.events_by(1) is 0, script.events_by(2) is 1, and script.events_by(3) is 2
    /// ```
    pub fn events_by(&self, line: u32) -> usize
        ensures { (trace : ATrace) → IsScript self.now trace → result ≡ events_by line trace }
    {
        let before = (line as usize).saturating_sub(1);
        if before > self.ends.len() {
            self.events.len()
        } else if before == 0 {
            0
        } else {
            self.ends[before - 1]
        }
    }

    // Adds the events of a line. This event made the label that it uses.
    fn add_events(&mut self, line: &Line, made: Option<u32>) -> Result<(), AllocError>
        requires { self.old.calls + 1 < 2 ^ 32 }
        ensures { (before : List ALine) → made ≡ maker_used self.old.header.workers before line.now
            → OnOk result (Adds self.old.header.workers before line.now self.old self.new) }
    {
        if let Line::Phase = line {
            self.drain_all()?;
            return Ok(());
        }
        self.calls += 1;
        self.push(line, made)?;
        Ok(())
    }

    // Adds a drain of each worker.
    fn drain_all(&mut self) -> Result<(), AllocError>
        ensures events { OnOk result (self.new.events ≡ self.old.events ++ last_drains self.old.header.workers) }
        ensures labels { OnOk result (self.new.labels.items ≡ self.old.labels.items ++ replicate self.old.header.workers None) }
        ensures same { IsSameBut self.old self.new }
    {
        for worker in 0..self.header.workers {
            let most = MOST_DRAINED;
            self.push(&Line::Drain { worker, most }, None)?;
        }
        Ok(())
    }

    // Adds the event of a line that is a call, and its label.
    #[inline(always)]
    fn push(&mut self, line: &Line, made: Option<u32>) -> Result<(), AllocError>
        requires { line.now ≢ Phase }
        ensures events { (workers : ℕ) (before : List ALine) → made ≡ maker_used workers before line.now
            → OnOk result (self.new.events ≡ self.old.events ++ events_in workers before line.now) }
        ensures labels { OnOk result (self.new.labels.items ≡ self.old.labels.items ++ label_in line.now ∷ []) }
        ensures same { IsSameBut self.old self.new }
    {
        self.events.push(line, made)?;
        self.labels.push(line.label())?;
        Ok(())
    }
}

impl FromLines for Script {
    ghost use Rattle.std.specs.Prelude.{◌≡◌};
    ghost use Rattle.tlsf_lines.specs.ScriptSoFar.{Holds, IsScript};

    ghost has = { λ script header before lines. (script.header ≡ header) × Holds header.workers before lines script };

    ghost is_of = { λ script trace. IsScript script trace };

    fn begin(alloc: Global, header: Header, room: usize) -> Result<Script, AllocError> {
        Ok(Script {
            header,
            events: KeptEvents::with_capacity(alloc, room)?,
            labels: Vec::with_capacity(alloc, room)?,
            calls: 0,
            ends: Vec::with_capacity(alloc, room)?,
            requests: Vec::with_capacity(alloc, room)?,
        })
    }

    fn add(&mut self, line: &Line, made: Option<u32>) -> Result<(), AllocError> {
        self.add_events(line, made)?;
        self.ends.push(self.events.len())?;
        self.requests.push(line.request())?;
        Ok(())
    }

    fn end(&mut self) -> Result<(), AllocError> {
        self.drain_all()?;
        Ok(())
    }
}
