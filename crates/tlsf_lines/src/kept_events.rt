ghost use Rattle.std.specs.Prelude.{ℕ, ◌≡◌, ◌≢◌, ◌+◌, ◌≤◌, ◌++◌, List, [], length, take, drop, IfOk, OnOk};
ghost use Rattle.tlsf_lines.specs.Events.{events_in, maker_used};
ghost use Rattle.tlsf_lines.specs.declared.line.Line.{Line as ALine};
ghost use Rattle.tlsf_lines.specs.declared.line.Line.TheVariants.{Phase};

use crate::kept_event::{KeptEvent, add_kept, keep};
use crate::line::Line;
use std::alloc::{AllocError, Global};
use std::marker::Model;
use tlsf_calls::{Chunk, Event};

/// The events of a trace, in 24 bytes each and 72 more for the bytes of a write, where an [`Event`] has 120. A contract sees
/// the list of the events, and a run makes them part by part.
///
/// ```
/// let events = &script_in(alloc, b"tlsf 1 1 64 4\na 0 7 8\n")?.events;
/// let mut part = Vec::new(alloc);
/// events.add_part(0, events.len(), &mut part)?;
/// // part: worker 0 allocates 8 bytes, and drains
/// ```
#[derive(Drop)]
pub struct KeptEvents {
    kept: Vec<KeptEvent>,
    // The bytes of the writes, in their order.
    chunks: Vec<Chunk>,
}

impl Model for KeptEvents {
    ghost use Rattle.std.specs.Prelude.{List, All, length, map};
    ghost use Rattle.tlsf_calls.specs.declared.event.Event.{Event as AnEvent};
    ghost use Rattle.tlsf_lines.specs.KeptEvents.{IsWithin, event_kept};

    ghost Value = { List AnEvent };

    ghost view = { λ events. map (event_kept events.chunks.items) events.kept.items };

    ghost invariant = { λ events. All (IsWithin (length events.chunks.items)) events.kept.items };
}

impl KeptEvents {
    /// No event, with room for `room` of them.
    pub(crate) fn with_capacity(alloc: Global, room: usize) -> Result<KeptEvents, AllocError>
        ensures { IfOk result (λ events. events ≡ []) }
    {
        Ok(KeptEvents {
            kept: Vec::with_capacity(alloc, room)?,
            chunks: Vec::new(alloc),
        })
    }

    /// How many there are.
    pub fn len(&self) -> usize
        ensures { result ≡ length self.now }
    {
        self.kept.len()
    }

    /// Adds `n` of them, from number `first` on, to a list.
    pub fn add_part(&self, first: usize, n: usize, part: &mut Vec<Event>) -> Result<(), AllocError>
        requires { first + n ≤ length self.now }
        ensures { OnOk result (part.new.items ≡ part.old.items ++ take n (drop first self.now)) }
    {
        let chunks: &[Chunk] = &self.chunks;
        let kept: &[KeptEvent] = &self.kept[first..first + n];
        for event in kept {
            add_kept(part, event, chunks)?;
        }
        Ok(())
    }

    /// Adds the event of a line that is a call, where this event made the label that the line uses.
    #[inline(always)]
    pub(crate) fn push(&mut self, line: &Line, made: Option<u32>) -> Result<(), AllocError>
        requires { line.now ≢ Phase }
        ensures { (workers : ℕ) (before : List ALine) → made ≡ maker_used workers before line.now
            → OnOk result (self.new ≡ self.old ++ events_in workers before line.now) }
    {
        let kept = keep(&mut self.chunks, line, made)?;
        self.kept.push(kept)?;
        Ok(())
    }
}
