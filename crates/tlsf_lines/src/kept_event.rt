ghost use Rattle.std.specs.Prelude.{ℕ, ◌≡◌, ◌≢◌, List, ◌∷◌, ◌++◌, [], length, IfOk, OnErr, OnOk};
ghost use Rattle.tlsf_lines.specs.Events.{events_in, made_by, maker_used};
ghost use Rattle.tlsf_lines.specs.KeptEvents.{Grows, IsWithin, event_kept};
ghost use Rattle.tlsf_lines.specs.declared.line.Line.{Line as ALine};
ghost use Rattle.tlsf_lines.specs.declared.line.Line.TheVariants.{Phase};

use crate::line::Line;
use std::alloc::AllocError;
use tlsf_calls::{Call, Chunk, Event, Target};

/// An event of a trace as it is kept, in 24 bytes where an [`Event`] has 120. The bytes of all writes stand in one list.
#[derive(Clone, Copy)]
pub struct KeptEvent {
    pub worker: u32,
    pub call: KeptCall,
}

/// A call as it is kept. `made` is the number of the event that makes the block, None where none does.
#[derive(Clone, Copy)]
pub enum KeptCall {
    Allocate {
        len: u32,
    },
    Release {
        made: Option<u32>,
    },
    /// The bytes are those at `place` of the list.
    Write {
        made: Option<u32>,
        at: u32,
        place: u32,
    },
    Read {
        made: Option<u32>,
        at: u32,
        n: u32,
    },
    Resize {
        made: Option<u32>,
        len: u32,
    },
    Drain {
        most: u32,
    },
}

// Adds the bytes of a write to those of the writes so far, and answers their place.
#[inline(always)]
fn keep_bytes(chunks: &mut Vec<Chunk>, bytes: Chunk) -> Result<u32, AllocError>
    ensures place { IfOk result (λ place. place ≡ length chunks.old.items) }
    ensures ok { OnOk result (chunks.new.items ≡ chunks.old.items ++ bytes ∷ []) }
    ensures err { OnErr result (chunks.new.items ≡ chunks.old.items) }
{
    // No memory holds more than a place can name.
    let Ok(place) = u32::try_from(chunks.len()) else {
        return Err(AllocError);
    };
    chunks.push(bytes)?;
    Ok(place)
}

/// The event of a line as it is kept. `chunks` has the bytes of the writes so far, and event `made` made the label that the line
/// uses.
#[inline(always)]
pub fn keep(
    chunks: &mut Vec<Chunk>,
    line: &Line,
    made: Option<u32>,
) -> Result<KeptEvent, AllocError>
    requires { line.now ≢ Phase }
    ensures grows { Grows chunks.old.items chunks.new.items }
    ensures event { (workers : ℕ) (before : List ALine) → made ≡ maker_used workers before line.now
        → IfOk result (λ kept. event_kept chunks.new.items kept ∷ [] ≡ events_in workers before line.now) }
    ensures within { IfOk result (IsWithin (length chunks.new.items)) }
{
    let (worker, call) = match *line {
        Line::Allocate { worker, len, .. } => (worker, KeptCall::Allocate { len }),
        Line::Release { worker, .. } => (worker, KeptCall::Release { made }),
        Line::Write {
            worker,
            at,
            bytes,
            ..
        } => {
            let place = keep_bytes(chunks, bytes)?;
            (worker, KeptCall::Write { made, at, place })
        }
        Line::Read { worker, at, n, .. } => (worker, KeptCall::Read { made, at, n }),
        Line::Resize { worker, len, .. } => (worker, KeptCall::Resize { made, len }),
        Line::Drain { worker, most } => (worker, KeptCall::Drain { most }),
        Line::Phase => unreachable!(),
    };
    Ok(KeptEvent { worker, call })
}

// The block that the event of this number makes.
#[inline]
fn target_of(made: Option<u32>) -> Target
    ensures { result ≡ made_by made }
{
    match made {
        Some(event) => Target::Made(event),
        None => Target::Absent,
    }
}

// Adds an event to a list.
#[inline(always)]
fn add_event(events: &mut Vec<Event>, worker: u32, call: Call) -> Result<(), AllocError>
    ensures { OnOk result (events.new.items ≡ events.old.items ++ record { worker = worker; call = call } ∷ []) }
{
    events.push(Event { worker, call })?;
    Ok(())
}

/// Adds the event that is kept in this way. `chunks` has the bytes of the writes. Each case adds its own, so that no event is
/// copied twice.
#[inline(always)]
pub fn add_kept(
    events: &mut Vec<Event>,
    kept: &KeptEvent,
    chunks: &[Chunk],
) -> Result<(), AllocError>
    requires { IsWithin (length chunks.now) kept.now }
    ensures { OnOk result (events.new.items ≡ events.old.items ++ event_kept chunks.now kept.now ∷ []) }
{
    let worker = kept.worker;
    match kept.call {
        KeptCall::Allocate { len } => add_event(events, worker, Call::Allocate { len }),
        KeptCall::Release { made } => {
            let target = target_of(made);
            add_event(events, worker, Call::Release { target })
        }
        KeptCall::Write { made, at, place } => {
            let target = target_of(made);
            let bytes = chunks[place as usize];
            add_event(events, worker, Call::Write { target, at, bytes })
        }
        KeptCall::Read { made, at, n } => {
            let target = target_of(made);
            add_event(events, worker, Call::Read { target, at, n })
        }
        KeptCall::Resize { made, len } => {
            let target = target_of(made);
            add_event(events, worker, Call::Resize { target, len })
        }
        KeptCall::Drain { most } => add_event(events, worker, Call::Drain { most }),
    }
}
