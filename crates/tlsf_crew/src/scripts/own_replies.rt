//! Replies of a worker's own heap to the calls of a script. Both kinds of worker give them.
ghost use Rattle.std.specs.Prelude.{◌≡◌};
ghost use Rattle.tlsf_calls.specs.Bytes.{bytes_of};
ghost use Rattle.tlsf_crew.specs.worker.Calls.{by_heap};
ghost use Rattle.tlsf_crew.specs.model.Heaps.{chunk_read};
ghost use Rattle.tlsf_crew.specs.scripts.Scripts.{RepliesOwn};
ghost use Rattle.tlsf_crew.specs.worker.Workers.{heap_of, SameButHeap};
ghost use Rattle.tlsf_crew.specs.model.Targets.{target_name};
ghost use Rattle.tlsf_crew.specs.model.OwnReplies.{own_allocating, own_writing, own_reading, own_resizing};

use crate::worker::ports::Ports;
use crate::worker::worker::Worker;
use tlsf_calls::{Call, Chunk, CrewRefusal, Reply, Target};
use tlsf_heap::{Name, Refusal};

/// The name that the target of a call means, None where the call has no target or its target means none.
pub(crate) fn target_name(call: &Call, made: &[Option<Name>]) -> Option<Name>
    ensures { result ≡ target_name made.now call.now }
{
    match call {
        Call::Release { target }
        | Call::Write { target, .. }
        | Call::Read { target, .. }
        | Call::Resize { target, .. } => match target {
            Target::Named(name) => Some(*name),
            Target::Made(k) => {
                if (*k as usize) < made.len() {
                    return made[*k as usize];
                }
                None
            }
            Target::Absent => None,
        },
        Call::Allocate { .. } | Call::Take { .. } | Call::Drain { .. } => None,
    }
}

/// Allocates `len` bytes.
pub(crate) fn reply_to_own_allocate<const SLI: u32, P: Ports>(
    worker: &mut Worker<SLI, P>,
    len: u32,
) -> Reply
    ensures own { RepliesOwn worker.old worker.new result (own_allocating SLI (heap_of worker.old) len) }
    ensures yard { P.keeps_yards SLI worker.old worker.new }
{
    match worker.allocate(len) {
        Ok(name) => Reply::Made(name),
        Err(why) => Reply::Refused(why),
    }
}

/// Writes into the block that the target meant, from byte `from` of it on.
pub(crate) fn reply_to_own_write<const SLI: u32, P: Ports>(
    worker: &mut Worker<SLI, P>,
    name: Option<Name>,
    from: u32,
    bytes: &Chunk,
) -> Reply
    ensures { RepliesOwn worker.old worker.new result (own_writing (heap_of worker.old) name from (bytes_of bytes.now)) }
{
    let Some(name) = name else {
        return Reply::Refused(CrewRefusal::Unmade);
    };
    let list = bytes.as_slice();
    match worker.write(name, from, list) {
        Ok(()) => Reply::Wrote(list.len() as u32),
        Err(why) => Reply::Refused(why),
    }
}

/// Reads up to 64 bytes of a block. More are refused as `Range`, where the heap doesn't refuse the name.
fn read_own_chunk<const SLI: u32, P: Ports>(
    worker: &mut Worker<SLI, P>,
    name: Name,
    from: u32,
    n: u32,
) -> Result<Chunk, CrewRefusal>
    ensures answer { result ≡ by_heap (chunk_read (heap_of worker.old) name from n) }
    ensures heap { heap_of worker.new ≡ heap_of worker.old }
    ensures same { SameButHeap worker.old worker.new }
{
    let mut bytes = [0u8; 64];
    if n > 64 {
        // A read of no bytes: what the heap says of the name alone.
        return match worker.read(name, from, &mut bytes[..0]) {
            Ok(()) => Err(CrewRefusal::Heap(Refusal::Range)),
            Err(why) => Err(why),
        };
    }
    let out = &mut bytes[..n as usize];
    match worker.read(name, from, out) {
        Ok(()) => match Chunk::new(out) {
            Some(chunk) => Ok(chunk),
            // It can't come: `out` has no more bytes than a chunk holds.
            None => Err(CrewRefusal::Heap(Refusal::Range)),
        },
        Err(why) => Err(why),
    }
}

/// Reads `n` bytes of the block that the target meant, from byte `from` of it on. More than 64 are refused.
#[inline(always)]
pub(crate) fn reply_to_own_read<const SLI: u32, P: Ports>(
    worker: &mut Worker<SLI, P>,
    name: Option<Name>,
    from: u32,
    n: u32,
) -> Reply
    ensures { RepliesOwn worker.old worker.new result (own_reading (heap_of worker.old) name from n) }
{
    let Some(name) = name else {
        return Reply::Refused(CrewRefusal::Unmade);
    };
    match read_own_chunk(worker, name, from, n) {
        Ok(bytes) => Reply::Got(bytes),
        Err(why) => Reply::Refused(why),
    }
}

/// Resizes the block that the target meant, where it stands.
pub(crate) fn reply_to_own_resize<const SLI: u32, P: Ports>(
    worker: &mut Worker<SLI, P>,
    name: Option<Name>,
    len: u32,
) -> Reply
    ensures { RepliesOwn worker.old worker.new result (own_resizing (heap_of worker.old) name len) }
{
    let Some(name) = name else {
        return Reply::Refused(CrewRefusal::Unmade);
    };
    match worker.resize(name, len) {
        Ok(()) => Reply::Resized,
        Err(why) => Reply::Refused(why),
    }
}
