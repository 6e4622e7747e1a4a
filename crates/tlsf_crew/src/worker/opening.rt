//! The sizes of a yard, and what opening any yard takes.
ghost use Rattle.std.specs.Prelude.{◌≡◌, None, replicate, IfOk, OnOk};
ghost use Rattle.tlsf_class.specs.Classes.{IsLevel};
ghost use Rattle.tlsf_heap.specs.Calls.{opened};
ghost use Rattle.tlsf_heap.specs.Lawful.{IsRegion};
ghost use Rattle.tlsf_crew.specs.worker.Sizes.{AreSizes, RefusesSizes};
ghost use Rattle.tlsf_crew.specs.worker.Workers.{heap_of, id_of};

use crate::worker::worker::Worker;
use std::alloc::Global;
use tlsf_class::most_words;
use tlsf_heap::{Heap, OpenFault};
use tlsf_post::NoMemory;

// The most workers of a yard.
pub(crate) const MOST_WORKERS: u32 = 8;

// The most posts that a lane, or the queue of an owner, holds.
pub(crate) const MOST_CAPACITY: u32 = 1024;

/// Refuses a yard of numbers out of their ranges.
pub(crate) fn check_sizes<const SLI: u32>(
    n: u32,
    words: u32,
    capacity: u32,
) -> Result<(), OpenFault>
    requires { IsLevel SLI }
    ensures sizes { OnOk result (AreSizes SLI n words capacity) }
    ensures refused { RefusesSizes SLI n words capacity result }
{
    if n < 1
        || n > MOST_WORKERS
        || words < 4
        || words > most_words::<SLI>()
        || capacity < 1
        || capacity > MOST_CAPACITY
    {
        return Err(OpenFault::BadSize);
    }
    Ok(())
}

/// Opens a worker over these ports.
pub(crate) fn open_worker<const SLI: u32, P: Drop>(
    alloc: Global,
    id: u32,
    words: u32,
    ports: P,
) -> Result<Worker<SLI, P>, NoMemory>
    requires level { IsLevel SLI }
    requires region { IsRegion SLI words }
    ensures heap { IfOk result (λ worker. heap_of worker ≡ opened id words 0) }
    ensures numbers { IfOk result (λ worker. (id_of worker ≡ id) × (worker.ports ≡ ports)) }
{
    match Heap::open(alloc, id, words, 0) {
        Ok(heap) => Ok(Worker { heap, id, ports }),
        // The words are in range and the tick is 0, so a refusal is a want of memory.
        Err(_) => Err(NoMemory),
    }
}

/// Slots for the ends of `n` lanes or queues.
pub(crate) fn no_ends<E: Drop>(alloc: Global, n: u32) -> Result<Vec<Option<E>>, NoMemory>
    ensures { IfOk result (λ ends. ends.items ≡ replicate n None) }
{
    let mut ends = Vec::with_capacity(alloc, n as usize)?;
    while ends.len() < n as usize {
        ends.push_reserved(None);
    }
    Ok(ends)
}
