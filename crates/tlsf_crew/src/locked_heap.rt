ghost use Rattle.std.specs.Prelude.{◌≡◌, ◌↔◌, IsErrOf};
ghost use Rattle.std.specs.Sync.Mutex.{mutex_guard_value};
ghost use Rattle.tlsf_class.specs.Classes.{IsLevel};
ghost use Rattle.tlsf_heap.specs.Lawful.{IsRegion};
ghost use Rattle.tlsf_heap.specs.Calls.{last_tick};
ghost use Rattle.tlsf_heap.specs.ledger.Grants.{IsCounted};

use std::alloc::Global;
use std::sync::{Mutex, MutexGuard, Wait};
use tlsf_heap::{Counts, Ledgered, OpenFault};

/// A heap that counts the allocates and the releases that it accepts: what the lock of a [`LockedHeap`] keeps.
pub type Counted<const SLI: u32> = Ledgered<SLI, Counts>;

/// A heap without an owner, outside any yard: any thread that has a reference to it may lock it.
#[derive(Drop)]
pub struct LockedHeap<const SLI: u32> {
    counted: Mutex<Counted<SLI>>,
}

impl<const SLI: u32> LockedHeap<SLI> {
    /// Opens a heap of number `id` over `words` words of 8 bytes, stamped with the tick `first`. Nothing of it was granted.
    ///
    /// Refused as `Heap::open` refuses: `BadSize` where `words` is below 4, or above 2^20 at level 4 and 2^24 at level 5. Otherwise
    /// `Worn` where `first` is the last tick, 2^64 - 1, and otherwise `NoMemory` where the memory was not granted. No later call
    /// takes memory.
    ///
    /// ```
    /// let heap = LockedHeap::<4>::new(alloc, 0, 1024, 0)?; // heap 0, 1024 words, first tick 0
    /// assert_eq!(LockedHeap::<4>::new(alloc, 0, 3, 0).err(), Some(OpenFault::BadSize));
    /// ```
    pub fn new(alloc: Global, id: u32, words: u32, first: u64) -> Result<LockedHeap<SLI>, OpenFault>
        requires { IsLevel SLI }
        ensures bad_size { IsErrOf result OpenFault.BadSize ↔ ¬ (IsRegion SLI words) }
        ensures worn { IsRegion SLI words → (IsErrOf result OpenFault.Worn ↔ (first ≡ last_tick)) }
    {
        let counted = Counted::open(alloc, id, words, first)?;
        Ok(LockedHeap {
            counted: Mutex::new(counted),
        })
    }

    /// Waits until no other guard has the heap, and gives a guard that has it until it is dropped. It is never refused.
    ///
    /// The caller then knows that the heap is lawful and that its live blocks are the grants less the returns. It knows no more,
    /// since other threads may have called the heap since this one last had it. The guard lends a [`Counted`].
    ///
    /// ```
    /// let name = heap.lock(&rt).allocate(100)?; // has the lock for this one call
    /// let mut guard = heap.lock(&rt); // has it until `guard` is dropped
    /// guard.write(name, 0, &[1, 2])?;
    /// guard.release(name)?;
    /// ```
    pub fn lock<R: Wait>(&self, rt: &R) -> MutexGuard<'_, Counted<SLI>>
        ensures counted { IsCounted (mutex_guard_value result) }
    {
        let guard = self.counted.lock(rt);

        // A lock says of what it keeps only that it is a `Counted`. Any call on it tells the proof what its type promises,
        // which is the clause; this one is the cheapest.
        let _ = guard.grants();
        guard
    }
}
