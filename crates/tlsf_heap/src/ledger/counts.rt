ghost use Rattle.std.specs.Prelude.{◌≡◌, ◌+◌, ◌≤◌, ◌↔◌, IfOk, IsErrOf, ⊤};
ghost use Rattle.tlsf_class.specs.Classes.{IsLevel};
ghost use Rattle.tlsf_heap.specs.Blocks;
ghost use Rattle.tlsf_heap.specs.Calls.{opened, last_tick};
ghost use Rattle.tlsf_heap.specs.Lawful.{IsRegion};
ghost use Rattle.tlsf_heap.specs.Touched.{resize_touches};
ghost use Rattle.tlsf_heap.specs.ledger.Grants.{AreCounts, IsCounted, TellsFit};
ghost use Rattle.tlsf_heap.specs.ledger.Ledgers.{NotesNothing};
ghost use Rattle.tlsf_heap.specs.Effects.{Resizes, seen_by};

use crate::heap::{Heap, want};
use crate::ledger::Ledger;
use crate::ledger::ledgered::Ledgered;
use crate::name::Name;
use crate::open_fault::OpenFault;
use crate::refusal::Refusal;
use std::alloc::Global;
use std::marker::Model;

/// How many allocates and how many releases a heap accepted.
///
/// Its live blocks are always the grants less the returns. Both together stay below the heap's tick, so neither number overflows.
#[derive(Drop)]
pub struct Counts {
    grants: u64,
    returns: u64,
}

impl Model for Counts {
    ghost use Rattle.tlsf_heap.specs.ledger.Grants.{GrantCount};

    ghost Value = { GrantCount };

    ghost view = { λ c. record { grants = c.grants; returns = c.returns } };
}

impl<const SLI: u32> Ledger<SLI> for Counts {
    type Why = Refusal;

    type Place = ();

    type Seen = ();

    ghost holds = { λ sli h c. AreCounts h c };

    ghost answered = { λ c len answer. answer };

    ghost admits = { λ c len. ⊤ };

    ghost takes = { λ sli c len. Blocks.want len };

    ghost places = { λ c len place. ⊤ };

    ghost tells = { λ sli h c len answer. TellsFit sli h len answer };

    ghost reports = { λ c report. report.live_blocks + c.returns ≡ c.grants };

    ghost given = { λ c len d. d ≡ record c { grants = c.grants + 1 } };

    ghost returned = { λ c len d. d ≡ record c { returns = c.returns + 1 } };

    ghost same_limits = { λ c d. ⊤ };

    ghost sees = { λ h name seen. ⊤ };

    ghost look_touches = { 0 };

    fn admit(&self, _len: u32) -> Result<(), Refusal> {
        Ok(())
    }

    fn words(&self, len: u32) -> u32 {
        want(len)
    }

    fn refused(&self, _len: u32, why: Refusal) -> Refusal {
        why
    }

    fn give(&mut self, _len: u32, _place: ()) {
        self.grants += 1;
    }

    fn look(_heap: &mut Heap<SLI>, _name: Name) -> Result<(), Refusal> {
        Ok(())
    }

    fn take_back(&mut self, _seen: ()) {
        // Read for its range: no more may be returned than were granted.
        let _grants = self.grants;
        self.returns += 1;
    }

    fn laws() {}
}

impl<const SLI: u32> Ledgered<SLI, Counts> {
    /// Opens a heap of number `id` over `words` words of 8 bytes, stamped with the tick `first`. Nothing of it was granted.
    ///
    /// Refused as `Heap::open` refuses: `BadSize` where `words` is below 4, or above 2^20 at level 4 and 2^24 at level 5. Otherwise
    /// `Worn` where `first` is the last tick, 2^64 - 1, and otherwise `NoMemory` where the memory was not granted.
    ///
    /// ```text
    /// let mut heap = Ledgered::<4, Counts>::open(alloc, 0, 1024, 0)?;     // heap 0: 8 KiB, of which nothing was granted
    /// ```
    pub fn open(
        alloc: Global,
        id: u32,
        words: u32,
        first: u64,
    ) -> Result<Ledgered<SLI, Counts>, OpenFault>
        requires { IsLevel SLI }
        ensures heap { IfOk result (λ c. c.heap ≡ opened id words first) }
        ensures none { IfOk result (λ c. (c.ledger.grants ≡ 0) × (c.ledger.returns ≡ 0)) }
        ensures bad_size { IsErrOf result OpenFault.BadSize ↔ ¬ (IsRegion SLI words) }
        ensures worn { IsRegion SLI words → (IsErrOf result OpenFault.Worn ↔ (first ≡ last_tick)) }
        ensures touches { IfOk result (λ c. c.touches ≤ 10) }
    {
        let heap = Heap::open(alloc, id, words, first)?;
        Ok(Ledgered::new(
            heap,
            Counts {
                grants: 0,
                returns: 0,
            },
        ))
    }

    /// Makes the payload of the block of that name `len` bytes long, where the block stands. The name stays live, the bytes up to
    /// the smaller length stay, and new ones are zero. It is counted neither as a grant nor as a return.
    ///
    /// Refused as `Heap::resize` refuses: `Foreign` where the name is of another heap, otherwise `Stale` where no live block has
    /// that place and serial. Otherwise it is `NoRoom` where the block and a free one after it have fewer words than wanted.
    /// Otherwise it is `Worn` where the tick is at its last value. Nothing changes then. Takes no memory.
    ///
    /// ```
    /// let name = heap.allocate(8)?;
    /// heap.resize(name, 100)?; // the same block, with 100 bytes
    /// ```
    pub fn resize(&mut self, name: Name, len: u32) -> Result<(), Refusal>
        // Accepted or refused, and whatever the region holds.
        ensures resizes { Resizes resize_touches (Blocks.want len) len (seen_by self.old) (seen_by self.new) name result }
        ensures frame { NotesNothing AreCounts self.old self.new result }
    {
        self.heap.resize(name, len)
    }

    /// How many allocates were accepted, by whichever thread.
    ///
    /// ```
    /// heap.allocate(8)?;
    /// assert_eq!((heap.grants(), heap.returns()), (1, 0)); // of a new heap
    /// ```
    pub fn grants(&self) -> u64
        ensures grants { result ≡ self.now.ledger.grants }
        ensures counted { IsCounted self.now }
    {
        self.ledger.grants
    }

    /// How many releases were accepted, by whichever thread.
    ///
    /// ```
    /// let name = heap.allocate(8)?;
    /// heap.release(name)?;
    /// assert_eq!((heap.grants(), heap.returns()), (1, 1)); // of a new heap
    /// ```
    pub fn returns(&self) -> u64
        ensures returns { result ≡ self.now.ledger.returns }
        ensures counted { IsCounted self.now }
    {
        self.ledger.returns
    }
}
