ghost use Rattle.std.specs.Prelude.{◌≡◌, ◌+◌, ◌-◌, ◌<◌, ◌≤◌, ◌↔◌, IfOk, IsErrOf, ⊤};
ghost use Rattle.tlsf_class.specs.Classes.{IsLevel};
ghost use Rattle.tlsf_heap.specs.Calls.{opened, last_tick};
ghost use Rattle.tlsf_heap.specs.ledger.Ledgers.{IsLedgered, LedgerState};
ghost use Rattle.tlsf_heap.specs.Blocks;
ghost use Rattle.tlsf_pool.specs.laws.FixedSize.{HasFixedRegion, fixed_words};
ghost use Rattle.tlsf_pool.specs.laws.Room;
ghost use Rattle.tlsf_pool.specs.pools.Bounds.{Bounds, IsPool, ReportsBounds, SameBounds, TellsBounds, answered_within};

use crate::pools::pool_refusal::PoolRefusal;
use crate::sizes::fixed_size::fixed_region;
use crate::sizes::sizing::sure;
use std::alloc::Global;
use std::marker::Model;
use tlsf_heap::{Heap, Ledger, Ledgered, Name, OpenFault, Refusal, want};

/// The ledger of a [`Pool`]: how many blocks may be held at once, and how many are held. It also has how many bytes a request may
/// have, and how many words each block takes.
#[derive(Drop)]
pub struct One<const SLI: u32> {
    most: u32,
    longest: u32,
    size: u32,
    held: u32,
}

impl<const SLI: u32> Model for One<SLI> {
    ghost use Rattle.std.specs.Prelude.{◌≡◌};
    ghost use Rattle.tlsf_heap.specs.Blocks.{want};
    ghost use Rattle.tlsf_pool.specs.laws.Room.{sure};
    ghost use Rattle.tlsf_pool.specs.pools.Bounds.{Bounds};

    ghost Value = { Bounds };

    ghost view = { λ p. record { most = p.most; longest = p.longest; held = p.held } };

    ghost invariant = { λ p. p.size ≡ sure SLI (want p.longest) };
}

impl<const SLI: u32> Ledger<SLI> for One<SLI> {
    type Why = PoolRefusal;

    type Place = ();

    type Seen = ();

    ghost holds = { λ sli h p. IsPool sli h p };

    ghost answered = { λ p len answer. answered_within p len answer };

    ghost admits = { λ p len. (len ≤ p.longest) × (p.held < p.most) };

    ghost takes = { λ sli p len. Room.sure sli (Blocks.want p.longest) };

    ghost places = { λ p len place. ⊤ };

    ghost tells = { λ sli h p len answer. TellsBounds sli h p len answer };

    ghost reports = { λ p report. ReportsBounds p report };

    ghost given = { λ p len q. q ≡ record p { held = p.held + 1 } };

    ghost returned = { λ p len q. q ≡ record p { held = p.held - 1 } };

    ghost same_limits = { λ p q. SameBounds p q };

    ghost sees = { λ h name seen. ⊤ };

    ghost look_touches = { 0 };

    fn admit(&self, len: u32) -> Result<(), PoolRefusal> {
        if len > self.longest {
            return Err(PoolRefusal::TooLong);
        }
        if self.held >= self.most {
            return Err(PoolRefusal::Full);
        }
        Ok(())
    }

    // As many as the longest: so each free block but the last serves, and none is lost between live ones.
    fn words(&self, _len: u32) -> u32 {
        self.size
    }

    // Room there is, so the tick is at its last value.
    fn refused(&self, _len: u32, _why: Refusal) -> PoolRefusal {
        PoolRefusal::Worn
    }

    fn give(&mut self, _len: u32, _place: ()) {
        // Read for its range: fewer are held than may be.
        let _most = self.most;
        self.held += 1;
    }

    fn look(_heap: &mut Heap<SLI>, _name: Name) -> Result<(), Refusal> {
        Ok(())
    }

    fn take_back(&mut self, _seen: ()) {
        self.held -= 1;
    }

    fn laws() {}
}

/// A heap that never refuses for want of room. It is opened by the most blocks that are held at once and the longest request
/// ([`PoolCalls::open`]). Its level is that of its heap, 4 or 5.
///
/// An allocate is given whenever its request is at most the longest and fewer blocks are held than may be. Only the tick must not
/// be at its last value. Else it is refused as `TooLong`, `Full` or `Worn`, in this order. Each block takes the words of the
/// longest request, whatever its own length.
pub type Pool<const SLI: u32> = Ledgered<SLI, One<SLI>>;

/// The calls that a [`Pool`] has beside those of each [`Ledgered`].
pub trait PoolCalls<const SLI: u32>: Sized {
    // The view of it by contracts.
    ghost shown: { Self → LedgerState Bounds };

    /// Opens a pool of number `id` for at most `most` blocks at once, of at most `longest` bytes each. Its region has
    /// `fixed_words most longest` words, and it is one free block, stamped with the tick `first`.
    ///
    /// Refused as `BadSize` where no region has that many words (4 to 2^20, or to 2^24 at level 5). Otherwise as `Worn` where
    /// `first` is the last tick, 2^64 - 1. Otherwise as `NoMemory` where the memory was not granted. No later call takes memory.
    ///
    /// ```text
    /// let pool = Pool::<4>::open(alloc, 0, 100, 512, 0)?;                 // 6,800 words
    /// Pool::<4>::open(alloc, 0, 100_000, 512, 0).err() == Some(OpenFault::BadSize)
    /// ```
    fn open(alloc: Global, id: u32, most: u32, longest: u32, first: u64) -> Result<Self, OpenFault>
        requires { IsLevel SLI }
        ensures heap { IfOk result (λ pool. (shown pool).heap ≡ opened id (fixed_words SLI most longest) first) }
        ensures ledger { IfOk result (λ pool. (shown pool).ledger ≡ record { most = most; longest = longest; held = 0 }) }

        // The refusals, in their order. Memory is refused only where no other refusal comes.
        ensures bad_size { IsErrOf result OpenFault.BadSize ↔ ¬ (HasFixedRegion SLI most longest) }
        ensures worn { HasFixedRegion SLI most longest → (IsErrOf result OpenFault.Worn ↔ (first ≡ last_tick)) }
        ensures touches { IfOk result (λ pool. (shown pool).touches ≤ 10) };

    /// How many blocks are held: the accepted allocates less the accepted releases.
    ///
    /// ```text
    /// pool.allocate(8)?;
    /// pool.held() == 1                        // of a new pool
    /// ```
    fn held(&self) -> u32
        ensures held { result ≡ (shown self.now).ledger.held }

        // No more than may be.
        ensures few { result ≤ (shown self.now).ledger.most }
        ensures pool { IsLedgered (IsPool SLI) (shown self.now) };
}

impl<const SLI: u32> PoolCalls<SLI> for Pool<SLI> {
    ghost shown = { λ pool. pool };

    fn open(
        alloc: Global,
        id: u32,
        most: u32,
        longest: u32,
        first: u64,
    ) -> Result<Self, OpenFault> {
        let Some(words) = fixed_region::<SLI>(most, longest) else {
            return Err(OpenFault::BadSize);
        };
        let heap = Heap::open(alloc, id, words, first)?;
        Ok(Ledgered::new(
            heap,
            One {
                most,
                longest,
                size: sure::<SLI>(want(longest)),
                held: 0,
            },
        ))
    }

    fn held(&self) -> u32 {
        self.ledger().held
    }
}
