ghost use Rattle.std.specs.Prelude.{◌≡◌, ◌+◌, ◌-◌, ◌/◌, ◌<◌, ◌≤◌, ◌^◌, ◌↔◌, [], Some, length, slice_index, replicate, is_some, IfOk, IfErr, OnOk, IsErrOf};
ghost use Rattle.tlsf_class.specs.Classes.{IsLevel};
ghost use Rattle.tlsf_heap.specs.Calls.{opened, last_tick};
ghost use Rattle.tlsf_heap.specs.InPlace.{payload_of};
ghost use Rattle.tlsf_heap.specs.Lawful.{IsRegion};
ghost use Rattle.tlsf_pool.specs.laws.FixedSize as law;
ghost use Rattle.tlsf_pool.specs.sizes.Limits.{AreRows};
ghost use Rattle.tlsf_pool.specs.sizes.Rising.{Rises};
ghost use Rattle.tlsf_pool.specs.sizes.Splits.{HasWords};
ghost use Rattle.tlsf_pool.specs.pools.Tables as tables;
ghost use Rattle.tlsf_pool.specs.pools.Tables.{AreAllReached, CountsOneMore, HasPlace, IsTable, IsTabled, ReportsTable, SameTable, TableState, TellsTable, answered_by_table, most_at};

use crate::kind::Kind;
use crate::pools::pool_refusal::PoolRefusal;
use crate::pools::rows::{count_down, count_up, has_place, row_of};
use crate::sizes::fixed_size::fixed_size;
use crate::sizes::region::region_words;
use crate::sizes::rising::falling_row;
use std::alloc::Global;
use std::marker::Model;
use tlsf_heap::{Heap, Ledger, Ledgered, Name, OpenFault, Refusal};

/// The ledger of a [`TablePool`]: a table of kinds, how many words each block takes, and how many are held of each kind. A block counts
/// for the first row that is long enough for it. Contracts also see where the table lies and how large it is (`extents`).
#[derive(Drop)]
pub struct Table<const SLI: u32> {
    kinds: Vec<Kind>,
    size: u32,
    held: Vec<u32>,
}

impl<const SLI: u32> Model for Table<SLI> {
    ghost use Rattle.std.specs.Prelude.{◌≡◌};
    ghost use Rattle.tlsf_pool.specs.laws.FixedSize.{fixed_size};
    ghost use Rattle.tlsf_pool.specs.pools.Tables.{TableRows};

    ghost Value = { TableRows };

    ghost view = { λ t. record { kinds = t.kinds.items; held = t.held.items; extents = record { kinds = record { address = t.kinds.ptr; capacity = t.kinds.cap }; held = record { address = t.held.ptr; capacity = t.held.cap } } } };

    ghost invariant = { λ t. t.size ≡ fixed_size SLI t.kinds.items };
}

impl<const SLI: u32> Table<SLI> {
    // A table of these kinds of which none is held.
    pub(crate) fn open(alloc: Global, kinds: &[Kind]) -> Result<Table<SLI>, OpenFault>
        requires level { IsLevel SLI }
        requires words { HasWords SLI kinds.now }
        ensures kinds { IfOk result (λ table. table.kinds ≡ kinds.now) }
        ensures held { IfOk result (λ table. table.held ≡ replicate (length kinds.now) 0) }
        ensures err { IfErr result (λ why. why ≡ OpenFault.NoMemory) }
    {
        let Ok(rows) = Vec::from_slice(alloc, kinds) else {
            return Err(OpenFault::NoMemory);
        };
        let Ok(held) = Vec::from_elem(alloc, 0, kinds.len()) else {
            return Err(OpenFault::NoMemory);
        };
        Ok(Table {
            kinds: rows,
            size: fixed_size::<SLI>(kinds),
            held,
        })
    }

    // A table of no kind, for a heap of four words.
    fn none(alloc: Global) -> Table<SLI>
        requires { IsLevel SLI }
        ensures kinds { result.kinds ≡ [] }
        ensures held { result.held ≡ [] }
    {
        Table {
            kinds: Vec::new(alloc),
            size: 4,
            held: Vec::new(alloc),
        }
    }

    // Whether some row is long enough.
    pub(crate) fn serves(&self, len: u32) -> bool
        ensures { result ≡ is_some (tables.row_of self.now.kinds len) }
    {
        row_of(&self.kinds, len).is_some()
    }

    // The bytes of the row for which a length counts; None where none is long enough.
    pub(crate) fn row_len(&self, len: u32) -> Option<u32>
        ensures { result ≡ tables.row_len self.now.kinds len }
    {
        let row = row_of(&self.kinds, len)?;
        Some(self.kinds[row].len)
    }

    // How many rows it has.
    pub(crate) fn rows(&self) -> usize
        ensures { result ≡ length self.now.kinds }
    {
        self.kinds.len()
    }

    // How many blocks of a row may be held.
    pub(crate) fn most(&self, row: usize) -> u32
        requires { row < length self.now.kinds }
        ensures { result ≡ most_at self.now.kinds row }
    {
        self.kinds[row].most
    }
}

impl<const SLI: u32> Ledger<SLI> for Table<SLI> {
    type Why = PoolRefusal;

    type Place = usize;

    type Seen = u32;

    ghost holds = { λ sli h t. IsTable sli h t };

    ghost answered = { λ t len answer. answered_by_table t len answer };

    ghost admits = { λ t len. HasPlace t len };

    ghost takes = { λ sli t len. law.fixed_size sli t.kinds };

    ghost places = { λ t len row. (tables.row_of t.kinds len ≡ Some row) × (slice_index t.held row < most_at t.kinds row) × (slice_index t.held row < 2 ^ 32 - 1) };

    ghost tells = { λ sli h t len answer. TellsTable sli h t len answer };

    ghost reports = { λ t report. ReportsTable t report };

    ghost given = { λ t len u. CountsOneMore len t u };

    ghost returned = { λ t len u. CountsOneMore len u t };

    ghost same_limits = { λ t u. SameTable t u };

    ghost sees = { λ h name len. len ≡ length (payload_of h name) };

    ghost look_touches = { 4 };

    fn admit(&self, len: u32) -> Result<usize, PoolRefusal> {
        let Some(row) = row_of(&self.kinds, len) else {
            return Err(PoolRefusal::TooLong);
        };
        if !has_place(&self.kinds, &self.held, row) {
            return Err(PoolRefusal::Full);
        }
        Ok(row)
    }

    // As many as the longest of which one is held: so each free block but the last serves, and none is lost between live ones.
    fn words(&self, _len: u32) -> u32 {
        self.size
    }

    // Room there is, so the tick is at its last value.
    fn refused(&self, _len: u32, _why: Refusal) -> PoolRefusal {
        PoolRefusal::Worn
    }

    fn give(&mut self, _len: u32, row: usize) {
        count_up(&mut self.held, row);
    }

    fn look(heap: &mut Heap<SLI>, name: Name) -> Result<u32, Refusal> {
        match heap.payload(name) {
            Ok((_, len)) => Ok(len),
            Err(why) => Err(why),
        }
    }

    fn take_back(&mut self, len: u32) {
        count_down(&self.kinds, &mut self.held, len);
    }

    fn laws() {}
}

/// A heap for a table of kinds, that never refuses for want of room. For each kind it is opened by the most blocks that are held at
/// once and the longest request ([`TablePoolCalls::open`]). A block counts for the first row of the table that is long enough for
/// it, and the rows rise in `len`. Its level is that of its heap, 4 or 5. Reads of the table, 64 rows at most, count no touch.
///
/// An allocate is given whenever there is such a row, and fewer blocks of it are held than may be. Only the tick must not be at its
/// last value. Else it is refused as `TooLong`, `Full` or `Worn`, in this order. Each block takes the words of the longest kind of
/// which one may be held, whatever its own length.
pub type TablePool<const SLI: u32> = Ledgered<SLI, Table<SLI>>;

// A pool of no kind, over the first four words of memory for `words`.
#[inline(always)]
pub(crate) fn open_least<const SLI: u32>(
    alloc: Global,
    id: u32,
    words: u32,
    first: u64,
) -> Result<TablePool<SLI>, OpenFault>
    requires { IsLevel SLI }
    ensures heap { IfOk result (λ pool. pool.heap ≡ opened id 4 first) }
    ensures region { OnOk result (IsRegion SLI words) }
    ensures bad_size { IsErrOf result OpenFault.BadSize ↔ ¬ (IsRegion SLI words) }
    ensures worn { IsRegion SLI words → (IsErrOf result OpenFault.Worn ↔ (first ≡ last_tick)) }
    ensures words_room { IfOk result (λ pool. words ≤ pool.extents.words.capacity) }
    ensures starts_room { IfOk result (λ pool. (words + 63) / 64 ≤ pool.extents.starts.capacity) }
{
    let heap = Heap::open_for(alloc, id, words, first)?;
    Ok(Ledgered::new(heap, Table::none(alloc)))
}

/// The calls that a [`TablePool`] has beside those of each [`Ledgered`].
pub trait TablePoolCalls<const SLI: u32>: Sized {
    // The view of it by contracts.
    ghost shown: { Self → TableState };

    /// Opens a heap of number `id` for a table of at most 64 kinds, whose rows rise in `len`. Its region has `fixed_kinds_words` of the
    /// table, and is one free block, stamped with the tick `first`.
    ///
    /// Refused as `BadSize` where a row is no longer than the one before it, or no class has blocks for one of the kinds. The same
    /// where no region has that many words (4 to 2^20, or to 2^24 at level 5). Otherwise as `Worn` where `first` is the last tick,
    /// 2^64 - 1. Otherwise as `NoMemory` where the memory was not granted. [`falling_row`] names the row. No later call takes
    /// memory.
    ///
    /// ```text
    /// let kinds = [Kind { most: 100, len: 64 }, Kind { most: 4, len: 4096 }];
    /// let pool = TablePool::<4>::open(alloc, 0, &kinds, 0)?;                  // 56,576 words
    /// ```
    fn open(alloc: Global, id: u32, kinds: &[Kind], first: u64) -> Result<Self, OpenFault>
        requires rows { AreRows SLI kinds.now }
        ensures heap { IfOk result (λ pool. (shown pool).heap ≡ opened id (law.fixed_kinds_words SLI kinds.now) first) }
        ensures kinds { IfOk result (λ pool. (shown pool).ledger.kinds ≡ kinds.now) }
        ensures none { IfOk result (λ pool. (shown pool).ledger.held ≡ replicate (length kinds.now) 0) }
        ensures table { IfOk result (λ pool. IsTabled SLI (shown pool)) }

        // So requests count for each row.
        ensures reached { IfOk result (λ pool. AreAllReached (shown pool).ledger.kinds) }

        // The refusals, in their order. Memory is refused only where no other refusal comes.
        ensures bad_size { IsErrOf result OpenFault.BadSize ↔ ¬ (Rises kinds.now × HasWords SLI kinds.now) }
        ensures worn { Rises kinds.now → HasWords SLI kinds.now → (IsErrOf result OpenFault.Worn ↔ (first ≡ last_tick)) }
        ensures touches { IfOk result (λ pool. (shown pool).touches ≤ 10) };

    /// How many blocks are held of a row of the table: those that count for it. 0 where the table has no such row.
    ///
    /// ```text
    /// pool.allocate(8)?;
    /// pool.held(0) == 1                       // of a new pool whose first row is long enough
    /// ```
    fn held(&self, row: usize) -> u32
        ensures held { result ≡ slice_index (shown self.now).ledger.held row }

        // No more than may be.
        ensures few { result ≤ most_at (shown self.now).ledger.kinds row }
        ensures table { IsTabled SLI (shown self.now) };
}

impl<const SLI: u32> TablePoolCalls<SLI> for TablePool<SLI> {
    ghost shown = { λ pool. pool };

    fn open(alloc: Global, id: u32, kinds: &[Kind], first: u64) -> Result<Self, OpenFault> {
        if falling_row(kinds).is_some() {
            return Err(OpenFault::BadSize);
        }
        let Some(words) = region_words::<SLI>(kinds) else {
            return Err(OpenFault::BadSize);
        };
        let mut pool = open_least(alloc, id, words, first)?;
        let table = Table::open(alloc, kinds)?;
        pool.begin(words, table);
        Ok(pool)
    }

    fn held(&self, row: usize) -> u32 {
        self.ledger().held.get(row).copied().unwrap_or(0)
    }
}
