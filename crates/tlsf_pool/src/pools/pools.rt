ghost use Rattle.std.specs.Prelude.{◌≡◌, ◌≢◌, ◌+◌, ◌<◌, ◌≤◌, ◌^◌, ◌↔◌, Err, None, length, IfOk, IfSome, IsSomeAnd, OnOk, IsOk, IsErrOf};
ghost use Rattle.tlsf_heap.specs.Calls.{last_tick};
ghost use Rattle.tlsf_pool.specs.sizes.Limits.{AreRows};
ghost use Rattle.tlsf_pool.specs.sizes.Rising.{HasNoHeaps};
ghost use Rattle.tlsf_pool.specs.sizes.Splits.{IsLeast, parts_of};
ghost use Rattle.tlsf_pool.specs.declared.sizes.split.Split.{Split};
ghost use Rattle.tlsf_pool.specs.pools.Tables.{AreAllReached, HasPlace, HoldsOneMore, IsFull, row_of, table_allocated};
ghost use Rattle.tlsf_pool.specs.pools.Parts as cut;
ghost use Rattle.tlsf_pool.specs.pools.Parts.{Allocates, AreNew, ArePools, AtPart, HasRow, Looks, OnPart, Reads, Releases, Reports, Writes, held_by, part_at, table_of};

mod by_pointer;
mod check;
mod counts;
mod live;

use crate::kind::Kind;
use crate::pools::opening::open_parts;
use crate::pools::pool_refusal::PoolRefusal;
use crate::pools::table::TablePool;
use crate::sizes::split::{MOST_HEAPS, rising_split};
use std::alloc::Global;
use std::marker::Model;
use tlsf_heap::{Name, OpenFault, PlacedBlock, Refusal, Report};

/// Several heaps for one table, that never refuse for want of room. Each has a part of the table, as the cheapest way to cut it
/// gives them out. A request goes to the heap of the first part that has a row long enough for it.
///
/// Contracts see it as the number of its first heap, the heaps with their parts of the table, and the memory of their vector.
#[derive(Drop)]
pub struct Pools<const SLI: u32> {
    id: u32,
    parts: Vec<TablePool<SLI>>,
}

impl<const SLI: u32> Model for Pools<SLI> {
    ghost use Rattle.tlsf_pool.specs.pools.Parts.{ArePools, PoolsState};

    ghost Value = { PoolsState };

    ghost view = { λ p. record { id = p.id; parts = p.parts.items; extent = record { address = p.parts.ptr; capacity = p.parts.cap } } };

    ghost invariant = { λ p. ArePools SLI (record { id = p.id; parts = p.parts.items; extent = record { address = p.parts.ptr; capacity = p.parts.cap } }) };
}

// The first part that has a row long enough.
fn part_of<const SLI: u32>(parts: &[TablePool<SLI>], len: u32) -> Option<usize>
    ensures { result ≡ cut.part_in parts.now len }
{
    for at in 0..parts.len() {
        if parts[at].ledger().serves(len) {
            return Some(at);
        }
    }
    None
}

// The part whose heap has the number that a name names, of heaps whose numbers begin at `id`.
fn part_named<const SLI: u32>(parts: &[TablePool<SLI>], id: u32, name: Name) -> Option<usize>
    ensures { result ≡ cut.named_in id parts.now name }
{
    let part = name.heap.checked_sub(id)? as usize;
    if part < parts.len() { Some(part) } else { None }
}

impl<const SLI: u32> Pools<SLI> {
    /// Opens a heap for each part of the cheapest way to cut a table of at most 64 kinds. The parts are in the table's order, and
    /// at most eight. Its rows rise in `len`. The first heap has the number `id`, and the others those behind it; each is one free
    /// block, stamped with the tick `first`.
    ///
    /// Refused as `BadSize` where a row is no longer than the one before it. The same where no way to cut the table gives each heap
    /// a region. Otherwise as `Worn` where `first` is the last tick, 2^64 - 1, even for an empty table, which has no heap.
    /// Otherwise as `NoMemory` where the memory was not granted. [`falling_row`](crate::falling_row) names the row. No later call
    /// takes memory.
    ///
    /// ```text
    /// let kinds = [Kind { most: 2000, len: 64 }, Kind { most: 1, len: 65_536 }];
    /// let pools = Pools::<4>::open(alloc, 0, &kinds, 0)?;             // heaps of 22,000 and 8,704 words
    /// ```
    pub fn open(alloc: Global, id: u32, kinds: &[Kind], first: u64) -> Result<Pools<SLI>, OpenFault>
        requires rows { AreRows SLI kinds.now }
        requires numbers { id + 8 ≤ 2 ^ 32 }

        // The heaps are new, for the parts of a way to cut the table that has the fewest words of all.
        ensures new { IfOk result (λ pools. (split : Split) × IsLeast SLI 8 kinds.now split × AreNew SLI id first (parts_of split kinds.now) pools.parts) }
        ensures id { IfOk result (λ pools. pools.id ≡ id) }
        ensures table { IfOk result (λ pools. table_of pools ≡ kinds.now) }

        // Requests count for each row, so each heap has some.
        ensures reached { IfOk result (λ pools. AreAllReached (table_of pools)) }

        // The refusals.
        ensures bad_size { IsErrOf result OpenFault.BadSize ↔ HasNoHeaps SLI 8 kinds.now }
        ensures worn { ¬ (HasNoHeaps SLI 8 kinds.now) → (IsErrOf result OpenFault.Worn ↔ (first ≡ last_tick)) }
    {
        let Some(split) = rising_split::<SLI>(kinds, MOST_HEAPS) else {
            return Err(OpenFault::BadSize);
        };
        if first == u64::MAX {
            return Err(OpenFault::Worn);
        }
        let parts = open_parts(alloc, id, kinds, &split, first)?;
        Ok(Pools { id, parts })
    }

    /// Gives a block that holds `len` bytes of payload, all zero, as [`Ledgered::allocate`](tlsf_heap::Ledgered::allocate) does. It
    /// comes from the heap of the first part of the table that has a row long enough for it.
    ///
    /// It is given whenever there is such a row, and fewer blocks of it are held than may be. Only the tick of that heap must not
    /// be at its last value. Else it is refused as `TooLong`, `Full` or `Worn`, in this order. Takes no memory.
    ///
    /// ```text
    /// let name = pools.allocate(64)?;
    /// ```
    pub fn allocate(&mut self, len: u32) -> Result<Name, PoolRefusal>
        ensures ok { IsOk result ↔ IsSomeAnd (cut.part_of self.old len) (λ i. HasPlace (part_at self.old i).ledger len × ¬ ((part_at self.old i).heap.tick ≡ last_tick)) }

        // The refusals, in their order: there is none for want of room, since no heap has none.
        ensures too_long { IsErrOf result PoolRefusal.TooLong ↔ (cut.part_of self.old len ≡ None) }
        ensures full { IsErrOf result PoolRefusal.Full ↔ IsSomeAnd (cut.part_of self.old len) (λ i. IsFull (part_at self.old i).ledger len) }
        ensures room { IfSome (cut.part_of self.old len) (λ i. HasPlace (part_at self.old i).ledger len → (table_allocated SLI (part_at self.old i).heap (part_at self.old i).ledger len).answer ≢ Err Refusal.NoFit) }

        // The heap of that part allocates, and all others are as they were.
        ensures allocates { OnPart SLI self.old self.new (cut.part_of self.old len) (λ old new. Allocates SLI old new len result) }
        ensures none { cut.part_of self.old len ≡ None → self.new ≡ self.old }

        // In the rows of the whole table. A request counts for the first that is long enough, and its block is of the heap that has
        // this row. One more is held of it, of all others as many as before.
        ensures no_row { IsErrOf result PoolRefusal.TooLong ↔ (row_of (table_of self.old) len ≡ None) }
        ensures row { IfOk result (λ name. IsSomeAnd (row_of (table_of self.old) len) (λ row. IsSomeAnd (cut.part_named self.old name) (HasRow self.old row))) }
        ensures held { OnOk result (HoldsOneMore (table_of self.old) len (held_by self.old) (held_by self.new)) }
    {
        let Some(part) = part_of(&self.parts, len) else {
            return Err(PoolRefusal::TooLong);
        };
        self.parts[part].allocate(len)
    }

    /// Takes back the block of that name into the heap that it names, as [`Ledgered::release`](tlsf_heap::Ledgered::release) does.
    ///
    /// Refused as `Foreign` where the name is of no heap of these, otherwise `Stale` where no live block has that place and serial.
    /// Otherwise `Worn` where the tick of the heap is at its last value. Takes no memory.
    ///
    /// ```text
    /// let name = pools.allocate(64)?;
    /// pools.release(name) == Ok(())
    /// ```
    pub fn release(&mut self, name: Name) -> Result<(), Refusal>
        ensures releases { OnPart SLI self.old self.new (cut.part_named self.old name) (λ old new. Releases old new name result) }
        ensures foreign { cut.part_named self.old name ≡ None → (result ≡ Err Refusal.Foreign) × (self.new ≡ self.old) }
    {
        let Some(part) = part_named(&self.parts, self.id, name) else {
            return Err(Refusal::Foreign);
        };
        self.parts[part].release(name)
    }

    /// Writes bytes into the payload of the block of that name, from byte `at` of it on, as [`Ledgered::write`](tlsf_heap::Ledgered::write) does.
    ///
    /// Refused as `Foreign` where the name is of no heap of these, otherwise `Stale`. Otherwise `Range` where the bytes would go
    /// past the end of the payload. No byte changes then. Takes no memory.
    ///
    /// ```text
    /// pools.write(name, 6, &[0x48, 0x69]) == Ok(())
    /// ```
    pub fn write(&mut self, name: Name, at: u32, bytes: &[u8]) -> Result<(), Refusal>
        ensures writes { OnPart SLI self.old self.new (cut.part_named self.old name) (λ old new. Writes old new name at bytes.now result) }
        ensures foreign { cut.part_named self.old name ≡ None → (result ≡ Err Refusal.Foreign) × (self.new ≡ self.old) }
    {
        let Some(part) = part_named(&self.parts, self.id, name) else {
            return Err(Refusal::Foreign);
        };
        self.parts[part].write(name, at, bytes)
    }

    /// Reads bytes of the payload of the block of that name, from byte `at` of it on, and fills `out` with them, as
    /// [`Ledgered::read`](tlsf_heap::Ledgered::read) does.
    ///
    /// Refused as `Foreign` where the name is of no heap of these, otherwise `Stale`. Otherwise `Range` where the bytes would go
    /// past the end of the payload. `out` is then as before. Takes no memory.
    ///
    /// ```text
    /// let mut out = [0; 2];
    /// pools.read(name, 6, &mut out)?;         // after the write above: out == [0x48, 0x69]
    /// ```
    pub fn read(&mut self, name: Name, at: u32, out: &mut [u8]) -> Result<(), Refusal>
        ensures reads { OnPart SLI self.old self.new (cut.part_named self.old name) (λ old new. Reads old new name at out.old out.new result) }
        ensures foreign { cut.part_named self.old name ≡ None → (result ≡ Err Refusal.Foreign) × (out.new ≡ out.old) × (self.new ≡ self.old) }
    {
        let Some(part) = part_named(&self.parts, self.id, name) else {
            return Err(Refusal::Foreign);
        };
        self.parts[part].read(name, at, out)
    }

    /// The report on the heap of a part, as [`Ledgered::report`](tlsf_heap::Ledgered::report) makes it. The parts have numbers from
    /// 0 on, in the order of the table. None where there is no such part, so that a walk from 0 on meets all. Takes no memory.
    ///
    /// ```text
    /// let report = pools.report(1);           // of new pools as above: Some, with 8,704 free words
    /// pools.report(2) == None
    /// ```
    pub fn report(&mut self, part: usize) -> Option<Report>
        ensures none { (result ≡ None) ↔ (length self.old.parts ≤ part) }
        ensures reports { AtPart SLI self.old self.new part (λ old new. IfSome result (Reports SLI old new)) }
        ensures unchanged { length self.old.parts ≤ part → self.new ≡ self.old }
    {
        if part >= self.parts.len() {
            return None;
        }
        Some(self.parts[part].report())
    }

    /// The block that begins at a place in the heap of a part, as [`Ledgered::block_at`](tlsf_heap::Ledgered::block_at) looks. None
    /// where none does or there is no such part. Takes no memory.
    ///
    /// ```text
    /// pools.block_at(1, 0)                    // of new pools as above: Some, with a free block of 8,704 words
    /// pools.block_at(2, 0) == None
    /// ```
    pub fn block_at(&mut self, part: usize, at: u32) -> Option<PlacedBlock>
        ensures none { length self.old.parts ≤ part → (result ≡ None) × (self.new ≡ self.old) }
        ensures looks { AtPart SLI self.old self.new part (λ old new. part < length self.old.parts → Looks old new at result) }
    {
        if part >= self.parts.len() {
            return None;
        }
        self.parts[part].block_at(at)
    }

    /// The tick of the heap of a part: that which its next accepted allocate or release stamps, 1 to 2^64 - 1. None where there is no
    /// such part.
    ///
    /// ```text
    /// pools.tick(1)                           // of new pools as above: Some(1)
    /// ```
    pub fn tick(&self, part: usize) -> Option<u64>
        ensures none { (result ≡ None) ↔ (length self.now.parts ≤ part) }
        ensures tick { IfSome result (λ tick. tick ≡ (part_at self.now part).heap.tick) }
        ensures pools { ArePools SLI self.now }
    {
        if part >= self.parts.len() {
            return None;
        }
        Some(self.parts[part].tick())
    }
}
