ghost use Rattle.std.specs.Prelude.{true, ◌≡◌, ◌≢◌, ◌↔◌, ℕ, ◌+◌, ◌*◌, ◌<◌, ◌≤◌, [], length, None, Some, IfOk, IfErr, OnOk, OnErr, IsOk, IsErrOf, MatchResult, Ok, Err};
ghost use Rattle.tlsf_class.specs.Classes.{most_words};
ghost use Rattle.tlsf_heap.specs.Calls.{last_tick, opened};
ghost use Rattle.tlsf_heap.specs.GoodFit.{fits};
ghost use Rattle.tlsf_heap.specs.Placed.{placed_at};
ghost use Rattle.tlsf_heap.specs.Reports.{report_of};
ghost use Rattle.tlsf_heap.specs.Touched.{FollowsNoPlace};
ghost use Rattle.tlsf_heap.specs.declared.name.Name.{Name};
ghost use Rattle.tlsf_arena.specs.Arenas.{Holds};
ghost use Rattle.tlsf_arena.specs.Effects.{HasHome, Releases, answer_of};
ghost use Rattle.tlsf_arena.specs.Loans.{units_of};
ghost use Rattle.tlsf_arena.specs.Units.{IsArenaOf, piece_size, units_for};
ghost use Rattle.tlsf_pool_arena.specs.PoolArenas.{IsPoolArena, KeepsPlan, Looks, SamePoolArena, arena_of, fixed_bytes, fixed_size, pool_requested, resized_in_pool, units_of_pool};

use crate::units::fixed_units;
use std::alloc::Global;
use std::marker::Model;
use tlsf_arena::{Arena, Block};
use tlsf_class::{low, search_of};
use tlsf_heap::{OpenFault, PlacedBlock, Refusal, Report};
use tlsf_pool::PoolRefusal;

/// An arena that never refuses for want of room: it is opened by the most blocks that are held at once and the longest request. Its level
/// is that of its heap, 4 or 5, and a unit has 16, 32 or 64 bytes. Each block has the units of the longest request, whatever its own length.
///
/// Contracts see it as its heap, the region of its memory, and the book in which its blocks stand. They see the two bounds, how
/// many blocks are held, and the heap's own memory (`extents`) and touches. They see whether its memory was taken from `alloc`, which
/// gets it back (`leased`). They see how often an address was compared with that of a unit. Lengths are in bytes.
#[derive(Drop)]
pub struct PoolArena<const SLI: u32, const UNIT: usize> {
    arena: Arena<SLI, UNIT>,
    most: u32,
    longest: u32,
    // Those of each block.
    bytes: u32,
    held: u32,
}

impl<const SLI: u32, const UNIT: usize> Model for PoolArena<SLI, UNIT> {
    ghost use Rattle.std.specs.Prelude.{◌≡◌};
    ghost use Rattle.tlsf_pool_arena.specs.PoolArenas.{IsPoolArena, PoolArenaState, fixed_bytes};

    ghost Value = { PoolArenaState };

    ghost view = { λ p. record { heap = p.arena.heap; region = p.arena.region; book = p.arena.book; most = p.most; longest = p.longest; held = p.held; extents = p.arena.extents; leased = p.arena.leased; touches = p.arena.touches; compared = p.arena.compared } };

    ghost invariant = { λ p. IsPoolArena SLI UNIT (record { heap = p.arena.heap; region = p.arena.region; book = p.arena.book; most = p.most; longest = p.longest; held = p.held; extents = p.arena.extents; leased = p.arena.leased; touches = p.arena.touches; compared = p.arena.compared }) × (p.bytes ≡ fixed_bytes SLI UNIT p.longest) };
}

// The bytes of each block: those of the units from which every free block serves the longest request.
fn bytes_of_each<const SLI: u32, const UNIT: usize>(longest: u32) -> u32
    requires kind { IsArenaOf SLI UNIT }
    requires class { units_for UNIT longest ≤ most_words SLI }
    ensures { result ≡ fixed_bytes SLI UNIT longest }
{
    let units = ((longest as usize + (UNIT - 1)) / UNIT).max(4) as u32;
    UNIT as u32 * low(search_of::<SLI>(units))
}

impl<const SLI: u32, const UNIT: usize> PoolArena<SLI, UNIT> {
    /// Opens an arena for at most `most` blocks at once, of at most `longest` bytes each. Its heap has the number `id`, and its memory is
    /// taken from `alloc` beside that for the heap.
    ///
    /// Refused as `BadSize` where no heap has as many words as [`fixed_units`] says (4 to 2^20, or to 2^24 at level 5). Otherwise
    /// as `NoMemory` where the memory was not granted. No later call takes memory.
    ///
    /// ```text
    /// let arena = PoolArena::<4, 16>::open(alloc, 0, 100, 512)?;
    /// PoolArena::<4, 16>::open(alloc, 0, 100_000, 512).err() == Some(OpenFault::BadSize)
    /// ```
    pub fn open(
        alloc: Global,
        id: u32,
        most: u32,
        longest: u32,
    ) -> Result<PoolArena<SLI, UNIT>, OpenFault>
        requires kind { IsArenaOf SLI UNIT }
        ensures heap { IfOk result (λ p. (units : ℕ) → units_of_pool SLI UNIT most longest ≡ Some units → (p.heap ≡ opened id units 0) × (p.region.end ≡ p.region.start + UNIT * units)) }
        ensures leased { IfOk result (λ p. p.leased ≡ true) }
        ensures most { IfOk result (λ p. p.most ≡ most) }
        ensures longest { IfOk result (λ p. p.longest ≡ longest) }
        ensures none { IfOk result (λ p. p.held ≡ 0) }
        ensures bad_size { IsErrOf result OpenFault.BadSize ↔ (units_of_pool SLI UNIT most longest ≡ None) }
        ensures not_worn { ¬ (IsErrOf result OpenFault.Worn) }
        ensures touches { IfOk result (λ p. p.touches ≤ 10) }
    {
        let Some(units) = fixed_units::<SLI, UNIT>(most, longest) else {
            return Err(OpenFault::BadSize);
        };
        let arena = Arena::<SLI, UNIT>::open(alloc, id, units)?;
        Ok(PoolArena {
            arena,
            most,
            longest,
            bytes: bytes_of_each::<SLI, UNIT>(longest),
            held: 0,
        })
    }

    /// Gives a block with room for the longest request, as [`Arena::allocate`] does, whatever `len` is: `len` bytes or more.
    ///
    /// It is given whenever `len` is at most the longest request, and fewer blocks are held than may be. Only the tick must not be
    /// at its last value. Else it is refused as `TooLong`, `Full` or `Worn`, in this order. Takes no memory.
    ///
    /// ```text
    /// let mut arena = PoolArena::<4, 16>::open(alloc, 0, 1, 100)?;         // one block of up to 100 bytes
    /// let block = arena.allocate(1)?;                                      // 112 bytes
    /// arena.allocate(100).err() == Some(PoolRefusal::Full)
    /// arena.allocate(101).err() == Some(PoolRefusal::TooLong)
    /// ```
    pub fn allocate(&mut self, len: u32) -> Result<Block<UNIT>, PoolRefusal>
        ensures ok { IsOk result ↔ ((len ≤ self.old.longest) × (self.old.held < self.old.most) × ¬ (self.old.heap.tick ≡ last_tick)) }

        // The refusals, in their order: there is none for want of room, since the arena has some.
        ensures too_long { IsErrOf result PoolRefusal.TooLong ↔ (self.old.longest < len) }
        ensures full { IsErrOf result PoolRefusal.Full ↔ ((len ≤ self.old.longest) × (self.old.held ≡ self.old.most)) }
        ensures room { len ≤ self.old.longest → self.old.held < self.old.most → ¬ (fits SLI (fixed_size SLI UNIT self.old.longest) self.old.heap.blocks ≡ []) }

        // An accepted request is the arena's, and one block more is held. A refusal changes nothing.
        ensures answer { IfOk result (λ b. (pool_requested SLI UNIT self.old).answer ≡ Ok b.name) }
        ensures heap { OnOk result (self.new.heap ≡ (pool_requested SLI UNIT self.old).heap) }
        ensures block { IfOk result (λ b. (b.piece.region ≡ self.old.region) × (b.right.book ≡ self.old.book) × (b.piece.size ≡ fixed_bytes SLI UNIT self.old.longest)) }
        ensures given { IfOk result (λ b. piece_size UNIT len ≤ b.piece.size) }
        ensures holds { IfOk result (λ b. Holds self.new.heap b.name (fixed_size SLI UNIT self.old.longest)) }
        ensures new { IfOk result (λ b. (other : Name) (units : ℕ) → Holds self.old.heap other units → other ≢ b.name) }
        ensures others { (other : Name) (units : ℕ) → Holds self.old.heap other units → Holds self.new.heap other units }
        ensures held { OnOk result (self.new.held ≡ self.old.held + 1) }
        ensures err { OnErr result (SamePoolArena self.old self.new) }

        // Accepted or refused, whatever the length: at most 64 touches.
        ensures keeps { KeepsPlan 64 self.old self.new }
    {
        if len > self.longest {
            return Err(PoolRefusal::TooLong);
        }
        if self.held >= self.most {
            return Err(PoolRefusal::Full);
        }
        match self.arena.allocate(self.bytes) {
            Ok(block) => {
                self.held += 1;
                Ok(block)
            }
            // Room there is, so the tick is at its last value.
            Err(_) => Err(PoolRefusal::Worn),
        }
    }

    /// Takes a block back, and merges its units with the free ones beside them. One block fewer is held.
    ///
    /// A block that is out is live (`live`). So it is refused, and comes back, for nothing but `Worn`, where the tick is at its
    /// last value. Takes no memory.
    ///
    /// ```text
    /// let block = arena.allocate(100)?;
    /// arena.release(block).is_ok()
    /// ```
    pub fn release(&mut self, block: Block<UNIT>) -> Result<(), (Refusal, Block<UNIT>)>
        requires own { HasHome self.old.region self.old.book block }
        ensures releases { Releases (arena_of self.old) (arena_of self.new) block.entry.name (units_of block.entry.right.loan) (answer_of (λ e. e.0) result) }
        ensures held { OnOk result (self.new.held + 1 ≡ self.old.held) }
        ensures err { IfErr result (λ e. SamePoolArena self.old self.new × (e.1 ≡ block.entry)) }
        ensures keeps { KeepsPlan 60 self.old self.new }
    {
        match self.arena.release(block) {
            Ok(()) => {
                self.held -= 1;
                Ok(())
            }
            Err(refused) => Err(refused),
        }
    }

    /// Makes a block `len` bytes long or more where it stands, as [`Arena::resize`] does. Its name and its address stay, and as
    /// many blocks are held as before. It had room for the longest request from the beginning, so it stays as long as it is.
    ///
    /// Refused, with the block, as `NoRoom` exactly where `len` is above the longest request; otherwise as `Worn` where the tick is
    /// at its last value. Takes no memory.
    ///
    /// ```text
    /// let mut arena = PoolArena::<4, 16>::open(alloc, 0, 2, 200)?;
    /// let block = arena.allocate(100)?;        // 13 units
    /// let block = arena.resize(block, 200)?;   // 13, at the same address
    /// ```
    pub fn resize(
        &mut self,
        block: Block<UNIT>,
        len: u32,
    ) -> Result<Block<UNIT>, (Refusal, Block<UNIT>)>
        requires own { HasHome self.old.region self.old.book block }
        ensures answer { MatchResult result (λ _. (resized_in_pool SLI UNIT self.old block.entry.name len).answer ≡ Ok tt) (λ e. (resized_in_pool SLI UNIT self.old block.entry.name len).answer ≡ Err e.0) }
        ensures heap { self.new.heap ≡ (resized_in_pool SLI UNIT self.old block.entry.name len).heap }

        // It finds room within the bounds: the same block with the units of each, or the very block with nothing changed.
        ensures ok { IsOk result ↔ ((len ≤ self.old.longest) × ¬ (self.old.heap.tick ≡ last_tick)) }
        ensures worn { len ≤ self.old.longest → IfErr result (λ e. e.0 ≡ Refusal.Worn) }
        ensures block { IfOk result (λ b. (b.name ≡ block.entry.name) × (b.piece.region ≡ self.old.region) × (b.right.book ≡ self.old.book) × (b.piece.at ≡ block.entry.piece.at) × (b.piece.size ≡ fixed_bytes SLI UNIT self.old.longest)) }
        ensures given { IfOk result (λ b. piece_size UNIT len ≤ b.piece.size) }
        ensures held { self.new.held ≡ self.old.held }
        ensures live { len ≤ self.old.longest → Holds self.old.heap block.entry.name (units_of block.entry.right.loan) }
        ensures err { IfErr result (λ e. SamePoolArena self.old self.new × (e.1 ≡ block.entry)) }
        ensures named { IfErr result (λ e. (e.0 ≢ Refusal.Stale) × (e.0 ≢ Refusal.Foreign)) }
        ensures others { (other : Name) (units : ℕ) → other ≢ block.entry.name → Holds self.old.heap other units → Holds self.new.heap other units }
        ensures keeps { KeepsPlan 64 self.old self.new }
    {
        if self.longest >= len {
            return self.arena.resize(block, self.bytes);
        }
        Err((Refusal::NoRoom, block))
    }

    /// The report on the arena's heap, in units: its blocks, and how well it serves. It walks over all blocks. It is never refused,
    /// and takes no memory.
    ///
    /// As many blocks are live as are held.
    ///
    /// ```text
    /// let report = arena.report();             // of a new arena of 100 blocks of up to 512 bytes
    /// (report.live_blocks, report.free_words) == (0, 3_200)
    /// ```
    pub fn report(&mut self) -> Report
        ensures report { result ≡ report_of SLI self.old.heap }
        ensures held { result.live_blocks ≡ self.old.held }
        ensures looks { Looks (2 * length self.old.heap.blocks) self.old self.new }
    {
        self.arena.report()
    }

    /// How many units are free, all told: a walk over all blocks, as [`report`](PoolArena::report).
    ///
    /// ```text
    /// arena.free_units()                       // of a new arena of 100 blocks of up to 512 bytes: 3,200
    /// ```
    pub fn free_units(&mut self) -> u32
        ensures free { result ≡ (report_of SLI self.old.heap).free_words }
        ensures looks { Looks (2 * length self.old.heap.blocks) self.old self.new }
    {
        self.report().free_words
    }

    /// The block that begins at a unit, None where none does: a number from outside is not followed (`wild`). Its size is in units, those that good fit gave it beyond the wanted ones with
    /// them. The next begins at its end, `at + size`, so that a walk from unit 0 meets all blocks. Takes no memory.
    ///
    /// ```text
    /// let block = arena.allocate(100)?;        // of a new arena of blocks of up to 100 bytes, in units of 16
    /// arena.block_at(block.name.at)            // Some(PlacedBlock { at: 0, size: 7, .. })
    /// ```
    pub fn block_at(&mut self, at: u32) -> Option<PlacedBlock>
        ensures block { result ≡ placed_at self.old.heap.blocks at }
        ensures looks { Looks 4 self.old self.new }
        ensures wild { FollowsNoPlace self.old.heap at self.old.touches self.new.touches }
    {
        self.arena.block_at(at)
    }

    /// The tick of the arena's heap: that which the next accepted allocate, release or resize stamps, 1 to 2^64 - 1.
    ///
    /// ```text
    /// arena.tick()                             // of a new arena: 1, and 2 behind an accepted allocate
    /// ```
    pub fn tick(&self) -> u64
        ensures tick { result ≡ self.now.heap.tick }
    {
        self.arena.tick()
    }

    /// How many blocks are held: the accepted allocates less the accepted releases.
    ///
    /// ```text
    /// let block = arena.allocate(100)?;
    /// arena.held() == 1                        // of a new arena
    /// ```
    pub fn held(&self) -> u32
        ensures held { result ≡ self.now.held }

        // No more than may be.
        ensures few { result ≤ self.now.most }
    {
        self.held
    }
}
