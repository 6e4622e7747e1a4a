ghost use Rattle.std.specs.Prelude.{true, ◌≡◌, ◌≢◌, ℕ, ◌+◌, ◌-◌, ◌*◌, ◌/◌, ◌^◌, ◌<◌, ◌≤◌, ◌↔◌, false, [], length, Ok, Err, IfOk, IfErr, IfSome, IsOk, IsSome, IsErrOf, OnErr, MatchResult, Some, option_map};
ghost use denote.RawPtr.{block_of, count_of, InBlock};
ghost use Rattle.linked_list_allocator.specs.Region.{region_of};
ghost use Rattle.tlsf_heap.specs.Calls.{last_tick, opened};
ghost use Rattle.tlsf_heap.specs.GoodFit.{fits};
ghost use Rattle.tlsf_heap.specs.Lawful.{IsLawful, IsRegion};
ghost use Rattle.tlsf_heap.specs.Placed.{placed_at};
ghost use Rattle.tlsf_heap.specs.Reports.{report_of};
ghost use Rattle.tlsf_heap.specs.Touched.{FollowsNoPlace};
ghost use Rattle.tlsf_heap.specs.declared.name.Name.{Name};
ghost use Rattle.tlsf_arena.specs.Arenas.{Holds, IsFoundByGuess, IsMapped, SameArena, SameHome, requested};
ghost use Rattle.tlsf_arena.specs.Effects.{HasHome, IsLent, IsRightAt, IsRightFor, Looks, Releases, Resizes, Seeks, Takes, answer_of};
ghost use Rattle.tlsf_arena.specs.Loans.{loan_of, name_of, units_of};
ghost use Rattle.tlsf_arena.specs.Units.{IsArenaOf, IsUnit, lacking, units_for, piece_size, held_at, free_units_in};
ghost use Rattle.tlsf_heap.specs.ByPlace.{serial_at};

use crate::block::Block;
use crate::book::{Book, Entry, Refit, lend_entry, refit_entry};
use crate::memory::{Freed, GRAIN, Lease, Memory};
use crate::piece::Piece;
use crate::right::Right;
use crate::search::unit_at;
use crate::space::{Run, Space, lend_run};
use crate::units::{bytes_of, grains_before, held_units, lacking, units_of};
use core::mem::replace_with;
use std::alloc::Global;
use std::fmt;
use std::marker::Model;
use std::mem::ManuallyDrop;
use tlsf_class::Touches;
use tlsf_heap::{Content, Heap, Name, OpenFault, PlacedBlock, Refusal, Report};

/// Memory of which a heap decides: word p of the heap stands for the `UNIT` bytes of unit p.
///
/// The level is the heap's, 4 or 5, and a unit has 16, 32 or 64 bytes. The heap's words hold its headers and no payload, and the memory
/// holds payload and no headers.
///
/// Contracts see it as its heap, the region of its memory and the book in which its blocks stand. They also see the heap's own
/// memory (`extents`), its touches, and how often an address was compared with that of a unit. They see whether its memory was
/// taken from `alloc`, which gets it back (`leased`). The bytes of the units that no live block holds are the arena's; those of a
/// block are its holder's alone.
pub struct Arena<const SLI: u32, const UNIT: usize> {
    heap: Box<Heap<SLI>, Global>,
    space: Space,
    book: Book,
    base: *mut u8,
    id: u32,
    units: u32,
    alloc: Global,
    lease: Option<Lease<Global>>,
    // The comparisons of addresses are counted as touches are.
    compared: Touches,
}

impl<const SLI: u32, const UNIT: usize> Model for Arena<SLI, UNIT> {
    ghost use Rattle.std.specs.Prelude.{◌≡◌, ◌*◌, IfSome, is_some};
    ghost use Rattle.tlsf_arena.specs.Arenas.{ArenaState, IsMapped};
    ghost use Rattle.tlsf_arena.specs.Loans.{IsBook};

    ghost Value = { ArenaState };

    ghost view = { λ a. record { heap = a.heap.value.heap; region = a.space.region; book = a.book.name; extents = a.heap.value.extents; leased = is_some a.lease; touches = a.heap.value.touches; compared = a.compared.count } };

    ghost invariant = { λ a. IsMapped SLI UNIT a.units a.heap.value.heap a.space.free × ((a.space.base ≡ a.base) × IfSome a.lease (λ l. (l.alloc ≡ a.alloc) × ((l.ptr ≡ a.base) × (l.size ≡ UNIT * a.units)))) × (a.id ≡ a.heap.value.heap.id) × IsBook a.book.out a.heap.value.heap };
}

impl<const SLI: u32, const UNIT: usize> Arena<SLI, UNIT> {
    /// Opens an arena of `units` units: `UNIT * units` bytes, which are taken from `alloc` beside those for the heap. The heap has the
    /// number `id`.
    ///
    /// Refused as `BadSize` where `units` is below 4, or above 2^20 at level 4 and 2^24 at level 5. Otherwise as `NoMemory` where
    /// the memory was not granted. No later call takes memory.
    ///
    /// ```text
    /// let arena = Arena::<4, 16>::open(alloc, 0, 1 << 16)?;            // 1 MiB in units of 16 bytes
    /// Arena::<4, 64>::open(alloc, 0, 3).err() == Some(OpenFault::BadSize)
    /// ```
    pub fn open(alloc: Global, id: u32, units: u32) -> Result<Arena<SLI, UNIT>, OpenFault>
        requires kind { IsArenaOf SLI UNIT }
        ensures heap { IfOk result (λ a. a.heap ≡ opened id units 0) }
        ensures region { IfOk result (λ a. a.region.end ≡ a.region.start + UNIT * units) }
        ensures leased { IfOk result (λ a. a.leased ≡ true) }
        ensures bad_size { IsErrOf result OpenFault.BadSize ↔ ¬ (IsRegion SLI units) }
        ensures not_worn { ¬ (IsErrOf result OpenFault.Worn) }
        ensures touches { IfOk result (λ a. a.touches ≤ 10) }
    {
        let heap = Heap::<SLI>::open(alloc, id, units, 0)?;
        let Ok(heap) = Box::new(alloc, heap) else {
            return Err(OpenFault::NoMemory);
        };
        let Some((memory, lease)) = Memory::new(&alloc, bytes_of(units, UNIT)) else {
            return Err(OpenFault::NoMemory);
        };
        let lease = lease.located();
        let (base, space) = Space::new(memory);
        Ok(Arena {
            heap,
            space,
            book: Book::new(),
            base,
            id,
            units,
            alloc,
            lease: Some(lease),
            compared: Touches::new(),
        })
    }

    /// Opens an arena of `units` units over memory that the caller hands over, `UNIT * units` bytes. It may be that of a static, of
    /// a shared mapping or of a device. The heap has the number `id`, and memory for it alone is taken from `alloc`.
    /// [`Arena::into_memory`] hands the memory back. An arena that is dropped keeps it for good, and gives none of it to `alloc`.
    ///
    /// Refused, with the memory, as `BadSize` where `units` is below 4, or above 2^20 at level 4 and 2^24 at level 5. Otherwise as
    /// `NoMemory` where the memory for the heap was not granted.
    pub fn open_in(
        alloc: Global,
        id: u32,
        units: u32,
        memory: Memory,
    ) -> Result<Arena<SLI, UNIT>, (OpenFault, Memory)>
        requires kind { IsArenaOf SLI UNIT }
        requires size { memory.size ≡ UNIT * units }
        requires place { count_of memory.ptr + memory.size < 2 ^ 63 }
        ensures heap { IfOk result (λ a. a.heap ≡ opened id units 0) }
        ensures region { IfOk result (λ a. a.region ≡ region_of memory.ptr memory.size) }
        ensures leased { IfOk result (λ a. a.leased ≡ false) }
        ensures bad_size { MatchResult result (λ _. IsRegion SLI units) (λ e. (e.0 ≡ OpenFault.BadSize) ↔ ¬ (IsRegion SLI units)) }
        ensures not_worn { IfErr result (λ e. e.0 ≢ OpenFault.Worn) }
        ensures err { IfErr result (λ e. e.1 ≡ memory) }
        ensures touches { IfOk result (λ a. a.touches ≤ 10) }
    {
        let heap = match Heap::<SLI>::open(alloc, id, units, 0) {
            Ok(heap) => heap,
            Err(why) => return Err((why, memory)),
        };
        let Ok(heap) = Box::new(alloc, heap) else {
            return Err((OpenFault::NoMemory, memory));
        };
        let (base, space) = Space::new(memory);
        Ok(Arena {
            heap,
            space,
            book: Book::new(),
            base,
            id,
            units,
            alloc,
            lease: None,
            compared: Touches::new(),
        })
    }

    /// Hands the arena's memory over, where no block is out; else the arena is as it was. Memory that was taken from `Global`
    /// doesn't go back there: it is the caller's for good.
    pub fn into_memory(self) -> Result<Memory, Arena<SLI, UNIT>>
        ensures memory { IfOk result (λ m. region_of m.ptr m.size ≡ self.entry.region) }
        ensures place { IfOk result (λ m. count_of m.ptr + m.size < 2 ^ 63) }
        ensures whole { IsOk result ↔ (self.entry.region.end ≡ self.entry.region.start + UNIT * free_units_in (placed_at self.entry.heap.blocks 0)) }
        ensures err { IfErr result (λ a. SameArena self.entry a) }

        // Where a block is out, it has looked at the first block.
        ensures touches { IfErr result (λ a. (a.touches ≤ self.entry.touches + 4) × (a.compared ≡ self.entry.compared)) }
    {
        let Arena {
            heap,
            space,
            book,
            base,
            id,
            units,
            alloc,
            lease,
            compared,
        } = self;
        let mut heap = heap;
        let free = free_at_start(&mut heap);
        if free == units {
            if let Some(lease) = lease {
                let _kept = unsafe { ManuallyDrop::new_unchecked(lease) };
            }
            return Ok(space.into_memory(bytes_of(units, UNIT)));
        }
        Err(Arena {
            heap,
            space,
            book,
            base,
            id,
            units,
            alloc,
            lease,
            compared,
        })
    }

    /// Gives a block of `len` bytes or more, aligned to 16: as many whole units as hold `len` bytes, and no fewer than four.
    ///
    /// Refused as `NoFit` where the heap has no free block in a class at or above the search class of these units. Otherwise as
    /// `Worn` where the tick is at its last value. Takes no memory.
    ///
    /// ```text
    /// let mut arena = Arena::<4, 16>::open(alloc, 0, 64)?;             // 1,024 bytes
    /// let block = arena.allocate(100)?;        // 7 units: 112 bytes
    /// arena.allocate(1000) == Err(Refusal::NoFit)
    /// ```
    // Always inline: in a call of its own the answer goes through memory.
    #[inline(always)]
    pub fn allocate(&mut self, len: u32) -> Result<Block<UNIT>, Refusal>
        ensures answer { MatchResult result (λ b. (requested SLI UNIT self.old.heap len).answer ≡ Ok b.name) (λ why. (requested SLI UNIT self.old.heap len).answer ≡ Err why) }
        ensures heap { self.new.heap ≡ (requested SLI UNIT self.old.heap len).heap }

        // This comes to: when it is NoFit, when it is a block, and that a refusal changes nothing.
        ensures no_fit { IsErrOf result Refusal.NoFit ↔ (fits SLI (units_for UNIT len) self.old.heap.blocks ≡ []) }
        ensures accepted { IsOk result ↔ (¬ (fits SLI (units_for UNIT len) self.old.heap.blocks ≡ []) × ¬ (self.old.heap.tick ≡ last_tick)) }
        ensures err { OnErr result (self.new.heap ≡ self.old.heap) }
        ensures block { IfOk result (λ b. (b.piece.region ≡ self.old.region) × (b.right.book ≡ self.old.book) × (b.piece.size ≡ piece_size UNIT len)) }
        ensures holds { IfOk result (λ b. Holds self.new.heap b.name (units_for UNIT len)) }
        ensures others { (other : Name) (units : ℕ) → Holds self.old.heap other units → Holds self.new.heap other units }
        ensures home { SameHome self.old self.new }

        // Accepted or refused, whatever the length: at most 64 touches.
        ensures takes { Takes 64 self.old self.new }
    {
        let heap = &mut self.heap;
        let units = units_of(len as usize, UNIT) as u32;
        let name = heap.allocate_words(units, lacking(units))?;
        let run = Run {
            at: grains_before(name.at, UNIT),
            size: bytes_of(units, UNIT),
        };
        let piece = replace_with(&mut self.space, run, lend_run);
        let right = replace_with(&mut self.book, Entry { name, units }, lend_entry);
        Ok(Block { name, piece, right })
    }

    /// Takes a block back, and merges its units with the free ones beside them.
    ///
    /// A block that is out is live, as its right shows (`live`). So it is refused, and comes back, for nothing but `Worn`, where
    /// the tick is at its last value. Takes no memory.
    ///
    /// ```text
    /// let block = arena.allocate(100)?;
    /// arena.release(block).is_ok()
    /// ```
    pub fn release(&mut self, block: Block<UNIT>) -> Result<(), (Refusal, Block<UNIT>)>
        requires own { HasHome self.old.region self.old.book block }
        ensures releases { Releases self.old self.new block.entry.name (units_of block.entry.right.loan) (answer_of (λ e. e.0) result) }
        ensures back { IfErr result (λ e. e.1 ≡ block.entry) }
        ensures takes { Takes 60 self.old self.new }
    {
        let Block { name, piece, right } = block;
        match self.give(name, piece, right) {
            Ok(()) => Ok(()),
            Err((why, piece, right)) => Err((why, Block { name, piece, right })),
        }
    }

    /// Takes a piece back under the name of its block.
    fn give(
        &mut self,
        name: Name,
        piece: Piece,
        right: Right,
    ) -> Result<(), (Refusal, Piece, Right)>
        requires lent { IsLent UNIT self.old name piece right }
        ensures releases { Releases self.old self.new name (units_of right.loan) (answer_of (λ e. e.0) result) }
        ensures back { IfErr result (λ e. (e.1 ≡ piece) × (e.2 ≡ right)) }
        ensures takes { Takes 60 self.old self.new }
    {
        let right = replace_with(&mut self.book, right, Book::beside);
        match self.heap.release(name) {
            Ok(()) => {
                replace_with(&mut self.space, piece, Space::take_back);
                replace_with(&mut self.book, right, Book::take_back);
                Ok(())
            }
            Err(why) => Err((why, piece, right)),
        }
    }

    /// Takes a block back that has lost its name: the address of its piece tells the place. Two places are tried first, as those of blocks
    /// that went out last, else the place is sought by halves. At most 27 comparisons of addresses, whatever the arena holds. The
    /// first guess takes one, and the second two (`guessed`).
    ///
    /// It goes as [`Arena::release`] of the block: so it is refused, and comes back, for nothing but `Worn`.
    ///
    /// ```text
    /// let Block { name, piece, right } = arena.allocate(100)?;
    /// arena.release_at(piece, right, (name.at, 0)).is_ok()
    /// ```
    #[tactic(auto, using(crate::proofs::Effects::releases_later))]
    pub fn release_at(
        &mut self,
        piece: Piece,
        right: Right,
        guesses: (u32, u32),
    ) -> Result<(), (Refusal, Piece, Right)>
        requires lent { IsLent UNIT self.old (name_of right.loan) piece right }
        ensures releases { Releases self.old self.new (name_of right.loan) (units_of right.loan) (answer_of (λ e. e.0) result) }
        ensures back { IfErr result (λ e. (e.1 ≡ piece) × (e.2 ≡ right)) }
        ensures seeks { Seeks 64 (name_of right.loan).at guesses self.old self.new }
    {
        let (ptr, piece) = piece.with_ptr();
        let (name, right) = self.found(ptr, right, guesses);
        self.give(name, piece, right)
    }

    /// The name of a block that is out, by its address, and its right again. The place is sought where neither of two guesses is it.
    fn found(&mut self, ptr: *mut u8, right: Right, guesses: (u32, u32)) -> (Name, Right)
        requires pointer { InBlock ptr × (block_of ptr ≡ self.old.region.block) × (count_of ptr < 2 ^ 63) }
        requires book { right.book ≡ self.old.book }
        requires place { count_of ptr ≡ self.old.region.start + UNIT * (name_of right.loan).at }
        ensures name { result.0 ≡ name_of right.loan }
        ensures right { result.1 ≡ right }
        ensures live { Holds self.old.heap (name_of right.loan) (units_of right.loan) }
        ensures same { SameArena self.old self.new }
        ensures seeks { Seeks 4 (name_of right.loan).at guesses self.old self.new }
    {
        let right = self.known(right);
        let Some((name, _)) = self.live_at(ptr, guesses) else {
            unreachable!();
        };
        (name, right)
    }

    /// Nothing is done: whoever has a right knows that its block is live.
    #[inline(always)]
    fn known(&mut self, right: Right) -> Right
        requires { right.book ≡ self.old.book }
        ensures live { Holds self.old.heap (name_of right.loan) (units_of right.loan) }
        ensures right { result ≡ right }
        ensures looks { Looks 0 self.old self.new }
    {
        replace_with(&mut self.book, right, Book::beside)
    }

    /// Makes a block `len` bytes long or more where it stands: its name and its address stay, and no byte is moved. It then has as many whole
    /// units as hold `len` bytes, and no fewer than four.
    ///
    /// A block that is out is live (`live`). Refused, with the block, as `NoRoom` where it and the free units behind it are fewer
    /// than wanted. Otherwise as `Worn` where the tick is at its last value. Takes no memory.
    ///
    /// ```text
    /// let block = arena.allocate(100)?;        // of a new arena of 64 units of 16 bytes: 7 of them
    /// let block = arena.resize(block, 200)?;   // 13, at the same address
    /// ```
    pub fn resize(
        &mut self,
        block: Block<UNIT>,
        len: u32,
    ) -> Result<Block<UNIT>, (Refusal, Block<UNIT>)>
        requires own { HasHome self.old.region self.old.book block }
        ensures resizes { Resizes UNIT len self.old self.new block.entry.name (units_of block.entry.right.loan) (answer_of (λ e. e.0) result) }
        ensures block { IfOk result (λ b. (b.name ≡ block.entry.name) × (b.piece.region ≡ self.old.region) × (b.right.book ≡ self.old.book) × (b.piece.at ≡ block.entry.piece.at) × (b.piece.size ≡ piece_size UNIT len)) }
        ensures back { IfErr result (λ e. e.1 ≡ block.entry) }
        ensures takes { Takes 64 self.old self.new }
    {
        let Block { name, piece, right } = block;
        match self.refit(name, len, piece, right) {
            Ok((piece, right)) => Ok(Block { name, piece, right }),
            Err((why, piece, right)) => Err((why, Block { name, piece, right })),
        }
    }

    /// Lends the units for `len` bytes from the place of a piece on, under the name of its block.
    fn refit(
        &mut self,
        name: Name,
        len: u32,
        piece: Piece,
        right: Right,
    ) -> Result<(Piece, Right), (Refusal, Piece, Right)>
        requires lent { IsLent UNIT self.old name piece right }
        ensures resizes { Resizes UNIT len self.old self.new name (units_of right.loan) (answer_of (λ e. e.0) result) }
        ensures piece { IfOk result (λ r. (r.0.region ≡ self.old.region) × (r.0.at ≡ piece.at) × (r.0.size ≡ piece_size UNIT len)) }
        ensures right { IfOk result (λ r. (r.1.book ≡ self.old.book) × (r.1.loan ≡ loan_of name (units_for UNIT len))) }
        ensures back { IfErr result (λ e. (e.1 ≡ piece) × (e.2 ≡ right)) }
        ensures takes { Takes 64 self.old self.new }
    {
        let right = replace_with(&mut self.book, right, Book::beside);
        let units = units_of(len as usize, UNIT) as u32;
        match self.heap.resize_words(name, units, lacking(units)) {
            Ok(()) => {
                replace_with(&mut self.space, piece, Space::take_back);
                let at = grains_before(name.at, UNIT);
                let size = bytes_of(units, UNIT);
                let piece = replace_with(&mut self.space, Run { at, size }, lend_run);
                let entry = Entry { name, units };
                let right = replace_with(&mut self.book, Refit { right, entry }, refit_entry);
                Ok((piece, right))
            }
            Err(why) => Err((why, piece, right)),
        }
    }

    /// Makes a block `len` bytes long or more where it stands, and lends the units that it is to have besides. The `size` bytes
    /// before them stay their owner's, with all that lies in them. It then has as many whole units as hold `len` bytes, more than
    /// before. Its right comes back with them.
    ///
    /// Refused, with the right, as [`Arena::resize`] refuses a block of that name. Takes no memory.
    ///
    /// ```text
    /// let Block { name, piece, right } = arena.allocate(100)?;     // of a new arena of 64 units of 16 bytes: 7 of them
    /// let (ptr, size) = piece.into_raw_parts();
    /// let (rest, right) = arena.extend(name, right, size, 200)?;   // 6 more, at ptr + size
    /// ```
    pub fn extend(
        &mut self,
        name: Name,
        right: Right,
        size: usize,
        len: u32,
    ) -> Result<(Piece, Right), (Refusal, Right)>
        requires right { IsRightFor UNIT self.old name right size }
        requires longer { size < piece_size UNIT len }
        ensures resizes { Resizes UNIT len self.old self.new name (units_of right.loan) (answer_of (λ e. e.0) result) }
        ensures rest { IfOk result (λ r. (r.0.region ≡ self.old.region) × (r.0.at ≡ self.old.region.start + UNIT * name.at + size) × (size + r.0.size ≡ piece_size UNIT len)) }
        ensures right { IfOk result (λ r. (r.1.book ≡ self.old.book) × (r.1.loan ≡ loan_of name (units_for UNIT len))) }
        ensures back { IfErr result (λ e. e.1 ≡ right) }
        ensures takes { Takes 64 self.old self.new }
    {
        let right = replace_with(&mut self.book, right, Book::beside);
        let units = units_of(len as usize, UNIT) as u32;
        if let Err(why) = self.heap.resize_words(name, units, lacking(units)) {
            return Err((why, right));
        }
        let run = Run {
            at: grains_before(name.at, UNIT) + size / GRAIN,
            size: bytes_of(units, UNIT) - size,
        };
        let rest = replace_with(&mut self.space, run, lend_run);
        let entry = Entry { name, units };
        let right = replace_with(&mut self.book, Refit { right, entry }, refit_entry);
        Ok((rest, right))
    }

    /// [`Arena::extend`] of a block that has lost its name: its address tells the place.
    #[tactic(auto, using(crate::proofs::Effects::resizes_later))]
    pub(crate) fn extend_at(
        &mut self,
        ptr: *mut u8,
        right: Right,
        size: usize,
        len: u32,
        guesses: (u32, u32),
    ) -> Result<(Piece, Right), (Refusal, Right)>
        requires right { IsRightAt UNIT self.old ptr right size }
        requires longer { size < piece_size UNIT len }
        ensures resizes { Resizes UNIT len self.old self.new (name_of right.loan) (units_of right.loan) (answer_of (λ e. e.0) result) }
        ensures rest { IfOk result (λ r. (r.0.region ≡ self.old.region) × (r.0.at ≡ count_of ptr + size) × (size + r.0.size ≡ piece_size UNIT len)) }
        ensures right { IfOk result (λ r. (r.1.book ≡ self.old.book) × (r.1.loan ≡ loan_of (name_of right.loan) (units_for UNIT len))) }
        ensures back { IfErr result (λ e. e.1 ≡ right) }
        ensures seeks { Seeks 68 (name_of right.loan).at guesses self.old self.new }
    {
        let (name, right) = self.found(ptr, right, guesses);
        self.extend(name, right, size, len)
    }

    /// Takes the units at a block's end back, so that it has as many whole units as hold `len` bytes. The bytes before them stay their owner's,
    /// with all that lies in them, and the block's right comes back.
    ///
    /// Refused, with the units and the right, as [`Arena::resize`] refuses a block of that name. Takes no memory.
    ///
    /// ```text
    /// let right = arena.trim(name, right, rest, 100)?;     // what `Arena::extend` lent
    /// ```
    pub fn trim(
        &mut self,
        name: Name,
        right: Right,
        tail: Piece,
        len: u32,
    ) -> Result<Right, (Refusal, Piece, Right)>
        requires region { tail.region ≡ self.old.region }
        requires right { IsRightFor UNIT self.old name right (piece_size UNIT len + tail.size) }
        requires place { tail.at ≡ tail.region.start + UNIT * name.at + piece_size UNIT len }
        ensures resizes { Resizes UNIT len self.old self.new name (units_of right.loan) (answer_of (λ e. e.0) result) }
        ensures right { IfOk result (λ r. (r.book ≡ self.old.book) × (r.loan ≡ loan_of name (units_for UNIT len))) }
        ensures back { IfErr result (λ e. (e.1 ≡ tail) × (e.2 ≡ right)) }
        ensures takes { Takes 64 self.old self.new }
    {
        let right = replace_with(&mut self.book, right, Book::beside);
        let units = units_of(len as usize, UNIT) as u32;
        if let Err(why) = self.heap.resize_words(name, units, lacking(units)) {
            return Err((why, tail, right));
        }
        replace_with(&mut self.space, tail, Space::take_back);
        let entry = Entry { name, units };
        Ok(replace_with(&mut self.book, Refit { right, entry }, refit_entry))
    }

    /// [`Arena::trim`] of a block that has lost its name: its address tells the place.
    #[tactic(auto, using(crate::proofs::Effects::resizes_later))]
    pub(crate) fn trim_at(
        &mut self,
        ptr: *mut u8,
        right: Right,
        tail: Piece,
        len: u32,
        guesses: (u32, u32),
    ) -> Result<Right, (Refusal, Piece, Right)>
        requires right { IsRightAt UNIT self.old ptr right (piece_size UNIT len + tail.size) }
        requires tail { (tail.region ≡ self.old.region) × (tail.at ≡ count_of ptr + piece_size UNIT len) }
        ensures resizes { Resizes UNIT len self.old self.new (name_of right.loan) (units_of right.loan) (answer_of (λ e. e.0) result) }
        ensures right { IfOk result (λ r. (r.book ≡ self.old.book) × (r.loan ≡ loan_of (name_of right.loan) (units_for UNIT len))) }
        ensures back { IfErr result (λ e. (e.1 ≡ tail) × (e.2 ≡ right)) }
        ensures seeks { Seeks 68 (name_of right.loan).at guesses self.old self.new }
    {
        let (name, right) = self.found(ptr, right, guesses);
        self.trim(name, right, tail, len)
    }

    /// The units of the arena: 4 to 2^20, or to 2^24 at level 5.
    pub fn units(&self) -> u32
        ensures region { self.now.region.end ≡ self.now.region.start + UNIT * result }
    {
        self.units
    }

    /// The tick of the arena's heap: that which the next accepted allocate, release or resize stamps, 1 to 2^64 - 1.
    ///
    /// ```text
    /// arena.tick()                             // of a new arena: 1, and 2 after an accepted allocate
    /// ```
    pub fn tick(&self) -> u64
        ensures tick { result ≡ self.now.heap.tick }
    {
        self.heap.tick()
    }

    /// The report on the arena's heap, in units: its blocks, and how well it serves. It walks over all blocks. It is never refused,
    /// and takes no memory.
    ///
    /// ```text
    /// arena.report().free_words                // of a new arena of 64 units: 64
    /// ```
    pub fn report(&mut self) -> Report
        ensures report { result ≡ report_of SLI self.old.heap }
        ensures looks { Looks (2 * length self.old.heap.blocks) self.old self.new }
    {
        self.heap.report()
    }

    /// How many units are free, all told: a walk over all blocks, as [`report`](Arena::report).
    ///
    /// ```text
    /// arena.free_units()                       // of a new arena of 64 units: 64
    /// ```
    pub fn free_units(&mut self) -> u32
        ensures free { result ≡ (report_of SLI self.old.heap).free_words }
        ensures looks { Looks (2 * length self.old.heap.blocks) self.old self.new }
    {
        self.report().free_words
    }

    /// The block that begins at a unit, None where none does: a number from outside is not followed (`wild`). Its size is in units, those that good fit gave it beyond the wanted ones with
    /// them. The next begins at its end, `at + size`, so that a walk from unit 0 meets all blocks. Takes no memory.
    ///
    /// ```text
    /// let block = arena.allocate(100)?;        // of a new arena in units of 16 bytes
    /// arena.block_at(block.name.at)            // Some(PlacedBlock { at: 0, size: 7, .. })
    /// ```
    pub fn block_at(&mut self, at: u32) -> Option<PlacedBlock>
        ensures block { result ≡ placed_at self.old.heap.blocks at }
        ensures looks { Looks 4 self.old self.new }
        ensures wild { FollowsNoPlace self.old.heap at self.old.touches self.new.touches }
    {
        self.heap.block_at(at)
    }

    /// The serial of the live block at a place, and the units that it holds; `None` where none begins there.
    fn held_block(&mut self, at: u32) -> Option<(u64, u32)>
        ensures held { held_at self.old.heap.blocks at ≡ option_map (λ p. p.1) result }
        ensures serial { serial_at self.old.heap.blocks at ≡ option_map (λ p. p.0) result }
        ensures looks { Looks 4 self.old self.new }
        ensures lawful { IsLawful self.old.heap }
        ensures unit { IsUnit UNIT }
    {
        match self.heap.block_at(at) {
            Some(
                PlacedBlock {
                    content: Content::Live { serial, length },
                    at: _,
                    size,
                },
            ) => Some((serial, held_units(size, length))),
            _ => None,
        }
    }

    /// The name of the live block at an address of the arena's memory, and the units that it holds; `None` where none begins there. The place is
    /// sought where neither of two guesses is it.
    fn live_at(&mut self, ptr: *mut u8, guesses: (u32, u32)) -> Option<(Name, u32)>
        requires pointer { InBlock ptr × (block_of ptr ≡ self.old.region.block) × (count_of ptr < 2 ^ 63) }
        ensures live { IfSome result (λ b. (count_of ptr ≡ self.old.region.start + UNIT * b.0.at) × (held_at self.old.heap.blocks b.0.at ≡ Some b.1)) }
        ensures held { (name : Name) (units : ℕ) → count_of ptr ≡ self.old.region.start + UNIT * name.at → Holds self.old.heap name units → (result ≡ Some (name, units)) × IsFoundByGuess name.at guesses self.old.compared self.new.compared }
        ensures same { SameArena self.old self.new }
        ensures lawful { IfSome result (λ _. IsLawful self.old.heap) }
        ensures unit { IsUnit UNIT }
        ensures compared { self.new.compared ≤ self.old.compared + 27 }
        ensures touches { self.new.touches ≤ self.old.touches + 4 }
        ensures touches_rise { self.old.touches ≤ self.new.touches }
    {
        let Some(at) = unit_at(
            ptr,
            self.base,
            self.units,
            UNIT,
            guesses,
            &mut self.compared,
        ) else {
            // No block begins there: it would begin at one of the heap's words, each of which is a unit.
            let _none = self.held_block(self.units);
            return None;
        };
        let heap = self.id;
        let (serial, units) = self.held_block(at)?;
        Some((Name { heap, at, serial }, units))
    }
}

/// The words of the free block at place 0, or 0.
fn free_at_start<const SLI: u32>(heap: &mut Heap<SLI>) -> u32
    ensures size { result ≡ free_units_in (placed_at heap.old.heap.blocks 0) }
    ensures same { heap.new.heap ≡ heap.old.heap }
    ensures stays { heap.new.extents ≡ heap.old.extents }
    ensures touches { heap.new.touches ≤ heap.old.touches + 4 }
{
    match heap.block_at(0) {
        Some(
            PlacedBlock {
                content: Content::Free { stamp: _ },
                at: _,
                size,
            },
        ) => size,
        _ => 0,
    }
}

/// Gives the memory of an arena back to `Global`, where it was taken there and no block is out. Else it is leaked: a block's bytes are its
/// holder's, and memory that was handed in is the caller's.
fn give_back<const SLI: u32, const UNIT: usize>(
    heap: Box<Heap<SLI>, Global>,
    space: Space,
    units: u32,
    alloc: Global,
    lease: Option<Lease<Global>>,
) -> Option<Freed>
    requires mapped { IsMapped SLI UNIT units heap.value.heap space.free }
    requires lease { IfSome lease (λ l. (l.alloc ≡ alloc) × ((l.ptr ≡ space.base) × (l.size ≡ UNIT * units))) }
    ensures freed { IsSome result ↔ ((free_units_in (placed_at heap.entry.value.heap.blocks 0) ≡ units) × IsSome lease) }
    ensures size { IfSome result (λ f. f.size ≡ UNIT * units) }
{
    let mut heap = heap;
    let free = free_at_start(&mut heap);
    drop(heap);
    let Some(lease) = lease else {
        space.leak();
        return None;
    };
    if free == units {
        let size = bytes_of(units, UNIT);
        let memory = space.into_memory(size);
        return Some(memory.give_back(size, lease, &alloc));
    }
    space.leak();
    let _leaked = unsafe { ManuallyDrop::new_unchecked(lease) };
    None
}

impl<const SLI: u32, const UNIT: usize> Drop for Arena<SLI, UNIT> {
    fn drop(self) {
        let Arena {
            heap,
            space,
            book: _,
            base: _,
            id: _,
            units,
            alloc,
            lease,
            compared: _,
        } = self;
        drop(give_back::<SLI, UNIT>(heap, space, units, alloc, lease));
    }
}
