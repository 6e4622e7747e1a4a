ghost use Rattle.std.specs.Prelude.{◌≡◌, ◌+◌, ◌*◌, ◌^◌, ◌<◌, ◌≤◌, IfOk, IfSome, IsErrOf, ◌↔◌, MatchResult};
ghost use Rattle.std.specs.Mem.{type_size};
ghost use Rattle.tlsf_heap.specs.Lawful.{IsRegion};
ghost use Rattle.tlsf_arena.specs.Units.{IsArenaOf, IsUnit, piece_size, units_for};
ghost use Rattle.tlsf_arena.specs.Loans.{name_of, units_of as units_in};
ghost use Rattle.tlsf_arena.specs.Ownership.{IsLoanAt, whole_token};

use crate::arena::Arena;
use crate::block::Block;
use crate::boxed::BoxedArena;
use crate::buffer::Buffer;
use crate::buffer_grant::BufferGrant;
use crate::memory::GRAIN;
use crate::piece::Piece;
use crate::right::Right;
use crate::slot::Slot;
use crate::units::units_of;
use std::alloc::{AllocError, Allocator, Global};
use std::cell::Cell;
use std::fmt;
use std::marker::PhantomData;
use std::mem::{ManuallyDrop, size_of};
use tlsf_heap::OpenFault;

/// An arena as the allocator of one thread's collections, which hold a `&` to it.
///
/// A request is an `AllocError` where the arena refuses it, and where it asks for an alignment above 16.
pub struct LocalArena<const SLI: u32, const UNIT: usize> {
    slot: Slot<SLI, UNIT>,
    // The places of the last two pieces that went out: those of the most that come back.
    last: Cell<u32>,
    before_last: Cell<u32>,
    ghost unit: { IsUnit UNIT },
}

/// An arena of level 4, in units of 16 bytes, for collections.
pub type DefaultArena = LocalArena<4, 16>;

impl<const SLI: u32, const UNIT: usize> LocalArena<SLI, UNIT> {
    ghost use Rattle.tlsf_arena.specs.Locals.{memory_of};

    /// Opens an arena as [`Arena::open`] does, over `UNIT * units` bytes (`region`), and is refused as it is.
    ///
    /// ```text
    /// let arena = LocalArena::<4, 16>::open(alloc, 0, 1 << 16)?;       // 1 MiB in units of 16 bytes
    /// let squares: Vec<u64, &LocalArena<4, 16>> = Vec::new(&arena);
    /// ```
    pub fn open(alloc: Global, id: u32, units: u32) -> Result<LocalArena<SLI, UNIT>, OpenFault>
        requires kind { IsArenaOf SLI UNIT }
        ensures region { IfOk result (λ a. (memory_of a).end ≡ (memory_of a).start + UNIT * units) }
        ensures bad_size { IsErrOf result OpenFault.BadSize ↔ ¬ (IsRegion SLI units) }
        ensures not_worn { ¬ (IsErrOf result OpenFault.Worn) }
    {
        let arena = Arena::open(alloc, id, units)?;
        let Ok(arena) = Box::new(alloc, arena) else {
            return Err(OpenFault::NoMemory);
        };
        Ok(LocalArena {
            slot: Slot::new(BoxedArena { arena }),
            last: Cell::new(0),
            before_last: Cell::new(0),
        })
    }

    /// The units that are free, all told: as many as were opened once all that was taken is dropped.
    ///
    /// ```text
    /// arena.free_units()                       // of a new arena of 64 units: 64
    /// ```
    pub fn free_units(&self) -> u32 {
        let Some(mut boxed) = self.slot.replace(None) else {
            return 0;
        };
        let free = boxed.arena.free_units();
        self.slot.replace(Some(boxed));
        free
    }

    // The slot is empty only while one of the functions here runs, and they call nothing that
    // could come back here.
    fn take(&self, size: usize, align: usize) -> Option<(Piece, Right)>
        ensures { IfSome result (λ g. (g.0.region ≡ self.now.slot.0) × (g.1.book ≡ self.now.slot.1) × (g.0.size ≡ piece_size UNIT size) × (g.0.at ≡ g.0.region.start + UNIT * (name_of g.1.loan).at) × (units_in g.1.loan ≡ units_for UNIT size) × (size < 2 ^ 63) × (align ≤ 16)) }
    {
        if align > GRAIN || size > u32::MAX as usize {
            return None;
        }
        let mut boxed = self.slot.replace(None)?;
        let answer = boxed.arena.allocate(size as u32);
        self.slot.replace(Some(boxed));
        match answer {
            Ok(Block { name, piece, right }) => {
                self.before_last.set(self.last.get());
                self.last.set(name.at);
                Some((piece, right))
            }
            Err(_) => None,
        }
    }

    fn give(&self, piece: Piece, right: Right)
        requires home { (piece.region ≡ self.now.slot.0) × (right.book ≡ self.now.slot.1) }
        requires loan { (piece.at ≡ piece.region.start + UNIT * (name_of right.loan).at) × (piece.size ≡ UNIT * units_in right.loan) }
    {
        match self.slot.replace(None) {
            Some(mut boxed) => {
                let _given = boxed.give(piece, right, self.guesses());
                self.slot.replace(Some(boxed));
            }
            None => {
                let _lost = unsafe { ManuallyDrop::new_unchecked((piece, right)) };
            }
        }
    }

    // The places of the last two pieces that went out.
    fn guesses(&self) -> (u32, u32) {
        (self.last.get(), self.before_last.get())
    }

    // The values stay where a piece of equally many units is wanted, and where the arena has the others after it or takes them
    // back. Else they move to a new block, which is aligned enough for every type.
    fn moved<T>(
        &self,
        grant: BufferGrant<T>,
        len: usize,
        old_cap: usize,
        new_cap: usize,
    ) -> Result<BufferGrant<T>, BufferGrant<T>>
        requires grant { (grant.unit ≡ UNIT) × (grant.home ≡ self.now.slot) × (grant.len ≡ len) × (grant.cap ≡ old_cap) }
        requires sizes { (len ≤ old_cap) × (len ≤ new_cap) × (old_cap * type_size T.row < 2 ^ 63) × (new_cap * type_size T.row < 2 ^ 63) }
        ensures { MatchResult result (λ b. (b.unit ≡ grant.unit) × (b.home ≡ grant.home) × (b.len ≡ len) × (b.cap ≡ new_cap) × (b.items ≡ grant.items)) (λ b. b ≡ grant) }
    {
        let (buffer, right) = grant.into_parts();
        let old_size = piece_bytes(old_cap * size_of::<T>(), UNIT);
        let new_size = piece_bytes(new_cap * size_of::<T>(), UNIT);
        if new_size == old_size {
            return Ok(BufferGrant::of_parts(buffer.refitted(new_cap), right));
        }
        let in_place = if old_size < new_size {
            self.extended(buffer, right, old_size, new_cap)
        } else {
            self.trimmed(buffer, right, old_size, old_cap, new_cap)
        };
        let (buffer, right) = match in_place {
            Ok((buffer, right)) => return Ok(BufferGrant::of_parts(buffer, right)),
            Err(parts) => parts,
        };
        let Some((piece, new_right)) = self.take(new_cap * size_of::<T>(), GRAIN) else {
            return Err(BufferGrant::of_parts(buffer, right));
        };
        let (buffer, old) = buffer.move_to(piece, len, new_cap, old_size);
        self.give(old, right);
        Ok(BufferGrant::of_parts(buffer, new_right))
    }

    // The arena lends the units behind the values' piece.
    fn extended<T>(
        &self,
        buffer: Buffer<T>,
        right: Right,
        old_size: usize,
        new_cap: usize,
    ) -> Result<(Buffer<T>, Right), (Buffer<T>, Right)>
        requires buffer { (buffer.unit ≡ UNIT) × (buffer.region ≡ self.now.slot.0) × (buffer.len ≤ buffer.cap) × (buffer.len ≤ new_cap) }
        requires right { (right.book ≡ self.now.slot.1) × IsLoanAt UNIT buffer.region buffer.ptr (buffer.cap * type_size T.row) right.loan }
        requires sizes { (old_size ≡ piece_size UNIT (buffer.cap * type_size T.row)) × (new_cap * type_size T.row < 2 ^ 63) × (old_size < piece_size UNIT (new_cap * type_size T.row)) }
        ensures buffer { MatchResult result (λ r. (r.0.ptr ≡ buffer.ptr) × (r.0.unit ≡ buffer.unit) × (r.0.region ≡ buffer.region) × (r.0.len ≡ buffer.len) × (r.0.cap ≡ new_cap) × (r.0.items ≡ buffer.items)) (λ r. r.0 ≡ buffer) }
        ensures right { MatchResult result (λ r. (r.1.book ≡ right.book) × IsLoanAt UNIT buffer.region buffer.ptr (new_cap * type_size T.row) r.1.loan) (λ r. r.1 ≡ right) }
    {
        let size = new_cap * size_of::<T>();
        if size > u32::MAX as usize {
            return Err((buffer, right));
        }
        let Some(mut boxed) = self.slot.replace(None) else {
            return Err((buffer, right));
        };
        let (ptr, buffer) = buffer.with_ptr();
        let answer = boxed
            .arena
            .extend_at(ptr, right, old_size, size as u32, self.guesses());
        self.slot.replace(Some(boxed));
        match answer {
            Ok((rest, right)) => Ok((buffer.extended(rest, new_cap), right)),
            Err((_, right)) => Err((buffer, right)),
        }
    }

    // The arena takes the units at the end of the values' piece back.
    fn trimmed<T>(
        &self,
        buffer: Buffer<T>,
        right: Right,
        old_size: usize,
        old_cap: usize,
        new_cap: usize,
    ) -> Result<(Buffer<T>, Right), (Buffer<T>, Right)>
        requires buffer { (buffer.unit ≡ UNIT) × (buffer.region ≡ self.now.slot.0) × (buffer.len ≤ buffer.cap) × (buffer.len ≤ new_cap) × (buffer.cap ≡ old_cap) }
        requires right { (right.book ≡ self.now.slot.1) × IsLoanAt UNIT buffer.region buffer.ptr (buffer.cap * type_size T.row) right.loan }
        requires sizes { (old_size ≡ piece_size UNIT (buffer.cap * type_size T.row)) × (new_cap * type_size T.row < 2 ^ 63) × (piece_size UNIT (new_cap * type_size T.row) < old_size) }
        ensures buffer { MatchResult result (λ r. (r.0.ptr ≡ buffer.ptr) × (r.0.unit ≡ buffer.unit) × (r.0.region ≡ buffer.region) × (r.0.len ≡ buffer.len) × (r.0.cap ≡ new_cap) × (r.0.items ≡ buffer.items)) (λ r. r.0 ≡ buffer) }
        ensures right { MatchResult result (λ r. (r.1.book ≡ right.book) × IsLoanAt UNIT buffer.region buffer.ptr (new_cap * type_size T.row) r.1.loan) (λ r. r.1 ≡ right) }
    {
        let size = new_cap * size_of::<T>();
        if size > u32::MAX as usize {
            return Err((buffer, right));
        }
        let Some(mut boxed) = self.slot.replace(None) else {
            return Err((buffer, right));
        };
        let new_size = piece_bytes(size, UNIT);
        let (ptr, buffer) = buffer.with_ptr();
        let (buffer, tail) = buffer.trimmed(new_cap, new_size, old_size - new_size);
        let answer = boxed
            .arena
            .trim_at(ptr, right, tail, size as u32, self.guesses());
        self.slot.replace(Some(boxed));
        match answer {
            Ok(right) => Ok((buffer, right)),
            Err((_, tail, right)) => Err((buffer.extended(tail, old_cap), right)),
        }
    }
}

// The bytes of the piece for a request of `size` bytes.
fn piece_bytes(size: usize, unit: usize) -> usize
    requires { IsUnit unit × (size < 2 ^ 63) }
    ensures { result ≡ piece_size unit size }
{
    units_of(size, unit) * unit
}

unsafe impl<const SLI: u32, const UNIT: usize> Allocator for LocalArena<SLI, UNIT> {
    ghost dealloc_token = { λ arena. whole_token UNIT arena.slot };

    fn allocate(&self, size: usize, align: usize) -> Result<*mut u8, AllocError> {
        match self.take(size, align) {
            Some((Piece { ptr, size: _ }, Right { marker: _ })) => Ok(ptr),
            None => Err(AllocError),
        }
    }

    unsafe fn deallocate(&self, ptr: *mut u8, size: usize, _align: usize) {
        let size = piece_bytes(size, UNIT);
        let marker = PhantomData;
        self.give(Piece { ptr, size }, Right { marker });
    }

    unsafe fn grow<T>(
        &self,
        ptr: *mut T,
        len: usize,
        old_cap: usize,
        new_cap: usize,
    ) -> Result<*mut T, AllocError> {
        let marker = PhantomData;
        match self.moved(BufferGrant { ptr, marker }, len, old_cap, new_cap) {
            Ok(BufferGrant { ptr, marker: _ }) => Ok(ptr),
            Err(BufferGrant { ptr: _, marker: _ }) => Err(AllocError),
        }
    }

    unsafe fn shrink<T>(
        &self,
        ptr: *mut T,
        len: usize,
        old_cap: usize,
        new_cap: usize,
    ) -> Result<*mut T, AllocError> {
        let marker = PhantomData;
        match self.moved(BufferGrant { ptr, marker }, len, old_cap, new_cap) {
            Ok(BufferGrant { ptr, marker: _ }) => Ok(ptr),
            Err(BufferGrant { ptr: _, marker: _ }) => Err(AllocError),
        }
    }
}

impl<const SLI: u32, const UNIT: usize> fmt::Debug for LocalArena<SLI, UNIT> {
    fn fmt<W: fmt::Write>(&self, f: &mut fmt::Formatter<W>) -> fmt::Result {
        f.write_str("LocalArena")
    }
}

impl<const SLI: u32, const UNIT: usize> Drop for LocalArena<SLI, UNIT> {
    fn drop(self) {
        let LocalArena {
            slot,
            last: _,
            before_last: _,
        } = self;
        drop(slot.into_inner());
    }
}
