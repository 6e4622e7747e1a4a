// The memory of an arena, and the order of two addresses in it.
ghost use Rattle.std.specs.Prelude.{◌≡◌, ◌+◌, ◌*◌, ◌/◌, ◌%◌, ◌^◌, ◌<◌, ◌≤◌, Bool, true, false, List, length, replicate, ◌==◌};
ghost use Rattle.std.specs.Bool.{Decides};
ghost use denote.RawPtr.{block_ptr, block_of, count_of, InBlock};
ghost use Rattle.linked_list_allocator.specs.Region.{Region, IsRegionSize, region_of};
ghost use Rattle.tlsf_arena.specs.Units.{IsRun, marked, grain_of};
ghost use Rattle.tlsf_arena.specs.Ownership.{free_rooms};

use crate::memory::{GRAIN, Memory};
use crate::piece::Piece;
use std::marker::Model;
use std::mem::ManuallyDrop;
use tlsf_class::Touches;

// The free grains of a region, sixteen bytes each: their bytes, and no others of it. `free` has one entry for each.
pub(crate) struct Space {
    base: *mut u8,
    ghost region: { Region },
    ghost free: { List Bool },
    ghost placed: { (base ≡ block_ptr region.block region.start) × (region.end < 2 ^ 63) × (region.start + 16 * length free ≡ region.end) },
}

impl Model for Space {
    ghost also_owns = { λ s. free_rooms s.region.block s.region.start s.free };
}

impl Space {
    // All of the memory is free. Its address comes besides, since a `&` to the space shows none.
    pub(crate) fn new(memory: Memory) -> (*mut u8, Space)
        requires { count_of memory.ptr + memory.size < 2 ^ 63 }
        ensures { (result.0 ≡ memory.ptr) × (result.1.region ≡ region_of memory.ptr memory.size) × (result.1.base ≡ memory.ptr) × (result.1.free ≡ replicate (memory.size / 16) true) }
    {
        let Memory { ptr, size: _ } = memory;
        (ptr, Space { base: ptr })
    }

    // All of the memory, where every grain is free.
    pub(crate) fn into_memory(self, size: usize) -> Memory
        requires { IsRegionSize size × (self.free ≡ replicate (size / 16) true) }
        ensures { (result.ptr ≡ self.base) × (result.size ≡ size) }
    {
        let Space { base } = self;
        Memory { ptr: base, size }
    }

    pub(crate) fn leak(self) {
        let _leaked = unsafe { ManuallyDrop::new_unchecked(self) };
    }

    // Gives the bytes of some free grains out.
    pub(crate) fn lend(self, at: usize, size: usize) -> (Space, Piece)
        requires { IsRun self.free at (size / 16) true × (16 ≤ size) × (size % 16 ≡ 0) }
        ensures { (result.0.base ≡ self.base) × (result.0.region ≡ self.region) × (result.0.free ≡ marked self.free at (size / 16) false) × (result.1.region ≡ self.region) × (result.1.at ≡ self.region.start + 16 * at) × (result.1.size ≡ size) }
    {
        let Space { base } = self;
        let ptr = unsafe { base.add(at * GRAIN) };
        (Space { base }, Piece { ptr, size })
    }

    // Takes them back.
    pub(crate) fn take_back(self, piece: Piece) -> (Space, ())
        requires { (piece.region ≡ self.region) × IsRun self.free (grain_of self.region piece.at) (piece.size / 16) false }
        ensures { (result.0.base ≡ self.base) × (result.0.region ≡ self.region) × (result.0.free ≡ marked self.free (grain_of self.region piece.at) (piece.size / 16) true) }
    {
        let Space { base } = self;
        let Piece { ptr: _, size: _ } = piece;
        (Space { base }, ())
    }
}

// Whether `ptr` lies before grain `at` of the memory at `base`. Each such comparison is here, and is counted.
pub(crate) fn lies_before(ptr: *mut u8, base: *mut u8, at: usize, compared: &mut Touches) -> bool
    requires { InBlock base × InBlock ptr × (block_of ptr ≡ block_of base) × (count_of base + 16 * at < 2 ^ 63) × (count_of ptr < 2 ^ 63) }
    ensures order { Decides result (count_of ptr < count_of base + 16 * at) }
    ensures counted { compared.new.count ≡ compared.old.count + 1 }
{
    compared.add_one();
    precedes_grain(ptr, base, at)
}

// Whether grain `at` of the memory at `base` begins at `ptr`. Each such comparison is here, and is counted.
pub(crate) fn begins_at(ptr: *mut u8, base: *mut u8, at: usize, compared: &mut Touches) -> bool
    requires { InBlock base × InBlock ptr × (block_of ptr ≡ block_of base) × (count_of base + 16 * at < 2 ^ 63) × (count_of ptr < 2 ^ 63) }
    ensures place { Decides result (count_of ptr ≡ count_of base + 16 * at) }
    ensures counted { compared.new.count ≡ compared.old.count + 1 }
{
    compared.add_one();
    equals_grain(ptr, base, at)
}

fn precedes_grain(ptr: *mut u8, base: *mut u8, at: usize) -> bool
    requires { InBlock base × InBlock ptr × (block_of ptr ≡ block_of base) × (count_of base + 16 * at < 2 ^ 63) × (count_of ptr < 2 ^ 63) }
    ensures { Decides result (count_of ptr < count_of base + 16 * at) }
{
    let grain = unsafe { base.add(at * GRAIN) };
    ptr < grain
}

fn equals_grain(ptr: *mut u8, base: *mut u8, at: usize) -> bool
    requires { InBlock base × InBlock ptr × (block_of ptr ≡ block_of base) × (count_of base + 16 * at < 2 ^ 63) × (count_of ptr < 2 ^ 63) }
    ensures { Decides result (count_of ptr ≡ count_of base + 16 * at) }
{
    let grain = unsafe { base.add(at * GRAIN) };
    if ptr == grain {
        return true;
    }
    false
}

// Where a piece is to lie: the number of its first grain, and its bytes.
#[derive(Clone, Copy)]
pub(crate) struct Run {
    pub(crate) at: usize,
    pub(crate) size: usize,
}

pub(crate) fn lend_run(space: Space, run: Run) -> (Space, Piece)
    requires { IsRun space.free run.at (run.size / 16) true × (16 ≤ run.size) × (run.size % 16 ≡ 0) }
    ensures { (result.0.base ≡ space.base) × (result.0.region ≡ space.region) × (result.0.free ≡ marked space.free run.at (run.size / 16) false) × (result.1.region ≡ space.region) × (result.1.at ≡ space.region.start + 16 * run.at) × (result.1.size ≡ run.size) }
{
    space.lend(run.at, run.size)
}
