//! The heap of C's calls by place, whose level is told when it is opened.
ghost use Rattle.std.specs.Prelude.{◌≡◌, max};
ghost use Rattle.tlsf_heap.specs.Blocks.{want};
ghost use Rattle.tlsf_heap.specs.Effects.{AllocatesAligned, AllocatesUnset, ChecksBlocks, Looks, Moves, MovesUnsetAt, NamesAt, ReleasesAt};
ghost use Rattle.tlsf_heap.specs.Touched.{allocate_aligned_touches, allocate_touches, move_touches, move_unset_touches, release_at_touches, resize_touches, resize_unset_touches};
ghost use Rattle.tlsf_c.specs.Counting.{counted_request, counted_move, recounted};
ghost use Rattle.tlsf_c.specs.Levels.{seen_at, GoesOnWith};

use super::{AnyHeap, OfLevel};
use crate::at_level::at_level;
use tlsf_heap::{Checked, Name, PlacedBlock, Refusal};

impl AnyHeap {
    /// `Heap::id`.
    pub fn id(&self) -> u32
        ensures { result ≡ self.now.heap.id }
    {
        at_level!(OfLevel, &self.of_level, heap => heap.id())
    }

    /// `Heap::base`.
    pub fn base(&mut self) -> *mut u64
        ensures address { result ≡ self.old.extents.words.address }
        ensures same { self.new ≡ self.old }
    {
        at_level!(OfLevel, &mut self.of_level, heap => heap.base())
    }

    /// `Heap::allocate_unset`.
    // Always inline: two of C's calls end in it, and a call of its own would take each twenty instructions more.
    #[inline(always)]
    pub fn allocate_unset(&mut self, len: u32) -> Result<Name, Refusal>
        ensures allocates { AllocatesUnset allocate_touches self.old.level (want len) len (seen_at self.old) (seen_at self.new) self.new.stored result }
        ensures goes_on { GoesOnWith self.old self.new (counted_request self.old.counts result len self.new.heap) }
    {
        at_level!(OfLevel, &mut self.of_level, heap => self.refused.allocate_unset(heap, len))
    }

    /// `Heap::allocate_aligned`.
    pub fn allocate_aligned(&mut self, len: u32, step: u32, skew: u32) -> Result<Name, Refusal>
        ensures allocates { AllocatesAligned allocate_aligned_touches self.old.level len (max step 1) skew (seen_at self.old) (seen_at self.new) self.new.stored result }
        ensures goes_on { GoesOnWith self.old self.new (counted_request self.old.counts result len self.new.heap) }
    {
        at_level!(OfLevel, &mut self.of_level, heap => self.refused.allocate_aligned(heap, len, step, skew))
    }

    /// `Heap::block_at`.
    pub fn block_at(&mut self, at: u32) -> Option<PlacedBlock>
        ensures looks { Looks (seen_at self.old) (seen_at self.new) at result }
        ensures goes_on { GoesOnWith self.old self.new self.old.counts }
    {
        at_level!(OfLevel, &mut self.of_level, heap => heap.block_at(at))
    }

    /// `Heap::check_blocks`.
    pub fn check_blocks(&mut self, from: u32, most: u32) -> Option<Checked>
        ensures checks { ChecksBlocks self.old.stored from most (seen_at self.old) (seen_at self.new) result }
        ensures goes_on { GoesOnWith self.old self.new self.old.counts }
    {
        at_level!(OfLevel, &mut self.of_level, heap => heap.check_blocks(from, most))
    }

    /// `Heap::name_at`.
    pub fn name_at(&mut self, at: u32) -> Option<Name>
        ensures names { NamesAt (seen_at self.old) (seen_at self.new) at result }
        ensures goes_on { GoesOnWith self.old self.new self.old.counts }
    {
        at_level!(OfLevel, &mut self.of_level, heap => heap.name_at(at))
    }

    /// `Heap::release_at`.
    pub fn release_at(&mut self, at: u32) -> Result<(), Refusal>
        ensures releases { ReleasesAt release_at_touches (seen_at self.old) (seen_at self.new) at result }
        ensures goes_on { GoesOnWith self.old self.new (recounted self.old.counts self.new.heap) }
    {
        at_level!(OfLevel, &mut self.of_level, heap => heap.release_at(at))
    }

    /// `Heap::resize_or_move_unset_at`.
    pub fn resize_or_move_unset_at(&mut self, at: u32, len: u32) -> Result<Name, Refusal>
        ensures moves { MovesUnsetAt resize_unset_touches move_unset_touches self.old.level len (seen_at self.old) (seen_at self.new) self.new.stored at result }
        ensures goes_on { GoesOnWith self.old self.new (counted_move self.old.counts at result len self.new.heap) }
    {
        at_level!(OfLevel, &mut self.of_level, heap => self.refused.resize_or_move_unset_at(heap, at, len))
    }

    /// `Heap::resize_or_move`.
    pub fn resize_or_move(&mut self, name: Name, len: u32) -> Result<Name, Refusal>
        ensures moves { Moves resize_touches move_touches self.old.level len (seen_at self.old) (seen_at self.new) name result }
        ensures goes_on { GoesOnWith self.old self.new (counted_move self.old.counts name.at result len self.new.heap) }
    {
        at_level!(OfLevel, &mut self.of_level, heap => self.refused.resize_or_move(heap, name, len))
    }
}
