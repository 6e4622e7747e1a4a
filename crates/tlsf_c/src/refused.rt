//! The requests that a heap refused for want of room.
ghost use Rattle.std.specs.Prelude.{◌≡◌, max};
ghost use Rattle.tlsf_heap.specs.Blocks;
ghost use Rattle.tlsf_heap.specs.Effects.{Allocates, AllocatesAligned, AllocatesUnset, Moves, MovesUnsetAt};
ghost use Rattle.tlsf_heap.specs.Touched.{allocate_aligned_touches, allocate_touches, move_touches, move_unset_touches, resize_touches, resize_unset_touches};
ghost use Rattle.tlsf_heap.specs.Shown.{seen};
ghost use Rattle.tlsf_c.specs.Handles.{NamesBlock};
ghost use Rattle.tlsf_c.specs.Counting.{none_refused, noted, noted_if, counts_of, counted_request, counted_move};

use crate::names::BlockName;
use crate::odd_note::note_odd;
use tlsf_heap::{Heap, Name, Refusal};

/// How many requests were refused as NoFit since the heap was opened, and the longest of them.
#[derive(Clone, Copy)]
pub struct Refused {
    /// From 2^32 - 1 on, no more are counted.
    pub requests: u32,
    /// In bytes, or 0.
    pub longest: u32,
}

impl Refused {
    /// Those of a new heap.
    pub fn none() -> Refused
        ensures { result ≡ none_refused }
    {
        Refused {
            requests: 0,
            longest: 0,
        }
    }

    /// Notes a request of `len` bytes by what it was answered.
    #[inline(always)]
    fn note(&mut self, answer: &Result<Name, Refusal>, len: u32)
        ensures { self.new ≡ noted self.old answer.now len }
    {
        if let Err(why) = answer {
            self.add(*why, len);
        }
    }

    /// A request of `len` bytes was refused: it is counted where that was for want of room.
    fn add(&mut self, why: Refusal, len: u32)
        ensures { self.new ≡ noted_if self.old len why }
    {
        if let Refusal::NoFit = why {
            self.requests = self.requests.saturating_add(1);
            self.longest = self.longest.max(len);
        }
    }

    /// `Heap::allocate`. The name goes into `into`, and an odd block is noted in `is_mixed`.
    // The zeros come last, when all else is written: so one register is held over them, and not five.
    #[inline(always)]
    pub fn allocate<const SLI: u32>(
        &mut self,
        heap: &mut Heap<SLI>,
        len: u32,
        is_mixed: &mut bool,
        into: &mut BlockName,
    ) -> Result<Name, Refusal>
        ensures allocates { Allocates allocate_touches SLI (Blocks.want len) len (seen heap.old) (seen heap.new) result }
        ensures names { NamesBlock len result into.old into.new is_mixed.old is_mixed.new }
        ensures counts { counts_of heap.new.heap heap.new.most_in_use self.new ≡ counted_request (counts_of heap.old.heap heap.old.most_in_use self.old) result len heap.new.heap }
        ensures stays { heap.new.extents ≡ heap.old.extents }
    {
        let answer = heap.allocate_unset(len);
        self.note(&answer, len);
        let new = match answer {
            Ok(new) => new,
            Err(why) => return Err(why),
        };
        note_odd(is_mixed, len);
        *into = BlockName::of(new);
        heap.zero_payload(new, len);
        Ok(new)
    }

    /// `Heap::allocate_unset`.
    #[inline(always)]
    pub fn allocate_unset<const SLI: u32>(
        &mut self,
        heap: &mut Heap<SLI>,
        len: u32,
    ) -> Result<Name, Refusal>
        ensures allocates { AllocatesUnset allocate_touches SLI (Blocks.want len) len (seen heap.old) (seen heap.new) heap.new.stored result }
        ensures counts { counts_of heap.new.heap heap.new.most_in_use self.new ≡ counted_request (counts_of heap.old.heap heap.old.most_in_use self.old) result len heap.new.heap }
        ensures stays { heap.new.extents ≡ heap.old.extents }
    {
        let answer = heap.allocate_unset(len);
        self.note(&answer, len);
        answer
    }

    /// `Heap::allocate_aligned`.
    #[inline(always)]
    pub fn allocate_aligned<const SLI: u32>(
        &mut self,
        heap: &mut Heap<SLI>,
        len: u32,
        step: u32,
        skew: u32,
    ) -> Result<Name, Refusal>
        ensures allocates { AllocatesAligned allocate_aligned_touches SLI len (max step 1) skew (seen heap.old) (seen heap.new) heap.new.stored result }
        ensures counts { counts_of heap.new.heap heap.new.most_in_use self.new ≡ counted_request (counts_of heap.old.heap heap.old.most_in_use self.old) result len heap.new.heap }
        ensures stays { heap.new.extents ≡ heap.old.extents }
    {
        let answer = heap.allocate_aligned(len, step, skew);
        self.note(&answer, len);
        answer
    }

    /// `Heap::resize_or_move`.
    #[inline(always)]
    pub fn resize_or_move<const SLI: u32>(
        &mut self,
        heap: &mut Heap<SLI>,
        name: Name,
        len: u32,
    ) -> Result<Name, Refusal>
        ensures moves { Moves resize_touches move_touches SLI len (seen heap.old) (seen heap.new) name result }
        ensures counts { counts_of heap.new.heap heap.new.most_in_use self.new ≡ counted_move (counts_of heap.old.heap heap.old.most_in_use self.old) name.at result len heap.new.heap }
        ensures stays { heap.new.extents ≡ heap.old.extents }
    {
        let answer = heap.resize_or_move(name, len);
        self.note(&answer, len);
        answer
    }

    /// `Heap::resize_or_move_unset_at`.
    #[inline(always)]
    pub fn resize_or_move_unset_at<const SLI: u32>(
        &mut self,
        heap: &mut Heap<SLI>,
        at: u32,
        len: u32,
    ) -> Result<Name, Refusal>
        ensures moves { MovesUnsetAt resize_unset_touches move_unset_touches SLI len (seen heap.old) (seen heap.new) heap.new.stored at result }
        ensures counts { counts_of heap.new.heap heap.new.most_in_use self.new ≡ counted_move (counts_of heap.old.heap heap.old.most_in_use self.old) at result len heap.new.heap }
        ensures stays { heap.new.extents ≡ heap.old.extents }
    {
        let answer = heap.resize_or_move_unset_at(at, len);
        self.note(&answer, len);
        answer
    }
}
