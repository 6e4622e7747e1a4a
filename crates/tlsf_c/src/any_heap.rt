//! A heap whose level is told when it is opened.
ghost use Rattle.std.specs.Prelude.{◌≡◌, ◌+◌, ◌-◌, ◌/◌, ◌≤◌, ◌↔◌, true, length, IfOk, IfErr, OnOk, IsErrOf};
ghost use Rattle.tlsf_heap.specs.Blocks.{want};
ghost use Rattle.tlsf_heap.specs.Lawful.{IsRegion};
ghost use Rattle.tlsf_heap.specs.Calls.{opened};
ghost use Rattle.tlsf_heap.specs.Effects.{Allocates, Locates, Reads, Releases, Reports, Resets, Resizes, Writes};
ghost use Rattle.tlsf_heap.specs.Touched.{allocate_touches, read_touches, release_touches, reset_touches, resize_touches, write_touches};
ghost use Rattle.tlsf_heap.specs.WordsInUse.{words_in_use};
ghost use Rattle.tlsf_c.specs.Counting.{no_counts, none_refused, counted, counted_request, recounted};
ghost use Rattle.tlsf_c.specs.LevelOf.{shown};
ghost use Rattle.tlsf_c.specs.Drains.{ReleasesAll};
ghost use Rattle.tlsf_c.specs.Handles.{posts_named, NamesBlock};
ghost use Rattle.tlsf_c.specs.Levels.{GoesOn, seen_at, GoesOnWith, IsLevel};
ghost use Rattle.tlsf_heap.specs.Shown.{seen};

mod around;
mod by_place;

use crate::at_level::at_level;
use crate::heap_counts::HeapCounts;
use crate::held_heap::HeldHeap;
use crate::names::BlockName;
use crate::refused::Refused;
use std::alloc::Global;
use std::marker::Model;
use tlsf_heap::{Heap, Name, OpenFault, Refusal, Report};

/// A heap of one of the two levels.
#[derive(Drop)]
pub enum OfLevel {
    Four(Heap<4>),
    Five(Heap<5>),
}

/// A heap whose level, 4 or 5, is told when it is opened. Contracts see it as its level, the sequential
/// heap, its touches and its counts.
#[derive(Drop)]
pub struct AnyHeap {
    // A request that is served doesn't touch it.
    refused: Refused,
    of_level: OfLevel,
}

impl Model for AnyHeap {
    ghost use Rattle.tlsf_c.specs.Levels.{LevelHeap};

    ghost Value = { LevelHeap };

    ghost use Rattle.tlsf_c.specs.LevelOf.{shown};

    ghost view = { λ a. shown a.of_level a.refused };
}

impl AnyHeap {
    /// Opens a heap of a level, 4 or 5, over `words` words: number `id`, tick 0. No call is using it.
    pub fn open(
        alloc: Global,
        level: u32,
        id: u32,
        words: u32,
    ) -> Result<Box<HeldHeap, Global>, OpenFault>
        requires level { IsLevel level }
        ensures idle { IfOk result (λ owned. owned.value.is_idle ≡ true) }
        ensures heap { IfOk result (λ owned. owned.value.heap.heap ≡ opened id words 0) }
        ensures level { IfOk result (λ owned. owned.value.heap.level ≡ level) }
        ensures bad_size { IsErrOf result OpenFault.BadSize ↔ ¬ (IsRegion level words) }
        ensures counts { IfOk result (λ owned. owned.value.heap.counts ≡ no_counts) }
        ensures no_memory { IsRegion level words → IfErr result (λ why. why ≡ OpenFault.NoMemory) }
        ensures touches { IfOk result (λ owned. owned.value.heap.touches ≤ 10) }
    {
        let mut owned = open_least(alloc, level, id, words)?;
        owned.heap.begin(words);
        Ok(owned)
    }

    /// `Heap::begin`.
    fn begin(&mut self, words: u32)
        requires new { self.old.heap ≡ opened self.old.heap.id 4 (self.old.heap.tick - 1) }
        requires words { IsRegion self.old.level words }
        requires words_room { words ≤ self.old.extents.words.capacity }
        requires starts_room { (words + 63) / 64 ≤ self.old.extents.starts.capacity }
        ensures heap { self.new.heap ≡ opened self.old.heap.id words (self.old.heap.tick - 1) }
        ensures level { self.new.level ≡ self.old.level }
        ensures counts { self.new.counts ≡ self.old.counts }
        ensures touches { self.new.touches ≤ 10 }
    {
        at_level!(OfLevel, &mut self.of_level, heap => heap.begin(words));
    }

    /// `Heap::allocate`. The name goes into `into`, and an odd block is noted in `is_mixed`.
    #[inline(always)]
    pub fn allocate(
        &mut self,
        len: u32,
        is_mixed: &mut bool,
        into: &mut BlockName,
    ) -> Result<Name, Refusal>
        ensures allocates { Allocates allocate_touches self.old.level (want len) len (seen_at self.old) (seen_at self.new) result }
        ensures names { NamesBlock len result into.old into.new is_mixed.old is_mixed.new }
        ensures goes_on { GoesOnWith self.old self.new (counted_request self.old.counts result len self.new.heap) }
    {
        at_level!(OfLevel, &mut self.of_level, heap => self.refused.allocate(heap, len, is_mixed, into))
    }

    /// `Heap::release`.
    pub fn release(&mut self, name: Name) -> Result<(), Refusal>
        ensures releases { Releases release_touches (seen_at self.old) (seen_at self.new) name result }
        ensures goes_on { GoesOnWith self.old self.new (recounted self.old.counts self.new.heap) }
    {
        at_level!(OfLevel, &mut self.of_level, heap => heap.release(name))
    }

    /// `Heap::release` of each name, in their order, whatever it answers.
    pub fn release_all(&mut self, names: &[BlockName])
        ensures releases { ReleasesAll (seen_at self.old) (seen_at self.new) (posts_named names.now) }
        ensures goes_on { GoesOnWith self.old self.new (recounted self.old.counts self.new.heap) }
    {
        at_level!(OfLevel, &mut self.of_level, heap => release_each(heap, names))
    }

    /// `Heap::reset`.
    pub fn reset(&mut self) -> Result<(), Refusal>
        ensures resets { Resets reset_touches (seen_at self.old) (seen_at self.new) result }
        ensures goes_on { GoesOnWith self.old self.new (recounted self.old.counts self.new.heap) }
    {
        at_level!(OfLevel, &mut self.of_level, heap => heap.reset())
    }

    /// `Heap::resize`.
    pub fn resize(&mut self, name: Name, len: u32) -> Result<(), Refusal>
        ensures resizes { Resizes resize_touches (want len) len (seen_at self.old) (seen_at self.new) name result }
        ensures goes_on { GoesOnWith self.old self.new (counted self.old.counts self.new.heap) }
    {
        at_level!(OfLevel, &mut self.of_level, heap => heap.resize(name, len))
    }

    /// `Heap::write`.
    pub fn write(&mut self, name: Name, at: u32, bytes: &[u8]) -> Result<(), Refusal>
        ensures writes { Writes (write_touches (length bytes.now)) (seen_at self.old) (seen_at self.new) name at bytes.now result }
        ensures goes_on { GoesOn self.old self.new }
        ensures counts { self.new.counts ≡ self.old.counts }
    {
        at_level!(OfLevel, &mut self.of_level, heap => heap.write(name, at, bytes))
    }

    /// `Heap::read`.
    pub fn read(&mut self, name: Name, at: u32, out: &mut [u8]) -> Result<(), Refusal>
        ensures reads { Reads (read_touches (length out.old)) (seen_at self.old) (seen_at self.new) name at out.old out.new result }
        ensures goes_on { GoesOnWith self.old self.new self.old.counts }
    {
        at_level!(OfLevel, &mut self.of_level, heap => heap.read(name, at, out))
    }

    /// `Heap::payload`.
    pub fn payload(&mut self, name: Name) -> Result<(*mut u64, u32), Refusal>
        ensures locates { Locates self.old.extents.words.address (seen_at self.old) (seen_at self.new) name result }
        ensures goes_on { GoesOnWith self.old self.new self.old.counts }
    {
        at_level!(OfLevel, &mut self.of_level, heap => heap.payload(name))
    }

    /// `Heap::report`.
    pub fn report(&mut self) -> Report
        ensures reports { Reports self.old.level (seen_at self.old) (seen_at self.new) result }
        ensures goes_on { GoesOnWith self.old self.new self.old.counts }
    {
        at_level!(OfLevel, &mut self.of_level, heap => heap.report())
    }

    /// The counts of its calls.
    pub fn counts(&self) -> HeapCounts
        ensures counts { result ≡ self.now.counts }

        // The words in use are what a report would find.
        ensures words { result.words ≡ words_in_use self.now.heap }
        ensures most { result.words ≤ result.most_words }
    {
        let (words, most_words) =
            at_level!(OfLevel, &self.of_level, heap => (heap.words_in_use(), heap.most_in_use()));
        HeapCounts {
            words,
            most_words,
            refused: self.refused.requests,
            longest_refused: self.refused.longest,
        }
    }
}

/// Opens a heap of a level over the first four words of memory for `words`, in its box. Each level has a box of its own, so that the
/// heap is made there.
#[inline(always)]
fn open_least(
    alloc: Global,
    level: u32,
    id: u32,
    words: u32,
) -> Result<Box<HeldHeap, Global>, OpenFault>
    requires level { IsLevel level }
    ensures idle { IfOk result (λ owned. owned.value.is_idle ≡ true) }
    ensures heap { IfOk result (λ owned. owned.value.heap.heap ≡ opened id 4 0) }
    ensures level { IfOk result (λ owned. owned.value.heap.level ≡ level) }
    ensures counts { IfOk result (λ owned. owned.value.heap.counts ≡ no_counts) }
    ensures region { OnOk result (IsRegion level words) }
    ensures bad_size { IsErrOf result OpenFault.BadSize ↔ ¬ (IsRegion level words) }
    ensures no_memory { IsRegion level words → IfErr result (λ why. why ≡ OpenFault.NoMemory) }
    ensures words_room { IfOk result (λ owned. words ≤ owned.value.heap.extents.words.capacity) }
    ensures starts_room { IfOk result (λ owned. (words + 63) / 64 ≤ owned.value.heap.extents.starts.capacity) }
{
    if level == 4 {
        let heap = Heap::<4>::open_for(alloc, id, words, 0)?;
        boxed(alloc, OfLevel::Four(heap))
    } else {
        let heap = Heap::<5>::open_for(alloc, id, words, 0)?;
        boxed(alloc, OfLevel::Five(heap))
    }
}

/// A new heap in a box, which no call is using.
#[inline(always)]
fn boxed(alloc: Global, of_level: OfLevel) -> Result<Box<HeldHeap, Global>, OpenFault>
    ensures idle { IfOk result (λ owned. owned.value.is_idle ≡ true) }
    ensures heap { IfOk result (λ owned. owned.value.heap ≡ shown of_level none_refused) }
    ensures no_memory { IfErr result (λ why. why ≡ OpenFault.NoMemory) }
{
    let held = HeldHeap {
        is_idle: true,
        heap: AnyHeap {
            refused: Refused::none(),
            of_level,
        },
    };
    match Box::new(alloc, held) {
        Ok(owned) => Ok(owned),
        Err(_) => Err(OpenFault::NoMemory),
    }
}

/// Releases the block of each name, in their order, whatever the heap answers.
fn release_each<const SLI: u32>(heap: &mut Heap<SLI>, names: &[BlockName])
    ensures releases { ReleasesAll (seen heap.old) (seen heap.new) (posts_named names.now) }
    ensures stays { heap.new.extents ≡ heap.old.extents }
    ensures most { heap.new.most_in_use ≡ heap.old.most_in_use }
{
    for block in names {
        let _ = heap.release(block.name());
    }
}
