ghost use Rattle.std.specs.Prelude.{◌≡◌, ◌≢◌, ◌↔◌, ◌+◌, ◌-◌, ◌*◌, ◌/◌, ◌<◌, ◌≤◌, min, length, IfOk, OnOk, OnErr, IsErrOf, MatchResult, Ok, Err};
ghost use Rattle.tlsf_class.specs.Classes.{IsLevel};
ghost use Rattle.tlsf_heap.specs.Calls.{opened, allocated_words, resized_words};
ghost use Rattle.tlsf_heap.specs.Lawful.{IsRegion};
ghost use Rattle.tlsf_heap.specs.Touched.{allocate_touches, release_touches, resize_touches};
ghost use Rattle.tlsf_offsets.specs.Offsets.{GoesOn, IsOffsets, IsHeld, IsServed, KeepsOthers, Looks, span_units, usage_of, seen_of};
ghost use Rattle.tlsf_heap.specs.Laws.{IsLive};
ghost use Rattle.tlsf_offsets.specs.declared.span.Span.{Span};
ghost use Rattle.tlsf_heap.specs.Effects.{Allocates, Releases, Resizes};

use crate::span::Span;
use crate::usage::Usage;
use std::alloc::Global;
use std::marker::Model;
use tlsf_heap::{Heap, Name, OpenFault, Refusal};

/// Says where blocks lie in memory that is cut into units and that it never touches.
///
/// Its level is that of its heap: at level 4 the memory has 4 to 2^20 units, at level 5 to 2^24. Sizes and offsets are in bytes.
/// Each offset is a multiple of the unit, so blocks are aligned as the unit is, where the memory itself begins so.
#[derive(Drop)]
pub struct OffsetArena<const SLI: u32> {
    heap: Heap<SLI>,
    unit: u32,
}

impl<const SLI: u32> Model for OffsetArena<SLI> {
    ghost use Rattle.tlsf_offsets.specs.Offsets.{Offsets, IsOffsets};

    ghost Value = { Offsets };

    ghost view = { λ o. record { heap = o.heap.heap; unit = o.unit; extents = o.heap.extents; touches = o.heap.touches; touched = o.heap.touched } };

    ghost invariant = { λ o. IsOffsets SLI (record { heap = o.heap.heap; unit = o.unit; extents = o.heap.extents; touches = o.heap.touches; touched = o.heap.touched }) };
}

/// The units for `len` bytes. More than a number of 32 bits tells are as many as that tells, which no memory has either.
fn units_of(unit: u32, len: u64) -> u32
    requires { 0 < unit }
    ensures { result ≡ min (span_units unit len) u32.MAX }
{
    len.div_ceil(u64::from(unit)).clamp(4, u64::from(u32::MAX)) as u32
}

impl<const SLI: u32> OffsetArena<SLI> {
    /// Opens an arena of number `id` over memory of `units` units of `unit` bytes each. All of it is free.
    ///
    /// Refused as `BadSize` where `unit` is 0, or `units` below 4, or above 2^20 at level 4 and 2^24 at level 5. Otherwise as
    /// `NoMemory` where the memory for its heap was not granted, 8 bytes a unit and some. No later call takes memory.
    ///
    /// ```text
    /// let arena = OffsetArena::<4>::open(alloc, 0, 65_536, 4_096)?;        // 256 MiB in units of 64 KiB
    /// OffsetArena::<4>::open(alloc, 0, 65_536, 3).err() == Some(OpenFault::BadSize)
    /// ```
    pub fn open(
        alloc: Global,
        id: u32,
        unit: u32,
        units: u32,
    ) -> Result<OffsetArena<SLI>, OpenFault>
        requires { IsLevel SLI }
        ensures heap { IfOk result (λ arena. arena.heap ≡ opened id units 0) }
        ensures unit { IfOk result (λ arena. arena.unit ≡ unit) }
        ensures bad_size { IsErrOf result OpenFault.BadSize ↔ ¬ ((0 < unit) × IsRegion SLI units) }
        ensures not_worn { ¬ (IsErrOf result OpenFault.Worn) }
        ensures lawful { IfOk result (λ arena. IsOffsets SLI arena) }
        ensures touches { IfOk result (λ arena. arena.touches ≤ 10) }
    {
        let mut arena = OffsetArena::open_for(alloc, id, unit, units)?;
        arena.begin(units);
        Ok(arena)
    }

    /// Opens an arena of number `id` over the first four of `units` units of `unit` bytes each. [`OffsetArena::begin`] makes it one of all
    /// of them. So an arena is made where it lies, and is not copied.
    ///
    /// Refused as [`OffsetArena::open`].
    ///
    /// ```text
    /// let arena = OffsetArena::<4>::open_for(alloc, 0, 65_536, 4_096)?;    // of 4 units
    /// ```
    #[inline(always)]
    pub fn open_for(
        alloc: Global,
        id: u32,
        unit: u32,
        units: u32,
    ) -> Result<OffsetArena<SLI>, OpenFault>
        requires { IsLevel SLI }
        ensures heap { IfOk result (λ arena. arena.heap ≡ opened id 4 0) }
        ensures unit { IfOk result (λ arena. arena.unit ≡ unit) }
        ensures region { OnOk result (IsRegion SLI units) }
        ensures bad_size { IsErrOf result OpenFault.BadSize ↔ ¬ ((0 < unit) × IsRegion SLI units) }
        ensures not_worn { ¬ (IsErrOf result OpenFault.Worn) }
        ensures words_room { IfOk result (λ arena. units ≤ arena.extents.words.capacity) }
        ensures starts_room { IfOk result (λ arena. (units + 63) / 64 ≤ arena.extents.starts.capacity) }
    {
        if unit == 0 {
            return Err(OpenFault::BadSize);
        }
        let heap = Heap::open_for(alloc, id, units, 0)?;
        Ok(OffsetArena { heap, unit })
    }

    /// Makes an arena that is new, and has four units, one of `units` units, for which [`OffsetArena::open_for`] took the memory. The
    /// touches are counted from here on.
    ///
    /// ```text
    /// let mut arena = OffsetArena::<4>::open_for(alloc, 0, 65_536, 4_096)?;
    /// arena.begin(4_096);                                                  // as `OffsetArena::open` gives it
    /// ```
    pub fn begin(&mut self, units: u32)
        requires new { self.old.heap ≡ opened self.old.heap.id 4 (self.old.heap.tick - 1) }
        requires units { IsRegion SLI units }
        requires words_room { units ≤ self.old.extents.words.capacity }
        requires starts_room { (units + 63) / 64 ≤ self.old.extents.starts.capacity }
        ensures heap { self.new.heap ≡ opened self.old.heap.id units (self.old.heap.tick - 1) }
        ensures unit { self.new.unit ≡ self.old.unit }
        ensures lawful { IsOffsets SLI self.new }
        ensures touches { self.new.touches ≤ 10 }
    {
        self.heap.begin(units);
    }

    /// Gives a span of at least `len` bytes, by good fit (ECRTS 2004, sections 3 and 4).
    ///
    /// Refused as `NoFit` where no free block lies in a class at or above the search class of the units wanted. Otherwise as `Worn`
    /// where the tick is at its last value. Takes no memory.
    ///
    /// ```text
    /// let span = arena.allocate(1_000_000)?;       // units of 64 KiB: 16 of them, 1,048,576 bytes
    /// ```
    pub fn allocate(&mut self, len: u64) -> Result<Span, Refusal>
        ensures answer { MatchResult result (λ span. (allocated_words SLI self.old.heap (span_units self.old.unit len) 0).answer ≡ Ok span.name) (λ why. (allocated_words SLI self.old.heap (span_units self.old.unit len) 0).answer ≡ Err why) }

        // However large it is: a look at the block that was given takes a touch.
        ensures allocates { Allocates (allocate_touches + 1) SLI (span_units self.old.unit len) 0 (seen_of self.old) (seen_of self.new) (allocated_words SLI self.old.heap (span_units self.old.unit len) 0).answer }

        // A refusal changes nothing.
        ensures err { OnErr result (self.new.heap ≡ self.old.heap) }

        ensures span { IfOk result (IsServed self.old self.new len) }

        // Spans that were held still are.
        ensures others { (other : Span) → IsHeld self.old other → IsHeld self.new other }
        ensures new { IfOk result (λ span. (other : Span) → IsHeld self.old other → other.name ≢ span.name) }
        ensures goes_on { GoesOn SLI self.old self.new }
    {
        match self.heap.allocate_words(units_of(self.unit, len), 0) {
            Ok(name) => Ok(self.span_of(name)),
            Err(why) => Err(why),
        }
    }

    /// Takes the span of that name back, and merges its block with the free neighbours (ECRTS 2004, section 4).
    ///
    /// Refused as `Foreign` where the name is of another arena. Otherwise as `Stale` where no span of that name is held. Otherwise
    /// as `Worn` where the tick is at its last value. Takes no memory.
    ///
    /// ```text
    /// arena.release(span.name) == Ok(())
    /// arena.release(span.name) == Err(Refusal::Stale)
    /// ```
    pub fn release(&mut self, name: Name) -> Result<(), Refusal>
        ensures releases { Releases release_touches (seen_of self.old) (seen_of self.new) name result }

        // A refusal changes nothing. Spans of other names are held as before, and one of this name no more.
        ensures err { OnErr result (self.new.heap ≡ self.old.heap) }
        ensures others { KeepsOthers self.old self.new name }
        ensures gone { OnOk result ((span : Span) → IsHeld self.new span → span.name ≢ name) }
        ensures goes_on { GoesOn SLI self.old self.new }
    {
        self.heap.release(name)
    }

    /// Makes the span of that name hold `len` bytes where it lies: its offset and its name stay. It takes in the free units after
    /// it where it grows. It gives back those that it needs no more, where there are four or more of them.
    ///
    /// Refused as `Foreign` where the name is of another arena. Otherwise as `Stale` where no span of that name is held. Otherwise
    /// as `NoRoom` where it and the free units behind it are fewer than wanted. Otherwise as `Worn` where the tick is at its last
    /// value. Takes no memory.
    ///
    /// ```text
    /// let longer = arena.resize(span.name, 3_000_000)?;    // the same offset, 3,014,656 bytes
    /// ```
    pub fn resize(&mut self, name: Name, len: u64) -> Result<Span, Refusal>
        ensures answer { MatchResult result (λ span. ((resized_words self.old.heap name (span_units self.old.unit len) 0).answer ≡ Ok tt) × (span.name ≡ name)) (λ why. (resized_words self.old.heap name (span_units self.old.unit len) 0).answer ≡ Err why) }
        ensures resizes { Resizes (resize_touches + 1) (span_units self.old.unit len) 0 (seen_of self.old) (seen_of self.new) name (resized_words self.old.heap name (span_units self.old.unit len) 0).answer }

        // A refusal changes nothing. Spans of other names are held as before.
        ensures err { OnErr result (self.new.heap ≡ self.old.heap) }
        ensures span { IfOk result (IsServed self.old self.new len) }
        ensures others { KeepsOthers self.old self.new name }
        ensures goes_on { GoesOn SLI self.old self.new }
    {
        match self.heap.resize_words(name, units_of(self.unit, len), 0) {
            Ok(()) => Ok(self.span_of(name)),
            Err(refusal) => Err(refusal),
        }
    }

    /// The units that are held and those that are free, by a walk over all blocks. It is for whoever looks on, not for a call with
    /// a deadline.
    ///
    /// ```text
    /// arena.usage()        // Usage { spans: 1, held: 1_048_576, free: 267_386_880, largest: 267_386_880 }
    /// ```
    pub fn usage(&mut self) -> Usage
        ensures usage { result ≡ usage_of SLI self.old }
        ensures looks { Looks (2 * length self.old.heap.blocks) self.old self.new }
    {
        let report = self.heap.report();
        Usage {
            spans: report.live_blocks,
            held: self.bytes(report.live_words),
            free: self.bytes(report.free_words),
            largest: self.bytes(report.largest),
        }
    }

    /// The bytes of `units` units.
    fn bytes(&self, units: u32) -> u64
        ensures { result ≡ self.now.unit * units }
    {
        u64::from(self.unit) * u64::from(units)
    }

    /// The span of a name that is live.
    fn span_of(&mut self, name: Name) -> Span
        requires { IsLive self.old.heap name }
        ensures held { IsHeld self.old result }
        ensures name { result.name ≡ name }
        ensures looks { Looks 1 self.old self.new }
    {
        let units = self.heap.words_of(name);
        Span {
            name,
            offset: self.bytes(name.at),
            size: self.bytes(units),
        }
    }
}
