//! An arena of offsets whose level is told when it is opened.
ghost use Rattle.std.specs.Prelude.{◌≡◌, ◌≢◌, ◌+◌, ◌-◌, ◌*◌, ◌/◌, ◌<◌, ◌≤◌, ◌↔◌, true, length, Some, IfOk, IfErr, OnOk, IsErrOf, MatchResult, Ok, Err};
ghost use Rattle.tlsf_heap.specs.Calls.{opened, allocated_words, resized_words};
ghost use Rattle.tlsf_heap.specs.Effects.{Allocates, Releases, Resizes};
ghost use Rattle.tlsf_heap.specs.Lawful.{IsRegion};
ghost use Rattle.tlsf_heap.specs.Touched.{allocate_touches, release_touches, resize_touches};
ghost use Rattle.tlsf_offsets.specs.Offsets.{IsHeld, KeepsOthers, span_units, usage_of, seen_of};
ghost use Rattle.tlsf_offsets.specs.declared.span.Span.{Span};
ghost use Rattle.tlsf_c.specs.OffsetLevels.{OffsetsAnswer};
ghost use Rattle.tlsf_c.specs.Arenas.{is_arena_idle, is_offsets, offsets_of};
ghost use Rattle.tlsf_c.specs.OffsetsOf.{offsets_shown};
ghost use Rattle.tlsf_c.specs.Levels.{IsLevel};

use crate::any_arena::AnyArena;
use crate::at_level::at_level;
use std::alloc::Global;
use std::marker::Model;
use tlsf_offsets::{Name, OffsetArena, OpenFault, Refusal, Span, Usage};

/// An arena of one of the two levels.
#[derive(Drop)]
pub enum OffsetsOfLevel {
    Four(OffsetArena<4>),
    Five(OffsetArena<5>),
}

/// An arena whose level, 4 or 5, is told when it is opened. Contracts see it as its level and what the arena shows.
#[derive(Drop)]
pub struct AnyOffsets {
    of_level: OffsetsOfLevel,
}

impl Model for AnyOffsets {
    ghost use Rattle.tlsf_c.specs.OffsetLevels.{LevelOffsets};

    ghost Value = { LevelOffsets };

    ghost use Rattle.tlsf_c.specs.OffsetsOf.{offsets_shown};

    ghost view = { λ a. offsets_shown a.of_level };
}

impl AnyOffsets {
    /// Opens an arena of a level, 4 or 5, over `units` units of `unit` bytes: number `id`. No call is using it.
    pub fn open(
        alloc: Global,
        level: u32,
        id: u32,
        unit: u32,
        units: u32,
    ) -> Result<Box<AnyArena, Global>, OpenFault>
        requires level { IsLevel level }
        ensures idle { IfOk result (λ owned. is_arena_idle (Some owned.value) ≡ true) }
        ensures kind { IfOk result (λ owned. is_offsets (Some owned.value) ≡ true) }
        ensures heap { IfOk result (λ owned. (offsets_of (Some owned.value)).offsets.heap ≡ opened id units 0) }
        ensures level { IfOk result (λ owned. (offsets_of (Some owned.value)).level ≡ level) }
        ensures unit { IfOk result (λ owned. (offsets_of (Some owned.value)).offsets.unit ≡ unit) }
        ensures bad_size { IsErrOf result OpenFault.BadSize ↔ ¬ ((0 < unit) × IsRegion level units) }
        ensures not_worn { ¬ (IsErrOf result OpenFault.Worn) }
        ensures touches { IfOk result (λ owned. (offsets_of (Some owned.value)).offsets.touches ≤ 10) }
    {
        let mut owned = open_least(alloc, level, id, unit, units)?;
        if let AnyArena::Offsets { owned: offsets, .. } = &mut *owned {
            offsets.begin(units);
        }
        Ok(owned)
    }

    /// `OffsetArena::begin`.
    fn begin(&mut self, units: u32)
        requires new { self.old.offsets.heap ≡ opened self.old.offsets.heap.id 4 (self.old.offsets.heap.tick - 1) }
        requires units { IsRegion self.old.level units }
        requires words_room { units ≤ self.old.offsets.extents.words.capacity }
        requires starts_room { (units + 63) / 64 ≤ self.old.offsets.extents.starts.capacity }
        ensures heap { self.new.offsets.heap ≡ opened self.old.offsets.heap.id units (self.old.offsets.heap.tick - 1) }
        ensures level { self.new.level ≡ self.old.level }
        ensures unit { self.new.offsets.unit ≡ self.old.offsets.unit }
        ensures touches { self.new.offsets.touches ≤ 10 }
    {
        at_level!(OffsetsOfLevel, &mut self.of_level, arena => arena.begin(units));
    }

    /// `OffsetArena::allocate`.
    pub fn allocate(&mut self, len: u64) -> Result<Span, Refusal>
        ensures answer { MatchResult result (λ span. (allocated_words self.old.level self.old.offsets.heap (span_units self.old.offsets.unit len) 0).answer ≡ Ok span.name) (λ why. (allocated_words self.old.level self.old.offsets.heap (span_units self.old.offsets.unit len) 0).answer ≡ Err why) }
        ensures allocates { Allocates (allocate_touches + 1) self.old.level (span_units self.old.offsets.unit len) 0 (seen_of self.old.offsets) (seen_of self.new.offsets) (allocated_words self.old.level self.old.offsets.heap (span_units self.old.offsets.unit len) 0).answer }
        ensures held { IfOk result (λ span. IsHeld self.new.offsets span) }
        ensures enough { IfOk result (λ span. len ≤ span.size) }
        ensures others { (other : Span) → IsHeld self.old.offsets other → IsHeld self.new.offsets other }
        ensures fresh { IfOk result (λ span. (other : Span) → IsHeld self.old.offsets other → other.name ≢ span.name) }
        ensures goes_on { OffsetsAnswer self.old self.new result }
    {
        at_level!(OffsetsOfLevel, &mut self.of_level, arena => arena.allocate(len))
    }

    /// `OffsetArena::release`.
    pub fn release(&mut self, name: Name) -> Result<(), Refusal>
        ensures releases { Releases release_touches (seen_of self.old.offsets) (seen_of self.new.offsets) name result }
        ensures others { KeepsOthers self.old.offsets self.new.offsets name }
        ensures gone { OnOk result ((span : Span) → IsHeld self.new.offsets span → span.name ≢ name) }
        ensures goes_on { OffsetsAnswer self.old self.new result }
    {
        at_level!(OffsetsOfLevel, &mut self.of_level, arena => arena.release(name))
    }

    /// `OffsetArena::resize`.
    pub fn resize(&mut self, name: Name, len: u64) -> Result<Span, Refusal>
        ensures answer { MatchResult result (λ span. ((resized_words self.old.offsets.heap name (span_units self.old.offsets.unit len) 0).answer ≡ Ok tt) × (span.name ≡ name)) (λ why. (resized_words self.old.offsets.heap name (span_units self.old.offsets.unit len) 0).answer ≡ Err why) }
        ensures resizes { Resizes (resize_touches + 1) (span_units self.old.offsets.unit len) 0 (seen_of self.old.offsets) (seen_of self.new.offsets) name (resized_words self.old.offsets.heap name (span_units self.old.offsets.unit len) 0).answer }
        ensures held { IfOk result (λ span. IsHeld self.new.offsets span) }
        ensures enough { IfOk result (λ span. len ≤ span.size) }
        ensures others { KeepsOthers self.old.offsets self.new.offsets name }
        ensures goes_on { OffsetsAnswer self.old self.new result }
    {
        at_level!(OffsetsOfLevel, &mut self.of_level, arena => arena.resize(name, len))
    }

    /// `OffsetArena::usage`.
    pub fn usage(&mut self) -> Usage
        ensures usage { result ≡ usage_of self.old.level self.old.offsets }
        ensures same { (self.new.level ≡ self.old.level) × (self.new.offsets.heap ≡ self.old.offsets.heap) × (self.new.offsets.unit ≡ self.old.offsets.unit) }
        ensures touches { self.new.offsets.touches ≤ self.old.offsets.touches + 2 * length self.old.offsets.heap.blocks }
    {
        at_level!(OffsetsOfLevel, &mut self.of_level, arena => arena.usage())
    }
}

/// Opens an arena of a level over the first four of `units` units, in its box. Each level has a box of its own, so that the arena is made
/// there.
#[inline(always)]
fn open_least(
    alloc: Global,
    level: u32,
    id: u32,
    unit: u32,
    units: u32,
) -> Result<Box<AnyArena, Global>, OpenFault>
    requires level { IsLevel level }
    ensures idle { IfOk result (λ owned. is_arena_idle (Some owned.value) ≡ true) }
    ensures kind { IfOk result (λ owned. is_offsets (Some owned.value) ≡ true) }
    ensures heap { IfOk result (λ owned. (offsets_of (Some owned.value)).offsets.heap ≡ opened id 4 0) }
    ensures level { IfOk result (λ owned. (offsets_of (Some owned.value)).level ≡ level) }
    ensures unit { IfOk result (λ owned. (offsets_of (Some owned.value)).offsets.unit ≡ unit) }
    ensures region { OnOk result (IsRegion level units) }
    ensures bad_size { IsErrOf result OpenFault.BadSize ↔ ¬ ((0 < unit) × IsRegion level units) }
    ensures not_worn { ¬ (IsErrOf result OpenFault.Worn) }
    ensures words_room { IfOk result (λ owned. units ≤ (offsets_of (Some owned.value)).offsets.extents.words.capacity) }
    ensures starts_room { IfOk result (λ owned. (units + 63) / 64 ≤ (offsets_of (Some owned.value)).offsets.extents.starts.capacity) }
{
    if level == 4 {
        let arena = OffsetArena::<4>::open_for(alloc, id, unit, units)?;
        boxed(alloc, OffsetsOfLevel::Four(arena))
    } else {
        let arena = OffsetArena::<5>::open_for(alloc, id, unit, units)?;
        boxed(alloc, OffsetsOfLevel::Five(arena))
    }
}

/// A new arena in a box, which no call is using.
#[inline(always)]
fn boxed(alloc: Global, of_level: OffsetsOfLevel) -> Result<Box<AnyArena, Global>, OpenFault>
    ensures idle { IfOk result (λ owned. is_arena_idle (Some owned.value) ≡ true) }
    ensures kind { IfOk result (λ owned. is_offsets (Some owned.value) ≡ true) }
    ensures arena { IfOk result (λ owned. offsets_of (Some owned.value) ≡ offsets_shown of_level) }
    ensures no_memory { IfErr result (λ why. why ≡ OpenFault.NoMemory) }
{
    let held = AnyArena::Offsets {
        is_idle: true,
        owned: AnyOffsets { of_level },
    };
    match Box::new(alloc, held) {
        Ok(owned) => Ok(owned),
        Err(_) => Err(OpenFault::NoMemory),
    }
}
