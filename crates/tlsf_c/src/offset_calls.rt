//! C's calls of an arena of offsets, into memory that the processor never touches.
ghost use Rattle.std.specs.Prelude.{◌≡◌, ◌≢◌, true, ◌+◌, ◌*◌, ◌<◌, ◌≤◌, length};
ghost use Rattle.tlsf_heap.specs.Calls.{opened, allocated_words, released, resized_words};
ghost use Rattle.tlsf_heap.specs.Effects.{Allocates, Releases, Resizes};
ghost use Rattle.tlsf_heap.specs.Lawful.{IsRegion};
ghost use Rattle.tlsf_heap.specs.Touched.{allocate_touches, release_touches, resize_touches};
ghost use Rattle.tlsf_offsets.specs.Offsets.{IsHeld, KeepsOthers, span_units, usage_of, seen_of};
ghost use Rattle.tlsf_offsets.specs.declared.span.Span.{Span};
ghost use Rattle.tlsf_c.specs.Names.{name_of};
ghost use Rattle.tlsf_c.specs.OffsetHandles.{offsets_in, offsets_level, holds_offsets, span_of, usage_told, OnOffsets};
ghost use Rattle.tlsf_c.specs.Refusals.{status_of};
ghost use Rattle.tlsf_c.specs.Serving.{arena_serves, ClosesArena, OnKind, OpensAtLevel};
ghost use Rattle.tlsf_c.specs.Handles.{Tells};

use crate::any_offsets::AnyOffsets;
use crate::arena_slot::{ArenaSlot, on_arena};
use crate::call_fault::CallFault;
use crate::names::BlockName;
use crate::spans::{OffsetSpan, OffsetUsage};
use std::alloc::Global;

/// Opens an arena of a level, 4 or 5, and number `id` over memory of `units` units of `unit` bytes, in a closed handle. It never touches
/// that memory.
///
/// Refused as InUse where the handle is open. Otherwise as BadLevel where there is no such level. Otherwise as BadSize where `unit`
/// is 0, or `units` is below 4, or above 2^20 at level 4 and 2^24 at level 5. Otherwise as NoMemory where the memory for its heap
/// was not granted, 8 bytes a unit and some. No later call takes memory.
///
/// ```text
/// tlsf_offsets_open(&offsets, 4, 1, 65536, 4096) == TLSF_OK     // 256 MiB in units of 64 KiB
/// ```
#[unsafe(no_mangle)]
pub extern "C" fn tlsf_offsets_open(
    alloc: Global,
    offsets: &mut ArenaSlot,
    level: u32,
    id: u32,
    unit: u32,
    units: u32,
) -> u32
    ensures refusals { OpensAtLevel offsets.old.is_open level ((0 < unit) × IsRegion level units) offsets.old offsets.new result }
    ensures opens { result ≡ 0 → (arena_serves offsets.new ≡ true) × (holds_offsets offsets.new ≡ true) }
    ensures arena { result ≡ 0 → (offsets_level offsets.new ≡ level) × ((offsets_in offsets.new).heap ≡ opened id units 0) × ((offsets_in offsets.new).unit ≡ unit) × ((offsets_in offsets.new).touches ≤ 10) }
{
    if offsets.is_open {
        return CallFault::InUse.number();
    }
    if level < 4 || level > 5 {
        return CallFault::BadLevel.number();
    }
    match AnyOffsets::open(alloc, level, id, unit, units) {
        Err(fault) => fault.number(),
        Ok(owned) => {
            offsets.put_in(owned);
            0
        }
    }
}

/// Closes an arena. No name of its spans is of use from then on.
///
/// Refused as Closed where the handle isn't open. Otherwise as OtherKind where it holds another kind of arena.
///
/// ```text
/// tlsf_offsets_close(&offsets) == TLSF_OK
/// ```
#[unsafe(no_mangle)]
pub extern "C" fn tlsf_offsets_close(alloc: Global, offsets: &mut ArenaSlot) -> u32
    ensures { ClosesArena (holds_offsets offsets.old) offsets.old offsets.new result }
{
    if !offsets.serves() {
        return CallFault::Closed.number();
    }
    if !offsets.inner.lend().is_offsets() {
        return CallFault::OtherKind.number();
    }
    offsets.close(alloc);
    0
}

/// Gives a span of at least `bytes` bytes, by good fit. It goes to `span`.
///
/// Refused as Closed where the handle isn't open. Otherwise as OtherKind where it holds another kind of arena. Otherwise as
/// `OffsetArena::allocate` refuses: NoFit, Worn.
///
/// ```text
/// tlsf_offsets_allocate(&offsets, 1000000, &span) == TLSF_OK    // units of 64 KiB: span.size == 1048576
/// ```
#[unsafe(no_mangle)]
pub extern "C" fn tlsf_offsets_allocate(
    offsets: &mut ArenaSlot,
    bytes: u64,
    span: &mut OffsetSpan,
) -> u32
    ensures offsets { OnOffsets offsets.old offsets.new result (Tells status_of result (allocated_words (offsets_level offsets.old) (offsets_in offsets.old).heap (span_units (offsets_in offsets.old).unit bytes) 0).answer (Allocates (allocate_touches + 1) (offsets_level offsets.old) (span_units (offsets_in offsets.old).unit bytes) 0 (seen_of (offsets_in offsets.old)) (seen_of (offsets_in offsets.new)))
        × (¬ (result ≡ 0) → (offsets_in offsets.new).heap ≡ (offsets_in offsets.old).heap)
        × ((other : Span) → IsHeld (offsets_in offsets.old) other → IsHeld (offsets_in offsets.new) other)) }
    ensures held { result ≡ 0 → IsHeld (offsets_in offsets.new) (span_of span.new) }
    ensures enough { result ≡ 0 → bytes ≤ span.new.size }
    ensures fresh { result ≡ 0 → (other : Span) → IsHeld (offsets_in offsets.old) other → other.name ≢ name_of span.new.name }
    ensures no_span { ¬ (result ≡ 0) → span.new ≡ span.old }
{
    if !offsets.serves() {
        return CallFault::Closed.refusal();
    }
    let answer = on_arena!(offsets, Offsets, owned => owned.allocate(bytes));
    match answer {
        Ok(given) => {
            *span = OffsetSpan::of(given);
            0
        }
        Err(why) => why.number(),
    }
}

/// Takes the span of that name back.
///
/// Refused as Closed where the handle isn't open. Otherwise as OtherKind where it holds another kind of arena. Otherwise as
/// `OffsetArena::release` refuses: Foreign, Stale, Worn.
///
/// ```text
/// tlsf_offsets_release(&offsets, span.name) == TLSF_OK
/// tlsf_offsets_release(&offsets, span.name) == TLSF_STALE
/// ```
#[unsafe(no_mangle)]
pub extern "C" fn tlsf_offsets_release(offsets: &mut ArenaSlot, name: BlockName) -> u32
    ensures offsets { OnOffsets offsets.old offsets.new result (Tells status_of result (released (offsets_in offsets.old).heap (name_of name)).answer (Releases release_touches (seen_of (offsets_in offsets.old)) (seen_of (offsets_in offsets.new)) (name_of name))
        × KeepsOthers (offsets_in offsets.old) (offsets_in offsets.new) (name_of name)) }
    ensures gone { result ≡ 0 → (span : Span) → IsHeld (offsets_in offsets.new) span → span.name ≢ name_of name }
{
    if !offsets.serves() {
        return CallFault::Closed.refusal();
    }
    let answer = on_arena!(offsets, Offsets, owned => owned.release(name.name()));
    match answer {
        Ok(()) => 0,
        Err(why) => why.number(),
    }
}

/// Makes a span hold `bytes` bytes where it lies, by its name. The new span goes to `span`: its offset and its name stay.
///
/// Refused as Closed where the handle isn't open. Otherwise as OtherKind where it holds another kind of arena. Otherwise as
/// `OffsetArena::resize` refuses: Foreign, Stale, NoRoom, Worn.
///
/// ```text
/// tlsf_offsets_resize(&offsets, &span, 3000000) == TLSF_OK
/// ```
#[unsafe(no_mangle)]
pub extern "C" fn tlsf_offsets_resize(
    offsets: &mut ArenaSlot,
    span: &mut OffsetSpan,
    bytes: u64,
) -> u32
    ensures offsets { OnOffsets offsets.old offsets.new result (Tells status_of result (resized_words (offsets_in offsets.old).heap (name_of span.old.name) (span_units (offsets_in offsets.old).unit bytes) 0).answer (Resizes (resize_touches + 1) (span_units (offsets_in offsets.old).unit bytes) 0 (seen_of (offsets_in offsets.old)) (seen_of (offsets_in offsets.new)) (name_of span.old.name))
        × KeepsOthers (offsets_in offsets.old) (offsets_in offsets.new) (name_of span.old.name)) }
    ensures enough { result ≡ 0 → bytes ≤ span.new.size }
    ensures no_span { ¬ (result ≡ 0) → span.new ≡ span.old }
    ensures held { result ≡ 0 → IsHeld (offsets_in offsets.new) (span_of span.new) × (span.new.name ≡ span.old.name) }
{
    if !offsets.serves() {
        return CallFault::Closed.refusal();
    }
    let answer = on_arena!(offsets, Offsets, owned => owned.resize(span.name.name(), bytes));
    match answer {
        Ok(grown) => {
            *span = OffsetSpan::of(grown);
            0
        }
        Err(why) => why.number(),
    }
}

/// The units that are held and those that are free, by a walk over all blocks. It goes to `usage`.
///
/// Refused as Closed where the handle isn't open. Otherwise as OtherKind where it holds another kind of arena.
///
/// ```text
/// tlsf_offsets_report(&offsets, &usage) == TLSF_OK
/// ```
#[unsafe(no_mangle)]
pub extern "C" fn tlsf_offsets_report(offsets: &mut ArenaSlot, usage: &mut OffsetUsage) -> u32
    ensures offsets { OnKind (arena_serves offsets.old) (holds_offsets offsets.old) offsets.old offsets.new result ((result ≡ 0) × (arena_serves offsets.new ≡ true) × (holds_offsets offsets.new ≡ true)) }
    ensures usage { result ≡ 0 → usage_told usage.new ≡ usage_of (offsets_level offsets.old) (offsets_in offsets.old) }
    ensures kept { ¬ (result ≡ 0) → usage.new ≡ usage.old }
    ensures same { arena_serves offsets.old ≡ true → (offsets_level offsets.new ≡ offsets_level offsets.old) × ((offsets_in offsets.new).heap ≡ (offsets_in offsets.old).heap) × ((offsets_in offsets.new).unit ≡ (offsets_in offsets.old).unit) }
    ensures touches { arena_serves offsets.old ≡ true → (offsets_in offsets.new).touches ≤ (offsets_in offsets.old).touches + 2 * length (offsets_in offsets.old).heap.blocks }
{
    if !offsets.serves() {
        return CallFault::Closed.refusal();
    }
    let found = on_arena!(offsets, Offsets, owned => owned.usage());
    *usage = OffsetUsage::of(found);
    0
}
