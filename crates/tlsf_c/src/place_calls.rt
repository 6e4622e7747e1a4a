//! C's calls of a heap by place, the number of the word at which a block begins. They are for a caller who has its address and
//! keeps no name.
ghost use Rattle.std.specs.Prelude.{◌≡◌, true, max, Ok, Option, Some, None};
ghost use Rattle.tlsf_heap.specs.ByPlace.{name_at, released_by_place, resized_or_moved_by_place};
ghost use Rattle.tlsf_heap.specs.Aligned.{words_aligned};
ghost use Rattle.tlsf_heap.specs.Blocks.{want, IsPlace};
ghost use Rattle.tlsf_heap.specs.Checks.{FindsSound};
ghost use Rattle.tlsf_heap.specs.Effects.{AllocatesAligned, AllocatesUnset, ChecksBlocks, Looks, MovesUnsetAt, ReleasesAt};
ghost use Rattle.tlsf_heap.specs.Numbers.{number_of};
ghost use Rattle.tlsf_heap.specs.Placed.{placed_at};
ghost use Rattle.tlsf_heap.specs.declared.name.Name.{Name};
ghost use Rattle.tlsf_heap.specs.declared.checked.Checked.{Checked};
ghost use Rattle.tlsf_heap.specs.declared.checked.Checked.TheVariants.{Sound};
ghost use Rattle.tlsf_heap.specs.declared.placed_block.PlacedBlock.{PlacedBlock};
ghost use Rattle.tlsf_heap.specs.declared.refusal.Refusal.TheVariants.{Stale};
ghost use Rattle.tlsf_c.specs.Checked.{check_number_of, next_told, damaged_told};
ghost use Rattle.tlsf_c.specs.Handles.{counts_in, heap_in, seen_in, level_in, stored_in, serves, OnHeap, Tells, allocated_in};
ghost use Rattle.tlsf_c.specs.Counting.{counted_request, counted_move, recounted};
ghost use Rattle.tlsf_c.specs.Lengths.{saturated};
ghost use Rattle.tlsf_c.specs.Names.{name_of, info_of, not_placed, placed_name};
ghost use Rattle.tlsf_c.specs.PlaceCalls.{length_at};
ghost use Rattle.tlsf_heap.specs.Touched.{allocate_aligned_touches, allocate_touches, move_unset_touches, release_at_touches, resize_unset_touches};
ghost use Rattle.tlsf_c.specs.Refusals.{status_of, closed, damage};

use crate::call_fault::{CallFault, check_status, status};
use crate::heap_slot::{HeapSlot, on_heap};
use crate::lengths::saturated;
use crate::names::{BlockInfo, BlockName, PlacedName};
use tlsf_heap::{Content, PlacedBlock, Refusal};

/// Gives a block that holds `len` bytes of payload, and fills nothing: its bytes are those that lie there. Its place and its serial are
/// answered. It takes no longer for more bytes.
///
/// Refused as Closed where the handle isn't open; otherwise as `Heap::allocate_unset` refuses: NoFit, Worn.
///
/// ```text
/// placed = tlsf_allocate_place(&heap, 100)         // the payload is words placed.at + 3 to placed.at + 15 of the region
/// ```
#[unsafe(no_mangle)]
pub extern "C" fn tlsf_allocate_place(heap: &mut HeapSlot, len: usize) -> PlacedName
    ensures { OnHeap heap.old heap.new (result ≡ not_placed closed) (counted_request (counts_in heap.old) (allocated_in heap.old (saturated len)) (saturated len) (heap_in heap.new))
        (Tells placed_name result (allocated_in heap.old (saturated len)) (AllocatesUnset allocate_touches (level_in heap.old) (want (saturated len)) (saturated len) (seen_in heap.old) (seen_in heap.new) (stored_in heap.new))) }
{
    if !heap.serves() {
        return PlacedName::refusal(CallFault::Closed.number());
    }
    let len = saturated(len);
    let answer = on_heap!(heap, owned => owned.allocate_unset(len));
    PlacedName::of(answer)
}

/// Gives a block that holds `len` bytes of payload, and fills nothing: its bytes are those that lie there. Its place and its serial are
/// answered. The payload's first word is aligned: `at + 3 + skew` is a multiple of `step` words. Here `skew` is how many words after
/// such a multiple the region begins. A `step` of 0 counts as 1. It takes no longer for more bytes.
///
/// Refused as Closed where the handle isn't open. Otherwise as `Heap::allocate_aligned` refuses. It is Worn where fewer than four
/// ticks are left. Otherwise it is NoFit where no free block has the words wanted with those that a step may take.
///
/// ```text
/// placed = tlsf_allocate_aligned(&heap, 100, 8, 0)  // (placed.at + 3) % 8 == 0
/// ```
#[unsafe(no_mangle)]
pub extern "C" fn tlsf_allocate_aligned(
    heap: &mut HeapSlot,
    len: usize,
    step: u32,
    skew: u32,
) -> PlacedName
    ensures { OnHeap heap.old heap.new (result ≡ not_placed closed) (counted_request (counts_in heap.old) (words_aligned (level_in heap.old) (heap_in heap.old) (want (saturated len)) (max step 1) skew).answer (saturated len) (heap_in heap.new))
        (Tells placed_name result (words_aligned (level_in heap.old) (heap_in heap.old) (want (saturated len)) (max step 1) skew).answer (AllocatesAligned allocate_aligned_touches (level_in heap.old) (saturated len) (max step 1) skew (seen_in heap.old) (seen_in heap.new) (stored_in heap.new))) }
{
    if !heap.serves() {
        return PlacedName::refusal(CallFault::Closed.refusal());
    }
    let len = saturated(len);
    let answer = on_heap!(heap, owned => owned.allocate_aligned(len, step, skew));
    PlacedName::of(answer)
}

/// Takes back the live block that begins at a place.
///
/// Refused as Closed where the handle isn't open; otherwise as `Heap::release_at` refuses: Stale where no live block begins there,
/// Worn.
///
/// ```text
/// tlsf_release_place(&heap, name.at) == TLSF_OK
/// tlsf_release_place(&heap, name.at) == TLSF_STALE
/// ```
#[unsafe(no_mangle)]
pub extern "C" fn tlsf_release_place(heap: &mut HeapSlot, at: u32) -> u32
    ensures { OnHeap heap.old heap.new (result ≡ closed) (recounted (counts_in heap.old) (heap_in heap.new))
        (Tells status_of result (released_by_place (heap_in heap.old) at).answer (ReleasesAt release_at_touches (seen_in heap.old) (seen_in heap.new) at)) }
{
    if !heap.serves() {
        return CallFault::Closed.refusal();
    }
    on_heap!(heap, owned => status(owned.release_at(at)))
}

/// Makes the payload of the live block that begins at a place `len` bytes long. The block stays where it stands, or becomes another
/// block where there is no room there. The bytes up to the smaller length stay, and nothing is filled: new ones are those that lie
/// there. The place at which the block begins from then on goes to `new_at`. Where it moved, the old block is free.
///
/// Refused as Closed where the handle isn't open; otherwise as Stale where no live block begins there; otherwise as
/// `Heap::resize_or_move_unset` refuses: NoFit, Worn.
///
/// ```text
/// tlsf_resize_place(&heap, at, 500, &at) == TLSF_OK
/// ```
#[unsafe(no_mangle)]
pub extern "C" fn tlsf_resize_place(
    heap: &mut HeapSlot,
    at: u32,
    len: usize,
    new_at: &mut u32,
) -> u32
    ensures heap { OnHeap heap.old heap.new (result ≡ closed) (counted_move (counts_in heap.old) at (resized_or_moved_by_place (level_in heap.old) (heap_in heap.old) at (saturated len)).answer (saturated len) (heap_in heap.new))
        (Tells status_of result (resized_or_moved_by_place (level_in heap.old) (heap_in heap.old) at (saturated len)).answer (MovesUnsetAt resize_unset_touches move_unset_touches (level_in heap.old) (saturated len) (seen_in heap.old) (seen_in heap.new) (stored_in heap.new) at)) }
    ensures place { result ≡ 0 → (name : Name) × ((resized_or_moved_by_place (level_in heap.old) (heap_in heap.old) at (saturated len)).answer ≡ Ok name) × (name.at ≡ new_at.new) }
    ensures kept { ¬ (result ≡ 0) → new_at.new ≡ new_at.old }
{
    if !heap.serves() {
        return CallFault::Closed.refusal();
    }
    let len = saturated(len);
    let answer = on_heap!(heap, owned => owned.resize_or_move_unset_at(at, len));
    match answer {
        Ok(name) => {
            *new_at = name.at;
            0
        }
        Err(why) => why.number(),
    }
}

/// The live block that begins at a place: its name goes to `name`, and the bytes of its payload to `len`.
///
/// Refused as Closed where the handle isn't open; otherwise as Stale where no live block begins there.
///
/// ```text
/// tlsf_place(&heap, 0, &name, &len) == TLSF_OK  // name.at == 0
/// tlsf_place(&heap, 1, &name, &len) == TLSF_STALE
/// ```
#[unsafe(no_mangle)]
pub extern "C" fn tlsf_place(
    heap: &mut HeapSlot,
    at: u32,
    name: &mut BlockName,
    len: &mut u32,
) -> u32
    ensures heap { OnHeap heap.old heap.new (result ≡ closed) (counts_in heap.old) (Looks (seen_in heap.old) (seen_in heap.new) at (placed_at (heap_in heap.old).blocks at)) }
    ensures name { result ≡ 0 → name_at (heap_in heap.old) at ≡ Some (name_of name.new) }
    ensures len { result ≡ 0 → length_at (heap_in heap.old).blocks at ≡ Some len.new }
    ensures stale { serves heap.old ≡ true → ¬ (result ≡ 0) → (result ≡ number_of Stale) × (name_at (heap_in heap.old) at ≡ None) }
    ensures kept { ¬ (result ≡ 0) → (name.new ≡ name.old) × (len.new ≡ len.old) }
{
    if !heap.serves() {
        return CallFault::Closed.refusal();
    }
    let (id, found) = on_heap!(heap, owned => (owned.id(), owned.block_at(at)));
    match found {
        Some(
            PlacedBlock {
                content: Content::Live { serial, length },
                ..
            },
        ) => {
            *name = BlockName {
                heap: id,
                at,
                serial,
            };
            *len = length;
            0
        }
        _ => Refusal::Stale.number(),
    }
}

/// The block that begins at a place, live or free, goes to `block`. The next one begins at `at + size`, so that a walk from place 0 meets all.
///
/// Refused as Closed where the handle isn't open; otherwise as Stale where no block begins there, as at the region's end.
///
/// ```text
/// tlsf_block_at(&heap, 0, &block) == TLSF_OK   // of a new heap of 64 words: block.size == 64, block.is_live == 0
/// tlsf_block_at(&heap, 64, &block) == TLSF_STALE
/// ```
#[unsafe(no_mangle)]
pub extern "C" fn tlsf_block_at(heap: &mut HeapSlot, at: u32, block: &mut BlockInfo) -> u32
    ensures heap { OnHeap heap.old heap.new (result ≡ closed) (counts_in heap.old) (Looks (seen_in heap.old) (seen_in heap.new) at (placed_at (heap_in heap.old).blocks at)) }
    ensures block { result ≡ 0 → (b : PlacedBlock) × (placed_at (heap_in heap.old).blocks at ≡ Some b) × (block.new ≡ info_of b) }
    ensures stale { serves heap.old ≡ true → ¬ (result ≡ 0) → (result ≡ number_of Stale) × (placed_at (heap_in heap.old).blocks at ≡ None) }
    ensures kept { ¬ (result ≡ 0) → block.new ≡ block.old }
{
    if !heap.serves() {
        return CallFault::Closed.refusal();
    }
    let found = on_heap!(heap, owned => owned.block_at(at));
    match found {
        Some(there) => {
            *block = BlockInfo::of(there);
            0
        }
        None => Refusal::Stale.number(),
    }
}

/// Looks at `most` blocks at most, one after the other. The first of them begins at the place `from`. Where all are sound, the
/// place after them goes to `next`, which is 0 after the last block of the region. A caller who checks in slices calls on with it.
/// A heap that only these calls have changed is always sound. Where other code has written past the end of a payload, a block may
/// be damaged, and its place goes to `damaged`. The call follows no place that it has not looked at.
///
/// Refused as Closed where the handle isn't open; otherwise as Stale where no block begins at `from`; otherwise as Damaged where a
/// block is damaged.
///
/// ```text
/// tlsf_check(&heap, 0, 100, &next, &damaged) == TLSF_OK
/// ```
#[unsafe(no_mangle)]
pub extern "C" fn tlsf_check(
    heap: &mut HeapSlot,
    from: u32,
    most: u32,
    next: &mut u32,
    damaged: &mut u32,
) -> u32
    ensures heap { OnHeap heap.old heap.new (result ≡ closed) (counts_in heap.old)
        ((found : Option Checked) × ChecksBlocks (stored_in heap.old) from most (seen_in heap.old) (seen_in heap.new) found × (result ≡ check_number_of found) × (next.new ≡ next_told next.old found) × (damaged.new ≡ damaged_told damaged.old found)) }
    ensures sound { serves heap.old ≡ true → IsPlace (heap_in heap.old).blocks from → (result ≡ 0) × FindsSound (heap_in heap.old).blocks from most (Sound next.new) }
    ensures stale { serves heap.old ≡ true → ¬ (IsPlace (heap_in heap.old).blocks from) → result ≡ number_of Stale }
    ensures no_next { ¬ (result ≡ 0) → next.new ≡ next.old }
    ensures no_damage { ¬ (result ≡ damage) → damaged.new ≡ damaged.old }
{
    if !heap.serves() {
        return CallFault::Closed.number();
    }
    let found = on_heap!(heap, owned => owned.check_blocks(from, most));
    check_status(found, next, damaged)
}
