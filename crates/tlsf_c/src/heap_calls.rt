//! C's calls of a heap.
ghost use Rattle.std.specs.Prelude.{◌≡◌, ℕ, true, false, ◌<◌, ◌≤◌, length, Result, Ok, Some, None};
ghost use denote.RawPtr.{Ptr};
ghost use Rattle.tlsf_heap.specs.Blocks.{want};
ghost use Rattle.tlsf_heap.specs.Lawful.{IsRegion};
ghost use Rattle.tlsf_pool.specs.laws.MixedSizes.{mixed_region};
ghost use Rattle.tlsf_heap.specs.Calls.{reset, resized, written, read_of, read_answer};
ghost use Rattle.tlsf_heap.specs.Effects.{Allocates, Locates, Moves, Reads, Reports, Resets, Resizes, Writes};
ghost use Rattle.tlsf_heap.specs.InPlace.{IsPayloadCheck};
ghost use Rattle.tlsf_heap.specs.Touched.{allocate_touches, move_touches, read_touches, reset_touches, resize_touches, write_touches};
ghost use Rattle.tlsf_heap.specs.declared.refusal.Refusal.{Refusal};
ghost use Rattle.tlsf_heap.specs.WordsInUse.{words_in_use};
ghost use Rattle.tlsf_c.specs.Counting.{counted, counted_request, counted_move, recounted};
ghost use Rattle.tlsf_c.specs.Lengths.{saturated};
ghost use Rattle.tlsf_c.specs.Names.{name_of, named, report_in};
ghost use Rattle.tlsf_c.specs.Handles.{address_in, counts_in, heap_in, seen_in, level_in, touches_in, ReleasesIn, serves, IsNewHeap, KeepsBeside, NotesOdd, OnHeap, OnHeapBut, Tells, allocated_in, moved_in};
ghost use Rattle.tlsf_c.specs.Refusals.{status_of, bad_size, closed, bad_level};
ghost use Rattle.tlsf_c.specs.Serving.{OpensAtLevel};

use crate::any_heap::AnyHeap;
use crate::call_fault::{CallFault, status};
use crate::heap_counts::HeapCounts;
use crate::heap_slot::{HeapSlot, on_heap};
use crate::lengths::saturated;
use crate::names::{BlockName, HeapReport};
use std::alloc::Global;
use tlsf_heap::Name;

/// Opens a heap of a level, 4 or 5, and number `id` over `words` words of 8 bytes, at tick 0, in a closed handle.
///
/// Refused as InUse where the handle is open. Otherwise as BadLevel where there is no such level. Otherwise as BadSize where
/// `words` is below 4, or above 2^20 at level 4 and 2^24 at level 5. Otherwise as NoMemory where the memory was not granted. No
/// later call on the heap takes memory.
///
/// ```text
/// struct tlsf_heap heap = TLSF_CLOSED;
/// tlsf_open(&heap, 4, 0, 64) == TLSF_OK        // heap 0: 512 bytes
/// tlsf_open(&heap, 4, 0, 64) == TLSF_IN_USE
/// ```
#[unsafe(no_mangle)]
pub extern "C" fn tlsf_open(
    alloc: Global,
    heap: &mut HeapSlot,
    level: u32,
    id: u32,
    words: u32,
) -> u32
    ensures refusals { OpensAtLevel heap.old.is_open level (IsRegion level words) heap.old heap.new result }
    ensures opens { result ≡ 0 → IsNewHeap heap.new level id words }
    ensures align { heap.new.align ≡ heap.old.align }
{
    if heap.is_open {
        return CallFault::InUse.number();
    }
    if level < 4 || level > 5 {
        return CallFault::BadLevel.number();
    }
    match AnyHeap::open(alloc, level, id, words) {
        Err(fault) => fault.number(),
        Ok(mut owned) => {
            heap.base = owned.heap.base();
            heap.number = id;
            heap.is_mixed = false;
            heap.put_in(owned);
            0
        }
    }
}

/// The words of a region that never refuses a program for want of room. The program has at most `most` blocks at once, of at most
/// `len` bytes each. They go to `words`. No blocks need the least region, 4 words, whatever `len` is.
///
/// Refused as BadLevel where `level` is neither 4 nor 5; otherwise as BadSize where no region of that level is so large.
///
/// ```text
/// tlsf_words(4, 100, 256, &words) == TLSF_OK   // then tlsf_open(&heap, 4, 0, words)
/// ```
#[unsafe(no_mangle)]
pub extern "C" fn tlsf_words(level: u32, most: u32, len: usize, words: &mut u32) -> u32
    ensures bad_level { ¬ (level ≡ 4) → ¬ (level ≡ 5) → result ≡ bad_level }
    ensures no_blocks { 4 ≤ level → level ≤ 5 → most ≡ 0 → (result ≡ 0) × (words.new ≡ 4) }
    ensures words { result ≡ 0 → 0 < most → mixed_region level most (saturated len) ≡ Some words.new }
    ensures none { 4 ≤ level → level ≤ 5 → ¬ (result ≡ 0) → (result ≡ bad_size) × (mixed_region level most (saturated len) ≡ None) }
    ensures no_words { ¬ (result ≡ 0) → words.new ≡ words.old }
{
    let len = saturated(len);
    let found = match level {
        4 | 5 if most == 0 => Some(4),
        4 => tlsf_pool::mixed_region::<4>(most, len),
        5 => tlsf_pool::mixed_region::<5>(most, len),
        _ => return CallFault::BadLevel.number(),
    };
    match found {
        Some(n) => {
            *words = n;
            0
        }
        None => CallFault::BadSize.number(),
    }
}

/// Closes a heap, and gives its memory back. No name of its blocks is of use from then on. The handle keeps its address, its number
/// and its note of odd blocks (`beside`).
///
/// Refused as Closed where the handle isn't open.
///
/// ```text
/// tlsf_close(&heap) == TLSF_OK
/// tlsf_close(&heap) == TLSF_IS_CLOSED
/// ```
#[unsafe(no_mangle)]
pub extern "C" fn tlsf_close(alloc: Global, heap: &mut HeapSlot) -> u32
    ensures closed { serves heap.old ≡ false → (result ≡ closed) × (heap.new ≡ heap.old) }
    ensures open { serves heap.old ≡ true → (result ≡ 0) × (heap.new.is_open ≡ false) }
    ensures beside { KeepsBeside heap.old heap.new }
{
    match heap.take_out(alloc) {
        None => CallFault::Closed.number(),
        Some(owned) => {
            drop(owned);
            0
        }
    }
}

/// Gives a block that holds `len` bytes of payload, all zero. Its name goes to `name`.
///
/// Refused as Closed where the handle isn't open; otherwise as `Heap::allocate` refuses: NoFit, Worn.
///
/// ```text
/// tlsf_allocate(&heap, 100, &name) == TLSF_OK  // 16 words of the region
/// ```
#[unsafe(no_mangle)]
pub extern "C" fn tlsf_allocate(heap: &mut HeapSlot, len: usize, name: &mut BlockName) -> u32
    ensures heap { OnHeapBut (NotesOdd (saturated len) result) heap.old heap.new (result ≡ closed) (counted_request (counts_in heap.old) (allocated_in heap.old (saturated len)) (saturated len) (heap_in heap.new))
        (Tells status_of result (allocated_in heap.old (saturated len)) (Allocates allocate_touches (level_in heap.old) (want (saturated len)) (saturated len) (seen_in heap.old) (seen_in heap.new))) }
    ensures no_name { ¬ (result ≡ 0) → name.new ≡ name.old }
    ensures name { result ≡ 0 → allocated_in heap.old (saturated len) ≡ Ok (name_of name.new) }
{
    if !heap.serves() {
        return CallFault::Closed.refusal();
    }
    let len = saturated(len);
    let is_mixed = &mut heap.is_mixed;
    match on_heap!(heap, owned => owned.allocate(len, is_mixed, name)) {
        Ok(_) => 0,
        Err(why) => why.number(),
    }
}

/// Takes back the block of that name.
///
/// Refused as Closed where the handle isn't open; otherwise as `Heap::release` refuses: Foreign, Stale, Worn.
///
/// ```text
/// tlsf_release(&heap, name) == TLSF_OK
/// tlsf_release(&heap, name) == TLSF_STALE
/// ```
#[unsafe(no_mangle)]
pub extern "C" fn tlsf_release(heap: &mut HeapSlot, name: BlockName) -> u32
    ensures { ReleasesIn heap.old heap.new (name_of name) result }
{
    release_named(heap, name.heap, name.serial, name.at)
}

/// `tlsf_release` of the name with these fields, in the order of the registers that have them. A drain calls it too, so the heap's
/// release has one body.
pub(crate) fn release_named(heap: &mut HeapSlot, number: u32, serial: u64, at: u32) -> u32
    ensures { ReleasesIn heap.old heap.new (named number at serial) result }
{
    if !heap.serves() {
        return CallFault::Closed.refusal();
    }
    let name = Name {
        heap: number,
        at,
        serial,
    };
    on_heap!(heap, owned => status(owned.release(name)))
}

/// Takes all blocks back in one step. No name or pointer of before is of use from then on.
///
/// Refused as Closed where the handle isn't open; otherwise as Worn where the tick is at its last value.
///
/// ```text
/// tlsf_reset(&heap) == TLSF_OK                 // at the end of a frame
/// tlsf_release(&heap, name) == TLSF_STALE
/// ```
#[unsafe(no_mangle)]
pub extern "C" fn tlsf_reset(heap: &mut HeapSlot) -> u32
    ensures heap { OnHeap heap.old heap.new (result ≡ closed) (recounted (counts_in heap.old) (heap_in heap.new)) (Tells status_of result (reset (heap_in heap.old)).answer (Resets reset_touches (seen_in heap.old) (seen_in heap.new))) }

    // Where it is accepted, no word is in use.
    ensures words { serves heap.old ≡ true → result ≡ 0 → (counts_in heap.new).words ≡ 0 }
{
    if !heap.serves() {
        return CallFault::Closed.number();
    }
    on_heap!(heap, owned => status(owned.reset()))
}

/// Makes the payload of the block of that name `len` bytes long, where the block stands. The name stays.
///
/// Refused as Closed where the handle isn't open; otherwise as `Heap::resize` refuses: Foreign, Stale, NoRoom, Worn.
///
/// ```text
/// tlsf_resize(&heap, name, 200) == TLSF_OK    // bytes 100 to 199 are zero
/// ```
#[unsafe(no_mangle)]
pub extern "C" fn tlsf_resize(heap: &mut HeapSlot, name: BlockName, len: usize) -> u32
    ensures { OnHeapBut (NotesOdd (saturated len) result) heap.old heap.new (result ≡ closed) (counted (counts_in heap.old) (heap_in heap.new))
        (Tells status_of result (resized (heap_in heap.old) (name_of name) (saturated len)).answer (Resizes resize_touches (want (saturated len)) (saturated len) (seen_in heap.old) (seen_in heap.new) (name_of name))) }
{
    if !heap.serves() {
        return CallFault::Closed.refusal();
    }
    let len = saturated(len);
    let answer = on_heap!(heap, owned => owned.resize(name.name(), len));
    match answer {
        Ok(()) => {
            heap.note(len);
            0
        }
        Err(why) => why.number(),
    }
}

/// Makes the payload of the block of that name `len` bytes long: where the block stands, or in another block where there is no
/// room. The payload's bytes come along, and zeros follow them. The name that the payload has from then on goes to `name`. Where it
/// moved, the old one is stale.
///
/// Refused as Closed where the handle isn't open; otherwise as `Heap::resize_or_move` refuses: Foreign, Stale, NoFit, Worn.
///
/// ```text
/// tlsf_reallocate(&heap, &name, 500) == TLSF_OK
/// ```
#[unsafe(no_mangle)]
pub extern "C" fn tlsf_reallocate(heap: &mut HeapSlot, name: &mut BlockName, len: usize) -> u32
    ensures heap { OnHeapBut (NotesOdd (saturated len) result) heap.old heap.new (result ≡ closed) (counted_move (counts_in heap.old) (name_of name.old).at (moved_in heap.old (name_of name.old) (saturated len)) (saturated len) (heap_in heap.new))
        (Tells status_of result (moved_in heap.old (name_of name.old) (saturated len)) (Moves resize_touches move_touches (level_in heap.old) (saturated len) (seen_in heap.old) (seen_in heap.new) (name_of name.old))) }
    ensures no_name { ¬ (result ≡ 0) → name.new ≡ name.old }
    ensures name { result ≡ 0 → moved_in heap.old (name_of name.old) (saturated len) ≡ Ok (name_of name.new) }
{
    if !heap.serves() {
        // Not by the cold `refusal`: the longest way would have 15 instructions more on x86-64.
        return CallFault::Closed.number();
    }
    let len = saturated(len);
    let answer = on_heap!(heap, owned => owned.resize_or_move(name.name(), len));
    match answer {
        Ok(moved) => {
            heap.note(len);
            *name = BlockName::of(moved);
            0
        }
        Err(why) => why.number(),
    }
}

/// Writes bytes into the payload of the block of that name, from byte `at` of it on.
///
/// Refused as Closed where the handle isn't open; otherwise as `Heap::write` refuses: Foreign, Stale, Range.
///
/// ```text
/// tlsf_write(&heap, name, 98, bytes, 2) == TLSF_OK
/// tlsf_write(&heap, name, 99, bytes, 2) == TLSF_RANGE
/// ```
// Always inline in what C calls: else that call saves two registers more.
#[inline(always)]
#[unsafe(no_mangle)]
pub extern "C" fn tlsf_write(heap: &mut HeapSlot, name: BlockName, at: u32, bytes: &[u8]) -> u32
    ensures { OnHeap heap.old heap.new (result ≡ closed) (counts_in heap.old)
        (Tells status_of result (written (heap_in heap.old) (name_of name) at bytes.now).answer (Writes (write_touches (length bytes.now)) (seen_in heap.old) (seen_in heap.new) (name_of name) at bytes.now)) }
{
    if !heap.serves() {
        return CallFault::Closed.number();
    }
    on_heap!(heap, owned => status(owned.write(name.name(), at, bytes)))
}

/// Reads bytes of the payload of the block of that name, from byte `at` of it on, and fills `out` with them.
///
/// Refused as Closed where the handle isn't open; otherwise as `Heap::read` refuses: Foreign, Stale, Range. `out` is then as
/// before.
///
/// ```text
/// tlsf_read(&heap, name, 98, out, 2) == TLSF_OK
/// ```
// Always inline, as `tlsf_write` is.
#[inline(always)]
#[unsafe(no_mangle)]
pub extern "C" fn tlsf_read(heap: &mut HeapSlot, name: BlockName, at: u32, out: &mut [u8]) -> u32
    ensures { OnHeap heap.old heap.new ((result ≡ closed) × (out.new ≡ out.old)) (counts_in heap.old)
        (Tells status_of result (read_answer (read_of (heap_in heap.old) (name_of name) at (length out.old))) (Reads (read_touches (length out.old)) (seen_in heap.old) (seen_in heap.new) (name_of name) at out.old out.new)) }
{
    if !heap.serves() {
        return CallFault::Closed.number();
    }
    on_heap!(heap, owned => status(owned.read(name.name(), at, out)))
}

/// Tells where the payload of the block of that name lies. The address of the region's first word goes to `base`, and the payload's
/// length in bytes to `len`. The payload begins at byte `8 * (at + 3)` from there.
///
/// Refused as Closed where the handle isn't open. Otherwise as Foreign where the name is of another heap. Otherwise as Stale where
/// no live block has that place and serial.
///
/// ```text
/// tlsf_locate(&heap, name, &base, &len) == TLSF_OK
/// ```
#[unsafe(no_mangle)]
pub extern "C" fn tlsf_locate(
    heap: &mut HeapSlot,
    name: BlockName,
    base: &mut *mut u64,
    len: &mut u32,
) -> u32
    ensures heap { OnHeap heap.old heap.new (result ≡ closed) (counts_in heap.old)
        ((answer : Result (Ptr × ℕ) Refusal) × Tells status_of result answer (Locates (address_in heap.old) (seen_in heap.old) (seen_in heap.new) (name_of name))) }
    ensures base { result ≡ 0 → base.new ≡ address_in heap.old }
    ensures len { serves heap.old ≡ true → result ≡ 0 → IsPayloadCheck (heap_in heap.old) (name_of name) (Ok len.new) }
    ensures kept { ¬ (result ≡ 0) → (base.new ≡ base.old) × (len.new ≡ len.old) }
{
    if !heap.serves() {
        return CallFault::Closed.refusal();
    }
    let answer = on_heap!(heap, owned => owned.payload(name.name()));
    match answer {
        Ok((at, n)) => {
            *base = at;
            *len = n;
            0
        }
        Err(why) => why.number(),
    }
}

/// The report on the heap goes to `report`: words, bytes and blocks, and how well the heap serves. It walks over all blocks.
///
/// Refused as Closed where the handle isn't open.
///
/// ```text
/// tlsf_report(&heap, &report) == TLSF_OK       // of a new heap of 64 words: report.free_words == 64
/// ```
#[unsafe(no_mangle)]
pub extern "C" fn tlsf_report(heap: &mut HeapSlot, report: &mut HeapReport) -> u32
    ensures { OnHeap heap.old heap.new ((result ≡ closed) × (report.new ≡ report.old)) (counts_in heap.old)
        ((result ≡ 0) × Reports (level_in heap.old) (seen_in heap.old) (seen_in heap.new) (report_in report.new)) }
{
    if !heap.serves() {
        return CallFault::Closed.number();
    }
    on_heap!(heap, owned => *report = HeapReport::of(owned.report()));
    0
}

/// The counts of the heap since it was opened go to `counts`, at once: no block is looked at. See `HeapCounts`.
///
/// Refused as Closed where the handle isn't open.
///
/// ```text
/// tlsf_counts(&heap, &counts) == TLSF_OK       // of a new heap: four zeros
/// ```
#[unsafe(no_mangle)]
pub extern "C" fn tlsf_counts(heap: &mut HeapSlot, counts: &mut HeapCounts) -> u32
    ensures heap { OnHeap heap.old heap.new ((result ≡ closed) × (counts.new ≡ counts.old)) (counts_in heap.old)
        ((result ≡ 0) × (counts.new ≡ counts_in heap.old) × (heap_in heap.new ≡ heap_in heap.old) × (touches_in heap.new ≡ touches_in heap.old)) }

    // The words in use are those of all live blocks, as a report finds them.
    ensures words { serves heap.old ≡ true → counts.new.words ≡ words_in_use (heap_in heap.old) }
    ensures most { serves heap.old ≡ true → counts.new.words ≤ counts.new.most_words }
{
    if !heap.serves() {
        return CallFault::Closed.refusal();
    }

    // No note that a call is using the heap: it only reads, by a few instructions.
    *counts = heap.inner.lend().heap.counts();
    0
}
