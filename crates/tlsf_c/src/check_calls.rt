//! C's looks at the headers that another call is about to follow.
ghost use Rattle.std.specs.Prelude.{◌≡◌, true, Option};
ghost use Rattle.tlsf_heap.specs.Blocks.{want, IsPlace};
ghost use Rattle.tlsf_heap.specs.Chosen.{NoneFits};
ghost use Rattle.tlsf_heap.specs.Effects.{ChecksAround, ChecksRequest};
ghost use Rattle.tlsf_heap.specs.Numbers.{number_of};
ghost use Rattle.tlsf_heap.specs.declared.checked.Checked.{Checked};
ghost use Rattle.tlsf_heap.specs.declared.refusal.Refusal.TheVariants.{Stale};
ghost use Rattle.tlsf_c.specs.Checked.{check_number_of, request_number_of, damaged_told};
ghost use Rattle.tlsf_c.specs.Handles.{counts_in, heap_in, seen_in, level_in, stored_in, serves, OnHeap};
ghost use Rattle.tlsf_c.specs.Lengths.{saturated};
ghost use Rattle.tlsf_c.specs.Refusals.{closed, damage};

use crate::call_fault::{CallFault, check_status};
use crate::heap_slot::{HeapSlot, on_heap};
use crate::lengths::saturated;
use tlsf_heap::Refusal;

/// Looks at the block that begins at place `at`, which may be any number, and at both its neighbours. A release or a resize of the
/// block follows no other headers. A heap that only these calls have changed is always sound. Where other code has written past the
/// end of a payload, one of the three may be damaged, and its place goes to `damaged`. The call follows no place that it has not
/// looked at.
///
/// Refused as Closed where the handle isn't open; otherwise as Stale where no block begins at `at`; otherwise as Damaged.
///
/// ```text
/// tlsf_check_around(&heap, name.at, &damaged) == TLSF_OK
/// ```
#[unsafe(no_mangle)]
pub extern "C" fn tlsf_check_around(heap: &mut HeapSlot, at: u32, damaged: &mut u32) -> u32
    ensures heap { OnHeap heap.old heap.new (result ≡ closed) (counts_in heap.old)
        ((found : Option Checked) × ChecksAround (stored_in heap.old) at (seen_in heap.old) (seen_in heap.new) found × (result ≡ check_number_of found) × (damaged.new ≡ damaged_told damaged.old found)) }
    ensures sound { serves heap.old ≡ true → IsPlace (heap_in heap.old).blocks at → result ≡ 0 }
    ensures stale { serves heap.old ≡ true → ¬ (IsPlace (heap_in heap.old).blocks at) → result ≡ number_of Stale }
    ensures no_damage { ¬ (result ≡ damage) → damaged.new ≡ damaged.old }
{
    if !heap.serves() {
        return CallFault::Closed.number();
    }
    // By hand: by `on_heap` the compiler writes the look twice.
    let held = heap.inner.lend();
    held.is_idle = false;
    let owned = &mut held.heap;
    let found = owned.check_around(at);
    held.is_idle = true;
    let mut next = 0;
    check_status(found, &mut next, damaged)
}

/// Looks at the free block that a request for `len` bytes would take, and at both its neighbours. An allocate follows no other
/// headers. A heap that only these calls have changed is always sound. Where other code has written past the end of a payload, one of
/// the three may be damaged. Its place then goes to `damaged`.
///
/// Refused as Closed where the handle isn't open; otherwise as NoFit where no block fits; otherwise as Damaged.
///
/// ```text
/// tlsf_check_request(&heap, 100, &damaged) == TLSF_OK
/// ```
#[unsafe(no_mangle)]
pub extern "C" fn tlsf_check_request(heap: &mut HeapSlot, len: usize, damaged: &mut u32) -> u32
    ensures heap { OnHeap heap.old heap.new (result ≡ closed) (counts_in heap.old)
        ((found : Option Checked) × ChecksRequest (level_in heap.old) (stored_in heap.old) (saturated len) (seen_in heap.old) (seen_in heap.new) found × (result ≡ request_number_of found) × (damaged.new ≡ damaged_told damaged.old found)) }
    ensures sound { serves heap.old ≡ true → ¬ (NoneFits (level_in heap.old) (want (saturated len)) (heap_in heap.old).blocks) → result ≡ 0 }
    ensures no_damage { ¬ (result ≡ damage) → damaged.new ≡ damaged.old }
{
    if !heap.serves() {
        return CallFault::Closed.number();
    }
    let len = saturated(len);
    let found = on_heap!(heap, owned => owned.check_request(len));
    if found.is_none() {
        return Refusal::NoFit.number();
    }
    let mut next = 0;
    check_status(found, &mut next, damaged)
}
