//! C's call of a heap by pointer.
ghost use Rattle.std.specs.Prelude.{◌≡◌, ◌≤◌, ◌<◌};
ghost use Rattle.tlsf_heap.specs.Blocks.{want};
ghost use Rattle.tlsf_heap.specs.Effects.{AllocatesUnset};
ghost use Rattle.tlsf_heap.specs.Touched.{allocate_touches};
ghost use Rattle.tlsf_c.specs.Counting.{counted_request};
ghost use Rattle.tlsf_c.specs.Handles.{counts_in, heap_in, level_in, seen_in, stored_in, OnHeap, Tells, allocated_in};
ghost use Rattle.tlsf_c.specs.Pointers;
ghost use Rattle.tlsf_c.specs.Pointers.{first_byte, longest};

use crate::heap_slot::{HeapSlot, on_heap};

/// Gives a block that holds `len` bytes of payload, and fills nothing: its bytes are those that lie there. Answers at which byte of the
/// region the payload begins, or 0 where there is none. With its header the block has an even number of words. It takes no longer for
/// more bytes. It is malloc without the sum: no export of Rattle answers an address.
///
/// None is there where the handle isn't open, where `len` is above 2^27, and where `Heap::allocate_unset` refuses: NoFit, Worn.
///
/// ```text
/// tlsf_allocate_payload(&heap, 100) == 24          // of a new heap: 104 bytes, 16 words of the region
/// ```
#[unsafe(no_mangle)]
pub extern "C" fn tlsf_allocate_payload(heap: &mut HeapSlot, len: usize) -> usize
    ensures long { longest < len → (result ≡ 0) × (heap.new ≡ heap.old) }
    ensures heap { len ≤ longest → OnHeap heap.old heap.new (result ≡ 0) (counted_request (counts_in heap.old) (allocated_in heap.old (Pointers.rounded len)) (Pointers.rounded len) (heap_in heap.new))
        (Tells first_byte result (allocated_in heap.old (Pointers.rounded len)) (AllocatesUnset allocate_touches (level_in heap.old) (want (Pointers.rounded len)) (Pointers.rounded len) (seen_in heap.old) (seen_in heap.new) (stored_in heap.new))) }
{
    if !heap.serves() || len > LONGEST {
        return 0;
    }
    let len = rounded(len as u32);
    let answer = on_heap!(heap, owned => owned.allocate_unset(len));
    match answer {
        Ok(name) => 8 * (name.at as usize + 3),
        Err(_) => 0,
    }
}

/// Every region is shorter than this many bytes.
const LONGEST: usize = 134_217_728;

/// The bytes that a heap is asked for where C asks for `len`: with its header the block has an even number of words.
#[inline(always)]
fn rounded(len: u32) -> u32
    requires { len ≤ longest }
    ensures { result ≡ Pointers.rounded len }
{
    (len + 7) / 16 * 16 + 8
}
