//! C's call of a heap over several names at once.
ghost use Rattle.std.specs.Prelude.{◌≡◌};
ghost use Rattle.tlsf_c.specs.Counting.{recounted};
ghost use Rattle.tlsf_c.specs.Drains.{ReleasesAll};
ghost use Rattle.tlsf_c.specs.Handles.{counts_in, heap_in, posts_named, seen_in, OnHeap};
ghost use Rattle.tlsf_c.specs.Refusals.{closed};

use crate::call_fault::CallFault;
use crate::heap_slot::{HeapSlot, on_heap};
use crate::names::BlockName;

/// Takes back the blocks of several names, in their order, whatever the heap answers to each. It looks at the handle once, so it takes
/// less time than a release of each.
///
/// Refused as Closed where the handle isn't open.
///
/// ```text
/// tlsf_release_all(&heap, names, 3) == TLSF_OK
/// ```
#[unsafe(no_mangle)]
pub extern "C" fn tlsf_release_all(heap: &mut HeapSlot, names: &[BlockName]) -> u32
    ensures heap { OnHeap heap.old heap.new (result ≡ closed) (recounted (counts_in heap.old) (heap_in heap.new)) ((result ≡ 0) × ReleasesAll (seen_in heap.old) (seen_in heap.new) (posts_named names.now)) }
{
    if !heap.serves() {
        return CallFault::Closed.refusal();
    }
    on_heap!(heap, owned => owned.release_all(names));
    0
}
