ghost use Rattle.std.specs.Prelude.{◌≡◌, ◌++◌, OnOk, string_bytes};
ghost use Rattle.tlsf_map.specs.Told.{title_text};

use crate::mapped_heap::MappedHeap;
use std::alloc::AllocError;

/// Adds the number of a heap, its words and its tick.
pub fn write_title(text: &mut String, words: u32, heap: &MappedHeap) -> Result<(), AllocError>
    ensures { OnOk result (string_bytes text.new ≡ string_bytes text.old ++ title_text words heap.now) }
{
    let id = heap.id;
    let tick = heap.tick;
    write!(text, "heap {id}: {words} words at tick {tick}")
}
