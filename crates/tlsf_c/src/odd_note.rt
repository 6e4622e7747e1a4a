//! The note of odd blocks.
ghost use Rattle.tlsf_c.specs.Handles.{NotesOdd};

use tlsf_heap::want;

/// Notes a block of `len` bytes, where it has an odd number of words. It is written once, so that what other threads read beside
/// the handle stays in their caches.
#[inline(always)]
pub fn note_odd(is_mixed: &mut bool, len: u32)
    ensures { NotesOdd len 0 is_mixed.old is_mixed.new }
{
    if want(len) % 2 == 1 && !*is_mixed {
        *is_mixed = true;
    }
}
