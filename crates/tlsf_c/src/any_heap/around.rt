//! Looks at the headers that a call of C's is about to follow.
ghost use Rattle.tlsf_heap.specs.Effects.{ChecksAround, ChecksRequest};
ghost use Rattle.tlsf_c.specs.Levels.{seen_at, GoesOnWith};

use super::{AnyHeap, OfLevel};
use crate::at_level::at_level;
use tlsf_heap::Checked;

impl AnyHeap {
    /// `Heap::check_around`.
    pub fn check_around(&mut self, at: u32) -> Option<Checked>
        ensures checks { ChecksAround self.old.stored at (seen_at self.old) (seen_at self.new) result }
        ensures goes_on { GoesOnWith self.old self.new self.old.counts }
    {
        at_level!(OfLevel, &mut self.of_level, heap => heap.check_around(at))
    }

    /// `Heap::check_request`.
    pub fn check_request(&mut self, len: u32) -> Option<Checked>
        ensures checks { ChecksRequest self.old.level self.old.stored len (seen_at self.old) (seen_at self.new) result }
        ensures goes_on { GoesOnWith self.old self.new self.old.counts }
    {
        at_level!(OfLevel, &mut self.of_level, heap => heap.check_request(len))
    }
}
