ghost use Rattle.std.specs.Prelude.{◌≡◌};
ghost use Rattle.tlsf_heap.specs.Blocks.{IsPlace};
ghost use Rattle.tlsf_heap.specs.Effects.{ChecksAround};
ghost use Rattle.tlsf_heap.specs.Kept.{ChangesNothing};
ghost use Rattle.tlsf_heap.specs.Shown.{seen};

use super::Heap;
use crate::checked::Checked;

impl<const SLI: u32> Heap<SLI> {
    /// Looks at the block that begins at a place, which may be any number, and at both its neighbours; `None` where none begins
    /// there. These are the headers that a release or a resize of the block is about to follow. A heap that only these calls have
    /// changed is never called damaged.
    ///
    /// Where other code has written past the end of a payload, the answer is that of [`crate::check_around`] on words that may hold
    /// anything. It follows no place that it has not looked at. Takes no memory.
    ///
    /// ```text
    /// let name = heap.allocate(8)?;                    // of a new heap of 64 words: 4 of them
    /// heap.check_around(name.at)                       // Some(Checked::Sound { next: 4 })
    /// heap.check_around(5) == None
    /// ```
    pub fn check_around(&mut self, at: u32) -> Option<Checked>
        ensures checks { ChecksAround self.old.stored at (seen self.old) (seen self.new) result }
        ensures frame { ChangesNothing SLI self.old self.new }

        // Not even a start bit is read unless the place lies in the region, and no word unless a block begins there.
        ensures unread { ¬ (IsPlace self.old.heap.blocks at) → self.new.touched ≡ self.old.touched }
    {
        self.region.check_around(at)
    }
}
