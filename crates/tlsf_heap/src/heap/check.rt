ghost use Rattle.std.specs.Prelude.{◌≡◌};
ghost use Rattle.tlsf_heap.specs.Blocks.{IsPlace};
ghost use Rattle.tlsf_heap.specs.Effects.{ChecksBlocks};
ghost use Rattle.tlsf_heap.specs.Kept.{ChangesNothing};
ghost use Rattle.tlsf_heap.specs.Shown.{seen};

use super::Heap;
use crate::checked::Checked;

impl<const SLI: u32> Heap<SLI> {
    /// Looks at `most` blocks at most, one after the other. The first of them begins at `from`; `None` where none begins there. A
    /// heap that only these calls have changed is never called damaged. It follows no place that it has not looked at. Takes no
    /// memory.
    ///
    /// Where other code has written past the end of a payload, it answers as [`crate::check_words`] does, which is proved to tell
    /// damage. No clause here says so, since none speaks of a damaged heap.
    ///
    /// A caller who checks in slices calls it again with the `next` of the answer, which is 0 behind the last block.
    ///
    /// ```text
    /// let name = heap.allocate(8)?;                    // of a new heap of 64 words: 4 of them
    /// heap.check_blocks(0, 1)                          // Some(Checked::Sound { next: 4 })
    /// heap.check_blocks(4, 1)                          // Some(Checked::Sound { next: 0 })
    /// heap.check_blocks(5, 1) == None
    /// ```
    pub fn check_blocks(&mut self, from: u32, most: u32) -> Option<Checked>
        ensures checks { ChecksBlocks self.old.stored from most (seen self.old) (seen self.new) result }
        ensures frame { ChangesNothing SLI self.old self.new }

        // Not even a start bit is read unless the place lies in the region, and no word unless a block begins there.
        ensures unread { ¬ (IsPlace self.old.heap.blocks from) → self.new.touched ≡ self.old.touched }
    {
        self.region.check(from, most)
    }
}
