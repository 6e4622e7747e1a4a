ghost use Rattle.tlsf_heap.specs.Effects.{Resets};
ghost use Rattle.tlsf_heap.specs.Kept.{Settles};
ghost use Rattle.tlsf_heap.specs.Shown.{seen};
ghost use Rattle.tlsf_heap.specs.Touched.{reset_touches};

use super::Heap;
use crate::refusal::Refusal;

impl<const SLI: u32> Heap<SLI> {
    /// Takes all blocks back in one step: those of a frame, of a level, or of a request. The region is then one free block, stamped with
    /// the tick, as if it were opened at this tick. Every name that was given is stale from then on, whatever is allocated later.
    ///
    /// It writes a start bit for each word of the region, 64 at once, and the heads of all lists. It reads and writes no payload, and
    /// it takes no longer for more blocks.
    ///
    /// Refused as `Worn` where the tick is at its last value. Takes no memory.
    ///
    /// ```text
    /// let name = heap.allocate(8)?;
    /// heap.reset() == Ok(())
    /// heap.release(name) == Err(Refusal::Stale)
    /// ```
    pub fn reset(&mut self) -> Result<(), Refusal>
        // Accepted or refused, and whatever the region holds.
        ensures resets { Resets reset_touches (seen self.old) (seen self.new) result }

        // A refusal changes nothing. All lies in one group of eight words, but start bits and the lists.
        ensures frame { Settles SLI 1 self.old.most_in_use self.old self.new result }
    {
        if self.tick == u64::MAX {
            return Err(Refusal::Worn);
        }
        self.region.reset(self.tick);
        self.usage.words = 0;
        self.tick += 1;
        Ok(())
    }
}
