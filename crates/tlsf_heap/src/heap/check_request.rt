ghost use Rattle.tlsf_heap.specs.Effects.{ChecksRequest};
ghost use Rattle.tlsf_heap.specs.Kept.{ChangesNothing};
ghost use Rattle.tlsf_heap.specs.Shown.{seen};

use super::{Heap, want};
use crate::checked::Checked;
use crate::fitting::choose;

impl<const SLI: u32> Heap<SLI> {
    /// Looks at the free block that a request for `len` bytes would take, and at both its neighbours; `None` where no block fits. These
    /// are the headers and the links that an allocate is about to follow. The block is damaged where it isn't free, or has fewer
    /// words than the request wants. A heap that only these calls have changed is never called damaged.
    ///
    /// Where other code has written into a free block, the answer is that of [`crate::check_taken`] on words that may hold anything.
    /// Takes no memory.
    ///
    /// ```text
    /// heap.check_request(8)                            // of a new heap of 64 words: Some(Checked::Sound { next: 0 })
    /// heap.check_request(1000) == None
    /// ```
    pub fn check_request(&mut self, len: u32) -> Option<Checked>
        // The law on words that hold anything is one of these, by the place of the block that serves the request.
        ensures checks { ChecksRequest SLI self.old.stored len (seen self.old) (seen self.new) result }
        ensures frame { ChangesNothing SLI self.old self.new }
    {
        let words = want(len);
        let class = choose(&mut self.region, words)?;
        let at = self.region.head(class)?;
        Some(self.region.check_taken(at, words))
    }
}
