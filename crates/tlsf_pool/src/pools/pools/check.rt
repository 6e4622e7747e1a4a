ghost use Rattle.std.specs.Prelude.{◌≡◌, ◌<◌, ◌≤◌, None, length};
ghost use Rattle.tlsf_pool.specs.pools.Parts.{AtPart, Checks};

use super::Pools;
use tlsf_heap::Checked;

impl<const SLI: u32> Pools<SLI> {
    /// Looks at `most` blocks at most in the heap of a part, one after the other, as
    /// [`Ledgered::check_blocks`](tlsf_heap::Ledgered::check_blocks) does. The first of them begins at `from`. None where none begins
    /// there or there is no such part. Pools that only these calls have changed are never called damaged. Takes no memory.
    ///
    /// ```text
    /// pools.check_blocks(1, 0, 100)           // of new pools as above: Some(Checked::Sound { next: 0 })
    /// pools.check_blocks(2, 0, 100) == None
    /// ```
    pub fn check_blocks(&mut self, part: usize, from: u32, most: u32) -> Option<Checked>
        ensures none { length self.old.parts ≤ part → (result ≡ None) × (self.new ≡ self.old) }
        ensures checks { AtPart SLI self.old self.new part (λ old new. part < length self.old.parts → Checks old new from most result) }
    {
        if part >= self.parts.len() {
            return None;
        }
        self.parts[part].check_blocks(from, most)
    }
}
