ghost use Rattle.std.specs.Prelude.{◌≡◌, None, false};
ghost use Rattle.tlsf_pool.specs.pools.Parts as cut;
ghost use Rattle.tlsf_pool.specs.pools.Parts.{AsksLive, OnPart};

use super::{Pools, part_named};
use tlsf_heap::Name;

impl<const SLI: u32> Pools<SLI> {
    /// Whether a live block of one of these heaps has that name. A forged name is not followed. Takes no memory.
    ///
    /// ```text
    /// let name = pools.allocate(8)?;
    /// pools.is_live(name) == true
    /// pools.release(name)?;
    /// pools.is_live(name) == false
    /// ```
    pub fn is_live(&mut self, name: Name) -> bool
        ensures asks { OnPart SLI self.old self.new (cut.part_named self.old name) (λ old new. AsksLive old new name result) }
        ensures foreign { cut.part_named self.old name ≡ None → (result ≡ false) × (self.new ≡ self.old) }
    {
        let Some(part) = part_named(&self.parts, self.id, name) else {
            return false;
        };
        self.parts[part].is_live(name)
    }
}
