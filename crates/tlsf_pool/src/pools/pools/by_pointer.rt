ghost use Rattle.std.specs.Prelude.{◌≡◌, ◌≤◌, ◌↔◌, None, length, IfSome};
ghost use Rattle.tlsf_pool.specs.pools.Parts.{ArePools, part_at, table_of};
ghost use Rattle.tlsf_pool.specs.pools.Tables as tables;

use super::{Pools, part_of};

impl<const SLI: u32> Pools<SLI> {
    /// The number of the heap of a part, which the names of its blocks have. None where there is no such part.
    ///
    /// ```text
    /// pools.number(1)                         // of pools that were opened with the number 7: Some(8)
    /// ```
    pub fn number(&self, part: usize) -> Option<u32>
        ensures none { (result ≡ None) ↔ (length self.now.parts ≤ part) }
        ensures number { IfSome result (λ number. number ≡ (part_at self.now part).heap.id) }
        ensures pools { ArePools SLI self.now }
    {
        if part >= self.parts.len() {
            return None;
        }
        Some(self.parts[part].id())
    }

    /// The address of the first word of the region of a part's heap, as [`Heap::base`](tlsf_heap::Heap::base) answers it. None where
    /// there is no such part. Takes no memory.
    ///
    /// ```text
    /// let base = pools.base(0)?;              // the payload of the block at place 0 begins three words after it
    /// ```
    pub fn base(&mut self, part: usize) -> Option<*mut u64>
        ensures none { (result ≡ None) ↔ (length self.old.parts ≤ part) }
        ensures address { IfSome result (λ base. base ≡ (part_at self.old part).extents.words.address) }
        ensures same { self.new ≡ self.old }
        ensures pools { ArePools SLI self.new }
    {
        if part >= self.parts.len() {
            return None;
        }
        Some(self.parts[part].base())
    }

    /// The bytes of the row for which a request counts: the first of the table that is long enough for it. A request of that number
    /// of bytes counts for the same row. None where no row is long enough.
    ///
    /// ```text
    /// pools.row_len(65)                       // of a table of rows of 64 and 65,536 bytes: Some(65_536)
    /// ```
    pub fn row_len(&self, len: u32) -> Option<u32>
        ensures { result ≡ tables.row_len (table_of self.now) len }
    {
        let Some(part) = part_of(&self.parts, len) else {
            return None;
        };
        self.parts[part].ledger().row_len(len)
    }
}
