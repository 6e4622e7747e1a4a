ghost use Rattle.std.specs.Prelude.{◌≡◌, ◌<◌, ◌≤◌, None, length, IfSome};
ghost use Rattle.tlsf_pool.specs.pools.Parts.{ArePools, IsRowOf, counts_at, rows_in};

use super::Pools;
use crate::pools::row_counts::RowCounts;
use crate::pools::table::{TablePool, TablePoolCalls};

// The part that has a row of the whole table, and which of its rows that is.
fn part_with<const SLI: u32>(parts: &[TablePool<SLI>], row: usize) -> Option<(usize, usize)>
    ensures none { result ≡ None → length (rows_in parts.now) ≤ row }
    ensures some { IfSome result (λ found. IsRowOf parts.now row found.0 found.1) }
{
    let mut own = row;
    for at in 0..parts.len() {
        let rows = parts[at].ledger().rows();
        if own < rows {
            return Some((at, own));
        }
        own -= rows;
    }
    None
}

impl<const SLI: u32> Pools<SLI> {
    /// The counts of a row of the whole table: how many blocks are held of it, and how many may be. None where the table has no such
    /// row, so that a walk from 0 on meets all. It looks at no block, and at eight parts at most.
    ///
    /// ```text
    /// let name = pools.allocate(64)?;         // the first block of row 0, of which 2,000 may be held
    /// pools.counts(0)                         // Some(RowCounts { held: 1, most: 2000 })
    /// ```
    pub fn counts(&self, row: usize) -> Option<RowCounts>
        ensures counts { result ≡ counts_at self.now row }
        ensures few { IfSome result (λ counts. counts.held ≤ counts.most) }
        ensures pools { ArePools SLI self.now }
    {
        let Some((part, own)) = part_with(&self.parts, row) else {
            return None;
        };
        let held = self.parts[part].held(own);
        let most = self.parts[part].ledger().most(own);
        Some(RowCounts { held, most })
    }
}
