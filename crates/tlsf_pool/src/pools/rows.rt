ghost use Rattle.std.specs.Prelude.{◌≡◌, ◌+◌, ◌-◌, ◌<◌, ◌^◌, ◌↔◌, length, set, slice_index, IsSomeAnd, IsTrue};
ghost use Rattle.tlsf_pool.specs.pools.Tables as table;
ghost use Rattle.tlsf_pool.specs.pools.Tables.{HoldsOneMore, most_at};

use crate::kind::Kind;

/// The row of a table for which a length counts: the first that is long enough for it.
pub(crate) fn row_of(kinds: &[Kind], len: u32) -> Option<usize>
    ensures { result ≡ table.row_of kinds.now len }
{
    kinds.iter().position(|kind| len <= kind.len)
}

/// Whether fewer blocks are held of a row than may be.
pub(crate) fn has_place(kinds: &[Kind], held: &[u32], row: usize) -> bool
    requires kinds { row < length kinds.now }
    requires held { row < length held.now }
    ensures place { IsTrue result ↔ (slice_index held.now row < most_at kinds.now row) }

    // So one more can be counted.
    ensures small { IsTrue result → slice_index held.now row < 2 ^ 32 - 1 }
{
    held[row] < kinds[row].most
}

/// Counts one block more of a row.
pub(crate) fn count_up(held: &mut [u32], row: usize)
    requires row { row < length held.old }
    requires small { slice_index held.old row < 2 ^ 32 - 1 }
    ensures { held.new ≡ set held.old row (slice_index held.old row + 1) }
{
    held[row] += 1;
}

/// Counts one block fewer of the row for which a length counts.
pub(crate) fn count_down(kinds: &[Kind], held: &mut [u32], len: u32)
    requires { IsSomeAnd (table.row_of kinds.now len) (λ row. (row < length held.old) × (0 < slice_index held.old row)) }
    ensures { HoldsOneMore kinds.now len held.new held.old }
{
    if let Some(row) = row_of(kinds, len) {
        held[row] -= 1;
    }
}
