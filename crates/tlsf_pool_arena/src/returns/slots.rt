ghost use Rattle.std.specs.Prelude.{◌≡◌, ◌<◌, [], None, replicate, IfOk};
ghost use Rattle.tlsf_pool_arena.specs.returns.Ends.{IsOwnerOf, away_by, looks_of};

use crate::returns::owner_end::OwnerEnd;
use crate::returns::rule::SlotTable;
use std::alloc::{AllocError, Global};

/// The slots, which all threads share by a `&` or in an `Arc`.
#[derive(Drop)]
pub struct Slots<T> {
    pub(super) table: SlotTable<T>,
}

/// Opens `count` slots, and answers them with the owner's end. It fails only for want of memory, which no later call takes.
///
/// - `own`: the end is that of these slots.
/// - `fresh`: nothing is away by any of the `count` slots, and none was looked at.
///
/// ```text
/// let (slots, mut owner) = open_slots::<u64>(alloc, 4)?;
/// ```
pub fn open_slots<T: Drop>(
    alloc: Global,
    count: usize,
) -> Result<(Slots<T>, OwnerEnd<T>), AllocError>
    ensures own { IfOk result (λ r. IsOwnerOf r.0 r.1) }
    ensures fresh { IfOk result (λ r. (away_by r.1 ≡ replicate count None) × (looks_of r.1 ≡ [])) }
{
    let words = Vec::from_elem(alloc, 0u64, count)?;
    let (table, seat) = SlotTable::vacant(alloc, words.as_slice(), count, &count)?;
    Ok((Slots { table }, OwnerEnd { seat }))
}
