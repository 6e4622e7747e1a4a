//! C's calls of pools by part, place and row, and the words that pools need. Its calls by pointer are made of the first.
ghost use Rattle.std.specs.Prelude.{◌≡◌, ◌<◌, ◌≤◌, ◌↔◌, Option, Some, None, IfSome, length};
ghost use Rattle.tlsf_heap.specs.ByPlace.{name_at};
ghost use Rattle.tlsf_heap.specs.Numbers.{number_of};
ghost use Rattle.tlsf_heap.specs.declared.checked.Checked.{Checked};
ghost use Rattle.tlsf_heap.specs.declared.placed_block.PlacedBlock.{PlacedBlock};
ghost use Rattle.tlsf_heap.specs.declared.refusal.Refusal.TheVariants.{Stale};
ghost use Rattle.tlsf_pool.specs.declared.sizes.split.Split.{Split};
ghost use Rattle.tlsf_pool.specs.pools.Parts.{counts_at, part_at, table_of};
ghost use Rattle.tlsf_pool.specs.pools.Tables as tables;
ghost use Rattle.tlsf_pool.specs.sizes.Rising.{HasNoHeaps};
ghost use Rattle.tlsf_pool.specs.sizes.Splits.{IsLeast};
ghost use Rattle.tlsf_c.specs.Checked.{check_number_of, next_told, damaged_told};
ghost use Rattle.tlsf_c.specs.Lengths.{saturated};
ghost use Rattle.tlsf_c.specs.Names.{name_of};
ghost use Rattle.tlsf_c.specs.PlaceCalls.{length_at};
ghost use Rattle.tlsf_c.specs.PoolCalls.{ChecksInPools, LooksInPools, PartsLeaveLive};
ghost use Rattle.tlsf_c.specs.PoolHandles.{pools_in, kinds_of, OnPools};
ghost use Rattle.tlsf_c.specs.Refusals.{bad_size, damage, bad_level};
ghost use Rattle.tlsf_c.specs.Levels.{IsLevel};

use crate::any_pools::AnyPools;
use crate::arena_slot::{ArenaSlot, on_arena};
use crate::call_fault::{CallFault, check_status};
use crate::kind_row::{KindRow, NO_KIND, put_kinds};
use crate::lengths::saturated;
use crate::names::BlockName;
use tlsf_heap::{Content, PlacedBlock, Refusal};
use tlsf_pool::{MOST_HEAPS, Split, rising_split};

/// The cheapest way to give a table of at most 64 rows to at most eight heaps of a level, 4 or 5.
fn split_for(level: u32, rows: &[KindRow]) -> Option<Split>
    requires level { IsLevel level }
    requires few { length rows.now ≤ 64 }
    ensures least { IfSome result (IsLeast level 8 (kinds_of rows.now)) }
    ensures none { result ≡ None → HasNoHeaps level 8 (kinds_of rows.now) }
{
    let mut kinds = [NO_KIND; 64];
    put_kinds(rows, &mut kinds);
    let (table, _) = kinds.split_at(rows.len());
    if level == 4 {
        rising_split::<4>(table, MOST_HEAPS)
    } else {
        rising_split::<5>(table, MOST_HEAPS)
    }
}

/// The words of all heaps together that `tlsf_pools_open` opens for a table go to `words`, and how many heaps these are to `heaps`.
///
/// Refused as BadLevel where `level` is neither 4 nor 5. Otherwise as BadSize where there are more than 64 rows, or a row is no longer
/// than the one before it. The same where no way to cut the table gives each heap a region.
///
/// ```text
/// tlsf_pools_words(4, rows, 2, &words, &heaps) == TLSF_OK     // rows: {2000, 64}, {1, 65536}: 30,704 words, 2 heaps
/// ```
#[unsafe(no_mangle)]
pub extern "C" fn tlsf_pools_words(
    level: u32,
    rows: &[KindRow],
    words: &mut u64,
    heaps: &mut u32,
) -> u32
    ensures bad_level { ¬ (level ≡ 4) → ¬ (level ≡ 5) → result ≡ bad_level }
    ensures too_many { 4 ≤ level → level ≤ 5 → 64 < length rows.now → result ≡ bad_size }
    ensures least { result ≡ 0 → (split : Split) × IsLeast level 8 (kinds_of rows.now) split × (words.new ≡ split.words) × (heaps.new ≡ split.heaps) }
    ensures none { 4 ≤ level → level ≤ 5 → length rows.now ≤ 64 → ¬ (result ≡ 0) → (result ≡ bad_size) × HasNoHeaps level 8 (kinds_of rows.now) }
    ensures kept { ¬ (result ≡ 0) → (words.new ≡ words.old) × (heaps.new ≡ heaps.old) }
{
    if level < 4 || level > 5 {
        return CallFault::BadLevel.number();
    }
    if rows.len() > 64 {
        return CallFault::BadSize.number();
    }
    match split_for(level, rows) {
        None => CallFault::BadSize.number(),
        Some(split) => {
            *words = split.words;
            *heaps = split.heaps as u32;
            0
        }
    }
}

/// The address and the number of the heap of a part, where there is one.
fn part_of(pools: &mut AnyPools, part: usize) -> Option<(*mut u64, u32)>
    ensures none { (result ≡ None) ↔ (length pools.old.pools.parts ≤ part) }
    ensures part { IfSome result (λ found. (found.0 ≡ (part_at pools.old.pools part).extents.words.address) × (found.1 ≡ (part_at pools.old.pools part).heap.id)) }
    ensures same { pools.new ≡ pools.old }
{
    let number = pools.number(part)?;
    let base = pools.base(part)?;
    Some((base, number))
}

/// Tells of the heap of a part, by its number in the order of the table. The address of its region's first word goes to `base`. The
/// number that the names of its blocks have goes to `number`.
///
/// Refused as Closed where the handle isn't open. Otherwise as OtherKind where it holds another kind of arena. Otherwise as Stale
/// where there is no such part, so that a walk from 0 on meets all.
///
/// ```text
/// tlsf_pools_part(&pools, 0, &base, &number) == TLSF_OK
/// ```
#[unsafe(no_mangle)]
pub extern "C" fn tlsf_pools_part(
    pools: &mut ArenaSlot,
    part: u32,
    base: &mut *mut u64,
    number: &mut u32,
) -> u32
    ensures pools { OnPools pools.old pools.new result ((part < length (pools_in pools.old).parts → result ≡ 0) × (length (pools_in pools.old).parts ≤ part → result ≡ number_of Stale) × (pools_in pools.new ≡ pools_in pools.old)) }
    ensures base { result ≡ 0 → base.new ≡ (part_at (pools_in pools.old) part).extents.words.address }
    ensures number { result ≡ 0 → number.new ≡ (part_at (pools_in pools.old) part).heap.id }
    ensures kept { ¬ (result ≡ 0) → (base.new ≡ base.old) × (number.new ≡ number.old) }
{
    if !pools.serves() {
        return CallFault::Closed.refusal();
    }
    let answer = on_arena!(pools, Pools, owned => part_of(owned, part as usize));
    match answer {
        Some((at, id)) => {
            *base = at;
            *number = id;
            0
        }
        None => Refusal::Stale.number(),
    }
}

/// The bytes of the row for which a request for `len` bytes counts go to `row_len`. A request for that number of bytes counts for
/// the same row.
///
/// Refused as Closed where the handle isn't open. Otherwise as OtherKind where it holds another kind of arena. Otherwise as BadSize
/// where no row is long enough.
///
/// ```text
/// tlsf_pools_row(&pools, 65, &row_len) == TLSF_OK     // rows of 64 and 65,536 bytes: 65,536
/// ```
#[unsafe(no_mangle)]
pub extern "C" fn tlsf_pools_row(pools: &mut ArenaSlot, len: usize, row_len: &mut u32) -> u32
    ensures pools { OnPools pools.old pools.new result ((¬ (result ≡ 0) → (result ≡ bad_size) × (tables.row_len (table_of (pools_in pools.old)) (saturated len) ≡ None)) × (pools_in pools.new ≡ pools_in pools.old)) }
    ensures row { result ≡ 0 → tables.row_len (table_of (pools_in pools.old)) (saturated len) ≡ Some row_len.new }
    ensures kept { ¬ (result ≡ 0) → row_len.new ≡ row_len.old }
{
    if !pools.serves() {
        return CallFault::Closed.refusal();
    }
    let answer = on_arena!(pools, Pools, owned => owned.row_len(saturated(len)));
    match answer {
        Some(bytes) => {
            *row_len = bytes;
            0
        }
        None => CallFault::BadSize.number(),
    }
}

/// The counts of a row, by its number in the order of the table. How many blocks are held of it goes to `held`, and how many may be to
/// `most`. It looks at no block.
///
/// Refused as Closed where the handle isn't open. Otherwise as OtherKind where it holds another kind of arena. Otherwise as Stale
/// where the table has no such row, so that a walk from 0 on meets all.
///
/// ```text
/// tlsf_pools_counts(&pools, 0, &held, &most) == TLSF_OK     // of new pools with rows {2000, 64}, {1, 65536}: 0 and 2,000
/// ```
#[unsafe(no_mangle)]
pub extern "C" fn tlsf_pools_counts(
    pools: &mut ArenaSlot,
    row: u32,
    held: &mut u32,
    most: &mut u32,
) -> u32
    ensures pools { OnPools pools.old pools.new result ((¬ (result ≡ 0) → (result ≡ number_of Stale) × (counts_at (pools_in pools.old) row ≡ None)) × (pools_in pools.new ≡ pools_in pools.old)) }
    ensures counts { result ≡ 0 → counts_at (pools_in pools.old) row ≡ Some (record { held = held.new; most = most.new }) }
    ensures kept { ¬ (result ≡ 0) → (held.new ≡ held.old) × (most.new ≡ most.old) }
{
    if !pools.serves() {
        return CallFault::Closed.refusal();
    }
    let answer = on_arena!(pools, Pools, owned => owned.counts(row as usize));
    match answer {
        Some(counts) => {
            *held = counts.held;
            *most = counts.most;
            0
        }
        None => Refusal::Stale.number(),
    }
}

/// Looks at `most` blocks at most of the heap of a part, as `tlsf_check` does of a heap. The first of them begins at the place `from`.
/// Where all are sound, the place after them goes to `next`, which is 0 after the last block of the region. Pools that only these
/// calls have changed are always sound. Where other code has written past the end of a payload, a block may be damaged, and its place
/// goes to `damaged`. The call follows no place that it has not looked at.
///
/// Refused as Closed where the handle isn't open. Otherwise as OtherKind where it holds another kind of arena. Otherwise as Stale
/// where there is no such part, or no block begins at `from`. Otherwise as Damaged where a block is damaged.
///
/// ```text
/// tlsf_pools_check(&pools, 0, 0, 100, &next, &damaged) == TLSF_OK
/// ```
#[unsafe(no_mangle)]
pub extern "C" fn tlsf_pools_check(
    pools: &mut ArenaSlot,
    part: u32,
    from: u32,
    most: u32,
    next: &mut u32,
    damaged: &mut u32,
) -> u32
    ensures pools { OnPools pools.old pools.new result (((found : Option Checked) × ChecksInPools (pools_in pools.old) (pools_in pools.new) part from most found
        × (result ≡ check_number_of found) × (next.new ≡ next_told next.old found) × (damaged.new ≡ damaged_told damaged.old found)) × PartsLeaveLive (pools_in pools.old) (pools_in pools.new)) }
    ensures no_next { ¬ (result ≡ 0) → next.new ≡ next.old }
    ensures no_damage { ¬ (result ≡ damage) → damaged.new ≡ damaged.old }
{
    if !pools.serves() {
        return CallFault::Closed.refusal();
    }
    let found = on_arena!(pools, Pools, owned => owned.check_blocks(part as usize, from, most));
    check_status(found, next, damaged)
}

/// The live block that begins at a place of a part's heap: its name goes to `name`, and the bytes of its payload to `len`.
///
/// Refused as Closed where the handle isn't open. Otherwise as OtherKind where it holds another kind of arena. Otherwise as Stale
/// where there is no such part, or no live block begins there.
///
/// ```text
/// tlsf_pools_place(&pools, 0, 0, &name, &len) == TLSF_OK      // name.at == 0
/// ```
#[unsafe(no_mangle)]
pub extern "C" fn tlsf_pools_place(
    pools: &mut ArenaSlot,
    part: u32,
    at: u32,
    name: &mut BlockName,
    len: &mut u32,
) -> u32
    ensures pools { OnPools pools.old pools.new result (((found : Option PlacedBlock) × LooksInPools (pools_in pools.old) (pools_in pools.new) part at found) × PartsLeaveLive (pools_in pools.old) (pools_in pools.new)
        × (length (pools_in pools.old).parts ≤ part → result ≡ number_of Stale)
        × (part < length (pools_in pools.old).parts → ¬ (result ≡ 0) → (result ≡ number_of Stale) × (name_at (part_at (pools_in pools.old) part).heap at ≡ None))) }
    ensures name { result ≡ 0 → name_at (part_at (pools_in pools.old) part).heap at ≡ Some (name_of name.new) }
    ensures len { result ≡ 0 → length_at (part_at (pools_in pools.old) part).heap.blocks at ≡ Some len.new }
    ensures kept { ¬ (result ≡ 0) → (name.new ≡ name.old) × (len.new ≡ len.old) }
{
    if !pools.serves() {
        return CallFault::Closed.refusal();
    }
    let (number, found) =
        on_arena!(pools, Pools, owned => (owned.number(part as usize), owned.block_at(part as usize, at)));
    let Some(heap) = number else {
        return Refusal::Stale.number();
    };
    match found {
        Some(
            PlacedBlock {
                content: Content::Live { serial, length },
                ..
            },
        ) => {
            *name = BlockName { heap, at, serial };
            *len = length;
            0
        }
        _ => Refusal::Stale.number(),
    }
}
