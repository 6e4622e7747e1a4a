//! C's calls of several heaps for one table of kinds, which never refuse for want of room.
ghost use Rattle.std.specs.Prelude.{◌≡◌, ◌+◌, ◌≤◌, ◌^◌, true, false, ◌↔◌, Result, IfOk, IsErrOf, Option, IfSome, length};
ghost use Rattle.tlsf_heap.specs.declared.name.Name.{Name};
ghost use Rattle.tlsf_heap.specs.declared.report.Report.{Report};
ghost use Rattle.tlsf_pool.specs.declared.pools.pool_refusal.PoolRefusal.{PoolRefusal};
ghost use Rattle.tlsf_pool.specs.sizes.Rising.{HasNoHeaps};
ghost use Rattle.tlsf_c.specs.Lengths.{saturated};
ghost use Rattle.tlsf_c.specs.Names.{name_of, report_in};
ghost use Rattle.tlsf_c.specs.PoolCalls.{AreNewPools, AllocatesInPools, ReleasesInPools, WritesInPools, ReadsInPools, ReportsInPools, PartsLeaveLive};
ghost use Rattle.tlsf_c.specs.PoolHandles.{pools_in, pools_level, holds_pools, kinds_of, pool_status_of, part_status_of, ByName, OnPools};
ghost use Rattle.tlsf_c.specs.Serving.{arena_serves, ClosesArena, OpensAtLevel};
ghost use Rattle.tlsf_c.specs.Levels.{IsLevel};

use crate::any_pools::{AnyPools, boxed};
use crate::arena_slot::{ArenaSlot, on_arena};
use crate::call_fault::{CallFault, status};
use crate::kind_row::{KindRow, NO_KIND, put_kinds};
use crate::lengths::saturated;
use crate::names::{BlockName, HeapReport};
use std::alloc::Global;
use tlsf_heap::{OpenFault, Refusal};
use tlsf_pool::PoolRefusal;

/// Opens pools of a level, 4 or 5, for a table of at most 64 rows.
fn open_for(alloc: Global, level: u32, id: u32, rows: &[KindRow]) -> Result<AnyPools, OpenFault>
    requires level { IsLevel level }
    requires few { length rows.now ≤ 64 }
    requires numbers { id + 8 ≤ 2 ^ 32 }
    ensures level { IfOk result (λ a. a.level ≡ level) }
    ensures new { IfOk result (λ a. AreNewPools level id (kinds_of rows.now) a.pools) }
    ensures bad_size { IsErrOf result OpenFault.BadSize ↔ HasNoHeaps level 8 (kinds_of rows.now) }
    ensures not_worn { ¬ (IsErrOf result OpenFault.Worn) }
{
    let mut kinds = [NO_KIND; 64];
    put_kinds(rows, &mut kinds);
    let (table, _) = kinds.split_at(rows.len());
    AnyPools::open(alloc, level, id, table)
}

/// Opens heaps of a level, 4 or 5, for a table of kinds, in a closed handle. There are at most eight, and that number of them which
/// has the fewest words together. Their numbers are `id` and those after it. The rows rise in `len`.
///
/// Refused as InUse where the handle is open. Otherwise as BadLevel where there is no such level. Otherwise as BadSize where there
/// are more than 64 rows, or a row is no longer than the one before it. The same where the numbers would go past 2^32, or no way to
/// cut the table gives each heap a region. Otherwise as NoMemory where the memory was not granted. No later call on the pools takes
/// memory.
///
/// ```text
/// tlsf_pools_open(&pools, 4, 1, rows, 2) == TLSF_OK     // rows: {2000, 64}, {1, 65536}
/// ```
#[unsafe(no_mangle)]
pub extern "C" fn tlsf_pools_open(
    alloc: Global,
    pools: &mut ArenaSlot,
    level: u32,
    id: u32,
    rows: &[KindRow],
) -> u32
    ensures refusals { OpensAtLevel pools.old.is_open level ((length rows.now ≤ 64) × (id + 8 ≤ 2 ^ 32) × ¬ (HasNoHeaps level 8 (kinds_of rows.now))) pools.old pools.new result }
    ensures opens { result ≡ 0 → (arena_serves pools.new ≡ true) × (holds_pools pools.new ≡ true) × (pools_level pools.new ≡ level) × AreNewPools level id (kinds_of rows.now) (pools_in pools.new) }
{
    if pools.is_open {
        return CallFault::InUse.number();
    }
    if level < 4 || level > 5 {
        return CallFault::BadLevel.number();
    }
    if rows.len() > 64 || id > u32::MAX - 7 {
        return CallFault::BadSize.number();
    }
    match open_for(alloc, level, id, rows) {
        Err(fault) => fault.number(),
        Ok(opened) => match boxed(alloc, opened) {
            Err(fault) => fault.number(),
            Ok(owned) => {
                pools.put_in(owned);
                0
            }
        },
    }
}

/// Closes all heaps of pools. No name of their blocks is of use from then on.
///
/// Refused as Closed where the handle isn't open. Otherwise as OtherKind where it holds another kind of arena.
///
/// ```text
/// tlsf_pools_close(&pools) == TLSF_OK
/// ```
#[unsafe(no_mangle)]
pub extern "C" fn tlsf_pools_close(alloc: Global, pools: &mut ArenaSlot) -> u32
    ensures { ClosesArena (holds_pools pools.old) pools.old pools.new result }
{
    if !pools.serves() {
        return CallFault::Closed.number();
    }
    if !pools.inner.lend().is_pools() {
        return CallFault::OtherKind.number();
    }
    pools.close(alloc);
    0
}

/// Gives a block that holds `len` bytes of payload, all zero. It comes from the heap of the first part of the table with a long
/// enough row. Its name goes to `name`.
///
/// Refused as Closed where the handle isn't open. Otherwise as OtherKind where it holds another kind of arena. Otherwise as
/// BadSize where no row is long enough. Otherwise as RowFull where as many blocks of that row are held as may be. Otherwise as
/// Worn where the ticks of that heap are used up. It is never refused for want of room.
///
/// ```text
/// tlsf_pools_allocate(&pools, 64, &name) == TLSF_OK
/// ```
#[unsafe(no_mangle)]
pub extern "C" fn tlsf_pools_allocate(
    pools: &mut ArenaSlot,
    len: usize,
    name: &mut BlockName,
) -> u32
    ensures pools { OnPools pools.old pools.new result (((answer : Result Name PoolRefusal) × AllocatesInPools (pools_level pools.old) (pools_in pools.old) (pools_in pools.new) (saturated len) answer
        × (result ≡ pool_status_of answer) × IfOk answer (λ given. name_of name.new ≡ given)) × PartsLeaveLive (pools_in pools.old) (pools_in pools.new)) }
    ensures no_name { ¬ (result ≡ 0) → name.new ≡ name.old }
{
    if !pools.serves() {
        return CallFault::Closed.refusal();
    }
    let answer = on_arena!(pools, Pools, owned => owned.allocate(saturated(len)));
    match answer {
        Ok(new) => {
            *name = BlockName::of(new);
            0
        }
        Err(PoolRefusal::TooLong) => CallFault::BadSize.number(),
        Err(PoolRefusal::Full) => CallFault::RowFull.number(),
        Err(PoolRefusal::Worn) => Refusal::Worn.number(),
    }
}

/// Takes back the block of that name, into the heap that it names.
///
/// Refused as Closed where the handle isn't open. Otherwise as OtherKind where it holds another kind of arena. Otherwise as
/// `Pools::release` refuses: Foreign, Stale, Worn.
///
/// ```text
/// tlsf_pools_release(&pools, name) == TLSF_OK
/// ```
#[tactic(auto, using(crate::proofs::LeftParts::release_left))]
#[unsafe(no_mangle)]
pub extern "C" fn tlsf_pools_release(pools: &mut ArenaSlot, name: BlockName) -> u32
    ensures { OnPools pools.old pools.new result (ByName (pools_in pools.old) (pools_in pools.new) (name_of name) result (ReleasesInPools (pools_in pools.old) (pools_in pools.new) (name_of name))) }
{
    if !pools.serves() {
        return CallFault::Closed.refusal();
    }
    status(on_arena!(pools, Pools, owned => owned.release(name.name())))
}

/// Writes bytes into the payload of the block of that name, from byte `at` of it on.
///
/// Refused as Closed where the handle isn't open. Otherwise as OtherKind where it holds another kind of arena. Otherwise as
/// `Pools::write` refuses: Foreign, Stale, Range.
///
/// ```text
/// tlsf_pools_write(&pools, name, 0, bytes, 2) == TLSF_OK
/// ```
#[tactic(auto, using(crate::proofs::LeftParts::write_left))]
#[unsafe(no_mangle)]
pub extern "C" fn tlsf_pools_write(
    pools: &mut ArenaSlot,
    name: BlockName,
    at: u32,
    bytes: &[u8],
) -> u32
    ensures { OnPools pools.old pools.new result (ByName (pools_in pools.old) (pools_in pools.new) (name_of name) result (WritesInPools (pools_in pools.old) (pools_in pools.new) (name_of name) at bytes.now)) }
{
    if !pools.serves() {
        return CallFault::Closed.refusal();
    }
    status(on_arena!(pools, Pools, owned => owned.write(name.name(), at, bytes)))
}

/// Reads bytes of the payload of the block of that name, from byte `at` of it on, and fills `out` with them.
///
/// Refused as Closed where the handle isn't open. Otherwise as OtherKind where it holds another kind of arena. Otherwise as
/// `Pools::read` refuses: Foreign, Stale, Range. `out` is then as before.
///
/// ```text
/// tlsf_pools_read(&pools, name, 0, out, 2) == TLSF_OK
/// ```
#[tactic(auto, using(crate::proofs::LeftParts::read_left))]
#[unsafe(no_mangle)]
pub extern "C" fn tlsf_pools_read(
    pools: &mut ArenaSlot,
    name: BlockName,
    at: u32,
    out: &mut [u8],
) -> u32
    ensures pools { OnPools pools.old pools.new result (ByName (pools_in pools.old) (pools_in pools.new) (name_of name) result (ReadsInPools (pools_in pools.old) (pools_in pools.new) (name_of name) at out.old out.new)) }
    ensures kept { (arena_serves pools.old ≡ true → holds_pools pools.old ≡ false) → out.new ≡ out.old }
{
    if !pools.serves() {
        return CallFault::Closed.refusal();
    }
    status(on_arena!(pools, Pools, owned => owned.read(name.name(), at, out)))
}

/// The report on the heap of a part of the table goes to `report`. The parts have numbers from 0 on, in the order of the table. It
/// walks over all blocks of that heap.
///
/// Refused as Closed where the handle isn't open. Otherwise as OtherKind where it holds another kind of arena. Otherwise as Stale
/// where there is no such part, so that a walk from 0 on meets all.
///
/// ```text
/// tlsf_pools_report(&pools, 0, &report) == TLSF_OK
/// ```
#[unsafe(no_mangle)]
pub extern "C" fn tlsf_pools_report(
    pools: &mut ArenaSlot,
    part: u32,
    report: &mut HeapReport,
) -> u32
    ensures pools { OnPools pools.old pools.new result (((answer : Option Report) × ReportsInPools (pools_level pools.old) (pools_in pools.old) (pools_in pools.new) part answer
        × (result ≡ part_status_of answer) × IfSome answer (λ found. report_in report.new ≡ found)) × PartsLeaveLive (pools_in pools.old) (pools_in pools.new)) }
    ensures no_report { ¬ (result ≡ 0) → report.new ≡ report.old }
{
    if !pools.serves() {
        return CallFault::Closed.refusal();
    }
    let answer = on_arena!(pools, Pools, owned => owned.report(part as usize));
    match answer {
        Some(found) => {
            *report = HeapReport::of(found);
            0
        }
        None => Refusal::Stale.number(),
    }
}
