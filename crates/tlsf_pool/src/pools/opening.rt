ghost use Rattle.std.specs.Prelude.{◌≡◌, ◌≤◌, ◌+◌, ◌^◌, IfOk, IfErr, OnOk};
ghost use Rattle.std.specs.List.{AllByRecursion};
ghost use Rattle.tlsf_heap.specs.Calls.{last_tick};
ghost use Rattle.tlsf_pool.specs.sizes.Limits.{AreRows};
ghost use Rattle.tlsf_pool.specs.sizes.Splits.{HasWords, IsPart, parts_of};
ghost use Rattle.tlsf_pool.specs.pools.Tables.{IsTabled};
ghost use Rattle.tlsf_pool.specs.pools.Parts.{AddsNew, AreNew};

use crate::kind::Kind;
use crate::pools::table::{Table, TablePool, open_least};
use crate::sizes::region::region_words;
use crate::sizes::split::Split;
use std::alloc::Global;
use tlsf_heap::OpenFault;

/// Opens a heap for each part into which a split cuts a table, the first of number `id`.
pub(crate) fn open_parts<const SLI: u32>(
    alloc: Global,
    id: u32,
    kinds: &[Kind],
    split: &Split,
    first: u64,
) -> Result<Vec<TablePool<SLI>>, OpenFault>
    requires rows { AreRows SLI kinds.now }
    requires numbers { id + 8 ≤ 2 ^ 32 }
    requires heaps { split.now.heaps ≤ 8 }
    requires parts { AllByRecursion (IsPart SLI) (parts_of split.now kinds.now) }
    requires fresh { ¬ (first ≡ last_tick) }
    ensures new { IfOk result (λ parts. AreNew SLI id first (parts_of split.now kinds.now) parts.items) }
    ensures tables { IfOk result (λ parts. AllByRecursion (IsTabled SLI) parts.items) }
    ensures no_memory { IfErr result (λ fault. fault ≡ OpenFault.NoMemory) }
{
    let Ok(mut parts) = Vec::with_capacity(alloc, split.heaps) else {
        return Err(OpenFault::NoMemory);
    };
    let mut rest = kinds;
    for at in 0..split.heaps {
        let len = split.lens[split.heaps - 1 - at].min(rest.len());
        open_part(alloc, &mut parts, id + at as u32, &rest[..len], first)?;
        rest = &rest[len..];
    }
    Ok(parts)
}

/// Opens a heap of number `id` for a part of a table, and puts it after the others. It is made where it lies.
fn open_part<const SLI: u32>(
    alloc: Global,
    parts: &mut Vec<TablePool<SLI>>,
    id: u32,
    kinds: &[Kind],
    first: u64,
) -> Result<(), OpenFault>
    requires rows { AreRows SLI kinds.now }
    requires words { HasWords SLI kinds.now }
    requires fresh { ¬ (first ≡ last_tick) }
    ensures new { OnOk result (AddsNew SLI id first kinds.now parts.old.items parts.new.items) }
    ensures no_memory { IfErr result (λ why. why ≡ OpenFault.NoMemory) }
{
    let Some(words) = region_words::<SLI>(kinds) else {
        unreachable!();
    };
    let at = parts.len();
    let pool = open_least(alloc, id, words, first)?;
    let Ok(()) = parts.push(pool) else {
        return Err(OpenFault::NoMemory);
    };
    let table = Table::open(alloc, kinds)?;
    parts[at].begin(words, table);
    Ok(())
}
