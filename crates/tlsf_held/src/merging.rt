//! Neighbouring rows of a table merged, for the fewest words of their pools.
ghost use Rattle.std.specs.Prelude.{◌≡◌, ℕ, ◌+◌, ◌<◌, ◌≤◌, ◌^◌, get_or, length, IfOk};
ghost use Rattle.tlsf_class.specs.Classes.{IsLevel};
ghost use Rattle.tlsf_held.specs.Divisions as found;
ghost use Rattle.tlsf_held.specs.Divisions.{part_row, part_words, rows_by, lens_of, AreCosts, Divide, IsCheapest};
ghost use Rattle.tlsf_held.specs.Merges as merges;
ghost use Rattle.tlsf_held.specs.RowTallies as told;
ghost use Rattle.tlsf_held.specs.Steps as steps;

use crate::band::row_between;
use crate::divisions::{Costs, MOST_PLACES, cheapest};
use crate::row::Row;
use crate::rows::table_of;
use crate::steps::{Step, steps_of};
use std::alloc::{AllocError, Global};
use tlsf_crew::Entry;
use tlsf_heap::Name;
use tlsf_pool::{Split, fixed_region};

// The count for a row that no region serves: more than eight regions ever have.
const NO_REGION: u64 = 1 << 32;

// The words of a pool for a row.
#[tactic(auto, using(crate::proofs::RowWords::too_many))]
fn row_words<const SLI: u32>(row: Row) -> u64
    requires { IsLevel SLI }
    ensures words { result ≡ merges.row_words SLI row }
    ensures small { result ≤ 2 ^ 32 }
{
    // A block has four words at least, so no region has room for more.
    if row.most > u32::MAX as usize {
        return NO_REGION;
    }
    match fixed_region::<SLI>(row.most as u32, row.longest) {
        Some(words) => u64::from(words),
        None => NO_REGION,
    }
}

// The shortest length that counts for a table's rows from this number on.
fn starts_at(table: &[Row], at: usize) -> u64
    requires { at ≤ length table.now }
    ensures { result ≡ merges.starts_at table.now at }
{
    if at == 0 {
        return 0;
    }
    u64::from(table[at - 1].longest) + 1
}

// The row that rows of a table are merged into, from one number on, below another.
fn merged_row(steps: &[Step], table: &[Row], at: usize, end: usize) -> Row
    requires { (at ≤ length table.now) × (end ≤ length table.now) }
    ensures { result ≡ part_row steps.now table.now at end }
{
    row_between(steps, starts_at(table, at), starts_at(table, end))
}

// The words of the rows merged from one number on, by the number of the last of each.
fn costs_from<const SLI: u32>(steps: &[Step], table: &[Row], at: usize) -> Costs
    requires table { merges.IsSmallTable SLI table.now }
    requires at { at < length table.now }
    ensures are { (last : ℕ) → at ≤ last → last < length table.now → get_or result last 0 ≡ part_words SLI steps.now table.now at (last + 1) }
    ensures small { (last : ℕ) → get_or result last 0 ≤ 2 ^ 32 }
{
    let mut costs = [0; MOST_PLACES];
    for last in at..table.len() {
        costs[last] = row_words::<SLI>(merged_row(steps, table, at, last + 1));
    }
    costs
}

// Those from each number on.
fn costs_of<const SLI: u32>(
    alloc: Global,
    steps: &[Step],
    table: &[Row],
) -> Result<Vec<Costs>, AllocError>
    requires { merges.IsSmallTable SLI table.now }
    ensures { IfOk result (λ costs. AreCosts SLI steps.now table.now costs.items) }
{
    let mut costs = Vec::new(alloc);
    for at in 0..table.len() {
        costs.push(costs_from::<SLI>(steps, table, at))?;
    }
    Ok(costs)
}

// The rows that a split merges the rows of a table into.
fn rows_of(
    alloc: Global,
    steps: &[Step],
    table: &[Row],
    split: Split,
) -> Result<Vec<Row>, AllocError>
    requires room { length split.lens ≡ 8 }
    requires heaps { split.heaps ≤ 8 }
    requires divide { Divide (length table.now) 0 (lens_of split) }
    ensures { IfOk result (λ rows. rows.items ≡ rows_by steps.now table.now 0 (lens_of split)) }
{
    let mut rows = Vec::new(alloc);
    let mut at = 0;
    let mut left = split.heaps;
    while left > 0 {
        left -= 1;
        let end = at + split.lens[left];
        rows.push(merged_row(steps, table, at, end))?;
        at = end;
    }
    Ok(rows)
}

// A table merged into at most this many rows, by the steps of its worker.
fn merged<const SLI: u32>(
    alloc: Global,
    steps: &[Step],
    table: &[Row],
    most: usize,
) -> Result<Vec<Row>, AllocError>
    requires table { merges.IsSmallTable SLI table.now }
    requires most { (1 ≤ most) × (most ≤ 8) }
    ensures { IfOk result (λ rows. IsCheapest SLI most steps.now table.now rows.items) }
{
    let costs = costs_of::<SLI>(alloc, steps, table)?;
    rows_of(alloc, steps, table, cheapest(&costs, most))
}

/// The table that the entries of a run tell of a worker's calls, merged for `heaps` heaps. The events of the run made these names.
/// Of all ways of merging neighbouring rows into at most that number, it is the one whose pools have the fewest words. None counts
/// as one heap, and more than 8 as 8.
pub fn merged_table_of<const SLI: u32>(
    alloc: Global,
    heaps: u32,
    worker: u32,
    made: &[Option<Name>],
    entries: &[Entry],
) -> Result<Vec<Row>, AllocError>
    requires { IsLevel SLI }
    ensures { IfOk result (λ rows. IsCheapest SLI (merges.heaps_of heaps)
        (steps.steps_told worker made.now entries.now) (told.table_of SLI worker made.now entries.now) rows.items) }
{
    let table = table_of::<SLI>(alloc, worker, made, entries)?;
    let steps = steps_of(alloc, worker, made, entries)?;
    merged::<SLI>(alloc, &steps, &table, heaps.min(8).max(1) as usize)
}
