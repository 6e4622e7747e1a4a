//! The lines on the kinds of blocks that the entries of a run tell of each heap.
ghost use Rattle.std.specs.Prelude.{◌≡◌, ◌++◌, OnOk, string_bytes};
ghost use Rattle.tlsf_class.specs.Classes.{IsLevel};
ghost use Rattle.tlsf_held.specs.KindLines.{kinds_line, kinds_text, pair_text, pairs_text, rows_written};
ghost use Rattle.tlsf_held.specs.Divisions.{AddsMerged};
ghost use Rattle.tlsf_held.specs.RowTallies as told;

use crate::merging::merged_table_of;
use crate::row::Row;
use crate::rows::table_of;
use std::alloc::{AllocError, Global};
use tlsf_crew::Entry;
use tlsf_heap::Name;

// Adds the pair of a row. An option takes no 0 bytes.
fn write_pair(text: &mut String, row: Row) -> Result<(), AllocError>
    ensures { OnOk result (string_bytes text.new ≡ string_bytes text.old ++ pair_text row) }
{
    let most = row.most;
    let bytes = row.longest.max(1);
    write!(text, " --blocks {most} --bytes {bytes}")
}

// Adds the pairs of rows.
fn write_pairs(text: &mut String, rows: &[Row]) -> Result<(), AllocError>
    ensures { OnOk result (string_bytes text.new ≡ string_bytes text.old ++ pairs_text rows.now) }
{
    for row in rows {
        write_pair(text, *row)?;
    }
    Ok(())
}

// The pair of a worker that asks for no block: that of the least heap, since `tlsf size` takes one pair at least.
const LEAST: Row = Row {
    most: 1,
    longest: 1,
};

// Adds the pairs of a table.
fn write_table(text: &mut String, rows: &[Row]) -> Result<(), AllocError>
    ensures { OnOk result (string_bytes text.new ≡ string_bytes text.old ++ pairs_text (rows_written rows.now)) }
{
    if rows.is_empty() {
        return write_pair(text, LEAST);
    }
    write_pairs(text, rows)
}

// Adds the line of a table, with its line feed.
fn write_kinds_line<const SLI: u32>(text: &mut String, rows: &[Row]) -> Result<(), AllocError>
    ensures { OnOk result (string_bytes text.new ≡ string_bytes text.old ++ kinds_line SLI rows.now) }
{
    write!(text, "--level {SLI}")?;
    write_table(text, rows)?;
    text.push_str("\n")
}

/// Adds the line of each of `workers` workers, by the names that the events of a run made, and its entries.
pub fn write_kinds_lines<const SLI: u32>(
    alloc: Global,
    text: &mut String,
    workers: u32,
    made: &[Option<Name>],
    entries: &[Entry],
) -> Result<(), AllocError>
    requires { IsLevel SLI }
    ensures { OnOk result (string_bytes text.new ≡ string_bytes text.old
        ++ kinds_text SLI (λ j. told.table_of SLI j made.now entries.now) workers) }
{
    for worker in 0..workers {
        let rows = table_of::<SLI>(alloc, worker, made, entries)?;
        write_kinds_line::<SLI>(text, &rows)?;
    }
    Ok(())
}

/// Adds those lines with each worker's table merged for `heaps` heaps.
pub fn write_merged_lines<const SLI: u32>(
    alloc: Global,
    text: &mut String,
    heaps: u32,
    workers: u32,
    made: &[Option<Name>],
    entries: &[Entry],
) -> Result<(), AllocError>
    requires { IsLevel SLI }
    ensures { OnOk result (AddsMerged SLI heaps workers made.now entries.now (string_bytes text.old) (string_bytes text.new)) }
{
    for worker in 0..workers {
        let rows = merged_table_of::<SLI>(alloc, heaps, worker, made, entries)?;
        write_kinds_line::<SLI>(text, &rows)?;
    }
    Ok(())
}
