//! The table of kinds that the entries of a run tell.
ghost use Rattle.std.specs.Prelude.{◌≡◌, ◌+◌, ◌<◌, ◌≤◌, length, vec_len, IfOk, OnOk};
ghost use Rattle.tlsf_class.specs.Classes.{IsLevel};
ghost use Rattle.tlsf_class.specs.Classes as classes;
ghost use Rattle.tlsf_held.specs.RowTallies as told;
ghost use Rattle.tlsf_held.specs.Rows as spec;

use crate::loans::Loans;
use crate::row::Row;
use std::alloc::{AllocError, Global};
use tlsf_class::{class_of, most_words};
use tlsf_crew::{Call, Entry, Reply};
use tlsf_heap::{Name, want};

// The number of the greatest class.
fn last_class<const SLI: u32>() -> u32
    requires { IsLevel SLI }
    ensures { result ≡ classes.last_class SLI }
{
    if SLI == 4 { 272 } else { 640 }
}

// The class of the words that a length wants, or the number behind the last one.
#[tactic(auto, unfolding(crate::specs::Rows::class_number))]
fn class_number<const SLI: u32>(len: u32) -> u32
    requires { IsLevel SLI }
    ensures value { result ≡ spec.class_number SLI len }
    ensures most { result ≤ classes.last_class SLI + 1 }
{
    let words = want(len);
    if words > most_words::<SLI>() {
        return last_class::<SLI>() + 1;
    }
    class_of::<SLI>(words).number()
}

/// The row of a length, where 2^grain classes make one.
pub fn row_of<const SLI: u32>(grain: u32, len: u32) -> usize
    requires { spec.IsGrain SLI grain }
    ensures row { result ≡ spec.row_of SLI grain len }
    ensures inside { result < spec.row_count SLI grain }
{
    let class = class_number::<SLI>(len);
    (class >> grain) as usize
}

// How many rows there are.
fn row_count<const SLI: u32>(grain: u32) -> usize
    requires { spec.IsGrain SLI grain }
    ensures { result ≡ spec.row_count SLI grain }
{
    ((last_class::<SLI>() + 1) >> grain) as usize + 1
}

// Raises a row to what was found in it.
fn raise(rows: &mut [Row], at: usize, found: Row)
    requires { at < length rows.old }
    ensures { rows.new ≡ spec.raised rows.old at found }
{
    rows[at] = rows[at].joined(found);
}

// Notes the block that a call asks for, by what is held before.
fn note_asked<const SLI: u32>(rows: &mut [Row], grain: u32, call: Call, loans: &Loans)
    requires { spec.AreAllRows SLI grain rows.old }
    ensures { rows.new ≡ told.rows_asked (spec.row_of SLI grain) rows.old call loans.now.inventory }
{
    if let Call::Allocate { len } = call {
        let at = row_of::<SLI>(grain, len);
        let found = loans.row_in::<SLI>(grain, at).with_one(len);
        raise(rows, at, found);
    }
}

// Notes a block that was resized, by what is held afterwards.
fn note_left<const SLI: u32>(rows: &mut [Row], grain: u32, entry: &Entry, loans: &Loans)
    requires { spec.AreAllRows SLI grain rows.old }
    ensures { rows.new ≡ told.rows_left (spec.row_of SLI grain) rows.old entry.now.call entry.now.reply loans.now.inventory }
{
    if let (Call::Resize { len, .. }, Reply::Resized) = (entry.call, entry.reply) {
        let at = row_of::<SLI>(grain, len);
        let found = loans.row_in::<SLI>(grain, at);
        raise(rows, at, found);
    }
}

// Notes an entry of the worker.
fn note<const SLI: u32>(
    rows: &mut [Row],
    loans: &mut Loans,
    grain: u32,
    made: &[Option<Name>],
    entry: &Entry,
) -> Result<(), AllocError>
    requires { spec.AreAllRows SLI grain rows.old }
    ensures { OnOk result (record { account = loans.new; rows = rows.new }
        ≡ told.row_accounted (spec.row_of SLI grain) made.now (record { account = loans.old; rows = rows.old }) entry.now.call entry.now.reply) }
{
    note_asked::<SLI>(rows, grain, entry.call, loans);
    loans.note(made, entry)?;
    note_left::<SLI>(rows, grain, entry, loans);
    Ok(())
}

// The rows of a worker that the entries of a run tell, where the events of the run made these names.
fn rows_told<const SLI: u32>(
    alloc: Global,
    grain: u32,
    worker: u32,
    made: &[Option<Name>],
    entries: &[Entry],
) -> Result<Vec<Row>, AllocError>
    requires { spec.IsGrain SLI grain }
    ensures told { IfOk result (λ rows. rows.items ≡ (told.rows_told SLI grain worker made.now entries.now).rows) }
    ensures whole { IfOk result (λ rows. vec_len rows ≡ spec.row_count SLI grain) }
{
    let mut rows = vec![in alloc; Row::new(); row_count::<SLI>(grain)]?;
    let mut loans = Loans::new(alloc);
    for entry in entries {
        if entry.worker == worker {
            note::<SLI>(&mut rows, &mut loans, grain, made, entry)?;
        }
    }
    Ok(rows)
}

// Takes the rows of no block out.
fn keep_used(rows: &mut Vec<Row>)
    ensures used { rows.new.items ≡ spec.used rows.old.items }
    ensures few { vec_len rows.new ≤ vec_len rows.old }
{
    rows.retain(|row| row.most > 0);
}

// The rows of which a block was held.
fn used_rows<const SLI: u32>(
    alloc: Global,
    grain: u32,
    worker: u32,
    made: &[Option<Name>],
    entries: &[Entry],
) -> Result<Vec<Row>, AllocError>
    requires { spec.IsGrain SLI grain }
    ensures used { IfOk result (λ rows. rows.items ≡ told.used_rows SLI worker made.now entries.now grain) }
    ensures few { IfOk result (λ rows. vec_len rows ≤ spec.row_count SLI grain) }
{
    let mut rows = rows_told::<SLI>(alloc, grain, worker, made, entries)?;
    keep_used(&mut rows);
    Ok(rows)
}

/// The table that the entries of a run tell of a worker's calls, where the events of the run made these names. It has the finest
/// rows that are at most 64, in rising length. At most 16 classes make a row, so there are never more.
#[tactic(auto, using(crate::proofs::FirstFew::first_step, crate::proofs::FirstFew::first_here, crate::proofs::FirstFew::first_last))]
pub fn table_of<const SLI: u32>(
    alloc: Global,
    worker: u32,
    made: &[Option<Name>],
    entries: &[Entry],
) -> Result<Vec<Row>, AllocError>
    requires { IsLevel SLI }
    ensures table { IfOk result (λ rows. rows.items ≡ told.table_of SLI worker made.now entries.now) }
    ensures few { IfOk result (λ rows. vec_len rows ≤ 64) }
{
    for grain in 0..4 {
        let rows = used_rows::<SLI>(alloc, grain, worker, made, entries)?;
        if rows.len() <= 64 {
            return Ok(rows);
        }
    }
    used_rows::<SLI>(alloc, 4, worker, made, entries)
}
