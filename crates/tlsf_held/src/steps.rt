//! The lengths that a worker holds, step by step, as the entries of a run tell them.
ghost use Rattle.std.specs.Prelude.{◌≡◌, ◌++◌, IfOk, OnOk};
ghost use Rattle.tlsf_held.specs.Loans.{inventory_of};
ghost use Rattle.tlsf_held.specs.Steps as told;

use crate::loans::{Loan, Loans, freed_by, is_same, resized_by};
use crate::tally::is_given;
use std::alloc::{AllocError, Global};
use tlsf_crew::{Call, Entry, Reply};
use tlsf_heap::Name;

/// A step of what a worker holds.
#[derive(Clone, Copy, Debug, PartialEq, Eq)]
pub enum Step {
    /// A block of this many bytes is held, or asked for.
    Held(u32),
    /// It is held no more, or wasn't given.
    Freed(u32),
    /// The blocks held now are held at once.
    Reached,
}

// Adds the steps of a request for a block, which was given or not.
fn push_asked(steps: &mut Vec<Step>, len: u32, reply: Reply) -> Result<(), AllocError>
    ensures { OnOk result (steps.new.items ≡ steps.old.items ++ told.asked_steps len reply) }
{
    steps.push(Step::Held(len))?;
    steps.push(Step::Reached)?;
    if !is_given(reply) {
        steps.push(Step::Freed(len))?;
    }
    Ok(())
}

// Adds those of the loans of a name, which are taken back.
fn push_freed(steps: &mut Vec<Step>, loans: &[Loan], name: Name) -> Result<(), AllocError>
    ensures { OnOk result (steps.new.items ≡ steps.old.items ++ told.freed_steps name (inventory_of loans.now)) }
{
    for loan in loans {
        if is_same(name, loan.name) {
            steps.push(Step::Freed(loan.len))?;
        }
    }
    Ok(())
}

// Adds those of the loans of a name, which get another length.
fn push_moved(steps: &mut Vec<Step>, loans: &[Loan], name: Name, len: u32) -> Result<(), AllocError>
    ensures { OnOk result (steps.new.items ≡ steps.old.items ++ told.moved_steps name len (inventory_of loans.now)) }
{
    for loan in loans {
        if is_same(name, loan.name) {
            steps.push(Step::Freed(loan.len))?;
            steps.push(Step::Held(len))?;
        }
    }
    Ok(())
}

// Adds those of a block that was taken back, where one was.
fn push_taken(steps: &mut Vec<Step>, loans: &[Loan], freed: Option<Name>) -> Result<(), AllocError>
    ensures { OnOk result (steps.new.items ≡ steps.old.items ++ told.taken_steps (inventory_of loans.now) freed) }
{
    match freed {
        Some(name) => push_freed(steps, loans, name),
        None => Ok(()),
    }
}

// Adds those of a block that was resized, where one was.
fn push_resized(
    steps: &mut Vec<Step>,
    loans: &[Loan],
    len: u32,
    resized: Option<Name>,
) -> Result<(), AllocError>
    ensures { OnOk result (steps.new.items ≡ steps.old.items ++ told.resized_steps (inventory_of loans.now) len resized) }
{
    if let Some(name) = resized {
        push_moved(steps, loans, name, len)?;
        steps.push(Step::Reached)?;
    }
    Ok(())
}

// Adds the steps of an entry of the worker, by what is held before it.
fn push_entry(
    steps: &mut Vec<Step>,
    loans: &Loans,
    made: &[Option<Name>],
    entry: &Entry,
) -> Result<(), AllocError>
    ensures { OnOk result (steps.new.items
        ≡ steps.old.items ++ told.entry_steps made.now loans.now.inventory entry.now.call entry.now.reply) }
{
    match entry.call {
        Call::Allocate { len } => push_asked(steps, len, entry.reply),
        Call::Release { .. } | Call::Take { .. } => {
            let freed = freed_by(made, entry.call, entry.reply);
            push_taken(steps, loans.held(), freed)
        }
        Call::Resize { target, len } => {
            let resized = resized_by(made, target, entry.reply);
            push_resized(steps, loans.held(), len, resized)
        }
        Call::Write { .. } | Call::Read { .. } | Call::Drain { .. } => Ok(()),
    }
}

/// The steps that the entries of a run tell of a worker's calls, where the events of the run made these names.
pub fn steps_of(
    alloc: Global,
    worker: u32,
    made: &[Option<Name>],
    entries: &[Entry],
) -> Result<Vec<Step>, AllocError>
    ensures { IfOk result (λ steps. steps.items ≡ told.steps_told worker made.now entries.now) }
{
    let mut steps = Vec::new(alloc);
    let mut loans = Loans::new(alloc);
    for entry in entries {
        if entry.worker == worker {
            push_entry(&mut steps, &loans, made, entry)?;
            loans.note(made, entry)?;
        }
    }
    Ok(steps)
}
