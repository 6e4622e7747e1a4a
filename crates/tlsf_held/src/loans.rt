ghost use Rattle.std.specs.Prelude.{◌≡◌, ◌+◌, ◌<◌, ◌≤◌, ◌*◌, ◌^◌, length, map, vec_len};
ghost use Rattle.tlsf_crew.specs.model.World as crew;
ghost use Rattle.tlsf_held.specs.Loans as told;
ghost use Rattle.tlsf_held.specs.Rows as rows;
ghost use Rattle.tlsf_pool.specs.laws.Contents as laws;
ghost use Rattle.tlsf_pool.specs.laws.Kinds.{lengths};

use crate::row::Row;
use crate::rows::row_of;
use std::alloc::{AllocError, Global};
use std::marker::Model;
use tlsf_crew::{Call, Entry, Reply, Target};
use tlsf_heap::{Name, want};

/// A block that is held, and the bytes that it was asked for with last.
#[derive(Clone, Copy, Debug, PartialEq, Eq)]
pub struct Loan {
    pub name: Name,
    pub len: u32,
}

/// The blocks that a worker holds of its heap, told by the entries so far, and the most words that it wanted at once.
///
/// Contracts see the loans as an inventory, the newest first.
#[derive(Drop)]
pub struct Loans {
    items: Vec<Loan>,
    words: u128,
    most: u128,
}

impl Model for Loans {
    ghost use Rattle.std.specs.Prelude.{◌≡◌, ◌≤◌, ◌*◌, ◌^◌, vec_len};
    ghost use Rattle.tlsf_held.specs.Loans.{Account, inventory_of, wanted_in};

    ghost Value = { Account };

    ghost view = { λ p. record { inventory = inventory_of p.items.items; most = p.most } };

    ghost invariant = { λ p. (p.words ≡ wanted_in (inventory_of p.items.items)) × (p.words ≤ 2 ^ 32 * vec_len p.items) };
}

/// Whether two names are the same.
pub fn is_same(a: Name, b: Name) -> bool
    ensures { result ≡ laws.is_same a b }
{
    a.heap == b.heap && a.serial == b.serial && a.at == b.at
}

// The words that blocks want.
fn words_of(loans: &[Loan]) -> u128
    ensures words { result ≡ told.wanted_in (told.inventory_of loans.now) }
    ensures few { result ≤ 2 ^ 32 * length loans.now }
{
    let mut words = 0;
    for loan in loans {
        words += u128::from(want(loan.len));
    }
    words
}

// The loans that are held, summed up by rows, where 2^grain classes make one.
fn row_in<const SLI: u32>(loans: &[Loan], grain: u32, at: usize) -> Row
    requires { rows.IsGrain SLI grain }
    ensures row { result ≡ rows.row_in (rows.row_of SLI grain) at (lengths (told.inventory_of loans.now)) }
    ensures few { result.most + 1 < 2 ^ 64 }
{
    let mut row = Row::new();
    for loan in loans {
        if row_of::<SLI>(grain, loan.len) == at {
            row = row.with_one(loan.len);
        }
    }
    row
}

// Takes the loans of a name out.
fn take_out(loans: &mut Vec<Loan>, name: Name)
    ensures items { loans.new.items ≡ told.others name loans.old.items }
    ensures few { vec_len loans.new ≤ vec_len loans.old }
{
    loans.retain(|loan| !is_same(name, loan.name));
}

// A loan with another length, where it is of the name.
fn with_len(loan: Loan, name: Name, len: u32) -> Loan
    ensures { result ≡ told.with_len name len loan }
{
    if is_same(name, loan.name) {
        Loan {
            name: loan.name,
            len,
        }
    } else {
        loan
    }
}

// Gives the loans of a name another length.
fn change_len(loans: &mut [Loan], name: Name, len: u32)
    ensures { loans.new ≡ map (told.with_len name len) loans.old }
{
    for loan in loans.iter_mut() {
        *loan = with_len(*loan, name, len);
    }
}

// Gives the loans of a name another length, where they are kept.
fn change_kept(loans: &mut Vec<Loan>, name: Name, len: u32)
    ensures items { loans.new.items ≡ map (told.with_len name len) loans.old.items }
    ensures few { vec_len loans.new ≤ vec_len loans.old }
{
    change_len(loans, name, len);
}

// The name that a target means, by what the events made.
fn name_of(made: &[Option<Name>], target: Target) -> Option<Name>
    ensures { result ≡ crew.name_of made.now target }
{
    match target {
        Target::Named(name) => Some(name),
        Target::Made(number) => made.get(number as usize).copied().flatten(),
        Target::Absent => None,
    }
}

/// The name of the block that the heap took back.
pub fn freed_by(made: &[Option<Name>], call: Call, reply: Reply) -> Option<Name>
    ensures { result ≡ told.freed_by made.now call reply }
{
    match (call, reply) {
        (Call::Release { target }, Reply::Freed) => name_of(made, target),
        (Call::Take { .. }, Reply::Took(took)) if took.answer.is_ok() => Some(took.name),
        _ => None,
    }
}

/// The name of the block that it resized.
pub fn resized_by(made: &[Option<Name>], target: Target, reply: Reply) -> Option<Name>
    ensures { result ≡ told.resized_by made.now target reply }
{
    match reply {
        Reply::Resized => name_of(made, target),
        _ => None,
    }
}

impl Loans {
    ghost use Rattle.std.specs.Prelude.{◌≡◌, OnOk, IfOk};
    ghost use Rattle.tlsf_held.specs.Loans.{account_of, accounted, inventory_of, no_loans, with_asked, with_given, with_resized, with_taken};

    /// Of no call.
    pub fn new(alloc: Global) -> Loans
        ensures { result ≡ no_loans }
    {
        Loans {
            items: Vec::new(alloc),
            words: 0,
            most: 0,
        }
    }

    /// The tally of a worker's calls that the entries of a run tell, where the events of the run made these names.
    pub fn of(
        alloc: Global,
        worker: u32,
        made: &[Option<Name>],
        entries: &[Entry],
    ) -> Result<Loans, AllocError>
        ensures { IfOk result (λ loans. loans ≡ account_of worker made.now entries.now) }
    {
        let mut loans = Loans::new(alloc);
        for entry in entries {
            if entry.worker == worker {
                loans.note(made, entry)?;
            }
        }
        Ok(loans)
    }

    /// The blocks that are held, the oldest first.
    pub fn held(&self) -> &[Loan]
        ensures { inventory_of result.now ≡ self.now.inventory }
    {
        &self.items
    }

    /// The most words that were wanted at once.
    pub fn most(&self) -> u128
        ensures { result ≡ self.now.most }
    {
        self.most
    }

    // Notes a request for a block.
    fn ask(&mut self, len: u32)
        ensures { self.new ≡ with_asked self.old len }
    {
        self.most = self.most.max(self.words + u128::from(want(len)));
    }

    // Notes what a request for a block was answered.
    fn give(&mut self, len: u32, reply: Reply) -> Result<(), AllocError>
        ensures { OnOk result (self.new ≡ with_given self.old len reply) }
    {
        if let Reply::Made(name) = reply {
            self.items.push(Loan { name, len })?;
            self.words += u128::from(want(len));
        }
        Ok(())
    }

    // Notes that the block of a name was taken back.
    #[tactic(auto, using(crate::proofs::Lent::inventory_filtered))]
    fn take_back(&mut self, freed: Option<Name>)
        ensures { self.new ≡ with_taken self.old freed }
    {
        if let Some(name) = freed {
            take_out(&mut self.items, name);
            self.words = words_of(&self.items);
        }
    }

    // Notes that the block of a name was resized.
    #[tactic(auto, using(crate::proofs::Lent::inventory_mapped))]
    fn resize(&mut self, len: u32, resized: Option<Name>)
        ensures { self.new ≡ with_resized self.old len resized }
    {
        if let Some(name) = resized {
            change_kept(&mut self.items, name, len);
            self.words = words_of(&self.items);
            self.most = self.most.max(self.words);
        }
    }

    /// The blocks that are held, summed up by rows, where 2^grain classes make one.
    pub fn row_in<const SLI: u32>(&self, grain: u32, at: usize) -> Row
        requires { rows.IsGrain SLI grain }
        ensures row { result ≡ rows.row_in (rows.row_of SLI grain) at (lengths self.now.inventory) }
        ensures few { result.most + 1 < 2 ^ 64 }
    {
        row_in::<SLI>(&self.items, grain, at)
    }

    /// Notes an entry of the worker.
    pub fn note(&mut self, made: &[Option<Name>], entry: &Entry) -> Result<(), AllocError>
        ensures { OnOk result (self.new ≡ accounted made.now self.old entry.now.call entry.now.reply) }
    {
        match entry.call {
            Call::Allocate { len } => {
                self.ask(len);
                self.give(len, entry.reply)?;
            }
            Call::Release { .. } | Call::Take { .. } => {
                self.take_back(freed_by(made, entry.call, entry.reply));
            }
            Call::Resize { target, len } => {
                self.resize(len, resized_by(made, target, entry.reply));
            }
            Call::Write { .. } | Call::Read { .. } | Call::Drain { .. } => {}
        }
        Ok(())
    }
}
