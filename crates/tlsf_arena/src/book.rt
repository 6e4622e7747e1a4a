// Which blocks an arena has lent: the rights to all others are the book's. Neither it nor a right has bytes.
ghost use Rattle.std.specs.Prelude.{◌≡◌, true, false, List, [], ◌∷◌};
ghost use base.Fml.{GName};
ghost use base.Stored.{coded_list};
ghost use Rattle.tlsf_arena.specs.Loans.{Loan, coded_loan, loan_of, is_out, without, rest_of};

use crate::right::Right;
use std::marker::{Model, PhantomData};
use tlsf_heap::Name;

#[derive(Drop)]
pub(crate) struct Book {
    marker: PhantomData<u8>,
    ghost name: { GName },
    ghost out: { List Loan } by { coded_list coded_loan },
}

impl Model for Book {
    ghost also_owns = { λ b. rest_of b.name b.out };
}

impl Book {
    pub(crate) fn new() -> Book
        ensures { result.out ≡ [] }
    {
        let marker = PhantomData;
        Book { marker }
    }

    // A block goes out.
    fn lend(self, heap: u32, at: u32, serial: u64, units: u32) -> (Book, Right)
        requires { is_out self.out (heap, (at, (serial, units))) ≡ false }
        ensures { (result.0.name ≡ self.name) × (result.0.out ≡ (heap, (at, (serial, units))) ∷ self.out) × (result.1.book ≡ self.name) × (result.1.loan ≡ (heap, (at, (serial, units)))) }
    {
        let Book { marker } = self;
        let marker_of_right = PhantomData;
        (
            Book { marker },
            Right {
                marker: marker_of_right,
            },
        )
    }

    // Nothing is done: whoever has a right knows that its block is out.
    pub(crate) fn beside(self, right: Right) -> (Book, Right)
        requires { right.book ≡ self.name }
        ensures { (result.0 ≡ self) × (result.1 ≡ right) × (is_out self.out right.loan ≡ true) }
    {
        let Book { marker } = self;
        let Right { marker: of_right } = right;
        (Book { marker }, Right { marker: of_right })
    }

    // The block comes back.
    pub(crate) fn take_back(self, right: Right) -> (Book, ())
        requires { right.book ≡ self.name }
        ensures { (result.0.name ≡ self.name) × (result.0.out ≡ without right.loan self.out) }
    {
        let Book { marker } = self;
        let Right { marker: _ } = right;
        (Book { marker }, ())
    }
}

// A block's name, and the units that it has.
#[derive(Clone, Copy)]
pub(crate) struct Entry {
    pub(crate) name: Name,
    pub(crate) units: u32,
}

pub(crate) fn lend_entry(book: Book, entry: Entry) -> (Book, Right)
    requires { is_out book.out (loan_of entry.name entry.units) ≡ false }
    ensures { (result.0.name ≡ book.name) × (result.0.out ≡ loan_of entry.name entry.units ∷ book.out) × (result.1.book ≡ book.name) × (result.1.loan ≡ loan_of entry.name entry.units) }
{
    let Name { heap, at, serial } = entry.name;
    book.lend(heap, at, serial, entry.units)
}

// A block that is out, and the units that it is to have.
pub(crate) struct Refit {
    pub(crate) right: Right,
    pub(crate) entry: Entry,
}

pub(crate) fn refit_entry(book: Book, refit: Refit) -> (Book, Right)
    requires book { refit.right.book ≡ book.name }
    requires new { is_out (without refit.right.loan book.out) (loan_of refit.entry.name refit.entry.units) ≡ false }
    ensures book { (result.0.name ≡ book.name) × (result.0.out ≡ loan_of refit.entry.name refit.entry.units ∷ without refit.right.loan book.out) }
    ensures right { (result.1.book ≡ book.name) × (result.1.loan ≡ loan_of refit.entry.name refit.entry.units) }
{
    let Refit { right, entry } = refit;
    let (book, ()) = book.take_back(right);
    lend_entry(book, entry)
}
