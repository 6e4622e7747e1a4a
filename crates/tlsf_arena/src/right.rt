ghost use base.Fml.{GName};
ghost use Rattle.tlsf_arena.specs.Loans.{Loan, coded_loan, right};

use std::marker::{Model, PhantomData};

/// The right to give a block back. Each block that is out has one, so whoever has it knows that the block is live. It has no bytes.
///
/// Contracts see the book of the arena that gave it, and the loan that stands there: the block's name and its units.
pub struct Right {
    pub(crate) marker: PhantomData<u8>,
    pub ghost book: { GName },
    pub ghost loan: { Loan } by { coded_loan },
}

impl Model for Right {
    ghost also_owns = { λ r. right r.book r.loan };
}

// It owns a right alone, which is the same to every thread.
unsafe impl Send for Right {}
