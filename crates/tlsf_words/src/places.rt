ghost use Rattle.std.specs.Prelude.{◌≡◌, ℕ, ◌+◌, ◌<◌, ◌≤◌, ◌^◌, List, [], ◌∷◌};
ghost use Rattle.std.specs.Borrow.{ftrue};
ghost use base.Stored.{coded_list, coded_ℕ};
ghost use Rattle.tlsf_words.specs.Touched.{times};

use std::marker::Model;

/// The places of the words that were read or written, the last one first. It has no bytes and does nothing: contracts alone
/// see the list.
#[derive(Drop)]
pub(crate) struct Places {
    pub(crate) ghost list: { List ℕ } by { coded_list coded_ℕ },
}

impl Model for Places {
    ghost also_owns = { λ _. ftrue };
}

impl Places {
    /// No word was touched yet.
    #[inline]
    pub(crate) fn new() -> Places
        ensures { result.list ≡ [] }
    {
        Places {}
    }

    /// Notes one place.
    #[inline]
    pub(crate) fn add(&mut self, at: usize)
        ensures { self.new.list ≡ at ∷ self.old.list }
    {}

    /// Notes `n` places, from one on.
    #[inline]
    #[tactic(auto, using(crate::proofs::Touching::times_other))]
    pub(crate) fn add_all(&mut self, from: usize, n: usize)
        requires { from + n < 2 ^ 64 }
        ensures before { (k : ℕ) → k < from → times self.new.list k ≡ times self.old.list k }
        ensures behind { (k : ℕ) → from + n ≤ k → times self.new.list k ≡ times self.old.list k }
    {
        // Nothing is done in the loop when it runs, so the compiler leaves it out.
        for i in 0..n {
            self.add(from + i);
        }
    }
}

unsafe impl Send for Places {}
