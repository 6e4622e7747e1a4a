ghost use Rattle.std.specs.Prelude.{ℕ};
ghost use Rattle.tlsf_class.specs.Classes.{IsLevel};
ghost use Rattle.tlsf_pool.specs.laws.OneLarge.{OneLargeSuffices, ThousandsAndOne};

/// How large a region must be for many small blocks and one large one, in a program that resizes none.
///
/// The small blocks are those of a table of kinds, and the large one is longer than each of these. By
/// [`kinds_suffice`](crate::kinds_suffice) each small block may keep a hole that is just too small for the large one. But good fit
/// puts a small block into a great hole only where no lesser one has room for it. So in a region of `one_large_words` a hole stays
/// that is longer than all others together. The large block comes and goes at its front. A program whose requests fit is never
/// answered `NoFit`.
///
/// ```text
/// 2,000 blocks of up to 64 bytes and one of up to 65,536: 121,740 words, where kinds_words has more than any region
/// ```
pub fn one_large_suffices()
    ensures room { (sli : ℕ) → IsLevel sli → OneLargeSuffices sli }
    ensures example { ThousandsAndOne }
{}
