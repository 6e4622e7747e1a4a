ghost use Rattle.std.specs.Prelude.{ℕ};
ghost use Rattle.tlsf_class.specs.Classes.{IsLevel};
ghost use Rattle.tlsf_pool.specs.laws.Places.{NothingLeaks, ShareNoWord, StayInside, WholeAgain};

/// No word lies in the blocks of two live names, and each block lies in the region.
///
/// ```text
/// names at places 0 and 4, of 4 and 16 words: the first ends before place 4, the second before place 20
/// ```
pub fn names_share_no_word()
    ensures apart { ShareNoWord }
    ensures inside { StayInside }
{}

/// Where every block was released, the region is one free block again, whatever was done before.
///
/// ```text
/// a heap of 64 words, after any allocates, writes and releases that leave nothing held: one free block of 64 words
/// ```
pub fn whole_again()
    ensures whole { WholeAgain }
    ensures history { (sli : ℕ) → IsLevel sli → NothingLeaks sli }
{}
