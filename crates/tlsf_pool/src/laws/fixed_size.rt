ghost use Rattle.std.specs.Prelude.{ℕ};
ghost use Rattle.tlsf_class.specs.Classes.{IsLevel};
ghost use Rattle.tlsf_pool.specs.laws.FixedSize.{BlocksAreWhole, FewerThanATable, FewerThanMixedSizes, FixedSizeFindsRoom, FixedSizeIsExact, FixedSizeIsKept, FixedSizeIsTight, FixedSizeServes, FixedSizeSuffices, HundredOfFixedSize, NewHasFixedSize, OneLengthSuffices, SureIsSure};

/// How large a region must be for blocks of a fixed size: a block of s words for each request, whatever its length.
///
/// Let s be `sure(want(len))`, the least size of the search class of `len` bytes. A program gives each block s words, by
/// [`allocate_words`](tlsf_heap::Heap::allocate_words) and [`resize_words`](tlsf_heap::Heap::resize_words). It holds at most `most`
/// blocks at any moment, and asks for at most `len` bytes each time. In a region of most * s words, and in each larger one, it is
/// never answered `NoFit`, whatever the order of its calls. While the ticks last, each of its requests gets a block. In fewer words
/// it can't hold that many.
///
/// Each block begins at a multiple of s words. So each free block but the one at the end has s words or more, and serves. No free
/// word is lost between live blocks, as it may be in a region of [`mixed_sizes_suffice`](crate::mixed_sizes_suffice).
///
/// The same holds for [`allocate`](tlsf_heap::Heap::allocate) and [`resize`](tlsf_heap::Heap::resize) where all lengths want s
/// words by themselves: 225 to 232 bytes want 32, say. At level 4 each length of up to 232 bytes wants the least size of a class.
/// At level 5 each of up to 488 does.
///
/// ```text
/// 100 blocks of up to 512 bytes at level 4: 6,800 words in blocks of 68, in place of 13,631
/// ```
pub fn fixed_size_suffices()
    ensures room { (sli : ℕ) → IsLevel sli → FixedSizeSuffices sli }
    ensures served { (sli : ℕ) → IsLevel sli → FixedSizeServes sli }
    ensures exact { (sli : ℕ) → IsLevel sli → FixedSizeIsExact sli }
    ensures lengths { (sli : ℕ) → IsLevel sli → OneLengthSuffices sli }

    // A new heap has a fixed size, and each call keeps it. There a request finds room, and fewer words hold fewer blocks. Where the
    // region is a multiple of s, each live block has just s words.
    ensures begins { NewHasFixedSize }
    ensures kept { (sli : ℕ) → IsLevel sli → FixedSizeIsKept sli }
    ensures finds { (sli : ℕ) → IsLevel sli → FixedSizeFindsRoom sli }
    ensures tight { FixedSizeIsTight }
    ensures whole { BlocksAreWhole }
    ensures sure { (sli : ℕ) → IsLevel sli → SureIsSure sli }

    // These words are never more than those for mixed sizes, nor than those of a table whose blocks all have the longest kind's.
    ensures mixed { (sli : ℕ) → IsLevel sli → FewerThanMixedSizes sli }
    ensures table { (sli : ℕ) → IsLevel sli → FewerThanATable sli }
    ensures example { HundredOfFixedSize }
{}
