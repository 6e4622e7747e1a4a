ghost use Rattle.std.specs.Prelude.{ℕ};
ghost use Rattle.tlsf_class.specs.Classes.{IsLevel};
ghost use Rattle.tlsf_pool.specs.laws.Kinds.{EmptyKindsAreNothing, KindsSuffice, InventoryIsLive, OneKindHasMixedWords, OrderIsNothing, ResizedSuffice};

/// How large a region must be for several kinds of request, by a table of sizes with how many blocks of each may be held.
///
/// A block counts for the first kind of the table that is long enough for it. A program keeps an inventory of the names that it was
/// given, with the bytes that it asked for last. It makes no request that would put more blocks on a kind than the table has. Then
/// it is never answered `NoFit` in a region of `kinds_words` of the table. These are 2^20 words at most at level 4 and 2^24 at
/// level 5.
///
/// Where each request is for at most 8 bytes, these are four words for each block. No free block is too small, so none is lost.
/// There no block may be resized to more; `resized_words` are enough for a table whatever is resized.
///
/// For a table of one kind these are the words of [`mixed_sizes_suffice`](crate::mixed_sizes_suffice).
///
/// ```text
/// 100 blocks of up to 64 bytes and 4 of up to 4096: 59,427 words, where 104 of up to 4096 would need 109,827
/// ```
pub fn kinds_suffice()
    ensures room { (sli : ℕ) → IsLevel sli → KindsSuffice sli }
    ensures resized { (sli : ℕ) → IsLevel sli → ResizedSuffice sli }

    // Kinds of which no block is held don't count.
    ensures empty { (sli : ℕ) → EmptyKindsAreNothing sli }

    // The order of the table doesn't matter.
    ensures order { (sli : ℕ) → OrderIsNothing sli }

    // A table of one kind has the words for mixed sizes.
    ensures one { (sli : ℕ) → OneKindHasMixedWords sli }

    // The inventory has as many entries as blocks are live.
    ensures held { (sli : ℕ) → IsLevel sli → InventoryIsLive sli }
{}
