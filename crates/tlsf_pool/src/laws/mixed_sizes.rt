ghost use Rattle.std.specs.Prelude.{ℕ};
ghost use Rattle.tlsf_class.specs.Classes.{IsLevel};
ghost use Rattle.tlsf_pool.specs.laws.Held.{HoldsWhatIsLive};
ghost use Rattle.tlsf_pool.specs.laws.MixedSizes.{HundredBlocks, MixedSizesServe, MixedSizesSuffice, OneBlockIsTight, RegionHasMixedWords};

/// How large a region must be, so that no request is ever refused for want of room.
///
/// A program holds at most `most` blocks at any moment, and asks for at most `len` bytes each time, also where it resizes. It is
/// never answered `NoFit` in a region of `mixed_words` of them, 2^20 words at most at level 4 and 2^24 at level 5. The order of its
/// calls doesn't matter. A resize moves no block, so it may still be answered `NoRoom`. The answers tell how many blocks the
/// program holds: the accepted allocates less the accepted releases. While the ticks last, each of its requests gets a block.
///
/// ```text
/// 100 blocks of up to 512 bytes at level 4: 13,631 words, 109,048 bytes for 51,200 bytes of payload
/// ```
pub fn mixed_sizes_suffice()
    ensures room { (sli : ℕ) → IsLevel sli → MixedSizesSuffice sli }
    ensures served { (sli : ℕ) → IsLevel sli → MixedSizesServe sli }

    // `mixed_region` has just these words, where any region may. One block needs them all. As many blocks are live as are held.
    ensures region { (sli : ℕ) → RegionHasMixedWords sli }
    ensures tight { (sli : ℕ) → IsLevel sli → OneBlockIsTight sli }
    ensures held { (sli : ℕ) → HoldsWhatIsLive sli }
    ensures example { HundredBlocks }
{}
