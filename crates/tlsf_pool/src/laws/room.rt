ghost use Rattle.std.specs.Prelude.{ℕ};
ghost use Rattle.tlsf_class.specs.Classes.{IsLevel};
ghost use Rattle.tlsf_pool.specs.laws.Room.{BlocksAreSnug, FindsRoom, RoomIsTight, SumSuffices};

/// Enough free words serve a request, however they are cut up.
///
/// A request that wants n words is served by each free block of at least `sure n` words, the least size of its search class. Free
/// blocks don't touch, so at most one more is free than live: more than (live + 1) * (sure n - 1) free words are enough. Take any
/// number of live blocks for which a region has the words. Some calls on it leave just (live + 1) * (sure n - 1) words free, and the
/// request is refused.
///
/// ```text
/// 512 bytes want 67 words, and blocks of 68 words or more serve them. With 2 live blocks and 202 free words
/// one of the at most three free blocks has 68: the request is served. Three free blocks of 67 words refuse it.
/// ```
pub fn enough_free_words_serve()
    ensures room { (sli : ℕ) → IsLevel sli → FindsRoom sli }
    ensures tight { (sli : ℕ) → IsLevel sli → RoomIsTight sli }
{}

/// A block has at most three words more than its request wants. So the requests of the live blocks tell how many words they take,
/// and whether there is room for one more.
///
/// ```text
/// 100 bytes want 16 words: their block has 16 to 19
/// ```
pub fn blocks_are_snug()
    ensures snug { (sli : ℕ) → BlocksAreSnug sli }

    // Blocks of mixed sizes by their sum: what was wanted, three words for each, and a hole before each and behind the last.
    ensures room { (sli : ℕ) → IsLevel sli → SumSuffices sli }
{}
