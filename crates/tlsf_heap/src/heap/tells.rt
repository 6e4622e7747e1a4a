ghost use Rattle.std.specs.Prelude.{◌≡◌, ◌≤◌};
ghost use Rattle.tlsf_heap.specs.Kept.{Keeps};
ghost use Rattle.tlsf_heap.specs.WordsInUse.{words_in_use};

use super::Heap;

// Answers at once, with no look at the words.
impl<const SLI: u32> Heap<SLI> {
    /// The number of the heap, which the names of its blocks have.
    ///
    /// ```text
    /// Heap::<4>::open(alloc, 7, 64, 0)?.id()           // 7
    /// ```
    pub fn id(&self) -> u32
        ensures { result ≡ self.now.heap.id }
    {
        self.id
    }

    /// The tick of the heap: that which the next accepted allocate, release or resize stamps, 1 to 2^64 - 1. A block that is free since tick
    /// s has been free for `tick - s` ticks.
    ///
    /// ```text
    /// let mut heap = Heap::<4>::open(alloc, 0, 64, 0)?;
    /// heap.tick()                                      // 1, and 2 after an accepted allocate
    /// ```
    pub fn tick(&self) -> u64
        ensures { result ≡ self.now.heap.tick }
    {
        self.tick
    }

    /// The words in use: those of the live blocks, their headers with them. It is as fast for many blocks as for few. Takes no memory.
    ///
    /// ```text
    /// let name = heap.allocate(100)?;                  // of a new heap
    /// heap.words_in_use()                              // 16
    /// ```
    pub fn words_in_use(&self) -> u32
        ensures words { result ≡ words_in_use self.now.heap }
        ensures within { result ≤ self.now.heap.words }
    {
        self.usage.words
    }

    /// The most words that were ever in use since the heap was opened. A resize that moves a block has its old words and the new ones in use
    /// for a while.
    ///
    /// ```text
    /// heap.release(name)?;                             // of the 16 words above
    /// (heap.words_in_use(), heap.most_in_use())        // (0, 16)
    /// ```
    pub fn most_in_use(&self) -> u32
        ensures most { result ≡ self.now.most_in_use }
        ensures reached { words_in_use self.now.heap ≤ result }
    {
        self.usage.most
    }

    /// The address of the region's first word, until the heap ends: the payload of the block at a place begins at byte `8 * (at + 3)` from there.
    /// Takes no memory.
    ///
    /// ```text
    /// let base = heap.base();                         // that which `heap.payload(name)` answers with a length
    /// ```
    pub fn base(&mut self) -> *mut u64
        ensures address { result ≡ self.old.extents.words.address }
        ensures heap { self.new ≡ self.old }
        ensures keeps { Keeps SLI self.old self.new }
    {
        self.region.base()
    }
}
