/// A report on a heap: its blocks, and how well it serves. Words are of 64 bits.
///
/// Where nothing is free, `largest`, `grant`, `fragmentation` and `age` are 0.
#[derive(Clone, Copy, Debug, PartialEq, Eq)]
pub struct Report {
    /// The number of live blocks.
    pub live_blocks: u32,
    /// The words of the live blocks, headers and all.
    pub live_words: u32,
    /// The bytes of payload that the live blocks hold: the sum of the lengths that were asked for.
    pub live_bytes: u32,
    /// The number of free blocks.
    pub free_blocks: u32,
    /// The words of the free blocks.
    pub free_words: u32,
    /// The words of the greatest free block.
    pub largest: u32,
    /// The greatest length in bytes that a request may have so as not to be refused as `NoFit`:
    /// `8 * (low(class_of(largest)) - 3)`. Where nothing is free, not even a request of 0 bytes is served.
    pub grant: u32,
    /// The share of the free words that lie outside the greatest free block, in thousandths:
    /// `1000 - 1000 * largest / free_words`, with the quotient rounded down.
    pub fragmentation: u32,
    /// The bytes of the live blocks that hold no payload: `8 * live_words - live_bytes`.
    pub waste: u32,
    /// The ticks since the free block that is free longest became free: the tick less the least stamp.
    pub age: u64,
}
