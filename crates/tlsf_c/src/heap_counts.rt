//! The counts of a heap, so that a caller learns them at once: a report walks all blocks.

/// Counts of a heap's calls since it was opened.
#[repr(C)]
#[derive(Clone, Copy)]
pub struct HeapCounts {
    /// The words in use: those of the live blocks, their headers with them.
    pub words: u32,
    /// The most words ever in use.
    pub most_words: u32,
    /// How many requests were refused as NoFit: from 2^32 - 1 on, no more are counted.
    pub refused: u32,
    /// The length of the longest of these in bytes, or 0.
    pub longest_refused: u32,
}
