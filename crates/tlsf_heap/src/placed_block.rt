/// A block of a heap where it stands.
#[derive(Clone, Copy, Debug, PartialEq, Eq)]
pub struct PlacedBlock {
    /// The place of its first word.
    pub at: u32,
    /// Its words, header and all: 4 to 2^20, or to 2^24 at level 5. The next block begins at `at + size`.
    pub size: u32,
    /// Its content.
    pub content: Content,
}

/// The content of a block.
#[derive(Clone, Copy, Debug, PartialEq, Eq)]
pub enum Content {
    /// Nothing, since the tick that stamps it.
    Free { stamp: u64 },
    /// This many bytes of payload, under the serial that its name has.
    Live { serial: u64, length: u32 },
}
