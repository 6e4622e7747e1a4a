/// The name of a block. It is live where the heap of that number has a live block that begins at that place and has that serial.
#[derive(Clone, Copy, Debug, PartialEq, Eq, Hash)]
pub struct Name {
    /// The number of the heap.
    pub heap: u32,
    /// The place at which the block begins, in words from the region's start.
    pub at: u32,
    /// The tick at which the block became live.
    pub serial: u64,
}
