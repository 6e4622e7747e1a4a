use tlsf_heap::{PlacedBlock, Report};

/// A block, and the label by which its user knows it.
#[derive(Clone, Copy, Debug, PartialEq, Eq)]
pub struct LabelledBlock {
    pub block: PlacedBlock,
    /// None for a free block, and where the user gave no label.
    pub label: Option<u32>,
}

/// The parts of a picture of a heap.
#[derive(Drop)]
pub struct MappedHeap {
    /// The number of the heap.
    pub id: u32,
    /// The tick, from which the ages of free blocks are counted.
    pub tick: u64,
    pub report: Report,
    /// The blocks, in the order of their places.
    pub blocks: Vec<LabelledBlock>,
}
