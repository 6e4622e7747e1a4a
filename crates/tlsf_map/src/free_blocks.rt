use crate::mapped_heap::MappedHeap;
use tlsf_heap::Content;

/// The numbers by which the free blocks of a heap are told apart.
#[derive(Clone, Copy)]
pub struct FreeBlocks {
    /// The words of the largest.
    pub largest: u32,
    /// The tick since which the oldest is free.
    pub oldest: u64,
    /// The tick since which the newest is free.
    pub newest: u64,
}

impl FreeBlocks {
    /// Those of a heap.
    pub fn of(heap: &MappedHeap) -> FreeBlocks {
        let mut oldest = u64::MAX;
        let mut newest = 0;
        for drawn in &heap.blocks {
            if let Content::Free { stamp } = drawn.block.content {
                oldest = stamp.min(oldest);
                newest = stamp.max(newest);
            }
        }
        FreeBlocks {
            largest: heap.report.largest,
            oldest,
            newest,
        }
    }

    /// How dark a block is drawn that is free since this tick, in hundredths: the oldest 85, the newest 15 where another is older.
    pub fn shade(self, stamp: u64) -> u64 {
        if self.newest <= self.oldest {
            return 85;
        }
        // In 128 bits: 70 times a tick may be more than 2^64.
        let younger = 70 * u128::from(self.newest.saturating_sub(stamp));
        let between = u128::from(self.newest - self.oldest);
        15 + (younger / between).min(70) as u64
    }
}
