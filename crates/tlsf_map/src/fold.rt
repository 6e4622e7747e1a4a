//! Rows that show words of one block alone, all alike: of three or more of them one is drawn for all.
ghost use Rattle.std.specs.Prelude.{◌+◌, ◌<◌, ◌≤◌, ◌^◌};
ghost use Rattle.tlsf_map.specs.Layouts.{IsRow};

use tlsf_heap::{Content, PlacedBlock};

/// Whole rows of cells. A cell is a word, or a character.
#[derive(Clone, Copy)]
pub struct Fold {
    /// The first cell.
    pub at: u64,
    /// The cell behind the last one.
    pub end: u64,
    /// How many rows they are.
    pub rows: u64,
}

/// The words of a block that its header and its payload take.
pub fn used_words(length: u32) -> u64
    ensures { result ≤ 2 ^ 32 }
{
    3 + (u64::from(length) + 7) / 8
}

impl Fold {
    /// The rows of this many cells that lie wholly between two cells.
    #[tactic(auto, using(crate::proofs::Folding::div_mul_most))]
    pub fn between(row: u64, from: u64, end: u64) -> Fold
        requires row { IsRow row }
        requires from { from ≤ 2 ^ 36 }
        requires end { end ≤ 2 ^ 36 }
        ensures begins { result.at < from + row }
        ensures ends { result.end ≤ end }
        ensures rows { result.rows ≤ end }
    {
        let before = (from + row - 1) / row;
        let behind = end / row;
        Fold {
            at: before * row,
            end: behind * row,
            rows: behind.saturating_sub(before),
        }
    }

    /// The rows of a block, of this many words each, that show its payload alone, or free words after the first.
    pub fn of(row: u64, block: PlacedBlock) -> Fold
        requires { IsRow row }
        ensures begins { result.at ≤ 2 ^ 33 }
        ensures ends { result.end ≤ 2 ^ 33 }
        ensures rows { result.rows ≤ 2 ^ 33 }
    {
        let at = u64::from(block.at);
        let size = u64::from(block.size);
        match block.content {
            Content::Free { .. } => Fold::between(row, at + 1, at + size),
            Content::Live { length, .. } => {
                Fold::between(row, at + 3, at + used_words(length).min(size))
            }
        }
    }

    /// How many of the rows are not drawn: of three or more all but one.
    pub fn hidden(self) -> u64
        ensures { result ≤ self.rows }
    {
        if self.rows < 3 { 0 } else { self.rows - 1 }
    }
}
