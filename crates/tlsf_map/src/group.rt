ghost use Rattle.std.specs.Prelude.{◌≡◌, ◌≤◌, ◌<◌, ◌^◌, true};

use crate::drawn_blocks::write_block;
use crate::free_blocks::FreeBlocks;
use crate::grid::Grid;
use crate::mapped_heap::LabelledBlock;
use crate::rectangles::write_spread;
use std::alloc::AllocError;
use tlsf_heap::Content;

/// Neighbours that are drawn as one: a block, or some that are too narrow to be seen.
#[derive(Clone, Copy)]
pub struct Group {
    /// The first of them.
    pub first: LabelledBlock,
    /// How many they are.
    pub count: u64,
    /// The words of all.
    pub words: u64,
    /// The words of those that are live.
    pub live: u64,
    /// Whether each is narrow.
    pub narrow: bool,
    ghost few: { words ≤ 2 ^ 33 },
    ghost within: { live ≤ words },
}

// Whether a block is less than 4 of the 1,024 pixels of a row wide.
fn is_narrow(grid: Grid, drawn: LabelledBlock) -> bool {
    u64::from(drawn.block.size) * 256 < grid.row
}

// The words of a block where it is live.
fn live_words(drawn: LabelledBlock) -> u64
    ensures { result ≤ drawn.block.size }
{
    match drawn.block.content {
        Content::Free { .. } => 0,
        Content::Live { .. } => u64::from(drawn.block.size),
    }
}

impl Group {
    /// A block that no other is drawn with.
    pub fn of(grid: Grid, drawn: LabelledBlock) -> Group {
        Group {
            first: drawn,
            count: 1,
            words: u64::from(drawn.block.size),
            live: live_words(drawn),
            narrow: is_narrow(grid, drawn),
        }
    }

    /// Whether the next block is drawn as one with this group.
    pub fn joins(self, grid: Grid, next: LabelledBlock) -> bool
        ensures { result ≡ true → self.words < 2 ^ 12 }
    {
        self.narrow && is_narrow(grid, next) && self.words * 64 < grid.row
    }

    /// The group with the next block.
    pub fn with(self, next: LabelledBlock) -> Group
        requires { self.words < 2 ^ 12 }
    {
        Group {
            first: self.first,
            count: self.count.saturating_add(1),
            words: self.words + u64::from(next.block.size),
            live: self.live + live_words(next),
            narrow: self.narrow,
        }
    }

    /// How many blocks are drawn as one with others.
    pub fn joined(self) -> u64 {
        if self.count == 1 { 0 } else { self.count }
    }

    /// The grid below the group in this one.
    pub fn below(self, grid: Grid) -> Grid {
        if self.count == 1 {
            grid.below_block(self.first)
        } else {
            grid
        }
    }

    /// Adds the group to a picture of a heap, whose free blocks these tell apart.
    pub fn write(self, text: &mut String, grid: Grid, free: FreeBlocks) -> Result<(), AllocError> {
        if self.count == 1 {
            return write_block(text, grid, free, self.first);
        }
        let at = self.first.block.at;
        let count = self.count;
        let words = self.words;
        let live = self.live;
        // How dark it is, in hundredths.
        let shade = 15 + 70 * live / words.max(1);
        write!(
            text,
            "<g class='joined' fill-opacity='.{shade}'><title>{count} blocks drawn as one, place {at}, {words} words, {live} of live blocks</title>"
        )?;
        write_spread(text, grid, true, u64::from(at), words)?;
        text.push_str("</g>\n")
    }
}
