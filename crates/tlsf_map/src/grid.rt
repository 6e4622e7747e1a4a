//! How words are laid out in rows.
ghost use Rattle.std.specs.Prelude.{◌≤◌, ◌^◌};

use crate::fold::Fold;
use crate::mapped_heap::LabelledBlock;

/// Rows of equally many words, up to 262,144. Lengths are in sixteenths of a pixel.
#[derive(Clone, Copy)]
pub struct Grid {
    /// The words of a row, which is 16,384 wide.
    pub row: u64,
    /// How many rows above are not drawn.
    pub hidden: u64,
    ghost some: { 1 ≤ row },
    ghost most: { row ≤ 2 ^ 18 },
    ghost few: { hidden ≤ 2 ^ 32 },
}

const MOST_WORDS_A_ROW: u64 = 262_144;

const MOST_DRAWN_ROWS: u64 = 64;

const MOST_HIDDEN_ROWS: u64 = 4_294_967_296;

impl Grid {
    /// The grid of a heap with `words` words and these blocks. Its rows are of as few words as may be, from 64 up to 262,144 by
    /// powers of two. At most 64 rows are drawn with them.
    pub fn of(words: u32, blocks: &[LabelledBlock]) -> Grid {
        let mut grid = Grid { row: 64, hidden: 0 };
        while grid.row < MOST_WORDS_A_ROW && grid.drawn_rows(words, blocks) > MOST_DRAWN_ROWS {
            grid.row = (2 * grid.row).min(MOST_WORDS_A_ROW);
        }
        grid
    }

    /// The rows that this many words fill.
    pub fn rows(self, words: u64) -> u64
        requires { words ≤ 2 ^ 34 }
        ensures { result ≤ 2 ^ 35 }
    {
        (words + self.row - 1) / self.row
    }

    // Those of the rows of this many words that are drawn where these blocks lie in them.
    fn drawn_rows(self, words: u32, blocks: &[LabelledBlock]) -> u64
        ensures { result ≤ 2 ^ 35 }
    {
        let mut rows = self.rows(u64::from(words));
        for drawn in blocks {
            rows = rows.saturating_sub(Fold::of(self.row, drawn.block).hidden());
        }
        rows
    }

    /// The height of a heap with `words` words and these blocks, its numbers above them.
    pub fn height(self, words: u32, blocks: &[LabelledBlock]) -> u64
        ensures { result ≤ 2 ^ 46 }
    {
        1280 + 640 * self.drawn_rows(words, blocks)
    }

    /// The grid below this many rows that are not drawn.
    pub fn below(self, rows: u64) -> Grid
        requires { rows ≤ 2 ^ 36 }
    {
        Grid {
            row: self.row,
            hidden: (self.hidden + rows).min(MOST_HIDDEN_ROWS),
        }
    }

    /// The grid below a block.
    pub fn below_block(self, drawn: LabelledBlock) -> Grid {
        self.below(Fold::of(self.row, drawn.block).hidden())
    }

    /// Where a place is drawn, from the left.
    pub fn left(self, at: u64) -> u64
        ensures { result ≤ 2 ^ 40 }
    {
        at % self.row * 16384 / self.row
    }

    /// Where the row of a place is drawn, from above.
    pub fn top(self, at: u64) -> u64
        requires { at ≤ 2 ^ 34 }
        ensures { result ≤ 2 ^ 46 }
    {
        800 + 640 * (at / self.row).saturating_sub(self.hidden)
    }

    /// How wide this many words of one row from a place on are.
    pub fn width(self, at: u64, words: u64) -> u64
        requires { words ≤ 2 ^ 34 }
    {
        let column = at % self.row;
        ((column + words) * 16384 / self.row).saturating_sub(column * 16384 / self.row)
    }
}
