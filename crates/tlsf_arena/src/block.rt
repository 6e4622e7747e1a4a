ghost use Rattle.std.specs.Prelude.{◌≡◌, ◌+◌, ◌*◌};
ghost use Rattle.tlsf_arena.specs.Loans.{IsLoan};

use crate::filled_block::FilledBlock;
use crate::piece::Piece;
use crate::right::Right;
use std::fmt;
use tlsf_heap::Name;

/// Memory that an [`Arena`](crate::Arena) gave out, under the name that its heap gave it. Whoever has the block is the only one who
/// can reach its bytes. It goes back by [`Arena::release`](crate::Arena::release).
///
/// Unit `name.at` of the arena is the first of it: its address is that of the arena's memory and `UNIT * name.at` bytes (`matched`).
pub struct Block<const UNIT: usize> {
    /// The name of the block in the arena's heap. Its place counts units.
    pub name: Name,
    /// The bytes, which the block owns.
    pub piece: Piece,
    /// The right to give it back.
    pub right: Right,
    pub ghost matched: { piece.at ≡ piece.region.start + UNIT * name.at },
    pub ghost entered: { IsLoan UNIT right.loan name piece.size },
}

impl<const UNIT: usize> Block<UNIT> {
    ghost use Rattle.std.specs.Prelude.{replicate};
    ghost use Rattle.tlsf_arena.specs.FilledPieces.{bytes_of};
    ghost use Rattle.tlsf_arena.specs.FilledBlocks.{block_of};

    /// The block with `value` in each of its bytes. From then on they are read and written as a slice, in any thread.
    ///
    /// ```text
    /// let mut block = arena.allocate(100)?.fill(0);
    /// block.as_mut_slice()[99] = 7;
    /// arena.release(block.into_block())
    /// ```
    pub fn fill(self, value: u8) -> FilledBlock<UNIT>
        ensures bytes { bytes_of result.piece ≡ replicate self.entry.piece.size value }
        ensures block { block_of result ≡ self.entry }
    {
        let Block { name, piece, right } = self;
        let piece = piece.fill(value);
        FilledBlock { name, piece, right }
    }
}

impl<const UNIT: usize> fmt::Debug for Block<UNIT> {
    fn fmt<W: fmt::Write>(&self, f: &mut fmt::Formatter<W>) -> fmt::Result {
        f.write_str("Block")
    }
}
