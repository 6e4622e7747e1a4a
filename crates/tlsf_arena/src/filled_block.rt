ghost use Rattle.std.specs.Prelude.{◌≡◌, ◌+◌, ◌*◌, length};
ghost use Rattle.tlsf_arena.specs.FilledPieces.{piece_of};
ghost use Rattle.tlsf_arena.specs.Loans.{IsLoan};

use crate::block::Block;
use crate::filled_piece::FilledPiece;
use crate::right::Right;
use tlsf_heap::Name;

/// A [`Block`] whose bytes are all set: whoever has it reads and writes them as a slice, in any thread.
///
/// ```text
/// let mut block = arena.allocate(100)?.fill(0);
/// block.as_mut_slice()[99] = 7;
/// arena.release(block.into_block())
/// ```
pub struct FilledBlock<const UNIT: usize> {
    /// The name of the block in the arena's heap. Its place counts units.
    pub name: Name,
    /// The bytes, which the block owns.
    pub piece: FilledPiece,
    /// The right to give it back.
    pub right: Right,
    pub ghost matched: { (piece_of piece).at ≡ (piece_of piece).region.start + UNIT * name.at },
    pub ghost entered: { IsLoan UNIT right.loan name (piece_of piece).size },
}

impl<const UNIT: usize> FilledBlock<UNIT> {
    ghost use Rattle.std.specs.Borrow.{sem};
    ghost use Rattle.tlsf_arena.specs.FilledPieces.{bytes_of};
    ghost use Rattle.tlsf_arena.specs.FilledBlocks.{block_of, LendsBlockBytes};

    /// The bytes, as many as the block has: a multiple of 16, 64 or more.
    ///
    /// ```text
    /// arena.allocate(100)?.fill(7).as_slice().len() == 112         // in units of 16
    /// ```
    pub fn as_slice(&self) -> &[u8]
        ensures bytes { result.now ≡ bytes_of self.now.piece }
        ensures len { length result.now ≡ (block_of self.now).piece.size }
    {
        self.piece.as_slice()
    }

    /// The bytes, to be written. Later reads see the bytes that are written there (`writes_back`), and nothing else changes.
    ///
    /// ```text
    /// block.as_mut_slice()[0] = 9;
    /// block.as_slice()[0] == 9
    /// ```
    pub fn as_mut_slice(&mut self) -> &mut [u8]
        ensures* writes_back { sem 𝓛 (LendsBlockBytes UNIT.row self.entry result) }
        ensures bytes { result.now ≡ bytes_of self.old.piece }
        ensures len { length result.now ≡ (block_of self.old).piece.size }
    {
        self.piece.as_mut_slice()
    }

    /// The block again, to be given back. No clause speaks of the bytes from here on.
    ///
    /// ```text
    /// arena.release(block.into_block())
    /// ```
    pub fn into_block(self) -> Block<UNIT>
        ensures block { result ≡ block_of self.entry }
    {
        let FilledBlock { name, piece, right } = self;
        let piece = piece.into_piece();
        Block { name, piece, right }
    }
}
