ghost use Rattle.std.specs.Prelude.{◌≡◌, length};

use crate::husk::Husk;
use crate::piece::Piece;
use std_alloc::vec::Lodged;

/// A [`Piece`] whose bytes are all set: whoever has it reads and writes them as a slice, in any thread.
///
/// ```text
/// let mut filled = piece.fill(0);
/// filled.as_mut_slice()[0] = 7;
/// let piece = filled.into_piece();
/// ```
pub struct FilledPiece {
    pub(crate) vec: Vec<u8, Lodged>,
    pub(crate) husk: Husk,
    pub ghost whole: { (vec.ptr ≡ husk.ptr) × (vec.len ≡ husk.size) × (vec.cap ≡ husk.size) },
}

impl FilledPiece {
    ghost use Rattle.std.specs.Borrow.{sem};
    ghost use Rattle.tlsf_arena.specs.FilledPieces.{bytes_of, piece_of, LendsBytes};

    /// The bytes, as many as the piece has.
    ///
    /// ```text
    /// piece.fill(7).as_slice()[0] == 7
    /// ```
    pub fn as_slice(&self) -> &[u8]
        ensures bytes { result.now ≡ bytes_of self.now }
        ensures len { length result.now ≡ (piece_of self.now).size }
    {
        self.vec.as_slice()
    }

    /// The bytes, to be written. Later reads see the bytes that are written there (`writes_back`), and nothing else changes.
    ///
    /// ```text
    /// filled.as_mut_slice()[0] = 9;
    /// filled.as_slice()[0] == 9
    /// ```
    pub fn as_mut_slice(&mut self) -> &mut [u8]
        ensures* writes_back { sem 𝓛 (LendsBytes self.entry result) }
        ensures bytes { result.now ≡ bytes_of self.old }
        ensures len { length result.now ≡ (piece_of self.old).size }
    {
        self.vec.as_mut_slice()
    }

    /// The piece again. No clause speaks of the bytes from here on.
    ///
    /// ```text
    /// let piece = filled.into_piece();
    /// ```
    pub fn into_piece(self) -> Piece
        ensures piece { result ≡ piece_of self }
    {
        let FilledPiece { vec, husk } = self;
        husk.close(vec)
    }
}
