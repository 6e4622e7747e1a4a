ghost use Rattle.std.specs.Prelude.{◌≡◌, ℕ};
ghost use types.Logic.{sem};
ghost use Rattle.linked_list_allocator.specs.Region.{Region};
ghost use Rattle.linked_list_allocator.specs.Ownership.{bytes_at};
ghost use Rattle.tlsf_arena.specs.Units.{IsPiece};

use crate::filled_piece::FilledPiece;
use crate::husk::{Husk, set_all};
use std::marker::Model;

/// Bytes of an arena's memory that it gave out: whoever has the piece owns them. No clause speaks of the bytes that they hold.
///
/// Contracts see the region of the arena's memory, and the place `at` at which the piece begins. It counts in bytes of the object
/// that the region lies in (`placed`).
pub struct Piece {
    pub(crate) ptr: *mut u8,
    pub(crate) size: usize,
    pub ghost region: { Region },
    pub ghost at: { ℕ },
    pub ghost placed: { IsPiece region ptr at size },
}

impl Model for Piece {
    ghost also_owns = { λ b. bytes_at b.ptr b.size };
}

impl Piece {
    ghost use Rattle.std.specs.Prelude.{replicate};
    ghost use Rattle.tlsf_arena.specs.FilledPieces.{bytes_of, piece_of};

    /// The piece with `value` in each of its bytes. From then on they are read and written as a slice.
    ///
    /// ```text
    /// let filled = block.piece.fill(0);
    /// ```
    pub fn fill(self, value: u8) -> FilledPiece
        ensures bytes { bytes_of result ≡ replicate self.size value }
        ensures piece { piece_of result ≡ self }
    {
        let (size, piece) = self.with_size();
        let (vec, husk) = Husk::open(piece);
        let vec = set_all(vec, size, value);
        FilledPiece { vec, husk }
    }

    /// The piece's size in bytes, a multiple of 16, of a whole block 64 or more, and the piece again.
    ///
    /// ```text
    /// let (size, piece) = block.piece.with_size();     // of 100 bytes in units of 16: 112
    /// ```
    pub fn with_size(self) -> (usize, Piece)
        ensures { (result.0 ≡ self.size) × (result.1 ≡ self) }
    {
        let ((_, size), piece) = self.with_parts();
        (size, piece)
    }

    /// The piece's address, a multiple of 16, and the piece again.
    ///
    /// ```text
    /// let (ptr, piece) = block.piece.with_ptr();
    /// ```
    pub fn with_ptr(self) -> (*mut u8, Piece)
        ensures { (result.0 ≡ self.ptr) × (result.1 ≡ self) }
    {
        let ((ptr, _), piece) = self.with_parts();
        (ptr, piece)
    }

    // Both, and the piece again.
    fn with_parts(self) -> ((*mut u8, usize), Piece)
        ensures { (result.0.0 ≡ self.ptr) × (result.0.1 ≡ self.size) × (result.1 ≡ self) }
    {
        let Piece { ptr, size } = self;
        ((ptr, size), Piece { ptr, size })
    }

    /// The piece's address and size. The caller owns the bytes from here on, and [`Piece::from_raw_parts`] makes the piece of them again.
    ///
    /// ```text
    /// let (ptr, size) = block.piece.into_raw_parts();
    /// ```
    pub fn into_raw_parts(self) -> (*mut u8, usize)
        ensures parts { IsPiece self.region result.0 self.at result.1 × (result.1 ≡ self.size) }
        ensures* memory { sem 𝓛 (bytes_at result.0 result.1) }
    {
        let Piece { ptr, size } = self;
        (ptr, size)
    }

    /// The piece of bytes that the caller owns, at an address and of a size that a piece had.
    pub unsafe fn from_raw_parts(ptr: *mut u8, size: usize) -> Piece
        ghost place: { Region × ℕ }
        requires placed { IsPiece place.0 ptr place.1 size }
        requires* memory { sem 𝓛 (bytes_at ptr size) }
        ensures { (result.region ≡ place.0) × (result.at ≡ place.1) × (result.size ≡ size) }
    {
        Piece { ptr, size }
    }
}

// It owns room, which is the same to every thread.
unsafe impl Send for Piece {}
