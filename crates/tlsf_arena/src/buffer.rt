// A block for values that is to grow or shrink.
ghost use Rattle.std.specs.Prelude.{◌≡◌, ℕ, ◌+◌, ◌*◌, ◌^◌, ◌<◌, ◌≤◌, List};
ghost use denote.RawPtr.{count_of};
ghost use Rattle.std.specs.Mem.{type_size};
ghost use Rattle.std.specs.Allocator.{block_with_items};
ghost use Rattle.linked_list_allocator.specs.Region.{Region};
ghost use Rattle.tlsf_arena.specs.Units.{IsPiece, IsUnit, piece_size};
ghost use Rattle.tlsf_arena.specs.Ownership.{block_token};

use crate::piece::Piece;
use std::marker::{Model, PhantomData};
use std::ptr::copy_nonoverlapping;

// Room for `cap` values, and the first `len` are there.
pub(crate) struct Buffer<T> {
    pub(crate) ptr: *mut T,
    pub(crate) marker: PhantomData<T>,
    ghost unit: { ℕ },
    ghost region: { Region },
    ghost len: { ℕ },
    ghost cap: { ℕ },
    ghost items: { List T },
}

impl<T> Model for Buffer<T> {
    ghost also_owns = { λ b. block_with_items (block_token b.unit b.region) T.row b.ptr b.len b.cap b.items };
}

impl<T> Buffer<T> {
    // The values stay, and the same piece is room for another number of them.
    pub(crate) fn refitted(self, _cap: usize) -> Buffer<T>
        requires unit { IsUnit self.unit }
        requires size { piece_size self.unit (_cap * type_size T.row) ≡ piece_size self.unit (self.cap * type_size T.row) }
        requires counts { (self.len ≤ _cap) × (self.len ≤ self.cap) }
        ensures { (result.ptr ≡ self.ptr) × (result.unit ≡ self.unit) × (result.region ≡ self.region) × (result.len ≡ self.len) × (result.cap ≡ _cap) × (result.items ≡ self.items) }
    {
        let Buffer { ptr, marker } = self;
        Buffer { ptr, marker }
    }

    // The address, and the buffer again.
    pub(crate) fn with_ptr(self) -> (*mut u8, Buffer<T>)
        ensures place { IsPiece self.region result.0 (count_of result.0) (piece_size self.unit (self.cap * type_size T.row)) }
        ensures same { (result.0 ≡ self.ptr) × (result.1 ≡ self) }
    {
        let Buffer { ptr, marker } = self;
        (ptr as *mut u8, Buffer { ptr, marker })
    }

    // The values stay, and the piece after their room is room for more of them.
    pub(crate) fn extended(self, rest: Piece, _cap: usize) -> Buffer<T>
        requires unit { IsUnit self.unit }
        requires region { rest.region ≡ self.region }
        requires place { rest.at ≡ count_of self.ptr + piece_size self.unit (self.cap * type_size T.row) }
        requires size { piece_size self.unit (_cap * type_size T.row) ≡ piece_size self.unit (self.cap * type_size T.row) + rest.size }
        requires counts { (self.len ≤ _cap) × (self.len ≤ self.cap) }
        ensures { (result.ptr ≡ self.ptr) × (result.unit ≡ self.unit) × (result.region ≡ self.region) × (result.len ≡ self.len) × (result.cap ≡ _cap) × (result.items ≡ self.items) }
    {
        let Buffer { ptr, marker } = self;
        let Piece { ptr: _, size: _ } = rest;
        Buffer { ptr, marker }
    }

    // The values stay, and the bytes behind the first `size` of their piece come back.
    pub(crate) fn trimmed(self, _cap: usize, size: usize, rest: usize) -> (Buffer<T>, Piece)
        requires unit { IsUnit self.unit }
        requires size { (size ≡ piece_size self.unit (_cap * type_size T.row)) × (piece_size self.unit (self.cap * type_size T.row) ≡ size + rest) × (size < piece_size self.unit (self.cap * type_size T.row)) }
        requires counts { (self.len ≤ _cap) × (self.len ≤ self.cap) }
        ensures stays { (result.0.ptr ≡ self.ptr) × (result.0.unit ≡ self.unit) × (result.0.region ≡ self.region) × (result.0.len ≡ self.len) × (result.0.cap ≡ _cap) × (result.0.items ≡ self.items) }
        ensures tail { (result.1.region ≡ self.region) × (result.1.at ≡ count_of self.ptr + size) × (result.1.size ≡ rest) }
    {
        let Buffer { ptr, marker } = self;
        let tail = unsafe { (ptr as *mut u8).add(size) };
        let tail = Piece {
            ptr: tail,
            size: rest,
        };
        (Buffer { ptr, marker }, tail)
    }

    // The values move to a new piece, and the old one comes back.
    pub(crate) fn move_to(
        self,
        piece: Piece,
        len: usize,
        cap: usize,
        old_size: usize,
    ) -> (Buffer<T>, Piece)
        requires unit { IsUnit self.unit }
        requires region { piece.region ≡ self.region }
        requires new { (piece.size ≡ piece_size self.unit (cap * type_size T.row)) × (cap * type_size T.row < 2 ^ 63) }
        requires old { old_size ≡ piece_size self.unit (self.cap * type_size T.row) }
        requires counts { (len ≡ self.len) × (len ≤ cap) × (len ≤ self.cap) }
        ensures moved { (result.0.ptr ≡ piece.ptr) × (result.0.unit ≡ self.unit) × (result.0.region ≡ self.region) × (result.0.len ≡ len) × (result.0.cap ≡ cap) × (result.0.items ≡ self.items) }
        ensures back { (result.1.region ≡ self.region) × (result.1.at ≡ count_of self.ptr) × (result.1.size ≡ old_size) }
    {
        let Buffer { ptr: old, marker } = self;
        let Piece { ptr, size: _ } = piece;
        let ptr = ptr as *mut T;
        unsafe { copy_nonoverlapping(old, ptr, len) };
        let back = Piece {
            ptr: old as *mut u8,
            size: old_size,
        };
        (Buffer { ptr, marker }, back)
    }
}
