// The two ways between a piece and a vector over its bytes.
ghost use Rattle.std.specs.Prelude.{◌≡◌, ℕ, ◌/◌, [], replicate};
ghost use mir.Syntax.{w8};
ghost use Rattle.linked_list_allocator.specs.Region.{Region};
ghost use Rattle.tlsf_arena.specs.Ownership.{ways};
ghost use Rattle.tlsf_arena.specs.Units.{IsPiece};

use crate::piece::Piece;
use std::marker::Model;
use std_alloc::vec::{Lodged, lodge};

// The rest of a piece while a vector has its bytes.
pub(crate) struct Husk {
    pub(crate) ptr: *mut u8,
    pub(crate) size: usize,
    pub ghost region: { Region },
    pub ghost at: { ℕ },
    pub ghost placed: { IsPiece region ptr at size },
}

impl Model for Husk {
    ghost also_owns = { λ h. ways w8 h.region.block h.at (h.size / 16) };
}

impl Husk {
    ghost use Rattle.tlsf_arena.specs.FilledPieces.{piece_within};

    // The piece's bytes, none of which is set, as an empty vector with room for all of them.
    pub(crate) fn open(piece: Piece) -> (Vec<u8, Lodged>, Husk)
        ensures vec { (result.0.items ≡ []) × (result.0.len ≡ 0) × (result.0.cap ≡ piece.size) × (result.0.ptr ≡ piece.ptr) }
        ensures husk { piece_within result.1 ≡ piece }
    {
        let Piece { ptr, size } = piece;
        let vec = unsafe { lodge(ptr, 0, size) };
        (vec, Husk { ptr, size })
    }

    // The piece again. The content of the bytes is forgotten.
    pub(crate) fn close(self, vec: Vec<u8, Lodged>) -> Piece
        requires { (vec.ptr ≡ self.ptr) × (vec.cap ≡ self.size) }
        ensures { result ≡ piece_within self }
    {
        let Husk { ptr, size } = self;
        let _len = vec.dislodge();
        Piece { ptr, size }
    }
}

// It owns room alone, which is the same to every thread.
unsafe impl Send for Husk {}

// A `&` to it shows nothing.
unsafe impl Sync for Husk {}

// Sets all bytes of a vector that has room for them. None moves, as no memory is asked for.
pub(crate) fn set_all(vec: Vec<u8, Lodged>, size: usize, value: u8) -> Vec<u8, Lodged>
    requires { (vec.items ≡ []) × (vec.len ≡ 0) × (vec.cap ≡ size) }
    ensures { (result.items ≡ replicate size value) × (result.len ≡ size) × (result.cap ≡ size) × (result.ptr ≡ vec.ptr) }
{
    let mut vec = vec;
    for at in 0..size {
        vec.insert_reserved(at, value);
    }
    vec
}
