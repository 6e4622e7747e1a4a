// The meaning of std's token: room for values, and the right of its block.
ghost use Rattle.std.specs.Prelude.{◌≡◌, ℕ, ◌*◌, List};
ghost use Rattle.std.specs.Allocator.{block_with_items};
ghost use Rattle.std.specs.Mem.{type_size};
ghost use Rattle.tlsf_arena.specs.Ownership.{Home, IsLoanAt, whole_token};

use crate::buffer::Buffer;
use crate::right::Right;
use std::marker::{Model, PhantomData};

// Room for `cap` values, and the first `len` are there, with the right of its block.
pub(crate) struct BufferGrant<T> {
    pub(crate) ptr: *mut T,
    pub(crate) marker: PhantomData<T>,
    ghost unit: { ℕ },
    ghost home: { Home },
    ghost len: { ℕ },
    ghost cap: { ℕ },
    ghost items: { List T },
}

impl<T> Model for BufferGrant<T> {
    ghost also_owns = { λ b. block_with_items (whole_token b.unit b.home) T.row b.ptr b.len b.cap b.items };
}

impl<T> BufferGrant<T> {
    // The room, and the right.
    pub(crate) fn into_parts(self) -> (Buffer<T>, Right)
        ensures buffer { (result.0.ptr ≡ self.ptr) × (result.0.unit ≡ self.unit) × (result.0.region ≡ self.home.0) × (result.0.len ≡ self.len) × (result.0.cap ≡ self.cap) × (result.0.items ≡ self.items) }
        ensures right { (result.1.book ≡ self.home.1) × IsLoanAt self.unit self.home.0 self.ptr (self.cap * type_size T.row) result.1.loan }
    {
        let BufferGrant { ptr, marker } = self;
        let of_right = PhantomData;
        (Buffer { ptr, marker }, Right { marker: of_right })
    }

    pub(crate) fn of_parts(buffer: Buffer<T>, right: Right) -> BufferGrant<T>
        requires right { IsLoanAt buffer.unit buffer.region buffer.ptr (buffer.cap * type_size T.row) right.loan }
        ensures { (result.ptr ≡ buffer.ptr) × (result.unit ≡ buffer.unit) × (result.home ≡ (buffer.region, right.book)) × (result.len ≡ buffer.len) × (result.cap ≡ buffer.cap) × (result.items ≡ buffer.items) }
    {
        let Buffer { ptr, marker } = buffer;
        let Right { marker: _ } = right;
        BufferGrant { ptr, marker }
    }
}
