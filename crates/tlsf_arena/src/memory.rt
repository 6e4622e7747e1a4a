// The region as the parent allocator sees it.
ghost use Rattle.std.specs.Prelude.{◌≡◌, ℕ, IfSome};
ghost use types.Logic.{sem};
ghost use denote.RawPtr.{Ptr, count_of};
ghost use Rattle.linked_list_allocator.specs.Region.{IsRegionSize};
ghost use Rattle.linked_list_allocator.specs.Ownership.{bytes_at, units_of};

use std::alloc::{Allocator, Global};
use std::marker::{Model, PhantomData};

// The bytes to which `Global` aligns what it grants.
pub(crate) const GRAIN: usize = 16;

/// Bytes in which nothing lies: whoever has the memory owns them.
pub struct Memory {
    pub(crate) ptr: *mut u8,
    pub(crate) size: usize,
    ghost fits: { IsRegionSize size },
}

impl Model for Memory {
    ghost also_owns = { λ m. bytes_at m.ptr m.size };
}

// The right to give them back to the parent.
pub(crate) struct Lease<A: Allocator> {
    marker: PhantomData<A>,
    ghost alloc: { A },
    ghost ptr: { Ptr },
    ghost size: { ℕ },
}

// A proof that memory of this many bytes went back to its parent.
#[derive(Drop)]
pub(crate) struct Freed {
    size: usize,
}

impl<A: Allocator> Model for Lease<A> {
    ghost also_owns = { λ l. A.dealloc_token l.alloc (units_of l.size) l.ptr };
}

impl Memory {
    /// The memory of `size` bytes from an address on, which the caller owns and hands over. It may be that of a static, of a shared
    /// mapping or of a device. The address is a multiple of 16, and `size` one of 16 from 32 on. [`Memory::into_raw_parts`] is the
    /// way back.
    ///
    /// ```text
    /// let memory = unsafe { Memory::from_raw_parts(ptr, 1 << 20) };
    /// ```
    pub unsafe fn from_raw_parts(ptr: *mut u8, size: usize) -> Memory
        requires size { IsRegionSize size }
        requires* memory { sem 𝓛 (bytes_at ptr size) }
        ensures { (result.ptr ≡ ptr) × (result.size ≡ size) }
    {
        Memory { ptr, size }
    }

    /// The memory's address and size. The caller owns the bytes from here on.
    pub fn into_raw_parts(self) -> (*mut u8, usize)
        ensures parts { (result.0 ≡ self.ptr) × (result.1 ≡ self.size) }
        ensures* memory { sem 𝓛 (bytes_at result.0 result.1) }
    {
        let Memory { ptr, size } = self;
        (ptr, size)
    }

    pub(crate) fn new<A: Allocator>(alloc: &A, size: usize) -> Option<(Memory, Lease<A>)>
        requires { IsRegionSize size }
        ensures { IfSome result (λ m. (m.0.size ≡ size) × (m.1.alloc ≡ alloc.now) × (m.1.ptr ≡ m.0.ptr) × (m.1.size ≡ size)) }
    {
        match alloc.allocate(size, GRAIN) {
            Ok(ptr) => {
                let marker = PhantomData;
                Some((Memory { ptr, size }, Lease { marker }))
            }
            Err(_) => None,
        }
    }

    // Gives it back to the parent, all of its bytes. Nothing else makes a `Freed`.
    pub(crate) fn give_back<A: Allocator>(self, size: usize, lease: Lease<A>, alloc: &A) -> Freed
        requires size { size ≡ self.size }
        requires lease { (lease.alloc ≡ alloc.now) × (lease.ptr ≡ self.ptr) × (lease.size ≡ self.size) }
        ensures { result.size ≡ size }
    {
        self.free(lease, alloc);
        Freed { size }
    }

    fn free<A: Allocator>(self, lease: Lease<A>, alloc: &A)
        requires { (lease.alloc ≡ alloc.now) × (lease.ptr ≡ self.ptr) × (lease.size ≡ self.size) }
    {
        let Memory { ptr, size } = self;
        let Lease { marker: _ } = lease;
        unsafe { alloc.deallocate(ptr, size, GRAIN) }
    }
}

impl Lease<Global> {
    // A block of `Global` is a whole object, so pointers into it can be ordered.
    pub(crate) fn located(self) -> Lease<Global>
        ensures { (result ≡ self) × (count_of self.ptr ≡ 0) }
    {
        let Lease { marker } = self;
        Lease { marker }
    }
}
