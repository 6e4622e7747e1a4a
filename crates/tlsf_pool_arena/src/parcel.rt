ghost use Rattle.std.specs.Prelude.{◌≡◌};

use std::mem::ManuallyDrop;
use tlsf_arena::Block;

/// A block on its way. One that is dropped with the slots that hold it is lost to its arena.
pub struct Parcel<const UNIT: usize> {
    pub(crate) block: Block<UNIT>,
}

impl<const UNIT: usize> Parcel<UNIT> {
    pub(crate) fn into_block(self) -> Block<UNIT>
        ensures { result ≡ self.entry.block }
    {
        let Parcel { block } = self;
        block
    }
}

impl<const UNIT: usize> Drop for Parcel<UNIT> {
    fn drop(self) {
        let _lost = unsafe { ManuallyDrop::new_unchecked(self.into_block()) };
    }
}
