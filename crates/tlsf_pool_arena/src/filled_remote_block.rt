ghost use Rattle.std.specs.Prelude.{◌≡◌, ◌^◌, ◌<◌, Some};
ghost use Rattle.tlsf_pool_arena.specs.Filled.{parcel_of};
ghost use Rattle.tlsf_pool_arena.specs.returns.Ends.{id_of, slot_by, ticket_id, value_for};

use crate::parcel::Parcel;
use crate::remote_block::RemoteBlock;
use crate::returns::slots::Slots;
use crate::returns::ticket::Ticket;
use tlsf_arena::FilledBlock;

/// A [`RemoteBlock`] whose bytes are all set: whoever has it reads and writes them as a slice of its `block`, in any thread. It comes home
/// when it is dropped.
///
/// ```text
/// let mut message = arena.lend(&slots, 512)?.fill(0);
/// message.block.as_mut_slice()[0] = 7;
/// queue.push(message)                                 // to another thread, with no byte copied
/// ```
pub struct FilledRemoteBlock<'a, const UNIT: usize> {
    /// The block that was lent, whose slices are its bytes.
    pub block: FilledBlock<UNIT>,
    pub(crate) ticket: Ticket<Parcel<UNIT>>,
    pub(crate) slots: &'a Slots<Parcel<UNIT>>,
    ghost paired: { value_for ticket ≡ Some (parcel_of block) },
    ghost own: { ticket_id ticket ≡ id_of slots.now },
    ghost small: { slot_by ticket < 2 ^ 32 },
}

impl<'a, const UNIT: usize> FilledRemoteBlock<'a, UNIT> {
    /// The block as it was lent. No clause speaks of the bytes from here on.
    ///
    /// ```text
    /// let receipt = message.into_remote().give_back();
    /// ```
    pub fn into_remote(self) -> RemoteBlock<'a, UNIT>
        ensures parcel { result.parcel ≡ parcel_of self.entry.block }
        ensures home { (result.ticket ≡ self.entry.ticket) × (result.slots ≡ self.entry.slots) }
    {
        let FilledRemoteBlock {
            block,
            ticket,
            slots,
        } = self;
        let block = block.into_block();
        let parcel = Parcel { block };
        RemoteBlock {
            parcel,
            ticket,
            slots,
        }
    }
}

impl<'a, const UNIT: usize> Drop for FilledRemoteBlock<'a, UNIT> {
    fn drop(self) {
        drop(self.into_remote());
    }
}
