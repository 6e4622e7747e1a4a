ghost use Rattle.std.specs.Prelude.{◌≡◌, ◌^◌, ◌<◌, Some};
ghost use Rattle.tlsf_pool_arena.specs.returns.Ends.{id_of, slot_by, ticket_id, value_for};
ghost use Rattle.tlsf_pool_arena.specs.Given.{IsGivenBack};

use crate::filled_remote_block::FilledRemoteBlock;
use crate::parcel::Parcel;
use crate::returns::receipt::Receipt;
use crate::returns::slots::Slots;
use crate::returns::ticket::Ticket;
use tlsf_arena::Block;

/// A block that any thread may give back: whoever has it is the only one who can reach its bytes. Once it is dropped, or given
/// back, it is home: the arena's next `drain` releases it. Its return is never refused, takes no memory and doesn't wait.
///
/// ```text
/// let block = arena.lend(&slots, 512)?;
/// scope.spawn(move || drop(block))?;
/// ```
pub struct RemoteBlock<'a, const UNIT: usize> {
    pub(crate) parcel: Parcel<UNIT>,
    pub(crate) ticket: Ticket<Parcel<UNIT>>,
    pub(crate) slots: &'a Slots<Parcel<UNIT>>,
    ghost paired: { value_for ticket ≡ Some parcel },
    ghost own: { ticket_id ticket ≡ id_of slots.now },
    ghost small: { slot_by ticket < 2 ^ 32 },
}

impl<'a, const UNIT: usize> RemoteBlock<'a, UNIT> {
    ghost use Rattle.std.specs.Prelude.{replicate};
    ghost use Rattle.tlsf_arena.specs.FilledPieces.{bytes_of};
    ghost use Rattle.tlsf_pool_arena.specs.Filled.{parcel_of};

    /// The block with `value` in each of its bytes. From then on they are read and written as a slice, in any thread.
    ///
    /// ```text
    /// let mut message = arena.lend(&slots, 512)?.fill(0);
    /// message.block.as_mut_slice()[0] = 7;
    /// ```
    pub fn fill(self, value: u8) -> FilledRemoteBlock<'a, UNIT>
        ensures bytes { bytes_of result.block.piece ≡ replicate self.entry.parcel.block.piece.size value }
        ensures parcel { parcel_of result.block ≡ self.entry.parcel }
        ensures home { (result.ticket ≡ self.entry.ticket) × (result.slots ≡ self.entry.slots) }
    {
        let RemoteBlock {
            parcel,
            ticket,
            slots,
        } = self;
        let block = parcel.into_block().fill(value);
        FilledRemoteBlock {
            block,
            ticket,
            slots,
        }
    }

    /// The address of its bytes, a multiple of 16, their number, and the block again.
    ///
    /// ```text
    /// let (ptr, size, block) = block.with_parts();     // of 100 bytes in units of 16: 112
    /// ```
    pub fn with_parts(self) -> (*mut u8, usize, RemoteBlock<'a, UNIT>)
        ensures bytes { (result.0 ≡ self.entry.parcel.block.piece.ptr) × (result.1 ≡ self.entry.parcel.block.piece.size) }
        ensures same { (result.2.parcel.block.name ≡ self.entry.parcel.block.name) × (result.2.parcel.block.piece ≡ self.entry.parcel.block.piece) × (result.2.parcel.block.right ≡ self.entry.parcel.block.right) }
        ensures home { (result.2.ticket ≡ self.entry.ticket) × (result.2.slots ≡ self.entry.slots) }
    {
        let RemoteBlock {
            parcel,
            ticket,
            slots,
        } = self;
        let Block { name, piece, right } = parcel.into_block();
        let (ptr, piece) = piece.with_ptr();
        let (size, piece) = piece.with_size();
        let block = Block { name, piece, right };
        let parcel = Parcel { block };
        (
            ptr,
            size,
            RemoteBlock {
                parcel,
                ticket,
                slots,
            },
        )
    }

    /// The number of the slot by which it comes home, as [`RemoteArena::take_home`](crate::RemoteArena::take_home) wants it.
    ///
    /// ```text
    /// let at = block.slot();
    /// drop(block);
    /// arena.take_home(&slots, at) == true
    /// ```
    pub fn slot(&self) -> u32
        ensures slot { result ≡ slot_by self.now.ticket }
    {
        self.ticket.slot() as u32
    }

    /// Gives the block back, as its drop does. The receipt shows that it was put back by its slot.
    ///
    /// ```text
    /// let receipt = block.give_back();
    /// ```
    pub fn give_back(self) -> Receipt<Parcel<UNIT>>
        ensures put { IsGivenBack self.entry.slots.now self.entry.parcel result }
    {
        let RemoteBlock {
            parcel,
            ticket,
            slots,
        } = self;
        ticket.put(slots, parcel)
    }
}

impl<'a, const UNIT: usize> Drop for RemoteBlock<'a, UNIT> {
    fn drop(self) {
        drop(self.give_back());
    }
}
