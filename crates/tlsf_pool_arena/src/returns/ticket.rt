ghost use Rattle.std.specs.Prelude.{◌≡◌, ◌<◌, [], true};
ghost use Rattle.tlsf_pool_arena.specs.returns.Steps.{is_away, slot_of};

use crate::returns::receipt::Receipt;
use crate::returns::rule::{Put, Reach, SlotSeat};
use crate::returns::slots::Slots;

/// The right to put one value back, by the slot that is its own until the owner takes it. It may go to any thread.
#[derive(Drop)]
pub struct Ticket<T> {
    // The value and the slot. It has no bytes.
    pub(super) seat: SlotSeat<T>,
    pub(super) at: usize,
    ghost away: { (is_away seat.me.0 ≡ true) × (seat.me.1 ≡ []) × (slot_of seat.me.0 ≡ at) },
    ghost inside: { (at < seat.table_id.words) × (at < seat.table_id.slots) },
}

impl<T> Ticket<T> {
    ghost use Rattle.tlsf_pool_arena.specs.returns.Ends.{IsTicketFor, IsReceiptFor, slot_by};

    /// The number of the slot by which the value comes home.
    ///
    /// ```text
    /// ticket.slot()                           // the slot that `OwnerEnd::send_out` got
    /// ```
    pub fn slot(&self) -> usize
        ensures slot { result ≡ slot_by self.now }
    {
        self.at
    }

    /// Puts the value back. It is never refused, takes no memory and doesn't wait: it changes the slot's word twice, and between them the
    /// value is written.
    ///
    /// - It requires the value that the ticket is for, and its slots (`ticket`).
    /// - `put`: the value was put back by its slot.
    ///
    /// ```text
    /// ticket.put(&slots, value);              // the owner's next `take` of the slot has it
    /// ```
    pub fn put(self, slots: &Slots<T>, value: T) -> Receipt<T>
        requires ticket { IsTicketFor slots.now value self }
        ensures put { IsReceiptFor slots.now (slot_by self) value result }
    {
        let Ticket { mut seat, at } = self;
        let shared = &slots.table.shared;
        shared.load::<Reach>(&mut seat, at);
        match shared.exchange(&mut seat, at, Some(value)) {
            None => {}
            Some(_) => unreachable!(),
        }
        shared.store::<Put>(&mut seat, at, 1);
        Receipt { seat }
    }
}
