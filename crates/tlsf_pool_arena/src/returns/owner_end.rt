ghost use Rattle.std.specs.Prelude.{◌≡◌, ◌<◌, [], ◌∷◌, ◌++◌, length, Option, Some, None, IfSome, IfNone, is_some, slice_get, slice_set};
ghost use Rattle.tlsf_pool_arena.specs.declared.returns.role.Role.TheVariants.{Owns};
ghost use Rattle.tlsf_pool_arena.specs.returns.Steps.{out_by, looks_by};

use crate::returns::rule::{Announce, Clear, Look, SendOut, SlotSeat};
use crate::returns::slots::Slots;
use crate::returns::ticket::Ticket;

/// The owner's end of the slots: it sends values out, and takes what came home. It may go into a thread of its own.
#[derive(Drop)]
pub struct OwnerEnd<T> {
    // The value that is away by each slot. It has no bytes.
    pub(super) seat: SlotSeat<T>,
    ghost rests: { seat.me ≡ (Owns (out_by seat.me.0) (looks_by seat.me.0), []) },
    ghost sized: { (length (out_by seat.me.0) ≡ seat.table_id.words) × (length (out_by seat.me.0) ≡ seat.table_id.slots) },
}

impl<T> OwnerEnd<T> {
    ghost use Rattle.tlsf_pool_arena.specs.returns.Ends.{IsOwnerOf, IsTicketFor, away_by, looks_of, slot_by};

    /// Sends a value out by a slot by which none is away. It comes back at once, with the ticket that is to go with it. It takes no memory
    /// and doesn't wait.
    ///
    /// - It requires that nothing is away by the slot, which is one of those that were opened (`idle`).
    /// - `own`: it stays the owner's end of its slots, and has looked at none of them.
    /// - `value`, `ticket`, `slot`: the very value, and a ticket for it, by this slot.
    /// - `away`: it is away by the slot, and by each other slot what was before.
    /// - `count`: there are as many slots as before.
    ///
    /// ```text
    /// let (value, ticket) = owner.send_out(&slots, 0, value);
    /// ```
    pub fn send_out(&mut self, slots: &Slots<T>, at: usize, value: T) -> (T, Ticket<T>)
        requires own { IsOwnerOf slots.now self.old }
        requires idle { slice_get (away_by self.old) at ≡ Some None }
        ensures own { IsOwnerOf slots.now self.new × (looks_of self.new ≡ looks_of self.old) }
        ensures value { result.0 ≡ value }
        ensures ticket { IsTicketFor slots.now value result.1 }
        ensures slot { slot_by result.1 ≡ at }
        ensures away { away_by self.new ≡ slice_set (away_by self.old) at (Some value) }
        ensures count { length (away_by self.new) ≡ length (away_by self.old) }
    {
        let shared = &slots.table.shared;
        let said = Some(value);
        shared.compare_exchange_with::<Announce>(&mut self.seat, at, 0, 0, &said);
        let seat = shared.split_seat::<SendOut>(&mut self.seat);
        (said.unwrap(), Ticket { seat, at })
    }

    /// Takes the value that is away by a slot, where it came home. It takes no memory and doesn't wait.
    ///
    /// - It requires a slot of those that were opened (`slot`).
    /// - `own`: it stays the owner's end of its slots.
    /// - `looks`: the slot was looked at, once, and the value is answered exactly where it was home at that look.
    /// - `some`: the value is the one that was away by the slot, and none is from now on.
    /// - `none`: nothing changes.
    /// - `count`: there are as many slots as before.
    ///
    /// ```text
    /// let value = owner.take(&slots, 0);      // None until the ticket's holder has put it
    /// ```
    pub fn take(&mut self, slots: &Slots<T>, at: usize) -> Option<T>
        requires own { IsOwnerOf slots.now self.old }
        requires slot { at < length (away_by self.old) }
        ensures own { IsOwnerOf slots.now self.new }
        ensures some { IfSome result (λ x. (slice_get (away_by self.old) at ≡ Some (Some x)) × (away_by self.new ≡ slice_set (away_by self.old) at None)) }
        ensures none { IfNone result (away_by self.new ≡ away_by self.old) }
        ensures looks { looks_of self.new ≡ looks_of self.old ++ (at, is_some result) ∷ [] }
        ensures count { length (away_by self.new) ≡ length (away_by self.old) }
    {
        let shared = &slots.table.shared;
        if shared.load::<Look>(&mut self.seat, at) != 1 {
            return None;
        }
        let value = shared.exchange(&mut self.seat, at, None);
        shared.store::<Clear>(&mut self.seat, at, 0);
        value
    }
}
