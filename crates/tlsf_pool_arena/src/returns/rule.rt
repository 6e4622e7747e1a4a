//! The rule of the slots, and what each step on them tells.

use crate::returns::role::Role;
use atomic_table::{Play, Seat, Split, Table, TableRule};
use std::alloc::Global;

pub(super) type SlotTable<T> = Table<Option<T>, Role<T>, usize, AtHome, Global>;

/// The knowledge of one end of the slots. It has no bytes.
pub(super) type SlotSeat<T> = Seat<Option<T>, Role<T>>;

/// At each slot stands nothing, what is away, or what came home.
pub(super) struct AtHome;

impl<T> TableRule<Option<T>, Role<T>, usize> for AtHome {
    ghost use Rattle.tlsf_pool_arena.specs.returns.Slots.{Kept, first_role};

    ghost holds = { λ n. Kept };

    ghost first = { first_role };
}

/// The owner says which value is to go out.
pub(super) struct Announce;

impl<T> Play<Option<T>, Role<T>> for Announce {
    ghost use Rattle.tlsf_pool_arena.specs.returns.Steps.{announced};

    ghost then = { announced };
}

/// The value goes out with a seat of its own.
pub(super) struct SendOut;

impl<T> Split<Role<T>> for SendOut {
    ghost use Rattle.tlsf_pool_arena.specs.returns.Steps.{sent_out, ticket_of};

    ghost left = { sent_out };

    ghost right = { ticket_of };
}

/// A ticket takes its slot in hand.
pub(super) struct Reach;

impl<T> Play<Option<T>, Role<T>> for Reach {
    ghost use Rattle.tlsf_pool_arena.specs.returns.Steps.{reached};

    ghost then = { reached };
}

/// It gives the slot back, with the value in it.
pub(super) struct Put;

impl<T> Play<Option<T>, Role<T>> for Put {
    ghost use Rattle.tlsf_pool_arena.specs.returns.Steps.{put_back};

    ghost then = { put_back };
}

/// The owner looks whether a value came home, and takes the slot in hand where one did.
pub(super) struct Look;

impl<T> Play<Option<T>, Role<T>> for Look {
    ghost use Rattle.tlsf_pool_arena.specs.returns.Steps.{looked};

    ghost then = { looked };
}

/// It gives the slot back, with nothing in it.
pub(super) struct Clear;

impl<T> Play<Option<T>, Role<T>> for Clear {
    ghost use Rattle.tlsf_pool_arena.specs.returns.Steps.{cleared};

    ghost then = { cleared };
}
