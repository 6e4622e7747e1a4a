//! Memory in place that never runs out: an arena that is opened by the most blocks held at once and the longest request.
//!
//! A [`PoolArena`] has as many units as the law of `tlsf_pool` on blocks of a fixed size asks for ([`fixed_units`]). Each block has the units
//! of the longest request. An [`allocate`](PoolArena::allocate) then gives a block whenever fewer are held, the request is no longer, and the
//! tick isn't at its last value. `NoFit` is no answer that it has.
//!
//! ```text
//! let mut voices = PoolArena::<4, 16>::open(alloc, 0, 100, 512)?;      // 100 blocks of up to 512 bytes
//! let block = voices.allocate(512)?;
//! voices.release(block)
//! ```
//!
//! A [`RemoteArena`] is such an arena whose blocks any thread may give back. It lends each block by a slot that is free. A
//! [`RemoteBlock`] goes to any thread, which is then the only one that can reach its bytes. It comes home when it is dropped: never
//! refused, with no wait. The arena's own thread releases what came home, by [`RemoteArena::drain`].
//!
//! ```text
//! let (slots, owner) = open_slots(alloc, 100)?;
//! let mut arena = RemoteArena::<4, 16>::open(alloc, owner, 0, 100, 512)?;      // 100 blocks of up to 512 bytes
//! let block = arena.lend(&slots, 512)?;
//! drop(block);                                                                // by any thread
//! arena.drain(&slots) == 1
//! ```
//!
//! The slots serve values of any type. [`open_slots`] opens a number of them, and answers them with the one [`OwnerEnd`]. The
//! owner sends a value out by a free slot and gets a [`Ticket`] for it, which goes with the value. Whoever has both puts the value
//! back, in one call that ends and never waits, whatever the other threads do. The slot is the value's own for as long as it is
//! away, so it is never full. The owner looks at the slots, and takes what came home.
//!
//! ```text
//! let (slots, mut owner) = open_slots(alloc, 4)?;
//! let (value, ticket) = owner.send_out(&slots, 0, value);
//! ticket.put(&slots, value);                     // by any thread
//! owner.take(&slots, 0)                          // Some(value)
//! ```
#![tactic(auto)]

mod filled_remote_block;
mod parcel;
mod pool_arena;
mod remote_arena;
mod remote_block;
mod returns;
mod slot_list;
mod units;

pub use filled_remote_block::FilledRemoteBlock;
pub use parcel::Parcel;
pub use pool_arena::PoolArena;
pub use remote_arena::RemoteArena;
pub use remote_block::RemoteBlock;
pub use returns::owner_end::OwnerEnd;
pub use returns::receipt::Receipt;
pub use returns::slots::{Slots, open_slots};
pub use returns::ticket::Ticket;
pub use tlsf_arena::{Block, FilledBlock};
pub use tlsf_pool::PoolRefusal;
pub use units::{fixed_units, mixed_units, mixed_units_suffice};
