//! Slots by which values come home from other threads. The words that several threads change are here alone.

pub(crate) mod owner_end;
pub(crate) mod receipt;
mod role;
mod rule;
pub(crate) mod slots;
pub(crate) mod ticket;
