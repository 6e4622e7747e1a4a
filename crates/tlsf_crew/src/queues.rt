//! A yard over queues: one for each owner, into which all others post; its opening, its settling, and what its workers do.

pub(crate) mod queue_laws;
pub(crate) mod queue_opening;
pub(crate) mod queue_settle;
pub(crate) mod queues;
