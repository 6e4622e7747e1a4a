//! A yard over lanes: its opening, its settling, and what its workers do.

pub(crate) mod lane_worker;
pub(crate) mod laws;
pub(crate) mod opening;
pub(crate) mod pairs;
pub(crate) mod settle;
