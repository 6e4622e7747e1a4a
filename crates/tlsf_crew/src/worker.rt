//! A worker: its heap, its ports, and what it does over ports of any kind.

pub(crate) mod lanes;
pub(crate) mod live;
pub(crate) mod notes;
pub(crate) mod opening;
pub(crate) mod ports;
pub(crate) mod worker;
