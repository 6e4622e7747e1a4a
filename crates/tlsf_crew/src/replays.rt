//! A list of events, run in one thread.

pub(crate) mod replay;
