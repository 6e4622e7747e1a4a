//! One history for each heap, of each list of events.

pub(crate) mod history;
