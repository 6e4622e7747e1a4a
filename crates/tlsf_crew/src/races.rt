//! Races: scripts in threads, and then the last drains.

pub(crate) mod queue_race;
pub(crate) mod race;
