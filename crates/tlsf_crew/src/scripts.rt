//! The calls of a script, one after another, whatever the ports: one executor, one journal.

pub(crate) mod executor;
pub(crate) mod journal;
pub(crate) mod lane_scripts;
pub(crate) mod own_replies;
pub(crate) mod queue_scripts;
pub(crate) mod room;
pub(crate) mod scripted;
