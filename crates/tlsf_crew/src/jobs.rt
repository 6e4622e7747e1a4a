//! The threads of a race: a job for each worker, its record and what it hands back.

pub(crate) mod fan_out;
pub(crate) mod gate;
pub(crate) mod job;
pub(crate) mod outcome;
pub(crate) mod preparation;
pub(crate) mod running;
pub(crate) mod work;
pub(crate) mod work_promise;
