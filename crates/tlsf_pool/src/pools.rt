//! Heaps of a given number of words, that never refuse for want of room.

pub(crate) mod one;
pub(crate) mod opening;
pub(crate) mod pool_refusal;
pub(crate) mod pools;
pub(crate) mod row_counts;
pub(crate) mod rows;
pub(crate) mod table;
