//! The words that the laws ask for, as numbers.

pub(crate) mod fixed_size;
pub(crate) mod greatest;
pub(crate) mod one_large;
pub(crate) mod region;
pub(crate) mod rising;
pub(crate) mod sizing;
pub(crate) mod split;
