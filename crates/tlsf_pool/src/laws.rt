//! Laws of every heap: what its calls make of names and bytes, and how many words are enough.

pub(crate) mod contents;
pub(crate) mod fixed_size;
pub(crate) mod kinds;
pub(crate) mod mixed_sizes;
pub(crate) mod one_large;
pub(crate) mod places;
pub(crate) mod room;
