//! The lanes of a worker.
ghost use Rattle.std.specs.Prelude.{Option};

use tlsf_post::{PostEnd, TakeEnd};

/// The lanes of a worker: one to each other worker of its yard, and one from each.
#[derive(Drop)]
pub struct Lanes {
    // The capacity of each lane of the yard.
    pub(crate) capacity: u32,
    // The lane to each other worker; none to itself.
    pub(crate) posts: Vec<Option<PostEnd>>,
    // The lane from each other worker; none from itself.
    pub(crate) takes: Vec<Option<TakeEnd>>,
}
