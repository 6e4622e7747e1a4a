use tlsf_heap::{Name, Refusal};

/// A post that was taken, and what the own heap answered to the release of the block that it names.
#[derive(Clone, Copy, Debug, PartialEq, Eq)]
pub struct Took {
    /// The worker that had posted it.
    pub from: u32,
    pub name: Name,
    pub answer: Result<(), Refusal>,
}
