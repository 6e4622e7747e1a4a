/// No fewer posts than may wait for one worker of a yard: from at most seven others, and at most 1,024 from each. So a drain of
/// this number of posts leaves none that it knows to be ready.
pub const MOST_DRAINED: u32 = 8192;

/// The work of a drain.
#[derive(Clone, Copy, Debug, PartialEq, Eq)]
pub struct Drained {
    /// The posts that were taken.
    pub taken: u32,
    /// Those of them whose block the own heap released.
    pub freed: u32,
}
