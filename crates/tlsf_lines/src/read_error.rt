use crate::limit::Limit;

/// Why an input was not read whole. [`TraceFault`](crate::TraceFault) has a fault for each.
#[derive(Clone, Copy, Debug, PartialEq, Eq)]
pub enum ReadError {
    /// The memory for the text was refused.
    NoMemory,
    /// The input passes this limit.
    TooLong(Limit),
    /// A read answered an error. A read that was interrupted is not tried again.
    Read,
}
