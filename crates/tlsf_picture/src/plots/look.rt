use crate::plots::standing::Standing;

/// The line of a trace to look at, and how a heap stands after it.
#[derive(Clone, Copy)]
pub struct Look {
    /// The number of the line; the header is line 1, and the end counts as one line more than the last.
    pub line: u32,
    /// How the heap stands there.
    pub standing: Standing,
}
