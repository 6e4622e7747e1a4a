/// The first line of a trace after which a heap has most live words.
#[derive(Clone, Copy)]
pub struct Peak {
    /// The number of the line; the header is line 1, and the end counts as one line more than the last.
    pub line: u32,
    /// The words that are live there, of 64 bits each.
    pub live: u32,
}
