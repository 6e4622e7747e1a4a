/// The lines of its trace that a page names of a heap. The header is line 1, and the end counts as one line more than the last.
#[derive(Clone, Copy, Debug, PartialEq, Eq)]
pub struct NamedLines {
    /// The peak: the first line after which most of its words are live.
    pub peak: u32,
    /// The line after which it stands worst, or fullest where its longest request always finds room.
    pub look: u32,
    /// The bytes of the longest request of its worker, from 0 to 4,294,967,295.
    pub longest: u32,
}
