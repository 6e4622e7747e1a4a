/// How small the heap of a worker may be, beside what its blocks want and what the law asks for.
#[derive(Clone, Copy, Debug, PartialEq, Eq)]
pub struct LeastRow {
    /// The words of heaps in which none of its requests lacks room, and with one word less one does. None where the largest heaps of the
    /// level refuse one.
    pub words: Option<u32>,
    /// The most words that the held blocks wanted at once, the one that was asked for included.
    pub wanted: u128,
    /// The words of a region in which such calls are never refused for want of room. None where no region has that many.
    pub law: Option<u32>,
}
