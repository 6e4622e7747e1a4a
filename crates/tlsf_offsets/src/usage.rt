/// How much of an [`OffsetArena`](crate::OffsetArena) is held and how much is left, in bytes.
#[derive(Clone, Copy, Debug, PartialEq, Eq)]
pub struct Usage {
    /// How many spans are held.
    pub spans: u32,
    /// Their bytes.
    pub held: u64,
    /// The bytes that no span has. Both together are the memory.
    pub free: u64,
    /// Of these the most that lie in one piece.
    pub largest: u64,
}
