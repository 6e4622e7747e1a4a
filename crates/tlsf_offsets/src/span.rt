use tlsf_heap::Name;

/// Bytes of the memory that an [`OffsetArena`](crate::OffsetArena) cuts up, under the name that they go back by.
#[derive(Clone, Copy, Debug, PartialEq, Eq)]
pub struct Span {
    /// The name of its block.
    pub name: Name,
    /// How many bytes of the memory lie before it.
    pub offset: u64,
    /// Its bytes. They are those that were asked for, rounded up to whole units, four at least. The up to three units more that
    /// were too few to be a block are among them.
    pub size: u64,
}
