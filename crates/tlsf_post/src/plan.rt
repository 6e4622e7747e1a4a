/// The bounds that a mailbox is laid out for. It stands in contracts alone: no value of it is made.
pub struct Plan {
    /// The number of its owner.
    pub owner: u32,
    /// How many workers there are, the owner too.
    pub workers: u32,
    /// How many posts it holds at most.
    pub capacity: u32,
}
