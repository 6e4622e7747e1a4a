/// The counts of a row of a table: how many blocks are held of it, and how many may be.
///
/// ```text
/// pools.counts(0)                         // of new pools with 2,000 blocks of the first kind: Some(RowCounts { held: 0, most: 2000 })
/// ```
#[derive(Clone, Copy, Debug, PartialEq, Eq)]
pub struct RowCounts {
    /// How many blocks of this row are held: at most `most`.
    pub held: u32,
    /// How many blocks of this row may be held at once.
    pub most: u32,
}
