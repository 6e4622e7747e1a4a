/// The findings of a check of some blocks. A place is the number of the word at which a block begins.
#[derive(Clone, Copy, Debug, PartialEq, Eq)]
pub enum Checked {
    /// Each block that was looked at is sound. The next check goes on at `next`: the place behind the last of them, or 0 where the region
    /// ends there.
    Sound { next: u32 },
    /// The block at this place is damaged, and those looked at before it are sound.
    Damaged { at: u32 },
}
