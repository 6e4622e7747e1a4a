/// The end of a released block: freed here, or posted.
#[derive(Clone, Copy, Debug, PartialEq, Eq)]
pub enum Released {
    /// It was released.
    Freed,
    /// Its name was posted to the owner of its heap.
    Posted,
}
