/// A kind of request: a size, and how many blocks of it a program may hold at once.
///
/// ```
/// let kind = Kind { most: 100, len: 512 };        // 100 blocks of up to 512 bytes
/// ```
#[derive(Clone, Copy, Debug, PartialEq, Eq)]
pub struct Kind {
    /// How many blocks of this kind are held at once, at most.
    pub most: u32,
    /// The bytes of a request of this kind, at most.
    pub len: u32,
}
