/// The block that a line asks for.
#[derive(Clone, Copy, Debug, PartialEq, Eq)]
pub struct Request {
    /// The worker that asks.
    pub worker: u32,
    /// How many bytes it asks for.
    pub len: u32,
}
